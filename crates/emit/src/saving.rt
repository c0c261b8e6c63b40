// The registers that a callee saves: those that are kept and that its body writes.
ghost use Rattle.std.specs.Prelude.{◌≡◌, ◌+◌, ◌^◌, ◌<◌, ◌≤◌, length};
ghost use Rattle.delivery.specs.Code.{saved, each_word};
ghost use Rattle.emit.specs.Emitting.{Appends};
ghost use Rattle.emit.specs.Registers.{destination, members, word_code};

use crate::instructions::{load, store};
use crate::records::Records;
use machine::{Instruction, Width};
use place::registers::RegisterSet;

// The register that an instruction writes.
fn destination(x: Instruction) -> Option<u8>
    ensures the_register_that_it_writes { result ≡ destination x }
{
    match x {
        Instruction::Set { d, .. }
        | Instruction::Mov { d, .. }
        | Instruction::Add { d, .. }
        | Instruction::Addi { d, .. }
        | Instruction::Sign { d, .. }
        | Instruction::Load { d, .. } => Some(d),
        Instruction::Store { .. } | Instruction::Call | Instruction::Ret | Instruction::Halt =>
            None,
    }
}

pub(crate) fn saved_registers(kept: RegisterSet, body: &[Instruction]) -> RegisterSet
    ensures kept_ones_that_the_body_writes { members result.bits ≡ saved kept.bits body.now }
{
    body.iter()
        .filter_map(|x| destination(*x))
        .filter(|d| kept.contains(*d))
        .fold(RegisterSet::EMPTY, |set, d| set.with(d))
}

pub(crate) fn count_saved(saved: RegisterSet) -> u32
    ensures their_number { result ≡ length (members saved.bits) }
    ensures at_most_28 { result ≤ 28 }
{
    // Most bodies write no kept register: nothing to go through then.
    if saved == RegisterSet::EMPTY {
        return 0;
    }
    (0..28).filter(|r| saved.contains(*r)).count() as u32
}

// What is done with saved registers and their words. An enum, since a chain with a closure gets no proof in a generic function.
#[derive(Clone, Copy, PartialEq, Eq, Debug)]
pub(crate) enum WordMove {
    Save,
    Restore,
}

impl WordMove {
    fn instruction(self, r: u8, word: u32) -> Instruction
        ensures whole_register_to_or_from_its_word { result ≡ word_code self r word }
    {
        match self {
            WordMove::Save => store(r, word, Width::Four),
            WordMove::Restore => load(r, word, Width::Four),
        }
    }
}

// Saved registers whose words lie one after the other, the first at `home`.
fn put_words(way: WordMove, records: &mut Records, saved: RegisterSet, home: u32)
    requires room { records.old.len < 2 ^ 29 }
    requires near { home ≤ 90000 }
    ensures code_for_each_register { Appends (each_word (word_code way) (members saved.bits) home) records.old records.new }
    ensures few { records.new.len ≤ records.old.len + 28 }
{
    for (i, r) in (0..28).filter(|r| saved.contains(*r)).enumerate() {
        records.put(way.instruction(r, home + 4 * i as u32));
    }
}

// The same, at once where none is saved: an empty body's code would else take a third longer. Apart from the loop,
// whose invariant speaks of the whole list.
pub(crate) fn put_saved(way: WordMove, records: &mut Records, saved: RegisterSet, home: u32)
    requires room { records.old.len < 2 ^ 29 }
    requires near { home ≤ 90000 }
    ensures code_for_each_register { Appends (each_word (word_code way) (members saved.bits) home) records.old records.new }
    ensures few { records.new.len ≤ records.old.len + 28 }
{
    if saved != RegisterSet::EMPTY {
        put_words(way, records, saved, home);
    }
}
