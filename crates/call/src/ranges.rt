// What the types of a list's elements say of all of them at once. A proof learns it of a list of numbers that a function
// is given, and of other elements where one of them is read.
ghost use Rattle.std.specs.Prelude.{ℕ, ◌<◌, slice_index};
ghost use Rattle.std.specs.List.{AllByRecursion};
ghost use Rattle.delivery.specs.Delivering.{Sized};

use machine::Instruction;

// Does nothing; what it is for is the promise.
pub(crate) fn know_bytes(_memory: &[u8])
    ensures each_has_8_bits { (a : ℕ) → slice_index _memory.now a < 256 }
{}

fn read_number(instruction: Instruction) -> u32
    ensures has_32_bits { Sized instruction }
{
    match instruction {
        Instruction::Set { n, .. } => n,
        _ => 0,
    }
}

pub(crate) fn read_numbers(body: &[Instruction])
    ensures each_has_32_bits { AllByRecursion Sized body.now }
{
    for instruction in body {
        let _ = read_number(*instruction);
    }
}
