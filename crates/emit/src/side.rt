// The code of one side of a call, whichever it is.
ghost use Rattle.std.specs.Prelude.{◌≡◌, ◌≤◌, ℕ, List, length, IfOk, OnOk, None, Option};
ghost use Rattle.machine.specs.declared.Instruction.{Instruction};
ghost use Rattle.stage.specs.Faults.{Fault};
ghost use Rattle.emit.specs.Emitting.{Appends};
ghost use Rattle.emit.specs.Coding.{Coded, fault_in, short_fault};
ghost use Rattle.emit.specs.Registers.{members};

use crate::faults::CodeFault;
use crate::records::Records;
use machine::Instruction;
use place::registers::RegisterSet;

// What the code of a side takes of the stack: how many bytes, and for which registers a word of them. A code call finds
// it once and hands it on, since a callee's body is gone through for it.
#[derive(Clone, Copy, PartialEq, Eq, Debug)]
pub(crate) struct Frame {
    pub(crate) bytes: u32,
    pub(crate) saved: RegisterSet,
}

pub(crate) trait SideCode {
    // Its whole code.
    ghost code: { Self → List Instruction };

    // The stack bytes that the code takes.
    ghost bytes: { Self → ℕ };

    // The registers that the code saves.
    ghost saved: { Self → List ℕ };

    // How many places it has.
    ghost places: { Self → ℕ };

    // What forbids the code, however much room there is.
    ghost fault: { Self → Option Fault };

    // The most stack bytes that code takes which nothing forbids.
    ghost most: { ℕ };

    fn check(&self) -> Result<(), CodeFault>
        ensures refused_by_the_first_test_that_fails { fault_in result ≡ fault self.now };

    fn frame(&self) -> Frame
        ensures its_stack_bytes { result.bytes ≡ bytes self.now }
        ensures its_saved_registers { members result.saved.bits ≡ saved self.now }
        ensures few_where_nothing_forbids_it { fault self.now ≡ None → result.bytes ≤ most };

    fn put(&self, frame: Frame, records: &mut Records)
        requires allowed { fault self.now ≡ None }
        requires its_stack_bytes { frame.bytes ≡ bytes self.now }
        requires its_saved_registers { members frame.saved.bits ≡ saved self.now }
        requires few_stack_bytes { frame.bytes ≤ most }
        requires from_the_front { records.old.len ≡ 0 }
        ensures the_whole_code { Appends (code self.now) records.old records.new }
        ensures few_places { places self.now ≤ 32 };
}

fn count<S: SideCode>(side: &S, frame: Frame) -> usize
    requires allowed { S.fault side.now ≡ None }
    requires its_stack_bytes { frame.bytes ≡ S.bytes side.now }
    requires its_saved_registers { members frame.saved.bits ≡ S.saved side.now }
    requires few_stack_bytes { frame.bytes ≤ S.most }
    ensures its_length { result ≡ length (S.code side.now) }
    ensures few_places { S.places side.now ≤ 32 }
{
    // A pass over no list only counts the records.
    let mut records = Records::new(&mut []);
    side.put(frame, &mut records);
    records.len()
}

// The length of the code and its frame; it is refused where there is room for fewer records.
fn measure<S: SideCode>(side: &S, room: usize) -> Result<(usize, Frame), CodeFault>
    ensures refused_by_the_first_test_that_fails { fault_in result ≡ short_fault (S.fault side.now) (length (S.code side.now)) room }
    ensures length_and_frame { IfOk result (λ x. (x.0 ≡ length (S.code side.now)) × (x.1.bytes ≡ S.bytes side.now) × (members x.1.saved.bits ≡ S.saved side.now)) }
    ensures within_the_room { IfOk result (λ x. x.0 ≤ room) }
    ensures few_stack_bytes { IfOk result (λ x. x.1.bytes ≤ S.most) }
    ensures few_places { OnOk result (S.places side.now ≤ 32) }
    ensures nothing_forbids_it { OnOk result (S.fault side.now ≡ None) }
{
    side.check()?;
    let frame = side.frame();
    let length = count(side, frame);
    if room < length {
        return Err(CodeFault::TooShort);
    }
    Ok((length, frame))
}

// The length of the code and its stack bytes, by the rules a pair; it is refused where there is room for fewer records.
pub(crate) fn size<S: SideCode>(side: &S, room: usize) -> Result<(usize, u32), CodeFault>
    ensures refused_by_the_first_test_that_fails { fault_in result ≡ short_fault (S.fault side.now) (length (S.code side.now)) room }
    ensures length_and_stack_bytes { IfOk result (λ x. (x.0 ≡ length (S.code side.now)) × (x.1 ≡ S.bytes side.now)) }
    ensures within_the_room { IfOk result (λ x. x.0 ≤ room) }
    ensures few_stack_bytes { IfOk result (λ x. x.1 ≤ S.most) }
    ensures few_places { OnOk result (S.places side.now ≤ 32) }
{
    let (length, frame) = measure(side, room)?;
    Ok((length, frame.bytes))
}

// Writes the code to the front of the list; answers its length and its stack bytes.
pub(crate) fn write<S: SideCode>(
    side: &S,
    list: &mut [Instruction],
) -> Result<(usize, u32), CodeFault>
    ensures refused_by_the_first_test_that_fails { fault_in result ≡ short_fault (S.fault side.now) (length (S.code side.now)) (length list.old) }
    ensures code_at_the_front_and_the_rest_untouched { Coded (S.code side.now) (S.bytes side.now) list.old list.new result }
    ensures few_stack_bytes { IfOk result (λ x. x.1 ≤ S.most) }
    ensures few_places { OnOk result (S.places side.now ≤ 32) }
{
    let (length, frame) = measure(side, list.len())?;
    side.put(frame, &mut Records::new(list));
    Ok((length, frame.bytes))
}
