// The callee's code.
ghost use Rattle.std.specs.Prelude.{◌≡◌, ◌+◌, ◌≤◌, length, IfOk, OnOk};
ghost use Rattle.allocation.specs.States.{state};
ghost use Rattle.delivery.specs.Bodies.{body_fault};
ghost use Rattle.delivery.specs.Code.{home_bytes, saved, frame_bytes, callee_code};
ghost use Rattle.emit.specs.Coding.{places_fault, or_body, callee_fault, Coded, fault_in, HoldsWhatRequestsGot, CalleeOffsetsAreWhole};

use crate::checks::{check_body, check_places};
use crate::faults::CodeFault;
use crate::instructions::{stack_down, stack_up};
use crate::places::{CopyFrom, Fill, put_each};
use crate::records::Records;
use crate::saving::{WordMove, count_saved, put_saved, saved_registers};
use crate::side::{Frame, SideCode, size, write};
use allocation::frozen::Frozen;
use machine::Instruction;
use place::registers::RegisterSet;
use stage::Stage;
use values::sizes::Size;

#[derive(Drop)]
struct Callee<'a, P, Q> {
    arguments: &'a Frozen<P>,
    results: &'a Frozen<Q>,
    kept: RegisterSet,
    body: &'a [Instruction],
}

impl<P: Stage, Q: Stage> Callee<'_, P, Q> {
    fn home_bytes(&self) -> u16
        ensures eight_for_each_place { result ≡ home_bytes (length (state P.Stage self.now.arguments.now).held + length (state Q.Stage self.now.results.now).held) }
        ensures at_most_256 { result ≤ 256 }
        ensures at_most_sixteen_arguments { length (state P.Stage self.now.arguments.now).held ≤ 16 }
    {
        8 * (self.arguments.held().len() + self.results.held().len()) as u16
    }
}

impl<P: Stage, Q: Stage> SideCode for Callee<'_, P, Q> {
    ghost code = { λ c. callee_code (state P.Stage c.arguments.now).held (state Q.Stage c.results.now).held c.kept.bits c.body.now };

    ghost bytes = { λ c. frame_bytes (state P.Stage c.arguments.now).held (state Q.Stage c.results.now).held (saved c.kept.bits c.body.now) };

    ghost saved = { λ c. saved c.kept.bits c.body.now };

    ghost places = { λ c. length (state P.Stage c.arguments.now).held + length (state Q.Stage c.results.now).held };

    ghost fault = { λ c. or_body (places_fault (state P.Stage c.arguments.now) (state Q.Stage c.results.now) c.kept.bits) (body_fault (home_bytes (length (state P.Stage c.arguments.now).held + length (state Q.Stage c.results.now).held)) c.body.now 0) };

    // Sixteen arguments, four results and 28 saved registers.
    ghost most = { 272 };

    fn check(&self) -> Result<(), CodeFault> {
        check_places(self.arguments, self.results, self.kept)?;
        check_body(self.body, self.home_bytes())
    }

    // Its homes and a word for each saved register.
    fn frame(&self) -> Frame {
        let saved = saved_registers(self.kept, self.body);
        let words = count_saved(saved);
        Frame {
            bytes: Size::Eight.round_up(self.home_bytes() + 4 * words as u16),
            saved,
        }
    }

    fn put(&self, frame: Frame, records: &mut Records) {
        // The words lie behind all homes.
        let words = u32::from(self.home_bytes());
        let arguments = self.arguments.held();
        let result_homes = 8 * arguments.len() as u32;
        records.put(stack_down(frame.bytes));
        put_saved(WordMove::Save, records, frame.saved, words);
        put_each(&CopyFrom { block: frame.bytes }, records, arguments, 0);
        records.put_all(self.body);
        put_each(&Fill, records, self.results.held(), result_homes);
        put_saved(WordMove::Restore, records, frame.saved, words);
        records.put(stack_up(frame.bytes));
        records.put(Instruction::Ret);
    }
}

// The length of the callee's code for these allocations and this body, and the stack bytes that it takes. What a caller has
// at hand is taken one by one, as for the caller's code.
// It is refused where there is room for fewer records.
pub fn callee_size<P: Stage, Q: Stage>(
    arguments: &Frozen<P>,
    results: &Frozen<Q>,
    kept: RegisterSet,
    body: &[Instruction],
    room: usize,
) -> Result<(usize, u32), CodeFault>
    ensures refused_by_the_first_test_that_fails { fault_in result ≡ callee_fault (state P.Stage arguments.now) (state Q.Stage results.now) kept.bits body.now room }
    ensures length_and_stack_bytes { IfOk result (λ x. (x.0 ≡ length (callee_code (state P.Stage arguments.now).held (state Q.Stage results.now).held kept.bits body.now)) × (x.1 ≡ frame_bytes (state P.Stage arguments.now).held (state Q.Stage results.now).held (saved kept.bits body.now))) }
    ensures within_the_room { IfOk result (λ x. x.0 ≤ room) }
    ensures few_stack_bytes { IfOk result (λ x. x.1 ≤ 272) }
    ensures body_of_at_most_256_instructions { OnOk result (length body.now ≤ 256) }
{
    let callee = Callee {
        arguments,
        results,
        kept,
        body,
    };
    size(&callee, room)
}

// Writes the callee's code for these allocations and this body into the list; answers its length and the stack bytes that it takes.
pub fn callee_code<P: Stage, Q: Stage>(
    arguments: &Frozen<P>,
    results: &Frozen<Q>,
    kept: RegisterSet,
    body: &[Instruction],
    code: &mut [Instruction],
) -> Result<(usize, u32), CodeFault>
    ensures refused_by_the_first_test_that_fails { fault_in result ≡ callee_fault (state P.Stage arguments.now) (state Q.Stage results.now) kept.bits body.now (length code.old) }
    ensures code_at_the_front_and_the_rest_untouched { Coded (callee_code (state P.Stage arguments.now).held (state Q.Stage results.now).held kept.bits body.now) (frame_bytes (state P.Stage arguments.now).held (state Q.Stage results.now).held (saved kept.bits body.now)) code.old code.new result }
    ensures few_stack_bytes { IfOk result (λ x. x.1 ≤ 272) }
    ensures no_offset_is_cut_for_what_requests_got { OnOk result (
        HoldsWhatRequestsGot (state P.Stage arguments.now)
        → HoldsWhatRequestsGot (state Q.Stage results.now)
        → CalleeOffsetsAreWhole (state P.Stage arguments.now) (state Q.Stage results.now)
        kept.bits body.now) }
{
    let callee = Callee {
        arguments,
        results,
        kept,
        body,
    };
    write(&callee, code)
}
