// The caller's code.
ghost use Rattle.std.specs.Prelude.{◌≡◌, ◌+◌, ◌≤◌, [], length, IfOk, OnOk};
ghost use Rattle.allocation.specs.States.{state};
ghost use Rattle.delivery.specs.Code.{caller_code};
ghost use Rattle.emit.specs.Coding.{block_bytes, places_fault, caller_fault, Coded, fault_in, HoldsWhatRequestsGot, RequestsGetWhatIsHeld, CallerOffsetsAreWhole};

use crate::checks::check_places;
use crate::faults::CodeFault;
use crate::instructions::{stack_down, stack_up};
use crate::places::{Fill, Store, put_each};
use crate::records::Records;
use crate::side::{Frame, SideCode, size, write};
use allocation::frozen::Frozen;
use machine::Instruction;
use place::registers::RegisterSet;
use stage::Stage;
use values::sizes::Size;

#[derive(Drop)]
struct Caller<'a, P, Q> {
    arguments: &'a Frozen<P>,
    results: &'a Frozen<Q>,
    kept: RegisterSet,
}

impl<P: Stage, Q: Stage> SideCode for Caller<'_, P, Q> {
    ghost code = { λ c. caller_code (state P.Stage c.arguments.now).held (state Q.Stage c.results.now).held (block_bytes (state P.Stage c.arguments.now)) };

    ghost bytes = { λ c. block_bytes (state P.Stage c.arguments.now) };

    // None: what is kept, the callee saves.
    ghost saved = { λ _. [] };

    ghost places = { λ c. length (state P.Stage c.arguments.now).held + length (state Q.Stage c.results.now).held };

    ghost fault = { λ c. places_fault (state P.Stage c.arguments.now) (state Q.Stage c.results.now) c.kept.bits };

    ghost most = { 65536 };

    fn check(&self) -> Result<(), CodeFault> {
        check_places(self.arguments, self.results, self.kept)
    }

    // What the arguments' block takes.
    fn frame(&self) -> Frame {
        Frame {
            bytes: Size::Eight.round_up(self.arguments.reach()),
            saved: RegisterSet::EMPTY,
        }
    }

    fn put(&self, frame: Frame, records: &mut Records) {
        let block = frame.bytes;
        let arguments = self.arguments.held();
        let result_homes = block + 8 * arguments.len() as u32;
        records.put(stack_down(block));
        put_each(&Fill, records, arguments, block);
        records.put(Instruction::Call);
        put_each(&Store, records, self.results.held(), result_homes);
        records.put(stack_up(block));
        records.put(Instruction::Halt);
    }
}

// The length of the caller's code for these allocations, and the stack bytes that it takes. The code calls take what a
// caller has at hand one by one, which is plainer at a call than a struct of it.
// It is refused where there is room for fewer records.
pub fn caller_size<P: Stage, Q: Stage>(
    arguments: &Frozen<P>,
    results: &Frozen<Q>,
    kept: RegisterSet,
    room: usize,
) -> Result<(usize, u32), CodeFault>
    ensures refused_by_the_first_test_that_fails { fault_in result ≡ caller_fault (state P.Stage arguments.now) (state Q.Stage results.now) kept.bits room }
    ensures length_and_stack_bytes { IfOk result (λ x. (x.0 ≡ length (caller_code (state P.Stage arguments.now).held (state Q.Stage results.now).held (block_bytes (state P.Stage arguments.now)))) × (x.1 ≡ block_bytes (state P.Stage arguments.now))) }
    ensures within_the_room { IfOk result (λ x. x.0 ≤ room) }
    ensures at_most_65536_stack_bytes { IfOk result (λ x. x.1 ≤ 65536) }
    ensures few_stack_bytes_for_what_requests_got { IfOk result (λ x.
        HoldsWhatRequestsGot (state P.Stage arguments.now) → x.1 ≤ 4096) }
{
    let caller = Caller {
        arguments,
        results,
        kept,
    };
    size(&caller, room)
}

// Writes the caller's code for these allocations into the list; answers its length and the stack bytes that it takes.
pub fn caller_code<P: Stage, Q: Stage>(
    arguments: &Frozen<P>,
    results: &Frozen<Q>,
    kept: RegisterSet,
    code: &mut [Instruction],
) -> Result<(usize, u32), CodeFault>
    ensures refused_by_the_first_test_that_fails { fault_in result ≡ caller_fault (state P.Stage arguments.now) (state Q.Stage results.now) kept.bits (length code.old) }
    ensures code_at_the_front_and_the_rest_untouched { Coded (caller_code (state P.Stage arguments.now).held (state Q.Stage results.now).held (block_bytes (state P.Stage arguments.now))) (block_bytes (state P.Stage arguments.now)) code.old code.new result }
    ensures few_stack_bytes_for_what_requests_got { IfOk result (λ x.
        HoldsWhatRequestsGot (state P.Stage arguments.now) → x.1 ≤ 4096) }
    ensures no_offset_is_cut_for_what_requests_got { OnOk result (
        HoldsWhatRequestsGot (state P.Stage arguments.now)
        → CallerOffsetsAreWhole (state P.Stage arguments.now) (state Q.Stage results.now)) }
    // The premise holds of each allocation that was opened, whatever it was asked for since.
    ensures requests_get_what_is_held { RequestsGetWhatIsHeld }
{
    let caller = Caller {
        arguments,
        results,
        kept,
    };
    write(&caller, code)
}
