// What forbids the code of a call.
ghost use Rattle.std.specs.Prelude.{◌≡◌, map, length, None};
ghost use Rattle.allocation.specs.States.{state, holding};
ghost use Rattle.delivery.specs.Bodies.{body_fault};
ghost use Rattle.place.specs.Pieces.{in_block, low_piece};
ghost use Rattle.emit.specs.Coding.{in_block_any, results_forbidden, kept_clashes, places_fault, or_body, fault_in};

use crate::body::body_fault;
use crate::faults::CodeFault;
use allocation::frozen::Frozen;
use allocation::held::Held;
use machine::Instruction;
use place::pieces::{Piece, Place};
use place::registers::RegisterSet;
use stage::Stage;

fn lies_in_block(place: Place) -> bool
    ensures whether_its_low_piece_does { result ≡ in_block (low_piece place) }
{
    matches!(
        place,
        Place::Single(Piece::Block { .. }) | Place::Double(Piece::Block { .. }, _)
    )
}

// Whether a place of the list lies in the block.
fn any_in_block(held: &[Held]) -> bool
    ensures whether_one_lies_in_the_block { result ≡ in_block_any (map holding held.now) }
{
    held.iter().any(|h| lies_in_block(h.place))
}

// Whether results cannot travel so: more than four, or one in the block.
fn results_forbidden(held: &[Held]) -> bool
    ensures more_than_four_or_one_in_the_block { result ≡ results_forbidden (map holding held.now) }
{
    held.len() > 4 || any_in_block(held)
}

// Whether a kept register is above r27, or in one of the sets.
fn kept_clashes(kept: RegisterSet, arguments: RegisterSet, results: RegisterSet) -> bool
    ensures above_r27_or_in_a_set { result ≡ kept_clashes arguments.bits results.bits kept.bits }
{
    kept.bits > 0x0FFF_FFFF || !kept.is_disjoint(arguments) || !kept.is_disjoint(results)
}

// What these places and this kept set forbid: the kept set is tested first, then the results.
pub(crate) fn check_places<P: Stage, Q: Stage>(
    arguments: &Frozen<P>,
    results: &Frozen<Q>,
    kept: RegisterSet,
) -> Result<(), CodeFault>
    ensures refused_by_the_first_test_that_fails { fault_in result ≡ places_fault (state P.Stage arguments.now) (state Q.Stage results.now) kept.bits }
{
    if kept_clashes(kept, arguments.registers(), results.registers()) {
        return Err(CodeFault::Kept);
    }
    if results_forbidden(results.held()) {
        return Err(CodeFault::Results);
    }
    Ok(())
}

// A body that has an instruction that it may not have, or one too many, is refused at that one.
pub(crate) fn check_body(body: &[Instruction], homes: u16) -> Result<(), CodeFault>
    ensures at_the_first_bad_instruction { fault_in result ≡ or_body None (body_fault homes body.now 0) }
{
    body_fault(body, homes).map_or(Ok(()), |i| Err(CodeFault::Body(i)))
}
