// Answers of allocations, compared.
ghost use Rattle.std.specs.Prelude.{◌≡◌, Decides};
ghost use Rattle.allocation.specs.Faults.{answer_of};

use crate::faults::PlacementFault;
use place::pieces::Place;

// What place answers.
pub type Answer = Result<Place, PlacementFault>;

// Whether both are the same place, or refusals with one number and position.
pub fn same_answer(a: Answer, b: Answer) -> bool
    ensures by_place_or_by_number_and_position { Decides result (answer_of a ≡ answer_of b) }
{
    a == b
}
