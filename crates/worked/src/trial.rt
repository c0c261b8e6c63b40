// Piles, asked for types, against what they should answer.
ghost use Rattle.std.specs.Prelude.{Decides};
ghost use Rattle.worked.specs.Trials.{Gives, asks, expects};

use allocation::answers::{Answer, same_answer};
use allocation::asked::Asked;
use allocation::opened::Open;
use stage::Stage;
use values::sizes::Size;

// Whether the pile, newly opened, answers each line so, and has then used so many block bytes, rounded up to 8.
pub(crate) fn gives<P: Stage + Drop>(pile: P, lines: &[(Asked, Answer)], block: u32) -> bool
    ensures whether_it_gives_what_is_expected { Decides result (Gives (P.Stage.profile pile) (asks lines.now) (expects lines.now) block) }
{
    let mut allocation = Open::new(pile);
    for line in lines {
        let (asked, expected) = *line;
        let answer = allocation.place(asked);
        if !same_answer(answer, expected) {
            return false;
        }
    }
    Size::Eight.round_up(allocation.freeze().reach()) == block
}
