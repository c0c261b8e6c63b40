// The line of a text that a fault blames.
ghost use Rattle.std.specs.Prelude.{◌≡◌};
ghost use Rattle.service.specs.Culprits.{line_in, line_of, culprit_of, LinesArePartsOfTheirTexts};

use crate::faults::Fault;
use allocation::faults::{Cause, PlacementFault};
use call_faults::CallFault;
use pages::faults::DescriptionFault;
use texts::parts::Parts;

// The line with a number, from 1, without its feed; empty where there is none.
fn line_in(text: &[u8], line: u32) -> &[u8]
    ensures the_line_or_nothing { result.now ≡ line_in text.now line }
{
    match line.checked_sub(1) {
        Some(before) => Parts::lines(text).nth_part(before).unwrap_or(&[]),
        None => &[],
    }
}

// The number of the line that a fault blames; 0 where it blames none.
fn line_of(fault: &Fault) -> u32
    ensures the_line_or_zero { result ≡ line_of fault.now }
{
    match fault {
        Fault::Description(DescriptionFault::Text { cause: _, line }) => *line,
        Fault::Signature(refusal) => refusal.line,
        Fault::Call(
            CallFault::Placement(
                PlacementFault {
                    cause: Cause::Refused(refusal),
                    position: _,
                },
            ),
        ) => refusal.line,
        _ => 0,
    }
}

// The line that a fault blames, as a part of the text that it lies in; empty where it blames none.
pub fn culprit<'t>(fault: &Fault, description: &'t [u8], list: &'t [u8]) -> &'t [u8]
    ensures line_of_the_text_that_the_layer_reads { result.now ≡ culprit_of fault.now description.now list.now }
    ensures a_line_is_a_part_of_its_text { LinesArePartsOfTheirTexts }
{
    let text = match fault {
        Fault::Signature(_) => list,
        _ => description,
    };
    line_in(text, line_of(fault))
}
