// Why a text describes no convention.
ghost use Rattle.std.specs.Prelude.{◌≡◌, Some, option_map};
ghost use Rattle.origins.specs.Faults.{fault_from};
ghost use Rattle.stage.specs.Faults.{parameter_fault};
ghost use Rattle.pages.specs.Faults.{cause_number, shown, text_fault};
ghost use Rattle.pages.specs.declared.faults.DescriptionFault.TheVariants.{Text, Memory};
ghost use Rattle.pages.specs.declared.faults.Cause.TheVariants.{Form};

use origins::{Layer, Origin};
use stage::ParameterFault;
use std::alloc::AllocError;
use std::error::Error;
use std::fmt;
use values::unknown::Unknown;

#[derive(Clone, Copy, PartialEq, Eq, Debug)]
pub enum Cause {
    // Empty, or over 8,192 bytes.
    Length,
    // A byte, a word, a count or a line outside the form.
    Form,
    // A number or a register out of its range, or a register twice.
    Range,
    // No earlier stage, or one that is used already.
    Stage,
    // One stage too many, one that is not used, or the end of the text before its last line.
    Count,
}

#[derive(Clone, Copy, PartialEq, Eq, Debug)]
pub enum DescriptionFault {
    // The first line at fault; 0 where the text as a whole is.
    Text { cause: Cause, line: u32 },
    // There was no memory for the piles.
    Memory,
}

impl Cause {
    // A method, since a conversion to a number would not say that it is the fault's.
    pub fn number(self) -> u8
        ensures its_number { result ≡ cause_number self }
    {
        match self {
            Cause::Length => 1,
            Cause::Form => 2,
            Cause::Range => 3,
            Cause::Stage => 4,
            Cause::Count => 5,
        }
    }
}

// Of the parameters of a stage, by the number of its fault.
impl From<ParameterFault> for Cause {
    ghost from_gives = { λ f c. cause_number c ≡ (parameter_fault f).number };

    fn from(fault: ParameterFault) -> Cause {
        match fault {
            ParameterFault::Form => Cause::Form,
            ParameterFault::Range => Cause::Range,
        }
    }
}

// A letter that no kind has is outside the form.
impl From<Unknown> for Cause {
    ghost from_gives = { λ _ c. c ≡ Form };

    fn from(_unknown: Unknown) -> Cause {
        Self::Form
    }
}

// A cause, and the number of the line.
impl From<(Cause, u32)> for DescriptionFault {
    ghost from_gives = { λ c f. f ≡ Text c.0 c.1 };

    fn from((cause, line): (Cause, u32)) -> DescriptionFault {
        DescriptionFault::Text { cause, line }
    }
}

impl From<AllocError> for DescriptionFault {
    ghost from_gives = { λ _ f. f ≡ Memory };

    fn from(_error: AllocError) -> DescriptionFault {
        Self::Memory
    }
}

impl DescriptionFault {
    // At the line; none for want of memory, which has no number.
    pub fn origin(self) -> Option<Origin>
        ensures its_layer_number_and_line { option_map fault_from result ≡ text_fault self }
    {
        match self {
            DescriptionFault::Text { cause, line } => Some(Origin {
                layer: Layer::Texts,
                number: cause.number(),
                position: line as usize,
            }),
            DescriptionFault::Memory => None,
        }
    }
}

impl fmt::Display for DescriptionFault {
    ghost output = { λ f. Some (shown f) };

    ghost styled_output = { λ f _. Some (shown f) };

    fn fmt<W: fmt::Write>(&self, f: &mut fmt::Formatter<W>) -> fmt::Result {
        match self.origin() {
            Some(origin) => fmt::Display::fmt(&origin, f),
            None => f.write_str("no memory for the piles"),
        }
    }
}

impl Error for DescriptionFault {}
