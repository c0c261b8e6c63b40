// Why no code is made.
ghost use Rattle.std.specs.Prelude.{◌≡◌, Some};
ghost use Rattle.origins.specs.Faults.{fault_from, fault_text};
ghost use Rattle.emit.specs.Faults.{code_fault_of};

use origins::{Layer, Origin};
use std::error::Error;
use std::fmt;

#[derive(Clone, Copy, PartialEq, Eq, Debug)]
pub enum CodeFault {
    // A kept register is above r27, or one that a pile may give.
    Kept,
    // More than four results, or one in the block.
    Results,
    // The index of the first bad instruction of the body, or of the one too many.
    Body(usize),
    // The list of records is too short.
    TooShort,
}

impl CodeFault {
    // At an instruction's index in the body, where it is of one.
    pub fn origin(self) -> Origin
        ensures its_layer_number_and_position { fault_from result ≡ code_fault_of self }
    {
        let (number, position) = match self {
            CodeFault::Kept => (31, 0),
            CodeFault::Results => (32, 0),
            CodeFault::Body(index) => (33, index),
            CodeFault::TooShort => (34, 0),
        };
        Origin {
            layer: Layer::Code,
            number,
            position,
        }
    }
}

impl fmt::Display for CodeFault {
    ghost output = { λ f. Some (fault_text (code_fault_of f)) };

    ghost styled_output = { λ f _. Some (fault_text (code_fault_of f)) };

    fn fmt<W: fmt::Write>(&self, f: &mut fmt::Formatter<W>) -> fmt::Result {
        fmt::Display::fmt(&self.origin(), f)
    }
}

impl Error for CodeFault {}
