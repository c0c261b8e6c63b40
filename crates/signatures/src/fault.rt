// Why a line of a list is no signature.
ghost use Rattle.std.specs.Prelude.{◌≡◌, Some};
ghost use Rattle.origins.specs.Faults.{fault_from, fault_text};
ghost use Rattle.signatures.specs.Faults.{cause_number, signature_fault_of};
ghost use Rattle.signatures.specs.declared.fault.Cause.TheVariants.{NotAType, Count};

use arrayvec::CapacityError;
use origins::{Layer, Origin};
use std::error::Error;
use std::fmt;
use values::unknown::Unknown;
use values::value_type::ValueType;

#[derive(Clone, Copy, PartialEq, Eq, Debug)]
pub enum Cause {
    // No line with that number, or one that has not the form of a signature.
    Line,
    // A word that stands for no type.
    NotAType,
    // More than 16 types before the colon, or more than 4 behind it.
    Count,
}

#[derive(Clone, Copy, PartialEq, Eq, Debug)]
pub struct SignatureFault {
    pub cause: Cause,
    // The number of the line, from 1.
    pub line: u32,
}

impl Cause {
    // A method, since a conversion to a number would not say that it is the fault's.
    pub fn number(self) -> u8
        ensures its_number { result ≡ cause_number self }
    {
        match self {
            Cause::Line => 11,
            Cause::NotAType => 12,
            Cause::Count => 13,
        }
    }
}

impl SignatureFault {
    // At the line that was asked for.
    pub fn origin(self) -> Origin
        ensures its_layer_number_and_line { fault_from result ≡ signature_fault_of self }
    {
        Origin {
            layer: Layer::Texts,
            number: self.cause.number(),
            position: self.line as usize,
        }
    }
}

// A word that no type has.
impl From<Unknown> for Cause {
    ghost from_gives = { λ _ c. c ≡ NotAType };

    fn from(_unknown: Unknown) -> Cause {
        Self::NotAType
    }
}

// A type for which there is no room.
impl From<CapacityError<ValueType>> for Cause {
    ghost from_gives = { λ _ c. c ≡ Count };

    fn from(_full: CapacityError<ValueType>) -> Cause {
        Self::Count
    }
}

// A cause, and the number of the line that was asked for.
impl From<(Cause, u32)> for SignatureFault {
    ghost from_gives = { λ c f. f ≡ record { cause = c.0; line = c.1 } };

    fn from((cause, line): (Cause, u32)) -> SignatureFault {
        SignatureFault { cause, line }
    }
}

impl fmt::Display for SignatureFault {
    ghost output = { λ f. Some (fault_text (signature_fault_of f)) };

    ghost styled_output = { λ f _. Some (fault_text (signature_fault_of f)) };

    fn fmt<W: fmt::Write>(&self, f: &mut fmt::Formatter<W>) -> fmt::Result {
        fmt::Display::fmt(&self.origin(), f)
    }
}

impl Error for SignatureFault {}
