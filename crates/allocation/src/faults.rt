// Why an allocation grants no place.
ghost use Rattle.std.specs.Prelude.{◌≡◌, ◌==◌, ◌&&◌, Some};
ghost use Rattle.std.specs.Bool.{Decides};
ghost use Rattle.origins.specs.Faults.{fault_from, fault_text};
ghost use Rattle.allocation.specs.Faults.{cause_number, placement_fault};
ghost use Rattle.allocation.specs.declared.faults.Cause.TheVariants.{NotAType, Refused};
ghost use Rattle.std.specs.Cmp.Rules.{comparing};
ghost use Rattle.std.proofs.Common.{rules};

use origins::{Layer, Origin};
use stage::Refusal;
use std::error::Error;
use std::fmt;
use values::unknown::Unknown;

#[derive(Clone, Copy, PartialEq, Eq, Debug)]
pub enum Cause {
    // Not one of the eleven types, or not an alignment.
    NotAType,
    Full,
    // Places of the pile may share bytes.
    Unsound,
    // The pile refuses; this has the line of the stage that does.
    Refused(Refusal),
}

#[derive(Clone, Copy, Debug)]
pub struct PlacementFault {
    pub cause: Cause,
    // The number of places held.
    pub position: usize,
}

impl From<Refusal> for Cause {
    ghost from_gives = { λ f c. c ≡ Refused f };

    fn from(refusal: Refusal) -> Cause {
        Cause::Refused(refusal)
    }
}

// What is no type, or no alignment, is 21.
impl From<Unknown> for Cause {
    ghost from_gives = { λ _ c. c ≡ NotAType };

    fn from(_unknown: Unknown) -> Cause {
        Self::NotAType
    }
}

impl Cause {
    // A method, since a conversion to a number would not say that it is the fault's.
    pub fn number(self) -> u8
        ensures its_number { result ≡ cause_number self }
    {
        match self {
            Cause::NotAType => 21,
            Cause::Full => 22,
            Cause::Unsound => 23,
            Cause::Refused(_) => 24,
        }
    }
}

// A cause, and the number of places held.
impl From<(Cause, usize)> for PlacementFault {
    ghost from_gives = { λ c f. f ≡ record { cause = c.0; position = c.1 } };

    fn from((cause, position): (Cause, usize)) -> PlacementFault {
        PlacementFault { cause, position }
    }
}

impl PlacementFault {
    // At the number of places held.
    pub fn origin(self) -> Origin
        ensures its_layer_number_and_position { fault_from result ≡ placement_fault self }
    {
        Origin {
            layer: Layer::Placing,
            number: self.cause.number(),
            position: self.position,
        }
    }
}

impl fmt::Display for PlacementFault {
    ghost output = { λ f. Some (fault_text (placement_fault f)) };

    ghost styled_output = { λ f _. Some (fault_text (placement_fault f)) };

    fn fmt<W: fmt::Write>(&self, f: &mut fmt::Formatter<W>) -> fmt::Result {
        fmt::Display::fmt(&self.origin(), f)
    }
}

impl Error for PlacementFault {}

// Not derived, since the line of a refusal is no part of it.
impl PartialEq for PlacementFault {
    ghost eq = { λ a b. cause_number a.cause == cause_number b.cause && a.position == b.position };

    ghost laws = { Prim.search (comparing, rules) };

    fn eq(&self, other: &PlacementFault) -> bool
        ensures number_and_position_are_compared { result ≡ ((cause_number self.now.cause == cause_number other.now.cause) && (self.now.position == other.now.position)) }
        ensures equal_by_number_and_position { Decides result (placement_fault self.now ≡ placement_fault other.now) }
    {
        self.cause.number() == other.cause.number() && self.position == other.position
    }
}

impl Eq for PlacementFault {
    ghost laws = { Prim.search (comparing, rules) };
}
