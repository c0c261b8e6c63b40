// The interface of every stage: an allocator that answers requests with places.
#![tactic(auto)]

ghost use Rattle.std.specs.Prelude.{◌≡◌, [], IfOk, IfErr, Some};
ghost use Rattle.std.specs.Result.{result_ok};
ghost use Rattle.values.specs.Sizes.{HasBytes};
ghost use Rattle.origins.specs.Faults.{fault_from, fault_text};
ghost use Rattle.stage.specs.Books.{Book, Blame, Profile, Cleared, said, used, after};
ghost use Rattle.stage.specs.Faults.{fault_of, parameter_fault, width_fault};
ghost use Rattle.stage.specs.Lawful.{Lawful};
ghost use Rattle.stage.specs.declared.ParameterFault.TheVariants.{Range};

use origins::{Layer, Origin};
use place::pieces::Place;
use place::registers::RegisterSet;
use std::error::Error;
use std::fmt;
use values::requests::Request;
use values::sizes::Size;
use values::unknown::Unknown;

// A request that was not granted.
#[derive(Clone, Copy, PartialEq, Eq, Debug)]
pub struct Refusal {
    // The description line of the stage that refused; by the rules 0 for a built-in stage.
    pub line: u32,
}

// Why a stage cannot be made.
#[derive(Clone, Copy, PartialEq, Eq, Debug)]
pub enum ParameterFault {
    // A wrong count of registers or kinds, or a kind twice.
    Form,
    // A number or a register out of its range, or a register twice.
    Range,
}

impl ParameterFault {
    // At no line.
    pub fn origin(self) -> Origin
        ensures its_layer_number_and_position { fault_from result ≡ parameter_fault self }
    {
        let number = match self {
            ParameterFault::Form => 2,
            ParameterFault::Range => 3,
        };
        Origin {
            layer: Layer::Texts,
            number,
            position: 0,
        }
    }
}

impl fmt::Display for ParameterFault {
    ghost output = { λ f. Some (fault_text (parameter_fault f)) };

    ghost styled_output = { λ f _. Some (fault_text (parameter_fault f)) };

    fn fmt<W: fmt::Write>(&self, f: &mut fmt::Formatter<W>) -> fmt::Result {
        fmt::Display::fmt(&self.origin(), f)
    }
}

impl Error for ParameterFault {}

// A number that is no size is out of its range.
impl From<Unknown> for ParameterFault {
    ghost from_gives = { λ _ f. f ≡ Range };

    fn from(_unknown: Unknown) -> ParameterFault {
        Self::Range
    }
}

// The size of n bytes, where it is one that a layer can test for or raise to. Makers take a number, since by the rules one
// that is no such size is refused.
pub fn raised_size(n: u8) -> Result<Size, ParameterFault>
    ensures refused_unless_2_4_or_8 { fault_of result ≡ width_fault n }
    ensures of_n_bytes { IfOk result (HasBytes n) }
{
    match Size::try_from(n)? {
        Size::One => Err(ParameterFault::Range),
        size => Ok(size),
    }
}

pub trait Stage {
    // What it answers and uses from here on.
    ghost book: { Self → Book };

    // Whom it blames for its refusals from here on.
    ghost blame: { Self → Blame };

    // What no call changes.
    ghost profile: { Self → Profile };

    // A place for the request.
    fn place(&mut self, request: Request) -> Result<Place, Refusal>
        ensures answers_by_the_book { result_ok result ≡ said (book self.old) request }
        ensures refusal_has_the_blamed_line { IfErr result (λ f. f.line ≡ blame self.old [] request) }
        ensures book_moves_past_the_request { book self.new ≡ after (book self.old) request }
        ensures blame_moves_past_the_request { blame self.new ≡ after (blame self.old) request }
        ensures profile_stays { profile self.new ≡ profile self.old };

    // Back to the beginning.
    fn clear(&mut self)
        ensures first_book_is_back { book self.new ≡ (profile self.old).first }
        ensures first_blame_is_back { blame self.new ≡ (profile self.old).first_blame }
        ensures profile_stays { profile self.new ≡ profile self.old };

    // The stage itself, back at the beginning: so does a layer take the stage below it.
    final fn cleared(self) -> Self
    where
        Self: Sized,
        ensures is_back_at_the_beginning { Cleared (book result) (blame result) (profile result) (profile self) }
    {
        let mut stage = self;
        stage.clear();
        stage
    }

    // The registers that it may give.
    fn registers(&self) -> RegisterSet
        ensures its_set { result.bits ≡ (profile self.now).questions.registers };

    // Whether it may give bytes of the block.
    fn block(&self) -> bool
        ensures whether_it_has_a_block { result ≡ (profile self.now).questions.block };

    // Whether no two of its places share a byte.
    fn sound(&self) -> bool
        ensures whether_it_is_sound { result ≡ (profile self.now).questions.sound };

    // Whether it grants this request until the block is nearly full.
    fn endless(&self, request: Request) -> bool
        ensures whether_the_request_is_endless { result ≡ (profile self.now).questions.endless request };

    // The block bytes used so far.
    fn reach(&self) -> u16
        ensures bytes_used_by_the_book { result ≡ used (book self.now) };

    ghost lawful: { (s : Self) → Lawful (profile s).questions (profile s).first };
}
