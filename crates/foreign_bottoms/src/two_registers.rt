// A bottom that has two registers to give.
ghost use Rattle.stage.specs.Books.{built_in};
ghost use Rattle.stage.specs.Clearing.{Begins};
ghost use Rattle.foreign_bottoms.specs.TwoRegisters.{two_book, two_profile};
ghost use Rattle.foreign_bottoms.specs.TwoRegistersLemmas.{two_lawful};

use place::pieces::{Piece, Place};
use place::registers::RegisterSet;
use stage::{Refusal, Stage};
use values::requests::Request;
use values::sizes::Size;

// r0 and then r1, each once, for values of four bytes.
#[derive(Drop)]
pub struct TwoRegisters {
    // How many it has given.
    given: u8,
}

impl TwoRegisters {
    pub fn new() -> TwoRegisters
        ensures means_two_registers { Begins ⟦<TwoRegisters as Stage>⟧ two_profile result }
    {
        TwoRegisters { given: 0 }
    }
}

impl Stage for TwoRegisters {
    ghost book = { λ s. two_book s.given };

    ghost blame = { λ _. built_in };

    ghost profile = { λ _. two_profile };

    ghost lawful = { λ _. two_lawful };

    fn place(&mut self, request: Request) -> Result<Place, Refusal> {
        if request.width != Size::Four || self.given >= 2 {
            return Err(Refusal { line: 0 });
        }
        let register = self.given;
        self.given = register + 1;
        Ok(Place::Single(Piece::Register(register)))
    }

    fn clear(&mut self) {
        self.given = 0;
    }

    fn registers(&self) -> RegisterSet {
        RegisterSet::EMPTY.with(0).with(1)
    }

    fn block(&self) -> bool {
        false
    }

    fn sound(&self) -> bool {
        true
    }

    fn endless(&self, _request: Request) -> bool {
        false
    }

    fn reach(&self) -> u16 {
        0
    }
}
