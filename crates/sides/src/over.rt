// A stage in front of another, which gets only what the first refuses.
ghost use Rattle.stage.specs.Clearing.{Begins};
ghost use Rattle.sides.specs.Sides.{over_book, over_blame, over_profile};
ghost use Rattle.sides.specs.Layers.{over_lawful};

use crate::pair::Pair;
use place::pieces::Place;
use place::registers::RegisterSet;
use stage::{Refusal, Stage};
use values::requests::Request;

#[derive(Drop)]
pub struct Over<A, B> {
    sides: Pair<A, B>,
}

impl<A: Stage, B: Stage> Over<A, B> {
    pub fn new(first: A, second: B) -> Over<A, B>
        ensures means_over { Begins ⟦<Over<A, B> as Stage>⟧
            (over_profile (A.Stage.profile first) (B.Stage.profile second)) result }
    {
        Over {
            sides: Pair::new(first, second),
        }
    }
}

impl<A: Stage, B: Stage> Stage for Over<A, B> {
    ghost book = { λ s. over_book (A.Stage.book s.sides.first) (B.Stage.book s.sides.second) };

    ghost blame = { λ s. over_blame (A.Stage.book s.sides.first) (B.Stage.blame s.sides.second) };

    ghost profile = { λ s. over_profile (A.Stage.profile s.sides.first) (B.Stage.profile s.sides.second) };

    ghost lawful = { λ s. over_lawful _ _ _ _ (A.Stage.lawful s.sides.first) (B.Stage.lawful s.sides.second) };

    fn place(&mut self, request: Request) -> Result<Place, Refusal> {
        // Tried with `or_else`: a proof does not know what its closure made of the second stage.
        match self.sides.first.place(request) {
            Ok(place) => Ok(place),
            Err(_) => self.sides.second.place(request),
        }
    }

    fn clear(&mut self) {
        self.sides.clear();
    }

    fn registers(&self) -> RegisterSet {
        self.sides.registers()
    }

    fn block(&self) -> bool {
        self.sides.block()
    }

    fn sound(&self) -> bool {
        self.sides.sound()
    }

    fn endless(&self, request: Request) -> bool {
        self.sides.first.endless(request) | self.sides.second.endless(request)
    }

    fn reach(&self) -> u16 {
        self.sides.reach()
    }
}
