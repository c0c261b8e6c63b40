// Two stages, and a test that says which of them gets a request.
ghost use Rattle.conditions.specs.Tests.{meets};
ghost use Rattle.stage.specs.Clearing.{Begins};
ghost use Rattle.sides.specs.Sides.{choose_book, choose_blame, choose_profile};
ghost use Rattle.sides.specs.Layers.{choose_lawful};

use crate::pair::Pair;
use conditions::Test;
use place::pieces::Place;
use place::registers::RegisterSet;
use stage::{Refusal, Stage};
use values::requests::Request;

#[derive(Drop)]
pub struct Choose<A, B> {
    test: Test,
    sides: Pair<A, B>,
}

impl<A: Stage, B: Stage> Choose<A, B> {
    pub fn new(test: Test, first: A, second: B) -> Choose<A, B>
        ensures means_choose { Begins ⟦<Choose<A, B> as Stage>⟧
            (choose_profile (meets test) (A.Stage.profile first) (B.Stage.profile second)) result }
    {
        Choose {
            test,
            sides: Pair::new(first, second),
        }
    }
}

impl<A: Stage, B: Stage> Stage for Choose<A, B> {
    ghost book = { λ s. choose_book (meets s.test) (A.Stage.book s.sides.first) (B.Stage.book s.sides.second) };

    ghost blame = { λ s. choose_blame (meets s.test) (A.Stage.blame s.sides.first) (B.Stage.blame s.sides.second) };

    ghost profile = { λ s. choose_profile (meets s.test) (A.Stage.profile s.sides.first) (B.Stage.profile s.sides.second) };

    ghost lawful = { λ s. choose_lawful (meets s.test) _ _ _ _ (A.Stage.lawful s.sides.first) (B.Stage.lawful s.sides.second) };

    fn place(&mut self, request: Request) -> Result<Place, Refusal> {
        if self.test.meets(request) {
            self.sides.first.place(request)
        } else {
            self.sides.second.place(request)
        }
    }

    // What follows but `endless` passes on to the pair, as in `over`: a trait for both would have the same methods once more.
    fn clear(&mut self) {
        self.sides.clear();
    }

    fn registers(&self) -> RegisterSet {
        self.sides.registers()
    }

    fn block(&self) -> bool {
        self.sides.block()
    }

    fn sound(&self) -> bool {
        self.sides.sound()
    }

    fn endless(&self, request: Request) -> bool {
        if self.test.meets(request) {
            self.sides.first.endless(request)
        } else {
            self.sides.second.endless(request)
        }
    }

    fn reach(&self) -> u16 {
        self.sides.reach()
    }
}
