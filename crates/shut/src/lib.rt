// A stage that is asked no more once it has refused, until it is cleared.
#![tactic(auto)]

ghost use Rattle.stage.specs.Clearing.{Begins};
ghost use Rattle.shut.specs.Shutting.{shut_book, shut_blame, shut_profile};
ghost use Rattle.shut.specs.ShuttingLemmas.{shut_lawful};

use place::pieces::Place;
use place::registers::RegisterSet;
use stage::{Refusal, Stage};
use values::requests::Request;

#[derive(Drop)]
pub struct Shut<S> {
    // A flag, since an enum of both states would hold the stage in each of them.
    closed: bool,
    below: S,
}

impl<S: Stage> Shut<S> {
    pub fn new(below: S) -> Shut<S>
        ensures means_shut { Begins ⟦<Shut<S> as Stage>⟧ (shut_profile 0 (S.Stage.profile below)) result }
    {
        Shut {
            closed: false,
            below: below.cleared(),
        }
    }
}

impl<S: Stage> Stage for Shut<S> {
    ghost book = { λ s. shut_book s.closed (S.Stage.book s.below) };

    ghost blame = { λ s. shut_blame 0 s.closed (S.Stage.book s.below) (S.Stage.blame s.below) };

    ghost profile = { λ s. shut_profile 0 (S.Stage.profile s.below) };

    ghost lawful = { λ s. shut_lawful _ _ (S.Stage.lawful s.below) };

    fn place(&mut self, request: Request) -> Result<Place, Refusal> {
        if self.closed {
            return Err(Refusal { line: 0 });
        }
        let answer = self.below.place(request);
        self.closed = answer.is_err();
        answer
    }

    fn clear(&mut self) {
        self.closed = false;
        self.below.clear();
    }

    fn registers(&self) -> RegisterSet {
        self.below.registers()
    }

    fn block(&self) -> bool {
        self.below.block()
    }

    fn sound(&self) -> bool {
        self.below.sound()
    }

    fn endless(&self, _request: Request) -> bool {
        false
    }

    fn reach(&self) -> u16 {
        self.below.reach()
    }
}
