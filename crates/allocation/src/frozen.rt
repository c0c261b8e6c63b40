// Allocations whose places stay as they are.
ghost use Rattle.std.specs.Prelude.{◌≡◌};
ghost use Rattle.stage.specs.Books.{used};

use crate::opened::Open;
use crate::shared::Allocation;
use place::registers::RegisterSet;
use stage::Stage;

// The state of an allocation that places no more.
#[derive(Clone, Copy, Debug)]
pub struct Still;

pub type Frozen<P> = Allocation<P, Still>;

impl<P: Stage> Allocation<P, Still> {
    ghost use Rattle.allocation.specs.States.{state, opened};

    pub fn reopen(self) -> Open<P>
        ensures newly_opened { state P.Stage result ≡ opened (state P.Stage self).profile }
    {
        self.cleared()
    }

    // The registers that its pile may give.
    pub fn registers(&self) -> RegisterSet
        ensures set_of_its_pile { result.bits ≡ (state P.Stage self.now).profile.questions.registers }
    {
        self.pile.registers()
    }

    // The block bytes that its pile has used.
    pub fn reach(&self) -> u16
        ensures reach_of_its_pile { result ≡ used (state P.Stage self.now).book }
    {
        self.pile.reach()
    }
}
