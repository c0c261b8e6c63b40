// A pile that is known only when it is read, and a stage itself.
ghost use Rattle.described.specs.Piles.{pile_book, pile_blame, pile_profile};
ghost use Rattle.described.specs.PilesLemmas.{pile_lawful};

use crate::tree::Tree;
use place::pieces::Place;
use place::registers::RegisterSet;
use stage::{Refusal, Stage};
use values::requests::Request;

// A pile as a description writes it. Its tree is private: every pile comes from the makers, so no closed shut stands over a
// stage that has refused nothing.
#[derive(Drop)]
pub struct Pile {
    pub(crate) tree: Tree,
}

impl Stage for Pile {
    ghost book = { pile_book };

    ghost blame = { pile_blame };

    ghost profile = { pile_profile };

    ghost lawful = { pile_lawful };

    fn place(&mut self, request: Request) -> Result<Place, Refusal> {
        self.tree.place(request)
    }

    fn clear(&mut self) {
        self.tree.clear();
    }

    fn registers(&self) -> RegisterSet {
        self.tree.registers()
    }

    fn block(&self) -> bool {
        self.tree.block()
    }

    fn sound(&self) -> bool {
        self.tree.sound()
    }

    fn endless(&self, request: Request) -> bool {
        self.tree.endless(request)
    }

    fn reach(&self) -> u16 {
        self.tree.reach()
    }
}
