// What two stages side by side have in common, whichever of them a request goes to.
ghost use Rattle.std.specs.Prelude.{◌≡◌, max, ◌||◌, bit_or};
ghost use Rattle.stage.specs.Books.{used};
ghost use Rattle.stage.specs.Clearing.{Begins};
ghost use Rattle.sides.specs.Sides.{sound_together};

use place::registers::RegisterSet;
use stage::Stage;

#[derive(Drop)]
pub(crate) struct Pair<A, B> {
    pub(crate) first: A,
    pub(crate) second: B,
}

impl<A: Stage, B: Stage> Pair<A, B> {
    // Two stages, both cleared.
    pub(crate) fn new(first: A, second: B) -> Pair<A, B>
        ensures first_is_cleared { Begins A.Stage (A.Stage.profile first) result.first }
        ensures second_is_cleared { Begins B.Stage (B.Stage.profile second) result.second }
    {
        Pair {
            first: first.cleared(),
            second: second.cleared(),
        }
    }

    pub(crate) fn clear(&mut self)
        ensures first_is_cleared { Begins A.Stage (A.Stage.profile self.old.first) self.new.first }
        ensures second_is_cleared { Begins B.Stage (B.Stage.profile self.old.second) self.new.second }
    {
        self.first.clear();
        self.second.clear();
    }

    pub(crate) fn registers(&self) -> RegisterSet
        ensures sets_join { result.bits ≡ bit_or (A.Stage.profile self.now.first).questions.registers (B.Stage.profile self.now.second).questions.registers }
    {
        self.first.registers().union(self.second.registers())
    }

    pub(crate) fn block(&self) -> bool
        ensures either_block_counts { result ≡ ((A.Stage.profile self.now.first).questions.block || (B.Stage.profile self.now.second).questions.block) }
    {
        self.first.block() | self.second.block()
    }

    pub(crate) fn sound(&self) -> bool
        ensures whether_they_are_sound_together { result ≡ sound_together (A.Stage.profile self.now.first).questions (B.Stage.profile self.now.second).questions }
    {
        let apart = self.first.registers().is_disjoint(self.second.registers());
        let blocks = self.first.block() & self.second.block();
        self.first.sound() & (self.second.sound() & (apart & !blocks))
    }

    pub(crate) fn reach(&self) -> u16
        ensures the_larger_reach { result ≡ max (used (A.Stage.book self.now.first)) (used (B.Stage.book self.now.second)) }
    {
        self.first.reach().max(self.second.reach())
    }
}
