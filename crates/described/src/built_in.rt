// A described pile beside the same stages built in.
ghost use Rattle.stage.specs.Books.{Alike};
ghost use Rattle.described.specs.BuiltIn.{built_in_profile};
ghost use Rattle.described.specs.Piles.{pile_profile};

use crate::pile::Pile;

impl Pile {
    // A law of every described pile, with nothing to do when it runs: but for the lines that its refusals carry, it is what the
    // same stages are that are built in.
    pub fn same_as_built_in(&self)
        ensures alike_the_same_stages_built_in { Alike (pile_profile self.now) (built_in_profile self.now) }
    {}
}
