// The making of described piles. Each is at its beginning, since what it stands on is cleared.
ghost use Rattle.std.specs.Prelude.{◌≡◌, IfOk};
ghost use Rattle.conditions.specs.Tests.{meets};
ghost use Rattle.stage.specs.Clearing.{Begins};
ghost use Rattle.stage.specs.Faults.{fault_of};
ghost use Rattle.values.specs.Sizes.{OfBytes};
ghost use Rattle.banks.specs.Lists.{list_fault};
ghost use Rattle.banks.specs.Banks.{count_profile, bits_profile};
ghost use Rattle.blocks.specs.Blocks.{limit_fault, up_profile};
ghost use Rattle.adjust.specs.Adjusting.{changed, map_profile};
ghost use Rattle.sides.specs.Sides.{choose_profile, over_profile};
ghost use Rattle.shut.specs.Shutting.{shut_profile};
ghost use Rattle.described.specs.Piles.{lined, pile_profile};

use crate::pile::Pile;
use crate::tree::Tree;
use adjust::Change;
use banks::bits::Bits;
use banks::count::Count;
use blocks::up::Up;
use conditions::Test;
use stage::{ParameterFault, Stage};
use std::alloc::{AllocError, Global};

impl Pile {
    pub fn count(line: u32, registers: &[u8]) -> Result<Pile, ParameterFault>
        ensures refused_by_count_then_by_register { fault_of result ≡ list_fault registers.now }
        ensures counts_through_the_list { IfOk result (Begins ⟦<Pile as Stage>⟧
            (lined line (count_profile registers.now))) }
    {
        let bank = Count::new(registers)?;
        let tree = Tree::Count { line, bank };
        Ok(Pile { tree })
    }

    pub fn bits(line: u32, registers: &[u8]) -> Result<Pile, ParameterFault>
        ensures refused_by_count_then_by_register { fault_of result ≡ list_fault registers.now }
        ensures goes_through_the_list_by_bytes { IfOk result (Begins ⟦<Pile as Stage>⟧
            (lined line (bits_profile registers.now))) }
    {
        let bank = Bits::new(registers)?;
        let tree = Tree::Bits { line, bank };
        Ok(Pile { tree })
    }

    // `limit` is the largest alignment that it grants.
    pub fn up(line: u32, limit: u8) -> Result<Pile, ParameterFault>
        ensures refused_unless_1_2_4_or_8 { fault_of result ≡ limit_fault limit }
        ensures starts_empty_with_the_limit { IfOk result (λ s. OfBytes limit (λ size.
            Begins ⟦<Pile as Stage>⟧ (lined line (up_profile size)) s)) }
    {
        let block = Up::new(limit)?;
        let tree = Tree::Up { line, block };
        Ok(Pile { tree })
    }

    // Widen or raise.
    pub fn adjust(change: Change, below: Pile, heap: Global) -> Result<Pile, AllocError>
        ensures changes_what_goes_below { IfOk result (Begins ⟦<Pile as Stage>⟧
            (map_profile (changed change) (pile_profile below))) }
    {
        let below = below.boxed(heap)?;
        let tree = Tree::Adjust { change, below };
        Ok(Pile { tree })
    }

    pub fn choose(test: Test, first: Pile, second: Pile, heap: Global) -> Result<Pile, AllocError>
        ensures chooses_by_the_test { IfOk result (Begins ⟦<Pile as Stage>⟧
            (choose_profile (meets test) (pile_profile first) (pile_profile second))) }
    {
        let first = first.boxed(heap)?;
        let second = second.boxed(heap)?;
        let tree = Tree::Choose {
            test,
            first,
            second,
        };
        Ok(Pile { tree })
    }

    pub fn over(first: Pile, second: Pile, heap: Global) -> Result<Pile, AllocError>
        ensures second_gets_what_the_first_refuses { IfOk result (Begins ⟦<Pile as Stage>⟧
            (over_profile (pile_profile first) (pile_profile second))) }
    {
        let first = first.boxed(heap)?;
        let second = second.boxed(heap)?;
        let tree = Tree::Over { first, second };
        Ok(Pile { tree })
    }

    pub fn shut(line: u32, below: Pile, heap: Global) -> Result<Pile, AllocError>
        ensures closes_on_its_line { IfOk result (Begins ⟦<Pile as Stage>⟧
            (shut_profile line (pile_profile below))) }
    {
        let below = below.boxed(heap)?;
        let tree = Tree::Shut {
            line,
            closed: false,
            below,
        };
        Ok(Pile { tree })
    }

    // What a layer stands on: the tree of a pile, at its beginning, in a box.
    fn boxed(self, heap: Global) -> Result<Box<Tree>, AllocError>
        ensures is_back_at_the_beginning { IfOk result (λ b.
            Begins ⟦<Tree as Stage>⟧ (pile_profile self) b.value) }
    {
        Ok(Box::new(heap, self.tree.cleared())?)
    }
}
