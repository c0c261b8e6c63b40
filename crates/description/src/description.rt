// Descriptions, read from their texts.
ghost use Rattle.pages.specs.Rules.{NoFaultExactlyInProperPages};
ghost use Rattle.description.specs.Describing.{IsRead};

use crate::draft::Draft;
use described::pile::Pile;
use pages::faults::DescriptionFault;
use place::registers::RegisterSet;
use std::alloc::Global;

// What a description says: the piles of arguments and of results, and the registers that a routine keeps.
#[derive(Drop)]
pub struct Description {
    pub arguments: Pile,
    pub results: Pile,
    pub kept: RegisterSet,
}

impl Description {
    // What a text says, or its first fault. Memory is asked for once all lines are checked, so a text that has a fault gets
    // its number, whatever memory there is.
    pub fn read(text: &[u8], heap: Global) -> Result<Description, DescriptionFault>
        ensures read_as_the_page_that_writes_it_or_the_first_fault { IsRead text.now result }
        ensures no_fault_exactly_in_proper_pages { NoFaultExactlyInProperPages }
    {
        let draft = Draft::read(text)?;
        Ok(draft.build(heap)?)
    }
}
