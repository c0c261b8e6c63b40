// Drafts: what a text says, before memory is asked for its piles.
ghost use Rattle.std.specs.Prelude.{IfOk};
ghost use Rattle.description.specs.Profiles.{Meaning};
ghost use Rattle.description.specs.Describing.{Describes};
ghost use Rattle.description.specs.Drafts.{Drafts, IsDrafted};

use crate::description::Description;
use crate::plan::Planned;
use crate::reading::Reading;
use crate::stages::Stages;
use arrayvec::ArrayVec;
use pages::faults::{Cause, DescriptionFault};
use place::registers::RegisterSet;
use std::alloc::{AllocError, Global};
use texts::parts::Parts;

#[derive(Drop)]
pub(crate) struct Draft {
    // Of the stages, in order.
    pub(crate) planned: ArrayVec<Planned, 24>,
    // The stages that are the piles, by their numbers.
    pub(crate) arguments: u8,
    pub(crate) results: u8,
    pub(crate) kept: RegisterSet,
}

impl Draft {
    // What a text says, or its first fault: each line is read and checked.
    pub(crate) fn read(text: &[u8]) -> Result<Draft, DescriptionFault>
        ensures drafted_as_the_page_that_writes_it_or_the_first_fault { IsDrafted text.now result }
    {
        if text.is_empty() || text.len() > 8192 {
            return Err(DescriptionFault::Text {
                cause: Cause::Length,
                line: 0,
            });
        }
        let mut reading = Reading::new();
        let mut lines = Parts::lines(text);
        let mut line = lines.next_part().unwrap_or(&[]);
        while let Some(next) = lines.next_part() {
            reading.read_line(line)?;
            line = next;
        }
        reading.finish(line)
    }

    // Its piles, each of the stages below that it names. Want of memory alone stops it.
    pub(crate) fn build(self, heap: Global) -> Result<Description, AllocError>
        requires says_something { (m : Meaning) × Drafts m self }
        ensures built_as_it_says { (m : Meaning) → Drafts m self → IfOk result (Describes m) }
    {
        let mut stages = Stages::new();
        for Planned { plan, below } in self.planned {
            let line = stages.count() as u32 + 1;
            let (first, second) = stages.take_all(below.as_slice()).unwrap();
            let pile = plan.build(line, first, second, heap)?;
            stages.push(pile);
        }
        Ok(Description {
            arguments: stages.take(self.arguments).unwrap(),
            results: stages.take(self.results).unwrap(),
            kept: self.kept,
        })
    }
}
