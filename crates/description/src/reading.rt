// What was read of a description so far: plans of its stages, for which no memory is asked.
ghost use Rattle.std.specs.Prelude.{◌≡◌, ℕ, [], ◌∷◌, ◌++◌, ◌+◌, ◌<◌, ◌≤◌, true, false, List, length, MatchResult};
ghost use Rattle.pages.specs.Lines.{HasTheForm};
ghost use Rattle.pages.specs.Rules.{is_free, are_free, all_used};
ghost use Rattle.pages.specs.declared.faults.Cause.TheVariants as causes;
ghost use Rattle.pages.specs.declared.lines.Line.{Line};
ghost use Rattle.pages.specs.declared.lines.Line.TheVariants.{Stage, Arguments, Results, Kept};
ghost use Rattle.texts.specs.Lists.{listed};
ghost use Rattle.description.specs.Readings.{HasRead, Marks, Checked, CheckedBytes, Read};
ghost use Rattle.description.specs.Drafts.{Finished};

use crate::draft::Draft;
use crate::plan::{Plan, Planned};
use arrayvec::ArrayVec;
use banks::register_list::gather;
use pages::faults::{Cause, DescriptionFault};
use pages::lines::{Line, StageLine};
use place::registers::RegisterSet;

#[derive(Drop)]
pub(crate) struct Reading {
    // Of the stage lines, in order.
    planned: ArrayVec<Planned, 24>,
    // By the number of a stage, from 1: whether a line has named it.
    marks: [bool; 25],
    arguments: Option<u8>,
    results: Option<u8>,
    kept: Option<RegisterSet>,
}

impl Reading {
    pub(crate) fn new() -> Reading
        ensures nothing_read { HasRead [] result }
    {
        Reading {
            planned: ArrayVec::new(),
            marks: [false; 25],
            arguments: None,
            results: None,
            kept: None,
        }
    }

    // The number of the line that comes next.
    pub(crate) fn line(&self) -> u32
        ensures one_behind_the_lines_read { (before : List Line) → HasRead before self.now → result ≡ length before + 1 }
        ensures small { (1 ≤ result) × (result < 100) }
    {
        let closing = u32::from(self.arguments.is_some())
            + u32::from(self.results.is_some())
            + u32::from(self.kept.is_some());
        self.planned.len() as u32 + closing + 1
    }

    // Whether each stage was named.
    fn all_named(&self) -> bool
        ensures whether_each_was_named { (names : List ℕ) → Marks names self.now.marks → result ≡ all_used (length self.now.planned.items) names }
    {
        for index in 0..self.planned.len() {
            if !self.marks[index + 1] {
                return false;
            }
        }
        true
    }

    // Names a stage of a line before, if no line has named it.
    fn name(&mut self, number: u8) -> Result<(), Cause>
        ensures named_if_it_was_free { (names : List ℕ) → Marks names self.old.marks → MatchResult result (λ _. (is_free (length self.old.planned.items) names number ≡ true) × Marks (names ++ number ∷ []) self.new.marks) (λ c. (is_free (length self.old.planned.items) names number ≡ false) × (c ≡ causes.Stage)) }
        ensures only_its_mark_is_set { self.new ≡ record self.old { marks = self.new.marks } }
    {
        let index = usize::from(number);
        if number == 0 || index > self.planned.len() || self.marks[index] {
            return Err(Cause::Stage);
        }
        self.marks[index] = true;
        Ok(())
    }

    // Names those that a line names, one after the other.
    fn name_all(&mut self, numbers: &[u8]) -> Result<(), Cause>
        ensures named_if_all_were_free { (names : List ℕ) → Marks names self.old.marks → MatchResult result (λ _. (are_free (length self.old.planned.items) names numbers.now ≡ true) × Marks (names ++ numbers.now) self.new.marks) (λ c. (are_free (length self.old.planned.items) names numbers.now ≡ false) × (c ≡ causes.Stage)) }
        ensures only_marks_are_set { self.new ≡ record self.old { marks = self.new.marks } }
    {
        for number in numbers {
            self.name(*number)?;
        }
        Ok(())
    }

    fn add_stage(&mut self, stage: StageLine) -> Result<(), Cause>
        ensures checked_by_the_rules { (before : List Line) → HasRead before self.old → HasTheForm (Stage stage) → Checked before (Stage stage) result self.new }
    {
        if self.arguments.is_some() {
            return Err(Cause::Form);
        }
        let plan = Plan::of(self.line(), &stage)?;
        self.name_all(stage.below.as_slice())?;
        if self.planned.is_full() {
            return Err(Cause::Count);
        }
        self.planned.push(Planned {
            plan,
            below: stage.below,
        });
        Ok(())
    }

    fn set_arguments(&mut self, number: u8) -> Result<(), Cause>
        ensures checked_by_the_rules { (before : List Line) → HasRead before self.old → Checked before (Arguments number) result self.new }
    {
        if self.arguments.is_some() {
            return Err(Cause::Form);
        }
        self.name(number)?;
        self.arguments = Some(number);
        Ok(())
    }

    fn set_results(&mut self, number: u8) -> Result<(), Cause>
        ensures checked_by_the_rules { (before : List Line) → HasRead before self.old → Checked before (Results number) result self.new }
    {
        if self.arguments.is_none() || self.results.is_some() {
            return Err(Cause::Form);
        }
        self.name(number)?;
        self.results = Some(number);
        Ok(())
    }

    fn set_kept(&mut self, list: &[u8]) -> Result<(), Cause>
        ensures checked_by_the_rules { (before : List Line) → HasRead before self.old → Checked before (Kept (listed list.now)) result self.new }
    {
        if self.results.is_none() || self.kept.is_some() {
            return Err(Cause::Form);
        }
        let kept = gather(list).ok_or(Cause::Range)?;
        self.kept = Some(kept);
        Ok(())
    }

    // The next line, as its bytes without the feed write it.
    fn check_line(&mut self, bytes: &[u8]) -> Result<(), Cause>
        ensures checked_by_the_rules { (before : List Line) → HasRead before self.old → CheckedBytes before bytes.now result self.new }
    {
        if bytes.len() > 120 {
            return Err(Cause::Form);
        }
        match Line::read(bytes)? {
            Line::Stage(stage) => self.add_stage(stage),
            Line::Arguments(number) => self.set_arguments(number),
            Line::Results(number) => self.set_results(number),
            Line::Kept(list) => self.set_kept(list.as_slice()),
        }
    }

    // The same, where a fault has the number of the line.
    pub(crate) fn read_line(&mut self, bytes: &[u8]) -> Result<(), DescriptionFault>
        ensures read_by_the_rules { (before : List Line) → HasRead before self.old → Read before bytes.now result self.new }
    {
        let line = self.line();
        match self.check_line(bytes) {
            Ok(()) => Ok(()),
            Err(cause) => Err((cause, line))?,
        }
    }

    // What was read, where the text ends; `rest` is what follows the last feed.
    pub(crate) fn finish(self, rest: &[u8]) -> Result<Draft, DescriptionFault>
        ensures ended_by_the_rules { (before : List Line) → HasRead before self → Finished before rest.now result }
    {
        let line = self.line();
        if !rest.is_empty() {
            return Err(DescriptionFault::Text {
                cause: Cause::Form,
                line,
            });
        }
        let early = DescriptionFault::Text {
            cause: Cause::Count,
            line: line - 1,
        };
        if !self.all_named() {
            return Err(early);
        }
        match (self.arguments, self.results, self.kept) {
            (Some(arguments), Some(results), Some(kept)) => Ok(Draft {
                planned: self.planned,
                arguments,
                results,
                kept,
            }),
            _ => Err(early),
        }
    }
}
