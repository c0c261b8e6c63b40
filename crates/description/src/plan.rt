// What a stage line makes, before its stages below are at hand.
ghost use Rattle.std.specs.Prelude.{◌≡◌, ◌≤◌, false, true, IfOk, MatchResult};
ghost use Rattle.stage.specs.Books.{Profile};
ghost use Rattle.stage.specs.declared.ParameterFault.TheVariants.{Range};
ghost use Rattle.described.specs.Piles.{AtStart};
ghost use Rattle.pages.specs.Lines.{HasTheForm};
ghost use Rattle.pages.specs.Pages.{is_in_range};
ghost use Rattle.pages.specs.declared.lines.Line.TheVariants.{Stage};
ghost use Rattle.description.specs.Plans.{made_by, PlanFits, AreBelow};

use adjust::Change;
use arrayvec::ArrayVec;
use conditions::Test;
use described::pile::Pile;
use pages::lines::{Parameter, StageLine};
use pages::table::StageWord;
use stage::ParameterFault;
use std::alloc::{AllocError, Global};

#[derive(Drop, Default)]
pub(crate) enum Plan {
    Bottom(Pile),
    Adjust(Change),
    Choose(Test),
    Over,
    #[default]
    Shut,
}

// The plan of a line, with the numbers of the stages below that the line names.
#[derive(Drop, Default)]
pub(crate) struct Planned {
    pub(crate) plan: Plan,
    pub(crate) below: ArrayVec<u8, 2>,
}

impl Plan {
    // Refused where a number or a register is out of its range, or a register stands twice.
    pub(crate) fn of(line: u32, stage: &StageLine) -> Result<Plan, ParameterFault>
        ensures in_range_or_refused { HasTheForm (Stage stage.now) → MatchResult result (λ p. (is_in_range (Stage stage.now) ≡ true) × PlanFits line stage.now p) (λ f. (is_in_range (Stage stage.now) ≡ false) × (f ≡ Range)) }
    {
        match (stage.stage, &stage.parameter) {
            (StageWord::Count, Parameter::Registers(list)) => {
                Ok(Plan::Bottom(Pile::count(line, list.as_slice())?))
            }
            (StageWord::Bits, Parameter::Registers(list)) => {
                Ok(Plan::Bottom(Pile::bits(line, list.as_slice())?))
            }
            (StageWord::Up, Parameter::Number(m)) => Ok(Plan::Bottom(Pile::up(line, *m)?)),
            (StageWord::Widen, Parameter::Number(m)) => { Ok(Plan::Adjust(Change::widen(*m)?)) }
            (StageWord::Raise, Parameter::Number(m)) => { Ok(Plan::Adjust(Change::raise(*m)?)) }
            (StageWord::Choose, Parameter::Number(m)) => Ok(Plan::Choose(Test::at_least(*m)?)),
            (StageWord::Choose, Parameter::Kinds(kinds)) => {
                Ok(Plan::Choose(Test::of_kinds(kinds.as_slice())?))
            }
            (StageWord::Over, Parameter::Nothing) => Ok(Plan::Over),
            (StageWord::Shut, Parameter::Nothing) => Ok(Plan::Shut),
            _ => Err(ParameterFault::Form),
        }
    }

    // The pile that it makes of the stages below.
    pub(crate) fn build(
        self,
        line: u32,
        first: Option<Pile>,
        second: Option<Pile>,
        heap: Global,
    ) -> Result<Pile, AllocError>
        requires the_stages_below_are_there { (a : Profile) × (b : Profile) × AreBelow self first second a b }
        ensures made_of_the_stages_below { (a b : Profile) → AreBelow self first second a b → IfOk result (AtStart (made_by line self a b)) }
    {
        match (self, first, second) {
            (Plan::Bottom(pile), _, _) => Ok(pile),
            (Plan::Adjust(change), Some(below), _) => Ok(Pile::adjust(change, below, heap)?),
            (Plan::Choose(test), Some(first), Some(second)) => {
                Ok(Pile::choose(test, first, second, heap)?)
            }
            (Plan::Over, Some(first), Some(second)) => Ok(Pile::over(first, second, heap)?),
            (Plan::Shut, Some(below), _) => Ok(Pile::shut(line, below, heap)?),
            _ => unreachable!(),
        }
    }
}
