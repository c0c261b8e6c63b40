// A stage that is built in, and beside it the described pile that is made in the same way.
ghost use Rattle.std.specs.Prelude.{◌≡◌, IfOk};
ghost use Rattle.values.specs.Sizes.{OfBytes};
ghost use Rattle.stage.specs.Faults.{fault_of};
ghost use Rattle.banks.specs.Lists.{list_fault};
ghost use Rattle.banks.specs.Banks.{count_profile, bits_profile};
ghost use Rattle.blocks.specs.Blocks.{limit_fault, up_profile};
ghost use Rattle.adjust.specs.Adjusting.{changed, map_profile};
ghost use Rattle.conditions.specs.Tests.{meets};
ghost use Rattle.sides.specs.Sides.{choose_profile, over_profile};
ghost use Rattle.described.specs.Piles.{lined, pile_profile};
ghost use Rattle.shut.specs.Shutting.{shut_profile};
ghost use Rattle.described.specs.Beside.{AnswerAlike, BothBegin};

use crate::pile::Pile;
use adjust::{Adjust, Change};
use banks::bits::Bits;
use banks::count::Count;
use blocks::up::Up;
use conditions::Test;
use shut::Shut;
use sides::choose::Choose;
use sides::over::Over;
use stage::{ParameterFault, Stage};
use std::alloc::{AllocError, Global};

// Both answer every list of requests alike: they differ at most in the lines that their refusals carry. A law of the makers of
// both, for the program makes no such pair.
#[derive(Drop)]
pub struct Beside<S: Stage> {
    pub built_in: S,
    pub described: Pile,
    ghost answer_alike: { AnswerAlike S.Stage ⟦<Pile as Stage>⟧ built_in described },
}

impl Beside<Count> {
    pub fn count(line: u32, registers: &[u8]) -> Result<Beside<Count>, ParameterFault>
        ensures refused_by_count_then_by_register { fault_of result ≡ list_fault registers.now }
        ensures both_mean_count { IfOk result (λ m.
            BothBegin ⟦<Count as Stage>⟧ ⟦<Pile as Stage>⟧
            (count_profile registers.now)
            (lined line (count_profile registers.now))
            m.built_in m.described) }
    {
        let built_in = Count::new(registers)?;
        let described = Pile::count(line, registers)?;
        Ok(Beside {
            built_in,
            described,
        })
    }
}

impl Beside<Bits> {
    pub fn bits(line: u32, registers: &[u8]) -> Result<Beside<Bits>, ParameterFault>
        ensures refused_by_count_then_by_register { fault_of result ≡ list_fault registers.now }
        ensures both_mean_bits { IfOk result (λ m.
            BothBegin ⟦<Bits as Stage>⟧ ⟦<Pile as Stage>⟧
            (bits_profile registers.now)
            (lined line (bits_profile registers.now))
            m.built_in m.described) }
    {
        let built_in = Bits::new(registers)?;
        let described = Pile::bits(line, registers)?;
        Ok(Beside {
            built_in,
            described,
        })
    }
}

impl Beside<Up> {
    pub fn up(line: u32, limit: u8) -> Result<Beside<Up>, ParameterFault>
        ensures refused_unless_1_2_4_or_8 { fault_of result ≡ limit_fault limit }
        ensures both_mean_up { IfOk result (λ m. OfBytes limit (λ size.
            BothBegin ⟦<Up as Stage>⟧ ⟦<Pile as Stage>⟧
            (up_profile size)
            (lined line (up_profile size))
            m.built_in m.described)) }
    {
        let built_in = Up::new(limit)?;
        let described = Pile::up(line, limit)?;
        Ok(Beside {
            built_in,
            described,
        })
    }
}

impl<S: Stage + Drop> Beside<S> {
    // Both behind a change: widen or raise.
    pub fn adjust(self, change: Change, heap: Global) -> Result<Beside<Adjust<S>>, AllocError>
        ensures both_mean_the_change_in_front { IfOk result (λ m.
            BothBegin ⟦<Adjust<S> as Stage>⟧ ⟦<Pile as Stage>⟧
            (map_profile (changed change) (S.Stage.profile self.built_in))
            (map_profile (changed change) (pile_profile self.described))
            m.built_in m.described) }
    {
        let built_in = Adjust::new(change, self.built_in);
        let described = Pile::adjust(change, self.described, heap)?;
        Ok(Beside {
            built_in,
            described,
        })
    }

    // Both chosen by the test, or else their seconds.
    pub fn choose<T: Stage + Drop>(
        self,
        test: Test,
        second: Beside<T>,
        heap: Global,
    ) -> Result<Beside<Choose<S, T>>, AllocError>
        ensures both_mean_choose { IfOk result (λ m.
            BothBegin ⟦<Choose<S, T> as Stage>⟧ ⟦<Pile as Stage>⟧
            (choose_profile (meets test) (S.Stage.profile self.built_in) (T.Stage.profile second.built_in))
            (choose_profile (meets test) (pile_profile self.described) (pile_profile second.described))
            m.built_in m.described) }
    {
        let built_in = Choose::new(test, self.built_in, second.built_in);
        let described = Pile::choose(test, self.described, second.described, heap)?;
        Ok(Beside {
            built_in,
            described,
        })
    }

    // Both in front of their seconds.
    pub fn over<T: Stage + Drop>(
        self,
        second: Beside<T>,
        heap: Global,
    ) -> Result<Beside<Over<S, T>>, AllocError>
        ensures both_mean_over { IfOk result (λ m.
            BothBegin ⟦<Over<S, T> as Stage>⟧ ⟦<Pile as Stage>⟧
            (over_profile (S.Stage.profile self.built_in) (T.Stage.profile second.built_in))
            (over_profile (pile_profile self.described) (pile_profile second.described))
            m.built_in m.described) }
    {
        let built_in = Over::new(self.built_in, second.built_in);
        let described = Pile::over(self.described, second.described, heap)?;
        Ok(Beside {
            built_in,
            described,
        })
    }

    // Both shut; the line is that of the described one.
    pub fn shut(self, line: u32, heap: Global) -> Result<Beside<Shut<S>>, AllocError>
        ensures both_mean_shut { IfOk result (λ m.
            BothBegin ⟦<Shut<S> as Stage>⟧ ⟦<Pile as Stage>⟧
            (shut_profile 0 (S.Stage.profile self.built_in))
            (shut_profile line (pile_profile self.described))
            m.built_in m.described) }
    {
        let built_in = Shut::new(self.built_in);
        let described = Pile::shut(line, self.described, heap)?;
        Ok(Beside {
            built_in,
            described,
        })
    }
}
