// Calls on cases that were worked out by hand.
#![tactic(auto)]

#[cfg(test)]
mod tests {
    use allocation::answers::Answer;
    use allocation::asked::Asked;
    use allocation::faults::{Cause, PlacementFault};
    use allocation::frozen::Frozen;
    use allocation::opened::Open;
    use arrayvec::ArrayVec;
    use banks::count::Count;
    use call::calls::call;
    use call::ran::Ran;
    use call::sides::{Routine, Side};
    use call::standing::call_as_it_stands;
    use histories::events::{Event, UsedPile};
    use histories::listeners::Silence;
    use histories::plays::{answers_to, place_alike};
    use machine::{Instruction, Outcome};
    use place::pieces::{Piece, Place};
    use place::registers::RegisterSet;
    use stage::{ParameterFault, Refusal};
    use std::test::Fail;
    use values::kinds::Kind;

    const WORD: Asked = Asked {
        kind: Kind::Unsigned,
        width: 4,
        alignment: 4,
    };

    // A pile that nothing came to before.
    fn unused<P>(pile: P) -> UsedPile<'static, P> {
        UsedPile { pile, past: &[] }
    }

    // One word goes from r0 at the bench to the callee's home, and nothing comes back; the stack pointer starts at sp.
    fn pass_a_word(
        sp: u32,
        body: &[Instruction],
        code: &mut [Instruction; 8],
    ) -> Result<Option<Ran>, ParameterFault> {
        let bench = Side {
            arguments: UsedPile {
                pile: Count::new(&[0])?,
                past: &[Event::Place(WORD)],
            },
            results: unused(Count::new(&[1])?),
        };
        let core = Side {
            arguments: UsedPile {
                pile: Count::new(&[0])?,
                past: &[Event::Place(WORD), Event::Place(WORD), Event::Reopen],
            },
            results: unused(Count::new(&[1])?),
        };
        let routine = Routine {
            arguments: &[WORD],
            results: &[],
            kept: RegisterSet::EMPTY,
            body,
        };
        let mut callee = [Instruction::Halt; 8];
        let mut registers = [0; 32];
        registers[31] = sp;
        let mut memory = [0; 32];
        let called = call(
            bench,
            core,
            &mut Silence,
            routine,
            code,
            &mut callee,
            &mut registers,
            &mut memory,
            512,
        );
        Ok(called.answer.ok())
    }

    // The callee takes 8 bytes of stack, and the caller none.
    #[test]
    fn a_stack_of_eight_bytes_is_deep_enough(rt: HostRuntime) -> Result<(), Fail> {
        let ran = pass_a_word(8, &[], &mut [Instruction::Ret; 8])?;
        let ran = ran.ok_or_else(|| Fail::new("the call is refused"))?;
        assert_eq!(rt; (ran.block, ran.frame), (0, 8));
        assert_eq!(rt; ran.outcome, Outcome::Ended);
        assert_eq!(rt; ran.steps, 9);
        Ok(())
    }

    // The stack pointer falls below 0, and the first store is outside of memory.
    #[test]
    fn a_stack_one_byte_too_shallow_is_stuck_in_the_callee(rt: HostRuntime) -> Result<(), Fail> {
        let ran = pass_a_word(7, &[], &mut [Instruction::Ret; 8])?;
        let ran = ran.ok_or_else(|| Fail::new("the call is refused"))?;
        assert_eq!(rt; ran.outcome, Outcome::Stuck);
        assert_eq!(rt; ran.steps, 4);
        Ok(())
    }

    // A body that writes the link is refused before the caller's list is written.
    #[test]
    fn a_bad_body_leaves_the_callers_list(rt: HostRuntime) -> Result<(), Fail> {
        let mut code = [Instruction::Ret; 8];
        let ran = pass_a_word(8, &[Instruction::Set { d: 30, n: 0 }], &mut code)?;
        assert!(rt; ran.is_none());
        assert_eq!(rt; code[0], Instruction::Ret);
        Ok(())
    }

    fn frozen(register: u8, words: usize) -> Result<Frozen<Count>, ParameterFault> {
        let mut allocation = Open::new(Count::new(&[register])?);
        for _ in 0..words {
            let _ = allocation.place(WORD);
        }
        Ok(allocation.freeze())
    }

    // What somebody opened, filled and froze is called without being placed again: a word goes from r0 to the home.
    #[test]
    fn allocations_are_called_as_they_stand(rt: HostRuntime) -> Result<(), Fail> {
        let bench = Side {
            arguments: frozen(0, 1)?,
            results: frozen(1, 0)?,
        };
        let core = Side {
            arguments: frozen(0, 2)?,
            results: frozen(1, 0)?,
        };
        let mut registers = [0; 32];
        registers[31] = 8;
        let mut memory = [0; 32];
        memory[8] = 7;
        let ran = call_as_it_stands(
            &bench,
            &core,
            RegisterSet::EMPTY,
            &[],
            &mut [Instruction::Ret; 8],
            &mut [Instruction::Halt; 8],
            &mut registers,
            &mut memory,
            9,
        );
        let ran = ran.map_err(|_| Fail::new("the call is refused"))?;
        assert_eq!(rt; ran.outcome, Outcome::Ended);
        assert_eq!(rt; ran.steps, 9);
        assert_eq!(rt; memory[0], 7);
        Ok(())
    }

    // The one register is given, then refused with 24 at position 1, and given again after the reopening.
    #[test]
    fn a_past_is_answered_in_order(rt: HostRuntime) -> Result<(), Fail> {
        let used = UsedPile {
            pile: Count::new(&[5])?,
            past: &[
                Event::Place(WORD),
                Event::Place(WORD),
                Event::Reopen,
                Event::Place(WORD),
            ],
        };
        let answers: ArrayVec<Option<Answer>, 4> = answers_to(used);
        let given = Ok(Place::Single(Piece::Register(5)));
        let refused = Err(PlacementFault {
            cause: Cause::Refused(Refusal { line: 0 }),
            position: 1,
        });
        let expected = [Some(given), Some(refused), Some(given)];
        assert_eq!(rt; answers.as_slice(), expected.as_slice());
        Ok(())
    }

    // Whatever came before, one register is one register; two others are another convention.
    #[test]
    fn unlike_pasts_answer_alike_and_unlike_piles_do_not(rt: HostRuntime) -> Result<(), Fail> {
        let past = [Event::Place(WORD), Event::Place(WORD)];
        for (register, alike) in [(0, true), (1, false)] {
            let first = UsedPile {
                pile: Count::new(&[0])?,
                past: &past,
            };
            let second = unused(Count::new(&[register])?);
            let same = place_alike(first, second, &[WORD, WORD], &mut Silence, &mut Silence);
            assert_eq!(rt; same, alike);
        }
        Ok(())
    }
}
