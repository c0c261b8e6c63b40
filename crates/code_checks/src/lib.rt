// The code of caller and callee, on cases that were worked out by hand.
#![tactic(auto)]

#[cfg(test)]
mod word_for_word;

#[cfg(test)]
mod tests {
    use adjust::Adjust;
    use allocation::asked::Asked;
    use allocation::frozen::Frozen;
    use allocation::opened::Open;
    use banks::bits::Bits;
    use banks::count::Count;
    use blocks::up::Up;
    use emit::callee::{callee_code, callee_size};
    use emit::caller::{caller_code, caller_size};
    use emit::faults::CodeFault;
    use machine::{Instruction, Machine, Outcome, Program, RunFault, Width};
    use place::registers::RegisterSet;
    use sides::over::Over;
    use stage::{ParameterFault, Stage};
    use std::test::Fail;
    use values::kinds::Kind;

    // s1 in r0, u2 in r1, and s2 at offset 0 of the block, 4 bytes wide.
    fn arguments() -> Result<Frozen<Adjust<Over<Bits, Up>>>, ParameterFault> {
        let pile = Over::new(Bits::new(&[0, 1])?, Up::new(8)?);
        let mut open = Open::new(Adjust::widen(4, pile)?);
        let _ = open.place(Asked::aligned(Kind::Signed, 1));
        let _ = open.place(Asked::aligned(Kind::Unsigned, 2));
        let _ = open.place(Asked::aligned(Kind::Signed, 2));
        Ok(open.freeze())
    }

    // So many results of 4 bytes, in r0 and on.
    fn results(number: usize) -> Result<Frozen<Count>, ParameterFault> {
        let mut open = Open::new(Count::new(&[0, 2, 3, 4, 5])?);
        for _ in 0..number {
            let _ = open.place(Asked::aligned(Kind::Unsigned, 4));
        }
        Ok(open.freeze())
    }

    // A result of 4 bytes in the block.
    fn result_in_block() -> Result<Frozen<Up>, ParameterFault> {
        let mut open = Open::new(Up::new(8)?);
        let _ = open.place(Asked::aligned(Kind::Unsigned, 4));
        Ok(open.freeze())
    }

    fn kept(r: u8) -> RegisterSet {
        RegisterSet::EMPTY.with(r)
    }

    fn load(d: u8, i: i16) -> Instruction {
        Instruction::Load {
            d,
            b: 31,
            i,
            width: Width::Four,
            signed: false,
        }
    }

    // Adds up three arguments in r9, and leaves the sum in the result's home.
    fn sum() -> [Instruction; 6] {
        [
            load(9, 0),
            load(4, 8),
            Instruction::Add { d: 9, s: 9, t: 4 },
            load(4, 16),
            Instruction::Add { d: 9, s: 9, t: 4 },
            Instruction::Store {
                s: 9,
                b: 31,
                i: 24,
                width: Width::Four,
            },
        ]
    }

    // -3, 1,000 and -600 lie in the homes from 64 on, and 397 arrives behind them.
    // The body writes r9, which is kept. A step is taken for each of 9 and 16 records.
    #[test]
    fn a_sum_arrives(rt: HostRuntime) -> Result<(), Fail> {
        let arguments = arguments()?;
        let results = results(1)?;
        let mut caller = [Instruction::Ret; 10];
        let made = caller_code(&arguments, &results, kept(9), &mut caller);
        assert_eq!(rt; made.ok(), Some((9, 8)));
        let mut callee = [Instruction::Halt; 16];
        let made = callee_code(&arguments, &results, kept(9), &sum(), &mut callee);
        assert_eq!(rt; made.ok(), Some((16, 40)));
        let mut memory = [0; 96];
        memory[64] = 0xFD;
        memory[72] = 0xE8;
        memory[73] = 0x03;
        memory[80] = 0xA8;
        memory[81] = 0xFD;
        let mut registers = [0; 32];
        registers[9] = 77;
        registers[31] = 64;
        let mut machine = Machine::new(registers);
        let program = Program {
            caller: &caller,
            callee: &callee,
        };
        let (outcome, steps) = machine.run(&mut memory, program, 100)?;
        assert_eq!(rt; (outcome, steps), (Outcome::Ended, 25));
        assert_eq!(rt; (machine.registers[9], machine.registers[31]), (77, 64));
        assert_eq!(rt;
            (memory[88], memory[89], memory[90], memory[91]),
            (0x8D, 0x01, 0, 0)
        );
        Ok(())
    }

    // The caller's code has 9 records, the callee's 16.
    #[test]
    fn a_list_one_short_is_34(rt: HostRuntime) -> Result<(), Fail> {
        let arguments = arguments()?;
        let results = results(1)?;
        let mut short = [Instruction::Ret; 8];
        let refused = caller_code(&arguments, &results, kept(9), &mut short);
        assert_eq!(rt; refused.err(), Some(CodeFault::TooShort));
        assert_eq!(rt; short, [Instruction::Ret; 8]);
        let sized = caller_size(&arguments, &results, kept(9), 9);
        assert_eq!(rt; sized.ok(), Some((9, 8)));
        let mut short = [Instruction::Halt; 15];
        let refused = callee_code(&arguments, &results, kept(9), &sum(), &mut short);
        assert_eq!(rt; refused.err(), Some(CodeFault::TooShort));
        assert_eq!(rt; short, [Instruction::Halt; 15]);
        Ok(())
    }

    // r29 may be written, r30 may not.
    #[test]
    fn a_body_that_writes_the_link_is_33_at_its_index(rt: HostRuntime) -> Result<(), Fail> {
        let link = [
            Instruction::Set { d: 29, n: 0 },
            Instruction::Set { d: 30, n: 0 },
        ];
        let refused = callee_size(&arguments()?, &results(1)?, kept(9), &link, 1000);
        assert_eq!(rt; refused.err(), Some(CodeFault::Body(1)));
        Ok(())
    }

    // The callee's code has 8 records besides.
    #[test]
    fn a_body_of_256_instructions_is_coded(rt: HostRuntime) -> Result<(), Fail> {
        let body = [Instruction::Set { d: 0, n: 0 }; 256];
        let sized = callee_size(&arguments()?, &results(1)?, kept(9), &body, 264);
        assert_eq!(rt; sized.ok(), Some((264, 32)));
        let mut code = [Instruction::Halt; 264];
        let made = callee_code(&arguments()?, &results(1)?, kept(9), &body, &mut code);
        assert_eq!(rt; made.ok(), Some((264, 32)));
        assert_eq!(rt; (code[5], code[260]), (body[0], body[255]));
        assert_eq!(rt; code[263], Instruction::Ret);
        Ok(())
    }

    #[test]
    fn a_body_of_257_instructions_is_33_at_index_256(rt: HostRuntime) -> Result<(), Fail> {
        let body = [Instruction::Set { d: 0, n: 0 }; 257];
        let refused = callee_size(&arguments()?, &results(1)?, kept(9), &body, 1000);
        assert_eq!(rt; refused.err(), Some(CodeFault::Body(256)));
        let mut code = [Instruction::Halt; 300];
        let refused = callee_code(&arguments()?, &results(1)?, kept(9), &body, &mut code);
        assert_eq!(rt; refused.err(), Some(CodeFault::Body(256)));
        assert!(rt; code.iter().all(|x| *x == Instruction::Halt));
        Ok(())
    }

    // r1 may be given to an argument, r5 to a result, and r28 is scratch.
    #[test]
    fn a_kept_register_that_is_not_free_is_31(rt: HostRuntime) -> Result<(), Fail> {
        let arguments = arguments()?;
        let results = results(5)?;
        for r in [1, 5, 28, 31] {
            let refused = caller_size(&arguments, &results, kept(r), 0);
            assert_eq!(rt; refused.err(), Some(CodeFault::Kept));
        }
        Ok(())
    }

    #[test]
    fn five_results_or_one_in_the_block_are_32(rt: HostRuntime) -> Result<(), Fail> {
        let arguments = arguments()?;
        let five = caller_code(&arguments, &results(5)?, kept(27), &mut []);
        assert_eq!(rt; five.err(), Some(CodeFault::Results));
        let four = caller_code(&arguments, &results(4)?, kept(27), &mut []);
        assert_eq!(rt; four.err(), Some(CodeFault::TooShort));
        let block = caller_code(&arguments, &result_in_block()?, kept(27), &mut []);
        assert_eq!(rt; block.err(), Some(CodeFault::Results));
        Ok(())
    }
}
