// What the machine does on cases that were worked out by hand.
#![tactic(auto)]

#[cfg(test)]
mod tests {
    use machine::{Instruction, Machine, Mode, Outcome, Program, RunFault, Side, Width};
    use std::process::Abort;
    use std::test::Fail;

    const BYTES: [u8; 8] = [0x7F, 0x80, 0xFF, 0x7F, 0x00, 0x80, 0x34, 0x12];

    fn program<'c, 'd>(caller: &'c [Instruction], callee: &'d [Instruction]) -> Program<'c, 'd> {
        Program { caller, callee }
    }

    fn addi(i: i16) -> Instruction {
        Instruction::Addi { d: 3, s: 1, i }
    }

    fn load(i: i16, width: Width, signed: bool) -> Instruction {
        Instruction::Load {
            d: 3,
            b: 1,
            i,
            width,
            signed,
        }
    }

    fn store(i: i16, width: Width) -> Instruction {
        Instruction::Store {
            s: 2,
            b: 1,
            i,
            width,
        }
    }

    fn in_caller(at: usize) -> Mode {
        Mode::Running(Side::Caller, at)
    }

    fn in_callee(at: usize) -> Mode {
        Mode::Running(Side::Callee, at)
    }

    // One instruction from r1 and r2: what r3 holds after it, or nothing where it cannot be done.
    fn results_in(
        rt: &impl Abort,
        instruction: Instruction,
        r1: u32,
        r2: u32,
        r3: Option<u32>,
    ) -> Result<(), Fail> {
        let mut registers = [0; 32];
        registers[1] = r1;
        registers[2] = r2;
        let mut memory = BYTES;
        let mut machine = Machine::new(registers);
        let ran = machine.run(
            &mut memory,
            program(&[instruction, Instruction::Halt], &[]),
            10,
        )?;
        if let Some(value) = r3 {
            registers[3] = value;
            assert_eq!(rt; ran, (Outcome::Ended, 2));
        } else {
            assert_eq!(rt; ran, (Outcome::Stuck, 0));
            assert_eq!(rt; machine.mode, in_caller(0));
        }
        assert!(rt; machine.registers == registers);
        assert!(rt; memory == BYTES);
        Ok(())
    }

    #[test]
    fn sums_and_signs(rt: HostRuntime) -> Result<(), Fail> {
        let set = Instruction::Set { d: 3, n: u32::MAX };
        let mov = Instruction::Mov { d: 3, s: 1 };
        let add = Instruction::Add { d: 3, s: 1, t: 2 };
        let sign = Instruction::Sign { d: 3, s: 1 };
        let cases = [
            (set, 0, 0, Some(0xFFFF_FFFF)),
            (mov, 7, 0, Some(7)),
            (add, 0xFFFF_FFFF, 1, Some(0)),
            (add, 0x8000_0000, 0x8000_0001, Some(1)),
            (addi(-1), 0, 0, Some(0xFFFF_FFFF)),
            (addi(-32768), 32767, 0, Some(0xFFFF_FFFF)),
            (addi(32767), 5, 0, Some(32772)),
            (sign, 0x7FFF_FFFF, 0, Some(0)),
            (sign, 0x8000_0000, 0, Some(0xFFFF_FFFF)),
        ];
        for (instruction, r1, r2, r3) in cases {
            results_in(&rt, instruction, r1, r2, r3)?;
        }
        Ok(())
    }

    #[test]
    fn loads(rt: HostRuntime) -> Result<(), Fail> {
        let cases = [
            // by sign and by zeros, at each width
            (load(0, Width::One, true), 0, Some(0x7F)),
            (load(0, Width::One, true), 1, Some(0xFFFF_FF80)),
            (load(0, Width::One, false), 1, Some(0x80)),
            (load(0, Width::Two, true), 2, Some(0x7FFF)),
            (load(0, Width::Two, true), 4, Some(0xFFFF_8000)),
            (load(0, Width::Two, false), 4, Some(0x8000)),
            (load(0, Width::Four, true), 2, Some(0x8000_7FFF)),
            (load(0, Width::Four, false), 2, Some(0x8000_7FFF)),
            // addresses: -1, the last byte, one past it, and a sum that would wrap to 0
            (load(-1, Width::One, false), 0, None),
            (load(-1, Width::One, false), 8, Some(0x12)),
            (load(7, Width::One, false), 0, Some(0x12)),
            (load(8, Width::One, false), 0, None),
            (load(6, Width::Two, false), 0, Some(0x1234)),
            (load(7, Width::Two, false), 0, None),
            (load(4, Width::Four, false), 0, Some(0x1234_8000)),
            (load(5, Width::Four, false), 0, None),
            (load(1, Width::One, false), 0xFFFF_FFFF, None),
        ];
        for (instruction, base, r3) in cases {
            results_in(&rt, instruction, base, 0, r3)?;
        }
        Ok(())
    }

    #[test]
    fn instructions_that_cannot_be_done(rt: HostRuntime) -> Result<(), Fail> {
        let cases = [
            Instruction::Set { d: 32, n: 1 },
            Instruction::Mov { d: 3, s: 32 },
            Instruction::Add { d: 3, s: 1, t: 32 },
            Instruction::Addi { d: 32, s: 1, i: 1 },
            Instruction::Sign { d: 3, s: 255 },
            Instruction::Load {
                d: 3,
                b: 32,
                i: 0,
                width: Width::One,
                signed: false,
            },
            Instruction::Store {
                s: 32,
                b: 1,
                i: 0,
                width: Width::One,
            },
            store(-1, Width::One),
            store(8, Width::One),
            store(5, Width::Four),
            Instruction::Ret,
        ];
        for instruction in cases {
            results_in(&rt, instruction, 0, 0, None)?;
        }
        Ok(())
    }

    #[test]
    fn stores(rt: HostRuntime) {
        let cases = [
            (
                store(0, Width::One),
                [0x78, 0x80, 0xFF, 0x7F, 0x00, 0x80, 0x34, 0x12],
            ),
            (
                store(1, Width::Two),
                [0x7F, 0x78, 0x56, 0x7F, 0x00, 0x80, 0x34, 0x12],
            ),
            (
                store(4, Width::Four),
                [0x7F, 0x80, 0xFF, 0x7F, 0x78, 0x56, 0xCD, 0xAB],
            ),
            (
                store(7, Width::One),
                [0x7F, 0x80, 0xFF, 0x7F, 0x00, 0x80, 0x34, 0x78],
            ),
        ];
        for (instruction, bytes) in cases {
            let mut registers = [0; 32];
            registers[2] = 0xABCD_5678;
            let mut memory = BYTES;
            let mut machine = Machine::new(registers);
            assert!(rt; machine.step(&mut memory, program(&[instruction], &[])));
            assert!(rt; memory == bytes);
            assert!(rt; machine.registers == registers);
        }
    }

    // A run that stops after so many steps, ended or else stuck: so under a budget of those or more, and spent under less.
    fn stops(
        rt: &impl Abort,
        caller: [Instruction; 3],
        callee: [Instruction; 2],
        steps: usize,
        mode: Mode,
    ) -> Result<(), Fail> {
        let stopped = match mode {
            Mode::Ended => Outcome::Ended,
            Mode::Running(_, _) => Outcome::Stuck,
        };
        for budget in [steps.saturating_sub(1), steps, 100] {
            let mut machine = Machine::new([0; 32]);
            let (outcome, made) = machine.run(&mut [], program(&caller, &callee), budget)?;
            assert_eq!(rt; made, budget.min(steps));
            if budget < steps {
                assert_eq!(rt; outcome, Outcome::Spent);
            } else {
                assert_eq!(rt; outcome, stopped);
                assert_eq!(rt; machine.mode, mode);
            }
        }
        Ok(())
    }

    #[test]
    fn runs(rt: HostRuntime) -> Result<(), Fail> {
        let set = Instruction::Set { d: 1, n: 5 };
        let far = Instruction::Set { d: 30, n: 9 };
        let (call, ret, halt) = (Instruction::Call, Instruction::Ret, Instruction::Halt);
        // HALT in either list
        stops(&rt, [halt, halt, halt], [set, ret], 1, Mode::Ended)?;
        stops(&rt, [set, call, halt], [set, ret], 5, Mode::Ended)?;
        stops(&rt, [call, halt, halt], [set, halt], 3, Mode::Ended)?;
        // no instruction: past the end of either list, and where RET jumps past it
        stops(&rt, [set, set, set], [set, ret], 3, in_caller(3))?;
        stops(&rt, [call, halt, halt], [set, set], 3, in_callee(2))?;
        stops(&rt, [call, halt, halt], [far, ret], 3, in_caller(9))?;
        // CALL in the callee list, and RET in the caller list, also under a budget of 0
        stops(&rt, [set, call, halt], [call, ret], 2, in_callee(0))?;
        stops(&rt, [ret, halt, halt], [set, ret], 0, in_caller(0))
    }

    #[test]
    fn memory_limit(rt: HostRuntime) -> Result<(), Fail> {
        let code = [
            Instruction::Set { d: 0, n: 1 },
            Instruction::Store {
                s: 0,
                b: 1,
                i: 0,
                width: Width::One,
            },
        ];
        let mut registers = [0; 32];
        registers[1] = 65_535;
        let mut memory = vec![in rt.alloc(); 0u8; 65_536]?;
        let mut machine = Machine::new(registers);
        assert_eq!(rt;
            machine.run(&mut memory, program(&code, &[]), 2),
            Ok((Outcome::Stuck, 2))
        );
        assert!(rt; memory.len() == 65_536 && memory[65_535] == 1);

        memory.push(0)?;
        let mut machine = Machine::new(registers);
        assert_eq!(rt;
            machine.run(&mut memory, program(&code, &[]), 2),
            Err(RunFault::MemoryTooLarge)
        );
        assert_eq!(rt; machine, Machine::new(registers));
        Ok(())
    }
}
