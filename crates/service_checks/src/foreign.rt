// A service of piles that contain a bottom of a client's own.
use crate::lent::{Lent, STACK};
use adjust::Adjust;
use blocks::up::Up;
use call::ran::Ran;
use foreign_bottoms::two_registers::TwoRegisters;
use machine::{Instruction, Outcome, Width};
use origins::{Layer, Origin};
use place::registers::RegisterSet;
use service::services::{Answered, Convention, Service};
use sides::over::Over;
use stage::ParameterFault;
use std::process::Abort;
use std::test::Fail;

type Foreign = Adjust<Over<TwoRegisters, Up>>;

const LIST: &str = "f s1 u4 u2 : s4\ng u4 u4 u4 : u8\n";

// Its first argument and its second are its result.
const BODY: [Instruction; 4] = [
    Instruction::Load {
        d: 9,
        b: 31,
        i: 0,
        width: Width::Four,
        signed: false,
    },
    Instruction::Load {
        d: 10,
        b: 31,
        i: 8,
        width: Width::Four,
        signed: false,
    },
    Instruction::Add { d: 9, s: 9, t: 10 },
    Instruction::Store {
        s: 9,
        b: 31,
        i: 24,
        width: Width::Four,
    },
];

// r0 and r1, four bytes each, and then the block.
fn pile() -> Result<Foreign, ParameterFault> {
    Adjust::widen(4, Over::new(TwoRegisters::new(), Up::new(8)?))
}

fn convention() -> Result<Convention<Foreign>, ParameterFault> {
    Ok(Convention {
        arguments: pile()?,
        results: pile()?,
        kept: RegisterSet::EMPTY.with(9),
    })
}

// The home at this address has these bytes, and the four after them as they were made.
fn has_home(rt: &impl Abort, lent: &Lent, at: usize, bytes: [u8; 4]) {
    let [b0, b1, b2, b3] = bytes;
    let expected = [b0, b1, b2, b3, 0x5A, 0x5A, 0x5A, 0x5A];
    let found = lent
        .memory
        .as_slice()
        .get(at..at.saturating_add(8))
        .unwrap_or(&[]);
    assert_eq!(rt; found, expected.as_slice(), "{at}");
}

// s1 is in r0, u4 in r1, u2 in the block, and the result in r0. -3 and 40 are 37. The caller's homes lie from 128; four
// homes and r9 take 40 bytes, and the block 8, so the callee's lie from 80.
#[test]
fn a_call_by_a_bottom_of_a_client(rt: HostRuntime) -> Result<(), Fail> {
    let mut service = Service::open(convention()?, convention()?);
    let ran = Ran {
        caller_length: 9,
        callee_length: 14,
        block: 8,
        frame: 40,
        outcome: Outcome::Ended,
        steps: 23,
    };
    for _ in 0..2 {
        let mut lent = Lent::new(rt.alloc())?;
        for (at, byte) in [
            (STACK, 0xFD),
            (STACK + 8, 40),
            (STACK + 9, 0),
            (STACK + 10, 0),
            (STACK + 11, 0),
            (STACK + 16, 0x34),
            (STACK + 17, 0x12),
        ] {
            if let Some(found) = lent.memory.as_mut_slice().get_mut(at) {
                *found = byte;
            }
        }
        let Answered {
            service: next,
            answer,
        } = lent.call(service, LIST, 1, &BODY);
        service = next;
        assert_eq!(rt; answer.ok(), Some(ran));
        has_home(&rt, &lent, 80, [0xFD, 0xFF, 0xFF, 0xFF]);
        has_home(&rt, &lent, 88, [40, 0, 0, 0]);
        has_home(&rt, &lent, 96, [0x34, 0x12, 0, 0]);
        has_home(&rt, &lent, STACK + 24, [37, 0, 0, 0]);
        let [r0, ..] = lent.registers;
        assert_eq!(rt; (r0, lent.registers[9], lent.registers[31]), (37, 7, 128));
    }
    Ok(())
}

// It has no place for u8, so the block has, where no result may be.
#[test]
fn what_a_bottom_of_a_client_refuses(rt: HostRuntime) -> Result<(), Fail> {
    let service = Service::open(convention()?, convention()?);
    let mut lent = Lent::new(rt.alloc())?;
    let Answered { service: _, answer } = lent.call(service, LIST, 2, &[]);
    let fault = answer
        .err()
        .ok_or_else(|| Fail::new("the call is not refused"))?;
    assert_eq!(rt;
        fault.origin(),
        Some(Origin {
            layer: Layer::Code,
            number: 32,
            position: 0
        })
    );
    assert!(rt; lent.is_untouched());
    Ok(())
}
