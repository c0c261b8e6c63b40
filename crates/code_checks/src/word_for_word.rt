// Both codes of two signatures, word for word, as worked out by hand.
use adjust::Adjust;
use allocation::asked::Asked;
use allocation::frozen::Frozen;
use allocation::opened::Open;
use banks::bits::Bits;
use blocks::up::Up;
use emit::callee::callee_code;
use emit::caller::caller_code;
use machine::{Instruction, Width};
use place::registers::RegisterSet;
use sides::over::Over;
use stage::{ParameterFault, Stage};
use std::test::Fail;
use values::kinds::Kind;

type Arguments = Adjust<Over<Bits, Up>>;

type Results = Adjust<Bits>;

// Places for these types, each at its own alignment.
fn placed<P: Stage>(pile: P, types: &[(Kind, u8)]) -> Frozen<P> {
    let mut open = Open::new(pile);
    for (kind, width) in types {
        let _ = open.place(Asked::aligned(*kind, *width));
    }
    open.freeze()
}

// s1 in r0, u2 in r1, s8 in r2 and r3, u4 at offset 0 of the block, and s8 at 8.
fn mixed_arguments() -> Result<Frozen<Arguments>, ParameterFault> {
    let pile = Over::new(Bits::new(&[0, 1, 2, 3])?, Up::new(8)?);
    let types = [
        (Kind::Signed, 1),
        (Kind::Unsigned, 2),
        (Kind::Signed, 8),
        (Kind::Unsigned, 4),
        (Kind::Signed, 8),
    ];
    Ok(placed(Adjust::widen(4, pile)?, &types))
}

// u8 in r0 and r1, and s2 in r2.
fn mixed_results() -> Result<Frozen<Results>, ParameterFault> {
    let pile = Adjust::widen(4, Bits::new(&[0, 1, 2])?)?;
    Ok(placed(pile, &[(Kind::Unsigned, 8), (Kind::Signed, 2)]))
}

// Each in two pieces: s1 in r0 and r1, s4 at offset 0 of the block, and f4 at 8.
fn narrow_arguments() -> Result<Frozen<Arguments>, ParameterFault> {
    let pile = Over::new(Bits::new(&[0, 1])?, Up::new(8)?);
    let types = [(Kind::Signed, 1), (Kind::Signed, 4), (Kind::Float, 4)];
    Ok(placed(Adjust::widen(8, pile)?, &types))
}

// s2 in r0 and r1.
fn narrow_results() -> Result<Frozen<Results>, ParameterFault> {
    let pile = Adjust::widen(8, Bits::new(&[0, 1])?)?;
    Ok(placed(pile, &[(Kind::Signed, 2)]))
}

fn load(d: u8, i: i16, width: Width, signed: bool) -> Instruction {
    Instruction::Load {
        d,
        b: 31,
        i,
        width,
        signed,
    }
}

fn by_sign(d: u8, i: i16) -> Instruction {
    load(d, i, Width::Four, true)
}

fn with_zeros(d: u8, i: i16) -> Instruction {
    load(d, i, Width::Four, false)
}

fn store(s: u8, i: i16, width: Width) -> Instruction {
    Instruction::Store { s, b: 31, i, width }
}

fn whole(s: u8, i: i16) -> Instruction {
    store(s, i, Width::Four)
}

fn stack(i: i16) -> Instruction {
    Instruction::Addi { d: 31, s: 31, i }
}

#[test]
fn caller_code_of_registers_pairs_and_block(rt: HostRuntime) -> Result<(), Fail> {
    let kept = RegisterSet::EMPTY.with(9);
    let mut code = [Instruction::Ret; 18];
    let made = caller_code(&mixed_arguments()?, &mixed_results()?, kept, &mut code);
    assert_eq!(rt; made.ok(), Some((17, 16)));
    let wanted = [
        stack(-16),
        load(0, 16, Width::One, true),
        load(1, 24, Width::Two, false),
        by_sign(2, 32),
        by_sign(3, 36),
        with_zeros(28, 40),
        whole(28, 0),
        by_sign(28, 48),
        whole(28, 8),
        by_sign(28, 52),
        whole(28, 12),
        Instruction::Call,
        whole(0, 56),
        whole(1, 60),
        store(2, 64, Width::Two),
        stack(16),
        Instruction::Halt,
        Instruction::Ret,
    ];
    assert_eq!(rt; code, wanted);
    Ok(())
}

// r9 is kept and written, r10 is kept alone.
#[test]
fn callee_code_of_registers_pairs_and_block(rt: HostRuntime) -> Result<(), Fail> {
    let kept = RegisterSet::EMPTY.with(9).with(10);
    let body = [Instruction::Set { d: 9, n: 7 }];
    let mut code = [Instruction::Halt; 20];
    let made = callee_code(
        &mixed_arguments()?,
        &mixed_results()?,
        kept,
        &body,
        &mut code,
    );
    assert_eq!(rt; made.ok(), Some((19, 64)));
    let wanted = [
        stack(-64),
        whole(9, 56),
        whole(0, 0),
        whole(1, 8),
        whole(2, 16),
        whole(3, 20),
        with_zeros(28, 64),
        whole(28, 24),
        with_zeros(28, 72),
        whole(28, 32),
        with_zeros(28, 76),
        whole(28, 36),
        Instruction::Set { d: 9, n: 7 },
        with_zeros(0, 40),
        with_zeros(1, 44),
        load(2, 48, Width::Two, true),
        with_zeros(9, 56),
        stack(64),
        Instruction::Ret,
        Instruction::Halt,
    ];
    assert_eq!(rt; code, wanted);
    Ok(())
}

#[test]
fn caller_code_of_narrow_values_in_two_pieces(rt: HostRuntime) -> Result<(), Fail> {
    let kept = RegisterSet::EMPTY;
    let mut code = [Instruction::Ret; 15];
    let made = caller_code(&narrow_arguments()?, &narrow_results()?, kept, &mut code);
    assert_eq!(rt; made.ok(), Some((15, 16)));
    let wanted = [
        stack(-16),
        load(0, 16, Width::One, true),
        Instruction::Sign { d: 1, s: 0 },
        by_sign(28, 24),
        whole(28, 0),
        Instruction::Sign { d: 28, s: 28 },
        whole(28, 4),
        with_zeros(28, 32),
        whole(28, 8),
        Instruction::Set { d: 28, n: 0 },
        whole(28, 12),
        Instruction::Call,
        store(0, 40, Width::Two),
        stack(16),
        Instruction::Halt,
    ];
    assert_eq!(rt; code, wanted);
    Ok(())
}

#[test]
fn callee_code_of_narrow_values_in_two_pieces(rt: HostRuntime) -> Result<(), Fail> {
    let kept = RegisterSet::EMPTY;
    let mut code = [Instruction::Halt; 15];
    let made = callee_code(
        &narrow_arguments()?,
        &narrow_results()?,
        kept,
        &[],
        &mut code,
    );
    assert_eq!(rt; made.ok(), Some((15, 32)));
    let wanted = [
        stack(-32),
        whole(0, 0),
        whole(1, 4),
        with_zeros(28, 32),
        whole(28, 8),
        with_zeros(28, 36),
        whole(28, 12),
        with_zeros(28, 40),
        whole(28, 16),
        with_zeros(28, 44),
        whole(28, 20),
        load(0, 24, Width::Two, true),
        Instruction::Sign { d: 1, s: 0 },
        stack(32),
        Instruction::Ret,
    ];
    assert_eq!(rt; code, wanted);
    Ok(())
}
