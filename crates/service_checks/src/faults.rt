// Every fault that a call of the service, or the reading of its convention, can answer.
use crate::lent::Lent;
use conventions::reading::read;
use machine::{Instruction, Width};
use origins::{Layer, Origin};
use service::culprits::culprit;
use std::alloc::Global;
use std::process::Abort;
use std::test::Fail;

// A word in r0, and a word back in r1.
const WORDS: &str = "count r0\ncount r1\nargs 1\nresults 2\nkeep\n";

// The layer that a number belongs to: 1 to 13, 21 to 24, 31 to 34, or 51.
fn origin(number: u8, position: usize) -> Origin {
    let layer = match number {
        0..=19 => Layer::Texts,
        20..=29 => Layer::Placing,
        30..=39 => Layer::Code,
        _ => Layer::Run,
    };
    Origin {
        layer,
        number,
        position,
    }
}

// The convention is not read, with a fault of this number and line that blames this text.
fn is_not_read(
    rt: &impl Abort,
    heap: Global,
    text: &str,
    (number, position): (u8, usize),
    blamed: &str,
) -> Result<(), Fail> {
    let fault = read(text.as_bytes(), heap)
        .err()
        .ok_or_else(|| Fail::new("the convention is read"))?;
    assert_eq!(rt; fault.origin(), Some(origin(number, position)), "{text}");
    assert_eq!(rt;
        culprit(&fault, text.as_bytes(), b""),
        blamed.as_bytes(),
        "{text}"
    );
    Ok(())
}

#[test]
fn conventions_that_are_not_read_are_1_to_5(rt: HostRuntime) -> Result<(), Fail> {
    let table = [
        ("", 1, 0, ""),
        ("up 4\nup\nup 3\n", 2, 2, "up"),
        ("up 4\nargs", 2, 2, "args"),
        ("up 4\nup 3\nup\n", 3, 2, "up 3"),
        ("up 4\nup 4\nshut 3\n", 4, 3, "shut 3"),
        ("up 4\nup 4\nargs 1\n", 5, 3, "args 1"),
    ];
    for (text, number, line, blamed) in table {
        is_not_read(&rt, rt.alloc(), text, (number, line), blamed)?;
    }
    Ok(())
}

// The call by a line of the list is refused with a fault of this number and position that blames this text, and leaves
// all that is lent as it was.
fn refuses(
    rt: &impl Abort,
    heap: Global,
    description: &str,
    list: &str,
    line: u32,
    body: &[Instruction],
    mut lent: Lent,
    (number, position): (u8, usize),
    blamed: &str,
) -> Result<(), Fail> {
    let fault = lent
        .call_once(heap, description, list, line, body)
        .err()
        .ok_or_else(|| Fail::new("the call is not refused"))?;
    assert_eq!(rt;
        fault.origin(),
        Some(origin(number, position)),
        "{description}{list}{line}"
    );
    let found = culprit(&fault, description.as_bytes(), list.as_bytes());
    assert_eq!(rt; found, blamed.as_bytes(), "{description}{list}{line}");
    assert!(rt; lent.is_untouched(), "{description}{list}{line}");
    Ok(())
}

// Line 5 has 17 arguments, line 6 has 5 results, and no feed closes line 7.
#[test]
fn lines_at_fault_are_11_to_13(rt: HostRuntime) -> Result<(), Fail> {
    let heap = rt.alloc();
    let list =
        "f u4 : u4\ng  u4 :\nh u9 :\n\nk u1 u1 u1 u1 u1 u1 u1 u1 u1 u1 u1 u1 u1 u1 u1 u1 u1 :\nl : u1 u1 u1 u1 u1\nm :";
    let table = [
        (0, 11, ""),
        (2, 11, "g  u4 :"),
        (3, 12, "h u9 :"),
        (4, 11, ""),
        (
            5,
            13,
            "k u1 u1 u1 u1 u1 u1 u1 u1 u1 u1 u1 u1 u1 u1 u1 u1 u1 :",
        ),
        (6, 13, "l : u1 u1 u1 u1 u1"),
        (7, 11, "m :"),
        (8, 11, ""),
    ];
    for (line, number, blamed) in table {
        refuses(
            &rt,
            heap,
            WORDS,
            list,
            line,
            &[],
            Lent::new(heap)?,
            (number, line as usize),
            blamed,
        )?;
    }
    Ok(())
}

// Each description's first signature is refused, with an empty body.
fn refuses_each(
    rt: &impl Abort,
    heap: Global,
    table: &[(&str, &str, u8, usize, &str)],
) -> Result<(), Fail> {
    for (description, list, number, position, blamed) in table {
        let fault = (*number, *position);
        let lent = Lent::new(heap)?;
        refuses(rt, heap, *description, *list, 1, &[], lent, fault, *blamed)?;
    }
    Ok(())
}

// Not reached by a signature: 21, since each of its words is a type and asks for its own alignment, and 22, since it has
// at most sixteen arguments.
#[test]
fn piles_that_are_not_sound_are_23(rt: HostRuntime) -> Result<(), Fail> {
    // The two sides of an over have a register in common.
    let table = [
        (
            "count r0 r1\ncount r1 r2\nover 1 2\ncount r3\nargs 3\nresults 4\nkeep\n",
            "f u4 : u4\n",
            23,
            0,
            "",
        ),
        (
            "count r0\ncount r1 r2\ncount r2 r3\nover 2 3\nargs 1\nresults 4\nkeep\n",
            "f u4 : u4\n",
            23,
            0,
            "",
        ),
    ];
    refuses_each(&rt, rt.alloc(), &table)
}

#[test]
fn piles_that_refuse_are_24(rt: HostRuntime) -> Result<(), Fail> {
    let table = [
        (WORDS, "f u4 u4 :\n", 24, 1, "count r0"),
        (WORDS, "f u4 : u4 u4\n", 24, 1, "count r1"),
        (WORDS, "f u4 u4 : u4 u4\n", 24, 1, "count r0"),
        (WORDS, "f u1 :\n", 24, 0, "count r0"),
        // The second side of an over is to blame, also where a widen stands on it.
        (
            "count r0\ncount r1\nover 1 2\nwiden 4 3\ncount r2\nargs 4\nresults 5\nkeep\n",
            "f u1 u2 u4 :\n",
            24,
            2,
            "count r1",
        ),
        (
            "up 4\ncount r1\nargs 1\nresults 2\nkeep\n",
            "f u8 :\n",
            24,
            0,
            "up 4",
        ),
    ];
    refuses_each(&rt, rt.alloc(), &table)
}

#[test]
fn places_without_code_are_31_and_32(rt: HostRuntime) -> Result<(), Fail> {
    let table = [
        // A kept register in either pile's set, whether or not it is given.
        (
            "count r0\ncount r1\nargs 1\nresults 2\nkeep r9 r0\n",
            "f u4 : u4\n",
            31,
            0,
            "",
        ),
        (
            "count r0\ncount r1\nargs 1\nresults 2\nkeep r1\n",
            "f :\n",
            31,
            0,
            "",
        ),
        (
            "count r0\nup 8\nargs 1\nresults 2\nkeep\n",
            "f u4 : u4\n",
            32,
            0,
            "",
        ),
        // Where 31 and 32 apply, the lower.
        (
            "count r0\nup 8\nargs 1\nresults 2\nkeep r0\n",
            "f : u4\n",
            31,
            0,
            "",
        ),
    ];
    refuses_each(&rt, rt.alloc(), &table)
}

const SET: Instruction = Instruction::Set { d: 9, n: 1 };

const LINK: Instruction = Instruction::Set { d: 30, n: 0 };

// With this body, and so many records and bytes, the call by `WORDS` is refused. The caller's code has 6 records, and the
// callee's 5 around the body: two homes, from r31 on.
fn refuses_body(
    rt: &impl Abort,
    heap: Global,
    body: &[Instruction],
    (caller, callee, memory): (usize, usize, usize),
    fault: (u8, usize),
) -> Result<(), Fail> {
    let lent = Lent::of(heap, caller, callee, memory)?;
    refuses(rt, heap, WORDS, "f u4 : u4\n", 1, body, lent, fault, "")
}

#[test]
fn bodies_at_fault_are_33(rt: HostRuntime) -> Result<(), Fail> {
    let past_homes = Instruction::Store {
        s: 9,
        b: 31,
        i: 13,
        width: Width::Four,
    };
    let other_base = Instruction::Load {
        d: 9,
        b: 0,
        i: 0,
        width: Width::One,
        signed: false,
    };
    let endless = [SET; 257];
    let table: [(&[Instruction], usize); 6] = [
        (&[LINK], 0),
        (&[SET, SET, LINK, LINK], 2),
        (&[SET, past_homes], 1),
        (&[other_base], 0),
        (&[SET, Instruction::Ret], 1),
        (&endless, 256),
    ];
    for (body, index) in table {
        refuses_body(&rt, rt.alloc(), body, (24, 24, 192), (33, index))?;
    }
    Ok(())
}

#[test]
fn short_lists_are_34_and_large_memories_51(rt: HostRuntime) -> Result<(), Fail> {
    let table: [(&[Instruction], (usize, usize, usize), (u8, usize)); 7] = [
        (&[], (5, 24, 192), (34, 0)),
        (&[], (24, 4, 192), (34, 0)),
        (&[SET, SET], (24, 6, 192), (34, 0)),
        // The caller's code comes before the callee's.
        (&[SET, LINK], (5, 24, 65_537), (34, 0)),
        (&[SET, LINK], (6, 4, 65_537), (33, 1)),
        (&[SET], (6, 5, 65_537), (34, 0)),
        (&[SET], (6, 6, 65_537), (51, 0)),
    ];
    for (body, room, fault) in table {
        refuses_body(&rt, rt.alloc(), body, room, fault)?;
    }
    Ok(())
}
