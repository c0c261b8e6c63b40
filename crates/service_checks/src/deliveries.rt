// What the body finds, and what comes back.
use crate::lent::{Lent, STACK};
use machine::{Instruction, Outcome, Width};
use std::alloc::Global;
use std::ops::Range;
use std::process::Abort;
use std::test::Fail;

// With 0 below the caller's homes, and 0xFD in the lowest byte of the first, whose other bytes stay as they were made.
fn lent(heap: Global) -> Result<Lent, Fail> {
    let mut lent = Lent::new(heap)?;
    for byte in lent.memory.as_mut_slice().iter_mut().take(STACK) {
        *byte = 0;
    }
    if let Some(byte) = lent.memory.as_mut_slice().get_mut(STACK) {
        *byte = 0xFD;
    }
    Ok(lent)
}

// The home of the body's argument, at these addresses, has these bytes in the end.
fn finds(
    rt: &impl Abort,
    heap: Global,
    description: &str,
    list: &str,
    home: Range<usize>,
    bytes: [u8; 8],
) -> Result<(), Fail> {
    let mut lent = lent(heap)?;
    let ran = lent.call_once(heap, description, list, 1, &[])?;
    assert_eq!(rt; ran.outcome, Outcome::Ended, "{description}{list}");
    let found = lent.memory.as_slice().get(home).unwrap_or(&[]);
    assert_eq!(rt; found, bytes.as_slice(), "{description}{list}");
    Ok(())
}

// -3, or 253 where there is no sign. A callee's home lies below 128 by B, which is 8 for a place in the block, and by 8.
#[test]
fn a_byte_is_extended_to_the_width_of_its_place(rt: HostRuntime) -> Result<(), Fail> {
    let heap = rt.alloc();
    let one = "bits r0 r1\nwiden 4 1\nbits r2\nargs 2\nresults 3\nkeep\n";
    let two = "bits r0 r1\nwiden 8 1\nbits r2\nargs 2\nresults 3\nkeep\n";
    let block = "up 8\nwiden 4 1\nbits r2\nargs 2\nresults 3\nkeep\n";
    let byte = "up 8\nbits r2\nargs 1\nresults 2\nkeep\n";
    let table = [
        (
            one,
            "f s1 :\n",
            120..128,
            [0xFD, 0xFF, 0xFF, 0xFF, 0, 0, 0, 0],
        ),
        (one, "f u1 :\n", 120..128, [0xFD, 0, 0, 0, 0, 0, 0, 0]),
        (
            two,
            "f s1 :\n",
            120..128,
            [0xFD, 0xFF, 0xFF, 0xFF, 0xFF, 0xFF, 0xFF, 0xFF],
        ),
        (two, "f u1 :\n", 120..128, [0xFD, 0, 0, 0, 0, 0, 0, 0]),
        (
            block,
            "f s1 :\n",
            112..120,
            [0xFD, 0xFF, 0xFF, 0xFF, 0, 0, 0, 0],
        ),
        (byte, "f s1 :\n", 112..120, [0xFD, 0, 0, 0, 0, 0, 0, 0]),
    ];
    for (description, list, home, bytes) in table {
        finds(&rt, heap, description, list, home, bytes)?;
    }
    Ok(())
}

// -3 and 40 are 37. The body writes r9, which is kept. Two homes and a word take 20 bytes, so the body's argument is at 104;
// the caller's home of the result is at 136.
#[test]
fn a_result_comes_back_and_a_kept_register_is_as_before(rt: HostRuntime) -> Result<(), Fail> {
    let heap = rt.alloc();
    let description =
        "bits r0 r1\nup 8\nover 1 2\nwiden 4 3\nbits r0 r1\nargs 4\nresults 5\nkeep r9\n";
    let body = [
        Instruction::Load {
            d: 9,
            b: 31,
            i: 0,
            width: Width::Four,
            signed: false,
        },
        Instruction::Addi { d: 9, s: 9, i: 40 },
        Instruction::Store {
            s: 9,
            b: 31,
            i: 8,
            width: Width::Four,
        },
    ];
    let mut lent = lent(heap)?;
    let ran = lent.call_once(heap, description, "f s1 : s4\n", 1, &body)?;
    assert_eq!(rt; (ran.outcome, ran.steps), (Outcome::Ended, 16));
    assert_eq!(rt; (ran.caller_length, ran.callee_length), (6, 10));
    assert_eq!(rt; (ran.block, ran.frame), (0, 24));
    let memory = lent.memory.as_slice();
    let found = memory.get(104..112).unwrap_or(&[]);
    assert_eq!(rt; found, [0xFD, 0xFF, 0xFF, 0xFF, 0, 0, 0, 0].as_slice());
    let back = memory.get(136..144).unwrap_or(&[]);
    assert_eq!(rt; back, [37, 0, 0, 0, 0x5A, 0x5A, 0x5A, 0x5A].as_slice());
    let [r0, ..] = lent.registers;
    assert_eq!(rt; r0, 37);
    assert_eq!(rt; (lent.registers[9], lent.registers[31]), (7, 128));
    Ok(())
}
