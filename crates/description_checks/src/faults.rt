// The first fault of a description.
use description::description::Description;
use pages::faults::DescriptionFault;
use std::alloc::Global;
use std::process::Abort;
use std::test::Fail;

// Two stages, and the lines behind them up to the kept registers.
const UP_TO_KEEP: &str = "up 4\nup 4\nargs 1\nresults 2\n";

const EIGHT_STAGES: &str = "up 4\nup 4\nup 4\nup 4\nup 4\nup 4\nup 4\nup 4\n";

// The number and line of a fault; none where a description is read, and 0 where memory is wanting.
fn fault(text: &[u8], heap: Global) -> Option<(u8, u32)> {
    match Description::read(text, heap) {
        Ok(_) => None,
        Err(DescriptionFault::Text { cause, line }) => Some((cause.number(), line)),
        Err(DescriptionFault::Memory) => Some((0, 0)),
    }
}

// Each text has the fault with the number and the line beside it, where the same lines stand before each.
fn faults(
    rt: &impl Abort,
    heap: Global,
    before: &str,
    table: &[(&str, u8, u32)],
) -> Result<(), Fail> {
    for (rest, number, line) in table {
        let text = format!(in heap; "{before}{}", *rest)?;
        assert_eq!(rt;
            fault(text.as_bytes(), heap),
            Some((*number, *line)),
            "{}",
            *rest
        );
    }
    Ok(())
}

// A proper text has at most 27 lines of at most 106 bytes, so one of 8,192 bytes has another fault.
#[test]
fn more_than_8192_bytes_or_none_are_1(rt: HostRuntime) {
    let heap = rt.alloc();
    assert_eq!(rt; fault(b"", heap), Some((1, 0)));
    for byte in [b'a', b' ', b'\n', 0] {
        let text = [byte; 8193];
        assert_eq!(rt; fault(&text, heap), Some((1, 0)));
        assert_eq!(rt; fault(&text[..8192], heap), Some((2, 1)));
    }
}

#[test]
fn other_bytes_are_2(rt: HostRuntime) {
    let heap = rt.alloc();
    for byte in 0..=255 {
        let expected = match byte {
            // Read, but the text ends too early.
            b'1' | b'2' | b'4' | b'8' => (5, 1),
            b'0' | b'3' | b'5' | b'6' | b'7' | b'9' => (3, 1),
            _ => (2, 1),
        };
        assert_eq!(rt;
            fault(&[b'u', b'p', b' ', byte, b'\n'], heap),
            Some(expected),
            "{byte}"
        );
    }
}

#[test]
fn lines_without_the_form_are_2(rt: HostRuntime) -> Result<(), Fail> {
    let table = [
        ("\n", 2, 1),
        (" \n", 2, 1),
        ("\0\n", 2, 1),
        ("up 4", 2, 1),
        ("up 4\0\n", 2, 1),
        ("up 4\r\n", 2, 1),
        ("up\t4\n", 2, 1),
        ("up  4\n", 2, 1),
        ("up 4 \n", 2, 1),
        (" up 4\n", 2, 1),
        ("up4\n", 2, 1),
        ("down 4\n", 2, 1),
        ("UP 4\n", 2, 1),
        ("u 4\n", 2, 1),
        ("upp 4\n", 2, 1),
        ("4\n", 2, 1),
        ("up 4\nup 4\n\nargs 1\n", 2, 3),
        ("up 4\nargs", 2, 2),
        ("up 4\n\0", 2, 2),
    ];
    faults(&rt, rt.alloc(), "", &table)
}

#[test]
fn numbers_without_the_form_are_2(rt: HostRuntime) -> Result<(), Fail> {
    let table = [
        ("up\n", 2, 1),
        ("up 4 4\n", 2, 1),
        ("up 100\n", 2, 1),
        ("up 008\n", 2, 1),
        ("up 04\n", 2, 1),
        ("up 00\n", 2, 1),
        ("up -4\n", 2, 1),
        ("up 4a\n", 2, 1),
        ("up r4\n", 2, 1),
        ("up u\n", 2, 1),
        ("widen 4\n", 2, 1),
        ("widen 4 1 2\n", 2, 1),
        ("widen 4 01\n", 2, 1),
        ("widen 4 100\n", 2, 1),
        ("widen u 1\n", 2, 1),
        ("raise\n", 2, 1),
        ("raise 4 r1\n", 2, 1),
        ("over 1\n", 2, 1),
        ("over 1 2 3\n", 2, 1),
        ("over u 1 2\n", 2, 1),
        ("over 1 00\n", 2, 1),
        ("shut\n", 2, 1),
        ("shut 1 2\n", 2, 1),
        ("shut 001\n", 2, 1),
        ("args\n", 2, 1),
        ("args 1 2\n", 2, 1),
        ("args r1\n", 2, 1),
        ("args 100\n", 2, 1),
    ];
    faults(&rt, rt.alloc(), "", &table)
}

#[test]
fn tests_without_the_form_are_2(rt: HostRuntime) -> Result<(), Fail> {
    let table = [
        ("choose uu 1 2\n", 2, 1),
        ("choose ufu 1 2\n", 2, 1),
        ("choose usfau 1 2\n", 2, 1),
        ("choose x 1 2\n", 2, 1),
        ("choose ux 1 2\n", 2, 1),
        ("choose U 1 2\n", 2, 1),
        ("choose u4 1 2\n", 2, 1),
        ("choose 4u 1 2\n", 2, 1),
        ("choose 04 1 2\n", 2, 1),
        ("choose 100 1 2\n", 2, 1),
        ("choose  1 2\n", 2, 1),
        ("choose u\n", 2, 1),
        ("choose u 1\n", 2, 1),
        ("choose 1 2\n", 2, 1),
        ("choose u s 1 2\n", 2, 1),
        ("choose u 1 2 3\n", 2, 1),
    ];
    faults(&rt, rt.alloc(), "", &table)
}

#[test]
fn registers_of_banks(rt: HostRuntime) -> Result<(), Fail> {
    let table = [
        ("count\n", 2, 1),
        ("bits\n", 2, 1),
        ("count 0\n", 2, 1),
        ("count r\n", 2, 1),
        ("count R0\n", 2, 1),
        ("bits r07\n", 2, 1),
        ("bits r00\n", 2, 1),
        ("bits r100\n", 2, 1),
        ("bits r-1\n", 2, 1),
        ("bits r0,r1\n", 2, 1),
        ("bits r0  r1\n", 2, 1),
        // 17 registers.
        (
            "count r0 r1 r2 r3 r4 r5 r6 r7 r8 r9 r10 r11 r12 r13 r14 r15 r16\n",
            2,
            1,
        ),
        (
            "bits r0 r1 r2 r3 r4 r5 r6 r7 r8 r9 r10 r11 r12 r13 r14 r15 r0\n",
            2,
            1,
        ),
        // 16 registers.
        (
            "count r0 r1 r2 r3 r4 r5 r6 r7 r8 r9 r10 r11 r12 r13 r14 r15\n",
            5,
            1,
        ),
        (
            "bits r0 r1 r2 r3 r4 r5 r6 r7 r8 r9 r10 r11 r12 r13 r14 r0\n",
            3,
            1,
        ),
    ];
    faults(&rt, rt.alloc(), "", &table)
}

#[test]
fn lines_that_keep_registers(rt: HostRuntime) -> Result<(), Fail> {
    let table = [
        ("keep", 2, 5),
        ("keep \n", 2, 5),
        ("keep 1\n", 2, 5),
        ("keep r07\n", 2, 5),
        ("keep r100\n", 2, 5),
        ("keep r0 r1", 2, 5),
        ("keep r28\n", 3, 5),
        ("keep r99 r0\n", 3, 5),
        ("keep r5 r5\n", 3, 5),
        ("keep r27 r0 r27\n", 3, 5),
    ];
    faults(&rt, rt.alloc(), UP_TO_KEEP, &table)
}

// The longest line with the form has 116 bytes, so one of more than 120 bytes has not the form either.
#[test]
fn long_lines_that_keep_registers(rt: HostRuntime) -> Result<(), Fail> {
    let table = [
        // 28 registers in 106 and in 116 bytes, and 29 in 109 and in 120.
        (
            "keep r0 r1 r2 r3 r4 r5 r6 r7 r8 r9 r10 r11 r12 r13 r14 r15 r16 r17 r18 r19 r20 r21 r22 r23 r24 r25 r26 r10\n",
            3,
            5,
        ),
        (
            "keep r10 r11 r12 r13 r14 r15 r16 r17 r18 r19 r20 r21 r22 r23 r24 r25 r26 r27 r28 r29 r30 r31 r32 r33 r34 r35 r36 r37\n",
            3,
            5,
        ),
        (
            "keep r0 r1 r2 r3 r4 r5 r6 r7 r8 r9 r10 r11 r12 r13 r14 r15 r16 r17 r18 r19 r20 r21 r22 r23 r24 r25 r26 r27 r0\n",
            2,
            5,
        ),
        (
            "keep r10 r11 r12 r13 r14 r15 r16 r17 r18 r19 r20 r21 r22 r23 r24 r25 r26 r27 r28 r29 r30 r31 r32 r33 r34 r35 r36 r37 r38\n",
            2,
            5,
        ),
        // 121 bytes.
        (
            "keep r10 r11 r12 r13 r14 r15 r16 r17 r18 r19 r20 r21 r22 r23 r24 r25 r26 r27 r28 r29 r30 r31 r32 r33 r34 r35 r36 r37 r38 \n",
            2,
            5,
        ),
    ];
    faults(&rt, rt.alloc(), UP_TO_KEEP, &table)
}

#[test]
fn lines_out_of_order_are_2(rt: HostRuntime) -> Result<(), Fail> {
    let table = [
        ("results 1\n", 2, 3),
        ("keep\n", 2, 3),
        ("args 1\nup 4\n", 2, 4),
        ("args 1\nup 3\n", 2, 4),
        ("args 1\nshut 9\n", 2, 4),
        ("args 1\nkeep\n", 2, 4),
        ("args 1\nargs 2\n", 2, 4),
        ("args 1\nargs 1\n", 2, 4),
        ("args 1\nresults 2\nup 4\n", 2, 5),
        ("args 1\nresults 2\nargs 2\n", 2, 5),
        ("args 1\nresults 2\nresults 2\n", 2, 5),
        ("args 1\nresults 2\nkeep\n\n", 2, 6),
        ("args 1\nresults 2\nkeep\n ", 2, 6),
        ("args 1\nresults 2\nkeep\n\0", 2, 6),
        ("args 1\nresults 2\nkeep\nkeep\n", 2, 6),
        ("args 1\nresults 2\nkeep\nup 4\n", 2, 6),
        ("args 1\nresults 2\nkeep\nargs 1\n", 2, 6),
        ("args 1\nresults 2\nkeep\nresults 2\n", 2, 6),
    ];
    faults(&rt, rt.alloc(), "up 4\nup 4\n", &table)
}

#[test]
fn numbers_and_registers_out_of_range_are_3(rt: HostRuntime) -> Result<(), Fail> {
    let table = [
        ("up 3\n", 3, 3),
        ("up 16\n", 3, 3),
        ("up 99\n", 3, 3),
        ("widen 0 1\n", 3, 3),
        ("widen 1 1\n", 3, 3),
        ("widen 3 1\n", 3, 3),
        ("widen 16 1\n", 3, 3),
        ("raise 1 1\n", 3, 3),
        ("raise 6 1\n", 3, 3),
        ("raise 99 1\n", 3, 3),
        ("choose 0 1 2\n", 3, 3),
        ("choose 1 1 2\n", 3, 3),
        ("choose 3 1 2\n", 3, 3),
        ("choose 16 1 2\n", 3, 3),
        ("count r28\n", 3, 3),
        ("count r0 r31\n", 3, 3),
        ("bits r99 r0\n", 3, 3),
        ("count r1 r1\n", 3, 3),
        ("bits r3 r27 r3\n", 3, 3),
    ];
    faults(&rt, rt.alloc(), "up 4\nup 4\n", &table)
}

#[test]
fn stages_that_are_not_free_are_4(rt: HostRuntime) -> Result<(), Fail> {
    let table = [
        ("shut 0\n", 4, 3),
        ("shut 3\n", 4, 3),
        ("shut 4\nup 4\n", 4, 3),
        ("widen 2 0\n", 4, 3),
        ("raise 8 99\n", 4, 3),
        ("over 1 1\n", 4, 3),
        ("over 0 1\n", 4, 3),
        ("over 1 0\n", 4, 3),
        ("over 1 3\n", 4, 3),
        ("over 3 1\n", 4, 3),
        ("over 2 4\nup 4\n", 4, 3),
        ("choose us 2 2\n", 4, 3),
        ("choose 2 1 3\n", 4, 3),
        ("shut 1\nshut 1\n", 4, 4),
        ("shut 1\nover 1 2\n", 4, 4),
        ("shut 2\nover 1 2\n", 4, 4),
        ("over 1 2\nargs 2\n", 4, 4),
        ("args 0\n", 4, 3),
        ("args 3\n", 4, 3),
        ("args 2\nresults 2\n", 4, 4),
        ("args 1\nresults 0\n", 4, 4),
        ("args 1\nresults 3\n", 4, 4),
        ("args 1\nresults 99\n", 4, 4),
    ];
    faults(&rt, rt.alloc(), "up 4\nup 4\n", &table)
}

#[test]
fn early_ends_and_unused_stages_and_a_25th_are_5(rt: HostRuntime) -> Result<(), Fail> {
    let heap = rt.alloc();
    let table = [
        ("up 4\n", 5, 1),
        ("up 4\nargs 1\n", 5, 2),
        ("up 4\nup 4\nargs 1\nresults 2\n", 5, 4),
        ("up 4\nup 4\nup 4\nargs 1\nresults 2\n", 5, 5),
        ("up 4\nup 4\nup 4\nargs 1\nresults 2\nkeep\n", 5, 6),
        ("up 4\nup 4\nup 4\nargs 3\nresults 2\nkeep r4\n", 5, 6),
        ("up 4\nshut 1\nup 4\nup 4\nargs 4\nresults 3\nkeep\n", 5, 7),
    ];
    faults(&rt, heap, "", &table)?;
    let stages = format!(in heap; "{EIGHT_STAGES}{EIGHT_STAGES}{EIGHT_STAGES}")?;
    let table = [
        ("", 5, 24),
        ("up 4", 2, 25),
        ("up 4 4\n", 2, 25),
        ("up 3\n", 3, 25),
        ("count r28\n", 3, 25),
        ("widen 1 25\n", 3, 25),
        ("shut 25\n", 4, 25),
        ("over 24 24\n", 4, 25),
        ("up 4\n", 5, 25),
        ("shut 1\n", 5, 25),
        ("up 4\nup\n", 5, 25),
        ("args 25\n", 4, 25),
        ("args 24\nresults 1\nkeep\n", 5, 27),
    ];
    faults(&rt, heap, stages.as_str(), &table)
}

#[test]
fn the_first_line_at_fault_and_its_lowest_number_decide(rt: HostRuntime) -> Result<(), Fail> {
    let table = [
        ("up 3\nup\n", 3, 1),
        ("shut 1\nup 3\nup\n", 4, 1),
        ("args 1\nup\n", 4, 1),
        ("up 4\nup 4\nover 1 2\nshut 1\n\n", 4, 4),
        // On one line.
        ("up 3", 2, 1),
        ("up 3 \n", 2, 1),
        ("count r28 r28 r100\n", 2, 1),
        ("widen 1\n", 2, 1),
        ("shut 100\n", 2, 1),
        ("choose uu 1 1\n", 2, 1),
        ("widen 1 1\n", 3, 1),
        ("raise 3 0\n", 3, 1),
        ("choose 1 2 3\n", 3, 1),
        ("choose 5 1 1\n", 3, 1),
        // On the last line, where a stage is not used.
        ("up 4\nup 4\nup 4\nargs 1\nresults 2\nkeep", 2, 6),
        ("up 4\nup 4\nup 4\nargs 1\nresults 2\nkeep\n\n", 2, 7),
        ("up 4\nup 4\nup 4\nargs 1\nresults 2\nkeep r28\n", 3, 6),
        ("up 4\nup 4\nup 4\nargs 1\nresults 1\n", 4, 5),
    ];
    faults(&rt, rt.alloc(), "", &table)
}

// Nothing here asks for memory but the reading, and it asks for none before all lines are checked. So the faults are these
// whichever allocation fails, as under `rt try --test --fail-alloc N`.
#[test]
fn faults_behind_a_layer_are_found_whatever_memory_there_is(rt: HostRuntime) {
    let heap = rt.alloc();
    let table = [
        ("up 8\nshut 1\nxyz\n", 2, 3),
        ("up 8\nshut 1\nup 3\n", 3, 3),
        ("up 8\nshut 1\nshut 1\n", 4, 3),
        ("up 8\nshut 1\n", 5, 2),
        ("up 8\nup 8\nover 1 2\nwiden 4 3\nargs 4\nresults 3\n", 4, 6),
        ("up 8\nup 8\nshut 1\nargs 3\nresults 2\nkeep r28\n", 3, 6),
        ("up 8\nup 8\nshut 1\nargs 3\nresults 2\nkeep\nkeep\n", 2, 7),
    ];
    for (text, number, line) in table {
        assert_eq!(rt;
            fault(text.as_bytes(), heap),
            Some((number, line)),
            "{}",
            text
        );
    }
}

// A proper text has no fault with a number: it is read, or memory is wanting.
#[test]
fn a_proper_text_is_read_or_wants_memory(rt: HostRuntime) {
    let heap = rt.alloc();
    let text = b"up 8\nup 8\nshut 1\nargs 3\nresults 2\nkeep\n";
    assert_eq!(rt; fault(text, heap).unwrap_or((0, 0)), (0, 0));
}
