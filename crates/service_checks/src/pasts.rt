// What came to a service before does not matter.
use crate::lent::Lent;
use allocation::held::Held;
use call::ran::Ran;
use conventions::reading::read;
use described::pile::Pile;
use machine::{Instruction, Outcome, Width};
use service::services::{Answered, Service};
use std::alloc::Global;
use std::process::Abort;
use std::test::Fail;

// Two registers until one value is refused, then the block.
const CLOSING: &str =
    "bits r0 r1\nshut 1\nup 8\nover 2 3\nbits r2 r3\nargs 4\nresults 5\nkeep r9\n";

const LIST: &str =
    "f u4 u8 u4 :\ng u4 u4 :\nh u4 s8 u4 : u4\nk u8 : u8 u8\nl u4 u9 :\nm u8 u1 u8 : u4 u4 u4\n";

// Its first argument is its result.
const BODY: [Instruction; 2] = [
    Instruction::Load {
        d: 9,
        b: 31,
        i: 0,
        width: Width::Four,
        signed: false,
    },
    Instruction::Store {
        s: 9,
        b: 31,
        i: 24,
        width: Width::Four,
    },
];

// The service after calls by these lines, which are run, or refused, as it stands beside them.
fn after(
    rt: &impl Abort,
    heap: Global,
    mut service: Service<Pile>,
    lines: &[(u32, bool)],
) -> Result<Service<Pile>, Fail> {
    let mut lent = Lent::new(heap)?;
    for (line, runs) in lines {
        let Answered {
            service: next,
            answer,
        } = lent.call(service, LIST, *line, &[]);
        assert_eq!(rt; answer.is_ok(), *runs, "line {}", *line);
        service = next;
    }
    Ok(service)
}

// A service with calls behind it that ended, and others that were refused.
fn long_used(rt: &impl Abort, heap: Global) -> Result<Service<Pile>, Fail> {
    let calls = [
        (1, true),
        (4, false),
        (5, false),
        (6, false),
        (2, true),
        (1, true),
        (0, false),
    ];
    after(rt, heap, read(CLOSING.as_bytes(), heap)?, &calls)
}

// Of h, u4 has r0, the other arguments have 16 bytes of block, and the result has r2; four homes and r9 take 36 bytes. The
// caller's code has 12 records, the callee's 15.
#[test]
fn services_with_unlike_pasts_answer_alike(rt: HostRuntime) -> Result<(), Fail> {
    let heap = rt.alloc();
    let mut used = long_used(&rt, heap)?;
    let mut fresh = read(CLOSING.as_bytes(), heap)?;
    let ran = Ran {
        caller_length: 12,
        callee_length: 15,
        block: 16,
        frame: 40,
        outcome: Outcome::Ended,
        steps: 27,
    };
    let table = [
        (3, Some(ran)),
        (4, None),
        (5, None),
        (6, None),
        (3, Some(ran)),
    ];
    for (line, expected) in table {
        let mut lent = Lent::new(heap)?;
        let mut other = Lent::new(heap)?;
        let Answered { service, answer } = lent.call(used, LIST, line, &BODY);
        used = service;
        let Answered {
            service,
            answer: again,
        } = other.call(fresh, LIST, line, &BODY);
        fresh = service;
        assert_eq!(rt; answer, again, "line {line}");
        assert_eq!(rt; answer.ok(), expected, "line {line}");
        assert!(rt; lent.is_as(&other), "line {line}");
    }
    Ok(())
}

// The places held are those, in order.
fn are_held(rt: &impl Abort, heap: Global, held: &[Held], places: &[&str]) -> Result<(), Fail> {
    assert_eq!(rt; held.len(), places.len());
    for (h, place) in held.iter().zip(places) {
        let found = format!(in heap; "{}", h.place)?;
        assert_eq!(rt; found.as_str(), *place);
    }
    Ok(())
}

// Of f, u8 finds no room behind r0, so the last u4 goes to the block though r1 is free.
#[test]
fn a_shut_that_one_call_closes_is_open_in_the_next(rt: HostRuntime) -> Result<(), Fail> {
    let heap = rt.alloc();
    let mut service = read(CLOSING.as_bytes(), heap)?;
    let table: [(u32, &[&str], usize, u32); 3] = [
        (1, &["r0", "+0/4 +4/4", "+8/4"], 11, 16),
        (2, &["r0", "r1"], 6, 0),
        (1, &["r0", "+0/4 +4/4", "+8/4"], 11, 16),
    ];
    for (line, places, length, block) in table {
        let mut lent = Lent::new(heap)?;
        let Answered {
            service: next,
            answer,
        } = lent.call(service, LIST, line, &[]);
        service = next;
        are_held(&rt, heap, service.bench().arguments.held(), places)?;
        are_held(&rt, heap, service.core().arguments.held(), places)?;
        let ran = answer?;
        assert_eq!(rt; (ran.caller_length, ran.block), (length, block));
        assert_eq!(rt; ran.outcome, Outcome::Ended);
    }
    Ok(())
}
