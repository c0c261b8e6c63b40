// Where the built-in piles place values, and which stages can be made: expected values are worked out by hand.
use adjust::Adjust;
use banks::bits::Bits;
use banks::count::Count;
use blocks::up::Up;
use conditions::Test;
use foreign_bottoms::never::Never;
use foreign_bottoms::two_registers::TwoRegisters;
use shut::Shut;
use sides::choose::Choose;
use sides::over::Over;
use stage::{ParameterFault, Stage};
use std::alloc::{AllocError, Global};
use std::process::Abort;
use std::test::Fail;
use values::kinds::Kind;
use values::requests::Request;
use values::sizes::Size;
use values::value_type::ValueType;

// A place as text, or `no`.
fn text<S: Stage>(heap: Global, pile: &mut S, request: Request) -> Result<String, AllocError> {
    match pile.place(request) {
        Ok(place) => format!(in heap; "{place}"),
        Err(_) => String::from_str(heap, "no"),
    }
}

// Each word's type goes, at its own alignment, to the place beside it, and the reach is then as said.
fn places<S: Stage>(
    rt: &impl Abort,
    heap: Global,
    pile: &mut S,
    table: &[(&str, &str)],
    reach: u16,
) -> Result<(), Fail> {
    for (word, place) in table {
        let value = ValueType::try_from(word.as_bytes())?;
        let given = text(heap, pile, value.request())?;
        assert_eq!(rt; given.as_str(), *place, "{}", *word);
    }
    assert_eq!(rt; pile.reach(), reach);
    Ok(())
}

fn unsigned(width: Size) -> Request {
    Request {
        kind: Kind::Unsigned,
        width,
        alignment: width,
    }
}

// A block of which n times 8 bytes are used.
fn used(n: u16) -> Result<Up, ParameterFault> {
    let mut block = Up::new(8)?;
    for _ in 0..n {
        let _ = block.place(unsigned(Size::Eight));
    }
    Ok(block)
}

#[test]
fn count_gives_one_register_after_the_other(rt: HostRuntime) -> Result<(), Fail> {
    let heap = rt.alloc();
    let table = [
        ("u1", "no"),
        ("u4", "r3"),
        ("f8", "no"),
        ("a4", "r1"),
        ("f4", "r27"),
        ("u4", "no"),
    ];
    places(&rt, heap, &mut Count::new(&[3, 1, 27])?, &table, 0)
}

#[test]
fn bits_gives_aligned_pairs(rt: HostRuntime) -> Result<(), Fail> {
    let heap = rt.alloc();
    let table = [("u4", "r4"), ("u8", "r2 r7"), ("u4", "no")];
    places(&rt, heap, &mut Bits::new(&[4, 9, 2, 7])?, &table, 0)?;
    // A refusal leaves the cursor where it was.
    let table = [
        ("u4", "r0"),
        ("s8", "no"),
        ("u2", "no"),
        ("u4", "r1"),
        ("s4", "r2"),
        ("s4", "no"),
    ];
    places(&rt, heap, &mut Bits::new(&[0, 1, 2])?, &table, 0)
}

#[test]
fn up_gives_the_next_bytes(rt: HostRuntime) -> Result<(), Fail> {
    let heap = rt.alloc();
    let table = [
        ("u1", "+0/1"),
        ("u8", "+8/4 +12/4"),
        ("s2", "+16/2"),
        ("f4", "+20/4"),
    ];
    places(&rt, heap, &mut Up::new(8)?, &table, 24)?;
    let table = [("u4", "no"), ("u1", "+0/1"), ("u2", "+2/2"), ("u8", "no")];
    places(&rt, heap, &mut Up::new(2)?, &table, 4)
}

#[test]
fn up_ends_at_4096(rt: HostRuntime) -> Result<(), Fail> {
    let heap = rt.alloc();
    places(
        &rt,
        heap,
        &mut used(511)?,
        &[("u8", "+4088/4 +4092/4"), ("u1", "no")],
        4096,
    )?;
    places(
        &rt,
        heap,
        &mut used(511)?,
        &[("u1", "+4088/1"), ("u8", "no")],
        4089,
    )
}

#[test]
fn registers_and_then_the_block(rt: HostRuntime) -> Result<(), Fail> {
    let heap = rt.alloc();
    let mut wide = Adjust::widen(4, Over::new(Bits::new(&[0, 1, 2, 3])?, Up::new(8)?))?;
    places(
        &rt,
        heap,
        &mut wide,
        &[("u1", "r0"), ("s8", "r2 r3"), ("u2", "+0/4")],
        4,
    )?;
    wide.clear();
    let table = [
        ("f8", "r0 r1"),
        ("f8", "r2 r3"),
        ("u1", "+0/4"),
        ("s8", "+8/4 +12/4"),
    ];
    places(&rt, heap, &mut wide, &table, 16)?;
    let mut open = Over::new(Bits::new(&[0, 1])?, Up::new(8)?);
    places(
        &rt,
        heap,
        &mut open,
        &[("u4", "r0"), ("u8", "+0/4 +4/4"), ("u4", "r1")],
        8,
    )
}

#[test]
fn shut_stays_closed_until_cleared(rt: HostRuntime) -> Result<(), Fail> {
    let heap = rt.alloc();
    let mut shut = Over::new(Shut::new(Bits::new(&[0, 1])?), Up::new(8)?);
    places(
        &rt,
        heap,
        &mut shut,
        &[("u4", "r0"), ("u8", "+0/4 +4/4"), ("u4", "+8/4")],
        12,
    )?;
    shut.clear();
    places(&rt, heap, &mut shut, &[("u4", "r0"), ("u4", "r1")], 0)
}

#[test]
fn raised_and_chosen(rt: HostRuntime) -> Result<(), Fail> {
    let heap = rt.alloc();
    let table = [("u1", "+0/1"), ("u2", "+8/2"), ("u8", "+16/4 +20/4")];
    places(&rt, heap, &mut Adjust::raise(8, Up::new(8)?)?, &table, 24)?;
    let kinds = Test::of_kinds(&[Kind::Float, Kind::Address])?;
    let table = [("u4", "+0/4"), ("a4", "r4"), ("f4", "no"), ("s1", "+4/1")];
    places(
        &rt,
        heap,
        &mut Choose::new(kinds, Count::new(&[4])?, Up::new(8)?),
        &table,
        5,
    )
}

#[test]
fn chosen_by_width_or_never(rt: HostRuntime) -> Result<(), Fail> {
    let heap = rt.alloc();
    let mut pile = Choose::new(Test::at_least(8)?, Up::new(8)?, Count::new(&[4])?);
    places(
        &rt,
        heap,
        &mut pile,
        &[("u4", "r4"), ("u8", "+0/4 +4/4"), ("u4", "no")],
        8,
    )?;
    places(&rt, heap, &mut Never {}, &[("u4", "no"), ("f8", "no")], 0)
}

#[test]
fn a_bottom_of_a_client_in_front_of_the_block(rt: HostRuntime) -> Result<(), Fail> {
    let heap = rt.alloc();
    let mut pile = Over::new(TwoRegisters::new(), Up::new(8)?);
    let table = [
        ("u4", "r0"),
        ("u8", "+0/4 +4/4"),
        ("f4", "r1"),
        ("a4", "+8/4"),
    ];
    places(&rt, heap, &mut pile, &table, 12)?;
    pile.clear();
    places(&rt, heap, &mut pile, &[("s4", "r0"), ("u1", "+0/1")], 1)
}

#[test]
fn soundness(rt: HostRuntime) -> Result<(), Fail> {
    let common = Over::new(Count::new(&[0])?, Bits::new(&[0, 1])?);
    assert!(rt; !common.sound(), "r0 is in both sets");
    assert!(rt; common.registers().contains(1) && !common.registers().contains(2));
    assert!(rt;
        !Over::new(Up::new(8)?, Up::new(4)?).sound(),
        "both have a block"
    );
    Ok(())
}

#[test]
fn endlessness(rt: HostRuntime) -> Result<(), Fail> {
    let pile = Over::new(Shut::new(Up::new(8)?), Count::new(&[27])?);
    assert!(rt; pile.sound() && pile.block() && !pile.endless(unsigned(Size::Four)));
    let last = Over::new(Count::new(&[27])?, Up::new(4)?);
    assert!(rt; last.endless(unsigned(Size::Four)) && !last.endless(unsigned(Size::Eight)));
    assert!(rt; !Adjust::raise(8, Up::new(4)?)?.endless(unsigned(Size::One)));
    Ok(())
}

// The fault that a maker answered, as text; `made` where it made a stage.
fn fault<T: Drop>(heap: Global, made: Result<T, ParameterFault>) -> Result<String, AllocError> {
    match made {
        Ok(_) => String::from_str(heap, "made"),
        Err(f) => {
            let number = f.origin().number;
            format!(in heap; "{number}")
        }
    }
}

#[test]
fn banks_hold_1_to_16_distinct_registers(rt: HostRuntime) -> Result<(), Fail> {
    let many: [u8; 17] = [0, 1, 2, 3, 4, 5, 6, 7, 8, 9, 10, 11, 12, 13, 14, 15, 16];
    let table: [(&[u8], &str); 6] = [
        (&[], "2"),
        (&many, "2"),
        (&many[0..16], "made"),
        (&[27], "made"),
        (&[28], "3"),
        (&[5, 6, 5], "3"),
    ];
    for (list, expected) in table {
        assert_eq!(rt; fault(rt.alloc(), Count::new(list))?.as_str(), expected);
        assert_eq!(rt; fault(rt.alloc(), Bits::new(list))?.as_str(), expected);
    }
    Ok(())
}

#[test]
fn sizes_are_powers_of_two(rt: HostRuntime) -> Result<(), Fail> {
    let heap = rt.alloc();
    for (m, limit, least) in [
        (0u8, "3", "3"),
        (1, "made", "3"),
        (2, "made", "made"),
        (3, "3", "3"),
        (8, "made", "made"),
        (16, "3", "3"),
    ] {
        assert_eq!(rt; fault(heap, Up::new(m))?.as_str(), limit);
        assert_eq!(rt; fault(heap, Adjust::widen(m, Never {}))?.as_str(), least);
        assert_eq!(rt; fault(heap, Adjust::raise(m, Never {}))?.as_str(), least);
        assert_eq!(rt; fault(heap, Test::at_least(m))?.as_str(), least);
    }
    Ok(())
}

#[test]
fn kinds_are_one_or_more_and_different(rt: HostRuntime) -> Result<(), Fail> {
    let table: [(&[Kind], &str); 3] = [
        (&[], "2"),
        (&[Kind::Float, Kind::Float], "2"),
        (&[Kind::Float, Kind::Signed], "made"),
    ];
    for (kinds, expected) in table {
        assert_eq!(rt;
            fault(rt.alloc(), Test::of_kinds(kinds))?.as_str(),
            expected
        );
    }
    Ok(())
}
