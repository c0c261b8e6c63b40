// Described piles that are made and not read: where they place values, and which lines their refusals carry.
use crate::placing::places;
use adjust::Change;
use conditions::Test;
use described::beside::Beside;
use described::pile::Pile;
use stage::Stage;
use std::test::Fail;

#[test]
fn clear_reopens_a_shut_below(rt: HostRuntime) -> Result<(), Fail> {
    let heap = rt.alloc();
    let bank = Pile::shut(2, Pile::bits(1, &[0, 1])?, heap)?;
    let mut pile = Pile::over(bank, Pile::up(3, 8)?, heap)?;
    let table = [("u4", "r0"), ("u8", "+0/4 +4/4"), ("u4", "+8/4")];
    places(&rt, heap, &mut pile, &table)?;
    pile.clear();
    places(&rt, heap, &mut pile, &table)
}

#[test]
fn a_closed_shut_refuses_by_its_own_line(rt: HostRuntime) -> Result<(), Fail> {
    let heap = rt.alloc();
    let mut pile = Pile::shut(7, Pile::count(3, &[5])?, heap)?;
    let table = [("u4", "r5"), ("u4", "line 3"), ("u4", "line 7")];
    places(&rt, heap, &mut pile, &table)
}

#[test]
fn choose_blames_the_side_that_it_asked(rt: HostRuntime) -> Result<(), Fail> {
    let heap = rt.alloc();
    let block = Pile::adjust(Change::widen(4)?, Pile::up(1, 4)?, heap)?;
    let test = Test::at_least(8)?;
    let mut pile = Pile::choose(test, Pile::bits(3, &[6, 2])?, block, heap)?;
    let table = [
        ("u8", "r6 r2"),
        ("u1", "+0/4"),
        ("f8", "line 3"),
        ("u2", "+4/4"),
    ];
    places(&rt, heap, &mut pile, &table)
}

#[test]
fn a_bottom_refuses_by_its_line(rt: HostRuntime) -> Result<(), Fail> {
    let heap = rt.alloc();
    let mut pile = Pile::over(Pile::count(5, &[0])?, Pile::up(6, 4)?, heap)?;
    places(&rt, heap, &mut pile, &[("u8", "line 6"), ("u8", "line 6")])
}

#[test]
fn a_pile_beside_the_same_stages_built_in_places_alike(rt: HostRuntime) -> Result<(), Fail> {
    let heap = rt.alloc();
    let bank = Beside::bits(1, &[0, 1, 2, 3])?.shut(2, heap)?;
    let pile = bank.over(Beside::up(3, 8)?, heap)?;
    let both = pile.adjust(Change::widen(4)?, heap)?;
    let table = [
        ("u1", "r0"),
        ("s8", "r2 r3"),
        ("u4", "+0/4"),
        ("f8", "+8/4 +12/4"),
    ];
    let mut built_in = both.built_in;
    places(&rt, heap, &mut built_in, &table)?;
    let mut described = both.described;
    places(&rt, heap, &mut described, &table)
}
