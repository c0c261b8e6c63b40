// What proper descriptions say: where their piles place values, and which registers they keep.
use crate::placing::places;
use description::description::Description;
use std::alloc::Global;
use std::process::Abort;
use std::test::Fail;

// The text is read, its piles place as in the tables, and its kept set has those registers and no others.
fn says(
    rt: &impl Abort,
    heap: Global,
    text: &str,
    arguments: &[(&str, &str)],
    results: &[(&str, &str)],
    kept: &[u8],
) -> Result<(), Fail> {
    let mut said = Description::read(text.as_bytes(), heap)?;
    places(rt, heap, &mut said.arguments, arguments)?;
    places(rt, heap, &mut said.results, results)?;
    for r in 0..=31 {
        assert_eq!(rt; said.kept.contains(r), kept.contains(&r), "r{r}");
    }
    Ok(())
}

// The stages below are those of the numbers, in their order.
#[test]
fn layers_stand_on_the_stages_that_they_name(rt: HostRuntime) -> Result<(), Fail> {
    let heap = rt.alloc();
    says(
        &rt,
        heap,
        "bits r0 r1 r2 r3\nup 8\nover 1 2\nwiden 4 3\nbits r0 r1\nwiden 4 5\nargs 4\nresults 6\nkeep r16 r17\n",
        &[("u1", "r0"), ("s8", "r2 r3"), ("u2", "+0/4")],
        &[
            ("u4", "r0"),
            ("u4", "r1"),
            ("u4", "line 5"),
            ("u1", "line 5"),
        ],
        &[16, 17],
    )?;
    says(
        &rt,
        heap,
        "count r4\nup 8\nup 4\ncount r27 r0\nchoose fa 1 2\nover 4 3\nargs 5\nresults 6\nkeep r27 r0\n",
        &[
            ("u4", "+0/4"),
            ("a4", "r4"),
            ("f4", "line 1"),
            ("s1", "+4/1"),
        ],
        &[
            ("u4", "r27"),
            ("u8", "line 3"),
            ("u4", "r0"),
            ("u4", "+0/4"),
        ],
        &[0, 27],
    )
}

#[test]
fn a_choice_by_width_and_a_raise(rt: HostRuntime) -> Result<(), Fail> {
    let heap = rt.alloc();
    says(
        &rt,
        heap,
        "up 8\ncount r4\nchoose 8 1 2\nup 8\nraise 8 4\nargs 5\nresults 3\nkeep r0 r1 r2 r3 r4 r5 r6 r7 r8 r9 r10 r11 r12 r13 r14 r15 r16 r17 r18 r19 r20 r21 r22 r23 r24 r25 r26 r27\n",
        &[("u1", "+0/1"), ("u2", "+8/2"), ("u8", "+16/4 +20/4")],
        &[("u4", "r4"), ("u8", "+0/4 +4/4"), ("u4", "line 2")],
        &[
            0, 1, 2, 3, 4, 5, 6, 7, 8, 9, 10, 11, 12, 13, 14, 15, 16, 17, 18, 19, 20, 21, 22, 23,
            24, 25, 26, 27,
        ],
    )
}

// The second text has 24 stages.
#[test]
fn a_closed_shut_refuses_by_its_own_line(rt: HostRuntime) -> Result<(), Fail> {
    let heap = rt.alloc();
    says(
        &rt,
        heap,
        "bits r0 r1\nshut 1\nup 8\nargs 2\nresults 3\nkeep\n",
        &[
            ("u4", "r0"),
            ("u8", "line 1"),
            ("u4", "line 2"),
            ("u1", "line 2"),
        ],
        &[("u1", "+0/1"), ("u8", "+8/4 +12/4")],
        &[],
    )?;
    says(
        &rt,
        heap,
        "up 2\nshut 1\nshut 2\nshut 3\nshut 4\nshut 5\nshut 6\nshut 7\nshut 8\nshut 9\nshut 10\nshut 11\nshut 12\nshut 13\nshut 14\nshut 15\nshut 16\nshut 17\nshut 18\nshut 19\nshut 20\nshut 21\nshut 22\ncount r1 r0\nargs 24\nresults 23\nkeep\n",
        &[("u4", "r1"), ("u4", "r0"), ("u4", "line 24")],
        &[("u2", "+0/2"), ("u4", "line 1"), ("u2", "line 23")],
        &[],
    )
}
