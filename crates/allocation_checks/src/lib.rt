// What allocations answer, on cases that were worked out by hand.
#![tactic(auto)]

#[cfg(test)]
mod tests {
    use adjust::Adjust;
    use allocation::answers::Answer;
    use allocation::asked::Asked;
    use allocation::held::Held;
    use allocation::opened::Open;
    use banks::bits::Bits;
    use banks::count::Count;
    use blocks::up::Up;
    use foreign_bottoms::never::Never;
    use foreign_bottoms::two_registers::TwoRegisters;
    use place::pieces::{Piece, Place};
    use shut::Shut;
    use sides::over::Over;
    use stage::{ParameterFault, Stage};
    use std::process::Abort;
    use std::test::Fail;
    use values::kinds::Kind;
    use values::value_type::ValueType;

    // The number and position of a refusal; none for a grant.
    fn fault(answer: Answer) -> Option<(u8, usize)> {
        answer
            .err()
            .map(|fault| (fault.cause.number(), fault.position))
    }

    fn asked(kind: Kind, width: u8, alignment: u8) -> Asked {
        Asked {
            kind,
            width,
            alignment,
        }
    }

    #[test]
    fn what_is_no_type_or_no_alignment_is_21(rt: HostRuntime) -> Result<(), Fail> {
        let mut open = Open::new(Up::new(8)?);
        assert_eq!(rt; fault(open.place(Asked::aligned(Kind::Unsigned, 1))), None);
        let table = [
            (Kind::Unsigned, 3, 1),
            (Kind::Float, 2, 2),
            (Kind::Address, 8, 8),
            (Kind::Signed, 4, 3),
            (Kind::Signed, 0, 1),
        ];
        for (kind, width, alignment) in table {
            assert_eq!(rt;
                fault(open.place(asked(kind, width, alignment))),
                Some((21, 1))
            );
        }
        assert_eq!(rt; open.held().len(), 1);
        Ok(())
    }

    #[test]
    fn the_seventeenth_place_is_22(rt: HostRuntime) -> Result<(), Fail> {
        let mut open = Open::new(Up::new(8)?);
        for _ in 0..16 {
            assert_eq!(rt; fault(open.place(Asked::aligned(Kind::Unsigned, 4))), None);
        }
        assert_eq!(rt;
            fault(open.place(Asked::aligned(Kind::Unsigned, 4))),
            Some((22, 16))
        );
        assert_eq!(rt;
            fault(open.place(asked(Kind::Unsigned, 3, 4))),
            Some((21, 16))
        );
        Ok(())
    }

    #[test]
    fn an_unsound_pile_gives_23(rt: HostRuntime) -> Result<(), Fail> {
        let mut open = Open::new(Over::new(Count::new(&[0])?, Bits::new(&[0, 1])?));
        for width in [1, 2, 4, 8] {
            assert_eq!(rt;
                fault(open.place(Asked::aligned(Kind::Unsigned, width))),
                Some((23, 0))
            );
        }
        assert_eq!(rt;
            fault(open.place(Asked::aligned(Kind::Float, 1))),
            Some((21, 0))
        );
        Ok(())
    }

    #[test]
    fn a_pile_that_refuses_gives_24_and_goes_on(rt: HostRuntime) -> Result<(), Fail> {
        let mut open = Open::new(Count::new(&[0, 1])?);
        assert_eq!(rt;
            fault(open.place(Asked::aligned(Kind::Unsigned, 8))),
            Some((24, 0))
        );
        assert_eq!(rt;
            open.place(Asked::aligned(Kind::Unsigned, 4)).ok(),
            Some(Place::Single(Piece::Register(0)))
        );
        assert_eq!(rt;
            fault(open.place(Asked::aligned(Kind::Unsigned, 8))),
            Some((24, 1))
        );
        Ok(())
    }

    #[test]
    fn reopening_opens_a_shut_again(rt: HostRuntime) -> Result<(), Fail> {
        let mut open = Open::new(Shut::new(Bits::new(&[0, 1])?));
        assert_eq!(rt;
            fault(open.place(Asked::aligned(Kind::Unsigned, 1))),
            Some((24, 0))
        );
        assert_eq!(rt;
            fault(open.place(Asked::aligned(Kind::Unsigned, 4))),
            Some((24, 0))
        );
        let mut again = open.freeze().reopen();
        assert_eq!(rt; fault(again.place(Asked::aligned(Kind::Unsigned, 4))), None);
        assert_eq!(rt; again.held().len(), 1);
        Ok(())
    }

    // The report names these types, in this order, and so it does once the allocation is frozen.
    fn reports<P: Stage + Drop>(rt: &impl Abort, pile: P, words: &[&str]) -> Result<(), Fail> {
        let mut open = Open::new(pile);
        let _ = open.place(Asked::aligned(Kind::Unsigned, 4));
        let before = open.report();
        let after = open.freeze().report();
        assert_eq!(rt; (before.len(), after.len()), (words.len(), words.len()));
        for ((value, again), word) in before.iter().zip(after.iter()).zip(words) {
            let expected = ValueType::try_from(word.as_bytes())?;
            assert_eq!(rt; (*value, *again), (expected, expected));
        }
        Ok(())
    }

    #[test]
    fn the_report(rt: HostRuntime) -> Result<(), Fail> {
        let all = [
            "u1", "u2", "u4", "u8", "s1", "s2", "s4", "s8", "f4", "f8", "a4",
        ];
        reports(&rt, Up::new(8)?, &all)?;
        reports(&rt, Up::new(2)?, &["u1", "u2", "s1", "s2"])?;
        let wide = Adjust::widen(4, Over::new(Bits::new(&[0, 1])?, Up::new(4)?))?;
        let most = ["u1", "u2", "u4", "s1", "s2", "s4", "f4", "a4"];
        reports(&rt, wide, &most)
    }

    #[test]
    fn an_empty_report(rt: HostRuntime) -> Result<(), Fail> {
        // Endless for nothing.
        reports(&rt, Never {}, &[])?;
        reports(&rt, TwoRegisters::new(), &[])?;
        reports(&rt, Shut::new(Up::new(8)?), &[])?;
        reports(&rt, Adjust::raise(8, Up::new(4)?)?, &[])?;
        // Endless for every type, and not sound.
        reports(&rt, Over::new(Up::new(8)?, Up::new(8)?), &[])
    }

    #[test]
    fn a_bottom_that_refuses_all_gives_24(rt: HostRuntime) -> Result<(), Fail> {
        let mut open = Open::new(Never {});
        for width in [1, 2, 4, 8] {
            assert_eq!(rt;
                fault(open.place(Asked::aligned(Kind::Unsigned, width))),
                Some((24, 0))
            );
        }
        assert_eq!(rt; open.held().len(), 0);
        Ok(())
    }
}
