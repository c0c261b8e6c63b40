// What is read from lists of signatures, on cases that were worked out by hand.
#![tactic(auto)]

#[cfg(test)]
mod tests {
    use arrayvec::ArrayString;
    use signatures::signature::Signature;
    use std::fmt::Write;
    use std::test::Fail;

    // The number and position of a fault; none where a signature is read.
    fn fault(list: &[u8], line: u32) -> Option<(u8, u32)> {
        Signature::read(list, line)
            .err()
            .map(|fault| (fault.cause.number(), fault.line))
    }

    #[test]
    fn lines_without_the_form_are_11(rt: HostRuntime) -> Result<(), Fail> {
        let table: [&[u8]; 21] = [
            b"",
            b"\n",
            b"f : u1",
            b" u1 :\n",
            b" f :\n",
            b"f : \n",
            b"f  :\n",
            b"f : u1  u1\n",
            b"abcdefghi :\n",
            b"F :\n",
            b"f1 :\n",
            b"f\t:\n",
            b": u1 :\n",
            b"f\n",
            b"f u1\n",
            b"f u1 : u1 : u1\n",
            b"f : :\n",
            b"f u3 :  u1\n",
            b"f u3\n",
            b"F u1 u1 u1 u1 u1 u1 u1 u1 u1 u1 u1 u1 u1 u1 u1 u1 u1 :\n",
            b"ff u1 u1 u1 u1 u1 u1 u1 u1 u1 u1 u1 u1 u1 u1 u1 u1 u1 u1 u1 u1 u1 u1 u1 u1 u1 u1 u1 u1 u1 u1 u1 u1 u1 u1 u1 u1 u1 u1 u1 :\n",
        ];
        for list in table {
            assert_eq!(rt; fault(list, 1), Some((11, 1)));
        }
        Ok(())
    }

    #[test]
    fn words_that_are_no_types_are_12(rt: HostRuntime) -> Result<(), Fail> {
        let table: [&[u8]; 11] = [
            b"f u3 :\n",
            b"f f2 :\n",
            b"f a8 :\n",
            b"f u :\n",
            b"f u16 :\n",
            b"f U1 :\n",
            b"f : s3\n",
            b"f g :\n",
            b"f : u1\t\n",
            b"f u3 u1 u1 u1 u1 u1 u1 u1 u1 u1 u1 u1 u1 u1 u1 u1 u1 u1 :\n",
            b"f : u1 u1 u1 u1 u3\n",
        ];
        for list in table {
            assert_eq!(rt; fault(list, 1), Some((12, 1)));
        }
        Ok(())
    }

    #[test]
    fn too_many_types_are_13(rt: HostRuntime) -> Result<(), Fail> {
        let table: [&[u8]; 4] = [
            b"f u1 u1 u1 u1 u1 u1 u1 u1 u1 u1 u1 u1 u1 u1 u1 u1 u1 :\n",
            b"f : u1 u1 u1 u1 u1\n",
            b"f u1 u1 u1 u1 u1 u1 u1 u1 u1 u1 u1 u1 u1 u1 u1 u1 u1 : u1 u1 u1 u1 u1\n",
            b"f u1 u1 u1 u1 u1 u1 u1 u1 u1 u1 u1 u1 u1 u1 u1 u1 u1 u1 u1 u1 u1 u1 u1 u1 u1 u1 u1 u1 u1 u1 u1 u1 u1 u1 u1 u1 u1 u1 u1 :\n",
        ];
        for list in table {
            assert_eq!(rt; fault(list, 1), Some((13, 1)));
        }
        Ok(())
    }

    #[test]
    fn lines_are_numbered_from_1(rt: HostRuntime) -> Result<(), Fail> {
        let list = b"f :\ng : u3\nh u1";
        let table = [
            (0, Some((11, 0))),
            (1, None),
            (2, Some((12, 2))),
            (3, Some((11, 3))),
            (4, Some((11, 4))),
            (u32::MAX, Some((11, u32::MAX))),
        ];
        for (line, expected) in table {
            assert_eq!(rt; fault(list, line), expected);
        }
        Ok(())
    }

    #[test]
    fn what_was_read_prints_its_line(rt: HostRuntime) -> Result<(), Fail> {
        let list =
            b"f :\nt u1 s8 u2 : u4\ng : s2\nabcdefgh :\nf u1 u1 u1 u1 u1 u1 u1 u1 u1 u1 u1 u1 u1 u1 u1 u1 : u1 u1 u1 u1\nu u1 : u1\n";
        let table = [
            "f :",
            "t u1 s8 u2 : u4",
            "g : s2",
            "abcdefgh :",
            "f u1 u1 u1 u1 u1 u1 u1 u1 u1 u1 u1 u1 u1 u1 u1 u1 : u1 u1 u1 u1",
            "u u1 : u1",
        ];
        for (line, expected) in (1u32..).zip(table) {
            let mut text = ArrayString::<120>::new();
            write!(text, "{}", Signature::read(list, line)?)?;
            assert_eq!(rt; text.as_str(), expected);
        }
        Ok(())
    }
}
