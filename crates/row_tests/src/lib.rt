//! Tests of symbols, rows and the report on a row, at the edges of every range. The expected values are worked by hand from the rules:
//! `a` is byte 97 and `z` byte 122, with "`" below and `{` above; `0` is byte 48 and `9` byte 57, with `/` below and `:` above.

#![tactic(auto)]

#[cfg(test)]
mod tests {
    use refusals::Refusal;
    use row_report::report_row;
    use std::test::Fail;
    use symbols::{Kind, Letters, Tile, Tiles};

    #[test]
    fn letters_have_codes(rt: HostRuntime) {
        assert_eq!(rt; Letters::code_of(b'a'), Ok(0));
        assert_eq!(rt; Letters::code_of(b'z'), Ok(25));
        assert_eq!(rt; Letters::code_of(b'`'), Err(Refusal::Symbol));
        assert_eq!(rt; Letters::code_of(b'{'), Err(Refusal::Symbol));
        assert_eq!(rt; Letters::code_of(b'A'), Err(Refusal::Symbol));
        assert_eq!(rt; Letters::symbol_of(25), Ok(b'z'));
        assert_eq!(rt; Letters::symbol_of(26), Err(Refusal::Code));
        assert_eq!(rt; Letters::UNIT, 1);
    }

    #[test]
    fn letters_are_spelled(rt: HostRuntime) {
        assert_eq!(rt; Letters::spell(b'q'), Ok([b'q', 0]));
        assert_eq!(rt; Letters::spell(b'.'), Err(Refusal::Symbol));
        assert_eq!(rt; Letters::unspell(b"z".as_slice()), Ok(b'z'));
        assert_eq!(rt; Letters::unspell(b"`".as_slice()), Err(Refusal::Symbol));
        assert_eq!(rt; Letters::unspell(b"{".as_slice()), Err(Refusal::Symbol));
        assert_eq!(rt; Letters::unspell(b".".as_slice()), Err(Refusal::Symbol));
        assert_eq!(rt; Letters::unspell(b"".as_slice()), Err(Refusal::Symbol));
        assert_eq!(rt; Letters::unspell(b"ab".as_slice()), Err(Refusal::Symbol));
    }

    #[test]
    fn tiles_have_codes(rt: HostRuntime) {
        assert_eq!(rt; Tiles::code_of(Tile { colour: 0, face: 0 }), Ok(0));
        assert_eq!(rt; Tiles::code_of(Tile { colour: 3, face: 9 }), Ok(39));
        assert_eq!(rt;
            Tiles::code_of(Tile { colour: 4, face: 0 }),
            Err(Refusal::Symbol)
        );
        assert_eq!(rt;
            Tiles::code_of(Tile {
                colour: 0,
                face: 10,
            }),
            Err(Refusal::Symbol)
        );
        assert_eq!(rt; Tiles::symbol_of(27), Ok(Tile { colour: 2, face: 7 }));
        assert_eq!(rt; Tiles::symbol_of(40), Err(Refusal::Code));
        assert_eq!(rt; Tiles::UNIT, 2);
    }

    #[test]
    fn tiles_are_spelled(rt: HostRuntime) {
        assert_eq!(rt; Tiles::spell(Tile { colour: 3, face: 9 }), Ok([b'Y', b'9']));
        assert_eq!(rt;
            Tiles::spell(Tile {
                colour: 1,
                face: 10,
            }),
            Err(Refusal::Symbol)
        );
        assert_eq!(rt;
            Tiles::unspell(b"R0".as_slice()),
            Ok(Tile { colour: 0, face: 0 })
        );
        assert_eq!(rt;
            Tiles::unspell(b"B4".as_slice()),
            Ok(Tile { colour: 2, face: 4 })
        );
        assert_eq!(rt; Tiles::unspell(b"Y:".as_slice()), Err(Refusal::Symbol));
        assert_eq!(rt; Tiles::unspell(b"G/".as_slice()), Err(Refusal::Symbol));
        assert_eq!(rt; Tiles::unspell(b"R.".as_slice()), Err(Refusal::Symbol));
        assert_eq!(rt; Tiles::unspell(b"Y".as_slice()), Err(Refusal::Symbol));
        assert_eq!(rt; Tiles::unspell(b"Y90".as_slice()), Err(Refusal::Symbol));
    }

    #[test]
    fn refusals_have_numbers(rt: HostRuntime) {
        assert_eq!(rt; Refusal::Symbol.number(), 10);
        assert_eq!(rt; Refusal::Symbol.place(), None);
        assert_eq!(rt; Refusal::Length.place(), Some(512));
        assert_eq!(rt; Refusal::Byte(7).number(), 2);
        assert_eq!(rt; Refusal::Byte(7).place(), Some(7));
    }

    #[test]
    fn reports(rt: HostRuntime) -> Result<(), Fail> {
        let heap = rt.alloc();
        let cases: [(&[u8], &str); 9] = [
            (
                b"letters\nabz",
                "kind: letters\nsymbols: 3\ncodes: 0 1 25\nrow: abz",
            ),
            (
                b"tiles\nR0Y9\nR",
                "kind: tiles\nsymbols: 2\ncodes: 0 39\nrow: R0Y9",
            ),
            (b"letters", "kind: letters\nsymbols: 0\ncodes:\nrow:"),
            (b"letters\nabcD", "refused 10 at 3"),
            (b"tiles\nR0G1B", "refused 10 at 2"),
            (b"tiles\nR.", "refused 10 at 0"),
            (b"letters\r\nab", "the first line must be letters or tiles"),
            (b"letter\nab", "the first line must be letters or tiles"),
            (b"", "the first line must be letters or tiles"),
        ];
        for (input, said) in cases {
            let printed = match report_row(heap, input) {
                Ok(report) => format!(in heap; "{report}")?,
                Err(e) => format!(in heap; "{e}")?,
            };
            assert_eq!(rt; printed.as_str(), said);
        }
        Ok(())
    }
}
