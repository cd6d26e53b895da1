//! Tests of the report on a pattern, in both kinds. The expected text is worked by hand from the rules.

#![tactic(auto)]

#[cfg(test)]
mod tests {
    use pattern_report::report_pattern;
    use std::alloc::{AllocError, Global};
    use std::process::Abort;
    use std::test::Fail;

    // The report on each input prints as it should.
    fn prints(rt: &impl Abort, heap: Global, input: &[u8], said: &str) -> Result<(), Fail> {
        let printed = match report_pattern(heap, input) {
            Ok(report) => format!(in heap; "{report}")?,
            Err(e) => format!(in heap; "{e}")?,
        };
        assert_eq!(rt; printed.as_str(), said);
        Ok(())
    }

    // A character, so often.
    fn times(heap: Global, c: char, n: usize) -> Result<String, AllocError> {
        let mut text = String::new(heap);
        for _ in 0..n {
            text.push(c)?;
        }
        Ok(text)
    }

    // `.` spells all letters. In `(a{2})*` the place has a next and a cross link to itself.
    #[test]
    fn letters_are_described(rt: HostRuntime) -> Result<(), Fail> {
        let heap = rt.alloc();
        prints(
            &rt,
            heap,
            b"letters\n.*a.{3}b",
            "kind: letters\n.*a.{3}b\nplaces 4 of 64, counts 7 of 4096, nullable no\n1 at 0: a-z, width 1, low 1, first\n2 at 2: a, width 1, low 1, first\n3 at 3: a-z, width 3, low 3\n4 at 7: b, width 1, low 1, last\n0 -> 1 cross, 2 cross\n1 -> 1 cross, 2 cross\n2 -> 3 cross\n3 -> 3 next, 4 cross",
        )?;
        prints(
            &rt,
            heap,
            b"letters\n(a{2})*",
            "kind: letters\n(a{2})*\nplaces 1 of 64, counts 3 of 4096, nullable yes\n1 at 1: a, width 2, low 2, first, last\n0 -> 1 cross\n1 -> 1 next cross",
        )?;
        prints(
            &rt,
            heap,
            b"letters\n([^c-x]?[aceg-i]){2,3}",
            "kind: letters\n([^c-x]?[aceg-i]){2,3}\nplaces 2 of 64, counts 7 of 4096, nullable no\n1 at 1: a-by-z, width 3, low 2, first\n2 at 8: aceg-i, width 3, low 2, first, last\n0 -> 1 cross, 2 cross\n1 -> 2 within\n2 -> 1 next, 2 next",
        )?;
        prints(
            &rt,
            heap,
            b"letters\n",
            "kind: letters\n\nplaces 0 of 64, counts 1 of 4096, nullable yes",
        )
    }

    #[test]
    fn tiles_are_described(rt: HostRuntime) -> Result<(), Fail> {
        let heap = rt.alloc();
        prints(
            &rt,
            heap,
            b"tiles\nR.{2}[B1G.]",
            "kind: tiles\nR.{2}[B1G.]\nplaces 2 of 64, counts 4 of 4096, nullable no\n1 at 0: R., width 2, low 2, first\n2 at 5: G.B1, width 1, low 1, last\n0 -> 1 cross\n1 -> 1 next, 2 cross",
        )?;
        prints(
            &rt,
            heap,
            b"tiles\n[^]+|.0|Y9",
            "kind: tiles\n[^]+|.0|Y9\nplaces 3 of 64, counts 4 of 4096, nullable no\n1 at 0: R.G.B.Y., width 1, low 1, first, last\n2 at 5: R0G0B0Y0, width 1, low 1, first, last\n3 at 8: Y9, width 1, low 1, first, last\n0 -> 1 cross, 2 cross, 3 cross\n1 -> 1 cross",
        )
    }

    #[test]
    fn refusals_are_marked(rt: HostRuntime) -> Result<(), Fail> {
        let heap = rt.alloc();
        prints(
            &rt,
            heap,
            b"letters\na{3,2}",
            "a{3,2}\n ^ refused 6 at 1, BOUNDS: the high of this repeat is 0 or above 1000, or its low exceeds its high",
        )?;
        prints(
            &rt,
            heap,
            b"letters\na\x00\xffb",
            "a??b\n ^ refused 2 at 1, BYTE: no pattern begins with the bytes up to this one",
        )?;
        prints(
            &rt,
            heap,
            b"letters\n(a",
            "(a\n  ^ refused 3 at 2, END: the pattern is not finished",
        )?;
        prints(
            &rt,
            heap,
            b"letters\n[a-cz-y]",
            "[a-cz-y]\n    ^ refused 4 at 4, RANGE: this range runs backwards",
        )?;
        prints(
            &rt,
            heap,
            b"tiles\nR1[]",
            "R1[]\n  ^ refused 5 at 2, EMPTY: this class takes no symbol",
        )?;
        prints(
            &rt,
            heap,
            b"letters\n(a{2}){3}",
            "(a{2}){3}\n  ^ refused 7 at 2, NESTED: this counted repeat lies inside another",
        )?;
        prints(
            &rt,
            heap,
            b"letters\n(aaaa){1000}a{96}",
            "(aaaa){1000}a{96}\n^ refused 9 at 0, COUNTS: the widths of all places and the start's add to more than 4096",
        )
    }

    // 513 bytes are refused at byte 512, and 512 of them are shown; of 65 letters the last is refused.
    #[test]
    fn long_patterns_are_refused(rt: HostRuntime) -> Result<(), Fail> {
        let heap = rt.alloc();
        let long = times(heap, 'a', 513)?;
        let shown = times(heap, 'a', 512)?;
        let blanks = times(heap, ' ', 512)?;
        let input = format!(in heap; "letters\n{long}")?;
        let said = format!(in heap;
            "{shown}\n{blanks}^ refused 1 at 512, LENGTH: the pattern has more than 512 bytes"
        )?;
        prints(&rt, heap, input.as_bytes(), said.as_str())?;
        let places = times(heap, 'a', 65)?;
        let before = times(heap, ' ', 64)?;
        let input = format!(in heap; "letters\n{places}")?;
        let said = format!(in heap;
            "{places}\n{before}^ refused 8 at 64, PLACES: this is the 65th place, and 64 are allowed"
        )?;
        prints(&rt, heap, input.as_bytes(), said.as_str())
    }

    #[test]
    fn kinds_are_named(rt: HostRuntime) -> Result<(), Fail> {
        let heap = rt.alloc();
        prints(
            &rt,
            heap,
            b"letter\na",
            "the first line must be letters or tiles",
        )?;
        prints(
            &rt,
            heap,
            b"tiles \nR1",
            "the first line must be letters or tiles",
        )?;
        prints(&rt, heap, b"", "the first line must be letters or tiles")
    }
}
