//! Patterns with the answers that they must have: read, or refused by number and byte place.
//!
//! The answers were worked out by hand from the rules, not taken from a run.
//! A line `(b"a**", 2, 2)` says that the text is refused by number 2 at byte 2; 0 and 0 say that it is read.

#![tactic(auto)]

#[cfg(test)]
mod tests {
    use alphabets::Alphabet;
    use std::alloc::Global;
    use std::process::Abort;
    use std::test::Fail;
    use syntax::parse;

    // The number and the place of the refusal of a text; 0 and 0 where it is read.
    // By number: it is the number by which a refusal is known outside.
    fn answer(heap: Global, alphabet: Alphabet, text: &[u8]) -> (u8, usize) {
        match parse(heap, alphabet, text) {
            Ok(_) => (0, 0),
            Err(r) => (r.number(), r.place().unwrap_or(0)),
        }
    }

    // Each text of the table has its answer.
    fn hold(rt: &impl Abort, heap: Global, alphabet: Alphabet, table: &[(&[u8], u8, usize)]) {
        for (text, number, place) in table {
            assert_eq!(rt; answer(heap, alphabet, text), (*number, *place));
        }
    }

    #[test]
    fn letters_are_read(rt: HostRuntime) {
        hold(
            &rt,
            rt.alloc(),
            Alphabet::Letters,
            &[
                (b"", 0, 0),
                (b"|", 0, 0),
                (b"()|()*", 0, 0),
                (b".*a.{3}b", 0, 0),
                (b"(a|aa){5}", 0, 0),
                (b"(a?){2,3}", 0, 0),
                (b"(a{2})*", 0, 0),
                (b"[^]", 0, 0),
                (b"[b-fx]+[^a-y]", 0, 0),
                (b"[a-a]", 0, 0),
                (b"a{1000}", 0, 0),
                (b"a{0,1}", 0, 0),
                (b"a{0001}", 0, 0),
                (b"(aaaa){1000}a{95}", 0, 0),
            ],
        );
    }

    #[test]
    fn tiles_are_read(rt: HostRuntime) {
        hold(
            &rt,
            rt.alloc(),
            Alphabet::Tiles,
            &[
                (b"", 0, 0),
                (b"R.{2}[B1G.]", 0, 0),
                (b"..|.7*|Y0", 0, 0),
                (b"[^]", 0, 0),
                (b"[^R.G.B.]", 0, 0),
            ],
        );
    }

    #[test]
    fn bytes_are_refused(rt: HostRuntime) {
        hold(
            &rt,
            rt.alloc(),
            Alphabet::Letters,
            &[
                (b"a**", 2, 2),
                (b"*", 2, 0),
                (b"a|*", 2, 2),
                (b"a)", 2, 1),
                (b"(a))", 2, 3),
                (b"a{3,}", 2, 4),
                (b"a{}", 2, 2),
                (b"a{12345}", 2, 6),
                (b"a{1,2,3}", 2, 5),
                (b"a{2}{3}", 2, 4),
                (b"[.]", 2, 1),
                (b"[a-]", 2, 3),
                (b"[-a]", 2, 1),
                (b"[a^]", 2, 2),
                (b"aB", 2, 1),
                (b"\x00", 2, 0),
                (b"a\n", 2, 1),
                (b"\xff", 2, 0),
            ],
        );
        hold(
            &rt,
            rt.alloc(),
            Alphabet::Tiles,
            &[
                (b"Ra", 2, 1),
                (b"R1a1", 2, 2),
                (b"1R", 2, 0),
                (b"[R1-R3]", 2, 3),
            ],
        );
    }

    #[test]
    fn ends_are_refused(rt: HostRuntime) {
        hold(
            &rt,
            rt.alloc(),
            Alphabet::Letters,
            &[
                (b"(a", 3, 2),
                (b"(", 3, 1),
                (b"[", 3, 1),
                (b"[^a", 3, 3),
                (b"[a-", 3, 3),
                (b"a{", 3, 2),
                (b"a{1000", 3, 6),
                (b"a{3,", 3, 4),
            ],
        );
        hold(
            &rt,
            rt.alloc(),
            Alphabet::Tiles,
            &[(b"R", 3, 1), (b"[R1.", 3, 4)],
        );
    }

    #[test]
    fn trees_are_refused(rt: HostRuntime) {
        hold(
            &rt,
            rt.alloc(),
            Alphabet::Letters,
            &[
                (b"[b-a]", 4, 1),
                (b"[xf-cz-y]", 4, 2),
                (b"[^a-z]", 5, 0),
                (b"[]", 5, 0),
                (b"a[a-z][][]", 5, 6),
                (b"a{1001}", 6, 1),
                (b"a{0}", 6, 1),
                (b"a{3,2}", 6, 1),
                (b"(a{2}){3}", 7, 2),
                (b"(a(b{2})*c{3})?{4}", 2, 15),
                (b"((a(b{2})*c{3})?){4}", 7, 5),
                (b"(aaaa){1000}a{96}", 9, 0),
            ],
        );
        hold(
            &rt,
            rt.alloc(),
            Alphabet::Tiles,
            &[
                (b"[^..]", 5, 0),
                (b"R1[^R.G.B.Y.]", 5, 2),
                (b"(R1{2}.1{2}){2}", 7, 3),
            ],
        );
    }

    #[test]
    fn the_lower_number_goes_first(rt: HostRuntime) {
        hold(
            &rt,
            rt.alloc(),
            Alphabet::Letters,
            &[
                (b"[]**", 2, 3),
                (b"[](", 3, 3),
                (b"[][b-a]", 4, 3),
                (b"a{0}[]", 5, 4),
                (b"(a{2}){0}", 6, 6),
                (b"(a{2}){0}[]", 5, 9),
                (b"((aaaa{2}){1000}b){1000}", 7, 6),
            ],
        );
    }

    #[test]
    fn lengths(rt: HostRuntime) {
        let h = rt.alloc();
        let a = Alphabet::Letters;
        let bars = [b'|'; 512];
        assert_eq!(rt; answer(h, a, &bars), (0, 0));
        let stars = [b'*'; 513];
        assert_eq!(rt; answer(h, a, &stars), (1, 512));
        let letters = [b'a'; 512];
        assert_eq!(rt; answer(h, a, &letters), (8, 64));
        let most = [b'a'; 64];
        assert_eq!(rt; answer(h, a, &most), (0, 0));
        let more = [b'a'; 65];
        assert_eq!(rt; answer(h, a, &more), (8, 64));
    }

    #[test]
    fn deep_groups(rt: HostRuntime) -> Result<(), Fail> {
        let h = rt.alloc();
        let mut text = [b'a'; 501];
        text[..250].fill(b'(');
        text[251..].fill(b')');
        assert_eq!(rt; answer(h, Alphabet::Letters, &text), (0, 0));
        text[500] = b'|';
        assert_eq!(rt; answer(h, Alphabet::Letters, &text), (3, 501));
        Ok(())
    }
}
