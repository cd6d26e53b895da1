//! Tests of the distances: small patterns whose marks were worked out by hand, and areas of several lengths.

#![tactic(auto)]

#[cfg(test)]
mod tests {
    use alphabets::Alphabet;
    use distances::{Marks, measure, wipe};
    use glushkov::table_of;
    use refusals::Refusal;
    use std::alloc::Global;
    use std::test::Fail;
    use syntax::parse;
    use tables::Table;

    // The table of a letters pattern.
    fn table(heap: Global, text: &[u8]) -> Result<Table, Fail> {
        let tree = parse(heap, Alphabet::Letters, text)?;
        let Some(table) = table_of(&tree) else {
            return Err(Fail::new("there is no table"));
        };
        Ok(table)
    }

    // (1, 3) accepts; each count below is one link more away, and the start one more than (1, 1).
    #[test]
    fn counts(rt: HostRuntime) -> Result<(), Fail> {
        let table = table(rt.alloc(), b"a{3}")?;
        let mut area = [7; 4096];
        measure(&table, &mut area)?;
        assert_eq!(rt; area[0], 4);
        assert_eq!(rt; area[1], 3);
        assert_eq!(rt; area[2], 2);
        assert_eq!(rt; area[3], 1);
        assert_eq!(rt; area[4], 0);
        Ok(())
    }

    // From the start `c` alone is one link; place 1, `a`, has `b` before it.
    #[test]
    fn choices(rt: HostRuntime) -> Result<(), Fail> {
        let table = table(rt.alloc(), b"ab|c")?;
        let mut area = [7; 4096];
        measure(&table, &mut area)?;
        let marks = Marks::of(&table.widths(), &area);
        assert_eq!(rt; marks.at(0, 1), 2);
        assert_eq!(rt; marks.at(1, 1), 2);
        assert_eq!(rt; marks.at(2, 1), 1);
        assert_eq!(rt; marks.at(3, 1), 1);
        assert_eq!(rt; marks.at(3, 0), 0);
        assert_eq!(rt; marks.at(3, 2), 0);
        assert_eq!(rt; marks.at(65, 1), 0);
        Ok(())
    }

    // The pattern is nullable, so the start accepts; after one `a` another is owed.
    #[test]
    fn next_and_cross(rt: HostRuntime) -> Result<(), Fail> {
        let table = table(rt.alloc(), b"(a{2})*")?;
        let mut area = [7; 4096];
        measure(&table, &mut area)?;
        assert_eq!(rt; area[0], 1);
        assert_eq!(rt; area[1], 2);
        assert_eq!(rt; area[2], 1);
        assert_eq!(rt; area[3], 0);
        Ok(())
    }

    // The shortest row has 4,095 symbols.
    #[test]
    fn longest(rt: HostRuntime) -> Result<(), Fail> {
        let table = table(rt.alloc(), b"(aaaa){1000}a{95}")?;
        let mut area = [7; 5000];
        measure(&table, &mut area)?;
        assert_eq!(rt; area[0], 4096);
        assert_eq!(rt; area[4095], 1);
        assert_eq!(rt; area[4096], 7);
        assert_eq!(rt; area[4999], 7);
        Ok(())
    }

    #[test]
    fn short_areas(rt: HostRuntime) -> Result<(), Fail> {
        let table = table(rt.alloc(), b"a{3}")?;
        let mut area = [7; 4095];
        assert_eq!(rt; measure(&table, &mut area), Err(Refusal::Work));
        assert_eq!(rt; area[0], 7);
        assert_eq!(rt; area[4094], 7);
        wipe(&mut area);
        assert_eq!(rt; area[0], 0);
        assert_eq!(rt; area[4094], 0);
        Ok(())
    }

    #[test]
    fn wiped(rt: HostRuntime) {
        let mut area = [7; 4100];
        wipe(&mut area);
        assert_eq!(rt; area[0], 0);
        assert_eq!(rt; area[4095], 0);
        assert_eq!(rt; area[4096], 7);
    }
}
