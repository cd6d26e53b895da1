ghost use Rattle.std.specs.Prelude.{◌≡◌, suc, MatchOption, unwrap_or};
ghost use Rattle.distances.specs.Marks.{mark_at, mark_of, Wiped};

use widths::{Layout, Widths};

/// Makes the first 4,096 numbers zero, or all of them where there are fewer. The rest stay.
pub fn wipe(area: &mut [u16])
    ensures { Wiped area.old area.new }
{
    let end = area.len().min(4096);
    area[..end].fill(0);
}

/// A measured area, and where each mark stands in it.
#[derive(Clone, Copy)]
pub struct Marks<'a> {
    layout: Layout,
    area: &'a [u16],
}

impl<'a> Marks<'a> {
    /// The marks in an area of a pattern whose places have these widths.
    pub fn of(widths: &Widths, area: &'a [u16]) -> Marks<'a>
        ensures { mark_of result ≡ mark_at widths.now area.now }
    {
        let layout = Layout::of(widths);
        Marks { layout, area }
    }

    // The mark of the pair (p, i); `None` where the place p has no count i or the area ends before it.
    fn find(&self, p: usize, i: u16) -> Option<u16>
        ensures { unwrap_or result 0 ≡ mark_of self.now p i }
    {
        let before = i.checked_sub(1)?;
        if i > self.layout.width(p) {
            return None;
        }
        let base = self.layout.base(p)?;
        self.area.get(base + usize::from(before)).copied()
    }

    /// The mark of the pair (p, i), and 0 where the place p has no count i or the area ends before it.
    // 0 for none, as in the lent area.
    pub fn at(&self, p: usize, i: u16) -> u16
        ensures { result ≡ mark_of self.now p i }
    {
        self.find(p, i).unwrap_or(0)
    }

    /// The distance of the pair (p, i) to a pair that accepts; `None` where its mark is 0.
    pub fn distance(&self, p: usize, i: u16) -> Option<u16>
        ensures { MatchOption result (mark_of self.now p i ≡ 0) (λ d. mark_of self.now p i ≡ suc d) }
    {
        self.at(p, i).checked_sub(1)
    }
}
