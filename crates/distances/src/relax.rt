ghost use Rattle.std.specs.Prelude.{◌≡◌, ℕ, ◌+◌, ◌-◌, ◌<◌, ◌≤◌, true, length, if◌then◌else◌};
ghost use Rattle.distances.specs.Graphs.{Pair, Leads, accepting, mark_in, number_in};
ghost use Rattle.distances.specs.Search.{Better, Sweeps};

use crate::graph::{Graph, MOST};
use tables::Link;

// Place and count go side by side: a struct that holds that they are a pair would have to carry the graph.
impl Graph<'_> {
    // Where the mark of the pair (p, i) stands.
    fn number(&self, p: usize, i: u16) -> usize
        requires { Pair self.now p i }
        ensures value { result ≡ number_in self.now p i }
        ensures bound { result < 4096 }
    {
        self.layout.base(p).unwrap() + usize::from(i - 1)
    }

    // One more than the mark of (q, j), where the way there is free and that is better than `r`; else `r`.
    // A mark of 0 is none here too, as in the area: `Option` was tried, and makes the need of a long pattern a sixth slower.
    fn through(&self, area: &[u16; 4096], free: bool, q: usize, j: u16, r: u16) -> u16
        requires place { q ≤ self.now.table.now.places }
        requires count { 1 ≤ j }
        ensures { Better (mark_in self.now area.now) (λ a b. (a ≡ q) × (b ≡ j) × (free ≡ true) × Pair self.now q j) r result }
    {
        if free && j <= self.layout.width(q) {
            let m = area[self.number(q, j)];
            if m != 0 && m < MOST && (r == 0 || m + 1 < r) {
                return m + 1;
            }
        }
        r
    }

    // The better of `r` and what the links from (p, i) to the place q allow.
    fn via(&self, area: &[u16; 4096], p: usize, i: u16, q: usize, r: u16) -> u16
        requires pair { Pair self.now p i }
        requires place { (1 ≤ q) × (q ≤ self.now.table.now.places) }
        ensures { Better (mark_in self.now area.now) (λ a b. (a ≡ q) × Leads self.now p i a b) r result }
    {
        let links = self.table.links(p, q);
        let one = self.through(area, links.has(Link::Within), q, i, r);
        let on = links.has(Link::Next) && i < self.layout.width(p);
        let two = self.through(area, on, q, i + 1, one);
        let out = links.has(Link::Cross) && i >= self.table.low_at(p);
        self.through(area, out, q, 1, two)
    }

    // One more than the least mark that a link leads to from (p, i), or 0 where there is none.
    fn best(&self, area: &[u16; 4096], p: usize, i: u16) -> u16
        requires { Pair self.now p i }
        ensures { Better (mark_in self.now area.now) (Leads self.now p i) 0 result }
    {
        let mut r = 0;
        for k in self.targets[p] {
            r = self.via(area, p, i, usize::from(k) + 1, r);
        }
        r
    }

    // Whether the pair (p, i) accepts.
    fn accepts(&self, p: usize, i: u16) -> bool
        ensures { result ≡ accepting self.now p i }
    {
        (p == 0 && self.table.is_nullable()) || (self.table.is_last(p) && i >= self.table.low_at(p))
    }

    // The mark of (p, i) by the marks that its links lead to: 1 where it accepts.
    fn due(&self, area: &[u16; 4096], p: usize, i: u16) -> u16
        requires { Pair self.now p i }
        ensures { Better (mark_in self.now area.now) (Leads self.now p i) (if accepting self.now p i then 1 else 0) result }
    {
        if self.accepts(p, i) {
            1
        } else {
            self.best(area, p, i)
        }
    }

    // Lowers the mark of (p, i) where it accepts or a link allows it, and says whether it did.
    pub(crate) fn relax(&self, area: &mut [u16; 4096], p: usize, i: u16) -> bool
        requires place { p ≤ self.now.table.now.places }
        requires count { 1 ≤ i }
        ensures { Sweeps self.now area.old area.new (λ a b. (a ≡ p) × (b ≡ i)) result }
    {
        if i > self.layout.width(p) {
            return false;
        }
        let r = self.due(area, p, i);
        let k = self.number(p, i);
        let old = area[k];
        if r != 0 && (old == 0 || r < old) {
            area[k] = r;
            return true;
        }
        false
    }
}
