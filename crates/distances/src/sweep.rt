ghost use Rattle.std.specs.Prelude.{◌≡◌, ℕ, ◌+◌, ◌<◌, ◌≤◌, length};
ghost use Rattle.distances.specs.Graphs.{Pair, width_in};
ghost use Rattle.distances.specs.Search.{AllSettled, Ground, Sweeps};

use crate::graph::Graph;
use tables::Link;

// By two numbers, `lo` and `end`: a `Range` is no `Copy`, and the clauses name both ends.
impl Graph<'_> {
    // The first place of the block that ends with the place `last`: the first that a next link leads to from there, else `last`.
    fn block(&self, last: usize) -> usize
        ensures { result ≤ last }
    {
        (0..last)
            .find(|q| self.table.links(last, *q).has(Link::Next))
            .unwrap_or(last)
    }

    // The greatest width of the places from `lo` up to `end`.
    fn tallest(&self, lo: usize, end: usize) -> u16
        ensures { (p : ℕ) → lo ≤ p → p < end → width_in self.now p ≤ result }
    {
        (lo..end).map(|p| self.layout.width(p)).max().unwrap_or(0)
    }

    // Relaxes the count i at the places from `lo` up to `end`, the last place first.
    fn sweep_count(&self, area: &mut [u16; 4096], lo: usize, end: usize, i: u16) -> bool
        requires order { lo ≤ end }
        requires place { end ≤ self.now.table.now.places + 1 }
        requires count { 1 ≤ i }
        ensures { Sweeps self.now area.old area.new (λ a b. (lo ≤ a) × (a < end) × (b ≡ i)) result }
    {
        let mut moved = false;
        for p in (lo..end).rev() {
            moved |= self.relax(area, p, i);
        }
        moved
    }

    // Relaxes the places from `lo` up to `end`, the highest count first.
    fn sweep_block(&self, area: &mut [u16; 4096], lo: usize, end: usize) -> bool
        requires order { lo ≤ end }
        requires place { end ≤ self.now.table.now.places + 1 }
        ensures { Sweeps self.now area.old area.new (λ a b. (lo ≤ a) × (a < end)) result }
    {
        let mut moved = false;
        for i in (1..=self.tallest(lo, end)).rev() {
            moved |= self.sweep_count(area, lo, end, i);
        }
        moved
    }

    // Relaxes every pair once, the last block first.
    fn sweep(&self, area: &mut [u16; 4096]) -> bool
        ensures { Sweeps self.now area.old area.new (Pair self.now) result }
    {
        let mut moved = false;
        let mut end = self.table.places() + 1;
        // By hand: a block ends where the one behind it begins.
        while end > 0 {
            let lo = self.block(end - 1);
            moved |= self.sweep_block(area, lo, end);
            end = lo;
        }
        moved
    }

    // Relaxes until nothing moves.
    pub(crate) fn settle(&self, area: &mut [u16; 4096])
        requires { Ground self.now area.old }
        ensures { AllSettled self.now area.old area.new }
    {
        while self.sweep(area) {}
    }
}
