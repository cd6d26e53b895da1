ghost use Rattle.std.specs.Prelude.{◌≡◌, ℕ, ◌<◌, ◌≤◌, true, Decides, MatchResult, length, slice_index_or};
ghost use Rattle.banks.specs.Pairs.{none, only, moved, ◌∩◌};
ghost use Rattle.list_bank.specs.Means.{pairs_of, up_to, At, Before, First, Gained};

use crate::pairs::PairList;
use arrayvec::ArrayVec;
use refusals::Refusal;

impl PairList {
    /// No pair.
    pub(crate) fn empty() -> PairList
        ensures { pairs_of result ≡ none }
    {
        PairList {
            pairs: ArrayVec::new(),
        }
    }

    /// One pair alone.
    pub(crate) fn only(p: u8, i: u16) -> PairList
        ensures { pairs_of result ≡ only p i }
    {
        let mut pairs = ArrayVec::new();
        pairs.push((p, i));
        PairList { pairs }
    }

    /// Lets all pairs go.
    pub(crate) fn clear(&mut self)
        ensures { pairs_of self.new ≡ none }
    {
        self.pairs.clear();
    }

    /// Takes the pairs of another list in place of its own.
    // By slice: the list's own `clone` goes pair by pair, and would have to be asked whether it failed.
    pub(crate) fn copy_from(&mut self, other: &PairList)
        ensures { pairs_of self.new ≡ pairs_of other.now }
    {
        self.pairs.clear();
        let _fits = self.pairs.try_extend_from_slice(&other.pairs);
    }

    /// Where the first pair is that does not come before (p, i).
    // By the last pair first: most pairs come in order, and `binary_search` alone was tried, and is slower.
    pub(crate) fn first(&self, p: u8, i: u16) -> usize
        ensures { First self.now result p i }
    {
        match self.pairs.last() {
            Some(last) if *last >= (p, i) => self.pairs.partition_point(|x| *x < (p, i)),
            _ => self.pairs.len(),
        }
    }

    /// Where (p, i) is, or as an error where it would be.
    pub(crate) fn find(&self, p: u8, i: u16) -> Result<usize, usize>
        ensures { MatchResult result (λ k. At self.now k p i) (λ k. Before self.now k p i) }
    {
        let k = self.first(p, i);
        match self.pairs.get(k) {
            Some(x) if *x == (p, i) => Ok(k),
            _ => Err(k),
        }
    }

    /// Puts (p, i) in, unless it is there; refuses where there is no room for it.
    pub(crate) fn insert(&mut self, p: u8, i: u16) -> Result<(), Refusal>
        ensures { Gained (pairs_of self.old) (only p i) result (pairs_of self.new) }
    {
        match self.find(p, i) {
            Ok(_) => Ok(()), // it is there
            Err(_) if self.pairs.is_full() => Err(Refusal::Full),
            Err(k) => {
                self.pairs.insert(k, (p, i));
                Ok(())
            }
        }
    }

    /// Whether there is a pair at `p` with a count from `low` to `high`.
    pub(crate) fn any(&self, p: u8, low: u16, high: u16) -> bool
        ensures { Decides result ((i : ℕ) × (low ≤ i) × (i ≤ high) × (pairs_of self.now p i ≡ true)) }
    {
        self.pairs
            .get(self.first(p, low))
            .is_some_and(|x| x.0 == p && x.1 <= high)
    }

    /// Puts (q, j) in where j is from 1 to `width`; refuses where there is no room for it.
    pub(crate) fn insert_up_to(&mut self, q: u8, j: u32, width: u16) -> Result<(), Refusal>
        ensures { Gained (pairs_of self.old) (only q j ∩ up_to width) result (pairs_of self.new) }
    {
        match u16::try_from(j) {
            Ok(j) if (1..=width).contains(&j) => self.insert(q, j),
            _ => Ok(()),
        }
    }

    /// Puts (q, i + by) in for each of the counts i that `front` has at `p`, where that is from 1 to `width`;
    /// where there is no room for all it refuses, and stays as it is.
    pub(crate) fn insert_moved(
        &mut self,
        front: &PairList,
        p: u8,
        q: u8,
        by: u16,
        width: u16,
    ) -> Result<(), Refusal>
        ensures { Gained (pairs_of self.old) (moved (pairs_of front.now) p q by ∩ up_to width) result (pairs_of self.new) }
    {
        let mut next = PairList::empty();
        next.copy_from(self);
        for x in front.pairs.as_slice() {
            if x.0 == p {
                next.insert_up_to(q, u32::from(x.1) + u32::from(by), width)?;
            }
        }
        *self = next;
        Ok(())
    }
}
