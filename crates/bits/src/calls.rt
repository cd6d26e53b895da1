ghost use Rattle.std.specs.Prelude.{◌≡◌, ℕ, ◌<◌, Bool, true, false, not, ◌&&◌, ◌||◌, Decides, MatchOption, ◌==◌, nat_le, nat_lt};
ghost use Rattle.bits.specs.Members.{member, Least};

use crate::set::Set64;

impl Set64 {
    /// The set with no member.
    #[tactic(auto, using(crate::proofs::Laws::bit_zero), unfolding(crate::specs::Members::member))]
    pub fn empty() -> Set64
        ensures { (k : ℕ) → member result k ≡ false }
    {
        Set64 { bits: 0 }
    }

    /// The set with `n` alone, or the empty set where `n` is 64 or more.
    #[tactic(auto, using(crate::proofs::Shifts::bit_shifted), unfolding(crate::specs::Members::member))]
    pub fn only(n: u8) -> Set64
        ensures { (k : ℕ) → member result k ≡ (k == n && nat_lt k 64) }
    {
        Set64 {
            bits: 1u64.checked_shl(u32::from(n)).unwrap_or(0),
        }
    }

    /// The numbers below `n`, and no number from 64 on.
    pub fn below(n: u8) -> Set64
        ensures { (k : ℕ) → member result k ≡ (nat_lt k n && nat_lt k 64) }
    {
        Set64 {
            bits: 1u64
                .checked_shl(u32::from(n))
                .map_or(u64::MAX, |end| end - 1),
        }
    }

    /// The numbers from `lo` to `hi`, both with it, and no number from 64 on; the empty set where `hi` is below `lo`.
    pub fn span(lo: u8, hi: u8) -> Set64
        ensures { (k : ℕ) → member result k ≡ ((nat_le lo k && nat_le k hi) && nat_lt k 64) }
    {
        Set64::below(hi.saturating_add(1)).difference(Set64::below(lo))
    }

    /// The numbers that are in one of the two sets, or in both.
    #[tactic(auto, using(crate::proofs::Laws::bit_of_or), unfolding(crate::specs::Members::member))]
    pub fn union(self, other: Set64) -> Set64
        ensures { (k : ℕ) → member result k ≡ (member self k || member other k) }
    {
        Set64 {
            bits: self.bits | other.bits,
        }
    }

    /// The numbers that are in both sets.
    #[tactic(auto, using(crate::proofs::Laws::bit_of_and), unfolding(crate::specs::Members::member))]
    pub fn intersection(self, other: Set64) -> Set64
        ensures { (k : ℕ) → member result k ≡ (member self k && member other k) }
    {
        Set64 {
            bits: self.bits & other.bits,
        }
    }

    /// The numbers that are in this set and not in the other.
    #[tactic(auto, using(crate::proofs::Laws::difference_laws), unfolding(crate::specs::Members::member))]
    pub fn difference(self, other: Set64) -> Set64
        ensures { (k : ℕ) → member result k ≡ (member self k && not (member other k)) }
    {
        Set64 {
            bits: self.bits & !other.bits,
        }
    }

    /// The numbers below `n`, and below 64, that are not in this set.
    pub fn complement(self, n: u8) -> Set64
        ensures { (k : ℕ) → member result k ≡ ((nat_lt k n && nat_lt k 64) && not (member self k)) }
    {
        Set64::below(n).difference(self)
    }

    /// This set without `n`.
    #[tactic(auto, using(crate::proofs::Members::member_past))]
    pub fn remove(self, n: u8) -> Set64
        ensures { (k : ℕ) → member result k ≡ (member self k && not (k == n)) }
    {
        self.difference(Set64::only(n))
    }

    /// Whether `n` is in the set.
    #[tactic(auto, using(crate::proofs::Laws::tested_laws), unfolding(crate::specs::Members::member))]
    pub fn has(self, n: u8) -> bool
        ensures { result ≡ member self n }
    {
        n < 64 && (self.bits >> n) & 1 == 1
    }

    /// Whether the set has no member.
    pub fn is_empty(self) -> bool
        ensures { Decides result ((k : ℕ) → member self k ≡ false) }
    {
        self.bits == 0
    }

    /// Whether the two sets have the same members.
    // Beside `==`: this promises equal members, where the derived call speaks of the words.
    pub fn equals(self, other: Set64) -> bool
        ensures { Decides result ((k : ℕ) → member self k ≡ member other k) }
    {
        self == other
    }

    /// The least member, if there is one.
    pub fn least(self) -> Option<u8>
        ensures { MatchOption result ((k : ℕ) → member self k ≡ false) (λ n. Least self n) }
    {
        if self.is_empty() {
            return None;
        }
        Some(self.bits.trailing_zeros() as u8)
    }
}
