ghost use Rattle.std.specs.Prelude.{◌≡◌, ℕ, false, ◌&&◌, ◌||◌, ◌==◌, nat_le, nat_lt};

use bits::Set64;

/// A set of places, each kept by its number less one. A number that is no place is in no set.
#[derive(Clone, Copy, PartialEq, Eq, Debug)]
pub struct PlaceSet {
    pub numbers: Set64,
}

impl PlaceSet {
    ghost use Rattle.tables.specs.Masks.{has_place};

    /// No place.
    pub fn empty() -> PlaceSet
        ensures { (q : ℕ) → has_place result q ≡ false }
    {
        PlaceSet {
            numbers: Set64::empty(),
        }
    }

    /// The place p alone; none where there is no such place.
    pub fn only(p: usize) -> PlaceSet
        ensures { (q : ℕ) → has_place result q ≡ (q == p && (nat_lt 0 q && nat_le q 64)) }
    {
        match p {
            1..=64 => PlaceSet {
                numbers: Set64::only((p - 1) as u8),
            },
            _ => PlaceSet::empty(),
        }
    }

    /// The places of either set.
    pub fn union(self, other: PlaceSet) -> PlaceSet
        ensures { (q : ℕ) → has_place result q ≡ (has_place self q || has_place other q) }
    {
        PlaceSet {
            numbers: self.numbers.union(other.numbers),
        }
    }

    /// Whether p is in the set.
    #[tactic(auto, using(crate::proofs::PastPlaces::has_place_past))]
    pub fn has(self, p: usize) -> bool
        ensures { result ≡ has_place self p }
    {
        match p {
            1..=64 => self.numbers.has((p - 1) as u8),
            _ => false,
        }
    }
}
