ghost use Rattle.std.specs.Prelude.{◌≡◌, ℕ, false, ◌&&◌, ◌||◌, ◌==◌, nat_le};
ghost use Rattle.mask_layer.specs.Places.{placed, narrow};

use crate::sets::PlaceSet;
use bits::Set64;
use widths::{Widths, width_in};

/// Whether place `p` has width 1.
pub(crate) fn is_narrow(plan: &Option<Widths>, p: usize) -> bool
    ensures { result ≡ narrow plan.now p }
{
    width_in(plan, p) == 1
}

// By ranges and a cast: with `u8::try_from` each match has one more case, which `has` would have to prove apart.
impl PlaceSet {
    /// No place.
    pub(crate) fn empty() -> PlaceSet
        ensures { (p : ℕ) → placed result p ≡ false }
    {
        PlaceSet {
            start: false,
            rest: Set64::empty(),
        }
    }

    /// The start alone.
    pub(crate) fn start_only() -> PlaceSet
        ensures { (p : ℕ) → placed result p ≡ (p == 0) }
    {
        PlaceSet {
            start: true,
            rest: Set64::empty(),
        }
    }

    /// The set with place `p`; a number above 64 is no place.
    pub(crate) fn with(self, p: usize) -> PlaceSet
        ensures { (q : ℕ) → placed result q ≡ (placed self q || (q == p && nat_le q 64)) }
    {
        match p {
            0 => PlaceSet {
                start: true,
                ..self
            },
            1..=64 => PlaceSet {
                rest: self.rest.union(Set64::only(p as u8 - 1)),
                ..self
            },
            _ => self,
        }
    }

    /// Whether place `p` is in the set.
    pub(crate) fn has(self, p: usize) -> bool
        ensures { result ≡ placed self p }
    {
        match p {
            0 => self.start,
            1..=64 => self.rest.has(p as u8 - 1),
            _ => false,
        }
    }
}
