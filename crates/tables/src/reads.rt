ghost use Rattle.std.specs.Prelude.{◌≡◌, ℕ};
ghost use Rattle.bits.specs.Members.{member};
ghost use Rattle.widths.specs.Width.{width_of};
ghost use Rattle.tables.specs.Masks.{has_place};
ghost use Rattle.tables.specs.Tables.{takes, links_of, low_of};

use crate::links::Links;
use crate::table::Table;
use bits::Set64;

impl Table {
    /// How many places the pattern has, the start not counted.
    pub fn places(&self) -> usize
        ensures { result ≡ self.now.places }
    {
        self.places
    }

    /// Whether the pattern's language has the empty row.
    pub fn is_nullable(&self) -> bool
        ensures { result ≡ self.now.nullable }
    {
        self.nullable
    }

    /// Whether p is a last of the pattern; no number that is no place is.
    pub fn is_last(&self, p: usize) -> bool
        ensures { result ≡ has_place self.now.lasts p }
    {
        self.lasts.has(p)
    }

    /// The codes that the place p takes; none where there is no such place.
    #[tactic(auto, using(crate::proofs::PastPlaces::codes_past))]
    pub fn codes_at(&self, p: usize) -> Set64
        ensures { (c : ℕ) → member result c ≡ takes self.now p c }
    {
        self.each.get(p).map_or(Set64::empty(), |place| place.codes)
    }

    /// The width of the place p, and 0 where there is no such place.
    pub fn width_at(&self, p: usize) -> u16
        ensures { result ≡ width_of self.now.widths p }
    {
        self.widths.at(p)
    }

    /// The low of the place p, and 0 where there is no such place.
    pub fn low_at(&self, p: usize) -> u16
        ensures { result ≡ low_of self.now p }
    {
        self.each.get(p).map_or(0, |place| place.low)
    }

    /// The links from p to q; none where one of them is no place.
    #[tactic(auto, using(crate::proofs::PastPlaces::mask_past))]
    pub fn links(&self, p: usize, q: usize) -> Links
        ensures { result.mask ≡ links_of self.now p q }
    {
        match self.links.get(p) {
            Some(row) => row.to.get(q).copied().unwrap_or(Links::none()),
            None => Links::none(),
        }
    }
}
