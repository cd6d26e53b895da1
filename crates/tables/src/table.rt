ghost use Rattle.std.specs.Prelude.{◌≡◌, ◌≤◌, length};

use crate::links::Links;
use crate::places::PlaceSet;
use bits::Set64;
use widths::Widths;

/// The links from one place: for every place, by its number, those that lead there.
#[derive(Clone, Copy, PartialEq, Eq, Debug)]
pub struct LinkRow {
    pub to: [Links; 65],
    ghost long: { length to ≡ 65 },
}

/// What a place takes, and the low of its counted repeat.
#[derive(Clone, Copy, PartialEq, Eq, Debug)]
pub struct Place {
    pub codes: Set64,
    pub low: u16,
}

/// The places of a pattern, what each one takes, and the links between them. Place 0 is the start.
// Arrays of 65 with the number of places beside them, and no `Vec`: a plan is fixed memory.
#[derive(Clone, Copy, PartialEq, Eq, Debug)]
pub struct Table {
    pub places: usize,
    pub nullable: bool,
    pub lasts: PlaceSet,
    pub each: [Place; 65],
    // Widths stand apart: banks and layouts take them whole.
    pub widths: Widths,
    pub links: [LinkRow; 65],
    ghost few: { places ≤ 64 },
    ghost full: { length each ≡ 65 },
    ghost square: { length links ≡ 65 },
}

impl Table {
    /// The widths of all places.
    pub fn widths(&self) -> Widths
        ensures { result ≡ self.now.widths }
    {
        self.widths
    }
}
