ghost use Rattle.std.specs.Prelude.{◌≡◌, length};

use tables::{Place, PlaceSet};

// What a pass over the tree writes: each place, and its width.
// Widths stand apart: banks and layouts take them whole.
#[derive(Clone, Copy)]
pub(crate) struct Counts {
    pub(crate) each: [Place; 65],
    pub(crate) widths: [u16; 65],
    ghost full: { length each ≡ 65 },
    ghost long: { length widths ≡ 65 },
}

// What joining needs of a part of the pattern: its last place's number, whether it is nullable, its firsts and lasts.
#[derive(Clone, Copy)]
pub(crate) struct Part {
    pub(crate) upto: usize,
    pub(crate) nullable: bool,
    pub(crate) firsts: PlaceSet,
    pub(crate) lasts: PlaceSet,
}
