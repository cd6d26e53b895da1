ghost use Rattle.std.specs.Prelude.{◌≡◌, ℕ, ◌+◌, ◌<◌, ◌≤◌, length, take, sum, slice_index};

/// The width of each place, by its number. Place 0 is the start.
#[derive(Clone, Copy, PartialEq, Eq, Debug)]
pub struct Widths {
    pub(crate) widths: [u16; 65],
    ghost long: { length widths ≡ 65 },
    ghost start: { slice_index widths 0 ≡ 1 },
    ghost each: { (p : ℕ) → p < 65 → slice_index widths p ≤ 1000 },
    ghost total: { sum widths ≤ 4096 },
}

/// Where the counts of each place begin in one row of all counts: after those of the places before it.
// Two lists by place, and not one of pairs: its clauses name `Widths` whole, as banks do.
#[derive(Clone, Copy, PartialEq, Eq, Debug)]
pub struct Layout {
    pub(crate) widths: Widths,
    pub(crate) bases: [u16; 65],
    ghost long: { length bases ≡ 65 },
    ghost each: { (p : ℕ) → p < 65 → slice_index bases p ≡ sum (take p widths.widths) },
}
