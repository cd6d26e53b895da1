ghost use Rattle.std.specs.Prelude.{◌≡◌, ℕ, ◌+◌, ◌≤◌, not, ◌&&◌, length, ◌==◌, nat_lt, slice_index_or};
ghost use Rattle.bits.specs.Members.{member};
ghost use Rattle.tables.specs.Masks.{no_set};
ghost use Rattle.tables.specs.Tables.{links_of};

use bits::Set64;
use tables::Table;
use widths::Layout;

// The places of a pattern and their links, with the layout of the marks of its pairs. The targets of a place are the places that links
// lead to from there; k stands for the place k + 1, since no link leads to the start.
// By `Set64`, not the set of places of `tables`: it is walked at each pair, and walks its members in order.
#[derive(Clone, Copy)]
pub(crate) struct Graph<'a> {
    pub(crate) table: &'a Table,
    pub(crate) layout: Layout,
    pub(crate) targets: [Set64; 65],
    ghost full: { length targets ≡ 65 },
    ghost exact: { (p k : ℕ) → p ≤ table.now.places → member (slice_index_or targets p no_set) k ≡ (nat_lt k table.now.places && not (links_of table.now p (k + 1) == 0)) },
}

// No distance passes this: there are at most 4,096 pairs, so no shortest path has more than 4,095 links.
pub(crate) const MOST: u16 = 4097;
