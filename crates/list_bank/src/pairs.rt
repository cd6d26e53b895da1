ghost use Rattle.std.specs.Prelude.{◌≡◌, ℕ, ◌<◌, ◌≤◌, length, get_or, slice_index_or};
ghost use Rattle.list_bank.specs.Listed.{rank};

use arrayvec::ArrayVec;

/// At most 256 pairs of a place and a count, in order of place and then count.
#[derive(Drop)]
pub struct PairList {
    pub(crate) pairs: ArrayVec<(u8, u16), 256>,
    ghost room: { length pairs.items ≤ 256 },
    ghost ascends: { (j k : ℕ) → j < k → k < length pairs.items → rank (slice_index_or pairs.items j (0, 0)) < rank (slice_index_or pairs.items k (0, 0)) },
    ghost places: { (k : ℕ) → k < length pairs.items → (get_or pairs.items k (0, 0)).0 < 256 },
    ghost counts: { (k : ℕ) → k < length pairs.items → (get_or pairs.items k (0, 0)).1 < 65536 },
}
