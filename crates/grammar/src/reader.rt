//! What the readers of all parts of a pattern share.
ghost use Rattle.std.specs.Prelude.{◌≤◌};

use std::alloc::Global;

/// Reads the parts of a text. Each part has its reader, a method that is given the place where the part begins.
// Where a part begins is a premise of each reader: a place of its own type would have to carry the text.
// The unit length is a number and no alphabet: so the relations of the grammar have it, and the cycle of readers is not generic.
#[derive(Clone, Copy)]
pub(crate) struct Reader<'a> {
    /// Where the tree is made.
    pub(crate) heap: Global,
    /// How many bytes a unit has.
    pub(crate) unit: usize,
    pub(crate) text: &'a [u8],
    ghost short: { (1 ≤ unit) × (unit ≤ 2) },
}
