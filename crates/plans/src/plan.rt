ghost use Rattle.plans.specs.Made.{Made};

use std::marker::PhantomData;
use tables::Table;

/// The plan of a pattern, for one kind of symbols. It is always the plan of some accepted text.
#[derive(Drop)]
pub struct Plan<K> {
    pub table: Table,
    pub(crate) kind: PhantomData<K>,
    ghost made: { ∥ Made table ∥₁ },
}
