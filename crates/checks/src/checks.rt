//! The checks of a tree, in their order.
ghost use Rattle.grammar.specs.Nodes.{ast_of};
ghost use Rattle.checks.specs.Checks.{Checked};

use crate::budget::{count_places, spend};
use crate::leftmost::{backward_range, empty_class, nested, wrong_bound};
use grammar::Node;
use refusals::Refusal;

/// The first of the checks 4 to 9 that refuses the tree.
pub fn check(n: &Node) -> Result<(), Refusal>
    ensures { Checked (ast_of n.now) result }
{
    backward_range(n).map(Refusal::Range).map_or(Ok(()), Err)?;
    empty_class(n).map(Refusal::Empty).map_or(Ok(()), Err)?;
    wrong_bound(n).map(Refusal::Bounds).map_or(Ok(()), Err)?;
    nested(n).map(Refusal::Nested).map_or(Ok(()), Err)?;
    count_places(n)?;
    spend(n, None, 4095).ok_or(Refusal::Counts)?;
    Ok(())
}
