//! Searches of a tree, each for the leftmost place of one fault: one walk, and a closure that tells what a node shows, or, by a
//! `Break`, what a whole part comes to.
ghost use Rattle.std.specs.Prelude.{◌≡◌, ◌<◌, ◌⊎◌, Decides};
ghost use Rattle.std.specs.Fn.{FnReturnsAt};
ghost use Rattle.grammar.specs.Nodes.{ast_of};
ghost use Rattle.checks.specs.Faults.{Finds, least, BackwardAt, EmptyAt, BoundsAt, CountedAt, NestedAt};
ghost use Rattle.checks.specs.Searches.{Fault, backward, no_code, bounds, counted, nested, FaultAt, Says, Tells};

use grammar::{Node, Times};
use std::ops::ControlFlow;

/// The smaller of two places.
fn earlier(a: Option<usize>, b: Option<usize>) -> Option<usize>
    ensures { result ≡ least a b }
{
    a.into_iter().chain(b).min()
}

/// What is told of a node: what it shows, its parts to be looked at too, or what it and all its parts come to.
type Told = ControlFlow<Option<usize>, Option<usize>>;

/// The leftmost place of a fault, of which `fault` tells what one node shows.
fn leftmost<F: Fn(&Node) -> Told>(n: &Node, fault: &F) -> Option<usize>
    requires { F.IsAlwaysCallable fault.now }
    ensures { (f : Fault) → Tells f (FnReturnsAt F.Fn fault.now) → Finds (FaultAt f (ast_of n.now)) result }
{
    match fault(n) {
        ControlFlow::Break(all) => all,
        ControlFlow::Continue(here) => match n {
            Node::Cat(a, b) | Node::Alt(a, b) => {
                earlier(here, earlier(leftmost(a, fault), leftmost(b, fault)))
            }
            Node::Repeat(a, _) => earlier(here, leftmost(a, fault)),
            _ => here,
        },
    }
}

/// The leftmost range that runs backwards, by its first letter.
pub(crate) fn backward_range(n: &Node) -> Option<usize>
    ensures { Finds (BackwardAt (ast_of n.now)) result }
{
    leftmost(
        n,
        &|node: &Node|
            ensures { Says backward (ast_of node.now) result }
        {
            match node {
                Node::Class(_, _, back) => ControlFlow::Continue(*back),
                _ => ControlFlow::Continue(None),
            }
        },
    )
}

/// The leftmost class that spells no code, by its `[`.
pub(crate) fn empty_class(n: &Node) -> Option<usize>
    ensures { Finds (EmptyAt (ast_of n.now)) result }
{
    leftmost(
        n,
        &|node: &Node|
            ensures { Says no_code (ast_of node.now) result }
        {
            match node {
                Node::Class(at, codes, _) if codes.is_empty() => ControlFlow::Continue(Some(*at)),
                _ => ControlFlow::Continue(None),
            }
        },
    )
}

/// Whether a low and a high may not bound a repeat.
fn wrong(bounds: (u16, u16)) -> bool
    ensures { Decides result ((bounds.1 ≡ 0) ⊎ ((1000 < bounds.1) ⊎ (bounds.1 < bounds.0))) }
{
    let (low, high) = bounds;
    high == 0 || high > 1000 || high < low
}

/// The leftmost wrong bound, by its `{`.
pub(crate) fn wrong_bound(n: &Node) -> Option<usize>
    ensures { Finds (BoundsAt (ast_of n.now)) result }
{
    leftmost(
        n,
        &|node: &Node|
            ensures { Says bounds (ast_of node.now) result }
        {
            match node {
                Node::Repeat(_, Times::Counted(at, bounds)) if wrong(*bounds) => {
                    ControlFlow::Continue(Some(*at))
                }
                _ => ControlFlow::Continue(None),
            }
        },
    )
}

/// The leftmost counted repeat, by its `{`.
fn counted(n: &Node) -> Option<usize>
    ensures { Finds (CountedAt (ast_of n.now)) result }
{
    leftmost(
        n,
        &|node: &Node|
            ensures { Says counted (ast_of node.now) result }
        {
            match node {
                Node::Repeat(_, Times::Counted(at, _)) => ControlFlow::Continue(Some(*at)),
                _ => ControlFlow::Continue(None),
            }
        },
    )
}

/// The leftmost counted repeat inside the body of another, by its `{`.
pub(crate) fn nested(n: &Node) -> Option<usize>
    ensures { Finds (NestedAt (ast_of n.now)) result }
{
    leftmost(
        n,
        &|node: &Node|
            ensures { Says nested (ast_of node.now) result }
        {
            match node {
                Node::Repeat(body, Times::Counted(_, _)) => ControlFlow::Break(counted(body)),
                _ => ControlFlow::Continue(None),
            }
        },
    )
}
