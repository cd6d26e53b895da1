//! Parts put together to larger ones; each asks for memory, and is refused for want of it.
ghost use Rattle.std.specs.Prelude.{◌≡◌, MatchResult};
ghost use Rattle.grammar.specs.Ast as ast;
ghost use Rattle.grammar.specs.Nodes.{ast_of, repetition_of};
ghost use Rattle.refusals.specs.declared.Refusal.TheVariants.{Memory};

use crate::tree::{Node, Times};
use refusals::Refusal;
use std::alloc::Global;

/// One part after another.
// `cat` and `alt` are two: a clause names the case of the tree.
pub(crate) fn cat(heap: Global, a: Node, b: Node) -> Result<Node, Refusal>
    ensures { MatchResult result (λ n. ast_of n ≡ ast.cat (ast_of a) (ast_of b)) (λ e. e ≡ Memory) }
{
    Ok(Node::Cat(Box::new(heap, a)?, Box::new(heap, b)?))
}

/// One part or the other.
pub(crate) fn alt(heap: Global, a: Node, b: Node) -> Result<Node, Refusal>
    ensures { MatchResult result (λ n. ast_of n ≡ ast.alt (ast_of a) (ast_of b)) (λ e. e ≡ Memory) }
{
    Ok(Node::Alt(Box::new(heap, a)?, Box::new(heap, b)?))
}

/// A part, so often.
pub(crate) fn repeat(heap: Global, a: Node, times: Times) -> Result<Node, Refusal>
    ensures { MatchResult result (λ n. ast_of n ≡ ast.repeat (repetition_of times) (ast_of a)) (λ e. e ≡ Memory) }
{
    Ok(Node::Repeat(Box::new(heap, a)?, times))
}
