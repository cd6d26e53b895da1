ghost use Rattle.std.specs.Prelude.{◌≡◌, ◌++◌, OnOk};
ghost use Rattle.grammar.specs.Nodes.{ast_of};
ghost use Rattle.checks.specs.Faults.{places_of};

use grammar::Node;
use std::alloc::AllocError;

// Appends the first byte of each place of a part, in the order of the text.
pub(crate) fn push_starts(node: &Node, out: &mut Vec<usize>) -> Result<(), AllocError>
    ensures { OnOk result (out.new.items ≡ out.old.items ++ places_of (ast_of node.now)) }
{
    match node {
        Node::Empty => Ok(()),
        Node::Leaf(at, _) | Node::Class(at, _, _) => Ok(out.push(*at)?),
        Node::Cat(a, b) | Node::Alt(a, b) => {
            push_starts(a, out)?;
            push_starts(b, out)
        }
        Node::Repeat(body, _) => push_starts(body, out),
    }
}
