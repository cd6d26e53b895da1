ghost use Rattle.std.specs.Prelude.{◌≡◌, ◌+◌, ◌≤◌};
ghost use Rattle.automata.specs.Places.{size};
ghost use Rattle.glushkov.specs.Nodes.{tree_in};
ghost use Rattle.glushkov.specs.Passes.{PartOf, LinksOf};

use crate::data::Part;
use crate::joins::join;
use crate::parts::{can_be_empty, inside_body, link_again, meeting_link};
use grammar::Node;
use tables::LinkRow;

// Adds the links of a part whose places begin behind `offset`, and tells what joining needs of it.
pub(crate) fn link(node: &Node, offset: usize, inside: bool, rows: &mut [LinkRow; 65]) -> Part
    requires { offset + size (tree_in node.now) ≤ 64 }
    ensures part { PartOf (tree_in node.now) offset result }
    ensures links { LinksOf (tree_in node.now) offset inside rows.old rows.new }
{
    match node {
        Node::Empty => Part::empty(offset),
        Node::Leaf(_, _) | Node::Class(_, _, _) => Part::one_place(offset),
        Node::Cat(a, b) => {
            let left = link(a, offset, inside, rows);
            let right = link(b, left.upto, inside, rows);
            join(rows, left.lasts, right.firsts, meeting_link(inside));
            left.followed_by(right)
        }
        Node::Alt(a, b) => {
            let left = link(a, offset, inside, rows);
            let right = link(b, left.upto, inside, rows);
            left.or(right)
        }
        Node::Repeat(body, times) => {
            let part = link(body, offset, inside_body(*times, inside), rows);
            if let Some(again) = link_again(*times, inside) {
                join(rows, part.lasts, part.firsts, again);
            }
            Part {
                nullable: can_be_empty(*times, part.nullable),
                ..part
            }
        }
    }
}
