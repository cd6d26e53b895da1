ghost use Rattle.std.specs.Prelude.{◌≡◌, ◌+◌, ◌<◌, ◌≤◌};
ghost use Rattle.automata.specs.Places.{size, nullable};
ghost use Rattle.glushkov.specs.Nodes.{tree_in, bounds_of_body};
ghost use Rattle.glushkov.specs.Passes.{CountsOf, FreshCounts, Written, bounds_or};

use crate::data::Counts;
use crate::parts::can_be_empty;
use bits::Set64;
use grammar::{Node, Times};
use tables::Place;

// Whether a part is nullable.
pub(crate) fn is_nullable(node: &Node) -> bool
    ensures { result ≡ nullable (tree_in node.now) }
{
    match node {
        Node::Empty => true,
        Node::Leaf(_, _) | Node::Class(_, _, _) => false,
        Node::Cat(a, b) => is_nullable(a) && is_nullable(b),
        Node::Alt(a, b) => is_nullable(a) || is_nullable(b),
        Node::Repeat(body, times) => can_be_empty(*times, is_nullable(body)),
    }
}

// The low and the width that a repeat gives the places of its body.
fn body_bounds(times: Times, null: bool, bounds: Option<(u16, u16)>) -> Option<(u16, u16)>
    ensures { result ≡ bounds_of_body times null bounds }
{
    match (times, bounds) {
        (Times::Counted(_, (low, high)), None) => Some((if null { 0 } else { low }, high)),
        _ => bounds,
    }
}

impl Counts {
    // No place but the start, which has width 1 and low 1.
    pub(crate) fn fresh() -> Counts
        ensures { FreshCounts result }
    {
        let mut each = [Place {
            codes: Set64::empty(),
            low: 0,
        }; 65];
        each[0].low = 1;
        let mut widths = [0; 65];
        widths[0] = 1;
        Counts { each, widths }
    }

    // Writes one place: its codes, and the low and the width that a counted repeat around it gives, else 1 and 1.
    fn put(&mut self, p: usize, codes: Set64, bounds: Option<(u16, u16)>)
        requires { p < 65 }
        ensures { Written p codes (bounds_or bounds) self.old self.new }
    {
        let (low, width) = bounds.unwrap_or((1, 1));
        self.each[p] = Place { codes, low };
        self.widths[p] = width;
    }

    // Writes the places of a part, which begin behind `offset`, and answers the number of the last.
    pub(crate) fn fill(&mut self, node: &Node, offset: usize, bounds: Option<(u16, u16)>) -> usize
        requires { offset + size (tree_in node.now) ≤ 64 }
        ensures upto { result ≡ offset + size (tree_in node.now) }
        ensures counts { CountsOf (tree_in node.now) offset bounds self.old self.new }
    {
        match node {
            Node::Empty => offset,
            Node::Leaf(_, codes) | Node::Class(_, codes, _) => {
                self.put(offset + 1, *codes, bounds);
                offset + 1
            }
            Node::Cat(a, b) | Node::Alt(a, b) => {
                let middle = self.fill(a, offset, bounds);
                self.fill(b, middle, bounds)
            }
            Node::Repeat(body, times) => {
                self.fill(body, offset, body_bounds(*times, is_nullable(body), bounds))
            }
        }
    }
}
