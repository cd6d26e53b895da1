//! Reads the text of a pattern into its tree.
//!
//! `specs/Grammar.antt` is the grammar, as a relation between a part of a text and its tree; a text has at most one tree.
//! `Node` is that tree in memory; it keeps the byte places that refusals point at. `Alphabet`, of `alphabets`, says how a symbol is written.
//! `read_tree` answers the tree of a text, or the byte with which the text stops being the beginning of a pattern,
//! or that the text begins a pattern and is none. What a pattern may further not have is not checked here.
//!
//! `read_tree(heap, Alphabet::Letters, b"(a|b){2}")` is a tree; `b"a**"` is refused at byte 2, and `b"(a"` at its end.

#![tactic(auto)]

mod bounds;
mod bytes;
mod classes;
mod makers;
mod patterns;
mod reader;
mod tree;
mod units;

pub use patterns::read_tree;
pub use tree::{Node, Times};
pub use units::colour_codes;
