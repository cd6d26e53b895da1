//! The table of a pattern: its places, what each one takes, and the links between them.
//!
//! Places are Glushkov's positions: the units and classes of the pattern, numbered from 1 in the order of the text; place 0 is the start.
//! `Table` has for each place its codes, its width and its low, and for every ordered pair of places the `Links` that lead from one to
//! the other: 65 rows of 65 sets of links, each kept as a mask. Its calls answer for every number, place or not; `glushkov` makes it of a tree.
//! `specs/Tables.antt` says, field by field, when a table is that of a pattern's tree.
//!
//! The table of `(a{2})*` has one place, of width 2 and low 2, and from it to itself a next and a cross link.

#![tactic(auto)]

mod links;
mod places;
mod reads;
mod table;

pub use links::{Link, Links};
pub use places::PlaceSet;
pub use table::{LinkRow, Place, Table};
