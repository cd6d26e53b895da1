//! Glushkov's construction with counts: from a pattern's tree to its table.
//!
//! `table_of` makes the `tables::Table` of a `grammar::Node`, in one pass for the counts and one for the links.
//! `specs/Passes.antt` says what a pass writes for a part of the tree.
//!
//! The table of `(a{2})*` has one place, of width 2 and low 2, and from it to itself a next and a cross link.

#![tactic(auto)]

mod build;
mod counts;
mod data;
mod joins;
mod links;
mod parts;

pub use build::table_of;
