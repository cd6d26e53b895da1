//! Distances in a pattern's automaton: how many links each pair (place, count) is away from a pair that accepts.
//!
//! `measure` fills a lent area of 16-bit numbers: the mark of a pair is its distance plus one, and 0 where no path leads to a pair that accepts.
//! The marks stand place after place, each place's by count, in the first 4,096 numbers (`mark_at` of `specs/Marks.antt`); `Marks` reads one,
//! and `wipe` makes those numbers zero again. `measure` lowers the marks in place, in sweeps over all pairs, until none moves.
//! A `Graph` is the table with the layout of its marks and, for each place, the places that its links lead to; there is no second area.
//!
//! For the table of `a{3}`, whose place 1 has the counts 1 to 3, the area begins 4, 3, 2, 1: (0, 1) is three links away, and (1, 3) accepts.

#![tactic(auto)]

mod build;
mod graph;
mod marks;
mod relax;
mod search;
mod sweep;

pub use marks::{Marks, wipe};
pub use search::measure;
