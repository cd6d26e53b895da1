//! Checks of a pattern's tree, in their order.
//!
//! `check` answers the first refusal, 4 to 9, that a `grammar::Node` gives, at its leftmost place: ranges that run backwards, classes that
//! spell no code, wrong bounds, counted repeats inside one another, too many places, too many counts.
//! `count_places` counts the places alone.
//! `specs/Faults.antt` says where each fault stands, `specs/Searches.antt` what a search asks of one node, `specs/Widths.antt` what the
//! widths add to, `specs/Checks.antt` what `check` answers.
//!
//! Of the tree of `(a{2}){3}` the answer is `Err(Refusal::Nested(2))`.

#![tactic(auto)]

mod budget;
mod checks;
mod leftmost;

pub use budget::count_places;
pub use checks::check;
