//! Plans: what a session needs to know of a pattern.
//!
//! A `Plan<K>` is of one kind of symbols. `Plan::new` gives the plan of the empty pattern, and `read` reads a pattern into it: any bytes
//! at all are read, or refused by number and byte place, and the plan is then that of the empty pattern again.
//! `specs/Plans.antt` says which plan a text has; `tables` has the fields.
//!
//! For a `Plan<Letters>`, `read(heap, b"(a|aa){5}")` makes three places of width 5, and `read(heap, b"a{3,2}")` is `Err(Refusal::Bounds(1))`.

#![tactic(auto)]

mod plan;
mod read;
mod texts;

pub use plan::Plan;
pub use read::alphabet;
