//! The widths of a plan's places: how many counts each may have.
//!
//! Place 0 is the start and has width 1; 64 more places may follow, each of width 1,000 at most, and together the widths
//! are at most 4,096. `Widths` carries these facts with it: there is no way to make one of which they do not hold.
//! `width_of w p` of `specs/Width.antt` is the width of place p, and 0 for a number that is no place.
//! `Layout` lays the counts of all places into one row of 4,096, each place's after those of the places before it.
//!
//! `Widths::start_only().at(0)` is 1; `Widths::of(&w)` is `None` where w breaks one of the rules.

#![tactic(auto)]

mod calls;
mod data;

pub use calls::width_in;
pub use data::{Layout, Widths};
