//! Describes an accepted pattern: its places, their codes, widths and lows, and the links between them.
//!
//! `describe` answers a `Description`, with a `Place` for each place of the pattern, or why the pattern is refused.
//! `specs/Describes.antt` says what each field is, in terms of the pattern's tree.
//!
//! Of the letters pattern `a{2,3}` the description has one place, at byte 0, of width 3 and low 2, and 4 counts.

#![tactic(auto)]

mod calls;
mod data;
mod places;
mod starts;

pub use calls::describe;
pub use data::{Description, Place};
