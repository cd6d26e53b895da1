//! The par of a row: whether it fits a letters pattern, and the fewest letters that complete it.
//!
//! The input is two lines, a pattern and the row so far. `report_par` reads the pattern, lays the row over a bit bank, and answers a
//! `Par`: whether the row fits, and its need; or a `ParError`: what was refused, and where. Both print themselves on one line.
//! `specs/Pars.antt` says what is answered, in terms of the language of the pattern.
//!
//! For the lines `.*a.{3}b` and `aa` it is `Par { fits: false, need: Some(3) }`, which prints `no 3`.

#![tactic(auto)]

mod calls;
mod data;
mod show;

pub use calls::{judge, report_par};
pub use data::{Par, ParError};
