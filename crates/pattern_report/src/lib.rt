//! A report on a pattern: its places, their codes, widths and lows, and the links between them; or why the pattern is refused.
//!
//! The input is two lines: `letters` or `tiles`, and a pattern of that kind. `report_pattern` answers a `Report`, a
//! `descriptions::Description` of an accepted pattern, or a `ReportError`: the refusal, with a mark under its byte, or that the first line
//! names no kind. Both print themselves. `specs/Reports.antt` says what is reported of an input.
//!
//! For the lines `letters` and `a{3,2}` it prints the pattern, and under its byte 1 `^ refused 6 at 1, BOUNDS: ..`.

#![tactic(auto)]

mod calls;
mod data;
mod show;

pub use calls::report_pattern;
pub use data::{Report, ReportError};
