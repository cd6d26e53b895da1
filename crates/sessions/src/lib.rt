//! Sessions: a pattern's plan, a bank, and the row that is laid symbol by symbol.
//!
//! `open` takes a plan and a bank, and `close` gives the plan back. Between them `lay` puts a symbol at the end of the row, `clear`
//! makes the row empty, `lay_row` lays a whole row, `fits` tells whether it belongs to the pattern's language, `need` how many symbols it lacks at the least,
//! and `hint` names a symbol that brings it nearer. All are one text for every kind of symbols and every bank, and none relies on
//! a check by its caller.
//!
//! `specs/RowLanguage.antt` says what it is to belong, to complete, to be stuck; `specs/Calls.antt` how the row follows from the calls;
//! `specs/Sessions.antt` what each call does, and `specs/Runs.antt` what `open` promises of every list of calls.
//!
//! With the plan of `.*a.{3}b`, after `session.lay(b'a')?; session.lay(b'a')?;` `session.need(&mut area)` is `Ok(3)`.

#![tactic(auto)]

mod calls;
mod ends;
mod rows;
mod session;

pub use ends::{open, open_on};
pub use session::Session;
