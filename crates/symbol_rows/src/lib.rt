//! Rows of symbols, and the bytes that spell them.
//!
//! A row is spelled by its symbols' units, one after another. `read_row` goes from bytes to symbols, `spell_row` back to bytes, and
//! `row_codes` to the codes; each refuses at the first unit or value that is no symbol, and tells how many symbols stand before it.
//! All three serve any kind of symbols. `specs/Rows.antt` says what it is to spell a row.
//!
//! `read_row::<Tiles>(heap, b"R0Y9")` is a row of two tiles; `b"R0Y"` is refused behind one symbol.

#![tactic(auto)]

mod row;

pub use row::{RowRefusal, read_row, row_codes, spell_row};
