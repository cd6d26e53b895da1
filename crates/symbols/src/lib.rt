//! Symbols: what a row is made of, in two kinds.
//!
//! A `Kind` brings its own type of symbol and its own unit length. `Letters` has the bytes `a` to `z`, `Tiles` a colour and a face.
//! Every symbol has a code, and a unit of bytes that spells it; the laws of `Kind` say that symbols, codes and units are one to one.
//! Generic code may rest on these laws; `symbol_rows` goes from the bytes of a whole row to its symbols and back.
//!
//! `Letters::code_of(b'c')` is `Ok(2)`; `Tiles::unspell(b"G7")` is `Ok(Tile { colour: 1, face: 7 })`.

#![tactic(auto)]

mod kind;
mod letters;
mod tiles;

pub use kind::Kind;
pub use letters::Letters;
pub use tiles::{Tile, Tiles};
