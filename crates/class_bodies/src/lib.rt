//! Class bodies: the bytes between `[` and `]` that spell a set of codes.
//!
//! `class_body` answers the body for a `Set64` of codes and an `Alphabet`: letters as runs, tiles by colour.
//! `specs/ClassBody.antt` says, by the grammar of patterns, which codes a body spells.
//!
//! For the letters of codes 0, 1, 2 and 4 the body is `a-ce`; for all red tiles and the blue one of face 1 it is `R.B1`.

#![tactic(auto)]

mod units;

pub use units::class_body;
