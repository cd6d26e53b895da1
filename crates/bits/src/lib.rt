//! The bits of a number, and small sets kept as the bits of one word.
//!
//! `specs/Bit.antt` says what a bit of a number is, and of a list of words read as one long row of bits;
//! `proofs/Laws.antt` has the laws of a bit under or, and, xor, shifts and masks, and `proofs/Words.antt` those of rows.
//! `Set64` is a set of numbers below 64: its meaning, `member`, tells of every number whether it is in the set,
//! and each call says what it does to that. Two sets with the same members are equal (`same_members` in `proofs/Members.antt`).
//!
//! A `for` over a set goes through its members, from the least up.
//!
//! `Set64::span(2, 5).union(Set64::only(9)).least()` is `Some(2)`.

#![tactic(auto)]

mod calls;
mod iter;
mod set;

pub use iter::Iter;
pub use set::Set64;
