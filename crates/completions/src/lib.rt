//! The need of a front and a hint, over the table of a pattern and any bank.
//!
//! `need_of` tells how many symbols a shortest completion of the row has, `hint_of` the code of a symbol with which such a
//! completion begins. Both measure the distance of every pair to a pair that accepts, in a lent area of at least 4,096 numbers, and
//! look for the pair of the front (`Found`) with the least; afterwards the first 4,096 numbers are zero. A short area is refused
//! and stays. `specs/Answers.antt` says what they answer: for every pattern whose table it is, and every row whose front the bank has.
//!
//! Over the table of `.*a.{3}b` and the front of `aa`: `need_of` is `Ok(3)`, and `hint_of` is the code of a letter.

#![tactic(auto)]

mod area;
mod hints;
mod nearest;
mod needs;
mod towards;

pub use hints::hint_of;
pub use needs::need_of;
