//! The list bank: a bank that holds sets of at most 256 pairs, listed in order of place and then count.
//!
//! `PairList` is such a list, in an `ArrayVec`, which does not allocate; its order is a fact that it carries with it. A pair is
//! found by halving, put in by moving up those after it, and refused where the list is full and does not have it. A carry puts
//! its pairs into a copy of the back, which takes the back's place only when all of them found room. The whole bank takes less
//! than 4 KiB.
//!
//! `let mut b: ListBank = Bank::new(); b.start(&widths); b.carry(0, 1, Raise::Nothing)?; b.turn();`

#![tactic(auto)]

mod bank;
mod calls;
mod list;
mod pairs;

pub use bank::ListBank;
use banks::Bank;
