//! The bit bank: a bank that holds every set within the widths, a bit to each pair.
//!
//! Each set is 128 words of 64 bits. The row of a place begins at a word of its own (`Rows`), and bit i - 1 of the row is
//! count i. A carry joins one row into another by whole words, as they are or one bit up (`words`); a look goes by words too;
//! a turn copies and a drop clears the words in use. The whole bank takes less than 4 KiB.
//!
//! `let mut b: BitBank = Bank::new(); b.start(&widths); b.carry(0, 1, Raise::Nothing)?; b.turn();`

#![tactic(auto)]

mod bank;
mod calls;
mod rows;
mod words;

pub use bank::BitBank;
use banks::Bank;
