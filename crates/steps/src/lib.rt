//! The step of a front, over the table of a pattern and any bank.
//!
//! The front of a bank is the set of pairs (place, count) that stand. `step` makes the front after one more symbol, given by
//! its code, or refuses and leaves the front, where the bank cannot hold the new one; `accepts` tells whether some pair of the
//! front accepts. `specs/StepSet.antt` has the step's set, computed from the table, and `specs/Fronts.antt` what the calls
//! promise of it: for every pattern whose table it is, that set is the automaton's step.
//!
//! Over the table of `ab` and a started bank: after `step(&table, &mut bank, 0)?` the front is (1, 1) alone, and after
//! `step(&table, &mut bank, 1)?` it is (2, 1) alone; then `accepts(&table, &bank)` is true.

#![tactic(auto)]

mod fronts;
mod moves;

pub use fronts::{accepts, step};
