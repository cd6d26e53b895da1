//! Why a call was refused: one enum for every layer.
//!
//! Each case has a number by which it is known outside, and some point at a byte of a pattern. `specs/Numbering.antt`
//! defines both once, and every promise about a refusal uses those definitions. A refusal prints as its name and what is wrong.
//!
//! `Refusal::Byte(4).number()` is 2 and `Refusal::Byte(4).place()` is `Some(4)`.

#![tactic(auto)]

ghost use Rattle.std.specs.Prelude.{◌≡◌};
ghost use Rattle.refusals.specs.Numbering.{number_of, place_of};
ghost use Rattle.refusals.specs.declared.Refusal.TheVariants.{Memory};

use std::alloc::{AllocError, AllocFailed};
use thiserror::Error;

/// Why a call was refused.
#[derive(Clone, Copy, PartialEq, Eq, Debug, Error)]
pub enum Refusal {
    /// 1: the pattern has more than 512 bytes. The place is 512.
    #[error("LENGTH: the pattern has more than 512 bytes")]
    Length,
    /// 2: the bytes up to and with this one begin no pattern.
    #[error("BYTE: no pattern begins with the bytes up to this one")]
    Byte(usize),
    /// 3: the text begins a pattern but is none. The place is its length.
    #[error("END: the pattern is not finished")]
    End(usize),
    /// 4: a range runs backwards. The place is its first letter.
    #[error("RANGE: this range runs backwards")]
    Range(usize),
    /// 5: a class spells no code. The place is its `[`.
    #[error("EMPTY: this class takes no symbol")]
    Empty(usize),
    /// 6: the high of a repeat is 0 or above 1,000, or its low exceeds its high. The place is its `{`.
    #[error("BOUNDS: the high of this repeat is 0 or above 1000, or its low exceeds its high")]
    Bounds(usize),
    /// 7: a counted repeat lies inside another's body. The place is the inner `{`.
    #[error("NESTED: this counted repeat lies inside another")]
    Nested(usize),
    /// 8: more than 64 places. The place is the first byte of the 65th.
    #[error("PLACES: this is the 65th place, and 64 are allowed")]
    Places(usize),
    /// 9: the widths, the start's with them, add to more than 4,096. The place is 0.
    #[error("COUNTS: the widths of all places and the start's add to more than 4096")]
    Counts,
    /// 10: a value that is no symbol, or bytes that are no symbol's unit.
    #[error("SYMBOL: no symbol")]
    Symbol,
    /// 11: a work area has fewer than 4,096 numbers.
    #[error("WORK: the work area is too short")]
    Work,
    /// 12: a number that is no symbol's code.
    #[error("CODE: no symbol's code")]
    Code,
    /// 20: a bank cannot hold the set.
    #[error("FULL: the bank is full")]
    Full,
    /// 21: the row fits, so there is nothing to hint at.
    #[error("COMPLETE: the row fits")]
    Complete,
    /// 22: no completion of the row exists.
    #[error("STUCK: the row has no completion")]
    Stuck,
    /// 40: want of memory.
    #[error("MEMORY: want of memory")]
    Memory,
}

impl Refusal {
    /// The number by which the refusal is known outside.
    // By a match, and a call by name: cases that carry a place have no discriminant, and `u8::from` would not say which number is meant.
    pub fn number(self) -> u8
        ensures { result ≡ number_of self }
    {
        match self {
            Refusal::Length => 1,
            Refusal::Byte(_) => 2,
            Refusal::End(_) => 3,
            Refusal::Range(_) => 4,
            Refusal::Empty(_) => 5,
            Refusal::Bounds(_) => 6,
            Refusal::Nested(_) => 7,
            Refusal::Places(_) => 8,
            Refusal::Counts => 9,
            Refusal::Symbol => 10,
            Refusal::Work => 11,
            Refusal::Code => 12,
            Refusal::Full => 20,
            Refusal::Complete => 21,
            Refusal::Stuck => 22,
            Refusal::Memory => 40,
        }
    }

    /// The byte of the pattern that the refusal points at, if it points at one.
    pub fn place(self) -> Option<usize>
        ensures { result ≡ place_of self }
    {
        match self {
            Refusal::Length => Some(512),
            Refusal::Byte(p)
            | Refusal::End(p)
            | Refusal::Range(p)
            | Refusal::Empty(p)
            | Refusal::Bounds(p)
            | Refusal::Nested(p)
            | Refusal::Places(p) => Some(p),
            Refusal::Counts => Some(0),
            Refusal::Symbol
            | Refusal::Work
            | Refusal::Code
            | Refusal::Full
            | Refusal::Complete
            | Refusal::Stuck
            | Refusal::Memory => None,
        }
    }
}

impl From<AllocError> for Refusal {
    ghost from_gives = { λ _ e. e ≡ Memory };

    fn from(_e: AllocError) -> Refusal {
        Refusal::Memory
    }
}

impl<T: Drop> From<AllocFailed<T>> for Refusal {
    ghost from_gives = { λ _ e. e ≡ Memory };

    fn from(_failed: AllocFailed<T>) -> Refusal {
        Refusal::Memory
    }
}
