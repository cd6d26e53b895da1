//! The alphabets that rows and patterns are written in: letters and tiles.
//!
//! An `Alphabet` is read from the word that names it and prints as that word. `specs/Alphabets.antt` has the words and the unit lengths.
//! A `Colour` is the first half of a tile. It is read from the letter that stands for it; `specs/Colours.antt` has the letters and the numbers.
//!
//! `Alphabet::try_from(b"tiles".as_slice())` is `Ok(Alphabet::Tiles)`, whose units have two bytes.
//! `Colour::try_from(b'G')` is `Ok(Colour::Green)`, which has number 1.

#![tactic(auto)]

ghost use Rattle.std.specs.Prelude.{◌≡◌, ◌≤◌};
ghost use Rattle.alphabets.specs.Alphabets.{Names, unit_of};

mod colours;

pub use colours::{Colour, UnknownColour};
use std::fmt;
use thiserror::Error;

/// How a symbol is written.
#[derive(Clone, Copy, PartialEq, Eq, Debug)]
pub enum Alphabet {
    /// 26 letters; a unit is one byte.
    Letters,
    /// 40 tiles; a unit is two bytes, the colour and the face.
    Tiles,
}

/// A word that names no alphabet.
#[derive(Clone, Copy, PartialEq, Eq, Debug, Error)]
#[error("the alphabets are letters and tiles")]
pub struct UnknownAlphabet;

impl Alphabet {
    /// How many bytes a unit has.
    pub fn unit_length(self) -> usize
        ensures { (result ≡ unit_of self) × (1 ≤ result) × (result ≤ 2) }
    {
        match self {
            Alphabet::Letters => 1,
            Alphabet::Tiles => 2,
        }
    }
}

impl TryFrom<&[u8]> for Alphabet {
    type Error = UnknownAlphabet;

    ghost try_from_gives = { λ word r. Names word.now r };

    fn try_from(word: &[u8]) -> Result<Alphabet, UnknownAlphabet> {
        match word {
            b"letters" => Ok(Alphabet::Letters),
            b"tiles" => Ok(Alphabet::Tiles),
            _ => Err(UnknownAlphabet),
        }
    }
}

impl fmt::Display for Alphabet {
    fn fmt<W: fmt::Write>(&self, f: &mut fmt::Formatter<W>) -> fmt::Result {
        f.write_str(match self {
            Alphabet::Letters => "letters",
            Alphabet::Tiles => "tiles",
        })
    }
}
