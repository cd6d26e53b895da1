//! The four colours of tiles.
ghost use Rattle.std.specs.Prelude.{◌≡◌, ◌<◌, ◌≤◌, MatchOption};
ghost use Rattle.alphabets.specs.Colours.{letter_of, number_of, Lettered};

use thiserror::Error;

/// The colour of a tile.
#[derive(Clone, Copy, PartialEq, Eq, Debug)]
pub enum Colour {
    Red,
    Green,
    Blue,
    Yellow,
}

/// A byte that is no colour's letter.
#[derive(Clone, Copy, PartialEq, Eq, Debug, Error)]
#[error("the colours are R, G, B and Y")]
pub struct UnknownColour;

impl Colour {
    /// The letter that stands for the colour.
    pub fn letter(self) -> u8
        ensures { result ≡ letter_of self }
    {
        match self {
            Colour::Red => b'R',
            Colour::Green => b'G',
            Colour::Blue => b'B',
            Colour::Yellow => b'Y',
        }
    }

    /// The number of the colour, below 4.
    // By name: `TryFrom<u8>` reads the letter.
    pub fn number(self) -> u8
        ensures { (result ≡ number_of self) × (result < 4) }
    {
        match self {
            Colour::Red => 0,
            Colour::Green => 1,
            Colour::Blue => 2,
            Colour::Yellow => 3,
        }
    }

    /// The colour of a number; none from 4 on.
    // By name: `TryFrom<u8>` reads the letter.
    pub fn numbered(number: u8) -> Option<Colour>
        ensures { MatchOption result (4 ≤ number) (λ c. number_of c ≡ number) }
    {
        match number {
            0 => Some(Colour::Red),
            1 => Some(Colour::Green),
            2 => Some(Colour::Blue),
            3 => Some(Colour::Yellow),
            _ => None,
        }
    }
}

impl TryFrom<u8> for Colour {
    type Error = UnknownColour;

    ghost try_from_gives = { λ letter r. Lettered letter r };

    fn try_from(letter: u8) -> Result<Colour, UnknownColour> {
        match letter {
            b'R' => Ok(Colour::Red),
            b'G' => Ok(Colour::Green),
            b'B' => Ok(Colour::Blue),
            b'Y' => Ok(Colour::Yellow),
            _ => Err(UnknownColour),
        }
    }
}
