ghost use Rattle.symbols.specs.Tiles.{is_tile, tile_code, tile_of, tile_spelled};
ghost use Rattle.std.proofs.Common.{rules};

use crate::kind::Kind;
use alphabets::Colour;
use refusals::Refusal;

/// A tile: a colour from 0 to 3, written `R`, `G`, `B` or `Y`, and a face from 0 to 9, written as a digit.
// By numbers, and not by an enum of colours: what is entered and is no tile must have a form, to be refused.
#[derive(Clone, Copy, PartialEq, Eq, Debug)]
pub struct Tile {
    pub colour: u8,
    pub face: u8,
}

/// The kind of tiles.
#[derive(Clone, Copy)]
pub struct Tiles;

impl Kind for Tiles {
    type Symbol = Tile;

    const UNIT: usize = 2;

    ghost codes = { 40 };

    ghost valid = { is_tile };

    ghost code = { tile_code };

    ghost symbol = { tile_of };

    ghost unit_length = { 2 };

    ghost spelled = { tile_spelled };

    ghost few = { Prim.search rules };

    ghost short = { Prim.search rules };

    ghost alphabet = { Prim.search rules };

    ghost long = { Prim.search rules };

    ghost bounded = { Prim.search rules };

    ghost apart = { Prim.search rules };

    ghost named = { Prim.search rules };

    ghost distinct = { Prim.search rules };

    fn code_of(s: Tile) -> Result<u8, Refusal> {
        if s.colour < 4 && s.face < 10 {
            Ok(10 * s.colour + s.face)
        } else {
            Err(Refusal::Symbol)
        }
    }

    fn symbol_of(c: u8) -> Result<Tile, Refusal> {
        if c < 40 {
            Ok(Tile {
                colour: c / 10,
                face: c % 10,
            })
        } else {
            Err(Refusal::Code)
        }
    }

    fn unit_length() -> usize {
        Self::UNIT
    }

    fn spell(s: Tile) -> Result<[u8; 2], Refusal> {
        match Colour::numbered(s.colour) {
            Some(colour) if s.face < 10 => Ok([colour.letter(), b'0' + s.face]),
            _ => Err(Refusal::Symbol),
        }
    }

    fn unspell(u: &[u8]) -> Result<Tile, Refusal> {
        let [letter, face @ b'0'..=b'9'] = u else {
            return Err(Refusal::Symbol);
        };
        let colour = Colour::try_from(*letter).map_err(|_| Refusal::Symbol)?;
        Ok(Tile {
            colour: colour.number(),
            face: *face - b'0',
        })
    }
}
