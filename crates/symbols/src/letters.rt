ghost use Rattle.symbols.specs.Letters.{is_letter, letter_code, letter_of, letter_spelled};
ghost use Rattle.std.proofs.Common.{rules};

use crate::kind::Kind;
use refusals::Refusal;

/// The kind of letters: the bytes `a` to `z`.
#[derive(Clone, Copy)]
pub struct Letters;

impl Kind for Letters {
    type Symbol = u8;

    const UNIT: usize = 1;

    ghost codes = { 26 };

    ghost valid = { is_letter };

    ghost code = { letter_code };

    ghost symbol = { letter_of };

    ghost unit_length = { 1 };

    ghost spelled = { letter_spelled };

    ghost few = { Prim.search rules };

    ghost short = { Prim.search rules };

    ghost alphabet = { Prim.search rules };

    ghost long = { Prim.search rules };

    ghost bounded = { Prim.search rules };

    ghost apart = { Prim.search rules };

    ghost named = { Prim.search rules };

    ghost distinct = { Prim.search rules };

    fn code_of(s: u8) -> Result<u8, Refusal> {
        match s {
            b'a'..=b'z' => Ok(s - b'a'),
            _ => Err(Refusal::Symbol),
        }
    }

    fn symbol_of(c: u8) -> Result<u8, Refusal> {
        if c < 26 {
            Ok(b'a' + c)
        } else {
            Err(Refusal::Code)
        }
    }

    fn unit_length() -> usize {
        Self::UNIT
    }

    fn spell(s: u8) -> Result<[u8; 2], Refusal> {
        match s {
            b'a'..=b'z' => Ok([s, 0]),
            _ => Err(Refusal::Symbol),
        }
    }

    fn unspell(u: &[u8]) -> Result<u8, Refusal> {
        match u {
            [b @ b'a'..=b'z'] => Ok(*b),
            _ => Err(Refusal::Symbol),
        }
    }
}
