ghost use Rattle.std.specs.Prelude.{◌≡◌};
ghost use Rattle.refusals.specs.Numbering.{number_of};
ghost use Rattle.par_report.specs.declared.data.ParError.TheVariants.{Refused};

use refusals::Refusal;
use symbol_rows::RowRefusal;
use thiserror::Error;

/// The par of a row: whether it fits, and the fewest letters that complete it, or `None` where it is stuck.
#[derive(Clone, Copy, PartialEq, Eq, Debug)]
pub struct Par {
    pub fits: bool,
    pub need: Option<u16>,
}

/// Why there is no par.
#[derive(Clone, Copy, PartialEq, Eq, Debug, Error)]
pub enum ParError {
    /// A refusal, its number and its place: the byte of the pattern, or the number of letters before the one that is none.
    // With its number: what prints it promises nothing, and only hands on what is proved here.
    #[error("refused {number} at {place}")]
    Refused {
        refusal: Refusal,
        number: u8,
        place: usize,
    },
    /// Want of memory.
    #[error("memory allocation failed")]
    Memory,
}

// By hand: the `From` that `#[from]` writes promises nothing.
impl From<RowRefusal> for ParError {
    ghost from_gives = { λ r e. e ≡ Refused r.refusal (number_of r.refusal) r.before };

    fn from(refused: RowRefusal) -> ParError {
        ParError::Refused {
            refusal: refused.refusal,
            number: refused.refusal.number(),
            place: refused.before,
        }
    }
}
