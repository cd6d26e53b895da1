ghost use Rattle.std.specs.Prelude.{ℕ, List};
ghost use Rattle.plans.specs.Plans.{RefusedText};
ghost use Rattle.symbols.specs.contracts.letters.LettersKind.TheImpl.{ghosts as letters};
ghost use Rattle.bit_bank.specs.contracts.calls.BitBankBank.TheImpl.{ghosts as bits};
ghost use Rattle.sessions.specs.Runs.{RightAt};
ghost use Rattle.alphabets.specs.declared.Alphabet.TheVariants.{Letters as InLetters};
ghost use Rattle.par_report.specs.Pars.{Judged, Reported};

use crate::data::{Par, ParError};
use banks::Bank;
use bit_bank::BitBank;
use input::two_lines;
use plans::Plan;
use refusals::Refusal;
use sessions::{Session, open};
use std::alloc::Global;
use symbols::Letters;

// Whether the row fits, and its need.
fn tell(session: &Session<Letters, BitBank>) -> Par
    ensures { (text row : List ℕ) → RightAt letters bits text row session.now → Judged text row (Ok result) }
{
    let mut area = [0; 4096];
    Par {
        fits: session.fits(),
        need: session.need(&mut area).ok(),
    }
}

// The refusal of a pattern; one without a place is want of memory.
// No `From`: only of a pattern's refusal does one without a place mean want of memory.
fn refuse(e: Refusal) -> ParError
    ensures { (text row : List ℕ) → RefusedText InLetters text e → Judged text row (Err result) }
{
    match e.place() {
        Some(place) => ParError::Refused {
            refusal: e,
            number: e.number(),
            place,
        },
        None => ParError::Memory,
    }
}

/// The par of a row in a pattern, or why one of them is refused. Memory is wanting only for a pattern of at most 512 bytes.
pub fn judge(heap: Global, pattern: &[u8], row: &[u8]) -> Result<Par, ParError>
    ensures { Judged pattern.now row.now result }
{
    let mut plan = Plan::<Letters>::new();
    plan.read(heap, pattern).map_err(refuse)?;
    let mut session = open(plan, BitBank::new());
    session.lay_row(row)?;
    Ok(tell(&session))
}

/// The par of the two lines of an input: a pattern, and the row so far.
pub fn report_par(heap: Global, input: &[u8]) -> Result<Par, ParError>
    ensures { Reported input.now result }
{
    let (pattern, row) = two_lines(input);
    judge(heap, pattern, row)
}
