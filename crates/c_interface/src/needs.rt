ghost use Rattle.std.specs.Prelude.{ℕ, List, MatchResult};
ghost use Rattle.par_report.specs.Pars.{IsAccepted};
ghost use Rattle.sessions.specs.RowLanguage.{NeedIs};
ghost use Rattle.c_interface.specs.Told.{NoNeed};
ghost use Rattle.symbols.specs.contracts.letters.LettersKind.TheImpl.{ghosts as letters};
ghost use Rattle.bit_bank.specs.contracts.calls.BitBankBank.TheImpl.{ghosts as bits};
ghost use Rattle.completions.specs.Answers.{FullArea};
ghost use Rattle.sessions.specs.Sessions.{StandsOn, NeedTold};

use banks::Bank;
use bit_bank::BitBank;
use refusals::Refusal;
use sessions::{Session, open_on};
use std::alloc::Global;
use symbols::Letters;

// The need of the row, asked for once and then so many times again.
fn need_again(
    session: &Session<Letters, BitBank>,
    area: &mut [u16],
    again: u32,
) -> Result<u16, Refusal>
    ensures { FullArea area.old → (text row : List ℕ) → StandsOn letters bits text row session.now → NeedTold letters text row result }
{
    let need = session.need(area);
    for _ in 0..again {
        let _ = session.need(area);
    }
    need
}

// The need of a row in a pattern, asked for once and then so many times again; or why there is none.
pub(crate) fn need_of_row(
    heap: Global,
    pattern: &[u8],
    row: &[u8],
    again: u32,
) -> Result<u16, Refusal>
    ensures { MatchResult result (λ n. IsAccepted pattern.now × NeedIs letters pattern.now row.now n) (λ _. NoNeed pattern.now row.now) }
{
    let mut session = open_on(heap, pattern, BitBank::new())?;
    session.lay_row(row).map_err(|e| e.refusal)?;
    let mut area = [0; 4096];
    need_again(&session, &mut area, again)
}
