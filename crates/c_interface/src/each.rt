ghost use Rattle.std.specs.Prelude.{ℕ, List, []};
ghost use Rattle.symbols.specs.contracts.letters.LettersKind.TheImpl.{ghosts as letters};
ghost use Rattle.bit_bank.specs.contracts.calls.BitBankBank.TheImpl.{ghosts as bits};
ghost use Rattle.sessions.specs.Sessions.{StandsOn};
ghost use Rattle.c_interface.specs.Told.{FitsTold};

use bit_bank::BitBank;
use sessions::Session;
use symbols::Letters;

// Lays letters one after another, and writes after each whether the row fits.
pub(crate) fn fits_each(
    session: &mut Session<Letters, BitBank>,
    row: &[u8],
    fits: &mut [u8],
) -> usize
    ensures { (text : List ℕ) → StandsOn letters bits text [] session.old → FitsTold text row.now fits.old fits.new result }
{
    // By the index, which is the answer; `fits` is C's, with a length of its own.
    for (i, letter) in row.iter().enumerate() {
        if i >= fits.len() {
            return i;
        }
        if session.lay(*letter).is_err() {
            return i;
        }
        let yes = session.fits();
        fits[i] = u8::from(yes);
    }
    row.len()
}
