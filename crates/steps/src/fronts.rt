ghost use Rattle.std.specs.Prelude.{◌≡◌};
ghost use Rattle.widths.specs.Width.{width_of};
ghost use Rattle.banks.specs.Meaning.{Started};
ghost use Rattle.steps.specs.StepSet.{step_set};
ghost use Rattle.steps.specs.Gathered.{Ended};
ghost use Rattle.steps.specs.Fronts.{Fresh, Stepped, IsStep, TellsAccepting};

use crate::moves::{can_leave, gather};
use banks::Bank;
use refusals::Refusal;
use tables::Table;

// `Fresh` is a premise of what is promised, and no `requires` or type: a public call takes any bank and asks nothing of its callers.

/// Makes the step by a code: the front is then what the links give of it at the places that take the code, and the back is
/// empty. Refused with `Full` where the bank cannot hold the new front; the front then stays. All that is promised of a bank
/// in standing with the table's widths, a front within them and an empty back, as one is that was just started.
pub fn step<B: Bank>(table: &Table, bank: &mut B, code: u8) -> Result<(), Refusal>
    ensures answer { Fresh B.means table.now bank.old → Stepped B.means table.now code bank.old result bank.new }
    ensures relation { Fresh B.means table.now bank.old → IsStep table.now code (B.means.front bank.old) (step_set table.now code (B.means.front bank.old)) }
    ensures begins { (b : B) → Started B.means (width_of table.now.widths) b → Fresh B.means table.now b }
{
    let gathered = gather(table, bank, code);
    finish(bank, gathered)
}

// Ends a step by what gathering came to: turns the bank, or drops its back.
fn finish<B: Bank>(bank: &mut B, gathered: Result<(), Refusal>) -> Result<(), Refusal>
    ensures value { result ≡ gathered }
    ensures after { B.means.standing bank.old → Ended B.means gathered bank.old bank.new }
{
    match gathered {
        Ok(()) => bank.turn(),
        Err(_) => bank.drop_back(),
    }
    gathered
}

/// Whether some pair of the front accepts: (0, 1) where the pattern is nullable, or a count at a last from its low on.
pub fn accepts<B: Bank>(table: &Table, bank: &B) -> bool
    ensures { Fresh B.means table.now bank.now → TellsAccepting table.now (B.means.front bank.now) result }
{
    (table.is_nullable() && bank.look(0, 1, 1))
        || (1..table.places() + 1).any(|p| table.is_last(p) && can_leave(table, bank, p))
}
