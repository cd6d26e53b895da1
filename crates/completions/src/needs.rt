ghost use Rattle.std.specs.Prelude.{◌≡◌, ◌<◌, length, Err};
ghost use Rattle.refusals.specs.declared.Refusal.TheVariants.{Work};
ghost use Rattle.steps.specs.Fronts.{Fresh};
ghost use Rattle.completions.specs.Answers.{FullArea, Cleared, NeedOf, Right};

use crate::area::measured;
use banks::Bank;
use refusals::Refusal;
use tables::Table;

/// The fewest symbols that complete the row whose front the bank has, 0 where it fits; or `Stuck` where no row completes it.
/// An area of fewer than 4,096 numbers is refused with `Work` and stays; else its first 4,096 are zero afterwards, and the rest stay.
pub fn need_of<B: Bank>(table: &Table, bank: &B, area: &mut [u16]) -> Result<u16, Refusal>
    ensures area { Cleared area.old area.new }
    ensures short { length area.old < 4096 → result ≡ Err Work }
    ensures answer { FullArea area.old → Fresh B.means table.now bank.now → Right NeedOf table.now (B.means.front bank.now) result }
{
    measured(table, bank, area, |_, found| {
        found.map(|pair| pair.distance).ok_or(Refusal::Stuck)
    })
}
