ghost use Rattle.std.specs.Prelude.{◌≡◌, ◌<◌, length, Err, Option};
ghost use Rattle.std.specs.Fn.{FnOnceReturnsAt};
ghost use Rattle.refusals.specs.declared.Refusal.TheVariants.{Work};
ghost use Rattle.steps.specs.Fronts.{Fresh};
ghost use Rattle.completions.specs.Answers.{FullArea, Cleared, Told};

use crate::nearest::{Found, nearest};
use banks::Bank;
use distances::{Marks, measure, wipe};
use refusals::Refusal;
use tables::Table;

// What is told of the marks and the pair of the front that is nearest. The distances are measured in the lent area, which is made zero
// again afterwards; a short one is refused and stays.
pub(crate) fn measured<B: Bank, T, F: FnOnce(&Marks, Option<Found>) -> Result<T, Refusal> + Drop>(
    table: &Table,
    bank: &B,
    area: &mut [u16],
    tell: F,
) -> Result<T, Refusal>
    requires { F.IsAlwaysCallable tell }
    ensures area { Cleared area.old area.new }
    ensures short { length area.old < 4096 → result ≡ Err Work }
    ensures told { FullArea area.old → Fresh B.means table.now bank.now → Told table.now (B.means.front bank.now) (λ marks found. F.post tell marks found result) }
{
    measure(table, area)?;
    let marks = Marks::of(&table.widths(), area);
    let found = nearest(table, bank, &marks);
    let told = tell(&marks, found);
    wipe(area);
    told
}
