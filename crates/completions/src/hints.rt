ghost use Rattle.std.specs.Prelude.{◌≡◌, ◌<◌, length, Err};
ghost use Rattle.refusals.specs.declared.Refusal.TheVariants.{Work};
ghost use Rattle.steps.specs.Fronts.{Fresh};
ghost use Rattle.completions.specs.Answers.{FullArea, Cleared, HintOf, Right, Tells};

use crate::area::measured;
use crate::nearest::Found;
use crate::towards::code_towards;
use banks::Bank;
use distances::Marks;
use refusals::Refusal;
use tables::Table;

// The code of a symbol with which a shortest way goes on from what was found.
fn hint_from(table: &Table, marks: &Marks, found: Option<Found>) -> Result<u8, Refusal>
    ensures { Tells HintOf table.now marks.now found result }
{
    let from = found.ok_or(Refusal::Stuck)?;
    if from.distance == 0 {
        return Err(Refusal::Complete);
    }
    code_towards(table, marks, from).ok_or(Refusal::Stuck)
}

/// The code of a symbol after which the need is smaller by one; or `Complete` where the row fits, or `Stuck` where no row completes it.
/// An area of fewer than 4,096 numbers is refused with `Work` and stays; else its first 4,096 are zero afterwards, and the rest stay.
pub fn hint_of<B: Bank>(table: &Table, bank: &B, area: &mut [u16]) -> Result<u8, Refusal>
    ensures area { Cleared area.old area.new }
    ensures short { length area.old < 4096 → result ≡ Err Work }
    ensures answer { FullArea area.old → Fresh B.means table.now bank.now → Right HintOf table.now (B.means.front bank.now) result }
{
    measured(
        table,
        bank,
        area,
        |marks: &Marks, found: Option<Found>|
            ensures { Tells HintOf table.entry.now marks.now found result }
        { hint_from(table, marks, found) },
    )
}
