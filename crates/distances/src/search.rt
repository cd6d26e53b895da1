ghost use Rattle.std.specs.Prelude.{◌≡◌, ◌<◌, ◌≤◌, length, MatchResult};
ghost use Rattle.refusals.specs.declared.Refusal.TheVariants.{Work};
ghost use Rattle.distances.specs.Marks.{Measured, MeasuredOnce};

use crate::build::graph_of;
use refusals::Refusal;
use tables::Table;

/// Fills the area with the mark of every pair: its distance to a pair that accepts plus one, or 0 where there is no path to one.
/// What the area held does not matter; its numbers from 4,096 on stay. Refused with `Work`, and the area stays as it is, where it has
/// fewer than 4,096 numbers.
pub fn measure(table: &Table, area: &mut [u16]) -> Result<(), Refusal>
    ensures answer { MatchResult result (λ _. (4096 ≤ length area.old) × Measured table.now area.old area.new) (λ e. (e ≡ Work) × (length area.old < 4096) × (area.new ≡ area.old)) }
    ensures unique { MeasuredOnce }
{
    let marks = area.first_chunk_mut::<4096>().ok_or(Refusal::Work)?;
    marks.fill(0);
    graph_of(table).settle(marks);
    Ok(())
}
