ghost use Rattle.std.specs.Prelude.{◌≡◌, ℕ, suc, ◌+◌};
ghost use Rattle.automata.specs.Language.{Tree};
ghost use Rattle.tables.specs.Tables.{TableOf};
ghost use Rattle.distances.specs.Marks.{mark_of};
ghost use Rattle.steps.specs.Fronts.{Fresh};
ghost use Rattle.completions.specs.Nearest.{before, improving, LeastMark};

use banks::Bank;
use distances::Marks;
use tables::Table;

// Table, bank and marks go side by side, and what is known of them is a premise, as in `steps`.

// A pair of the front, and its distance to a pair that accepts.
#[derive(Clone, Copy)]
pub(crate) struct Found {
    pub(crate) place: usize,
    pub(crate) count: u16,
    pub(crate) distance: u16,
}

// Whether a pair with this distance is nearer than what was found before.
fn improves(old: Option<Found>, distance: u16) -> bool
    ensures { result ≡ improving old (suc distance) }
{
    old.is_none_or(|found| distance < found.distance)
}

// The nearer of what was found before and the pair (p, i), if it stands.
fn nearer<B: Bank>(bank: &B, marks: &Marks, p: usize, i: u16, old: Option<Found>) -> Option<Found>
    ensures { B.means.standing bank.now → LeastMark (mark_of marks.now) (before (B.means.front bank.now) p i) old → LeastMark (mark_of marks.now) (before (B.means.front bank.now) p (i + 1)) result }
{
    let Some(distance) = marks.distance(p, i) else {
        return old;
    };
    if improves(old, distance) && bank.look(p, i, i) {
        return Some(Found {
            place: p,
            count: i,
            distance,
        });
    }
    old
}

// The nearer of what was found before and the pairs that stand at p.
fn nearest_at<B: Bank>(
    table: &Table,
    bank: &B,
    marks: &Marks,
    p: usize,
    old: Option<Found>,
) -> Option<Found>
    ensures { Fresh B.means table.now bank.now → LeastMark (mark_of marks.now) (before (B.means.front bank.now) p 1) old → LeastMark (mark_of marks.now) (before (B.means.front bank.now) (p + 1) 1) result }
{
    let width = table.width_at(p);
    let mut best = old;
    if bank.look(p, 1, width) {
        for i in 1..=width {
            best = nearer(bank, marks, p, i, best);
        }
    }
    best
}

// The pair of the front with the least mark, 0 apart.
pub(crate) fn nearest<B: Bank>(table: &Table, bank: &B, marks: &Marks) -> Option<Found>
    ensures { (e : Tree) → TableOf e table.now → Fresh B.means table.now bank.now → LeastMark (mark_of marks.now) (B.means.front bank.now) result }
{
    let mut best = None;
    for p in 0..=table.places() {
        best = nearest_at(table, bank, marks, p, best);
    }
    best
}
