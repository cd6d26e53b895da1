ghost use Rattle.std.specs.Prelude.{◌≡◌, ℕ, suc, ◌+◌, ◌≤◌, ◌&&◌, ◌==◌};
ghost use Rattle.automata.specs.Language.{Tree, WellFormed, NoEmptySet};
ghost use Rattle.automata.specs.Distances.{Inside, Labelled};
ghost use Rattle.tables.specs.Tables.{TableOf};
ghost use Rattle.distances.specs.Marks.{mark_of};
ghost use Rattle.completions.specs.Towards.{leading, Towards};

use crate::nearest::Found;
use distances::Marks;
use tables::{Link, Table};

// Whether a link leads from a pair to one at q that is one nearer.
fn leads(table: &Table, marks: &Marks, from: Found, q: usize) -> bool
    ensures { result ≡ leading table.now (mark_of marks.now) from.place from.count q from.distance }
{
    let links = table.links(from.place, q);
    let is_nearer = |j| marks.at(q, j) == from.distance;
    links.has(Link::Within) && is_nearer(from.count)
        || links.has(Link::Next)
            && from.count < table.width_at(from.place)
            && is_nearer(from.count + 1)
        || links.has(Link::Cross) && table.low_at(from.place) <= from.count && is_nearer(1)
}

// The least code of a place that a link leads to from a pair, with one less as its distance; `None` where there is none.
pub(crate) fn code_towards(table: &Table, marks: &Marks, from: Found) -> Option<u8>
    ensures { (e : Tree) → WellFormed e → NoEmptySet e → TableOf e table.now → Labelled e (mark_of marks.now) → Inside e from.place from.count → 1 ≤ from.distance → mark_of marks.now from.place from.count ≡ suc from.distance → Towards e (mark_of marks.now) from result }
{
    let q = (1..table.places() + 1).find(|q| leads(table, marks, from, *q))?;
    table.codes_at(q).least()
}
