ghost use Rattle.std.specs.Prelude.{◌≡◌, ℕ, ◌+◌, ◌≤◌, not, ◌&&◌, length, ◌==◌, nat_lt, slice_index_or};
ghost use Rattle.bits.specs.Members.{member};
ghost use Rattle.tables.specs.Masks.{no_set};
ghost use Rattle.tables.specs.Tables.{links_of};
ghost use Rattle.widths.specs.Width.{widths_of};

use crate::graph::Graph;
use bits::Set64;
use tables::Table;
use widths::Layout;

// The places that links lead to from p; k stands for the place k + 1.
fn targets_of(table: &Table, p: usize) -> Set64
    ensures { (k : ℕ) → member result k ≡ (nat_lt k table.now.places && not (links_of table.now p (k + 1) == 0)) }
{
    let mut targets = Set64::empty();
    for k in 0..table.places() {
        if !table.links(p, k + 1).is_empty() {
            targets = targets.union(Set64::only(k as u8));
        }
    }
    targets
}

// The targets of every place.
fn all_targets(table: &Table) -> [Set64; 65]
    ensures full { length result ≡ 65 }
    ensures each { (p k : ℕ) → p ≤ table.now.places → member (slice_index_or result p no_set) k ≡ (nat_lt k table.now.places && not (links_of table.now p (k + 1) == 0)) }
{
    let mut targets = [Set64::empty(); 65];
    for (p, target) in targets[..=table.places()].iter_mut().enumerate() {
        *target = targets_of(table, p);
    }
    targets
}

// The graph of a table.
pub(crate) fn graph_of(table: &Table) -> Graph<'_>
    ensures table { result.table.now ≡ table.now }
    ensures widths { widths_of result.layout ≡ table.now.widths }
{
    let layout = Layout::of(&table.widths());
    let targets = all_targets(table);
    Graph {
        table,
        layout,
        targets,
    }
}
