ghost use Rattle.std.specs.Prelude.{◌≡◌, ℕ, ◌≤◌, true, false, ◌&&◌};
ghost use Rattle.tables.specs.Masks.{mask_in, mask_at, has_place, joined, mask_of};

use tables::{Link, LinkRow, PlaceSet};

// Adds a link to each place of a set.
#[tactic(auto, using(tables::proofs::PastPlaces::has_place_past))]
pub(crate) fn join_row(row: &mut LinkRow, firsts: PlaceSet, link: Link)
    ensures { (q : ℕ) → mask_in row.new q ≡ joined (has_place firsts q) (mask_in row.old q) (mask_of link) }
{
    for (q, links) in row.to.iter_mut().enumerate() {
        if firsts.has(q) {
            *links = links.with(link);
        }
    }
}

// Adds a link from each place of one set to each place of another.
#[tactic(auto, using(tables::proofs::PastPlaces::has_place_past))]
pub(crate) fn join(rows: &mut [LinkRow; 65], lasts: PlaceSet, firsts: PlaceSet, link: Link)
    ensures { (p q : ℕ) → mask_at rows.new p q ≡ joined (has_place lasts p && has_place firsts q) (mask_at rows.old p q) (mask_of link) }
{
    for (p, row) in rows.iter_mut().enumerate() {
        if lasts.has(p) {
            join_row(row, firsts, link);
        }
    }
}
