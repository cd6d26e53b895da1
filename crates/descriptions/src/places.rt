ghost use Rattle.std.specs.Prelude.{◌≡◌, length, IfOk, vec_len};
ghost use Rattle.automata.specs.Language.{Tree};
ghost use Rattle.checks.specs.Widths.{widths_of};
ghost use Rattle.tables.specs.Tables.{TableOf};
ghost use Rattle.descriptions.specs.Told.{Told, EachTold};

use crate::data::Place;
use alphabets::Alphabet;
use class_bodies::class_body;
use std::alloc::{AllocError, Global};
use tables::{Link, Table};

// What the widths of all places add to, the start's with them.
pub(crate) fn counts_used(table: &Table) -> usize
    ensures { (e : Tree) → TableOf e table.now → result ≡ widths_of e }
{
    (0..table.places() + 1)
        .map(|p| usize::from(table.width_at(p)))
        .sum()
}

// What the table says of the place p, which stands at this byte.
// Heap, kind and table are handed on singly: in a struct, each clause would read kind and table through it.
fn place_at(
    heap: Global,
    kind: Alphabet,
    table: &Table,
    p: usize,
    byte: usize,
) -> Result<Place, AllocError>
    ensures { IfOk result (λ x. Told kind table.now p byte x) }
{
    let codes = table.codes_at(p);
    Ok(Place {
        byte,
        codes,
        spelled: class_body(heap, kind, codes)?,
        width: table.width_at(p),
        low: table.low_at(p),
        first: table.links(0, p).has(Link::Cross),
        last: table.is_last(p),
    })
}

// What the table says of every place, each with the byte where it stands.
pub(crate) fn places_at(
    heap: Global,
    kind: Alphabet,
    table: &Table,
    starts: &[usize],
) -> Result<Vec<Place>, AllocError>
    ensures { IfOk result (λ v. (vec_len v ≡ length starts.now) × EachTold kind table.now starts.now v.items (vec_len v)) }
{
    let mut places = Vec::new(heap);
    for (i, byte) in starts.iter().enumerate() {
        places.push(place_at(heap, kind, table, i + 1, *byte)?)?;
    }
    Ok(places)
}
