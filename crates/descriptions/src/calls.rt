ghost use Rattle.std.specs.Prelude.{◌≡◌, length, IfOk, vec_len, MatchResult};
ghost use Rattle.grammar.specs.Nodes.{ast_of};
ghost use Rattle.plans.specs.Plans.{RefusedText};
ghost use Rattle.checks.specs.Faults.{places_of};
ghost use Rattle.syntax.specs.Refuses.{Accepted};
ghost use Rattle.descriptions.specs.Describes.{Describes};
ghost use Rattle.descriptions.specs.Told.{EachTold};

use crate::data::{Description, Place};
use crate::places::{counts_used, places_at};
use crate::starts::push_starts;
use alphabets::Alphabet;
use glushkov::table_of;
use grammar::Node;
use refusals::Refusal;
use std::alloc::{AllocError, Global};
use syntax::parse;
use tables::Table;

// What is told of each place of a tree.
fn places_of(
    heap: Global,
    kind: Alphabet,
    node: &Node,
    table: &Table,
) -> Result<Vec<Place>, AllocError>
    ensures { IfOk result (λ v. (vec_len v ≡ length (places_of (ast_of node.now))) × EachTold kind table.now (places_of (ast_of node.now)) v.items (vec_len v)) }
{
    let mut starts = Vec::new(heap);
    push_starts(node, &mut starts)?;
    places_at(heap, kind, table, starts.as_slice())
}

// Describes an accepted pattern by its tree; it is refused only for want of memory.
fn describe_tree<'a>(
    heap: Global,
    kind: Alphabet,
    pattern: &'a [u8],
    node: &Node,
) -> Result<Description<'a>, Refusal>
    requires { Accepted kind pattern.now (ast_of node.now) }
    ensures { MatchResult result (λ d. Describes kind pattern.now d) (λ e. RefusedText kind pattern.now e) }
{
    let table = table_of(node).unwrap();
    let places = places_of(heap, kind, node, &table)?;
    let counts = counts_used(&table);
    Ok(Description {
        pattern,
        kind,
        table,
        counts,
        places,
    })
}

/// Describes a pattern of this kind, or says why it is refused.
pub fn describe<'a>(
    heap: Global,
    kind: Alphabet,
    pattern: &'a [u8],
) -> Result<Description<'a>, Refusal>
    ensures { MatchResult result (λ d. Describes kind pattern.now d) (λ e. RefusedText kind pattern.now e) }
{
    let node = parse(heap, kind, pattern)?;
    describe_tree(heap, kind, pattern, &node)
}
