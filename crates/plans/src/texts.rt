ghost use Rattle.std.specs.Prelude.{[], MatchResult};
ghost use Rattle.plans.specs.Made.{TableFrom};
ghost use Rattle.plans.specs.Plans.{RefusedText};

use alphabets::Alphabet;
use glushkov::table_of;
use grammar::Node;
use refusals::Refusal;
use std::alloc::Global;
use syntax::parse;
use tables::Table;

// The table of a text, or why the text is refused.
pub(crate) fn text_table(heap: Global, alphabet: Alphabet, text: &[u8]) -> Result<Table, Refusal>
    ensures { MatchResult result (λ t. TableFrom alphabet text.now t) (λ e. RefusedText alphabet text.now e) }
{
    let node = parse(heap, alphabet, text)?;
    Ok(table_of(&node).unwrap())
}

// The table of the empty pattern.
pub(crate) fn empty_table() -> Table
    ensures letters { TableFrom Alphabet.Letters [] result }
    ensures tiles { TableFrom Alphabet.Tiles [] result }
{
    table_of(&Node::Empty).unwrap()
}
