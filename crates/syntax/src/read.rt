//! A pattern, read and checked.
ghost use Rattle.syntax.specs.Refuses.{Parses};

use alphabets::Alphabet;
use checks::check;
use grammar::{Node, read_tree};
use refusals::Refusal;
use std::alloc::Global;

/// The most bytes that a pattern may have.
const LONGEST: usize = 512;

/// The tree of a pattern that no check refuses; else the refusal, or `Memory` for want of memory.
pub fn parse(heap: Global, alphabet: Alphabet, text: &[u8]) -> Result<Node, Refusal>
    ensures { Parses alphabet text.now result }
{
    if text.len() > LONGEST {
        return Err(Refusal::Length);
    }
    let tree = read_tree(heap, alphabet, text)?;
    check(&tree)?;
    Ok(tree)
}
