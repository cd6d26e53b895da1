//! Worked examples of pattern texts: what is promised of reading, fronts, needs and refusals, seen on small cases.
//!
//! `specs/Examples.antt` holds them in one table. A line gives an alphabet, the text of a pattern and what is said of it:
//! the front after a row, that a row fits, how many symbols a row needs, that a row is stuck, or how the text is refused.
//! The definitions are those of the crates below: the grammar, the refusals, the language of a text and its fronts.
//! `worked_examples` does nothing but promise that every line holds, so that the crate is proved only with their proof.
//!
//! `worked_examples()` is 22.

#![tactic(auto)]

ghost use Rattle.std.specs.Prelude.{◌≡◌, length};
ghost use Rattle.worked_examples.specs.Examples.{table, ExamplesHold};

/// How many worked examples the table has; all of them hold.
pub fn worked_examples() -> usize
    ensures count { result ≡ length table }
    ensures hold { ExamplesHold }
{
    22
}
