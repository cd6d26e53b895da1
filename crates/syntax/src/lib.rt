//! Reads a pattern: its tree, or why it is refused.
//!
//! `parse` checks nine things in a fixed order over the whole text, and refuses by number and byte place:
//! 1 its length, 2 and 3 the grammar, 4 ranges that run backwards, 5 classes that spell no code, 6 wrong bounds,
//! 7 counted repeats inside one another, 8 too many places, 9 too many counts. What none of them refuses is accepted.
//! `specs/Refuses.antt` says when each refusal applies, `specs/TextLanguage.antt` what the language of a text is.
//! The main types are `grammar::Node`, the tree, `alphabets::Alphabet` and `refusals::Refusal`.
//!
//! `parse(heap, Alphabet::Letters, b"(a{2}){3}")` is `Err(Refusal::Nested(2))`.

#![tactic(auto)]

mod read;

pub use read::parse;
