use alphabets::Alphabet;
use bits::Set64;
use tables::Table;

/// What is told of a place.
#[derive(Drop)]
pub struct Place {
    /// Where it stands in the pattern: the first byte of its unit, or its `[`.
    pub byte: usize,
    /// The codes that it takes.
    pub codes: Set64,
    /// The body of a class that spells these codes.
    pub spelled: Vec<u8>,
    pub width: u16,
    pub low: u16,
    /// Whether it can take the first symbol of a row.
    pub first: bool,
    /// Whether it can take the last symbol of a row.
    pub last: bool,
}

/// What is told of a pattern that is accepted.
#[derive(Drop)]
pub struct Description<'a> {
    pub pattern: &'a [u8],
    pub kind: Alphabet,
    /// The links, and whether the pattern is nullable.
    pub table: Table,
    /// What the widths add to, the start's with them.
    pub counts: usize,
    /// The places in the order of the text; the first one has the number 1.
    pub places: Vec<Place>,
}
