//! One byte of the text: whether it is the one looked for, and what it means where an atom, a quantifier or the end may stand.
ghost use Rattle.std.specs.Prelude.{◌≡◌, ◌<◌, ◌≤◌, length, ◌==◌, MatchOption};
ghost use Rattle.grammar.specs.Grammar.{byte};
ghost use Rattle.grammar.specs.Reading.{Means};

use crate::reader::Reader;

/// What a byte means to the reader.
#[derive(Clone, Copy, PartialEq, Eq, Debug)]
pub(crate) enum Role {
    /// `(`
    Group,
    /// `[`
    Class,
    /// A letter or `.`, where a unit has one byte.
    Letter,
    /// A colour or `.`, where a unit has two bytes.
    Tile,
    /// `*`, `+`, `?` or `{`
    Quantifier,
    /// `|`, `)` or the end of the text: a branch is over.
    Stop,
    /// Any other byte.
    Other,
}

/// What a byte means.
// By the unit's length, as `Reader` says.
fn role_of(unit: usize, b: u8) -> Role
    ensures { Means unit b result }
{
    match b {
        b'(' => Role::Group,
        b'[' => Role::Class,
        b'|' | b')' => Role::Stop,
        b'*' | b'+' | b'?' | b'{' => Role::Quantifier,
        b'a'..=b'z' | b'.' if unit == 1 => Role::Letter,
        b'R' | b'G' | b'B' | b'Y' | b'.' if unit == 2 => Role::Tile,
        _ => Role::Other,
    }
}

impl<'a> Reader<'a> {
    /// The byte at a place; none from the end on.
    pub(crate) fn byte(&self, at: usize) -> Option<u8>
        ensures { MatchOption result ((length self.now.text.now ≤ at) × (byte self.now.text.now at ≡ 256))
            (λ b. (at < length self.now.text.now) × (byte self.now.text.now at ≡ b)) }
    {
        self.text.get(at).copied()
    }

    /// Whether the byte at a place is `b`; none is from the end on.
    pub(crate) fn next_is(&self, at: usize, b: u8) -> bool
        ensures { result ≡ (byte self.now.text.now at == b) }
    {
        self.byte(at) == Some(b)
    }

    /// What the byte at a place means, and the end of the text.
    pub(crate) fn role(&self, at: usize) -> Role
        ensures { Means self.now.unit (byte self.now.text.now at) result }
    {
        // By a match: the closure of a `map_or` would want a clause of its own.
        match self.byte(at) {
            Some(b) => role_of(self.unit, b),
            None => Role::Stop,
        }
    }
}
