//! A class, `[body]` or `[^body]`.
ghost use Rattle.std.specs.Prelude.{◌≡◌, ℕ, ◌+◌, ◌<◌, ◌≤◌, length, Option as Maybe, ◌≢◌};
ghost use Rattle.grammar.specs.Ast.{Ast};
ghost use Rattle.bits.specs.Members.{member};
ghost use Rattle.grammar.specs.Codes.{Codes, Letter, codes_of, codes_of_range, joined_codes};
ghost use Rattle.grammar.specs.Grammar.{byte, back_of, Body, Atom};
ghost use Rattle.grammar.specs.Nodes.{ast_of, spelled};
ghost use Rattle.grammar.specs.Reading.{Reads, AfterBody, Anything};

use crate::reader::Reader;
use crate::tree::Node;
use crate::units::letter_codes;
use bits::Set64;
use refusals::Refusal;

/// What the body of a class spells.
#[derive(Clone, Copy)]
pub(crate) struct Spelled {
    codes: Set64,
    /// The first letter of its first range that runs backwards.
    back: Option<usize>,
}

impl Spelled {
    /// These codes, and then what was spelled.
    fn after(self, first: Set64) -> Spelled
        ensures { spelled result ≡ (joined_codes (member first) (member self.codes), self.back) }
    {
        Spelled {
            codes: first.union(self.codes),
            back: self.back,
        }
    }

    /// The range between two letters, the first of which stands at a place, and then what was spelled.
    fn after_range(self, at: usize, from: u8, to: u8) -> Spelled
        requires { Letter from × Letter to }
        ensures { spelled result ≡ (joined_codes (codes_of_range from to) (member self.codes), back_of at from to self.back) }
    {
        Spelled {
            codes: Set64::span(from - b'a', to - b'a').union(self.codes),
            back: if to < from { Some(at) } else { self.back },
        }
    }
}

impl<'a> Reader<'a> {
    /// The body of a class up to its `]`: what it spells, and the place of the `]`.
    #[cycle(body_letters_tiles)]
    fn body(&self, at: usize) -> Result<(Spelled, usize), Refusal>
        requires { at ≤ length self.now.text.now }
        ensures { Reads Spelled (Codes × Maybe ℕ) spelled (Body self.now.unit) AfterBody self.now.text.now at at result }
    {
        let first = self.byte(at).ok_or(Refusal::End(at))?;
        match first {
            b']' => {
                let nothing = Spelled {
                    codes: Set64::empty(),
                    back: None,
                };
                Ok((nothing, at))
            }
            // By the unit's length, as `Reader` says.
            _ if self.unit == 2 => self.tiles(at),
            b'a'..=b'z' => self.letters(at, first),
            _ => Err(Refusal::Byte(at)),
        }
    }

    /// A letter or a range from that letter on, and the rest of the body.
    #[cycle(body_letters_tiles)]
    fn letters(&self, at: usize, from: u8) -> Result<(Spelled, usize), Refusal>
        requires { (self.now.unit ≡ 1) × (byte self.now.text.now at ≡ from) × Letter from }
        ensures { Reads Spelled (Codes × Maybe ℕ) spelled (Body self.now.unit) AfterBody self.now.text.now at at result }
    {
        if !self.next_is(at + 1, b'-') {
            let (rest, p) = self.body(at + 1)?;
            return Ok((rest.after(letter_codes(from)), p));
        }
        let to = self.byte(at + 2).ok_or(Refusal::End(at + 2))?;
        match to {
            b'a'..=b'z' => {
                let (rest, p) = self.body(at + 3)?;
                Ok((rest.after_range(at, from, to), p))
            }
            _ => Err(Refusal::Byte(at + 2)),
        }
    }

    /// A tile's unit, and the rest of the body.
    #[cycle(body_letters_tiles)]
    fn tiles(&self, at: usize) -> Result<(Spelled, usize), Refusal>
        requires { (self.now.unit ≡ 2) × (at < length self.now.text.now) × (byte self.now.text.now at ≢ 93) }
        ensures { Reads Spelled (Codes × Maybe ℕ) spelled (Body self.now.unit) AfterBody self.now.text.now at at result }
    {
        let (first, k) = self.tile(at)?;
        let (rest, p) = self.body(k)?;
        Ok((rest.after(first), p))
    }

    /// How many codes there are, by the length of a unit, as `Reader` says.
    fn code_count(&self) -> u8
        ensures { result ≡ codes_of self.now.unit }
    {
        if self.unit == 1 { 26 } else { 40 }
    }

    /// A class from its `[` on, and the place after its `]`.
    pub(crate) fn class(&self, at: usize) -> Result<(Node, usize), Refusal>
        requires { (at < length self.now.text.now) × (byte self.now.text.now at ≡ 91) }
        ensures { Reads Node Ast ast_of (Atom self.now.unit) Anything self.now.text.now (at + 1) at result }
    {
        if self.next_is(at + 1, b'^') {
            let (body, p) = self.body(at + 2)?;
            let codes = body.codes.complement(self.code_count());
            return Ok((Node::Class(at, codes, body.back), p + 1));
        }
        let (body, p) = self.body(at + 1)?;
        Ok((Node::Class(at, body.codes, body.back), p + 1))
    }
}
