//! The codes that a unit spells.
ghost use Rattle.std.specs.Prelude.{◌≡◌, ℕ, ◌+◌, ◌*◌, ◌<◌, ◌≤◌, ◌&&◌, length, IfSome, IfOk, MatchResult, nat_le, nat_lt};
ghost use Rattle.alphabets.specs.Colours.{number_of};
ghost use Rattle.bits.specs.Members.{member};
ghost use Rattle.grammar.specs.Codes.{Codes, LetterUnit, ColourUnit, FaceUnit, codes_of_letter, codes_of_tile};
ghost use Rattle.grammar.specs.Grammar.{OneUnit, byte};
ghost use Rattle.grammar.specs.Reading.{Reads, Anything, colour_byte, face_byte, Lacks};

use crate::reader::Reader;
use alphabets::Colour;
use bits::Set64;
use refusals::Refusal;

/// What a letter or `.` spells.
pub(crate) fn letter_codes(b: u8) -> Set64
    requires { LetterUnit b }
    ensures { member result ≡ codes_of_letter b }
{
    match b {
        b'.' => Set64::below(26),
        _ => Set64::only(b - b'a'),
    }
}

/// The codes of a colour's ten tiles.
pub fn colour_codes(colour: Colour) -> Set64
    ensures { (c : ℕ) → member result c ≡ (nat_le (10 * number_of colour) c && nat_lt c (10 * number_of colour + 10)) }
{
    let first = 10 * colour.number();
    Set64::span(first, first + 9)
}

/// What a colour and a face spell; none leaves that half open.
fn tile_codes(colour: Option<Colour>, face: Option<u8>) -> Set64
    requires { IfSome face (λ f. f < 10) }
    ensures { member result ≡ codes_of_tile (colour_byte colour) (face_byte face) }
{
    match (colour, face) {
        (None, None) => Set64::below(40),
        (Some(colour), None) => colour_codes(colour),
        (None, Some(face)) => Set64::only(face)
            .union(Set64::only(face + 10))
            .union(Set64::only(face + 20))
            .union(Set64::only(face + 30)),
        (Some(colour), Some(face)) => Set64::only(10 * colour.number() + face),
    }
}

impl<'a> Reader<'a> {
    /// The colour in the first half of a tile's unit; none where that is `.`.
    // `colour` and `face` are two: the clause of each names its bytes.
    fn colour(&self, at: usize) -> Result<Option<Colour>, Refusal>
        requires { at ≤ length self.now.text.now }
        ensures { MatchResult result (λ c. byte self.now.text.now at ≡ colour_byte c) (λ e. Lacks ColourUnit self.now.text.now at e) }
    {
        match self.byte(at) {
            None => Err(Refusal::End(at)),
            Some(b'.') => Ok(None),
            Some(b) => Colour::try_from(b).map(Some).map_err(|_| Refusal::Byte(at)),
        }
    }

    /// The face in the second half of a tile's unit; none where that is `.`.
    fn face(&self, at: usize) -> Result<Option<u8>, Refusal>
        requires { at ≤ length self.now.text.now }
        ensures { MatchResult result (λ f. (byte self.now.text.now at ≡ face_byte f) × IfSome f (λ n. n < 10)) (λ e. Lacks FaceUnit self.now.text.now at e) }
    {
        match self.byte(at) {
            None => Err(Refusal::End(at)),
            Some(b'.') => Ok(None),
            Some(d @ b'0'..=b'9') => Ok(Some(d - b'0')),
            Some(_) => Err(Refusal::Byte(at)),
        }
    }

    /// A tile's unit, and the place after it.
    pub(crate) fn tile(&self, at: usize) -> Result<(Set64, usize), Refusal>
        requires { (self.now.unit ≡ 2) × (at < length self.now.text.now) }
        ensures { Reads Set64 Codes member (OneUnit self.now.unit) Anything self.now.text.now (at + 1) at result }
    {
        let colour = self.colour(at)?;
        let face = self.face(at + 1)?;
        Ok((tile_codes(colour, face), at + 2))
    }
}
