//! The quantifier after an atom: `*`, `+`, `?`, `{m}` or `{m,n}`.
ghost use Rattle.std.specs.Prelude.{◌≡◌, ℕ, ◌+◌, ◌<◌, ◌≤◌, length};
ghost use Rattle.grammar.specs.Ast.{Repetition};
ghost use Rattle.grammar.specs.Codes.{Digit};
ghost use Rattle.grammar.specs.Grammar.{byte, Digits, Number, Bound, Quantifier};
ghost use Rattle.grammar.specs.Nodes.{repetition_of};
ghost use Rattle.grammar.specs.Reading.{Reads, AfterNumber, Anything, QuantifierByte};

use crate::reader::Reader;
use crate::tree::Times;
use refusals::Refusal;

impl<'a> Reader<'a> {
    /// A number of one to four digits, and the place after it, at which a `,` or a `}` stands.
    fn number(&self, at: usize) -> Result<(u16, usize), Refusal>
        requires { at ≤ length self.now.text.now }
        ensures { Reads ℕ ℕ (λ x. x) Number AfterNumber self.now.text.now (at + 1) at result }
    {
        let d = match self.byte(at) {
            None => return Err(Refusal::End(at)),
            Some(d @ b'0'..=b'9') => d,
            Some(_) => return Err(Refusal::Byte(at)),
        };
        let (n, p) = self.digits(at + 1, 3, u16::from(d - b'0'));
        match self.byte(p) {
            None => Err(Refusal::End(p)),
            Some(b',' | b'}') => Ok((n, p)),
            Some(_) => Err(Refusal::Byte(p)),
        }
    }

    /// The number that `so_far` grows to as at most `more` further digits pass, and the place after them.
    #[tactic(auto, using(crate::specs::Grammar::done))]
    fn digits(&self, at: usize, more: u8, so_far: u16) -> (u16, usize)
        requires { (at ≤ length self.now.text.now) × (more ≤ 3) × (so_far < 10000) × (0 < more → so_far < 1000) × (1 < more → so_far < 100) × (2 < more → so_far < 10) }
        ensures inside { (at ≤ result.1) × (result.1 ≤ length self.now.text.now) }
        ensures derives { Digits self.now.text.now more so_far at result.1 result.0 }
        ensures full { Digit (byte self.now.text.now result.1) → result.1 ≡ at + more }
    {
        match self.byte(at) {
            Some(d @ b'0'..=b'9') if more > 0 => self.digits(
                at + 1,
                more - 1,
                so_far * 10 + u16::from(d - b'0'),
            ),
            _ => (so_far, at),
        }
    }

    /// A bound from its `{` on: its low and its high together, and the place after its `}`.
    fn bound(&self, at: usize) -> Result<((u16, u16), usize), Refusal>
        requires { (at < length self.now.text.now) × (byte self.now.text.now at ≡ 123) }
        ensures { Reads (ℕ × ℕ) (ℕ × ℕ) (λ x. x) Bound Anything self.now.text.now (at + 1) at result }
    {
        let (low, p) = self.number(at + 1)?;
        if self.next_is(p, b'}') {
            return Ok(((low, low), p + 1));
        }
        let (high, q) = self.number(p + 1)?;
        if self.next_is(q, b'}') {
            Ok(((low, high), q + 1))
        } else {
            Err(Refusal::Byte(q))
        }
    }

    /// A quantifier, and the place after it.
    pub(crate) fn quantifier(&self, at: usize) -> Result<(Times, usize), Refusal>
        requires { QuantifierByte (byte self.now.text.now at) }
        ensures { Reads Times Repetition repetition_of Quantifier Anything self.now.text.now (at + 1) at result }
    {
        match self.byte(at) {
            Some(b'*') => Ok((Times::Star, at + 1)),
            Some(b'+') => Ok((Times::Plus, at + 1)),
            Some(b'?') => Ok((Times::Opt, at + 1)),
            _ => {
                let (bounds, p) = self.bound(at)?;
                Ok((Times::Counted(at, bounds), p))
            }
        }
    }
}
