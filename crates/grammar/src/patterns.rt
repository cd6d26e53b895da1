//! Pattern, branch, piece, atom and group: readers that call each other in a cycle.
ghost use Rattle.std.specs.Prelude.{◌≡◌, ◌+◌, ◌<◌, ◌≤◌, length};
ghost use Rattle.grammar.specs.Ast.{Ast};
ghost use Rattle.grammar.specs.Grammar.{byte, Pattern, Branch, Piece, Atom};
ghost use Rattle.grammar.specs.Nodes.{ast_of};
ghost use Rattle.grammar.specs.Reading.{Reads, Tells, AfterPattern, AfterBranch, AfterPiece, Anything};

use crate::bytes::Role;
use crate::makers::{alt, cat, repeat};
use crate::reader::Reader;
use crate::tree::Node;
use crate::units::letter_codes;
use alphabets::Alphabet;
use refusals::Refusal;
use std::alloc::Global;

impl<'a> Reader<'a> {
    /// Branches with `|` between, and the place after them.
    #[cycle(atom_branch_group_pattern_piece)]
    fn pattern(&self, at: usize) -> Result<(Node, usize), Refusal>
        requires { at ≤ length self.now.text.now }
        ensures { Reads Node Ast ast_of (Pattern self.now.unit) AfterPattern self.now.text.now at at result }
    {
        let (first, p) = self.branch(at)?;
        if self.next_is(p, b'|') {
            let (rest, q) = self.pattern(p + 1)?;
            Ok((alt(self.heap, first, rest)?, q))
        } else {
            Ok((first, p))
        }
    }

    /// Pieces up to a `|`, a `)` or the end of the text, and the place of that.
    #[cycle(atom_branch_group_pattern_piece)]
    fn branch(&self, at: usize) -> Result<(Node, usize), Refusal>
        requires { at ≤ length self.now.text.now }
        ensures { Reads Node Ast ast_of (Branch self.now.unit) AfterBranch self.now.text.now at at result }
    {
        match self.role(at) {
            Role::Stop => Ok((Node::Empty, at)),
            _ => {
                let (first, p) = self.piece(at)?;
                let (rest, q) = self.branch(p)?;
                Ok((cat(self.heap, first, rest)?, q))
            }
        }
    }

    /// An atom with at most one quantifier, and the place after them.
    #[cycle(atom_branch_group_pattern_piece)]
    fn piece(&self, at: usize) -> Result<(Node, usize), Refusal>
        requires { at < length self.now.text.now }
        ensures { Reads Node Ast ast_of (Piece self.now.unit) AfterPiece self.now.text.now (at + 1) at result }
    {
        let (body, p) = self.atom(at)?;
        match self.role(p) {
            Role::Quantifier => {
                let (times, q) = self.quantifier(p)?;
                match self.role(q) {
                    Role::Quantifier => Err(Refusal::Byte(q)),
                    _ => Ok((repeat(self.heap, body, times)?, q)),
                }
            }
            _ => Ok((body, p)),
        }
    }

    /// A unit, a class or a group, and the place after it.
    #[cycle(atom_branch_group_pattern_piece)]
    fn atom(&self, at: usize) -> Result<(Node, usize), Refusal>
        requires { at < length self.now.text.now }
        ensures { Reads Node Ast ast_of (Atom self.now.unit) Anything self.now.text.now (at + 1) at result }
    {
        match self.role(at) {
            Role::Group => self.group(at),
            Role::Class => self.class(at),
            Role::Letter => Ok((Node::Leaf(at, letter_codes(self.text[at])), at + 1)),
            Role::Tile => {
                let (codes, p) = self.tile(at)?;
                Ok((Node::Leaf(at, codes), p))
            }
            Role::Quantifier | Role::Stop | Role::Other => Err(Refusal::Byte(at)),
        }
    }

    /// A group from its `(` on, and the place after its `)`.
    #[cycle(atom_branch_group_pattern_piece)]
    fn group(&self, at: usize) -> Result<(Node, usize), Refusal>
        requires { (at < length self.now.text.now) × (byte self.now.text.now at ≡ 40) }
        ensures { Reads Node Ast ast_of (Atom self.now.unit) Anything self.now.text.now (at + 1) at result }
    {
        let (body, p) = self.pattern(at + 1)?;
        match self.byte(p) {
            Some(b')') => Ok((body, p + 1)),
            _ => Err(Refusal::End(p)),
        }
    }
}

/// The tree of a whole text.
pub fn read_tree(heap: Global, alphabet: Alphabet, text: &[u8]) -> Result<Node, Refusal>
    ensures { Tells alphabet text.now result }
{
    let reader = Reader {
        heap,
        unit: alphabet.unit_length(),
        text,
    };
    let (tree, p) = reader.pattern(0)?;
    if p < text.len() {
        Err(Refusal::Byte(p))
    } else {
        Ok(tree)
    }
}
