ghost use Rattle.std.specs.Prelude.{◌≡◌, ℕ, ◌<◌, Bool};
ghost use Rattle.automata.specs.Language.{Tree, empty, unit, cat, alt};
ghost use Rattle.glushkov.specs.Nodes.{body_inside, meeting, again, nullable_in};
ghost use Rattle.glushkov.specs.Passes.{PartOf};

use crate::data::Part;
use grammar::Times;
use tables::{Link, PlaceSet};

impl Part {
    // An empty branch.
    pub(crate) fn empty(offset: usize) -> Part
        ensures { PartOf empty offset result }
    {
        Part {
            upto: offset,
            nullable: true,
            firsts: PlaceSet::empty(),
            lasts: PlaceSet::empty(),
        }
    }

    // A unit or a class.
    pub(crate) fn one_place(offset: usize) -> Part
        requires { offset < 64 }
        ensures { (S : ℕ → Bool) → PartOf (unit S) offset result }
    {
        let place = PlaceSet::only(offset + 1);
        Part {
            upto: offset + 1,
            nullable: false,
            firsts: place,
            lasts: place,
        }
    }

    // This part, and then another.
    pub(crate) fn followed_by(self, other: Part) -> Part
        ensures { (s t : Tree) (o : ℕ) → PartOf s o self → PartOf t self.upto other → PartOf (cat s t) o result }
    {
        Part {
            upto: other.upto,
            nullable: self.nullable && other.nullable,
            firsts: if self.nullable {
                self.firsts.union(other.firsts)
            } else {
                self.firsts
            },
            lasts: if other.nullable {
                other.lasts.union(self.lasts)
            } else {
                other.lasts
            },
        }
    }

    // This part or another.
    pub(crate) fn or(self, other: Part) -> Part
        ensures { (s t : Tree) (o : ℕ) → PartOf s o self → PartOf t self.upto other → PartOf (alt s t) o result }
    {
        Part {
            upto: other.upto,
            nullable: self.nullable || other.nullable,
            firsts: self.firsts.union(other.firsts),
            lasts: self.lasts.union(other.lasts),
        }
    }
}

// The link of a meeting: within inside a counted repeat's body, else cross.
pub(crate) fn meeting_link(inside: bool) -> Link
    ensures { result ≡ meeting inside }
{
    if inside { Link::Within } else { Link::Cross }
}

// Whether a repeat's body lies inside a counted repeat.
pub(crate) fn inside_body(times: Times, inside: bool) -> bool
    ensures { result ≡ body_inside times inside }
{
    match times {
        Times::Star | Times::Plus | Times::Opt => inside,
        Times::Counted(_, _) => true,
    }
}

// The link from each last of a repeat's body to each first, if there is one.
pub(crate) fn link_again(times: Times, inside: bool) -> Option<Link>
    ensures { result ≡ again times inside }
{
    match times {
        Times::Star | Times::Plus => Some(meeting_link(inside)),
        Times::Opt => None,
        Times::Counted(_, _) => Some(Link::Next),
    }
}

// Whether a repeat is nullable, by whether its body is.
pub(crate) fn can_be_empty(times: Times, body: bool) -> bool
    ensures { result ≡ nullable_in times body }
{
    match times {
        Times::Star | Times::Opt => true,
        Times::Plus => body,
        Times::Counted(_, (low, _)) => low == 0 || body,
    }
}
