ghost use Rattle.std.specs.Prelude.{◌≡◌, ℕ, ◌^◌, not, bit_and, bit_or, ◌==◌};
ghost use Rattle.bits.specs.Bit.{bit};
ghost use Rattle.tables.specs.Masks.{mask_of, has_link};

use std::fmt;

/// A link from one place to another: what it does to a count there.
#[derive(Clone, Copy, PartialEq, Eq, Debug)]
pub enum Link {
    /// Count i goes to i.
    Within,
    /// Count i goes to i + 1, below the width.
    Next,
    /// Count i goes to 1, from the low on.
    Cross,
}

impl fmt::Display for Link {
    fn fmt<W: fmt::Write>(&self, f: &mut fmt::Formatter<W>) -> fmt::Result {
        f.write_str(match self {
            Link::Within => "within",
            Link::Next => "next",
            Link::Cross => "cross",
        })
    }
}

impl Link {
    // The mask of the link alone.
    fn mask(self) -> u8
        ensures { result ≡ mask_of self }
    {
        match self {
            Link::Within => 1,
            Link::Next => 2,
            Link::Cross => 4,
        }
    }
}

/// A set of links, kept as a mask: each link has a bit of its own.
#[derive(Clone, Copy, PartialEq, Eq, Debug)]
pub struct Links {
    pub mask: u8,
}

impl Links {
    /// No link.
    pub fn none() -> Links
        ensures { result.mask ≡ 0 }
    {
        Links { mask: 0 }
    }

    /// Whether there is no link.
    pub fn is_empty(self) -> bool
        ensures { result ≡ (self.mask == 0) }
    {
        self.mask == 0
    }

    /// Whether the link is among these.
    #[tactic(auto, using(crate::proofs::LinkBits::link_laws))]
    pub fn has(self, link: Link) -> bool
        ensures link { result ≡ has_link self.mask link }
        ensures value { result ≡ not (bit_and self.mask (mask_of link) == 0) }
        ensures bit { (k : ℕ) → mask_of link ≡ 2 ^ k → result ≡ bit self.mask k }
    {
        self.mask & link.mask() != 0
    }

    /// These links, and this one too.
    pub fn with(self, link: Link) -> Links
        ensures { result.mask ≡ bit_or self.mask (mask_of link) }
    {
        Links {
            mask: self.mask | link.mask(),
        }
    }
}
