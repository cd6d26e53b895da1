ghost use Rattle.std.specs.Prelude.{◌≡◌};
ghost use Rattle.std.specs.Iterator.{at_most};
ghost use Rattle.bits.specs.Passes.{PassesLeast};

use crate::set::Set64;

/// The members of a set, from the least up: those that are left.
#[derive(Clone, Copy, PartialEq, Eq, Debug)]
pub struct Iter {
    pub(crate) left: Set64,
}

impl Iterator for Iter {
    type Item = u8;

    ghost next_gives = { λ s r t. PassesLeast s.left r t.left };

    ghost remaining = { λ s. at_most s.left.bits };

    fn next(&mut self) -> Option<u8> {
        let n = self.left.least()?;
        self.left = self.left.remove(n);
        Some(n)
    }
}

impl IntoIterator for Set64 {
    type Item = u8;

    type IntoIter = Iter;

    ghost into_iter_gives = { λ s it. it.left ≡ s };

    fn into_iter(self) -> Iter {
        Iter { left: self }
    }
}
