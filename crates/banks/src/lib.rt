//! What holds the standing pairs of a session: the trait `Bank`.
//!
//! A bank means its widths and two sets of pairs (place, count), the front and the back, and says which sets it can hold.
//! `specs/Pairs.antt` has the sets, `specs/Meaning.antt` what a bank means and what each call does to that. The calls promise
//! it of a bank in standing; each bank names its states that are. A new bank is in standing, `start` gives such a bank whatever
//! stood before, and every other call keeps it. Any numbers may be passed to any call.
//!
//! A step over some bank `b`: `b.carry(3, 4, Raise::One)?; b.turn();`

#![tactic(auto)]

ghost use Rattle.std.specs.Prelude.{◌≡◌, ℕ};
ghost use Rattle.widths.specs.Width.{width_of};
ghost use Rattle.banks.specs.Pairs.{none, only, moved};
ghost use Rattle.banks.specs.Meaning.{Meaning, Facts, New, Started, Put, Looked, Turned, Dropped};
ghost use Rattle.banks.specs.Raises.{raise_by};

use refusals::Refusal;
use widths::Widths;

/// By how much a carry raises each count.
#[derive(Clone, Copy, PartialEq, Eq, Debug)]
pub enum Raise {
    /// The count stays.
    Nothing,
    /// The count is one more.
    One,
}

/// By how much a count is raised, as a number.
impl From<Raise> for u16 {
    ghost from_gives = { λ raise n. n ≡ raise_by raise };

    fn from(raise: Raise) -> u16 {
        match raise {
            Raise::Nothing => 0,
            Raise::One => 1,
        }
    }
}

/// What holds the standing pairs.
// By premise and not by an invariant that every bank has: a call may be made in any state, and each bank says which of its
// states the promises are of. A mask layer is in standing only where the bank below is, which no field of its own can say.
pub trait Bank: Drop {
    /// What a bank in each of its states means.
    ghost means: { Meaning Self };

    /// A bank in standing, with no widths and both sets empty.
    fn new() -> Self
        ensures { New means result };

    /// Takes a plan's widths. The bank is then in standing, its front is (0, 1) alone, its back is empty,
    /// and it can hold (0, 1) alone; what stood before does not matter.
    fn start(&mut self, plan: &Widths)
        ensures { Started means (width_of plan.now) self.new };

    /// Puts the pair (p, i) into the back, if it lies within the widths.
    fn add(&mut self, p: usize, i: u16) -> Result<(), Refusal>
        ensures { means.standing self.old → Put means (only p i) self.old result self.new };

    /// For each front count i at p puts (q, i), or (q, i + 1) where counts are raised, into the back, if it lies within the widths.
    fn carry(&mut self, p: usize, q: usize, raise: Raise) -> Result<(), Refusal>
        ensures { means.standing self.old → Put means (moved (means.front self.old) p q (raise_by raise)) self.old result self.new };

    /// Whether the front holds a count from `low` to `high` at p.
    fn look(&self, p: usize, low: u16, high: u16) -> bool
        ensures { means.standing self.now → Looked means p low high self.now result };

    /// Makes the back the front, and empties the back.
    fn turn(&mut self)
        ensures { means.standing self.old → Turned means self.old self.new };

    /// Empties the back.
    fn drop_back(&mut self)
        ensures { means.standing self.old → Dropped means self.old self.new };

    /// In standing, a bank can hold the empty set, and any subset of a set that it can hold.
    ghost facts: { Facts means };
}
