//! One text for every bank: generic code over `Bank`, used at each bank and at mask layers over them, and tests of all.
//!
//! `pass` makes a move and turns, or leaves the front where the bank cannot hold the new one; its contract is proved once, from
//! the trait alone. `start_and_pass` starts a bank and passes (0, 1) on; `first_pass` tells whether it arrives. The tests run
//! scripts of calls, with the answers worked by hand from the rules, at the bit bank, the list bank, and mask layers over each
//! and over a mask layer.
//!
//! `first_pass::<ListBank>(&widths, 1, Raise::Nothing)` is `Ok(true)` where place 1 has a width.

#![tactic(auto)]

ghost use Rattle.std.specs.Prelude.{◌≡◌, ◌+◌, MatchResult, nat_le};
ghost use Rattle.refusals.specs.declared.Refusal.TheVariants.{Full};
ghost use Rattle.widths.specs.Width.{width_of};
ghost use Rattle.banks.specs.Raises.{raise_by};
ghost use Rattle.bank_suite.specs.Pass.{Passed, Begun};

use banks::{Bank, Raise};
use refusals::Refusal;
use widths::Widths;

#[cfg(test)]
mod tests;

/// Carries from p to q and turns; where the bank cannot hold the new front, the front stays and the back is emptied.
// Turns or drops the back itself, as `steps` does too: the suite proves it from the trait alone.
pub fn pass<B: Bank>(bank: &mut B, p: usize, q: usize, raise: Raise) -> Result<(), Refusal>
    ensures { B.Bank.means.standing bank.old → Passed B.Bank.means p q (raise_by raise) bank.old result bank.new }
{
    match bank.carry(p, q, raise) {
        Ok(()) => {
            bank.turn();
            Ok(())
        }
        Err(refusal) => {
            bank.drop_back();
            Err(refusal)
        }
    }
}

/// Starts the bank and passes (0, 1) on to q. Refused or not, the bank can then hold (0, 1) alone, as from every start on.
pub fn start_and_pass<B: Bank>(
    bank: &mut B,
    plan: &Widths,
    q: usize,
    raise: Raise,
) -> Result<(), Refusal>
    ensures { Begun B.Bank.means (width_of plan.now) q (raise_by raise) result bank.new }
{
    bank.start(plan);
    pass(bank, 0, q, raise)
}

/// Whether (0, 1), passed on from the start of a new bank, stands at q.
pub fn first_pass<B: Bank>(plan: &Widths, q: usize, raise: Raise) -> Result<bool, Refusal>
    ensures { MatchResult result (λ stands. stands ≡ nat_le (1 + raise_by raise) (width_of plan.now q)) (λ e. e ≡ Full) }
{
    let mut bank = B::new();
    start_and_pass(&mut bank, plan, q, raise)?;
    Ok(bank.look(q, 1, 2))
}
