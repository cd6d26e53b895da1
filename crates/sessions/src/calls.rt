ghost use Rattle.sessions.specs.Calls.{Laid, Cleared, Fitted, Needed, Hinted};
ghost use Rattle.sessions.specs.Sessions.{Did};

use crate::ends::restart;
use crate::session::Session;
use banks::Bank;
use completions::{hint_of, need_of};
use refusals::Refusal;
use steps::{accepts, step};
use symbols::Kind;

impl<K: Kind, B: Bank> Session<K, B> {
    /// Goes back to the empty row, and starts the bank.
    pub fn clear(&mut self)
        ensures { Did K.Kind B.Bank self.old Cleared self.new }
    {
        restart(&self.plan, &mut self.bank);
    }

    /// Puts a symbol at the end of the row and makes the step. Refused with `Symbol` for a value that is no symbol, and then with
    /// `Full` where the bank cannot hold the new front; the row stays.
    pub fn lay(&mut self, symbol: K::Symbol) -> Result<(), Refusal>
        ensures { Did K.Kind B.Bank self.old (Laid symbol result) self.new }
    {
        let code = K::code_of(symbol)?;
        // By parts: a borrow of the plan's table through `self` would keep the bank lent too.
        let Session { plan, bank } = self;
        step(&plan.table, bank, code)
    }

    /// Whether the row belongs to the language of the pattern.
    pub fn fits(&self) -> bool
        ensures { Did K.Kind B.Bank self.now (Fitted result) self.now }
    {
        accepts(&self.plan.table, &self.bank)
    }

    /// The fewest symbols that complete the row, 0 where it fits. Refused with `Work` where the area has fewer than 4,096 numbers,
    /// and then with `Stuck` where no row completes it.
    pub fn need(&self, area: &mut [u16]) -> Result<u16, Refusal>
        ensures { Did K.Kind B.Bank self.now (Needed area.old area.new result) self.now }
    {
        need_of(&self.plan.table, &self.bank, area)
    }

    /// A symbol after which the need is smaller by one. Refused with `Work` where the area has fewer than 4,096 numbers, and then
    /// with `Complete` where the row fits and `Stuck` where no row completes it.
    pub fn hint(&self, area: &mut [u16]) -> Result<K::Symbol, Refusal>
        ensures { Did K.Kind B.Bank self.now (Hinted area.old area.new result) self.now }
    {
        let code = hint_of(&self.plan.table, &self.bank, area)?;
        K::symbol_of(code)
    }
}
