ghost use Rattle.std.specs.Prelude.{◌≡◌, ℕ, List, MatchResult};
ghost use Rattle.widths.specs.Width.{width_of};
ghost use Rattle.banks.specs.Meaning.{Started};
ghost use Rattle.plans.specs.Plans.{RefusedText, alphabet_of, PlanOf};
ghost use Rattle.sessions.specs.Runs.{EveryRun, OpenedOn};

use crate::session::Session;
use banks::Bank;
use plans::Plan;
use refusals::Refusal;
use std::alloc::Global;
use symbols::Kind;

// Starts a bank with the widths of a plan.
pub(crate) fn restart<K, B: Bank>(plan: &Plan<K>, bank: &mut B)
    ensures { Started B.means (width_of plan.now.table.widths) bank.new }
{
    bank.start(&plan.table.widths());
}

// The session of a plan and a bank that was started with its widths.
fn session_on<K: Kind, B: Bank>(plan: Plan<K>, bank: B) -> Session<K, B>
    requires { Started B.means (width_of plan.table.widths) bank }
    ensures same { result.plan ≡ plan }
    ensures started { Started B.means (width_of plan.table.widths) result.bank }
    ensures right { (text : List ℕ) → PlanOf K.Kind text plan → EveryRun K.Kind B.Bank text result }
{
    Session { plan, bank }
}

/// Opens a session on a plan: the row is empty. The bank is started; what it held does not matter.
/// For every text that the plan is of, whatever list of calls follows, the answers are right for the row that the calls laid.
pub fn open<K: Kind, B: Bank>(plan: Plan<K>, mut bank: B) -> Session<K, B>
    ensures same { result.plan ≡ plan }
    ensures started { Started B.means (width_of plan.table.widths) result.bank }
    ensures right { (text : List ℕ) → PlanOf K.Kind text plan → EveryRun K.Kind B.Bank text result }
{
    restart(&plan, &mut bank);
    session_on(plan, bank)
}

/// Opens a session on the plan of a text, or tells why the text is refused. The bank is started; what it held does not matter.
/// Whatever list of calls follows, the answers are right for the row that the calls laid.
pub fn open_on<K: Kind, B: Bank>(
    heap: Global,
    text: &[u8],
    bank: B,
) -> Result<Session<K, B>, Refusal>
    ensures { MatchResult result (λ s. OpenedOn K.Kind B.Bank text.now s) (λ e. RefusedText (alphabet_of K.Kind) text.now e) }
{
    let mut plan = Plan::new();
    plan.read(heap, text)?;
    Ok(open(plan, bank))
}

impl<K: Kind, B: Bank> Session<K, B> {
    /// Ends the session; only its plan comes back.
    pub fn close(self) -> Plan<K>
        ensures { result ≡ self.plan }
    {
        self.plan
    }
}
