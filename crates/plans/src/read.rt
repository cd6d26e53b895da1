ghost use Rattle.std.specs.Prelude.{◌≡◌, []};
ghost use Rattle.plans.specs.Made.{TableFrom};
ghost use Rattle.plans.specs.Plans.{alphabet_of, PlanOf, ReadInto};

use crate::plan::Plan;
use crate::texts::{empty_table, text_table};
use alphabets::Alphabet;
use refusals::Refusal;
use std::alloc::Global;
use std::marker::PhantomData;
use symbols::Kind;
use tables::Table;

/// The alphabet in which patterns of a kind are written.
pub fn alphabet<K: Kind>() -> Alphabet
    ensures { result ≡ alphabet_of K.Kind }
{
    // By the number: a kind tells its unit length, and its law `alphabet` the alphabet by it.
    if K::unit_length() == 1 {
        Alphabet::Letters
    } else {
        Alphabet::Tiles
    }
}

// The plan with the table of a text. The alphabet and the text serve its promise alone: a plan is that of some text.
fn plan_with<K>(alphabet: Alphabet, text: &[u8], table: Table) -> Plan<K>
    requires { TableFrom alphabet text.now table }
    ensures { result.table ≡ table }
{
    Plan {
        table,
        kind: PhantomData,
    }
}

impl<K: Kind> Plan<K> {
    /// The plan of the empty pattern.
    pub fn new() -> Plan<K>
        ensures { PlanOf K.Kind [] result }
    {
        plan_with(Alphabet::Letters, b"", empty_table())
    }

    /// Reads a pattern: this is then its plan. Where the text is refused, this is the plan of the empty pattern.
    pub fn read(&mut self, heap: Global, text: &[u8]) -> Result<(), Refusal>
        ensures { ReadInto K.Kind text.now result self.new }
    {
        let written = alphabet::<K>();
        // By a match: each side leaves another plan.
        match text_table(heap, written, text) {
            Ok(table) => {
                *self = plan_with(written, text, table);
                Ok(())
            }
            Err(r) => {
                *self = Plan::new();
                Err(r)
            }
        }
    }
}
