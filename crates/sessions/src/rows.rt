ghost use Rattle.sessions.specs.Runs.{RowLaid};

use crate::session::Session;
use banks::Bank;
use symbol_rows::RowRefusal;
use symbols::Kind;

impl<K: Kind, B: Bank> Session<K, B> {
    /// Lays the symbols of a row one after another, up to the first that is refused, and tells how many were laid before that one.
    pub fn lay_row(&mut self, row: &[K::Symbol]) -> Result<(), RowRefusal>
        ensures { RowLaid K.Kind B.Bank self.old row.now result self.new }
    {
        for (before, symbol) in row.iter().enumerate() {
            self.lay(*symbol)
                .map_err(|refusal| RowRefusal { refusal, before })?;
        }
        Ok(())
    }
}
