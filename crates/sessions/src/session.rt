use plans::Plan;

/// A session on a pattern: its plan, and a bank that holds the pairs that stand after the row.
#[derive(Drop)]
pub struct Session<K, B> {
    pub(crate) plan: Plan<K>,
    pub(crate) bank: B,
}
