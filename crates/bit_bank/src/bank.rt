use crate::rows::Rows;

/// A bank that holds every set within the widths.
#[derive(Drop)]
pub struct BitBank {
    pub(crate) rows: Rows,
    pub(crate) front: [u64; 128],
    pub(crate) back: [u64; 128],
}
