use crate::pairs::PairList;
use widths::Widths;

/// A bank that holds sets of at most 256 pairs.
#[derive(Drop)]
pub struct ListBank {
    pub(crate) plan: Option<Widths>,
    pub(crate) front: PairList,
    pub(crate) back: PairList,
}
