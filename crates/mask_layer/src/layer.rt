use crate::sets::PlaceSet;
use widths::Widths;

/// Keeps the pairs at places of width 1; the bank below has the others.
#[derive(Drop)]
pub struct MaskLayer<B> {
    pub(crate) below: B,
    pub(crate) plan: Option<Widths>,
    pub(crate) front: PlaceSet,
    pub(crate) back: PlaceSet,
}
