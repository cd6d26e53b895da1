//! The mask layer: stands on any bank, and keeps the pairs at places of width 1 itself.
//!
//! At such a place only count 1 can stand, so a set of places is enough (`PlaceSet`, a bit to each place); the pairs at wider
//! places go to the bank below. It can hold a set exactly when the bank below can hold the pairs at wider places. Its code is
//! generic over the bank below, and the layer is a bank itself, so it can stand on itself.
//!
//! `let mut b: MaskLayer<ListBank> = Bank::new(); b.start(&widths); b.carry(0, 1, Raise::Nothing)?; b.turn();`

#![tactic(auto)]

mod calls;
mod layer;
mod places;
mod sets;

use banks::Bank;
pub use layer::MaskLayer;
