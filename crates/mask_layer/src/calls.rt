ghost use Rattle.mask_layer.specs.Means.{masked};
ghost use Rattle.mask_layer.specs.Facts.{masked_facts};

use crate::layer::MaskLayer;
use crate::places;
use crate::sets::PlaceSet;
use banks::{Bank, Raise};
use refusals::Refusal;
use widths::Widths;

impl<B: Bank> Bank for MaskLayer<B> {
    ghost means = { masked B.Bank.means };

    ghost facts = { masked_facts B.Bank.means B.Bank.facts };

    fn new() -> MaskLayer<B> {
        MaskLayer {
            below: B::new(),
            plan: None,
            front: PlaceSet::empty(),
            back: PlaceSet::empty(),
        }
    }

    fn start(&mut self, plan: &Widths) {
        self.below.start(plan);
        self.plan = Some(*plan);
        self.front = PlaceSet::start_only();
        self.back = PlaceSet::empty();
    }

    fn add(&mut self, p: usize, i: u16) -> Result<(), Refusal> {
        if !places::is_narrow(&self.plan, p) {
            return self.below.add(p, i);
        }
        if i == 1 {
            self.back = self.back.with(p);
        }
        Ok(()) // kept here, whatever the bank below can hold
    }

    fn carry(&mut self, p: usize, q: usize, raise: Raise) -> Result<(), Refusal> {
        if places::is_narrow(&self.plan, q) {
            // Count 1 comes from count 1 as it is; raised, no count becomes 1.
            if matches!(raise, Raise::Nothing) && self.look(p, 1, 1) {
                self.back = self.back.with(q);
            }
            Ok(())
        } else if !places::is_narrow(&self.plan, p) {
            self.below.carry(p, q, raise)
        } else if self.front.has(p) {
            self.below.add(q, 1 + u16::from(raise))
        } else {
            Ok(())
        }
    }

    fn look(&self, p: usize, low: u16, high: u16) -> bool {
        if places::is_narrow(&self.plan, p) {
            self.front.has(p) && (low..=high).contains(&1)
        } else {
            self.below.look(p, low, high)
        }
    }

    fn turn(&mut self) {
        self.below.turn();
        self.front = std::mem::replace(&mut self.back, PlaceSet::empty());
    }

    fn drop_back(&mut self) {
        self.below.drop_back();
        self.back = PlaceSet::empty();
    }
}
