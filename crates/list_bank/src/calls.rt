ghost use Rattle.list_bank.specs.Means.{list_means};
ghost use Rattle.list_bank.specs.Facts.{list_facts};

use crate::bank::ListBank;
use crate::pairs::PairList;
use banks::{Bank, Raise};
use refusals::Refusal;
use widths::{Widths, width_in};

impl Bank for ListBank {
    ghost means = { list_means };

    ghost facts = { list_facts };

    fn new() -> ListBank {
        ListBank {
            plan: None,
            front: PairList::empty(),
            back: PairList::empty(),
        }
    }

    fn start(&mut self, plan: &Widths) {
        self.plan = Some(*plan);
        self.front = PairList::only(0, 1);
        self.back = PairList::empty();
    }

    fn add(&mut self, p: usize, i: u16) -> Result<(), Refusal> {
        let width = width_in(&self.plan, p);
        match u8::try_from(p) {
            Ok(place) => self.back.insert_up_to(place, u32::from(i), width),
            Err(_) => Ok(()), // no such place: the pair is left out
        }
    }

    fn carry(&mut self, p: usize, q: usize, raise: Raise) -> Result<(), Refusal> {
        let (Ok(from), Ok(to)) = (u8::try_from(p), u8::try_from(q)) else {
            return Ok(()); // no such place: nothing to carry
        };
        let width = width_in(&self.plan, q);
        self.back
            .insert_moved(&self.front, from, to, u16::from(raise), width)
    }

    fn look(&self, p: usize, low: u16, high: u16) -> bool {
        u8::try_from(p).is_ok_and(|place| self.front.any(place, low, high))
    }

    fn turn(&mut self) {
        self.front.copy_from(&self.back);
        self.drop_back();
    }

    fn drop_back(&mut self) {
        self.back.clear();
    }
}
