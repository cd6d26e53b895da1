ghost use Rattle.bit_bank.specs.Means.{bit_means};
ghost use Rattle.bit_bank.specs.Facts.{bit_facts};

use crate::bank::BitBank;
use crate::rows::Rows;
use crate::words;
use banks::{Bank, Raise};
use refusals::Refusal;
use widths::Widths;

impl Bank for BitBank {
    ghost means = { bit_means };

    ghost facts = { bit_facts };

    fn new() -> BitBank {
        BitBank {
            rows: Rows::none(),
            front: [0; 128],
            back: [0; 128],
        }
    }

    fn start(&mut self, plan: &Widths) {
        let rows = Rows::of(plan);
        words::clear(&mut self.front, rows.used);
        words::clear(&mut self.back, rows.used);
        words::put(&mut self.front, usize::from(rows.list[0].base), 0);
        self.rows = rows;
    }

    fn add(&mut self, p: usize, i: u16) -> Result<(), Refusal> {
        match self.rows.get(p) {
            Some(row) if row.has(i) => {
                words::put(&mut self.back, usize::from(row.base), usize::from(i) - 1);
                Ok(())
            }
            _ => Ok(()), // a pair outside the widths is left out
        }
    }

    fn carry(&mut self, p: usize, q: usize, raise: Raise) -> Result<(), Refusal> {
        let (Some(row), Some(target)) = (self.rows.get(p), self.rows.get(q)) else {
            return Ok(()); // no such place: nothing to carry
        };
        let room = target.width.saturating_sub(u16::from(raise));
        let n = usize::from(row.width.min(room));
        let to = usize::from(target.base);
        let from = usize::from(row.base);
        // By a match: the raise is a const of the loop over words.
        match raise {
            Raise::Nothing => words::join::<0>(&mut self.back, &self.front, to, from, n),
            Raise::One => words::join::<1>(&mut self.back, &self.front, to, from, n),
        }
        Ok(())
    }

    fn look(&self, p: usize, low: u16, high: u16) -> bool {
        let Some(row) = self.rows.get(p) else {
            return false;
        };
        words::any(
            &self.front[usize::from(row.base)..],
            usize::from(low.saturating_sub(1)),
            usize::from(high.min(row.width)),
        )
    }

    fn turn(&mut self) {
        words::copy(&mut self.front, &self.back, self.rows.used);
        words::clear(&mut self.back, self.rows.used);
    }

    fn drop_back(&mut self) {
        let used = self.rows.used;
        words::clear(&mut self.back, used);
    }
}
