ghost use Rattle.std.specs.Prelude.{◌≡◌, ℕ, ◌+◌, ◌*◌, ◌<◌, ◌≤◌, List, length, MatchOption, nat_le, ◌&&◌};
ghost use Rattle.widths.specs.Width.{width_of};
ghost use Rattle.bit_bank.specs.Row.{row_of};

use widths::Widths;

/// Where the row of a place lies: from the word `base` on, a bit to each count up to `width`.
// No `Layout`: rows begin at whole words.
#[derive(Clone, Copy)]
pub struct Row {
    pub(crate) base: u16,
    pub(crate) width: u16,
}

/// The rows of the places: each begins at a word of its own, after the rows of the places before it.
// With the number of words in use beside the array: a bank is fixed memory.
#[derive(Drop)]
pub struct Rows {
    pub(crate) list: [Row; 65],
    pub(crate) used: usize,
    ghost long: { length list ≡ 65 },
    ghost room: { (p : ℕ) → p < 65 → 64 * (row_of list p).base + (row_of list p).width ≤ 64 * used },
    ghost apart: { (p q : ℕ) → p < q → q < 65 → 64 * (row_of list p).base + (row_of list p).width ≤ 64 * (row_of list q).base },
    ghost few: { used ≤ 127 },
}

impl Row {
    /// Whether a count lies within the width.
    pub(crate) fn has(&self, i: u16) -> bool
        ensures { result ≡ (nat_le 1 i && nat_le i self.now.width) }
    {
        (1..=self.width).contains(&i)
    }
}

impl Rows {
    /// No place has a row.
    pub(crate) fn none() -> Rows
        ensures { (p : ℕ) → (row_of result.list p).width ≡ 0 }
    {
        Rows {
            list: [Row { base: 0, width: 0 }; 65],
            used: 0,
        }
    }

    /// The rows for a plan's widths.
    pub(crate) fn of(plan: &Widths) -> Rows
        ensures { (p : ℕ) → (row_of result.list p).width ≡ width_of plan.now p }
    {
        let mut list = [Row { base: 0, width: 0 }; 65];
        let mut used: u16 = 0;
        for (p, row) in list.iter_mut().enumerate() {
            let width = plan.at(p);
            *row = Row { base: used, width };
            used += width.div_ceil(64);
        }
        Rows {
            list,
            used: usize::from(used),
        }
    }

    /// The row of place `p`, if there is such a place.
    // Lent and not copied out: a copy is read as one and then taken apart.
    pub(crate) fn get(&self, p: usize) -> Option<&Row>
        ensures { MatchOption result (65 ≤ p) (λ row. (p < 65) × (row.now ≡ row_of self.now.list p)) }
    {
        self.list.get(p)
    }
}
