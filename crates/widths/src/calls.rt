ghost use Rattle.std.specs.Prelude.{◌≡◌, ℕ, ◌+◌, ◌<◌, ◌≤◌, if◌then◌else◌, length, sum, MatchOption, nat_eq, slice_index};
ghost use Rattle.widths.specs.Width.{width_of, width_in, widths_of, base_of, Sound};

use crate::data::{Layout, Widths};

// What all widths add to.
fn total(widths: &[u16]) -> u32
    requires { length widths.now ≤ 65 }
    ensures { result ≡ sum widths.now }
{
    widths.iter().map(|width| u32::from(*width)).sum()
}

impl Widths {
    /// The widths as given, by place, or `None` where they break a rule: the start's is 1, each is at most 1,000,
    /// and together they are at most 4,096.
    // An `Option`: its callers ask only whether there are widths, and have no error to hand on.
    pub fn of(given: &[u16; 65]) -> Option<Widths>
        ensures { MatchOption result (Sound given.now → ⊥) (λ w. (Sound given.now) × ((p : ℕ) → width_of w p ≡ slice_index given.now p)) }
    {
        if given[0] != 1 || given.iter().any(|width| *width > 1000) || total(given) > 4096 {
            return None;
        }
        let widths = *given;
        Some(Widths { widths })
    }

    /// The widths of a plan with no place but the start.
    pub fn start_only() -> Widths
        ensures { (p : ℕ) → width_of result p ≡ (if nat_eq p 0 then 1 else 0) }
    {
        let mut widths = [0; 65];
        widths[0] = 1;
        Widths { widths }
    }

    /// The width of place `p`, and 0 where there is no such place.
    pub fn at(&self, p: usize) -> u16
        ensures { result ≡ width_of self.now p }
    {
        self.widths.get(p).copied().unwrap_or(0)
    }
}

/// The width of place `p` in a plan, and 0 where there is no plan or no such place.
pub fn width_in(plan: &Option<Widths>, p: usize) -> u16
    ensures { result ≡ width_in plan.now p }
{
    plan.as_ref().map_or(0, |widths| widths.at(p))
}

impl Layout {
    /// The layout of these widths.
    pub fn of(widths: &Widths) -> Layout
        ensures { widths_of result ≡ widths.now }
    {
        let mut bases: [u16; 65] = [0; 65];
        let mut next: u16 = 0;
        for (p, base) in bases.iter_mut().enumerate() {
            *base = next;
            next += widths.at(p);
        }
        let widths = *widths;
        Layout { widths, bases }
    }

    /// Where the counts of place `p` begin; `None` where there is no such place. They end within 4,096, and before the next place's begin.
    pub fn base(&self, p: usize) -> Option<usize>
        ensures { MatchOption result (65 ≤ p) (λ b. (p < 65) × (b ≡ base_of (widths_of self.now) p) × (b + width_of (widths_of self.now) p ≤ 4096)
            × ((q : ℕ) → p < q → b + width_of (widths_of self.now) p ≤ base_of (widths_of self.now) q)) }
    {
        let base = self.bases.get(p)?;
        Some(usize::from(*base))
    }

    /// The width of place `p`, and 0 where there is no such place.
    pub fn width(&self, p: usize) -> u16
        ensures { result ≡ width_of (widths_of self.now) p }
    {
        self.widths.at(p)
    }
}
