ghost use Rattle.std.specs.Prelude.{◌≡◌, ℕ, ◌+◌, ◌&&◌, ◌==◌, nat_lt};
ghost use Rattle.bits.specs.Members.{member};
ghost use Rattle.widths.specs.Width.{width_of};
ghost use Rattle.tables.specs.Tables.{low_of};
ghost use Rattle.banks.specs.Pairs.{only, moved};
ghost use Rattle.banks.specs.Raises.{raise_by};
ghost use Rattle.steps.specs.StepSet.{seen, only_if, along, leaving, leaving_below};
ghost use Rattle.steps.specs.Gathered.{Ready, Gathered};
ghost use Rattle.steps.specs.Fronts.{Fresh};

use banks::{Bank, Raise};
use bits::Set64;
use refusals::Refusal;
use tables::{Link, Table};

// Table and bank go side by side: in a struct that lends both, each clause would have to read the bank through it.

// Carries the counts of p to q, if they are linked. A function of its own, as `cross_if`: what it does to the bank is one fact for both
// cases, where three `if`s in `follow` would have six.
fn carry_if<B: Bank>(
    bank: &mut B,
    linked: bool,
    p: usize,
    q: usize,
    raise: Raise,
) -> Result<(), Refusal>
    ensures { Ready B.means bank.old → Gathered B.means (only_if linked (moved (B.means.front bank.old) p q (raise_by raise))) bank.old result bank.new }
{
    if linked {
        bank.carry(p, q, raise)
    } else {
        Ok(())
    }
}

// Whether the front has a count at p from its low to its width.
pub(crate) fn can_leave<B: Bank>(table: &Table, bank: &B, p: usize) -> bool
    ensures { B.means.standing bank.now → result ≡ seen (B.means.front bank.now) p (low_of table.now p) (width_of table.now.widths p) }
{
    bank.look(p, table.low_at(p), table.width_at(p))
}

// Adds (q, 1), if p and q are linked and p can be left.
fn cross_if<B: Bank>(
    table: &Table,
    bank: &mut B,
    linked: bool,
    p: usize,
    q: usize,
) -> Result<(), Refusal>
    ensures { Ready B.means bank.old → Gathered B.means (only_if (linked && seen (B.means.front bank.old) p (low_of table.now p) (width_of table.now.widths p)) (only q 1)) bank.old result bank.new }
{
    if linked && can_leave(table, bank, p) {
        bank.add(q, 1)
    } else {
        Ok(())
    }
}

// Follows the links from p to q.
fn follow<B: Bank>(table: &Table, bank: &mut B, p: usize, q: usize) -> Result<(), Refusal>
    ensures { Ready B.means bank.old → Gathered B.means (along table.now (B.means.front bank.old) p q) bank.old result bank.new }
{
    let links = table.links(p, q);
    // In many patterns most pairs of places have no link: one question there in place of three.
    if links.is_empty() {
        return Ok(());
    }
    carry_if(bank, links.has(Link::Within), p, q, Raise::Nothing)?;
    carry_if(bank, links.has(Link::Next), p, q, Raise::One)?;
    cross_if(table, bank, links.has(Link::Cross), p, q)
}

// Whether these codes have the one that is alone in `alone`. Asked by number, `has` would shift anew for each place.
fn have_code(codes: Set64, alone: Set64) -> bool
    ensures { (c : ℕ) → ((k : ℕ) → member alone k ≡ (k == c && nat_lt k 64)) → result ≡ member codes c }
{
    !codes.intersection(alone).is_empty()
}

// Follows the links from p to every place that takes the code.
fn leave<B: Bank>(table: &Table, bank: &mut B, code: u8, p: usize) -> Result<(), Refusal>
    ensures { Ready B.means bank.old → Gathered B.means (leaving table.now code (B.means.front bank.old) p) bank.old result bank.new }
{
    let alone = Set64::only(code);
    // Never more than 64, which is said here for speed: the compiler then asks of no place whether it is one.
    let places = table.places().min(64);
    // Over the places themselves: by number each read of one would cost more.
    for (before, place) in table.each[1..places + 1].iter().enumerate() {
        if have_code(place.codes, alone) {
            follow(table, bank, p, before + 1)?;
        }
    }
    Ok(())
}

// Follows the links from every place where a count stands to every place that takes the code.
pub(crate) fn gather<B: Bank>(table: &Table, bank: &mut B, code: u8) -> Result<(), Refusal>
    ensures { Fresh B.means table.now bank.old → Gathered B.means (leaving_below table.now code (B.means.front bank.old) (table.now.places + 1)) bank.old result bank.new }
{
    for p in 0..table.places() + 1 {
        if bank.look(p, 1, table.width_at(p)) {
            leave(table, bank, code, p)?;
        }
    }
    Ok(())
}
