use banks::Bank;
use bit_bank::BitBank;
use list_bank::ListBank;
use mask_layer::MaskLayer;
use refusals::Refusal;
use sessions::{Session, open, open_on};
use std::alloc::Global;
use std::process::Abort;
use std::test::Fail;
use symbol_rows::read_row;
use symbols::{Kind, Letters, Tiles};

// A pattern, a row, and how many symbols the row lacks: 0 where it fits, `None` where it is stuck.
type Case = (&'static [u8], &'static [u8], Option<u16>);

const LETTERS: [Case; 30] = [
    // One count stands in `.{3}` after `aa`, two after `aaxx`: the newest alone would need 2.
    (b".*a.{3}b", b"", Some(5)),
    (b".*a.{3}b", b"aa", Some(3)),
    (b".*a.{3}b", b"aaxx", Some(1)),
    (b".*a.{3}b", b"aaxxb", Some(0)),
    (b".*a.{3}b", b"aaxxx", Some(1)),
    // Five passes of one or two letters.
    (b"(a|aa){5}", b"aaaa", Some(1)),
    (b"(a|aa){5}", b"aaaaa", Some(0)),
    (b"(a|aa){5}", b"aaaaaaaaaa", Some(0)),
    (b"(a|aa){5}", b"aaaaaaaaaaa", None),
    // A nullable body: passes may be empty.
    (b"(a?){2,3}", b"", Some(0)),
    (b"(a?){2,3}", b"a", Some(0)),
    (b"(a?){2,3}", b"aaa", Some(0)),
    (b"(a?){2,3}", b"aaaa", None),
    // A next and a cross link between the same places.
    (b"(a{2})*", b"aaa", Some(1)),
    (b"(a{2})*", b"aaaa", Some(0)),
    (b"(a{2}b?)*", b"aaab", None),
    // The low of a repeat.
    (b"a{2,4}b", b"a", Some(2)),
    (b"a{2,4}b", b"aa", Some(1)),
    (b"a{2,4}b", b"aaaa", Some(1)),
    (b"a{2,4}b", b"aaaaa", None),
    (b"a{2,4}b", b"ab", None),
    // Links inside a pass and from pass to pass.
    (b"(ab){3}", b"aba", Some(3)),
    (b"(ab){3}", b"abb", None),
    (b"(a*b){2}c", b"aab", Some(2)),
    (b"(a*b){2}c", b"aabbc", Some(0)),
    // Classes, and the empty pattern.
    (b"[^b-z]+[c-e]?", b"aad", Some(0)),
    (b"[^b-z]+[c-e]?", b"d", None),
    (b"", b"", Some(0)),
    (b"", b"a", None),
    // The longest way that a pattern allows.
    (b"(aaaa){1000}a{95}", b"aaa", Some(4092)),
];

const TILES: [Case; 7] = [
    // Two reds, then B1 or a green tile.
    (b"R.{2}[B1G.]", b"R4", Some(2)),
    (b"R.{2}[B1G.]", b"R4R9G0", Some(0)),
    (b"R.{2}[B1G.]", b"R4R9B1", Some(0)),
    (b"R.{2}[B1G.]", b"R4R9B2", None),
    (b"R.{2}[B1G.]", b"R4G0", None),
    (b"(.7|Y.){3}", b"R7Y0", Some(1)),
    (b"(.7|Y.){3}", b"R7Y0G7", Some(0)),
];

/// A session on a pattern.
pub(crate) fn session<K: Kind, B: Bank>(
    heap: Global,
    pattern: &[u8],
) -> Result<Session<K, B>, Fail> {
    Ok(open_on(heap, pattern, B::new())?)
}

// Follows hints from a row that lacks so many symbols: it must fit after just as many, and not before.
fn follow<K: Kind, B: Bank>(
    rt: &impl Abort,
    session: &mut Session<K, B>,
    area: &mut [u16],
    need: u16,
) -> Result<(), Fail> {
    for left in (0..need).rev() {
        assert!(rt; !session.fits());
        let symbol = session.hint(area)?;
        session.lay(symbol)?;
        assert_eq!(rt; session.need(area)?, left);
    }
    assert!(rt; session.fits());
    assert!(rt; matches!(session.hint(area), Err(Refusal::Complete)));
    Ok(())
}

// Lays the row of a case, and checks what it comes to.
fn comes_to<K: Kind, B: Bank>(
    rt: &impl Abort,
    heap: Global,
    case: Case,
    followed: bool,
) -> Result<(), Fail> {
    let (pattern, row, need) = case;
    let mut session = session::<K, B>(heap, pattern)?;
    let row = read_row::<K>(heap, row)?;
    session.lay_row(row.as_slice())?;
    let mut area = [9; 4096];
    assert_eq!(rt; session.fits(), need == Some(0));
    assert_eq!(rt; session.need(&mut area), need.ok_or(Refusal::Stuck));
    match need {
        Some(n) if followed => follow(rt, &mut session, &mut area, n),
        Some(_) => Ok(()),
        None => {
            assert!(rt; matches!(session.hint(&mut area), Err(Refusal::Stuck)));
            Ok(())
        }
    }
}

// Every case over one bank. The longest way is not followed to its end.
fn over<K: Kind, B: Bank>(rt: &impl Abort, heap: Global, cases: &[Case]) -> Result<(), Fail> {
    for case in cases {
        comes_to::<K, B>(rt, heap, *case, case.2.is_none_or(|n| n < 100))?;
    }
    Ok(())
}

// Every case over every bank.
fn over_banks<K: Kind>(rt: &impl Abort, heap: Global, cases: &[Case]) -> Result<(), Fail> {
    over::<K, BitBank>(rt, heap, cases)?;
    over::<K, ListBank>(rt, heap, cases)?;
    over::<K, MaskLayer<BitBank>>(rt, heap, cases)?;
    over::<K, MaskLayer<ListBank>>(rt, heap, cases)
}

#[test]
fn letters(rt: HostRuntime) -> Result<(), Fail> {
    over_banks::<Letters>(&rt, rt.alloc(), &LETTERS)
}

#[test]
fn tiles(rt: HostRuntime) -> Result<(), Fail> {
    over_banks::<Tiles>(&rt, rt.alloc(), &TILES)
}

// 4,092 hints in turn bring the row to its only end.
#[test]
fn longest_way(rt: HostRuntime) -> Result<(), Fail> {
    comes_to::<Letters, BitBank>(&rt, rt.alloc(), LETTERS[29], true)
}

// After clear the session is as after open.
#[test]
fn cleared(rt: HostRuntime) -> Result<(), Fail> {
    let mut session = session::<Letters, BitBank>(rt.alloc(), b"(a{2})*")?;
    let mut area = [0; 4096];
    session.lay(b'a')?;
    assert!(rt; !session.fits());
    session.clear();
    assert!(rt; session.fits());
    session.lay(b'a')?;
    assert_eq!(rt; session.need(&mut area)?, 1);
    Ok(())
}

// A value that is no symbol is refused, and the row stays.
#[test]
fn no_symbol(rt: HostRuntime) -> Result<(), Fail> {
    let mut session = session::<Letters, BitBank>(rt.alloc(), b"ab")?;
    let mut area = [0; 4096];
    session.lay(b'a')?;
    assert_eq!(rt; session.lay(b'A'), Err(Refusal::Symbol));
    assert_eq!(rt; session.lay(0), Err(Refusal::Symbol));
    assert_eq!(rt; session.need(&mut area)?, 1);
    assert_eq!(rt; session.hint(&mut area)?, b'b');
    Ok(())
}

// The plan comes back, and another session can be opened on it.
#[test]
fn closed(rt: HostRuntime) -> Result<(), Fail> {
    let mut first = session::<Letters, BitBank>(rt.alloc(), b"abc")?;
    first.lay(b'a')?;
    let plan = first.close();
    let second = open(plan, ListBank::new());
    let mut area = [0; 4096];
    assert_eq!(rt; second.need(&mut area)?, 3);
    Ok(())
}
