use crate::rows::session;
use banks::Bank;
use bit_bank::BitBank;
use list_bank::ListBank;
use mask_layer::MaskLayer;
use refusals::Refusal;
use sessions::Session;
use std::process::Abort;
use std::test::Fail;
use symbols::Letters;

// How many letters `a` of at most so many are laid before one is refused.
fn laid<B: Bank>(
    rt: &impl Abort,
    session: &mut Session<Letters, B>,
    most: usize,
) -> Result<usize, Fail> {
    for n in 0..most {
        if let Err(refusal) = session.lay(b'a') {
            assert_eq!(rt; refusal, Refusal::Full);
            return Ok(n);
        }
    }
    Ok(most)
}

// After n letters, `.*` has its pair, and `.{1000}` the counts 1 to n: n + 1 pairs, of which the list bank holds 256.
// The 256th letter is refused, the row stays at 255 letters, and 745 complete it.
#[test]
fn list_bank(rt: HostRuntime) -> Result<(), Fail> {
    let mut session = session::<Letters, ListBank>(rt.alloc(), b".*.{1000}")?;
    assert_eq!(rt; laid(&rt, &mut session, 300)?, 255);
    assert_eq!(rt; session.lay(b'a'), Err(Refusal::Full));
    let mut area = [0; 4096];
    assert_eq!(rt; session.need(&mut area)?, 745);
    assert!(rt; !session.fits());
    Ok(())
}

// The bit bank holds every set: a long row runs through.
#[test]
fn bit_bank(rt: HostRuntime) -> Result<(), Fail> {
    let mut session = session::<Letters, BitBank>(rt.alloc(), b".*.{1000}")?;
    assert_eq!(rt; laid(&rt, &mut session, 3000)?, 3000);
    assert!(rt; session.fits());
    Ok(())
}

// The mask layer keeps the pair of `.*` itself, so that the list bank below takes one letter more.
#[test]
fn mask_layer(rt: HostRuntime) -> Result<(), Fail> {
    let mut session = session::<Letters, MaskLayer<ListBank>>(rt.alloc(), b".*.{1000}")?;
    assert_eq!(rt; laid(&rt, &mut session, 300)?, 256);
    let mut area = [0; 4096];
    assert_eq!(rt; session.need(&mut area)?, 744);
    Ok(())
}
