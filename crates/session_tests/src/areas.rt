use crate::rows::session;
use bit_bank::BitBank;
use refusals::Refusal;
use std::test::Fail;
use symbols::Letters;

// How many numbers of an area are v.
fn count(area: &[u16], v: u16) -> usize {
    area.iter().filter(|x| **x == v).count()
}

// 4,095 numbers are too few, whatever the row; they stay.
#[test]
fn short(rt: HostRuntime) -> Result<(), Fail> {
    let mut session = session::<Letters, BitBank>(rt.alloc(), b"ab")?;
    let mut area = [9; 4095];
    assert_eq!(rt; session.need(&mut area), Err(Refusal::Work));
    assert_eq!(rt; session.hint(&mut area), Err(Refusal::Work));
    session.lay(b'b')?;
    assert_eq!(rt; session.need(&mut area), Err(Refusal::Work));
    session.clear();
    session.lay_row(b"ab")?;
    assert_eq!(rt; session.hint(&mut area), Err(Refusal::Work));
    assert_eq!(rt; count(&area, 9), 4095);
    assert_eq!(rt; session.need(&mut []), Err(Refusal::Work));
    Ok(())
}

// Of 4,096 all are zero afterwards.
#[test]
fn just_full(rt: HostRuntime) -> Result<(), Fail> {
    let session = session::<Letters, BitBank>(rt.alloc(), b"a{1000}b{1000}")?;
    let mut area = [9; 4096];
    assert_eq!(rt; session.need(&mut area)?, 2000);
    assert_eq!(rt; count(&area, 0), 4096);
    Ok(())
}

// Of 5,000 the last 904 stay, also after 21 and 22.
#[test]
fn longer(rt: HostRuntime) -> Result<(), Fail> {
    let mut session = session::<Letters, BitBank>(rt.alloc(), b"ab?")?;
    session.lay(b'a')?;
    let mut area = [9; 5000];
    assert_eq!(rt; session.hint(&mut area), Err(Refusal::Complete));
    assert_eq!(rt; count(&area, 0), 4096);
    assert_eq!(rt; count(&area, 9), 904);
    session.lay(b'a')?;
    let mut area = [9; 5000];
    assert_eq!(rt; session.need(&mut area), Err(Refusal::Stuck));
    assert_eq!(rt; count(&area, 0), 4096);
    assert_eq!(rt; count(&area, 9), 904);
    let mut area = [9; 5000];
    assert_eq!(rt; session.hint(&mut area), Err(Refusal::Stuck));
    assert_eq!(rt; count(&area, 0), 4096);
    assert_eq!(rt; count(&area, 9), 904);
    Ok(())
}
