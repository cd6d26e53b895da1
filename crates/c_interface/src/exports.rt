ghost use Rattle.c_interface.specs.Told.{FitsAnswered, NeedAnswered};

use crate::each::fits_each;
use crate::needs::need_of_row;
use banks::Bank;
use bit_bank::BitBank;
use sessions::open_on;
use std::alloc::Global;

/// Lays the letters of a row on a pattern, and behind each one writes 1 into `fits` where the row so far fits, else 0. Answers how many were laid: as
/// many as there is room for, up to the first byte that is no letter; none where the pattern is refused.
#[unsafe(no_mangle)]
pub extern "C" fn jothwila_fits(heap: Global, pattern: &[u8], row: &[u8], fits: &mut [u8]) -> usize
    ensures { FitsAnswered pattern.now row.now fits.old fits.new result }
{
    // C has no `Result`: where the pattern is refused, no letter was laid.
    let Ok(mut session) = open_on(heap, pattern, BitBank::new()) else {
        return 0;
    };
    fits_each(&mut session, row, fits)
}

/// The need of a row in a pattern, asked for once and then so many times again, so that it can be timed; 4,294,967,295 where there is none.
#[unsafe(no_mangle)]
pub extern "C" fn jothwila_need(heap: Global, pattern: &[u8], row: &[u8], again: u32) -> u32
    ensures { NeedAnswered pattern.now row.now result }
{
    // C has no `Result`: a number that is no need stands for a refusal.
    match need_of_row(heap, pattern, row, again) {
        Ok(need) => u32::from(need),
        Err(_) => u32::MAX,
    }
}
