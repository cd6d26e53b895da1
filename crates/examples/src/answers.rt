use banks::Bank;
use bit_bank::BitBank;
use list_bank::ListBank;
use mask_layer::MaskLayer;
use par_report::Par;
use refusals::Refusal;
use sessions::{Session, open_on};
use std::alloc::{AllocError, Global};
use symbol_rows::{RowRefusal, read_row};
use symbols::Kind;
use thiserror::Error;

// Why nothing is told of a pattern and a row.
#[derive(Clone, Copy, PartialEq, Eq, Debug, Error)]
enum NoAnswer {
    #[error("refused {} at {}", .0.number(), .0.place().unwrap_or(0))]
    Text(#[from] Refusal),
    #[error("{0}")]
    Row(#[from] RowRefusal),
    #[error("hints do not lead to the end of the row")]
    Misled,
}

// Follows hints: the row must fit after so many symbols, and not before.
fn hints_lead<K: Kind, B: Bank>(
    session: &mut Session<K, B>,
    area: &mut [u16],
    need: u16,
) -> Result<(), NoAnswer> {
    for _ in 0..need {
        if session.fits() {
            return Err(NoAnswer::Misled);
        }
        let symbol = session.hint(area).map_err(|_| NoAnswer::Misled)?;
        if session.lay(symbol).is_err() {
            return Ok(()); // the bank is full: no more is promised
        }
    }
    if session.fits() {
        Ok(())
    } else {
        Err(NoAnswer::Misled)
    }
}

// What is told of the row of a session, whose hints are then followed.
fn tell<K: Kind, B: Bank>(session: &mut Session<K, B>) -> Result<Par, NoAnswer> {
    let mut area = [0; 4096];
    let par = Par {
        fits: session.fits(),
        need: session.need(&mut area).ok(),
    };
    if let Some(need) = par.need {
        hints_lead(session, &mut area, need)?;
    }
    Ok(par)
}

// What is told of a pattern and a row over one bank.
fn answer<K: Kind, B: Bank>(heap: Global, pattern: &[u8], row: &[u8]) -> Result<Par, NoAnswer> {
    let mut session = open_on::<K, B>(heap, pattern, B::new())?;
    let symbols = read_row::<K>(heap, row)?;
    session.lay_row(symbols.as_slice())?;
    tell(&mut session)
}

// The words for what is told over one bank.
fn said<K: Kind, B: Bank>(heap: Global, pattern: &[u8], row: &[u8]) -> Result<String, AllocError> {
    match answer::<K, B>(heap, pattern, row) {
        Ok(par) => format!(in heap; "{par}"),
        Err(e) => format!(in heap; "{e}"),
    }
}

// What is told over every bank: one answer, or that of each.
pub(crate) fn over_banks<K: Kind>(
    heap: Global,
    pattern: &[u8],
    row: &[u8],
) -> Result<String, AllocError> {
    let bit = said::<K, BitBank>(heap, pattern, row)?;
    let list = said::<K, ListBank>(heap, pattern, row)?;
    let mask_bit = said::<K, MaskLayer<BitBank>>(heap, pattern, row)?;
    let mask_list = said::<K, MaskLayer<ListBank>>(heap, pattern, row)?;
    if list == bit && mask_bit == bit && mask_list == bit {
        Ok(bit)
    } else {
        format!(in heap;
            "bit bank {bit}, list bank {list}, mask layer over the bit bank {mask_bit}, over the list bank {mask_list}"
        )
    }
}
