//! A report on a row: its kind, its symbols' codes, and the row spelled again from its symbols.
//!
//! The input is two lines: `letters` or `tiles`, and a row spelled in that kind's units. `report_row` answers a `Report`, or a `ReportError`:
//! the refusal of the row, with the number of symbols before the unit that is none, or that the first line names no kind. Both print themselves.
//!
//! For the lines `tiles` and `R0Y9` the codes are 0 and 39.

#![tactic(auto)]

ghost use Rattle.std.specs.Prelude.{◌≡◌};
ghost use Rattle.alphabets.specs.declared.UnknownAlphabet.{UnknownAlphabet as Unknown};
ghost use Rattle.symbol_rows.specs.declared.row.RowRefusal.{RowRefusal as RefusedRow};
ghost use Rattle.row_report.specs.Described.{Described};
ghost use Rattle.row_report.specs.Reports.{Reports, DescribedAs};
ghost use Rattle.row_report.specs.declared.ReportError.TheVariants.{Refused, UnknownKind};

use alphabets::{Alphabet, UnknownAlphabet};
use input::two_lines;
use std::alloc::Global;
use std::fmt;
use symbol_rows::{RowRefusal, read_row, row_codes, spell_row};
use symbols::{Kind, Letters, Tiles};
use thiserror::Error;

/// What is told of a row: the codes of its symbols, and the bytes that spell them.
#[derive(Drop)]
pub struct Row {
    pub codes: Vec<u8>,
    pub spelled: Vec<u8>,
}

/// What is told of an input: a row of the kind that was named.
#[derive(Drop)]
pub struct Report {
    pub kind: Alphabet,
    pub row: Row,
}

/// Why an input is not reported on.
#[derive(Clone, Copy, PartialEq, Eq, Debug, Error)]
pub enum ReportError {
    /// No row of the kind that was named.
    #[error("{0}")]
    Refused(RowRefusal),
    /// The first line names no kind.
    #[error("the first line must be letters or tiles")]
    UnknownKind,
}

// By hand: the `From` that `#[from]` writes promises nothing.
impl From<RowRefusal> for ReportError {
    ghost from_gives = { λ r e. e ≡ Refused r };

    fn from(refusal: RowRefusal) -> ReportError {
        ReportError::Refused(refusal)
    }
}

// By hand: the `From` that `#[from]` writes promises nothing.
impl From<UnknownAlphabet> for ReportError {
    ghost from_gives = { λ _ e. e ≡ UnknownKind };

    fn from(_unknown: UnknownAlphabet) -> ReportError {
        ReportError::UnknownKind
    }
}

/// The codes and the spelling of the row that these bytes spell.
pub fn describe<K: Kind>(heap: Global, bytes: &[u8]) -> Result<Row, RowRefusal>
    ensures { Described K.Kind bytes.now result }
{
    let row = read_row::<K>(heap, bytes)?;
    let codes = row_codes::<K>(heap, row.as_slice())?;
    let spelled = spell_row::<K>(heap, row.as_slice())?;
    Ok(Row { codes, spelled })
}

/// Describes a row of the kind that was named.
// By a match: the kind is named as the program runs, and its type has to be known before.
pub fn describe_as(heap: Global, kind: Alphabet, bytes: &[u8]) -> Result<Row, RowRefusal>
    ensures { DescribedAs kind bytes.now result }
{
    match kind {
        Alphabet::Letters => describe::<Letters>(heap, bytes),
        Alphabet::Tiles => describe::<Tiles>(heap, bytes),
    }
}

/// The report on an input of two lines.
pub fn report_row(heap: Global, input: &[u8]) -> Result<Report, ReportError>
    ensures { Reports input.now result }
{
    let (first, second) = two_lines(input);
    let kind = Alphabet::try_from(first)?;
    let row = describe_as(heap, kind, second)?;
    Ok(Report { kind, row })
}

impl fmt::Display for Row {
    fn fmt<W: fmt::Write>(&self, f: &mut fmt::Formatter<W>) -> fmt::Result {
        let count = self.codes.len();
        write!(f, "symbols: {count}\ncodes:")?;
        for c in &self.codes {
            write!(f, " {c}")?;
        }
        write!(f, "\nrow:")?;
        if count > 0 {
            write!(f, " ")?;
        }
        for b in &self.spelled {
            let c = *b as char;
            write!(f, "{c}")?;
        }
        Ok(())
    }
}

impl fmt::Display for Report {
    fn fmt<W: fmt::Write>(&self, f: &mut fmt::Formatter<W>) -> fmt::Result {
        write!(f, "kind: {}\n{}", self.kind, self.row)
    }
}
