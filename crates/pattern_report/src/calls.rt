ghost use Rattle.pattern_report.specs.Reports.{Reports};

use crate::data::{Report, ReportError};
use alphabets::Alphabet;
use descriptions::describe;
use input::two_lines;
use std::alloc::Global;

/// The report on an input of two lines.
pub fn report_pattern<'a>(heap: Global, input: &'a [u8]) -> Result<Report<'a>, ReportError<'a>>
    ensures { Reports input.now result }
{
    let (first, second) = two_lines(input);
    let kind = Alphabet::try_from(first)?;
    let described = describe(heap, kind, second).map_err(|e| ReportError::Refused(second, e))?;
    Ok(Report { described })
}
