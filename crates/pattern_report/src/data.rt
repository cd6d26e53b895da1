ghost use Rattle.std.specs.Prelude.{◌≡◌};
ghost use Rattle.pattern_report.specs.declared.data.ReportError.TheVariants.{UnknownKind as NoKind};

use alphabets::UnknownAlphabet;
use descriptions::Description;
use refusals::Refusal;

/// What is told of an input: a pattern of the kind that was named.
#[derive(Drop)]
pub struct Report<'a> {
    pub described: Description<'a>,
}

/// Why an input is not reported on.
#[derive(Clone, Copy)]
pub enum ReportError<'a> {
    /// These bytes are refused as a pattern of the kind that was named.
    Refused(&'a [u8], Refusal),
    /// The first line names no kind.
    UnknownKind,
}

// By hand: the `From` that `#[from]` writes promises nothing.
impl<'a> From<UnknownAlphabet> for ReportError<'a> {
    ghost from_gives = { λ _ e. e ≡ NoKind };

    fn from(_unknown: UnknownAlphabet) -> ReportError<'a> {
        ReportError::UnknownKind
    }
}
