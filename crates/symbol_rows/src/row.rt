ghost use Rattle.std.specs.Prelude.{◌≡◌, ℕ, length, MatchResult};
ghost use Rattle.refusals.specs.declared.Refusal.TheVariants.{Symbol, Memory};
ghost use Rattle.symbol_rows.specs.Rows.{AllSymbols, Spells, spelling, codes_of, ReadRefused, RowRefused};

use refusals::Refusal;
use std::alloc::Global;
use symbols::Kind;
use thiserror::Error;

/// Why a row was refused, and how many symbols stand before the one that was.
#[derive(Clone, Copy, PartialEq, Eq, Debug, Error)]
#[error("refused {} at {before}", .refusal.number())]
pub struct RowRefusal {
    pub refusal: Refusal,
    pub before: usize,
}

// The refusal behind so many symbols.
fn behind<E: Into<Refusal>>(e: E, before: usize) -> RowRefusal
    ensures { E.converts e result.refusal × (result.before ≡ before) }
{
    RowRefusal {
        refusal: e.into(),
        before,
    }
}

/// The row that these bytes spell, or refusal 10 at the first unit that is none (also one that is cut off).
pub fn read_row<K: Kind>(heap: Global, text: &[u8]) -> Result<Vec<K::Symbol>, RowRefusal>
    ensures { MatchResult result (λ row. Spells K.Kind text.now row.items) (λ e. ReadRefused K.Kind text.now e) }
{
    let mut row = Vec::new(heap);
    for unit in text.chunks(K::unit_length()) {
        let before = row.len();
        let symbol = K::unspell(unit).map_err(|e| behind(e, before))?;
        row.push(symbol).map_err(|e| behind(e, before))?;
    }
    Ok(row)
}

/// The bytes that spell a row, or refusal 10 at the first value that is no symbol.
pub fn spell_row<K: Kind>(heap: Global, row: &[K::Symbol]) -> Result<Vec<u8>, RowRefusal>
    ensures { MatchResult result (λ bytes. Spells K.Kind bytes.items row.now) (λ e. RowRefused K.Kind row.now e) }
{
    let mut bytes = Vec::new(heap);
    for (before, symbol) in row.iter().enumerate() {
        let spelled = K::spell(*symbol).map_err(|e| behind(e, before))?;
        bytes
            .extend_from_slice(&spelled[..K::unit_length()])
            .map_err(|e| behind(e, before))?;
    }
    Ok(bytes)
}

/// The codes of a row's symbols, or refusal 10 at the first value that is no symbol.
pub fn row_codes<K: Kind>(heap: Global, row: &[K::Symbol]) -> Result<Vec<u8>, RowRefusal>
    ensures { MatchResult result (λ codes. AllSymbols K.Kind row.now × (codes.items ≡ codes_of K.Kind row.now)) (λ e. RowRefused K.Kind row.now e) }
{
    let mut codes = Vec::new(heap);
    for (before, symbol) in row.iter().enumerate() {
        let code = K::code_of(*symbol).map_err(|e| behind(e, before))?;
        codes.push(code).map_err(|e| behind(e, before))?;
    }
    Ok(codes)
}
