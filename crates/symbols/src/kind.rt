ghost use Rattle.std.specs.Prelude.{◌≡◌, ℕ, ◌<◌, ◌≤◌, Bool, true, false, List, length, take, if◌then◌else◌, MatchResult, ◌≢◌, nat_eq, nat_lt};
ghost use Rattle.refusals.specs.declared.Refusal.TheVariants.{Symbol as NoSymbol, Code as NoCode};
ghost use Rattle.symbols.specs.Answers.{answer};

use refusals::Refusal;

/// A kind of symbols. Values of the type `Symbol` outside the kind may exist; they are no symbols, and every call refuses them.
pub trait Kind {
    type Symbol: Copy;

    /// How many bytes a unit has.
    const UNIT: usize;

    // How many codes the kind has: the codes are the numbers below this.
    ghost codes: { ℕ };

    // Whether a value is a symbol of the kind.
    ghost valid: { Self.Symbol → Bool };

    // The code of a symbol.
    ghost code: { Self.Symbol → ℕ };

    // The symbol of a code.
    ghost symbol: { ℕ → Self.Symbol };

    // How many bytes a unit has: the value of UNIT.
    ghost unit_length: { ℕ };

    // Two bytes, of which the first unit_length are the symbol's unit.
    ghost spelled: { Self.Symbol → List ℕ };

    /// The code of a symbol, or refusal 10.
    fn code_of(s: Self::Symbol) -> Result<u8, Refusal>
        ensures { result ≡ answer (valid s) (code s) NoSymbol };

    /// The symbol of a code, or refusal 12 for a number that is no code.
    fn symbol_of(c: u8) -> Result<Self::Symbol, Refusal>
        ensures { result ≡ answer (nat_lt c codes) (symbol c) NoCode };

    /// How many bytes a unit has.
    // Beside `UNIT`: a clause cannot cite a constant of a generic kind.
    fn unit_length() -> usize
        ensures { result ≡ unit_length };

    /// The unit of a symbol as two bytes, or refusal 10. For a unit of one byte the second is 0.
    // Two bytes for each kind: an array of `UNIT` would need a computed const argument.
    fn spell(s: Self::Symbol) -> Result<[u8; 2], Refusal>
        ensures { result ≡ answer (valid s) (spelled s) NoSymbol };

    /// The symbol whose unit these bytes are, or refusal 10 for any other bytes.
    fn unspell(u: &[u8]) -> Result<Self::Symbol, Refusal>
        ensures { MatchResult result
            (λ s. (valid s ≡ true) × (take unit_length (spelled s) ≡ u.now))
            (λ e. (e ≡ NoSymbol) × ((s : Self.Symbol) → valid s ≡ true → take unit_length (spelled s) ≢ u.now)) };

    ghost few: { codes ≤ 64 };

    ghost short: { (1 ≤ unit_length) × (unit_length ≤ 2) };

    // Patterns know two alphabets: of 26 codes in units of one byte, and of 40 codes in units of two.
    ghost alphabet: { codes ≡ (if nat_eq unit_length 1 then 26 else 40) };

    ghost long: { (s : Self.Symbol) → length (spelled s) ≡ 2 };

    ghost bounded: { (s : Self.Symbol) → valid s ≡ true → code s < codes };

    // No two symbols share a code.
    ghost apart: { (s t : Self.Symbol) → valid s ≡ true → valid t ≡ true → code s ≡ code t → s ≡ t };

    // The symbol of a code has that code.
    ghost named: { (n : ℕ) → n < codes → (valid (symbol n) ≡ true) × (code (symbol n) ≡ n) };

    // No two symbols share a unit, so that spelling reads back.
    ghost distinct: { (s t : Self.Symbol) → valid s ≡ true → valid t ≡ true → take unit_length (spelled s) ≡ take unit_length (spelled t) → s ≡ t };
}
