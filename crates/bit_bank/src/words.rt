ghost use Rattle.std.specs.Prelude.{◌≡◌, ℕ, ◌+◌, ◌*◌, ◌/◌, ◌<◌, ◌≤◌, true, ◌&&◌, ◌||◌, if◌then◌else◌, length, Decides, ◌==◌, ◌≢◌, nat_le, nat_lt, slice_index};
ghost use Rattle.bits.specs.Bit.{bit_at};
ghost use Rattle.bit_bank.specs.Join.{joined};

// Not methods: a struct around one array would hold no fact, and each clause would read through it.

/// Sets bit `k` of the row that begins at the word `from`.
pub(crate) fn put(words: &mut [u64; 128], from: usize, k: usize)
    requires room { from + k / 64 < 128 }
    ensures { (a : ℕ) → bit_at words.new a ≡ (bit_at words.old a || a == (64 * from + k)) }
{
    words[from + k / 64] |= 1u64 << (k % 64);
}

/// Clears the first `n` words.
pub(crate) fn clear(words: &mut [u64; 128], n: usize)
    requires room { n ≤ 128 }
    ensures { (a : ℕ) → bit_at words.new a ≡ (nat_le (64 * n) a && bit_at words.old a) }
{
    // By a loop: `fill` was tried; it writes the last word apart, and makes each turn slower.
    for word in words[..n].iter_mut() {
        *word = 0;
    }
}

/// Copies the first `n` words of `src`.
pub(crate) fn copy(dst: &mut [u64; 128], src: &[u64; 128], n: usize)
    requires room { n ≤ 128 }
    ensures { (a : ℕ) → bit_at dst.new a ≡ (if nat_lt a (64 * n) then bit_at src.now a else bit_at dst.old a) }
{
    dst[..n].copy_from_slice(&src[..n]);
}

/// Joins the first `n` bits of the row that begins at the word `from` of `src` into the row that begins at the word `to` of `dst`,
/// each of them `UP` places up, which is 0 or 1.
// By whole arrays and where the rows begin: of two fields of a bank, one of them for writing, no parts can be lent at once.
pub(crate) fn join<const UP: usize>(
    dst: &mut [u64; 128],
    src: &[u64; 128],
    to: usize,
    from: usize,
    n: usize,
)
    requires up { UP ≤ 1 }
    requires room { (to + n / 64 < 128) × (from + n / 64 < 128) }
    ensures { (a : ℕ) → bit_at dst.new a ≡ joined dst.old src.now (64 * to + UP) (64 * from) (64 * to + UP + n) a }
{
    let full = n / 64;
    let mut over = 0;
    // By index: a `zip` has none, and what is joined so far is told by it, of all bits of `dst`.
    for (k, word) in src[from..from + full].iter().enumerate() {
        let word = *word; // read once
        dst[to + k] |= (word << UP) | over;
        over = (word >> 1) >> (63 - UP);
    }
    let last = src[from + full] & ((1u64 << (n % 64)) - 1);
    dst[to + full] |= (last << UP) | over;
}

/// Whether one of the words has a bit.
fn any_word(words: &[u64]) -> bool
    ensures { Decides result ((k : ℕ) × (k < length words.now) × (slice_index words.now k ≢ 0)) }
{
    words.iter().any(|word| *word != 0)
}

/// Whether one of the bits `lo..hi` of the row `src` is set.
pub(crate) fn any(src: &[u64], lo: usize, hi: usize) -> bool
    requires room { hi / 64 < length src.now }
    ensures { Decides result ((x : ℕ) × (lo ≤ x) × (x < hi) × (bit_at src.now x ≡ true)) }
{
    if lo >= hi {
        return false;
    }
    let (first, last) = (lo / 64, hi / 64);
    let head = (src[first] >> (lo % 64)) << (lo % 64);
    let below = (1u64 << (hi % 64)) - 1;
    if first == last {
        return head & below != 0;
    }
    head != 0 || any_word(&src[first + 1..last]) || src[last] & below != 0
}
