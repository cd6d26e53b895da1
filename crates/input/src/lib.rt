//! What the programs read: a bounded input, taken apart into two lines.
//!
//! `read_input` takes at most `LIMIT` bytes of a stream and ignores the rest. `first_line` parts a text at its first line end, and
//! `two_lines` gives its first two lines; further lines are ignored.
//!
//! `two_lines(b"letters\nabc\n")` is `(b"letters", b"abc")`.

#![tactic(auto)]

ghost use Rattle.std.specs.Prelude.{◌≤◌, IfOk, vec_len};
ghost use Rattle.input.specs.Lines.{Parted, FirstLine, TwoLines};

use std::alloc::Global;
use std::io;
use std::io::Read;

/// How many bytes are read at the most.
pub const LIMIT: usize = 8192;

/// The first bytes of a stream, at most `LIMIT` of them.
pub fn read_input<R: Read + Drop>(heap: Global, stream: R) -> io::Result<Vec<u8>>
    ensures bound { IfOk result (λ bytes. vec_len bytes ≤ 8192) }
{
    let mut bytes = Vec::new(heap);
    stream.take(8192).read_to_end(&mut bytes)?;
    bytes.truncate(LIMIT);
    Ok(bytes)
}

/// What stands before the first byte that is `mark`, and what comes behind it; the whole text and nothing where there is none.
pub fn split_once(text: &[u8], mark: u8) -> (&[u8], &[u8])
    ensures { Parted mark text.now result.0.now result.1.now }
{
    match text.iter().position(|b| *b == mark) {
        Some(end) => (&text[..end], &text[end + 1..]),
        None => (text, &[]),
    }
}

/// The first line of a text, and what comes behind it.
pub fn first_line(text: &[u8]) -> (&[u8], &[u8])
    ensures { FirstLine text.now result.0.now result.1.now }
{
    split_once(text, b'\n')
}

/// The first two lines of a text.
pub fn two_lines(text: &[u8]) -> (&[u8], &[u8])
    ensures { TwoLines text.now result.0.now result.1.now }
{
    let (first, rest) = first_line(text);
    let (second, _more) = first_line(rest);
    (first, second)
}
