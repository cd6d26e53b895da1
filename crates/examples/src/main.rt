//! Runs examples through the public calls, over every bank.
//!
//! Each line of the input is a kind, a pattern and a row, with blanks between them. For each the program prints the line and what `par` would say of it;
//! where the banks differ, what each one says. Where a row has a need, hints are followed, and the row must fit after just as many symbols.

#![tactic(auto)]

mod answers;
mod lines;

use alphabets::Alphabet;
use answers::over_banks;
use input::{first_line, read_input, split_once};
use lines::as_text;
use std::alloc::Global;
use symbols::{Letters, Tiles};

// The line of one example and what is said of it.
fn run(heap: Global, line: &[u8]) -> anyhow::Result<String> {
    let (kind, rest) = split_once(line, b' ');
    let (pattern, row) = split_once(rest, b' ');
    let said = match Alphabet::try_from(kind).unwrap_or(Alphabet::Letters) {
        Alphabet::Letters => over_banks::<Letters>(heap, pattern, row)?,
        Alphabet::Tiles => over_banks::<Tiles>(heap, pattern, row)?,
    };
    let shown = as_text(heap, line)?;
    Ok(format!(in heap; "{shown}: {said}")?)
}

fn main(rt: HostRuntime) -> anyhow::Result<()> {
    let bytes = read_input(rt.alloc(), rt.stdin())?;
    let mut rest = bytes.as_slice();
    // By `while`: `first_line` parts off one line at a time.
    while !rest.is_empty() {
        let (line, more) = first_line(rest);
        let said = run(rt.alloc(), line)?;
        println!(rt; "{said}")?;
        rest = more;
    }
    Ok(())
}
