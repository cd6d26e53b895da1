//! Reads two lines, a kind and a pattern, and prints a report on the pattern.

#![tactic(auto)]

use input::read_input;
use pattern_report::report_pattern;

fn main(rt: HostRuntime) -> anyhow::Result<()> {
    let bytes = read_input(rt.alloc(), rt.stdin())?;
    match report_pattern(rt.alloc(), bytes.as_slice()) {
        Ok(report) => println!(rt; "{report}")?,
        Err(e) => println!(rt; "{e}")?,
    }
    Ok(())
}
