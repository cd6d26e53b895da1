//! Reads two lines, a kind and a row, and prints a report on the row.

#![tactic(auto)]

use input::read_input;
use row_report::report_row;

fn main(rt: HostRuntime) -> anyhow::Result<()> {
    let bytes = read_input(rt.alloc(), rt.stdin())?;
    match report_row(rt.alloc(), bytes.as_slice()) {
        Ok(report) => println!(rt; "{report}")?,
        Err(e) => println!(rt; "{e}")?,
    }
    Ok(())
}
