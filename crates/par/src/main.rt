//! Reads two lines, a letters pattern and a row, and prints whether the row fits and its need, or what was refused.

#![tactic(auto)]

use input::read_input;
use par_report::{ParError, report_par};

fn main(rt: HostRuntime) -> anyhow::Result<()> {
    let bytes = read_input(rt.alloc(), rt.stdin())?;
    match report_par(rt.alloc(), bytes.as_slice()) {
        Ok(par) => println!(rt; "{par}")?,
        Err(e @ ParError::Memory) => return Err(e.into()),
        Err(refused) => println!(rt; "{refused}")?,
    }
    Ok(())
}
