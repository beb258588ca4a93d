// ginreplug: reads sheet.gin in the current folder and a recorded run on standard input, plugs the heads in every order,
// and prints what each order sees, and whether every verdict agrees.
#![tactic(auto)]

use ginfiles::sheet_bytes;
use replug::text::replug_text;
use replug::trouble::Trouble;
use std::io::{Read, Write};

// Prints the text, or the fault of the sheet or the run.
fn show(rt: &HostRuntime) -> anyhow::Result<()> {
    let sheet = sheet_bytes(rt)?;
    let mut run = Vec::new(rt.alloc());
    rt.stdin().read_to_end(&mut run)?;
    match replug_text(rt.alloc(), sheet.as_slice(), run.as_slice()) {
        Ok(text) => rt.stdout().write_all(text.as_bytes())?,
        Err(Trouble::Fault(fault)) => println!(rt; "{fault}")?,
        Err(trouble) => return Err(trouble.into()),
    }
    Ok(())
}

fn main(rt: HostRuntime) -> anyhow::Result<()> {
    show(&rt)
}
