// The sheet file in the current folder, printed in words.
use crate::text::sheet_text;
use ginfiles::sheet_bytes;
use std::io::Write;

// Prints what the sheet file says, or what is wrong with it and where.
pub fn print_sheet(rt: &HostRuntime) -> anyhow::Result<()> {
    let bytes = sheet_bytes(rt)?;
    let text = sheet_text(rt.alloc(), bytes.as_slice())?;
    rt.stdout().write_all(text.as_bytes())?;
    Ok(())
}
