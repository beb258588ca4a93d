// The files that the programs read.
#![tactic(auto)]

use std::io::{ErrorKind, Read};
use std::{fs, io};

const SHEET: &str = "sheet.gin";

// how much of the sheet file is read, at most
const MOST_BYTES: u64 = 65_536;

// At most the first 65,536 bytes of the sheet file in the current folder; a missing file counts as empty.
pub fn sheet_bytes(rt: &HostRuntime) -> io::Result<Vec<u8>> {
    let mut bytes = Vec::new(rt.alloc());
    match fs::open(rt, SHEET) {
        Ok(file) => {
            file.take(MOST_BYTES).read_to_end(&mut bytes)?;
        }
        Err(e) => {
            if e.kind() != ErrorKind::NotFound {
                return Err(e);
            }
        }
    }
    Ok(bytes)
}
