//! Works stations by a script on standard input and writes the answer to each line of it.
//! The file `stdout` has the answers that are due to the script in `stdin`: `tools/brute.py` makes both, without this code.
//!
//! A script has a line for each sheet, and after it a line for each call of the station that is made of it:
//!
//!     sheet HEX      the bytes of a sheet file        made | fault NUMBER LAYER PLACE
//!     feed HEX       a frame, as the bytes of its     ok | refused 30 | refused 31 HEAD
//!                    readings, lawful or not
//!     gap                                             ok
//!     look P         the signature in position P      young | seen HEAD .. | short NUMBER | refused 32
//!     recheck P      the same                         as a look
//!     back Q H       head H, Q frames back            the reading as HEX | absent | refused 34
//!
//! HEX is pairs of digits, and `-` for no bytes. After a fault the station is the one of the empty plan.
#![tactic(auto)]

mod answers;
mod hex;
mod readings;
mod script;

use std::io;
use std::io::Write;

fn main(rt: HostRuntime) -> anyhow::Result<()> {
    run(&rt)
}

fn run(rt: &HostRuntime) -> anyhow::Result<()> {
    let heap = rt.alloc();
    let text = io::read_to_string(heap, rt.stdin())?;
    let cases = script::cases(heap, text.as_str())?;
    for case in cases.iter() {
        let answers = answers::to_case(heap, case)?;
        rt.stdout().write_all(answers.as_bytes())?;
    }
    Ok(())
}
