// Bytes as pairs of hexadecimal digits.
ghost use Rattle.std.specs.Prelude.{◌<◌, IfOk};

use anyhow::anyhow;
use std::alloc::Global;
use std::fmt;

// stands for no bytes
const NOTHING: &str = "-";

// Bytes as the text that means them.
#[derive(Clone, Copy)]
pub(crate) struct Hex<'a>(pub(crate) &'a [u8]);

impl fmt::Display for Hex<'_> {
    fn fmt<W: fmt::Write>(&self, f: &mut fmt::Formatter<W>) -> fmt::Result {
        for byte in self.0 {
            write!(f, "{byte:02x}")?;
        }
        Ok(())
    }
}

// Only these digits: the kit's `hex` and `to_digit` read capital letters too.
fn digit(c: u8) -> anyhow::Result<u8>
    ensures { IfOk result (λ d. d < 16) }
{
    match c {
        b'0'..=b'9' => Ok(c - b'0'),
        b'a'..=b'f' => Ok(c - b'a' + 10),
        _ => Err(anyhow!("not a hexadecimal digit")),
    }
}

fn byte(pair: &[u8]) -> anyhow::Result<u8> {
    let [high, low] = pair else {
        return Err(anyhow!("an odd number of hexadecimal digits"));
    };
    Ok(digit(*high)? * 16 + digit(*low)?)
}

// The bytes that a text means. No `FromStr`: a `Vec` takes its allocator.
pub(crate) fn bytes(heap: Global, text: &str) -> anyhow::Result<Vec<u8>> {
    let mut bytes = Vec::new(heap);
    if text == NOTHING {
        return Ok(bytes);
    }
    for pair in text.as_bytes().chunks(2) {
        bytes.push(byte(pair)?)?;
    }
    Ok(bytes)
}
