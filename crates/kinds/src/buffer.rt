// Bytes at the front of a buffer.
ghost use Rattle.std.specs.Prelude.{◌≡◌, ◌++◌, length, drop, if◌then◌else◌, nat_le, is_ok, codes, Some};

use std::error::Error;
use std::fmt;

// The buffer has less room than the bytes need.
#[derive(Clone, Copy, PartialEq, Eq, Debug)]
pub struct NoRoom;

impl fmt::Display for NoRoom {
    ghost output = { λ _. Some (codes "no room in the buffer") };

    fn fmt<W: fmt::Write>(&self, f: &mut fmt::Formatter<W>) -> fmt::Result {
        write!(f, "no room in the buffer")
    }
}

impl Error for NoRoom {}

// Writes the bytes at the front of the buffer, or nothing where they do not fit.
pub fn write_front(bytes: &[u8], buffer: &mut [u8]) -> Result<(), NoRoom>
    ensures answer { is_ok result ≡ nat_le (length bytes.now) (length buffer.old) }
    ensures buffer { buffer.new ≡ (if nat_le (length bytes.now) (length buffer.old) then bytes.now ++ drop (length bytes.now) buffer.old else buffer.old) }
{
    if buffer.len() < bytes.len() {
        return Err(NoRoom);
    }
    buffer[..bytes.len()].copy_from_slice(bytes);
    Ok(())
}
