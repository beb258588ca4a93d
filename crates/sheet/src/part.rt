// A part of a file, and the place where it stands.
ghost use Rattle.std.specs.Prelude.{◌≡◌, ◌+◌, ◌^◌, ◌<◌, ◌≤◌, length, take, drop};

// The bytes of a file that stand at a place; every place in them is below 2 ^ 64.
#[derive(Clone, Copy)]
pub(crate) struct Part<'a> {
    pub(crate) bytes: &'a [u8],
    pub(crate) at: usize,
    ghost near: { at + length bytes.now < 2 ^ 64 },
}

impl<'a> Part<'a> {
    // What stands behind the first `size` bytes.
    pub(crate) fn behind(self, size: usize) -> Part<'a>
        requires { size ≤ length self.bytes.now }
        ensures bytes { result.bytes.now ≡ drop size self.entry.bytes.now }
        ensures at { result.at ≡ self.entry.at + size }
    {
        Part {
            bytes: &self.bytes[size..],
            at: self.at + size,
        }
    }

    // Hands out the first `size` bytes, and goes on behind them.
    pub(crate) fn front(&mut self, size: usize) -> Part<'a>
        requires { size ≤ length self.old.bytes.now }
        ensures front { result.bytes.now ≡ take size self.old.bytes.now }
        ensures front_at { result.at ≡ self.old.at }
        ensures rest { self.new.bytes.now ≡ drop size self.old.bytes.now }
        ensures rest_at { self.new.at ≡ self.old.at + size }
    {
        let front = Part {
            bytes: &self.bytes[..size],
            at: self.at,
        };
        *self = self.behind(size);
        front
    }
}
