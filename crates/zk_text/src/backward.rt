ghost use Rattle.std.specs.Prelude.{◌≡◌, ◌<◌, ◌≤◌, ◌++◌, ◌+◌, ◌∷◌, [], decimal, length};
ghost use Rattle.zk_text.specs.declared.backward.TheConstants.{ROOM};

use itoa::write_digits;

/// The most bytes that such a text may have.
pub const ROOM: usize = 48;

/// A short text that is written from its end to its front.
#[derive(Clone, Copy, Debug)]
pub struct Backward {
    bytes: [u8; ROOM],
    start: usize,
    ghost within: { start ≤ ROOM },
}

impl Backward {
    ghost use Rattle.zk_text.specs.Backward.{written, room};

    /// Nothing written yet.
    pub fn new() -> Backward
        ensures written { written result ≡ [] }
        ensures room { room result ≡ ROOM }
    {
        Backward {
            bytes: [0; ROOM],
            start: ROOM,
        }
    }

    /// What was written.
    pub fn text(&self) -> &[u8]
        ensures text { result.now ≡ written self.now }
        ensures len { length result.now + room self.now ≡ ROOM }
    {
        &self.bytes[self.start..]
    }

    /// Writes a piece before what was written.
    pub fn put(&mut self, piece: &[u8])
        requires { length piece.now ≤ room self.old }
        ensures written { written self.new ≡ piece.now ++ written self.old }
        ensures room { room self.new + length piece.now ≡ room self.old }
    {
        let start = self.start - piece.len();
        self.bytes[start..self.start].copy_from_slice(piece);
        self.start = start;
    }

    /// Writes a byte before what was written.
    pub fn put_byte(&mut self, byte: u8)
        requires { 0 < room self.old }
        ensures written { written self.new ≡ byte ∷ written self.old }
        ensures room { room self.new + 1 ≡ room self.old }
    {
        self.start -= 1;
        self.bytes[self.start] = byte;
    }

    /// Writes the decimal digits of a number before what was written.
    pub fn put_decimal(&mut self, n: u64)
        requires { length (decimal n) ≤ room self.old }
        ensures written { written self.new ≡ decimal n ++ written self.old }
        ensures room { room self.new + length (decimal n) ≡ room self.old }
    {
        self.start = write_digits(n, &mut self.bytes, self.start);
    }
}
