// Text in a fixed buffer.
#![tactic(auto)]

ghost use Rattle.std.specs.Prelude.{[], ◌∷◌, ◌+◌, ◌≤◌, ◌≡◌, length, take};
ghost use Rattle.text.specs.Text.{Puts};

use std::fmt;

// Puts the text into the output from `used` on, and answers where it ends. Where there is no room for all of it nothing changes, and the
// answer is `used`.
// A list with how much of it is used: `Puts` speaks of both.
pub fn put(output: &mut [u8], used: usize, text: &[u8]) -> usize
    ensures few { result ≤ used + length text.now }
    ensures puts { Puts output.old used text.now result output.new }
{
    if output.len() < used || output.len() - used < text.len() {
        return used;
    }
    let end = used + text.len();
    output[used..end].copy_from_slice(text);
    end
}

// The same of one byte.
pub fn put_byte(output: &mut [u8], used: usize, byte: u8) -> usize
    ensures few { result ≤ used + 1 }
    ensures puts { Puts output.old used (byte ∷ []) result output.new }
{
    if output.len() <= used {
        return used;
    }
    output[used] = byte;
    used + 1
}

// Text that waits to be written: the first bytes of a buffer of N.
#[derive(Drop)]
pub struct Text<const N: usize> {
    bytes: [u8; N],
    used: usize,
    ghost within: { used ≤ N },
}

impl<const N: usize> Text<N> {
    pub fn new() -> Text<N>
        ensures { result.used ≡ 0 }
    {
        Text {
            bytes: [0; N],
            used: 0,
        }
    }

    // How many bytes there is room for.
    pub fn room(&self) -> usize
        ensures { result + self.now.used ≡ N }
    {
        N - self.used
    }

    // The text.
    pub fn as_bytes(&self) -> &[u8]
        ensures { result.now ≡ take self.now.used self.now.bytes }
    {
        &self.bytes[..self.used]
    }

    // Puts a text behind the one that waits, and answers where it ends. Where there is no room for all of it nothing changes.
    pub fn push(&mut self, text: &[u8]) -> usize
        ensures end { self.new.used ≡ result }
        ensures few { result ≤ self.old.used + length text.now }
        ensures puts { Puts self.old.bytes self.old.used text.now result self.new.bytes }
    {
        let end = put(&mut self.bytes, self.used, text);
        self.used = end.min(N);
        self.used
    }

    // The same of one byte.
    pub fn push_byte(&mut self, byte: u8) -> usize
        ensures end { self.new.used ≡ result }
        ensures few { result ≤ self.old.used + 1 }
        ensures puts { Puts self.old.bytes self.old.used (byte ∷ []) result self.new.bytes }
    {
        let next = put_byte(&mut self.bytes, self.used, byte);
        self.used = next.min(N);
        self.used
    }

    // Forgets the text, once it is written; how many bytes it had.
    pub fn clear(&mut self) -> usize
        ensures { (result ≡ self.old.used) × (self.new.used ≡ 0) }
    {
        let had = self.used;
        self.used = 0;
        had
    }
}

// Where there is no room for all of a text nothing is written.
impl<const N: usize> fmt::Write for Text<N> {
    ghost use Rattle.text.specs.Text.{Follows};

    ghost write_str_gives = { λ was text is. Follows was.bytes was.used text is.used is.bytes };

    fn write_str(&mut self, s: &str) -> fmt::Result {
        let had = self.used;
        if self.push(s.as_bytes()) == had && !s.is_empty() {
            return Err(fmt::Error);
        }
        Ok(())
    }
}
