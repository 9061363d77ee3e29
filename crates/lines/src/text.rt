// A line that is printed: bytes in a fixed buffer, to whose end numbers and words are put. There is no heap, and printing can't fail: so no `Vec`
// or `String`, which can run out of memory, and no `write!` for the digits, which answers a `Result`.
ghost use Rattle.std.specs.Prelude.{◌≡◌, List, ℕ, [], ◌∷◌, ◌++◌, ◌+◌, ◌%◌, ◌≤◌, ◌<◌, nat_abs, length, take};
ghost use Rattle.lines.specs.declared.text.TheConstants.{ROOM};
ghost use Rattle.lines.specs.Text.{decimal as text_decimal, signed as text_signed, Written};

use std::marker::Model;

// Room for a line.
pub const ROOM: usize = 33;

#[derive(Drop)]
pub struct Text {
    bytes: [u8; ROOM],
    end: usize,
}

// A contract sees the bytes that were put, in order.
impl Model for Text {
    ghost Value = { List ℕ };

    ghost view = { λ t. take t.end t.bytes };

    ghost invariant = { λ t. t.end ≤ ROOM };
}

// A byte in lent bytes, at an offset. This and `digits` answer the offset after what they wrote.
fn put(bytes: &mut [u8], at: usize, byte: u8) -> usize
    requires { at < length bytes.old }
    ensures { Written (byte ∷ []) bytes.old at result bytes.new }
{
    bytes[at] = byte;
    at + 1
}

// The ASCII digit of the ones of n.
fn ones(n: u64) -> u8
    ensures { result ≡ 48 + n % 10 }
{
    b'0' + (n % 10) as u8
}

// All digits of a number, all but the ones first. (The offset goes from call to call by value, which takes less time than a field.)
fn digits(bytes: &mut [u8], at: usize, n: u64) -> usize
    requires { at + length (text_decimal n) ≤ length bytes.old }
    ensures { Written (text_decimal n) bytes.old at result bytes.new }
{
    if n < 10 {
        put(bytes, at, ones(n))
    } else {
        let end = digits(bytes, at, n / 10);
        put(bytes, end, ones(n))
    }
}

impl Text {
    pub fn new() -> Self
        ensures { result ≡ [] }
    {
        Text {
            bytes: [0; ROOM],
            end: 0,
        }
    }

    // The text laid down in lent bytes, from an offset on. Answers the offset after it.
    pub fn lay(&self, out: &mut [u8], at: usize) -> usize
        requires { at + length self.now ≤ length out.old }
        ensures { Written self.now out.old at result out.new }
    {
        let end = at + self.end;
        out[at..end].copy_from_slice(&self.bytes[..self.end]);
        end
    }

    pub fn put(&mut self, byte: u8)
        requires { length self.old < ROOM }
        ensures { self.new ≡ self.old ++ byte ∷ [] }
    {
        self.bytes[self.end] = byte;
        self.end += 1;
    }

    // The bytes of a word.
    pub fn word(&mut self, word: &[u8])
        requires { length self.old + length word.now ≤ ROOM }
        ensures { self.new ≡ self.old ++ word.now }
    {
        let end = self.end + word.len();
        self.bytes[self.end..end].copy_from_slice(word);
        self.end = end;
    }

    pub fn decimal(&mut self, n: u64)
        requires { length self.old + length (text_decimal n) ≤ ROOM }
        ensures { self.new ≡ self.old ++ text_decimal n }
    {
        self.end = digits(&mut self.bytes, self.end, n);
    }

    pub fn signed(&mut self, n: i64)
        requires { length self.old + length (text_signed n) ≤ ROOM }
        ensures { self.new ≡ self.old ++ text_signed n }
    {
        if n < 0 {
            self.put(b'-');
        }
        self.decimal(n.unsigned_abs());
    }
}
