// A text of fixed room. The kit's `ArrayString` holds UTF-8 alone, which a file's bytes need not be, and its `ArrayVec` has no append of a slice that
// cannot fail. What is put here has no `Display`: `fmt` answers a `Result`, and a report or a listing that fits cannot fail.
ghost use Rattle.std.specs.Prelude.{◌≡◌, [], ◌∷◌, ◌++◌, ◌+◌, ◌<◌, ◌≤◌, length};
ghost use Rattle.printing.specs.Decimal.{decimal, numeral};

use super::number::Number;
use std::marker::Model;

/// A text of at most `N` bytes, which lie in the value itself: nothing allocates.
#[derive(Drop)]
pub struct Text<const N: usize> {
    bytes: [u8; N],
    len: usize,
}

// Clauses see the bytes.
impl<const N: usize> Model for Text<N> {
    ghost use Rattle.std.specs.Prelude.{ℕ, ◌≤◌, List, take};

    ghost Value = { List ℕ };

    ghost view = { λ t. take t.len t.bytes };

    ghost invariant = { λ t. t.len ≤ N };
}

impl<const N: usize> Text<N> {
    pub fn new() -> Self
        ensures { result ≡ [] }
    {
        Text {
            bytes: [0; N],
            len: 0,
        }
    }

    pub fn as_bytes(&self) -> &[u8]
        ensures value { result.now ≡ self.now }
        ensures fits { length result.now ≤ N }
    {
        &self.bytes[..self.len]
    }

    pub fn clear(&mut self)
        ensures { self.new ≡ [] }
    {
        self.len = 0;
    }

    pub fn push(&mut self, byte: u8)
        requires { length self.old < N }
        ensures { self.new ≡ self.old ++ byte ∷ [] }
    {
        self.bytes[self.len] = byte;
        self.len += 1;
    }

    pub fn put(&mut self, bytes: &[u8])
        requires { length self.old + length bytes.now ≤ N }
        ensures { self.new ≡ self.old ++ bytes.now }
    {
        let start = self.len;
        let end = start + bytes.len();
        let room = &mut self.bytes[..];
        word::copy::copy(&mut room[start..end], bytes);
        self.len = end;
    }

    pub fn put_decimal(&mut self, n: u64)
        requires { length self.old + length (decimal n) ≤ N }
        ensures { self.new ≡ self.old ++ decimal n }
    {
        let mut digits = [0u8; 20];
        let count = io::decimal(n, &mut digits);
        self.put(&digits[..count]);
    }

    // A number, after a minus where it is negative.
    pub fn put_number<V: Number>(&mut self, v: V)
        requires { length self.old + length (numeral (V.number v)) ≤ N }
        ensures { self.new ≡ self.old ++ numeral (V.number v) }
    {
        if v.is_negative() {
            self.push(b'-');
        }
        self.put_decimal(v.magnitude());
    }
}
