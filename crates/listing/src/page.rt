// Bytes, digits and numbers behind one another.
ghost use Rattle.std.specs.Prelude.{◌≡◌, ℕ, ◌+◌, ◌<◌, ◌≤◌, [], ◌∷◌, ◌++◌, map, length, decimal, slice_index};
ghost use Rattle.listing.specs.Lines.{hex_digit};

use itoa::write_digits;
use std::marker::Model;

// Bytes that are gathered, in room for N: some 110 instructions a line, where a `Vec` or `ArrayVec` takes 190, each number by a second buffer.
#[derive(Drop)]
pub(crate) struct Page<const N: usize> {
    bytes: [u8; N],
    len: usize,
}

impl<const N: usize> Model for Page<N> {
    ghost use Rattle.std.specs.Prelude.{◌≡◌, ℕ, ◌≤◌, List, length, take};

    ghost Value = { List ℕ };

    ghost view = { λ p. take p.len p.bytes };

    ghost invariant = { λ p. (p.len ≤ N) × (length p.bytes ≡ N) };
}

impl<const N: usize> Page<N> {
    pub(crate) fn new() -> Self
        ensures { result ≡ [] }
    {
        Page {
            bytes: [0u8; N],
            len: 0,
        }
    }

    pub(crate) fn len(&self) -> usize
        ensures { result ≡ length self.now }
    {
        self.len
    }

    pub(crate) fn as_slice(&self) -> &[u8]
        ensures { result.now ≡ self.now }
    {
        &self.bytes[..self.len]
    }

    pub(crate) fn clear(&mut self)
        ensures { self.new ≡ [] }
    {
        self.len = 0;
    }

    pub(crate) fn push(&mut self, byte: u8)
        requires { length self.old < N }
        ensures { self.new ≡ self.old ++ byte ∷ [] }
    {
        let len = self.len;
        self.bytes[len] = byte;
        self.len = len + 1;
    }

    // The space between two fields.
    pub(crate) fn space(&mut self)
        requires { length self.old < N }
        ensures { self.new ≡ self.old ++ 32 ∷ [] }
    {
        self.push(b' ');
    }

    // The line feed behind the last field.
    pub(crate) fn end(&mut self)
        requires { length self.old < N }
        ensures { self.new ≡ self.old ++ 10 ∷ [] }
    {
        self.push(b'\n');
    }

    // A number in decimal. Of one digit, as most of a short line, it is written without a count of its digits.
    pub(crate) fn decimal(&mut self, n: u64)
        requires { length self.old + length (decimal n) ≤ N }
        ensures { self.new ≡ self.old ++ decimal n }
    {
        if n < 10 {
            self.push(b'0' + n as u8);
        } else {
            self.digits(n);
        }
    }

    fn digits(&mut self, n: u64)
        requires { length self.old + length (decimal n) ≤ N }
        ensures { self.new ≡ self.old ++ decimal n }
    {
        let end = self.len + digit_count(n);
        write_digits(n, &mut self.bytes, end);
        self.len = end;
    }

    // The digits of nibbles, as one field.
    pub(crate) fn nibbles(&mut self, nibbles: &[u8])
        requires { (length self.old + length nibbles.now ≤ N) × ((i : ℕ) → slice_index nibbles.now i < 16) }
        ensures { self.new ≡ self.old ++ map hex_digit nibbles.now }
    {
        for nibble in nibbles {
            self.push(hex(*nibble) as u8);
        }
    }
}

// The upper-case hexadecimal digit of a nibble: digits and letters are matched as chars here, as marks are.
pub(crate) fn hex(nibble: u8) -> char
    requires { nibble < 16 }
    ensures digit { result ≡ hex_digit nibble }
    ensures ascii { result < 128 }
{
    match nibble {
        0 => '0',
        1 => '1',
        2 => '2',
        3 => '3',
        4 => '4',
        5 => '5',
        6 => '6',
        7 => '7',
        8 => '8',
        9 => '9',
        10 => 'A',
        11 => 'B',
        12 => 'C',
        13 => 'D',
        14 => 'E',
        _ => 'F',
    }
}

// How many decimal digits a number has.
fn digit_count(n: u64) -> usize
    ensures { result ≡ length (decimal n) }
{
    n.checked_ilog10().unwrap_or(0) as usize + 1
}
