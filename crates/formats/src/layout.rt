// A format by the positions of its bits.
ghost use Rattle.std.specs.Prelude.{◌≡◌, ◌^◌, ◌<◌, ◌≤◌, length, map, slice_index_or, []};
ghost use Rattle.formats.specs.Positions.{read, each, spelled};

use serial::pair::Pair;
use std::array;

// The place of a bit in a list of pairs: bit 3 or bit 2 of the pair with this number, counted from 0.
#[derive(Clone, Copy)]
pub enum Position {
    Bit3(usize),
    Bit2(usize),
}

impl Position {
    // The bit that stands there; past the end of the pairs it is 0.
    pub(crate) fn read(self, pairs: &[Pair]) -> bool
        ensures { result ≡ read pairs.now self }
    {
        match self {
            Position::Bit3(k) => pairs.get(k).is_some_and(|pair| pair.high),
            Position::Bit2(k) => pairs.get(k).is_some_and(|pair| pair.low),
        }
    }
}

// How many pairs there are, which bits are 1 and which are 0 in every list, the groups of bits that the check runs over,
// and the bits of the check itself.
pub struct Layout<const GROUPS: usize, const WIDTH: usize> {
    pub size: usize,
    pub ones: &'static [Position],
    pub zeros: &'static [Position],
    pub covered: [[Position; WIDTH]; GROUPS],
    pub check_bits: [Position; WIDTH],
}

// The number that the bits at some positions make, highest first.
pub(crate) fn number(pairs: &[Pair], at: &[Position]) -> u16
    requires { length at.now ≤ 16 }
    ensures value { result ≡ spelled pairs.now at.now }
    ensures small { result < 2 ^ length at.now }
{
    at.iter().fold(0, |n, position| (n << 1) + u16::from(position.read(pairs)))
}

// The same of at most eight bits, which always fit.
pub(crate) fn byte(pairs: &[Pair], at: &[Position]) -> u8
    requires { length at.now ≤ 8 }
    ensures { result ≡ spelled pairs.now at.now }
{
    number(pairs, at) as u8
}

// Whether each of the bits at some positions is `bit`.
fn each_is(bit: bool, pairs: &[Pair], at: &[Position]) -> bool
    ensures { result ≡ each bit pairs.now at.now }
{
    at.iter().all(|position| position.read(pairs) == bit)
}

impl<const GROUPS: usize, const WIDTH: usize> Layout<GROUPS, WIDTH> {
    ghost use Rattle.formats.specs.Layout.{framed_by, layout_of};

    // Whether the pairs match the framing.
    pub(crate) fn frames(&self, pairs: &[Pair]) -> bool
        ensures { result ≡ framed_by (layout_of self.now) pairs.now }
    {
        pairs.len() == self.size
            && each_is(true, pairs, self.ones)
            && each_is(false, pairs, self.zeros)
    }

    // The numbers that the check runs over. Each format runs a check of its own over them.
    pub(crate) fn groups(&self, pairs: &[Pair]) -> [u8; GROUPS]
        requires { WIDTH ≤ 8 }
        ensures { result ≡ map (spelled pairs.now) (layout_of self.now).covered }
    {
        let covered = &self.covered;
        array::from_fn(
            |k| -> u8
                requires inside { k < GROUPS }
                requires narrow { WIDTH ≤ 8 }
                ensures { result ≡ spelled pairs.entry.now (slice_index_or covered.entry.now k []) }
            { byte(pairs, &covered[k]) },
        )
    }
}
