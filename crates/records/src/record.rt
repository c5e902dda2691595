// The records of both kinds of capture, cut out of their bytes.
ghost use Rattle.std.specs.Prelude.{◌≡◌, ◌+◌, ◌^◌, ◌<◌, ℕ, List, [], ◌∷◌, length, refl, None, Some, MatchOption, MatchResult};
ghost use Rattle.std.specs.Iterator.{YieldsFirst, item_count};
ghost use Rattle.records.specs.Kinds.{Kind, Counter as OfCounter, Log as OfLog};
ghost use Rattle.records.specs.Records.{size, records, zero_filler, timely, flaw_of};

use model::event::TIME_LIMIT;
use std::marker::PhantomData;

// The most bytes that a capture may have.
pub const MOST_BYTES: usize = 24_576;

// A record as it is written: the first letter of its mark (`mark`), the second (`letter`), and the number that its other bytes make.
#[derive(Clone, Copy)]
pub struct Record {
    pub mark: u8,
    pub letter: u8,
    pub value: u64,
}

// What can be wrong with one record, under the number that tells it.
#[derive(Clone, Copy, PartialEq, Eq, Debug)]
pub enum Flaw {
    // the capture's kind has no such mark
    Mark = 2,
    // a filler that is not zero, or a time that is too late
    Content = 3,
}

// The first record of some bytes, whose number is of at most six of them, and the bytes behind it.
#[derive(Drop)]
pub struct Cut<'a> {
    pub record: Record,
    pub rest: &'a [u8],
    ghost six_bytes: { record.value < 2 ^ 48 },
}

// What the records of a kind of capture are.
pub trait Recording: Copy {
    // which kind it is
    ghost kind: { Kind };

    ghost SIZE: { ℕ };

    // The bytes of a record.
    const SIZE: usize;

    // The first record of some bytes, if they are enough.
    fn first_record(bytes: &[u8]) -> Option<Cut<'_>>
        ensures { MatchOption result (records kind bytes.now ≡ []) (λ c. (records kind bytes.now ≡ c.record ∷ records kind c.rest.now) × (length c.rest.now + size kind ≡ length bytes.now)) };

    // Whether a record of this kind is sound, or what is wrong with it.
    fn check(of: Record) -> Result<(), Flaw>
        ensures { MatchResult result (λ _. flaw_of kind of ≡ None) (λ f. flaw_of kind of ≡ Some f) };

    // that this is the size which the kind's records are defined to have
    ghost size_is_the_kinds: { SIZE ≡ size kind };

    // that a capture's length can be divided by it
    ghost some_bytes: { 0 < SIZE };
}

// The records of some bytes, in their order.
#[derive(Drop)]
pub(crate) struct Records<'a, K> {
    rest: &'a [u8],
    of: PhantomData<K>,
}

impl<'a, K: Recording> Records<'a, K> {
    pub(crate) fn of(bytes: &'a [u8]) -> Records<'a, K>
        ensures { result.rest.now ≡ bytes.now }
    {
        Records {
            rest: bytes,
            of: PhantomData,
        }
    }
}

impl<'a, K: Recording> Iterator for Records<'a, K> {
    type Item = Record;

    ghost next_gives = { YieldsFirst (λ s. records K.kind s.rest.now) };

    ghost remaining = { item_count (λ s. records K.kind s.rest.now) };

    fn next(&mut self) -> Option<Record> {
        let cut = K::first_record(self.rest)?;
        self.rest = cut.rest;
        Some(cut.record)
    }
}

// Records of four bytes, with the value of a sixteen-bit timer.
#[derive(Clone, Copy)]
pub struct Counter;

// Records of eight bytes, with the whole time.
#[derive(Clone, Copy)]
pub struct Log;

fn filler(value: u64) -> Result<(), Flaw>
    ensures { MatchResult result (λ _. zero_filler value ≡ None) (λ f. zero_filler value ≡ Some f) }
{
    if value == 0 {
        Ok(())
    } else {
        Err(Flaw::Content)
    }
}

fn timely(value: u64) -> Result<(), Flaw>
    ensures { MatchResult result (λ _. timely value ≡ None) (λ f. timely value ≡ Some f) }
{
    if value < TIME_LIMIT {
        Ok(())
    } else {
        Err(Flaw::Content)
    }
}

impl Recording for Counter {
    ghost use Rattle.std.proofs.Common.{arith};

    ghost kind = { OfCounter };

    ghost SIZE = { 4 };

    const SIZE: usize = 4;

    ghost size_is_the_kinds = { refl };

    ghost some_bytes = { Prim.omega arith };

    fn first_record(bytes: &[u8]) -> Option<Cut<'_>> {
        let (first, rest) = bytes.split_first_chunk::<4>()?;
        let [mark, letter, high, low] = *first;
        let value = u64::from(u16::from_be_bytes([high, low]));
        let record = Record {
            mark,
            letter,
            value,
        };
        Some(Cut { record, rest })
    }

    fn check(of: Record) -> Result<(), Flaw> {
        match (of.mark as char, of.letter as char) {
            ('S', 'C') => Ok(()),
            ('S', 'O' | 'L') => filler(of.value),
            _ => Err(Flaw::Mark),
        }
    }
}

impl Recording for Log {
    ghost use Rattle.std.proofs.Common.{arith};

    ghost kind = { OfLog };

    ghost SIZE = { 8 };

    const SIZE: usize = 8;

    ghost size_is_the_kinds = { refl };

    ghost some_bytes = { Prim.omega arith };

    fn first_record(bytes: &[u8]) -> Option<Cut<'_>> {
        let (first, rest) = bytes.split_first_chunk::<8>()?;
        let [mark, letter, a, b, c, d, e, f] = *first;
        // of two numbers, which takes fewer steps than one of eight bytes with zeros before
        let high = u64::from(u16::from_be_bytes([a, b]));
        let low = u64::from(u32::from_be_bytes([c, d, e, f]));
        let value = high * 0x1_0000_0000 + low;
        let record = Record {
            mark,
            letter,
            value,
        };
        Some(Cut { record, rest })
    }

    fn check(of: Record) -> Result<(), Flaw> {
        match (of.mark as char, of.letter as char) {
            ('S', 'A') => timely(of.value),
            ('S', 'L') => filler(of.value),
            _ => Err(Flaw::Mark),
        }
    }
}
