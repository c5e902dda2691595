// Captures that the check accepts.
ghost use Rattle.std.specs.Prelude.{⊤, ◌≡◌, [], true, false, IsNone, Some, MatchResult};
ghost use Rattle.records.specs.Checked.{checked};

use crate::part::PartRefusal;
use records::checking::{CheckRefusal, check};
use records::record::Recording;
use std::alloc::AllocError;
use std::marker::PhantomData;

// The bytes of a capture that is accepted, so that nothing that reads them asks again.
// No derive copies a generic struct that keeps a fact.
pub struct Sound<'a, K: Recording> {
    pub bytes: &'a [u8],
    of: PhantomData<K>,
    ghost accepted: { IsNone (checked K.kind bytes.now) },
}

impl<'a, K: Recording> Clone for Sound<'a, K> {
    ghost is_clone = { λ x y. y ≡ x };

    ghost is_infallible = { λ _. ⊤ };

    fn clone(&self) -> Result<Sound<'a, K>, AllocError> {
        Ok(*self)
    }
}

impl<'a, K: Recording> Copy for Sound<'a, K> {}

impl<'a, K: Recording> Sound<'a, K> {
    ghost use Rattle.captures.specs.Times.{record_count};
    ghost use Rattle.captures.specs.Parts.{has_part, part_of};

    // The capture of these bytes, or why it is refused.
    pub fn check(bytes: &'a [u8]) -> Result<Sound<'a, K>, CheckRefusal>
        ensures { MatchResult result (λ s. s.bytes.now ≡ bytes.now) (λ e. checked K.kind bytes.now ≡ Some e) }
    {
        check::<K>(bytes)?;
        Ok(Sound {
            bytes,
            of: PhantomData,
        })
    }

    // The capture of no bytes.
    pub(crate) fn empty() -> Sound<'a, K>
        ensures { result.bytes.now ≡ [] }
    {
        Sound {
            bytes: &[],
            of: PhantomData,
        }
    }

    // How many records it has.
    pub fn record_count(&self) -> u32
        ensures { result ≡ record_count K.kind self.now.bytes.now }
    {
        (self.bytes.len() / K::SIZE) as u32
    }

    // The records from one place through another, as a piece of the caller's own bytes.
    pub fn part(&self, first: u32, last: u32) -> Result<&'a [u8], PartRefusal>
        ensures { MatchResult result (λ p. (has_part K.kind self.now.bytes.now first last ≡ true) × (p.now ≡ part_of K.kind self.now.bytes.now first last)) (λ _. has_part K.kind self.now.bytes.now first last ≡ false) }
    {
        if first > last || last >= self.record_count() {
            return Err(PartRefusal::NoSuchPart);
        }
        let first = first as usize;
        let end = last as usize + 1;
        Ok(&self.bytes[first * K::SIZE..end * K::SIZE])
    }
}
