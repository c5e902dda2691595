// Whether a capture is sound, record by record.
ghost use Rattle.std.specs.Prelude.{◌≡◌, Some, None, MatchResult};
ghost use Rattle.records.specs.Checked.{checked, check_number, check_record};
ghost use Rattle.records.specs.Verdicts.{RefusedByTheFirstBadRecord};

use crate::record::{Flaw, MOST_BYTES, Recording, Records};

// Why a capture is refused.
#[derive(Clone, Copy, PartialEq, Eq, Debug)]
pub enum CheckRefusal {
    // the length is no multiple of the record's, or too great
    Length,
    // the record at this place, the first that is bad, has this flaw
    Flawed { place: u32, flaw: Flaw },
}

impl CheckRefusal {
    pub fn number(self) -> u16
        ensures { result ≡ check_number self }
    {
        // no case carries its number: one of them holds a flaw with one of its own
        match self {
            CheckRefusal::Length => 1,
            CheckRefusal::Flawed { flaw, .. } => flaw as u16,
        }
    }

    // The record that is named, or 0 where none is: the line of a refusal has 0 for its last field then.
    pub fn place(self) -> u32
        ensures { result ≡ check_record self }
    {
        match self {
            CheckRefusal::Length => 0,
            CheckRefusal::Flawed { place, .. } => place,
        }
    }
}

// The check of a capture of either kind: the length first, then the records up to the first that is bad.
pub fn check<K: Recording>(bytes: &[u8]) -> Result<(), CheckRefusal>
    ensures verdict { MatchResult result (λ _. checked K.kind bytes.now ≡ None) (λ e. checked K.kind bytes.now ≡ Some e) }
    ensures refused_by_the_first_bad_record { RefusedByTheFirstBadRecord K.kind bytes.now }
{
    if bytes.len() > MOST_BYTES || bytes.len() % K::SIZE != 0 {
        return Err(CheckRefusal::Length);
    }
    for (place, record) in Records::<K>::of(bytes).enumerate() {
        let place = place as u32;
        K::check(record).map_err(|flaw| CheckRefusal::Flawed { place, flaw })?;
    }
    Ok(())
}
