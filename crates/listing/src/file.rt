// The listing of a whole unit file.
ghost use Rattle.std.specs.Prelude.{◌≡◌, ◌+◌, ◌*◌, ◌<◌, ◌≤◌, [], ◌++◌, length, IfOk, vec_len, vec_capacity, MatchResult};
ghost use Rattle.receiver.specs.Units.{lists, new};
ghost use Rattle.unitfile.specs.Files.{file_refused};
ghost use Rattle.listing.specs.Listings.{unit_listing, ceiling, Listing, ListedInTurn};
ghost use Rattle.listing.specs.Verdicts.{verdict_of};

use crate::line::MOST_BYTES;
use crate::page::Page;
use formats::enhanced::Enhanced;
use formats::short::Short;
use model::feed::Feed;
use model::source::EdgeSource;
use receiver::unit::Receiver;
use unitfile::file::UnitFile;

// Lines are gathered in a page of so many bytes, so that the listing is appended to once for many of them.
const BLOCK: usize = 4_096;

// Appends to a listing that has the room already.
// Bytes, length and room are said apart in this and the three that use it: `pass_on` keeps bytes back, the others only bound the length.
fn append(listing: &mut Vec<u8>, bytes: &[u8])
    requires { vec_len listing.old + length bytes.now ≤ vec_capacity listing.old }
    ensures items { listing.new.items ≡ listing.old.items ++ bytes.now }
    ensures len { vec_len listing.new ≡ vec_len listing.old + length bytes.now }
    ensures capacity { vec_capacity listing.old ≤ vec_capacity listing.new }
{
    listing.extend_from_slice(bytes).unwrap();
}

// Passes the bytes of a page on to the listing, once the page has no room for the lines of another step.
fn pass_on(page: &mut Page<BLOCK>, listing: &mut Vec<u8>)
    requires { vec_len listing.old + length page.old ≤ vec_capacity listing.old }
    ensures items { listing.new.items ++ page.new ≡ listing.old.items ++ page.old }
    ensures len { vec_len listing.new + length page.new ≡ vec_len listing.old + length page.old }
    ensures capacity { vec_capacity listing.old ≤ vec_capacity listing.new }
    ensures room { length page.new + 96 ≤ 4096 }
{
    if page.len() > BLOCK - 2 * MOST_BYTES {
        append(listing, page.as_slice());
        page.clear();
    }
}

// Steps a new unit until no event is left. Each line goes out as it comes, and no answer is stored.
fn list_unit<SA: EdgeSource + Drop, SB: EdgeSource + Drop>(
    a: Feed<SA>,
    b: Feed<SB>,
    out: &mut Vec<u8>,
)
    requires { vec_len out.old + (96 * (length (SA.events a.source) + length (SB.events b.source)) + 48) ≤ vec_capacity out.old }
    ensures items { out.new.items ≡ out.old.items ++ unit_listing a.settings b.settings (new (lists (SA.events a.source) (SB.events b.source))) }
    ensures len { vec_len out.new ≤ vec_len out.old + (96 * (length (SA.events a.source) + length (SB.events b.source)) + 48) }
    ensures capacity { vec_capacity out.old ≤ vec_capacity out.new }
{
    let settings_a = a.settings;
    let settings_b = b.settings;
    let mut unit: Receiver<SA, SB, Short, Enhanced> = Receiver::new(a, b);
    let mut page: Page<BLOCK> = Page::new();
    while let Ok(step) = unit.step() {
        page.step(settings_a, settings_b, step);
        pass_on(&mut page, out);
    }
    let closing = unit.close();
    page.closing(closing.a.frames, closing.b.frames);
    append(out, page.as_slice());
}

// Whether the file that was listed was accepted. No refusal goes with it: why a file is refused stands in its listing.
#[derive(Clone, Copy, PartialEq, Eq, Debug)]
pub enum Verdict {
    Accepted,
    Refused,
}

// Why a file is not listed.
#[derive(Clone, Copy, PartialEq, Eq, Debug)]
pub enum ListRefusal {
    // less room than the ceiling of the file's length
    Room,
}

// The room that the listing of a file of so many bytes may need.
pub fn room_for(length: usize) -> usize
    ensures { result ≡ ceiling length }
{
    24 * length.min(unitfile::file::MOST_BYTES) + 48
}

fn make_listing(input: &[u8], out: &mut Vec<u8>) -> Verdict
    requires { (out.old.items ≡ []) × ((vec_len out.old ≡ 0) × (ceiling (length input.now) ≤ vec_capacity out.old)) }
    ensures listing { Listing input.now out.new.items }
    ensures verdict { result ≡ verdict_of (file_refused input.now) }
    ensures short { vec_len out.new ≤ ceiling (length input.now) }
    ensures capacity { vec_capacity out.old ≤ vec_capacity out.new }
{
    match UnitFile::read(input) {
        Ok(file) => {
            let (a, b) = file.open();
            list_unit(a, b, out);
            Verdict::Accepted
        }
        Err(why) => {
            let mut page: Page<MOST_BYTES> = Page::new();
            page.refusal(why);
            append(out, page.as_slice());
            Verdict::Refused
        }
    }
}

// The listing of a unit file, in the place of what the list held: the line of its refusal, or the lines of all reports in the order of the
// steps and the closing line. The list needs the room of the file's length already, and is left as it was if it has not.
pub fn list(input: &[u8], out: &mut Vec<u8>) -> Result<Verdict, ListRefusal>
    ensures refused_exactly_for_want_of_room { MatchResult result (λ _. ceiling (length input.now) ≤ vec_capacity out.old) (λ _. vec_capacity out.old < ceiling (length input.now)) }
    ensures listing_of_the_file { MatchResult result (λ _. Listing input.now out.new.items) (λ _. out.new.items ≡ out.old.items) }
    ensures answered_in_turn { ListedInTurn input.now }
    ensures no_longer_than_the_ceiling { MatchResult result (λ _. vec_len out.new ≤ ceiling (length input.now)) (λ _. vec_len out.new ≡ vec_len out.old) }
    ensures room_stays { MatchResult result (λ _. vec_capacity out.old ≤ vec_capacity out.new) (λ _. vec_capacity out.new ≡ vec_capacity out.old) }
    ensures verdict_of_the_file { IfOk result (λ v. v ≡ verdict_of (file_refused input.now)) }
{
    if out.capacity() < room_for(input.len()) {
        return Err(ListRefusal::Room);
    }
    out.clear();
    Ok(make_listing(input, out))
}
