// A unit file, read field by field.
ghost use Rattle.std.specs.Prelude.{◌≡◌, true, false, [], length, take, drop, IfOk, Some, None, MatchOption, MatchResult};
ghost use Rattle.model.specs.declared.side.Side.TheVariants.{A as ChannelA, B as ChannelB};
ghost use Rattle.records.specs.Kinds.{Counter as CounterKind, Log as LogKind};
ghost use Rattle.captures.specs.Times.{capture_events};
ghost use Rattle.captures.specs.Sources.{source_left};
ghost use Rattle.unitfile.specs.Files.{file_number, file_record, file_side, head_at, laid_out, channel_refused, kind_of, file_refused, first_capture, second_capture, capture_a, capture_b, PartRead, FileRead, Encoding, EncodingsAccepted};

use captures::absolute::AbsoluteLog;
use captures::capture::Capture;
use captures::counter::CounterCapture;
use captures::events::Timing;
use captures::sound::Sound;
use model::feed::Feed;
use model::settings::{Settings, SettingsRefusal};
use model::side::Side;
use records::checking::CheckRefusal;
use records::record::{Counter, Log, Recording};

// The most bytes that a unit file may have.
pub const MOST_BYTES: usize = 60_000;

// The bytes before the captures.
const HEADER: usize = 20;

// What the header says of one channel.
#[derive(Clone, Copy, PartialEq, Eq, Debug)]
pub struct Head {
    pub calibration: u32,
    pub nibbles: u8,
    pub length: u32,
}

// What a unit file holds of one channel: how it is set up, and its capture, which is accepted.
#[derive(Clone, Copy)]
pub struct UnitChannel<'a, K: Recording> {
    pub settings: Settings,
    pub capture: Sound<'a, K>,
}

// What a unit file holds: a counter capture for channel A, and an absolute log for channel B.
#[derive(Clone, Copy)]
pub struct UnitFile<'a> {
    pub a: UnitChannel<'a, Counter>,
    pub b: UnitChannel<'a, Log>,
}

// What the header says, without the captures: the settings of both channels, and the length of A's capture. It borrows nothing, and
// `captures` finds the captures in the bytes again.
#[derive(Clone, Copy)]
pub struct Outline {
    pub a: Settings,
    pub b: Settings,
    pub length_a: u32,
}

// A's counter capture and B's absolute log.
#[derive(Clone, Copy)]
pub struct Captures<'a> {
    pub a: &'a [u8],
    pub b: &'a [u8],
}

// A unit file that was read and whose captures are open. Both sources have no event where the file is refused.
#[derive(Drop)]
pub struct OpenFile<'a> {
    pub counter: CounterCapture<'a>,
    pub log: AbsoluteLog<'a>,
    pub file: Result<UnitFile<'a>, FileRefusal>,
}

// Why a unit file is refused.
#[derive(Clone, Copy, PartialEq, Eq, Debug)]
pub enum FileRefusal {
    // a short header, another mark, captures that do not fill the file, or too many bytes
    Layout,
    // the settings of a channel
    Channel { side: Side, why: SettingsRefusal },
    // the capture of a channel
    Capture { side: Side, why: CheckRefusal },
}

impl FileRefusal {
    pub fn number(self) -> u16
        ensures { result ≡ file_number self }
    {
        // no case carries its number: two of them hold a refusal with one of its own
        match self {
            FileRefusal::Layout => 10,
            FileRefusal::Channel { why, .. } => why.number(),
            FileRefusal::Capture { why, .. } => why.number(),
        }
    }

    // The record that is named, or 0 where none is: the line of a refusal has 0 for its last field then.
    pub fn place(self) -> u32
        ensures { result ≡ file_record self }
    {
        match self {
            FileRefusal::Layout | FileRefusal::Channel { .. } => 0,
            FileRefusal::Capture { why, .. } => why.place(),
        }
    }

    // The channel that is refused, if it is one.
    pub fn side(self) -> Option<Side>
        ensures { result ≡ file_side self }
    {
        match self {
            FileRefusal::Layout => None,
            FileRefusal::Channel { side, .. } | FileRefusal::Capture { side, .. } => Some(side),
        }
    }
}

impl From<[u8; 9]> for Head {
    ghost from_gives = { λ bytes head. head ≡ head_at bytes 0 };

    fn from(bytes: [u8; 9]) -> Head {
        let [k0, k1, k2, k3, nibbles, l0, l1, l2, l3] = bytes;
        Head {
            calibration: u32::from_be_bytes([k0, k1, k2, k3]),
            nibbles,
            length: u32::from_be_bytes([l0, l1, l2, l3]),
        }
    }
}

// One channel's part of a file, not judged yet.
#[derive(Clone, Copy)]
struct Part<'a> {
    head: Head,
    capture: &'a [u8],
}

// Both channels' parts, of a file that is laid out as it should be.
fn read_layout(bytes: &[u8]) -> Option<(Part<'_>, Part<'_>)>
    ensures { MatchOption result (laid_out bytes.now ≡ false) (λ p. (laid_out bytes.now ≡ true) × PartRead ChannelA bytes.now p.0 × PartRead ChannelB bytes.now p.1) }
{
    if bytes.len() > MOST_BYTES {
        return None;
    }
    let (mark, rest) = bytes.split_first_chunk::<2>()?;
    let (head_a, rest) = rest.split_first_chunk::<9>()?;
    let (head_b, captures) = rest.split_first_chunk::<9>()?;
    // a mark is compared letter by letter, as every mark is, and is not stripped as bytes
    let [first, second] = *mark;
    if first as char != 'S' || second as char != 'U' {
        return None;
    }
    let a = Head::from(*head_a);
    let b = Head::from(*head_b);
    if a.length as usize + b.length as usize != captures.len() {
        return None;
    }
    let (front, back) = captures.split_at(a.length as usize);
    Some((
        Part {
            head: a,
            capture: front,
        },
        Part {
            head: b,
            capture: back,
        },
    ))
}

// What a channel's part holds, or why it is refused: its settings, then its capture.
fn read_channel<'a, K: Recording>(
    side: Side,
    part: Part<'a>,
) -> Result<UnitChannel<'a, K>, FileRefusal>
    requires { kind_of side ≡ K.kind }
    ensures { MatchResult result (λ c. (channel_refused side part.entry.head.calibration part.entry.head.nibbles part.entry.capture.now ≡ None) × (c.settings.calibration ≡ part.entry.head.calibration) × (c.settings.nibbles ≡ part.entry.head.nibbles) × (c.capture.bytes.now ≡ part.entry.capture.now)) (λ e. channel_refused side part.entry.head.calibration part.entry.head.nibbles part.entry.capture.now ≡ Some e) }
{
    let settings = Settings::new(part.head.calibration, part.head.nibbles).map_err(
        |why| FileRefusal::Channel { side, why },
    )?;
    let capture = Sound::check(part.capture).map_err(|why| FileRefusal::Capture { side, why })?;
    Ok(UnitChannel { settings, capture })
}

impl<'a, K: Timing> UnitChannel<'a, K> {
    // What the channel is fed from: its capture, which is not checked again, under its settings.
    pub fn open(&self) -> Feed<Capture<'a, K>>
        ensures events { source_left result.source ≡ capture_events K.kind self.now.capture.bytes.now }
        ensures settings { result.settings ≡ self.now.settings }
    {
        Feed {
            source: Capture::open_sound(&self.capture),
            settings: self.settings,
        }
    }
}

impl<'a> UnitFile<'a> {
    // What a unit file holds, or why it is refused: its layout, then channel A, then channel B.
    pub fn read(bytes: &'a [u8]) -> Result<UnitFile<'a>, FileRefusal>
        ensures contents { MatchResult result (λ u. FileRead bytes.now u) (λ e. file_refused bytes.now ≡ Some e) }
        ensures accepted_is_an_encoding { IfOk result (λ u. Encoding bytes.now u) }
        ensures encodings_accepted { EncodingsAccepted bytes.now result }
    {
        let (a, b) = read_layout(bytes).ok_or(FileRefusal::Layout)?;
        let a = read_channel(Side::A, a)?;
        let b = read_channel(Side::B, b)?;
        Ok(UnitFile { a, b })
    }

    // What both channels are fed from.
    pub fn open(&self) -> (Feed<CounterCapture<'a>>, Feed<AbsoluteLog<'a>>)
        ensures a { source_left result.0.source ≡ capture_events CounterKind (capture_a self.now) }
        ensures settings_a { result.0.settings ≡ self.now.a.settings }
        ensures b { source_left result.1.source ≡ capture_events LogKind (capture_b self.now) }
        ensures settings_b { result.1.settings ≡ self.now.b.settings }
    {
        (self.a.open(), self.b.open())
    }

    // What was read, without the captures and with no borrow of the bytes.
    pub fn outline(&self) -> Outline
        ensures settings { (result.a ≡ self.now.a.settings) × (result.b ≡ self.now.b.settings) }
        ensures length_of_a { result.length_a ≡ length (capture_a self.now) }
    {
        Outline {
            a: self.a.settings,
            b: self.b.settings,
            length_a: self.a.capture.bytes.len() as u32,
        }
    }
}

// The bytes up to a place and those behind it; where there are fewer, all of them and none.
fn parted<'a>(bytes: &'a [u8], at: usize) -> Captures<'a>
    ensures front { result.a.now ≡ take at bytes.now }
    ensures back { result.b.now ≡ drop at bytes.now }
{
    let (a, b) = bytes.split_at(at.min(bytes.len()));
    Captures { a, b }
}

impl Outline {
    // The captures of the file that this was read of; where the bytes are fewer, what there is.
    pub fn captures<'a>(&self, bytes: &'a [u8]) -> Captures<'a>
        ensures a { result.a.now ≡ first_capture self.now.length_a bytes.now }
        ensures b { result.b.now ≡ second_capture self.now.length_a bytes.now }
    {
        parted(parted(bytes, HEADER).b, self.length_a as usize)
    }
}

impl<'a> OpenFile<'a> {
    // What a unit file holds, or why it is refused, with both captures opened: each is checked once for both.
    pub fn read(bytes: &'a [u8]) -> OpenFile<'a>
        ensures contents { MatchResult result.file (λ u. FileRead bytes.now u) (λ e. file_refused bytes.now ≡ Some e) }
        ensures events { MatchResult result.file (λ u. (source_left result.counter ≡ capture_events CounterKind (capture_a u)) × (source_left result.log ≡ capture_events LogKind (capture_b u))) (λ _. (source_left result.counter ≡ []) × (source_left result.log ≡ [])) }
    {
        match UnitFile::read(bytes) {
            Ok(file) => OpenFile {
                counter: Capture::open_sound(&file.a.capture),
                log: Capture::open_sound(&file.b.capture),
                file: Ok(file),
            },
            Err(why) => OpenFile {
                counter: Capture::open(&[]),
                log: Capture::open(&[]),
                file: Err(why),
            },
        }
    }
}
