// The line of one report.
#![tactic(auto, using(crate::proofs::Sizes::sizes), unfolding(crate::specs::Lines::four_fields))]

ghost use Rattle.std.specs.Prelude.{◌≡◌, ◌+◌, ◌^◌, ◌<◌, ◌≤◌, ◌++◌, length, decimal};
ghost use Rattle.model.specs.Sides.{side_letter};
ghost use Rattle.listing.specs.Lines.{details, following, lettered, four_fields, line, closing_line, refused_letter, refusal_line};
ghost use Rattle.listing.specs.Pages.{Grows};
ghost use Rattle.listing.specs.Written.{LineWritten};
ghost use Rattle.listing.specs.Worked.{WorkedLines};
ghost use Rattle.listing.specs.Laws.{NoLineLongerThan48, LinesTellReportsApart};

use crate::page::{Page, hex};
use crate::report::{LineRefusal, LineReport};
use model::event::TIME_LIMIT;
use model::side::Side;
use unitfile::file::FileRefusal;

// As many bytes have room for every line.
pub const MOST_BYTES: usize = 48;

// Of which channel a line tells, how many data nibbles its frames have, and at what time.
// A `Line` is a caller's and holds any numbers; a head is within its limits.
#[derive(Clone, Copy)]
pub(crate) struct Head {
    pub(crate) side: Side,
    pub(crate) nibbles: u8,
    pub(crate) time: u64,
    ghost few: { nibbles ≤ 6 },
    ghost early: { time < 2 ^ 40 },
}

pub(crate) fn letter_of(side: Side) -> u8
    ensures { result ≡ side_letter side }
{
    side.letter() as u8
}

// The letter of the refused channel, or a dash where it is the file as a whole.
fn refused_letter(side: Option<Side>) -> u8
    ensures { result ≡ refused_letter side }
{
    side.map_or(b'-', letter_of)
}

// Each writer asks for room: a page may be full, so no invariant can say that there is some.
impl<const N: usize> Page<N> {
    // A letter, a number, a letter and a number: channel, time, kind and place of a report.
    fn four_fields(&mut self, first: u8, number: u64, second: u8, place: u32)
        requires { (length self.old + 28 ≤ N) × (number < 2 ^ 40) }
        ensures wrote { self.new ≡ self.old ++ four_fields first number second place }
        ensures short { length self.new ≤ length self.old + 28 }
    {
        self.push(first);
        self.space();
        self.decimal(number);
        self.space();
        self.push(second);
        self.space();
        self.decimal(u64::from(place));
    }

    // A letter and two numbers, which end a line.
    fn lettered(&mut self, letter: u8, first: u32, second: u32)
        requires { length self.old + (length (decimal first) + length (decimal second) + 4) ≤ N }
        ensures { self.new ≡ self.old ++ lettered letter first second }
    {
        self.push(letter);
        self.space();
        self.decimal(u64::from(first));
        self.space();
        self.decimal(u64::from(second));
        self.end();
    }

    // The fields behind the place, and the line feed.
    fn details(&mut self, nibbles: u8, report: LineReport)
        requires { (length self.old + 15 ≤ N) × (nibbles ≤ 6) }
        ensures wrote { self.new ≡ self.old ++ following (details nibbles report) }
        ensures short { length self.new ≤ length self.old + 15 }
    {
        self.space();
        match report {
            LineReport::Frame(row) => {
                let frame = row.frame();
                self.push(hex(frame.status()) as u8);
                self.space();
                let values = frame.nibbles();
                self.nibbles(&values[..usize::from(nibbles)]);
                self.end();
            }
            LineReport::Short { message, .. } => {
                self.lettered(b'S', u32::from(message.id), u32::from(message.data));
            }
            LineReport::Enhanced { message, .. } => {
                self.lettered(b'E', u32::from(message.id), u32::from(message.data));
            }
            LineReport::Fault(fault) => {
                self.decimal(u64::from(fault.kind.number()));
                self.end();
            }
        }
    }

    // The line of a report, where there is room for every line.
    #[tactic(auto, unfolding(crate::specs::Lines::line))]
    pub(crate) fn line(&mut self, head: Head, report: LineReport)
        requires { length self.old + 48 ≤ N }
        ensures { Grows self.old self.new (line head.side head.nibbles head.time report) 48 }
    {
        self.four_fields(
            letter_of(head.side),
            head.time,
            report.letter(),
            report.place(),
        );
        self.details(head.nibbles, report);
    }

    // The closing line: how many frames each channel received.
    pub(crate) fn closing(&mut self, frames_a: u32, frames_b: u32)
        requires { length self.old + 48 ≤ N }
        ensures { Grows self.old self.new (closing_line frames_a frames_b) 48 }
    {
        self.lettered(b'Z', frames_a, frames_b);
    }

    // The line that stands for a refused file.
    pub(crate) fn refusal(&mut self, refusal: FileRefusal)
        requires { length self.old + 48 ≤ N }
        ensures { Grows self.old self.new (refusal_line refusal) 48 }
    {
        self.four_fields(
            b'R',
            u64::from(refusal.number()),
            refused_letter(refusal.side()),
            refusal.place(),
        );
        self.end();
    }
}

// A report of a channel whose frames have so many data nibbles, as a line tells it.
#[derive(Clone, Copy, PartialEq, Eq, Debug)]
pub struct Line {
    pub side: Side,
    pub nibbles: u8,
    pub time: u64,
    pub report: LineReport,
}

impl Line {
    // Writes the line into a buffer, and answers how many bytes that took; what stands behind them stays.
    // A refusal writes nothing.
    #[tactic(auto, using(crate::proofs::Sizes::lines_short, crate::proofs::Apart::reports_told_apart, crate::proofs::Reading::worked_lines))]
    pub fn write(self, buffer: &mut [u8]) -> Result<usize, LineRefusal>
        ensures written { LineWritten self buffer.old buffer.new result }
        ensures no_line_longer_than_48 { NoLineLongerThan48 }
        ensures lines_tell_reports_apart { LinesTellReportsApart }
        ensures lines_read_so { WorkedLines }
    {
        let Line {
            side,
            nibbles,
            time,
            report,
        } = self;
        if !(1..=6).contains(&nibbles) {
            return Err(LineRefusal::Nibbles);
        }
        if time >= TIME_LIMIT {
            return Err(LineRefusal::Time);
        }
        if buffer.len() < MOST_BYTES {
            return Err(LineRefusal::Buffer);
        }
        let mut page: Page<MOST_BYTES> = Page::new();
        page.line(
            Head {
                side,
                nibbles,
                time,
            },
            report,
        );
        let count = page.len();
        buffer[..count].copy_from_slice(page.as_slice());
        Ok(count)
    }
}
