// The lines of a step.
ghost use Rattle.std.specs.Prelude.{◌+◌, ◌^◌, ◌<◌, ◌≤◌, ◌++◌, length};
ghost use Rattle.listing.specs.Listings.{pulse_lines, serial_lines, step_lines, step_time};
ghost use Rattle.listing.specs.Pages.{Grows};

use crate::line::Head;
use crate::page::Page;
use crate::report::{LineMessage, LineReport};
use formats::enhanced::EnhancedMessage;
use formats::short::ShortMessage;
use model::settings::Settings;
use model::side::Side;
use pulses::outcome::Outcome;
use receiver::answer::{Reports, Step};
use serial::report::SerialReport;

impl<const N: usize> Page<N> {
    fn pulse(&mut self, head: Head, outcome: Outcome)
        requires { length self.old + 48 ≤ N }
        ensures { Grows self.old self.new (pulse_lines head.side head.nibbles head.time outcome) 48 }
    {
        match outcome {
            Outcome::Quiet | Outcome::Skipped => {}
            Outcome::Framed(row) => self.line(head, LineReport::Frame(row)),
            Outcome::Failed(fault) => self.line(head, LineReport::Fault(fault)),
        }
    }

    fn serial<M: LineMessage>(&mut self, head: Head, serial: Option<SerialReport<M>>)
        requires { length self.old + 48 ≤ N }
        ensures { Grows self.old self.new (serial_lines M.told head.side head.nibbles head.time serial) 48 }
    {
        match serial {
            None => {}
            Some(SerialReport::Told { place, message }) => self.line(head, message.report(place)),
            Some(SerialReport::Failed { fault }) => self.line(head, LineReport::Fault(fault)),
        }
    }

    // What a channel reports at one event: the pulse line before the serial line.
    fn reports<M: LineMessage>(
        &mut self,
        side: Side,
        settings: Settings,
        time: u64,
        reports: Reports<M>,
    )
        requires { (time < 2 ^ 40) × (length self.old + 96 ≤ N) }
        ensures { Grows self.old self.new (pulse_lines side settings.nibbles time reports.pulse ++ serial_lines M.told side settings.nibbles time reports.serial) 96 }
    {
        let head = Head {
            side,
            nibbles: settings.nibbles(),
            time,
        };
        self.pulse(head, reports.pulse);
        self.serial(head, reports.serial);
    }

    pub(crate) fn step(
        &mut self,
        a: Settings,
        b: Settings,
        step: Step<ShortMessage, EnhancedMessage>,
    )
        requires { (step_time step < 2 ^ 40) × (length self.old + 96 ≤ N) }
        ensures { Grows self.old self.new (step_lines a.nibbles b.nibbles step) 96 }
    {
        match step {
            Step::A { time, reports } => self.reports(Side::A, a, time, reports),
            Step::B { time, reports } => self.reports(Side::B, b, time, reports),
        }
    }
}
