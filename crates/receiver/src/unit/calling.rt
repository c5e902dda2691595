ghost use Rattle.std.specs.Prelude.{◌≡◌};
ghost use Rattle.receiver.specs.declared.answer.Call.TheVariants.{Step as StepCall, Look};
ghost use Rattle.receiver.specs.declared.answer.Answer.TheVariants.{Reading as ReadingAnswer};
ghost use Rattle.receiver.specs.Units.{lists, due};
ghost use Rattle.receiver.specs.Receiving.{standing_new, answer_of, left_by, LeftLawful, answered, closed, refusal_number};
ghost use Rattle.receiver.specs.declared.answer.Subject.TheVariants.{Reading as ReadingOf};

use super::Receiver;
use crate::answer::{Answer, Call, Closing, Step, StepRefusal, Subject};
use crate::fed::FedChannel;
use model::feed::Feed;
use model::side::Side;
use model::source::EdgeSource;
use serial::format::SerialFormat;

impl StepRefusal {
    pub fn number(self) -> u16
        ensures { result ≡ refusal_number self }
    {
        self as u16
    }
}

impl<SA: EdgeSource, SB: EdgeSource, FA: SerialFormat, FB: SerialFormat> Receiver<SA, SB, FA, FB> {
    // A unit of two sources, with newly prepared channels.
    pub fn new(a: Feed<SA>, b: Feed<SB>) -> Receiver<SA, SB, FA, FB>
        ensures new { result ≡ standing_new a.settings b.settings (lists (SA.events a.source) (SB.events b.source)) }
    {
        Receiver {
            a: FedChannel::new(a),
            b: FedChannel::new(b),
        }
    }

    // The channel whose event is next.
    fn next_side(&self) -> Option<Side>
        ensures { result ≡ due self.now.state.left_a self.now.state.left_b }
    {
        match (self.a.source.look(), self.b.source.look()) {
            (Some(a), Some(b)) if b.time() < a.time() => Some(Side::B),
            (Some(_), _) => Some(Side::A),
            (None, Some(_)) => Some(Side::B),
            (None, None) => None,
        }
    }

    // The event of the smaller time, channel A's where both are equal, is taken and given to its channel. That what is left is lawful
    // stands in each contract: of a type with a model a caller sees the value alone, and no fact of the fields.
    pub fn step(&mut self) -> Result<Step<FA::Message, FB::Message>, StepRefusal>
        ensures answer { answered result ≡ answer_of FA.meaning FB.meaning self.old StepCall }
        ensures left { self.new ≡ left_by FA.meaning FB.meaning self.old StepCall }
        ensures lawful { LeftLawful self.old }
    {
        match self.next_side().ok_or(StepRefusal::NoEvent)? {
            Side::A => {
                let (time, reports) = self.a.step()?;
                Ok(Step::A { time, reports })
            }
            Side::B => {
                let (time, reports) = self.b.step()?;
                Ok(Step::B { time, reports })
            }
        }
    }

    // The reading of a channel.
    pub fn reading(&self, side: Side) -> Option<u16>
        ensures reading { ReadingAnswer result ≡ answer_of FA.meaning FB.meaning self.now (Look (ReadingOf side)) }
        ensures lawful { LeftLawful self.now }
    {
        match side {
            Side::A => self.a.channel.reading(),
            Side::B => self.b.channel.reading(),
        }
    }

    // The answer to a call.
    pub fn call(&mut self, call: Call) -> Answer<FA::Message, FB::Message>
        ensures answer { result ≡ answer_of FA.meaning FB.meaning self.old call }
        ensures left { self.new ≡ left_by FA.meaning FB.meaning self.old call }
        ensures lawful { LeftLawful self.old }
    {
        match call {
            // tried: no proof is made of `map_or_else`, since a refusal does not name the messages of an answer
            Call::Step => match self.step() {
                Ok(step) => Answer::Stepped(step),
                Err(why) => Answer::Refused(why),
            },
            Call::Look(Subject::Reading(side)) => Answer::Reading(self.reading(side)),
        }
    }

    // Ends the unit: what each channel has given.
    pub fn close(self) -> Closing
    where
        SA: Drop,
        SB: Drop,
        ensures { result ≡ closed self.state }
    {
        let Receiver { a, b } = self;
        Closing {
            a: a.close(),
            b: b.close(),
        }
    }
}
