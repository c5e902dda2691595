// A channel beside what it is fed from.
ghost use Rattle.std.specs.Prelude.{◌≡◌, [], MatchResult};
ghost use Rattle.model.specs.Events.{rest};
ghost use Rattle.receiver.specs.declared.answer.StepRefusal.TheVariants.{NoEvent};
ghost use Rattle.receiver.specs.Standing.{channel_new, ruled};
ghost use Rattle.receiver.specs.Receiving.{fed_by};
ghost use Rattle.receiver.specs.Units.{TellsFirst, figures};

use crate::answer::{Figures, Reports, StepRefusal};
use crate::channel::Channel;
use model::feed::Feed;
use model::source::EdgeSource;
use serial::format::SerialFormat;

// A channel beside the source that feeds it: one side of a unit.
pub(crate) struct FedChannel<S, F> {
    pub source: S,
    pub channel: Channel<F>,
}

impl<S: EdgeSource, F: SerialFormat> FedChannel<S, F> {
    // A newly prepared channel beside its source.
    pub fn new(feed: Feed<S>) -> FedChannel<S, F>
        ensures source { result.source ≡ feed.source }
        ensures new { result.channel ≡ channel_new feed.settings }
    {
        FedChannel {
            source: feed.source,
            channel: Channel::prepare(feed.settings),
        }
    }

    // The channel is given the first event of its source: the event's time, and what the channel reports.
    pub fn step(&mut self) -> Result<(u64, Reports<F::Message>), StepRefusal>
        ensures answer { MatchResult result (λ x. TellsFirst (ruled self.old.channel.settings F.meaning) self.old.channel.state (S.events self.old.source) x.0 x.1) (λ e. (S.events self.old.source ≡ []) × (e ≡ NoEvent)) }
        ensures left { S.events self.new.source ≡ rest (S.events self.old.source) }
        ensures channel { self.new.channel ≡ fed_by F.meaning self.old.channel (S.events self.old.source) }
    {
        let event = self.source.take().ok_or(StepRefusal::NoEvent)?;
        let reports = self.channel.step(event).unwrap();
        Ok((event.time(), reports))
    }

    // Ends both: what the channel has given.
    pub fn close(self) -> Figures
    where
        S: Drop,
        ensures { result ≡ figures self.channel.state }
    {
        let FedChannel { source: _, channel } = self;
        channel.figures()
    }
}
