// One channel: pulses, serial pairs, the latest frame, and counts.
use crate::answer::Figures;
use pulses::decoder::Decoder;
use pulses::frame::FrameRow;
use serial::window::Window;
use std::marker::Model;

// The latest frame is there as long as no fault of the pulses came after it.
#[derive(Drop)]
pub struct Channel<F> {
    decoder: Decoder,
    window: Window<F>,
    latest: Option<FrameRow>,
    figures: Figures,
}

// Clauses see how the channel is set up, and its state.
impl<F> Model for Channel<F> {
    ghost use Rattle.receiver.specs.Standing.{ChannelStanding, channel_of};

    ghost Value = { ChannelStanding };

    ghost view = { λ c. channel_of c.decoder c.window c.latest c.figures };
}

pub mod stepping;
