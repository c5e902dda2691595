// The unit of two channels. It owns both sources: what it was given is read by it alone.
use crate::fed::FedChannel;
use model::source::EdgeSource;
use serial::format::SerialFormat;
use std::marker::Model;

pub struct Receiver<SA: EdgeSource, SB: EdgeSource, FA, FB> {
    a: FedChannel<SA, FA>,
    b: FedChannel<SB, FB>,
}

// Clauses see how both channels are set up, what is left of each source's list, and where each channel stands.
impl<SA: EdgeSource, SB: EdgeSource, FA, FB> Model for Receiver<SA, SB, FA, FB> {
    ghost use Rattle.receiver.specs.Receiving.{Standing, standing_of};

    ghost Value = { Standing };

    ghost view = { λ u. standing_of (SA.events u.a.source) (SB.events u.b.source) u.a.channel u.b.channel };
}

pub mod calling;
