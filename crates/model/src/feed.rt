// What a channel is fed from.
use crate::settings::Settings;

// A source of events, and how the channel that it is to feed is set up.
#[derive(Drop)]
pub struct Feed<S> {
    pub source: S,
    pub settings: Settings,
}
