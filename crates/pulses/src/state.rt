// Where a channel stands between two events.
use crate::interval::LastEdge;
use crate::partial::Partial;

#[derive(Clone, Copy)]
pub(crate) enum State {
    // there is no last edge
    Lost,
    // a calibration pulse is looked for
    Hunting(LastEdge),
    // a frame has just ended: a calibration pulse is due
    Expecting(LastEdge),
    // a frame is being received
    Inside(LastEdge, Partial),
}
