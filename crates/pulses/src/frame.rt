// A received frame, and the plain row that stands for it.
ghost use Rattle.std.specs.Prelude.{ℕ, ◌<◌, slice_index};

// A frame whose check nibble fitted. The place is that of the edge that starts its calibration pulse.
// There is room for six data nibbles, and those that the head does not send are zero. Every nibble is below 16.
#[derive(Clone, Copy)]
pub struct Frame {
    place: u32,
    status: u8,
    nibbles: [u8; 6],
    ghost small_status: { status < 16 },
    ghost small_nibbles: { ((i : ℕ) → slice_index nibbles i < 16) },
}

// A frame as plain numbers, for where it is stored or handed on: its six data nibbles stand in one number, the first highest.
// Its type states no limits, since anyone may make a row: whoever hands one out states them, and the way back drops other bits.
#[derive(Clone, Copy, PartialEq, Eq, Debug)]
pub struct FrameRow {
    pub place: u32,
    pub status: u8,
    pub packed: u32,
}

pub mod packing;
