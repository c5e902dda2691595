ghost use Rattle.std.specs.Prelude.{◌≡◌, ℕ, ◌%◌, ◌^◌, ◌<◌, drop, slice_index};
ghost use Rattle.pulses.specs.Frames.{packed, unpacked, row, six};

use super::{Frame, FrameRow};
use crate::partial::Partial;

// The frame of the nibbles that were taken: the status nibble and six data nibbles behind it.
impl From<Partial> for Frame {
    ghost use Rattle.pulses.specs.States.{taken};

    ghost from_gives = { λ p f. (f.place ≡ p.start) × (f.status ≡ slice_index (taken p) 0) × (f.nibbles ≡ six (drop 1 (taken p))) };

    fn from(partial: Partial) -> Frame {
        let [status, a, b, c, d, e, f] = partial.kept;
        Frame {
            place: partial.start,
            status,
            nibbles: [a, b, c, d, e, f],
        }
    }
}

impl Frame {
    // The place of the edge that starts the frame.
    pub fn place(&self) -> u32
        ensures { result ≡ self.now.place }
    {
        self.place
    }

    pub fn status(&self) -> u8
        ensures value { result ≡ self.now.status }
        ensures below_sixteen { result < 16 }
    {
        self.status
    }

    // The data nibbles, first to last, and zeros behind them.
    pub fn nibbles(&self) -> [u8; 6]
        ensures value { result ≡ self.now.nibbles }
        ensures below_sixteen { (i : ℕ) → slice_index result i < 16 }
    {
        self.nibbles
    }

    // The row that stands for the frame: unpacked, it is the frame again. A method, as is the way back: a `From` could state
    // what each promises only as one fact without the names of its parts.
    pub fn row(&self) -> FrameRow
        ensures plain { result ≡ row self.now.place self.now.status self.now.nibbles }
        ensures nibbles_below_sixteen { (result.status < 16) × (result.packed < 2 ^ 24) }
        ensures unpacks { unpacked result.packed ≡ self.now.nibbles }
    {
        let [a, b, c, d, e, f] = self.nibbles;
        let packed = u32::from_be_bytes([0, a * 16 + b, c * 16 + d, e * 16 + f]);
        FrameRow {
            place: self.place,
            status: self.status,
            packed,
        }
    }
}

impl FrameRow {
    // The frame that the row stands for. Bits that no row of a frame has are dropped.
    pub fn frame(self) -> Frame
        ensures placed { result.place ≡ self.place }
        ensures status_kept { result.status ≡ self.status % 16 }
        ensures nibbles_unpacked { result.nibbles ≡ unpacked self.packed }
        ensures packs_again { packed result.nibbles ≡ self.packed % 2 ^ 24 }
    {
        let [_, ab, cd, ef] = self.packed.to_be_bytes();
        Frame {
            place: self.place,
            status: self.status % 16,
            nibbles: [ab / 16, ab % 16, cd / 16, cd % 16, ef / 16, ef % 16],
        }
    }
}
