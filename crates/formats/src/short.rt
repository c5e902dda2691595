// The short serial format.
ghost use Rattle.std.specs.Prelude.{◌≡◌};
ghost use Rattle.checks.specs.Checks.{check4};
ghost use Rattle.formats.specs.Layout.{check_fits};
ghost use Rattle.formats.specs.Short.{short, layout, ToldWithinTheFields, EachMessageHasItsList};
ghost use Rattle.formats.specs.ShortLaw.{short_lawful};
ghost use Rattle.std.proofs.Common.{refl};

use crate::layout::Position::{Bit2, Bit3};
use crate::layout::{Layout, Position, byte};
use checks::four::check4;
use serial::format::SerialFormat;
use serial::pair::Pair;

pub struct Short;

// An id of four bits and data of eight.
#[derive(Clone, Copy, PartialEq, Eq, Debug)]
pub struct ShortMessage {
    pub id: u8,
    pub data: u8,
}

// Only the first pair has bit 3 set. Bit 2 carries the id, then the data, then the check of both.
static LAYOUT: Layout<3, 4> = Layout {
    size: Short::L,
    ones: &[Bit3(0)],
    zeros: &[
        Bit3(1),
        Bit3(2),
        Bit3(3),
        Bit3(4),
        Bit3(5),
        Bit3(6),
        Bit3(7),
        Bit3(8),
        Bit3(9),
        Bit3(10),
        Bit3(11),
        Bit3(12),
        Bit3(13),
        Bit3(14),
        Bit3(15),
    ],
    covered: [
        [Bit2(0), Bit2(1), Bit2(2), Bit2(3)],
        [Bit2(4), Bit2(5), Bit2(6), Bit2(7)],
        [Bit2(8), Bit2(9), Bit2(10), Bit2(11)],
    ],
    check_bits: [Bit2(12), Bit2(13), Bit2(14), Bit2(15)],
};

static ID_BITS: [Position; 4] = [Bit2(0), Bit2(1), Bit2(2), Bit2(3)];

static DATA_BITS: [Position; 8] = [
    Bit2(4),
    Bit2(5),
    Bit2(6),
    Bit2(7),
    Bit2(8),
    Bit2(9),
    Bit2(10),
    Bit2(11),
];

impl SerialFormat for Short {
    const L: usize = 16;

    ghost L = { 16 };

    type Message = ShortMessage;

    ghost meaning = { short };

    ghost size = { refl };

    ghost lawful = { short_lawful };

    fn matches(pairs: &[Pair]) -> bool {
        LAYOUT.frames(pairs)
    }

    fn message(pairs: &[Pair]) -> Option<ShortMessage>
        ensures told { result ≡ short.told pairs.now }
        ensures told_within_the_fields { ToldWithinTheFields }
        ensures each_message_has_its_list { EachMessageHasItsList }
    {
        (Self::matches(pairs) && check_agrees(pairs)).then(|| ShortMessage {
            id: byte(pairs, &ID_BITS),
            data: byte(pairs, &DATA_BITS),
        })
    }
}

// Whether the check of id and data is the check sent with them. A check is a format's own, as its content is; what formats share of it
// are `groups` and `byte`.
fn check_agrees(pairs: &[Pair]) -> bool
    ensures { result ≡ check_fits layout check4 pairs.now }
{
    check4(&LAYOUT.groups(pairs)) == byte(pairs, &LAYOUT.check_bits)
}
