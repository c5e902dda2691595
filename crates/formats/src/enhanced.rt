// The enhanced serial format.
ghost use Rattle.std.specs.Prelude.{◌≡◌, ◌≤◌, length};
ghost use Rattle.checks.specs.Checks.{check6};
ghost use Rattle.formats.specs.Layout.{check_fits};
ghost use Rattle.formats.specs.Enhanced.{enhanced, layout, content, ToldWithinTheFields, EachMessageHasItsList};
ghost use Rattle.formats.specs.EnhancedLaw.{enhanced_lawful};
ghost use Rattle.std.proofs.Common.{refl};

use crate::layout::Position::{Bit2, Bit3};
use crate::layout::{Layout, Position, byte, number};
use checks::six::check6;
use serial::format::SerialFormat;
use serial::pair::Pair;

pub struct Enhanced;

// How the bits of a message are shared out: an id of eight bits and data of twelve, or an id of four and data of sixteen.
#[derive(Clone, Copy, PartialEq, Eq, Debug)]
pub enum Configuration {
    Data12,
    Data16,
}

#[derive(Clone, Copy, PartialEq, Eq, Debug)]
pub struct EnhancedMessage {
    pub configuration: Configuration,
    pub id: u8,
    pub data: u16,
}

// Bit 3 is set in the first six pairs and clear in the seventh, the thirteenth and the last.
// The check stands in bit 2 of the first six, and covers of the others bit 2 and then bit 3.
static LAYOUT: Layout<4, 6> = Layout {
    size: Enhanced::L,
    ones: &[Bit3(0), Bit3(1), Bit3(2), Bit3(3), Bit3(4), Bit3(5)],
    zeros: &[Bit3(6), Bit3(12), Bit3(17)],
    covered: [
        [Bit2(6), Bit3(6), Bit2(7), Bit3(7), Bit2(8), Bit3(8)],
        [Bit2(9), Bit3(9), Bit2(10), Bit3(10), Bit2(11), Bit3(11)],
        [Bit2(12), Bit3(12), Bit2(13), Bit3(13), Bit2(14), Bit3(14)],
        [Bit2(15), Bit3(15), Bit2(16), Bit3(16), Bit2(17), Bit3(17)],
    ],
    check_bits: [Bit2(0), Bit2(1), Bit2(2), Bit2(3), Bit2(4), Bit2(5)],
};

// It is set for data of sixteen bits.
const CONFIGURATION_BIT: Position = Bit3(7);

impl Configuration {
    ghost use Rattle.formats.specs.Enhanced.{configuration_of, id_bits, data_bits};

    // No `From`: a bool by itself does not say which.
    fn of(wide: bool) -> Configuration
        ensures { result ≡ configuration_of wide }
    {
        if wide {
            Configuration::Data16
        } else {
            Configuration::Data12
        }
    }

    fn id_bits(self) -> &'static [Position]
        ensures value { result.now ≡ id_bits self }
        ensures few { length result.now ≤ 8 }
    {
        match self {
            Configuration::Data12 => &[
                Bit3(8),
                Bit3(9),
                Bit3(10),
                Bit3(11),
                Bit3(13),
                Bit3(14),
                Bit3(15),
                Bit3(16),
            ],
            Configuration::Data16 => &[Bit3(8), Bit3(9), Bit3(10), Bit3(11)],
        }
    }

    fn data_bits(self) -> &'static [Position]
        ensures value { result.now ≡ data_bits self }
        ensures few { length result.now ≤ 16 }
    {
        match self {
            Configuration::Data12 => &[
                Bit2(6),
                Bit2(7),
                Bit2(8),
                Bit2(9),
                Bit2(10),
                Bit2(11),
                Bit2(12),
                Bit2(13),
                Bit2(14),
                Bit2(15),
                Bit2(16),
                Bit2(17),
            ],
            Configuration::Data16 => &[
                Bit3(13),
                Bit3(14),
                Bit3(15),
                Bit3(16),
                Bit2(6),
                Bit2(7),
                Bit2(8),
                Bit2(9),
                Bit2(10),
                Bit2(11),
                Bit2(12),
                Bit2(13),
                Bit2(14),
                Bit2(15),
                Bit2(16),
                Bit2(17),
            ],
        }
    }
}

impl SerialFormat for Enhanced {
    const L: usize = 18;

    ghost L = { 18 };

    type Message = EnhancedMessage;

    ghost meaning = { enhanced };

    ghost size = { refl };

    ghost lawful = { enhanced_lawful };

    fn matches(pairs: &[Pair]) -> bool {
        LAYOUT.frames(pairs)
    }

    fn message(pairs: &[Pair]) -> Option<EnhancedMessage>
        ensures told { result ≡ enhanced.told pairs.now }
        ensures told_within_the_fields { ToldWithinTheFields }
        ensures each_message_has_its_list { EachMessageHasItsList }
    {
        (Self::matches(pairs) && check_agrees(pairs)).then(|| read_content(pairs))
    }
}

// Whether the check of what follows the first six pairs is the check sent in them. A check is a format's own, as its content is; what
// formats share of it are `groups` and `byte`.
fn check_agrees(pairs: &[Pair]) -> bool
    ensures { result ≡ check_fits layout check6 pairs.now }
{
    check6(&LAYOUT.groups(pairs)) == byte(pairs, &LAYOUT.check_bits)
}

// The message, if the list is lawful.
fn read_content(pairs: &[Pair]) -> EnhancedMessage
    ensures { result ≡ content pairs.now }
{
    let configuration = Configuration::of(CONFIGURATION_BIT.read(pairs));
    EnhancedMessage {
        configuration,
        id: byte(pairs, configuration.id_bits()),
        data: number(pairs, configuration.data_bits()),
    }
}
