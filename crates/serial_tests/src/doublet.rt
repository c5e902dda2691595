// A format of two pairs, whose framing takes lists that overlap: a window that tells of one that fails still has its pairs.
ghost use Rattle.std.proofs.Common.{refl};
ghost use Rattle.serial_tests.specs.Doublets.{doublet};
ghost use Rattle.serial_tests.specs.DoubletLaw.{doublet_lawful};

use serial::format::SerialFormat;
use serial::pair::Pair;

pub struct Doublet;

// Bit 3 is set in the first pair, and clear in the second of a lawful list; bit 2 of the second is the message.
impl SerialFormat for Doublet {
    const L: usize = 2;

    ghost L = { 2 };

    type Message = bool;

    ghost meaning = { doublet };

    ghost size = { refl };

    ghost lawful = { doublet_lawful };

    fn matches(pairs: &[Pair]) -> bool {
        matches!(pairs, [first, _] if first.high)
    }

    fn message(pairs: &[Pair]) -> Option<bool> {
        match pairs {
            [first, second] if first.high && !second.high => Some(second.low),
            _ => None,
        }
    }
}
