// What a serial format is.
ghost use Rattle.std.specs.Prelude.{◌≡◌, ℕ};
ghost use Rattle.serial.specs.Format.{Format, LawfulFormat};

use crate::pair::Pair;

// A format is known by which lists of pairs match its framing, which of these are lawful, and their messages. The framing is the
// bits that are the same in every message, by which one is found among the pairs; a list that matches it is lawful if the check that
// it carries is that of its other bits.
pub trait SerialFormat {
    // how many pairs a message has
    const L: usize;

    ghost L: { ℕ };

    type Message: Copy;

    ghost meaning: { Format Self.Message };

    // Whether the pairs match the framing; never, if there are not L of them.
    fn matches(pairs: &[Pair]) -> bool
        ensures { result ≡ meaning.framed pairs.now };

    // The message of a lawful list of pairs; none of any other.
    fn message(pairs: &[Pair]) -> Option<Self::Message>
        ensures { result ≡ meaning.told pairs.now };

    // L is the length that the meaning has
    ghost size: { L ≡ meaning.size };

    // the law that each format keeps
    ghost lawful: { LawfulFormat meaning };
}
