// Lists of pairs for the tests, and what is tested of every format.
use serial::format::SerialFormat;
use serial::pair::Pair;
use std::array;
use std::process::Abort;

// Eighteen pairs, whose bit 3 and whose bit 2 make two numbers, highest first.
pub fn pairs(high: u32, low: u32) -> [Pair; 18] {
    array::from_fn(|k| {
        let bit = 1u32 << (17 - k);
        Pair {
            high: high & bit != 0,
            low: low & bit != 0,
        }
    })
}

// One changed bit 2 keeps the framing, and the check finds it.
pub fn damaged_bits<F: SerialFormat>(rt: &impl Abort, list: &[Pair; 18]) {
    for k in 0..F::L {
        let mut damaged = *list;
        damaged[k].low = !list[k].low;
        assert!(rt; F::matches(&damaged[0..F::L]));
        assert!(rt; F::message(&damaged[0..F::L]).is_none());
    }
}

// One changed bit 3 breaks the framing if it is one of these, and else the check finds it.
pub fn damaged_framing<F: SerialFormat>(rt: &impl Abort, list: &[Pair; 18], framing: &[usize]) {
    for k in 0..F::L {
        let mut damaged = *list;
        damaged[k].high = !list[k].high;
        assert_eq!(rt; F::matches(&damaged[0..F::L]), !framing.contains(&k));
        assert!(rt; F::message(&damaged[0..F::L]).is_none());
    }
}

// Lists of other lengths do not match.
pub fn other_lengths<F: SerialFormat>(rt: &impl Abort, list: &[Pair; 18]) {
    for n in 0..19usize {
        if n != F::L {
            assert!(rt; !F::matches(&list[0..n]));
            assert!(rt; F::message(&list[0..n]).is_none());
        }
    }
}

// Of a status bit 3 and bit 2 count, and nothing else.
#[test]
fn pairs_of_statuses(rt: HostRuntime) {
    for status in 0..64u8 {
        let pair = Pair::of_status(status);
        assert_eq!(rt; pair.high, status % 16 >= 8);
        assert_eq!(rt; pair.low, status % 8 >= 4);
    }
}
