// Enhanced messages, good and damaged.
use crate::lists::{damaged_bits, damaged_framing, other_lengths, pairs};
use formats::enhanced::Configuration::{Data12, Data16};
use formats::enhanced::{Configuration, Enhanced, EnhancedMessage};
use serial::format::SerialFormat;

// The eighteen bits of bit 3 and of bit 2, of which the first six have the framing and the check, with what they tell.
const GOOD: [(u32, u32, Configuration, u8, u16); 7] = [
    (0x3f000, 0x26000, Data12, 0, 0),
    (0x3f554, 0x343c1, Data16, 5, 0xa3c1),
    (0x3f28a, 0x1a123, Data12, 0xa5, 0x123),
    (0x3f3de, 0x02fff, Data12, 0xff, 0xfff),
    (0x3f7de, 0x3afff, Data16, 0xf, 0xffff),
    (0x3f002, 0x0d800, Data12, 1, 0x800),
    (0x3f650, 0x1e001, Data16, 9, 0x8001),
];

#[test]
fn good_lists_are_told(rt: HostRuntime) {
    for (high, low, configuration, id, data) in GOOD {
        let list = pairs(high, low);
        let message = EnhancedMessage {
            configuration,
            id,
            data,
        };
        assert!(rt; Enhanced::matches(&list));
        assert_eq!(rt; Enhanced::message(&list), Some(message));
    }
}

#[test]
fn damaged_bits_are_found(rt: HostRuntime) {
    for (high, low, _, _, _) in GOOD {
        damaged_bits::<Enhanced>(&rt, &pairs(high, low));
    }
}

#[test]
fn damaged_framing_is_found(rt: HostRuntime) {
    for (high, low, _, _, _) in GOOD {
        let framing = [0, 1, 2, 3, 4, 5, 6, 12, 17];
        damaged_framing::<Enhanced>(&rt, &pairs(high, low), &framing);
    }
}

#[test]
fn other_lengths_do_not_match(rt: HostRuntime) {
    assert_eq!(rt; Enhanced::L, 18);
    other_lengths::<Enhanced>(&rt, &pairs(0x3f000, 0x26000));
}
