// Short messages, good and damaged.
use crate::lists::{damaged_bits, damaged_framing, other_lengths, pairs};
use formats::short::{Short, ShortMessage};
use serial::format::SerialFormat;
use serial::pair::Pair;

// The sixteen bits of bit 2, of which the last four are the check, with the id and the data.
const GOOD: [(u16, u8, u8); 6] = [
    (0x35ac, 3, 0x5a),
    (0x0009, 0, 0),
    (0xfff5, 15, 255),
    (0x1803, 1, 0x80),
    (0x937e, 9, 0x37),
    (0x8016, 8, 1),
];

// The pairs with these sixteen bits, and two more.
fn list(low: u16) -> [Pair; 18] {
    pairs(0x8000 * 4, u32::from(low) * 4)
}

#[test]
fn good_lists_are_told(rt: HostRuntime) {
    for (low, id, data) in GOOD {
        let list = list(low);
        assert!(rt; Short::matches(&list[0..16]));
        assert_eq!(rt;
            Short::message(&list[0..16]),
            Some(ShortMessage { id, data })
        );
    }
}

#[test]
fn damaged_bits_are_found(rt: HostRuntime) {
    for (low, _, _) in GOOD {
        damaged_bits::<Short>(&rt, &list(low));
    }
}

#[test]
fn damaged_framing_is_found(rt: HostRuntime) {
    let all = [0, 1, 2, 3, 4, 5, 6, 7, 8, 9, 10, 11, 12, 13, 14, 15];
    damaged_framing::<Short>(&rt, &list(0x35ac), &all);
}

#[test]
fn other_lengths_do_not_match(rt: HostRuntime) {
    assert_eq!(rt; Short::L, 16);
    other_lengths::<Short>(&rt, &list(0x35ac));
}
