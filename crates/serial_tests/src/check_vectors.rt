// Checks that were worked out elsewhere, by long division of polynomials.
use checks::four::{check4, table4};
use checks::six::{check6, table6};

const FRAMES: [([u8; 6], u8); 10] = [
    ([0, 0, 0, 0, 0, 0], 5),
    ([7, 4, 8, 7, 4, 8], 3),
    ([5, 3, 14, 5, 3, 14], 15),
    ([4, 10, 12, 4, 10, 12], 10),
    ([7, 8, 15, 7, 8, 15], 5),
    ([9, 1, 13, 9, 1, 13], 6),
    ([10, 11, 12, 13, 14, 15], 7),
    ([15, 15, 15, 15, 15, 15], 10),
    ([1, 2, 3, 4, 5, 6], 2),
    ([15, 14, 13, 12, 11, 10], 14),
];

const MESSAGES: [([u8; 4], u8); 8] = [
    ([0, 0, 0, 0], 38),
    ([63, 63, 63, 63], 2),
    ([1, 2, 3, 4], 23),
    ([21, 21, 21, 21], 13),
    ([0, 0, 0, 1], 63),
    ([32, 0, 0, 0], 48),
    ([10, 20, 30, 40], 26),
    ([61, 7, 19, 54], 9),
];

#[test]
fn data_of_frames(rt: HostRuntime) {
    for (nibbles, check) in FRAMES {
        assert_eq!(rt; check4(&nibbles), check);
    }
}

#[test]
fn shorter_data(rt: HostRuntime) {
    assert_eq!(rt; check4(&[4]), 4);
    assert_eq!(rt; check4(&[0]), 10);
    assert_eq!(rt; check4(&[15]), 15);
    assert_eq!(rt; check4(&[10, 5]), 12);
    assert_eq!(rt; check4(&[12, 3]), 9);
    assert_eq!(rt; check4(&[7, 15, 15]), 7);
    assert_eq!(rt; check4(&[3, 5, 10]), 12);
    // the start value's own entry
    assert_eq!(rt; check4(&[]), 3);
}

// Without its last look into the table the check of six zeros would be 15.
#[test]
fn closing_step_counts(rt: HostRuntime) {
    assert_ne!(rt; check4(&[0, 0, 0, 0, 0, 0]), 15);
}

// Of a number that is too wide the low bits count.
#[test]
fn wide_groups_are_cut(rt: HostRuntime) {
    assert_eq!(rt; check4(&[0xf7, 0x14, 0x28, 0x37, 0x84, 0xa8]), 3);
    assert_eq!(rt; check6(&[0x41, 0x82, 0xc3, 0x44]), 23);
}

#[test]
fn groups_of_messages(rt: HostRuntime) {
    for (groups, check) in MESSAGES {
        assert_eq!(rt; check6(&groups), check);
    }
}

#[test]
fn entries_of_the_tables(rt: HostRuntime) {
    assert_eq!(rt; table4()[1], 13);
    assert_eq!(rt; table4()[15], 5);
    assert_eq!(rt; table6()[1], 25);
    assert_eq!(rt; table6()[2], 50);
    assert_eq!(rt; table6()[4], 61);
    assert_eq!(rt; table6()[8], 35);
    assert_eq!(rt; table6()[16], 31);
    assert_eq!(rt; table6()[32], 62);
    assert_eq!(rt; table6()[63], 20);
}
