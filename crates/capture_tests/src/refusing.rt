use captures::absolute::AbsoluteLog;
use captures::capture::Capture;
use captures::counter::CounterCapture;
use captures::events::Timing;
use records::record::{Counter, Log};
use std::process::Abort;
use std::test::Fail;

// A capture is accepted, or refused with this number, naming this record.
fn checked<K: Timing>(rt: &impl Abort, bytes: &[u8], expected: Result<(), (u16, u32)>) {
    let answer = Capture::<K>::check(bytes).map_err(|why| (why.number(), why.place()));
    assert_eq!(rt; answer, expected);
}

#[test]
fn counter_captures(rt: HostRuntime) {
    checked::<Counter>(&rt, b"", Ok(()));
    checked::<Counter>(&rt, b"SC\x12\x34SO\x00\x00SL\x00\x00", Ok(()));
    checked::<Counter>(&rt, b"SC\x12", Err((1, 0)));
    checked::<Counter>(&rt, b"SC\x12\x34S", Err((1, 0)));
    checked::<Counter>(&rt, b"SA\x00\x00", Err((2, 0)));
    checked::<Counter>(&rt, b"XC\x00\x00", Err((2, 0)));
    checked::<Counter>(&rt, b"SC\x00\x00Sc\x00\x00", Err((2, 1)));
    checked::<Counter>(&rt, b"SC\x00\x00SC\x00\x00SO\x00\x01", Err((3, 2)));
    checked::<Counter>(&rt, b"SL\x01\x00", Err((3, 0)));
    checked::<Counter>(&rt, b"SO\x00\x01XX\x00\x00", Err((3, 0)));
    checked::<Counter>(&rt, b"XL\x01\x00", Err((2, 0)));
    checked::<Counter>(&rt, b"XX\x00\x00SC\x00", Err((1, 0)));
}

#[test]
fn absolute_logs(rt: HostRuntime) {
    checked::<Log>(&rt, b"", Ok(()));
    checked::<Log>(
        &rt,
        b"SA\x00\xff\xff\xff\xff\xffSL\x00\x00\x00\x00\x00\x00",
        Ok(()),
    );
    checked::<Log>(&rt, b"SA\x00\x00", Err((1, 0)));
    checked::<Log>(&rt, b"SA\x01\x00\x00\x00\x00\x00", Err((3, 0)));
    checked::<Log>(&rt, b"SA\x80\x00\x00\x00\x00\x00", Err((3, 0)));
    checked::<Log>(&rt, b"SL\x00\x00\x00\x00\x00\x01", Err((3, 0)));
    checked::<Log>(
        &rt,
        b"SA\x00\x00\x00\x00\x00\x00SC\x00\x00\x00\x00\x00\x00",
        Err((2, 1)),
    );
    checked::<Log>(&rt, b"SO\x00\x00\x00\x00\x00\x00", Err((2, 0)));
    checked::<Log>(&rt, b"AS\x00\x00\x00\x00\x00\x00", Err((2, 0)));
}

#[test]
fn the_longest_captures(rt: HostRuntime) -> Result<(), Fail> {
    checked::<Counter>(&rt, &b"SO\x00\x00".repeat(rt.alloc(), 6_144)?, Ok(()));
    checked::<Counter>(&rt, &b"SO\x00\x00".repeat(rt.alloc(), 6_145)?, Err((1, 0)));
    checked::<Log>(
        &rt,
        &b"SL\x00\x00\x00\x00\x00\x00".repeat(rt.alloc(), 3_072)?,
        Ok(()),
    );
    checked::<Log>(
        &rt,
        &b"SL\x00\x00\x00\x00\x00\x00".repeat(rt.alloc(), 3_073)?,
        Err((1, 0)),
    );
    checked::<Counter>(&rt, &b"XO\x00\x00".repeat(rt.alloc(), 6_145)?, Err((1, 0)));
    Ok(())
}

// A part of a counter capture, which has 9 for none.
fn counter_part(rt: &impl Abort, bytes: &[u8], first: u32, last: u32, part: Option<&[u8]>) {
    let found = CounterCapture::part(bytes, first, last).map_err(|why| why.number());
    assert!(rt; found == part.ok_or(9));
}

#[test]
fn parts_of_captures(rt: HostRuntime) {
    let bytes = b"SC\x00\x01SO\x00\x00SC\x00\x02SL\x00\x00";
    counter_part(&rt, bytes, 0, 0, Some(b"SC\x00\x01"));
    counter_part(&rt, bytes, 1, 2, Some(b"SO\x00\x00SC\x00\x02"));
    counter_part(&rt, bytes, 0, 3, Some(bytes));
    counter_part(&rt, bytes, 3, 3, Some(b"SL\x00\x00"));
    counter_part(&rt, bytes, 2, 1, None);
    counter_part(&rt, bytes, 0, 4, None);
    counter_part(&rt, bytes, 4_294_967_295, 4_294_967_295, None);
    counter_part(&rt, b"", 0, 0, None);
    counter_part(&rt, b"SC\x00\x01SX\x00\x00", 0, 0, None);
    assert_eq!(rt;
        AbsoluteLog::part(b"SA\x00\x00\x00\x00\x00\x05", 0, 0).is_ok(),
        true
    );
    assert_eq!(rt;
        AbsoluteLog::part(b"SA\x00\x00\x00\x00\x00\x05", 0, 1).is_err(),
        true
    );
    assert_eq!(rt; CounterCapture::record_count(bytes), 4);
    assert_eq!(rt; AbsoluteLog::record_count(b"SC\x00\x00"), 0);
}
