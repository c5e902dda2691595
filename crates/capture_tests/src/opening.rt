use captures::capture::Capture;
use captures::counter::CounterCapture;
use captures::events::Timing;
use model::event::Event;
use model::source::EdgeSource;
use records::record::{Counter, Log};
use std::process::Abort;
use unitfile::summary::{Span, Summary, summary_of};

// A source has these events and no others, and looking does not take.
fn gives<S: EdgeSource + Drop>(rt: &impl Abort, mut source: S, events: &[Event]) {
    for event in events {
        assert_eq!(rt; source.look(), Some(*event));
        assert_eq!(rt; source.look(), Some(*event));
        assert_eq!(rt; source.take(), Some(*event));
    }
    assert_eq!(rt; source.look(), None);
    assert_eq!(rt; source.take(), None);
    assert_eq!(rt; source.take(), None);
}

fn edge(place: u32, time: u64) -> Event {
    Event::Edge { place, time }
}

fn lost(place: u32, time: u64) -> Event {
    Event::Break { place, time }
}

fn opened<K: Timing>(rt: &impl Abort, bytes: &[u8], events: &[Event]) {
    gives(rt, Capture::<K>::open(bytes), events);
}

#[test]
fn counter_captures(rt: HostRuntime) {
    opened::<Counter>(&rt, b"", &[]);
    opened::<Counter>(&rt, b"SC\x12\x34", &[edge(0, 0x1234)]);
    opened::<Counter>(&rt, b"SO\x00\x00SO\x00\x00SC\x00\x05", &[edge(2, 131_077)]);
    opened::<Counter>(
        &rt,
        b"SC\x00\x05SO\x00\x00SC\x00\x05",
        &[edge(0, 5), edge(2, 65_541)],
    );
    opened::<Counter>(
        &rt,
        b"SC\x00\x05SC\x00\x05SC\x00\x06",
        &[edge(0, 5), lost(1, 5), edge(2, 6)],
    );
    opened::<Counter>(
        &rt,
        b"SC\x00\x05SC\x00\x04SC\x00\x05",
        &[edge(0, 5), lost(1, 5), lost(2, 5)],
    );
    opened::<Counter>(
        &rt,
        b"SL\x00\x00SC\x00\x00SL\x00\x00",
        &[lost(0, 0), edge(1, 0), lost(2, 0)],
    );
    opened::<Counter>(
        &rt,
        b"SC\x00\x05SO\x00\x00SL\x00\x00SC\x00\x01",
        &[edge(0, 5), lost(2, 5), edge(3, 65_537)],
    );
    opened::<Counter>(&rt, b"SO\x00\x00SO\x00\x00", &[]);
    opened::<Counter>(&rt, b"SC\x00\x05SX\x00\x00", &[]);
}

#[test]
fn absolute_logs(rt: HostRuntime) {
    opened::<Log>(&rt, b"", &[]);
    opened::<Log>(
        &rt,
        b"SA\x00\xff\xff\xff\xff\xff",
        &[edge(0, 1_099_511_627_775)],
    );
    opened::<Log>(
        &rt,
        b"SL\x00\x00\x00\x00\x00\x00SA\x00\x00\x00\x00\x01\x02",
        &[lost(0, 0), edge(1, 258)],
    );
    opened::<Log>(
        &rt,
        b"SA\x00\x00\x00\x00\x01\x02SA\x00\x00\x00\x00\x01\x02",
        &[edge(0, 258), lost(1, 258)],
    );
    opened::<Log>(&rt, b"SA\x01\x00\x00\x00\x00\x00", &[]);
}

#[test]
fn summaries(rt: HostRuntime) {
    let none = summary_of(CounterCapture::open(b"SO\x00\x00"));
    assert_eq!(rt;
        none,
        Summary {
            edges: 0,
            breaks: 0,
            span: None,
        }
    );
    let some = summary_of(CounterCapture::open(
        b"SC\x00\x05SL\x00\x00SO\x00\x00SC\x00\x05SL\x00\x00",
    ));
    let span = Some(Span {
        first: 5,
        last: 65_541,
    });
    assert_eq!(rt;
        some,
        Summary {
            edges: 2,
            breaks: 2,
            span,
        }
    );
}
