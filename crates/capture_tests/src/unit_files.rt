use model::side::Side;
use std::alloc::{AllocError, Global};
use std::process::Abort;
use std::test::Fail;
use unitfile::file::UnitFile;

// A unit file of these settings and captures; the lengths are those of the captures and what is added.
#[derive(Clone, Copy)]
struct Contents<'a> {
    mark: &'a [u8],
    k_a: u32,
    n_a: u8,
    a: &'a [u8],
    k_b: u32,
    n_b: u8,
    b: &'a [u8],
}

fn bytes_of(heap: Global, of: &Contents, added: u32) -> Result<Vec<u8>, AllocError> {
    let mut bytes = Vec::new(heap);
    let length_a = ((of.a.len() & 0xffff) as u32).wrapping_add(added);
    let length_b = ((of.b.len() & 0xffff) as u32).wrapping_sub(added);
    bytes.extend_from_slice(of.mark)?;
    bytes.extend_from_slice(&of.k_a.to_be_bytes())?;
    bytes.push(of.n_a)?;
    bytes.extend_from_slice(&length_a.to_be_bytes())?;
    bytes.extend_from_slice(&of.k_b.to_be_bytes())?;
    bytes.push(of.n_b)?;
    bytes.extend_from_slice(&length_b.to_be_bytes())?;
    bytes.extend_from_slice(of.a)?;
    bytes.extend_from_slice(of.b)?;
    Ok(bytes)
}

// A file is accepted, or refused with a number, naming a channel, if it is one, and a record.
type Answer = Result<(), (u16, Option<Side>, u32)>;

fn answer(bytes: &[u8]) -> Answer {
    UnitFile::read(bytes)
        .map(|_| ())
        .map_err(|why| (why.number(), why.side(), why.place()))
}

fn draft<'a>(k_a: u32, n_a: u8, a: &'a [u8], k_b: u32, n_b: u8, b: &'a [u8]) -> Contents<'a> {
    Contents {
        mark: b"SU",
        k_a,
        n_a,
        a,
        k_b,
        n_b,
        b,
    }
}

fn file(rt: &(impl Abort + AllocGlobal), of: Contents, expected: Answer) -> Result<(), Fail> {
    let bytes = bytes_of(rt.alloc(), &of, 0)?;
    assert_eq!(rt; answer(&bytes), expected);
    Ok(())
}

const GOOD_A: [u8; 4] = *b"SC\x00\x01";

const BAD_A: [u8; 8] = *b"SC\x00\x01SX\x00\x00";

const GOOD_B: [u8; 8] = *b"SL\x00\x00\x00\x00\x00\x00";

const BAD_B: [u8; 8] = *b"SL\x00\x00\x00\x00\x00\x07";

#[test]
fn each_refusal_in_its_turn(rt: HostRuntime) -> Result<(), Fail> {
    file(&rt, draft(560, 1, &GOOD_A, 4_000_000, 6, &GOOD_B), Ok(()))?;
    file(&rt, draft(560, 1, b"", 560, 1, b""), Ok(()))?;
    file(
        &rt,
        draft(559, 0, &BAD_A, 559, 0, &BAD_B),
        Err((4, Some(Side::A), 0)),
    )?;
    file(
        &rt,
        draft(4_000_001, 1, &BAD_A, 560, 1, &GOOD_B),
        Err((4, Some(Side::A), 0)),
    )?;
    file(
        &rt,
        draft(560, 0, &BAD_A, 559, 1, &GOOD_B),
        Err((5, Some(Side::A), 0)),
    )?;
    file(
        &rt,
        draft(560, 7, &BAD_A, 560, 1, &GOOD_B),
        Err((5, Some(Side::A), 0)),
    )?;
    file(
        &rt,
        draft(560, 6, &BAD_A, 559, 0, &BAD_B),
        Err((2, Some(Side::A), 1)),
    )?;
    file(
        &rt,
        draft(560, 6, b"SC\x00", 559, 0, &BAD_B),
        Err((1, Some(Side::A), 0)),
    )?;
    file(
        &rt,
        draft(560, 6, &GOOD_A, 559, 0, &BAD_B),
        Err((4, Some(Side::B), 0)),
    )?;
    file(
        &rt,
        draft(560, 6, &GOOD_A, 560, 7, &BAD_B),
        Err((5, Some(Side::B), 0)),
    )?;
    file(
        &rt,
        draft(560, 6, &GOOD_A, 560, 6, &BAD_B),
        Err((3, Some(Side::B), 0)),
    )
}

#[test]
fn layouts(rt: HostRuntime) -> Result<(), Fail> {
    assert_eq!(rt; answer(b""), Err((10, None, 0)));
    assert_eq!(rt;
        answer(b"SU\x00\x00\x02\x30\x01\x00\x00\x00\x00\x00\x00\x02\x30\x01\x00\x00\x00"),
        Err((10, None, 0))
    );
    let other_mark = Contents {
        mark: b"SV",
        k_a: 560,
        n_a: 1,
        a: &GOOD_A,
        k_b: 560,
        n_b: 1,
        b: &GOOD_B,
    };
    file(&rt, other_mark, Err((10, None, 0)))?;
    let wrapped = draft(560, 1, &GOOD_A, 560, 1, &GOOD_B);
    let bytes = bytes_of(rt.alloc(), &wrapped, 0x8000_0000)?;
    assert_eq!(rt; answer(&bytes), Err((10, None, 0)));
    let long = b"\x53".repeat(rt.alloc(), 60_001)?;
    assert_eq!(rt; answer(&long), Err((10, None, 0)));
    Ok(())
}
