// Made streams against tables that were computed by the generator's rule in another language.
ghost use Rattle.std.specs.Prelude.{◌≤◌};

use crate::facts::expect;
use byteorder::{BigEndian, ByteOrder};
use sip_ports::{Source, read_exact_into};
use sip_stream::MadeSource;
use sip_vector::Depth;
use std::alloc::Global;
use std::process::Abort;
use std::test::Fail;

// The first records of the number 7: side, item, delta.
const AT_20: [(u8, u64, i64); 20] = [
    (0, 532219, 8),
    (1, 991056, 3),
    (1, 367341, 2),
    (0, 1, 5),
    (0, 359749, 4),
    (0, 955610, 5),
    (0, 89829, 2),
    (0, 101534, 2),
    (1, 826747, 4),
    (1, 1, 8),
    (0, 941921, 2),
    (1, 808873, 8),
    (0, 175696, 5),
    (1, 211507, 7),
    (0, 0, 1),
    (0, 607461, 6),
    (1, 1, 8),
    (0, 936554, 2),
    (0, 188623, 3),
    (1, 859048, 7),
];

const AT_1: [(u8, u64, i64); 20] = [
    (0, 1, 8),
    (1, 0, 3),
    (1, 1, 2),
    (0, 1, 5),
    (0, 1, 4),
    (0, 0, 5),
    (0, 1, 2),
    (0, 0, 2),
    (1, 1, 4),
    (1, 1, 8),
    (0, 1, 2),
    (1, 1, 8),
    (0, 0, 5),
    (1, 1, 7),
    (0, 0, 1),
    (0, 1, 6),
    (1, 1, 8),
    (0, 0, 2),
    (0, 1, 3),
    (1, 0, 7),
];

const AT_32: [(u8, u64, i64); 20] = [
    (0, 1366826747, 8),
    (1, 889134928, 3),
    (1, 3032849133, 2),
    (0, 1, 5),
    (0, 3819273541, 4),
    (0, 604935386, 5),
    (0, 4288765669, 2),
    (0, 3763440798, 2),
    (1, 3278675323, 4),
    (1, 1, 8),
    (0, 2551078753, 2),
    (1, 650925993, 8),
    (0, 3238178384, 5),
    (1, 1371748915, 7),
    (0, 0, 1),
    (0, 3867755749, 6),
    (1, 1, 8),
    (0, 969820778, 2),
    (0, 3232948431, 3),
    (1, 1652366248, 7),
];

const AT_48: [(u8, u64, i64); 20] = [
    (0, 277653822643963, 8),
    (1, 256513515921232, 3),
    (1, 228881840052973, 2),
    (0, 1, 5),
    (0, 149958307446085, 4),
    (0, 77924196586714, 5),
    (0, 226804331798245, 2),
    (0, 181302922939550, 2),
    (1, 270959880478075, 4),
    (1, 1, 8),
    (0, 236745443401569, 2),
    (1, 33295237404585, 8),
    (0, 109181306842704, 5),
    (1, 76284285893171, 7),
    (0, 0, 1),
    (0, 35596261737701, 6),
    (1, 1, 8),
    (0, 88262547753578, 2),
    (0, 45620080599247, 3),
    (1, 258928050772904, 7),
];

fn made(number: u64, count: u64, depth: u8) -> Result<MadeSource, Fail>
    requires { count ≤ 10_000_000 }
{
    let depth = Depth::new(depth).ok_or("a depth")?;
    Ok(MadeSource::new(number, count, depth))
}

// The records of a source at this depth are those of the table, whose items are cut to it.
fn has_records(rt: &impl Abort, depth: u8, table: &[(u8, u64, i64)]) -> Result<(), Fail> {
    let mut source = made(7, 20, depth)?;
    let mut bytes = [0; 13];
    for (row, (side, item, delta)) in table.iter().enumerate() {
        let facts = [
            read_exact_into(&mut source, &mut bytes) == Ok(13),
            bytes[0] == *side,
            u64::from(BigEndian::read_u32(&bytes[1..])) == *item,
            BigEndian::read_i64(&bytes[5..]) == *delta,
        ];
        expect(rt, row, &facts);
    }
    expect(rt, 20, &[source.read(&mut bytes) == Ok(0)]);
    Ok(())
}

// The same for wide records, whose items at a lower depth are the low bits of those of the table.
fn has_wide_records(rt: &impl Abort, depth: u8, table: &[(u8, u64, i64)]) -> Result<(), Fail>
    requires { depth ≤ 48 }
{
    let mut source = made(7, 20, depth)?;
    let mut bytes = [0; 17];
    for (row, (side, item, delta)) in table.iter().enumerate() {
        let facts = [
            read_exact_into(&mut source, &mut bytes) == Ok(17),
            bytes[0] == *side,
            BigEndian::read_u64(&bytes[1..]) == item % (1 << depth),
            BigEndian::read_i64(&bytes[9..]) == *delta,
        ];
        expect(rt, row, &facts);
    }
    expect(rt, 20, &[source.read(&mut bytes) == Ok(0)]);
    Ok(())
}

#[test]
fn first_records_are_those_of_the_tables(rt: HostRuntime) -> Result<(), Fail> {
    has_records(&rt, 20, &AT_20)?;
    has_records(&rt, 1, &AT_1)?;
    has_records(&rt, 32, &AT_32)?;
    for depth in 33..49 {
        has_wide_records(&rt, depth, &AT_48)?;
    }
    Ok(())
}

// All bytes that reads of at most so many bytes give, and how many reads gave some.
fn read_by(alloc: Global, depth: u8, chunk: usize) -> Result<(Vec<u8>, usize), Fail>
    requires chunk { chunk ≤ 10_000 }
{
    let mut source = made(7, 1000, depth)?;
    let mut all = Vec::new(alloc);
    let mut buf = [0; 10_000];
    for reads in 0..17_001 {
        let Ok(came) = source.read(&mut buf[..chunk]) else {
            return Err("it never fails".into());
        };
        if came == 0 {
            return Ok((all, reads));
        }
        all.extend_from_slice(&buf[..came])?;
    }
    Err("it ends".into())
}

fn sum_of(bytes: &[u8]) -> u64 {
    let mut sum = 0_u64;
    for byte in bytes {
        sum = sum.wrapping_add(*byte as u64);
    }
    sum
}

fn is_whole(
    rt: &impl Abort,
    alloc: Global,
    depth: u8,
    size: usize,
    total: u64,
    last: &[u8],
) -> Result<(), Fail> {
    let (whole, reads) = read_by(alloc, depth, 10_000)?;
    let facts = [
        reads == 2,
        whole.len() == size,
        sum_of(&whole) == total,
        whole.ends_with(last),
    ];
    expect(rt, 0, &facts);
    for chunk in [1, 5, 13, 17] {
        let (pieces, reads) = read_by(alloc, depth, chunk)?;
        let facts = [pieces == whole, reads == whole.len().div_ceil(chunk)];
        expect(rt, chunk, &facts);
    }
    Ok(())
}

// The bytes of 1,000 records add up to these sums, and the last records are (0, 678910, 7) and (0,
// 229828307082238, 7).
#[test]
fn pieces_of_any_size_are_the_same_bytes(rt: HostRuntime) -> Result<(), Fail> {
    let alloc = rt.alloc();
    let narrow = b"\0\0\x0a\x5b\xfe\0\0\0\0\0\0\0\x07".as_slice();
    let wide = b"\0\0\0\xd1\x07\x12\x9a\x5b\xfe\0\0\0\0\0\0\0\x07".as_slice();
    is_whole(&rt, alloc, 20, 13_000, 198_709, narrow)?;
    is_whole(&rt, alloc, 48, 17_000, 575_520, wide)
}
