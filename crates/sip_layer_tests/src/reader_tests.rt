ghost use Rattle.std.specs.Prelude.{◌≡◌, ◌≤◌, IfOk};

use crate::facts::expect;
use sip_ports::{MemorySource, ReaderSource, Source};
use sip_stream::{Form, Reader, StreamFault, Why};
use sip_vector::{Depth, Side, Update};
use std::alloc::Global;
use std::process::Abort;
use std::test::Fail;

const HEAVIEST: i64 = (1 << 30) - 1;

fn depth(levels: u8) -> Result<Depth, Fail>
    ensures { IfOk result (λ d. d ≡ levels) }
{
    Ok(Depth::new(levels).ok_or("a depth")?)
}

fn update(side: Side, item: u64, delta: i64) -> Update {
    Update { side, item, delta }
}

// Records of bytes, in either form.
fn stream(alloc: Global, form: Form, records: &[(u8, u64, i64)]) -> Result<Vec<u8>, Fail> {
    let mut out = Vec::new(alloc);
    for (side, item, delta) in records {
        out.push(*side)?;
        let bytes = item.to_be_bytes();
        out.extend_from_slice(if form == Form::Wide {
            &bytes
        } else {
            &bytes[4..]
        })?;
        out.extend_from_slice(&delta.to_be_bytes())?;
    }
    Ok(out)
}

// The legal updates of a source, and how they end.
fn read_from<S: Source>(
    alloc: Global,
    levels: u8,
    form: Form,
    source: &mut S,
) -> Result<(Vec<Update>, Option<(u64, Why)>), Fail> {
    let mut reader = Reader::new(depth(levels)?, form);
    let mut updates = Vec::new(alloc);
    for _ in 0..100u32 {
        if reader.spent() {
            break;
        }
        match reader.next(source) {
            Ok(Some(update)) => updates.push(update)?,
            Ok(None) => return Ok((updates, None)),
            Err(StreamFault::Bad { at, why }) => return Ok((updates, Some((at, why)))),
            Err(_) => break,
        }
    }
    Err("the source stopped")?
}

// Those of some bytes, which come in pieces and are not held.
fn read_all(
    alloc: Global,
    levels: u8,
    form: Form,
    bytes: &[u8],
    chunk: usize,
) -> Result<(Vec<Update>, Option<(u64, Why)>), Fail>
    requires { 1 ≤ chunk }
{
    let mut source = MemorySource::new(bytes.to_vec(alloc)?, chunk, Vec::new(alloc));
    read_from(alloc, levels, form, &mut source)
}

// Those of some bytes, which are held from the first one on, since a byte was read in front of
// them.
fn read_held(
    alloc: Global,
    levels: u8,
    form: Form,
    bytes: &[u8],
) -> Result<(Vec<Update>, Option<(u64, Why)>), Fail> {
    let mut more = b"x".to_vec(alloc)?;
    more.extend_from_slice(bytes)?;
    let mut source = ReaderSource::new(Some(more.as_slice()));
    if source.read(&mut [0; 1]) != Ok(1) || source.held() != bytes {
        return Err("all bytes are held")?;
    }
    read_from(alloc, levels, form, &mut source)
}

// Whether some bytes end so, in pieces of one byte, in one piece, and held.
fn ends(
    alloc: Global,
    levels: u8,
    form: Form,
    bytes: &[u8],
    want: Option<(u64, Why)>,
) -> Result<bool, Fail> {
    let pieces = read_all(alloc, levels, form, bytes, 1)?.1;
    let whole = read_all(alloc, levels, form, bytes, 10_000)?.1;
    let held = read_held(alloc, levels, form, bytes)?.1;
    Ok(pieces == want && whole == want && held == want)
}

// Whether a block of the first legal records that are held is read, in two calls, and then the
// first record that is not legal.
fn reads_a_block(alloc: Global, form: Form, records: &[u8]) -> Result<bool, Fail> {
    let mut bytes = b"x".to_vec(alloc)?;
    bytes.extend_from_slice(records)?;
    bytes.push(0)?;
    let mut source = ReaderSource::new(Some(bytes.as_slice()));
    let first = source.read(&mut [0; 1]);
    let mut reader = Reader::new(depth(4)?, form);
    let mut block = [Update::default(); 8];
    let two = reader.read_held(&mut source, &mut block[..2]);
    let one = reader.read_held(&mut source, &mut block[2..]);
    let three = [
        update(Side::First, 5, 1),
        update(Side::Second, 6, -2),
        update(Side::First, 7, 3),
    ];
    if reader.spent() {
        return Err("a block ends no reader")?;
    }
    let bad = StreamFault::Bad {
        at: 3,
        why: Why::BadItem,
    };
    let is_block = (block[0] == three[0]) & (block[1] == three[1]) & (block[2] == three[2]);
    let counts = (first == Ok(1)) & (two == 2) & (one == 1);
    Ok(is_block & counts & (reader.next(&mut source) == Err(bad)))
}

// A record is held that is not legal behind three that are, and the front of one more.
#[test]
fn held_records_are_read_together(rt: HostRuntime) -> Result<(), Fail> {
    let alloc = rt.alloc();
    let records = [(0, 5, 1), (1, 6, -2), (0, 7, 3), (0, 16, 1)];
    let narrow = stream(alloc, Form::Binary, &records)?;
    let wide = stream(alloc, Form::Wide, &records)?;
    let facts = [
        reads_a_block(alloc, Form::Binary, &narrow)?,
        reads_a_block(alloc, Form::Wide, &wide)?,
        reads_a_block(alloc, Form::Text, b"0 5 1\n1 6 -2\n0 7 3\n0 16 1\n")?,
    ];
    expect(&rt, 0, &facts);
    Ok(())
}

// Whether a stream of three records was read to its end.
fn is_three(read: &(Vec<Update>, Option<(u64, Why)>)) -> bool {
    let three = [
        update(Side::First, 0, 3),
        update(Side::First, 2, 5),
        update(Side::Second, 3, -1),
    ];
    read.0.as_slice() == three.as_slice() && read.1.is_none()
}

fn is_read_in_any_chunks(
    rt: &impl Abort,
    alloc: Global,
    form: Form,
    bytes: &[u8],
) -> Result<(), Fail> {
    for chunk in 1..60 {
        expect(
            rt,
            chunk,
            &[is_three(&read_all(alloc, 2, form, bytes, chunk)?)],
        );
    }
    let facts = [
        is_three(&read_all(alloc, 2, form, bytes, 10_000)?),
        is_three(&read_held(alloc, 2, form, bytes)?),
    ];
    expect(rt, 60, &facts);
    Ok(())
}

#[test]
fn all_forms_are_read_in_any_chunks(rt: HostRuntime) -> Result<(), Fail> {
    let alloc = rt.alloc();
    let records = [(0, 0, 3), (0, 2, 5), (1, 3, -1)];
    let narrow = stream(alloc, Form::Binary, &records)?;
    let wide = stream(alloc, Form::Wide, &records)?;
    is_read_in_any_chunks(&rt, alloc, Form::Binary, &narrow)?;
    is_read_in_any_chunks(&rt, alloc, Form::Wide, &wide)?;
    is_read_in_any_chunks(&rt, alloc, Form::Text, b"0 0 3\n0 2 5\n1 3 -1\n")
}

// Records, and the number of the one with a fault, if there is one.
type Records = (&'static [(u8, u64, i64)], Option<(u64, Why)>);

// Each record fails one test, or several of which the first one is named: alone, and behind a legal
// one.
const RECORDS: [Records; 18] = [
    (&[(2, 0, 1)], Some((0, Why::BadSide))),
    (&[(0, 3, -2), (2, 0, 1)], Some((1, Why::BadSide))),
    (&[(255, 9, 0)], Some((0, Why::BadSide))),
    (&[(0, 3, -2), (255, 9, 0)], Some((1, Why::BadSide))),
    (&[(0, 4, 1)], Some((0, Why::BadItem))),
    (&[(0, 3, -2), (0, 4, 1)], Some((1, Why::BadItem))),
    (&[(0, 4_294_967_295, 0)], Some((0, Why::BadItem))),
    (
        &[(0, 3, -2), (0, 4_294_967_295, 0)],
        Some((1, Why::BadItem)),
    ),
    (&[(1, 9, i64::MIN)], Some((0, Why::BadItem))),
    (&[(0, 3, -2), (1, 9, i64::MIN)], Some((1, Why::BadItem))),
    (&[(1, 0, 0)], Some((0, Why::ZeroDelta))),
    (&[(0, 3, -2), (1, 0, 0)], Some((1, Why::ZeroDelta))),
    (&[(0, 0, i64::MIN)], Some((0, Why::TooHeavy(Side::First)))),
    (
        &[(0, 3, -2), (0, 0, i64::MIN)],
        Some((1, Why::TooHeavy(Side::First))),
    ),
    (
        &[(1, 0, HEAVIEST + 1)],
        Some((0, Why::TooHeavy(Side::Second))),
    ),
    (
        &[(0, 3, -2), (1, 0, HEAVIEST + 1)],
        Some((1, Why::TooHeavy(Side::Second))),
    ),
    (
        &[(0, 0, HEAVIEST), (0, 0, -1)],
        Some((1, Why::TooHeavy(Side::First))),
    ),
    (&[], None),
];

fn records_end(rt: &impl Abort, alloc: Global, form: Form, table: &[Records]) -> Result<(), Fail> {
    for (row, (records, want)) in table.iter().enumerate() {
        let bytes = stream(alloc, form, records)?;
        expect(rt, row, &[ends(alloc, 2, form, &bytes, *want)?]);
    }
    Ok(())
}

#[test]
fn records_with_a_fault(rt: HostRuntime) -> Result<(), Fail> {
    let alloc = rt.alloc();
    records_end(&rt, alloc, Form::Binary, &RECORDS)?;
    records_end(&rt, alloc, Form::Wide, &RECORDS)
}

// Whether a wide record of this item is legal at a depth, or else its item is bad.
fn is_item(alloc: Global, levels: u8, item: u64, fits: bool) -> Result<bool, Fail> {
    let bytes = stream(alloc, Form::Wide, &[(1, item, 7)])?;
    let want = (!fits).then_some((0, Why::BadItem));
    ends(alloc, levels, Form::Wide, &bytes, want)
}

// Items whose low four bytes are those of another item.
#[test]
fn wide_items_have_eight_bytes(rt: HostRuntime) -> Result<(), Fail> {
    let alloc = rt.alloc();
    let bytes = b"\0\0\0\x80\0\0\0\0\0\0\0\0\0\0\0\0\x07";
    let (updates, end) = read_all(alloc, 48, Form::Wide, bytes, 1)?;
    let one = [update(Side::First, 140_737_488_355_328, 7)];
    let facts = [
        is_item(alloc, 2, 1 << 32, false)?,
        is_item(alloc, 2, u64::MAX, false)?,
        is_item(alloc, 33, 1 << 32, true)?,
        is_item(alloc, 33, 1 << 33, false)?,
        is_item(alloc, 48, (1 << 48) - 1, true)?,
        is_item(alloc, 48, 1 << 48, false)?,
        end.is_none(),
        updates.as_slice() == one.as_slice(),
    ];
    expect(&rt, 0, &facts);
    Ok(())
}

fn is_cut_short(rt: &impl Abort, alloc: Global, form: Form, size: usize) -> Result<(), Fail>
    requires { 1 ≤ size }
{
    let bytes = stream(alloc, form, &[(0, 3, -2), (1, 1, 5)])?;
    expect(rt, 0, &[(bytes.len() / size, bytes.len() % size) == (2, 0)]);
    for len in 0..bytes.len() {
        let at = (len / size) as u64;
        let want = (len % size > 0).then_some((at, Why::Truncated));
        expect(rt, len, &[ends(alloc, 2, form, &bytes[..len], want)?]);
    }
    Ok(())
}

// Two records, of which each is cut behind each of its bytes but the last.
#[test]
fn a_part_of_a_record_is_cut_short(rt: HostRuntime) -> Result<(), Fail> {
    let alloc = rt.alloc();
    is_cut_short(&rt, alloc, Form::Binary, 13)?;
    is_cut_short(&rt, alloc, Form::Wide, 17)
}

const BAD_LINES: [&str; 31] = [
    "2 x 5\n",
    "00 0 5\n",
    "01 0 5\n",
    "-1 0 5\n",
    "0 01 5\n",
    "0 +1 5\n",
    "0 -1 5\n",
    "0 1 +5\n",
    "0 1 -0\n",
    "0 1 -01\n",
    "0 1 00\n",
    "0 1 -\n",
    "0 1 --5\n",
    "0 1 5\r\n",
    "\n",
    " \n",
    "  \n",
    "0  1 5\n",
    "0 1  5\n",
    " 0 1 5\n",
    "0 1 5 \n",
    "0 1\n",
    "0 1 5 6\n",
    "0,1,5\n",
    "0\t1\t5\n",
    "0 18446744073709551616 5\n",
    "0 1 9223372036854775808\n",
    "1 1 -9223372036854775809\n",
    "0000000000000000000000000000000000000000\n",
    "999999999999999999999999999999999999 0 5\n",
    "0 18446744073709551615 -9223372036854775808\n",
];

const LINES: [(&str, Option<Why>); 16] = [
    ("0 0 3\n", None),
    ("1 3 -1073741823\n", None),
    ("0 3 1073741823\n", None),
    ("2 0 5\n", Some(Why::BadSide)),
    ("10 9 0\n", Some(Why::BadSide)),
    (
        "99999999999999999999999999999999999 0 5\n",
        Some(Why::BadSide),
    ),
    ("0 4 5\n", Some(Why::BadItem)),
    ("0 9 0\n", Some(Why::BadItem)),
    ("0 18446744073709551615 5\n", Some(Why::BadItem)),
    ("0 1 0\n", Some(Why::ZeroDelta)),
    ("0 1 1073741824\n", Some(Why::TooHeavy(Side::First))),
    (
        "0 1 9223372036854775807\n",
        Some(Why::TooHeavy(Side::First)),
    ),
    (
        "1 1 -9223372036854775808\n",
        Some(Why::TooHeavy(Side::Second)),
    ),
    ("0 1 5", Some(Why::Truncated)),
    ("x", Some(Why::Truncated)),
    (
        "0000000000000000000000000000000000000000",
        Some(Why::Truncated),
    ),
];

fn line_ends(alloc: Global, line: &str, why: Option<Why>) -> Result<bool, Fail> {
    let want = match why {
        Some(why) => Some((0, why)),
        None => None,
    };
    ends(alloc, 2, Form::Text, line.as_bytes(), want)
}

fn lines_end(rt: &impl Abort, alloc: Global, table: &[(&str, Option<Why>)]) -> Result<(), Fail> {
    for (row, (line, why)) in table.iter().enumerate() {
        expect(rt, row, &[line_ends(alloc, line, *why)?]);
    }
    Ok(())
}

fn lines_are_bad(rt: &impl Abort, alloc: Global, lines: &[&str]) -> Result<(), Fail> {
    for (row, line) in lines.iter().enumerate() {
        expect(rt, row, &[line_ends(alloc, line, Some(Why::BadLine))?]);
    }
    Ok(())
}

#[test]
fn lines_of_another_shape_and_of_the_right_one(rt: HostRuntime) -> Result<(), Fail> {
    let alloc = rt.alloc();
    lines_are_bad(&rt, alloc, &BAD_LINES)?;
    lines_end(&rt, alloc, &LINES)
}

// Call 2 fails after one record of 13 bytes.
fn record_source_fails(rt: &impl Abort, alloc: Global) -> Result<(), Fail> {
    let records = stream(alloc, Form::Binary, &[(0, 0, 3), (0, 2, 5)])?;
    let mut source = MemorySource::new(records, 13, vec![in alloc; 2]?);
    let mut reader = Reader::new(depth(2)?, Form::Binary);
    let first = reader.next(&mut source) == Ok(Some(update(Side::First, 0, 3)));
    if reader.spent() {
        return Err("one record ends no reader")?;
    }
    let second = reader.next(&mut source) == Err(StreamFault::ReadFault);
    expect(rt, 0, &[first, second, reader.spent()]);
    Ok(())
}

// Call 2 fails after the first byte of a line.
fn line_source_fails(rt: &impl Abort, alloc: Global) -> Result<(), Fail> {
    let mut source = MemorySource::new(b"0 0 3\n".to_vec(alloc)?, 1, vec![in alloc; 2]?);
    let mut reader = Reader::new(depth(2)?, Form::Text);
    let first = reader.next(&mut source) == Err(StreamFault::ReadFault);
    expect(rt, 1, &[first, reader.spent()]);
    Ok(())
}

#[test]
fn a_source_that_fails_is_no_end(rt: HostRuntime) -> Result<(), Fail> {
    record_source_fails(&rt, rt.alloc())?;
    line_source_fails(&rt, rt.alloc())
}

#[test]
fn faults_have_texts(rt: HostRuntime) -> Result<(), Fail> {
    let alloc = rt.alloc();
    let bad = StreamFault::Bad {
        at: 7,
        why: Why::BadItem,
    };
    let facts = [
        bad.to_string(alloc)?.as_str() == "record 7 is not legal: BadItem",
        StreamFault::ReadFault.to_string(alloc)?.as_str() == "the source failed",
        StreamFault::OutOfMemory.to_string(alloc)?.as_str() == "out of memory",
    ];
    expect(&rt, 0, &facts);
    Ok(())
}
