//! Reads of a stream that lies in memory.

ghost use Rattle.std.specs.Prelude.{◌≤◌};
ghost use Rattle.sip_stream.specs.Layouts.{deepest_in};

use crate::held::HeldSource;
use crate::line::{Line, Part, lesser};
use sip_ports::MemorySink;
use sip_stream::{Form, MadeSource, Reader, copy};
use sip_vector::{Depth, Side, Update};
use std::alloc::Global;
use std::io;
use std::time::{Clock, Duration, Instant};

/// How many records are timed at once, and how often.
const ROWS: usize = 512;

const BLOCK: u64 = ROWS as u64;

const BLOCKS: u64 = 200;

/// How many sums a checksum is made of in turn, and 3 to the power of that number.
const SUMS: usize = 8;

const SUM_STEP: u64 = 6_561;

fn side_number(side: Side) -> u64 {
    match side {
        Side::First => 0,
        Side::Second => 1,
    }
}

fn number_of(update: &Update) -> u64 {
    update
        .item
        .wrapping_add(side_number(update.side))
        .wrapping_add(update.delta.cast_unsigned())
}

// The checksum once a block follows: three times that before, and the number of the record, for
// each record. It is made of eight sums in turn, since a sum waits for its own last step: two of
// them took a third of the time that is told of reading binary records.
fn checksum_with(checksum: u64, block: &[Update; ROWS]) -> u64 {
    let mut sums: [u64; SUMS] = [0; SUMS];
    sums[SUMS - 1] = checksum;
    for group in 0..ROWS / SUMS {
        for turn in 0..SUMS {
            sums[turn] = sums[turn]
                .wrapping_mul(SUM_STEP)
                .wrapping_add(number_of(&block[SUMS * group + turn]));
        }
    }
    let mut all: u64 = 0;
    for turn in 0..SUMS {
        all = all.wrapping_mul(3).wrapping_add(sums[turn]);
    }
    all
}

/// The bytes of a made stream in this form.
fn made(alloc: Global, depth: Depth, form: Form) -> io::Result<MemorySink>
    requires { depth ≤ deepest_in form }
{
    let mut source = MadeSource::new(7, BLOCK * BLOCKS, depth);
    let mut sink = MemorySink::new(alloc, usize::MAX, Vec::new(alloc));
    match copy(depth, Form::made(depth), form, &mut source, &mut sink) {
        Ok(()) => Ok(sink),
        Err(_) => Err(io::ErrorKind::OutOfMemory.into()),
    }
}

/// The bytes alone, which nothing reads: what they cost in a part that reads them.
pub(crate) fn bytes(alloc: Global, part: Part, depth: Depth, form: Form) -> io::Result<Line>
    requires { depth ≤ deepest_in form }
{
    let sink = made(alloc, depth, form)?;
    Ok(Line {
        part,
        depth,
        count: BLOCK,
        time: Duration::ZERO,
        checksum: sink.bytes().len() as u64,
    })
}

/// Reads of the records of a made stream, by the block, as the end of a talk reads them. The stream
/// lies in memory in this form. The least time of a block is taken.
pub(crate) fn read(
    clock: &impl Clock,
    alloc: Global,
    part: Part,
    depth: Depth,
    form: Form,
) -> io::Result<Line>
    requires { depth ≤ deepest_in form }
{
    let sink = made(alloc, depth, form)?;
    let mut source = HeldSource::new(sink.bytes());
    let mut reader = Reader::new(depth, form);
    let mut block = [Update::default(); ROWS];
    let mut checksum = 0;
    let mut time = Duration::MAX;
    for _ in 0..BLOCKS {
        let start = Instant::now(clock)?;
        let count = reader.read_held(&mut source, &mut block);
        checksum = checksum_with(checksum, &block);
        time = lesser(time, start.elapsed(clock)?);
        if count < ROWS {
            return Err(io::ErrorKind::InvalidData.into());
        }
    }
    Ok(Line {
        part,
        depth,
        count: BLOCK,
        time,
        checksum,
    })
}
