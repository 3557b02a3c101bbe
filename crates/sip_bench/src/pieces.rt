//! A question without a link, whose reply comes in pieces.
ghost use Rattle.std.specs.Prelude.{◌≤◌, IfOk, IfSome};
ghost use Rattle.sip_steps.specs.Questioned.{HasBegun};

use crate::line::{Line, Part, lesser};
use crate::stream::seat;
use sip_field::OutOfMemory;
use sip_ports::MemoryLink;
use sip_questions::Question;
use sip_steps::QuestionAsking;
use sip_tree::Root;
use sip_vector::{Depth, Query};
use sip_verifier::Running;
use sip_wire::Version;
use std::alloc::Global;
use std::io;
use std::time::{Clock, Duration, Instant};

/// How often a reply is fed.
const ROUNDS: u64 = 5;
/// The entries of one frame, and the most frames of a reply.
const ROWS: u32 = 512;

const MOST_FRAMES: u32 = 128;

fn to_io(_: OutOfMemory) -> io::Error {
    io::ErrorKind::OutOfMemory.into()
}

/// How many frames of entries the items of a depth fill, up to 65,536 entries; none where they do
/// not fill one.
fn frames_of(depth: Depth) -> u32
    ensures { result ≤ 128 }
{
    let levels = depth.get();
    if levels < 9 {
        0
    } else if levels < 16 {
        1 << (levels - 9)
    } else {
        MOST_FRAMES
    }
}

/// The entries of the first items, each with the value 1, in so many frames.
fn reply(alloc: Global, frames: u32) -> io::Result<Vec<u8>>
    requires { frames ≤ 128 }
{
    let mut bytes = Vec::new(alloc);
    for frame in 0..frames {
        bytes.extend_from_slice(&[0x13, 0x18, 2, 2, 0])?;
        for row in 0..ROWS {
            bytes.extend_from_slice(&(frame * ROWS + row).to_be_bytes())?;
            bytes.extend_from_slice(&1u64.to_be_bytes())?;
        }
    }
    Ok(bytes)
}

/// The question for the first items, whose query was sent; none where it cannot be asked.
fn asked(alloc: Global, depth: Depth, frames: u32) -> io::Result<Option<QuestionAsking>>
    requires { frames ≤ 128 }
    ensures { IfOk result (λ asking. IfSome asking HasBegun) }
{
    let version = Version::One;
    let question = Question::Query(Query::Sub {
        lo: 0,
        hi: u64::from(frames * ROWS).saturating_sub(1),
    });
    if depth.get() > version.deepest() || !question.can_pose(version, depth) {
        return Ok(None);
    }
    let running = Running::Root(Root::new(seat(depth)));
    let mut link = MemoryLink::new(alloc, Vec::new(alloc), 1, Vec::new(alloc));
    let Ok(mut asking) = QuestionAsking::begin(alloc, version, depth, question, running) else {
        return Err(to_io(OutOfMemory));
    };
    if asking.due(&mut link).is_err() {
        return Err(to_io(OutOfMemory));
    }
    Ok(Some(asking))
}

/// Feeds bytes in pieces of a size, and answers how many were taken.
fn fed(asking: &mut QuestionAsking, bytes: &[u8], size: usize) -> u64
    requires some { 1 ≤ size }
    requires begun { HasBegun asking.old }
{
    let mut taken = 0u64;
    for piece in bytes.chunks(size) {
        taken = taken.wrapping_add(asking.feed(piece) as u64);
    }
    taken
}

/// The reply in pieces of a size, from its first byte to the last. The least time of one is taken,
/// and the checksum is how many bytes were.
pub(crate) fn fed_in(
    clock: &impl Clock,
    alloc: Global,
    part: Part,
    depth: Depth,
    size: usize,
) -> io::Result<Line>
    requires { 1 ≤ size }
{
    let frames = frames_of(depth);
    let bytes = reply(alloc, frames)?;
    let mut checksum = 0;
    let mut time = Duration::MAX;
    for _ in 0..ROUNDS {
        let Some(mut asking) = asked(alloc, depth, frames)? else {
            return Err(io::ErrorKind::InvalidInput.into());
        };
        let start = Instant::now(clock)?;
        checksum = fed(&mut asking, &bytes, size);
        time = lesser(time, start.elapsed(clock)?);
    }
    Ok(Line {
        part,
        depth,
        count: u64::from(frames * ROWS),
        time,
        checksum,
    })
}
