//! The vector of a helper, and the siblings of one query.
ghost use Rattle.std.specs.Prelude.{◌^◌, ◌<◌};

use crate::line::{Line, Part, lesser};
use crate::stream::{Generator, seat};
use sip_field::{Field, M61, OutOfMemory};
use sip_subvec::SubProver;
use sip_vector::{Depth, Vector};
use std::alloc::Global;
use std::io;
use std::time::{Clock, Duration, Instant};

/// How many updates a vector gets. 8 times as much is below 2^30, the limit of a vector's weight.
const UPDATES: u64 = 1_000_000;
/// How many queries are asked.
const QUERIES: u64 = 5;
/// The last item of each query, which begins at item 0.
const LAST: u64 = 999;

fn to_io(_: OutOfMemory) -> io::Error {
    io::ErrorKind::OutOfMemory.into()
}

/// Updates of a vector, which is settled and handed on.
pub(crate) fn vector(
    clock: &impl Clock,
    alloc: Global,
    depth: Depth,
) -> io::Result<(Vector, Line)> {
    let mut vector = Vector::new(alloc, depth).map_err(to_io)?;
    let mut stream = Generator::of_stream();
    let start = Instant::now(clock)?;
    for _ in 0..UPDATES {
        let update = stream.next_update(depth);
        vector.add(update.item, update.delta).map_err(to_io)?;
    }
    vector.settle().map_err(to_io)?;
    let time = start.elapsed(clock)?;
    let line = Line {
        part: Part::Vector,
        depth,
        count: UPDATES,
        time,
        checksum: vector.total().unsigned_abs(),
    };
    Ok((vector, line))
}

fn plus(sum: M61, sibling: Option<M61>) -> M61 {
    match sibling {
        Some(sibling) => sum.plus(sibling),
        None => sum,
    }
}

/// All siblings of one query for 1,000 items, level by level, and their sum.
fn all_siblings(alloc: Global, vector: &Vector) -> io::Result<M61>
    requires { 999 < 2 ^ vector.now.depth }
{
    let challenges = seat(vector.depth());
    let mut prover: SubProver<M61> = SubProver::start(alloc, vector, 0, LAST).map_err(to_io)?;
    let mut sum = M61::of(0);
    for below in 0..challenges.depth() {
        if prover.levels_left() > 0 {
            let siblings = prover.siblings();
            sum = plus(plus(sum, siblings.left), siblings.right);
            prover.learn(challenges.at(below + 1));
        }
    }
    Ok(sum)
}

/// Queries about a vector, one like the other. The least time of one is taken.
pub(crate) fn siblings(clock: &impl Clock, alloc: Global, depth: Depth) -> io::Result<Line> {
    let (vector, _) = vector(clock, alloc, depth)?;
    let end = 1u64 << vector.depth().get();
    if LAST >= end {
        return Err(io::ErrorKind::InvalidInput.into());
    }
    let mut checksum = 0;
    let mut time = Duration::MAX;
    for _ in 0..QUERIES {
        let start = Instant::now(clock)?;
        checksum = all_siblings(alloc, &vector)?.number();
        time = lesser(time, start.elapsed(clock)?);
    }
    Ok(Line {
        part: Part::Siblings,
        depth,
        count: vector.count_in(0, end - 1),
        time,
        checksum,
    })
}
