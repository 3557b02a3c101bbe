//! The helper's end of a frequency moment.
ghost use Rattle.std.specs.Prelude.{◌≤◌, ◌^◌};
ghost use Rattle.sip_wire.specs.Table.{most_claim};
ghost use Rattle.sip_moments.specs.Moments.{IsDegree};

use crate::line::{Line, Part, lesser};
use crate::stream::{Generator, seat};
use sip_field::{Field, M61, OutOfMemory, Seat};
use sip_moments::MomentProver;
use sip_vector::{CAP, Depth, Vector};
use std::alloc::Global;
use std::io;
use std::time::{Clock, Duration, Instant};

/// How many updates of 1 a vector gets, unless fewer leave room for its moment.
const UPDATES: u64 = 1_000_000;
/// How often a prover is run.
const QUERIES: u64 = 5;

fn to_io(_: OutOfMemory) -> io::Error {
    io::ErrorKind::OutOfMemory.into()
}

/// How many updates of 1 leave room for a moment of the degree in a claim, or a million where more
/// do.
fn most_ones(degree: u8) -> u64
    ensures { result ≤ 1_000_000 }
{
    if degree == 3 { UPDATES } else { 181 }
}

/// As many updates of 1.
fn ones(alloc: Global, depth: Depth, count: u64) -> io::Result<Vector>
    requires { count ≤ 1_000_000 }
{
    let mut vector = Vector::new(alloc, depth).map_err(to_io)?;
    let mut stream = Generator::of_stream();
    for _ in 0..count {
        let update = stream.next_update(depth);
        vector.add(update.item, 1).map_err(to_io)?;
    }
    vector.settle().map_err(to_io)?;
    Ok(vector)
}

/// A prover of the moment, where it has room in a claim.
fn prover_of(alloc: Global, vector: &Vector, degree: u8) -> io::Result<MomentProver<M61>>
    requires { IsDegree degree }
{
    match vector.weight().checked_pow(u32::from(degree)) {
        Some(moment) if moment < 1 << 60 => MomentProver::start(alloc, vector, degree).map_err(
            to_io,
        ),
        _ => Err(io::ErrorKind::InvalidInput.into()),
    }
}

/// A checksum with the coefficients of a polynomial, and zeros above the degree.
fn with_polynomial(sum: u64, polynomial: &[M61]) -> u64 {
    let mut sum = sum;
    for coefficient in polynomial {
        sum = sum.wrapping_mul(3).wrapping_add(coefficient.number());
    }
    for _ in polynomial.len()..9 {
        sum = sum.wrapping_mul(3);
    }
    sum
}

/// The checksum of the polynomials of all rounds.
fn all_polynomials(
    alloc: Global,
    vector: &Vector,
    challenges: &Seat<M61, CAP>,
    degree: u8,
) -> io::Result<u64>
    requires { IsDegree degree }
{
    let mut prover = prover_of(alloc, vector, degree)?;
    let mut sum = 0;
    for round in 0..challenges.depth() {
        if prover.rounds_left() > 0 {
            sum = with_polynomial(sum, prover.polynomial());
            if round + 1 < challenges.depth() {
                prover.learn(challenges.at(round + 1));
            }
        }
    }
    Ok(sum)
}

/// The helper's end, from the vector to the last polynomial. The least time of one is taken.
pub(crate) fn prover(
    clock: &impl Clock,
    alloc: Global,
    part: Part,
    depth: Depth,
    degree: u8,
) -> io::Result<Line>
    requires { IsDegree degree }
{
    let vector = ones(alloc, depth, most_ones(degree))?;
    let challenges = seat(depth);
    let mut checksum = 0;
    let mut time = Duration::MAX;
    for _ in 0..QUERIES {
        let start = Instant::now(clock)?;
        checksum = all_polynomials(alloc, &vector, &challenges, degree)?;
        time = lesser(time, start.elapsed(clock)?);
    }
    let end = 1u64 << vector.depth().get();
    Ok(Line {
        part,
        depth,
        count: vector.count_in(0, end - 1),
        time,
        checksum,
    })
}
