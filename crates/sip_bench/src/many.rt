//! Running numbers, one or several, each of which is fed with every block: so a run keeps them.
ghost use Rattle.std.specs.Prelude.{◌≡◌, ◌^◌, ◌<◌, ◌≤◌, nat_abs, length, All};
ghost use Rattle.sip_vector.specs.Limits.{most_depth};

use crate::blocks::{BLOCK, BLOCKS, next_block};
use crate::line::{Line, Part, lesser};
use crate::stream::{Generator, seat_of};
use sip_field::{M61, OutOfMemory, Seat};
use sip_mle::Point;
use sip_tree::{AugRoot, Root};
use sip_vector::{CAP, Depth, Update};
use std::alloc::Global;
use std::io;
use std::time::{Clock, Duration, Instant};

/// How many blocks each of several numbers gets.
const FEWER_BLOCKS: u64 = 200;
/// A block that adds 8 times 512 at most leaves such a total below 2^30, the limit of an augmented
/// root.
const MOST_TOTAL: u64 = 1 << 29;

/// A running number of a stream.
pub(crate) trait Number {
    ghost use Rattle.std.specs.Prelude.{◌≡◌, ◌^◌, ◌<◌, ◌≤◌, ℕ, nat_abs, length, All, IfOk};
    ghost use Rattle.sip_vector.specs.Limits.{most_depth};

    /// How many challenges it has.
    ghost deep: { Self → ℕ };

    /// That of a stream without updates, which keeps its tables.
    fn begun(alloc: Global, seat: Seat<M61, CAP>) -> Result<Self, OutOfMemory>
        ensures { IfOk result (λ number. deep number ≡ length seat) };

    /// Takes a block of small updates.
    fn raise(&mut self, block: &[Update])
        requires few { deep self.old ≤ most_depth }
        requires long { length block.now ≡ 512 }
        requires items { All (λ u. u.item < 2 ^ deep self.old) block.now }
        requires deltas { All (λ u. nat_abs u.delta ≤ 8) block.now }
        ensures { deep self.new ≡ deep self.old };

    /// What it has come to.
    fn value(&self) -> u64;
}

impl Number for Root<M61, CAP> {
    ghost deep = { λ root. length root.seat };

    fn begun(alloc: Global, seat: Seat<M61, CAP>) -> Result<Self, OutOfMemory> {
        let mut number = Root::new(seat);
        number.keep_tables(alloc)?;
        Ok(number)
    }

    fn raise(&mut self, block: &[Update]) {
        self.update_all(block);
    }

    fn value(&self) -> u64 {
        self.value
    }
}

impl Number for Point<M61, CAP> {
    ghost deep = { λ point. length point.seat };

    fn begun(alloc: Global, seat: Seat<M61, CAP>) -> Result<Self, OutOfMemory> {
        let mut number = Point::new(seat);
        number.keep_tables(alloc)?;
        Ok(number)
    }

    fn raise(&mut self, block: &[Update]) {
        self.update_all(block);
    }

    fn value(&self) -> u64 {
        self.value
    }
}

/// A block is taken where the total leaves room for it: that of all that are fed here.
impl Number for AugRoot<M61, CAP> {
    ghost deep = { λ root. length root.seat };

    fn begun(alloc: Global, seat: Seat<M61, CAP>) -> Result<Self, OutOfMemory> {
        let mut number = AugRoot::new(seat);
        number.keep_tables(alloc)?;
        Ok(number)
    }

    fn raise(&mut self, block: &[Update]) {
        if self.total().unsigned_abs() <= MOST_TOTAL {
            self.update_all(block);
        }
    }

    fn value(&self) -> u64 {
        self.hash
    }
}

/// A block is given to each of these numbers.
fn raise_all<N: Number>(numbers: &mut [N], depth: Depth, block: &[Update])
    requires long { length block.now ≡ 512 }
    requires deep { All (λ n. N.deep n ≡ depth) numbers.old }
    requires items { All (λ u. u.item < 2 ^ depth) block.now }
    requires deltas { All (λ u. nat_abs u.delta ≤ 8) block.now }
    ensures { All (λ n. N.deep n ≡ depth) numbers.new }
{
    for number in numbers.iter_mut() {
        number.raise(block);
    }
}

/// Blocks of updates, each for so many numbers. The least time of a block is taken.
pub(crate) fn fed<N: Number + Drop>(
    clock: &impl Clock,
    alloc: Global,
    part: Part,
    depth: Depth,
    count: u64,
) -> io::Result<Line> {
    let mut numbers: Vec<N> = Vec::new(alloc);
    for number in 0..count {
        match N::begun(alloc, seat_of(number, depth)) {
            Ok(begun) => numbers.push(begun)?,
            Err(_) => return Err(io::ErrorKind::OutOfMemory.into()),
        }
    }
    let mut stream = Generator::of_stream();
    let mut time = Duration::MAX;
    let blocks = if count == 1 { BLOCKS } else { FEWER_BLOCKS };
    for _ in 0..blocks {
        let block = next_block(&mut stream, depth);
        let start = Instant::now(clock)?;
        raise_all(&mut numbers, depth, &block);
        time = lesser(time, start.elapsed(clock)?);
    }
    let mut checksum = 0u64;
    for number in numbers.iter() {
        checksum = checksum.wrapping_add(number.value());
    }
    Ok(Line {
        part,
        depth,
        count: count.wrapping_mul(BLOCK as u64),
        time,
        checksum,
    })
}
