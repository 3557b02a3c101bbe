//! The calls of a vector and of a level, with no answer where the arguments are none of theirs.

use crate::facts::expect;
use sip_field::{Field, OutOfMemory};
use sip_vector::{Depth, Entry, Level, Vector};
use std::alloc::Global;
use std::process::Abort;
use std::test::Fail;

const MOST_WEIGHT: u64 = (1 << 30) - 1;

pub(crate) fn number_at(vector: &Vector, index: u64) -> Option<i64> {
    if index < 1 << vector.depth().get() {
        return Some(vector.get(index));
    }
    None
}

pub(crate) fn first_entry(vector: &Vector, from: u64, hi: u64) -> Option<Entry> {
    if hi < 1 << vector.depth().get() {
        return vector.next_entry(from, hi);
    }
    None
}

pub(crate) fn final_entry(vector: &Vector, lo: u64, to: u64) -> Option<Entry> {
    if lo <= to && to < 1 << vector.depth().get() {
        return vector.last_entry(lo, to);
    }
    None
}

pub(crate) fn count_between(vector: &Vector, lo: u64, hi: u64) -> Option<u64> {
    if lo <= hi && hi < 1 << vector.depth().get() {
        return Some(vector.count_in(lo, hi));
    }
    None
}

// Whether the addition was made: it is not where memory is wanted.
pub(crate) fn added(vector: &mut Vector, index: u64, delta: i64) -> Result<bool, Fail> {
    if index >= 1 << vector.depth().get() || vector.weight() + delta.unsigned_abs() > MOST_WEIGHT {
        return Err("no addition of this vector")?;
    }
    Ok(vector.add(index, delta).is_ok())
}

// A vector beside what it must show. Where memory is refused to it, it must be as it was, and do
// then what was asked.
pub(crate) trait Watched {
    fn vector(&mut self) -> &mut Vector;

    fn shows(&self, rt: &impl Abort);

    fn take(&mut self, rt: &impl Abort, index: u64, delta: i64) -> Result<(), Fail> {
        if !added(self.vector(), index, delta)? {
            self.shows(rt);
            expect(rt, 16, &[added(self.vector(), index, delta)?]);
        }
        Ok(())
    }

    fn settle(&mut self, rt: &impl Abort) -> Result<(), Fail> {
        if self.vector().settle().is_err() {
            self.shows(rt);
            self.vector().settle()?;
        }
        Ok(())
    }
}

// A vector of zeros, which is asked for again where memory was refused to it.
pub(crate) fn zeros(alloc: Global, depth: Depth) -> Result<Vector, OutOfMemory> {
    match Vector::new(alloc, depth) {
        Ok(vector) => Ok(vector),
        Err(_) => Vector::new(alloc, depth),
    }
}

// The vector with these entries.
pub(crate) fn vector_of(alloc: Global, depth: u8, entries: &[(u64, i64)]) -> Result<Vector, Fail> {
    let depth = Depth::new(depth).ok_or("a depth")?;
    let mut vector = Vector::new(alloc, depth)?;
    for (index, delta) in entries {
        if !added(&mut vector, *index, *delta)? {
            return Err(OutOfMemory)?;
        }
    }
    Ok(vector)
}

pub(crate) fn node_at<F: Field>(level: &Level<F>, index: u64) -> Option<u64> {
    if index < 1 << level.folds_left() {
        return Some(level.at(index).number());
    }
    None
}

// The level above by the rule of the hash tree, where there is one.
pub(crate) fn fold_tree<F: Field>(level: &mut Level<F>, r: u64) {
    if level.folds_left() > 0 {
        level.fold_tree(F::of(r));
    }
}

// The same by the rule of the multilinear extension.
pub(crate) fn fold_line<F: Field>(level: &mut Level<F>, r: u64) {
    if level.folds_left() > 0 {
        level.fold_line(F::of(r));
    }
}
