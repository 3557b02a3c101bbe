// What a vector shows while additions are pending, and after memory was refused to it.

use crate::facts::expect;
use crate::vector_calls::{
    Watched, added, count_between, final_entry, first_entry, number_at, zeros,
};
use sip_vector::{Depth, Entry, Vector};
use std::alloc::Global;
use std::process::Abort;
use std::test::Fail;

// Eight numbers, as they are and in a vector to which the same was added.
#[derive(Drop)]
struct Pair {
    vector: Vector,
    numbers: [i64; 8],
    state: u64,
}

impl Pair {
    fn new(alloc: Global) -> Result<Pair, Fail> {
        let depth = Depth::new(3).ok_or(())?;
        Ok(Pair {
            vector: zeros(alloc, depth)?,
            numbers: [0; 8],
            state: 1,
        })
    }

    // Adds -3 to 3 to one of the numbers, by the linear congruential generator of Knuth's MMIX.
    fn add(&mut self, rt: &impl Abort) -> Result<(), Fail> {
        self.state = self
            .state
            .wrapping_mul(6_364_136_223_846_793_005)
            .wrapping_add(1_442_695_040_888_963_407);
        let index = self.state >> 61;
        let delta = (self.state >> 32) as i64 % 4;
        self.add_at(rt, index, delta)
    }

    fn add_at(&mut self, rt: &impl Abort, index: u64, delta: i64) -> Result<(), Fail> {
        self.take(rt, index, delta)?;
        if let Some(number) = self.numbers.get_mut(index as usize) {
            *number = number.wrapping_add(delta);
        }
        Ok(())
    }

    // The first number that is not 0 from one index to another, and how many there are.
    fn found(&self, from: u64, hi: u64) -> (Option<Entry>, u64) {
        let mut first = None;
        let mut count = 0u64;
        let mut index = 0u64;
        for number in &self.numbers {
            if from <= index && index <= hi && *number != 0 {
                count = count.wrapping_add(1);
                if first.is_none() {
                    first = Some(Entry {
                        index,
                        value: *number,
                    });
                }
            }
            index = index.wrapping_add(1);
        }
        (first, count)
    }

    fn finds(&self, rt: &impl Abort, from: u64, hi: u64) {
        let (first, count) = self.found(from, hi);
        let counted = count_between(&self.vector, from, hi);
        let facts = [
            first_entry(&self.vector, from, hi) == first,
            counted == (from <= hi).then_some(count),
        ];
        expect(rt, hi as usize, &facts);
    }

    // A settled vector lends the numbers that are not 0.
    fn lends(&self, rt: &impl Abort) -> Result<(), Fail> {
        let entries = self.vector.entries().ok_or(())?;
        are_entries(rt, entries, &self.numbers);
        Ok(())
    }

    // It shares them too, and what it shared stays as it was once more is added.
    fn shares(&mut self, rt: &impl Abort) -> Result<(), Fail> {
        let shared = self.vector.shared_entries()?.ok_or(())?;
        let numbers = self.numbers;
        self.add_at(rt, 0, 5)?;
        expect(rt, 0, &[self.vector.shared_entries()?.is_none()]);
        self.settle(rt)?;
        are_entries(rt, &shared, &numbers);
        self.lends(rt)
    }
}

impl Watched for Pair {
    fn vector(&mut self) -> &mut Vector {
        &mut self.vector
    }

    // Each call that takes no memory.
    fn shows(&self, rt: &impl Abort) {
        let mut total = 0i64;
        let mut is_strict = true;
        for (index, number) in self.numbers.iter().enumerate() {
            let shown = number_at(&self.vector, index as u64);
            expect(rt, index, &[shown == Some(*number)]);
            total = total.wrapping_add(*number);
            is_strict &= *number >= 0;
        }
        let facts = [
            self.vector.total() == total,
            self.vector.is_strict() == is_strict,
        ];
        expect(rt, 8, &facts);
        for from in 0..8u64 {
            for hi in 0..8u64 {
                self.finds(rt, from, hi);
            }
        }
    }
}

// These entries are the numbers that are not 0, in their order.
fn are_entries(rt: &impl Abort, entries: &[Entry], numbers: &[i64; 8]) {
    let mut count = 0usize;
    for (index, number) in numbers.iter().enumerate() {
        if *number != 0 {
            let entry = Entry {
                index: index as u64,
                value: *number,
            };
            expect(rt, index, &[entries.get(count) == Some(&entry)]);
            count = count.wrapping_add(1);
        }
    }
    expect(rt, 8, &[entries.len() == count]);
}

#[test]
fn want_of_memory_leaves_a_vector_as_it_was(rt: HostRuntime) -> Result<(), Fail> {
    let mut pair = Pair::new(rt.alloc())?;
    // More than may wait: one of them begins with a merge.
    for _ in 0..530_000 {
        pair.add(&rt)?;
    }
    pair.shows(&rt);
    pair.settle(&rt)?;
    pair.shows(&rt);
    pair.lends(&rt)?;
    pair.shares(&rt)
}

// Deltas about the greatest that waits in one word, and far from it.
const DELTAS: [i64; 8] = [
    32_767,
    32_768,
    -32_767,
    -32_768,
    -32_769,
    65_535,
    536_870_912,
    -400_000_000,
];

#[test]
fn a_large_delta_is_added_whole_or_not_at_all(rt: HostRuntime) -> Result<(), Fail> {
    let mut pair = Pair::new(rt.alloc())?;
    for (index, delta) in DELTAS.iter().enumerate() {
        pair.add_at(&rt, index as u64, *delta)?;
        pair.shows(&rt);
    }
    pair.settle(&rt)?;
    pair.shows(&rt);
    pair.lends(&rt)?;
    pair.shares(&rt)
}

// How many entries the vector of the next test has, at each third index.
const MANY: u64 = 20_000;

fn many(alloc: Global) -> Result<Vector, Fail> {
    let mut vector = zeros(alloc, Depth::new(16).ok_or(())?)?;
    for delta in [3, -1] {
        for place in 0..MANY {
            let index = (MANY - 1 - place) * 3;
            if !added(&mut vector, index, delta)? && !added(&mut vector, index, delta)? {
                return Err("memory is refused once")?;
            }
        }
    }
    Ok(vector)
}

// Where the merge is refused memory, a walk finds each entry without it, and soon: it takes some
// steps for each, and not a look at all that is pending.
#[test]
fn a_walk_wants_no_merge(rt: HostRuntime) -> Result<(), Fail> {
    let mut vector = many(rt.alloc())?;
    let _ = vector.settle();
    let last = (1u64 << 16) - 1;
    let entry = |index| Some(Entry { index, value: 2 });
    let facts = [
        vector.is_strict(),
        count_between(&vector, 0, last) == Some(MANY),
        count_between(&vector, 4, 12) == Some(3),
        first_entry(&vector, 4, last) == entry(6),
        final_entry(&vector, 0, last) == entry(MANY * 3 - 3),
        first_entry(&vector, MANY * 3 - 2, last).is_none(),
        number_at(&vector, 7) == Some(0),
    ];
    expect(&rt, 0, &facts);
    Ok(())
}
