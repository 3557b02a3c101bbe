// A vector of the greatest depth with many entries far from each other.

use crate::facts::expect;
use crate::vector_calls::{Watched, number_at, zeros};
use sip_vector::{Depth, Vector};
use std::alloc::Global;
use std::process::Abort;
use std::test::Fail;

const ITEMS: u64 = 1 << Depth::MOST;

// More than may wait: one of them begins with a merge, and what waits at the end is merged into a
// long list.
const ADDITIONS: u64 = 600_000;

// The item of an addition, far from those of the additions before it. The factor is odd, so that
// each has an item of its own.
fn item(addition: u64) -> u64 {
    addition.wrapping_mul(0x9E37_79B9_7F4A_7C15) % ITEMS
}

fn delta(addition: u64) -> i64 {
    (addition % 3) as i64 + 1
}

// A vector to which each addition is made at an item of its own.
#[derive(Drop)]
struct Far {
    vector: Vector,
    count: u64,
    total: i64,
}

impl Far {
    fn new(alloc: Global) -> Result<Far, Fail> {
        let depth = Depth::new(Depth::MOST).ok_or(())?;
        Ok(Far {
            vector: zeros(alloc, depth)?,
            count: 0,
            total: 0,
        })
    }

    fn add(&mut self, rt: &impl Abort) -> Result<(), Fail> {
        let (index, delta) = (item(self.count), delta(self.count));
        self.take(rt, index, delta)?;
        self.total = self.total.wrapping_add(delta);
        self.count = self.count.wrapping_add(1);
        Ok(())
    }
}

impl Watched for Far {
    fn vector(&mut self) -> &mut Vector {
        &mut self.vector
    }

    // The total, and the numbers at some items: those of the first additions, of later ones, and of
    // some that were not made.
    fn shows(&self, rt: &impl Abort) {
        expect(rt, 16, &[self.vector.total() == self.total]);
        for eighth in 0..16u64 {
            let addition = (self.count / 8).wrapping_mul(eighth);
            let number = if addition < self.count {
                delta(addition)
            } else {
                0
            };
            let shown = number_at(&self.vector, item(addition));
            expect(rt, eighth as usize, &[shown == Some(number)]);
        }
    }
}

#[test]
fn want_of_memory_leaves_far_entries_as_they_were(rt: HostRuntime) -> Result<(), Fail> {
    let mut far = Far::new(rt.alloc())?;
    for _ in 0..ADDITIONS {
        far.add(&rt)?;
    }
    far.shows(&rt);
    far.settle(&rt)?;
    far.shows(&rt);
    let entries = far.vector.entries().ok_or(())?;
    expect(&rt, 0, &[entries.len() as u64 == ADDITIONS]);
    Ok(())
}
