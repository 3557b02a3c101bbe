// Sums over items that lie far apart, beside the sums that the test itself adds up.

use crate::duel::check_duel;
use std::alloc::Global;
use std::process::Abort;
use std::test::Fail;

// An odd number: its first 2^d multiples are all the items of depth d, in no order.
const STEP: u64 = 0x9e37_79b9_7f4a_7c15;

// A stream of wide records, with the sum of the squares of side 0, of the products of both sides,
// and of the entries of side 1 from one item to another.
#[derive(Drop)]
struct Far {
    stream: Vec<u8>,
    squares: i64,
    products: i64,
    entries: i64,
}

impl Far {
    fn push(&mut self, side: u8, item: u64, delta: i64) -> Result<(), Fail> {
        self.stream.push(side)?;
        self.stream.extend_from_slice(&item.to_be_bytes())?;
        self.stream.extend_from_slice(&delta.to_be_bytes())?;
        Ok(())
    }
}

// So many items of side 0 up to the last one of a depth, of which each second one is an item of
// side 1 too.
fn far_apart(alloc: Global, count: u64, last: u64, lo: u64, hi: u64) -> Result<Far, Fail> {
    let mut far = Far {
        stream: Vec::new(alloc),
        squares: 0,
        products: 0,
        entries: 0,
    };
    for number in 0..count {
        let item = (number + 1).wrapping_mul(STEP) & last;
        let first = (number % 9) as i64 - 9;
        far.push(0, item, first)?;
        far.squares = far.squares.wrapping_add(first.wrapping_mul(first));
        if number % 2 == 0 {
            let second = (number % 7) as i64 + 1;
            far.push(1, item, second)?;
            far.products = far.products.wrapping_add(first.wrapping_mul(second));
            if lo <= item && item <= hi {
                far.entries = far.entries.wrapping_add(second);
            }
        }
    }
    Ok(far)
}

// Asks for each of the three sums, in a run of its own. The entries are those of the middle half of
// the items.
fn check_far(rt: &impl Abort, alloc: Global, depth: u8, last: u64, count: u64) -> Result<(), Fail> {
    let (lo, hi) = (last / 4, last / 4 * 3);
    let far = far_apart(alloc, count, last, lo, hi)?;
    let range = format!(in alloc; "range:1:{lo}:{hi}")?;
    for (query, sum) in [
        ("f2:0", far.squares),
        ("inner", far.products),
        (range.as_str(), far.entries),
    ] {
        let words = format!(in alloc; "verify wide:s seed a b - {depth} {query}")?;
        let line = format!(in alloc; "{query} {sum}\n")?;
        check_duel(rt, alloc, (&words, &far.stream, &line))?;
    }
    Ok(())
}

#[test]
fn sums_over_items_far_apart(rt: HostRuntime) -> Result<(), Fail> {
    for (depth, last) in [(32, 0xffff_ffff), (48, 0xffff_ffff_ffff)] {
        for count in [1, 2, 1000] {
            check_far(&rt, rt.alloc(), depth, last, count)?;
        }
    }
    Ok(())
}
