// Depths, queries, a vector's numbers and its folds.

use crate::facts::expect;
use crate::vector_calls::{
    count_between, first_entry, fold_line, fold_tree, node_at, number_at, vector_of,
};
use sip_field::{F31, Field, M61};
use sip_vector::{Depth, Entry, Level, Query, Side};
use std::alloc::Global;
use std::process::Abort;
use std::test::Fail;

#[test]
fn depths_are_1_to_48(rt: HostRuntime) {
    let facts = [
        Depth::new(0).is_none(),
        Depth::new(49).is_none(),
        Depth::new(48).map(|depth| depth.get()) == Some(48),
    ];
    expect(&rt, 0, &facts);
}

fn share(num: u32, den: u32) -> Query {
    let side = Side::Second;
    Query::Share { side, num, den }
}

#[test]
fn queries_fit_a_depth(rt: HostRuntime) {
    let side = Side::First;
    let table = [
        (Query::Sub { lo: 0, hi: 1 }, true),
        (Query::Sub { lo: 1, hi: 0 }, false),
        (Query::Range { side, lo: 0, hi: 2 }, false),
        (Query::Heavy { side, at_least: 0 }, false),
        (Query::Inner, true),
        (share(0, 1), false),
        (share(1, 1), true),
        (share(2, 1), false),
        (share(1_000_000, 1_000_000), true),
        (share(1, 1_000_001), false),
    ];
    for (row, (query, fits)) in table.iter().enumerate() {
        expect(&rt, row, &[query.fits(Depth::default()) == *fits]);
    }
}

#[test]
fn a_vector_tells_its_numbers(rt: HostRuntime) -> Result<(), Fail> {
    let vector = vector_of(rt.alloc(), 2, &[(0, 3), (2, 5), (3, 1)])?;
    let facts = [
        vector.depth().get() == 2,
        number_at(&vector, 0) == Some(3),
        number_at(&vector, 1) == Some(0),
        number_at(&vector, 2) == Some(5),
        number_at(&vector, 3) == Some(1),
        (vector.total(), vector.weight(), vector.is_strict()) == (9, 9, true),
        first_entry(&vector, 0, 3) == Some(Entry { index: 0, value: 3 }),
        first_entry(&vector, 1, 3) == Some(Entry { index: 2, value: 5 }),
        first_entry(&vector, 1, 1) == None,
        first_entry(&vector, 3, 2) == None,
        count_between(&vector, 0, 3) == Some(3),
        count_between(&vector, 1, 2) == Some(1),
        count_between(&vector, 1, 1) == Some(0),
    ];
    expect(&rt, 0, &facts);
    Ok(())
}

// Folds (3, 0, 5, 1) at 2 and at 10, by both rules.
fn fold_four<F: Field>(rt: &impl Abort, alloc: Global, tree: u64, line: u64) -> Result<(), Fail> {
    let vector = vector_of(alloc, 2, &[(0, 3), (2, 5), (3, 1)])?;
    let mut level = Level::<F>::of(alloc, &vector)?;
    fold_tree(&mut level, 2);
    let below = [node_at(&level, 0) == Some(3), node_at(&level, 1) == Some(7)];
    fold_tree(&mut level, 10);
    let mut other = Level::<F>::of(alloc, &vector)?;
    fold_line(&mut other, 2);
    fold_line(&mut other, 10);
    expect(rt, 0, &below);
    let tops = [
        node_at(&level, 0) == Some(tree),
        node_at(&other, 0) == Some(line),
    ];
    expect(rt, 1, &tops);
    Ok(())
}

#[test]
fn levels_are_folded_in_both_fields(rt: HostRuntime) -> Result<(), Fail> {
    fold_four::<M61>(&rt, rt.alloc(), 73, M61::MODULUS - 3)?;
    fold_four::<F31>(&rt, rt.alloc(), 73 % 31, 28)
}
