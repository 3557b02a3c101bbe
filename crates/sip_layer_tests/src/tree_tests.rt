ghost use Rattle.std.specs.Prelude.{◌≡◌, length};

use crate::facts::expect;
use sip_field::{Field, M61, Seat};
use sip_tree::{AugRoot, Root, up};
use std::test::Fail;

fn two_and_ten() -> Seat<M61, 32>
    ensures { length result ≡ 2 }
{
    Seat::of(&[M61::of(2), M61::of(10)]).unwrap()
}

#[test]
fn weights_are_products_of_the_challenges_above(rt: HostRuntime) {
    let root = Root::new(two_and_ten());
    let facts = [
        root.weight_above(0, 1).number() == 2,
        root.weight_above(0, 2).number() == 10,
        root.weight_above(0, 3).number() == 20,
        root.weight_above(1, 1).number() == 10,
        root.weight_above(2, 0).number() == 1,
    ];
    expect(&rt, 0, &facts);
}

#[test]
fn a_root_follows_its_vector(rt: HostRuntime) {
    let mut root = Root::new(two_and_ten());
    let first = root.value().number() == 0;
    root.update(0, 3);
    root.update(2, 5);
    root.update(3, 1);
    let second = root.value().number() == 73;
    root.update(2, -5);
    root.update(3, -2);
    // 3 - 1 * 20
    let third = root.value() == M61::of_signed(-17);
    expect(&rt, 0, &[first, second, third]);
}

#[test]
fn an_augmented_root_follows_its_vector_in_any_order(rt: HostRuntime) {
    let mut forwards = AugRoot::new(two_and_ten());
    forwards.update(0, 3);
    forwards.update(2, 5);
    forwards.update(3, 1);
    let first = (forwards.hash().number(), forwards.total()) == (8739, 9);
    let mut backwards = AugRoot::new(two_and_ten());
    backwards.update(3, 1);
    backwards.update(2, 5);
    backwards.update(0, 3);
    let second = (backwards.hash().number(), backwards.total()) == (8739, 9);
    backwards.update(1, -9);
    // 8739 - 9 * 22
    let third = (backwards.hash().number(), backwards.total()) == (8541, 0);
    expect(&rt, 0, &[first, second, third]);
}

#[test]
fn a_level_is_folded_in_place(rt: HostRuntime) -> Result<(), Fail> {
    let mut level = vec![in rt.alloc(); M61::of(3), M61::of(0), M61::of(5), M61::of(1)]?;
    up(&mut level, M61::of(2));
    let two = level.as_slice() == [M61::of(3), M61::of(7)].as_slice();
    up(&mut level, M61::of(10));
    let one = level.as_slice() == [M61::of(73)].as_slice();
    let mut empty: Vec<M61> = Vec::new(rt.alloc());
    up(&mut empty, M61::of(2));
    expect(&rt, 0, &[two, one, empty.is_empty()]);
    Ok(())
}
