ghost use Rattle.std.specs.Prelude.{◌≡◌, length};

use crate::facts::expect;
use sip_field::{Field, M61, Seat};
use sip_mle::{IntervalFold, Point, chi, interval_at};
use sip_vector::Depth;

fn two_and_ten() -> Seat<M61, 32>
    ensures { length result ≡ 2 }
{
    Seat::of(&[M61::of(2), M61::of(10)]).unwrap()
}

#[test]
fn factors_are_products_over_the_bits(rt: HostRuntime) {
    let seat = two_and_ten();
    let facts = [
        chi(&seat, 0) == M61::of_signed(9),
        chi(&seat, 1) == M61::of_signed(-18),
        chi(&seat, 2) == M61::of_signed(-10),
        chi(&seat, 3) == M61::of_signed(20),
        interval_at(&seat, 0, 3) == M61::of_signed(1),
        interval_at(&seat, 3, 3) == M61::of_signed(20),
        interval_at(&seat, 0, 0) == M61::of_signed(9),
        interval_at(&seat, 1, 3) == M61::of_signed(-8),
    ];
    expect(&rt, 0, &facts);
}

#[test]
fn a_point_follows_its_vector(rt: HostRuntime) {
    let mut point = Point::new(two_and_ten());
    let first = point.value().number() == 0;
    point.update(0, 3);
    point.update(2, 5);
    point.update(3, 1);
    let second = point.value() == M61::of_signed(-3);
    point.update(2, -5);
    point.update(3, -2);
    // 3 * 9 - 1 * 20
    let third = point.value().number() == 7;
    expect(&rt, 0, &[first, second, third]);
}

#[test]
fn an_interval_is_folded_by_its_two_ends(rt: HostRuntime) {
    let mut interval = IntervalFold::<M61>::new(Depth::new(2).unwrap(), 1, 3);
    let facts = [
        interval.at(0).number() == 0,
        interval.at(1).number() == 1,
        interval.at(2).number() == 1,
        interval.at(3).number() == 1,
    ];
    expect(&rt, 0, &facts);
    interval.fold(M61::of(2));
    let facts = [interval.at(0).number() == 2, interval.at(1).number() == 1];
    expect(&rt, 1, &facts);
    interval.fold(M61::of(10));
    expect(&rt, 2, &[interval.at(0) == M61::of_signed(-8)]);
}
