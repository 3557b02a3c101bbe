// The check of a sum, over rows that were worked out by hand.
ghost use Rattle.std.specs.Prelude.{◌≡◌, length};

use crate::facts::expect;
use sip_field::{F31, Field, M61, Seat};
use sip_mle::{Point, interval_at};
use sip_sums::{Poly, SumCheck};
use sip_vector::CAP;
use sip_wire::Reason;
use std::process::Abort;

fn two_and_ten() -> Seat<M61, CAP>
    ensures { length result ≡ 2 }
{
    Seat::of(&[M61::of(2), M61::of(10)]).unwrap()
}

fn poly<F: Field>(coefficients: [i64; 3]) -> Poly<F> {
    let [c0, c1, c2] = coefficients;
    Poly {
        c0: F::of_signed(c0),
        c1: F::of_signed(c1),
        c2: F::of_signed(c2),
    }
}

// What a check of two rounds answers to this claim and these polynomials: the first refusal, or
// that of the end.
fn answer(claim: i8, first: [i64; 3], second: [i64; 3], product: i64) -> Result<(), Reason> {
    let mut check = SumCheck::start(i64::from(claim), &two_and_ten());
    check.round(poly(first))?;
    check.reveal();
    check.round(poly(second))?;
    check.finish(M61::of_signed(product))
}

// A claim, two polynomials, the product of both extensions, and the answer.
type Row = (i8, [i64; 3], [i64; 3], i64, Result<(), Reason>);

// Over (3, 0, 5, 1): its squares, its products with (2, 7, 1, 0), and its entries 1 to 3. At
// (2, 10) its extension is -3, that of the second list -118, and that of the interval -8.
const ROWS: [Row; 13] = [
    (35, [34, -58, 25], [9, 0, 0], 9, Ok(())),
    (35, [34, -58, 25], [9, 0, 0], -9, Err(Reason::Root)),
    (11, [11, 0, -11], [-36, 39, 0], 354, Ok(())),
    (11, [11, 0, -11], [-36, 39, 0], -354, Err(Reason::Root)),
    (6, [5, -1, -3], [-6, 3, 0], 24, Ok(())),
    (6, [5, -1, -3], [-6, 3, 0], -24, Err(Reason::Root)),
    // The values of a polynomial at 0 and 1 have to add up, those of the last one too.
    (36, [34, -58, 25], [9, 0, 0], 9, Err(Reason::Sum)),
    (35, [35, -58, 25], [9, 0, 0], 9, Err(Reason::Sum)),
    (35, [34, -57, 25], [9, 0, 0], 9, Err(Reason::Sum)),
    (35, [34, -58, 26], [9, 0, 0], 9, Err(Reason::Sum)),
    // The sum is 35, but the value at 2 is 20.
    (35, [34, -59, 26], [9, 0, 0], 9, Err(Reason::Sum)),
    (35, [34, -58, 25], [9, 0, 1], 9, Err(Reason::Sum)),
    // The sum of the second is 18, but its value at 10 is 28.
    (35, [34, -58, 25], [8, 2, 0], 9, Err(Reason::Root)),
];

fn are_answered(rt: &impl Abort, rows: &[Row]) {
    for (row, (claim, first, second, product, want)) in rows.iter().enumerate() {
        let said = answer(*claim, *first, *second, *product);
        expect(rt, row, &[said == *want]);
    }
}

#[test]
fn sums_have_their_answers(rt: HostRuntime) {
    are_answered(&rt, &ROWS);
}

fn seat_of_one(r: u64) -> Seat<F31, CAP>
    ensures { length result ≡ 1 }
{
    Seat::of(&[F31::of(r)]).unwrap()
}

// The extension of (1, 0).
fn extension(r: u64) -> F31 {
    let mut point = Point::new(seat_of_one(r));
    point.update(0, 1);
    point.value()
}

// What a check answers to the claim 2 with the polynomial (25, 9, 5), modulo 31.
fn answer_of_two(r: u64, product: F31) -> Result<(), Reason> {
    let mut check = SumCheck::start(2, &seat_of_one(r));
    check.round(poly([25, 9, 5]))?;
    check.finish(product)
}

// The sum over (1, 0) is 1, of its squares as of its entry 0.
#[test]
fn a_lie_passes_at_two_challenges(rt: HostRuntime) {
    for r in 0..31 {
        let value = extension(r);
        let interval = interval_at(&seat_of_one(r), 0, 0);
        let expected = if r == 2 || r == 3 {
            Ok(())
        } else {
            Err(Reason::Root)
        };
        let facts = [
            answer_of_two(r, value.times(value)) == expected,
            answer_of_two(r, value.times(interval)) == expected,
        ];
        expect(&rt, r as usize, &facts);
    }
}
