// The check and the prover of moments, over rows that were worked out apart from the program.
ghost use Rattle.std.specs.Prelude.{◌≡◌, length};

use crate::facts::expect;
use sip_field::{F31, Field, M61, Seat};
use sip_mle::Point;
use sip_moments::{MomentCheck, MomentProver};
use sip_vector::{CAP, Depth, Vector};
use sip_wire::Reason;
use std::alloc::Global;
use std::process::Abort;
use std::test::Fail;

fn two_and_ten() -> Seat<M61, CAP>
    ensures { length result ≡ 2 }
{
    Seat::of(&[M61::of(2), M61::of(10)]).unwrap()
}

fn cubic<F: Field>(coefficients: [i64; 4]) -> [F; 4] {
    let [c0, c1, c2, c3] = coefficients;
    [
        F::of_signed(c0),
        F::of_signed(c1),
        F::of_signed(c2),
        F::of_signed(c3),
    ]
}

// What a check of degree 3 and two rounds answers to this claim and these polynomials: the first
// refusal, or that of the end.
fn answer(claim: u8, first: [i64; 4], second: [i64; 4], extension: i64) -> Result<(), Reason> {
    let mut check = MomentCheck::start(i64::from(claim), 3, &two_and_ten());
    check.round(&cubic(first))?;
    check.reveal();
    check.round(&cubic(second))?;
    check.finish(M61::of_signed(extension))
}

// A claim, two polynomials, the extension, and the answer.
type Row = (u8, [i64; 4], [i64; 4], i64, Result<(), Reason>);

// The third moment of (3, 0, 5, 1), whose extension at (2, 10) is -3.
const ROWS: [Row; 8] = [
    (153, [152, -381, 321, -91], [-27, 0, 0, 0], -3, Ok(())),
    (
        153,
        [152, -381, 321, -91],
        [-27, 0, 0, 0],
        3,
        Err(Reason::Root),
    ),
    (
        154,
        [152, -381, 321, -91],
        [-27, 0, 0, 0],
        -3,
        Err(Reason::Sum),
    ),
    (
        153,
        [153, -381, 321, -91],
        [-27, 0, 0, 0],
        -3,
        Err(Reason::Sum),
    ),
    // The top coefficient counts at 1.
    (
        153,
        [152, -381, 321, -90],
        [-27, 0, 0, 0],
        -3,
        Err(Reason::Sum),
    ),
    // The sum is 153, but the value at 2 is -60.
    (
        153,
        [152, -380, 320, -91],
        [-27, 0, 0, 0],
        -3,
        Err(Reason::Sum),
    ),
    (
        153,
        [152, -381, 321, -91],
        [-27, 0, 0, 1],
        -3,
        Err(Reason::Sum),
    ),
    // The sum of the second is -54, but its value at 10 is not -27.
    (
        153,
        [152, -381, 321, -91],
        [-27, 1, 0, -1],
        -3,
        Err(Reason::Root),
    ),
];

fn are_answered(rt: &impl Abort, rows: &[Row]) {
    for (row, (claim, first, second, extension, want)) in rows.iter().enumerate() {
        let said = answer(*claim, *first, *second, *extension);
        expect(rt, row, &[said == *want]);
    }
}

#[test]
fn cubes_have_their_answers(rt: HostRuntime) {
    are_answered(&rt, &ROWS);
}

fn seat_of_one(r: u64) -> Seat<F31, CAP>
    ensures { length result ≡ 1 }
{
    Seat::of(&[F31::of(r)]).unwrap()
}

// What a check answers to the claim 2 with the polynomial (8, 23, 25, 0), modulo 31, for (1, 0).
fn answer_of_two(r: u64) -> Result<(), Reason> {
    let mut point = Point::new(seat_of_one(r));
    point.update(0, 1);
    let mut check = MomentCheck::start(2, 3, &seat_of_one(r));
    check.round(&cubic([8, 23, 25, 0]))?;
    check.finish(point.value())
}

// The third moment of (1, 0) is 1.
#[test]
fn a_lie_passes_at_three_challenges(rt: HostRuntime) {
    for r in 0..31 {
        let expected = if r == 2 || r == 3 || r == 4 {
            Ok(())
        } else {
            Err(Reason::Root)
        };
        expect(&rt, r as usize, &[answer_of_two(r) == expected]);
    }
}

// Whether these are the coefficients of a prover's present round, all at once and one by one.
fn gives(prover: &MomentProver<M61>, wanted: &[i64]) -> bool {
    if prover.rounds_left() == 0 || wanted.len() != usize::from(prover.degree()) + 1 {
        return false;
    }
    let mut same = prover.polynomial().len() == wanted.len();
    for (place, (want, given)) in wanted.iter().zip(prover.polynomial()).enumerate() {
        let want = M61::of_signed(*want);
        same = same && *given == want && prover.coefficient(place as u8) == want;
    }
    same
}

// Entries of a vector of a depth, a degree from 3 on, the moment, and the polynomial of each round.
type Moment = (
    u8,
    &'static [(u64, i64)],
    u8,
    i64,
    &'static [&'static [i64]],
);

// The challenges of these rounds.
const CHALLENGES: [u64; 3] = [2, 10, 5];

// The vector (-3, 0, 2, 1), and (0, 2, -1, 0, 0, 0, 3, -2), in which entries at odd and at even
// places have no neighbour.
const MOMENTS: [Moment; 8] = [
    (
        2,
        &FOUR,
        3,
        -18,
        &[&[-19, 69, -75, 26], &[27, -81, 81, -27]],
    ),
    (
        2,
        &FOUR,
        4,
        98,
        &[&[97, -356, 510, -332, 82], &[81, -324, 486, -324, 81]],
    ),
    (
        2,
        &FOUR,
        5,
        -210,
        &[
            &[-211, 1135, -2350, 2390, -1205, 242],
            &[243, -1215, 2430, -2430, 1215, -243],
        ],
    ),
    (
        2,
        &FOUR,
        6,
        794,
        &[
            &[793, -4566, 11175, -14740, 10995, -4386, 730],
            &[729, -4374, 10935, -14580, 10935, -4374, 729],
        ],
    ),
    (
        2,
        &FOUR,
        7,
        -2058,
        &[
            &[-2059, 14861, -45255, 75985, -76265, 45843, -15295, 2186],
            &[2187, -15309, 45927, -76545, 76545, -45927, 15309, -2187],
        ],
    ),
    (
        2,
        &FOUR,
        8,
        6818,
        &[
            &[
                6817, -53512, 185500, -369208, 460390, -367864, 183820, -52504, 6562,
            ],
            &[
                6561, -52488, 183708, -367416, 459270, -367416, 183708, -52488, 6561,
            ],
        ],
    ),
    (
        3,
        &EIGHT,
        3,
        26,
        &[
            &[26, -132, 222, -116],
            &[64, -144, 108, -370],
            &[-17576, -89232, -151008, -85184],
        ],
    ),
    (
        3,
        &EIGHT,
        4,
        114,
        &[
            &[82, -544, 1356, -1504, 642],
            &[256, -768, 864, -432, 2482],
            &[456976, 3093376, 7852416, 8859136, 3748096],
        ],
    ),
];

const FOUR: [(u64, i64); 3] = [(0, -3), (2, 2), (3, 1)];

const EIGHT: [(u64, i64); 4] = [(1, 2), (2, -1), (6, 3), (7, -2)];

// The greatest absolute value of a claim.
const MOST_CLAIM: u64 = (1 << 60) - 1;

// Adds an entry, where it may be added.
fn put(vector: &mut Vector, index: u64, delta: i64) -> Result<(), Fail> {
    if index >= 1 << vector.depth().get() || vector.weight() + delta.unsigned_abs() > 1000 {
        return Err("no addition of this vector")?;
    }
    Ok(vector.add(index, delta)?)
}

// A prover of a vector's moment, where a claim has room for it.
fn prover_of(
    alloc: Global,
    depth: u8,
    entries: &[(u64, i64)],
    degree: u8,
) -> Result<MomentProver<M61>, Fail> {
    let depth = Depth::new(depth).ok_or("a depth")?;
    let mut vector = Vector::new(alloc, depth)?;
    for (index, delta) in entries {
        put(&mut vector, *index, *delta)?;
    }
    let power = vector.weight().checked_pow(u32::from(degree));
    let power = power.ok_or("a power")?;
    if degree < 3 || degree > 8 || power > MOST_CLAIM {
        return Err("a moment that is too high")?;
    }
    Ok(MomentProver::start(alloc, &vector, degree)?)
}

// Whether a prover gives these polynomials in turn, and no round is left behind them.
fn gives_all(prover: &mut MomentProver<M61>, polynomials: &[&[i64]]) -> bool {
    let mut same = true;
    for (wanted, r) in polynomials.iter().zip(CHALLENGES) {
        same = same && gives(prover, wanted);
        if prover.rounds_left() > 0 {
            prover.learn(M61::of(r));
        }
    }
    same && prover.rounds_left() == 0
}

#[test]
fn provers_give_moments_and_polynomials(rt: HostRuntime) -> Result<(), Fail> {
    for (row, (depth, entries, degree, claim, polynomials)) in MOMENTS.iter().enumerate() {
        let mut prover = prover_of(rt.alloc(), *depth, entries, *degree)?;
        let facts = [
            prover.claim() == *claim,
            gives_all(&mut prover, polynomials),
        ];
        expect(&rt, row, &facts);
    }
    Ok(())
}

// One item of 181 has the greatest eighth moment that one item can have.
#[test]
fn one_item_has_the_greatest_moment(rt: HostRuntime) -> Result<(), Fail> {
    let prover = prover_of(rt.alloc(), 48, &[((1 << 48) - 1, 181)], 8)?;
    let facts = [
        prover.claim() == 1_151_936_657_823_500_641,
        prover.rounds_left() == 48,
    ];
    expect(&rt, 0, &facts);
    Ok(())
}
