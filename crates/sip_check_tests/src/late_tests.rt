// Seats whose helper knows what other seats revealed, over all challenges of a small field: how
// many joint vectors let a lie pass, in whichever order the seats are used, and why a seat serves
// one question. The numbers were worked out by hand.
ghost use Rattle.std.specs.Prelude.{◌≡◌, ◌≤◌, nat_abs, length};

use crate::entry_check_tests::root_of_pair;
use crate::facts::expect;
use sip_field::{F31, Field, Seat};
use sip_subvec::SubCheck;
use sip_tree::Root;
use sip_vector::CAP;
use sip_wire::Reason;

// ---- a seat for each of two questions

// What a helper adds to the entry 0 of (3, 5) that it claims: 1, the other seat's challenge, or the
// number behind that one. Where it would add nothing it adds 1.
enum Adds {
    One,
    Other,
    Next,
}

fn added(adds: &Adds, other: u64) -> u64 {
    let number = match adds {
        Adds::One => 1,
        Adds::Other => other % 31,
        Adds::Next => other.wrapping_add(1) % 31,
    };
    if number == 0 { 1 } else { number }
}

// The entry that is claimed, of those from -15 to 15.
fn claimed(more: u64) -> i64
    ensures small { nat_abs result ≤ 15 }
{
    let number = (more % 31 + 3) % 31;
    if number > 15 {
        number as i64 - 31
    } else {
        number as i64
    }
}

// What a check of the entry 0 answers to this claim and the right sibling 4, which is one too few:
// it accepts where the challenge is what was added.
fn answer(r: u64, claim: i64) -> Result<(), Reason>
    requires { nat_abs claim ≤ 15 }
{
    let root = root_of_pair(r);
    let mut check = SubCheck::start(&root, 0, 0);
    if claim != 0 {
        check.entry(0, claim)?;
    }
    check.siblings(None, Some(F31::of(4)))?;
    check.finish()
}

// Of the 961 joint vectors, those at which one of the seats accepts.
fn fooled(first: &Adds, second: &Adds) -> u64 {
    let mut count = 0u64;
    for r in 0..31 {
        for s in 0..31 {
            let is_first = answer(r, claimed(added(first, s))).is_ok();
            if is_first || answer(s, claimed(added(second, r))).is_ok() {
                count = count.wrapping_add(1);
            }
        }
    }
    count
}

// In their order, in the other order, and each by the other's challenge, where 62 is the bound.
const OF_TWO: [(Adds, Adds, u64); 3] = [
    (Adds::One, Adds::Other, 61),
    (Adds::Other, Adds::One, 61),
    (Adds::Other, Adds::Next, 62),
];

#[test]
fn the_order_of_seats_is_free(rt: HostRuntime) {
    for (row, (first, second, want)) in OF_TWO.iter().enumerate() {
        expect(&rt, row, &[fooled(first, second) == *want]);
    }
}

// ---- a seat for two questions

// -1/r, and 0 where r is 0.
fn minus_inverse(r: u64) -> F31 {
    let mut power = F31::of(1);
    for _ in 0..29 {
        power = power.times(F31::of(r));
    }
    F31::of(0).minus(power)
}

fn root_of_zeros(first: u64, second: u64) -> Root<F31, CAP>
    ensures { length result.seat ≡ 2 }
{
    Root::new(Seat::of(&[F31::of(first), F31::of(second)]).unwrap())
}

// What a check of the entry 0 of (0, 0, 0, 0) answers to the entry 1, a right sibling by the first
// challenge, which an earlier question had revealed, and the right sibling 0.
fn answer_again(first: u64, second: u64) -> Result<(), Reason> {
    let root = root_of_zeros(first, second);
    let mut check = SubCheck::start(&root, 0, 0);
    check.entry(0, 1)?;
    check.siblings(None, Some(minus_inverse(first)))?;
    check.reveal();
    check.siblings(None, Some(F31::of(0)))?;
    check.finish()
}

// The lie passes at 930 of the 961 vectors; one question on a seat has at most 62.
#[test]
fn a_seat_serves_one_question(rt: HostRuntime) {
    let mut count = 0u64;
    for first in 0..31 {
        for second in 0..31 {
            if answer_again(first, second).is_ok() {
                count = count.wrapping_add(1);
            }
        }
    }
    expect(&rt, 0, &[count == 930]);
}
