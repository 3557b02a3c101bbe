ghost use Rattle.std.specs.Prelude.{◌≡◌, ◌-◌, ◌^◌, ◌==◌, if◌then◌else◌};
ghost use Rattle.rand_core.specs.Steps.{stream_of, steps_u64_low};

use crate::facts::expect;
use rand_core::utils::NextWord;
use rand_core::{Rng, utils};
use sip_field::{
    F31, Field, M61, OutOfMemory, PrimeField, Seat, SeedSpent, draw_challenges, draw_one, horner,
};
use std::alloc::{AllocError, AllocFailed};
use std::test::Fail;

#[test]
fn numbers_have_residues(rt: HostRuntime) {
    let p = M61::MODULUS;
    let facts = [
        p == 2_305_843_009_213_693_951,
        M61::HALF == 1_152_921_504_606_846_975,
        M61::of(0).number() == 0,
        M61::of(p - 1).number() == p - 1,
        M61::of(p).number() == 0,
        M61::of(p + 1).number() == 1,
        M61::of(u64::MAX).number() == 7,
        M61::of_signed(7).number() == 7,
        M61::of_signed(-1).number() == p - 1,
        M61::of_signed(i64::MIN).number() == p - 4,
    ];
    expect(&rt, 0, &facts);
    let facts = [
        F31::MODULUS == 31,
        F31::HALF == 15,
        F31::of(30).number() == 30,
        F31::of(31).number() == 0,
        F31::of(u64::MAX).number() == 15,
        F31::of_signed(7).number() == 7,
        F31::of_signed(-1).number() == 30,
        F31::of_signed(-31).number() == 0,
        F31::of_signed(i64::MIN).number() == 23,
    ];
    expect(&rt, 1, &facts);
}

// (a + b, a - b, b - a, a * b) at a general field.
fn sums_and_products<F: PrimeField>(a: u64, b: u64) -> (u64, u64, u64, u64) {
    let (a, b) = (F::of(a), F::of(b));
    (
        a.plus(b).number(),
        a.minus(b).number(),
        b.minus(a).number(),
        a.times(b).number(),
    )
}

// Values are equal where their residues are.
#[test]
fn arithmetic_is_modulo_the_modulus(rt: HostRuntime) {
    let p = M61::MODULUS;
    let q = 1 << 60;
    let facts = [
        sums_and_products::<M61>(p - 1, p - 1) == (p - 2, 0, 0, 1),
        sums_and_products::<M61>(q, 4) == (q + 4, q - 4, q + 3, 2),
        sums_and_products::<F31>(30, 30) == (29, 0, 0, 1),
        sums_and_products::<F31>(5, 9) == (14, 27, 4, 14),
        M61::of(p) == M61::default(),
        F31::of(62) == F31::default(),
        F31::of(1) != F31::of(30),
    ];
    expect(&rt, 0, &facts);
}

#[test]
fn polynomials_are_evaluated(rt: HostRuntime) {
    let large = [M61::of(34), M61::of(M61::MODULUS - 58), M61::of(25)];
    let small = [F31::of(1), F31::of(2), F31::of(3)];
    let facts = [
        horner(&large, M61::of(2)).number() == 18,
        horner(&small, F31::of(5)).number() == 24,
        horner(&[], F31::of(5)).number() == 0,
    ];
    expect(&rt, 0, &facts);
}

// A generator that gives 2^64 - 1 so many times, and from then on one other word.
#[derive(Drop)]
struct Words {
    greatest: u64,
    other: u64,
}

impl NextWord<u64> for Words {
    ghost step = { λ s. if s.greatest == 0 then (s.other, s)
        else (2 ^ 64 - 1, record s { greatest = s.greatest - 1 }) };

    fn next_word(&mut self) -> u64 {
        if self.greatest == 0 {
            self.other
        } else {
            self.greatest -= 1;
            u64::MAX
        }
    }
}

impl Rng for Words {
    ghost stream = { stream_of (steps_u64_low ⟦<Words as NextWord<u64>>⟧.step) };

    fn next_u32(&mut self) -> u32 {
        (self.next_word() % (1 << 32)) as u32
    }

    fn next_u64(&mut self) -> u64 {
        self.next_word()
    }

    fn fill_bytes(&mut self, dst: &mut [u8]) {
        utils::fill_bytes_via_u64(self, dst)
    }
}

#[test]
fn a_draw_tries_eight_words(rt: HostRuntime) {
    let mut seven = Words {
        greatest: 7,
        other: 16,
    };
    let mut nine = Words {
        greatest: 9,
        other: 16,
    };
    let facts = [
        draw_one(&mut seven).map(|challenge| challenge.number()) == Ok(2),
        draw_one(&mut nine) == Err(SeedSpent),
        nine.greatest == 1,
    ];
    expect(&rt, 0, &facts);
}

// The key stream of ChaCha20 at a zero key and a zero nonce begins 76 b8 e0 ad a0 f1 3d 90 40 5d 6a
// e5 53 86 bd 28 bd d2 19 b8 a0 8d ed 1a (RFC 7539, A.1, vector 1).
#[test]
fn a_seed_gives_challenges(rt: HostRuntime) -> Result<(), Fail> {
    let drawn = draw_challenges::<4>([0; 32], 3)
        .ok()
        .ok_or("the zero seed is not spent")?;
    let want = [
        M61::of(1_299_216_148_431_902_478),
        M61::of(366_956_278_375_599_016),
        M61::of(242_545_341_986_191_959),
    ];
    expect(&rt, 0, &[drawn.as_slice() == want.as_slice()]);
    Ok(())
}

#[test]
fn a_seat_has_1_to_cap_challenges(rt: HostRuntime) {
    let challenges = [F31::of(30), F31::of(0), F31::of(17)];
    let seat = Seat::<F31, 3>::of(&challenges).unwrap();
    let least = Seat::<M61, 32>::default();
    let facts = [
        Seat::<F31, 3>::of(&[]).is_none(),
        Seat::<F31, 2>::of(&challenges).is_none(),
        seat.depth() == 3,
        seat.at(1) == F31::of(30),
        seat.at(3) == F31::of(17),
        least.depth() == 1,
        least.at(1) == M61::of(0),
    ];
    expect(&rt, 0, &facts);
}

#[test]
fn a_refused_growth_is_want_of_memory(rt: HostRuntime) {
    let facts = [
        OutOfMemory::from(AllocError) == OutOfMemory,
        OutOfMemory::from(AllocFailed { value: 1u8 }) == OutOfMemory,
    ];
    expect(&rt, 0, &facts);
}
