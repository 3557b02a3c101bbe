//! The honest side of a check: the moment, and the round polynomials.
ghost use Rattle.std.specs.Prelude.{◌≡◌, ◌+◌, ◌*◌, ◌%◌, ◌^◌, ◌<◌, ◌≤◌, ◌↔◌, nat_abs, length, map};
ghost use Rattle.std.specs.Prelude.{sum_by, IfOk};
ghost use Rattle.std.specs.List.{range_with_len};
ghost use Rattle.sip_vector.specs.Limits.{most_depth};
ghost use Rattle.sip_sums.specs.Honest.{over_pairs};
ghost use Rattle.sip_wire.specs.Table.{most_claim};
ghost use Rattle.sip_moments.specs.Honest.{begun, its_coefficient, its_polynomial, learnt};
ghost use Rattle.sip_moments.specs.Honest.{of_first};
ghost use Rattle.sip_moments.specs.Moments.{IsDegree};

use crate::claims::claim_of;
use crate::rounds::fill_polynomial;
use sip_field::{Field, OutOfMemory, horner};
use sip_vector::{Level, Vector};
use std::alloc::Global;
use std::marker::Model;

/// What an honest helper keeps to prove a moment of a vector's numbers.
///
/// A contract sees the moment, its degree, and the list of all residues, folded by the challenges
/// so far. What takes memory is one spot for each entry that is not 0, beside the polynomial of the
/// present round, and no call goes over the entries that are 0.
#[derive(Drop)]
pub struct MomentProver<F: Field> {
    claim: i64,
    degree: u8,
    level: Level<F>,
    // The coefficients of the present round's polynomial, where a round is left.
    polynomial: Vec<F>,
}

impl<F: Field> Model for MomentProver<F> {
    ghost use Rattle.std.specs.Prelude.{◌≡◌, ◌+◌, ◌≤◌, length, map, nat_abs};
    ghost use Rattle.sip_wire.specs.Table.{most_claim};
    ghost use Rattle.sip_moments.specs.Honest.{Proving, its_polynomial};
    ghost use Rattle.sip_moments.specs.Moments.{IsDegree};

    ghost Value = { Proving };

    ghost view = { λ s. record {
      claim = s.claim;
      degree = s.degree;
      level = s.level;
    } };

    ghost invariant = { λ s. (nat_abs s.claim ≤ most_claim) × IsDegree s.degree
        × (length s.polynomial.items ≡ s.degree + 1)
        × (2 ≤ length s.level → map F.number s.polynomial.items ≡ its_polynomial F.MODULUS
        (record { claim = s.claim; degree = s.degree; level = s.level })) };
}

impl<F: Field> MomentProver<F> {
    /// Begins the moment of this degree, from 3 to 8, of a vector's numbers. The vector's weight to
    /// this power is to be at most 2^60 - 1: then a claim has room for the moment. It takes memory
    /// for the entries that are not 0; no later call takes any. O(m) for m of them, with at most
    /// 3(k - 1) `times` for each pair of neighbours at degree k, and slower where additions are
    /// pending in the vector.
    pub fn start(alloc: Global, vector: &Vector, degree: u8) -> Result<MomentProver<F>, OutOfMemory>
        requires degree { IsDegree degree }
        requires light { vector.now.weight ^ degree ≤ most_claim }
        ensures begun { IfOk result (λ prover. prover
            ≡ begun F.MODULUS degree vector.now.numbers) }
        ensures level { IfOk result (λ prover. length prover.level ≡ 2 ^ vector.now.depth) }
    {
        let claim = claim_of(alloc, vector, degree)?;
        let level = Level::of(alloc, vector)?;
        let mut polynomial = vec![in alloc; F::of(0); usize::from(degree) + 1]?;
        refill(&mut polynomial, degree, &level, F::of_signed(claim));
        Ok(MomentProver {
            claim,
            degree,
            level,
            polynomial,
        })
    }

    /// The moment.
    pub fn claim(&self) -> i64
        ensures same { result ≡ self.now.claim }
        ensures fits { nat_abs result ≤ most_claim }
    {
        self.claim
    }

    /// The degree of the moment: a round polynomial has a coefficient more.
    pub fn degree(&self) -> u8
        ensures same { result ≡ self.now.degree }
        ensures fits { IsDegree result }
    {
        self.degree
    }

    /// How many rounds are left: each has a polynomial to give and a challenge to learn.
    pub fn rounds_left(&self) -> u8
        ensures exact { length self.now.level ≡ 2 ^ result }
        ensures some { (0 < result) ↔ (2 ≤ length self.now.level) }
        ensures most { result ≤ most_depth }
    {
        self.level.folds_left()
    }

    /// The polynomial of the present round, by its coefficients, the constant one first: one more
    /// than the degree. O(1), no `times`.
    pub fn polynomial(&self) -> &[F]
        requires { 2 ≤ length self.now.level }
        ensures { map F.number result.now ≡ its_polynomial F.MODULUS self.now }
    {
        &self.polynomial
    }

    /// The coefficient at this place, from 0 to the degree, of the polynomial of the present round.
    /// O(1), no `times`.
    pub fn coefficient(&self, place: u8) -> F
        requires place { place ≤ self.now.degree }
        requires left { 2 ≤ length self.now.level }
        ensures { F.number result ≡ its_coefficient F.MODULUS self.now place }
    {
        self.polynomial[usize::from(place)]
    }

    /// Goes to the next round by the challenge of this one: the list is folded, in place, and the
    /// polynomial of the next round is made, if one is left.
    ///
    /// O(m) for the entries that are not 0, without memory: one `times` to fold a pair of
    /// neighbours, and at degree k at most 3(k - 1) for each pair of the folded list.
    pub fn learn(&mut self, r: F)
        requires { 2 ≤ length self.old.level }
        ensures learnt { self.new ≡ learnt F.MODULUS self.old (F.number r) }
        ensures half { 2 * length self.new.level ≡ length self.old.level }
    {
        // The values of the next polynomial at 0 and 1 add up to this one's value at r.
        let expected = horner(&self.polynomial, r);
        self.level.fold_line(r);
        refill(&mut self.polynomial, self.degree, &self.level, expected);
    }
}

// Fills the slice with the coefficients of the round polynomial of a folded list, if a round is
// left.
fn refill<F: Field>(poly: &mut [F], degree: u8, level: &Level<F>, expected: F)
    requires degree { IsDegree degree }
    requires coefficients { length poly.old ≡ degree + 1 }
    requires sum { 2 ≤ length level.now
        → F.number expected ≡ sum_by (λ x. x ^ degree) level.now % F.MODULUS }
    ensures same { length poly.new ≡ length poly.old }
    ensures filled { 2 ≤ length level.now → map F.number poly.new
        ≡ map (λ m. over_pairs (of_first F.MODULUS degree m) level.now level.now % F.MODULUS)
        (range_with_len 0 (degree + 1)) }
{
    if level.folds_left() > 0 {
        fill_polynomial(poly, degree, level, expected);
    }
}
