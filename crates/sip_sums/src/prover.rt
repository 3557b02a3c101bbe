//! The honest side of a check: the sum, and the round polynomials.
ghost use Rattle.std.specs.Prelude.{◌≡◌, ◌*◌, ◌^◌, ◌<◌, ◌≤◌, ◌↔◌, nat_abs, length, IfOk};
ghost use Rattle.sip_vector.specs.Extensions.{ones};
ghost use Rattle.sip_vector.specs.Limits.{most_depth};
ghost use Rattle.sip_wire.specs.Table.{most_claim};
ghost use Rattle.sip_sums.specs.Honest.{begun, learnt, its_polynomial};
ghost use Rattle.sip_sums.specs.Polynomials.{coefficients_of};

use crate::Poly;
use crate::claims::{claim_of_products, claim_of_squares, claim_within};
use crate::pairs::{polynomial_of_products, polynomial_of_squares, polynomial_within};
use sip_field::{Field, OutOfMemory};
use sip_mle::IntervalFold;
use sip_vector::{Level, Vector};
use std::alloc::Global;
use std::marker::Model;

// The second list of a sum of products.
#[derive(Drop)]
enum Factor<F: Field> {
    // The first list again.
    Same,
    // The list of another vector.
    Other(Level<F>),
    // The list of an interval.
    Interval(IntervalFold<F>),
}

/// What an honest helper keeps to prove the sum of the products of two lists' entries.
///
/// A contract sees the sum, and both lists folded by the challenges so far, as the lists of all
/// their residues. What takes memory is one spot for each entry of a vector that is not 0: an
/// interval takes none, and for a sum of squares the list is kept once. No call goes over the
/// entries that are 0.
#[derive(Drop)]
pub struct SumProver<F: Field> {
    claim: i64,
    first: Level<F>,
    second: Factor<F>,
}

impl<F: Field> Model for SumProver<F> {
    ghost use Rattle.std.specs.Prelude.{◌≡◌, ◌≤◌, length, nat_abs};
    ghost use Rattle.sip_wire.specs.Table.{most_claim};
    ghost use Rattle.sip_sums.specs.Honest.{Proving};
    ghost use Rattle.sip_sums.specs.Factor.{second_of};

    ghost Value = { Proving };

    ghost view = { λ s. record {
      claim = s.claim;
      first = s.first;
      second = second_of s.first s.second;
    } };

    ghost invariant = { λ s. (nat_abs s.claim ≤ most_claim)
        × (length (second_of s.first s.second) ≡ length s.first) };
}

impl<F: Field> SumProver<F> {
    /// Begins the sum of the squares of a vector's numbers. It takes memory for the entries that
    /// are not 0; no later call takes any. O(m), and slower where additions are pending in the
    /// vector.
    pub fn start_f2(alloc: Global, vector: &Vector) -> Result<SumProver<F>, OutOfMemory>
        ensures begun { IfOk result (λ prover. prover
            ≡ begun F.MODULUS vector.now.numbers vector.now.numbers) }
        ensures first { IfOk result (λ prover. length prover.first ≡ 2 ^ vector.now.depth) }
        ensures second { IfOk result (λ prover. length prover.second ≡ 2 ^ vector.now.depth) }
    {
        let claim = claim_of_squares(alloc, vector)?;
        let first = Level::of(alloc, vector)?;
        Ok(SumProver {
            claim,
            first,
            second: Factor::Same,
        })
    }

    /// Begins the sum of the products of two vectors' numbers. Memory and time are those of
    /// `start_f2`, for both vectors.
    pub fn start_inner(
        alloc: Global,
        first: &Vector,
        second: &Vector,
    ) -> Result<SumProver<F>, OutOfMemory>
        requires { first.now.depth ≡ second.now.depth }
        ensures begun { IfOk result (λ prover. prover
            ≡ begun F.MODULUS first.now.numbers second.now.numbers) }
        ensures first { IfOk result (λ prover. length prover.first ≡ 2 ^ first.now.depth) }
        ensures second { IfOk result (λ prover. length prover.second ≡ 2 ^ first.now.depth) }
    {
        let claim = claim_of_products(alloc, first, second)?;
        let second = Level::of(alloc, second)?;
        let first = Level::of(alloc, first)?;
        Ok(SumProver {
            claim,
            first,
            second: Factor::Other(second),
        })
    }

    /// Begins the sum of a vector's numbers from `lo` to `hi`, both included. Memory and time are
    /// those of `start_f2`.
    pub fn start_range(
        alloc: Global,
        vector: &Vector,
        lo: u64,
        hi: u64,
    ) -> Result<SumProver<F>, OutOfMemory>
        requires order { lo ≤ hi }
        requires within { hi < 2 ^ vector.now.depth }
        ensures begun { IfOk result (λ prover. prover ≡ begun F.MODULUS vector.now.numbers
            (ones vector.now.depth lo hi)) }
        ensures first { IfOk result (λ prover. length prover.first ≡ 2 ^ vector.now.depth) }
        ensures second { IfOk result (λ prover. length prover.second ≡ 2 ^ vector.now.depth) }
    {
        let claim = claim_within(alloc, vector, lo, hi)?;
        let first = Level::of(alloc, vector)?;
        Ok(SumProver {
            claim,
            first,
            second: Factor::Interval(IntervalFold::new(vector.depth(), lo, hi)),
        })
    }

    /// The sum.
    pub fn claim(&self) -> i64
        ensures same { result ≡ self.now.claim }
        ensures fits { nat_abs result ≤ most_claim }
    {
        self.claim
    }

    /// How many rounds are left: each has a polynomial to give and a challenge to learn.
    pub fn rounds_left(&self) -> u8
        ensures exact { length self.now.first ≡ 2 ^ result }
        ensures second { length self.now.second ≡ 2 ^ result }
        ensures some { (0 < result) ↔ (2 ≤ length self.now.first) }
        ensures most { result ≤ most_depth }
    {
        self.first.folds_left()
    }

    /// The polynomial of the present round.
    ///
    /// O(m) for the entries of both folded lists that are not 0, without memory: three `times` for
    /// each pair of neighbours of a sum of squares, four for a pair in both lists, and for a range
    /// four at each of its ends.
    pub fn poly(&self) -> Poly<F>
        requires { 2 ≤ length self.now.first }
        ensures { coefficients_of F.number result ≡ its_polynomial F.MODULUS self.now }
    {
        match &self.second {
            Factor::Same => polynomial_of_squares(&self.first),
            Factor::Other(second) => polynomial_of_products(&self.first, second),
            Factor::Interval(interval) => polynomial_within(&self.first, interval),
        }
    }

    /// Goes to the next round by the challenge of this one: both lists are folded, in place.
    ///
    /// O(m) for the entries of both that are not 0, without memory: one `times` for each pair of
    /// neighbours of a list.
    pub fn learn(&mut self, r: F)
        requires { 2 ≤ length self.old.first }
        ensures learnt { self.new ≡ learnt F.MODULUS self.old (F.number r) }
        ensures half { 2 * length self.new.first ≡ length self.old.first }
    {
        match &mut self.second {
            Factor::Same => {}
            Factor::Other(second) => second.fold_line(r),
            Factor::Interval(interval) => interval.fold(r),
        }
        self.first.fold_line(r);
    }
}
