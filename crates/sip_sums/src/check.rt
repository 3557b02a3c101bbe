//! The verifier's check of a claimed sum, round by round.
ghost use Rattle.std.specs.Prelude.{◌≡◌, ◌+◌, ◌-◌, ◌/◌, ◌<◌, ◌≤◌, ◌==◌, false, nat_abs, length};
ghost use Rattle.std.specs.Prelude.{slice_index, is_err, OnOk};
ghost use Rattle.sip_field.specs.Residue.{residue};
ghost use Rattle.sip_vector.specs.Steps.{needs};
ghost use Rattle.sip_sums.specs.AcceptsSum.{sum_of_ends, value_at};
ghost use Rattle.sip_sums.specs.Checking.{begun, with_polynomial, with_revealed};
ghost use Rattle.sip_sums.specs.Polynomials.{coefficients_of};

use crate::Poly;
use sip_field::{Field, Seat};
use sip_wire::Reason;
use std::marker::Model;

/// The check of the replies to one query for a sum of products.
///
/// It keeps the challenges, the value that is expected of the next polynomial, and the last
/// polynomial: no list, and no memory beyond itself.
///
/// The calls come in the order of a talk: `round` for reply 0, then for each later one `reveal` and
/// its `round`, and at last `finish`. A refusal spends the check.
#[derive(Drop)]
pub struct SumCheck<F: Field, const CAP: usize> {
    seat: Seat<F, CAP>,
    // What the values of the next polynomial at 0 and 1 have to add up to.
    expected: F,
    // The last polynomial.
    last: Poly<F>,
    // The number of polynomials that were given.
    given: usize,
    // The number of challenges that were revealed.
    revealed: usize,
    spent: bool,
}

impl<F: Field, const CAP: usize> Model for SumCheck<F, CAP> {
    ghost use Rattle.std.specs.Prelude.{◌≤◌, length};
    ghost use Rattle.sip_sums.specs.Checking.{Kept};
    ghost use Rattle.sip_sums.specs.Polynomials.{coefficients_of};

    ghost Value = { Kept };

    ghost view = { λ c. record {
      challenges = c.seat;
      expected = F.number c.expected;
      last = coefficients_of F.number c.last;
      given = c.given;
      revealed = c.revealed;
      spent = c.spent;
    } };

    ghost invariant = { λ c. c.given ≤ length c.seat };
}

impl<F: Field, const CAP: usize> SumCheck<F, CAP> {
    /// The check of this claim at these challenges.
    ///
    /// No `times`: one copy of the challenges.
    pub fn start(claim: i64, seat: &Seat<F, CAP>) -> SumCheck<F, CAP>
        requires { nat_abs claim ≤ F.HALF }
        ensures { result ≡ begun seat.now (residue F.MODULUS claim) }
    {
        SumCheck {
            seat: copy_of(seat),
            expected: F::of_signed(claim),
            last: Poly::zero(),
            given: 0,
            revealed: 0,
            spent: false,
        }
    }

    /// Expects this claim, in place of the one that the check was started with.
    pub(crate) fn expect(&mut self, claim: i64)
        ensures { self.new ≡ record self.old { expected = residue F.MODULUS claim } }
    {
        self.expected = F::of_signed(claim);
    }

    /// The number of challenges.
    pub fn depth(&self) -> usize
        ensures exact { result ≡ length self.now.challenges }
        ensures fits { result ≤ CAP }
    {
        self.seat.depth()
    }

    /// Takes the polynomial of a reply: `Reason::Sum` where its values at 0 and at 1 do not add up
    /// to the claim, or, in a later reply, to the value of the last polynomial at the challenge
    /// that was revealed.
    ///
    /// No `times`.
    pub fn round(&mut self, poly: Poly<F>) -> Result<(), Reason>
        requires unspent { self.old.spent ≡ false }
        requires due { self.old.given < length self.old.challenges }
        requires learnt { self.old.revealed ≡ self.old.given }
        ensures answer { result ≡ needs (sum_of_ends F.MODULUS (coefficients_of F.number poly)
            == self.old.expected) Reason.Sum }
        ensures given { OnOk result (self.new
            ≡ with_polynomial self.old (coefficients_of F.number poly)) }
        ensures spent { self.new.spent ≡ is_err result }
    {
        if !is_same(poly.sum_of_ends(), self.expected) {
            self.spent = true;
            return Err(Reason::Sum);
        }
        self.last = poly;
        let depth = self.seat.depth();
        prove!(self.given < depth);
        self.given += 1;
        Ok(())
    }

    /// The next challenge, in the order from `r_1` on: the one that reply `j` waits for is `r_j`.
    /// The last one, `r_d`, is never revealed.
    ///
    /// 2 `times`.
    pub fn reveal(&mut self) -> F
        requires unspent { self.old.spent ≡ false }
        requires given { self.old.given ≡ self.old.revealed + 1 }
        requires left { self.old.given < length self.old.challenges }
        ensures challenge { F.number result ≡ slice_index self.old.challenges self.old.revealed }
        ensures learnt { self.new ≡ with_revealed F.MODULUS self.old (F.number result) }
    {
        self.revealed += 1;
        let challenge = self.seat.at(self.revealed);
        self.expected = self.last.value_at(challenge);
        challenge
    }

    /// Ends the check: `Reason::Root` where the last polynomial's value at the last challenge is
    /// not `product`, which is to be the product of the two extensions at the challenges.
    ///
    /// 2 `times`.
    pub fn finish(&mut self, product: F) -> Result<(), Reason>
        requires unspent { self.old.spent ≡ false }
        requires whole { self.old.given ≡ length self.old.challenges }
        requires left { self.old.given ≡ self.old.revealed + 1 }
        ensures answer { result ≡ needs (value_at F.MODULUS self.old.last
            (slice_index self.old.challenges self.old.revealed) == F.number product) Reason.Root }
        ensures spent { self.new ≡ record self.old { spent = is_err result } }
    {
        let tested = self.test_value(product);
        self.spent = tested.is_err();
        tested
    }

    // Whether the product is the last polynomial's value at the last challenge.
    fn test_value(&self, product: F) -> Result<(), Reason>
        requires whole { self.now.given ≡ length self.now.challenges }
        requires left { self.now.given ≡ self.now.revealed + 1 }
        ensures { result ≡ needs (value_at F.MODULUS self.now.last
            (slice_index self.now.challenges self.now.revealed) == F.number product) Reason.Root }
    {
        let challenge = self.seat.at(self.seat.depth());
        if !is_same(self.last.value_at(challenge), product) {
            return Err(Reason::Root);
        }
        Ok(())
    }

    /// Whether a call refused: then only this call may follow.
    pub fn spent(&self) -> bool
        ensures { result ≡ self.now.spent }
    {
        self.spent
    }
}

/// Whether two values are the same residue.
pub fn is_same<F: Field>(x: F, y: F) -> bool
    ensures { result ≡ (F.number x == F.number y) }
{
    x.number() == y.number()
}

/// The same challenges, once more. No `times`.
pub fn copy_of<F: Field, const CAP: usize>(seat: &Seat<F, CAP>) -> Seat<F, CAP>
    ensures { result ≡ seat.now }
{
    seat.clone().unwrap()
}
