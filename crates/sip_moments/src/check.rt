//! The verifier's check of a claimed moment, round by round.
ghost use Rattle.std.specs.Prelude.{◌≡◌, ◌+◌, ◌-◌, ◌%◌, ◌^◌, ◌<◌, ◌≤◌, ◌==◌, false, nat_abs};
ghost use Rattle.std.specs.Prelude.{length, map, slice_index, is_err, OnOk};
ghost use Rattle.sip_field.specs.Residue.{residue};
ghost use Rattle.sip_vector.specs.Steps.{needs};
ghost use Rattle.sip_counts.specs.Rounds.{sum_of_ends};
ghost use Rattle.sip_moments.specs.Checking.{begun, with_polynomial, with_revealed};
ghost use Rattle.sip_moments.specs.Moments.{IsDegree};

use crate::powers::{power, sum_of_ends};
use sip_field::{Field, Seat, horner};
use sip_sums::{copy_of, is_same};
use sip_wire::Reason;
use std::marker::Model;

/// The check of the replies to one question for a moment.
///
/// It keeps the challenges, the degree and the value that is expected of the next polynomial: no
/// list, and no memory beyond itself.
///
/// The calls come in the order of a talk: `round` for reply 0, then for each later one `reveal` and
/// its `round`, and at last `finish`. A refusal spends the check.
#[derive(Drop)]
pub struct MomentCheck<F: Field, const CAP: usize> {
    seat: Seat<F, CAP>,
    degree: u8,
    // What the values of the next polynomial at 0 and 1 have to add up to; behind the last one,
    // what the power of the extension has to be.
    expected: F,
    // The number of polynomials that were given.
    given: usize,
    // The number of challenges that were revealed.
    revealed: usize,
    spent: bool,
}

impl<F: Field, const CAP: usize> Model for MomentCheck<F, CAP> {
    ghost use Rattle.std.specs.Prelude.{◌≤◌, length};
    ghost use Rattle.sip_moments.specs.Checking.{Kept};
    ghost use Rattle.sip_moments.specs.Moments.{IsDegree};

    ghost Value = { Kept };

    ghost view = { λ c. record {
      challenges = c.seat;
      degree = c.degree;
      expected = F.number c.expected;
      given = c.given;
      revealed = c.revealed;
      spent = c.spent;
    } };

    ghost invariant = { λ c. (c.given ≤ length c.seat) × IsDegree c.degree };
}

impl<F: Field, const CAP: usize> MomentCheck<F, CAP> {
    /// The check of this claim for a moment of this degree, from 3 to 8, at these challenges.
    ///
    /// No `times`: one copy of the challenges.
    pub fn start(claim: i64, degree: u8, seat: &Seat<F, CAP>) -> MomentCheck<F, CAP>
        requires claim { nat_abs claim ≤ F.HALF }
        requires degree { IsDegree degree }
        ensures { result ≡ begun seat.now degree (residue F.MODULUS claim) }
    {
        MomentCheck {
            seat: copy_of(seat),
            degree,
            expected: F::of_signed(claim),
            given: 0,
            revealed: 0,
            spent: false,
        }
    }

    /// Expects this claim, in place of the one that the check was started with.
    pub(crate) fn expect(&mut self, claim: i64)
        ensures { self.new ≡ record self.old { expected = residue F.MODULUS claim } }
    {
        self.expected = F::of_signed(claim);
    }

    /// The number of challenges.
    pub fn depth(&self) -> usize
        ensures exact { result ≡ length self.now.challenges }
        ensures fits { result ≤ CAP }
    {
        self.seat.depth()
    }

    /// The degree of the moment, and of each polynomial.
    pub fn degree(&self) -> u8
        ensures same { result ≡ self.now.degree }
        ensures fits { IsDegree result }
    {
        self.degree
    }

    /// Takes the polynomial of a reply, by its coefficients, the constant one first: `Reason::Sum`
    /// where its values at 0 and at 1 do not add up to the claim, or, in a later reply, to the
    /// value of the last polynomial at the challenge that was revealed.
    ///
    /// A `times` for each coefficient.
    pub fn round(&mut self, poly: &[F]) -> Result<(), Reason>
        requires coefficients { length poly.now ≡ self.old.degree + 1 }
        requires unspent { self.old.spent ≡ false }
        requires due { self.old.given < length self.old.challenges }
        requires learnt { self.old.revealed ≡ self.old.given }
        ensures answer { result ≡ needs (sum_of_ends F.MODULUS (map F.number poly.now)
            == self.old.expected) Reason.Sum }
        ensures given { OnOk result (self.new
            ≡ with_polynomial F.MODULUS self.old (map F.number poly.now)) }
        ensures spent { self.new.spent ≡ is_err result }
    {
        if !is_same(sum_of_ends(poly), self.expected) {
            self.spent = true;
            return Err(Reason::Sum);
        }
        let depth = self.seat.depth();
        prove!(self.given < depth);
        self.given += 1;
        self.expected = horner(poly, self.seat.at(self.given));
        Ok(())
    }

    /// The next challenge, in the order from `r_1` on: the one that reply `j` waits for is `r_j`.
    /// The last one, `r_d`, is never revealed.
    ///
    /// No `times`.
    pub fn reveal(&mut self) -> F
        requires unspent { self.old.spent ≡ false }
        requires given { self.old.given ≡ self.old.revealed + 1 }
        requires left { self.old.given < length self.old.challenges }
        ensures challenge { F.number result ≡ slice_index self.old.challenges self.old.revealed }
        ensures learnt { self.new ≡ with_revealed self.old }
    {
        self.revealed += 1;
        self.seat.at(self.revealed)
    }

    /// Ends the check: `Reason::Root` where the last polynomial's value at the last challenge is
    /// not the power of `extension`, which is to be the extension of the vector at the challenges.
    ///
    /// As many `times` as the degree.
    pub fn finish(&mut self, extension: F) -> Result<(), Reason>
        requires unspent { self.old.spent ≡ false }
        requires whole { self.old.given ≡ length self.old.challenges }
        requires left { self.old.given ≡ self.old.revealed + 1 }
        ensures answer { result ≡ needs (self.old.expected
            == (F.number extension ^ self.old.degree) % F.MODULUS) Reason.Root }
        ensures spent { self.new ≡ record self.old { spent = is_err result } }
    {
        let tested = self.test_power(extension);
        self.spent = tested.is_err();
        tested
    }

    // Whether the power of the extension is what is expected.
    fn test_power(&self, extension: F) -> Result<(), Reason>
        ensures { result ≡ needs (self.now.expected
            == (F.number extension ^ self.now.degree) % F.MODULUS) Reason.Root }
    {
        if !is_same(self.expected, power(extension, self.degree)) {
            return Err(Reason::Root);
        }
        Ok(())
    }

    /// Whether a call refused: then only this call may follow.
    pub fn spent(&self) -> bool
        ensures { result ≡ self.now.spent }
    {
        self.spent
    }
}
