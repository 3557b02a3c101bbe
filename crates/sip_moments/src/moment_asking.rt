//! The check of a moment's replies as the general talk asks it.
ghost use Rattle.std.specs.Prelude.{◌≡◌, ◌+◌, ◌%◌, ◌^◌, ◌<◌, ◌≤◌, false, All, List, length, map};
ghost use Rattle.std.specs.Prelude.{OnOk};
ghost use Rattle.sip_field.specs.Elements.{m61_number};
ghost use Rattle.sip_field.specs.Moduli.{m61_modulus};
ghost use Rattle.sip_vector.specs.declared.update.Entry.{Entry as AnyEntry};
ghost use Rattle.sip_wire.specs.declared.version.Version.{Version};
ghost use Rattle.sip_replies.specs.Protocols.{Begins};
ghost use Rattle.sip_wire.specs.Table.{most_degree};
ghost use Rattle.sip_moments.specs.Asking.{MomentStands, phase_of, power_tests};
ghost use Rattle.sip_moments.specs.Checking.{with_polynomial};
ghost use Rattle.sip_moments.specs.Moments.{IsDegree};
ghost use Rattle.sip_moments.specs.Protocol.{moment_asked, moment_rules};

use crate::check::MomentCheck;
use arrayvec::ArrayVec;
use sip_field::{Field, M61, Seat};
use sip_replies::{Check, More, Said};
use sip_vector::{CAP, Entry};
use sip_wire::{MOST_COEFFICIENTS, Message, Place, Reason};
use std::marker::Model;

/// The check of the replies to one question for a moment, in the form that the general talk asks.
///
/// It gives the numbers of each frame to a [`MomentCheck`], and keeps the claim, which is the
/// answer in the end. A number takes no places.
#[derive(Drop)]
pub struct MomentAsking {
    check: MomentCheck<M61, CAP>,
    // The claim, once it came.
    claim: Option<i64>,
    // The extension of the vector at the challenges: the last polynomial's value at the last
    // challenge has to be its power.
    extension: M61,
}

impl Model for MomentAsking {
    ghost use Rattle.sip_field.specs.Elements.{m61_number};
    ghost use Rattle.sip_moments.specs.Asking.{Asking};

    ghost Value = { Asking };

    ghost view = { λ a. record {
      check = a.check;
      claim = a.claim;
      extension = m61_number a.extension;
    } };
}

// The coefficients of a polynomial as elements of the field.
fn elements_of(coefficients: &[u64]) -> ArrayVec<M61, MOST_COEFFICIENTS>
    requires few { length coefficients.now ≤ most_degree + 1 }
    requires elements { All (λ c. c < m61_modulus) coefficients.now }
    ensures { map m61_number result.items ≡ coefficients.now }
{
    let mut poly = ArrayVec::new();
    for coefficient in coefficients {
        poly.push(M61::of_number(*coefficient));
    }
    poly
}

impl MomentAsking {
    /// The check of a moment of this degree, from 3 to 8, at these challenges, whatever the version
    /// of the replies. `extension` is that of the vector at the challenges.
    ///
    /// No `times`: one copy of the challenges.
    pub fn start(degree: u8, seat: &Seat<M61, CAP>, extension: M61) -> MomentAsking
        requires degree { IsDegree degree }
        ensures stands { (version : Version) (places : List AnyEntry)
            → MomentStands (moment_asked version m61_modulus degree
            ((m61_number extension ^ degree) % m61_modulus))
            (moment_rules version m61_modulus degree).start result places }
        ensures begins { Begins (phase_of result) }
        ensures block { (phase_of result).block ≡ seat.now }
    {
        let _depth = seat.depth();
        MomentAsking {
            check: MomentCheck::start(0, degree, seat),
            claim: None,
            extension,
        }
    }

    // Takes a polynomial, where its number of coefficients is that of the degree.
    fn take_power(&mut self, coefficients: &[u64]) -> Result<(), Reason>
        requires unspent { self.old.check.spent ≡ false }
        requires due { self.old.check.given < length self.old.check.challenges }
        requires learnt { self.old.check.revealed ≡ self.old.check.given }
        requires elements { All (λ c. c < m61_modulus) coefficients.now }
        ensures answer { result ≡ power_tests m61_modulus self.old.check coefficients.now }
        ensures given { OnOk result (self.new ≡ record self.old {
          check = with_polynomial m61_modulus self.old.check coefficients.now;
        }) }
    {
        if coefficients.len() != self.check.degree() as usize + 1 {
            return Err(Reason::BadLength);
        }
        self.check.round(&elements_of(coefficients))
    }
}

impl Check for MomentAsking {
    ghost use Rattle.std.specs.Prelude.{is_none, if◌then◌else◌};
    ghost use Rattle.sip_moments.specs.Asking.{MomentStands, phase_of};
    ghost use Rattle.sip_moments.specs.Protocol.{MomentAsked, MomentState, moment_protocol};
    ghost use Rattle.sip_moments.specs.LawProofs.ReplyTests.{moment_ends, moment_tests};

    ghost Asked = { MomentAsked };

    ghost State = { MomentState };

    ghost protocol = { moment_protocol };

    ghost phase = { phase_of };

    ghost room = { λ a. if is_none a.claim then 1 else 0 };

    ghost lent = { λ a. 0 };

    ghost stands = { MomentStands };

    fn depth(&self) -> usize {
        self.check.depth()
    }

    fn unasked(&self) -> Option<Said> {
        None
    }

    fn place(&self) -> Place {
        match self.claim {
            None => Place::Claim,
            Some(_) => Place::Power {
                degree: self.check.degree(),
            },
        }
    }

    fn take(&mut self, message: &Message, _places: &mut [Entry]) -> Result<More, Reason> {
        match message {
            Message::Claim { value } => {
                if self.claim.is_some() {
                    return Err(Reason::BadKind);
                }
                self.claim = Some(*value);
                self.check.expect(*value);
                Ok(More::Due)
            }
            Message::Power(coefficients) => {
                if self.claim.is_none() {
                    return Err(Reason::BadKind);
                }
                self.take_power(coefficients)?;
                Ok(More::Complete)
            }
            Message::Refuse { code } => Err(Reason::Refused(*code)),
            _ => Err(Reason::BadKind),
        }
    }

    fn reveal(&mut self) -> u64 {
        self.check.reveal().number()
    }

    fn finish(&mut self, _places: &[Entry]) -> Result<Said, Reason> {
        let claim = self.claim.ok_or(Reason::Root)?;
        self.check.finish(self.extension)?;
        Ok(Said::Number(claim))
    }

    ghost ends = { moment_ends };

    ghost tests = { moment_tests };
}
