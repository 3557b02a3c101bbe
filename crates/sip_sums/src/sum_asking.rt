//! The check of a sum's replies as the general talk asks it.
ghost use Rattle.std.specs.Prelude.{◌≡◌, List};
ghost use Rattle.sip_field.specs.Elements.{m61_number};
ghost use Rattle.sip_field.specs.Moduli.{m61_modulus};
ghost use Rattle.sip_vector.specs.declared.update.Entry.{Entry as AnyEntry};
ghost use Rattle.sip_wire.specs.declared.version.Version.{Version};
ghost use Rattle.sip_replies.specs.Protocols.{Begins};
ghost use Rattle.sip_sums.specs.Asking.{SumStands, phase_of};
ghost use Rattle.sip_sums.specs.Protocol.{sum_asked, sum_rules};

use crate::check::SumCheck;
use crate::polynomial::Poly;
use sip_field::{Field, M61, Seat};
use sip_replies::{Check, More, Said};
use sip_vector::{CAP, Entry};
use sip_wire::{Message, Place, Reason};
use std::marker::Model;

/// The check of the replies to one query for a sum of products, in the form that the general talk
/// asks.
///
/// It gives the numbers of each frame to a [`SumCheck`], and keeps the claim, which is the answer
/// in the end. A number takes no places.
#[derive(Drop)]
pub struct SumAsking {
    check: SumCheck<M61, CAP>,
    // The claim, once it came.
    claim: Option<i64>,
    // What the last polynomial's value at the last challenge has to be.
    product: M61,
}

impl Model for SumAsking {
    ghost use Rattle.sip_field.specs.Elements.{m61_number};
    ghost use Rattle.sip_sums.specs.Asking.{Asking};

    ghost Value = { Asking };

    ghost view = { λ a. record {
      check = a.check;
      claim = a.claim;
      product = m61_number a.product;
    } };
}

impl SumAsking {
    /// The check of a sum at these challenges, whatever the version of the replies. `product` is
    /// that of the two extensions at the challenges.
    ///
    /// No `times`: one copy of the challenges.
    pub fn start(seat: &Seat<M61, CAP>, product: M61) -> SumAsking
        ensures stands { (version : Version) (places : List AnyEntry)
            → SumStands (sum_asked version m61_modulus (m61_number product))
            (sum_rules version m61_modulus).start result places }
        ensures begins { Begins (phase_of result) }
        ensures block { (phase_of result).block ≡ seat.now }
    {
        let _depth = seat.depth();
        SumAsking {
            check: SumCheck::start(0, seat),
            claim: None,
            product,
        }
    }
}

impl Check for SumAsking {
    ghost use Rattle.std.specs.Prelude.{is_none, if◌then◌else◌};
    ghost use Rattle.sip_sums.specs.Asking.{SumStands, phase_of};
    ghost use Rattle.sip_sums.specs.Protocol.{SumAsked, SumState, sum_protocol};
    ghost use Rattle.sip_sums.specs.LawProofs.ReplyTests.{sum_ends, sum_tests};

    ghost Asked = { SumAsked };

    ghost State = { SumState };

    ghost protocol = { sum_protocol };

    ghost phase = { phase_of };

    ghost room = { λ a. if is_none a.claim then 1 else 0 };

    ghost lent = { λ a. 0 };

    ghost stands = { SumStands };

    fn depth(&self) -> usize {
        self.check.depth()
    }

    fn unasked(&self) -> Option<Said> {
        None
    }

    fn place(&self) -> Place {
        match self.claim {
            None => Place::Claim,
            Some(_) => Place::Poly,
        }
    }

    fn take(&mut self, message: &Message, _places: &mut [Entry]) -> Result<More, Reason> {
        match message {
            Message::Claim { value } => {
                if self.claim.is_some() {
                    return Err(Reason::BadKind);
                }
                self.claim = Some(*value);
                self.check.expect(*value);
                Ok(More::Due)
            }
            Message::Poly { c0, c1, c2 } => {
                if self.claim.is_none() {
                    return Err(Reason::BadKind);
                }
                self.check.round(Poly {
                    c0: M61::of_number(*c0),
                    c1: M61::of_number(*c1),
                    c2: M61::of_number(*c2),
                })?;
                Ok(More::Complete)
            }
            Message::Refuse { code } => Err(Reason::Refused(*code)),
            _ => Err(Reason::BadKind),
        }
    }

    fn reveal(&mut self) -> u64 {
        self.check.reveal().number()
    }

    fn finish(&mut self, _places: &[Entry]) -> Result<Said, Reason> {
        let claim = self.claim.ok_or(Reason::Root)?;
        self.check.finish(self.product)?;
        Ok(Said::Number(claim))
    }

    ghost ends = { sum_ends };

    ghost tests = { sum_tests };
}
