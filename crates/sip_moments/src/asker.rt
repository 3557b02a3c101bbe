//! The moments of a run, asked one after another.

ghost use Rattle.std.specs.Prelude.{◌≡◌, ◌≤◌, map, length, All};
ghost use Rattle.sip_moments.specs.Moments.{IsDegree};
ghost use Rattle.sip_moments.specs.Sittings.{square_of};

use crate::answer::write_moment;
use crate::asking::ask_moment;
use crate::moment::Moment;
use arrayvec::ArrayVec;
use sip_ports::{Link, PortStop, Sink};
use sip_verifier::{Asker, Seats, Unanswered, has_failed};
use sip_wire::{Frame, MOST_QUERIES, Message, Version, encode};
use std::marker::Model;

/// A moment that was stated and accepted.
#[derive(Clone, Copy, Debug)]
pub struct MomentGiven {
    /// The moment that was asked.
    pub(crate) moment: Moment,
    /// The number that was stated.
    pub(crate) value: i64,
}

/// The moments of a run after its stream was sent. The seats keep the extension of each moment's
/// side at its challenges, as they do for a second moment.
#[derive(Drop)]
pub(crate) struct Questions {
    version: Version,
    moments: ArrayVec<Moment, MOST_QUERIES>,
    seats: Seats,
    // The number of moments that were asked.
    asked: usize,
    frame: Frame,
    is_spent: bool,
    ghost within: { asked ≤ length moments.items },
    ghost degrees: { All (λ m. IsDegree m.degree) moments.items },
    ghost same: { map (λ s. s.query) seats.seats ≡ map square_of moments.items },
}

impl Model for Questions {
    ghost use Rattle.sip_moments.specs.Sittings.{Sitting};

    ghost Value = { Sitting };

    ghost view = { λ q. record {
      version = q.version;
      moments = q.moments.items;
      seats = q.seats;
      asked = q.asked;
      spent = q.is_spent;
    } };
}

impl Questions {
    ghost use Rattle.std.specs.Prelude.{false};

    /// These moments, none of which was asked yet, by seats of a second moment of each one's side.
    pub(crate) fn new(
        version: Version,
        moments: ArrayVec<Moment, MOST_QUERIES>,
        seats: Seats,
        frame: Frame,
    ) -> Questions
        requires degrees { All (λ m. IsDegree m.degree) moments.items }
        requires same { map (λ s. s.query) seats.seats ≡ map square_of moments.items }
        ensures { result ≡ record {
          version = version;
          moments = moments.items;
          seats = seats;
          asked = 0;
          spent = false;
        } }
    {
        Questions {
            version,
            moments,
            seats,
            asked: 0,
            frame,
            is_spent: false,
        }
    }
}

impl Asker for Questions {
    ghost use Rattle.std.specs.Prelude.{ℤ};
    ghost use Rattle.sip_moments.specs.declared.moment.Moment.{Moment as AnyMoment};
    ghost use Rattle.sip_moments.specs.LawProofs.Waiting.{waits_lawful};
    ghost use Rattle.sip_moments.specs.Manner.{asking as asking_moments};
    ghost use Rattle.sip_moments.specs.Sittings.{StandsFor, States, remaining_of};

    type Given = MomentGiven;

    ghost Query = { AnyMoment };

    ghost Answer = { ℤ };

    ghost asking = { asking_moments };

    ghost remaining = { remaining_of };

    ghost stands = { StandsFor };

    ghost states = { λ _ given m z. States given m z };

    ghost lawful = { waits_lawful };

    fn left(&self) -> usize {
        self.moments.len() - self.asked
    }

    fn ask_next<L: Link, C: Sink>(
        &mut self,
        link: &mut L,
        keep: &mut C,
    ) -> Result<MomentGiven, Unanswered> {
        let moment = self.moments[self.asked];
        let Some(point) = self.seats.point(self.asked) else {
            unreachable!()
        };
        let extension = point.value();
        let version = self.version;
        let asked = ask_moment(
            version,
            moment,
            &point.seat,
            extension,
            &mut self.frame,
            link,
            keep,
        );
        self.asked += 1;
        self.is_spent = has_failed(&asked);
        let value = match asked {
            Ok(value) => value,
            Err(why) => return Err(why),
        };
        Ok(MomentGiven { moment, value })
    }

    fn write_line<K: Sink>(&self, given: &MomentGiven, report: &mut K) -> Result<(), PortStop> {
        write_moment(report, given.moment, given.value)
    }

    #[inline(never)]
    fn say_farewell<L: Link>(&self, link: &mut L) -> Result<(), PortStop> {
        encode(&Message::End, self.version, link)
    }
}
