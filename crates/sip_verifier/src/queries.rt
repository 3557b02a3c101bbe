//! The queries of a session, as those of a run.

ghost use Rattle.std.specs.Prelude.{All};

use crate::asker::{Asker, Unanswered};
use crate::report::{write_number, write_pairs};
use crate::session::{Session, Verdict};
use sip_ports::{Link, PortStop, Sink};
use sip_vector::Query;
use sip_wire::{Message, encode};

/// An answer that a session gave.
#[derive(Clone, Copy, Debug)]
pub struct QueryGiven {
    /// The query that was answered.
    query: Query,
    /// The number that was stated; none where it was the pairs that the session shows.
    number: Option<i64>,
}

impl Asker for Session {
    ghost use Rattle.sip_vector.specs.declared.query.Query.{Query as AnyQuery};
    ghost use Rattle.sip_vector.specs.Answers.{Answer as AnyAnswer};
    ghost use Rattle.sip_verifier.specs.Given.{States};
    ghost use Rattle.sip_verifier.specs.LawProofs.Waiting.{waits_lawful};
    ghost use Rattle.sip_verifier.specs.Questions.{asking as asking_queries};
    ghost use Rattle.sip_verifier.specs.QuerySeats.{StandsFor};
    ghost use Rattle.sip_verifier.specs.Sittings.{remaining_of};

    type Given = QueryGiven;

    ghost Query = { AnyQuery };

    ghost Answer = { AnyAnswer };

    ghost asking = { asking_queries };

    ghost remaining = { remaining_of };

    ghost stands = { λ stream s. All (StandsFor s.depth stream) s.left };

    ghost states = { States };

    ghost lawful = { waits_lawful };

    fn left(&self) -> usize {
        Session::left(self)
    }

    fn ask_next<L: Link, C: Sink>(
        &mut self,
        link: &mut L,
        keep: &mut C,
    ) -> Result<QueryGiven, Unanswered> {
        let query = self.next_query();
        match self.ask(link, keep) {
            Ok(Verdict::Number(value)) => Ok(QueryGiven {
                query,
                number: Some(value),
            }),
            Ok(Verdict::Pairs) => Ok(QueryGiven {
                query,
                number: None,
            }),
            Ok(Verdict::Rejected { round, reason }) => Err(Unanswered::Rejected { round, reason }),
            Err(fault) => Err(Unanswered::Fault(fault)),
        }
    }

    fn write_line<K: Sink>(&self, given: &QueryGiven, report: &mut K) -> Result<(), PortStop> {
        match given.number {
            Some(value) => write_number(report, &given.query, value),
            None => write_pairs(report, &given.query, self.entries()),
        }
    }

    #[inline(never)]
    fn say_farewell<L: Link>(&self, link: &mut L) -> Result<(), PortStop> {
        encode(&Message::Bye, self.version(), link)
    }
}
