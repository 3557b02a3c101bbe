//! What is asked by one message.

use sip_above::Large;
use sip_moments::Moment;
use sip_ports::{Link, PortStop};
use sip_replies::Request;
use sip_vector::Query;
use sip_wire::Version;

/// What is asked by one message, behind which the replies are due.
#[derive(Clone, Copy, Debug, PartialEq, Eq)]
pub enum Opening {
    /// A query.
    Query(Query),
    /// A moment.
    Moment(Moment),
    /// Large entries.
    Large(Large),
}

impl Request for Opening {
    ghost use Rattle.sip_steps.specs.Openings.{message_of};

    ghost message = { message_of };

    fn send<L: Link>(&self, version: Version, link: &mut L) -> Result<(), PortStop> {
        match self {
            Opening::Query(query) => query.send(version, link),
            Opening::Moment(moment) => moment.send(version, link),
            Opening::Large(large) => large.query().send(version, link),
        }
    }
}
