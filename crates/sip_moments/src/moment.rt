//! A question for a moment.
ghost use Rattle.std.specs.Prelude.{◌≡◌};
ghost use Rattle.sip_wire.specs.Spelling.{side_number};

use sip_ports::{Link, PortStop};
use sip_replies::Request;
use sip_vector::Side;
use sip_wire::{Message, Version, encode};

/// The least degree of a moment that can be asked. The greatest one is `sip_wire::MOST_DEGREE`.
pub const LEAST_DEGREE: u8 = 3;

/// The moment of a side: the sum of the powers of its numbers, of a degree from 3 to 8.
#[derive(Clone, Copy, Debug, PartialEq, Eq, Default)]
pub struct Moment {
    pub side: Side,
    pub degree: u8,
}

// The number of a side in a frame.
fn number_of(side: Side) -> u8
    ensures { result ≡ side_number side }
{
    match side {
        Side::First => 0,
        Side::Second => 1,
    }
}

/// A moment is asked by its Ask.
impl Request for Moment {
    ghost use Rattle.sip_moments.specs.Questions.{ask_of};

    ghost message = { ask_of };

    fn send<L: Link>(&self, version: Version, link: &mut L) -> Result<(), PortStop> {
        let message = Message::AskMoment {
            side: number_of(self.side),
            degree: self.degree,
        };
        encode(&message, version, link)
    }
}
