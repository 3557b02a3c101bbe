//! The turn behind the opening of a talk over a store.

ghost use Rattle.std.specs.Prelude.{◌≡◌};
ghost use Rattle.sip_questions.specs.Stores.{awaiting};

use sip_helper::{Helps, OutOfTurn};
use sip_ports::{PortStop, Sink};
use sip_wire::{Message, Place, Version};

/// A helper with a store of its own that has heard the opening: it is to hear how many records of
/// the store are wanted. Nothing but that may come, and a Bye.
#[derive(Clone, Copy, Debug, PartialEq, Eq)]
pub struct Recalling {
    /// The version of the talk.
    pub version: Version,
    /// How many are to be heard, once that was said.
    pub count: Option<u64>,
    /// A Bye was heard.
    pub done: bool,
}

impl Recalling {
    /// Nothing was heard behind the opening.
    pub fn new(version: Version) -> Recalling
        ensures { result ≡ awaiting version }
    {
        Recalling {
            version,
            count: None,
            done: false,
        }
    }
}

impl Helps for Recalling {
    ghost use Rattle.std.specs.Prelude.{true};
    ghost use Rattle.std.specs.Option.{is_some};
    ghost use Rattle.sip_questions.specs.Stores.{recall_rules};
    ghost use Rattle.sip_questions.specs.inside.StoreTurns.{recalls_left};

    ghost rules = { recall_rules };

    ghost turns_left = { recalls_left };

    ghost is_live = { λ s. true };

    ghost is_owing = { λ s. is_some s.count };

    fn version_due(&self) -> Version {
        self.version
    }

    fn place_due(&self) -> Place {
        Place::AskedQuestion
    }

    fn take(&mut self, message: &Message) -> Result<(), OutOfTurn> {
        match message {
            Message::Recall { count } if self.count.is_none() => self.count = Some(*count),
            Message::Bye => self.done = true,
            _ => return Err(OutOfTurn),
        }
        Ok(())
    }

    fn owes_reply(&self) -> bool {
        self.count.is_some()
    }

    fn is_over(&self) -> bool {
        self.done
    }

    // What is owed behind the count is said once the records were heard: by these rules, nothing.
    fn send_reply<K: Sink>(&mut self, _out: &mut K) -> Result<(), PortStop> {
        Ok(())
    }
}
