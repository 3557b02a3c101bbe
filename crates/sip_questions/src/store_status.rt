//! How a talk over a store ended.

ghost use Rattle.std.specs.Prelude.{◌≡◌};
ghost use Rattle.sip_questions.specs.StoreFronts.{status_of_fault};
ghost use Rattle.sip_questions.specs.Stores.{status_of};

use sip_helper::HelpStatus;
use sip_stream::{StreamFault, Why};

/// How a talk over a store ended: that of a helper who is told the stream, or what came of reading
/// the store.
#[derive(Clone, Copy, Debug, PartialEq, Eq)]
pub enum StoreStatus {
    /// A Bye was heard.
    Served,
    /// Record `at` of the store, numbered from 0, is not legal. It is one of those that were to be
    /// heard.
    BadStream { at: u64, why: Why },
    /// The frame that begins at this offset of the bytes that were received has no spelling or is a
    /// query of a kind that is not answered, or its message is out of turn.
    BadFrame { offset: u64 },
    /// The store can't be read: the count of its faults rose.
    ReadFault,
    /// The link ended before a Bye.
    PeerClosed,
    /// The link failed: the count of its faults rose.
    PeerFault,
    /// Memory ran out.
    OutOfMemory,
}

impl From<HelpStatus> for StoreStatus {
    ghost from_gives = { λ how status. status ≡ status_of how };

    fn from(how: HelpStatus) -> Self {
        match how {
            HelpStatus::Served => StoreStatus::Served,
            HelpStatus::BadFrame { offset } => StoreStatus::BadFrame { offset },
            HelpStatus::PeerClosed => StoreStatus::PeerClosed,
            HelpStatus::PeerFault => StoreStatus::PeerFault,
            HelpStatus::OutOfMemory => StoreStatus::OutOfMemory,
        }
    }
}

impl From<StreamFault> for StoreStatus {
    ghost from_gives = { λ fault status. status ≡ status_of_fault fault };

    fn from(fault: StreamFault) -> Self {
        match fault {
            StreamFault::Bad { at, why } => StoreStatus::BadStream { at, why },
            StreamFault::ReadFault => StoreStatus::ReadFault,
            StreamFault::OutOfMemory => StoreStatus::OutOfMemory,
        }
    }
}
