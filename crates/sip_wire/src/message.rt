//! What the two ends say to each other.

use arrayvec::ArrayVec;
use sip_ports::PortStop;
use sip_vector::{Entry, Query, Update};

/// How many queries a talk has at most.
pub const MOST_QUERIES: usize = 16;

/// How many updates, entries or leaves a frame has at most.
pub const MOST_ROWS: usize = 512;

/// How many nodes or marks a frame has at most.
pub const MOST_NODES: usize = 256;

/// The greatest degree of a power.
pub const MOST_DEGREE: u8 = 8;

/// How many coefficients a power has at most.
pub const MOST_COEFFICIENTS: usize = 9;

/// The greatest code of a refusal; the least is 1.
pub const MOST_REFUSAL: u8 = 4;

/// An item, below 2^48, and its count, below 2^61 - 1.
#[derive(Clone, Copy, Debug, PartialEq, Eq, Default)]
pub struct Leaf {
    /// The number of the entry that it stands for, from 0, below 2^48; in version 1 below 2^32.
    pub item: u64,
    /// The value of that entry, below 2^61 - 1.
    pub count: u64,
}

/// A node of a level, by its index, below 2^48, its hash and its count, both below 2^61 - 1.
#[derive(Clone, Copy, Debug, PartialEq, Eq, Default)]
pub struct Node {
    /// Its place in its level, from 0, below 2^48; in version 1 below 2^32.
    pub index: u64,
    /// The residue that stands for what is below it, below 2^61 - 1.
    pub hash: u64,
    /// The sum of the leaves below it, below 2^61 - 1.
    pub count: u64,
}

/// An item, below 2^48, with its value and its weight.
#[derive(Clone, Copy, Debug, PartialEq, Eq, Default)]
pub struct Mark {
    /// The number of the entry that it stands for, from 0, below 2^48.
    pub item: u64,
    /// The value of that entry, of absolute value at most 2^60 - 1 and at most the weight.
    pub value: i64,
    /// The sum of the absolute deltas of that entry, below 2^61 - 1.
    pub weight: u64,
}

/// What a helper holds of a stream: any numbers, which nobody has to trust.
#[derive(Clone, Copy, Debug, PartialEq, Eq, Default)]
pub struct Held {
    /// How many records it has heard.
    pub records: u64,
    /// The weight of side `First`: the sum of the absolute deltas.
    pub first: u64,
    /// The weight of side `Second`.
    pub second: u64,
    /// The fingerprint of the records, modulo 2^64.
    pub fingerprint: u64,
}

/// What one frame says. The first six go to the helper, and those up to the refusal come from it.
/// The next five are of the talks about lookups and moments, two are about the records that a
/// helper has of its own, and the last is of large entries of any stream.
#[derive(Drop)]
pub enum Message {
    /// The talk begins, in a version and over 2^depth items.
    Open {
        version: u8,
        depth: u8,
    },
    /// Records of the stream, one at least.
    Updates(ArrayVec<Update, MOST_ROWS>),
    /// The stream ended.
    EndStream,
    /// A query is asked.
    Query(Query),
    /// The challenge of the level that was answered, an element of the field.
    Reveal {
        challenge: u64,
    },
    /// The talk ends.
    Bye,
    /// What a sum is claimed to be, of absolute value at most 2^60 - 1.
    Claim {
        value: i64,
    },
    /// A round polynomial, c0 + c1·x + c2·x², by elements of the field.
    Poly {
        c0: u64,
        c1: u64,
        c2: u64,
    },
    /// Entries that are not 0, one at least.
    Entries(ArrayVec<Entry, MOST_ROWS>),
    /// The nodes of a level beside an interval, those that are asked for, by elements of the field.
    Siblings {
        left: Option<u64>,
        right: Option<u64>,
    },
    /// Nodes of the lowest level, one at least.
    Leaves(ArrayVec<Leaf, MOST_ROWS>),
    /// Nodes of a level above, one at least.
    Nodes(ArrayVec<Node, MOST_NODES>),
    /// No more nodes of the level come.
    LevelEnd,
    /// The helper refuses, with a code from 1 to 4.
    Refuse {
        code: u8,
    },
    /// A lookup is asked at an item: its code is 1 for the item itself, 2 for the nearest entry up
    /// to it and 3 for the nearest from it on. Any number has a spelling here.
    AskLook {
        code: u8,
        item: u64,
    },
    /// The place of a lookup's answer: flag 1 and its index, or flag 0 and 0 where there is none.
    Found {
        flag: u8,
        index: u64,
    },
    /// No more lookups or moments are asked.
    End,
    /// The moment of a side, 0 or 1, of a degree from 3 to 8 is asked. Any number has a spelling
    /// here.
    AskMoment {
        side: u8,
        degree: u8,
    },
    /// A round polynomial of a moment, its coefficients from c0 on, by elements of the field. There
    /// is one more of them than the degree, which the place says.
    Power(ArrayVec<u64, MOST_COEFFICIENTS>),
    /// What the helper holds, behind the records that it was to recall.
    Held(Held),
    /// The helper is to hear so many of the records that it has of its own, or all where it has
    /// fewer.
    Recall {
        count: u64,
    },
    /// Entries with their weights, one at least. They stand in version 2 alone.
    Marks(ArrayVec<Mark, MOST_NODES>),
}

/// Why no message was received, the faults of the bytes in the order in which they are tested.
#[derive(Clone, Copy, Debug, PartialEq, Eq)]
pub enum WireFault {
    /// The link ended inside the frame.
    Closed,
    /// The kind may not stand at this place.
    BadKind,
    /// The length is none that the kind has.
    BadLength,
    /// The count, the code or the flags do not fit the length.
    BadCount,
    /// A number is outside the range of its field.
    BadNumber,
    /// The link failed.
    PeerFault,
    /// The link ran out of memory.
    OutOfMemory,
}

impl From<PortStop> for WireFault {
    ghost use Rattle.std.specs.Prelude.{◌≡◌};
    ghost use Rattle.sip_wire.specs.Faults.{fault_of_stop};

    ghost from_gives = { λ stop fault. fault ≡ fault_of_stop stop };

    fn from(stop: PortStop) -> Self {
        match stop {
            PortStop::Failed => WireFault::PeerFault,
            PortStop::OutOfMemory => WireFault::OutOfMemory,
        }
    }
}

/// Why a reply is rejected, in the order in which a message is tested.
#[derive(Clone, Copy, Debug, PartialEq, Eq)]
pub enum Reason {
    /// The link ended inside the reply.
    Closed,
    /// The kind may not stand at this place.
    BadKind,
    /// The length is none that the kind has.
    BadLength,
    /// The count, the code or the flags do not fit the length.
    BadCount,
    /// A number is outside the range of its field.
    BadNumber,
    /// The helper refused, with this code.
    Refused(u8),
    /// An index is not above the one before, or outside the interval or the level, or already
    /// known.
    BadOrder,
    /// There are more entries or nodes than an answer may have.
    TooMany,
    /// The siblings present are not those that the interval asks for.
    BadFlags,
    /// A received node is heavy.
    HeavySibling,
    /// A node has no sibling, or the last level has none.
    Pairs,
    /// A pair is light.
    LightParent,
    /// A round polynomial does not sum to the expected value.
    Sum,
    /// A count is not the total, or above it.
    Total,
    /// The value at the end is not the verifier's own.
    Root,
    /// The place that was found is none that answers the lookup.
    BadFound,
    /// The entries are not the one at the place that was found alone.
    NotAlone,
}
