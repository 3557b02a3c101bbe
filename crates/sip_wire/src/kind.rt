//! The kinds of message, and where each may stand. A refusal may stand wherever a reply is awaited.

ghost use Rattle.std.specs.Prelude.{◌≡◌, ◌<◌, ◌≤◌, ◌^◌, ◌+◌, IsTrue, ◌*◌, ◌-◌, ◌%◌, ◌==◌, ◌&&◌};
ghost use Rattle.std.specs.Prelude.{nat_le};
ghost use Rattle.sip_wire.specs.Table.{byte_of, degree_at, kind_at, allows, stands_in, shape};
ghost use Rattle.sip_wire.specs.Table.{query_shape, longest_body};

use crate::Version;
use crate::message::{Leaf, MOST_DEGREE, MOST_NODES, MOST_ROWS, Mark, Node};
use crate::row::Row;
use sip_vector::{Entry, Update};

/// What a frame's first byte says.
#[derive(Clone, Copy, Debug, PartialEq, Eq)]
pub enum Kind {
    Open,
    Updates,
    EndStream,
    Query,
    Reveal,
    Bye,
    Claim,
    Poly,
    Entries,
    Siblings,
    Leaves,
    Nodes,
    LevelEnd,
    Refuse,
    AskLook,
    Found,
    End,
    AskMoment,
    Power { degree: u8 },
    Held,
    Recall,
    Marks,
}

/// Where a message is awaited, and so which kinds may stand there.
#[derive(Clone, Copy, Debug, PartialEq, Eq)]
pub enum Place {
    /// Whatever goes to the helper.
    ToHelper,
    /// Whatever comes from the helper.
    ToVerifier,
    /// Entries, and the siblings behind them.
    Entries,
    /// Siblings.
    Siblings,
    /// The claim of a sum.
    Claim,
    /// A round polynomial.
    Poly,
    /// Leaves, and the end of their level.
    Leaves,
    /// Nodes, and the end of their level.
    Nodes,
    /// What is asked behind the stream, where a helper answers lookups.
    AskedLook,
    /// The place of a lookup's answer.
    Found,
    /// What is asked behind the stream, where a helper answers moments.
    AskedMoment,
    /// A round polynomial of this degree, which is 8 at the most.
    Power { degree: u8 },
    /// Whatever goes to a helper that answers questions of every kind.
    AskedQuestion,
    /// What a helper holds.
    Held,
    /// Entries with their weights, and the end of their level.
    Marks,
}

impl Kind {
    /// The byte that stands for the kind.
    pub fn byte(self) -> u8
        ensures { result ≡ byte_of self }
    {
        match self {
            Kind::Open => 0x01,
            Kind::Updates => 0x02,
            Kind::EndStream => 0x03,
            Kind::Query => 0x04,
            Kind::Reveal => 0x05,
            Kind::Bye => 0x06,
            Kind::Claim => 0x11,
            Kind::Poly => 0x12,
            Kind::Entries => 0x13,
            Kind::Siblings => 0x14,
            Kind::Leaves => 0x15,
            Kind::Nodes => 0x16,
            Kind::LevelEnd => 0x17,
            Kind::Refuse => 0x18,
            Kind::AskLook => 0x21,
            Kind::Found => 0x22,
            Kind::End => 0x23,
            Kind::AskMoment => 0x24,
            Kind::Power { .. } => 0x25,
            Kind::Held => 0x26,
            Kind::Recall => 0x27,
            Kind::Marks => 0x28,
        }
    }

    /// The kind that a byte stands for at a place, which says of which degree a power is.
    pub fn of(place: Place, byte: u8) -> Option<Kind>
        ensures { result ≡ kind_at place byte }
    {
        Some(match byte {
            0x01 => Kind::Open,
            0x02 => Kind::Updates,
            0x03 => Kind::EndStream,
            0x04 => Kind::Query,
            0x05 => Kind::Reveal,
            0x06 => Kind::Bye,
            0x11 => Kind::Claim,
            0x12 => Kind::Poly,
            0x13 => Kind::Entries,
            0x14 => Kind::Siblings,
            0x15 => Kind::Leaves,
            0x16 => Kind::Nodes,
            0x17 => Kind::LevelEnd,
            0x18 => Kind::Refuse,
            0x21 => Kind::AskLook,
            0x22 => Kind::Found,
            0x23 => Kind::End,
            0x24 => Kind::AskMoment,
            0x25 => Kind::Power {
                degree: place.degree(),
            },
            0x26 => Kind::Held,
            0x27 => Kind::Recall,
            0x28 => Kind::Marks,
            _ => return None,
        })
    }

    /// Whether there are frames of this kind in a version.
    pub fn stands_in(self, version: Version) -> bool
        ensures { result ≡ stands_in self version }
    {
        match (self, version) {
            (Kind::Marks, Version::One) => false,
            _ => true,
        }
    }

    /// Whether a body of this kind may be so long.
    pub fn has_length(self, version: Version, length: usize) -> bool
        ensures answer { result ≡ (shape version self).has_length length }
        ensures short { IsTrue result → length ≤ longest_body }
    {
        match self {
            Kind::Open => length == 2,
            Kind::Updates => is_counted(length, MOST_ROWS, Update::size(version)),
            Kind::Query => is_query(version, length),
            Kind::Reveal | Kind::Claim | Kind::Recall => length == 8,
            Kind::Poly => length == 24,
            Kind::Entries => is_counted(length, MOST_ROWS, Entry::size(version)),
            Kind::Leaves => is_counted(length, MOST_ROWS, Leaf::size(version)),
            Kind::Siblings => length == 1 || length == 9 || length == 17,
            Kind::Nodes => is_counted(length, MOST_NODES, Node::size(version)),
            Kind::Refuse => length == 1,
            Kind::AskLook | Kind::Found => length == 9,
            Kind::AskMoment => length == 2,
            Kind::Power { degree } => {
                degree <= MOST_DEGREE && length == 8 * (degree as usize + 1)
            }
            Kind::EndStream | Kind::Bye | Kind::LevelEnd | Kind::End => length == 0,
            Kind::Held => length == 32,
            Kind::Marks => {
                self.stands_in(version) && is_counted(length, MOST_NODES, Mark::size(version))
            }
        }
    }
}

/// Whether the body of a query may be so long.
fn is_query(version: Version, length: usize) -> bool
    ensures { result ≡ (query_shape version).has_length length }
{
    match version {
        Version::One => length == 1 || length == 2 || length == 9 || length == 10,
        Version::Two => {
            length == 1 || length == 2 || length == 10 || length == 17 || length == 18
        }
    }
}

/// Whether a body that begins with a count from 1 to `most`, of rows of so many bytes, may be so
/// long.
fn is_counted(length: usize, most: usize, row: usize) -> bool
    requires most { most < 2 ^ 16 }
    requires row { row < 2 ^ 16 }
    requires some { 0 < row }
    ensures { result ≡ (nat_le (2 + row) length && nat_le length (2 + most * row) &&
        ((length - 2) % row == 0)) }
{
    length >= 2 + row && length <= 2 + most * row && (length - 2) % row == 0
}

impl Place {
    /// The degree of the power that is awaited here, where one is, and else 0.
    fn degree(self) -> u8
        ensures { result ≡ degree_at self }
    {
        match self {
            Place::Power { degree } => degree,
            _ => 0,
        }
    }

    /// Whether a message of this kind may stand here.
    pub fn allows(self, kind: Kind) -> bool
        ensures { result ≡ allows self kind }
    {
        match (self, kind) {
            (
                Place::ToHelper,
                Kind::Open
                | Kind::Updates
                | Kind::EndStream
                | Kind::Query
                | Kind::Reveal
                | Kind::Bye,
            ) => true,
            (
                Place::ToVerifier,
                Kind::Claim
                | Kind::Poly
                | Kind::Entries
                | Kind::Siblings
                | Kind::Leaves
                | Kind::Nodes
                | Kind::LevelEnd
                | Kind::Refuse,
            ) => true,
            (Place::Entries, Kind::Entries | Kind::Siblings | Kind::Refuse) => true,
            (Place::Siblings, Kind::Siblings | Kind::Refuse) => true,
            (Place::Claim, Kind::Claim | Kind::Refuse) => true,
            (Place::Poly, Kind::Poly | Kind::Refuse) => true,
            (Place::Leaves, Kind::Leaves | Kind::LevelEnd | Kind::Refuse) => true,
            (Place::Nodes, Kind::Nodes | Kind::LevelEnd | Kind::Refuse) => true,
            (Place::AskedLook, Kind::AskLook | Kind::End) => true,
            (Place::Found, Kind::Found | Kind::Refuse) => true,
            (Place::AskedMoment, Kind::AskMoment | Kind::End) => true,
            (
                Place::AskedQuestion,
                Kind::Open
                | Kind::Updates
                | Kind::EndStream
                | Kind::Query
                | Kind::Reveal
                | Kind::Bye
                | Kind::AskLook
                | Kind::AskMoment
                | Kind::Recall,
            ) => true,
            (Place::Held, Kind::Held) => true,
            (Place::Marks, Kind::Marks | Kind::LevelEnd | Kind::Refuse) => true,
            (Place::Power { .. }, Kind::Refuse) => true,
            (Place::Power { degree: awaited }, Kind::Power { degree }) => degree == awaited,
            _ => false,
        }
    }
}
