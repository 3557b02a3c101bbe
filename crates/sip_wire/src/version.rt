//! The versions of a talk's frames.

ghost use Rattle.std.specs.Prelude.{◌≡◌, ◌≤◌, ◌<◌, ◌^◌, length, nat_lt};
ghost use Rattle.std.specs.List.{list_any};
ghost use Rattle.sip_wire.specs.Versions.{number_of, version_at, deepest, index_width, is_of_two};
ghost use Rattle.sip_wire.specs.Versions.{speaks, needed};

use sip_vector::{Depth, Query};

/// The version of a talk's frames: how wide an item is, and which queries have a code.
#[derive(Clone, Copy, Debug, PartialEq, Eq)]
pub enum Version {
    /// Items of four bytes, for depths from 1 to 32.
    One,
    /// Items of eight bytes, for depths from 1 to 48; a share can be asked for, and the large
    /// entries of any stream.
    Two,
}

impl Version {
    /// The version of a number; `None` exactly where there is none.
    pub fn of(number: u8) -> Option<Version>
        ensures { result ≡ version_at number }
    {
        match number {
            1 => Some(Version::One),
            2 => Some(Version::Two),
            _ => None,
        }
    }

    /// The number that stands for the version in an opening.
    pub fn number(self) -> u8
        ensures { result ≡ number_of self }
    {
        match self {
            Version::One => 1,
            Version::Two => 2,
        }
    }

    /// The greatest depth of a talk.
    pub fn deepest(self) -> u8
        ensures { result ≡ deepest self }
    {
        match self {
            Version::One => Depth::MOST_NARROW,
            Version::Two => Depth::MOST,
        }
    }

    /// Whether the query has a code.
    pub fn speaks(self, query: &Query) -> bool
        ensures { result ≡ speaks self query.now }
    {
        match self {
            Version::One => !is_of_two(query),
            Version::Two => true,
        }
    }

    /// The least version in which these queries can be asked at a depth. O(n) for n queries.
    pub fn needed(depth: Depth, queries: &[Query]) -> Version
        ensures { result ≡ needed depth queries.now }
    {
        if depth.get() > Depth::MOST_NARROW || any_of_two(queries) {
            Version::Two
        } else {
            Version::One
        }
    }

    /// How many bytes an index has, of an item or of a node.
    pub(crate) fn index_width(self) -> usize
        ensures { result ≡ index_width self }
    {
        match self {
            Version::One => 4,
            Version::Two => 8,
        }
    }

    /// Whether an index has room in its bytes.
    pub(crate) fn has_room(self, index: u64) -> bool
        ensures { result ≡ nat_lt index (256 ^ index_width self) }
    {
        match self {
            Version::One => index < 1 << 32,
            Version::Two => true,
        }
    }
}

/// Whether the query has a code in version 2 alone.
fn is_of_two(query: &Query) -> bool
    ensures { result ≡ is_of_two query.now }
{
    matches!(query, Query::Share { .. } | Query::Above { .. })
}

fn any_of_two(queries: &[Query]) -> bool
    ensures { result ≡ list_any is_of_two queries.now }
{
    queries.iter().any(|query| is_of_two(query))
}
