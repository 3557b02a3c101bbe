//! The forms of a stream.

ghost use Rattle.std.specs.Prelude.{◌≡◌, ◌≤◌};
ghost use Rattle.sip_stream.specs.Layouts.{deepest_in, made_form};

use sip_vector::Depth;

/// How a stream's records are written.
#[derive(Clone, Copy, Debug, PartialEq, Eq)]
pub enum Form {
    /// 13 bytes a record: the side in one, the item in four and the delta in eight. Items are below
    /// 2^32.
    Binary,
    /// A line a record: the side, the item and the delta in decimal digits, with one space between
    /// two of them.
    Text,
    /// 17 bytes a record: the side in one, the item in eight and the delta in eight.
    Wide,
}

impl Form {
    /// The form of a made stream at this depth: binary, where it has room for the items, and else
    /// wide.
    pub fn made(depth: Depth) -> Form
        ensures form { result ≡ made_form depth }
        ensures room { depth ≤ deepest_in result }
    {
        if depth.get() <= Depth::MOST_NARROW {
            Form::Binary
        } else {
            Form::Wide
        }
    }
}
