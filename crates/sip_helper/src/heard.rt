//! How much of the stream was heard.

ghost use Rattle.std.specs.Prelude.{◌≡◌, ◌≤◌};
ghost use Rattle.sip_vector.specs.Limits.{most_depth};
ghost use Rattle.sip_helper.specs.Shown.{opened};
ghost use Rattle.sip_helper.specs.Turns.{depth_of, part_of, whole_of};

use sip_vector::Depth;

/// How much of the stream a helper has heard.
#[derive(Clone, Copy, Debug, PartialEq, Eq)]
pub(crate) enum Heard {
    /// Not even the opening.
    Nothing,
    /// The opening, and perhaps some updates.
    Part(Depth),
    /// All of it.
    Whole(Depth),
}

impl Heard {
    /// The depth, where more of the stream may come.
    pub(crate) fn part(self) -> Option<Depth>
        ensures { result ≡ part_of self }
    {
        match self {
            Heard::Part(depth) => Some(depth),
            Heard::Nothing | Heard::Whole(_) => None,
        }
    }

    /// The depth, where the stream has ended.
    pub(crate) fn whole(self) -> Option<Depth>
        ensures { result ≡ whole_of self }
    {
        match self {
            Heard::Whole(depth) => Some(depth),
            Heard::Nothing | Heard::Part(_) => None,
        }
    }

    /// The depth of the opening, where one was heard.
    pub(crate) fn opened(self) -> Option<Depth>
        ensures { result ≡ opened self }
    {
        match self {
            Heard::Nothing => None,
            Heard::Part(depth) | Heard::Whole(depth) => Some(depth),
        }
    }

    /// The depth of the talk; 0 before its opening.
    pub(crate) fn depth(self) -> u8
        ensures same { result ≡ depth_of self }
        ensures most { result ≤ most_depth }
    {
        match self {
            Heard::Nothing => 0,
            Heard::Part(depth) | Heard::Whole(depth) => depth.get(),
        }
    }
}
