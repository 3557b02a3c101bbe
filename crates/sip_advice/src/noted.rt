//! What was noted of a command beside its status: of its files when they were opened, and of its
//! stream.

ghost use Rattle.std.specs.Prelude.{◌≡◌, ◌↔◌, IsTrue};
ghost use Rattle.std.specs.IoError.{error_kind};
ghost use Rattle.sip_advice.specs.Noting.{IsEven, IsShared, taken_from, trouble_of, unopened};

use sip_vector::Negatives;
use sip_words::Opening;
use std::io::{Error, ErrorKind};

/// Why a file is not to be had.
#[derive(Clone, Copy, Debug, PartialEq, Eq)]
pub enum Trouble {
    /// Nothing has that name, or a folder on the way to it is not there.
    Missing,
    /// It is a directory.
    Directory,
    /// The system does not permit it.
    Denied,
    /// It is another file of the command, which must not be emptied or read away.
    Taken,
    /// The system has another reason.
    Other,
}

impl Trouble {
    /// Why a file did not open, as the system's error says.
    pub fn of(error: &Error) -> Trouble
        ensures { result ≡ trouble_of (error_kind error.now) }
    {
        match error.kind() {
            ErrorKind::NotFound => Trouble::Missing,
            ErrorKind::PermissionDenied => Trouble::Denied,
            ErrorKind::IsADirectory => Trouble::Directory,
            _ => Trouble::Other,
        }
    }
}

/// A file that is not to be had.
#[derive(Clone, Copy, Debug, PartialEq, Eq)]
pub struct Unopened {
    /// The number of the word that names it, from 0.
    pub word: usize,
    /// Why it is not to be had.
    pub why: Trouble,
}

impl Unopened {
    /// The file that an opening is on, which is not to be had; `None` where it is on none.
    pub fn of(opening: Opening, why: Trouble) -> Option<Unopened>
        ensures { result ≡ unopened opening why }
    {
        match opening {
            Opening::Path { word, .. } => Some(Unopened { word, why }),
            Opening::Nothing | Opening::Standard | Opening::Spared | Opening::Made { .. } => None,
        }
    }

    /// The file that was to be opened and is spared, if this is what became of the opening.
    pub fn taken(asked: Opening, done: Opening) -> Option<Unopened>
        ensures { result ≡ taken_from asked done }
    {
        match done {
            Opening::Spared => Unopened::of(asked, Trouble::Taken),
            Opening::Nothing | Opening::Standard | Opening::Path { .. } | Opening::Made { .. } =>
                None,
        }
    }
}

/// What the file of a seed is like: such a seed is used, but it may not be a secret.
#[derive(Clone, Copy, Debug, PartialEq, Eq, Default)]
pub struct SeedLook {
    /// Its first 32 bytes are one byte.
    pub is_even: bool,
    /// Others than its owner can read it.
    pub is_shared: bool,
}

impl SeedLook {
    /// What a file is like that begins with these bytes, 32 of them if it has as many, and has this
    /// mode.
    pub fn of(front: &[u8], mode: u32) -> SeedLook
        ensures even { IsTrue result.is_even ↔ IsEven front.now }
        ensures shared { IsTrue result.is_shared ↔ IsShared mode }
    {
        SeedLook {
            is_even: is_even(front),
            is_shared: mode / 4 % 2 == 1 || mode / 32 % 2 == 1,
        }
    }
}

// Whether these are one byte 32 times.
fn is_even(front: &[u8]) -> bool
    ensures { IsTrue result ↔ IsEven front.now }
{
    match front.first() {
        Some(first) => front == [*first; 32].as_slice(),
        None => false,
    }
}

/// What was noted of a command beside its status: of its files, each by the port that it was to be
/// opened for, `None` where it opened and where there is no such file; and of its stream. Advice is
/// told by it, and nothing else.
#[derive(Clone, Copy, Debug, PartialEq, Eq, Default)]
pub struct Noted {
    /// Of the stream.
    pub first: Option<Unopened>,
    /// Of the seed or of the transcript.
    pub second: Option<Unopened>,
    /// Of what brings the bytes of the other side.
    pub from: Option<Unopened>,
    /// Of what takes ours.
    pub to: Option<Unopened>,
    /// Of what gets the transcript.
    pub keep: Option<Unopened>,
    /// What the file of the seed is like, if one was looked at.
    pub seed: SeedLook,
    /// Which sides of the stream had a delta below 0, of those whose large entries are asked for.
    pub negatives: Negatives,
}
