//! The two ends of a link, of which each may be a standard one, and which files they are.

ghost use Rattle.std.specs.Prelude.{◌≡◌, ◌≢◌, None};
ghost use Rattle.sip_words.specs.Plan.{file_name};

use crate::{emptied, opened};
use either::{Either, Left, Right};
use sip_advice::Unopened;
use sip_words::{FileId, Opening, PortPlan, Words};
use std::fs::{self, File};
use std::io::{Stdin, Stdout};
use std::os::unix::fs::{FileTypeExt, MetadataExt};

/// What brings the other side's bytes.
pub(crate) type FromEnd = Either<File, Stdin>;

/// What takes ours.
pub(crate) type ToEnd = Either<File, Stdout>;

/// What brings the other side's bytes, or why there is nothing, which is noted.
pub(crate) fn from_end(
    rt: &HostRuntime,
    words: &Words,
    opening: Opening,
    note: &mut Option<Unopened>,
) -> Option<FromEnd>
    ensures { opening ≢ Opening.Standard → file_name opening words.now ≡ None → result ≡ None }
{
    match opening {
        Opening::Standard => Some(Right(rt.stdin())),
        Opening::Nothing | Opening::Spared | Opening::Path { .. } | Opening::Made { .. } => {
            Some(Left(opened(rt, words, opening, note)?))
        }
    }
}

/// What takes our bytes, or why there is nothing, which is noted. A file is made or emptied.
pub(crate) fn to_end(
    rt: &HostRuntime,
    words: &Words,
    opening: Opening,
    note: &mut Option<Unopened>,
) -> Option<ToEnd>
    ensures { opening ≢ Opening.Standard → file_name opening words.now ≡ None → result ≡ None }
{
    match opening {
        Opening::Standard => Some(Right(rt.stdout())),
        Opening::Nothing | Opening::Spared | Opening::Path { .. } | Opening::Made { .. } => {
            Some(Left(emptied(rt, words, opening, note)?))
        }
    }
}

/// The file of this name, if it is a regular one, or a pipe where `pipes` says so.
fn file_of(rt: &HostRuntime, name: &str, pipes: bool) -> Option<FileId> {
    let told = fs::metadata(rt, name).ok()?;
    let counts = told.is_file() || pipes && told.file_type().is_fifo();
    counts.then_some(FileId {
        device: told.dev(),
        inode: told.ino(),
    })
}

/// The regular file of this name, if it is one.
pub(crate) fn named_file(rt: &HostRuntime, name: &str) -> Option<FileId> {
    file_of(rt, name, false)
}

/// The regular file that an opening is on, if it is on one.
pub(crate) fn regular(rt: &HostRuntime, words: &Words, opening: Opening) -> Option<FileId> {
    named_file(rt, opening.name(words)?)
}

/// What the stream is on. Where standard input brings the other side's bytes, a pipe is told from
/// others too, since that may be what standard input is.
pub(crate) fn stream_file(rt: &HostRuntime, words: &Words, plan: &PortPlan) -> Option<FileId> {
    file_of(rt, plan.first.name(words)?, plan.from == Opening::Standard)
}

/// What brings the other side's bytes.
pub(crate) fn from_file(rt: &HostRuntime, words: &Words, opening: Opening) -> Option<FileId> {
    match opening {
        Opening::Standard => file_of(rt, "/dev/stdin", true),
        Opening::Nothing | Opening::Spared | Opening::Path { .. } | Opening::Made { .. } => {
            regular(rt, words, opening)
        }
    }
}

/// What takes ours.
pub(crate) fn to_file(rt: &HostRuntime, words: &Words, opening: Opening) -> Option<FileId> {
    match opening {
        Opening::Standard => file_of(rt, "/dev/stdout", false),
        Opening::Nothing | Opening::Spared | Opening::Path { .. } | Opening::Made { .. } => {
            regular(rt, words, opening)
        }
    }
}
