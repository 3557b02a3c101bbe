//! What is not opened, since it is another file of the same command.

ghost use Rattle.std.specs.Prelude.{◌≡◌, ◌↔◌, IsTrue, [], ◌∷◌};
ghost use Rattle.sip_words.specs.Sparing.{IsAmong, IsHeard, OpensUnless, Spares};

use crate::{Opening, PortPlan};

/// A file, which may have several names, as the system tells it from all others.
#[derive(Clone, Copy, Debug, PartialEq, Eq)]
pub struct FileId {
    /// The number of the device that the file is on.
    pub device: u64,
    /// The file's number on it.
    pub inode: u64,
}

/// What the openings of a plan are on, where it may not stand at two of them: a regular file, or
/// what standard input is. `None` where there is none yet, or where it is something else, as a FIFO
/// or a device.
#[derive(Clone, Copy, Debug, PartialEq, Eq)]
pub struct PlanFiles {
    /// The file of the stream.
    pub first: Option<FileId>,
    /// That of the seed or of the transcript.
    pub second: Option<FileId>,
    /// That which brings what the other side sends.
    pub from: Option<FileId>,
    /// That which gets what is sent.
    pub to: Option<FileId>,
    /// That which gets the transcript of the run.
    pub keep: Option<FileId>,
}

// Whether a file is one of these.
fn is_among(file: Option<FileId>, others: [Option<FileId>; 4]) -> bool
    ensures { IsTrue result ↔ IsAmong file others }
{
    match file {
        Some(_) => {
            let [first, second, third, fourth] = others;
            file == first || file == second || file == third || file == fourth
        }
        None => false,
    }
}

// Whether a file is this one.
fn is_same(file: Option<FileId>, other: Option<FileId>) -> bool
    ensures { IsTrue result ↔ IsAmong file (other ∷ []) }
{
    match file {
        Some(_) => file == other,
        None => false,
    }
}

// The opening, or none where this holds.
fn spared_if(spared: bool, opening: Opening) -> Opening
    ensures { OpensUnless (IsTrue spared) opening result }
{
    if spared { Opening::Spared } else { opening }
}

/// The opening, or none where its file is one of these.
pub fn unless(opening: Opening, file: Option<FileId>, others: [Option<FileId>; 4]) -> Opening
    ensures { OpensUnless (IsAmong file others) opening result }
{
    spared_if(is_among(file, others), opening)
}

impl PortPlan {
    // Whether the stream of a helper is what brings the other side's bytes.
    fn hears_stream(&self, files: &PlanFiles) -> bool
        ensures { IsTrue result ↔ IsHeard files.now self.now }
    {
        match self.second {
            Opening::Nothing => is_same(files.first, files.from),
            Opening::Standard | Opening::Spared | Opening::Path { .. } | Opening::Made { .. } =>
                false,
        }
    }

    /// The plan without what is a file of another opening: TO and the file of the transcript, each
    /// of which would be emptied, and the stream of a helper that is FROM too. What these are on is
    /// asked before anything is opened.
    pub fn sparing(&self, files: &PlanFiles) -> PortPlan
        ensures { Spares files.now self.now result }
    {
        let PlanFiles {
            first,
            second,
            from,
            to,
            keep,
        } = *files;
        PortPlan {
            first: spared_if(self.hears_stream(files), self.first),
            to: unless(self.to, to, [first, second, from, keep]),
            keep: unless(self.keep, keep, [first, second, from, to]),
            ..*self
        }
    }
}
