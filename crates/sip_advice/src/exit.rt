//! How the program ends: its exit code, and the line of its status.

ghost use Rattle.std.specs.Prelude.{◌≡◌, ◌≢◌};
ghost use Rattle.std.specs.IoError.{error_kind};
ghost use Rattle.sip_ports.specs.Ports.{HasCause, SendsWhole};
ghost use Rattle.sip_advice.specs.Exit.{code_of};
ghost use Rattle.sip_advice.specs.StatusLine.{line_of_status};

use crate::status_line;
use sip_ports::{PortStop, Sink};
use sip_verifier::Status;
use std::io::{Error, ErrorKind};

/// The code that the program ends with: 0 all went well, 1 rejected, 2 no command, 3 bad input, 4 a
/// port or the other end failed, 5 out of memory.
pub fn exit_code(status: &Status) -> u8
    ensures { result ≡ code_of status.now }
{
    match status {
        Status::Accepted | Status::Served | Status::Wrote => 0,
        Status::Rejected { .. } => 1,
        Status::Usage { .. } => 2,
        Status::BadStream { .. }
        | Status::BadSeed
        | Status::SeedSpent
        | Status::BadTranscript { .. }
        | Status::BadFrame { .. }
        | Status::TooWide { .. }
        | Status::TooHigh { .. } => 3,
        Status::ReadFault { .. }
        | Status::WriteFault { .. }
        | Status::PeerFault
        | Status::PeerClosed => 4,
        Status::OutOfMemory => 5,
    }
}

/// The status where the words could not be had at all: memory ran out, or a word is not UTF-8.
pub fn status_without_words(error: &Error) -> Status
    ensures memory { error_kind error.now ≡ ErrorKind.OutOfMemory → result ≡ Status.OutOfMemory }
    ensures usage { error_kind error.now ≢ ErrorKind.OutOfMemory → result ≡ Status.Usage 0 }
{
    match error.kind() {
        ErrorKind::OutOfMemory => Status::OutOfMemory,
        _ => Status::Usage { word: 0 },
    }
}

/// How a run ends.
#[derive(Clone, Copy, Debug, PartialEq, Eq)]
pub struct Ending {
    /// The code that the program ends with: its status's own, whatever became of the line.
    pub code: u8,
    /// Whether the line of the status was written.
    pub line: Result<(), PortStop>,
}

/// Ends a run: writes the line of its status, if it has one, and answers the code that the program
/// ends with.
pub fn finish<K: Sink>(status: &Status, errors: &mut K) -> Ending
    ensures code { result.code ≡ code_of status.now }
    ensures line { SendsWhole (K.talk errors.old)
        (K.talk errors.new) result.line (line_of_status status.now) }
    ensures cause { HasCause K.faults K.wants K.is_sure errors.old errors.new result.line }
{
    Ending {
        code: exit_code(status),
        line: status_line(status, errors),
    }
}
