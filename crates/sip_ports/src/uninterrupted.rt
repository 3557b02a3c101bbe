// One read and one write that no signal stopped: an interrupted call is made again.
ghost use Rattle.std.specs.Prelude.{◌≡◌, ◌≢◌, ◌↔◌, ◌<◌, ℕ, List, Result, length};
ghost use Rattle.std.specs.Prelude.{◌⊎◌, IfOk, IfErr, IsTrue, MatchResult};
ghost use Rattle.std.specs.IoError.{error_kind};
ghost use Rattle.std.specs.Io.{ReadsAtMost, WritesAtMost};
ghost use Rattle.std.specs.Io.KnownBytes.{ReadConsumes, WriteAppends};
ghost use Rattle.std.specs.declared.io.Error.{Error};
ghost use Rattle.std.specs.declared.io.ErrorKind.TheVariants.{Interrupted, WriteZero};
ghost use Rattle.sip_ports.specs.Retried.{Settles, writing};

use std::io;
use std::io::{ErrorKind, Read, Write};

// Each function ends, so the tries do: a call that is interrupted as often as this has failed.
const TRIES: u64 = u64::MAX;

fn is_interrupted(error: &io::Error) -> bool
    ensures { IsTrue result ↔ (error_kind error.now ≡ Interrupted) }
{
    error.kind() == ErrorKind::Interrupted
}

/// What reads, and tells what one read may answer and leave. A reader of std tells that of no
/// error, so that of it no more can be said than its clauses say.
pub trait ReadsOnce {
    /// What a read into these bytes may answer, and leave of the reader and of the bytes.
    ghost gives: { Self → List ℕ → Result ℕ Error → Self → List ℕ → Type 0 };

    /// Reads once.
    fn read_once(&mut self, buf: &mut [u8]) -> io::Result<usize>
        ensures { gives self.old buf.old result self.new buf.new };
}

/// What writes, and tells what one write may answer and leave.
pub trait WritesOnce {
    /// What a write of these bytes may answer, and leave of the writer.
    ghost gives: { Self → List ℕ → Result ℕ Error → Self → Type 0 };

    /// Writes once.
    fn write_once(&mut self, buf: &[u8]) -> io::Result<usize>
        ensures { gives self.old buf.now result self.new };
}

impl<R: Read> ReadsOnce for R {
    ghost use Rattle.std.specs.Prelude.{◌≡◌, length};
    ghost use Rattle.std.specs.Io.{ReadsAtMost};
    ghost use Rattle.std.specs.Io.KnownBytes.{ReadConsumes};

    ghost gives = { λ before buf r now left. (length left ≡ length buf) × ReadsAtMost r left
        × ReadConsumes (R.remaining before) (R.remaining now) r left };

    fn read_once(&mut self, buf: &mut [u8]) -> io::Result<usize> {
        self.read(buf)
    }
}

impl<W: Write> WritesOnce for W {
    ghost use Rattle.std.specs.Io.{WritesAtMost};
    ghost use Rattle.std.specs.Io.KnownBytes.{WriteAppends};

    ghost gives = { λ before buf r now. WritesAtMost r buf
        × WriteAppends (W.contents before) (W.contents now) r buf };

    fn write_once(&mut self, buf: &[u8]) -> io::Result<usize> {
        self.write(buf)
    }
}

/// Reads again until a read is not interrupted, and gives that answer.
pub fn read_settled<R: ReadsOnce>(reader: &mut R, buf: &mut [u8]) -> io::Result<usize>
    ensures { Settles R.gives TRIES reader.old buf.old reader.new buf.new result }
{
    'tries: for _ in 0..TRIES {
        match reader.read_once(buf) {
            Err(error) if is_interrupted(&error) => {}
            answer => return answer,
        }
    }
    Err(io::Error::from(ErrorKind::TimedOut))
}

/// Writes again until a write is not interrupted, and gives that answer.
pub fn write_settled<W: WritesOnce>(writer: &mut W, buf: &[u8]) -> io::Result<usize>
    ensures { Settles (writing W.gives) TRIES writer.old buf.now writer.new buf.now result }
{
    'tries: for _ in 0..TRIES {
        match writer.write_once(buf) {
            Err(error) if is_interrupted(&error) => {}
            answer => return answer,
        }
    }
    Err(io::Error::from(ErrorKind::TimedOut))
}

/// One read of the reader. An interruption is never the answer.
pub fn read_uninterrupted<R: Read>(reader: &mut R, buf: &mut [u8]) -> io::Result<usize>
    ensures bound { ReadsAtMost result buf.new }
    ensures bytes { ReadConsumes (R.remaining reader.old) (R.remaining reader.new) result buf.new }
    ensures retried { IfErr result (λ e. error_kind e ≢ Interrupted) }
{
    read_settled(reader, buf)
}

// The answer of a write of something: to take nothing of it is an error.
fn some_taken(answer: io::Result<usize>) -> io::Result<usize>
    ensures { MatchResult result (λ n. (answer ≡ Ok n) × (0 < n))
        (λ e. (answer ≡ Err e) ⊎ ((answer ≡ Ok 0) × (error_kind e ≡ WriteZero))) }
{
    match answer {
        Ok(0) => Err(io::Error::from(ErrorKind::WriteZero)),
        answer => answer,
    }
}

/// One write to the writer, and none of an empty buffer. An interruption is never the answer, and
/// to take nothing of something is an error.
pub fn write_uninterrupted<W: Write>(writer: &mut W, buf: &[u8]) -> io::Result<usize>
    ensures bound { WritesAtMost result buf.now }
    ensures takes { 0 < length buf.now → IfOk result (λ n. 0 < n) }
    ensures nothing { length buf.now ≡ 0 → (result ≡ Ok 0) × (writer.new ≡ writer.old) }
    ensures bytes { WriteAppends (W.contents writer.old) (W.contents writer.new) result buf.now }
    ensures retried { IfErr result (λ e. error_kind e ≢ Interrupted) }
{
    if buf.is_empty() {
        return Ok(0);
    }
    some_taken(write_settled(writer, buf))
}
