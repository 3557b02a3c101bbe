//! What a run says on the way: the lines, and how one is written.

ghost use Rattle.std.specs.Prelude.{◌≡◌, ◌+◌, ◌≤◌, ◌++◌, ◌∷◌, [], length, decimal};
ghost use Rattle.sip_cli.specs.Telling.{Says, from_line, reply_line, stream_line};

use arrayvec::ArrayVec;
use sip_ports::{Sink, write_whole};
use sip_stream::text::{put, put_number};
use std::time::Clock;

/// Behind so many bytes more the next line is due.
pub(crate) const STEP: u64 = 1 << 26;

/// And so many seconds behind the last one, where fewer bytes come.
pub(crate) const PAUSE: u64 = 3;

const MEBIBYTE: u64 = 1 << 20;

/// No line of progress is longer.
const ROOM: usize = 256;

/// The line before TO is opened, which waits where it is a FIFO.
pub const OPENING_TO: &str = "sip: progress: waiting for the other side at TO\n";

/// The line before FROM is opened.
pub const OPENING_FROM: &str = "sip: progress: waiting for the other side at FROM\n";

// A line of two numbers, with a text before, between and behind them.
fn with_two(text: &[u8], number: u64, between: &[u8], other: u64, rest: &[u8]) -> ArrayVec<u8, ROOM>
    requires first { length text.now ≤ 60 }
    requires middle { length between.now ≤ 60 }
    requires last { length rest.now ≤ 60 }
    ensures { result.items ≡ text.now ++ decimal number ++ between.now ++ decimal other
        ++ rest.now ++ 10 ∷ [] }
{
    let mut gathered = ArrayVec::new();
    put(&mut gathered, text);
    put_number(&mut gathered, number);
    put(&mut gathered, between);
    put_number(&mut gathered, other);
    put(&mut gathered, rest);
    put(&mut gathered, b"\n");
    gathered
}

/// The line where so many bytes and records of the stream were read.
pub(crate) fn stream_line(bytes: u64, records: u64) -> ArrayVec<u8, ROOM>
    ensures { result.items ≡ stream_line bytes records }
{
    with_two(
        b"sip: progress: ",
        bytes / MEBIBYTE,
        b" MiB of STREAM read, ",
        records,
        b" records",
    )
}

/// The line before the first bytes of a reply come.
pub(crate) fn reply_line(query: u8, round: u8) -> ArrayVec<u8, ROOM>
    ensures { result.items ≡ reply_line query round }
{
    with_two(
        b"sip: progress: waiting for the reply of query ",
        query as u64,
        b" round ",
        round as u64,
        b"",
    )
}

/// The line of a side that answers, where so many bytes of the other side were heard.
pub(crate) fn from_line(bytes: u64) -> ArrayVec<u8, ROOM>
    ensures { result.items ≡ from_line bytes }
{
    let mut gathered = ArrayVec::new();
    put(
        &mut gathered,
        b"sip: progress: waiting for the other side, ",
    );
    put_number(&mut gathered, bytes / MEBIBYTE);
    put(&mut gathered, b" MiB of FROM read");
    put(&mut gathered, b"\n");
    gathered
}

/// What takes the lines of a run that says how far it is, and the clock that says when one is late.
#[derive(Drop)]
pub struct Lines<W: Sink + Drop, C: Clock + Drop> {
    /// What takes the lines.
    pub sink: W,
    /// The clock, of which the monotonic time counts.
    pub clock: C,
}

impl<W: Sink + Drop, C: Clock + Drop> Lines<W, C> {
    /// The second that the clock says; 0 where it cannot be read.
    pub(crate) fn second(&self) -> u64 {
        match self.clock.monotonic() {
            Ok(time) => time.as_secs(),
            Err(_) => 0,
        }
    }
}

/// Writes a line. That it could not be written changes nothing.
pub(crate) fn say<W: Sink>(lines: &mut W, line: &[u8])
    ensures { Says W.talk W.faults W.wants W.is_sure lines.old lines.new line.now }
{
    let _ = write_whole(lines, line);
}
