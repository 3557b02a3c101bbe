//! A source that says on the way how much of the stream was read.

ghost use Rattle.std.specs.Prelude.{◌≡◌, ℕ, ◌≤◌, IfSome, MatchOption, Some, None};
ghost use Rattle.std.specs.Prelude.{OnOk, OnErr, length, take};
ghost use Rattle.std.specs.Io.{ReadsAtMost, StartsWith};
ghost use Rattle.std.specs.Option.{option_copied, option_map};
ghost use Rattle.std.specs.Io.KnownBytes.{Consumes, ReadConsumes};
ghost use Rattle.sip_ports.specs.Ports.{HasCause, StandsStill};
ghost use Rattle.sip_cli.specs.Telling.{IfTold, Says};
ghost use Rattle.sip_cli.specs.ToldStream.{TellsRead, TellsSkip, feeds_in, is_due, line_before};
ghost use Rattle.sip_cli.specs.ToldStream.{line_said, read_more, records_in, stream_form};
ghost use Rattle.sip_cli.specs.ToldStream.{stream_teller, told_source, unread};

use crate::progress::{Lines, PAUSE, STEP, say, stream_line};
use sip_ports::{PortStop, Sink, Source};
use sip_stream::Form;
use sip_words::Command;
use std::time::Clock;

// The form of a command's stream.
fn form_of(command: &Command) -> Form
    ensures { result ≡ stream_form command.now }
{
    match command {
        Command::Verify(task) | Command::Play(task, _) | Command::Panel(task, _) => task.form,
        Command::Gen { depth } => Form::made(*depth),
        Command::Audit { form }
        | Command::Lines { form, .. }
        | Command::Widen { form, .. }
        | Command::Serve { form } => *form,
        Command::Lookup(task) => task.form,
        Command::Moments(task) => task.form,
        Command::Help
        | Command::HelpLook
        | Command::HelpMoments
        | Command::Show
        | Command::Convert => Form::Binary,
    }
}

// How many line feeds there are among the bytes.
fn line_feeds(bytes: &[u8]) -> u64
    ensures { result ≡ feeds_in Form.Text bytes.now }
{
    let mut count = 0;
    for byte in bytes {
        if *byte == b'\n' {
            count += 1;
        }
    }
    count
}

/// How much of a stream in a form was read, and at how many bytes, or at which second, the next
/// line is due.
#[derive(Clone, Copy, Debug, PartialEq, Eq)]
struct Reading {
    form: Form,
    bytes: u64,
    feeds: u64,
    next: u64,
    late: u64,
}

impl Reading {
    // Whether a line is due at this second.
    fn is_due(&self, now: u64) -> bool
        ensures { result ≡ is_due now self.now }
    {
        self.next <= self.bytes || self.late <= now
    }

    // How many whole records were read.
    fn records(&self) -> u64
        ensures { result ≡ records_in self.now.form self.now.bytes self.now.feeds }
    {
        match self.form {
            Form::Binary => self.bytes / 13,
            Form::Text => self.feeds,
            Form::Wide => self.bytes / 17,
        }
    }

    // How many of these bytes end a record of a text.
    fn feeds_among(&self, bytes: &[u8]) -> u64
        ensures { result ≡ feeds_in self.now.form bytes.now }
    {
        match self.form {
            Form::Text => line_feeds(bytes),
            Form::Binary | Form::Wide => 0,
        }
    }

    // These bytes more were read.
    fn add(&mut self, bytes: &[u8])
        ensures { self.new ≡ read_more bytes.now self.old }
    {
        self.feeds = self.feeds.saturating_add(self.feeds_among(bytes));
        self.bytes = self.bytes.saturating_add(bytes.len() as u64);
    }
}

/// What says the lines about a stream.
#[derive(Drop)]
struct StreamTeller<W: Sink + Drop, C: Clock + Drop> {
    lines: Lines<W, C>,
    reading: Reading,
}

impl<W: Sink + Drop, C: Clock + Drop> StreamTeller<W, C> {
    // Writes the line before bytes are moved, if one is due at this second.
    fn before_move(&mut self, now: u64)
        ensures said { Says W.talk W.faults W.wants W.is_sure self.old.lines.sink
            self.new.lines.sink (line_before now self.old.reading) }
        ensures next { self.new.reading ≡ line_said now self.old.reading }
    {
        if self.reading.is_due(now) {
            let line = stream_line(self.reading.bytes, self.reading.records());
            say(&mut self.lines.sink, line.as_slice());
            self.reading.next = self.reading.bytes.saturating_add(STEP);
            self.reading.late = now.saturating_add(PAUSE);
        }
    }
}

/// A source that says on the way how much was read of the stream that it brings: before the first
/// call that moves bytes, and before one where 64 MiB or more were moved since the last line, or
/// where its clock is three seconds or more behind that. It gives what its own source gives, and
/// with nothing to say the lines on it counts nothing.
#[derive(Drop)]
pub struct ToldSource<S: Source + Drop, W: Sink + Drop, C: Clock + Drop> {
    source: S,
    teller: Option<StreamTeller<W, C>>,
}

impl<S: Source + Drop, W: Sink + Drop, C: Clock + Drop> ToldSource<S, W, C> {
    /// A source over the one that brings the stream of the command, and what takes the lines.
    pub fn new(command: &Command, source: S, lines: Option<Lines<W, C>>) -> Self
        ensures source { told_source result ≡ source }
        ensures teller { MatchOption (stream_teller result) (lines ≡ None)
            (λ teller. (lines ≡ Some teller.lines)
            × (teller.reading ≡ unread (stream_form command.now))) }
    {
        let teller = match lines {
            Some(lines) => Some(StreamTeller {
                lines,
                reading: Reading {
                    form: form_of(command),
                    bytes: 0,
                    feeds: 0,
                    next: 0,
                    late: 0,
                },
            }),
            None => None,
        };
        ToldSource { source, teller }
    }

    /// The source that it reads.
    pub fn source(&self) -> &S
        ensures { result.now ≡ told_source self.now }
    {
        &self.source
    }

    /// What took the lines.
    pub fn lines(&self) -> Option<&W>
        ensures { option_copied result
            ≡ option_map (λ teller. teller.lines.sink) (stream_teller self.now) }
    {
        Some(&self.teller.as_ref()?.lines.sink)
    }

    // The second that the clock says, where lines are to be said.
    fn second(&self) -> u64 {
        match &self.teller {
            Some(teller) => teller.lines.second(),
            None => 0,
        }
    }

    // Writes the line before bytes are moved, if one is due at this second.
    fn before_move(&mut self, now: u64)
        ensures source { self.new.source ≡ self.old.source }
        ensures told { IfTold self.old.teller self.new.teller (λ old new.
            Says W.talk W.faults W.wants W.is_sure old.lines.sink new.lines.sink
            (line_before now old.reading)
            × (new.reading ≡ line_said now old.reading)) }
    {
        if let Some(teller) = &mut self.teller {
            teller.before_move(now);
        }
    }

    // Counts bytes that were read.
    fn passed(&mut self, bytes: &[u8])
        ensures source { self.new.source ≡ self.old.source }
        ensures told { IfTold self.old.teller self.new.teller (λ old new. (new.lines ≡ old.lines)
            × (new.reading ≡ read_more bytes.now old.reading)) }
    {
        if let Some(teller) = &mut self.teller {
            teller.reading.add(bytes);
        }
    }
}

/// What its own source tells it tells.
impl<S: Source + Drop, W: Sink + Drop, C: Clock + Drop> Source for ToldSource<S, W, C> {
    ghost use Rattle.sip_cli.specs.ToldStream.{told_source};

    ghost left = { λ told. S.left (told_source told) };

    ghost ahead = { λ told. S.ahead (told_source told) };

    ghost faults = { λ told. S.faults (told_source told) };

    ghost wants = { λ told. S.wants (told_source told) };

    ghost is_sure = { λ told. S.is_sure (told_source told) };

    ghost faults_fit = { λ told. S.faults_fit (told_source told) };

    ghost wants_fit = { λ told. S.wants_fit (told_source told) };

    ghost sure_counts = { λ told sure. S.sure_counts (told_source told) sure };

    fn read(&mut self, buf: &mut [u8]) -> Result<usize, PortStop>
        ensures bound { ReadsAtMost result buf.new }
        ensures bytes { ReadConsumes (S.left (told_source self.old))
            (S.left (told_source self.new)) result buf.new }
        ensures kept { OnErr result
            (S.ahead (told_source self.new) ≡ S.ahead (told_source self.old)) }
        ensures empty { length buf.old ≡ 0 → OnOk result (StandsStill S.faults S.wants
            (told_source self.old) (told_source self.new)) }
        ensures cause { HasCause S.faults S.wants S.is_sure
            (told_source self.old) (told_source self.new) result }
        ensures told { (now : ℕ) × IfTold (stream_teller self.old) (stream_teller self.new)
            (TellsRead W.talk W.faults W.wants W.is_sure now result buf.new) }
    {
        let now = self.second();
        self.before_move(now);
        let count = self.source.read(buf)?;
        self.passed(&buf[..count]);
        Ok(count)
    }

    fn held(&self) -> &[u8]
        ensures bytes { result.now ≡ S.ahead (told_source self.now) }
        ensures front { IfSome (S.left (told_source self.now))
            (λ bytes. StartsWith bytes result.now) }
    {
        self.source.held()
    }

    fn skip(&mut self, count: usize)
        requires held { count ≤ length (S.ahead (told_source self.old)) }
        ensures bytes { Consumes (S.left (told_source self.old)) (S.left (told_source self.new))
            (take count (S.ahead (told_source self.old))) }
        ensures counts { StandsStill S.faults S.wants
            (told_source self.old) (told_source self.new) }
        ensures sure { S.is_sure (told_source self.old) → S.is_sure (told_source self.new) }
        ensures told { (now : ℕ) × IfTold (stream_teller self.old) (stream_teller self.new)
            (TellsSkip W.talk W.faults W.wants W.is_sure now
            (take count (S.ahead (told_source self.old)))) }
    {
        let now = self.second();
        self.before_move(now);
        if let Some(teller) = &mut self.teller {
            teller.reading.add(&self.source.held()[..count]);
        }
        self.source.skip(count);
    }
}
