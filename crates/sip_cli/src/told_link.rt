//! A link that says on the way which reply it waits for.

ghost use Rattle.std.specs.Prelude.{◌≡◌, ℕ, ◌≤◌, ◌<◌, IfOk, Some, None, OnOk};
ghost use Rattle.std.specs.Prelude.{MatchOption, length};
ghost use Rattle.std.specs.Io.{ReadsAtMost, WritesAtMost};
ghost use Rattle.std.specs.Option.{option_copied, option_map};
ghost use Rattle.sip_ports.specs.Ports.{HasCause, Hears, Sends, StandsStill};
ghost use Rattle.sip_vector.specs.declared.query.Query.{Query as AnyQuery};
ghost use Rattle.sip_wire.specs.Table.{most_queries};
ghost use Rattle.sip_cli.specs.Telling.{IfTold, Says};
ghost use Rattle.sip_cli.specs.ToldTalk.{BeginsFrame, IsAsk, IsFrameOf, IsNumber, IsScript};
ghost use Rattle.sip_cli.specs.ToldTalk.{SendsOn, TellsReceive, TellsWrite, awaits, heard_more};
ghost use Rattle.sip_cli.specs.ToldTalk.{hears_on, line_before, line_said, talk_teller, told_link};
ghost use Rattle.sip_cli.specs.ToldTalk.{unsaid};

use crate::progress::{Lines, PAUSE, STEP, from_line, reply_line, say};
use arrayvec::ArrayVec;
use sip_ports::{Link, PortStop, Sink};
use sip_vector::Query;
use sip_wire::{MOST_QUERIES, Message, Place, Version, frame_length, read};
use sip_words::Command;
use std::time::Clock;

/// The first byte of the frame of a query.
const QUERY: u8 = 0x04;

/// The first byte of the frame that asks a lookup.
const ASK_LOOKUP: u8 = 0x21;

/// The first byte of the frame that asks a moment.
const ASK_MOMENT: u8 = 0x24;

/// The first byte of the frame of a challenge.
const CHALLENGE: u8 = 0x05;

/// The least length of a frame.
const SHORTEST: usize = 3;

// The query whose frame these bytes are. A message is as large as the longest frame's rows, so it
// is made in a call of its own.
#[inline(never)]
fn query_of(version: Version, frame: &[u8]) -> Option<Query>
    ensures { MatchOption result
        ((query : AnyQuery) → IsFrameOf version frame.now query → ⊥)
        (λ query. IsFrameOf version frame.now query) }
{
    if frame.len() >= SHORTEST && frame.len() > frame_length(Place::ToHelper, version, frame) {
        return None;
    }
    match read(Place::ToHelper, version, frame) {
        Ok(Message::Query(query)) => Some(query),
        _ => None,
    }
}

// The number, from 1, of the first query behind the first `before` that is the same as this one.
fn number_among(queries: &[Query], before: u8, query: &Query) -> Option<u8>
    requires { length queries.now ≤ most_queries }
    ensures { MatchOption result
        ((n : ℕ) → IsNumber queries.now before query.now n → ⊥)
        (λ n. IsNumber queries.now before query.now n) }
{
    for index in before as usize..queries.len() {
        if queries[index] == *query {
            return Some(index as u8 + 1);
        }
    }
    None
}

// The same queries.
fn copied(queries: &[Query]) -> ArrayVec<Query, MOST_QUERIES>
    requires { length queries.now ≤ most_queries }
    ensures { result.items ≡ queries.now }
{
    let mut copy = ArrayVec::new();
    let _fits = copy.try_extend_from_slice(queries);
    copy
}

/// What is asked over a link, in a version of its frames.
#[derive(Drop)]
struct Script {
    version: Version,
    queries: ArrayVec<Query, MOST_QUERIES>,
}

impl Script {
    // What a command asks over a link.
    fn of(command: &Command) -> Script
        ensures { IsScript command.now result }
    {
        match command {
            Command::Verify(task) => Script {
                version: task.version(),
                queries: copied(&task.queries),
            },
            _ => Script {
                version: Version::One,
                queries: ArrayVec::new(),
            },
        }
    }

    // The number of the query that this frame asks, behind the first `before`.
    fn number(&self, before: u8, frame: &[u8]) -> Option<u8>
        ensures { MatchOption result
            ((n : ℕ) → IsAsk self.now before frame.now n → ⊥)
            (λ n. IsAsk self.now before frame.now n) }
    {
        let query = query_of(self.version, frame)?;
        number_among(&self.queries, before, &query)
    }
}

/// Where a talk is, by the frames that were sent and the bytes that were heard.
#[derive(Clone, Copy, Debug, PartialEq, Eq)]
struct Turn {
    // The number of the query, the lookup or the moment that was asked last, from 1; 0 before the
    // first.
    query: u8,
    // The round of the reply that was asked for last.
    round: u8,
    // No receive of that reply was made yet.
    is_due: bool,
    // How many bytes of the frame under way are still to be sent.
    rest: usize,
    // How many bytes were heard, and at how many, or at which second, the next line of a side that
    // answers is due.
    heard: u64,
    next: u64,
    late: u64,
}

impl Turn {
    // Before anything is said.
    fn unsaid() -> Turn
        ensures { result ≡ unsaid }
    {
        Turn {
            query: 0,
            round: 0,
            is_due: false,
            rest: 0,
            heard: 0,
            next: 0,
            late: 0,
        }
    }

    // The reply of a round to the query of a number comes next.
    fn await_reply(&mut self, query: u8, round: u8)
        ensures { self.new ≡ awaits query round self.old }
    {
        self.query = query;
        self.round = round;
        self.is_due = true;
    }

    // A frame begins.
    fn begin(&mut self, script: &Script, frame: &[u8])
        ensures { BeginsFrame script.now frame.now self.old self.new }
    {
        match frame.first() {
            Some(&QUERY) => {
                if let Some(number) = script.number(self.query, frame) {
                    self.await_reply(number, 0);
                }
            }
            // Lookups and moments are asked each in its turn, and none is left out.
            Some(&ASK_LOOKUP | &ASK_MOMENT) => self.await_reply(self.query.saturating_add(1), 0),
            Some(&CHALLENGE) => self.await_reply(self.query, self.round.saturating_add(1)),
            _ => {}
        }
    }

    // So many bytes of the buffer were sent: of the frame under way, or of one that is all of it.
    fn sent(&mut self, script: &Script, buf: &[u8], count: usize)
        ensures { SendsOn script.now buf.now count self.old self.new }
    {
        if self.rest == 0 {
            self.begin(script, buf);
            self.rest = buf.len();
        }
        self.rest = self.rest.saturating_sub(count);
    }

    // Whether the line of a side that answers is due at this second.
    fn hears_on(&self, now: u64) -> bool
        ensures { result ≡ hears_on now self.now }
    {
        !self.is_due && self.query == 0 && (self.next <= self.heard || self.late <= now)
    }

    // So many bytes more were heard.
    fn hear(&mut self, count: usize)
        ensures { self.new ≡ heard_more count self.old }
    {
        self.heard = self.heard.saturating_add(count as u64);
    }
}

/// What says the lines about a talk.
#[derive(Drop)]
struct TalkTeller<W: Sink + Drop, C: Clock + Drop> {
    lines: Lines<W, C>,
    script: Script,
    turn: Turn,
}

impl<W: Sink + Drop, C: Clock + Drop> TalkTeller<W, C> {
    // Writes the line before a receive, if one is due at this second.
    fn before_receive(&mut self, now: u64)
        ensures said { Says W.talk W.faults W.wants W.is_sure self.old.lines.sink
            self.new.lines.sink (line_before now self.old.turn) }
        ensures turn { self.new.turn ≡ line_said now self.old.turn }
        ensures script { self.new.script ≡ self.old.script }
    {
        if self.turn.is_due {
            let line = reply_line(self.turn.query, self.turn.round);
            say(&mut self.lines.sink, line.as_slice());
            self.turn.is_due = false;
        } else if self.turn.hears_on(now) {
            let line = from_line(self.turn.heard);
            say(&mut self.lines.sink, line.as_slice());
            self.turn.next = self.turn.heard.saturating_add(STEP);
            self.turn.late = now.saturating_add(PAUSE);
        }
    }
}

/// A link that says before the first receive of each reply which one it waits for: the number of
/// the query, the lookup or the moment, and the round, as the line of a rejection has them. A side
/// that asks nothing says how much it heard, before its first receive, where 64 MiB or more came
/// since its last line, and where its clock is three seconds or more behind that.
///
/// It passes on what its own link gives. It takes what is written first, and whatever is written
/// where a frame ended, for the bytes of one frame; they may be sent in any pieces.
#[derive(Drop)]
pub struct ToldLink<L: Link + Drop, W: Sink + Drop, C: Clock + Drop> {
    link: L,
    teller: Option<TalkTeller<W, C>>,
}

impl<L: Link + Drop, W: Sink + Drop, C: Clock + Drop> ToldLink<L, W, C> {
    /// A link over the one of the command, and what takes the lines.
    pub fn new(command: &Command, link: L, lines: Option<Lines<W, C>>) -> Self
        ensures link { told_link result ≡ link }
        ensures teller { MatchOption (talk_teller result) (lines ≡ None)
            (λ teller. (lines ≡ Some teller.lines) × IsScript command.now teller.script
            × (teller.turn ≡ unsaid)) }
    {
        let teller = match lines {
            Some(lines) => Some(TalkTeller {
                lines,
                script: Script::of(command),
                turn: Turn::unsaid(),
            }),
            None => None,
        };
        ToldLink { link, teller }
    }

    /// The link that it uses.
    pub fn link(&self) -> &L
        ensures { result.now ≡ told_link self.now }
    {
        &self.link
    }

    /// What took the lines.
    pub fn lines(&self) -> Option<&W>
        ensures { option_copied result
            ≡ option_map (λ teller. teller.lines.sink) (talk_teller self.now) }
    {
        Some(&self.teller.as_ref()?.lines.sink)
    }

    // The second that the clock says, where lines are to be said.
    fn second(&self) -> u64 {
        match &self.teller {
            Some(teller) => teller.lines.second(),
            None => 0,
        }
    }

    // Writes the line before a receive, if one is due at this second.
    fn before_receive(&mut self, now: u64)
        ensures link { self.new.link ≡ self.old.link }
        ensures told { IfTold self.old.teller self.new.teller (λ old new.
            Says W.talk W.faults W.wants W.is_sure old.lines.sink new.lines.sink
            (line_before now old.turn)
            × (new.turn ≡ line_said now old.turn) × (new.script ≡ old.script)) }
    {
        if let Some(teller) = &mut self.teller {
            teller.before_receive(now);
        }
    }
}

/// What its own link tells it tells.
impl<L: Link + Drop, W: Sink + Drop, C: Clock + Drop> Sink for ToldLink<L, W, C> {
    ghost use Rattle.sip_cli.specs.ToldTalk.{told_link};

    ghost talk = { λ told. L.talk (told_link told) };

    ghost faults = { λ told. L.faults (told_link told) };

    ghost wants = { λ told. L.wants (told_link told) };

    ghost is_sure = { λ told. L.is_sure (told_link told) };

    ghost faults_fit = { λ told. L.faults_fit (told_link told) };

    ghost wants_fit = { λ told. L.wants_fit (told_link told) };

    ghost sure_counts = { λ told sure. L.sure_counts (told_link told) sure };

    fn write(&mut self, buf: &[u8]) -> Result<usize, PortStop>
        ensures bound { WritesAtMost result buf.now }
        ensures takes { 0 < length buf.now → IfOk result (λ n. 0 < n) }
        ensures talk { Sends (L.talk (told_link self.old)) (L.talk (told_link self.new))
            result buf.now }
        ensures empty { length buf.now ≡ 0 → OnOk result (StandsStill L.faults L.wants
            (told_link self.old) (told_link self.new)) }
        ensures cause { HasCause L.faults L.wants L.is_sure
            (told_link self.old) (told_link self.new) result }
        ensures told { IfTold (talk_teller self.old) (talk_teller self.new)
            (TellsWrite result buf.now) }
    {
        let count = self.link.write(buf)?;
        if let Some(teller) = &mut self.teller {
            teller.turn.sent(&teller.script, buf, count);
        }
        Ok(count)
    }
}

impl<L: Link + Drop, W: Sink + Drop, C: Clock + Drop> Link for ToldLink<L, W, C> {
    fn recv(&mut self, buf: &mut [u8]) -> Result<usize, PortStop>
        ensures bound { ReadsAtMost result buf.new }
        ensures talk { Hears (L.talk (told_link self.old)) (L.talk (told_link self.new))
            result buf.new }
        ensures empty { length buf.old ≡ 0 → OnOk result (StandsStill L.faults L.wants
            (told_link self.old) (told_link self.new)) }
        ensures cause { HasCause L.faults L.wants L.is_sure
            (told_link self.old) (told_link self.new) result }
        ensures told { (now : ℕ) × IfTold (talk_teller self.old) (talk_teller self.new)
            (TellsReceive W.talk W.faults W.wants W.is_sure now result) }
    {
        let now = self.second();
        self.before_receive(now);
        let count = self.link.recv(buf)?;
        if let Some(teller) = &mut self.teller {
            teller.turn.hear(count);
        }
        Ok(count)
    }
}
