//! What a link keeps of its talk.

ghost use Rattle.std.specs.Prelude.{◌≡◌, ◌≤◌, ◌<◌, ◌++◌, ◌∷◌, ◌+◌, [], length, take, drop, OnOk};
ghost use Rattle.std.specs.Prelude.{OnErr, IfOk, MatchResult, vec_len, vec_capacity};
ghost use Rattle.sip_ports.specs.Memory.{sink_bytes, sink_is_sure};
ghost use Rattle.sip_ports.specs.Ports.{outs, ins, heard};
ghost use Rattle.sip_ports.specs.declared.port.TalkEvent.TheVariants.{Ended};
ghost use Rattle.sip_wire.specs.Frames.{frame_bytes, frame_message};
ghost use Rattle.sip_wire.specs.Spelling.{asked};
ghost use Rattle.sip_wire.specs.Taking.{room_for};
ghost use Rattle.sip_wire.specs.declared.kind.Place.TheVariants as places;
ghost use Rattle.sip_wire.specs.declared.version.Version.TheVariants as versions;
ghost use Rattle.sip_duel.specs.Taking.{Takes, version_after};

use sip_field::OutOfMemory;
use sip_ports::{MemorySink, TalkEvent, received_events, sent_events};
use sip_wire::{Frame, Message, Place, Taken, Version};
use std::alloc::{AllocError, Global};

/// The version of the frames behind a message.
fn version_behind(version: Version, message: &Message) -> Version
    ensures { result ≡ version_after version message.now }
{
    match message {
        Message::Open {
            version: number,
            ..
        } => match Version::of(*number) {
            Some(opened) => opened,
            None => Version::One,
        },
        _ => version,
    }
}

/// Whether more may come.
#[derive(Clone, Copy, Debug, PartialEq, Eq)]
pub(crate) enum Mood {
    /// The helper may be asked.
    Open,
    /// It has ended, or bytes that are no frame were sent, or it was closed.
    Over,
    /// Memory was refused to it.
    Failed,
}

/// The talk, the part of a frame that was sent, the version of the frames, what the helper
/// appended, and how much of it was given: what was received is the front of what was appended.
#[derive(Drop)]
pub(crate) struct Kept {
    pub(crate) alloc: Global,
    pub(crate) talk: Vec<TalkEvent>,
    pub(crate) frame: Frame,
    pub(crate) version: Version,
    pub(crate) out: MemorySink,
    pub(crate) at: usize,
    pub(crate) mood: Mood,
    pub(crate) ghost within: { at ≤ length (sink_bytes out) },
    pub(crate) ghost sure: { sink_is_sure out },
    pub(crate) ghost given: { heard talk.items ≡ take at (sink_bytes out) },
    pub(crate) ghost short: { length (frame_bytes frame)
        < asked version places.ToHelper (frame_bytes frame) },
}

impl Kept {
    ghost use Rattle.sip_duel.specs.Story.{sent_part};

    /// Nothing has happened. This takes the memory that a frame may need.
    pub(crate) fn new(alloc: Global) -> Result<Kept, OutOfMemory>
        ensures talk { IfOk result (λ kept. kept.talk.items ≡ []) }
        ensures part { IfOk result (λ kept. sent_part kept ≡ []) }
        ensures version { IfOk result (λ kept. kept.version ≡ versions.One) }
        ensures out { IfOk result (λ kept. sink_bytes kept.out ≡ []) }
        ensures at { IfOk result (λ kept. kept.at ≡ 0) }
        ensures mood { IfOk result (λ kept. kept.mood ≡ Mood.Open) }
    {
        let frame = Frame::new(alloc)?;
        Ok(Kept {
            alloc,
            talk: Vec::new(alloc),
            frame,
            version: Version::One,
            out: MemorySink::new(alloc, usize::MAX, Vec::new(alloc)),
            at: 0,
            mood: Mood::Open,
        })
    }

    /// Bytes are sent, no more than the frame has room for.
    pub(crate) fn put(&mut self, bytes: &[u8]) -> Result<Taken, AllocError>
        requires { length bytes.now ≤ room_for self.old.version places.ToHelper
            (sent_part self.old) }
        ensures ok { IfOk result (λ taken. Takes self.old.version (sent_part self.old) bytes.now
            (frame_message self.new.frame) self.new.version (sent_part self.new) taken) }
        ensures err { OnErr result ((self.new.version ≡ self.old.version)
            × (sent_part self.new ≡ sent_part self.old)) }
        ensures talk { MatchResult result
            (λ _. self.new.talk.items ≡ self.old.talk.items ++ outs bytes.now)
            (λ _. self.new.talk.items ≡ self.old.talk.items) }
        ensures out { self.new.out ≡ self.old.out }
        ensures at { self.new.at ≡ self.old.at }
        ensures mood { self.new.mood ≡ self.old.mood }
    {
        let events = sent_events(self.alloc, bytes)?;
        self.talk.extend_from_slice(&events)?;
        self.frame.put(Place::ToHelper, self.version, bytes);
        let taken = self.frame.judge(Place::ToHelper, self.version);
        match taken {
            Taken::Part => {}
            Taken::Whole => {
                self.version = version_behind(self.version, self.frame.message());
                self.frame.clear();
            }
            Taken::NoFrame(_) => self.frame.clear(),
        }
        Ok(taken)
    }

    /// The message that was sent last.
    pub(crate) fn message(&self) -> &Message
        ensures { result.now ≡ frame_message self.now.frame }
    {
        self.frame.message()
    }

    /// Bytes are sent that no one hears.
    pub(crate) fn put_past(&mut self, bytes: &[u8]) -> Result<(), AllocError>
        ensures talk { MatchResult result
            (λ _. self.new.talk.items ≡ self.old.talk.items ++ outs bytes.now)
            (λ _. self.new.talk.items ≡ self.old.talk.items) }
        ensures part { sent_part self.new ≡ sent_part self.old }
        ensures version { self.new.version ≡ self.old.version }
        ensures out { self.new.out ≡ self.old.out }
        ensures at { self.new.at ≡ self.old.at }
        ensures mood { self.new.mood ≡ self.old.mood }
    {
        let events = sent_events(self.alloc, bytes)?;
        self.talk.extend_from_slice(&events)?;
        Ok(())
    }

    /// The next bytes are given.
    pub(crate) fn give(&mut self, buf: &mut [u8]) -> Result<usize, AllocError>
        requires some { self.old.at < length (sink_bytes self.old.out) }
        requires room { 0 < length buf.old }
        ensures bound { IfOk result (λ n. (0 < n) × (n ≤ length buf.new)) }
        ensures talk { MatchResult result
            (λ n. self.new.talk.items ≡ self.old.talk.items ++ ins (take n buf.new))
            (λ _. self.new.talk.items ≡ self.old.talk.items) }
        ensures left { MatchResult result
            (λ n. drop self.old.at (sink_bytes self.old.out)
            ≡ take n buf.new ++ drop self.new.at (sink_bytes self.new.out))
            (λ _. self.new.at ≡ self.old.at) }
        ensures part { sent_part self.new ≡ sent_part self.old }
        ensures version { self.new.version ≡ self.old.version }
        ensures out { self.new.out ≡ self.old.out }
        ensures mood { self.new.mood ≡ self.old.mood }
    {
        let came = &self.out.bytes()[self.at..];
        let count = came.len().min(buf.len());
        let events = received_events(self.alloc, &came[..count])?;
        buf[..count].copy_from_slice(&came[..count]);
        self.talk.extend_from_slice(&events)?;
        self.at += count;
        Ok(count)
    }

    /// The end is told for the first time. There has to be room for it.
    pub(crate) fn end(&mut self)
        requires { vec_len self.old.talk < vec_capacity self.old.talk }
        ensures talk { self.new.talk.items ≡ self.old.talk.items ++ Ended ∷ [] }
        ensures part { sent_part self.new ≡ sent_part self.old }
        ensures version { self.new.version ≡ self.old.version }
        ensures out { self.new.out ≡ self.old.out }
        ensures at { self.new.at ≡ self.old.at }
        ensures mood { self.new.mood ≡ Mood.Over }
    {
        self.mood = Mood::Over;
        let told = self.talk.push(TalkEvent::Ended).is_ok();
        prove!(told);
    }

    /// The end is told again.
    pub(crate) fn end_again(&mut self) -> Result<(), AllocError>
        ensures ok { OnOk result (self.new.talk.items ≡ self.old.talk.items ++ Ended ∷ []) }
        ensures err { OnErr result (self.new.talk.items ≡ self.old.talk.items) }
        ensures part { sent_part self.new ≡ sent_part self.old }
        ensures version { self.new.version ≡ self.old.version }
        ensures out { self.new.out ≡ self.old.out }
        ensures at { self.new.at ≡ self.old.at }
        ensures mood { self.new.mood ≡ self.old.mood }
    {
        self.talk.push(TalkEvent::Ended)?;
        Ok(())
    }

    /// There is room to tell one more event.
    pub(crate) fn reserve(&mut self) -> Result<(), AllocError>
        ensures talk { self.new.talk.items ≡ self.old.talk.items }
        ensures room { OnOk result (vec_len self.new.talk < vec_capacity self.new.talk) }
        ensures part { sent_part self.new ≡ sent_part self.old }
        ensures version { self.new.version ≡ self.old.version }
        ensures out { self.new.out ≡ self.old.out }
        ensures at { self.new.at ≡ self.old.at }
        ensures mood { self.new.mood ≡ self.old.mood }
    {
        self.talk.reserve(1)
    }
}
