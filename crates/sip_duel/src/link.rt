//! A link to a boxed helper.

ghost use Rattle.std.specs.Prelude.{◌≡◌, ◌≢◌, ◌⊎◌, ◌<◌, Ok, [], length, take, vec_len};
ghost use Rattle.std.specs.Prelude.{vec_capacity, Some, None, Option, IsTrue, IfOk, OnErr, ⊤};
ghost use Rattle.std.specs.Option.{option_and_then};
ghost use Rattle.std.specs.Io.{ReadsAtMost, WritesAtMost};
ghost use Rattle.sip_ports.specs.Memory.{sink_bytes, sink_is_sure};
ghost use Rattle.sip_ports.specs.Ports.{Hears, Sends, heard};
ghost use Rattle.sip_duel.specs.Receiving.{IsAsItWas, Receives, StopsOnlyByWant, closed};
ghost use Rattle.sip_wire.specs.Frames.{frame_message};
ghost use Rattle.sip_wire.specs.Spelling.{fits};
ghost use Rattle.sip_wire.specs.declared.version.Version.TheVariants.{Two};
ghost use Rattle.sip_helper.specs.Turns.{fresh};
ghost use Rattle.sip_duel.specs.Helping.{Hears as Heeds, IsMute, Replies};
ghost use Rattle.sip_duel.specs.Story.{HasAsked, Keeps, KeepsBy, left};
ghost use Rattle.sip_duel.specs.declared.kept.Mood.TheVariants as moods;

use crate::kept::{Kept, Mood};
use crate::wants::Wants;
use crate::{Helper, More};
use sip_field::OutOfMemory;
use sip_ports::{Link, MemorySink, PortStop, Sink, TalkEvent};
use sip_wire::{Message, Place, Taken};
use std::alloc::Global;

/// Hands a message over.
fn tell(helper: &mut Box<dyn Helper>, message: &Message)
    requires { IsTrue (fits Two message.now) }
    ensures hears { Heeds (honest_state helper.old) message.now (honest_state helper.new) }
    ensures mute { IsTrue (is_mute helper.old) → IsTrue (is_mute helper.new) }
{
    helper.hear(message);
}

/// Has the reply that is due appended.
fn reply(helper: &mut Box<dyn Helper>, out: &mut MemorySink) -> Result<More, OutOfMemory>
    requires { sink_is_sure out.old }
    ensures sure { sink_is_sure out.new }
    ensures replies { Replies (honest_state helper.old) (honest_state helper.new)
        (sink_bytes out.old) (sink_bytes out.new) result }
    ensures mute { IsTrue (is_mute helper.old)
        → (result ≡ Ok More.Ended) × IsTrue (is_mute helper.new) }
{
    helper.answer(out)
}

/// Asks a helper for its next reply, where nothing is left to give. Where it has ended, the end is
/// to be told at once.
fn ask(helper: &mut Box<dyn Helper>, kept: &mut Kept) -> Result<More, OutOfMemory>
    requires opened { kept.old.mood ≡ moods.Open }
    requires none { kept.old.at ≡ length (sink_bytes kept.old.out) }
    ensures talk { kept.new.talk ≡ kept.old.talk }
    ensures at { kept.new.at ≡ kept.old.at }
    ensures some { HasAsked kept.old kept.new result }
    ensures keeps { Keeps (honest_state helper.old) kept.old
        → KeepsBy (honest_state helper.new) kept.new result }
    ensures mute { IsTrue (is_mute helper.old) → IsTrue (is_mute helper.new)
        × (sink_bytes kept.new.out ≡ sink_bytes kept.old.out) }
{
    match reply(helper, &mut kept.out) {
        Ok(more) => Ok(more),
        Err(e) => {
            kept.mood = Mood::Failed;
            Err(e)
        }
    }
}

/// Closes a helper, and drops it.
fn let_go(helper: Box<dyn Helper>) {
    let mut helper = helper;
    helper.close();
}

/// A link to a helper that its maker boxed.
///
/// It reads the frames that are sent, in version 1 up to an opening and in the version of the
/// opening behind it, and hands each whole one to the helper. It asks the helper only in a receive
/// into a buffer with room, at most once in that call, and only where all that was appended is
/// given. It ends where the helper does, where the bytes that are sent are no frame, or where it is
/// closed. Where memory is refused to the helper, each later receive answers that.
#[derive(Drop)]
pub struct HelperLink {
    helper: Option<Box<dyn Helper>>,
    kept: Kept,
    wants: Wants,
}

impl HelperLink {
    /// A link to this helper, on which nothing has happened. Where memory is refused the helper is
    /// closed and dropped.
    pub fn new(alloc: Global, helper: Box<dyn Helper>) -> Result<HelperLink, OutOfMemory>
        ensures talk { IfOk result (λ link. link.kept.talk.items ≡ []) }
        ensures opened { IfOk result (λ link. link.kept.mood ≡ moods.Open) }
        ensures silent { IfOk result (λ link. sink_bytes link.kept.out ≡ []) }
        ensures wants { IfOk result (λ link. link.wants.count ≡ 0) }
        ensures helper { IfOk result (λ link. link.helper ≡ Some helper) }
        ensures promise { honest_state helper ≡ Some fresh
            → IfOk result (λ link. Keeps (option_and_then honest_state link.helper) link.kept) }
    {
        match Kept::new(alloc) {
            Ok(kept) => Ok(HelperLink {
                helper: Some(helper),
                kept,
                wants: Wants::none(),
            }),
            Err(_) => {
                let_go(helper);
                Err(OutOfMemory)
            }
        }
    }

    /// All that has happened on it. What was received is the front of what the helper appended.
    pub fn talk(&self) -> &[TalkEvent]
        ensures events { result.now ≡ self.now.kept.talk.items }
        ensures given { heard result.now
            ≡ take self.now.kept.at (sink_bytes self.now.kept.out) }
    {
        &self.kept.talk
    }

    /// Closes the helper and drops it, once. The talk stays, and so does what the helper appended.
    pub fn close_and_drop(&mut self)
        ensures talk { self.new.kept.talk ≡ self.old.kept.talk }
        ensures gone { self.new.helper ≡ None }
        ensures mood { self.new.kept.mood ≡ closed self.old.kept.mood }
        ensures wants { self.new.wants ≡ self.old.wants }
        ensures given { (self.new.kept.out ≡ self.old.kept.out)
            × (self.new.kept.at ≡ self.old.kept.at) }
    {
        if let Mood::Open = self.kept.mood {
            self.kept.mood = Mood::Over;
        }
        if let Some(helper) = self.helper.take() {
            let_go(helper);
        }
    }

    /// Hands the message that was sent last over, where the helper is still there.
    fn hear(&mut self)
        requires { IsTrue (fits Two (frame_message self.old.kept.frame)) }
        ensures kept { self.new.kept ≡ self.old.kept }
        ensures wants { self.new.wants ≡ self.old.wants }
        ensures hears { Heeds (option_and_then honest_state self.old.helper)
            (frame_message self.old.kept.frame) (option_and_then honest_state self.new.helper) }
        ensures mute { IsMute is_mute self.old.helper → IsMute is_mute self.new.helper }
    {
        if let Some(helper) = &mut self.helper {
            tell(helper, self.kept.message());
        }
    }

    /// Sends what the frame still takes of these bytes, where the helper may hear it.
    fn send(&mut self, buf: &[u8]) -> Result<usize, PortStop>
        requires opened { self.old.kept.mood ≡ moods.Open }
        requires some { 0 < length buf.now }
        ensures bound { WritesAtMost result buf.now }
        ensures takes { IfOk result (λ n. 0 < n) }
        ensures talk { Sends (Some self.old.kept.talk.items) (Some self.new.kept.talk.items)
            result buf.now }
        ensures wants { StopsOnlyByWant self.old.wants.count self.new.wants.count result }
        ensures given { (self.new.kept.out ≡ self.old.kept.out)
            × (self.new.kept.at ≡ self.old.kept.at) }
        ensures well { self.new.kept.mood ≢ moods.Failed }
        ensures same { OnErr result (IsAsItWas self.old.kept self.new.kept
            × (self.new.helper ≡ self.old.helper)) }
        ensures keeps { Keeps (option_and_then honest_state self.old.helper) self.old.kept
            → Keeps (option_and_then honest_state self.new.helper) self.new.kept }
        ensures mute { IsMute is_mute self.old.helper → IsMute is_mute self.new.helper }
    {
        let room = self.kept.frame.room(Place::ToHelper, self.kept.version);
        let count = room.min(buf.len());
        match self.kept.put(&buf[..count]) {
            Ok(Taken::Part) => Ok(count),
            Ok(Taken::Whole) => {
                self.hear();
                Ok(count)
            }
            Ok(Taken::NoFrame(_)) => {
                self.kept.mood = Mood::Over;
                Ok(count)
            }
            Err(_) => Err(self.wants.refused()),
        }
    }

    /// Sends bytes that no one hears any more.
    fn send_past(&mut self, buf: &[u8]) -> Result<usize, PortStop>
        requires shut { self.old.kept.mood ≢ moods.Open }
        ensures bound { WritesAtMost result buf.now }
        ensures takes { 0 < length buf.now → IfOk result (λ n. 0 < n) }
        ensures talk { Sends (Some self.old.kept.talk.items) (Some self.new.kept.talk.items)
            result buf.now }
        ensures wants { StopsOnlyByWant self.old.wants.count self.new.wants.count result }
        ensures given { (self.new.kept.out ≡ self.old.kept.out)
            × (self.new.kept.at ≡ self.old.kept.at) }
        ensures mood { self.new.kept.mood ≡ self.old.kept.mood }
        ensures helper { self.new.helper ≡ self.old.helper }
        ensures same { OnErr result (IsAsItWas self.old.kept self.new.kept) }
        ensures keeps { Keeps (option_and_then honest_state self.old.helper) self.old.kept
            → Keeps (option_and_then honest_state self.new.helper) self.new.kept }
        ensures mute { IsMute is_mute self.old.helper → IsMute is_mute self.new.helper }
    {
        match self.kept.put_past(buf) {
            Ok(()) => Ok(buf.len()),
            Err(_) => Err(self.wants.refused()),
        }
    }

    /// Asks the helper, where nothing is left to give.
    fn fill(&mut self) -> Result<More, OutOfMemory>
        requires opened { self.old.kept.mood ≡ moods.Open }
        requires none { self.old.kept.at ≡ length (sink_bytes self.old.kept.out) }
        ensures talk { self.new.kept.talk ≡ self.old.kept.talk }
        ensures at { self.new.kept.at ≡ self.old.kept.at }
        ensures wants { self.new.wants ≡ self.old.wants }
        ensures some { HasAsked self.old.kept self.new.kept result }
        ensures keeps { Keeps (option_and_then honest_state self.old.helper) self.old.kept
            → KeepsBy (option_and_then honest_state self.new.helper) self.new.kept result }
        ensures mute { IsMute is_mute self.old.helper → IsMute is_mute self.new.helper
            × (sink_bytes self.new.kept.out ≡ sink_bytes self.old.kept.out) }
    {
        match &mut self.helper {
            Some(helper) => ask(helper, &mut self.kept),
            None => Ok(More::Ended),
        }
    }

    /// Gives what is left, as far as there is room.
    fn give(&mut self, buf: &mut [u8]) -> Result<usize, PortStop>
        requires well { self.old.kept.mood ≢ moods.Failed }
        requires some { self.old.kept.at < length (sink_bytes self.old.kept.out) }
        requires room { 0 < length buf.old }
        ensures bound { ReadsAtMost result buf.new }
        ensures some { IfOk result (λ n. 0 < n) }
        ensures talk { Hears (Some self.old.kept.talk.items) (Some self.new.kept.talk.items)
            result buf.new }
        ensures out { self.new.kept.out ≡ self.old.kept.out }
        ensures mood { self.new.kept.mood ≡ self.old.kept.mood }
        ensures helper { self.new.helper ≡ self.old.helper }
        ensures same { OnErr result (IsAsItWas self.old.kept self.new.kept) }
        ensures wants { StopsOnlyByWant self.old.wants.count self.new.wants.count result }
        ensures keeps { Keeps (option_and_then honest_state self.old.helper) self.old.kept
            → Keeps (option_and_then honest_state self.new.helper) self.new.kept }
        ensures mute { IsMute is_mute self.old.helper → IsMute is_mute self.new.helper
            × (sink_bytes self.new.kept.out ≡ sink_bytes self.old.kept.out) }
    {
        match self.kept.give(buf) {
            Ok(count) => Ok(count),
            Err(_) => Err(self.wants.refused()),
        }
    }

    /// Sends, as [`Sink::write`] does, and says all that is known of it: the helper hears only
    /// where the link is open, and a link that has ended or failed stays so.
    ///
    /// # Errors
    ///
    /// `OutOfMemory` alone, where memory was refused to the link. It is as it was then.
    pub fn transmit(&mut self, buf: &[u8]) -> Result<usize, PortStop>
        ensures empty { length buf.now ≡ 0 → (result ≡ Ok 0) × (self.new ≡ self.old) }
        ensures bound { WritesAtMost result buf.now }
        ensures takes { 0 < length buf.now → IfOk result (λ n. 0 < n) }
        ensures talk { Sends (Some self.old.kept.talk.items) (Some self.new.kept.talk.items)
            result buf.now }
        ensures given { (self.new.kept.out ≡ self.old.kept.out)
            × (self.new.kept.at ≡ self.old.kept.at) }
        ensures lasts { self.old.kept.mood ≢ moods.Open
            → self.new.kept.mood ≡ self.old.kept.mood }
        ensures fails { self.new.kept.mood ≡ moods.Failed → self.old.kept.mood ≡ moods.Failed }
        ensures alone { self.old.kept.mood ≢ moods.Open → self.new.helper ≡ self.old.helper }
        ensures same { OnErr result (IsAsItWas self.old.kept self.new.kept
            × (self.new.helper ≡ self.old.helper)) }
        ensures wants { StopsOnlyByWant self.old.wants.count self.new.wants.count result }
        ensures keeps { Keeps (option_and_then honest_state self.old.helper) self.old.kept
            → Keeps (option_and_then honest_state self.new.helper) self.new.kept }
        ensures mute { IsMute is_mute self.old.helper → IsMute is_mute self.new.helper }
    {
        if buf.is_empty() {
            return Ok(0);
        }
        match self.kept.mood {
            Mood::Open => self.send(buf),
            _ => self.send_past(buf),
        }
    }

    /// Receives where the link has ended: what is left, and then the end.
    fn recv_over(&mut self, buf: &mut [u8]) -> Result<usize, PortStop>
        requires over { self.old.kept.mood ≡ moods.Over }
        requires room { 0 < length buf.old }
        ensures receives { Receives self.old.kept self.new.kept result }
        ensures helper { self.new.helper ≡ self.old.helper }
        ensures bound { ReadsAtMost result buf.new }
        ensures talk { Hears (Some self.old.kept.talk.items) (Some self.new.kept.talk.items)
            result buf.new }
        ensures wants { StopsOnlyByWant self.old.wants.count self.new.wants.count result }
        ensures keeps { Keeps (option_and_then honest_state self.old.helper) self.old.kept
            → Keeps (option_and_then honest_state self.new.helper) self.new.kept }
        ensures mute { IsMute is_mute self.old.helper → IsMute is_mute self.new.helper
            × (sink_bytes self.new.kept.out ≡ sink_bytes self.old.kept.out) }
    {
        if self.kept.at < self.kept.out.bytes().len() {
            return self.give(buf);
        }
        match self.kept.end_again() {
            Ok(()) => Ok(0),
            Err(_) => Err(self.wants.refused()),
        }
    }

    /// Receives where the helper may be asked, and there is room to tell one more event.
    fn recv_open(&mut self, buf: &mut [u8]) -> Result<usize, PortStop>
        requires opened { self.old.kept.mood ≡ moods.Open }
        requires space { vec_len self.old.kept.talk < vec_capacity self.old.kept.talk }
        requires room { 0 < length buf.old }
        ensures receives { Receives self.old.kept self.new.kept result }
        ensures alone { left self.old.kept ≢ [] → self.new.helper ≡ self.old.helper }
        ensures bound { ReadsAtMost result buf.new }
        ensures talk { Hears (Some self.old.kept.talk.items) (Some self.new.kept.talk.items)
            result buf.new }
        ensures wants { StopsOnlyByWant self.old.wants.count self.new.wants.count result }
        ensures keeps { Keeps (option_and_then honest_state self.old.helper) self.old.kept
            → Keeps (option_and_then honest_state self.new.helper) self.new.kept }
        ensures mute { IsMute is_mute self.old.helper → IsMute is_mute self.new.helper
            × (sink_bytes self.new.kept.out ≡ sink_bytes self.old.kept.out) }
    {
        let had = self.kept.out.bytes().len();
        if self.kept.at < had {
            return self.give(buf);
        }
        match self.fill() {
            Ok(More::Goes) => self.give(buf),
            Ok(More::Ended) => {
                self.kept.end();
                Ok(0)
            }
            Err(_) => Err(self.wants.refused()),
        }
    }

    /// Receives, as [`Link::recv`] does, and says all that is known of it: the helper is asked only
    /// where all that it appended is given and the link is open, and the end is found exactly where
    /// all is given and the link has ended.
    ///
    /// # Errors
    ///
    /// `OutOfMemory` alone. Where memory was refused to the helper, each later receive answers that
    /// too, and the helper is called no more. Where it was refused to the link, the link is as it
    /// was, or has more from the helper to give: the call may be made again.
    pub fn receive(&mut self, buf: &mut [u8]) -> Result<usize, PortStop>
        ensures receives { 0 < length buf.old → Receives self.old.kept self.new.kept result }
        ensures alone { (left self.old.kept ≢ []) ⊎ (self.old.kept.mood ≢ moods.Open)
            → self.new.helper ≡ self.old.helper }
        ensures empty { length buf.old ≡ 0 → (result ≡ Ok 0) × (self.new ≡ self.old) }
        ensures bound { ReadsAtMost result buf.new }
        ensures talk { Hears (Some self.old.kept.talk.items) (Some self.new.kept.talk.items)
            result buf.new }
        ensures wants { StopsOnlyByWant self.old.wants.count self.new.wants.count result }
        ensures keeps { Keeps (option_and_then honest_state self.old.helper) self.old.kept
            → Keeps (option_and_then honest_state self.new.helper) self.new.kept }
        ensures mute { IsMute is_mute self.old.helper → IsMute is_mute self.new.helper
            × (sink_bytes self.new.kept.out ≡ sink_bytes self.old.kept.out) }
    {
        if buf.is_empty() {
            return Ok(0);
        }
        match self.kept.mood {
            Mood::Failed => Err(self.wants.refused()),
            Mood::Over => self.recv_over(buf),
            Mood::Open => {
                if self.kept.reserve().is_err() {
                    return Err(self.wants.refused());
                }
                self.recv_open(buf)
            }
        }
    }
}

impl Sink for HelperLink {
    ghost use Rattle.std.specs.Prelude.{Some, ◌≡◌, refl, ◌<◌, ◌^◌};
    ghost use Rattle.std.proofs.Common.{rules};
    ghost use Rattle.std.specs.Option.{option_and_then};
    ghost use Rattle.sip_duel.specs.Story.{Keeps};

    ghost talk = { λ l. Some l.kept.talk.items };

    ghost faults = { λ _. 0 };

    ghost wants = { λ l. l.wants.count };

    ghost is_sure = { λ l. Keeps
        (option_and_then (λ b. (Helper-box b).honest_state b.value) l.helper) l.kept };

    ghost faults_fit = { λ _. Prim.search rules };

    ghost wants_fit = { λ l. l.wants.fits };

    ghost sure_counts = { λ _ _. refl };

    fn write(&mut self, buf: &[u8]) -> Result<usize, PortStop> {
        self.transmit(buf)
    }
}

impl Link for HelperLink {
    fn recv(&mut self, buf: &mut [u8]) -> Result<usize, PortStop> {
        self.receive(buf)
    }
}
