// Ports over memory: calls of chosen numbers fail, and each call moves a chunk at most.
ghost use Rattle.std.specs.Prelude.{◌≡◌, ◌↔◌, ◌<◌, ◌≤◌, ◌+◌, ◌-◌, ◌^◌, ◌++◌, [], min, length, take};
ghost use Rattle.std.specs.Prelude.{true, false, Some, IfOk, MatchResult, IsErrOf, IsOk, OnOk};
ghost use Rattle.std.specs.Io.{ReadsAtMost, WritesAtMost};
ghost use Rattle.std.specs.Io.KnownBytes.{ReadConsumes};
ghost use Rattle.sip_ports.specs.Ports.{Sends, Hears, CountsWants, outs, ins};
ghost use Rattle.sip_ports.specs.Calls.{MakesCall, next_fails, failed_of-fits, failed_of-sure};

use crate::calls::Calls;
use crate::count::Count;
use crate::events::{received_events, sent_events};
use crate::give::give;
use crate::{Link, PortStop, Sink, Source, TalkEvent};
use std::alloc::{AllocError, Global};

/// A source of bytes in memory. A call moves at most a chunk, and the calls whose numbers, from 1,
/// are in a list fail. It takes no memory.
#[derive(Drop)]
pub struct MemorySource {
    bytes: Vec<u8>,
    at: usize,
    chunk: usize,
    calls: Calls,
    ghost within: { at ≤ length bytes.items },
    ghost moves: { 0 < chunk },
}

impl MemorySource {
    ghost use Rattle.sip_ports.specs.Memory.{source_left, source_chunk, source_fails, source_calls};

    /// A source of these bytes, of which no call was made.
    pub fn new(bytes: Vec<u8>, chunk: usize, fails: Vec<u64>) -> Self
        requires { 1 ≤ chunk }
        ensures left { source_left result ≡ bytes.items }
        ensures chunk { source_chunk result ≡ chunk }
        ensures fails { source_fails result ≡ fails.items }
        ensures calls { source_calls result ≡ 0 }
    {
        MemorySource {
            bytes,
            at: 0,
            chunk,
            calls: Calls::new(fails),
        }
    }
}

impl Source for MemorySource {
    ghost use Rattle.std.specs.Prelude.{◌≡◌, min, length, true, false, Some, MatchResult};
    ghost use Rattle.std.proofs.Common.{rules};
    ghost use Rattle.std.specs.Io.{ReadsAtMost};
    ghost use Rattle.std.specs.Io.KnownBytes.{ReadConsumes};
    ghost use Rattle.sip_ports.specs.Calls.{MakesCall, failed_of-fits, failed_of-sure};
    ghost use Rattle.sip_ports.specs.Memory.{source_left, source_chunk, source_fails, source_calls};
    ghost use Rattle.sip_ports.specs.Memory.{source_next_fails, source_faults, source_is_sure};

    ghost left = { λ source. Some (source_left source) };

    ghost ahead = { λ _. [] };

    ghost faults = { source_faults };

    ghost wants = { λ _. 0 };

    ghost is_sure = { source_is_sure };

    ghost faults_fit = { λ source. failed_of-fits (source_fails source) (source_calls source)
        source.calls.counted };

    ghost wants_fit = { λ _. Prim.search rules };

    ghost sure_counts = { λ source sure. failed_of-sure (source_fails source) (source_calls source)
        sure };

    fn read(&mut self, buf: &mut [u8]) -> Result<usize, PortStop>
        ensures bound { ReadsAtMost result buf.new }
        ensures bytes { ReadConsumes (Some (source_left self.old)) (Some (source_left self.new))
            result buf.new }
        ensures answer { MatchResult result
            (λ n. (source_next_fails self.old ≡ false)
            × (n ≡ min (length buf.old) (min (source_chunk self.old)
            (length (source_left self.old)))))
            (λ e. (source_next_fails self.old ≡ true) × (e ≡ PortStop.Failed)) }
        ensures call { MakesCall source_fails source_calls source_chunk self.old self.new }
    {
        if self.calls.next_fails() {
            return Err(PortStop::Failed);
        }
        let count = buf.len().min(self.chunk).min(self.bytes.len() - self.at);
        give(&self.bytes, self.at, count, buf);
        self.at += count;
        Ok(count)
    }

    fn held(&self) -> &[u8]
        ensures none { result.now ≡ [] }
    {
        &[]
    }

    fn skip(&mut self, _count: usize)
        ensures same { self.new ≡ self.old }
    {}
}

/// A sink that keeps its bytes in memory. A call takes at most a chunk, and the calls whose
/// numbers, from 1, are in a list fail.
#[derive(Drop)]
pub struct MemorySink {
    bytes: Vec<u8>,
    chunk: usize,
    calls: Calls,
    wants: Count,
    ghost moves: { 0 < chunk },
}

impl MemorySink {
    ghost use Rattle.sip_ports.specs.Memory.{sink_bytes, sink_chunk, sink_fails, sink_calls};
    ghost use Rattle.sip_ports.specs.Memory.{sink_wants};

    /// An empty sink, of which no call was made.
    pub fn new(alloc: Global, chunk: usize, fails: Vec<u64>) -> Self
        requires { 1 ≤ chunk }
        ensures bytes { sink_bytes result ≡ [] }
        ensures chunk { sink_chunk result ≡ chunk }
        ensures fails { sink_fails result ≡ fails.items }
        ensures calls { sink_calls result ≡ 0 }
        ensures wants { sink_wants result ≡ 0 }
    {
        MemorySink {
            bytes: Vec::new(alloc),
            chunk,
            calls: Calls::new(fails),
            wants: Count::none(),
        }
    }

    /// All bytes that it has taken.
    pub fn bytes(&self) -> &[u8]
        ensures { result.now ≡ sink_bytes self.now }
    {
        &self.bytes
    }
}

impl Sink for MemorySink {
    ghost use Rattle.sip_ports.specs.Memory.{sink_bytes, sink_chunk, sink_fails, sink_calls};
    ghost use Rattle.sip_ports.specs.Memory.{sink_next_fails, sink_faults, sink_wants};
    ghost use Rattle.sip_ports.specs.Memory.{sink_is_sure};

    ghost talk = { λ sink. Some (outs (sink_bytes sink)) };

    ghost faults = { sink_faults };

    ghost wants = { sink_wants };

    ghost is_sure = { sink_is_sure };

    ghost faults_fit = { λ sink. failed_of-fits (sink_fails sink) (sink_calls sink)
        sink.calls.counted };

    ghost wants_fit = { λ sink. sink.wants.fits };

    ghost sure_counts = { λ sink sure. failed_of-sure (sink_fails sink) (sink_calls sink) sure };

    fn write(&mut self, buf: &[u8]) -> Result<usize, PortStop>
        ensures bound { WritesAtMost result buf.now }
        ensures takes { 0 < length buf.now → IfOk result (λ n. 0 < n) }
        ensures talk { Sends (Some (outs (sink_bytes self.old))) (Some (outs (sink_bytes self.new)))
            result buf.now }
        ensures failed { IsErrOf result PortStop.Failed ↔ (sink_next_fails self.old ≡ true) }
        ensures bytes { MatchResult result
            (λ n. (n ≡ min (length buf.now) (sink_chunk self.old))
            × (sink_bytes self.new ≡ sink_bytes self.old ++ take n buf.now))
            (λ _. sink_bytes self.new ≡ sink_bytes self.old) }
        ensures call { MakesCall sink_fails sink_calls sink_chunk self.old self.new }
        ensures wants { CountsWants (sink_wants self.old) (sink_wants self.new) result }
    {
        if self.calls.next_fails() {
            return Err(PortStop::Failed);
        }
        let count = buf.len().min(self.chunk);
        if self.bytes.extend_from_slice(&buf[..count]).is_err() {
            return Err(self.wants.refused());
        }
        Ok(count)
    }
}

/// A link over memory: what it gives is set, and what happens on it is kept. A call moves at most a
/// chunk, and the calls whose numbers, from 1, are in a list fail. Writes and receives are numbered
/// together, with empty ones too.
#[derive(Drop)]
pub struct MemoryLink {
    alloc: Global,
    incoming: Vec<u8>,
    at: usize,
    talk: Vec<TalkEvent>,
    chunk: usize,
    calls: Calls,
    wants: Count,
    ghost within: { at ≤ length incoming.items },
    ghost moves: { 0 < chunk },
}

impl MemoryLink {
    ghost use Rattle.sip_ports.specs.Memory.{link_incoming, link_talk, link_chunk, link_fails};
    ghost use Rattle.sip_ports.specs.Memory.{link_calls, link_wants};

    /// A link that gives these bytes and then has ended. Nothing has happened on it.
    pub fn new(alloc: Global, incoming: Vec<u8>, chunk: usize, fails: Vec<u64>) -> Self
        requires { 1 ≤ chunk }
        ensures incoming { link_incoming result ≡ incoming.items }
        ensures talk { link_talk result ≡ [] }
        ensures chunk { link_chunk result ≡ chunk }
        ensures fails { link_fails result ≡ fails.items }
        ensures calls { link_calls result ≡ 0 }
        ensures wants { link_wants result ≡ 0 }
    {
        MemoryLink {
            alloc,
            incoming,
            at: 0,
            talk: Vec::new(alloc),
            chunk,
            calls: Calls::new(fails),
            wants: Count::none(),
        }
    }

    /// All that has happened on it.
    pub fn talk(&self) -> &[TalkEvent]
        ensures { result.now ≡ link_talk self.now }
    {
        &self.talk
    }

    /// Where its events are kept.
    pub(crate) fn alloc(&self) -> Global {
        self.alloc
    }

    /// Counts one more call, and answers whether it fails.
    pub(crate) fn next_fails(&mut self) -> bool
        ensures answer { result ≡ next_fails (link_fails self.old) (link_calls self.old) }
        ensures call { MakesCall link_fails link_calls link_chunk self.old self.new }
        ensures incoming { link_incoming self.new ≡ link_incoming self.old }
        ensures talk { link_talk self.new ≡ link_talk self.old }
        ensures wants { link_wants self.new ≡ link_wants self.old }
    {
        self.calls.next_fails()
    }

    /// Counts a refusal of memory.
    pub(crate) fn refused(&mut self) -> PortStop
        ensures answer { result ≡ PortStop.OutOfMemory }
        ensures wants { link_wants self.new ≡ min (link_wants self.old + 1) (2 ^ 64 - 1) }
        ensures calls { self.new.calls ≡ self.old.calls }
        ensures chunk { link_chunk self.new ≡ link_chunk self.old }
        ensures incoming { link_incoming self.new ≡ link_incoming self.old }
        ensures talk { link_talk self.new ≡ link_talk self.old }
    {
        self.wants.refused()
    }

    /// Adds these events to the talk, all of them or none.
    pub(crate) fn add(&mut self, events: &[TalkEvent]) -> Result<(), AllocError>
        ensures talk { MatchResult result
            (λ _. link_talk self.new ≡ link_talk self.old ++ events.now)
            (λ _. link_talk self.new ≡ link_talk self.old) }
        ensures wants { link_wants self.new ≡ link_wants self.old }
        ensures calls { self.new.calls ≡ self.old.calls }
        ensures chunk { link_chunk self.new ≡ link_chunk self.old }
        ensures incoming { link_incoming self.new ≡ link_incoming self.old }
    {
        self.talk.extend_from_slice(events)
    }

    // Keeps the events of a call, all of them or none.
    fn keep(&mut self, events: Result<Vec<TalkEvent>, AllocError>) -> Result<(), PortStop>
        ensures talk { MatchResult result
            (λ _. IfOk events (λ some. self.new.talk.items ≡ self.old.talk.items ++ some.items))
            (λ e. (e ≡ PortStop.OutOfMemory) × (self.new.talk.items ≡ self.old.talk.items)) }
        ensures kept { OnOk result (IsOk events) }
        ensures wants { CountsWants (link_wants self.old) (link_wants self.new) result }
        ensures calls { self.new.calls ≡ self.old.calls }
        ensures chunk { self.new.chunk ≡ self.old.chunk }
        ensures incoming { (self.new.incoming ≡ self.old.incoming) × (self.new.at ≡ self.old.at) }
    {
        if let Ok(events) = events
            && self.talk.extend_from_slice(&events).is_ok()
        {
            return Ok(());
        }
        Err(self.wants.refused())
    }
}

impl Sink for MemoryLink {
    ghost use Rattle.sip_ports.specs.Memory.{link_incoming, link_talk, link_chunk, link_fails};
    ghost use Rattle.sip_ports.specs.Memory.{link_calls, link_next_fails, link_faults, link_wants};
    ghost use Rattle.sip_ports.specs.Memory.{link_is_sure};

    ghost talk = { λ link. Some (link_talk link) };

    ghost faults = { link_faults };

    ghost wants = { link_wants };

    ghost is_sure = { link_is_sure };

    ghost faults_fit = { λ link. failed_of-fits (link_fails link) (link_calls link)
        link.calls.counted };

    ghost wants_fit = { λ link. link.wants.fits };

    ghost sure_counts = { λ link sure. failed_of-sure (link_fails link) (link_calls link) sure };

    fn write(&mut self, buf: &[u8]) -> Result<usize, PortStop>
        ensures bound { WritesAtMost result buf.now }
        ensures takes { 0 < length buf.now → IfOk result (λ n. 0 < n) }
        ensures talk { Sends (Some (link_talk self.old))
            (Some (link_talk self.new)) result buf.now }
        ensures failed { IsErrOf result PortStop.Failed ↔ (link_next_fails self.old ≡ true) }
        ensures count { IfOk result (λ n. n ≡ min (length buf.now) (link_chunk self.old)) }
        ensures incoming { link_incoming self.new ≡ link_incoming self.old }
        ensures call { MakesCall link_fails link_calls link_chunk self.old self.new }
        ensures wants { CountsWants (link_wants self.old) (link_wants self.new) result }
    {
        if self.calls.next_fails() {
            return Err(PortStop::Failed);
        }
        let count = buf.len().min(self.chunk);
        let events = sent_events(self.alloc, &buf[..count]);
        self.keep(events)?;
        Ok(count)
    }
}

impl Link for MemoryLink {
    ghost use Rattle.sip_ports.specs.Memory.{link_incoming, link_talk, link_chunk, link_fails};
    ghost use Rattle.sip_ports.specs.Memory.{link_calls, link_next_fails, link_faults, link_wants};

    fn recv(&mut self, buf: &mut [u8]) -> Result<usize, PortStop>
        ensures bound { ReadsAtMost result buf.new }
        ensures talk { Hears (Some (link_talk self.old))
            (Some (link_talk self.new)) result buf.new }
        ensures failed { IsErrOf result PortStop.Failed ↔ (link_next_fails self.old ≡ true) }
        ensures count { IfOk result
            (λ n. n ≡ min (length buf.old) (min (link_chunk self.old)
            (length (link_incoming self.old)))) }
        ensures bytes { MatchResult result
            (λ n. link_incoming self.old ≡ take n buf.new ++ link_incoming self.new)
            (λ _. link_incoming self.new ≡ link_incoming self.old) }
        ensures call { MakesCall link_fails link_calls link_chunk self.old self.new }
        ensures wants { CountsWants (link_wants self.old) (link_wants self.new) result }
    {
        if self.calls.next_fails() {
            return Err(PortStop::Failed);
        }
        let count = buf.len().min(self.chunk).min(self.incoming.len() - self.at);
        if count == 0 {
            if !buf.is_empty() && self.talk.push(TalkEvent::Ended).is_err() {
                return Err(self.wants.refused());
            }
            return Ok(0);
        }
        let events = received_events(self.alloc, &self.incoming[self.at..self.at + count]);
        self.keep(events)?;
        give(&self.incoming, self.at, count, buf);
        self.at += count;
        Ok(count)
    }
}
