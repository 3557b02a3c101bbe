// A desk over memory: calls of chosen numbers fail, and a replacement that fails stops in mid-step.
ghost use Rattle.std.specs.Prelude.{◌≡◌, ◌≢◌, ◌↔◌, ◌⊎◌, ◌<◌, ◌≤◌, ◌+◌, ◌++◌, [], min, length};
ghost use Rattle.std.specs.Prelude.{take, true, false, None, Some, option_map, IfOk, IfSome};
ghost use Rattle.std.specs.Prelude.{MatchResult, IsErrOf, OnOk, OnErr};
ghost use Rattle.std.specs.Option.{option_or};
ghost use Rattle.std.specs.Io.{ReadsAtMost, WritesAtMost};
ghost use Rattle.sip_ports.specs.Ports.{Sends, Hears, CountsWants};
ghost use Rattle.sip_ports.specs.Desk.{CountsDeskWants, Loads, Replaces, holds_now, loaded, steps};
ghost use Rattle.sip_ports.specs.Calls.{MakesCall, failed_of-fits, failed_of-sure};

use crate::events::replacing_events;
use crate::memory::MemoryLink;
use crate::{Desk, DeskStop, LONGEST_LOAD, Link, PortStop, Sink, TalkEvent};
use std::alloc::{AllocError, Global};

// What is loaded of a file with these bytes.
fn loaded_of(bytes: &[u8]) -> &[u8]
    ensures bytes { result.now ≡ take LONGEST_LOAD bytes.now }
    ensures bound { length result.now ≤ LONGEST_LOAD }
{
    &bytes[..bytes.len().min(LONGEST_LOAD)]
}

/// A link and a file in memory, with one talk. Calls of the link, loads and replacements are
/// numbered together, from 1, and those whose numbers are in the link's list fail.
#[derive(Drop)]
pub struct MemoryDesk {
    link: MemoryLink,
    start: Option<Vec<u8>>,
    newer: Option<Vec<u8>>,
    stops: usize,
    is_taken: bool,
    ghost holds: { holds_now (option_map (λ bytes. bytes.items) start) link.talk.items
        ≡ option_map (λ bytes. bytes.items) (option_or newer start) },
}

impl MemoryDesk {
    ghost use Rattle.sip_ports.specs.Memory.{desk_link, desk_talk, desk_start, desk_file};
    ghost use Rattle.sip_ports.specs.Memory.{desk_stops, desk_is_taken, desk_wants, desk_incoming};
    ghost use Rattle.sip_ports.specs.Memory.{desk_chunk, link_talk, SameDesk};

    /// A desk over this link, on which nothing has happened, whose file has these bytes; `None` is
    /// a missing file. A replacement that fails takes the first `stops` of its steps, or all but
    /// the last.
    pub fn new(link: MemoryLink, file: Option<Vec<u8>>, stops: usize) -> Self
        requires { link_talk link ≡ [] }
        ensures link { desk_link result ≡ link }
        ensures start { desk_start result ≡ option_map (λ bytes. bytes.items) file }
        ensures file { desk_file result ≡ option_map (λ bytes. bytes.items) file }
        ensures stops { desk_stops result ≡ stops }
        ensures taken { desk_is_taken result ≡ false }
    {
        MemoryDesk {
            link,
            start: file,
            newer: None,
            stops,
            is_taken: false,
        }
    }

    /// From here on another has the file: a load that does not fail is busy.
    pub fn take_away(&mut self)
        ensures link { desk_link self.new ≡ desk_link self.old }
        ensures start { desk_start self.new ≡ desk_start self.old }
        ensures file { desk_file self.new ≡ desk_file self.old }
        ensures stops { desk_stops self.new ≡ desk_stops self.old }
        ensures taken { desk_is_taken self.new ≡ true }
    {
        self.is_taken = true;
    }

    /// All that has happened on it.
    pub fn talk(&self) -> &[TalkEvent]
        ensures { result.now ≡ desk_talk self.now }
    {
        self.link.talk()
    }

    /// What the file has; `None` where it is missing.
    pub fn file(&self) -> Option<&[u8]>
        ensures { option_map (λ bytes. bytes.now) result ≡ desk_file self.now }
    {
        match (&self.newer, &self.start) {
            (Some(bytes), _) => Some(bytes),
            (None, Some(bytes)) => Some(bytes),
            (None, None) => None,
        }
    }
}

impl MemoryDesk {
    ghost use Rattle.sip_ports.specs.Memory.{desk_talk, desk_file, desk_wants, desk_incoming};
    ghost use Rattle.sip_ports.specs.Memory.{desk_fails, desk_calls, desk_chunk, SameDesk};

    // Takes the first steps of a replacement, so many, all of them or none. From the rename on the
    // file has the new bytes.
    #[tactic(auto, using(crate::proofs::DeskLemmas::without_crash))]
    fn step(&mut self, bytes: &[u8], count: usize) -> Result<(), AllocError>
        ensures talk { MatchResult result
            (λ _. desk_talk self.new ≡ desk_talk self.old ++ take count (steps bytes.now))
            (λ _. desk_talk self.new ≡ desk_talk self.old) }
        ensures renamed { OnOk result (length bytes.now + 2 ≤ count
            → desk_file self.new ≡ Some bytes.now) }
        ensures before { OnOk result (count < length bytes.now + 2
            → desk_file self.new ≡ desk_file self.old) }
        ensures none { OnErr result (desk_file self.new ≡ desk_file self.old) }
        ensures calls { desk_calls self.new ≡ desk_calls self.old }
        ensures fails { desk_fails self.new ≡ desk_fails self.old }
        ensures chunk { desk_chunk self.new ≡ desk_chunk self.old }
        ensures incoming { desk_incoming self.new ≡ desk_incoming self.old }
        ensures wants { desk_wants self.new ≡ desk_wants self.old }
        ensures rest { SameDesk self.old self.new }
    {
        let alloc = self.link.alloc();
        let events = replacing_events(alloc, bytes, count)?;
        if count < bytes.len() + 2 {
            return self.link.add(&events);
        }
        let newer = bytes.to_vec(alloc)?;
        self.link.add(&events)?;
        self.newer = Some(newer);
        Ok(())
    }
}

impl Sink for MemoryDesk {
    ghost use Rattle.sip_ports.specs.Memory.{desk_link, desk_talk, desk_file, desk_incoming};
    ghost use Rattle.sip_ports.specs.Memory.{desk_chunk, desk_fails, desk_calls, desk_next_fails};
    ghost use Rattle.sip_ports.specs.Memory.{desk_faults, desk_wants, desk_is_sure, SameDesk};

    ghost talk = { λ desk. Some (desk_talk desk) };

    ghost faults = { desk_faults };

    ghost wants = { desk_wants };

    ghost is_sure = { desk_is_sure };

    ghost faults_fit = { λ desk. failed_of-fits (desk_fails desk) (desk_calls desk)
        desk.link.calls.counted };

    ghost wants_fit = { λ desk. desk.link.wants.fits };

    ghost sure_counts = { λ desk sure. failed_of-sure (desk_fails desk) (desk_calls desk) sure.0 };

    fn write(&mut self, buf: &[u8]) -> Result<usize, PortStop>
        ensures bound { WritesAtMost result buf.now }
        ensures takes { 0 < length buf.now → IfOk result (λ n. 0 < n) }
        ensures talk { Sends (Some (desk_talk self.old)) (Some (desk_talk self.new))
            result buf.now }
        ensures failed { IsErrOf result PortStop.Failed ↔ (desk_next_fails self.old ≡ true) }
        ensures count { IfOk result (λ n. n ≡ min (length buf.now) (desk_chunk self.old)) }
        ensures incoming { desk_incoming self.new ≡ desk_incoming self.old }
        ensures call { MakesCall desk_fails desk_calls desk_chunk self.old self.new }
        ensures wants { CountsWants (desk_wants self.old) (desk_wants self.new) result }
        ensures file { desk_file self.new ≡ desk_file self.old }
        ensures same { SameDesk self.old self.new }
    {
        self.link.write(buf)
    }
}

impl Link for MemoryDesk {
    ghost use Rattle.sip_ports.specs.Memory.{desk_link, desk_talk, desk_file, desk_incoming};
    ghost use Rattle.sip_ports.specs.Memory.{desk_chunk, desk_fails, desk_calls, desk_next_fails};
    ghost use Rattle.sip_ports.specs.Memory.{desk_faults, desk_wants, SameDesk};

    fn recv(&mut self, buf: &mut [u8]) -> Result<usize, PortStop>
        ensures bound { ReadsAtMost result buf.new }
        ensures talk { Hears (Some (desk_talk self.old)) (Some (desk_talk self.new))
            result buf.new }
        ensures failed { IsErrOf result PortStop.Failed ↔ (desk_next_fails self.old ≡ true) }
        ensures count { IfOk result
            (λ n. n ≡ min (length buf.old) (min (desk_chunk self.old)
            (length (desk_incoming self.old)))) }
        ensures bytes { MatchResult result
            (λ n. desk_incoming self.old ≡ take n buf.new ++ desk_incoming self.new)
            (λ _. desk_incoming self.new ≡ desk_incoming self.old) }
        ensures call { MakesCall desk_fails desk_calls desk_chunk self.old self.new }
        ensures wants { CountsWants (desk_wants self.old) (desk_wants self.new) result }
        ensures file { desk_file self.new ≡ desk_file self.old }
        ensures same { SameDesk self.old self.new }
    {
        self.link.recv(buf)
    }
}

impl Desk for MemoryDesk {
    ghost use Rattle.sip_ports.specs.Memory.{desk_link, desk_talk, desk_start, desk_file};
    ghost use Rattle.sip_ports.specs.Memory.{desk_stops, desk_incoming, desk_chunk, desk_fails};
    ghost use Rattle.sip_ports.specs.Memory.{desk_calls, desk_next_fails, desk_faults, desk_wants};
    ghost use Rattle.sip_ports.specs.Memory.{desk_is_taken, desk_is_sure, SameDesk};

    ghost start = { desk_start };

    fn load(&mut self, alloc: Global) -> Result<Option<Vec<u8>>, DeskStop>
        ensures found { IfOk result (λ file. Loads (desk_start self.old)
            (Some (desk_talk self.old)) (option_map (λ bytes. bytes.items) file)) }
        ensures file { IfOk result (λ file. option_map (λ bytes. bytes.items) file
            ≡ loaded (desk_file self.old)) }
        ensures bound { IfOk result (λ file. IfSome file
            (λ bytes. length bytes.items ≤ LONGEST_LOAD)) }
        ensures failed { IsErrOf result DeskStop.Failed ↔ (desk_next_fails self.old ≡ true) }
        ensures busy { IsErrOf result DeskStop.Busy
            ↔ (desk_next_fails self.old ≡ false) × (desk_is_taken self.old ≡ true) }
        ensures missing { IsErrOf result DeskStop.OutOfMemory → desk_file self.old ≢ None }
        ensures talk { desk_talk self.new ≡ desk_talk self.old }
        ensures same_file { desk_file self.new ≡ desk_file self.old }
        ensures incoming { desk_incoming self.new ≡ desk_incoming self.old }
        ensures call { MakesCall desk_fails desk_calls desk_chunk self.old self.new }
        ensures wants { CountsDeskWants (desk_wants self.old) (desk_wants self.new) result }
        ensures same { SameDesk self.old self.new }
    {
        if self.link.next_fails() {
            return Err(DeskStop::Failed);
        }
        if self.is_taken {
            return Err(DeskStop::Busy);
        }
        let copy = match self.file() {
            None => return Ok(None),
            Some(bytes) => loaded_of(bytes).to_vec(alloc),
        };
        match copy {
            Ok(bytes) => Ok(Some(bytes)),
            Err(_) => Err(DeskStop::from(self.link.refused())),
        }
    }

    fn replace(&mut self, bytes: &[u8]) -> Result<(), DeskStop>
        ensures talk { Replaces (Some (desk_talk self.old)) (Some (desk_talk self.new))
            result bytes.now }
        ensures stops { IsErrOf result DeskStop.Failed
            → (desk_talk self.new ≡ desk_talk self.old)
            ⊎ (desk_talk self.new ≡ desk_talk self.old
            ++ take (min (desk_stops self.old) (length bytes.now + 2)) (steps bytes.now)) }
        ensures none { IsErrOf result DeskStop.OutOfMemory
            → desk_talk self.new ≡ desk_talk self.old }
        ensures file { desk_file self.new ≡ holds_now (desk_start self.old) (desk_talk self.new) }
        ensures failed { IsErrOf result DeskStop.Failed ↔ (desk_next_fails self.old ≡ true) }
        ensures free { ¬ IsErrOf result DeskStop.Busy }
        ensures incoming { desk_incoming self.new ≡ desk_incoming self.old }
        ensures call { MakesCall desk_fails desk_calls desk_chunk self.old self.new }
        ensures wants { CountsDeskWants (desk_wants self.old) (desk_wants self.new) result }
        ensures same { SameDesk self.old self.new }
    {
        if self.link.next_fails() {
            // where memory is refused, it took no step
            let _ = self.step(bytes, self.stops.min(bytes.len() + 2));
            return Err(DeskStop::Failed);
        }
        match self.step(bytes, bytes.len() + 3) {
            Ok(()) => Ok(()),
            Err(_) => Err(DeskStop::from(self.link.refused())),
        }
    }
}
