//! A link whose replies come out of a source.

ghost use Rattle.std.specs.Prelude.{◌≡◌, [], length, OnOk};
ghost use Rattle.sip_transcript.specs.Pasts.{events};
ghost use Rattle.sip_transcript.specs.Replaying.{Replays, Replays-prop, heard_count};

use crate::past::Past;
use crate::{Loan, Origin};
use sip_ports::{Link, PortStop, Sink};
use std::marker::PhantomData;

/// A link whose replies are the bytes of a source, as a stored run has them. All that is sent is
/// taken, and goes nowhere. It takes no memory: its talk is told in proofs alone, and of what was
/// heard it keeps the number of bytes.
///
/// At each time what was heard and what is left in the source are what the source had when the link
/// was made, and the end was told only where all of this had been heard. It needs no call's word
/// for that: whoever lends the link to a generic call knows it afterwards.
#[derive(Drop)]
pub struct TranscriptLink<T: Loan, O: Origin> {
    source: T,
    past: Past,
    taken: u64,
    origin: PhantomData<O>,
    ghost counts: { taken ≡ heard_count (events past) },
    ghost same: { T.loan source ≡ O.lent },
    ghost replays: { Replays O.first (events past) (T.left source) } by { Replays-prop _ _ _ },
}

impl<T: Loan, O: Origin> TranscriptLink<T, O> {
    ghost use Rattle.sip_transcript.specs.Links.{link_left, link_source, link_talk};

    /// A link over this source, on which nothing has happened.
    pub fn new(source: T) -> Self
        requires first { T.left source ≡ O.first }
        requires lent { T.loan source ≡ O.lent }
        ensures talk { link_talk result ≡ [] }
        ensures source { link_source result ≡ source }
    {
        TranscriptLink {
            source,
            past: Past::Nothing,
            taken: 0,
            origin: PhantomData,
        }
    }

    /// How many bytes were heard so far: a failed receive adds none, nor does the end, nor what was
    /// sent. At 2^64 - 1 it stays, and there it says that at least so many were heard.
    pub fn taken(&self) -> u64
        ensures { result ≡ heard_count (link_talk self.now) }
    {
        self.taken
    }

    /// The source, given back: the same loan, with what is left in it.
    pub fn into_source(self) -> T
        ensures source { result ≡ link_source self }
        ensures same { T.loan result ≡ O.lent }
        ensures replays { Replays O.first (link_talk self) (T.left result) }
    {
        let TranscriptLink {
            source,
            past: _,
            taken: _,
            origin: _,
        } = self;
        source
    }
}

impl<T: Loan, O: Origin> Sink for TranscriptLink<T, O> {
    ghost use Rattle.std.specs.Prelude.{Some, ◌<◌, ◌≡◌, ◌^◌, length, IfOk};
    ghost use Rattle.std.specs.Io.{WritesAtMost};
    ghost use Rattle.sip_ports.specs.Ports.{HasCause, Sends, StandsStill};
    ghost use Rattle.sip_transcript.specs.Links.{link_faults, link_is_sure, link_source, link_talk};
    ghost use Rattle.sip_transcript.specs.Links.{link_wants};

    ghost talk = { λ link. Some (link_talk link) };

    ghost faults = { link_faults };

    ghost wants = { link_wants };

    ghost is_sure = { link_is_sure };

    ghost faults_fit = { λ link. T.faults_fit link.source };

    ghost wants_fit = { λ link. T.wants_fit link.source };

    ghost sure_counts = { λ link sure. T.sure_counts link.source sure };

    fn write(&mut self, buf: &[u8]) -> Result<usize, PortStop>
        ensures bound { WritesAtMost result buf.now }
        ensures takes { 0 < length buf.now → IfOk result (λ n. 0 < n) }
        ensures talk { Sends (Some (link_talk self.old)) (Some (link_talk self.new))
            result buf.now }
        ensures empty { length buf.now ≡ 0
            → OnOk result (StandsStill link_faults link_wants self.old self.new) }
        ensures cause { HasCause link_faults link_wants link_is_sure self.old self.new result }
        ensures all { result ≡ Ok (length buf.now) }
        ensures source { link_source self.new ≡ link_source self.old }
    {
        self.past.sent(buf);
        Ok(buf.len())
    }
}

impl<T: Loan, O: Origin> Link for TranscriptLink<T, O> {
    ghost use Rattle.std.specs.Prelude.{Some, ◌≡◌, length};
    ghost use Rattle.std.specs.Io.{ReadsAtMost};
    ghost use Rattle.std.specs.Io.KnownBytes.{ReadConsumes};
    ghost use Rattle.sip_ports.specs.Ports.{HasCause, Hears, StandsStill};
    ghost use Rattle.sip_transcript.specs.Links.{link_faults, link_is_sure, link_left, link_talk};
    ghost use Rattle.sip_transcript.specs.Links.{link_wants};

    fn recv(&mut self, buf: &mut [u8]) -> Result<usize, PortStop>
        ensures bound { ReadsAtMost result buf.new }
        ensures talk { Hears (Some (link_talk self.old)) (Some (link_talk self.new))
            result buf.new }
        ensures empty { length buf.old ≡ 0
            → OnOk result (StandsStill link_faults link_wants self.old self.new) }
        ensures cause { HasCause link_faults link_wants link_is_sure self.old self.new result }
        ensures bytes { ReadConsumes (link_left self.old) (link_left self.new) result buf.new }
    {
        if buf.is_empty() {
            return Ok(0);
        }
        let came = self.source.read(buf)?;
        self.past.received(came, buf);
        self.taken = self.taken.saturating_add(came as u64);
        Ok(came)
    }
}
