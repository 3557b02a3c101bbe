// A link over a reader and a writer: each call is that of one half, and leaves the other as it was.
ghost use Rattle.std.specs.Prelude.{◌≡◌, ◌↔◌, ◌<◌, [], length, None, IfOk, OnErr, IsNone, IsErr};
ghost use Rattle.std.specs.Io.{ReadsAtMost, WritesAtMost};
ghost use Rattle.std.specs.Io.KnownBytes.{ReadConsumes, WriteAppends};
ghost use Rattle.sip_ports.specs.Ports.{Counts};
ghost use Rattle.sip_ports.specs.ReadAhead.{GivesHeld};
ghost use Rattle.std.proofs.Common.{rules};

use crate::reader_source::ReaderSource;
use crate::writer_sink::WriterSink;
use crate::{Link, PortStop, Sink, Source};
use std::io::{Read, Write};

/// A reader to hear, through a buffer of its own, and a writer to send to. Where one is not there,
/// its calls fail. A reader and a writer don't tell in which order their bytes passed, so it tells
/// no talk.
#[derive(Drop)]
pub struct TwoWayLink<R: Read + Drop, W: Write + Drop> {
    from: ReaderSource<R>,
    to: WriterSink<W>,
}

impl<R: Read + Drop, W: Write + Drop> TwoWayLink<R, W> {
    ghost use Rattle.sip_ports.specs.Edge.{source_reader, source_ahead, sink_writer};
    ghost use Rattle.sip_ports.specs.Edge.{link_from, link_to, link_faults};

    /// A link that hears `from` and sends to `to`. Nothing was read, and no call was made.
    pub fn new(from: Option<R>, to: Option<W>) -> Self
        ensures faults { link_faults result ≡ 0 }
        ensures ahead { source_ahead (link_from result) ≡ [] }
        ensures from { source_reader (link_from result) ≡ from }
        ensures to { sink_writer (link_to result) ≡ to }
    {
        TwoWayLink {
            from: ReaderSource::new(from),
            to: WriterSink::new(to),
        }
    }
}

impl<R: Read + Drop, W: Write + Drop> Sink for TwoWayLink<R, W> {
    ghost use Rattle.sip_ports.specs.Edge.{sink_contents, sink_writer};
    ghost use Rattle.sip_ports.specs.Edge.{link_from, link_to, link_faults, link_faults-fit};

    ghost talk = { λ _. None };

    ghost faults = { link_faults };

    ghost wants = { λ _. 0 };

    ghost is_sure = { λ _. ⊥ };

    ghost faults_fit = { link_faults-fit };

    ghost wants_fit = { λ _. Prim.search rules };

    ghost sure_counts = { λ _ sure. absurd sure };

    fn write(&mut self, buf: &[u8]) -> Result<usize, PortStop>
        ensures bound { WritesAtMost result buf.now }
        ensures takes { 0 < length buf.now → IfOk result (λ n. 0 < n) }
        ensures bytes { WriteAppends (sink_contents W.contents (link_to self.old))
            (sink_contents W.contents (link_to self.new)) result buf.now }
        ensures count { Counts (link_faults self.old) (link_faults self.new) result }
        ensures absent { IsNone (sink_writer (link_to self.old)) → IsErr result }
        ensures same { IsNone (sink_writer (link_to self.new))
            ↔ IsNone (sink_writer (link_to self.old)) }
        ensures nothing { ¬ IsNone (sink_writer (link_to self.old)) → length buf.now ≡ 0
            → (result ≡ Ok 0) × (self.new ≡ self.old) }
        ensures other { link_from self.new ≡ link_from self.old }
    {
        self.to.write(buf)
    }
}

impl<R: Read + Drop, W: Write + Drop> Link for TwoWayLink<R, W> {
    ghost use Rattle.sip_ports.specs.Edge.{source_left, source_reader, source_ahead};
    ghost use Rattle.sip_ports.specs.Edge.{link_from, link_to, link_faults};

    fn recv(&mut self, buf: &mut [u8]) -> Result<usize, PortStop>
        ensures bound { ReadsAtMost result buf.new }
        ensures bytes { ReadConsumes (source_left R.remaining (link_from self.old))
            (source_left R.remaining (link_from self.new)) result buf.new }
        ensures count { Counts (link_faults self.old) (link_faults self.new) result }
        ensures absent { IsNone (source_reader (link_from self.old)) → IsErr result }
        ensures same { IsNone (source_reader (link_from self.new))
            ↔ IsNone (source_reader (link_from self.old)) }
        ensures nothing { ¬ IsNone (source_reader (link_from self.old)) → length buf.old ≡ 0
            → (result ≡ Ok 0) × (self.new ≡ self.old) }
        ensures held { ¬ IsNone (source_reader (link_from self.old))
            → GivesHeld (source_ahead (link_from self.old)) (source_ahead (link_from self.new))
            result buf.new }
        ensures untouched { 0 < length (source_ahead (link_from self.old))
            → source_reader (link_from self.new) ≡ source_reader (link_from self.old) }
        ensures kept { OnErr result
            (source_ahead (link_from self.new) ≡ source_ahead (link_from self.old)) }
        ensures other { link_to self.new ≡ link_to self.old }
    {
        self.from.read(buf)
    }
}
