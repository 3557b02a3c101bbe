// Sinks over the writers that the runtime gives, which are always there.
ghost use Rattle.std.specs.Prelude.{◌≡◌, ◌<◌, length, IfOk, Some, IsNone};
ghost use Rattle.std.specs.Io.{WritesAtMost};
ghost use Rattle.std.specs.Io.KnownBytes.{WriteAppends};
ghost use Rattle.sip_ports.specs.Ports.{Counts};
ghost use Rattle.std.proofs.Common.{rules};

use crate::writer_sink::WriterSink;
use crate::{PortStop, Sink};
use std::io::Write;

/// A sink over a writer that is there.
#[derive(Drop)]
pub struct StreamSink<W: Write + Drop> {
    sink: WriterSink<W>,
    ghost there: { ¬ IsNone sink.writer },
}

/// A sink over the writer for standard output.
pub type StdoutSink<W> = StreamSink<W>;

/// A sink over the writer for standard error.
pub type StderrSink<W> = StreamSink<W>;

impl<W: Write + Drop> StreamSink<W> {
    ghost use Rattle.sip_ports.specs.Edge.{sink_writer, sink_faults, stream_sink};

    /// A sink over this writer, of which no call was made.
    pub fn new(writer: W) -> Self
        ensures faults { sink_faults (stream_sink result) ≡ 0 }
        ensures writer { sink_writer (stream_sink result) ≡ Some writer }
    {
        StreamSink {
            sink: WriterSink::new(Some(writer)),
        }
    }
}

impl<W: Write + Drop> Sink for StreamSink<W> {
    ghost use Rattle.sip_ports.specs.Edge.{sink_contents, sink_talk, sink_faults, stream_sink};

    ghost talk = { λ stream. sink_talk W.contents (stream_sink stream) };

    ghost faults = { λ stream. sink_faults (stream_sink stream) };

    ghost wants = { λ _. 0 };

    ghost is_sure = { λ _. ⊥ };

    ghost faults_fit = { λ stream. stream.sink.faults.fits };

    ghost wants_fit = { λ _. Prim.search rules };

    ghost sure_counts = { λ _ sure. absurd sure };

    fn write(&mut self, buf: &[u8]) -> Result<usize, PortStop>
        ensures bound { WritesAtMost result buf.now }
        ensures takes { 0 < length buf.now → IfOk result (λ n. 0 < n) }
        ensures bytes { WriteAppends (sink_contents W.contents (stream_sink self.old))
            (sink_contents W.contents (stream_sink self.new)) result buf.now }
        ensures count { Counts (sink_faults (stream_sink self.old))
            (sink_faults (stream_sink self.new)) result }
        ensures nothing { length buf.now ≡ 0
            → (result ≡ Ok 0) × (stream_sink self.new ≡ stream_sink self.old) }
    {
        self.sink.write(buf)
    }
}
