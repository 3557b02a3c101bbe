// A sink over a writer. What the writer holds, where that is told, is what was sent.
ghost use Rattle.std.specs.Prelude.{◌≡◌, ◌↔◌, ◌<◌, length, IfOk, IsNone, IsErr};
ghost use Rattle.std.specs.Io.{WritesAtMost};
ghost use Rattle.std.specs.Io.KnownBytes.{WriteAppends};
ghost use Rattle.sip_ports.specs.Ports.{Counts, Sends};
ghost use Rattle.std.proofs.Common.{rules};

use crate::count::Count;
use crate::uninterrupted::write_uninterrupted;
use crate::{PortStop, Sink};
use std::io::Write;

/// A writer to send to. Where there is no writer, every call fails. It takes no memory.
#[derive(Drop)]
pub struct WriterSink<W: Write + Drop> {
    writer: Option<W>,
    faults: Count,
}

impl<W: Write + Drop> WriterSink<W> {
    ghost use Rattle.sip_ports.specs.Edge.{sink_writer, sink_faults};

    /// A sink over this writer, of which no call was made.
    pub fn new(writer: Option<W>) -> Self
        ensures faults { sink_faults result ≡ 0 }
        ensures writer { sink_writer result ≡ writer }
    {
        WriterSink {
            writer,
            faults: Count::none(),
        }
    }
}

impl<W: Write + Drop> Sink for WriterSink<W> {
    ghost use Rattle.sip_ports.specs.Edge.{sink_contents, sink_talk, sink_writer, sink_faults};

    ghost talk = { sink_talk W.contents };

    ghost faults = { sink_faults };

    ghost wants = { λ _. 0 };

    ghost is_sure = { λ _. ⊥ };

    ghost faults_fit = { λ sink. sink.faults.fits };

    ghost wants_fit = { λ _. Prim.search rules };

    ghost sure_counts = { λ _ sure. absurd sure };

    fn write(&mut self, buf: &[u8]) -> Result<usize, PortStop>
        ensures bound { WritesAtMost result buf.now }
        ensures takes { 0 < length buf.now → IfOk result (λ n. 0 < n) }
        ensures bytes { WriteAppends (sink_contents W.contents self.old)
            (sink_contents W.contents self.new) result buf.now }
        ensures count { Counts (sink_faults self.old) (sink_faults self.new) result }
        ensures absent { IsNone (sink_writer self.old) → IsErr result }
        ensures same { IsNone (sink_writer self.new) ↔ IsNone (sink_writer self.old) }
        ensures nothing { ¬ IsNone (sink_writer self.old) → length buf.now ≡ 0
            → (result ≡ Ok 0) × (self.new ≡ self.old) }
    {
        if let Some(writer) = &mut self.writer
            && let Ok(count) = write_uninterrupted(writer, buf)
        {
            return Ok(count);
        }
        Err(self.faults.failed())
    }
}
