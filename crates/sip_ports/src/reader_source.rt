// A source over a reader. What the reader tells, the source tells: the bytes that it holds, and
// then the reader's.
ghost use Rattle.std.specs.Prelude.{◌≡◌, ◌↔◌, ◌<◌, ◌≤◌, [], length, take, drop, IsNone, IsErr};
ghost use Rattle.std.specs.Prelude.{IfSome, OnErr};
ghost use Rattle.std.specs.Io.{ReadsAtMost, StartsWith};
ghost use Rattle.std.specs.Io.KnownBytes.{Consumes, ReadConsumes};
ghost use Rattle.sip_ports.specs.Ports.{Counts};
ghost use Rattle.sip_ports.specs.ReadAhead.{GivesHeld};
ghost use Rattle.std.proofs.Common.{rules};

use crate::count::Count;
use crate::read_ahead::ReadAhead;
use crate::{PortStop, Source};
use std::io::Read;

/// The bytes of a reader, read through a buffer of its own. Where there is no reader, every call
/// fails. It takes no memory.
#[derive(Drop)]
pub struct ReaderSource<R: Read + Drop> {
    reader: Option<R>,
    ahead: ReadAhead,
    faults: Count,
}

impl<R: Read + Drop> ReaderSource<R> {
    ghost use Rattle.sip_ports.specs.Edge.{source_reader, source_faults, source_ahead};

    /// A source over this reader, of which nothing was read and no call was made.
    pub fn new(reader: Option<R>) -> Self
        ensures faults { source_faults result ≡ 0 }
        ensures ahead { source_ahead result ≡ [] }
        ensures reader { source_reader result ≡ reader }
    {
        ReaderSource {
            reader,
            ahead: ReadAhead::new(),
            faults: Count::none(),
        }
    }
}

impl<R: Read + Drop> Source for ReaderSource<R> {
    ghost use Rattle.sip_ports.specs.Edge.{source_left, source_reader, source_faults, source_ahead};

    ghost left = { source_left R.remaining };

    ghost ahead = { source_ahead };

    ghost faults = { source_faults };

    ghost wants = { λ _. 0 };

    ghost is_sure = { λ _. ⊥ };

    ghost faults_fit = { λ source. source.faults.fits };

    ghost wants_fit = { λ _. Prim.search rules };

    ghost sure_counts = { λ _ sure. absurd sure };

    fn read(&mut self, buf: &mut [u8]) -> Result<usize, PortStop>
        ensures bound { ReadsAtMost result buf.new }
        ensures bytes { ReadConsumes (source_left R.remaining self.old)
            (source_left R.remaining self.new) result buf.new }
        ensures count { Counts (source_faults self.old) (source_faults self.new) result }
        ensures absent { IsNone (source_reader self.old) → IsErr result }
        ensures same { IsNone (source_reader self.new) ↔ IsNone (source_reader self.old) }
        ensures nothing { ¬ IsNone (source_reader self.old) → length buf.old ≡ 0
            → (result ≡ Ok 0) × (self.new ≡ self.old) }
        ensures held { ¬ IsNone (source_reader self.old)
            → GivesHeld (source_ahead self.old) (source_ahead self.new) result buf.new }
        ensures untouched { 0 < length (source_ahead self.old)
            → source_reader self.new ≡ source_reader self.old }
        ensures kept { OnErr result (source_ahead self.new ≡ source_ahead self.old) }
    {
        if let Some(reader) = &mut self.reader
            && let Ok(count) = self.ahead.read(reader, buf)
        {
            return Ok(count);
        }
        Err(self.faults.failed())
    }

    fn held(&self) -> &[u8]
        ensures bytes { result.now ≡ source_ahead self.now }
        ensures front { IfSome (source_left R.remaining self.now)
            (λ bytes. StartsWith bytes result.now) }
    {
        self.ahead.held()
    }

    fn skip(&mut self, count: usize)
        requires held { count ≤ length (source_ahead self.old) }
        ensures bytes { Consumes (source_left R.remaining self.old)
            (source_left R.remaining self.new) (take count (source_ahead self.old)) }
        ensures ahead { source_ahead self.new ≡ drop count (source_ahead self.old) }
        ensures faults { source_faults self.new ≡ source_faults self.old }
        ensures reader { source_reader self.new ≡ source_reader self.old }
    {
        self.ahead.skip(count);
    }
}
