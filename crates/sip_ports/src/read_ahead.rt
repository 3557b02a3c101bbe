// Bytes that were read from a reader before they were asked for.
ghost use Rattle.std.specs.Prelude.{◌≡◌, ℕ, ◌<◌, ◌≤◌, min, List, [], ◌++◌, length, take, drop};
ghost use Rattle.std.specs.Prelude.{OnOk, OnErr};
ghost use Rattle.std.specs.Io.{ReadsAtMost};
ghost use Rattle.std.specs.Io.KnownBytes.{Consumes, IsAtEnd, Keeps, ReadConsumes, prepend_known};
ghost use Rattle.sip_ports.specs.ReadAhead.{GivesHeld};

use crate::give::give;
use crate::uninterrupted::read_uninterrupted;
use std::io;
use std::io::Read;
use std::marker::Model;

/// 1,260 records of 13 bytes fit, and each frame. A FIFO holds four times as many: an end that
/// waits to write is woken less often, the more is read at once.
const CAPACITY: usize = 16_384;

/// The bytes that were read and not yet given, in order. It is of a fixed size, and takes no
/// memory.
#[derive(Drop)]
pub struct ReadAhead {
    bytes: [u8; CAPACITY],
    start: usize,
    end: usize,
}

impl Model for ReadAhead {
    ghost Value = { List ℕ };

    ghost view = { λ ahead. drop ahead.start (take ahead.end ahead.bytes) };

    ghost invariant = { λ ahead. (ahead.start ≤ ahead.end) × (ahead.end ≤ 16384) };
}

impl ReadAhead {
    /// Nothing was read yet.
    pub fn new() -> Self
        ensures { result ≡ [] }
    {
        ReadAhead {
            bytes: [0; CAPACITY],
            start: 0,
            end: 0,
        }
    }

    fn len(&self) -> usize
        ensures { result ≡ length self.now }
    {
        self.end - self.start
    }

    /// The bytes that it holds, where they lie.
    pub fn held(&self) -> &[u8]
        ensures { result.now ≡ self.now }
    {
        &self.bytes[self.start..self.end]
    }

    /// Drops bytes that it holds from the front, so many.
    pub fn skip(&mut self, count: usize)
        requires { count ≤ length self.old }
        ensures { self.new ≡ drop count self.old }
    {
        self.start += count;
    }

    // Reads once, for as many bytes as there is room for.
    fn fill<R: Read>(&mut self, reader: &mut R) -> io::Result<()>
        requires { length self.old ≡ 0 }
        ensures bytes { OnOk result
            (Consumes (R.remaining reader.old) (R.remaining reader.new) self.new) }
        ensures end { OnOk result (self.new ≡ [] → IsAtEnd (R.remaining reader.new)) }
        ensures err { OnErr result
            ((self.new ≡ []) × Keeps (R.remaining reader.old) (R.remaining reader.new)) }
    {
        self.start = 0;
        self.end = 0;
        self.end = read_uninterrupted(reader, &mut self.bytes)?;
        Ok(())
    }

    // Gives as many bytes as it holds and the buffer has room for.
    fn take(&mut self, buf: &mut [u8]) -> usize
        ensures count { result ≡ min (length buf.old) (length self.old) }
        ensures bytes { self.old ≡ take result buf.new ++ self.new }
    {
        let count = buf.len().min(self.end - self.start);
        give(&self.bytes[..self.end], self.start, count, buf);
        self.skip(count);
        count
    }

    /// Gives what it holds, and reads once where it holds nothing and something is asked for.
    pub fn read<R: Read>(&mut self, reader: &mut R, buf: &mut [u8]) -> io::Result<usize>
        ensures bound { ReadsAtMost result buf.new }
        ensures bytes { ReadConsumes (prepend_known self.old (R.remaining reader.old))
            (prepend_known self.new (R.remaining reader.new)) result buf.new }
        ensures held { GivesHeld self.old self.new result buf.new }
        ensures untouched { 0 < length self.old → reader.new ≡ reader.old }
        ensures nothing { length buf.old ≡ 0
            → (result ≡ Ok 0) × (self.new ≡ self.old) × (reader.new ≡ reader.old) }
        ensures err { OnErr result (self.new ≡ self.old) }
    {
        if buf.is_empty() {
            return Ok(0);
        }
        if self.len() == 0 {
            self.fill(reader)?;
        }
        Ok(self.take(buf))
    }
}
