// What bytes come from and go to: a source, a sink, and a link, which is a sink that can be heard.
ghost use Rattle.std.specs.Prelude.{◌≡◌, ◌≤◌, ◌<◌, ◌^◌, ◌-◌, List, ℕ, length, take, IfOk, IfSome};
ghost use Rattle.std.specs.Prelude.{OnOk, OnErr};
ghost use Rattle.std.specs.declared.option.Option.{Option};
ghost use Rattle.std.specs.Io.{ReadsAtMost, WritesAtMost, StartsWith};
ghost use Rattle.std.specs.Io.KnownBytes.{Consumes, ReadConsumes};
ghost use Rattle.sip_ports.specs.declared.port.TalkEvent.{TalkEvent};
ghost use Rattle.sip_ports.specs.Ports.{HasCause, StandsStill, Sends, Hears};

/// Why a call of a port stopped. It moved no byte, as far as the port tells its bytes.
#[derive(Clone, Copy, Debug, PartialEq, Eq)]
pub enum PortStop {
    /// The port failed. It is answered only where the port's count of faults rose in this call.
    Failed,
    /// Memory was refused to a port that keeps what passes through it. It is answered only where
    /// the port's count of such refusals rose in this call. The ports over memory count no fault
    /// then.
    OutOfMemory,
}

/// One thing that happened on a sink or a link, in the order in which it happened.
#[derive(Clone, Copy, Debug, PartialEq, Eq)]
pub enum TalkEvent {
    /// A byte was sent.
    Out(u8),
    /// A byte was received.
    In(u8),
    /// A receive found that the other end had closed.
    Ended,
    /// An empty file was made beside the one that is kept.
    Fresh,
    /// A byte was written to it.
    Stored(u8),
    /// It is on the disk, and takes the name of the one that is kept.
    Renames,
    /// That is on the disk.
    Kept,
}

/// Bytes that come. A source over memory tells those that are left, and one over a file tells none.
pub trait Source {
    /// The bytes to come, where they are told.
    ghost left: { Self → Option (List ℕ) };

    /// The bytes to come that earlier calls brought, and that it holds.
    ghost ahead: { Self → List ℕ };

    /// How often it has failed. The count never falls, and stands still at 2^64 - 1.
    ghost faults: { Self → ℕ };

    /// How often memory was refused to it. The count never falls, and stands still at 2^64 - 1. It
    /// is 0 at a port that takes no memory, which then never answers want of it.
    ghost wants: { Self → ℕ };

    /// It never fails.
    ghost is_sure: { Self → Type 0 };

    /// Moves some of the bytes to come to the front of the buffer, and answers how many. It answers
    /// 0 at the end, or where the buffer is empty. A call that stops moves nothing, where the bytes
    /// are told, and what it holds it still holds.
    fn read(&mut self, buf: &mut [u8]) -> Result<usize, PortStop>
        ensures bound { ReadsAtMost result buf.new }
        ensures bytes { ReadConsumes (left self.old) (left self.new) result buf.new }
        ensures kept { OnErr result (ahead self.new ≡ ahead self.old) }
        ensures empty { length buf.old ≡ 0
            → OnOk result (StandsStill faults wants self.old self.new) }
        ensures cause { HasCause faults wants is_sure self.old self.new result };

    /// The bytes that it holds, to be read where they lie: a front of those to come, where they are
    /// told. A source that holds none answers an empty slice, which says nothing about the end.
    fn held(&self) -> &[u8]
        ensures bytes { result.now ≡ ahead self.now }
        ensures front { IfSome (left self.now) (λ bytes. StartsWith bytes result.now) };

    /// Drops bytes that it holds from the front, so many, as a read of them does. It cannot fail.
    fn skip(&mut self, count: usize)
        requires held { count ≤ length (ahead self.old) }
        ensures bytes { Consumes (left self.old) (left self.new) (take count (ahead self.old)) }
        ensures counts { StandsStill faults wants self.old self.new }
        ensures sure { is_sure self.old → is_sure self.new };

    ghost faults_fit: { (source : Self) → faults source < 2 ^ 64 };

    ghost wants_fit: { (source : Self) → wants source < 2 ^ 64 };

    ghost sure_counts: { (source : Self) → is_sure source → faults source ≡ 0 };
}

/// Where bytes go. A sink over memory tells what happened on it, and one over a file does not.
pub trait Sink {
    /// What happened on it, where it is told.
    ghost talk: { Self → Option (List TalkEvent) };

    /// How often it has failed. The count never falls, and stands still at 2^64 - 1.
    ghost faults: { Self → ℕ };

    /// How often memory was refused to it. The count never falls, and stands still at 2^64 - 1. It
    /// is 0 at a port that takes no memory, which then never answers want of it.
    ghost wants: { Self → ℕ };

    /// It never fails.
    ghost is_sure: { Self → Type 0 };

    /// Sends bytes from the front of the buffer, and answers how many: at least one, unless the
    /// buffer is empty. A call that stops sends nothing, where the talk is told.
    fn write(&mut self, buf: &[u8]) -> Result<usize, PortStop>
        ensures bound { WritesAtMost result buf.now }
        ensures takes { 0 < length buf.now → IfOk result (λ n. 0 < n) }
        ensures talk { Sends (talk self.old) (talk self.new) result buf.now }
        ensures empty { length buf.now ≡ 0
            → OnOk result (StandsStill faults wants self.old self.new) }
        ensures cause { HasCause faults wants is_sure self.old self.new result };

    ghost faults_fit: { (sink : Self) → faults sink < 2 ^ 64 };

    ghost wants_fit: { (sink : Self) → wants sink < 2 ^ 64 };

    ghost sure_counts: { (sink : Self) → is_sure sink → faults sink ≡ 0 };
}

/// A sink whose other end can be heard. What is received joins the talk, and faults and wants of
/// memory join the sink's counts.
pub trait Link: Sink {
    /// Receives some bytes into the front of the buffer, and answers how many. It answers 0 where
    /// the other end has closed, or where the buffer is empty. A call that stops receives nothing,
    /// where the talk is told.
    fn recv(&mut self, buf: &mut [u8]) -> Result<usize, PortStop>
        ensures bound { ReadsAtMost result buf.new }
        ensures talk { Hears (Self.talk self.old) (Self.talk self.new) result buf.new }
        ensures empty { length buf.old ≡ 0
            → OnOk result (StandsStill Self.faults Self.wants self.old self.new) }
        ensures cause { HasCause Self.faults Self.wants Self.is_sure self.old self.new result };
}
