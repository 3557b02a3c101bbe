//! A stream, copied record by record from one form to another.

ghost use Rattle.std.specs.Prelude.{◌≡◌, ◌⊎◌, ◌<◌, ◌≤◌, ◌+◌, ◌^◌, ◌++◌, [], ℕ, List, Some, None};
ghost use Rattle.std.specs.Prelude.{IsSome, MatchResult, OnOk, Err, Ok, take};
ghost use Rattle.std.specs.Io.KnownBytes.{Consumes};
ghost use Rattle.arrayvec.specs.ArrayVec.{array_vec_len};
ghost use Rattle.sip_ports.specs.Ports.{GoesOn, HasCause, Lasts, Rose, outs};
ghost use Rattle.sip_stream.specs.declared.fault.StreamFault.TheVariants as faults;
ghost use Rattle.sip_stream.specs.Copying.{Copies, stop_of_sink, stop_of_stream};
ghost use Rattle.sip_stream.specs.Layouts.{deepest_in};
ghost use Rattle.sip_stream.specs.Copied.{CopiesOn};
ghost use Rattle.sip_stream.specs.Reading.{HasRead};
ghost use Rattle.sip_stream.specs.Spellings.{all_spelled};
ghost use Rattle.sip_vector.specs.declared.update.Update.{Update};

use crate::spelling::{SPELLING_ROOM, put_update};
use crate::text::put;
use crate::{Form, Reader, StreamFault, Why};
use arrayvec::ArrayVec;
use sip_ports::{PortStop, Sink, Source, write_whole};
use sip_vector::Depth;
use thiserror::Error;

/// How many bytes are gathered before they are written.
const BLOCK: usize = 32_768;

/// Why a copy is not whole.
#[derive(Clone, Copy, Debug, PartialEq, Eq, Error)]
pub enum CopyStop {
    /// Record `at`, numbered from 0, is not legal.
    #[error("record {at} is not legal: {why:?}")]
    Bad {
        /// The record's number.
        at: u64,
        /// Why it is not legal.
        why: Why,
    },
    /// The source failed.
    #[error("the source failed")]
    ReadFault,
    /// The sink failed.
    #[error("the sink failed")]
    WriteFault,
    /// Memory was refused to the source or the sink.
    #[error("out of memory")]
    OutOfMemory,
}

impl From<PortStop> for CopyStop {
    ghost from_gives = { λ stop e. e ≡ stop_of_sink stop };

    fn from(stop: PortStop) -> Self {
        match stop {
            PortStop::Failed => CopyStop::WriteFault,
            PortStop::OutOfMemory => CopyStop::OutOfMemory,
        }
    }
}

impl From<StreamFault> for CopyStop {
    ghost from_gives = { λ fault e. e ≡ stop_of_stream fault };

    fn from(fault: StreamFault) -> Self {
        match fault {
            StreamFault::Bad { at, why } => CopyStop::Bad { at, why },
            StreamFault::ReadFault => CopyStop::ReadFault,
            StreamFault::OutOfMemory => CopyStop::OutOfMemory,
        }
    }
}

// Writes what is gathered where it leaves no room for one more update.
fn make_room<K: Sink>(sink: &mut K, gathered: &mut ArrayVec<u8, BLOCK>) -> Result<(), PortStop>
    ensures talk { MatchResult result
        (λ _. (sent : List ℕ) × (gathered.old.items ≡ sent ++ gathered.new.items)
        × GoesOn (K.talk sink.old) (K.talk sink.new) (outs sent))
        (λ _. (n : ℕ) × (n < array_vec_len gathered.old)
        × GoesOn (K.talk sink.old) (K.talk sink.new) (outs (take n gathered.old.items))) }
    ensures room { OnOk result (array_vec_len gathered.new + SPELLING_ROOM ≤ BLOCK) }
    ensures cause { HasCause K.faults K.wants K.is_sure sink.old sink.new result }
{
    if gathered.remaining_capacity() >= SPELLING_ROOM {
        return Ok(());
    }
    write_whole(sink, gathered.as_slice())?;
    gathered.clear();
    Ok(())
}

// Gathers legal records that the source holds whole, as far as there is room for them, as they lie:
// those that are to be written in the form that they have. Others it leaves alone.
fn gather_as_held<A: Source>(
    to: Form,
    reader: &mut Reader,
    source: &mut A,
    gathered: &mut ArrayVec<u8, BLOCK>,
)
    ensures grown { (us : List Update) × (taken : List ℕ)
        × (gathered.new.items ≡ gathered.old.items ++ all_spelled to us)
        × HasRead reader.old reader.new taken us
        × Consumes (A.left source.old) (A.left source.new) taken }
    ensures told { IsSome (A.left source.old) → IsSome (A.left source.new) }
    ensures source { Lasts A.faults A.wants A.is_sure source.old source.new }
{
    let held = source.held();
    let near = &held[..held.len().min(gathered.remaining_capacity())];
    let used = reader.pass(to, near);
    put(gathered, &near[..used]);
    source.skip(used);
}

// Gathers legal records that the source holds whole, as far as there is room for them, in the
// spelling of a form.
fn gather_spelled<A: Source>(
    to: Form,
    reader: &mut Reader,
    source: &mut A,
    gathered: &mut ArrayVec<u8, BLOCK>,
)
    requires depth { reader.old.depth ≤ deepest_in to }
    ensures grown { (us : List Update) × (taken : List ℕ)
        × (gathered.new.items ≡ gathered.old.items ++ all_spelled to us)
        × HasRead reader.old reader.new taken us
        × Consumes (A.left source.old) (A.left source.new) taken }
    ensures told { IsSome (A.left source.old) → IsSome (A.left source.new) }
    ensures source { Lasts A.faults A.wants A.is_sure source.old source.new }
{
    let used = reader.spell(to, source.held(), gathered);
    source.skip(used);
}

// Gathers legal records that the source holds whole, as far as there is room for them. It may leave
// any of them alone.
fn gather_held<A: Source>(
    to: Form,
    reader: &mut Reader,
    source: &mut A,
    gathered: &mut ArrayVec<u8, BLOCK>,
)
    requires depth { reader.old.depth ≤ deepest_in to }
    ensures grown { (us : List Update) × (taken : List ℕ)
        × (gathered.new.items ≡ gathered.old.items ++ all_spelled to us)
        × HasRead reader.old reader.new taken us
        × Consumes (A.left source.old) (A.left source.new) taken }
    ensures told { IsSome (A.left source.old) → IsSome (A.left source.new) }
    ensures source { Lasts A.faults A.wants A.is_sure source.old source.new }
{
    if reader.form() == to {
        gather_as_held(to, reader, source, gathered);
    } else {
        gather_spelled(to, reader, source, gathered);
    }
}

// Copies until the stream ends, is read no further, or the sink stops. What is gathered then is
// still to be written.
fn copy_on<A: Source, K: Sink>(
    depth: Depth,
    from: Form,
    to: Form,
    source: &mut A,
    sink: &mut K,
    gathered: &mut ArrayVec<u8, BLOCK>,
) -> Result<Option<StreamFault>, PortStop>
    requires depth { depth ≤ deepest_in to }
    requires empty { gathered.old.items ≡ [] }
    ensures copied { (bytes : List ℕ) → A.left source.old ≡ Some bytes
        → CopiesOn depth from to bytes (A.left source.new) (K.talk sink.old)
        (K.talk sink.new) gathered.new.items result }
    ensures told { IsSome (A.left source.old) → IsSome (A.left source.new) }
    ensures read { result ≡ Ok (Some StreamFault.ReadFault)
        → Rose (A.faults source.old) (A.faults source.new) }
    ensures memory { result ≡ Ok (Some StreamFault.OutOfMemory)
        → Rose (A.wants source.old) (A.wants source.new) }
    ensures source { Lasts A.faults A.wants A.is_sure source.old source.new }
    ensures cause { HasCause K.faults K.wants K.is_sure sink.old sink.new result }
{
    let mut reader = Reader::new(depth, from);
    loop {
        let update = match reader.next(source) {
            Ok(Some(update)) => update,
            Ok(None) => return Ok(None),
            Err(fault) => return Ok(Some(fault)),
        };
        make_room(sink, gathered)?;
        put_update(to, &update, gathered);
        gather_held(to, &mut reader, source, gathered);
    }
}

/// Copies the legal records of a stream, read in one form and written in another, in blocks of
/// 32,768 bytes. It takes no memory. Where it writes `Form::Binary`, the depth is at most
/// `Depth::MOST_NARROW`.
///
/// # Errors
///
/// `Bad` exactly where a record is not legal: those before it are written then. `ReadFault` and
/// `WriteFault` only where the count of faults of the source, of the sink, rose; `OutOfMemory` only
/// where the count of wants of one of them rose. A front of the records is written then.
pub fn copy<A: Source, K: Sink>(
    depth: Depth,
    from: Form,
    to: Form,
    source: &mut A,
    sink: &mut K,
) -> Result<(), CopyStop>
    requires { depth ≤ deepest_in to }
    ensures copied { (bytes : List ℕ) → A.left source.old ≡ Some bytes
        → Copies depth from to bytes (A.left source.new) (K.talk sink.old)
        (K.talk sink.new) result }
    ensures told { IsSome (A.left source.old) → IsSome (A.left source.new) }
    ensures read { result ≡ Err CopyStop.ReadFault
        → Rose (A.faults source.old) (A.faults source.new) }
    ensures write { result ≡ Err CopyStop.WriteFault
        → Rose (K.faults sink.old) (K.faults sink.new) }
    ensures memory { result ≡ Err CopyStop.OutOfMemory
        → Rose (A.wants source.old) (A.wants source.new)
        ⊎ Rose (K.wants sink.old) (K.wants sink.new) }
    ensures source { Lasts A.faults A.wants A.is_sure source.old source.new }
    ensures sink { Lasts K.faults K.wants K.is_sure sink.old sink.new }
{
    let mut gathered = ArrayVec::new();
    let stopped = copy_on(depth, from, to, source, sink, &mut gathered)?;
    write_whole(sink, gathered.as_slice())?;
    match stopped {
        Some(fault) => Err(CopyStop::from(fault)),
        None => Ok(()),
    }
}
