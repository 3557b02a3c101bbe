//! Reads records of a stream by the block.

ghost use Rattle.std.specs.Prelude.{◌≡◌, ◌≢◌, ◌<◌, ◌≤◌, ◌++◌, ℕ, List, Some, length, take, false};
ghost use Rattle.std.specs.Prelude.{IsSome};
ghost use Rattle.sip_ports.specs.Ports.{Lasts, Rose};
ghost use Rattle.sip_stream.specs.declared.fault.StreamFault.TheVariants as faults;
ghost use Rattle.sip_stream.specs.Reading.{IsAfter};
ghost use Rattle.sip_vector.specs.declared.update.Update.{Update as AnyUpdate};
ghost use Rattle.sip_sketch.specs.Watching.{GoesOnAfter, ReadsTo};
ghost use Rattle.sip_sketch.specs.declared.filling.Pause.TheVariants as pauses;

use sip_ports::Source;
use sip_stream::{Reader, StreamFault};
use sip_vector::Update;

/// Why no more records were read for now.
#[derive(Clone, Copy, Debug, PartialEq, Eq)]
pub(crate) enum Pause {
    /// There was no room for more.
    Full,
    /// The stream ended.
    Ended,
    /// It is read no further.
    Stopped(StreamFault),
}

/// Reads records to the front of a block until it is full, and answers how many came, and why there
/// are no more. What the source holds is read where it lies.
pub(crate) fn fill<A: Source>(
    reader: &mut Reader,
    first: &mut A,
    block: &mut [Update],
) -> (usize, Pause)
    requires { reader.old.is_spent ≡ false }
    ensures few { result.0 ≤ length block.new }
    ensures len { length block.new ≡ length block.old }
    ensures full { result.1 ≡ pauses.Full → result.0 ≡ length block.new }
    ensures fewer { result.1 ≢ pauses.Full → result.0 < length block.new }
    ensures reads { (before : List AnyUpdate) (bytes : List ℕ) → IsAfter reader.old before
        → A.left first.old ≡ Some bytes → ReadsTo reader.old.depth reader.old.form before bytes
        (A.left first.new) (take result.0 block.new) result.1 }
    ensures after { (before : List AnyUpdate) → IsAfter reader.old before
        → GoesOnAfter reader.new (before ++ take result.0 block.new) result.1 }
    ensures unspent { result.1 ≡ pauses.Full → reader.new.is_spent ≡ false }
    ensures depth { reader.new.depth ≡ reader.old.depth }
    ensures form { reader.new.form ≡ reader.old.form }
    ensures told { IsSome (A.left first.old) → IsSome (A.left first.new) }
    ensures cause { result.1 ≡ pauses.Stopped faults.ReadFault
        → Rose (A.faults first.old) (A.faults first.new) }
    ensures first { Lasts A.faults A.wants A.is_sure first.old first.new }
{
    let mut count = 0;
    while count < block.len() {
        let update = match reader.next(first) {
            Ok(Some(update)) => update,
            Ok(None) => return (count, Pause::Ended),
            Err(fault) => return (count, Pause::Stopped(fault)),
        };
        block[count] = update;
        count += 1;
        count += reader.read_held(first, &mut block[count..]);
    }
    (count, Pause::Full)
}
