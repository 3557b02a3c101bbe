//! Reads what a sketch has already of a stream.

ghost use Rattle.std.specs.Prelude.{◌≡◌, ◌≢◌, ◌<◌, ◌≤◌, [], ℕ, List, Some, IsSome, length};
ghost use Rattle.sip_ports.specs.Ports.{Lasts, Rose};
ghost use Rattle.sip_stream.specs.declared.fault.StreamFault.TheVariants as faults;
ghost use Rattle.sip_vector.specs.declared.update.Update.{Update as AnyUpdate};
ghost use Rattle.sip_sketch.specs.Watching.{ReadsTo};
ghost use Rattle.sip_sketch.specs.declared.filling.Pause.TheVariants as pauses;

use crate::MOST_UPDATES;
use crate::filling::{Pause, fill};
use sip_ports::Source;
use sip_stream::{Form, Reader};
use sip_vector::{Depth, Update};

/// Reads so many records of a stream, each of which has to be legal after those before it, by the
/// block, and answers how many came, and why there are no more.
pub(crate) fn pass_over<A: Source>(
    depth: Depth,
    form: Form,
    count: u64,
    first: &mut A,
    block: &mut [Update],
) -> (u64, Pause)
    requires { length block.old ≡ MOST_UPDATES }
    ensures most { result.0 ≤ count }
    ensures full { result.1 ≡ pauses.Full → result.0 ≡ count }
    ensures fewer { result.1 ≢ pauses.Full → result.0 < count }
    ensures passed { (passed : List AnyUpdate) × (length passed ≡ result.0)
        × ((bytes : List ℕ) → A.left first.old ≡ Some bytes
        → ReadsTo depth form [] bytes (A.left first.new) passed result.1) }
    ensures told { IsSome (A.left first.old) → IsSome (A.left first.new) }
    ensures cause { result.1 ≡ pauses.Stopped faults.ReadFault
        → Rose (A.faults first.old) (A.faults first.new) }
    ensures first { Lasts A.faults A.wants A.is_sure first.old first.new }
{
    let mut reader = Reader::new(depth, form);
    let mut passed = 0;
    while passed < count {
        let most = (count - passed).min(MOST_UPDATES as u64) as usize;
        let (more, pause) = fill(&mut reader, first, &mut block[..most]);
        passed += more as u64;
        match pause {
            Pause::Full => {}
            ended => return (passed, ended),
        }
    }
    (passed, Pause::Full)
}
