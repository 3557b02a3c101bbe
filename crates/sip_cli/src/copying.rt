//! The commands that copy a stream.

ghost use Rattle.std.specs.Prelude.{◌≡◌, ◌⊎◌, ◌≤◌, ℕ, List, Some, IsSome};
ghost use Rattle.sip_ports.specs.Ports.{GoesOn, Lasts, Rose, outs};
ghost use Rattle.sip_vector.specs.Limits.{most_narrow_depth};
ghost use Rattle.sip_verifier.specs.Snapshots.{counts};
ghost use Rattle.sip_verifier.specs.Statuses.{FaultClause};
ghost use Rattle.sip_cli.specs.CopyClause.{CopyClause};
ghost use Rattle.sip_cli.specs.Statuses.{EndsCopy};

use sip_ports::{Sink, Source};
use sip_stream::{CopyStop, Form, copy};
use sip_vector::Depth;
use sip_verifier::{Port, Status};

/// Writes the legal records of a stream, which is read in one form, to the report in another.
#[inline(never)]
pub(crate) fn copy_stream<A: Source, K: Sink>(
    depth: Depth,
    from: Form,
    to: Form,
    first: &mut A,
    report: &mut K,
) -> Status
    requires { to ≡ Form.Binary → depth ≤ most_narrow_depth }
    ensures copied { (bytes : List ℕ) → A.left first.old ≡ Some bytes
        → CopyClause depth from to bytes (A.left first.new) (K.talk report.old)
        (K.talk report.new) result }
    ensures wrote { IsSome (A.left first.old) → (bytes : List ℕ)
        × GoesOn (K.talk report.old) (K.talk report.new) (outs bytes) }
    ensures told { IsSome (A.left first.old) → IsSome (A.left first.new) }
    ensures fault { (second seconds peer peers keep keeps : ℕ)
        → FaultClause (counts (A.faults first.old) second peer (K.faults report.old) keep)
        (counts (A.faults first.new) seconds peers (K.faults report.new) keeps) result }
    ensures memory { result ≡ Status.OutOfMemory
        → Rose (A.wants first.old) (A.wants first.new)
        ⊎ Rose (K.wants report.old) (K.wants report.new) }
    ensures listed { EndsCopy result }
    ensures first { Lasts A.faults A.wants A.is_sure first.old first.new }
    ensures report { Lasts K.faults K.wants K.is_sure report.old report.new }
{
    match copy(depth, from, to, first, report) {
        Ok(()) => Status::Wrote,
        Err(CopyStop::Bad { at, why }) => Status::BadStream { at, why },
        Err(CopyStop::ReadFault) => Status::ReadFault { port: Port::First },
        Err(CopyStop::WriteFault) => Status::WriteFault { port: Port::Report },
        Err(CopyStop::OutOfMemory) => Status::OutOfMemory,
    }
}
