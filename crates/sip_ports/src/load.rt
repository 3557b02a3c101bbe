// What a desk loads of a file: its first bytes.
ghost use Rattle.std.specs.Prelude.{◌<◌, ◌≤◌, length, IfOk, IsErrOf};
ghost use Rattle.std.specs.Io.KnownBytes.{Consumes, IsAtEnd};
ghost use Rattle.sip_ports.specs.Ports.{Lasts, Rose};

use crate::{DeskStop, LONGEST_LOAD, Source, read_exact_into};
use std::alloc::Global;

// All bytes to come of a source, or the first of them, so many.
fn first_bytes<S: Source>(alloc: Global, source: &mut S, most: usize) -> Result<Vec<u8>, DeskStop>
    ensures bytes { IfOk result (λ bytes.
        Consumes (S.left source.old) (S.left source.new) bytes.items) }
    ensures bound { IfOk result (λ bytes. length bytes.items ≤ most) }
    ensures end { IfOk result (λ bytes.
        length bytes.items < most → IsAtEnd (S.left source.new)) }
    ensures failed { IsErrOf result DeskStop.Failed
        → Rose (S.faults source.old) (S.faults source.new) }
    ensures free { ¬ IsErrOf result DeskStop.Busy }
    ensures lasts { Lasts S.faults S.wants S.is_sure source.old source.new }
{
    let mut bytes = vec![in alloc; 0; most]?;
    let count = read_exact_into(source, &mut bytes)?;
    bytes.truncate(count);
    Ok(bytes)
}

/// All bytes to come of a source, or the first [`LONGEST_LOAD`] of them. It takes memory for so
/// many, and a refusal is answered as the source's own.
pub fn load_front<S: Source>(alloc: Global, source: &mut S) -> Result<Vec<u8>, DeskStop>
    ensures bytes { IfOk result (λ bytes.
        Consumes (S.left source.old) (S.left source.new) bytes.items) }
    ensures bound { IfOk result (λ bytes. length bytes.items ≤ LONGEST_LOAD) }
    ensures end { IfOk result (λ bytes.
        length bytes.items < LONGEST_LOAD → IsAtEnd (S.left source.new)) }
    ensures failed { IsErrOf result DeskStop.Failed
        → Rose (S.faults source.old) (S.faults source.new) }
    ensures free { ¬ IsErrOf result DeskStop.Busy }
    ensures lasts { Lasts S.faults S.wants S.is_sure source.old source.new }
{
    first_bytes(alloc, source, LONGEST_LOAD)
}
