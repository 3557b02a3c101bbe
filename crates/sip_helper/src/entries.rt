//! The entries of an answer, on their way to the verifier.

ghost use Rattle.std.specs.Prelude.{◌≡◌, ◌<◌, ◌≤◌, ◌^◌, ◌++◌, [], length};
ghost use Rattle.std.specs.List.{flat_map};
ghost use Rattle.sip_ports.specs.Ports.{HasCause, SendsWhole};
ghost use Rattle.sip_vector.specs.Limits.{most_depth};
ghost use Rattle.sip_vector.specs.Vectors.{nonzero_within};
ghost use Rattle.sip_wire.specs.Spelling.{spelling};
ghost use Rattle.sip_wire.specs.Table.{most_rows};
ghost use Rattle.sip_wire.specs.Versions.{deepest};
ghost use Rattle.sip_subvec.specs.Honest.{entry_frames};

use arrayvec::ArrayVec;
use sip_ports::{PortStop, Sink};
use sip_vector::{Entry, Vector};
use sip_wire::{MOST_ROWS, Message, Version, encode};

/// Writes the first entries from `from` to `hi` that are not 0 to `rows`, as many as a frame has,
/// and answers the index from which on the others stand.
fn next_rows(vector: &Vector, from: u64, hi: u64, rows: &mut ArrayVec<Entry, MOST_ROWS>) -> u64
    requires within { hi < 2 ^ vector.now.depth }
    requires deep { vector.now.depth ≤ most_depth }
    requires empty { rows.old.items ≡ [] }
    ensures split { nonzero_within from hi vector.now.numbers ≡ rows.new.items
        ++ nonzero_within result hi vector.now.numbers }
    ensures few { length rows.new.items ≤ most_rows }
    ensures last { length rows.new.items < most_rows
        → nonzero_within result hi vector.now.numbers ≡ [] }
{
    let mut next = from;
    while let Some(entry) = vector.next_entry(next, hi) {
        if rows.is_full() {
            return next;
        }
        rows.push(entry);
        next = entry.index + 1;
    }
    next
}

/// Sends the entries from `lo` to `hi` that are not 0, in full frames and a last one of the rest.
/// It takes no memory.
#[inline(never)]
pub(crate) fn put_entries<K: Sink>(
    version: Version,
    vector: &Vector,
    lo: u64,
    hi: u64,
    out: &mut K,
) -> Result<(), PortStop>
    requires within { hi < 2 ^ vector.now.depth }
    requires deep { vector.now.depth ≤ deepest version }
    ensures talk { SendsWhole (K.talk out.old)
        (K.talk out.new) result (flat_map (spelling version) (entry_frames
        (nonzero_within lo hi vector.now.numbers))) }
    ensures cause { HasCause K.faults K.wants K.is_sure out.old out.new result }
{
    // No entry is heavier than all that was added, so each has a spelling.
    let weight = vector.weight();
    prove!(weight < 1 << 30);
    let mut next = lo;
    loop {
        let mut rows = ArrayVec::new();
        let behind = next_rows(vector, next, hi, &mut rows);
        if rows.is_empty() {
            return Ok(());
        }
        encode(&Message::Entries(rows), version, out)?;
        next = behind;
    }
}
