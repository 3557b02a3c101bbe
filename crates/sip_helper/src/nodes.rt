//! The leaves, marks or nodes that are shown of a level, on their way to the verifier.

ghost use Rattle.std.specs.Prelude.{◌≡◌, ◌<◌, ◌++◌, [], All, IsTrue, length, map};
ghost use Rattle.std.specs.List.{flat_map};
ghost use Rattle.sip_field.specs.Moduli.{m61_modulus};
ghost use Rattle.sip_ports.specs.Ports.{HasCause, SendsWhole};
ghost use Rattle.sip_wire.specs.Spelling.{fits, spelling};
ghost use Rattle.sip_heavy.specs.Honest.{its_nodes, leaf_frames, mark_frames, node_frames};
ghost use Rattle.sip_heavy.specs.Honest.{opening_frames};
ghost use Rattle.sip_heavy.specs.Spots.{from_on};

use crate::shown_row::ShownRow;
use arrayvec::ArrayVec;
use sip_field::M61;
use sip_heavy::{HeavyProver, LeafForm};
use sip_ports::{PortStop, Sink};
use sip_wire::{Leaf, MOST_NODES, MOST_ROWS, Mark, Message, Node, Version, encode};

/// The first rows from an index on that are shown, as many as a frame has, and the index from which
/// on the others stand.
fn next_rows<T: ShownRow, const CAP: usize>(
    prover: &HeavyProver<M61>,
    from: u64,
) -> (ArrayVec<T, CAP>, u64)
    ensures split { map T.row_of (from_on from (its_nodes prover.now)) ≡ result.0.items
        ++ map T.row_of (from_on result.1 (its_nodes prover.now)) }
    ensures last { length result.0.items < CAP
        → map T.row_of (from_on result.1 (its_nodes prover.now)) ≡ [] }
{
    // The proof wants the length of the level.
    let _ = prover.levels_left();
    let mut rows = ArrayVec::new();
    let mut next = from;
    let mut near = 0;
    while let Some(node) = prover.next_node(&mut near, next) {
        if rows.is_full() {
            return (rows, next);
        }
        rows.push(T::of_node(&node));
        next = node.index + 1;
    }
    (rows, next)
}

// The rows of a frame lie on the stack, so each kind is sent by a call of its own: the stack never
// has those of two.

/// Sends the leaves that are shown of the lowest level, in full frames and a last one of the rest.
/// It takes no memory.
#[inline(never)]
fn put_leaves<K: Sink>(
    version: Version,
    prover: &HeavyProver<M61>,
    out: &mut K,
) -> Result<(), PortStop>
    requires fit { All (λ m. IsTrue (fits version m)) (leaf_frames (its_nodes prover.now)) }
    ensures talk { SendsWhole (K.talk out.old) (K.talk out.new) result
        (flat_map (spelling version) (leaf_frames (its_nodes prover.now))) }
    ensures cause { HasCause K.faults K.wants K.is_sure out.old out.new result }
{
    let mut next = 0;
    loop {
        let (rows, behind) = next_rows::<Leaf, MOST_ROWS>(prover, next);
        if rows.is_empty() {
            return Ok(());
        }
        let is_last = !rows.is_full();
        encode(&Message::Leaves(rows), version, out)?;
        if is_last {
            return Ok(());
        }
        next = behind;
    }
}

/// The same of marks.
#[inline(never)]
fn put_marks<K: Sink>(
    version: Version,
    prover: &HeavyProver<M61>,
    out: &mut K,
) -> Result<(), PortStop>
    requires fit { All (λ m. IsTrue (fits version m)) (mark_frames m61_modulus (its_nodes prover.now)) }
    ensures talk { SendsWhole (K.talk out.old) (K.talk out.new) result
        (flat_map (spelling version) (mark_frames m61_modulus (its_nodes prover.now))) }
    ensures cause { HasCause K.faults K.wants K.is_sure out.old out.new result }
{
    let mut next = 0;
    loop {
        let (rows, behind) = next_rows::<Mark, MOST_NODES>(prover, next);
        if rows.is_empty() {
            return Ok(());
        }
        let is_last = !rows.is_full();
        encode(&Message::Marks(rows), version, out)?;
        if is_last {
            return Ok(());
        }
        next = behind;
    }
}

/// The same of the nodes of a level above.
#[inline(never)]
fn put_nodes<K: Sink>(
    version: Version,
    prover: &HeavyProver<M61>,
    out: &mut K,
) -> Result<(), PortStop>
    requires fit { All (λ m. IsTrue (fits version m)) (node_frames (its_nodes prover.now)) }
    ensures talk { SendsWhole (K.talk out.old) (K.talk out.new) result
        (flat_map (spelling version) (node_frames (its_nodes prover.now))) }
    ensures cause { HasCause K.faults K.wants K.is_sure out.old out.new result }
{
    let mut next = 0;
    loop {
        let (rows, behind) = next_rows::<Node, MOST_NODES>(prover, next);
        if rows.is_empty() {
            return Ok(());
        }
        let is_last = !rows.is_full();
        encode(&Message::Nodes(rows), version, out)?;
        if is_last {
            return Ok(());
        }
        next = behind;
    }
}

/// Sends what is shown of a level: leaves or marks where it is the lowest, and else nodes.
pub fn put_level<K: Sink>(
    version: Version,
    prover: &HeavyProver<M61>,
    is_lowest: bool,
    out: &mut K,
) -> Result<(), PortStop>
    requires lowest { prover.now.is_leaf ≡ is_lowest }
    requires fit { All (λ m. IsTrue (fits version m)) (opening_frames m61_modulus prover.now) }
    ensures talk { SendsWhole (K.talk out.old) (K.talk out.new) result
        (flat_map (spelling version) (opening_frames m61_modulus prover.now)) }
    ensures cause { HasCause K.faults K.wants K.is_sure out.old out.new result }
{
    if !is_lowest {
        return put_nodes(version, prover, out);
    }
    match prover.form() {
        LeafForm::Count => put_leaves(version, prover, out),
        LeafForm::Mark => put_marks(version, prover, out),
    }
}
