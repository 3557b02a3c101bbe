// A sub-vector that is asked for by itself, by the root that a seat shows.
ghost use Rattle.std.specs.Prelude.{◌≡◌};

use crate::session_facts::expect;
use sip_check_tests::events::events;
use sip_field::{Field, M61};
use sip_ports::{MemoryLink, MemorySink};
use sip_vector::{Depth, Entry, Query, Side, Update};
use sip_verifier::{Seats, Verdict, ask_sub};
use sip_wire::{Frame, Reason, Version};
use std::alloc::Global;
use std::process::Abort;
use std::test::Fail;

fn update(item: u64, delta: i64) -> Update
    ensures { result.item ≡ item }
{
    Update {
        side: Side::First,
        item,
        delta,
    }
}

// Seats of a sub-vector and of a second moment, both at the challenges (2, 10), behind the vector
// (3, 0, 5, 1).
fn seats() -> Result<Seats, Fail> {
    let depth = Depth::new(2).ok_or("a depth")?;
    let queries = [Query::Sub { lo: 0, hi: 0 }, Query::F2 { side: Side::First }];
    let challenges = [M61::of(2), M61::of(10), M61::of(2), M61::of(10)];
    let mut seats = Seats::given(depth, &queries, &challenges);
    seats.update_all(&[update(0, 3), update(2, 5), update(3, 1)]);
    Ok(seats)
}

// The modulus.
const P: u64 = 2_305_843_009_213_693_951;

// The root of (3, 0, 5, 1) is 3 + 10·5 + 2·10·1, and its extension is -3.
#[test]
fn seats_show_their_running_numbers(rt: HostRuntime) -> Result<(), Fail> {
    let seats = seats()?;
    let facts = [
        seats.root(0).is_some_and(|root| root.value == 73),
        seats.point(1).is_some_and(|point| point.value == P - 3),
        seats.root(1).is_none(),
        seats.root(2).is_none(),
        seats.point(0).is_none(),
        seats.point(2).is_none(),
    ];
    expect(&rt, "what seats show", &facts);
    Ok(())
}

// The honest reply 0 about the entries 1 to 2, the entry (2, 5) with both siblings, but for the
// left sibling, which is this; and reply 1, which has no siblings.
fn replies(left: u8) -> ([u8; 37], [u8; 4]) {
    let first = [
        0x13, 0, 0x0e, 0, 1, 0, 0, 0, 2, 0, 0, 0, 0, 0, 0, 0, 5, 0x14, 0, 0x11, 3, 0, 0, 0, 0, 0,
        0, 0, left, 0, 0, 0, 0, 0, 0, 0, 1,
    ];
    (first, [0x14, 0, 1, 0])
}

// Of a talk over these replies: whether this comes of it, so many entries are shown then, and each
// part was said in its turn.
fn is_asked(
    rt: &impl Abort,
    alloc: Global,
    left: u8,
    want: Verdict,
    shown: &[Entry],
) -> Result<[bool; 3], Fail> {
    let seats = seats()?;
    let root = seats.root(0).ok_or("a root")?;
    if root.seat.depth() != 2 {
        return Err("two challenges")?;
    }
    let (first, second) = replies(left);
    let parts = [
        (true, [4, 0, 9, 1, 0, 0, 0, 1, 0, 0, 0, 2].as_slice()),
        (false, first.as_slice()),
        (true, [5, 0, 8, 0, 0, 0, 0, 0, 0, 0, 2].as_slice()),
        (false, second.as_slice()),
    ];
    let incoming = [first.as_slice(), second.as_slice()].concat(alloc);
    let incoming = incoming.expect(rt, "memory");
    let mut peer = MemoryLink::new(alloc, incoming, 1, Vec::new(alloc));
    let mut keep = MemorySink::new(alloc, 1, Vec::new(alloc));
    let mut frame = Frame::new(alloc).ok().expect(rt, "a frame");
    let mut entries = Vec::with_capacity(alloc, 2).expect(rt, "memory");
    let verdict = ask_sub(
        Version::One,
        root,
        1,
        2,
        &mut peer,
        &mut keep,
        &mut frame,
        &mut entries,
    );
    let said = events(alloc, &parts).expect(rt, "memory");
    Ok([
        verdict == Ok(want),
        entries.as_slice() == shown,
        peer.talk() == said.as_slice(),
    ])
}

#[test]
fn a_sub_vector_is_asked_for_by_a_root(rt: HostRuntime) -> Result<(), Fail> {
    let entries = [Entry { index: 2, value: 5 }];
    let facts = is_asked(&rt, rt.alloc(), 3, Verdict::Pairs, &entries)?;
    expect(&rt, "a sub-vector by a root", &facts);
    Ok(())
}

#[test]
fn a_sub_vector_with_a_wrong_sibling_is_rejected(rt: HostRuntime) -> Result<(), Fail> {
    let rejected = Verdict::Rejected {
        round: 2,
        reason: Reason::Root,
    };
    let facts = is_asked(&rt, rt.alloc(), 4, rejected, &[])?;
    expect(&rt, "a wrong sibling", &facts);
    Ok(())
}
