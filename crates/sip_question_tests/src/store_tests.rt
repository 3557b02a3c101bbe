// What a helper of questions with a store of its own says, over whole talks, and where it stops.
ghost use Rattle.std.specs.Prelude.{◌≤◌};

use crate::facts::expect;
use crate::store_rows::{BAD, HELD_4, OPEN, RECALL_ALL, RECORDS, SERVED, STOPPED, StoreRow};
use sip_check_tests::events::sent_in;
use sip_check_tests::frames::BYE;
use sip_field::OutOfMemory;
use sip_ports::{MemoryLink, MemorySource};
use sip_questions::{StoreStatus, serve_store};
use sip_stream::Form;
use std::alloc::Global;
use std::process::Abort;

// Serves a talk over a store, both in pieces of this size: how it ends, and what is sent. The calls
// of the store and of the link with these numbers fail.
pub(crate) fn served(
    alloc: Global,
    talk: (Form, &[u8], &[u8]),
    chunk: usize,
    fails: (&[u64], &[u64]),
) -> Result<(StoreStatus, Vec<u8>), OutOfMemory>
    requires { 1 ≤ chunk }
{
    let (form, store, incoming) = talk;
    let (unread, unheard) = fails;
    let mut first = MemorySource::new(store.to_vec(alloc)?, chunk, unread.to_vec(alloc)?);
    let incoming = incoming.to_vec(alloc)?;
    let mut link = MemoryLink::new(alloc, incoming, chunk, unheard.to_vec(alloc)?);
    let mut again = MemorySource::new(store.to_vec(alloc)?, chunk, Vec::new(alloc));
    let status = serve_store(alloc, form, &mut first, &mut again, &mut link);
    let sent = sent_in(alloc, link.talk())?;
    Ok((status, sent))
}

// The number of the first row that does not end so, or in which something else is sent, in pieces
// of one byte or in one piece.
fn first_unserved(alloc: Global, rows: &[StoreRow]) -> Result<Option<usize>, OutOfMemory> {
    for (number, (form, store, parts, end, sent)) in rows.iter().enumerate() {
        let talk = parts.concat(alloc)?;
        let want = sent.concat(alloc)?;
        let slow = served(alloc, (*form, store, &talk), 1, (&[], &[]))?;
        let fast = served(alloc, (*form, store, &talk), 10_000, (&[], &[]))?;
        let whole = slow.1 == want && fast.1 == want;
        if slow.0 != *end || fast.0 != *end || !whole {
            return Ok(Some(number));
        }
    }
    Ok(None)
}

fn are_served(rt: &impl Abort, alloc: Global, rows: &[StoreRow]) {
    let unserved = first_unserved(alloc, rows).expect(rt, "memory");
    assert_eq!(rt; unserved, None);
}

#[test]
fn a_store_is_heard_as_far_as_it_is_asked_for(rt: HostRuntime) {
    are_served(&rt, rt.alloc(), &SERVED);
}

#[test]
fn a_bad_record_ends_the_talk_where_it_is_asked_for(rt: HostRuntime) {
    are_served(&rt, rt.alloc(), &BAD);
}

#[test]
fn what_may_not_come_in_a_talk_over_a_store(rt: HostRuntime) {
    are_served(&rt, rt.alloc(), &STOPPED);
}

// A talk about all records. The store is read five times, once for each record and once for its
// end, and the link is called six times, twice for each frame with a body.
const ALL: [&[u8]; 3] = [&OPEN, &RECALL_ALL, &BYE];

#[test]
fn each_fault_of_the_store_ends_the_talk_before_it_is_said_what_was_heard(rt: HostRuntime) {
    let alloc = rt.alloc();
    let talk = ALL.concat(alloc).expect(&rt, "memory");
    for call in 1..=6 {
        let over = (Form::Binary, RECORDS.as_slice(), talk.as_slice());
        let (end, sent) = served(alloc, over, 10_000, (&[call], &[])).expect(&rt, "memory");
        let (want, said): (StoreStatus, &[u8]) = if call <= 5 {
            (StoreStatus::ReadFault, &[])
        } else {
            (StoreStatus::Served, &HELD_4)
        };
        expect(&rt, "store", &[end == want, sent.as_slice() == said]);
    }
}

#[test]
fn each_fault_of_the_link_ends_the_talk(rt: HostRuntime) {
    let alloc = rt.alloc();
    let talk = ALL.concat(alloc).expect(&rt, "memory");
    for call in 1..=7 {
        let over = (Form::Binary, RECORDS.as_slice(), talk.as_slice());
        let (end, sent) = served(alloc, over, 10_000, (&[], &[call])).expect(&rt, "memory");
        let want = if call <= 6 {
            StoreStatus::PeerFault
        } else {
            StoreStatus::Served
        };
        let said: &[u8] = if call <= 5 { &[] } else { &HELD_4 };
        expect(&rt, "link", &[end == want, sent.as_slice() == said]);
    }
}
