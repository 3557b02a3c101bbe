// A helper over a store without a link, over the talks of one that has a link.
ghost use Rattle.sip_steps.specs.StoreServed.{IsUnderWay};

use crate::facts::expect;
use crate::pieces::{Row, cut_in_two, in_pieces};
use sip_check_tests::frames::BYE;
use sip_ports::{MemorySink, MemorySource};
use sip_question_tests::store_rows::{
    BAD, HELD_4, OPEN, RECALL_ALL, RECORDS, SERVED, STOPPED, StoreRow,
};
use sip_questions::StoreStatus;
use sip_steps::ServingStore;
use sip_stream::Form;
use std::alloc::Global;
use std::test::Fail;

// What came of a talk: how it ended, how many bytes were taken, whether the store was read, and what
// was sent.
#[derive(Drop)]
struct Talked {
    status: Option<StoreStatus>,
    taken: usize,
    has_read: bool,
    sent: Vec<u8>,
}

// A helper over a store to which the other end says these pieces, and then closes or not. The calls
// of the store and of the sink of these numbers fail.
fn served(
    alloc: Global,
    (form, store): (Form, &[u8]),
    (pieces, closes): (&[&[u8]], bool),
    (unread, unsent): (&[u64], &[u64]),
) -> Result<Talked, Fail> {
    let mut serving = ServingStore::begin(alloc, form)?;
    let mut first = MemorySource::new(store.to_vec(alloc)?, 7, unread.to_vec(alloc)?);
    let mut sink = MemorySink::new(alloc, 5, unsent.to_vec(alloc)?);
    let mut taken = 0usize;
    for piece in pieces {
        taken = taken.saturating_add(serving.feed(piece, &mut first, &mut sink));
    }
    if closes {
        serving.close();
    }
    Ok(Talked {
        status: serving.status(),
        taken,
        has_read: serving.has_read(),
        sent: sink.bytes().to_vec(alloc)?,
    })
}

// A talk that a helper on a link has.
#[derive(Clone, Copy)]
struct OnLink {
    row: StoreRow,
}

impl Row for OnLink {
    fn name(&self) -> &str {
        "over a store"
    }

    fn said(&self) -> &[&[u8]] {
        self.row.2
    }

    fn is_so(&self, alloc: Global, pieces: &[&[u8]]) -> Result<bool, Fail> {
        let (form, store, _, end, sent) = self.row;
        let talked = served(alloc, (form, store), (pieces, true), (&[], &[]))?;
        let want = sent.concat(alloc)?;
        Ok(talked.status == Some(end) && talked.sent.as_slice() == want.as_slice())
    }
}

#[test]
fn a_talk_over_a_store_in_pieces_of_one_size(rt: HostRuntime) -> Result<(), Fail> {
    for rows in &[SERVED.as_slice(), &BAD, &STOPPED] {
        for row in rows.iter() {
            in_pieces(&rt, rt.alloc(), &OnLink { row: *row })?;
        }
    }
    Ok(())
}

#[test]
fn a_talk_over_a_store_cut_in_two_at_each_byte(rt: HostRuntime) -> Result<(), Fail> {
    for rows in &[SERVED.as_slice(), &BAD, &STOPPED] {
        for row in rows.iter() {
            cut_in_two(&rt, rt.alloc(), &OnLink { row: *row })?;
        }
    }
    Ok(())
}

// All records are to be heard, and the talk ends; more bytes follow.
const ALL: [&[u8]; 4] = [&OPEN, &RECALL_ALL, &BYE, &BYE];

#[test]
fn a_store_is_read_once_it_is_known_how_far(rt: HostRuntime) -> Result<(), Fail> {
    let over = (Form::Binary, RECORDS.as_slice());
    let before = served(
        rt.alloc(),
        over,
        (&[&OPEN, &RECALL_ALL[..10]], false),
        (&[1], &[]),
    )?;
    let behind = served(rt.alloc(), over, (&ALL, false), (&[], &[]))?;
    expect(
        &rt,
        "before",
        &[
            before.status == None,
            before.taken == 15,
            !before.has_read,
            before.sent.is_empty(),
        ],
    );
    expect(
        &rt,
        "behind",
        &[
            behind.status == Some(StoreStatus::Served),
            behind.taken == 19,
            behind.has_read,
            behind.sent.as_slice() == HELD_4.as_slice(),
        ],
    );
    Ok(())
}

#[test]
fn a_store_or_a_sink_that_fails_ends_the_talk(rt: HostRuntime) -> Result<(), Fail> {
    let over = (Form::Binary, RECORDS.as_slice());
    let unread = served(rt.alloc(), over, (&ALL, true), (&[2], &[]))?;
    let unsent = served(rt.alloc(), over, (&ALL, true), (&[], &[2]))?;
    expect(
        &rt,
        "store",
        &[
            unread.status == Some(StoreStatus::ReadFault),
            unread.taken == 16,
            unread.sent.is_empty(),
        ],
    );
    expect(
        &rt,
        "sink",
        &[
            unsent.status == Some(StoreStatus::PeerFault),
            unsent.taken == 16,
            unsent.sent.as_slice() == &HELD_4[..5],
        ],
    );
    Ok(())
}
