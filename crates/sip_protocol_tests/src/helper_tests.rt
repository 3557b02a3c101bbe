// What a helper says, over whole talks.
use crate::facts::expect;
use crate::talks::{END, ENDS, ENTRIES, HITTERS, REFUSALS, SHARES_IN_VERSION_1, SUMS};
use sip_check_tests::frames::{BYE, ENTRY, NO_SIBLINGS, REVEAL, STREAM, SUB_1_2};
use sip_check_tests::serving::{Server, Talk, first_call_unserved, first_unserved, is_served};
use sip_helper::{HelpStatus, serve};
use sip_ports::MemoryLink;
use std::alloc::Global;
use std::process::Abort;

// The helper of `help`.
struct Helper;

impl Server for Helper {
    type End = HelpStatus;

    fn serve(alloc: Global, link: &mut MemoryLink) -> HelpStatus {
        serve(alloc, link)
    }
}

// Each talk, in pieces of one byte and in one piece.
fn are_served(rt: &impl Abort, alloc: Global, talks: &[Talk<'_, HelpStatus>]) {
    let unserved = first_unserved::<Helper>(alloc, talks).expect(rt, "memory");
    assert_eq!(rt; unserved, None);
}

#[test]
fn entries_are_answered(rt: HostRuntime) {
    are_served(&rt, rt.alloc(), &ENTRIES);
}

#[test]
fn a_talk_ends(rt: HostRuntime) {
    are_served(&rt, rt.alloc(), &ENDS);
}

#[test]
fn a_share_in_version_1(rt: HostRuntime) {
    are_served(&rt, rt.alloc(), &SHARES_IN_VERSION_1);
}

#[test]
fn sums_are_answered(rt: HostRuntime) {
    are_served(&rt, rt.alloc(), &SUMS);
}

#[test]
fn hitters_and_shares_are_answered(rt: HostRuntime) {
    are_served(&rt, rt.alloc(), &HITTERS);
}

#[test]
fn hitters_are_refused(rt: HostRuntime) {
    are_served(&rt, rt.alloc(), &REFUSALS);
}

// Six frames are received, two calls each where there is a body, and three are sent: 13 calls in
// all.
#[test]
fn a_link_fails_at_each_call(rt: HostRuntime) {
    let parts: [&[u8]; 4] = [&STREAM, &SUB_1_2, &REVEAL, &BYE];
    let sent: [&[u8]; 2] = [&ENTRY, &NO_SIBLINGS];
    let ends = (HelpStatus::PeerFault, HelpStatus::Served);
    let unserved = first_call_unserved::<Helper>(rt.alloc(), (&parts, &sent), 13, ends);
    assert_eq!(rt; unserved.expect(&rt, "memory"), None);
}

// In version 1 the opening of a talk over 1,024 items with 1 in each, and their end.
fn ones(rt: &impl Abort, alloc: Global) -> Vec<u8> {
    let mut talk = [1, 0, 2, 1, 10].to_vec(alloc).expect(rt, "memory");
    for item in 0..1024_u32 {
        if item % 512 == 0 {
            let head = [2, 0x1a, 0x02, 2, 0];
            talk.extend_from_slice(&head).expect(rt, "memory");
        }
        talk.push(0).expect(rt, "memory");
        let item = item.to_be_bytes();
        talk.extend_from_slice(&item).expect(rt, "memory");
        let one = [0, 0, 0, 0, 0, 0, 0, 1];
        talk.extend_from_slice(&one).expect(rt, "memory");
    }
    talk.extend_from_slice(&[3, 0, 0]).expect(rt, "memory");
    talk
}

// So many rows from 0 on with these bytes behind the index, in two frames, and the end of a level.
fn two_frames(rt: &impl Abort, alloc: Global, rows: u32, header: &[u8], row: &[u8]) -> Vec<u8> {
    let mut sent = Vec::new(alloc);
    for index in 0..rows {
        if index == 0 || index == rows / 2 {
            sent.extend_from_slice(header).expect(rt, "memory");
        }
        let at = index.to_be_bytes();
        sent.extend_from_slice(&at).expect(rt, "memory");
        sent.extend_from_slice(row).expect(rt, "memory");
    }
    sent.extend_from_slice(&END).expect(rt, "memory");
    sent
}

// Whether a talk over those items, whose query has this threshold, is served with these replies.
fn is_shown(rt: &impl Abort, alloc: Global, least: u8, asked: &[u8], replies: &[u8]) -> [bool; 2] {
    let stream = ones(rt, alloc);
    let query = [4, 0, 10, 5, 0, 0, 0, 0, 0, 0, 0, 0, least];
    let parts = [stream.as_slice(), &query, asked];
    let talk = parts.concat(alloc).expect(rt, "memory");
    is_served::<Helper>(alloc, &talk, 10_000, HelpStatus::Served, replies).expect(rt, "memory")
}

// Every pair of leaves is 2, so that all 1,024 leaves are shown at the threshold 2, by 512 in a
// frame.
#[test]
fn leaves_by_512(rt: HostRuntime) {
    let alloc = rt.alloc();
    let leaf = [0, 0, 0, 0, 0, 0, 0, 1];
    let leaves = two_frames(&rt, alloc, 1024, &[0x15, 0x18, 0x02, 2, 0], &leaf);
    expect(&rt, 2, &is_shown(&rt, alloc, 2, &BYE, &leaves));
}

// At the threshold 3 no leaf is shown, and all 512 nodes above them, by 256 in a frame: each has
// the hash 1 + 2 + 4 + 8.
#[test]
fn nodes_by_256(rt: HostRuntime) {
    let alloc = rt.alloc();
    let node = [0, 0, 0, 0, 0, 0, 0, 15, 0, 0, 0, 0, 0, 0, 0, 2];
    let nodes = two_frames(&rt, alloc, 512, &[0x16, 0x14, 0x02, 1, 0], &node);
    let asked = [REVEAL.as_slice(), &BYE]
        .concat(alloc)
        .expect(&rt, "memory");
    let shown = [END.as_slice(), &nodes].concat(alloc).expect(&rt, "memory");
    expect(&rt, 3, &is_shown(&rt, alloc, 3, &asked, &shown));
}
