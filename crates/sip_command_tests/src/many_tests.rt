// Answers of 65,536 entries, the most that one may have, and of one more: items from 0 on at depth
// 17, with the number 1 each.

use crate::case::Case;
use crate::frames::*;
use crate::ones::{pairs_of_ones, rows_of_ones};
use crate::row::{Row, RunInput, Said};
use sip_verifier::Status;
use sip_wire::Reason;
use std::alloc::Global;
use std::process::Abort;
use std::test::Fail;

const MOST_ENTRIES: u32 = 65_536;

// Version 1 at depth 17, and its whole interval. That needs no siblings, on any of the 17 levels.
const OPEN_17: [u8; 5] = [0x01, 0, 2, 1, 17];

const SUB_0_131071: [u8; 12] = [0x04, 0, 9, 1, 0, 0, 0, 0, 0, 1, 0xff, 0xff];

// Headers of 512 rows: 2 + 512 * 13 = 0x1a02 bytes of updates, and 2 + 512 * 12 = 0x1802 of
// entries.
const UPDATES_OF_512: [u8; 5] = [0x02, 0x1a, 0x02, 0x02, 0];

const ENTRIES_OF_512: [u8; 5] = [0x13, 0x18, 0x02, 0x02, 0];

// Item 65,536 as an update and as an entry, in a frame of its own.
const UPDATE_65536: [u8; 18] = [0x02, 0, 0x0f, 0, 1, 0, 0, 1, 0, 0, 0, 0, 0, 0, 0, 0, 0, 1];

const ENTRY_65536: [u8; 17] = [0x13, 0, 0x0e, 0, 1, 0, 1, 0, 0, 0, 0, 0, 0, 0, 0, 0, 1];

// That entry, and no siblings behind it.
const ENTRY_AND_NO_SIBLINGS: [u8; 21] = [
    0x13, 0, 0x0e, 0, 1, 0, 1, 0, 0, 0, 0, 0, 0, 0, 0, 0, 1, 0x14, 0, 1, 0,
];

// Too many entries.
const REFUSE_2: [u8; 4] = [0x18, 0, 1, 2];

// An update of each item, as records or as frames of them, or an entry of each, and more bytes
// behind them.
fn ones_and(alloc: Global, header: &[u8], front: &[u8], more: &[u8]) -> Result<Vec<u8>, Fail> {
    let mut bytes = rows_of_ones(alloc, MOST_ENTRIES, header, front)?;
    bytes.extend_from_slice(more)?;
    Ok(bytes)
}

// What a verifier says up to its query, with one more update in a frame of its own or with none.
fn said(alloc: Global, one_more: &[u8]) -> Result<Vec<u8>, Fail> {
    let updates = ones_and(alloc, &UPDATES_OF_512, &[0], one_more)?;
    let mut bytes = OPEN_17.to_vec(alloc)?;
    bytes.extend_from_slice(&updates)?;
    bytes.extend_from_slice(&END_STREAM)?;
    bytes.extend_from_slice(&SUB_0_131071)?;
    Ok(bytes)
}

// Helps with the updates that are given, behind which one more may stand, and shows this answer.
// The verifier leaves then.
fn check_help(rt: &impl Abort, alloc: Global, one_more: &[u8], answer: &[u8]) -> Result<(), Fail> {
    let heard = said(alloc, one_more)?;
    let row = Row {
        name: "the whole interval",
        given: RunInput {
            words: "help from to",
            stream: &[],
            seed: &[],
            replies: &[&heard],
        },
        status: Status::PeerClosed,
        code: 4,
        report: b"",
        sent: &[Said::In(&heard)],
        then: &[Said::Out(answer), Said::Ended],
    };
    row.check_in(rt, alloc, 10_000)
}

// The entries are given in 128 frames, and one more is refused with nothing else.
#[test]
fn help_gives_the_most_entries_and_refuses_one_more(rt: HostRuntime) -> Result<(), Fail> {
    let alloc = rt.alloc();
    let entries = ones_and(alloc, &ENTRIES_OF_512, &[], &NO_SIBLINGS)?;
    check_help(&rt, alloc, &[], &entries)?;
    check_help(&rt, alloc, &UPDATE_65536, &REFUSE_2)
}

// The replies to the whole interval.
fn replies_of_most(alloc: Global) -> Result<Vec<u8>, Fail> {
    let mut replies = rows_of_ones(alloc, MOST_ENTRIES, &ENTRIES_OF_512, &[])?;
    for _ in 0..17 {
        replies.extend_from_slice(&NO_SIBLINGS)?;
    }
    Ok(replies)
}

// Its line.
fn line_of_most(alloc: Global) -> Result<String, Fail> {
    let pairs = pairs_of_ones(alloc, MOST_ENTRIES)?;
    let mut line = String::from_str(alloc, "sub:0:131071")?;
    line.push_str(&pairs)?;
    line.push('\n')?;
    Ok(line)
}

// Each entry is a pair of the line.
#[test]
fn verify_writes_the_most_entries(rt: HostRuntime) -> Result<(), Fail> {
    let alloc = rt.alloc();
    let stream = rows_of_ones(alloc, MOST_ENTRIES, &[], &[0])?;
    let replies = replies_of_most(alloc)?;
    let line = line_of_most(alloc)?;
    let given = RunInput {
        words: "verify s seed a b - 17 sub:0:131071",
        stream: &stream,
        seed: &ZERO_SEED,
        replies: &[&replies],
    };
    let shown = given.run(alloc, 10_000, None)?;
    let case = Case {
        name: "the most entries",
        number: 10_000,
    };
    case.ends(shown.status, Status::Accepted)
        .expect(&rt, "a case");
    case.writes(shown.report.bytes(), line.as_bytes())
        .expect(&rt, "a case");
    Ok(())
}

// Item 65,536 is in the stream and in the replies. The bytes behind its entry are not taken.
#[test]
fn verify_rejects_one_entry_more(rt: HostRuntime) -> Result<(), Fail> {
    let alloc = rt.alloc();
    let stream = ones_and(alloc, &[], &[0], &UPDATE_65536[5..])?;
    let sent = said(alloc, &UPDATE_65536)?;
    let taken = ones_and(alloc, &ENTRIES_OF_512, &[], &ENTRY_65536)?;
    let replies = ones_and(alloc, &ENTRIES_OF_512, &[], &ENTRY_AND_NO_SIBLINGS)?;
    let row = Row {
        name: "one entry more",
        given: RunInput {
            words: "verify s seed a b - 17 sub:0:131071",
            stream: &stream,
            seed: &ZERO_SEED,
            replies: &[&replies],
        },
        status: Status::Rejected {
            query: 1,
            round: 0,
            reason: Reason::TooMany,
        },
        code: 1,
        report: b"rejected query 1 round 0 TooMany\n",
        sent: &[Said::Out(&sent)],
        then: &[Said::In(&taken)],
    };
    row.check_in(&rt, alloc, 10_000)
}
