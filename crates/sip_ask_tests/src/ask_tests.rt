// Asks of the worked sketch.

use sip_ask::{AskPort, AskStatus, ask};
use sip_ports::{MemoryDesk, MemoryLink, MemorySink, TalkEvent};
use sip_questions::Question;
use sip_sketch::Sketch;
use sip_sketch_tests::worked::WATCHED;
use sip_vector::{Query, Side};
use sip_wire::{Held, Reason};
use std::alloc::Global;
use std::process::Abort;
use std::test::Fail;

// The digest of the worked sketch with the first seat used.
const USED_DIGEST: [u8; 32] = [
    0x5b, 0x71, 0x3e, 0xc8, 0x0a, 0x21, 0xa3, 0xcb, 0xb6, 0xe9, 0xfa, 0xfa, 0xb4, 0x61, 0x9c, 0x3a,
    0x7b, 0xad, 0xd4, 0x22, 0xda, 0x58, 0x87, 0xd0, 0x5a, 0xb4, 0x3e, 0x7c, 0xfd, 0xcc, 0xf6, 0x4f,
];

// What the other end holds, the honest replies to `sub:1:2`, and other siblings for reply 0.
const HELD: &[u8] = &[
    0x26, 0x00, 0x20, 0x00, 0x00, 0x00, 0x00, 0x00, 0x00, 0x00, 0x03, 0x00, 0x00, 0x00, 0x00, 0x00,
    0x00, 0x00, 0x09, 0x00, 0x00, 0x00, 0x00, 0x00, 0x00, 0x00, 0x00, 0xb8, 0x26, 0x1a, 0xe7, 0xdb,
    0x4f, 0xab, 0x00,
];

const ENTRIES: &[u8] = b"\x13\0\x0e\0\x01\0\0\0\x02\0\0\0\0\0\0\0\x05";

const SIBLINGS: &[u8] = b"\x14\0\x11\x03\0\0\0\0\0\0\0\x03\0\0\0\0\0\0\0\x01";

const LIES: &[u8] = b"\x14\0\x11\x03\0\0\0\0\0\0\0\x01\0\0\0\0\0\0\0\x01";

const NO_SIBLINGS: &[u8] = b"\x14\0\x01\0";

const OTHER_HELD: &[u8] = &[
    0x26, 0x00, 0x20, 0x00, 0x00, 0x00, 0x00, 0x00, 0x00, 0x00, 0x04, 0x00, 0x00, 0x00, 0x00, 0x00,
    0x00, 0x00, 0x09, 0x00, 0x00, 0x00, 0x00, 0x00, 0x00, 0x00, 0x00, 0xb8, 0x26, 0x1a, 0xe7, 0xdb,
    0x4f, 0xab, 0x00,
];

const SUB: Question = Question::Query(Query::Sub { lo: 1, hi: 2 });

const SQUARES: Question = Question::Query(Query::F2 { side: Side::First });

const IDLE: Question = Question::Query(Query::Heavy {
    side: Side::First,
    at_least: 10,
});

const HEAVY: Question = Question::Query(Query::Heavy {
    side: Side::First,
    at_least: 9,
});

const UNFIT: Question = Question::Query(Query::Sub { lo: 1, hi: 4 });

const KEPT: Held = Held {
    records: 3,
    first: 9,
    second: 0,
    fingerprint: 0xb8261ae7db4fab00,
};

const OTHER: Held = Held {
    records: 4,
    first: 9,
    second: 0,
    fingerprint: 0xb8261ae7db4fab00,
};

const ROOT: AskStatus = AskStatus::Rejected {
    query: 1,
    round: 2,
    reason: Reason::Root,
};

const CLOSED: AskStatus = AskStatus::Rejected {
    query: 1,
    round: 0,
    reason: Reason::Closed,
};

const STORE_FAULT: AskStatus = AskStatus::WriteFault {
    port: AskPort::Sketch,
};

// The questions; the parts of what the other end says; which calls of the desk fail, of which the
// first loads, two send the opening, two receive what is held, and the sixth stores; the status;
// the report; and whether the first seat is used then.
pub(crate) type Row<'a> = (
    &'a [Question],
    &'a [&'a [u8]],
    &'a [u64],
    AskStatus,
    &'a [u8],
    bool,
);

const HONEST: &[&[u8]] = &[HELD, ENTRIES, SIBLINGS, NO_SIBLINGS];

pub(crate) const ROWS: [Row; 16] = [
    (
        &[SUB],
        HONEST,
        &[],
        AskStatus::Accepted,
        b"sub:1:2 2:5\n",
        true,
    ),
    (
        &[IDLE, SUB],
        HONEST,
        &[],
        AskStatus::Accepted,
        b"heavy:0:10 none\nsub:1:2 2:5\n",
        true,
    ),
    (
        &[IDLE],
        &[HELD],
        &[],
        AskStatus::Accepted,
        b"heavy:0:10 none\n",
        false,
    ),
    (
        &[SUB, SQUARES],
        &[HELD, ENTRIES, LIES, NO_SIBLINGS],
        &[],
        ROOT,
        b"rejected query 1 round 2 Root\n",
        true,
    ),
    (
        &[SUB],
        &[HELD],
        &[],
        CLOSED,
        b"rejected query 1 round 0 Closed\n",
        true,
    ),
    (
        &[SUB, SUB],
        HONEST,
        &[],
        AskStatus::NoSeat { query: 2 },
        b"",
        false,
    ),
    (
        &[HEAVY],
        HONEST,
        &[],
        AskStatus::NoSeat { query: 1 },
        b"",
        false,
    ),
    (
        &[SUB, UNFIT],
        HONEST,
        &[],
        AskStatus::Unfit { query: 2 },
        b"",
        false,
    ),
    (
        &[SUB],
        &[OTHER_HELD],
        &[],
        AskStatus::OutOfStep {
            held: OTHER,
            kept: KEPT,
        },
        b"",
        false,
    ),
    (&[SUB], &[], &[], AskStatus::PeerClosed, b"", false),
    (
        &[SUB],
        &[b"\x18\0\x01\x01"],
        &[],
        AskStatus::BadFrame,
        b"",
        false,
    ),
    (&[SUB], HONEST, &[1], AskStatus::ReadFault, b"", false),
    (&[SUB], HONEST, &[2], AskStatus::PeerFault, b"", false),
    (&[SUB], HONEST, &[5], AskStatus::PeerFault, b"", false),
    (&[SUB], HONEST, &[6], STORE_FAULT, b"", false),
    (&[SUB], HONEST, &[7], AskStatus::PeerFault, b"", true),
];

// The bytes of a sketch, and of the same with its first seat used.
pub(crate) type Files<'a> = (&'a [u8], &'a [u8]);

// The worked sketch with its first seat used.
pub(crate) fn used() -> [u8; 152] {
    let mut used = WATCHED;
    used[53] = 1;
    used[120..].copy_from_slice(&USED_DIGEST);
    used
}

// A desk with a sketch, and another end that says these bytes. Replacing it stops behind so many
// steps where it fails.
pub(crate) fn desk(
    alloc: Global,
    file: &[u8],
    said: &[&[u8]],
    fails: &[u64],
    stops: usize,
) -> Result<MemoryDesk, Fail> {
    let mut replies = Vec::new(alloc);
    for part in said {
        replies.extend_from_slice(part)?;
    }
    let link = MemoryLink::new(alloc, replies, 10_000, fails.to_vec(alloc)?);
    Ok(MemoryDesk::new(link, Some(file.to_vec(alloc)?), stops))
}

// Whether the file is the sketch, with its first seat used or not.
pub(crate) fn is_stored(files: Files, file: Option<&[u8]>, is_used: bool) -> bool {
    file == Some(if is_used { files.1 } else { files.0 })
}

// Each row is asked of this sketch, and what comes of it is as it says.
pub(crate) fn check_rows(
    rt: &impl Abort,
    alloc: Global,
    files: Files,
    rows: &[Row],
) -> Result<(), Fail> {
    for (number, row) in rows.iter().enumerate() {
        assert!(rt;
            !row.0.is_empty() && row.0.len() <= 16,
            "questions of row {number}"
        );
        let mut desk = desk(alloc, files.0, row.1, row.2, 0)?;
        let mut report = MemorySink::new(alloc, 10_000, Vec::new(alloc));
        let status = ask(alloc, row.0, &mut desk, &mut report);
        assert!(rt; status == row.3, "status of row {number}");
        assert!(rt; report.bytes() == row.4, "report of row {number}");
        let stores = is_stored(files, desk.file(), row.5);
        assert!(rt; stores, "file of row {number}");
    }
    Ok(())
}

#[test]
fn questions_are_asked(rt: HostRuntime) -> Result<(), Fail> {
    check_rows(&rt, rt.alloc(), (&WATCHED, &used()), &ROWS)
}

// Whether the file that was stored is on the disk before any byte of a question is sent: those
// behind the 16 of the opening.
fn is_kept_before(talk: &[TalkEvent]) -> bool {
    let mut sent = 0;
    let mut is_kept = false;
    for event in talk {
        match event {
            TalkEvent::Out(_) if sent == 16 && !is_kept => return false,
            TalkEvent::Out(_) if sent < 16 => sent += 1,
            TalkEvent::Kept => is_kept = true,
            _ => {}
        }
    }
    true
}

// Each call of the desk fails in turn, and a replacement that fails stops at each of three places.
#[test]
fn a_seat_is_used_before_its_question(rt: HostRuntime) -> Result<(), Fail> {
    let files: Files = (&WATCHED, &used());
    for call in 1..16u64 {
        for stops in [0, 153, 154] {
            let mut desk = desk(rt.alloc(), &WATCHED, HONEST, &[call], stops)?;
            let mut report = MemorySink::new(rt.alloc(), 10_000, Vec::new(rt.alloc()));
            ask(rt.alloc(), &[SUB], &mut desk, &mut report);
            assert!(rt; is_kept_before(desk.talk()), "call {call}, {stops} steps");
            let file = desk.file();
            let whole = is_stored(files, file, false) || is_stored(files, file, true);
            assert!(rt; whole, "file of call {call}, {stops} steps");
        }
    }
    Ok(())
}

// The whole talk: the opening, what is held, the 155 events of a replacement, the query, reply 0,
// the challenge, reply 1 and the farewell. What is stored is a sketch with no seat left for it.
#[test]
fn a_talk_has_its_order(rt: HostRuntime) -> Result<(), Fail> {
    let mut it = desk(rt.alloc(), &WATCHED, HONEST, &[], 0)?;
    let mut report = MemorySink::new(rt.alloc(), 10_000, Vec::new(rt.alloc()));
    ask(rt.alloc(), &[SUB], &mut it, &mut report);
    let talk = it.talk();
    assert!(rt; talk.len() == 273, "events");
    assert!(rt;
        talk[51] == TalkEvent::Fresh && talk[205] == TalkEvent::Kept,
        "the file"
    );
    assert!(rt;
        talk[206] == TalkEvent::Out(0x04) && talk[217] == TalkEvent::Out(2),
        "query"
    );
    assert!(rt;
        talk[218] == TalkEvent::In(0x13) && talk[255] == TalkEvent::Out(0x05),
        "reply"
    );
    let stored = it.file().unwrap_or(&[]);
    let Ok(sketch) = Sketch::read(rt.alloc(), stored) else {
        assert!(rt; false, "what is stored");
        return Ok(());
    };
    let is_used = sketch.seats().first().is_some_and(|seat| seat.is_used());
    assert!(rt; is_used, "the seat of what is stored");
    Ok(())
}
