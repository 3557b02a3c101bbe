// The line and the exit code of each status of the command that asks a sketch, and what is said
// behind it.

use crate::sketch_advice_tests::{WRITTEN, is_line};
use sip_advice::{Noted, Trouble, Unopened};
use sip_ask::{AskPort, AskStatus};
use sip_command_tests::case::Case;
use sip_keeping::{SeatsLeft, advise_ask, advise_ask_words, finish_ask, tell_left};
use sip_ports::MemorySink;
use sip_wire::{Held, Reason};
use sip_word_tests::endings::{NOTHING, ended_in_front, ended_whole, failing_sink, wide_sink};
use sip_word_tests::words::words_between;
use sip_words::{Usage, Words};
use std::alloc::Global;
use std::process::Abort;
use std::test::Fail;

const THREE: Held = Held {
    records: 3,
    first: 9,
    second: 0,
    fingerprint: 0xb8261ae7db4fab00,
};

const FOUR: Held = Held {
    records: 4,
    first: 11,
    second: 0,
    fingerprint: 0xda3a76c0ed546482,
};

const MOST: Held = Held {
    records: u64::MAX,
    first: u64::MAX,
    second: u64::MAX,
    fingerprint: 10,
};

// A status, its exit code, its line, and what is said behind it.
type Row<'a> = (AskStatus, u8, &'a str, &'a str);

const ROWS: &[Row<'static>] = &[
    (AskStatus::Accepted, 0, "", ""),
    (
        AskStatus::Rejected {
            query: 1,
            round: 2,
            reason: Reason::Root,
        },
        1,
        "",
        "Root: the replies do not come to the number",
    ),
    (
        AskStatus::BadSketch { offset: 0 },
        3,
        "sip: bad sketch at offset 0\n",
        "sip begin makes one",
    ),
    (
        AskStatus::BadSketch { offset: 120 },
        3,
        "sip: bad sketch at offset 120\n",
        "put no older one in its place",
    ),
    (
        AskStatus::Busy,
        3,
        "sip: sketch is busy\n",
        "another run has",
    ),
    (
        AskStatus::NotWhole,
        3,
        "sip: sketch is not whole\n",
        "sip merge makes the sum",
    ),
    (
        AskStatus::Unfit { query: 16 },
        3,
        "sip: query 16 does not fit\n",
        "below 2^DEPTH of the sketch",
    ),
    (
        AskStatus::Signed { query: 1 },
        3,
        "sip: query 1 on a side with negatives\n",
        "no seat is used",
    ),
    (
        AskStatus::NoSeat { query: 2 },
        3,
        "sip: no seat for query 2\n",
        "",
    ),
    (
        AskStatus::TooWide { query: 1 },
        3,
        "sip: query 1 too wide\n",
        "ask for a greater T or share",
    ),
    (
        AskStatus::TooHigh { query: 3 },
        3,
        "sip: query 3 too high\n",
        "ask for a lower degree",
    ),
    (
        AskStatus::OutOfStep {
            held: THREE,
            kept: FOUR,
        },
        3,
        "sip: helper holds 3 9 0 b8261ae7db4fab00, sketch 4 11 0 da3a76c0ed546482\n",
        "fewer records than the sketch",
    ),
    (
        AskStatus::OutOfStep {
            held: MOST,
            kept: THREE,
        },
        3,
        "sip: helper holds 18446744073709551615 18446744073709551615 18446744073709551615 \
000000000000000a, sketch 3 9 0 b8261ae7db4fab00\n",
        "are not those of the sketch",
    ),
    (
        AskStatus::BadFrame,
        3,
        "sip: bad frame at offset 0\n",
        "sip serve for sip ask",
    ),
    (
        AskStatus::PeerClosed,
        4,
        "sip: peer closed\n",
        "before it said what it holds",
    ),
    (
        AskStatus::PeerFault,
        4,
        "sip: peer fault\n",
        "\"no\" cannot be used: no such file or directory",
    ),
    (
        AskStatus::ReadFault,
        4,
        "sip: read fault on sketch\n",
        "SKETCH.lock and SKETCH.new",
    ),
    (
        AskStatus::WriteFault {
            port: AskPort::Sketch,
        },
        4,
        "sip: write fault on sketch\n",
        "SKETCH.lock and SKETCH.new",
    ),
    (
        AskStatus::WriteFault {
            port: AskPort::Report,
        },
        4,
        "sip: write fault on report\n",
        "report is standard output",
    ),
    (AskStatus::OutOfMemory, 5, "sip: out of memory\n", ""),
];

fn check_endings(rt: &impl Abort, alloc: Global, rows: &[Row]) {
    for (index, (status, code, name, _)) in rows.iter().enumerate() {
        let mut sink = wide_sink(alloc);
        let ending = finish_ask(status, &mut sink);
        let number = index as u64;
        ended_whole(Case { name, number }, *code, ending, &sink).expect(rt, "an ending");
    }
}

#[test]
fn each_status_of_an_ask_has_its_line_and_code(rt: HostRuntime) -> Result<(), Fail> {
    let alloc = rt.alloc();
    check_endings(&rt, alloc, ROWS);
    let mut sink = failing_sink(alloc)?;
    let ending = finish_ask(&AskStatus::NotWhole, &mut sink);
    ended_in_front(ending, &sink).expect(&rt, "a front");
    Ok(())
}

// FROM is not there.
const LOST: Noted = Noted {
    from: Some(Unopened {
        word: 2,
        why: Trouble::Missing,
    }),
    ..NOTHING
};

fn check_said(rt: &impl Abort, alloc: Global, words: &Words, rows: &[Row]) {
    for (index, (status, _, name, text)) in rows.iter().enumerate() {
        let mut sink = MemorySink::new(alloc, 1000, Vec::new(alloc));
        let ending = advise_ask(WRITTEN, words, &LOST, status, &mut sink);
        let case = Case {
            name,
            number: index as u64,
        };
        case.holds(ending == WRITTEN && is_line(sink.bytes(), text))
            .expect(rt, "a case");
    }
}

// Seats that are left, and the line that says so.
type Left<'a> = (SeatsLeft, &'a str);

const NONE: SeatsLeft = SeatsLeft {
    entries: 0,
    first_sums: 0,
    second_sums: 0,
    products: 0,
    first_heavy: 0,
    second_heavy: 0,
    first_large: 0,
    second_large: 0,
};

const LEFT: &[Left<'static>] = &[
    (
        NONE,
        "sip: hint: all seats are used: begin a new sketch, with seats for what is to be asked\n",
    ),
    (
        SeatsLeft {
            second_sums: 64,
            ..NONE
        },
        "sip: hint: seats that are left: sums:1:64\n",
    ),
    (
        SeatsLeft {
            entries: 1,
            first_sums: 2,
            second_sums: 3,
            products: 4,
            first_heavy: 5,
            second_heavy: 6,
            first_large: 7,
            second_large: 8,
        },
        "sip: hint: seats that are left: entries:1 sums:0:2 sums:1:3 products:4 heavy:0:5 \
heavy:1:6 above:0:7 above:1:8\n",
    ),
];

fn check_left(rt: &impl Abort, alloc: Global, rows: &[Left]) {
    for (left, name) in rows {
        let mut sink = MemorySink::new(alloc, 1000, Vec::new(alloc));
        let ending = tell_left(WRITTEN, left, &mut sink);
        let case = Case { name, number: 0 };
        case.holds(ending == WRITTEN).expect(rt, "a case");
        case.writes(sink.bytes(), name.as_bytes())
            .expect(rt, "a case");
    }
}

// What may stand at a word.
type Place<'a> = (u32, &'a str);

const PLACES: &[Place<'static>] = &[
    (1, "SKETCH is the file"),
    (2, "or - for standard input"),
    (3, "TO is the file or FIFO"),
    (4, "QUESTION is sub:LO:HI"),
    (20, "there are 1 to 16"),
];

fn check_places(rt: &impl Abort, alloc: Global, rows: &[Place]) {
    for &(word, name) in rows {
        let mut sink = MemorySink::new(alloc, 1000, Vec::new(alloc));
        let ending = advise_ask_words(WRITTEN, Usage { word }, &mut sink);
        let case = Case {
            name,
            number: word as u64,
        };
        case.holds(ending == WRITTEN && is_line(sink.bytes(), name))
            .expect(rt, "a case");
    }
}

#[test]
fn advice_about_an_ask_follows_from_its_status(rt: HostRuntime) -> Result<(), Fail> {
    let words = words_between(rt.alloc(), "ask|sketch|no|to|inner", '|')?;
    check_said(&rt, rt.alloc(), &words, ROWS);
    check_left(&rt, rt.alloc(), LEFT);
    check_places(&rt, rt.alloc(), PLACES);
    Ok(())
}
