// What is said behind the line of a status of the commands that keep a sketch.

use sip_advice::{Ending, Noted, Trouble, Unopened};
use sip_command_tests::case::Case;
use sip_keeping::{SketchLook, SketchVerb, advise_sketch, advise_words, caution_sketch};
use sip_ports::{MemorySink, PortStop};
use sip_sketch::{SketchPort, SketchStatus, Unlike};
use sip_stream::Why;
use sip_word_tests::endings::NOTHING;
use sip_word_tests::words::words_between;
use sip_words::{Usage, Words};
use std::alloc::Global;
use std::process::Abort;
use std::str::from_utf8;
use std::test::Fail;

// Where the line of the status was written.
pub(crate) const WRITTEN: Ending = Ending {
    code: 3,
    line: Ok(()),
};

// A status, and what is said of it: nothing where that is empty.
type Said<'a> = (SketchStatus, &'a str);

const SAID: &[Said<'static>] = &[
    (SketchStatus::Wrote, ""),
    (SketchStatus::Exists, "never begun anew"),
    (
        SketchStatus::BadSketch { part: 0, offset: 0 },
        "sip begin makes one",
    ),
    (
        SketchStatus::BadSketch {
            part: 0,
            offset: 52,
        },
        "put no older one in its place",
    ),
    (
        SketchStatus::BadSketch { part: 2, offset: 0 },
        "each PART is the file",
    ),
    (
        SketchStatus::BadStart {
            records: 3,
            is_sum: true,
        },
        "a sum grows by its parts",
    ),
    (
        SketchStatus::BadStart {
            records: 3,
            is_sum: false,
        },
        "records would be missing",
    ),
    (
        SketchStatus::BadStream {
            at: 2,
            why: Why::Truncated,
        },
        "all before it are in the sketch",
    ),
    (
        SketchStatus::Unlike {
            part: 2,
            why: Unlike::NotNext,
        },
        "the parts are named in their order",
    ),
    (SketchStatus::BadSeed, "SEED has 32 random bytes"),
    (
        SketchStatus::ReadFault {
            port: SketchPort::First,
        },
        "FILE \"text:log\" cannot be used: no such file or directory",
    ),
];

// The stream of `watch` is not there.
const LOST: Noted = Noted {
    first: Some(Unopened {
        word: 2,
        why: Trouble::Missing,
    }),
    ..NOTHING
};

// A line begins as each line of advice does, and has this in it; there is none where this is empty.
pub(crate) fn is_line(bytes: &[u8], text: &str) -> bool {
    if text.is_empty() {
        return bytes.is_empty();
    }
    match from_utf8(bytes) {
        Ok(line) => {
            line.starts_with("sip: hint: ") && line.ends_with("\n") && line.contains(text)
        }
        Err(_) => false,
    }
}

fn check_said<R: Abort>(rt: &R, alloc: Global, words: &Words, said: &[Said<'_>]) {
    for (index, (status, text)) in said.iter().enumerate() {
        let mut sink = MemorySink::new(alloc, 1000, Vec::new(alloc));
        let ending = advise_sketch(WRITTEN, words, &LOST, status, &mut sink);
        let case = Case {
            name: "the advice about a status",
            number: index as u64,
        };
        case.holds(ending == WRITTEN && is_line(sink.bytes(), text))
            .expect(rt, "a case");
    }
}

// A verb, the number of a word, and what may stand there.
type Place<'a> = (SketchVerb, u32, &'a str);

const PLACES: &[Place<'static>] = &[
    (SketchVerb::Begin, 1, "SKETCH is the file"),
    (SketchVerb::Begin, 4, "PART/PARTS is 1/1"),
    (SketchVerb::Begin, 7, "SEATS are entries:N"),
    (SketchVerb::Watch, 2, "STORED is PATH"),
    (SketchVerb::Watch, 3, "AT is the number"),
    (SketchVerb::Watch, 5, "the command ends before it"),
    (SketchVerb::Merge, 2, "PART is the file"),
    (SketchVerb::Seats, 2, "the command ends before it"),
];

fn check_places<R: Abort>(rt: &R, alloc: Global, places: &[Place<'_>]) {
    for (index, (verb, word, text)) in places.iter().enumerate() {
        let mut sink = MemorySink::new(alloc, 1000, Vec::new(alloc));
        let ending = advise_words(WRITTEN, *verb, Usage { word: *word }, &mut sink);
        let case = Case {
            name: "the advice about a word",
            number: index as u64,
        };
        case.holds(ending == WRITTEN && is_line(sink.bytes(), text))
            .expect(rt, "a case");
    }
}

// What was seen of the files, and what is said of them.
type Looked<'a> = (SketchLook, &'a str);

const LOOKED: &[Looked<'static>] = &[
    (
        SketchLook {
            is_shared: false,
            is_left: false,
        },
        "",
    ),
    (
        SketchLook {
            is_shared: true,
            is_left: true,
        },
        "others can read the file of a sketch",
    ),
    (
        SketchLook {
            is_shared: false,
            is_left: true,
        },
        "what a run left that was killed",
    ),
];

fn check_looked<R: Abort>(rt: &R, alloc: Global, looked: &[Looked<'_>]) {
    for (index, (look, text)) in looked.iter().enumerate() {
        let mut sink = MemorySink::new(alloc, 1000, Vec::new(alloc));
        let ending = caution_sketch(WRITTEN, *look, &mut sink);
        let case = Case {
            name: "a caution about files",
            number: index as u64,
        };
        case.holds(ending == WRITTEN && is_line(sink.bytes(), text))
            .expect(rt, "a case");
    }
}

#[test]
fn advice_about_a_sketch_follows_from_its_status(rt: HostRuntime) -> Result<(), Fail> {
    let words = words_between(rt.alloc(), "watch|sketch|text:log|0|-", '|')?;
    check_said(&rt, rt.alloc(), &words, SAID);
    Ok(())
}

#[test]
fn advice_says_what_stands_at_a_word_about_a_sketch(rt: HostRuntime) -> Result<(), Fail> {
    check_places(&rt, rt.alloc(), PLACES);
    Ok(())
}

// Behind a line that could not be written nothing is said.
#[test]
fn a_caution_about_a_sketch_stands_behind_all(rt: HostRuntime) -> Result<(), Fail> {
    check_looked(&rt, rt.alloc(), LOOKED);
    let mut sink = MemorySink::new(rt.alloc(), 1000, Vec::new(rt.alloc()));
    let unwritten = Ending {
        code: 3,
        line: Err(PortStop::Failed),
    };
    let look = SketchLook {
        is_shared: true,
        is_left: false,
    };
    let ending = caution_sketch(unwritten, look, &mut sink);
    let case = Case {
        name: "behind a line that was not written",
        number: 0,
    };
    case.holds(ending == unwritten && sink.bytes().is_empty())
        .expect(&rt, "a case");
    Ok(())
}
