// The pages that one word asks for.

use crate::words::words_between;
use sip_advice::{HELP, VERSION, page_of, write_page};
use sip_command_tests::case::Case;
use sip_ports::MemorySink;
use sip_verifier::{Port, Status};
use sip_words::{Words, read_words};
use std::alloc::Global;
use std::process::Abort;
use std::test::Fail;

// Words with a bar between them, and the page that they ask for.
type Asked<'a> = (&'a str, Option<&'a str>);

const ASKED: &[Asked<'static>] = &[
    ("--help", Some(HELP)),
    ("--version", Some(VERSION)),
    ("", None),
    ("--Help", None),
    ("--help|", None),
    ("|--help", None),
    ("--version|--help", None),
];

fn check_asked(rt: &impl Abort, alloc: Global, rows: &[Asked]) -> Result<(), Fail> {
    for &(name, want) in rows {
        let page = page_of(&words_between(alloc, name, '|')?);
        Case { name, number: 0 }
            .holds(page == want)
            .expect(rt, "a case");
    }
    let nothing = Case {
        name: "no word",
        number: 0,
    };
    nothing
        .holds(page_of(&Words::of(Vec::new(alloc))).is_none())
        .expect(rt, "a case");
    Ok(())
}

// The examples of the page are commands.
const EXAMPLES: &[&str] = &[
    "verify log.stream today.seed from.fifo to.fifo - 20 sub:100:199 range:0:0:1048575 inner",
    "play made:7:100000 today.seed honest - 20 sub:0:99 range:0:0:1048575 f2:0 inner",
    "panel made:7:100000 today.seed mute,skewed,honest 20 sub:0:99 f2:0",
    "help to.fifo from.fifo",
    "lookup log.stream today.seed from.fifo to.fifo 20 index:1 pred:99 succ:100",
    "helplook to.fifo from.fifo",
    "moments log.stream today.seed from.fifo to.fifo 20 moment:0:3 moment:1:3",
    "helpmom to.fifo from.fifo",
    "audit log.stream today.record",
    "show today.record",
    "convert today.record",
    "gen 7 100000 20",
    "lines log.stream 20",
    "widen log.stream 20",
    "serve text:web.log - -",
];

fn check_examples(rt: &impl Abort, alloc: Global, examples: &[&str]) -> Result<(), Fail> {
    for &name in examples {
        let is_read = read_words(&words_between(alloc, name, ' ')?).is_ok();
        Case { name, number: 0 }
            .holds(is_read && HELP.contains(name))
            .expect(rt, "a case");
    }
    Ok(())
}

// The call that fails, of one byte each, how that ends and what was written of a page of four
// bytes: one that is not written whole is a fault.
type Failing<'a> = (u64, Status, &'a str);

const FAULT: Status = Status::WriteFault { port: Port::Report };

const FAILING: &[Failing<'static>] = &[
    (5, Status::Accepted, "page"),
    (4, FAULT, "pag"),
    (1, FAULT, ""),
];

fn check_failing(rt: &impl Abort, alloc: Global, rows: &[Failing]) -> Result<(), Fail> {
    for &(number, want, name) in rows {
        let mut sink = MemorySink::new(alloc, 1, vec![in alloc; number]?);
        let status = write_page("page", &mut sink);
        let case = Case { name, number };
        case.ends(status, want).expect(rt, "a case");
        case.writes(sink.bytes(), name.as_bytes())
            .expect(rt, "a case");
    }
    Ok(())
}

#[test]
fn one_word_asks_for_a_page(rt: HostRuntime) -> Result<(), Fail> {
    let alloc = rt.alloc();
    check_asked(&rt, alloc, ASKED)?;
    check_examples(&rt, alloc, EXAMPLES)?;
    check_failing(&rt, alloc, FAILING)
}
