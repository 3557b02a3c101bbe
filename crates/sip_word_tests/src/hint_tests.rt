// The line of advice behind the line of a status.

use crate::endings::NOTHING;
use crate::words::words_between;
use sip_advice::{finish, hint};
use sip_command_tests::case::Case;
use sip_ports::MemorySink;
use sip_stream::Why;
use sip_vector::Side;
use sip_verifier::{Port, Status};
use sip_wire::Reason;
use sip_words::Words;
use std::alloc::Global;
use std::process::Abort;
use std::str::from_utf8;
use std::test::Fail;

// Words with a bar between them, the number of the word that is refused, and what the advice names:
// what may stand there.
type Refused<'a> = (&'a str, u32, &'a str);

const REFUSED: &[Refused<'static>] = &[
    ("", 0, "sip --help"),
    ("verfy|a", 0, "sip --help"),
    ("--help|a", 0, "sip --help"),
    ("verify", 1, "STREAM is "),
    ("verify|made:7", 1, "made:NUMBER:COUNT"),
    ("verify|a", 2, "SEED is "),
    ("verify|a|b", 3, "FROM is "),
    ("verify|a|b|c", 4, "TO is "),
    ("verify|a|b|c|d", 5, "RECORD is "),
    ("verify|a|b|c|d|e|0", 6, "DEPTH is "),
    ("verify|a|b|c|d|e|20", 7, "QUERY is "),
    ("verify|a|b|c|d|e|20|inner|sum", 8, "QUERY is "),
    ("verify|a|b|c|d|e|20|heavy:0:0", 7, "T from 1"),
    ("play|a|b|mute|c|20|share:0:2:1", 6, "NUM from 1 to DEN"),
    (
        "panel|a|b|mute|20|heavy:0:0",
        5,
        "T from 1, and NUM from 1 to DEN",
    ),
    ("verify|a|b|c|d|e|20", 22, "QUERY is "),
    ("verify|a|b|c|d|e|20", 23, "16 queries"),
    ("play|", 1, "STREAM is "),
    ("play|a|", 2, "SEED is "),
    ("play|a|b|Honest", 3, "honest, skewed or mute"),
    ("play|a|b|mute|", 4, "RECORD is "),
    ("play|a|b|mute|c|49", 5, "from 1 to 48"),
    ("play|a|b|mute|c|20|f2", 6, "f2:SIDE"),
    ("play|a|b|mute|c|20", 21, "QUERY is "),
    ("play|a|b|mute|c|20", 22, "16 queries"),
    ("help", 1, "FROM is "),
    ("help|a", 2, "TO is "),
    ("help|a|b|c", 3, "the command ends before it"),
    ("lookup", 1, "STREAM is "),
    ("lookup|a|", 2, "SEED is "),
    ("lookup|a|b|", 3, "FROM is "),
    ("lookup|a|b|c", 4, "TO is "),
    ("lookup|a|b|c|d|49", 5, "from 1 to 48"),
    (
        "lookup|a|b|c|d|20",
        6,
        "LOOKUP is index:I, pred:I or succ:I",
    ),
    ("lookup|a|b|c|d|20|pred:1048576", 6, "below 2^DEPTH"),
    ("lookup|a|b|c|d|20|pred:1|f2:0", 7, "LOOKUP is "),
    ("lookup|a|b|c|d|20", 21, "LOOKUP is "),
    ("lookup|a|b|c|d|20", 22, "16 queries, lookups or moments"),
    ("helplook|a|", 2, "TO is "),
    ("helplook|a|b|c", 3, "the command ends before it"),
    ("moments|made:7", 1, "made:NUMBER:COUNT"),
    ("moments|a|b|c|d|0", 5, "from 1 to 48"),
    ("moments|a|b|c|d|20|moment:0:9", 6, "K from 3 to 8"),
    ("moments|a|b|c|d|20|moment:0:2", 6, "K from 3 to 8"),
    ("moments|a|b|c|d|20|moment:2:3", 6, "SIDE 0 or 1"),
    ("moments|a|b|c|d|20", 21, "MOMENT is "),
    ("moments|a|b|c|d|20", 22, "16 queries, lookups or moments"),
    ("helpmom", 1, "FROM is "),
    ("panel", 1, "STREAM is "),
    ("panel|a|", 2, "SEED is "),
    ("panel|a|b|honest,liar", 3, "1 to 16 of honest, skewed"),
    ("panel|a|b|mute|49", 4, "from 1 to 48"),
    ("panel|a|b|mute|20|f2", 5, "f2:SIDE"),
    ("panel|a|b|mute,mute|20", 13, "helpers times queries"),
    ("panel|a|b|mute|20", 21, "16 queries"),
    ("audit|made:7:1", 1, "STORED is "),
    ("audit|a", 2, "TRANSCRIPT is "),
    ("audit|a|b|c", 3, "the command ends before it"),
    ("serve", 1, "STORED is "),
    ("serve|made:7:1", 1, "text:PATH or wide:PATH: a stream"),
    ("serve|a", 2, "or - for standard input"),
    ("serve|a|b", 3, "or - for standard output"),
    ("serve|a|b|c|d", 4, "the command ends before it"),
    ("show", 1, "TRANSCRIPT is "),
    ("show|t|x", 2, "the command ends before it"),
    ("convert|", 1, "TRANSCRIPT is "),
    ("gen|07", 1, "NUMBER is "),
    ("gen|7|10000001", 2, "up to 10000000"),
    ("gen|7|1|x", 3, "DEPTH is "),
    ("gen|7|1|20|x", 4, "the command ends before it"),
    ("lines|text:", 1, "text:PATH"),
    ("lines|a", 2, "DEPTH is "),
    ("lines|a|20|x", 3, "the command ends before it"),
    ("widen|wide:", 1, "wide:PATH"),
    ("widen|a|x", 2, "DEPTH is "),
    ("widen|a|20|x", 3, "the command ends before it"),
];

// The same of words that another command takes, and of those that it does not.
const ELSEWHERE: &[Refused<'static>] = &[
    ("verify|a|b|c|d|e|20|index:1", 7, "sip lookup"),
    ("verify|a|b|c|d|e|20|f2:0|pred:x", 8, "sip lookup"),
    ("play|a|b|mute|c|20|succ:1", 6, "sip lookup"),
    ("panel|a|b|mute|20|pred:", 5, "sip lookup"),
    ("verify|a|b|c|d|e|20|moment:0:3", 7, "sip moments"),
    ("panel|a|b|mute|20|moment:0:3", 5, "sip moments"),
    ("verify|a|b|c|d|e|20|index", 7, "QUERY is "),
    ("verify|a|b|c|d|e|20|moment", 7, "QUERY is "),
    ("verify|a|b|c|d|e|20|indexes:1", 7, "QUERY is "),
    ("verify|a|b|c|d|e|pred:1", 6, "DEPTH is "),
    ("lookup|a|b|c|d|20|moment:0:3", 6, "LOOKUP is "),
    ("moments|a|b|c|d|20|pred:1", 6, "MOMENT is "),
];

// The same, where the advice names the word: in quotes, of printed ASCII, and of 64 bytes at most.
// Where there is none it says so.
const QUOTED: &[Refused<'static>] = &[
    (
        "sum",
        0,
        "hint: \"sum\" cannot stand here: the first word is ",
    ),
    ("", 0, "hint: \"\" cannot stand here: "),
    ("verify", 1, "hint: a word is missing: STREAM is "),
    (
        "gen|7|1|20|x",
        4,
        "hint: \"x\" cannot stand here: the command ends ",
    ),
    ("a\"b\\c'd", 0, "hint: \"a\\\"b\\\\c'd\" cannot"),
    (
        "\x1b[2J\n\t\0\x7f ~",
        0,
        "hint: \"\\x1b[2J\\x0a\\x09\\x00\\x7f ~\" cannot",
    ),
    (
        "\u{ff10}\u{e9}",
        0,
        "hint: \"\\xef\\xbc\\x90\\xc3\\xa9\" cannot",
    ),
    (
        "0123456789abcdef0123456789abcdef0123456789abcdef0123456789abcdef",
        0,
        "hint: \"0123456789abcdef0123456789abcdef0123456789abcdef0123456789abcdef\" cannot",
    ),
    (
        "0123456789abcdef0123456789abcdef0123456789abcdef0123456789abcdefg",
        0,
        "hint: \"0123456789abcdef0123456789abcdef0123456789abcdef0123456789abcdef\"... cannot",
    ),
];

// Words, the record that is not legal and why, and what the advice names.
type Illegal<'a> = (&'a str, u64, Why, &'a str);

const ILLEGAL: &[Illegal<'static>] = &[
    ("verify|log.txt", 0, Why::BadSide, "text:PATH"),
    ("lines|log", 0, Why::Truncated, "text:PATH"),
    ("lines|text:log", 0, Why::Truncated, "no line feed"),
    ("lines|wide:log", 0, Why::Truncated, "inside a record"),
    ("verify|log.txt", 1, Why::BadSide, "0 or 1"),
    ("verify|text:log", 0, Why::BadSide, "0 or 1"),
    ("verify|log", 1, Why::Truncated, "inside a record"),
    ("verify|text:log", 0, Why::BadLine, "carriage return"),
    ("play|text:log", 7, Why::BadLine, "carriage return"),
    ("play|log", 0, Why::BadItem, "DEPTH"),
    ("audit|log", 0, Why::BadSide, "text:PATH"),
    ("audit|text:log", 0, Why::BadSide, "0 or 1"),
    ("widen|log", 0, Why::ZeroDelta, "adds 0"),
    ("widen|log", 0, Why::ZeroDelta, "wide:PATH"),
    ("verify|log", 0, Why::TooHeavy(Side::First), "wide:PATH"),
    ("verify|log", 7, Why::BadItem, "wide:PATH"),
    ("verify|log", 7, Why::BadSide, "wide:PATH"),
    ("verify|log", 7, Why::Truncated, "wide:PATH"),
    ("verify|log", 0, Why::Truncated, "wide:PATH"),
    ("verify|log", 9, Why::TooHeavy(Side::First), "1073741823"),
    ("verify|log", 9, Why::TooHeavy(Side::Second), "1073741823"),
];

// The same of streams that no wide records can be, whose advice does not name what it ends with.
const NOT_WIDE: &[Illegal<'static>] = &[
    ("verify|text:log", 7, Why::BadItem, "wide:PATH"),
    ("verify|wide:log", 7, Why::BadItem, "wide:PATH"),
    ("lines|wide:log", 7, Why::Truncated, "wide:PATH"),
    ("lines|text:log", 0, Why::Truncated, "wide:PATH"),
    (
        "audit|wide:log",
        0,
        Why::TooHeavy(Side::Second),
        "wide:PATH",
    ),
];

// The reasons of a rejection, the name of each, and whether an honest helper may have it.
type Meant<'a> = (Reason, &'a str, bool);

const MEANT: &[Meant<'static>] = &[
    (Reason::Refused(1), "Refused(1)", true),
    (Reason::Refused(2), "Refused(2)", true),
    (Reason::Refused(3), "Refused(3)", true),
    (Reason::Refused(4), "Refused(4)", false),
    (Reason::Closed, "Closed", false),
    (Reason::BadKind, "BadKind", false),
    (Reason::BadLength, "BadLength", false),
    (Reason::BadCount, "BadCount", false),
    (Reason::BadNumber, "BadNumber", false),
    (Reason::BadOrder, "BadOrder", false),
    (Reason::TooMany, "TooMany", false),
    (Reason::BadFlags, "BadFlags", false),
    (Reason::HeavySibling, "HeavySibling", false),
    (Reason::Pairs, "Pairs", false),
    (Reason::LightParent, "LightParent", false),
    (Reason::Sum, "Sum", false),
    (Reason::Total, "Total", false),
    (Reason::Root, "Root", false),
    (Reason::BadFound, "BadFound", false),
    (Reason::NotAlone, "NotAlone", false),
];

// Statuses, and what the advice names, if there is any.
type Ended<'a> = (Status, Option<&'a str>);

const ENDED: &[Ended<'static>] = &[
    (Status::Accepted, None),
    (Status::Served, None),
    (Status::Wrote, None),
    (
        Status::Rejected {
            query: 1,
            round: 0,
            reason: Reason::Closed,
        },
        Some("the link ended"),
    ),
    (Status::BadSeed, Some("SEED")),
    (Status::SeedSpent, Some("another seed")),
    (Status::TooWide { query: 1 }, Some("greater T")),
    (Status::TooHigh { query: 1 }, Some("lower degree")),
    (Status::BadFrame { offset: 3 }, Some("FROM is TO of the")),
    (Status::BadFrame { offset: 0 }, Some("sip helpmom for")),
    (Status::BadTranscript { offset: 0 }, Some("TRANSCRIPT")),
    (Status::ReadFault { port: Port::First }, Some("STREAM")),
    (Status::ReadFault { port: Port::Second }, Some("SEED")),
    (
        Status::WriteFault { port: Port::Report },
        Some("standard output"),
    ),
    (Status::WriteFault { port: Port::Keep }, Some("RECORD")),
    (Status::PeerFault, Some("FROM or TO")),
    (Status::PeerClosed, Some("sip verify, sip lookup")),
    (Status::OutOfMemory, None),
];

// Whether the advice is one line that names this.
fn names(words: &Words, status: Status, want: &str) -> bool {
    let Some(line) = hint(words, &NOTHING, &status) else {
        return false;
    };
    let Ok(text) = from_utf8(line.as_slice()) else {
        return false;
    };
    text.starts_with("sip: hint: ")
        && text.find('\n') == Some(text.len() - 1)
        && text.contains(want)
}

fn check_refused(rt: &impl Abort, alloc: Global, rows: &[Refused]) -> Result<(), Fail> {
    for &(name, word, want) in rows {
        let named = names(
            &words_between(alloc, name, '|')?,
            Status::Usage { word },
            want,
        );
        let number = word as u64;
        Case { name, number }.holds(named).expect(rt, "a case");
    }
    Ok(())
}

fn check_illegal(rt: &impl Abort, alloc: Global, rows: &[Illegal]) -> Result<(), Fail> {
    for &(name, at, why, want) in rows {
        let named = names(
            &words_between(alloc, name, '|')?,
            Status::BadStream { at, why },
            want,
        );
        Case { name, number: at }.holds(named).expect(rt, "a case");
    }
    Ok(())
}

fn check_not_wide(rt: &impl Abort, alloc: Global, rows: &[Illegal]) -> Result<(), Fail> {
    for &(name, at, why, other) in rows {
        let words = words_between(alloc, name, '|')?;
        let status = Status::BadStream { at, why };
        let holds = names(&words, status, "") && !names(&words, status, other);
        Case { name, number: at }.holds(holds).expect(rt, "a case");
    }
    Ok(())
}

// What a reason means is said whatever the words are, as is that an honest helper has it.
fn check_meant(rt: &impl Abort, alloc: Global, rows: &[Meant]) -> Result<(), Fail> {
    let words = words_between(alloc, "verify|log", '|')?;
    for &(reason, name, is_honest) in rows {
        let status = Status::Rejected {
            query: 1,
            round: 0,
            reason,
        };
        let says = names(&words, status, "as an honest helper");
        let holds = names(&words, status, name) && says == is_honest;
        Case { name, number: 0 }.holds(holds).expect(rt, "a case");
    }
    Ok(())
}

fn check_ended(rt: &impl Abort, alloc: Global, rows: &[Ended]) -> Result<(), Fail> {
    let words = words_between(alloc, "verify|log", '|')?;
    for (index, &(status, want)) in rows.iter().enumerate() {
        let holds = match want {
            Some(want) => names(&words, status, want),
            None => hint(&words, &NOTHING, &status).is_none(),
        };
        let case = Case {
            name: "a status",
            number: index as u64,
        };
        case.holds(holds).expect(rt, "a case");
    }
    Ok(())
}

// The call that fails, of sixteen bytes each, and what stands then of what is said of words that
// are none.
type Failing<'a> = (u64, &'a str);

const FAILING: &[Failing<'static>] = &[
    (1, ""),
    (2, "sip: usage at wo"),
    (3, "sip: usage at word 1\n"),
    (4, "sip: usage at word 1\nsip: hint: \"07\" "),
    (
        100,
        "sip: usage at word 1\n\
        sip: hint: \"07\" cannot stand here: \
        NUMBER is below 2^64, in digits without a leading zero\n",
    ),
];

fn check_failing(rt: &impl Abort, alloc: Global, rows: &[Failing]) -> Result<(), Fail> {
    let words = words_between(alloc, "gen|07", '|')?;
    let status = Status::Usage { word: 1 };
    for &(number, name) in rows {
        let mut sink = MemorySink::new(alloc, 16, vec![in alloc; number]?);
        let ending = finish(&status, &mut sink);
        let advised = ending.advise(&words, &NOTHING, &status, &mut sink);
        let case = Case { name, number };
        case.holds(advised == ending && advised.code == 2)
            .expect(rt, "a case");
        case.writes(sink.bytes(), name.as_bytes())
            .expect(rt, "a case");
    }
    Ok(())
}

// What is said where no words could be had, for a want of memory or a word that is not UTF-8.
fn check_unread(rt: &impl Abort, alloc: Global, status: Status, want: &str) -> Result<(), Fail> {
    let mut sink = MemorySink::new(alloc, 100, vec![in alloc]?);
    let ending = finish(&status, &mut sink);
    let advised = ending.advise_unread(&status, &mut sink);
    let case = Case {
        name: want,
        number: 0,
    };
    let said = from_utf8(sink.bytes());
    case.holds(advised == ending && said.is_ok_and(|text| text.ends_with(want)))
        .expect(rt, "a case");
    Ok(())
}

#[test]
fn advice_is_there_where_a_word_is_no_text(rt: HostRuntime) -> Result<(), Fail> {
    let alloc = rt.alloc();
    let usage = Status::Usage { word: 0 };
    check_unread(
        &rt,
        alloc,
        usage,
        "sip: usage at word 0\n\
        sip: hint: a word is not UTF-8, as words have to be: give the file another name, or link \
        it to one\n",
    )?;
    check_unread(&rt, alloc, Status::OutOfMemory, "sip: out of memory\n")
}

#[test]
fn advice_says_what_a_reason_means(rt: HostRuntime) -> Result<(), Fail> {
    check_meant(&rt, rt.alloc(), MEANT)
}

#[test]
fn advice_quotes_the_word_that_is_refused(rt: HostRuntime) -> Result<(), Fail> {
    let alloc = rt.alloc();
    check_refused(&rt, alloc, QUOTED)?;
    check_refused(&rt, alloc, ELSEWHERE)
}

#[test]
fn advice_follows_from_the_words_and_the_status(rt: HostRuntime) -> Result<(), Fail> {
    let alloc = rt.alloc();
    check_refused(&rt, alloc, REFUSED)?;
    check_illegal(&rt, alloc, ILLEGAL)?;
    check_not_wide(&rt, alloc, NOT_WIDE)?;
    check_ended(&rt, alloc, ENDED)?;
    check_failing(&rt, alloc, FAILING)
}
