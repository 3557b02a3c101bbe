// The words that ask for a text, and what the page says.

use crate::words::words_between;
use sip_advice::{
    ASK_PART, AUDIT_PART, BEGIN_PART, CONVERT_PART, GEN_PART, HELP, HELP_PART, HELPLOOK_PART,
    HELPMOM_PART, LINES_PART, LOOKUP_PART, MERGE_PART, MOMENTS_PART, PANEL_PART, PLAY_PART,
    SEATS_PART, SERVE_PART, SHOW_PART, VERIFY_PART, VERSION, WATCH_PART, WIDEN_PART, page_of,
    page_without_file,
};
use sip_command_tests::case::Case;
use std::alloc::Global;
use std::process::Abort;
use std::test::Fail;

// Words with a bar between them, and the text that they ask for.
type Asked<'a> = (&'a str, Option<&'a str>);

// Words for the whole page or the version, and words for none.
const PAGES: &[Asked<'static>] = &[
    ("--help", Some(HELP)),
    ("-h", Some(HELP)),
    ("--version", Some(VERSION)),
    ("-V", Some(VERSION)),
    ("show|--help", None),
    ("convert|-h", None),
    ("-H", None),
    ("-v", None),
    ("-?", None),
    ("help", None),
    ("-h|verify", None),
    ("--help|verify", None),
    ("-h|-h", None),
    ("help|--version", None),
    ("verify|-V", None),
    ("Audit|--help", None),
    ("audit|--help|--help", None),
    ("help|--help|to", None),
    ("lines|--help|20", None),
    ("gen|7|--help", None),
    ("helplook|--help|to", None),
    ("helpmom|-h|to", None),
    ("lookups|--help", None),
    ("seat|--help", None),
    ("begin|--help|1", None),
    ("merge|-V", None),
];

// Words for a part. The texts of a test are checked together, and so many stand in one of their
// own.
const PARTS: &[Asked<'static>] = &[
    ("verify|--help", Some(VERIFY_PART)),
    ("verify|-h", Some(VERIFY_PART)),
    ("play|--help", Some(PLAY_PART)),
    ("play|-h", Some(PLAY_PART)),
    ("panel|--help", Some(PANEL_PART)),
    ("panel|-h", Some(PANEL_PART)),
    ("help|--help", Some(HELP_PART)),
    ("help|-h", Some(HELP_PART)),
    ("lookup|--help", Some(LOOKUP_PART)),
    ("lookup|-h", Some(LOOKUP_PART)),
    ("helplook|--help", Some(HELPLOOK_PART)),
    ("helplook|-h", Some(HELPLOOK_PART)),
    ("moments|--help", Some(MOMENTS_PART)),
    ("moments|-h", Some(MOMENTS_PART)),
    ("helpmom|--help", Some(HELPMOM_PART)),
    ("helpmom|-h", Some(HELPMOM_PART)),
    ("audit|--help", Some(AUDIT_PART)),
    ("audit|-h", Some(AUDIT_PART)),
    ("gen|--help", Some(GEN_PART)),
    ("gen|-h", Some(GEN_PART)),
    ("lines|--help", Some(LINES_PART)),
    ("lines|-h", Some(LINES_PART)),
    ("widen|--help", Some(WIDEN_PART)),
    ("widen|-h", Some(WIDEN_PART)),
];

// The same of the commands that keep a sketch, and of the helper with a file.
const SKETCH_PARTS: &[Asked<'static>] = &[
    ("begin|--help", Some(BEGIN_PART)),
    ("begin|-h", Some(BEGIN_PART)),
    ("watch|--help", Some(WATCH_PART)),
    ("watch|-h", Some(WATCH_PART)),
    ("merge|--help", Some(MERGE_PART)),
    ("merge|-h", Some(MERGE_PART)),
    ("seats|--help", Some(SEATS_PART)),
    ("seats|-h", Some(SEATS_PART)),
    ("ask|--help", Some(ASK_PART)),
    ("ask|-h", Some(ASK_PART)),
    ("serve|--help", Some(SERVE_PART)),
    ("serve|-h", Some(SERVE_PART)),
];

// Words for a part that is printed where no file has that name, and words for none.
const WITHOUT_FILE: &[Asked<'static>] = &[
    ("show|--help", Some(SHOW_PART)),
    ("show|-h", Some(SHOW_PART)),
    ("convert|--help", Some(CONVERT_PART)),
    ("convert|-h", Some(CONVERT_PART)),
    ("verify|--help", None),
    ("help|-h", None),
    ("seats|--help", None),
    ("serve|--help", None),
    ("show|--version", None),
    ("show|--Help", None),
    ("show|--help|x", None),
    ("convert", None),
    ("show|t", None),
    ("--help", None),
];

fn check_asked(rt: &impl Abort, alloc: Global, rows: &[Asked]) -> Result<(), Fail> {
    for &(name, want) in rows {
        let text = page_of(&words_between(alloc, name, '|')?);
        Case { name, number: 0 }
            .holds(text == want)
            .expect(rt, "a case");
    }
    Ok(())
}

fn check_without_file(rt: &impl Abort, alloc: Global, rows: &[Asked]) -> Result<(), Fail> {
    for &(name, want) in rows {
        let text = page_without_file(&words_between(alloc, name, '|')?);
        Case { name, number: 0 }
            .holds(text == want)
            .expect(rt, "a case");
    }
    Ok(())
}

// The page has each part, each line of a status, each why of a bad record, each limit and each
// reason of a rejection.
const SAID: &[&str] = &[
    VERIFY_PART,
    PLAY_PART,
    PANEL_PART,
    HELP_PART,
    LOOKUP_PART,
    HELPLOOK_PART,
    MOMENTS_PART,
    HELPMOM_PART,
    AUDIT_PART,
    SHOW_PART,
    CONVERT_PART,
    GEN_PART,
    LINES_PART,
    WIDEN_PART,
    "\n  sip verify STREAM SEED FROM TO RECORD DEPTH QUERY..\n",
    "\n  sip panel STREAM SEED HELPERS DEPTH QUERY..\n",
    "\n  sip lookup STREAM SEED FROM TO DEPTH LOOKUP..\n",
    "\n  sip moments STREAM SEED FROM TO DEPTH MOMENT..\n",
    "\n  sip show TRANSCRIPT\n",
    "\n  sip convert TRANSCRIPT\n",
    "\n  sip: usage at word N\n",
    "\n  sip: bad stream at record N: WHY\n",
    "\n  sip: seed too short\n",
    "\n  sip: seed spent\n",
    "\n  sip: query K too wide\n",
    "\n  sip: query K too high\n",
    "\n  sip: bad transcript at offset N\n",
    "\n  sip: bad frame at offset N\n",
    "\n  sip: read fault on FILE, sip: write fault on FILE\n",
    "\n  sip: peer fault\n",
    "\n  sip: peer closed\n",
    "\n  sip: out of memory\n",
    "\n      Truncated ",
    "\n      BadLine ",
    "\n      BadSide ",
    "\n      BadItem ",
    "\n      ZeroDelta ",
    "\n      TooHeavy(S) ",
    "first is STREAM or STORED",
    "second is SEED or TRANSCRIPT",
    "record N of a text is line N + 1",
    "1073741823",
    "1048575",
    "\nREASONS\n",
    "\n  Refused(1) ",
    "\n  Refused(2) ",
    "\n  Refused(3) ",
    "\n  Refused(4) ",
    "\n  Closed ",
    "\n  BadKind ",
    "\n  BadLength ",
    "\n  BadCount ",
    "\n  BadNumber ",
    "\n  BadOrder ",
    "\n  TooMany ",
    "\n  BadFlags ",
    "\n  HeavySibling ",
    "\n  Pairs ",
    "\n  LightParent ",
    "\n  Total ",
    "\n  Sum ",
    "\n  BadFound ",
    "\n  NotAlone ",
    "\n  Root ",
];

// The same of sketches, and of the helper with a file.
const SAID_OF_SKETCHES: &[&str] = &[
    BEGIN_PART,
    WATCH_PART,
    MERGE_PART,
    SEATS_PART,
    ASK_PART,
    SERVE_PART,
    "\n  sip begin SKETCH SEED DEPTH PART/PARTS SEATS..\n",
    "\n  sip watch SKETCH STORED AT EVERY\n",
    "\n  sip merge SKETCH PART..\n",
    "\n  sip seats SKETCH\n",
    "\n  sip ask SKETCH FROM TO QUESTION..\n",
    "\n  sip serve STORED FROM TO\n",
    "\n  sip: bad sketch at offset N, sip: bad part K at offset N\n",
    "\n  sip: sketch exists\n",
    "\n  sip: bad start, sketch has N records, sip: bad start, sketch is a sum\n",
    "\n  sip: stream ends at record N\n",
    "\n  sip: part K: WHY\n",
    "\n  sip: sketch is busy\n",
    "\n  sip: sketch is not whole\n",
    "\n  sip: query K does not fit\n",
    "\n  sip: query K on a side with negatives\n",
    "\n  sip: no seat for query K\n",
    "\n  sip: helper holds N A B F, sketch N A B F\n",
    "\n      Shape ",
    "\n      Whole ",
    "\n      UsedSeat ",
    "\n      NotNext ",
    "\n      Heavy(S) ",
    "\n      Missing ",
    "\n      Fewer ",
];

fn check_said(rt: &impl Abort, said: &[&str]) {
    for &name in said {
        Case { name, number: 0 }
            .holds(HELP.contains(name))
            .expect(rt, "a case");
    }
}

#[test]
fn words_ask_for_the_page_alone(rt: HostRuntime) -> Result<(), Fail> {
    check_asked(&rt, rt.alloc(), PAGES)
}

#[test]
fn words_ask_for_their_part_alone(rt: HostRuntime) -> Result<(), Fail> {
    check_asked(&rt, rt.alloc(), PARTS)
}

#[test]
fn words_of_a_sketch_ask_for_their_part_alone(rt: HostRuntime) -> Result<(), Fail> {
    check_asked(&rt, rt.alloc(), SKETCH_PARTS)
}

#[test]
fn words_ask_for_their_part_where_no_file_is_named_so(rt: HostRuntime) -> Result<(), Fail> {
    check_without_file(&rt, rt.alloc(), WITHOUT_FILE)
}

#[test]
fn the_page_says_all(rt: HostRuntime) {
    check_said(&rt, SAID);
}

#[test]
fn the_page_says_all_of_sketches(rt: HostRuntime) {
    check_said(&rt, SAID_OF_SKETCHES);
}
