// Words that are commands: what they ask for, and what they open.

use crate::words::words_between;
use sip_command_tests::case::Case;
use sip_lookup::Lookup;
use sip_moments::Moment;
use sip_stream::Form;
use sip_vector::{Query, Side};
use sip_words::{Command, Opening, Words, ports, read_words};
use std::alloc::Global;
use std::process::Abort;
use std::test::Fail;

// The words of a text, with a bar between them.
fn words(alloc: Global, text: &str) -> Result<Words, Fail> {
    words_between(alloc, text, '|')
}

// The queries of the task below.
const QUERIES: &[Query] = &[
    Query::Sub { lo: 10, hi: 4095 },
    Query::Range {
        side: Side::First,
        lo: 1,
        hi: 4094,
    },
    Query::Range {
        side: Side::Second,
        lo: 7,
        hi: 7,
    },
    Query::F2 { side: Side::First },
    Query::F2 { side: Side::Second },
    Query::Inner,
    Query::Sub { lo: 0, hi: 0 },
];

fn reads_queries(words: &Words, queries: &[Query]) -> bool {
    match read_words(words) {
        Ok(Command::Verify(task)) => {
            task.depth.get() == 12 && task.form == Form::Text && task.queries.as_slice() == queries
        }
        _ => false,
    }
}

// The lookups and the moments of the words below.
const LOOKUPS: &[Lookup] = &[
    Lookup::Index(0),
    Lookup::Pred(4095),
    Lookup::Succ(10),
    Lookup::Index(4095),
    Lookup::Pred(0),
    Lookup::Succ(0),
];

const MOMENTS: &[Moment] = &[
    Moment {
        side: Side::First,
        degree: 3,
    },
    Moment {
        side: Side::Second,
        degree: 8,
    },
    Moment {
        side: Side::Second,
        degree: 4,
    },
    Moment {
        side: Side::First,
        degree: 3,
    },
];

fn reads_lookups(words: &Words, lookups: &[Lookup]) -> bool {
    match read_words(words) {
        Ok(Command::Lookup(task)) => {
            task.depth.get() == 12 && task.form == Form::Text && task.lookups.as_slice() == lookups
        }
        _ => false,
    }
}

fn reads_moments(words: &Words, moments: &[Moment]) -> bool {
    match read_words(words) {
        Ok(Command::Moments(task)) => {
            task.depth.get() == 12 && task.form == Form::Text && task.moments.as_slice() == moments
        }
        _ => false,
    }
}

// Lookups and moments are read in their order, and the words of their helpers are those helpers'.
fn check_asked(rt: &impl Abort, alloc: Global) -> Result<(), Fail> {
    let looks = words(
        alloc,
        "lookup|text:s|k|f|t|12|index:0|pred:4095|succ:10|index:4095|pred:0|succ:0",
    )?;
    let moments = words(
        alloc,
        "moments|text:s|k|f|t|12|moment:0:3|moment:1:8|moment:1:4|moment:0:3",
    )?;
    let case = Case {
        name: "lookups and moments",
        number: 0,
    };
    case.holds(reads_lookups(&looks, LOOKUPS))
        .expect(rt, "a case");
    case.holds(reads_moments(&moments, MOMENTS))
        .expect(rt, "a case");
    let helpers = (
        read_words(&words(alloc, "helplook|f|t")?),
        read_words(&words(alloc, "helpmom|f|t")?),
    );
    let are_helpers = matches!(helpers.0, Ok(Command::HelpLook))
        && matches!(helpers.1, Ok(Command::HelpMoments));
    case.holds(are_helpers).expect(rt, "a case");
    Ok(())
}

#[test]
fn reads_the_task(rt: HostRuntime) -> Result<(), Fail> {
    let words = words(
        rt.alloc(),
        "verify|text:s|k|f|t|-|12|sub:10:4095|range:0:1:4094|range:1:7:7|f2:0|f2:1|inner|sub:0:0",
    )?;
    let case = Case {
        name: "seven queries",
        number: 0,
    };
    case.holds(reads_queries(&words, QUERIES))
        .expect(&rt, "a case");
    case.holds(words.get(3) == Some("f") && words.get(14).is_none())
        .expect(&rt, "a case");
    check_asked(&rt, rt.alloc())
}

// The form of what is read, if it has one, and the depth.
fn form_and_depth(command: &Command) -> (Option<Form>, u8) {
    match command {
        Command::Verify(task) => (Some(task.form), task.depth.get()),
        Command::Lookup(task) => (Some(task.form), task.depth.get()),
        Command::Moments(task) => (Some(task.form), task.depth.get()),
        Command::Panel(task, _) => (Some(task.form), task.depth.get()),
        Command::Gen { depth } => (None, depth.get()),
        Command::Lines { form, depth } | Command::Widen { form, depth } => {
            (Some(*form), depth.get())
        }
        Command::Audit { form } | Command::Serve { form } => (Some(*form), 0),
        Command::Play(..)
        | Command::Help
        | Command::Show
        | Command::Convert
        | Command::HelpLook
        | Command::HelpMoments => (None, 0),
    }
}

// Words, and the form and the depth that they name. The form of a made stream is that of its depth.
type Read<'a> = (&'a str, Option<Form>, u8);

const READ: &[Read<'static>] = &[
    (
        "verify|made:7:20|k|f|t|-|32|sub:1:2",
        Some(Form::Binary),
        32,
    ),
    ("verify|made:7:20|k|f|t|-|33|sub:1:2", Some(Form::Wide), 33),
    ("verify|made:7:20|k|f|t|-|48|sub:1:2", Some(Form::Wide), 48),
    ("verify|s|k|f|t|-|48|sub:1:2", Some(Form::Binary), 48),
    ("verify|wide:s|k|f|t|-|3|sub:1:2", Some(Form::Wide), 3),
    ("verify|text:s|k|f|t|-|48|sub:1:2", Some(Form::Text), 48),
    ("lookup|s|k|f|t|48|index:1", Some(Form::Binary), 48),
    ("lookup|wide:s|k|f|t|3|index:1", Some(Form::Wide), 3),
    ("lookup|made:7:20|k|f|t|33|index:1", Some(Form::Wide), 33),
    ("moments|s|k|f|t|1|moment:0:3", Some(Form::Binary), 1),
    (
        "moments|made:7:20|k|f|t|32|moment:0:3",
        Some(Form::Binary),
        32,
    ),
    ("panel|s|k|honest|48|inner", Some(Form::Binary), 48),
    ("panel|text:s|k|mute,mute|1|f2:0", Some(Form::Text), 1),
    ("panel|made:7:20|k|skewed|33|inner", Some(Form::Wide), 33),
    ("audit|s|t", Some(Form::Binary), 0),
    ("audit|text:s|t", Some(Form::Text), 0),
    ("audit|wide:s|t", Some(Form::Wide), 0),
    ("serve|s|f|t", Some(Form::Binary), 0),
    ("serve|text:s|-|-", Some(Form::Text), 0),
    ("serve|wide:made:7:1|f|t", Some(Form::Wide), 0),
    ("gen|7|1|32", None, 32),
    ("gen|7|1|48", None, 48),
    ("lines|s|1", Some(Form::Binary), 1),
    ("lines|made:7:1|20", Some(Form::Binary), 20),
    ("lines|text:s|13", Some(Form::Text), 13),
    ("lines|made:7:1|32", Some(Form::Binary), 32),
    ("lines|made:7:1|33", Some(Form::Wide), 33),
    ("lines|wide:s|20", Some(Form::Wide), 20),
    ("widen|s|48", Some(Form::Binary), 48),
    ("widen|made:7:1|20", Some(Form::Binary), 20),
    ("widen|made:7:1|48", Some(Form::Wide), 48),
    ("widen|wide:s|33", Some(Form::Wide), 33),
    ("widen|text:s|33", Some(Form::Text), 33),
];

fn check_read(rt: &impl Abort, alloc: Global, rows: &[Read]) -> Result<(), Fail> {
    for &(name, form, depth) in rows {
        let is_read = match read_words(&words(alloc, name)?) {
            Ok(command) => form_and_depth(&command) == (form, depth),
            Err(_) => false,
        };
        Case { name, number: 0 }.holds(is_read).expect(rt, "a case");
    }
    Ok(())
}

#[test]
fn reads_a_form_and_a_depth(rt: HostRuntime) -> Result<(), Fail> {
    check_read(&rt, rt.alloc(), READ)
}

// The files of commands: of the stream and the seed, the two ends of the link, and the transcript.
type Files<'a> = (&'a str, &'a [Option<&'a str>]);

const NO_FILES: &[Option<&str>] = &[None, None, None, None, None];

const FILES: &[Files<'static>] = &[
    (
        "verify|s|k|f|t|-|3|sub:1:2",
        &[Some("s"), Some("k"), Some("f"), Some("t"), None],
    ),
    (
        "verify|text:s|k|f|t|-|32|sub:1:2|sub:3:4",
        &[Some("s"), Some("k"), Some("f"), Some("t"), None],
    ),
    (
        "verify|made:7:20|made:|text:t|-|-|3|sub:1:2",
        &[None, Some("made:"), Some("text:t"), Some("-"), None],
    ),
    (
        "verify|s|k|f|t|r|48|sub:1:2",
        &[Some("s"), Some("k"), Some("f"), Some("t"), Some("r")],
    ),
    (
        "verify|made:7:20|k|f|t|--|3|sub:1:2",
        &[None, Some("k"), Some("f"), Some("t"), Some("--")],
    ),
    ("verify|s|k|f|t|-|3", NO_FILES),
    (
        "play|text:s|k|mute|-|3|inner",
        &[Some("s"), Some("k"), None, None, None],
    ),
    (
        "play|s|k|honest|r|3|inner",
        &[Some("s"), Some("k"), None, None, Some("r")],
    ),
    ("help|f|t", &[None, None, Some("f"), Some("t"), None]),
    (
        "lookup|s|k|f|t|3|index:1",
        &[Some("s"), Some("k"), Some("f"), Some("t"), None],
    ),
    (
        "lookup|wide:w|-|made:|text:t|3|pred:1|succ:2",
        &[Some("w"), Some("-"), Some("made:"), Some("text:t"), None],
    ),
    ("lookup|s|k|f|t|3|index:8", NO_FILES),
    ("helplook|f|t", &[None, None, Some("f"), Some("t"), None]),
    (
        "moments|text:s|k|f|t|48|moment:0:3",
        &[Some("s"), Some("k"), Some("f"), Some("t"), None],
    ),
    (
        "moments|made:7:20|k|f|t|3|moment:1:8",
        &[None, Some("k"), Some("f"), Some("t"), None],
    ),
    ("moments|s|k|f|t|3|moment:0:9", NO_FILES),
    ("helpmom|-|t", &[None, None, Some("-"), Some("t"), None]),
    (
        "panel|text:s|k|mute,honest|3|inner",
        &[Some("s"), Some("k"), None, None, None],
    ),
    (
        "panel|made:7:20|-|honest|3|inner|f2:1",
        &[None, Some("-"), None, None, None],
    ),
    ("panel|s|k|honest,|3|inner", NO_FILES),
    ("audit|s|t", &[Some("s"), Some("t"), None, None, None]),
    (
        "audit|text:s|made:7:1",
        &[Some("s"), Some("made:7:1"), None, None, None],
    ),
    ("audit|wide:w|-", &[Some("w"), Some("-"), None, None, None]),
    ("audit|made:7:1|t", NO_FILES),
    ("show|t", &[None, Some("t"), None, None, None]),
    (
        "convert|made:7:1",
        &[None, Some("made:7:1"), None, None, None],
    ),
    ("gen|7|100|20", NO_FILES),
    (
        "lines|text:\u{e9}t\u{e9}|32",
        &[Some("\u{e9}t\u{e9}"), None, None, None, None],
    ),
    ("lines|s|32", &[Some("s"), None, None, None, None]),
    ("lines|s|49", NO_FILES),
    ("lines|wide:w|48", &[Some("w"), None, None, None, None]),
    (
        "widen|wide:text:|48",
        &[Some("text:"), None, None, None, None],
    ),
    ("widen|s|48", &[Some("s"), None, None, None, None]),
    ("widen|s|49", NO_FILES),
    (
        "serve|text:s|f|t",
        &[Some("s"), None, Some("f"), Some("t"), None],
    ),
    ("serve|-|-|-", &[Some("-"), None, None, None, None]),
    (
        "serve|w|./-|--",
        &[Some("w"), None, Some("./-"), Some("--"), None],
    ),
    ("serve|made:7:1|f|t", NO_FILES),
];

fn check_files(rt: &impl Abort, alloc: Global, rows: &[Files]) -> Result<(), Fail> {
    for (name, want) in rows {
        let words = words(alloc, name)?;
        let Ok(command) = read_words(&words) else {
            // Words that are no command open nothing.
            Case { name, number: 0 }
                .holds(*want == NO_FILES)
                .expect(rt, "a case");
            continue;
        };
        let plan = ports(&words, &command);
        for (opening, file) in [plan.first, plan.second, plan.from, plan.to, plan.keep]
            .iter()
            .zip(*want)
        {
            Case { name, number: 0 }
                .holds(opening.name(&words) == *file)
                .expect(rt, "a case");
        }
    }
    Ok(())
}

// The made streams of commands: their numbers, how many records, and their depths.
type Made<'a> = (&'a str, (u64, u64, u8));

const MADE: &[Made<'static>] = &[
    ("verify|made:7:20|k|f|t|-|3|sub:1:2", (7, 20, 3)),
    ("gen|7|100|20", (7, 100, 20)),
    ("lookup|made:7:20|k|f|t|48|index:5", (7, 20, 48)),
    ("moments|made:0:1|k|f|t|1|moment:0:3", (0, 1, 1)),
    ("panel|made:7:20|k|mute,honest|48|sub:5:5", (7, 20, 48)),
    (
        "gen|18446744073709551615|10000000|32",
        (u64::MAX, 10_000_000, 32),
    ),
    ("lines|made:0:1|32", (0, 1, 32)),
    ("widen|made:7:10000000|48", (7, 10_000_000, 48)),
    ("verify|made:7:20|k|f|t|-|48|sub:1:2", (7, 20, 48)),
];

// What a made stream is made of.
fn made(opening: &Opening) -> Option<(u64, u64, u8)> {
    match opening {
        Opening::Made {
            number,
            count,
            depth,
        } => Some((*number, *count, depth.get())),
        Opening::Nothing | Opening::Standard | Opening::Spared | Opening::Path { .. } => None,
    }
}

fn check_made(rt: &impl Abort, alloc: Global, rows: &[Made]) -> Result<(), Fail> {
    for &(name, want) in rows {
        let words = words(alloc, name)?;
        let command = read_words(&words)?;
        let plan = ports(&words, &command);
        Case { name, number: 0 }
            .holds(made(&plan.first) == Some(want))
            .expect(rt, "a case");
    }
    Ok(())
}

// Words, and whether FROM is standard input and TO standard output.
type Ends<'a> = (&'a str, bool, bool);

const ENDS: &[Ends<'static>] = &[
    ("serve|s|-|-", true, true),
    ("serve|s|-|t", true, false),
    ("serve|s|f|-", false, true),
    ("serve|s|./-|--", false, false),
    ("help|-|-", false, false),
    ("verify|s|k|-|-|-|3|inner", false, false),
];

fn check_ends(rt: &impl Abort, alloc: Global, rows: &[Ends]) -> Result<(), Fail> {
    for &(name, from, to) in rows {
        let words = words(alloc, name)?;
        let plan = ports(&words, &read_words(&words)?);
        let is_standard = (plan.from == Opening::Standard, plan.to == Opening::Standard);
        Case { name, number: 0 }
            .holds(is_standard == (from, to))
            .expect(rt, "a case");
    }
    Ok(())
}

#[test]
fn opens_what_a_command_names(rt: HostRuntime) -> Result<(), Fail> {
    check_files(&rt, rt.alloc(), FILES)?;
    check_ends(&rt, rt.alloc(), ENDS)?;
    check_made(&rt, rt.alloc(), MADE)
}
