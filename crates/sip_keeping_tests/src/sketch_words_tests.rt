// Words of the commands that keep a sketch: which they are, what they ask for, what they open, and
// which word is refused.

use sip_command_tests::case::Case;
use sip_keeping::{SketchCommand, file_opening, read_sketch_words, sketch_ports, sketch_verb};
use sip_sketch::SeatKind;
use sip_stream::Form;
use sip_vector::Side;
use sip_word_tests::words::words_between;
use sip_words::{Opening, Usage, Words, read_words};
use std::alloc::Global;
use std::process::Abort;
use std::test::Fail;

fn refused_at(words: &Words) -> Option<u32> {
    match read_sketch_words(words) {
        Ok(_) => None,
        Err(Usage { word }) => Some(word),
    }
}

// Words, and the number of the first of them that no command has behind the words before it,
// reckoned by a program of its own; none where they are a command.
type Refusal<'a> = (&'a str, Option<u32>);

const REFUSALS: &[Refusal<'static>] = &[
    ("", Some(0)),
    ("begin", Some(1)),
    ("begin|", Some(1)),
    ("begin|k", Some(2)),
    ("begin|k|", Some(2)),
    ("begin|k|s", Some(3)),
    ("begin|k|s|0|1/1|entries:1", Some(3)),
    ("begin|k|s|49|1/1|entries:1", Some(3)),
    ("begin|k|s|02|1/1|entries:1", Some(3)),
    ("begin|k|s|", Some(3)),
    ("begin|k|s|2", Some(4)),
    ("begin|k|s|2|1", Some(4)),
    ("begin|k|s|2|1/", Some(4)),
    ("begin|k|s|2|/1", Some(4)),
    ("begin|k|s|2|0/1|entries:1", Some(4)),
    ("begin|k|s|2|2/1|entries:1", Some(4)),
    ("begin|k|s|2|1/1/1|entries:1", Some(4)),
    ("begin|k|s|2|01/1|entries:1", Some(4)),
    ("begin|k|s|2|1/4294967296|entries:1", Some(4)),
    ("begin|k|s|2|4294967296/4294967297|entries:1", Some(4)),
    ("begin|k|s|2|18446744073709551617/1|entries:1", Some(4)),
    ("begin|k|s|2|+1/1|entries:1", Some(4)),
    ("begin|k|s|2|1/1", Some(5)),
    ("begin|k|s|2|1/1|", Some(5)),
    ("begin|k|s|2|1/1|entries", Some(5)),
    ("begin|k|s|2|1/1|entries:", Some(5)),
    ("begin|k|s|2|1/1|entries:0", Some(5)),
    ("begin|k|s|2|1/1|entries:01", Some(5)),
    ("begin|k|s|2|1/1|entries:65", Some(5)),
    ("begin|k|s|2|1/1|entries:18446744073709551617", Some(5)),
    ("begin|k|s|2|1/1|Entries:1", Some(5)),
    ("begin|k|s|2|1/1|sums:1", Some(5)),
    ("begin|k|s|2|1/1|sums:2:1", Some(5)),
    ("begin|k|s|2|1/1|heavy:0", Some(5)),
    ("begin|k|s|2|1/1|heavy:00:1", Some(5)),
    ("begin|k|s|2|1/1|above:0", Some(5)),
    ("begin|k|s|2|1/1|above:2:1", Some(5)),
    ("begin|k|s|2|1/1|above:0:1|above:1:63", None),
    ("begin|k|s|2|1/1|products:0:1", Some(5)),
    ("begin|k|s|2|1/1|products:1|", Some(6)),
    ("begin|k|s|2|1/1|entries:64|sums:0:1", Some(6)),
    ("begin|k|s|2|1/1|entries:63|sums:0:1|sums:1:1", Some(7)),
    ("begin|k|s|2|1/1|entries:63|sums:0:2", Some(6)),
    ("begin|k|s|2|1/1|entries:1|entries:1|seats", Some(7)),
    ("begin|k|s|2|1/1|entries:1|entries:1|heavy:1:63", Some(7)),
    ("begin|k|s|2|1/1|entries:1|entries:1|heavy:1:62", None),
    ("begin|k|s|2|1/1|entries:64", None),
    (
        "begin|-|made:7:1|48|4294967295/4294967295|heavy:1:1|entries:1|heavy:1:1",
        None,
    ),
    (
        "begin|k|s|1|1/4294967295|products:3|sums:1:2|sums:0:4|heavy:0:5",
        None,
    ),
    ("Begin|k|s|2|1/1|entries:1", Some(0)),
    ("begin |k|s|2|1/1|entries:1", Some(0)),
    ("watch", Some(1)),
    ("watch|", Some(1)),
    ("watch|k", Some(2)),
    ("watch|k|", Some(2)),
    ("watch|k|text:", Some(2)),
    ("watch|k|wide:", Some(2)),
    ("watch|k|made:7:20|+|-", Some(2)),
    ("watch|k|made:|+|-", Some(2)),
    ("watch|k|s", Some(3)),
    ("watch|k|s|", Some(3)),
    ("watch|k|s|-|-", Some(3)),
    ("watch|k|s|-1|-", Some(3)),
    ("watch|k|s|00|-", Some(3)),
    ("watch|k|s|2147483649|-", Some(3)),
    ("watch|k|s|+0|-", Some(3)),
    ("watch|k|s|0", Some(4)),
    ("watch|k|s|+|", Some(4)),
    ("watch|k|s|+|+", Some(4)),
    ("watch|k|s|+|0", Some(4)),
    ("watch|k|s|+|01", Some(4)),
    ("watch|k|s|+|2147483649", Some(4)),
    ("watch|k|s|+|1|", Some(5)),
    ("watch|k|s|+|-|-", Some(5)),
    ("watch|k|s|+|-", None),
    ("watch|k|s|0|1", None),
    ("watch|k|text:made:7:1|2147483648|2147483648", None),
    ("watch|k|wide:s|7|9", None),
    ("watch|watch|made|+|-", None),
    ("Watch|k|s|+|-", Some(0)),
    ("merge", Some(1)),
    ("merge|", Some(1)),
    ("merge||p", Some(1)),
    ("merge|k", Some(2)),
    ("merge|k|", Some(2)),
    ("merge|k|p", None),
    ("merge|k|k|k", None),
    ("merge|k|p|", Some(3)),
    ("merge|k|p||q", Some(3)),
    ("merge|k|text:|made:7:1|-|+", None),
    ("mergE|k|p", Some(0)),
    ("seats", Some(1)),
    ("seats|", Some(1)),
    ("seats|k", None),
    ("seats|k|", Some(2)),
    ("seats|k|k", Some(2)),
    ("seats|-", None),
    ("seat|k", Some(0)),
    ("seats:|k", Some(0)),
];

fn check_refusals(rt: &impl Abort, alloc: Global, rows: &[Refusal]) -> Result<(), Fail> {
    for &(name, want) in rows {
        let case = Case { name, number: 0 };
        let words = words_between(alloc, name, '|')?;
        case.holds(refused_at(&words) == want).expect(rt, "a case");
        // Words of one of these verbs are for no other command, and the others for none of these.
        let is_ours = sketch_verb(&words).is_some();
        case.holds(is_ours == (want != Some(0)))
            .expect(rt, "a case");
        case.holds(!is_ours || read_words(&words).is_err())
            .expect(rt, "a case");
    }
    Ok(())
}

// 1,024 parts are summed, and no more.
fn check_many(rt: &impl Abort, alloc: Global, parts: u32) -> Result<(), Fail> {
    let mut list = Vec::new(alloc);
    list.push(String::from_str(alloc, "merge")?)?;
    list.push(String::from_str(alloc, "k")?)?;
    for _ in 0..parts {
        list.push(String::from_str(alloc, "p")?)?;
    }
    let read = match read_sketch_words(&Words::of(list)) {
        Ok(SketchCommand::Merge { parts }) => Ok(parts),
        Ok(_) => Ok(0),
        Err(Usage { word }) => Err(word),
    };
    let want = if parts <= 1024 { Ok(parts) } else { Err(1026) };
    Case {
        name: "parts",
        number: parts as u64,
    }
    .holds(read == want)
    .expect(rt, "a case");
    Ok(())
}

const HEAVY: SeatKind = SeatKind::Heavy(Side::Second);

// The kinds that `products:2 heavy:1:3 sums:0:1 entries:1 heavy:0:1 sums:1:2` asks for.
const KINDS: &[SeatKind] = &[
    SeatKind::Products,
    SeatKind::Products,
    HEAVY,
    HEAVY,
    HEAVY,
    SeatKind::Sums(Side::First),
    SeatKind::Entries,
    SeatKind::Heavy(Side::First),
    SeatKind::Sums(Side::Second),
    SeatKind::Sums(Side::Second),
];

// The seats alone: that a depth is read is seen by the words that are refused.
fn begins(words: &Words) -> bool {
    match read_sketch_words(words) {
        Ok(
            SketchCommand::Begin {
                part,
                parts,
                kinds,
                ..
            },
        ) => part == 3 && parts == 70 && kinds.as_slice() == KINDS,
        _ => false,
    }
}

// What `watch` is asked for: the form of its stream, the number of its first record, and after how
// many the sketch is stored.
type Watched<'a> = (&'a str, Form, Option<u64>, Option<u64>);

const WATCHED: &[Watched<'static>] = &[
    ("watch|k|s|+|-", Form::Binary, None, None),
    ("watch|k|text:s|0|1", Form::Text, Some(0), Some(1)),
    (
        "watch|k|wide:s|2147483648|2147483648",
        Form::Wide,
        Some(1 << 31),
        Some(1 << 31),
    ),
    ("watch|k|text|17|-", Form::Binary, Some(17), None),
    ("watch|k|wide:text:|+|512", Form::Wide, None, Some(512)),
];

fn watches(words: &Words, of: (Form, Option<u64>, Option<u64>)) -> bool {
    match read_sketch_words(words) {
        Ok(SketchCommand::Watch { form, at, every }) => (form, at, every) == of,
        _ => false,
    }
}

fn check_watched(rt: &impl Abort, alloc: Global, rows: &[Watched]) -> Result<(), Fail> {
    for &(name, form, at, every) in rows {
        let words = words_between(alloc, name, '|')?;
        Case { name, number: 0 }
            .holds(watches(&words, (form, at, every)))
            .expect(rt, "a case");
    }
    Ok(())
}

#[test]
fn each_word_of_a_sketch_is_refused_where_no_command_goes_on(rt: HostRuntime) -> Result<(), Fail> {
    let alloc = rt.alloc();
    check_refusals(&rt, alloc, REFUSALS)?;
    for parts in [1, 1024, 1025, 1026] {
        check_many(&rt, alloc, parts)?;
    }
    Ok(())
}

#[test]
fn words_of_a_sketch_say_what_is_done(rt: HostRuntime) -> Result<(), Fail> {
    let alloc = rt.alloc();
    let name = "begin|k|s|12|3/70|products:2|heavy:1:3|sums:0:1|entries:1|heavy:0:1|sums:1:2";
    let case = Case { name, number: 0 };
    case.holds(begins(&words_between(alloc, name, '|')?))
        .expect(&rt, "a case");
    check_watched(&rt, alloc, WATCHED)
}

// What words open: the name of the stream, of the seed, of the sketch and of the second part.
type Opened<'a> = (
    &'a str,
    Option<&'a str>,
    Option<&'a str>,
    Option<&'a str>,
    Option<&'a str>,
);

const OPENED: &[Opened<'static>] = &[
    (
        "begin|k|made:7:1|2|1/1|entries:1",
        None,
        Some("made:7:1"),
        Some("k"),
        None,
    ),
    ("watch|k|s|+|-", Some("s"), None, Some("k"), None),
    ("watch|k|text:s|+|-", Some("s"), None, Some("k"), None),
    ("watch|-|wide:-|+|-", Some("-"), None, Some("-"), None),
    (
        "merge|k|one|text:two|three",
        None,
        None,
        Some("k"),
        Some("text:two"),
    ),
    ("seats|text:k", None, None, Some("text:k"), None),
];

// The name of the second part, where the command has parts.
fn second_part<'a>(words: &'a Words, command: &SketchCommand) -> Option<&'a str> {
    match command {
        SketchCommand::Merge { .. } => file_opening(2).name(words),
        _ => None,
    }
}

fn check_opened(rt: &impl Abort, alloc: Global, rows: &[Opened]) -> Result<(), Fail> {
    for &(name, first, second, sketch, part) in rows {
        let case = Case { name, number: 0 };
        let words = words_between(alloc, name, '|')?;
        let Ok(command) = read_sketch_words(&words) else {
            case.holds(false).expect(rt, "a command");
            return Ok(());
        };
        let plan = sketch_ports(&command);
        case.holds(plan.first.name(&words) == first && plan.second.name(&words) == second)
            .expect(rt, "a case");
        case.holds(file_opening(0).name(&words) == sketch)
            .expect(rt, "a case");
        case.holds(second_part(&words, &command) == part)
            .expect(rt, "a case");
    }
    Ok(())
}

#[test]
fn words_of_a_sketch_name_the_files_that_are_opened(rt: HostRuntime) -> Result<(), Fail> {
    check_opened(&rt, rt.alloc(), OPENED)
}
