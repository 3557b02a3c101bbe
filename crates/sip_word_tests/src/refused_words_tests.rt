// Words that are no command, and which of them no command has behind those before.

use crate::words::words_between;
use sip_command_tests::case::Case;
use sip_words::{Usage, Words, read_words};
use std::alloc::Global;
use std::process::Abort;
use std::test::Fail;

fn refused_at(words: &Words) -> Option<u32> {
    match read_words(words) {
        Ok(_) => None,
        Err(Usage { word }) => Some(word),
    }
}

// Words, and the number of the first of them that no command has behind the words before it, found
// by hand; none where they are a command.
pub type Refusal<'a> = (&'a str, Option<u32>);

const REFUSALS: &[Refusal<'static>] = &[
    ("", Some(0)),
    ("audit", Some(1)),
    ("audit|", Some(1)),
    ("audit|made:7:20|t", Some(1)),
    ("audit|made:|t", Some(1)),
    ("audit|text:|t", Some(1)),
    ("audit|wide:|t", Some(1)),
    ("audit|s", Some(2)),
    ("audit|--help", Some(2)),
    ("audit|s|", Some(2)),
    ("audit|s|t", None),
    ("audit|made|made:7:20", None),
    ("audit|text:made:7:20|-", None),
    ("audit|wide:text:|text:", None),
    ("audit|s|t|", Some(3)),
    ("audit|s|t|2", Some(3)),
    ("Audit|s|t", Some(0)),
    ("show", Some(1)),
    ("show|", Some(1)),
    ("show|t", None),
    ("show|--help", None),
    ("show|t|", Some(2)),
    ("show|t|t", Some(2)),
    ("Show|t", Some(0)),
    ("convert", Some(1)),
    ("convert|", Some(1)),
    ("convert|made:7:1", None),
    ("convert|t|t", Some(2)),
    ("convert |t", Some(0)),
    ("Verify|s|k|f|t|-|3|sub:1:2", Some(0)),
    ("verify ", Some(0)),
    ("verify", Some(1)),
    ("verify||k|f|t|-|3|sub:1:2", Some(1)),
    ("verify|text:|k|f|t|-|3|sub:1:2", Some(1)),
    ("verify|wide:|k|f|t|-|3|sub:1:2", Some(1)),
    ("verify|made:|k|f|t|-|3|sub:1:2", Some(1)),
    ("verify|made:7|k|f|t|-|3|sub:1:2", Some(1)),
    ("verify|made:07:20|k|f|t|-|3|sub:1:2", Some(1)),
    ("verify|made:7:|k|f|t|-|3|sub:1:2", Some(1)),
    ("verify|made:7:20:1|k|f|t|-|3|sub:1:2", Some(1)),
    ("verify|made:7:10000001|k|f|t|-|3|sub:1:2", Some(1)),
    (
        "verify|made:18446744073709551616:20|k|f|t|-|3|sub:1:2",
        Some(1),
    ),
    ("verify|s", Some(2)),
    ("verify|s||f|t|-|3|sub:1:2", Some(2)),
    ("verify|s|k", Some(3)),
    ("verify|s|k||t|-|3|sub:1:2", Some(3)),
    ("verify|s|k|f", Some(4)),
    ("verify|s|k|f||+|3|sub:1:2", Some(4)),
    ("verify|s|k|f|t", Some(5)),
    ("verify|s|k|f|t|r|3|sub:1:2", None),
    ("verify|s|k|f|t|r|33|sub:1:2", None),
    ("verify|s|k|f|t|--|3|sub:1:2", None),
    ("verify|s|k|f|t||3|sub:1:2", Some(5)),
    ("verify|s|k|f|t|-", Some(6)),
    ("verify|s|k|f|t|-|0|sub:0:0", Some(6)),
    ("verify|s|k|f|t|-|49|sub:1:2", Some(6)),
    ("verify|s|k|f|t|-|49|inner", Some(6)),
    ("verify|wide:s|k|f|t|-|49|sub:1:2", Some(6)),
    ("verify|s|k|f|t|-|048|sub:1:2", Some(6)),
    ("verify|s|k|f|t|-|03|sub:1:2", Some(6)),
    ("verify|s|k|f|t|-|+3|sub:1:2", Some(6)),
    ("verify|s|k|f|t|-|3x|sub:1:2", Some(6)),
    ("verify|s|k|f|t|-||sub:1:2", Some(6)),
    ("verify|s|k|f|t|-|18446744073709551619|sub:1:2", Some(6)),
    ("verify|s|k|f|t|-|3", Some(7)),
    ("verify|s|k|f|t|-|3|", Some(7)),
    ("verify|s|k|f|t|-|3|sub:2:1", Some(7)),
    ("verify|s|k|f|t|-|3|sub:0:8", Some(7)),
    ("verify|s|k|f|t|-|2|sub:1:4", Some(7)),
    ("verify|s|k|f|t|-|3|sub:01:2", Some(7)),
    ("verify|s|k|f|t|-|3|sub:-1:2", Some(7)),
    ("verify|s|k|f|t|-|3|sub:1:2:3", Some(7)),
    ("verify|s|k|f|t|-|3|sub:1", Some(7)),
    ("verify|s|k|f|t|-|3|sub::2", Some(7)),
    ("verify|s|k|f|t|-|3|Sub:1:2", Some(7)),
    ("verify|s|k|f|t|-|3|f2", Some(7)),
    ("verify|s|k|f|t|-|3|f2:", Some(7)),
    ("verify|s|k|f|t|-|3|f2:2", Some(7)),
    ("verify|s|k|f|t|-|3|f2:00", Some(7)),
    ("verify|s|k|f|t|-|3|f2:0:1", Some(7)),
    ("verify|s|k|f|t|-|3|inner:", Some(7)),
    ("verify|s|k|f|t|-|3|Inner", Some(7)),
    ("verify|s|k|f|t|-|3|range:1:2", Some(7)),
    ("verify|s|k|f|t|-|3|range:2:1:2", Some(7)),
    ("verify|s|k|f|t|-|3|range:0:2:1", Some(7)),
    ("verify|s|k|f|t|-|3|range:1:0:8", Some(7)),
    ("verify|s|k|f|t|-|3|range:0:1:02", Some(7)),
    ("verify|s|k|f|t|-|3|range:00:1:2", Some(7)),
    ("verify|s|k|f|t|-|3|range:0:1:2:3", Some(7)),
    ("verify|s|k|f|t|-|3|heavy:0:0", Some(7)),
    ("verify|s|k|f|t|-|3|heavy:0:9223372036854775808", Some(7)),
    ("verify|s|k|f|t|-|3|heavy:0:18446744073709551617", Some(7)),
    ("verify|s|k|f|t|-|3|heavy:0:04", Some(7)),
    ("verify|s|k|f|t|-|3|heavy:2:4", Some(7)),
    ("verify|s|k|f|t|-|3|heavy:0", Some(7)),
    ("verify|s|k|f|t|-|3|heavy:0:", Some(7)),
    ("verify|s|k|f|t|-|3|heavy:0:4:5", Some(7)),
    ("verify|s|k|f|t|-|3|heavy:4", Some(7)),
    ("verify|s|k|f|t|-|3|share:0:0:1", Some(7)),
    ("verify|s|k|f|t|-|3|share:0:2:1", Some(7)),
    ("verify|s|k|f|t|-|3|share:0:1:0", Some(7)),
    ("verify|s|k|f|t|-|3|share:0:1:1000001", Some(7)),
    ("verify|s|k|f|t|-|3|share:0:4294967297:2", Some(7)),
    ("verify|s|k|f|t|-|3|share:0:1:4294967298", Some(7)),
    ("verify|s|k|f|t|-|3|share:0:01:2", Some(7)),
    ("verify|s|k|f|t|-|3|share:2:1:2", Some(7)),
    ("verify|s|k|f|t|-|3|share:0:1", Some(7)),
    ("verify|s|k|f|t|-|3|share:0:1:2:3", Some(7)),
    ("verify|s|k|f|t|-|48|share:1:2", Some(7)),
    ("verify|s|k|f|t|-|20|sub:0:1048576", Some(7)),
    ("verify|s|k|f|t|-|32|sub:0:4294967296", Some(7)),
    ("verify|s|k|f|t|-|32|sub:0:18446744073709551616", Some(7)),
    ("verify|s|k|f|t|-|33|sub:0:8589934592", Some(7)),
    ("verify|s|k|f|t|-|48|sub:0:281474976710656", Some(7)),
    ("verify|s|k|f|t|-|2|f2:2", Some(7)),
    ("verify|s|k|f|t|-|2|sub:01:2", Some(7)),
    ("verify|s|k|f|t|-|3|sub:1:2|", Some(8)),
    ("verify|s|k|f|t|-|3|sub:1:2|heavy:0:0", Some(8)),
    ("verify|s|k|f|t|-|3|sub:1:2|share:1:2:1", Some(8)),
    ("verify|s|k|f|t|-|3|sub:1:2|sub:0:8|sub:2:1", Some(8)),
    ("verify|s|k|f|t|-|3|sub:1:2|sub:0:7|sub:0:8", Some(9)),
    ("verify|s|k|f|t|-|3|sub:1:2", None),
    ("verify|s|k|f|t|-|3|f2:0|f2:1|inner", None),
    ("verify|s|k|f|t|-|3|range:0:1:2|sub:1:2|range:1:0:7", None),
    ("verify|s|k|f|t|-|1|inner", None),
    (
        "verify|s|k|f|t|-|1|heavy:0:1|heavy:1:9223372036854775807",
        None,
    ),
    ("verify|s|k|f|t|-|48|share:0:1:1|share:1:1:1000000", None),
    ("verify|s|k|f|t|-|3|share:0:1000000:1000000", None),
    ("verify|s|k|f|t|-|48|range:1:0:281474976710655", None),
    ("verify|s|k|f|t|-|3|sub:1:2|sub:1:2", None),
    ("verify|s|k|f|t|-|3|sub:0:7|sub:7:7|sub:0:0", None),
    ("verify|s|k|f|t|-|21|sub:1:2", None),
    ("verify|s|k|f|t|-|32|sub:0:4294967295", None),
    ("verify|s|k|f|t|-|33|sub:0:8589934591", None),
    ("verify|s|k|f|t|-|48|sub:0:281474976710655", None),
    ("verify|wide:s|k|f|t|-|48|sub:1:2", None),
    ("verify|wide:s|k|f|t|-|3|sub:1:2", None),
    ("verify|text:s|k|f|t|-|3|sub:1:2", None),
    ("verify|text:made:7:20|k|f|t|-|3|sub:1:2", None),
    ("verify|wide:text:|k|f|t|-|3|sub:1:2", None),
    ("verify|made:0:0|k|f|t|-|3|sub:1:2", None),
    (
        "verify|made:18446744073709551615:10000000|k|f|t|-|20|sub:1:2",
        None,
    ),
    ("verify|-|made:|text:|wide:|-|1|sub:0:0", None),
    ("verify|made|k|f|t|-|20|sub:0:1048575", None),
    ("verify|wide|k|f|t|-|20|sub:0:1048575", None),
    ("help", Some(1)),
    ("help|", Some(1)),
    ("help|f", Some(2)),
    ("help|f|", Some(2)),
    ("help|f|t", None),
    ("help|made:|-", None),
    ("help|f|t|x", Some(3)),
    ("help|f|t|", Some(3)),
    ("gen", Some(1)),
    ("gen|07|1|20", Some(1)),
    ("gen|-7|1|20", Some(1)),
    ("gen||1|20", Some(1)),
    ("gen|18446744073709551616|1|20", Some(1)),
    ("gen|7", Some(2)),
    ("gen|7|10000001|20", Some(2)),
    ("gen|7|1e3|20", Some(2)),
    ("gen|7|1", Some(3)),
    ("gen|7|1|0", Some(3)),
    ("gen|7|1|49", Some(3)),
    ("gen|7|1|020", Some(3)),
    ("gen|7|1|20|", Some(4)),
    ("gen|7|1|20|20", Some(4)),
    ("gen|18446744073709551615|10000000|32", None),
    ("gen|18446744073709551615|10000000|48", None),
    ("gen|0|0|1", None),
    ("lines", Some(1)),
    ("lines||20", Some(1)),
    ("lines|text:|20", Some(1)),
    ("lines|made:7:1x|20", Some(1)),
    ("lines|made:7|20", Some(1)),
    ("lines|s", Some(2)),
    ("lines|made:7:1|49", Some(2)),
    ("lines|made:7:1|0", Some(2)),
    ("lines|s|", Some(2)),
    ("lines|s|20|20", Some(3)),
    ("lines|text:made:7|32", None),
    ("lines|made:7:1|20", None),
    ("lines|lines|1", None),
    ("lines|wide:s|48", None),
    ("lines|wide:|48", Some(1)),
    ("widen", Some(1)),
    ("widen||20", Some(1)),
    ("widen|wide:|20", Some(1)),
    ("widen|text:|20", Some(1)),
    ("widen|made:7:10000001|20", Some(1)),
    ("widen|s", Some(2)),
    ("widen|s|0", Some(2)),
    ("widen|s|49", Some(2)),
    ("widen|s|048", Some(2)),
    ("widen|s|", Some(2)),
    ("widen|s|20|w", Some(3)),
    ("widen|s|20|", Some(3)),
    ("widen|s|1", None),
    ("widen|text:s|33", None),
    ("widen|wide:s|48", None),
    ("widen|made:7:10000000|48", None),
    ("wide|s|20", Some(0)),
    ("wide:s|20", Some(0)),
    ("Widen|s|20", Some(0)),
    ("play", Some(1)),
    ("play||k|honest|-|3|inner", Some(1)),
    ("play|text:|k|honest|-|3|inner", Some(1)),
    ("play|made:7|k|honest|-|3|inner", Some(1)),
    ("play|s", Some(2)),
    ("play|s||honest|-|3|inner", Some(2)),
    ("play|s|k", Some(3)),
    ("play|s|k||-|3|inner", Some(3)),
    ("play|s|k|Honest|-|3|inner", Some(3)),
    ("play|s|k|honest |-|3|inner", Some(3)),
    ("play|s|k|liar|-|3|inner", Some(3)),
    ("play|s|k|f|t|-|3|inner", Some(3)),
    ("play|s|k|honest", Some(4)),
    ("play|s|k|skewed||3|inner", Some(4)),
    ("play|s|k|honest|3|inner", Some(5)),
    ("play|s|k|honest|-", Some(5)),
    ("play|s|k|honest|-|0|inner", Some(5)),
    ("play|s|k|honest|-|49|inner", Some(5)),
    ("play|s|k|honest|-|-|3|inner", Some(5)),
    ("play|s|k|honest|-|3", Some(6)),
    ("play|s|k|honest|-|3|", Some(6)),
    ("play|s|k|honest|-|3|sub:0:8", Some(6)),
    ("play|s|k|mute|-|3|f2:2|inner", Some(6)),
    ("play|wide:s|k|honest|-|33|sub:0:8589934592", Some(6)),
    ("play|s|k|honest|-|3|inner|sub:2:1", Some(7)),
    ("play|s|k|honest|-|3|inner|inner|play", Some(8)),
    ("play|s|k|honest|-|3|sub:1:2", None),
    ("play|play|honest|skewed|-|1|sub:1:1", None),
    ("play|made:7:20|-|mute|-|48|share:0:1:1|f2:1", None),
    ("play|wide:s|made:|honest|-|33|sub:0:8589934591", None),
    ("Play|s|k|honest|-|3|inner", Some(0)),
    ("verify|s|k|honest|-|3|inner", Some(6)),
    // Sixteen queries are a command, and a seventeenth is word 23 of `verify` and word 22 of
    // `play`.
    (
        "verify|s|k|f|t|-|3|sub:1:2|sub:1:2|sub:1:2|sub:1:2|sub:1:2\
         |sub:1:2|sub:1:2|sub:1:2|sub:1:2|sub:1:2|sub:1:2|sub:1:2\
         |sub:1:2|sub:1:2|sub:1:2|sub:1:2",
        None,
    ),
    (
        "verify|s|k|f|t|-|3|sub:1:2|sub:1:2|sub:1:2|sub:1:2|sub:1:2\
         |sub:1:2|sub:1:2|sub:1:2|sub:1:2|sub:1:2|sub:1:2|sub:1:2\
         |sub:1:2|sub:1:2|sub:1:2|sub:1:2|sub:1:2",
        Some(23),
    ),
    (
        "verify|s|k|f|t|-|3|sub:1:2|sub:1:2|sub:1:2|sub:1:2|sub:1:2\
         |sub:1:2|sub:1:2|sub:1:2|sub:1:2|sub:1:2|sub:1:2|sub:1:2\
         |sub:1:2|sub:1:2|sub:1:2|sub:1:2|sub:1:2|sub:1:2|sub:1:2\
         |sub:1:2",
        Some(23),
    ),
    (
        "play|s|k|mute|-|3|sub:1:2|sub:1:2|sub:1:2|sub:1:2|sub:1:2\
         |sub:1:2|sub:1:2|sub:1:2|sub:1:2|sub:1:2|sub:1:2|sub:1:2\
         |sub:1:2|sub:1:2|sub:1:2|sub:1:2",
        None,
    ),
    (
        "play|s|k|mute|-|3|sub:1:2|sub:1:2|sub:1:2|sub:1:2|sub:1:2\
         |sub:1:2|sub:1:2|sub:1:2|sub:1:2|sub:1:2|sub:1:2|sub:1:2\
         |sub:1:2|sub:1:2|sub:1:2|sub:1:2|sub:1:2",
        Some(22),
    ),
];

// Of the command that has the stream in a file.
const OF_SERVE: &[Refusal<'static>] = &[
    ("serve", Some(1)),
    ("serve|", Some(1)),
    ("serve|made:7:20|f|t", Some(1)),
    ("serve|text:|f|t", Some(1)),
    ("serve|-", Some(2)),
    ("serve|s||t", Some(2)),
    ("serve|-|-", Some(3)),
    ("serve|s|f|", Some(3)),
    ("serve|s|f|t", None),
    ("serve|-|-|-", None),
    ("serve|s|f|t|-", Some(4)),
    ("serves|s|f|t", Some(0)),
];

pub fn check_refusals(rt: &impl Abort, alloc: Global, rows: &[Refusal]) -> Result<(), Fail> {
    for &(name, want) in rows {
        let word = refused_at(&words_between(alloc, name, '|')?);
        Case { name, number: 0 }
            .holds(word == want)
            .expect(rt, "a case");
    }
    let nothing = Case {
        name: "no word",
        number: 0,
    };
    nothing
        .holds(refused_at(&Words::of(Vec::new(alloc))) == Some(0))
        .expect(rt, "a case");
    Ok(())
}

#[test]
fn refuses_the_first_word_that_begins_no_command(rt: HostRuntime) -> Result<(), Fail> {
    check_refusals(&rt, rt.alloc(), REFUSALS)
}

#[test]
fn refuses_what_serves_no_stream_in_a_file(rt: HostRuntime) -> Result<(), Fail> {
    check_refusals(&rt, rt.alloc(), OF_SERVE)
}
