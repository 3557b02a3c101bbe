// Words of the command that asks a sketch: what they ask, what they open, and which is refused.

use sip_above::Large;
use sip_command_tests::case::Case;
use sip_keeping::{ask_ports, asks_sketch, file_opening, read_ask_words, sketch_verb};
use sip_lookup::Lookup;
use sip_moments::Moment;
use sip_questions::Question;
use sip_vector::{Query, Side};
use sip_word_tests::words::words_between;
use sip_words::{Opening, Usage, Words, read_words};
use std::alloc::Global;
use std::process::Abort;
use std::test::Fail;

fn refused_at(words: &Words) -> Option<u32> {
    match read_ask_words(words) {
        Ok(_) => None,
        Err(Usage { word }) => Some(word),
    }
}

// Words, and the number of the first of them that no command has behind the words before it; none
// where they are a command.
type Refusal<'a> = (&'a str, Option<u32>);

const REFUSALS: &[Refusal<'static>] = &[
    ("", Some(0)),
    ("ask", Some(1)),
    ("ask|", Some(1)),
    ("ask||f|t|inner", Some(1)),
    ("ask|k", Some(2)),
    ("ask|k||t|inner", Some(2)),
    ("ask|k|f", Some(3)),
    ("ask|k|f||inner", Some(3)),
    ("ask|k|f|t", Some(4)),
    ("ask|k|f|t|", Some(4)),
    ("ask|k|f|t|inner", None),
    ("ask|-|-|-|inner", None),
    ("ask|text:|made:|wide:|inner", None),
    ("Ask|k|f|t|inner", Some(0)),
    ("ask |k|f|t|inner", Some(0)),
    ("asks|k|f|t|inner", Some(0)),
    ("ask|k|f|t|inner|", Some(5)),
    ("ask|k|f|t|inner|Inner", Some(5)),
    ("ask|k|f|t|sub:1:2", None),
    ("ask|k|f|t|sub:2:1", Some(4)),
    ("ask|k|f|t|sub:01:2", Some(4)),
    ("ask|k|f|t|sub:1", Some(4)),
    ("ask|k|f|t|sub:0:281474976710655", None),
    ("ask|k|f|t|sub:0:281474976710656", Some(4)),
    ("ask|k|f|t|range:1:0:281474976710655", None),
    ("ask|k|f|t|range:2:0:1", Some(4)),
    ("ask|k|f|t|f2:1", None),
    ("ask|k|f|t|f2:2", Some(4)),
    ("ask|k|f|t|heavy:0:0", Some(4)),
    ("ask|k|f|t|heavy:0:9223372036854775807", None),
    ("ask|k|f|t|heavy:0:9223372036854775808", Some(4)),
    ("ask|k|f|t|share:0:3:2", Some(4)),
    ("ask|k|f|t|share:1:1000000:1000000", None),
    ("ask|k|f|t|share:1:1:1000001", Some(4)),
    ("ask|k|f|t|above:0:1|above:1:2", None),
    ("ask|k|f|t|above:0:0", Some(4)),
    ("ask|k|f|t|above:1:9223372036854775807", None),
    ("ask|k|f|t|above:1:9223372036854775808", Some(4)),
    ("ask|k|f|t|above:2:1", Some(4)),
    ("ask|k|f|t|above:0:01", Some(4)),
    ("ask|k|f|t|index:281474976710655", None),
    ("ask|k|f|t|index:281474976710656", Some(4)),
    ("ask|k|f|t|pred:18446744073709551616", Some(4)),
    ("ask|k|f|t|succ:0|pred:0|index:0", None),
    ("ask|k|f|t|succ:0|pred:+0|index:0", Some(5)),
    ("ask|k|f|t|moment:0:3|moment:1:8", None),
    ("ask|k|f|t|moment:0:2", Some(4)),
    ("ask|k|f|t|moment:0:9", Some(4)),
    ("ask|k|f|t|moment:2:3", Some(4)),
    (
        "ask|k|f|t|f2:0|f2:0|f2:0|f2:0|f2:0|f2:0|f2:0|f2:0|f2:0|f2:0|f2:0|f2:0|f2:0|f2:0|f2:0|f2:0",
        None,
    ),
    (
        "ask|k|f|t|f2:0|f2:0|f2:0|f2:0|f2:0|f2:0|f2:0|f2:0|f2:0|f2:0|f2:0|f2:0|f2:0|f2:0|f2:0|f2:0\
            |f2:0",
        Some(20),
    ),
];

fn check_refusals(rt: &impl Abort, alloc: Global, rows: &[Refusal]) -> Result<(), Fail> {
    for &(name, want) in rows {
        let case = Case { name, number: 0 };
        let words = words_between(alloc, name, '|')?;
        case.holds(refused_at(&words) == want).expect(rt, "a case");
        // Words whose first is `ask` are for no other command, and the others are none.
        let is_ours = asks_sketch(&words);
        case.holds(is_ours == (want != Some(0)))
            .expect(rt, "a case");
        case.holds(!is_ours || read_words(&words).is_err() && sketch_verb(&words).is_none())
            .expect(rt, "a case");
    }
    Ok(())
}

#[test]
fn each_word_of_an_ask_is_refused_where_none_goes_on(rt: HostRuntime) -> Result<(), Fail> {
    check_refusals(&rt, rt.alloc(), REFUSALS)
}

// What words of each kind ask, in their order.
const ASKED: &[Question] = &[
    Question::Query(Query::Sub { lo: 1, hi: 2 }),
    Question::Query(Query::Range {
        side: Side::Second,
        lo: 3,
        hi: 4,
    }),
    Question::Query(Query::F2 { side: Side::First }),
    Question::Query(Query::Inner),
    Question::Query(Query::Heavy {
        side: Side::Second,
        at_least: 5,
    }),
    Question::Query(Query::Share {
        side: Side::First,
        num: 1,
        den: 10,
    }),
    Question::Lookup(Lookup::Index(6)),
    Question::Lookup(Lookup::Pred(7)),
    Question::Lookup(Lookup::Succ(8)),
    Question::Moment(Moment {
        side: Side::Second,
        degree: 3,
    }),
    Question::Large(Large {
        side: Side::Second,
        at_least: 9,
    }),
];

fn asks(words: &Words) -> bool {
    match read_ask_words(words) {
        Ok(asked) => asked.as_slice() == ASKED,
        Err(_) => false,
    }
}

#[test]
fn words_of_an_ask_say_what_is_asked(rt: HostRuntime) -> Result<(), Fail> {
    let name = "ask|k|f|t|sub:1:2|range:1:3:4|f2:0|inner|heavy:1:5|share:0:1:10|index:6|pred:7|\
succ:8|moment:1:3|above:1:9";
    Case { name, number: 0 }
        .holds(asks(&words_between(rt.alloc(), name, '|')?))
        .expect(&rt, "a case");
    Ok(())
}

// What words open: the sketch, what brings the helper's bytes, and what takes ours. Standard input
// has no name.
type Opened<'a> = (&'a str, &'a str, Option<&'a str>, &'a str);

const OPENED: &[Opened<'static>] = &[
    ("ask|k|f|t|inner", "k", Some("f"), "t"),
    ("ask|-|-|-|inner", "-", None, "-"),
    (
        "ask|text:k|./-|made:7:1|inner",
        "text:k",
        Some("./-"),
        "made:7:1",
    ),
];

fn check_opened(rt: &impl Abort, alloc: Global, rows: &[Opened]) -> Result<(), Fail> {
    for &(name, sketch, from, to) in rows {
        let case = Case { name, number: 0 };
        let words = words_between(alloc, name, '|')?;
        if read_ask_words(&words).is_err() {
            case.holds(false).expect(rt, "a command");
            return Ok(());
        }
        let plan = ask_ports(&words);
        case.holds(file_opening(0).name(&words) == Some(sketch))
            .expect(rt, "a case");
        case.holds(plan.from.name(&words) == from && plan.to.name(&words) == Some(to))
            .expect(rt, "a case");
        case.holds(from.is_some() || plan.from == Opening::Standard)
            .expect(rt, "a case");
    }
    Ok(())
}

#[test]
fn words_of_an_ask_name_the_files_that_are_opened(rt: HostRuntime) -> Result<(), Fail> {
    check_opened(&rt, rt.alloc(), OPENED)
}
