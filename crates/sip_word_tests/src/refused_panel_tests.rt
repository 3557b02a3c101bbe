// Words of `panel` that name no panel.

use crate::refused_words_tests::{Refusal, check_refusals};
use std::test::Fail;

// Words, and the number of the first of them that no command has behind those before it, found by
// hand: a query is one too many where its number times that of the helpers is above 16.
const REFUSALS: &[Refusal<'static>] = &[
    ("panel", Some(1)),
    ("panel|made:7|k|honest|3|inner", Some(1)),
    ("panel|s", Some(2)),
    ("panel|s||honest|3|inner", Some(2)),
    ("panel|s|k", Some(3)),
    ("panel|s|k||3|inner", Some(3)),
    ("panel|s|k|liar|3|inner", Some(3)),
    ("panel|s|k|Mute|3|inner", Some(3)),
    ("panel|s|k|honest,|3|inner", Some(3)),
    ("panel|s|k|,honest|3|inner", Some(3)),
    ("panel|s|k|honest,,mute|3|inner", Some(3)),
    ("panel|s|k|honest, mute|3|inner", Some(3)),
    ("panel|s|k|honest;mute|3|inner", Some(3)),
    ("panel|s|k|,|3|inner", Some(3)),
    (
        "panel|s|k|mute,mute,mute,mute,mute,mute,mute,mute,mute,mute,mute,mute,mute,mute,mute,\
         mute,mute|3|inner",
        Some(3),
    ),
    ("panel|s|k|honest", Some(4)),
    ("panel|s|k|honest|-|3|inner", Some(4)),
    ("panel|s|k|honest|49|inner", Some(4)),
    ("panel|s|k|honest|03|inner", Some(4)),
    ("panel|s|k|honest|3", Some(5)),
    ("panel|s|k|honest|3|", Some(5)),
    ("panel|s|k|honest|3|sub:0:8", Some(5)),
    ("panel|s|k|honest|3|index:1", Some(5)),
    ("panel|s|k|honest|3|inner|sub:2:1", Some(6)),
    ("panel|s|k|honest|3|inner", None),
    ("panel|s|k|skewed,honest,mute|3|inner|f2:0", None),
    ("Panel|s|k|honest|3|inner", Some(0)),
    ("panels|s|k|honest|3|inner", Some(0)),
    ("play|s|k|honest,mute|-|3|inner", Some(3)),
    // Eight helpers and three queries; nine and one, and two; six and two, and three.
    (
        "panel|s|k|mute,mute,mute,mute,mute,mute,mute,honest|3|inner|inner",
        None,
    ),
    (
        "panel|s|k|mute,mute,mute,mute,mute,mute,mute,honest|3|inner|inner|inner",
        Some(7),
    ),
    (
        "panel|s|k|mute,mute,mute,mute,mute,mute,mute,mute,honest|3|inner",
        None,
    ),
    (
        "panel|s|k|mute,mute,mute,mute,mute,mute,mute,mute,honest|3|inner|inner",
        Some(6),
    ),
    (
        "panel|s|k|mute,mute,mute,mute,mute,honest|3|inner|inner",
        None,
    ),
    (
        "panel|s|k|mute,mute,mute,mute,mute,honest|3|inner|inner|inner",
        Some(7),
    ),
    // Sixteen helpers and one query, and two; two helpers and eight queries, and nine.
    (
        "panel|s|k|mute,mute,mute,mute,mute,mute,mute,mute,mute,mute,mute,mute,mute,mute,mute,\
         mute|3|inner",
        None,
    ),
    (
        "panel|s|k|mute,mute,mute,mute,mute,mute,mute,mute,mute,mute,mute,mute,mute,mute,mute,\
         mute|3|inner|f2:0",
        Some(6),
    ),
    (
        "panel|s|k|mute,honest|3|inner|inner|inner|inner|inner|inner|inner|inner",
        None,
    ),
    (
        "panel|s|k|mute,honest|3|inner|inner|inner|inner|inner|inner|inner|inner|inner",
        Some(13),
    ),
    // Of one helper sixteen queries can be asked, and a seventeenth is word 21.
    (
        "panel|s|k|mute|3|inner|inner|inner|inner|inner|inner|inner|inner|inner|inner|inner\
         |inner|inner|inner|inner|inner",
        None,
    ),
    (
        "panel|s|k|mute|3|inner|inner|inner|inner|inner|inner|inner|inner|inner|inner|inner\
         |inner|inner|inner|inner|inner|inner",
        Some(21),
    ),
];

#[test]
fn refuses_what_names_no_panel(rt: HostRuntime) -> Result<(), Fail> {
    check_refusals(&rt, rt.alloc(), REFUSALS)
}
