//! Questions of each kind over the vector (3, 0, 5, 1) at the challenges 2 and 10: what is said of
//! them, and their lines.

ghost use Rattle.std.specs.Prelude.{◌≤◌, length};
ghost use Rattle.sip_wire.specs.Table.{most_queries};
ghost use Rattle.sip_wire.specs.Versions.{deepest};

use crate::asking::{Numbers, Outcome, asked};
use sip_check_tests::frames::{
    BYE, CUBES, F2, HEAVY_4, INDEX_1, PRED_1, RANGE, REVEAL, SUB_0_1, SUB_1_1, SUB_1_2, SUCC_1,
};
use sip_field::{Field, M61};
use sip_lookup::Lookup;
use sip_moments::Moment;
use sip_questions::Question;
use sip_vector::{Depth, Query, Side};
use sip_wire::Version;
use std::alloc::Global;
use std::test::Fail;

/// A question over that vector, what is said of it at these challenges, part by part, and its line.
#[derive(Clone, Copy)]
pub struct Kind {
    pub question: Question,
    pub said: &'static [&'static [u8]],
    pub line: &'static [u8],
}

/// The entries 1 to 2.
pub const SUB: Kind = Kind {
    question: Question::Query(Query::Sub { lo: 1, hi: 2 }),
    said: &[&SUB_1_2, &REVEAL],
    line: b"sub:1:2 2:5\n",
};

/// The nearest entry at item 1 or above it.
pub const SUCC: Kind = Kind {
    question: Question::Lookup(Lookup::Succ(1)),
    said: &[&SUCC_1, &SUB_1_2, &REVEAL],
    line: b"succ:1 2:5\n",
};

/// The third moment.
pub const MOMENT: Kind = Kind {
    question: Question::Moment(Moment {
        side: Side::First,
        degree: 3,
    }),
    said: &[&CUBES, &REVEAL],
    line: b"moment:0:3 153\n",
};

/// The second moment.
pub const SQUARE: Kind = Kind {
    question: Question::Query(Query::F2 { side: Side::First }),
    said: &[&F2, &REVEAL],
    line: b"f2:0 35\n",
};

/// The value at item 1.
pub const INDEX: Kind = Kind {
    question: Question::Lookup(Lookup::Index(1)),
    said: &[&INDEX_1, &SUB_1_1, &REVEAL],
    line: b"index:1 0\n",
};

/// The entries of at least 4.
pub const HEAVY: Kind = Kind {
    question: Question::Query(Query::Heavy {
        side: Side::First,
        at_least: 4,
    }),
    said: &[&HEAVY_4, &REVEAL],
    line: b"heavy:0:4 2:5\n",
};

/// The nearest entry at item 1 or below it.
pub const PRED: Kind = Kind {
    question: Question::Lookup(Lookup::Pred(1)),
    said: &[&PRED_1, &SUB_0_1, &REVEAL],
    line: b"pred:1 0:3\n",
};

/// The sum of the entries 1 to 3.
pub const SUM_1_3: Kind = Kind {
    question: Question::Query(Query::Range {
        side: Side::First,
        lo: 1,
        hi: 3,
    }),
    said: &[&RANGE, &REVEAL],
    line: b"range:0:1:3 6\n",
};

/// All of these.
pub const KINDS: [Kind; 8] = [SUB, SUCC, MOMENT, SQUARE, INDEX, HEAVY, PRED, SUM_1_3];

/// What is kept of that vector at these challenges: its root is 73, its extension -3, and its
/// augmented root 8739 with the total 9.
pub fn numbers_of_four() -> Numbers {
    Numbers {
        root: M61::of(73),
        extension: M61::of_signed(-3),
        hash: M61::of(8739),
        total: 9,
        second: M61::of(0),
    }
}

/// Asks these questions of a helper that replies so, in pieces of that size: in this version, and
/// by these numbers of its vectors.
pub fn asked_by(
    alloc: Global,
    version: Version,
    numbers: &Numbers,
    questions: &[Question],
    replies: Vec<u8>,
    chunk: usize,
) -> Result<Outcome, Fail>
    requires shallow { 2 ≤ deepest version }
    requires few { length questions.now ≤ most_queries }
    requires chunk { 1 ≤ chunk }
{
    let depth = Depth::new(2).unwrap();
    let block = [M61::of(2), M61::of(10)];
    asked(
        alloc, version, depth, &block, numbers, questions, replies, chunk,
    )
}

/// Asks them in version 1, by the numbers of that vector.
pub fn asked_in(
    alloc: Global,
    questions: &[Question],
    replies: Vec<u8>,
    chunk: usize,
) -> Result<Outcome, Fail>
    requires few { length questions.now ≤ most_queries }
    requires chunk { 1 ≤ chunk }
{
    let numbers = numbers_of_four();
    asked_by(alloc, Version::One, &numbers, questions, replies, chunk)
}

/// What is said of these questions in one talk, and their lines.
pub fn wanted(alloc: Global, kinds: &[&Kind]) -> Result<(Vec<u8>, Vec<u8>), Fail> {
    let mut said = Vec::new(alloc);
    let mut lines = Vec::new(alloc);
    for kind in kinds {
        said.extend_from_slice(&kind.said.concat(alloc)?)?;
        lines.extend_from_slice(kind.line)?;
    }
    said.extend_from_slice(&BYE)?;
    Ok((said, lines))
}
