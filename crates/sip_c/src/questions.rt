//! Questions as a caller of C has them.

ghost use Rattle.std.specs.Prelude.{◌≡◌, ◌≤◌, IfNone, IfSome, Some, None, length, map, take};
ghost use Rattle.arrayvec.specs.ArrayVec.{array_vec_len};
ghost use Rattle.sip_wire.specs.Table.{most_queries};
ghost use Rattle.sip_c.specs.Questions.{AreQuestions, HaveNone, moment_at, question_of};
ghost use Rattle.sip_c.specs.Questions.{share_at, side_at, sided_at};

use arrayvec::ArrayVec;
use sip_above::Large;
use sip_lookup::Lookup;
use sip_moments::Moment;
use sip_questions::Question;
use sip_vector::{Query, Side};
use sip_wire::MOST_QUERIES;

/// A question as numbers. What its kind has no use for is not looked at.
#[repr(C)]
#[derive(Clone, Copy, Debug, PartialEq, Eq)]
pub struct QuestionCode {
    /// The first number.
    pub lo: u64,
    /// The second number.
    pub hi: u64,
    /// The code of its kind.
    pub kind: u8,
    /// The side, 0 or 1.
    pub side: u8,
}

// The side of a number.
fn side_of(number: u8) -> Option<Side>
    ensures { result ≡ side_at number }
{
    match number {
        0 => Some(Side::First),
        1 => Some(Side::Second),
        _ => None,
    }
}

// A share, where its numbers have room.
fn share_of(side: Side, num: u64, den: u64) -> Option<Question>
    ensures { result ≡ share_at side num den }
{
    if num > u64::from(u32::MAX) || den > u64::from(u32::MAX) {
        return None;
    }
    Some(Question::Query(Query::Share {
        side,
        num: num as u32,
        den: den as u32,
    }))
}

// A moment, where its degree has room.
fn moment_of(side: Side, degree: u64) -> Option<Question>
    ensures { result ≡ moment_at side degree }
{
    if degree > 255 {
        return None;
    }
    Some(Question::Moment(Moment {
        side,
        degree: degree as u8,
    }))
}

// What is asked of a side.
fn sided_of(kind: u8, side: Side, lo: u64, hi: u64) -> Option<Question>
    ensures { result ≡ sided_at kind side lo hi }
{
    match kind {
        2 => Some(Question::Query(Query::Range { side, lo, hi })),
        3 => Some(Question::Query(Query::F2 { side })),
        5 => Some(Question::Query(Query::Heavy { side, at_least: lo })),
        6 => share_of(side, lo, hi),
        10 => moment_of(side, lo),
        11 => Some(Question::Large(Large { side, at_least: lo })),
        _ => None,
    }
}

impl QuestionCode {
    // The question.
    fn question(&self) -> Option<Question>
        ensures { result ≡ question_of self.now }
    {
        let (lo, hi) = (self.lo, self.hi);
        match self.kind {
            1 => Some(Question::Query(Query::Sub { lo, hi })),
            4 => Some(Question::Query(Query::Inner)),
            7 => Some(Question::Lookup(Lookup::Index(lo))),
            8 => Some(Question::Lookup(Lookup::Pred(lo))),
            9 => Some(Question::Lookup(Lookup::Succ(lo))),
            kind => sided_of(kind, side_of(self.side)?, lo, hi),
        }
    }
}

/// The questions of these codes; `None` where one has none.
pub(crate) fn questions_of(codes: &[QuestionCode]) -> Option<ArrayVec<Question, MOST_QUERIES>>
    requires { length codes.now ≤ most_queries }
    ensures are { IfSome result (λ questions. AreQuestions codes.now questions.items) }
    ensures none { IfNone result (HaveNone codes.now) }
{
    let mut questions = ArrayVec::new();
    for code in codes {
        let Some(question) = code.question() else {
            return None;
        };
        questions.push(question);
    }
    Some(questions)
}
