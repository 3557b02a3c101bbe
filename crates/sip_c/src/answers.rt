//! Answers as a caller of C has them.

ghost use Rattle.std.specs.Prelude.{◌≡◌, ◌-◌, ◌++◌, drop, length, min, take};
ghost use Rattle.sip_c.specs.Asking.{codes_of, told_of};

use sip_lookup::LookAnswer;
use sip_questions::QuestionGiven;
use sip_vector::Entry;

/// An answer as numbers.
#[repr(C)]
#[derive(Clone, Copy, Debug, PartialEq, Eq)]
pub struct AnswerCode {
    /// The number, or the value of the entry.
    pub number: i64,
    /// The item of the entry.
    pub item: u64,
    /// How many pairs there are.
    pub pairs: usize,
    /// The number of the question, from 1.
    pub question: u8,
    /// 1 for a number, 2 for pairs, 3 for an entry, and 4 for none.
    pub kind: u8,
}

/// An entry as numbers.
#[repr(C)]
#[derive(Clone, Copy, Debug, PartialEq, Eq)]
pub struct EntryCode {
    /// Its item.
    pub item: u64,
    /// Its value.
    pub value: i64,
}

/// What an answer to the question with this number says.
pub(crate) fn told_of(question: u8, pairs: usize, given: QuestionGiven) -> AnswerCode
    ensures { result ≡ told_of question pairs given }
{
    let (number, item, pairs, kind) = match given {
        QuestionGiven::Number { value, .. } => (value, 0, 0, 1),
        QuestionGiven::Pairs { .. } | QuestionGiven::Large { .. } => (0, 0, pairs, 2),
        QuestionGiven::Lookup { answer, .. } => match answer {
            LookAnswer::Value(value) => (value, 0, 0, 1),
            LookAnswer::Nearest(Some(entry)) => (entry.value, entry.index, 0, 3),
            LookAnswer::Nearest(None) => (0, 0, 0, 4),
        },
        QuestionGiven::Moment { value, .. } => (value, 0, 0, 1),
    };
    AnswerCode {
        number,
        item,
        pairs,
        question,
        kind,
    }
}

/// Copies entries from a place on, as many as there are and there is room for, and answers how
/// many.
pub(crate) fn copy(entries: &[Entry], from: usize, to: &mut [EntryCode]) -> usize
    ensures count { result ≡ min (length to.old) (length entries.now - from) }
    ensures copied { to.new ≡ codes_of (take result (drop from entries.now)) ++ drop result to.old }
{
    let count = to.len().min(entries.len().saturating_sub(from));
    for place in 0..count {
        let entry = entries[from + place];
        to[place] = EntryCode {
            item: entry.index,
            value: entry.value,
        };
    }
    count
}
