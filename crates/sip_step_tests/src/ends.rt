//! A question and a helper of questions that pass each other their bytes, and the line of what
//! comes of it.
ghost use Rattle.std.specs.Prelude.{not};
ghost use Rattle.sip_questions.specs.Serving.{question_rules};
ghost use Rattle.sip_questions.specs.inside.Keeping.{questions_left};
ghost use Rattle.sip_steps.specs.Questioned.{HasBegun as HasBegunQuestion};
ghost use Rattle.sip_steps.specs.Served.{HasBegun};

use sip_check_tests::events::sent_in;
use sip_check_tests::sizes::{Sizes, piece_of};
use sip_lookup::write_look;
use sip_moments::write_moment;
use sip_ports::{MemoryLink, MemorySink};
use sip_questions::{QuestionCore, QuestionGiven};
use sip_steps::{QuestionAsking, Serving};
use sip_vector::Entry;
use sip_verifier::{Unanswered, write_number, write_pairs};
use std::alloc::Global;
use std::test::Fail;

/// Passes the bytes of one question and of the helper to each other, for a number of turns that is
/// enough for any question over a vector of four.
pub fn exchange(
    alloc: Global,
    asking: &mut QuestionAsking,
    serving: &mut Serving<QuestionCore>,
    sizes: &mut Sizes,
) -> Result<(), Fail>
    requires asking { HasBegunQuestion asking.old }
    requires serving { HasBegun question_rules questions_left (λ s. not s.helper.spent)
        serving.old }
    ensures serving { HasBegun question_rules questions_left (λ s. not s.helper.spent)
        serving.new }
{
    let mut link = MemoryLink::new(alloc, Vec::new(alloc), 100, Vec::new(alloc));
    let mut replies = MemorySink::new(alloc, 100, Vec::new(alloc));
    let mut passed = 0usize;
    let mut heard = 0usize;
    for _turn in 0..200 {
        asking.due(&mut link)?;
        let said = sent_in(alloc, link.talk())?;
        let count = serving.feed(piece_of(&said, passed, sizes.next()), &mut replies);
        passed = passed.saturating_add(count);
        let count = asking.feed(piece_of(replies.bytes(), heard, sizes.next()));
        heard = heard.saturating_add(count);
    }
    Ok(())
}

// The line of an answer, of which these pairs are shown.
fn line_of(alloc: Global, given: &QuestionGiven, pairs: &[Entry]) -> Result<Vec<u8>, Fail> {
    let mut report = MemorySink::new(alloc, 100, Vec::new(alloc));
    match given {
        QuestionGiven::Number { query, value } => write_number(&mut report, query, *value)?,
        QuestionGiven::Pairs { query } => write_pairs(&mut report, query, pairs)?,
        QuestionGiven::Large { large } => write_pairs(&mut report, &large.query(), pairs)?,
        QuestionGiven::Lookup { lookup, answer } => write_look(&mut report, *lookup, *answer)?,
        QuestionGiven::Moment { moment, value } => write_moment(&mut report, *moment, *value)?,
    }
    Ok(report.bytes().to_vec(alloc)?)
}

/// The line of what is said of a question, once something is.
pub fn said_of(
    alloc: Global,
    asking: &QuestionAsking,
) -> Result<Option<Result<Vec<u8>, Unanswered>>, Fail> {
    match asking.verdict() {
        None => Ok(None),
        Some(Err(why)) => Ok(Some(Err(why))),
        Some(Ok(given)) => Ok(Some(Ok(line_of(alloc, &given, asking.pairs())?))),
    }
}
