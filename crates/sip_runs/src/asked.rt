//! What is asked in a run: in which version, and whether it can be.

ghost use Rattle.std.specs.Prelude.{◌≡◌, ◌≤◌, All, IfNone, IfSome, MatchResult, length};
ghost use Rattle.sip_wire.specs.Table.{most_queries};
ghost use Rattle.sip_questions.specs.Promises.{CanPose};
ghost use Rattle.sip_questions.specs.Questions.{queries_among, version_for};
ghost use Rattle.sip_runs.specs.Plans.{CanBegin, IsUnfit, StandsAgainst};

use crate::start::RunStart;
use arrayvec::ArrayVec;
use sip_questions::Question;
use sip_vector::{Depth, Query};
use sip_wire::{MOST_QUERIES, Version};

// The queries among these questions, and those that ask for large entries, in order.
fn queries_among(questions: &[Question]) -> ArrayVec<Query, MOST_QUERIES>
    requires { length questions.now ≤ most_queries }
    ensures { result.items ≡ queries_among questions.now }
{
    let mut queries = ArrayVec::new();
    for question in questions.iter() {
        match question {
            Question::Query(query) => queries.push(*query),
            Question::Lookup(_) => {}
            Question::Moment(_) => {}
            Question::Large(large) => queries.push(large.query()),
        }
    }
    queries
}

/// The version of a run of these questions; or what stands against it.
pub(crate) fn fitting(depth: Depth, questions: &[Question]) -> Result<Version, RunStart>
    ensures { MatchResult result
        (λ version. (version ≡ version_for depth questions.now) × CanBegin depth questions.now)
        (StandsAgainst depth questions.now) }
{
    if questions.is_empty() || questions.len() > MOST_QUERIES {
        return Err(RunStart::Count);
    }
    let version = version_for(depth, questions);
    match first_unfit(version, depth, questions) {
        Some(number) => Err(RunStart::Unfit(number)),
        None => Ok(version),
    }
}

// The least version in which these questions can be asked at a depth.
fn version_for(depth: Depth, questions: &[Question]) -> Version
    requires { length questions.now ≤ most_queries }
    ensures { result ≡ version_for depth questions.now }
{
    Version::needed(depth, &queries_among(questions))
}

// The first question, counted from 1, that can't be asked at a depth in a version.
fn first_unfit(version: Version, depth: Depth, questions: &[Question]) -> Option<u8>
    requires { length questions.now ≤ most_queries }
    ensures unfit { IfSome result (IsUnfit version depth questions.now) }
    ensures all { IfNone result (All (CanPose version depth) questions.now) }
{
    for (index, question) in questions.iter().enumerate() {
        if !question.can_pose(version, depth) {
            return Some(index as u8 + 1);
        }
    }
    None
}
