// Questions of every kind in one talk, asked of the helper: what is asked is what the helper hears,
// and what it replies is judged.
ghost use Rattle.std.specs.Prelude.{◌≤◌, length};
ghost use Rattle.sip_wire.specs.Table.{most_queries};

use crate::facts::expect;
use crate::kinds::{KINDS, Kind, asked_in, wanted};
use crate::question_serve_tests::Helper;
use sip_check_tests::frames::STREAM;
use sip_check_tests::serving::served;
use sip_helper::HelpStatus;
use sip_questions::Question;
use std::alloc::Global;
use std::process::Abort;
use std::test::Fail;

// The helper hears what is asked, and its replies are accepted.
fn check_talk(
    rt: &impl Abort,
    alloc: Global,
    questions: &[Question],
    kinds: &[&Kind],
) -> Result<(), Fail>
    requires { length questions.now ≤ most_queries }
{
    let (said, lines) = wanted(alloc, kinds)?;
    let mut talk = STREAM.to_vec(alloc)?;
    talk.extend_from_slice(&said)?;
    let (end, replies) = served::<Helper>(alloc, &talk, 10_000, &[])?;
    let came = asked_in(alloc, questions, replies, 7)?;
    expect(
        rt,
        "kinds in one talk",
        &[
            end == HelpStatus::Served,
            came.ended == Ok(()),
            came.sent == said,
            came.lines == lines,
        ],
    );
    Ok(())
}

// Two of the kinds, and each third one behind them.
fn check_behind(rt: &impl Abort, alloc: Global, one: &Kind, two: &Kind) -> Result<(), Fail> {
    check_talk(rt, alloc, &[one.question, two.question], &[one, two])?;
    for three in &KINDS {
        let questions = [one.question, two.question, three.question];
        check_talk(rt, alloc, &questions, &[one, two, three])?;
    }
    Ok(())
}

#[test]
fn each_kind_is_asked_behind_each_other(rt: HostRuntime) -> Result<(), Fail> {
    for one in &KINDS {
        for two in &KINDS {
            check_behind(&rt, rt.alloc(), one, two)?;
        }
    }
    Ok(())
}

#[test]
fn questions_of_every_kind_are_one_talk(rt: HostRuntime) -> Result<(), Fail> {
    let [a, b, c, d, e, f, g, h] = &KINDS;
    let questions = [
        a.question, b.question, c.question, d.question, e.question, f.question, g.question,
        h.question, h.question, g.question, f.question, e.question, d.question, c.question,
        b.question, a.question,
    ];
    let kinds = [a, b, c, d, e, f, g, h, h, g, f, e, d, c, b, a];
    check_talk(&rt, rt.alloc(), &questions[..8], &kinds[..8])?;
    check_talk(&rt, rt.alloc(), &questions, &kinds)
}
