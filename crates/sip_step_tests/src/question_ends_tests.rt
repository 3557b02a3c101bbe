// Questions of every kind and a helper of questions that pass each other their bytes.
use crate::ends::{exchange, said_of};
use crate::facts::expect;
use crate::kinds::begun;
use sip_check_tests::frames::{BYE, STREAM};
use sip_check_tests::sizes::Sizes;
use sip_helper::HelpStatus;
use sip_ports::MemorySink;
use sip_question_tests::kinds::{KINDS, wanted};
use sip_questions::QuestionCore;
use sip_steps::Serving;
use std::alloc::Global;
use std::test::Fail;

// The lines of all answers in one talk, and how it ended.
fn talked(alloc: Global, sizes: &mut Sizes) -> Result<(Vec<u8>, Option<HelpStatus>), Fail> {
    let mut serving = Serving::begin(alloc, QuestionCore::new(alloc))?;
    let mut replies = MemorySink::new(alloc, 100, Vec::new(alloc));
    let mut lines = Vec::new(alloc);
    serving.feed(&STREAM, &mut replies);
    for kind in &KINDS {
        let Some(mut asking) = begun(alloc, kind.question)? else {
            break;
        };
        exchange(alloc, &mut asking, &mut serving, sizes)?;
        if let Some(Ok(line)) = said_of(alloc, &asking)? {
            lines.extend_from_slice(&line)?;
        }
    }
    serving.feed(&BYE, &mut replies);
    Ok((lines, serving.status()))
}

// Whether all questions are answered, and the helper has served its talk.
fn are_answered(alloc: Global, mut sizes: Sizes) -> Result<[bool; 2], Fail> {
    let (lines, status) = talked(alloc, &mut sizes)?;
    let (_said, all) = wanted(alloc, &KINDS.each_ref())?;
    Ok([lines == all, status == Some(HelpStatus::Served)])
}

#[test]
fn every_kind_in_one_talk_in_pieces_of_one_size(rt: HostRuntime) -> Result<(), Fail> {
    for size in [1, 2, 7, 1000] {
        expect(
            &rt,
            "one size",
            &are_answered(rt.alloc(), Sizes::Same(size))?,
        );
    }
    Ok(())
}

#[test]
fn every_kind_in_one_talk_in_any_pieces(rt: HostRuntime) -> Result<(), Fail> {
    for seed in 0..20 {
        expect(&rt, "seed", &are_answered(rt.alloc(), Sizes::Any(seed))?);
    }
    Ok(())
}
