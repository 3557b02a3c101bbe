// Whole runs in pieces of many sizes: each question has its answer.
use crate::facts::expect;
use crate::whole_run::is_answered;
use sip_check_tests::sizes::Sizes;
use std::test::Fail;

#[test]
fn a_whole_run_is_answered_in_pieces_of_one_size(rt: HostRuntime) -> Result<(), Fail> {
    for size in [1, 2, 7, 1000] {
        let facts = is_answered(rt.alloc(), &[7; 32], Sizes::Same(size))?;
        expect(&rt, "one size", &facts);
    }
    Ok(())
}

#[test]
fn a_whole_run_is_answered_in_any_pieces(rt: HostRuntime) -> Result<(), Fail> {
    for seed in 0..20 {
        let facts = is_answered(rt.alloc(), &[seed as u8; 32], Sizes::Any(seed))?;
        expect(&rt, "seed", &facts);
    }
    Ok(())
}
