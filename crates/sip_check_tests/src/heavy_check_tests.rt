ghost use Rattle.std.specs.Prelude.{◌≡◌, ◌≤◌, false, length, pos};

use crate::facts::expect;
use sip_field::{F31, Field, Seat};
use sip_heavy::{HeavyCheck, HeavySpace};
use sip_tree::AugRoot;
use sip_wire::Reason;
use std::test::Fail;

// The root of (3, 1) at this challenge.
fn root_of_two(r: u64) -> AugRoot<F31, 8>
    ensures depth { length result.seat ≡ 1 }
    ensures total { result.total ≡ pos 4 }
{
    let mut root = AugRoot::new(Seat::of(&[F31::of(r)]).unwrap());
    root.update(0, 3);
    root.update(1, 1);
    root
}

// Gives the leaves 4 and 0 to a new check.
fn judge(check: &mut HeavyCheck<F31, 8>) -> Result<(), Reason>
    requires depth { length check.old.challenges ≡ 1 }
    requires level { check.old.level ≡ 0 }
    requires unspent { check.old.spent ≡ false }
    ensures room { check.new.room ≡ check.old.room }
{
    check.leaf(0, 4)?;
    check.leaf(1, 0)?;
    check.level_end()?;
    check.finish()
}

// With the leaves 4 and 0 in place of 3 and 1 the two hashes differ by (1 - r)(1 + r), up to a
// sign: 0 where r is 1 or 30. The checks follow each other in one space.
#[test]
fn two_challenges_of_31_let_wrong_leaves_pass(rt: HostRuntime) -> Result<(), Fail> {
    let mut space = HeavySpace::reserve(rt.alloc(), 2)?;
    for r in 0..31 {
        let root = root_of_two(r);
        let mut check = HeavyCheck::start(&root, 3, space);
        let judged = judge(&mut check);
        let passes = r == 1 || r == 30;
        let spends = check.spent();
        space = check.into_space();
        let facts = [
            judged.is_ok() == passes,
            spends == judged.is_err(),
            space.found().len() == 1,
        ];
        expect(&rt, r as usize, &facts);
    }
    Ok(())
}

// The root of (0, 0, 4, 0) at these challenges.
fn root_of_four(first: u64, second: u64) -> AugRoot<F31, 8>
    ensures depth { length result.seat ≡ 2 }
    ensures total { result.total ≡ pos 4 }
{
    let mut root = AugRoot::new(Seat::of(&[F31::of(first), F31::of(second)]).unwrap());
    root.update(2, 4);
    root
}

// Gives a new check the leaves 4 and 0 at the indices 0 and 1, and then a node 1 with nothing below
// it.
fn judge_at_two_levels(check: &mut HeavyCheck<F31, 8>) -> Result<(), Reason>
    requires depth { length check.old.challenges ≡ 2 }
    requires level { check.old.level ≡ 0 }
    requires revealed { check.old.revealed ≡ 0 }
    requires unspent { check.old.spent ≡ false }
    ensures room { check.new.room ≡ check.old.room }
{
    check.leaf(0, 4)?;
    check.leaf(1, 0)?;
    check.level_end()?;
    let _first = check.reveal();
    check.node(1, F31::of(0), 0)?;
    check.level_end()?;
    check.finish()
}

// The two root hashes differ by 4·(1 + r_1 + r_2)·(1 - r_2²): 0 where r_2 is 1 or 30, which is so
// at 62 challenges, and where 1 + r_1 + r_2 is 31, at 29 more.
#[test]
fn a_misplaced_entry_passes_at_91_of_961_challenges(rt: HostRuntime) -> Result<(), Fail> {
    let mut space = HeavySpace::reserve(rt.alloc(), 2)?;
    for first in 0..31 {
        for second in 0..31 {
            let root = root_of_four(first, second);
            let mut check = HeavyCheck::start(&root, 3, space);
            let judged = judge_at_two_levels(&mut check);
            let passes = second == 1 || second == 30 || (1 + first + second) % 31 == 0;
            let want = if passes { Ok(()) } else { Err(Reason::Root) };
            expect(&rt, first as usize, &[judged == want]);
            space = check.into_space();
        }
    }
    Ok(())
}
