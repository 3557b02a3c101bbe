// The check of a sub-vector, over rows that were worked out by hand.
ghost use Rattle.std.specs.Prelude.{◌≡◌, ◌^◌, ◌<◌, ◌≤◌, length};

use crate::facts::expect;
use sip_field::{F31, Field, M61, Seat};
use sip_subvec::SubCheck;
use sip_tree::Root;
use sip_vector::CAP;
use sip_wire::Reason;
use std::process::Abort;

// The siblings of a level.
type Pair = (Option<u64>, Option<u64>);

// The root of a vector of four at the challenges (2, 10): of (3, 0, 5, 1), which is 73, or else of
// zeros.
fn root_of_four(is_zero: bool) -> Root<M61, CAP>
    ensures { length result.seat ≡ 2 }
{
    let mut root = Root::new(Seat::of(&[M61::of(2), M61::of(10)]).unwrap());
    if !is_zero {
        root.update(0, 3);
        root.update(2, 5);
        root.update(3, 1);
    }
    root
}

fn element<F: Field>(number: Option<u64>) -> Option<F> {
    number.map(|x| F::of(x))
}

// What a check of two levels answers to these entries and siblings: the first refusal, or that of
// the end.
fn answer(
    root: &Root<M61, CAP>,
    lo: u64,
    hi: u64,
    entries: &[(u64, i8)],
    levels: [Pair; 2],
) -> Result<(), Reason>
    requires two { length root.now.seat ≡ 2 }
    requires order { lo ≤ hi }
    requires item { hi < 4 }
{
    let mut check = SubCheck::start(root, lo, hi);
    for entry in entries {
        if entry.1 != 0 {
            check.entry(entry.0, i64::from(entry.1))?;
        }
    }
    let [first, second] = levels;
    check.siblings(element(first.0), element(first.1))?;
    check.reveal();
    check.siblings(element(second.0), element(second.1))?;
    check.finish()
}

// An interval, the entries and the siblings of two levels that are said of it, and the answer.
type Row = (
    u64,
    u64,
    &'static [(u64, i8)],
    [Pair; 2],
    Result<(), Reason>,
);

const NONE: Pair = (None, None);

const LEFT: Pair = (Some(3), None);

const RIGHT: Pair = (None, Some(1));

const BOTH: Pair = (Some(3), Some(1));

const WHOLE: &[(u64, i8)] = &[(0, 3), (2, 5), (3, 1)];

const OF_FOUR: [Row; 18] = [
    // The entries from 1 to 2 are 5 at 2, since 5 * 10 + 3 * 1 + 1 * 20 is 73.
    (1, 2, &[(2, 5)], [BOTH, NONE], Ok(())),
    (1, 2, &[(2, 6)], [BOTH, NONE], Err(Reason::Root)),
    (1, 2, &[(1, 1), (2, 5)], [BOTH, NONE], Err(Reason::Root)),
    (1, 2, &[(1, 7), (2, 5)], [BOTH, NONE], Err(Reason::Root)),
    (
        1,
        2,
        &[(2, 5)],
        [(Some(4), Some(1)), NONE],
        Err(Reason::Root),
    ),
    (
        1,
        2,
        &[(2, 5)],
        [(Some(3), Some(2)), NONE],
        Err(Reason::Root),
    ),
    // Entries have to rise within the interval.
    (1, 2, &[(0, 3), (2, 5)], [BOTH, NONE], Err(Reason::BadOrder)),
    (1, 2, &[(2, 5), (3, 1)], [BOTH, NONE], Err(Reason::BadOrder)),
    (1, 2, &[(2, 5), (2, 5)], [BOTH, NONE], Err(Reason::BadOrder)),
    (1, 2, &[(2, 5), (1, 1)], [BOTH, NONE], Err(Reason::BadOrder)),
    (0, 3, WHOLE, [NONE, NONE], Ok(())),
    // Siblings have to be those that are asked for.
    (1, 2, &[(2, 5)], [LEFT, NONE], Err(Reason::BadFlags)),
    (1, 2, &[(2, 5)], [RIGHT, NONE], Err(Reason::BadFlags)),
    (1, 2, &[(2, 5)], [NONE, NONE], Err(Reason::BadFlags)),
    (1, 2, &[(2, 5)], [BOTH, RIGHT], Err(Reason::BadFlags)),
    (1, 2, &[(2, 5)], [BOTH, LEFT], Err(Reason::BadFlags)),
    (0, 3, WHOLE, [LEFT, NONE], Err(Reason::BadFlags)),
    // The lone entry 3 has the neighbour 2 and, above it, the node 3 + 2 * 0.
    (3, 3, &[(3, 1)], [(Some(5), None), LEFT], Ok(())),
];

// Nothing is in a vector of zeros.
const OF_ZEROS: [Row; 2] = [
    (0, 3, &[], [NONE, NONE], Ok(())),
    (0, 3, &[(1, 1)], [NONE, NONE], Err(Reason::Root)),
];

fn are_answered(rt: &impl Abort, root: &Root<M61, CAP>, rows: &[Row])
    requires { length root.now.seat ≡ 2 }
{
    for (row, (lo, hi, entries, levels, want)) in rows.iter().enumerate() {
        let is_interval = *lo <= *hi && *hi < 4;
        expect(rt, row, &[is_interval]);
        if is_interval {
            let said = answer(root, *lo, *hi, entries, *levels);
            expect(rt, row, &[said == *want]);
        }
    }
}

#[test]
fn replies_have_their_answers(rt: HostRuntime) {
    are_answered(&rt, &root_of_four(false), &OF_FOUR);
    are_answered(&rt, &root_of_four(true), &OF_ZEROS);
}

// The root of (3, 5) at this challenge.
pub(crate) fn root_of_pair(r: u64) -> Root<F31, CAP>
    ensures { length result.seat ≡ 1 }
{
    let mut root = Root::new(Seat::of(&[F31::of(r)]).unwrap());
    root.update(0, 3);
    root.update(1, 5);
    root
}

// What a check of entry 0 of (3, 5) answers to the entry 4 and the sibling 4.
fn answer_one_level(r: u64) -> Result<(), Reason> {
    let root = root_of_pair(r);
    let mut check = SubCheck::start(&root, 0, 0);
    check.entry(0, 4)?;
    check.siblings(None, Some(F31::of(4)))?;
    check.finish()
}

fn zeros_at(first: u64, second: u64) -> Root<F31, 2>
    ensures { length result.seat ≡ 2 }
{
    Root::new(Seat::of(&[F31::of(first), F31::of(second)]).unwrap())
}

// What a check of entry 0 of (0, 0, 0, 0) answers to the entry 1, the sibling 30, and then the
// sibling r_1 - 1.
fn answer_two_levels(first: u64, second: u64) -> Result<(), Reason> {
    let root = zeros_at(first, second);
    let mut check = SubCheck::start(&root, 0, 0);
    check.entry(0, 1)?;
    check.siblings(None, Some(F31::of(30)))?;
    let r = check.reveal();
    check.siblings(None, Some(r.minus(F31::of(1))))?;
    check.finish()
}

// The answer of a check at the end, which accepts or not.
fn accepted_where(is_accepted: bool) -> Result<(), Reason> {
    if is_accepted {
        Ok(())
    } else {
        Err(Reason::Root)
    }
}

// The first lie passes at 1 of 31 challenges, and the second at 61 of 961.
#[test]
fn a_lie_passes_at_few_challenges(rt: HostRuntime) {
    for r in 0..31 {
        let one = accepted_where(r == 1);
        expect(&rt, r as usize, &[answer_one_level(r) == one]);
        for second in 0..31 {
            let two = accepted_where(r == 1 || second == 1);
            expect(&rt, r as usize, &[answer_two_levels(r, second) == two]);
        }
    }
}
