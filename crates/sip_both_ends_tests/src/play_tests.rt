// Runs against the helpers in the program.

use sip_command_tests::case::Case;
use sip_command_tests::play::{BOTH_SIDES, run_play, run_play_over};
use sip_stream::Why;
use sip_vector::Negatives;
use sip_verifier::Status;
use sip_wire::Reason;
use std::alloc::Global;
use std::process::Abort;
use std::test::Fail;

// A run over both sides: its words, how it ends, if they are words of `play`, and its lines.
#[derive(Clone, Copy)]
struct Run<'a>(&'a str, Option<Status>, &'a str);

const ACCEPTED: Option<Status> = Some(Status::Accepted);

const SILENT: Option<Status> = Some(Status::Rejected {
    query: 1,
    round: 0,
    reason: Reason::Closed,
});

const TOTAL: Option<Status> = Some(Status::Rejected {
    query: 1,
    round: 1,
    reason: Reason::Total,
});

const ROOT: Option<Status> = Some(Status::Rejected {
    query: 1,
    round: 2,
    reason: Reason::Root,
});

const THIRD: Option<Status> = Some(Status::Rejected {
    query: 3,
    round: 2,
    reason: Reason::Root,
});

// Each answer was found by hand.
const RUNS: &[Run<'static>] = &[
    Run(
        "play text:s k honest - 2 sub:1:2 f2:0 heavy:0:4 range:0:1:3",
        ACCEPTED,
        "sub:1:2 2:5\nf2:0 35\nheavy:0:4 2:5\nrange:0:1:3 6\n",
    ),
    Run(
        "play text:s k honest - 2 inner f2:1",
        ACCEPTED,
        "inner 11\nf2:1 54\n",
    ),
    Run(
        "play text:s k honest - 33 inner share:1:1:2",
        ACCEPTED,
        "inner 11\nshare:1:1:2 1:7\n",
    ),
    // A record of item 2 is no stream over two items.
    Run(
        "play text:s k honest - 1 f2:0",
        Some(Status::BadStream {
            at: 1,
            why: Why::BadItem,
        }),
        "",
    ),
    // One that counts item 0 once more. What it says of other items is right, and still no line
    // is written for it. The two heavy nodes of level 1 are 10 together, where the total is 9.
    Run(
        "play text:s k skewed - 2 sub:1:2",
        ROOT,
        "rejected query 1 round 2 Root\n",
    ),
    Run(
        "play text:s k skewed - 2 range:0:1:3",
        ROOT,
        "rejected query 1 round 2 Root\n",
    ),
    Run(
        "play text:s k skewed - 2 heavy:0:4",
        TOTAL,
        "rejected query 1 round 1 Total\n",
    ),
    // The second side is as it was.
    Run(
        "play text:s k skewed - 2 f2:1 heavy:1:7 f2:0",
        THIRD,
        "f2:1 54\nheavy:1:7 1:7\nrejected query 3 round 2 Root\n",
    ),
    Run(
        "play text:s k mute - 2 sub:1:2",
        SILENT,
        "rejected query 1 round 0 Closed\n",
    ),
    Run(
        "play text:s k mute - 48 f2:1 inner",
        SILENT,
        "rejected query 1 round 0 Closed\n",
    ),
    // No entry can be 10 or more where the total is 9, so nothing is asked.
    Run(
        "play text:s k mute - 2 heavy:0:10",
        ACCEPTED,
        "heavy:0:10 none\n",
    ),
    // Words of other commands, or of none, are left to `run`.
    Run("play text:s k mute - 2 sub:0:4", None, ""),
    Run("verify text:s k a b - 2 sub:1:2", None, ""),
    Run("help a b", None, ""),
];

fn check_runs(rt: &impl Abort, alloc: Global, runs: &[Run]) -> Result<(), Fail> {
    for Run(name, status, lines) in runs {
        let shown = run_play(alloc, name)?;
        let case = Case { name, number: 0 };
        case.holds(shown.ended == *status).expect(rt, "a case");
        case.writes(shown.report.bytes(), lines.as_bytes())
            .expect(rt, "a case");
    }
    Ok(())
}

#[test]
fn the_helper_of_each_name_plays(rt: HostRuntime) -> Result<(), Fail> {
    check_runs(&rt, rt.alloc(), RUNS)
}

// Side 0 is (3, 0, 5, 0) and side 1 is (2, 7, 0, 0), each with a delta below 0 on the way.
const CREDITS: &[u8] = b"0 0 3\n0 2 6\n0 2 -1\n1 0 2\n1 1 8\n1 1 -1\n";

// The third record is of no item at depth 2.
const CUT_SHORT: &[u8] = b"0 2 6\n0 2 -1\n0 9 1\n";

// A run over these lines: how it ends, and whether it tells of a delta below 0 of side 0, and of
// side 1.
struct Told<'a>(&'a str, &'a [u8], Status, bool, bool);

const TOLD: &[Told<'static>] = &[
    Told(
        "play text:s k honest - 2 heavy:0:4",
        CREDITS,
        Status::Accepted,
        true,
        false,
    ),
    Told(
        "play text:s k honest - 2 share:1:1:2",
        CREDITS,
        Status::Accepted,
        false,
        true,
    ),
    Told(
        "play text:s k honest - 2 heavy:0:4 f2:1 heavy:1:7",
        CREDITS,
        Status::Accepted,
        true,
        true,
    ),
    // The other queries are right whatever the deltas are.
    Told(
        "play text:s k honest - 2 f2:0 inner sub:0:3",
        CREDITS,
        Status::Accepted,
        false,
        false,
    ),
    Told(
        "play text:s k honest - 2 heavy:0:4 heavy:1:7",
        BOTH_SIDES,
        Status::Accepted,
        false,
        false,
    ),
    // It is told where nothing is asked, too, and where the replies are rejected.
    Told(
        "play text:s k mute - 2 heavy:0:10",
        CREDITS,
        Status::Accepted,
        true,
        false,
    ),
    Told(
        "play text:s k mute - 2 heavy:1:2",
        CREDITS,
        Status::Rejected {
            query: 1,
            round: 0,
            reason: Reason::Closed,
        },
        false,
        true,
    ),
    Told(
        "play text:s k honest - 2 heavy:0:4",
        CUT_SHORT,
        Status::BadStream {
            at: 2,
            why: Why::BadItem,
        },
        false,
        false,
    ),
];

#[test]
fn credits_of_large_entries_are_told(rt: HostRuntime) -> Result<(), Fail> {
    for Told(name, stream, status, first, second) in TOLD {
        let shown = run_play_over(rt.alloc(), stream, name)?;
        let (first, second) = (*first, *second);
        let case = Case { name, number: 0 };
        case.holds(shown.ended == Some(*status))
            .expect(&rt, "a case");
        case.holds(shown.negatives == Negatives { first, second })
            .expect(&rt, "a case");
    }
    Ok(())
}
