// Runs against several helpers in the program.

use sip_cli::panel;
use sip_command_tests::case::Case;
use sip_command_tests::frames::ZERO_SEED;
use sip_command_tests::play::BOTH_SIDES;
use sip_command_tests::row::words_of;
use sip_ports::{MemorySink, MemorySource};
use sip_stream::Why;
use sip_vector::Negatives;
use sip_verifier::Status;
use sip_wire::Reason;
use sip_words::read_words;
use std::alloc::Global;
use std::process::Abort;
use std::test::Fail;

// A run over (3, 0, 5, 1) and (2, 7, 1, 0): its words, how it ends, if they are words of `panel`,
// and its lines. Each answer was found by hand, and each place of a rejection is that of a run of
// `play`.
#[derive(Clone, Copy)]
struct Run<'a>(&'a str, Option<Status>, &'a str);

const ACCEPTED: Option<Status> = Some(Status::Accepted);

const ROOT: Option<Status> = Some(Status::Rejected {
    query: 1,
    round: 2,
    reason: Reason::Root,
});

const SILENT: Option<Status> = Some(Status::Rejected {
    query: 2,
    round: 0,
    reason: Reason::Closed,
});

const RUNS: &[Run<'static>] = &[
    Run(
        "panel text:s k skewed,honest 2 sub:1:2 f2:0",
        ACCEPTED,
        "dropped helper 1 query 1 round 2 Root\nsub:1:2 2:5\nf2:0 35\n",
    ),
    Run(
        "panel text:s k mute,skewed 2 sub:1:2",
        ROOT,
        "dropped helper 1 query 1 round 0 Closed\ndropped helper 2 query 1 round 2 Root\n",
    ),
    Run(
        "panel text:s k honest 2 sub:1:2 f2:0 heavy:0:4 range:0:1:3 inner f2:1",
        ACCEPTED,
        "sub:1:2 2:5\nf2:0 35\nheavy:0:4 2:5\nrange:0:1:3 6\ninner 11\nf2:1 54\n",
    ),
    // The second side is as it was, so the skewed helper is dropped at the second query alone. No
    // entry can be 10 or more where the total is 9, so nothing is asked of the mute one before
    // that.
    Run(
        "panel text:s k skewed,mute,honest 2 f2:1 sub:1:2 inner",
        ACCEPTED,
        "f2:1 54\ndropped helper 1 query 2 round 2 Root\n\
         dropped helper 2 query 2 round 0 Closed\nsub:1:2 2:5\ninner 11\n",
    ),
    Run(
        "panel text:s k mute 2 heavy:0:10 sub:1:2",
        SILENT,
        "heavy:0:10 none\ndropped helper 1 query 2 round 0 Closed\n",
    ),
    // A record of item 2 is no stream over two items.
    Run(
        "panel text:s k honest,mute 1 f2:0",
        Some(Status::BadStream {
            at: 1,
            why: Why::BadItem,
        }),
        "",
    ),
    // Other commands, and words of none, are left to `run`.
    Run("panel text:s k honest 2 sub:0:4", None, ""),
    Run("play text:s k honest - 2 sub:1:2", None, ""),
    Run("verify text:s k a b - 2 sub:1:2", None, ""),
];

fn check_run(rt: &impl Abort, alloc: Global, Run(name, status, lines): Run) -> Result<(), Fail> {
    let words = words_of(alloc, name)?;
    let mut first = MemorySource::new(BOTH_SIDES.to_vec(alloc)?, 7, Vec::new(alloc));
    let mut second = MemorySource::new(ZERO_SEED.to_vec(alloc)?, 5, Vec::new(alloc));
    let mut report = MemorySink::new(alloc, 10_000, Vec::new(alloc));
    let ended = match read_words(&words) {
        Ok(command) => {
            let told = &mut Negatives::default();
            panel(alloc, &command, &mut first, &mut second, &mut report, told)
        }
        Err(_) => None,
    };
    let case = Case { name, number: 0 };
    case.holds(ended == status).expect(rt, "a case");
    case.writes(report.bytes(), lines.as_bytes())
        .expect(rt, "a case");
    Ok(())
}

fn check_runs(rt: &impl Abort, alloc: Global, runs: &[Run]) -> Result<(), Fail> {
    for run in runs {
        check_run(rt, alloc, *run)?;
    }
    Ok(())
}

#[test]
fn the_helpers_of_the_names_are_asked_in_turn(rt: HostRuntime) -> Result<(), Fail> {
    check_runs(&rt, rt.alloc(), RUNS)
}

// Side 0 is (3, 0, 5, 0) and side 1 is (2, 7, 0, 0), each with a delta below 0 on the way.
const CREDITS: &[u8] = b"0 0 3\n0 2 6\n0 2 -1\n1 0 2\n1 1 8\n1 1 -1\n";

// What these words leave of both sides, where both were told of before.
fn told(alloc: Global, text: &str) -> Result<Negatives, Fail> {
    let mut first = MemorySource::new(CREDITS.to_vec(alloc)?, 7, Vec::new(alloc));
    let mut second = MemorySource::new(ZERO_SEED.to_vec(alloc)?, 5, Vec::new(alloc));
    let mut report = MemorySink::new(alloc, 10_000, Vec::new(alloc));
    let mut told = Negatives {
        first: true,
        second: true,
    };
    if let Ok(command) = read_words(&words_of(alloc, text)?) {
        let seen = &mut told;
        let _ = panel(alloc, &command, &mut first, &mut second, &mut report, seen);
    }
    Ok(told)
}

#[test]
fn credits_of_large_entries_are_told(rt: HostRuntime) -> Result<(), Fail> {
    let rows = [
        ("panel text:s k mute,honest 2 heavy:0:4 f2:1", true, false),
        ("panel text:s k honest 2 share:1:1:2", false, true),
        ("panel text:s k honest 2 f2:0 sub:0:3", false, false),
        ("play text:s k honest - 2 heavy:0:4", true, true),
    ];
    for (name, first, second) in rows {
        let sides = Negatives { first, second };
        Case { name, number: 0 }
            .holds(told(rt.alloc(), name)? == sides)
            .expect(&rt, "a case");
    }
    Ok(())
}
