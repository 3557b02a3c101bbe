// Each exit of a panel closes each of its helpers once, and drops it once.
//
// Three helpers are asked for the entries 1 to 2 of (3, 0, 5, 1), and then for the sum of squares.
// The first one has no reply, so that it is dropped at the first query, but where a run ends
// before.

use crate::duel_counting::Watched;
use crate::duel_runs::{FOUR, Ports};
use crate::facts::expect;
use crate::panel_tests::{SQUARES, SUB, run, two_queries, watched_links};
use sip_stream::Why;
use sip_verifier::{Port, Status};
use sip_wire::Reason;
use std::alloc::Global;
use std::process::Abort;
use std::test::Fail;

// An exit: its name and ports, whether the helpers behind the first are honest or have no reply
// either, whether memory is refused to the first one, how the run ends and what it reports.
type Exit<'a> = (&'a str, Ports<'a>, bool, bool, Status, &'a str);

const BAD_ITEM: Status = Status::BadStream {
    at: 0,
    why: Why::BadItem,
};

const CLOSED: Status = Status::Rejected {
    query: 1,
    round: 0,
    reason: Reason::Closed,
};

const NO_STREAM: Status = Status::ReadFault { port: Port::First };

const NO_SEED: Status = Status::ReadFault { port: Port::Second };

const NO_REPORT: Status = Status::WriteFault { port: Port::Report };

const ALL_DROPPED: &str = "dropped helper 1 query 1 round 0 Closed\n\
                           dropped helper 2 query 1 round 0 Closed\n\
                           dropped helper 3 query 1 round 0 Closed\n";

const ITEM_4: Ports<'static> = Ports {
    stream: b"0 4 1\n",
    ..FOUR
};

const SHORT_SEED: Ports<'static> = Ports { seed: 31, ..FOUR };

const STREAM_FAILS: Ports<'static> = Ports {
    first_fails: &[1],
    ..FOUR
};

const SEED_FAILS: Ports<'static> = Ports {
    second_fails: &[1],
    ..FOUR
};

// The first write is that of the line of the helper that is dropped.
const DROPPED_FAILS: Ports<'static> = Ports {
    report_fails: &[1],
    ..FOUR
};

// The second is that of the line of the first answer.
const ANSWER_FAILS: Ports<'static> = Ports {
    report_fails: &[2],
    ..FOUR
};

const DROPPED: &str = "dropped helper 1 query 1 round 0 Closed\n";

const ANSWERED: &str = "dropped helper 1 query 1 round 0 Closed\nsub:1:2 2:5\nf2:0 35\n";

const EXITS: [Exit<'static>; 9] = [
    ("accepted", FOUR, true, false, Status::Accepted, ANSWERED),
    ("all dropped", FOUR, false, false, CLOSED, ALL_DROPPED),
    ("item 4", ITEM_4, true, false, BAD_ITEM, ""),
    ("31 bytes", SHORT_SEED, true, false, Status::BadSeed, ""),
    ("no stream", STREAM_FAILS, true, false, NO_STREAM, ""),
    ("no seed", SEED_FAILS, true, false, NO_SEED, ""),
    (
        "no line of a drop",
        DROPPED_FAILS,
        true,
        false,
        NO_REPORT,
        "",
    ),
    (
        "no line of an answer",
        ANSWER_FAILS,
        true,
        false,
        NO_REPORT,
        DROPPED,
    ),
    ("no memory", FOUR, true, true, Status::OutOfMemory, ""),
];

fn check(rt: &impl Abort, alloc: Global, exit: &Exit, watched: &[Watched; 3]) -> Result<(), Fail> {
    let &(name, ports, honest, fails, status, lines) = exit;
    let task = two_queries(SUB, SQUARES)?;
    let mut links = watched_links(alloc, watched, honest, fails)?;
    let (ended, report) = run(alloc, &task, &mut links, ports)?;
    let facts = [
        ended == status,
        report.bytes() == lines.as_bytes(),
        watched[0].is_let_go(),
        watched[1].is_let_go(),
        watched[2].is_let_go(),
    ];
    expect(rt, name, &facts);
    Ok(())
}

#[test]
fn each_exit_lets_each_helper_go(rt: HostRuntime) -> Result<(), Fail> {
    let alloc = rt.alloc();
    for exit in &EXITS {
        check(&rt, alloc, exit, &Watched::three(alloc)?)?;
    }
    Ok(())
}
