// Each exit of a run closes its helper once, and drops it once.

use crate::duel_counting::{Counting, Watched};
use crate::duel_runs::{FOUR, Ports, run, task};
use crate::facts::expect;
use sip_duel::Helper;
use sip_stream::{Form, Why};
use sip_vector::Query;
use sip_verifier::{Port, Status};
use sip_wire::Reason;
use std::alloc::Global;
use std::process::Abort;
use std::test::Fail;

// An exit of a run that asks for the entries 1 to 2: its ports, how often the helper is heard and
// asked, how the run ends and what it reports.
type Exit<'a> = (&'a str, Ports<'a>, (u32, u32), Status, &'a str);

fn check(
    rt: &impl Abort,
    alloc: Global,
    exit: &Exit,
    watched: &Watched,
    helper: Counting,
) -> Result<(), Fail> {
    let &(name, ports, (heard, asked), status, lines) = exit;
    let helper: Box<dyn Helper> = Box::new(alloc, helper)?;
    let task = task(2, Form::Text, &[Query::Sub { lo: 1, hi: 2 }])?;
    let (ended, report) = run(alloc, &task, helper, ports)?;
    let facts = [
        ended == status,
        report.bytes() == lines.as_bytes(),
        watched.is_gone(heard, asked),
    ];
    expect(rt, name, &facts);
    Ok(())
}

const NO_STREAM: Status = Status::ReadFault { port: Port::First };

const NO_SEED: Status = Status::ReadFault { port: Port::Second };

const NO_REPORT: Status = Status::WriteFault { port: Port::Report };

const ITEM_4: Status = Status::BadStream {
    at: 0,
    why: Why::BadItem,
};

const DELTA_0: Status = Status::BadStream {
    at: 1,
    why: Why::ZeroDelta,
};

// An opening, a frame of updates, the end and a query are heard, then a challenge and the farewell.
// Each reply is asked for once.
const EXITS: [Exit<'static>; 7] = [
    ("accepted", FOUR, (6, 2), Status::Accepted, "sub:1:2 2:5\n"),
    (
        "item 4",
        Ports {
            stream: b"0 4 1\n",
            ..FOUR
        },
        (1, 0),
        ITEM_4,
        "",
    ),
    (
        "31 bytes",
        Ports { seed: 31, ..FOUR },
        (0, 0),
        Status::BadSeed,
        "",
    ),
    (
        "no stream",
        Ports {
            first_fails: &[1],
            ..FOUR
        },
        (1, 0),
        NO_STREAM,
        "",
    ),
    (
        "no seed",
        Ports {
            second_fails: &[1],
            ..FOUR
        },
        (0, 0),
        NO_SEED,
        "",
    ),
    (
        "no report",
        Ports {
            report_fails: &[1],
            ..FOUR
        },
        (5, 2),
        NO_REPORT,
        "",
    ),
    (
        "delta 0",
        Ports {
            stream: b"0 0 1\n0 1 0\n",
            ..FOUR
        },
        (1, 0),
        DELTA_0,
        "",
    ),
];

fn check_exits(rt: &impl Abort, alloc: Global, exits: &[Exit]) -> Result<(), Fail> {
    for exit in exits {
        let watched = Watched::new(alloc)?;
        check(rt, alloc, exit, &watched, watched.honest(alloc)?)?;
    }
    Ok(())
}

#[test]
fn each_exit_lets_its_helper_go(rt: HostRuntime) -> Result<(), Fail> {
    check_exits(&rt, rt.alloc(), &EXITS)
}

const REFUSED: Status = Status::Rejected {
    query: 1,
    round: 0,
    reason: Reason::Refused(4),
};

const CLOSED: Status = Status::Rejected {
    query: 1,
    round: 0,
    reason: Reason::Closed,
};

const REFUSED_LINE: &str = "rejected query 1 round 0 Refused(4)\n";

const CLOSED_LINE: &str = "rejected query 1 round 0 Closed\n";

// A helper that gives a refusal or none, and then fails or has ended. The opening, the updates, the
// end and the query are heard, and the first reply is asked for.
const WITHOUT: [(bool, bool, Exit<'static>); 3] = [
    (
        true,
        false,
        ("refuses", FOUR, (4, 1), REFUSED, REFUSED_LINE),
    ),
    (false, false, ("ends", FOUR, (4, 1), CLOSED, CLOSED_LINE)),
    (
        false,
        true,
        ("fails", FOUR, (4, 1), Status::OutOfMemory, ""),
    ),
];

fn check_without(rt: &impl Abort, alloc: Global, rows: &[(bool, bool, Exit)]) -> Result<(), Fail> {
    for (gives, fails, exit) in rows {
        let watched = Watched::new(alloc)?;
        let helper = watched.helper(alloc, *gives, *fails)?;
        check(rt, alloc, exit, &watched, helper)?;
    }
    Ok(())
}

// The same of a helper that refuses, that ends, and to which memory is refused.
#[test]
fn a_helper_without_a_reply_is_let_go(rt: HostRuntime) -> Result<(), Fail> {
    check_without(&rt, rt.alloc(), &WITHOUT)
}
