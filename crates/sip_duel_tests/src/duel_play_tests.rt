// Long runs of `play` with an honest helper.

use crate::duel_runs::{FOUR, Ports, run, run_over, task};
use crate::facts::expect;
use sip_duel::{Helper, Honest};
use sip_stream::{Form, MadeSource};
use sip_vector::{Depth, Query, Side};
use sip_verifier::Status;
use sip_wire::Reason;
use std::alloc::Global;
use std::process::Abort;
use std::test::Fail;

fn honest(alloc: Global) -> Result<Box<dyn Helper>, Fail> {
    let boxed: Box<dyn Helper> = Box::new(alloc, Honest::new(alloc))?;
    Ok(boxed)
}

// What comes of this stream over 2^17 items, all of which are asked for.
fn check_whole(
    rt: &impl Abort,
    alloc: Global,
    name: &str,
    stream: &[u8],
    status: Status,
    line: &str,
) -> Result<(), Fail> {
    let task = task(17, Form::Binary, &[Query::Sub { lo: 0, hi: 131_071 }])?;
    let (ended, report) = run(alloc, &task, honest(alloc)?, Ports { stream, ..FOUR })?;
    let facts = [ended == status, report.bytes() == line.as_bytes()];
    expect(rt, name, &facts);
    Ok(())
}

// 65,536 items are the most that an answer has: one more is refused.
#[test]
fn an_answer_of_65536_pairs(rt: HostRuntime) -> Result<(), Fail> {
    let alloc = rt.alloc();
    let mut stream = Vec::new(alloc);
    let mut line = String::from_str(alloc, "sub:0:131071")?;
    for item in 0..65_536_u32 {
        stream.push(0)?;
        stream.extend_from_slice(&item.to_be_bytes())?;
        stream.extend_from_slice(&1_i64.to_be_bytes())?;
        line.push_str(&format!(in alloc; " {item}:1")?)?;
    }
    line.push('\n')?;
    check_whole(&rt, alloc, "the most", &stream, Status::Accepted, &line)?;
    stream.extend_from_slice(&[0, 0, 1, 0, 0, 0, 0, 0, 0, 0, 0, 0, 1])?;
    let refused = Status::Rejected {
        query: 1,
        round: 0,
        reason: Reason::Refused(2),
    };
    let line = "rejected query 1 round 0 Refused(2)\n";
    check_whole(&rt, alloc, "one more", &stream, refused, line)
}

// The lines of a made stream of 100,000 records, which a program of another language found.
const MADE: &str = "sub:0:99 0:28336 1:27410 49:3 91:8\n\
     range:0:0:1048575 224880\n\
     f2:0 1555223424\n\
     f2:1 1616414643\n\
     inner 1584193793\n\
     heavy:0:5000 0:28336 1:27410\n\
     heavy:1:5000 0:28275 1:28565\n";

const QUERIES: [Query; 7] = [
    Query::Sub { lo: 0, hi: 99 },
    Query::Range {
        side: Side::First,
        lo: 0,
        hi: 1_048_575,
    },
    Query::F2 { side: Side::First },
    Query::F2 { side: Side::Second },
    Query::Inner,
    Query::Heavy {
        side: Side::First,
        at_least: 5_000,
    },
    Query::Heavy {
        side: Side::Second,
        at_least: 5_000,
    },
];

#[test]
fn a_made_stream_of_100000_records(rt: HostRuntime) -> Result<(), Fail> {
    let alloc = rt.alloc();
    let depth = Depth::new(20).ok_or("a depth")?;
    let task = task(20, Form::made(depth), &QUERIES)?;
    let mut made = MadeSource::new(7, 100_000, depth);
    let (status, report) = run_over(alloc, &task, honest(alloc)?, &mut made, FOUR)?;
    let facts = [
        status == Status::Accepted,
        report.bytes() == MADE.as_bytes(),
    ];
    expect(&rt, "seven queries", &facts);
    Ok(())
}
