// Replies with a fault, behind what an honest helper said.

use crate::frames::REFUSE_1;
use crate::row::{Row, RunInput, Said, bytes_of};
use sip_verifier::Status;
use sip_wire::Reason;
use std::alloc::Global;
use std::process::Abort;
use std::test::Fail;

// Replies of which one has a fault, what is said up to the fault, its round and reason, and the
// line that is written.
#[derive(Clone, Copy)]
pub struct Faulty<'a> {
    pub name: &'a str,
    pub replies: &'a [&'a [u8]],
    pub then: &'a [Said<'a>],
    pub round: u8,
    pub reason: Reason,
    pub line: &'a [u8],
}

// The link ends where reply 0 of query 1 is due.
pub const NOTHING_OF_REPLY_0: Faulty<'static> = Faulty {
    name: "nothing of reply 0 comes",
    replies: &[],
    then: &[Said::Ended],
    round: 0,
    reason: Reason::Closed,
    line: b"rejected query 1 round 0 Closed\n",
};

// The helper refuses query 1.
pub const NO_MEMORY: Faulty<'static> = Faulty {
    name: "the helper has no memory",
    replies: &[&REFUSE_1],
    then: &[Said::In(&REFUSE_1)],
    round: 0,
    reason: Reason::Refused(1),
    line: b"rejected query 1 round 0 Refused(1)\n",
};

// The link ends where reply 1 of query 1 is due.
pub const NOTHING_OF_REPLY_1: Faulty<'static> = Faulty {
    name: "nothing of reply 1 comes",
    replies: &[],
    then: &[Said::Ended],
    round: 1,
    reason: Reason::Closed,
    line: b"rejected query 1 round 1 Closed\n",
};

// Runs behind what was said and written before, where this query is open.
#[derive(Clone, Copy)]
pub struct Behind<'a> {
    pub before: Row<'a>,
    pub query: u8,
    pub rows: &'a [Faulty<'a>],
}

impl Faulty<'_> {
    // Runs it behind what was said and written before, where this query is open.
    fn check(&self, rt: &impl Abort, alloc: Global, before: &Row, query: u8) -> Result<(), Fail> {
        let mut replies = bytes_of(alloc, before.given.replies)?;
        replies.extend_from_slice(&bytes_of(alloc, self.replies)?)?;
        let mut then = before.then.to_vec(alloc)?;
        then.extend_from_slice(self.then)?;
        let mut report = before.report.to_vec(alloc)?;
        report.extend_from_slice(self.line)?;
        let rejected = Row {
            name: self.name,
            given: RunInput {
                replies: &[&replies],
                ..before.given
            },
            status: Status::Rejected {
                query,
                round: self.round,
                reason: self.reason,
            },
            code: 1,
            report: &report,
            sent: before.sent,
            then: &then,
        };
        rejected.check(rt, alloc)
    }
}

// Runs all of them.
pub fn check_faulty(rt: &impl Abort, alloc: Global, tables: &[Behind]) -> Result<(), Fail> {
    for table in tables {
        for row in table.rows {
            row.check(rt, alloc, &table.before, table.query)?;
        }
    }
    Ok(())
}

// Runs those of query 1, each where a run like this one has heard nothing yet.
pub fn check_first(rt: &impl Abort, alloc: Global, run: &Row, rows: &[Faulty]) -> Result<(), Fail> {
    let before = Row {
        given: RunInput {
            replies: &[],
            ..run.given
        },
        report: b"",
        then: &[],
        ..*run
    };
    for row in rows {
        row.check(rt, alloc, &before, 1)?;
    }
    Ok(())
}
