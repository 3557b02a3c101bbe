// Runs of `panel` in memory: who is asked, who is dropped, and which lines are written.
//
// The vector is (3, 0, 5, 1), and the second side is empty. The mute helper says nothing, so its
// first reply ends where it should begin: Closed at round 0. The skewed one has (4, 0, 5, 1): its
// replies fit together, so they pass every round, and at depth 2 the test behind the last one, of
// round 2, finds another root. Of 0 it says what is right: the products with an empty side are 0,
// and so is each polynomial.
ghost use Rattle.std.specs.Prelude.{◌≡◌, ◌<◌, ◌≤◌, ◌*◌, [], All, IfOk, length};
ghost use Rattle.sip_wire.specs.Table.{most_queries};
ghost use Rattle.sip_verifier.specs.Tasks.{CanBeDone};

use crate::duel_counting::Watched;
use crate::duel_runs::{FOUR, Ports, task};
use crate::facts::expect;
use sip_duel::{Helper, HelperLink, Honest, Mute, Skewed};
use sip_ports::{MemorySink, MemorySource};
use sip_session::panel;
use sip_stream::Form;
use sip_vector::{Negatives, Query, Side};
use sip_verifier::{Status, Task};
use sip_wire::Reason;
use std::alloc::Global;
use std::process::Abort;
use std::test::Fail;

#[derive(Clone, Copy)]
enum Name {
    Honest,
    Skewed,
    Mute,
}

use Name::{Honest as H, Mute as M, Skewed as S};

// A link to a helper of this name, on which nothing has happened.
fn link(alloc: Global, name: Name) -> Result<HelperLink, Fail>
    ensures { IfOk result (λ l. l.kept.talk.items ≡ []) }
{
    let helper: Box<dyn Helper> = match name {
        Name::Honest => Box::new(alloc, Honest::new(alloc))?,
        Name::Skewed => Box::new(alloc, Skewed::new(alloc).ok().ok_or("a helper")?)?,
        Name::Mute => Box::new(alloc, Mute::new())?,
    };
    Ok(HelperLink::new(alloc, helper).ok().ok_or("a link")?)
}

fn three_links(alloc: Global, names: [Name; 3]) -> Result<Vec<HelperLink>, Fail>
    ensures new { IfOk result (λ links. All (λ l. l.kept.talk.items ≡ []) links.items) }
    ensures count { IfOk result (λ links. length links.items ≡ 3) }
{
    let mut links = Vec::new(alloc);
    links.push(link(alloc, names[0])?)?;
    links.push(link(alloc, names[1])?)?;
    links.push(link(alloc, names[2])?)?;
    Ok(links)
}

pub(crate) fn two_queries(first: Query, second: Query) -> Result<Task, Fail>
    ensures done { IfOk result CanBeDone }
    ensures count { IfOk result (λ task. length task.queries.items ≡ 2) }
{
    let task = task(2, Form::Text, &[first, second])?;
    if task.queries.len() != 2 {
        return Err("two queries")?;
    }
    Ok(task)
}

pub(crate) const SUB: Query = Query::Sub { lo: 1, hi: 2 };

pub(crate) const SQUARES: Query = Query::F2 { side: Side::First };

// The total is 9, so nothing is asked.
const ABOVE: Query = Query::Heavy {
    side: Side::First,
    at_least: 10,
};

// Three helpers, two queries, how the run ends and what it reports.
type Row<'a> = ([Name; 3], [Query; 2], Status, &'a str);

const LAST_ROOT: Status = Status::Rejected {
    query: 1,
    round: 2,
    reason: Reason::Root,
};

const LATER_ROOT: Status = Status::Rejected {
    query: 2,
    round: 2,
    reason: Reason::Root,
};

const LAST_CLOSED: Status = Status::Rejected {
    query: 1,
    round: 0,
    reason: Reason::Closed,
};

const ROWS: [Row<'static>; 12] = [
    // Every order of the three: those before the honest one are dropped at the first query, and
    // those behind it are never asked. The honest one has (2, 5) from 1 to 2, and 9 + 25 + 1.
    (
        [H, S, M],
        [SUB, SQUARES],
        Status::Accepted,
        "sub:1:2 2:5\nf2:0 35\n",
    ),
    (
        [H, M, S],
        [SUB, SQUARES],
        Status::Accepted,
        "sub:1:2 2:5\nf2:0 35\n",
    ),
    (
        [S, H, M],
        [SUB, SQUARES],
        Status::Accepted,
        "dropped helper 1 query 1 round 2 Root\nsub:1:2 2:5\nf2:0 35\n",
    ),
    (
        [M, H, S],
        [SUB, SQUARES],
        Status::Accepted,
        "dropped helper 1 query 1 round 0 Closed\nsub:1:2 2:5\nf2:0 35\n",
    ),
    (
        [S, M, H],
        [SUB, SQUARES],
        Status::Accepted,
        "dropped helper 1 query 1 round 2 Root\n\
         dropped helper 2 query 1 round 0 Closed\nsub:1:2 2:5\nf2:0 35\n",
    ),
    (
        [M, S, H],
        [SUB, SQUARES],
        Status::Accepted,
        "dropped helper 1 query 1 round 0 Closed\n\
         dropped helper 2 query 1 round 2 Root\nsub:1:2 2:5\nf2:0 35\n",
    ),
    // None is honest: all are dropped at the first query, and the last place is the answer.
    (
        [M, S, S],
        [SUB, SQUARES],
        LAST_ROOT,
        "dropped helper 1 query 1 round 0 Closed\n\
         dropped helper 2 query 1 round 2 Root\ndropped helper 3 query 1 round 2 Root\n",
    ),
    (
        [S, S, M],
        [SUB, SQUARES],
        LAST_CLOSED,
        "dropped helper 1 query 1 round 2 Root\n\
         dropped helper 2 query 1 round 2 Root\ndropped helper 3 query 1 round 0 Closed\n",
    ),
    // The first helper passes the first query and is dropped at the second: the skewed one, where
    // its vector makes no difference, and the mute one, where nothing is asked.
    (
        [S, H, M],
        [Query::Inner, SQUARES],
        Status::Accepted,
        "inner 0\ndropped helper 1 query 2 round 2 Root\nf2:0 35\n",
    ),
    (
        [M, H, S],
        [ABOVE, SQUARES],
        Status::Accepted,
        "heavy:0:10 none\ndropped helper 1 query 2 round 0 Closed\nf2:0 35\n",
    ),
    // A helper that was dropped at one query is not asked the next.
    (
        [M, S, H],
        [Query::Inner, SQUARES],
        Status::Accepted,
        "dropped helper 1 query 1 round 0 Closed\ninner 0\n\
         dropped helper 2 query 2 round 2 Root\nf2:0 35\n",
    ),
    (
        [M, S, S],
        [Query::Inner, SQUARES],
        LATER_ROOT,
        "dropped helper 1 query 1 round 0 Closed\ninner 0\n\
         dropped helper 2 query 2 round 2 Root\ndropped helper 3 query 2 round 2 Root\n",
    ),
];

// Runs a task over these links, this stream and this seed, and answers what it reported, too.
pub(crate) fn run_over(
    alloc: Global,
    task: &Task,
    links: &mut Vec<HelperLink>,
    mut first: MemorySource,
    mut second: MemorySource,
    mut report: MemorySink,
) -> (Status, MemorySink)
    requires done { CanBeDone task.now }
    requires some { 0 < length links.old.items }
    requires few { length links.old.items * length task.now.queries.items ≤ most_queries }
    requires new { All (λ l. l.kept.talk.items ≡ []) links.old.items }
{
    let told = &mut Negatives::default();
    let status = panel(
        alloc,
        task,
        &mut first,
        &mut second,
        links,
        &mut report,
        told,
    );
    (status, report)
}

// Runs a task over these links and ports, over a seed of zeros.
pub(crate) fn run(
    alloc: Global,
    task: &Task,
    links: &mut Vec<HelperLink>,
    ports: Ports,
) -> Result<(Status, MemorySink), Fail>
    requires done { CanBeDone task.now }
    requires queries { length task.now.queries.items ≡ 2 }
    requires new { All (λ l. l.kept.talk.items ≡ []) links.old.items }
    requires helpers { length links.old.items ≡ 3 }
{
    let fails = ports.first_fails.to_vec(alloc)?;
    let first = MemorySource::new(ports.stream.to_vec(alloc)?, 5, fails);
    let fails = ports.second_fails.to_vec(alloc)?;
    let second = MemorySource::new(vec![in alloc; 0; ports.seed]?, 5, fails);
    let report = MemorySink::new(alloc, 10_000, ports.report_fails.to_vec(alloc)?);
    Ok(run_over(alloc, task, links, first, second, report))
}

fn check(rt: &impl Abort, alloc: Global, row: &Row) -> Result<(), Fail> {
    let &(names, [first, second], status, lines) = row;
    let task = two_queries(first, second)?;
    let mut links = three_links(alloc, names)?;
    let (ended, report) = run(alloc, &task, &mut links, FOUR)?;
    let facts = [ended == status, report.bytes() == lines.as_bytes()];
    expect(rt, lines, &facts);
    Ok(())
}

#[test]
fn helpers_are_asked_in_turn(rt: HostRuntime) -> Result<(), Fail> {
    for row in &ROWS {
        check(&rt, rt.alloc(), row)?;
    }
    Ok(())
}

// A link to a helper that counts what is called of it: an honest one, or one that has no reply, and
// where it fails is refused memory.
fn watched_link(
    alloc: Global,
    watched: &Watched,
    honest: bool,
    fails: bool,
) -> Result<HelperLink, Fail>
    ensures { IfOk result (λ l. l.kept.talk.items ≡ []) }
{
    let helper = if honest {
        watched.honest(alloc)?
    } else {
        watched.helper(alloc, false, fails)?
    };
    let helper: Box<dyn Helper> = Box::new(alloc, helper)?;
    Ok(HelperLink::new(alloc, helper).ok().ok_or("a link")?)
}

// Links to three such helpers, of which the first one has no reply.
pub(crate) fn watched_links(
    alloc: Global,
    watched: &[Watched; 3],
    honest: bool,
    fails: bool,
) -> Result<Vec<HelperLink>, Fail>
    ensures new { IfOk result (λ links. All (λ l. l.kept.talk.items ≡ []) links.items) }
    ensures count { IfOk result (λ links. length links.items ≡ 3) }
{
    let mut links = Vec::new(alloc);
    links.push(watched_link(alloc, &watched[0], false, fails)?)?;
    links.push(watched_link(alloc, &watched[1], honest, false)?)?;
    links.push(watched_link(alloc, &watched[2], honest, false)?)?;
    Ok(links)
}

// Each hears the opening, a frame of updates and the end. The first gives nothing: it hears one
// query more. The second hears two queries, a challenge for each, and the farewell. The third is
// not asked, and hears the farewell.
#[test]
fn each_helper_is_closed_once(rt: HostRuntime) -> Result<(), Fail> {
    let alloc = rt.alloc();
    let watched = Watched::three(alloc)?;
    let mut links = watched_links(alloc, &watched, true, false)?;
    let task = two_queries(SUB, SQUARES)?;
    let (status, report) = run(alloc, &task, &mut links, FOUR)?;
    let lines = "dropped helper 1 query 1 round 0 Closed\nsub:1:2 2:5\nf2:0 35\n";
    let facts = [
        status == Status::Accepted,
        report.bytes() == lines.as_bytes(),
        watched[0].is_gone(4, 1),
        watched[1].is_gone(8, 4),
        watched[2].is_gone(4, 0),
    ];
    expect(&rt, "three counting helpers", &facts);
    Ok(())
}

// Side 0 is (3, 0, 5, 0) and side 1 is (2, 7, 0, 0); side 1 alone has a delta below 0.
const CREDITS: &[u8] = b"0 0 3\n0 2 5\n1 0 2\n1 1 8\n1 1 -1\n";

// Which sides a panel tells of that asks these.
fn told(alloc: Global, first: Query, second: Query) -> Result<(Status, Negatives), Fail> {
    let task = two_queries(first, second)?;
    let mut links = three_links(alloc, [M, H, H])?;
    let mut stream = MemorySource::new(CREDITS.to_vec(alloc)?, 5, Vec::new(alloc));
    let mut seed = MemorySource::new(vec![in alloc; 0; 32]?, 5, Vec::new(alloc));
    let mut report = MemorySink::new(alloc, 10_000, Vec::new(alloc));
    let mut told = Negatives {
        first: true,
        second: false,
    };
    let (from, to, seen) = (&mut stream, &mut report, &mut told);
    let status = panel(alloc, &task, from, &mut seed, &mut links, to, seen);
    Ok((status, told))
}

#[test]
fn credits_of_large_entries_are_told(rt: HostRuntime) -> Result<(), Fail> {
    let alloc = rt.alloc();
    let large = |side| Query::Heavy { side, at_least: 4 };
    let (status, sides) = told(alloc, large(Side::First), large(Side::Second))?;
    let (other, none) = told(alloc, large(Side::First), SQUARES)?;
    let facts = [
        status == Status::Accepted,
        !sides.first,
        sides.second,
        other == Status::Accepted,
        none == Negatives::default(),
    ];
    expect(&rt, "a panel tells of credits", &facts);
    Ok(())
}
