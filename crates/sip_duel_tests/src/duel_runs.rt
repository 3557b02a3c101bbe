// Runs of `play` in memory.
ghost use Rattle.std.specs.Prelude.{IfOk};
ghost use Rattle.sip_verifier.specs.Tasks.{CanBeDone};

use arrayvec::ArrayVec;
use sip_duel::{Helper, HelperLink, play};
use sip_ports::{MemorySink, MemorySource, NullSink, Source};
use sip_stream::Form;
use sip_vector::{Depth, Negatives, Query};
use sip_verifier::{Status, Task};
use std::alloc::Global;
use std::test::Fail;

// What a run is given besides its helper: the stream, the number of the seed's bytes, and the calls
// of the stream, of the seed and of the report that are to fail, from 1.
#[derive(Clone, Copy)]
pub(crate) struct Ports<'a> {
    pub(crate) stream: &'a [u8],
    pub(crate) seed: usize,
    pub(crate) first_fails: &'a [u64],
    pub(crate) second_fails: &'a [u64],
    pub(crate) report_fails: &'a [u64],
}

// The vector (3, 0, 5, 1) on the first side, over ports that do not fail, and a seed that is long
// enough.
pub(crate) const FOUR: Ports<'static> = Ports {
    stream: b"0 0 3\n0 2 5\n0 3 1\n",
    seed: 32,
    first_fails: &[],
    second_fails: &[],
    report_fails: &[],
};

// The task that asks these queries of a stream over 2^depth items.
pub(crate) fn task(depth: u8, form: Form, queries: &[Query]) -> Result<Task, Fail>
    ensures { IfOk result CanBeDone }
{
    let depth = Depth::new(depth).ok_or("a depth")?;
    let mut list = ArrayVec::new();
    for query in queries {
        if !query.is_built() || !query.fits(depth) || list.try_push(*query).is_err() {
            return Err("a query that fits")?;
        }
    }
    if list.is_empty() {
        return Err("a query")?;
    }
    Ok(Task {
        depth,
        form,
        queries: list,
    })
}

// Runs a task against this helper, over this stream and a seed of zeros: how it ends, and what it
// reports.
pub(crate) fn run_over<A: Source>(
    alloc: Global,
    task: &Task,
    helper: Box<dyn Helper>,
    first: &mut A,
    ports: Ports,
) -> Result<(Status, MemorySink), Fail>
    requires { CanBeDone task.now }
{
    let zeros = vec![in alloc; 0; ports.seed]?;
    let mut second = MemorySource::new(zeros, 5, ports.second_fails.to_vec(alloc)?);
    let mut report = MemorySink::new(alloc, 10_000, ports.report_fails.to_vec(alloc)?);
    let mut link = HelperLink::new(alloc, helper).ok().ok_or("a link")?;
    let status = play(
        alloc,
        task,
        first,
        &mut second,
        &mut link,
        &mut report,
        &mut NullSink::new(),
        &mut Negatives::default(),
    );
    Ok((status, report))
}

// Runs a task against this helper, over these ports.
pub(crate) fn run(
    alloc: Global,
    task: &Task,
    helper: Box<dyn Helper>,
    ports: Ports,
) -> Result<(Status, MemorySink), Fail>
    requires { CanBeDone task.now }
{
    let fails = ports.first_fails.to_vec(alloc)?;
    let mut first = MemorySource::new(ports.stream.to_vec(alloc)?, 5, fails);
    run_over(alloc, task, helper, &mut first, ports)
}
