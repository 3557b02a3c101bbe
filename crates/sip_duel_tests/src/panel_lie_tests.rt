// Two helpers, of which the first one lies. The seed is one of zeros: its first word of ChaCha20 is
// 76 b8 e0 ad a0 f1 3d 90, the lowest byte first, and without its three lowest bits it is the
// challenge 1299216148431902478 of the first seat.
//
// The vector is (3, 5), and it is asked for the entry of item 0. With the challenge r the root is
// 3 + 5r, and 4 + sr for the lie that the entry is 4, with s beside it. So the lie passes by
// s = 5 - 1/r modulo 2^61 - 1, which is 1360925871015957840, and by no other of less than 2^61 - 1.
ghost use Rattle.std.specs.Prelude.{◌≡◌, [], All, IfOk, length};
ghost use Rattle.sip_verifier.specs.Tasks.{CanBeDone};

use crate::duel_runs::task;
use crate::facts::expect;
use crate::panel_tests::run_over;
use sip_duel::{Helper, HelperLink, Honest, Liar, Lie};
use sip_ports::{MemorySink, MemorySource};
use sip_stream::Form;
use sip_vector::Query;
use sip_verifier::{Status, Task};
use std::alloc::Global;
use std::test::Fail;

// The entry (0, 4), and that right neighbour.
const REPLY: [u8; 29] = [
    0x13, 0, 0x0e, 0, 1, 0, 0, 0, 0, 0, 0, 0, 0, 0, 0, 0, 4, 0x14, 0, 9, 2, 0x12, 0xe2, 0xfa, 0xde,
    0x83, 0x8b, 0x95, 0x50,
];

const ENTRY_0: Query = Query::Sub { lo: 0, hi: 0 };

fn link(alloc: Global, helper: Box<dyn Helper>) -> Result<HelperLink, Fail>
    ensures { IfOk result (λ l. l.kept.talk.items ≡ []) }
{
    Ok(HelperLink::new(alloc, helper).ok().ok_or("a link")?)
}

// A liar whose only lie is that reply to its first query, and an honest helper.
fn links(alloc: Global) -> Result<Vec<HelperLink>, Fail>
    ensures new { IfOk result (λ links. All (λ l. l.kept.talk.items ≡ []) links.items) }
    ensures count { IfOk result (λ links. length links.items ≡ 2) }
{
    let mut table = Vec::new(alloc);
    table.push(Lie::new(1, Vec::new(alloc), REPLY.to_vec(alloc)?))?;
    let mut links = Vec::new(alloc);
    links.push(link(alloc, Box::new(alloc, Liar::new(table))?)?)?;
    links.push(link(alloc, Box::new(alloc, Honest::new(alloc))?)?)?;
    Ok(links)
}

// Runs the task over these links, over a seed of 32 such bytes.
fn run(
    alloc: Global,
    task: &Task,
    links: &mut Vec<HelperLink>,
    byte: u8,
) -> Result<(Status, MemorySink), Fail>
    requires done { CanBeDone task.now }
    requires one { length task.now.queries.items ≡ 1 }
    requires new { All (λ l. l.kept.talk.items ≡ []) links.old.items }
    requires helpers { length links.old.items ≡ 2 }
{
    let first = MemorySource::new(b"0 0 3\n0 1 5\n".to_vec(alloc)?, 5, Vec::new(alloc));
    let second = MemorySource::new(vec![in alloc; byte; 32]?, 5, Vec::new(alloc));
    let report = MemorySink::new(alloc, 10_000, Vec::new(alloc));
    Ok(run_over(alloc, task, links, first, second, report))
}

// How a run over a seed of 32 such bytes ends, and whether it reports these lines.
fn comes_to(alloc: Global, byte: u8, lines: &str) -> Result<(Status, bool), Fail> {
    let task = task(1, Form::Text, &[ENTRY_0])?;
    if task.queries.len() != 1 {
        return Err("one query")?;
    }
    let mut links = links(alloc)?;
    let (status, report) = run(alloc, &task, &mut links, byte)?;
    Ok((status, report.bytes() == lines.as_bytes()))
}

// The lie is written, and the liar is not dropped: this challenge is one of those that are counted.
// Over any other it is dropped, and the honest helper is asked.
#[test]
fn a_lie_passes_at_the_challenge_that_is_counted(rt: HostRuntime) -> Result<(), Fail> {
    let alloc = rt.alloc();
    let (lucky, lies) = comes_to(alloc, 0, "sub:0:0 0:4\n")?;
    let dropped = "dropped helper 1 query 1 round 1 Root\nsub:0:0 0:3\n";
    let (other, tells) = comes_to(alloc, 1, dropped)?;
    let facts = [
        lucky == Status::Accepted,
        lies,
        other == Status::Accepted,
        tells,
    ];
    expect(&rt, "a seed of zeros, and another", &facts);
    Ok(())
}
