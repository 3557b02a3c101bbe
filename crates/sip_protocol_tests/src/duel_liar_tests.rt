// A liar that is lucky at one challenge.
ghost use Rattle.std.specs.Prelude.{◌≡◌, IfOk, false};

use crate::session_facts::expect;
use sip_duel::{Helper, HelperLink, Liar, Lie};
use sip_field::{Field, M61};
use sip_ports::NullSink;
use sip_vector::{Depth, Entry, Query, Side, Update};
use sip_verifier::{Seats, Session, SessionFault, Verdict};
use sip_wire::{Reason, Version};
use std::alloc::Global;
use std::test::Fail;

// The entry (0, 4), and its right neighbour 4.
const REPLY: [u8; 29] = [
    0x13, 0, 0x0e, 0, 1, 0, 0, 0, 0, 0, 0, 0, 0, 0, 0, 0, 4, 0x14, 0, 9, 2, 0, 0, 0, 0, 0, 0, 0, 4,
];

fn raised(item: u64, delta: i64) -> Update
    ensures { result.item ≡ item }
{
    Update {
        side: Side::First,
        item,
        delta,
    }
}

// A session that asks for the entry 0 of (3, 5) at this challenge.
fn session(alloc: Global, challenge: u64) -> Result<Session, Fail>
    ensures { IfOk result (λ s. s.spent ≡ false) }
{
    let depth = Depth::new(1).ok_or("a depth")?;
    let queries = [Query::Sub { lo: 0, hi: 0 }];
    let mut seats = Seats::given(depth, &queries, &[M61::of(challenge)]);
    seats.update_all(&[raised(0, 3), raised(1, 5)]);
    let version = Version::needed(depth, &queries);
    Ok(Session::new(alloc, version, seats).ok().ok_or("a session")?)
}

// What the session finds of a liar whose only lie is that reply to its first query.
fn ask(alloc: Global, session: &mut Session) -> Result<Result<Verdict, SessionFault>, Fail>
    requires { session.old.spent ≡ false }
{
    let mut table = Vec::new(alloc);
    table.push(Lie::new(1, Vec::new(alloc), REPLY.to_vec(alloc)?))?;
    let liar: Box<dyn Helper> = Box::new(alloc, Liar::new(table))?;
    let mut link = HelperLink::new(alloc, liar).ok().ok_or("a link")?;
    if session.left() == 0 {
        return Err("a query is left")?;
    }
    Ok(session.ask(&mut link, &mut NullSink::new()))
}

// At the challenge 1 the root of (4, 4) is that of (3, 5): 4 + 4 and 3 + 5 are 8. At 2 they are 12
// and 13.
#[test]
fn a_lie_passes_at_one_challenge(rt: HostRuntime) -> Result<(), Fail> {
    let alloc = rt.alloc();
    let mut lucky = session(alloc, 1)?;
    let mut other = session(alloc, 2)?;
    let rejected = Verdict::Rejected {
        round: 1,
        reason: Reason::Root,
    };
    let facts = [
        ask(alloc, &mut lucky)? == Ok(Verdict::Pairs),
        lucky.entries() == [Entry { index: 0, value: 4 }].as_slice(),
        ask(alloc, &mut other)? == Ok(rejected),
        other.entries().is_empty(),
    ];
    expect(&rt, "the challenges 1 and 2", &facts);
    Ok(())
}
