// The queries of a run, asked one after another over a link in memory.
ghost use Rattle.std.specs.Prelude.{◌≡◌, ◌≤◌, IfOk, false, is_err};

use crate::session_facts::expect;
use sip_check_tests::events::events;
use sip_field::{Field, M61};
use sip_ports::{MemoryLink, MemorySink, TalkEvent};
use sip_vector::{Depth, Entry, Query, Side, Update};
use sip_verifier::{Seats, Session, SessionFault, Verdict};
use sip_wire::Version;
use std::alloc::Global;
use std::process::Abort;
use std::test::Fail;

fn update(side: Side, item: u64, delta: i64) -> Update
    ensures { result.item ≡ item }
{
    Update { side, item, delta }
}

// Asks the next query.
fn ask(
    alloc: Global,
    session: &mut Session,
    peer: &mut MemoryLink,
) -> Result<Result<Verdict, SessionFault>, Fail>
    requires { session.old.spent ≡ false }
    ensures { IfOk result (λ verdict. session.new.spent ≡ is_err verdict) }
{
    let mut keep = MemorySink::new(alloc, 1, Vec::new(alloc));
    if session.left() == 0 {
        return Err("a query is left")?;
    }
    Ok(session.ask(peer, &mut keep))
}

// A session that asks for the entries 1 to 2 of (3, 0, 5, 1) twice, both times at the challenges
// (2, 10).
fn pairs(alloc: Global) -> Result<Session, Fail>
    ensures { IfOk result (λ s. s.spent ≡ false) }
{
    let depth = Depth::new(2).ok_or("a depth")?;
    let queries = [Query::Sub { lo: 1, hi: 2 }, Query::Sub { lo: 1, hi: 2 }];
    let challenges = [M61::of(2), M61::of(10), M61::of(2), M61::of(10)];
    let mut seats = Seats::given(depth, &queries, &challenges);
    seats.update_all(&[
        update(Side::First, 0, 3),
        update(Side::First, 2, 5),
        update(Side::First, 3, 1),
    ]);
    let version = Version::needed(depth, &queries);
    Ok(Session::new(alloc, version, seats).ok().ok_or("a session")?)
}

// The honest replies: the entry (2, 5) with both siblings, and then no siblings.
const HONEST: [u8; 41] = [
    0x13, 0, 0x0e, 0, 1, 0, 0, 0, 2, 0, 0, 0, 0, 0, 0, 0, 5, 0x14, 0, 0x11, 3, 0, 0, 0, 0, 0, 0, 0,
    3, 0, 0, 0, 0, 0, 0, 0, 1, 0x14, 0, 1, 0,
];

// What is said where the query is asked and answered.
fn talk(rt: &impl Abort, alloc: Global) -> Vec<TalkEvent> {
    let parts = [
        (true, [4, 0, 9, 1, 0, 0, 0, 1, 0, 0, 0, 2].as_slice()),
        (false, &HONEST[..37]),
        (true, [5, 0, 8, 0, 0, 0, 0, 0, 0, 0, 2].as_slice()),
        (false, &HONEST[37..]),
    ];
    events(alloc, &parts).expect(rt, "memory")
}

// Asks the next query, which is answered by pairs.
fn ask_pairs(alloc: Global, session: &mut Session, peer: &mut MemoryLink) -> Result<(), Fail>
    requires { session.old.spent ≡ false }
    ensures { IfOk result (λ _. session.new.spent ≡ false) }
{
    let Ok(Verdict::Pairs) = ask(alloc, session, peer)? else {
        return Err("pairs")?;
    };
    Ok(())
}

// Whether a session has found the entry, and so many queries are left.
fn has_found(session: &Session, left: usize) -> [bool; 2] {
    let entries = [Entry { index: 2, value: 5 }];
    [
        session.entries() == entries.as_slice(),
        session.left() == left,
    ]
}

fn answers_pairs(rt: &impl Abort, alloc: Global, chunk: usize) -> Result<(), Fail>
    requires { 1 ≤ chunk }
{
    let mut session = pairs(alloc)?;
    let new = [session.left() == 2, session.entries().is_empty()];
    expect(rt, "no query for pairs", &new);
    let once = talk(rt, alloc);
    let replies = [HONEST, HONEST].concat(alloc).expect(rt, "memory");
    let mut peer = MemoryLink::new(alloc, replies, chunk, Vec::new(alloc));
    ask_pairs(alloc, &mut session, &mut peer)?;
    expect(rt, "one query for pairs", &has_found(&session, 1));
    expect(rt, "its talk", &[peer.talk() == once.as_slice()]);
    ask_pairs(alloc, &mut session, &mut peer)?;
    expect(rt, "two queries for pairs", &has_found(&session, 0));
    let (first, second) = (peer.talk().get(..once.len()), peer.talk().get(once.len()..));
    let twice = [
        first == Some(once.as_slice()),
        second == Some(once.as_slice()),
    ];
    expect(rt, "their talk", &twice);
    Ok(())
}

#[test]
fn two_queries_are_answered_one_after_another(rt: HostRuntime) -> Result<(), Fail> {
    answers_pairs(&rt, rt.alloc(), 1)?;
    answers_pairs(&rt, rt.alloc(), 10_000)
}

// A claim with two round polynomials, for depth 2.
type Sum = (i64, [u64; 3], [u64; 3]);

// The modulus.
const P: u64 = 2_305_843_009_213_693_951;

// The honest replies about (3, 0, 5, 1) and (2, 7, 1, 0) at the challenges (2, 10): for the squares
// of the first, the products, and the entries 1 to 3 of the first.
const SQUARES: Sum = (35, [34, P - 58, 25], [9, 0, 0]);

const PRODUCTS: Sum = (11, [11, 0, P - 11], [P - 36, 39, 0]);

const ENTRIES: Sum = (6, [5, P - 1, P - 3], [P - 6, 3, 0]);

// A session that asks for these three sums.
fn sums(alloc: Global) -> Result<Session, Fail>
    ensures { IfOk result (λ s. s.spent ≡ false) }
{
    let depth = Depth::new(2).ok_or("a depth")?;
    let range = Query::Range {
        side: Side::First,
        lo: 1,
        hi: 3,
    };
    let queries = [Query::F2 { side: Side::First }, Query::Inner, range];
    let (two, ten) = (M61::of(2), M61::of(10));
    let mut seats = Seats::given(depth, &queries, &[two, ten, two, ten, two, ten]);
    seats.update_all(&[
        update(Side::First, 0, 3),
        update(Side::First, 2, 5),
        update(Side::First, 3, 1),
        update(Side::Second, 0, 2),
        update(Side::Second, 1, 7),
        update(Side::Second, 2, 1),
    ]);
    let version = Version::needed(depth, &queries);
    Ok(Session::new(alloc, version, seats).ok().ok_or("a session")?)
}

// The replies that state a sum.
fn replies_of(rt: &impl Abort, alloc: Global, sum: &Sum) -> Vec<u8> {
    let mut replies = [0x11, 0, 8].to_vec(alloc).expect(rt, "memory");
    let claim = sum.0.to_be_bytes();
    replies.extend_from_slice(&claim).expect(rt, "memory");
    for polynomial in [sum.1, sum.2] {
        let head = [0x12, 0, 24];
        replies.extend_from_slice(&head).expect(rt, "memory");
        for coefficient in polynomial {
            let number = coefficient.to_be_bytes();
            replies.extend_from_slice(&number).expect(rt, "memory");
        }
    }
    replies
}

// Asks the next query, whose replies state this sum, and gives the number that is answered.
fn ask_sum(rt: &impl Abort, alloc: Global, session: &mut Session, sum: &Sum) -> Result<i64, Fail>
    requires { session.old.spent ≡ false }
    ensures { IfOk result (λ _. session.new.spent ≡ false) }
{
    let replies = replies_of(rt, alloc, sum);
    let mut peer = MemoryLink::new(alloc, replies, 10_000, Vec::new(alloc));
    let Ok(Verdict::Number(value)) = ask(alloc, session, &mut peer)? else {
        return Err("a number")?;
    };
    Ok(value)
}

#[test]
fn sums_are_numbers(rt: HostRuntime) -> Result<(), Fail> {
    let alloc = rt.alloc();
    let mut session = sums(alloc)?;
    let sums = [
        ask_sum(&rt, alloc, &mut session, &SQUARES)?,
        ask_sum(&rt, alloc, &mut session, &PRODUCTS)?,
        ask_sum(&rt, alloc, &mut session, &ENTRIES)?,
    ];
    let facts = [
        sums == [35, 11, 6],
        session.entries().is_empty(),
        session.left() == 0,
    ];
    expect(&rt, "three sums", &facts);
    Ok(())
}
