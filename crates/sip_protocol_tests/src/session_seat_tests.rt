// What a verifier keeps of a stream, as far as a transcript shows it.
ghost use Rattle.std.specs.Prelude.{ℕ, List, [], ◌∷◌, IfOk};
ghost use Rattle.sip_vector.specs.declared.query.Query.TheVariants as queries;
ghost use Rattle.sip_verifier.specs.Seats.{AreSeats};

use crate::session_facts::expect;
use sip_field::{Field, M61, draw_challenges};
use sip_ports::{MemorySink, PortStop};
use sip_vector::{Depth, Query, Side, Update};
use sip_verifier::Seats;
use std::test::Fail;

// Two queries at depth 2, at the challenges (2, 10) and (3, 5).
fn two_seats() -> Result<Seats, Fail>
    ensures { IfOk result (λ seats. (blocks : List (List ℕ))
        × AreSeats 2 (queries.Sub 0 3 ∷ queries.Sub 1 2 ∷ []) blocks [] seats) }
{
    let depth = Depth::new(2).ok_or("a depth")?;
    let queries = [Query::Sub { lo: 0, hi: 3 }, Query::Sub { lo: 1, hi: 2 }];
    let challenges = [M61::of(2), M61::of(10), M61::of(3), M61::of(5)];
    Ok(Seats::given(depth, &queries, &challenges))
}

const HEAD: [u8; 63] = [
    b'S', b'I', b'P', b'T', 1, 2, 2, //
    4, 0, 9, 1, 0, 0, 0, 0, 0, 0, 0, 3, //
    0, 0, 0, 0, 0, 0, 0, 2, 0, 0, 0, 0, 0, 0, 0, 10, //
    4, 0, 9, 1, 0, 0, 0, 1, 0, 0, 0, 2, //
    0, 0, 0, 0, 0, 0, 0, 3, 0, 0, 0, 0, 0, 0, 0, 5,
];

// It is the same behind an update. Where the third write fails the second query does not come.
#[test]
fn the_head_of_a_transcript_by_hand(rt: HostRuntime) -> Result<(), Fail> {
    let alloc = rt.alloc();
    let mut seats = two_seats()?;
    let mut sink = MemorySink::new(alloc, 1000, Vec::new(alloc));
    let mut failing = MemorySink::new(alloc, 1000, vec![in alloc; 3]?);
    let put = seats.put_transcript_head(&mut sink);
    seats.update(&Update {
        side: Side::First,
        item: 3,
        delta: 1,
    });
    let facts = [
        put == Ok(()),
        sink.bytes() == HEAD.as_slice(),
        seats.put_transcript_head(&mut failing) == Err(PortStop::Failed),
        failing.bytes() == &HEAD[..35],
    ];
    expect(&rt, "two queries", &facts);
    Ok(())
}

// The head of a transcript has them behind each query's frame.
#[test]
fn a_seed_gives_each_query_its_own_challenges(rt: HostRuntime) -> Result<(), Fail> {
    let alloc = rt.alloc();
    let depth = Depth::new(3).ok_or("a depth")?;
    let queries = [Query::Sub { lo: 0, hi: 7 }, Query::Sub { lo: 5, hi: 5 }];
    let seats = Seats::draw(&[0; 32], depth, &queries)?;
    let mut sink = MemorySink::new(alloc, 1000, Vec::new(alloc));
    seats.put_transcript_head(&mut sink)?;
    let mut want = b"SIPT".to_vec(alloc)?;
    want.extend_from_slice(&[1, 3, 2, 4, 0, 9, 1, 0, 0, 0, 0, 0, 0, 0, 7])?;
    for (index, challenge) in draw_challenges::<6>([0; 32], 6)?.iter().enumerate() {
        if index == 3 {
            want.extend_from_slice(&[4, 0, 9, 1, 0, 0, 0, 5, 0, 0, 0, 5])?;
        }
        want.extend_from_slice(&challenge.number().to_be_bytes())?;
    }
    expect(&rt, "a seed of zeros", &[sink.bytes() == want.as_slice()]);
    Ok(())
}
