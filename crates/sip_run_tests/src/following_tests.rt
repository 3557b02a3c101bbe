// The stream of a run in pieces of many sizes: the bytes are those of a talk that was worked out by
// hand, and the seat has the root of the vector.
use crate::facts::expect;
use crate::passing::{begun, followed, pass};
use sip_ports::MemorySink;
use sip_questions::Question;
use sip_runs::{BadUpdate, Following, RunStart};
use sip_stream::Why;
use sip_vector::{Depth, Query, Side, Update};
use sip_verifier::Running;
use std::alloc::Global;
use std::test::Fail;

// The opening of a talk over four items, the vector (3, 0, 5, 1) and its end; and a Bye.
const STREAM: [u8; 52] = [
    1, 0, 2, 1, 2, 2, 0, 41, 0, 3, 0, 0, 0, 0, 0, 0, 0, 0, 0, 0, 0, 0, 3, 0, 0, 0, 0, 2, 0, 0, 0,
    0, 0, 0, 0, 5, 0, 0, 0, 0, 3, 0, 0, 0, 0, 0, 0, 0, 1, 3, 0, 0,
];

const BYE: [u8; 3] = [6, 0, 0];

fn update(item: u64, delta: i64) -> Update {
    Update {
        side: Side::First,
        item,
        delta,
    }
}

const UPDATES: [Update; 3] = [
    Update {
        side: Side::First,
        item: 0,
        delta: 3,
    },
    Update {
        side: Side::First,
        item: 2,
        delta: 5,
    },
    Update {
        side: Side::First,
        item: 3,
        delta: 1,
    },
];

// Whether a run over these pieces says the worked bytes, and has the worked root for its question.
fn is_worked(alloc: Global, pieces: &[&[Update]]) -> Result<[bool; 4], Fail> {
    let mut out = MemorySink::new(alloc, 100, Vec::new(alloc));
    let Some(mut to_ask) = followed(alloc, pieces, &mut out)? else {
        return Ok([false; 4]);
    };
    let head = out.bytes() == STREAM.as_slice();
    let root = match to_ask.next() {
        Some(seat) => match seat.into_running() {
            Running::Root(root) => root.value == 73,
            _ => false,
        },
        None => false,
    };
    let last = to_ask.next().is_none();
    to_ask.say_farewell(&mut out)?;
    Ok([head, root, last, out.bytes().ends_with(&BYE)])
}

#[test]
fn a_stream_is_said_the_same_in_any_pieces(rt: HostRuntime) -> Result<(), Fail> {
    let alloc = rt.alloc();
    let [one, two, three] = UPDATES;
    expect(
        &rt,
        "pieces of 1",
        &is_worked(alloc, &[&[one], &[two], &[three]])?,
    );
    expect(
        &rt,
        "pieces of 2",
        &is_worked(alloc, &[&[one, two], &[three]])?,
    );
    expect(&rt, "all at once", &is_worked(alloc, &[&UPDATES])?);
    Ok(())
}

// What a run says of 1,100 updates in these pieces: an opening, two full frames of 6,661 bytes, one
// of 76 updates, and the end.
#[test]
fn a_frame_is_cut_where_it_is_full(rt: HostRuntime) -> Result<(), Fail> {
    let alloc = rt.alloc();
    let stream = [update(2, 1); 1100];
    let mut all = MemorySink::new(alloc, 10_000, Vec::new(alloc));
    let mut cut = MemorySink::new(alloc, 10_000, Vec::new(alloc));
    let one = followed(alloc, &[&stream], &mut all)?;
    let many = followed(
        alloc,
        &[&stream[..1], &stream[1..700], &stream[700..]],
        &mut cut,
    )?;
    expect(
        &rt,
        "frames",
        &[
            one.is_some(),
            many.is_some(),
            all.bytes().len() == 5 + 2 * 6661 + 5 + 13 * 76 + 3,
            all.bytes() == cut.bytes(),
        ],
    );
    Ok(())
}

#[test]
fn what_does_not_fit_is_named(rt: HostRuntime) -> Result<(), Fail> {
    let alloc = rt.alloc();
    let mut out = MemorySink::new(alloc, 100, Vec::new(alloc));
    let mut following = begun(alloc)?;
    pass(&mut following, &UPDATES[..2], &mut out)?;
    let bad = following.feed(&[update(3, 1), update(4, 1)]);
    let wide = [
        Question::Query(Query::Sub { lo: 1, hi: 2 }),
        Question::Query(Query::Sub { lo: 1, hi: 4 }),
    ];
    let depth = Depth::new(2).unwrap();
    expect(
        &rt,
        "refusals",
        &[
            bad == Err(BadUpdate {
                at: 3,
                why: Why::BadItem,
            }),
            matches!(
                Following::begin(alloc, depth, &[], &[0; 32]),
                Err(RunStart::Count)
            ),
            matches!(
                Following::begin(alloc, depth, &wide, &[0; 32]),
                Err(RunStart::Unfit(2))
            ),
            Following::begin(alloc, depth, &wide[..1], &[0; 32]).is_ok(),
        ],
    );
    Ok(())
}
