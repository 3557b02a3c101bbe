// The talk of one moment, over replies that were worked out apart from the program.
use crate::facts::expect;
use sip_check_tests::events::{happened, ports_of};
use sip_field::{Field, M61, Seat};
use sip_moments::{Moment, MomentAsking};
use sip_ports::{MemoryLink, MemorySink};
use sip_replies::{AskStop, Said, ask};
use sip_vector::Side;
use sip_wire::{Frame, Reason, Version};
use std::alloc::Global;
use std::process::Abort;
use std::test::Fail;

// Side 0, degree 3.
const ASK: [u8; 5] = [0x24, 0, 2, 0, 3];

const CLAIM: [u8; 11] = [0x11, 0, 8, 0, 0, 0, 0, 0, 0, 0, 153];

const FALSE_CLAIM: [u8; 11] = [0x11, 0, 8, 0, 0, 0, 0, 0, 0, 0, 154];

// 152 - 381x + 321x^2 - 91x^3.
const FIRST: [u8; 35] = [
    0x25, 0, 32, 0, 0, 0, 0, 0, 0, 0, 152, 0x1f, 0xff, 0xff, 0xff, 0xff, 0xff, 0xfe, 0x82, 0, 0, 0,
    0, 0, 0, 1, 0x41, 0x1f, 0xff, 0xff, 0xff, 0xff, 0xff, 0xff, 0xa4,
];

// The challenge 2.
const REVEAL: [u8; 11] = [5, 0, 8, 0, 0, 0, 0, 0, 0, 0, 2];

// -27.
const SECOND: [u8; 35] = [
    0x25, 0, 32, 0x1f, 0xff, 0xff, 0xff, 0xff, 0xff, 0xff, 0xe4, 0, 0, 0, 0, 0, 0, 0, 0, 0, 0, 0,
    0, 0, 0, 0, 0, 0, 0, 0, 0, 0, 0, 0, 0,
];

// -28 + 2x, which adds up to -54 too, but is -8 at 10.
const FALSE_SECOND: [u8; 35] = [
    0x25, 0, 32, 0x1f, 0xff, 0xff, 0xff, 0xff, 0xff, 0xff, 0xe3, 0, 0, 0, 0, 0, 0, 0, 2, 0, 0, 0,
    0, 0, 0, 0, 0, 0, 0, 0, 0, 0, 0, 0, 0,
];

// The head of a polynomial of degree 2, as a sum has it, and as a moment of that degree would.
const POLY: [u8; 3] = [0x12, 0, 24];

const SHORT: [u8; 3] = [0x25, 0, 24];

const REFUSAL: [u8; 4] = [0x18, 0, 1, 1];

// What the link gives, what is said, what happened on the link, and what was kept.
struct Row {
    incoming: &'static [&'static [u8]],
    said: Result<Said, AskStop>,
    talk: &'static [(bool, &'static [u8])],
    kept: &'static [&'static [u8]],
}

// The third moment of (3, 0, 5, 1) at the challenges 2 and 10, where its extension is -3.
const ROWS: &[Row] = &[
    Row {
        incoming: &[&CLAIM, &FIRST, &SECOND],
        said: Ok(Said::Number(153)),
        talk: &[
            (true, &ASK),
            (false, &CLAIM),
            (false, &FIRST),
            (true, &REVEAL),
            (false, &SECOND),
        ],
        kept: &[&CLAIM, &FIRST, &SECOND],
    },
    Row {
        incoming: &[&FALSE_CLAIM, &FIRST, &SECOND],
        said: Err(AskStop::Rejected {
            round: 0,
            reason: Reason::Sum,
        }),
        talk: &[(true, &ASK), (false, &FALSE_CLAIM), (false, &FIRST)],
        kept: &[&FALSE_CLAIM, &FIRST],
    },
    Row {
        incoming: &[&CLAIM, &FIRST, &FALSE_SECOND],
        said: Err(AskStop::Rejected {
            round: 2,
            reason: Reason::Root,
        }),
        talk: &[
            (true, &ASK),
            (false, &CLAIM),
            (false, &FIRST),
            (true, &REVEAL),
            (false, &FALSE_SECOND),
        ],
        kept: &[&CLAIM, &FIRST, &FALSE_SECOND],
    },
    Row {
        incoming: &[&CLAIM, &POLY],
        said: Err(AskStop::Rejected {
            round: 0,
            reason: Reason::BadKind,
        }),
        talk: &[(true, &ASK), (false, &CLAIM), (false, &POLY)],
        kept: &[&CLAIM, &POLY],
    },
    Row {
        incoming: &[&CLAIM, &SHORT],
        said: Err(AskStop::Rejected {
            round: 0,
            reason: Reason::BadLength,
        }),
        talk: &[(true, &ASK), (false, &CLAIM), (false, &SHORT)],
        kept: &[&CLAIM, &SHORT],
    },
    Row {
        incoming: &[&CLAIM, &REFUSAL],
        said: Err(AskStop::Rejected {
            round: 0,
            reason: Reason::Refused(1),
        }),
        talk: &[(true, &ASK), (false, &CLAIM), (false, &REFUSAL)],
        kept: &[&CLAIM, &REFUSAL],
    },
];

// Asks for that moment over a link that gives these bytes: the answer, what happened on the link,
// and what was kept.
fn asked_of(
    alloc: Global,
    incoming: &[u8],
) -> Result<(Result<Said, AskStop>, MemoryLink, MemorySink), Fail> {
    let seat = Seat::of(&[M61::of(2), M61::of(10)]).unwrap();
    let mut check = MomentAsking::start(3, &seat, M61::of_signed(-3));
    let (mut link, mut keep) = ports_of(alloc, incoming)?;
    let mut frame = Frame::new(alloc)?;
    let said = ask(
        &mut check,
        Version::One,
        &Moment {
            side: Side::First,
            degree: 3,
        },
        &mut [],
        &mut frame,
        &mut link,
        &mut keep,
    );
    Ok((said, link, keep))
}

fn check_row(rt: &impl Abort, alloc: Global, number: usize, row: &Row) -> Result<(), Fail> {
    let incoming = row.incoming.concat(alloc).expect(rt, "memory");
    let (said, link, keep) = asked_of(alloc, &incoming)?;
    let [talk, kept] = happened(alloc, (&link, row.talk), (&keep, row.kept)).expect(rt, "memory");
    expect(rt, number, &[said == row.said, talk, kept]);
    Ok(())
}

#[test]
fn moments_are_asked_for(rt: HostRuntime) -> Result<(), Fail> {
    for (number, row) in ROWS.iter().enumerate() {
        check_row(&rt, rt.alloc(), number, row)?;
    }
    Ok(())
}
