//! A check with a number and a test in each round: a sum, by a claim and a polynomial for each
//! challenge.

ghost use Rattle.std.specs.Prelude.{◌≡◌, ◌≢◌, ◌≤◌, ◌+◌, ◌-◌, ◌*◌, ◌%◌, ◌<◌, ℕ, ℤ, List, Ok, Err};
ghost use Rattle.std.specs.Prelude.{None, length, slice_index, is_none, IfOk, IsTrue};
ghost use Rattle.std.specs.Prelude.{if◌then◌else◌};
ghost use Rattle.sip_field.specs.Elements.{m61_number};
ghost use Rattle.sip_replies.specs.Protocols.{Begins};
ghost use Rattle.sip_check_tests.specs.SumToy.{value_of, sum_of_ends, SumStands, sum_rules};

use crate::events::{happened, ports_of};
use crate::facts::expect;
use sip_field::{Field, M61, Seat};
use sip_ports::{MemoryLink, MemorySink};
use sip_replies::{AskStop, Check, More, Said, ask};
use sip_vector::{CAP, Entry, Query, Side};
use sip_wire::{Frame, Message, Place, Reason, Version};
use std::alloc::Global;
use std::process::Abort;
use std::test::Fail;

// The check of a sum: the claim, the last polynomial and what the next one has to sum to.
#[derive(Drop)]
struct SumCheck<'a> {
    seat: &'a Seat<M61, CAP>,
    value: u64,
    claim: Option<i64>,
    expected: M61,
    c0: M61,
    c1: M61,
    c2: M61,
    taken: usize,
    revealed: usize,
}

// The value of a polynomial of three coefficients.
fn value_at(c0: M61, c1: M61, c2: M61, r: M61) -> M61
    ensures { m61_number result
        ≡ value_of (m61_number c0) (m61_number c1) (m61_number c2) (m61_number r) }
{
    let top = c1.plus(c2.times(r));
    c0.plus(top.times(r))
}

// The sum of its values at 0 and 1.
fn sum_of(c0: M61, c1: M61, c2: M61) -> M61
    ensures { m61_number result ≡ sum_of_ends (m61_number c0) (m61_number c1) (m61_number c2) }
{
    c0.plus(c0).plus(c1).plus(c2)
}

impl<'a> SumCheck<'a> {
    // A check that the last polynomial has this value at the last challenge.
    fn start(seat: &'a Seat<M61, CAP>, value: u64) -> SumCheck<'a>
        ensures stands { SumStands (record { value = value }) sum_rules.start result.value
            result.claim (m61_number result.expected) (m61_number result.c0) (m61_number result.c1)
            (m61_number result.c2) }
        ensures seat { result.seat.now ≡ seat.now }
        ensures taken { result.taken ≡ 0 }
        ensures revealed { result.revealed ≡ 0 }
    {
        let zero = M61::of(0);
        SumCheck {
            seat,
            value,
            claim: None,
            expected: zero,
            c0: zero,
            c1: zero,
            c2: zero,
            taken: 0,
            revealed: 0,
        }
    }
}

impl<'a> Check for SumCheck<'a> {
    ghost use Rattle.sip_check_tests.specs.SumToy.{SumAsked, SumState, sum_protocol, SumStands};
    ghost use Rattle.sip_check_tests.specs.SumToy.{sum_ends, sum_tests};

    ghost Asked = { SumAsked };

    ghost State = { SumState };

    ghost protocol = { sum_protocol };

    ghost phase = { λ c. record { block = c.seat.now; taken = c.taken; revealed = c.revealed } };

    ghost room = { λ c. if is_none c.claim then 1 else 0 };

    ghost lent = { λ c. 0 };

    ghost stands = { λ asked s c places. SumStands asked s c.value c.claim
        (m61_number c.expected) (m61_number c.c0) (m61_number c.c1) (m61_number c.c2) };

    fn depth(&self) -> usize {
        self.seat.depth()
    }

    fn unasked(&self) -> Option<Said> {
        None
    }

    fn place(&self) -> Place {
        if self.claim.is_some() {
            Place::Poly
        } else {
            Place::Claim
        }
    }

    fn take(&mut self, message: &Message, _places: &mut [Entry]) -> Result<More, Reason> {
        match message {
            Message::Claim { value } if self.claim.is_none() => {
                self.claim = Some(*value);
                self.expected = M61::of_signed(*value);
                Ok(More::Due)
            }
            Message::Poly { c0, c1, c2 } if self.claim.is_some() => {
                let c0 = M61::of(*c0);
                let c1 = M61::of(*c1);
                let c2 = M61::of(*c2);
                if sum_of(c0, c1, c2).number() != self.expected.number() {
                    return Err(Reason::Sum);
                }
                self.c0 = c0;
                self.c1 = c1;
                self.c2 = c2;
                let depth = self.seat.depth();
                prove!(self.taken < depth);
                self.taken += 1;
                Ok(More::Complete)
            }
            Message::Refuse { code } => Err(Reason::Refused(*code)),
            _ => Err(Reason::BadKind),
        }
    }

    fn reveal(&mut self) -> u64 {
        let r = self.seat.at(self.revealed + 1);
        self.revealed += 1;
        self.expected = value_at(self.c0, self.c1, self.c2, r);
        r.number()
    }

    fn finish(&mut self, _places: &[Entry]) -> Result<Said, Reason> {
        let r = self.seat.at(self.revealed + 1);
        let last = value_at(self.c0, self.c1, self.c2, r);
        match self.claim {
            None => Err(Reason::Root),
            Some(value) => {
                if last.number() != self.value {
                    return Err(Reason::Root);
                }
                Ok(Said::Number(value))
            }
        }
    }

    ghost ends = { sum_ends };

    ghost tests = { sum_tests };
}

// A claim, and the polynomial of the first round.
const FIRST: [u8; 38] = [
    0x11, 0, 8, 0, 0, 0, 0, 0, 0, 0, 35, 0x12, 0, 24, 0, 0, 0, 0, 0, 0, 0, 34, 0x1f, 0xff, 0xff,
    0xff, 0xff, 0xff, 0xff, 0xc5, 0, 0, 0, 0, 0, 0, 0, 25,
];

// The polynomial of the second round.
const SECOND: [u8; 27] = [
    0x12, 0, 24, 0, 0, 0, 0, 0, 0, 0, 9, 0, 0, 0, 0, 0, 0, 0, 0, 0, 0, 0, 0, 0, 0, 0, 0,
];

const QUERY: [u8; 5] = [4, 0, 2, 3, 0];

// The challenge 2.
const REVEAL: [u8; 11] = [5, 0, 8, 0, 0, 0, 0, 0, 0, 0, 2];

// The claim of 36, with the same polynomial.
const FALSE_FIRST: [u8; 38] = [
    0x11, 0, 8, 0, 0, 0, 0, 0, 0, 0, 36, 0x12, 0, 24, 0, 0, 0, 0, 0, 0, 0, 34, 0x1f, 0xff, 0xff,
    0xff, 0xff, 0xff, 0xff, 0xc5, 0, 0, 0, 0, 0, 0, 0, 25,
];

// A talk about a sum of squares: what the link gives, what is said, what happened on the link, and
// what was kept.
struct SumRow {
    incoming: &'static [&'static [u8]],
    said: Result<Said, AskStop>,
    talk: &'static [(bool, &'static [u8])],
    kept: &'static [&'static [u8]],
}

const ROWS: &[SumRow] = &[
    // The sum is 9 + 25 + 1 = 35. At 2 the pairs (3, 0) and (5, 1) are 3 - 2 * 3 = -3 and
    // 5 - 2 * 4 = -3. So the polynomials are (3 - 3x)^2 + (5 - 4x)^2 = 34 - 58x + 25x^2 and
    // (-3)^2 = 9, and the last value is 9.
    SumRow {
        incoming: &[&FIRST, &SECOND],
        said: Ok(Said::Number(35)),
        talk: &[
            (true, &QUERY),
            (false, &FIRST),
            (true, &REVEAL),
            (false, &SECOND),
        ],
        kept: &[&FIRST, &SECOND],
    },
    // A claim of 36 is refused by the first polynomial: nothing is revealed, nothing of what
    // follows is received, and the bytes that show the fault are kept.
    SumRow {
        incoming: &[&FALSE_FIRST, &SECOND],
        said: Err(AskStop::Rejected {
            round: 0,
            reason: Reason::Sum,
        }),
        talk: &[(true, &QUERY), (false, &FALSE_FIRST)],
        kept: &[&FALSE_FIRST],
    },
];

// Asks for the sum of the squares of (3, 0, 5, 1) at the challenges 2 and 5, over a link that gives
// these bytes: the answer, what happened on the link, and what was kept.
fn asked_of(
    alloc: Global,
    incoming: &[u8],
    value: u64,
) -> Result<(Result<Said, AskStop>, MemoryLink, MemorySink), Fail> {
    let seat = Seat::of(&[M61::of(2), M61::of(5)]).unwrap();
    let mut check = SumCheck::start(&seat, value);
    let (mut link, mut keep) = ports_of(alloc, incoming)?;
    let mut frame = Frame::new(alloc)?;
    let said = ask(
        &mut check,
        Version::One,
        &Query::F2 { side: Side::First },
        &mut [],
        &mut frame,
        &mut link,
        &mut keep,
    );
    Ok((said, link, keep))
}

fn check_row(rt: &impl Abort, alloc: Global, number: usize, row: &SumRow) -> Result<(), Fail> {
    let incoming = row.incoming.concat(alloc).expect(rt, "memory");
    let (said, link, keep) = asked_of(alloc, &incoming, 9)?;
    let [talk, kept] = happened(alloc, (&link, row.talk), (&keep, row.kept)).expect(rt, "memory");
    expect(rt, number, &[said == row.said, talk, kept]);
    Ok(())
}

#[test]
fn sums_are_asked_for(rt: HostRuntime) -> Result<(), Fail> {
    for (number, row) in ROWS.iter().enumerate() {
        check_row(&rt, rt.alloc(), number, row)?;
    }
    Ok(())
}
