//! A check whose answer is pairs, with scratch of its own that is reserved before, a query that may
//! not be asked, and tests behind the last reply that change the check.

ghost use Rattle.std.specs.Prelude.{◌≡◌, ◌≢◌, ◌≤◌, ◌+◌, ◌-◌, ◌<◌, ℕ, List, [], Ok, Err, length};
ghost use Rattle.std.specs.Prelude.{slice_index, vec_len, vec_capacity, IfOk, IsTrue};
ghost use Rattle.sip_vector.specs.declared.update.Entry.{Entry as AnyEntry};
ghost use Rattle.sip_check_tests.specs.ListToy.{ListStands, list_rules};

use crate::events::happened;
use crate::facts::expect;
use sip_field::{Field, M61, Seat};
use sip_ports::{MemoryLink, MemorySink};
use sip_replies::{AskStop, Check, More, Said, ask};
use sip_vector::{CAP, Entry, Query, Side};
use sip_wire::{Frame, Message, Place, Reason, Version};
use std::alloc::{AllocError, Global};
use std::process::Abort;
use std::test::Fail;

// The check of a list: how many values came, and the challenges that were revealed.
#[derive(Drop)]
struct ListCheck<'a> {
    seat: &'a Seat<M61, CAP>,
    most: usize,
    count: usize,
    learnt: Vec<u64>,
    taken: usize,
    revealed: usize,
    ghost reserved: { length seat.now ≤ vec_capacity learnt },
    ghost one_each: { vec_len learnt ≡ revealed },
}

impl<'a> ListCheck<'a> {
    // A check of so many values at most.
    fn start(
        alloc: Global,
        seat: &'a Seat<M61, CAP>,
        most: usize,
    ) -> Result<ListCheck<'a>, AllocError>
        ensures stands { IfOk result (λ check. (places : List AnyEntry) → most ≤ length places
            → ListStands (record { most = most }) (list_rules (record { most = most })).start
            check.most check.count check.learnt.items places) }
        ensures seat { IfOk result (λ check. check.seat.now ≡ seat.now) }
        ensures taken { IfOk result (λ check. check.taken ≡ 0) }
        ensures revealed { IfOk result (λ check. check.revealed ≡ 0) }
    {
        Ok(ListCheck {
            seat,
            most,
            count: 0,
            learnt: Vec::with_capacity(alloc, seat.depth())?,
            taken: 0,
            revealed: 0,
        })
    }
}

impl<'a> Check for ListCheck<'a> {
    ghost use Rattle.sip_check_tests.specs.ListToy.{ListAsked, ListState, list_protocol};
    ghost use Rattle.sip_check_tests.specs.ListToy.{ListStands, list_ends, list_tests};

    ghost Asked = { ListAsked };

    ghost State = { ListState };

    ghost protocol = { list_protocol };

    ghost phase = { λ c. record { block = c.seat.now; taken = c.taken; revealed = c.revealed } };

    ghost room = { λ c. c.most - c.count };

    ghost lent = { λ c. 0 };

    ghost stands = { λ asked s c places. ListStands asked s c.most c.count c.learnt.items places };

    fn depth(&self) -> usize {
        self.seat.depth()
    }

    fn unasked(&self) -> Option<Said> {
        if self.most == 0 {
            return Some(Said::Pairs(0));
        }
        None
    }

    fn place(&self) -> Place {
        Place::ToVerifier
    }

    fn take(&mut self, message: &Message, places: &mut [Entry]) -> Result<More, Reason> {
        match message {
            Message::LevelEnd => {
                let depth = self.seat.depth();
                prove!(self.taken < depth);
                self.taken += 1;
                Ok(More::Complete)
            }
            Message::Claim { value } => {
                if self.count >= self.most {
                    return Err(Reason::TooMany);
                }
                places[self.count] = Entry {
                    index: self.count as u64,
                    value: *value,
                };
                self.count += 1;
                Ok(More::Due)
            }
            Message::Refuse { code } => Err(Reason::Refused(*code)),
            _ => Err(Reason::BadKind),
        }
    }

    fn reveal(&mut self) -> u64 {
        let r = self.seat.at(self.revealed + 1).number();
        self.learnt.push(r).unwrap();
        self.revealed += 1;
        r
    }

    fn finish(&mut self, _places: &[Entry]) -> Result<Said, Reason> {
        let r = self.seat.at(self.revealed + 1).number();
        self.learnt.push(r).unwrap();
        self.revealed += 1;
        if self.count as u64 != self.learnt[0] {
            return Err(Reason::Total);
        }
        Ok(Said::Pairs(self.count))
    }

    ghost ends = { list_ends };

    ghost tests = { list_tests };
}

const QUERY_HEAD: [u8; 3] = [4, 0, 9];

const QUERY: [u8; 12] = [4, 0, 9, 1, 0, 0, 0, 0, 0, 0, 0, 2];

// The challenge 2.
const REVEAL: [u8; 11] = [5, 0, 8, 0, 0, 0, 0, 0, 0, 0, 2];

// The value 7, the value -3, and the end of a reply.
const SEVEN: [u8; 11] = [0x11, 0, 8, 0, 0, 0, 0, 0, 0, 0, 7];

const LESS: [u8; 11] = [0x11, 0, 8, 0xff, 0xff, 0xff, 0xff, 0xff, 0xff, 0xff, 0xfd];

const END: [u8; 3] = [0x17, 0, 0];

// A talk about a list: the frames that the link gives, and the calls of the keeper that fail; what
// is said, the places behind the talk, the challenges that the check has, what happened on the
// link, and what was kept.
struct ListRow {
    frames: &'static [&'static [u8]],
    fails: &'static [u64],
    said: Result<Said, AskStop>,
    places: &'static [Entry],
    learnt: &'static [u64],
    talk: &'static [(bool, &'static [u8])],
    kept: &'static [&'static [u8]],
}

// The places that two values are written to.
const FIRST: Entry = Entry { index: 0, value: 7 };

const SECOND: Entry = Entry {
    index: 1,
    value: -3,
};

// A place to which nothing was written.
const FREE: Entry = Entry { index: 9, value: 9 };

const ROWS: &[ListRow] = &[
    // The first challenge asks for two values, and two came. Behind the last reply the check has
    // both challenges.
    ListRow {
        frames: &[&SEVEN, &LESS, &END, &END],
        fails: &[],
        said: Ok(Said::Pairs(2)),
        places: &[FIRST, SECOND, FREE],
        learnt: &[2, 5],
        talk: &[
            (true, &QUERY),
            (false, &SEVEN),
            (false, &LESS),
            (false, &END),
            (true, &REVEAL),
            (false, &END),
        ],
        kept: &[&SEVEN, &LESS, &END, &END],
    },
    // One value is rejected behind the last reply.
    ListRow {
        frames: &[&SEVEN, &END, &END],
        fails: &[],
        said: Err(AskStop::Rejected {
            round: 2,
            reason: Reason::Total,
        }),
        places: &[FIRST, FREE, FREE],
        learnt: &[2, 5],
        talk: &[
            (true, &QUERY),
            (false, &SEVEN),
            (false, &END),
            (true, &REVEAL),
            (false, &END),
        ],
        kept: &[&SEVEN, &END, &END],
    },
    // Without places a list is not asked for.
    ListRow {
        frames: &[&END, &END],
        fails: &[],
        said: Ok(Said::Pairs(0)),
        places: &[],
        learnt: &[],
        talk: &[],
        kept: &[],
    },
    // The second frame is one that the place forbids. It can't be kept, and that is what is said.
    ListRow {
        frames: &[&SEVEN, &QUERY, &END],
        fails: &[2],
        said: Err(AskStop::KeepFault),
        places: &[FIRST, FREE, FREE],
        learnt: &[],
        talk: &[(true, &QUERY), (false, &SEVEN), (false, &QUERY_HEAD)],
        kept: &[&SEVEN],
    },
];

// What a talk did: the answer, the challenges that the check has, what happened on the link, and
// what was kept.
#[derive(Drop)]
struct Talked {
    said: Result<Said, AskStop>,
    learnt: Vec<u64>,
    link: MemoryLink,
    keep: MemorySink,
}

// Asks for a list of as many values as there are places at most, at the challenges 2 and 5, over a
// link that gives these frames, with a keeper whose calls of these numbers fail.
fn asked_of(
    alloc: Global,
    frames: &[&[u8]],
    places: &mut [Entry],
    fails: &[u64],
) -> Result<Talked, Fail> {
    let seat = Seat::of(&[M61::of(2), M61::of(5)]).unwrap();
    let mut check = ListCheck::start(alloc, &seat, places.len())?;
    let mut incoming = Vec::new(alloc);
    for bytes in frames {
        incoming.extend_from_slice(bytes)?;
    }
    let mut link = MemoryLink::new(alloc, incoming, 100, Vec::new(alloc));
    let mut keep = MemorySink::new(alloc, 100, fails.to_vec(alloc)?);
    let mut frame = Frame::new(alloc)?;
    let said = ask(
        &mut check,
        Version::One,
        &Query::Sub { lo: 0, hi: 2 },
        places,
        &mut frame,
        &mut link,
        &mut keep,
    );
    Ok(Talked {
        said,
        learnt: check.learnt,
        link,
        keep,
    })
}

fn check_row(rt: &impl Abort, alloc: Global, number: usize, row: &ListRow) -> Result<(), Fail> {
    let mut places = vec![in alloc; FREE; row.places.len()].expect(rt, "memory");
    let talked = asked_of(alloc, row.frames, &mut places, row.fails)?;
    let (link, keep) = (&talked.link, &talked.keep);
    let [talk, kept] = happened(alloc, (link, row.talk), (keep, row.kept)).expect(rt, "memory");
    let facts = [
        talked.said == row.said,
        places.as_slice() == row.places,
        talked.learnt.as_slice() == row.learnt,
        talk,
        kept,
    ];
    expect(rt, number, &facts);
    Ok(())
}

#[test]
fn lists_are_asked_for(rt: HostRuntime) -> Result<(), Fail> {
    for (number, row) in ROWS.iter().enumerate() {
        check_row(&rt, rt.alloc(), number, row)?;
    }
    Ok(())
}
