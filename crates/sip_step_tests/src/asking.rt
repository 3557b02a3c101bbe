// A question that is driven by hand.
ghost use Rattle.std.specs.Prelude.{◌≡◌, IfOk, length};
ghost use Rattle.sip_subvec.specs.Asking.{SubStands, phase_of};
ghost use Rattle.sip_subvec.specs.Protocol.{sub_protocol};
ghost use Rattle.sip_wire.specs.declared.message.Message.TheVariants as messages;
ghost use Rattle.sip_steps.specs.Asked.{IsBegun};

use sip_check_tests::events::sent_in;
use sip_field::{Field, M61, Seat};
use sip_ports::{MemoryLink, PortStop};
use sip_replies::{AskStop, Check, Request, Said};
use sip_steps::Asking;
use sip_subvec::SubAsking;
use sip_tree::Root;
use sip_vector::{CAP, Entry, Query};
use sip_wire::Version;
use std::alloc::Global;
use std::test::Fail;

// The question for the entries 1 to 2 of (3, 0, 5, 1) at the challenges (2, 10).
pub(crate) const LO: u64 = 1;

pub(crate) const HI: u64 = 2;

// A place to which nothing was written.
const FREE: Entry = Entry { index: 9, value: 9 };

// The root of (3, 0, 5, 1) at the challenges (2, 10), which is 73.
fn root_of_four() -> Root<M61, CAP>
    ensures { length result.seat ≡ 2 }
{
    let mut root = Root::new(Seat::of(&[M61::of(2), M61::of(10)]).unwrap());
    root.update(0, 3);
    root.update(2, 5);
    root.update(3, 1);
    root
}

// The question, before anything was said.
pub(crate) fn begun(alloc: Global) -> Result<Asking<SubAsking, Query>, Fail>
    ensures { IfOk result (IsBegun sub_protocol SubStands phase_of messages.Query) }
{
    let check = SubAsking::start(&root_of_four(), LO, HI);
    let places = vec![in alloc; FREE; 2]?;
    let query = Query::Sub { lo: LO, hi: HI };
    Ok(Asking::begin(alloc, check, Version::One, query, places)?)
}

// Feeds bytes, and sends what is due whenever something is. Answers how many bytes were taken.
pub(crate) fn pass<C: Check + Drop, Q: Request + Drop>(
    asking: &mut Asking<C, Q>,
    bytes: &[u8],
    link: &mut MemoryLink,
) -> Result<usize, PortStop>
    requires begun { IsBegun C.protocol C.stands C.phase Q.message asking.old }
    ensures begun { IsBegun C.protocol C.stands C.phase Q.message asking.new }
{
    let mut taken = 0;
    asking.due(link)?;
    while taken < bytes.len() {
        let count = asking.feed(&bytes[taken..]);
        if count == 0 {
            return Ok(taken);
        }
        taken += count;
        asking.due(link)?;
    }
    Ok(taken)
}

// What came of a question: the verdict, the pairs, how many bytes were taken, and what was sent.
#[derive(Drop)]
pub(crate) struct Came {
    pub(crate) verdict: Option<Result<Said, AskStop>>,
    pub(crate) pairs: Vec<Entry>,
    pub(crate) taken: usize,
    pub(crate) sent: Vec<u8>,
}

// Asks the question of an other end that says these pieces, and then closes or not.
pub(crate) fn came_of(alloc: Global, pieces: &[&[u8]], closes: bool) -> Result<Came, Fail> {
    let mut asking = begun(alloc)?;
    let mut link = MemoryLink::new(alloc, Vec::new(alloc), 3, Vec::new(alloc));
    let mut taken = pass(&mut asking, &[], &mut link)?;
    for piece in pieces {
        taken = taken.saturating_add(pass(&mut asking, piece, &mut link)?);
    }
    if closes {
        asking.close();
    }
    Ok(Came {
        verdict: asking.verdict(),
        pairs: asking.pairs().to_vec(alloc)?,
        taken,
        sent: sent_in(alloc, link.talk())?,
    })
}
