//! The helper's end of a talk of questions, over a store of its own.

ghost use Rattle.std.specs.Prelude.{◌≡◌, ◌⊎◌, ◌≤◌, [], Err, IfOk, IsSome, List};
ghost use Rattle.sip_ports.specs.Ports.{HasCause, Lasts, Rose, SendsWhole, Writes};
ghost use Rattle.sip_vector.specs.declared.update.Update.{Update as AnyUpdate};
ghost use Rattle.sip_wire.specs.declared.message.Message.TheVariants as messages;
ghost use Rattle.sip_wire.specs.Spelling.{spelling};
ghost use Rattle.sip_helper.specs.inside.Measures.{most_received};
ghost use Rattle.sip_questions.specs.Serving.{fresh_questions};
ghost use Rattle.sip_questions.specs.StoreFronts.{Recalls, held_by};
ghost use Rattle.sip_questions.specs.Stores.{AnswersBy, ServesStore};
ghost use Rattle.sip_questions.specs.inside.StoreTurns.{IsBehind, IsHeardOf, OpensStore};
ghost use Rattle.sip_questions.specs.inside.StoreTurns.{TriesAgain};

use crate::StoreStatus;
use crate::recalling::Recalling;
use crate::serving::QuestionCore;
use crate::store_hearing::held;
use crate::weighing::sizes_again;
use sip_helper::{HelpStatus, Helps, answer_turn, take_turn};
use sip_ports::{Link, PortStop, Sink, Source};
use sip_stream::Form;
use sip_vector::Tally;
use sip_wire::{Frame, Message, Version, decode_within, encode};
use std::alloc::Global;

/// How many records are to be heard, and how many bytes were received until that was said.
#[derive(Clone, Copy)]
struct Asked {
    count: u64,
    received: u64,
}

/// Hears an opening, and then how many records of the store are to be heard.
fn open<L: Link>(
    core: &mut QuestionCore,
    link: &mut L,
    frame: &mut Frame,
) -> Result<Asked, HelpStatus>
    requires { core.old ≡ fresh_questions }
    ensures opens { OpensStore (L.talk link.old) (L.talk link.new) core.new result }
    ensures short { IfOk result (λ asked. asked.received ≤ most_received) }
    ensures cause { result ≡ Err HelpStatus.PeerFault
        → Rose (L.faults link.old) (L.faults link.new) }
    ensures memory { result ≡ Err HelpStatus.OutOfMemory
        → Rose (L.wants link.old) (L.wants link.new) }
    ensures lasts { Lasts L.faults L.wants L.is_sure link.old link.new }
{
    take_turn(core, link, frame, 0)?;
    let opening = frame.bytes().len() as u64;
    let mut recalling = Recalling::new(core.version_due());
    take_turn(&mut recalling, link, frame, opening)?;
    let received = opening + frame.bytes().len() as u64;
    match recalling.count {
        Some(count) => Ok(Asked { count, received }),
        None => unreachable!(),
    }
}

/// Says what was heard, by what is told of it. It is a call of its own, since a message is as large
/// as the longest frame's rows: the stack has it no longer than that.
#[inline(never)]
pub fn say_held<K: Sink>(told: &Tally, version: Version, out: &mut K) -> Result<(), PortStop>
    ensures talk { SendsWhole (K.talk out.old) (K.talk out.new) result
        (spelling version (messages.Held (held_by told.now))) }
    ensures cause { HasCause K.faults K.wants K.is_sure out.old out.new result }
{
    // Their types bound these numbers.
    let said = held(told);
    let _records = said.records;
    let _first = said.first;
    let _second = said.second;
    let _fingerprint = said.fingerprint;
    encode(&Message::Held(said), version, out)
}

/// Reads the store again before a message is answered by which large entries are asked for, where
/// that was not tried before. Answers whether it was tried now or before.
fn try_again<B: Source>(
    alloc: Global,
    form: Form,
    again: &mut B,
    core: &mut QuestionCore,
    asked: Asked,
    told: &Tally,
    message: &Message,
    tried: bool,
) -> bool
    requires stands { (r : Recalls) × (us : List AnyUpdate)
        × IsHeardOf r us asked told.now core.old }
    ensures tries { (r : Recalls) (us : List AnyUpdate) → IsHeardOf r us asked told.now core.old
        → TriesAgain r us form (B.left again.old) (B.left again.new) tried core.old message.now
        result core.new }
    ensures again { Lasts B.faults B.wants B.is_sure again.old again.new }
{
    if tried {
        return true;
    }
    let Some(depth) = core.above_depth(message) else {
        return false;
    };
    core.weigh(sizes_again(alloc, depth, form, again, asked.count, told));
    true
}

/// Goes on with a talk behind what is held until a Bye, as [`talk_on`](sip_helper::talk_on) does.
/// Where large entries are asked for first, the store is read again before that is answered.
fn talk_behind<B: Source, L: Link>(
    alloc: Global,
    form: Form,
    again: &mut B,
    core: &mut QuestionCore,
    asked: Asked,
    told: &Tally,
    link: &mut L,
    frame: &mut Frame,
) -> HelpStatus
    requires stands { (r : Recalls) × (us : List AnyUpdate)
        × IsBehind r us asked told.now core.old }
    ensures serves { (r : Recalls) (us : List AnyUpdate) → IsBehind r us asked told.now core.old
        → AnswersBy r us form (B.left again.old) (B.left again.new) (L.talk link.old)
        (L.talk link.new) result }
    ensures cause { result ≡ HelpStatus.PeerFault
        → Rose (L.faults link.old) (L.faults link.new) }
    ensures memory { result ≡ HelpStatus.OutOfMemory
        → Rose (L.wants link.old) (L.wants link.new) }
    ensures again { Lasts B.faults B.wants B.is_sure again.old again.new }
    ensures lasts { Lasts L.faults L.wants L.is_sure link.old link.new }
{
    let mut offset = asked.received;
    let mut tried = false;
    loop {
        let version = core.version_due();
        let place = core.place_due();
        if let Err(fault) = decode_within(link, place, version, frame) {
            return HelpStatus::of_fault(fault, offset);
        }
        let came = frame.message();
        tried = try_again(alloc, form, again, core, asked, told, came, tried);
        if let Err(status) = answer_turn(core, came, link, offset) {
            return status;
        }
        offset += frame.bytes().len() as u64;
    }
}

/// Hears a talk of questions and answers, until a Bye, where the stream is not sent: the helper has
/// its records in a store.
///
/// Behind the opening it is told how many records of the store it is to hear: the first so many, or
/// all where there are fewer. It says what they come to, and from there on the talk is that of
/// [`serve_questions`](crate::serve_questions), in which no more of the stream may come. The store
/// is not read before, so that it may grow between two talks.
///
/// Where large entries are asked for first, the store is read again, through a source of its own
/// that begins at the first record, for the sizes of the deltas. Where these records come to what
/// was said, large entries are answered from then on, and else refused as for want of memory. The
/// sizes are heard only where a delta is below 0: else they are the deltas.
///
/// Memory is taken for one frame, which comes first, for a block of 512 records, for the two
/// vectors, and for what the replies to a query or about a moment are made from; and for a second
/// block, and two vectors of sizes, where large entries are asked for. Where there is
/// none for the frame the link is left alone. Where there is none for the block or the vectors, or
/// the store wants some, the talk ends before it is said what was heard, so that the other end has
/// asked nothing yet. Once that is said, want of memory is an answer to what is asked, and
/// `OutOfMemory` comes only where the link's count of wants rose.
///
/// The time is that of a [`serve`](sip_helper::serve) that is sent the records, but for reading
/// them.
pub fn serve_store<A: Source, B: Source, L: Link>(
    alloc: Global,
    form: Form,
    first: &mut A,
    again: &mut B,
    link: &mut L,
) -> StoreStatus
    ensures serves { ServesStore form (A.left first.old) (A.left first.new) (B.left again.old)
        (B.left again.new) (L.talk link.old) (L.talk link.new) result }
    ensures told { IsSome (A.left first.old) → IsSome (A.left first.new) }
    ensures cause { result ≡ StoreStatus.PeerFault
        → Rose (L.faults link.old) (L.faults link.new) }
    ensures read { result ≡ StoreStatus.ReadFault
        → Rose (A.faults first.old) (A.faults first.new) }
    ensures memory { result ≡ StoreStatus.OutOfMemory
        → Writes (L.talk link.old) (L.talk link.new) []
        ⊎ Rose (L.wants link.old) (L.wants link.new) }
    ensures first { Lasts A.faults A.wants A.is_sure first.old first.new }
    ensures again { Lasts B.faults B.wants B.is_sure again.old again.new }
    ensures lasts { Lasts L.faults L.wants L.is_sure link.old link.new }
{
    let Ok(mut frame) = Frame::new(alloc) else {
        return StoreStatus::OutOfMemory;
    };
    let mut core = QuestionCore::new(alloc);
    let asked = match open(&mut core, link, &mut frame) {
        Ok(asked) => asked,
        Err(how) => return StoreStatus::from(how),
    };
    let told = match core.hear_store(form, first, asked.count) {
        Ok(told) => told,
        Err(status) => return status,
    };
    if let Err(stop) = say_held(&told, core.version_due(), link) {
        return StoreStatus::from(HelpStatus::from(stop));
    }
    let how = talk_behind(
        alloc, form, again, &mut core, asked, &told, link, &mut frame,
    );
    StoreStatus::from(how)
}
