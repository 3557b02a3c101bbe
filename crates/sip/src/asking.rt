//! The command that asks a sketch, over the files that its words name.

ghost use Rattle.std.specs.Prelude.{◌≡◌, ◌⊎◌, IfSome};
ghost use Rattle.sip.specs.Endings.{AskCame, AskEnds, AskWordsEnd, RefusalEnds};
ghost use Rattle.sip.specs.Opened.{OpensOrSpares};
ghost use Rattle.sip_ask.specs.declared.status.AskStatus.TheVariants as statuses;
ghost use Rattle.sip_keeping.specs.AskEndings.{code_of_ask};
ghost use Rattle.sip_keeping.specs.AskWords.{IsAskRefusedAt, SpellsAsk};

use crate::beside::{is_beside, stands_beside};
use crate::desks::{desk, put_away};
use crate::ends::{from_file, regular, to_file};
use crate::late::{LateReader, LateWriter, look_again, look_again_to};
use crate::named_files::load_named;
use crate::sketching::{is_shared, left_behind, paged};
use crate::told_ask::ToldAsk;
use either::{Either, Left, Right};
use sip_advice::{Ending, Noted, Unopened, finish, page_of};
use sip_ask::AskStatus;
use sip_cli::{OPENING_FROM, OPENING_TO};
use sip_keeping::{
    AskDone, AskPlan, Questions, SeatsLeft, SketchLook, advise_ask, advise_ask_words, ask_ports,
    ask_to_end, caution_sketch, file_opening, finish_ask, read_ask_words, tell_left,
};
use sip_ports::{FileDesk, StderrSink, StdoutSink, TwoWayLink};
use sip_sketch::Sketch;
use sip_verifier::Status;
use sip_words::{Opening, Usage, Words, unless};
use std::io::{self, Stdin};

/// The link to the helper, of which each end is opened when it is first used, and which tells how
/// far an ask is.
type HelperLink<'a> = ToldAsk<TwoWayLink<Either<LateReader<'a>, Stdin>, LateWriter<'a>>>;

/// What TO is opened on: nothing where that is the sketch, one of the two files beside it, or what
/// brings the helper's bytes.
#[inline(never)]
fn spared(rt: &HostRuntime, words: &Words, plan: &AskPlan) -> Opening
    ensures { (result ≡ plan.now.to) ⊎ (result ≡ Opening.Spared) }
{
    let Some(sketch) = file_opening(0).name(words) else {
        return plan.to;
    };
    if let Some(to) = plan.to.name(words)
        && is_beside(rt, sketch, to)
    {
        return Opening::Spared;
    }
    let others = [
        regular(rt, words, file_opening(0)),
        stands_beside(rt, sketch, ".lock"),
        stands_beside(rt, sketch, ".new"),
        from_file(rt, words, plan.from),
    ];
    unless(plan.to, to_file(rt, words, plan.to), others)
}

/// The link to the helper, of which nothing is opened: TO is when something is first sent, and FROM
/// when something is first to be heard. So an ask that is refused by its sketch waits for no
/// helper, and leaves TO as it was.
fn link<'a>(rt: &HostRuntime, words: &'a Words, plan: &AskPlan, tells: bool) -> HelperLink<'a>
    requires { OpensOrSpares words.now plan.now }
{
    let (from_line, to_line) = if tells {
        (Some(OPENING_FROM), Some(OPENING_TO))
    } else {
        (None, None)
    };
    let from = match plan.from {
        Opening::Standard => Some(Right(rt.stdin())),
        from => match LateReader::of(rt, words, from, from_line) {
            Some(reader) => Some(Left(reader)),
            None => None,
        },
    };
    let ends = TwoWayLink::new(from, LateWriter::of(rt, words, plan.to, to_line));
    ToldAsk::new(rt, ends, tells)
}

/// The desk of the sketch that the words name, over that link; `None` where memory is refused. It
/// is a call of its own: a link has a buffer, which is on the stack for as long.
#[inline(never)]
fn linked_desk<'a>(
    rt: &HostRuntime,
    words: &'a Words,
    plan: &AskPlan,
    tells: bool,
) -> Option<Box<FileDesk<HelperLink<'a>>>>
    requires { OpensOrSpares words.now plan.now }
{
    desk(rt, words, link(rt, words, plan, tells))
}

/// Asks what the words ask, over the files that they name, and writes the line of the status. A
/// file that does not open is a port whose calls fail. `None` where memory is refused to a port.
#[inline(never)]
fn obey_named(
    rt: &HostRuntime,
    words: &Words,
    asked: &Questions,
    noted: &mut Noted,
    tells: bool,
) -> Option<AskDone>
    requires { SpellsAsk asked.now.items words.now }
    ensures { IfSome result (λ done. AskCame asked.now.items done.status done.ending) }
{
    let asks = ask_ports(words);
    let plan = AskPlan {
        to: spared(rt, words, &asks),
        ..asks
    };
    noted.to = Unopened::taken(asks.to, plan.to);
    let mut desk = linked_desk(rt, words, &plan, tells)?;
    let mut report = StdoutSink::new(io::writer(rt));
    let mut errors = StderrSink::new(rt.stderr());
    let done = ask_to_end(rt.alloc(), asked, &mut *desk, &mut report, &mut errors);
    put_away(desk);
    if done.status == AskStatus::PeerFault {
        look_again_to(rt, words, plan.to, &mut noted.to);
        look_again(rt, words, plan.from, &mut noted.from);
    }
    Some(done)
}

/// Which seats the sketch has left, where it can be read.
#[inline(never)]
fn seats_left(rt: &HostRuntime, words: &Words) -> Option<SeatsLeft> {
    let name = file_opening(0).name(words)?;
    let file = load_named(rt, rt.alloc(), words, 0, name).ok()??;
    let sketch = Sketch::read(rt.alloc(), &file).ok()?;
    Some(SeatsLeft::of(&sketch))
}

/// How an ask ends to which memory was refused before it began.
#[inline(never)]
fn unbegun(rt: &HostRuntime) -> AskDone
    ensures { result.ending.code ≡ code_of_ask statuses.OutOfMemory }
{
    let status = AskStatus::OutOfMemory;
    let ending = finish_ask(&status, &mut StderrSink::new(rt.stderr()));
    AskDone { status, ending }
}

/// Writes what can be done about how an ask ended, behind the line of that.
#[inline(never)]
fn explained(
    rt: &HostRuntime,
    words: &Words,
    noted: &Noted,
    done: &AskDone,
    is_shared: bool,
) -> Ending
    ensures { result ≡ done.now.ending }
{
    let mut errors = StderrSink::new(rt.stderr());
    let ending = advise_ask(done.ending, words, noted, &done.status, &mut errors);
    let left = match done.status {
        AskStatus::NoSeat { .. } => seats_left(rt, words),
        _ => None,
    };
    let ending = match left {
        Some(left) => tell_left(ending, &left, &mut errors),
        None => ending,
    };
    // Another run that has the sketch may be about to store it.
    let is_left = done.status != AskStatus::Busy && left_behind(rt, words).unwrap_or(false);
    caution_sketch(ending, SketchLook { is_shared, is_left }, &mut errors)
}

/// Asks what the words ask, and writes what went wrong and what can be done about it.
fn obey_spelled(rt: &HostRuntime, words: &Words, asked: &Questions, tells: bool) -> Ending
    requires { SpellsAsk asked.now.items words.now }
    ensures { AskEnds asked.now.items result }
{
    let mut noted = Noted::default();
    let is_shared = is_shared(rt, words, 0);
    match obey_named(rt, words, asked, &mut noted, tells) {
        Some(done) => explained(rt, words, &noted, &done, is_shared),
        None => explained(rt, words, &noted, &unbegun(rt), is_shared),
    }
}

/// Writes what may stand at the word that was refused; or a text that the words ask for.
fn refused(rt: &HostRuntime, words: &Words, usage: Usage) -> Ending
    requires { IsAskRefusedAt words.now usage.word }
    ensures { RefusalEnds IsAskRefusedAt words.now result }
{
    if let Some(text) = page_of(words) {
        return paged(rt, words, text);
    }
    let mut errors = StderrSink::new(rt.stderr());
    let ending = finish(&Status::Usage { word: usage.word }, &mut errors);
    advise_ask_words(ending, usage, &mut errors)
}

/// Does what words say whose first is `ask`, and writes what went wrong and what can be done about
/// it.
#[inline(never)]
pub(crate) fn ask_ending(rt: &HostRuntime, words: &Words, tells: bool) -> Ending
    ensures { AskWordsEnd words.now result }
{
    match read_ask_words(words) {
        Ok(asked) => obey_spelled(rt, words, &asked, tells),
        Err(usage) => refused(rt, words, usage),
    }
}
