//! `sip`: checks the answer of a helper that keeps a stream for you.
#![tactic(auto)]

mod asking;
mod beside;
mod desks;
mod ends;
mod late;
mod named_files;
mod sketching;
mod start;
mod store;
mod told_ask;

ghost use Rattle.std.specs.Prelude.{◌≡◌, ◌≤◌, ◌⊎◌, ◌↔◌, ℕ, List, IsTrue, IfSome, IsSome, None};
ghost use Rattle.sip_stream.specs.Made.{most_made};
ghost use Rattle.sip.specs.Endings.{ProgramEnds};
ghost use Rattle.sip_verifier.specs.declared.status.Status.{Status as AnyStatus};
ghost use Rattle.sip_words.specs.declared.command.Command.{Command as AnyCommand};
ghost use Rattle.sip_words.specs.declared.sparing.PlanFiles.{PlanFiles as AnyFiles};
ghost use Rattle.sip_advice.specs.Exit.{code_of};
ghost use Rattle.sip_advice.specs.Pages.{AsksPart, AsksText};
ghost use Rattle.sip_words.specs.Plan.{file_name};
ghost use Rattle.sip_words.specs.Sparing.{Spares};
ghost use Rattle.sip_cli.specs.Statuses.{Ends};
ghost use Rattle.sip_cli.specs.ToldStream.{stream_form, stream_teller, unread};
ghost use Rattle.sip_cli.specs.ToldTalk.{IsScript, talk_teller, unsaid};
ghost use Rattle.sip_words.specs.Words.{IsSpelled, Spells, IsRefusedAt};

use crate::asking::ask_ending;
use crate::ends::{FromEnd, ToEnd, from_end, from_file, regular, stream_file, to_end, to_file};
use crate::sketching::sketch_ending;
use crate::start::{stand_ins, words};
use crate::store::obey_stored;
use sip_advice::{
    Ending, Noted, SeedLook, Trouble, Unopened, finish, has_seed, page_of, page_without_file,
    status_without_words, write_page,
};
use sip_cli::{Lines, OPENING_FROM, OPENING_TO, ToldLink, ToldSource, obey, panel, play};
use sip_keeping::{asks_sketch, sketch_verb};
use sip_ports::{
    FileSink, FileSource, NullSink, Sink, Source, StderrSink, StdoutSink, TwoWayLink, write_whole,
};
use sip_stream::MadeSource;
use sip_vector::{Depth, Negatives};
use sip_verifier::Status;
use sip_words::{
    Command, LinkOrder, Opening, PlanFiles, PortPlan, Usage, Words, ports, read_words,
};
use std::fs::{self, File};
use std::io::{self, Read, Stderr};
use std::os::unix::fs::PermissionsExt;
use std::process::ExitCode;

/// The plan without what is another file of it: see `PortPlan::sparing`.
fn sparing(rt: &HostRuntime, words: &Words, plan: &PortPlan) -> PortPlan
    ensures { (files : AnyFiles) × Spares files plan.now result }
{
    plan.sparing(&PlanFiles {
        first: stream_file(rt, words, plan),
        second: regular(rt, words, plan.second),
        from: from_file(rt, words, plan.from),
        to: to_file(rt, words, plan.to),
        keep: regular(rt, words, plan.keep),
    })
}

/// A file to read, or why there is none, which is noted. None is opened that the words do not name.
/// A directory can be opened, but not read.
fn opened(
    rt: &HostRuntime,
    words: &Words,
    opening: Opening,
    note: &mut Option<Unopened>,
) -> Option<File>
    ensures { file_name opening words.now ≡ None → result ≡ None }
{
    match File::open(rt, opening.name(words)?) {
        Ok(file) => {
            if file.metadata().is_ok_and(|told| told.is_dir()) {
                *note = Unopened::of(opening, Trouble::Directory);
            }
            Some(file)
        }
        Err(error) => {
            *note = Unopened::of(opening, Trouble::of(&error));
            None
        }
    }
}

/// What the file of a seed is like, if it is a regular one, which is opened once more for a look.
fn seed_look(rt: &HostRuntime, words: &Words, opening: Opening) -> Option<SeedLook>
    ensures { file_name opening words.now ≡ None → result ≡ None }
{
    let name = opening.name(words)?;
    regular(rt, words, opening)?;
    let mut file = File::open(rt, name).ok()?;
    let mode = file.metadata().ok()?.permissions().mode();
    let mut front = [0; 32];
    let count = file.read(&mut front).ok()?;
    Some(SeedLook::of(&front[..count], mode))
}

/// A file to write, which is made or emptied, or why there is none, which is noted. None is that
/// the words do not name.
fn emptied(
    rt: &HostRuntime,
    words: &Words,
    opening: Opening,
    note: &mut Option<Unopened>,
) -> Option<File>
    ensures { file_name opening words.now ≡ None → result ≡ None }
{
    match File::create(rt, opening.name(words)?) {
        Ok(file) => Some(file),
        Err(error) => {
            *note = Unopened::of(opening, Trouble::of(&error));
            None
        }
    }
}

/// Standard error and the system's clock, for the lines of `--progress`.
type StderrLines = Lines<StderrSink<Stderr>, HostRuntime>;

/// A source of the stream, which says how much was read.
type Stream<S> = ToldSource<S, StderrSink<Stderr>, HostRuntime>;

/// Where the lines on the way go, if they are to be written.
fn lines(rt: &HostRuntime, tells: bool) -> Option<StderrLines>
    ensures { IsSome result ↔ IsTrue tells }
{
    if tells {
        Some(Lines {
            sink: StderrSink::new(rt.stderr()),
            clock: *rt,
        })
    } else {
        None
    }
}

/// Says that an end of the link is opened, which may wait, if it is to. That this could not be
/// written changes nothing.
fn say(rt: &HostRuntime, opening: Opening, line: &str, tells: bool) {
    if let Opening::Path { .. } = opening
        && tells
    {
        let _ = write_whole(&mut StderrSink::new(rt.stderr()), line.as_bytes());
    }
}

/// A source over the file of a stream; `None` where memory is refused.
#[inline(never)]
fn stream(
    rt: &HostRuntime,
    words: &Words,
    command: &Command,
    opening: Opening,
    noted: &mut Noted,
    tells: bool,
) -> Option<Box<Stream<FileSource>>>
    // What it tells it tells of the command's stream.
    ensures { IfSome result (λ told. IfSome (stream_teller told.value) (λ teller.
        teller.reading ≡ unread (stream_form command.now))) }
{
    let file = FileSource::new(opened(rt, words, opening, &mut noted.first));
    Box::new(rt.alloc(), ToldSource::new(command, file, lines(rt, tells))).ok()
}

/// A source over the made stream of a number; `None` where memory is refused.
#[inline(never)]
fn made(
    rt: &HostRuntime,
    command: &Command,
    number: u64,
    count: u64,
    depth: Depth,
    tells: bool,
) -> Option<Box<Stream<MadeSource>>>
    requires { count ≤ most_made }
    ensures { IfSome result (λ told. IfSome (stream_teller told.value) (λ teller.
        teller.reading ≡ unread (stream_form command.now))) }
{
    let made = MadeSource::new(number, count, depth);
    Box::new(rt.alloc(), ToldSource::new(command, made, lines(rt, tells))).ok()
}

/// A source over a file to read; `None` where memory is refused.
///
/// What reads through a buffer stands on the heap, and is made in a call of its own, so that the
/// stack has the buffer no longer than that.
#[inline(never)]
fn source(
    rt: &HostRuntime,
    words: &Words,
    opening: Opening,
    noted: &mut Noted,
) -> Option<Box<FileSource>> {
    let file = opened(rt, words, opening, &mut noted.second);
    Box::new(rt.alloc(), FileSource::new(file)).ok()
}

/// The link, which says what it waits for.
type Peer = ToldLink<TwoWayLink<FromEnd, ToEnd>, StderrSink<Stderr>, HostRuntime>;

/// Opens the two ends of the link, in the order of the plan: so two FIFOs can stand between the two
/// sides. `None` where memory is refused.
#[inline(never)]
fn link(
    rt: &HostRuntime,
    words: &Words,
    command: &Command,
    plan: &PortPlan,
    noted: &mut Noted,
    tells: bool,
) -> Option<Box<Peer>>
    // What it tells it tells of what the command asks.
    ensures { IfSome result (λ peer. IfSome (talk_teller peer.value) (λ teller.
        IsScript command.now teller.script × (teller.turn ≡ unsaid))) }
{
    let (from, to) = match plan.link_order() {
        LinkOrder::ToFirst => {
            say(rt, plan.to, OPENING_TO, tells);
            let to = to_end(rt, words, plan.to, &mut noted.to);
            say(rt, plan.from, OPENING_FROM, tells);
            (from_end(rt, words, plan.from, &mut noted.from), to)
        }
        LinkOrder::FromFirst => {
            say(rt, plan.from, OPENING_FROM, tells);
            let from = from_end(rt, words, plan.from, &mut noted.from);
            say(rt, plan.to, OPENING_TO, tells);
            (from, to_end(rt, words, plan.to, &mut noted.to))
        }
    };
    let link = TwoWayLink::new(from, to);
    Box::new(rt.alloc(), ToldLink::new(command, link, lines(rt, tells))).ok()
}

/// The file that keeps the transcript, which is made or emptied; `None` where memory is refused.
#[inline(never)]
fn record(
    rt: &HostRuntime,
    words: &Words,
    opening: Opening,
    noted: &mut Noted,
) -> Option<Box<FileSink>> {
    let file = emptied(rt, words, opening, &mut noted.keep);
    Box::new(rt.alloc(), FileSink::new(file)).ok()
}

/// Does a command over these ports. `play` and `panel` have no use for the link, and `panel` none
/// for what keeps a transcript.
fn obey_keeping<S: Source, T: Source, C: Sink>(
    rt: &HostRuntime,
    command: &Command,
    first: &mut S,
    second: &mut T,
    peer: &mut Peer,
    keep: &mut C,
    negatives: &mut Negatives,
) -> Status
    requires { IsSpelled command.now }
    // Its status is one of the command's own.
    ensures { Ends command.now result }
{
    let mut report = StdoutSink::new(io::writer(rt));
    let played = play(
        rt.alloc(),
        command,
        first,
        second,
        &mut report,
        keep,
        negatives,
    );
    if let Some(status) = played {
        return status;
    }
    let seated = panel(rt.alloc(), command, first, second, &mut report, negatives);
    if let Some(status) = seated {
        return status;
    }
    obey(
        rt.alloc(),
        command,
        first,
        second,
        peer,
        &mut report,
        keep,
        negatives,
    )
}

/// Opens the files that the words name, but for the two sources, and does the command that they
/// spell. A file that does not open is a port whose calls fail. Words of `play` and `panel` name
/// none for a link, since their helpers are in the program. `None` where memory is refused to a
/// port.
#[inline(never)]
fn obey_over<S: Source, T: Source>(
    rt: &HostRuntime,
    words: &Words,
    command: &Command,
    plan: &PortPlan,
    first: &mut S,
    second: &mut T,
    noted: &mut Noted,
    tells: bool,
) -> Option<Status>
    requires { Spells words.now command.now }
    ensures { IfSome result (λ status. Ends command.now status) }
{
    let mut peer = link(rt, words, command, plan, noted, tells)?;
    // Where neither TO nor RECORD was there, they may be one file now.
    let keep = sparing(rt, words, plan).keep;
    if keep != plan.keep {
        noted.keep = Unopened::taken(plan.keep, keep);
    }
    Some(match keep {
        Opening::Path { .. } | Opening::Spared => {
            let mut keep = record(rt, words, keep, noted)?;
            let told = &mut noted.negatives;
            obey_keeping(rt, command, first, second, &mut *peer, &mut *keep, told)
        }
        Opening::Nothing | Opening::Standard | Opening::Made { .. } => {
            let told = &mut noted.negatives;
            let keep = &mut NullSink::new();
            obey_keeping(rt, command, first, second, &mut *peer, keep, told)
        }
    })
}

/// Does the command that the words spell, over the file or the made stream that is the first
/// source, and notes which files are not to be had. `None` where memory is refused to a port.
fn obey_opened(
    rt: &HostRuntime,
    words: &Words,
    command: &Command,
    noted: &mut Noted,
    tells: bool,
) -> Option<Status>
    requires { Spells words.now command.now }
    ensures { IfSome result (λ status. Ends command.now status) }
{
    let asked = ports(words, command);
    let plan = sparing(rt, words, &asked);
    noted.first = Unopened::taken(asked.first, plan.first);
    noted.to = Unopened::taken(asked.to, plan.to);
    noted.keep = Unopened::taken(asked.keep, plan.keep);
    if has_seed(words) {
        noted.seed = seed_look(rt, words, plan.second).unwrap_or_default();
    }
    if let Command::Serve { .. } = command {
        return obey_stored(rt, words, command, &plan, noted, tells);
    }
    match &asked.first {
        Opening::Made {
            number,
            count,
            depth,
        } => {
            let mut first = made(rt, command, *number, *count, *depth, tells)?;
            let mut second = source(rt, words, plan.second, noted)?;
            obey_over(
                rt,
                words,
                command,
                &plan,
                &mut *first,
                &mut *second,
                noted,
                tells,
            )
        }
        Opening::Nothing | Opening::Standard | Opening::Spared | Opening::Path { .. } => {
            let mut first = stream(rt, words, command, asked.first, noted, tells)?;
            let mut second = source(rt, words, plan.second, noted)?;
            obey_over(
                rt,
                words,
                command,
                &plan,
                &mut *first,
                &mut *second,
                noted,
                tells,
            )
        }
    }
}

/// The page's part about a command that may be a call for it, where nothing has the name of its
/// file.
fn page_behind(rt: &HostRuntime, words: &Words, command: &Command) -> Option<&'static str>
    requires { Spells words.now command.now }
    ensures { IfSome result (λ text. AsksPart words.now text.now) }
{
    let text = page_without_file(words)?;
    let name = ports(words, command).second.name(words)?;
    match fs::metadata(rt, name) {
        Err(error) if error.kind() == io::ErrorKind::NotFound => Some(text),
        _ => None,
    }
}

/// The status of a command that the words spell.
fn obey_command(
    rt: &HostRuntime,
    words: &Words,
    command: &Command,
    noted: &mut Noted,
    tells: bool,
) -> Status
    requires { Spells words.now command.now }
    // Words that are a call for a part of the page too may get that.
    ensures spelled { ((text : List ℕ) → AsksPart words.now text → ⊥) → Ends command.now result }
    ensures usage { (word : ℕ) → result ≡ Status.Usage word → ⊥ }
{
    match page_behind(rt, words, command) {
        Some(text) => write_page(text, &mut StdoutSink::new(io::writer(rt))),
        None => obey_opened(rt, words, command, noted, tells).unwrap_or(Status::OutOfMemory),
    }
}

/// The status of words that ask for no text alone: that of the command that they spell, or a usage
/// fault where they spell none.
fn obey_words(rt: &HostRuntime, words: &Words, noted: &mut Noted, tells: bool) -> Status
    ensures spelled { (command : AnyCommand) → Spells words.now command
        → ((text : List ℕ) → AsksPart words.now text → ⊥) → Ends command result }
    ensures usage { (word : ℕ) → (result ≡ Status.Usage word) ↔ IsRefusedAt words.now word }
{
    match read_words(words) {
        Ok(command) => obey_command(rt, words, &command, noted, tells),
        Err(Usage { word }) => Status::Usage { word },
    }
}

/// The status of the words: that of the page that they ask for, or of what they say.
fn done(rt: &HostRuntime, words: &Words, noted: &mut Noted, tells: bool) -> Status
    ensures spelled { (command : AnyCommand) → Spells words.now command
        → ((text : List ℕ) → AsksPart words.now text → ⊥) → Ends command result }
    ensures usage { (word : ℕ) → result ≡ Status.Usage word → IsRefusedAt words.now word }
    ensures refused { (word : ℕ) → IsRefusedAt words.now word
        → AsksText words.now ⊎ (result ≡ Status.Usage word) }
{
    match page_of(words) {
        Some(text) => write_page(text, &mut StdoutSink::new(io::writer(rt))),
        None => obey_words(rt, words, noted, tells),
    }
}

/// Writes what went wrong and what can be done about it. It is a call of its own: the lines are not
/// on the stack while a command is done.
#[inline(never)]
fn ended(rt: &HostRuntime, words: &Words, noted: &Noted, status: &Status) -> Ending
    ensures { result.code ≡ code_of status.now }
{
    let mut errors = StderrSink::new(rt.stderr());
    finish(status, &mut errors)
        .advise(words, noted, status, &mut errors)
        .warn(noted, &mut errors)
        .caution(noted, status, &mut errors)
}

/// Does what the words say of a command without a sketch, and writes what went wrong.
fn plain_ending(rt: &HostRuntime, words: &Words, tells: bool) -> Ending
    ensures { (status : AnyStatus) × (result.code ≡ code_of status) }
{
    let mut noted = Noted::default();
    let status = done(rt, words, &mut noted, tells);
    ended(rt, words, &noted, &status)
}

/// Does what the words say, and writes what went wrong and what can be done about it.
fn ending(rt: &HostRuntime) -> Ending
    ensures { ProgramEnds result }
{
    match words(rt) {
        Ok(given) => {
            let (words, tells) = given.behind_progress();
            match sketch_verb(&words) {
                Some(verb) => sketch_ending(rt, &words, verb, tells),
                None if asks_sketch(&words) => ask_ending(rt, &words, tells),
                None => plain_ending(rt, &words, tells),
            }
        }
        Err(error) => {
            let status = status_without_words(&error);
            let mut errors = StderrSink::new(rt.stderr());
            finish(&status, &mut errors).advise_unread(&status, &mut errors)
        }
    }
}

fn main(rt: HostRuntime) -> ExitCode {
    let _stand_ins = stand_ins(&rt);
    ExitCode::from(ending(&rt).code)
}
