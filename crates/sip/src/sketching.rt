//! The commands that keep a sketch, over the files that their words name.

ghost use Rattle.std.specs.Prelude.{◌≡◌, IfSome, IsSome};
ghost use Rattle.sip.specs.Endings.{PageEnds, RefusalEnds, SketchCame, SketchEnds};
ghost use Rattle.sip.specs.Endings.{SketchWordsEnd};
ghost use Rattle.sip_advice.specs.Pages.{AsksText};
ghost use Rattle.sip_keeping.specs.Endings.{code_of_sketch};
ghost use Rattle.sip_keeping.specs.Words.{IsRefusedAt, Spells};
ghost use Rattle.sip_sketch.specs.declared.status.SketchStatus.TheVariants as statuses;

use crate::desks::{desk, put_away};
use crate::named_files::NamedFiles;
use crate::{Stream, ended, seed_look, source, stream};
use sip_advice::{Ending, Noted, SeedLook, finish, page_of, write_page};
use sip_keeping::{
    SketchCommand, SketchDone, SketchLook, SketchVerb, advise_sketch, advise_words, caution_sketch,
    file_opening, finish_sketch, read_sketch_words, sketch_ports, sketch_to_end,
};
use sip_ports::{FileDesk, FileLink, FileSource, StderrSink, StdoutSink};
use sip_sketch::SketchStatus;
use sip_stream::Form;
use sip_verifier::Status;
use sip_words::{Command, Usage, Words};
use std::fs::{self, Files};
use std::io;
use std::os::unix::fs::PermissionsExt;

// The form of the stream that a command reads.
fn form_of(command: &SketchCommand) -> Form {
    match command {
        SketchCommand::Watch { form, .. } => *form,
        SketchCommand::Begin { .. } | SketchCommand::Merge { .. } | SketchCommand::Seats => {
            Form::Binary
        }
    }
}

/// The stream that a command adds, which says how much was read, as that of `audit` does, which is
/// one that a file holds too; one that fails where the command adds none. `None` where memory is
/// refused.
fn added(
    rt: &HostRuntime,
    words: &Words,
    command: &SketchCommand,
    noted: &mut Noted,
    tells: bool,
) -> Option<Box<Stream<FileSource>>> {
    let form = form_of(command);
    let opening = sketch_ports(command).first;
    stream(rt, words, &Command::Audit { form }, opening, noted, tells)
}

/// The seed of a command, which is looked at too; a source that fails where it has none. `None`
/// where memory is refused.
///
/// What opens or asks about a file has a buffer for each path, of some KiB. So each such call here
/// is one of its own, and the stack has none of these buffers while a command is done.
#[inline(never)]
fn seed(
    rt: &HostRuntime,
    words: &Words,
    command: &SketchCommand,
    noted: &mut Noted,
) -> Option<Box<FileSource>> {
    let plan = sketch_ports(command);
    noted.seed = seed_look(rt, words, plan.second).unwrap_or_default();
    source(rt, words, plan.second, noted)
}

/// The desk of the sketch that the words name, over a link to nobody; `None` where memory is
/// refused. It is a call of its own: a link has a buffer, which is on the stack for as long.
#[inline(never)]
fn lone_desk(rt: &HostRuntime, words: &Words) -> Option<Box<FileDesk<FileLink>>> {
    desk(rt, words, FileLink::new(None, None))
}

/// Opens the files that the words name, does the command that they spell, and writes the line of
/// its status. A file that does not open is a port whose calls fail. Nothing is said to another
/// side. `None` where memory is refused to a port.
#[inline(never)]
fn obey_named(
    rt: &HostRuntime,
    words: &Words,
    command: &SketchCommand,
    noted: &mut Noted,
    tells: bool,
) -> Option<SketchDone>
    requires { Spells command.now words.now }
    ensures { IfSome result (λ done. SketchCame command.now done.status done.ending) }
{
    let mut first = added(rt, words, command, noted, tells)?;
    let mut second = seed(rt, words, command, noted)?;
    let mut desk = lone_desk(rt, words)?;
    let mut files = NamedFiles::new(*rt, words);
    let done = sketch_to_end(
        rt.alloc(),
        command,
        &mut *first,
        &mut *second,
        &mut *desk,
        &mut files,
        &mut StdoutSink::new(io::writer(rt)),
        &mut StderrSink::new(rt.stderr()),
    );
    put_away(desk);
    Some(done)
}

/// How many files of sketches a command has that are read.
fn file_count(command: &SketchCommand) -> u32 {
    match command {
        SketchCommand::Merge { parts } => parts.saturating_add(1),
        SketchCommand::Begin { .. } | SketchCommand::Watch { .. } | SketchCommand::Seats => 1,
    }
}

/// Whether others than its owner can read the file of this number.
#[inline(never)]
pub(crate) fn is_shared(rt: &HostRuntime, words: &Words, number: u32) -> bool {
    let Some(name) = file_opening(number).name(words) else {
        return false;
    };
    match fs::metadata(rt, name) {
        Ok(told) => told.is_file() && SeedLook::of(&[], told.permissions().mode()).is_shared,
        Err(_) => false,
    }
}

/// Whether others than its owner can read one of the files.
fn are_shared(rt: &HostRuntime, words: &Words, command: &SketchCommand) -> bool {
    for number in 0..file_count(command) {
        if is_shared(rt, words, number) {
            return true;
        }
    }
    false
}

/// Whether beside the sketch stands one that a run left which was killed; `None` where memory is
/// refused.
#[inline(never)]
pub(crate) fn left_behind(rt: &HostRuntime, words: &Words) -> Option<bool> {
    let path = file_opening(0).name(words)?;
    let beside = match rt.canonicalize(rt.alloc(), path) {
        Ok(name) => format!(in rt.alloc(); "{}.new", name.as_str()).ok()?,
        Err(_) => format!(in rt.alloc(); "{path}.new").ok()?,
    };
    Some(fs::symlink_metadata(rt, beside.as_str()).is_ok())
}

/// How a command ends to which memory was refused before it began.
#[inline(never)]
fn unbegun(rt: &HostRuntime) -> SketchDone
    ensures { result.ending.code ≡ code_of_sketch statuses.OutOfMemory }
{
    let status = SketchStatus::OutOfMemory;
    let ending = finish_sketch(&status, &mut StderrSink::new(rt.stderr()));
    SketchDone { status, ending }
}

/// Writes what can be done about how a command ended, behind the line of that. It is a call of its
/// own: the lines are not on the stack while a command is done.
#[inline(never)]
fn explained(
    rt: &HostRuntime,
    words: &Words,
    noted: &Noted,
    done: &SketchDone,
    is_shared: bool,
) -> Ending
    ensures { result ≡ done.now.ending }
{
    let mut errors = StderrSink::new(rt.stderr());
    // Another run that has the sketch may be about to store it.
    let is_left = done.status != SketchStatus::Busy && left_behind(rt, words).unwrap_or(false);
    let ending = advise_sketch(done.ending, words, noted, &done.status, &mut errors);
    let ending = caution_sketch(ending, SketchLook { is_shared, is_left }, &mut errors);
    ending.warn(noted, &mut errors)
}

/// Does the command that the words spell, and writes what went wrong and what can be done about it.
fn obey_spelled(rt: &HostRuntime, words: &Words, command: &SketchCommand, tells: bool) -> Ending
    requires { Spells command.now words.now }
    ensures { SketchEnds command.now result }
{
    let mut noted = Noted::default();
    let is_shared = are_shared(rt, words, command);
    match obey_named(rt, words, command, &mut noted, tells) {
        Some(done) => explained(rt, words, &noted, &done, is_shared),
        None => explained(rt, words, &noted, &unbegun(rt), is_shared),
    }
}

/// The page's part about `seats`, where the words ask for it and nothing has the name of its file.
#[inline(never)]
fn page_behind(rt: &HostRuntime, words: &Words, command: &SketchCommand) -> Option<&'static str>
    ensures { IsSome result → AsksText words.now }
{
    let SketchCommand::Seats = command else {
        return None;
    };
    let text = page_of(words)?;
    let name = file_opening(0).name(words)?;
    match fs::metadata(rt, name) {
        Err(error) if error.kind() == io::ErrorKind::NotFound => Some(text),
        _ => None,
    }
}

/// Writes a text of the page that the words ask for.
#[inline(never)]
pub(crate) fn paged(rt: &HostRuntime, words: &Words, text: &str) -> Ending
    requires { AsksText words.now }
    ensures { PageEnds words.now result }
{
    let status = write_page(text, &mut StdoutSink::new(io::writer(rt)));
    ended(rt, words, &Noted::default(), &status)
}

/// Writes what may stand at the word that was refused; or a text that the words ask for.
#[inline(never)]
fn refused(rt: &HostRuntime, words: &Words, verb: SketchVerb, usage: Usage) -> Ending
    requires { IsRefusedAt words.now usage.word }
    ensures { RefusalEnds IsRefusedAt words.now result }
{
    if let Some(text) = page_of(words) {
        return paged(rt, words, text);
    }
    let mut errors = StderrSink::new(rt.stderr());
    let ending = finish(&Status::Usage { word: usage.word }, &mut errors);
    advise_words(ending, verb, usage, &mut errors)
}

/// Does what words say whose first is this verb, and writes what went wrong and what can be done
/// about it.
pub(crate) fn sketch_ending(
    rt: &HostRuntime,
    words: &Words,
    verb: SketchVerb,
    tells: bool,
) -> Ending
    ensures { SketchWordsEnd words.now result }
{
    match read_sketch_words(words) {
        Ok(command) => match page_behind(rt, words, &command) {
            Some(text) => paged(rt, words, text),
            None => obey_spelled(rt, words, &command, tells),
        },
        Err(usage) => refused(rt, words, verb, usage),
    }
}
