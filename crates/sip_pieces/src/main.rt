//! Does `verify`, `lookup`, `moments`, `help` and `ask` by the machines that wait in no call of the
//! library, with records and bytes handed over in pieces of sizes in no order: `bench/fuzz`
//! compares it with what is expected of `sip`. The first word is the number that the sizes are made
//! from, and behind it stand the words of the command; where there are none, nothing is done. No
//! transcript is kept. `helplook` and `helpmom` are done by the helper of questions, which hears
//! those of every kind, and a Bye.
//!
//! `NUMBER runs COUNT` does so many runs of a question of each kind by both ends in memory, in
//! pieces by that number and those behind it, for `bench/machines`. It ends with 1 at the first
//! that has not all its answers, and says its number.
#![tactic(auto)]

ghost use Rattle.std.specs.Prelude.{◌≤◌, length};
ghost use Rattle.sip_wire.specs.Table.{most_queries};

mod asking;
mod held;
mod helping;
mod lines;
mod runs;
mod sizes;
mod sketching;

use asking::{Asked, run};
use helping::help;
use runs::runs;
use sip_advice::finish;
use sip_ask::AskStatus;
use sip_helper::HelperCore;
use sip_keeping::{
    AskPlan, Questions, ask_ports, asks_sketch, file_opening, finish_ask, read_ask_words,
};
use sip_ports::{
    FileDesk, FileLink, FileSource, Source, StderrSink, StdoutSink, TwoWayLink, read_exact_into,
};
use sip_questions::{Question, QuestionCore};
use sip_stream::MadeSource;
use sip_verifier::{Status, status_of};
use sip_words::{Command, Opening, PortPlan, Words, ports, read_words};
use sizes::Sizes;
use std::fs::File;
use std::process::ExitCode;
use std::test::Fail;
use std::{env, io};

/// A link over two files.
type Files = TwoWayLink<File, File>;

fn opened(rt: &HostRuntime, words: &Words, opening: Opening) -> Option<File> {
    File::open(rt, opening.name(words)?).ok()
}

// A link over the files of two openings, of which `to` is made or emptied.
fn link(rt: &HostRuntime, words: &Words, from: Opening, to: Opening) -> Files {
    let made = match to.name(words) {
        Some(name) => File::create(rt, name).ok(),
        None => None,
    };
    TwoWayLink::new(opened(rt, words, from), made)
}

// What is asked by a command of a verifier: at which depth, of a stream in which form.
fn asked_by(rt: &HostRuntime, command: &Command) -> io::Result<Option<Asked>> {
    let mut questions = Vec::new(rt.alloc());
    let (depth, form) = match command {
        Command::Verify(task) => {
            for query in task.queries.iter() {
                questions.push(Question::Query(*query))?;
            }
            (task.depth, task.form)
        }
        Command::Lookup(task) => {
            for lookup in task.lookups.iter() {
                questions.push(Question::Lookup(*lookup))?;
            }
            (task.depth, task.form)
        }
        Command::Moments(task) => {
            for moment in task.moments.iter() {
                questions.push(Question::Moment(*moment))?;
            }
            (task.depth, task.form)
        }
        _ => return Ok(None),
    };
    Ok(Some(Asked {
        depth,
        form,
        questions,
    }))
}

fn verify<A: Source>(
    rt: &HostRuntime,
    words: &Words,
    plan: &PortPlan,
    asked: &Asked,
    first: &mut A,
    link: &mut Files,
    sizes: &mut Sizes,
) -> Status {
    let mut second = FileSource::new(opened(rt, words, plan.second));
    let mut seed = [0; 32];
    match read_exact_into(&mut second, &mut seed) {
        Ok(32) => {}
        _ => return Status::BadSeed,
    }
    let mut report = StdoutSink::new(io::writer(rt));
    status_of(run(rt.alloc(), asked, &seed, first, link, &mut report, sizes))
}

// Does a command without a sketch.
fn done(rt: &HostRuntime, words: &Words, sizes: &mut Sizes) -> io::Result<Status> {
    let command = match read_words(words) {
        Ok(command) => command,
        Err(usage) => return Ok(Status::Usage { word: usage.word }),
    };
    let plan = ports(words, &command);
    let mut link = link(rt, words, plan.from, plan.to);
    let alloc = rt.alloc();
    match &command {
        Command::Help => return Ok(help(alloc, HelperCore::new(alloc), &mut link, sizes)),
        Command::HelpLook | Command::HelpMoments => {
            return Ok(help(alloc, QuestionCore::new(alloc), &mut link, sizes));
        }
        _ => {}
    }
    let Some(asked) = asked_by(rt, &command)? else {
        return Ok(Status::Usage { word: 0 });
    };
    match &plan.first {
        Opening::Made {
            number,
            count,
            depth,
        } => {
            let mut first = MadeSource::new(*number, *count, *depth);
            Ok(verify(rt, words, &plan, &asked, &mut first, &mut link, sizes))
        }
        Opening::Nothing | Opening::Standard | Opening::Spared | Opening::Path { .. } => {
            let mut first = FileSource::new(opened(rt, words, plan.first));
            Ok(verify(rt, words, &plan, &asked, &mut first, &mut link, sizes))
        }
    }
}

// Asks a sketch. The link is opened once something is to be sent.
fn ask(
    rt: &HostRuntime,
    words: &Words,
    plan: &AskPlan,
    questions: &Questions,
    sizes: &mut Sizes,
) -> io::Result<AskStatus>
    requires { length questions.now.items ≤ most_queries }
{
    let Some(name) = file_opening(0).name(words) else {
        return Ok(AskStatus::ReadFault);
    };
    let path = name.to_string(rt.alloc())?;
    let mut desk = FileDesk::new(*rt, FileLink::new(None, None), path);
    let mut machine = match sketching::begin(rt.alloc(), &mut desk, questions.as_slice()) {
        Ok(machine) => machine,
        Err(status) => return Ok(status),
    };
    let mut link = link(rt, words, plan.from, plan.to);
    let mut report = StdoutSink::new(io::writer(rt));
    Ok(sketching::ask(
        rt.alloc(),
        &mut machine,
        &mut desk,
        &mut link,
        &mut report,
        sizes,
    ))
}

// Does the command that the words are, and answers the exit code.
fn code(rt: &HostRuntime, words: &Words, sizes: &mut Sizes) -> io::Result<u8> {
    let mut errors = StderrSink::new(rt.stderr());
    if !asks_sketch(words) {
        let status = done(rt, words, sizes)?;
        return Ok(finish(&status, &mut errors).code);
    }
    match read_ask_words(words) {
        Ok(questions) => {
            let status = ask(rt, words, &ask_ports(words), &questions, sizes)?;
            Ok(finish_ask(&status, &mut errors).code)
        }
        Err(usage) => Ok(finish(&Status::Usage { word: usage.word }, &mut errors).code),
    }
}

fn main(rt: HostRuntime) -> Result<ExitCode, Fail> {
    let mut list = Vec::new(rt.alloc());
    let mut number = 0;
    for (at, word) in env::args(&rt)?.skip(1).enumerate() {
        if at == 0 {
            number = word.parse::<u64>().unwrap_or(0);
        } else {
            list.push(word)?;
        }
    }
    let words = Words::of(list);
    let code = match words.get(0) {
        None => 0,
        Some("runs") => runs(&rt, words.get(1), number)?,
        Some(_) => code(&rt, &words, &mut Sizes::of(number))?,
    };
    Ok(ExitCode::from(code))
}
