//! Does a command that keeps a sketch or asks one, up to the line of its status: so the program
//! ends by what was done, and by nothing else.

ghost use Rattle.std.specs.Prelude.{◌≡◌, List};
ghost use Rattle.sip_ports.specs.Ports.{HasCause, Lasts};
ghost use Rattle.sip_sketch.specs.Risen.{HasRisen};
ghost use Rattle.sip_ask.specs.Causes.{HasRisen as AskHasRisen};
ghost use Rattle.sip_keeping.specs.AskWords.{IsAsked};
ghost use Rattle.sip_keeping.specs.Finishing.{AskIsDone, SketchIsDone, ask_told};
ghost use Rattle.sip_keeping.specs.SketchClause.{Rests, counts_of, told};
ghost use Rattle.sip_keeping.specs.Words.{IsSpelled};

use crate::{Questions, SketchCommand, finish_ask, finish_sketch, obey_ask, obey_sketch};
use sip_advice::Ending;
use sip_ask::AskStatus;
use sip_ports::{Desk, Sink, Source};
use sip_sketch::{SketchFiles, SketchStatus};
use std::alloc::Global;

/// How a command ended that keeps a sketch, and how the program ends by that.
#[derive(Clone, Copy, Debug, PartialEq, Eq)]
pub struct SketchDone {
    pub status: SketchStatus,
    pub ending: Ending,
}

/// How a command ended that asks a sketch, and how the program ends by that.
#[derive(Clone, Copy, Debug, PartialEq, Eq)]
pub struct AskDone {
    pub status: AskStatus,
    pub ending: Ending,
}

/// Does a command that keeps a sketch ([`obey_sketch`]), and writes the line of its status to
/// `errors` ([`finish_sketch`]).
pub fn sketch_to_end<A: Source, B: Source, D: Desk, F: SketchFiles, K: Sink, E: Sink>(
    alloc: Global,
    command: &SketchCommand,
    first: &mut A,
    second: &mut B,
    desk: &mut D,
    files: &mut F,
    report: &mut K,
    errors: &mut E,
) -> SketchDone
    requires { IsSpelled command.now }
    ensures done { SketchIsDone command.now
        (told (A.left first.old) (B.left second.old) (D.start desk.old) (D.talk desk.old)
        (F.content files.old) (K.talk report.old))
        (told (A.left first.new) (B.left second.new) (D.start desk.new) (D.talk desk.new)
        (F.content files.new) (K.talk report.new))
        (E.talk errors.old) (E.talk errors.new) result.status result.ending }
    ensures rests { Rests command.now (first.new ≡ first.old) (second.new ≡ second.old)
        (desk.new ≡ desk.old) (files.new ≡ files.old) (report.new ≡ report.old) }
    ensures cause { HasRisen
        (counts_of command.now (A.faults first.old) (B.faults second.old) (D.faults desk.old)
        (F.faults files.old) (K.faults report.old))
        (counts_of command.now (A.faults first.new) (B.faults second.new) (D.faults desk.new)
        (F.faults files.new) (K.faults report.new)) result.status }
    ensures line { HasCause E.faults E.wants E.is_sure errors.old errors.new result.ending.line }
{
    let status = obey_sketch(alloc, command, first, second, desk, files, report);
    let ending = finish_sketch(&status, errors);
    SketchDone { status, ending }
}

/// Does `ask SKETCH FROM TO QUESTION..` ([`obey_ask`]), and writes the line of its status to
/// `errors` ([`finish_ask`]).
pub fn ask_to_end<D: Desk, K: Sink, E: Sink>(
    alloc: Global,
    asked: &Questions,
    desk: &mut D,
    report: &mut K,
    errors: &mut E,
) -> AskDone
    requires { IsAsked asked.now.items }
    ensures done { AskIsDone asked.now.items
        (ask_told (D.start desk.old) (D.talk desk.old) (K.talk report.old) (E.talk errors.old))
        (ask_told (D.start desk.new) (D.talk desk.new) (K.talk report.new) (E.talk errors.new))
        result.status result.ending }
    ensures cause { AskHasRisen (D.faults desk.old) (D.faults desk.new)
        (K.faults report.old) (K.faults report.new) result.status }
    ensures desk { Lasts D.faults D.wants D.is_sure desk.old desk.new }
    ensures report { Lasts K.faults K.wants K.is_sure report.old report.new }
    ensures line { HasCause E.faults E.wants E.is_sure errors.old errors.new result.ending.line }
{
    let status = obey_ask(alloc, asked, desk, report);
    let ending = finish_ask(&status, errors);
    AskDone { status, ending }
}
