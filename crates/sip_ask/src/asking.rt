//! The questions of an ask, each behind the file in which its seat is used.

ghost use Rattle.std.specs.Prelude.{◌≡◌, ◌<◌, ◌≤◌, List, Some, OnOk, IfErr, false, length};
ghost use Rattle.std.specs.Prelude.{vec_capacity};
ghost use Rattle.sip_ports.specs.Ports.{Lasts};
ghost use Rattle.sip_vector.specs.declared.update.Update.{Update as AnyUpdate};
ghost use Rattle.sip_wire.specs.Table.{most_queries};
ghost use Rattle.sip_verifier.specs.runs.Askers.{IsFirst, behind};
ghost use Rattle.sip_questions.specs.Questions.{asking};
ghost use Rattle.sip_questions.specs.Sittings.{StandsOn, remaining_of};
ghost use Rattle.sip_questions.specs.declared.question.Question.{Question as AnyQuestion};
ghost use Rattle.sip_sketch.specs.Sketches.{size_of};
ghost use Rattle.sip_ask.specs.Asking.{AsksAll, Came, StoresFirst, marked_by};
ghost use Rattle.sip_ask.specs.Causes.{HasRisen, IsStop};
ghost use Rattle.sip_ask.specs.Turns.{block_at};
ghost use Rattle.sip_ask.specs.Marking.{mark};
ghost use Rattle.sip_ask.specs.inside.Steps.{IsIdle, IsLive, IsMarked, IsNext, IsReportStop};
ghost use Rattle.sip_ask.specs.inside.Steps.{SaysNone, StandsReady, StoresSeat, behind_turn};

use crate::ending::{on_link, on_report, on_run};
use crate::{AskPort, AskStatus};
use sip_ports::{Desk, DeskStop, NullSink, Sink};
use sip_questions::{Question, QuestionAsker};
use sip_sketch::Sketch;
use sip_verifier::{Asker, check_next, write_pairs};

/// A sketch that is asked, with room for its file, and what asks the questions that take seats.
#[derive(Drop)]
pub(crate) struct Asking {
    pub(crate) sketch: Sketch,
    pub(crate) file: Vec<u8>,
    pub(crate) asker: QuestionAsker,
}

/// Marks the seat at a place used and stores the sketch. Behind `Ok` no crash leaves it unused, so
/// that a question may be sent on it; whatever else comes, nothing may.
fn mark<D: Desk>(
    sketch: &mut Sketch,
    place: usize,
    file: &mut Vec<u8>,
    desk: &mut D,
) -> Result<(), AskStatus>
    requires place { place < length sketch.old.seats }
    requires room { size_of sketch.old ≤ vec_capacity file.old }
    ensures talk { IsMarked sketch.old place (D.talk desk.old) (D.talk desk.new) result }
    ensures sketch { sketch.new ≡ mark place sketch.old }
    ensures room { size_of sketch.new ≤ vec_capacity file.new }
    ensures cause { IfErr result (HasRisen (D.faults desk.old) (D.faults desk.new) 0 0) }
    ensures start { D.start desk.new ≡ D.start desk.old }
    ensures desk { Lasts D.faults D.wants D.is_sure desk.old desk.new }
{
    sketch.mark(place);
    if sketch.write(file).is_err() {
        unreachable!()
    }
    match desk.replace(file) {
        Ok(()) => Ok(()),
        Err(DeskStop::Failed) => Err(AskStatus::WriteFault {
            port: AskPort::Sketch,
        }),
        Err(DeskStop::OutOfMemory) => Err(AskStatus::OutOfMemory),
        Err(DeskStop::Busy) => unreachable!(),
    }
}

/// Writes the line of a question that asks for entries larger than all of a side: there is none.
fn say_none<K: Sink>(question: &Question, report: &mut K) -> Result<(), AskStatus>
    requires { IsIdle question.now }
    ensures says { SaysNone question.now (K.talk report.old) (K.talk report.new) result }
    ensures stops { IfErr result IsReportStop }
    ensures cause { IfErr result (HasRisen 0 0 (K.faults report.old) (K.faults report.new)) }
    ensures report { Lasts K.faults K.wants K.is_sure report.old report.new }
{
    match question {
        Question::Query(query) => on_report(write_pairs(report, query, &[])),
        Question::Large(large) => on_report(write_pairs(report, &large.query(), &[])),
        _ => unreachable!(),
    }
}

impl Asking {
    /// Marks the seat at a place and stores that, and then asks the next question on it and writes
    /// the line of its verdict.
    fn ask_on<D: Desk, K: Sink>(
        &mut self,
        place: usize,
        number: u8,
        desk: &mut D,
        report: &mut K,
    ) -> Result<(), AskStatus>
        requires live { IsLive self.old }
        requires place { place < length self.old.sketch.seats }
        requires left { 0 < length (remaining_of self.old.asker).left }
        ensures came { (stream : List AnyUpdate) (question : AnyQuestion)
            → StandsOn stream self.old.asker
            → IsFirst (remaining_of self.old.asker)
            (question, block_at place self.old.sketch.seats)
            → Came (asking self.old.asker.version self.old.asker.depth stream) self.old.sketch
            number question (D.talk desk.old) (D.talk desk.new) (K.talk report.old)
            (K.talk report.new) (Some place) result }
        ensures stores { StoresSeat self.old.sketch (Some place) (D.talk desk.old) (D.talk desk.new)
            result }
        ensures sketch { self.new.sketch ≡ mark place self.old.sketch }
        ensures remaining { OnOk result
            (remaining_of self.new.asker ≡ behind false (remaining_of self.old.asker)) }
        ensures stands { (stream : List AnyUpdate) → StandsOn stream self.old.asker
            → StandsOn stream self.new.asker }
        ensures live { OnOk result (IsLive self.new) }
        ensures stops { IfErr result IsStop }
        ensures cause { IfErr result (HasRisen (D.faults desk.old) (D.faults desk.new)
            (K.faults report.old) (K.faults report.new)) }
        ensures desk { Lasts D.faults D.wants D.is_sure desk.old desk.new }
        ensures report { Lasts K.faults K.wants K.is_sure report.old report.new }
    {
        mark(&mut self.sketch, place, &mut self.file, desk)?;
        let mut keep = NullSink::new();
        on_run(check_next(&mut self.asker, number, desk, report, &mut keep))
    }

    /// Asks the next question, which has this number, on the seat at its place; or writes its line,
    /// where it takes none.
    fn take_turn<D: Desk, K: Sink>(
        &mut self,
        question: &Question,
        place: Option<usize>,
        number: u8,
        desk: &mut D,
        report: &mut K,
    ) -> Result<(), AskStatus>
        requires live { IsLive self.old }
        requires next { IsNext self.old question.now place }
        ensures came { (stream : List AnyUpdate) → StandsOn stream self.old.asker
            → Came (asking self.old.asker.version self.old.asker.depth stream) self.old.sketch
            number question.now (D.talk desk.old) (D.talk desk.new) (K.talk report.old)
            (K.talk report.new) place result }
        ensures stores { StoresSeat self.old.sketch place (D.talk desk.old) (D.talk desk.new)
            result }
        ensures sketch { self.new.sketch ≡ marked_by place self.old.sketch }
        ensures remaining { OnOk result
            (remaining_of self.new.asker ≡ behind_turn place (remaining_of self.old.asker)) }
        ensures stands { (stream : List AnyUpdate) → StandsOn stream self.old.asker
            → StandsOn stream self.new.asker }
        ensures live { OnOk result (IsLive self.new) }
        ensures stops { IfErr result IsStop }
        ensures cause { IfErr result (HasRisen (D.faults desk.old) (D.faults desk.new)
            (K.faults report.old) (K.faults report.new)) }
        ensures desk { Lasts D.faults D.wants D.is_sure desk.old desk.new }
        ensures report { Lasts K.faults K.wants K.is_sure report.old report.new }
    {
        match place {
            Some(place) => self.ask_on(place, number, desk, report),
            None => say_none(question, report),
        }
    }

    /// Asks all questions in order, each on the seat that it takes, up to the first stop, and says
    /// farewell where all were accepted.
    pub(crate) fn ask_all<D: Desk, K: Sink>(
        &mut self,
        questions: &[Question],
        places: &[Option<usize>],
        desk: &mut D,
        report: &mut K,
    ) -> Result<(), AskStatus>
        requires most { length questions.now ≤ most_queries }
        requires ready { StandsReady questions.now places.now self.old }
        ensures asks { (stream : List AnyUpdate) → StandsOn stream self.old.asker
            → AsksAll self.old.asker.version
            (asking self.old.asker.version self.old.sketch.depth stream) self.old.sketch 1
            questions.now places.now (D.talk desk.old) (D.talk desk.new) (K.talk report.old)
            (K.talk report.new) result }
        ensures stores { StoresFirst self.old.asker.version self.old.sketch places.now
            (D.talk desk.old) (D.talk desk.new) }
        ensures stops { IfErr result IsStop }
        ensures cause { IfErr result (HasRisen (D.faults desk.old) (D.faults desk.new)
            (K.faults report.old) (K.faults report.new)) }
        ensures desk { Lasts D.faults D.wants D.is_sure desk.old desk.new }
        ensures report { Lasts K.faults K.wants K.is_sure report.old report.new }
    {
        for (index, place) in places.iter().enumerate() {
            self.take_turn(&questions[index], *place, index as u8 + 1, desk, report)?;
        }
        on_link(self.asker.say_farewell(desk))
    }
}
