//! A sketch that is asked, its replies in pieces.
ghost use Rattle.std.specs.Prelude.{◌≤◌, IfOk, length};
ghost use Rattle.sip_wire.specs.Table.{most_queries};
ghost use Rattle.sip_ask_steps.specs.Steps.{HasBegun};

use crate::held::Held;
use crate::lines::{write_answer, write_rejection};
use crate::sizes::Sizes;
use sip_ask::{AskPort, AskStatus};
use sip_ask_steps::{SketchAsking, Wants};
use sip_ports::{Desk, DeskStop, Link, PortStop, Sink};
use sip_questions::Question;
use sip_sketch::{Sketch, SketchFault};
use std::alloc::Global;

// How an ask ends whose sketch was not loaded.
fn status_of_stop(stop: DeskStop) -> AskStatus {
    match stop {
        DeskStop::Failed => AskStatus::ReadFault,
        DeskStop::OutOfMemory => AskStatus::OutOfMemory,
        DeskStop::Busy => AskStatus::Busy,
    }
}

// How an ask ends whose file is no sketch.
fn status_of_fault(fault: SketchFault) -> AskStatus {
    match fault {
        SketchFault::Bad { offset } => AskStatus::BadSketch {
            offset: offset as u64,
        },
        SketchFault::OutOfMemory => AskStatus::OutOfMemory,
    }
}

/// Asks these questions of the sketch of a desk, of which nothing was said yet.
pub(crate) fn begin<D: Desk>(
    alloc: Global,
    desk: &mut D,
    questions: &[Question],
) -> Result<SketchAsking, AskStatus>
    requires { length questions.now ≤ most_queries }
    ensures { IfOk result HasBegun }
{
    let file = match desk.load(alloc) {
        Ok(file) => file.unwrap_or(Vec::new(alloc)),
        Err(stop) => return Err(status_of_stop(stop)),
    };
    match Sketch::read(alloc, &file) {
        Ok(sketch) => SketchAsking::begin(alloc, sketch, questions),
        Err(fault) => Err(status_of_fault(fault)),
    }
}

// How an ask ends where a call of the link, or of the report, stopped.
fn on_link(came: Result<(), PortStop>) -> Option<AskStatus> {
    match came {
        Ok(()) => None,
        Err(PortStop::Failed) => Some(AskStatus::PeerFault),
        Err(PortStop::OutOfMemory) => Some(AskStatus::OutOfMemory),
    }
}

fn on_report(written: Result<(), PortStop>) -> Option<AskStatus> {
    match written {
        Ok(()) => None,
        Err(PortStop::Failed) => Some(AskStatus::WriteFault {
            port: AskPort::Report,
        }),
        Err(PortStop::OutOfMemory) => Some(AskStatus::OutOfMemory),
    }
}

fn hear<L: Link>(
    machine: &mut SketchAsking,
    held: &mut Held,
    link: &mut L,
    sizes: &mut Sizes,
) -> Option<AskStatus>
    requires { HasBegun machine.old }
    ensures { HasBegun machine.new }
{
    match held.fill(link, sizes.next()) {
        Ok(true) => {
            machine.close();
            None
        }
        Ok(false) => {
            let count = machine.feed(held.bytes());
            held.taken(count);
            None
        }
        Err(stop) => on_link(Err(stop)),
    }
}

fn store<D: Desk>(machine: &mut SketchAsking, desk: &mut D) -> Option<AskStatus>
    requires { HasBegun machine.old }
    ensures { HasBegun machine.new }
{
    match desk.replace(machine.to_store()) {
        Ok(()) => {
            machine.stored();
            None
        }
        Err(DeskStop::OutOfMemory) => Some(AskStatus::OutOfMemory),
        Err(_) => Some(AskStatus::WriteFault {
            port: AskPort::Sketch,
        }),
    }
}

fn tell<K: Sink>(machine: &mut SketchAsking, report: &mut K) -> Option<AskStatus>
    requires { HasBegun machine.old }
    ensures { HasBegun machine.new }
{
    if let Some((_, given)) = machine.answer() {
        let written = write_answer(report, &given, machine.pairs());
        if written.is_err() {
            return on_report(written);
        }
    }
    machine.next();
    None
}

// Does what is wanted. How it ended, once it has.
fn step<D: Desk, L: Link, K: Sink>(
    machine: &mut SketchAsking,
    held: &mut Held,
    desk: &mut D,
    link: &mut L,
    report: &mut K,
    sizes: &mut Sizes,
) -> Option<AskStatus>
    requires { HasBegun machine.old }
    ensures { HasBegun machine.new }
{
    match machine.wants() {
        Wants::Due => on_link(machine.due(link)),
        Wants::Waits => hear(machine, held, link, sizes),
        Wants::Stores => store(machine, desk),
        Wants::Answers => tell(machine, report),
        Wants::Ended(status) => Some(status),
    }
}

/// Asks a sketch over a link, stores its file by a desk, and writes the line of each verdict.
pub(crate) fn ask<D: Desk, L: Link, K: Sink>(
    alloc: Global,
    machine: &mut SketchAsking,
    desk: &mut D,
    link: &mut L,
    report: &mut K,
    sizes: &mut Sizes,
) -> AskStatus
    requires { HasBegun machine.old }
{
    let mut held = Held::new();
    for _step in 0..u64::MAX {
        let ended = step(machine, &mut held, desk, link, report, sizes);
        let Some(status) = ended else {
            continue;
        };
        if let AskStatus::Rejected {
            query,
            round,
            reason,
        } = status
        {
            let written = write_rejection(alloc, report, query, round, reason);
            return on_report(written).unwrap_or(status);
        }
        return status;
    }
    AskStatus::PeerFault
}
