// The same sketch, asked without a link: what is done, in its order, is what an ask does.
ghost use Rattle.sip_ask_steps.specs.Steps.{HasBegun};

use crate::ask_tests::{Files, ROWS, Row, desk, is_stored, used};
use crate::large_tests::{LARGE, LARGE_ROWS, LARGE_USED};
use sip_ask::ask;
use sip_ask_steps::{SketchAsking, Wants};
use sip_check_tests::sizes::piece_of;
use sip_ports::{Desk, MemoryDesk, MemorySink, TalkEvent};
use sip_sketch::Sketch;
use sip_sketch_tests::worked::WATCHED;
use std::alloc::Global;
use std::process::Abort;
use std::test::Fail;

// Notes what the desk did since so many events.
fn note(log: &mut Vec<TalkEvent>, talk: &[TalkEvent], seen: usize) -> Result<(), Fail> {
    if seen < talk.len() {
        log.extend_from_slice(&talk[seen..])?;
    }
    Ok(())
}

// Hands over bytes of what the other end says, behind those that it took, and notes those that it
// takes now, or that there are none. Answers how many it took.
fn hand(machine: &mut SketchAsking, log: &mut Vec<TalkEvent>, piece: &[u8]) -> Result<usize, Fail>
    requires { HasBegun machine.old }
    ensures { HasBegun machine.new }
{
    if piece.is_empty() {
        log.push(TalkEvent::Ended)?;
        machine.close();
        return Ok(0);
    }
    let taken = machine.feed(piece);
    for byte in &piece[..taken] {
        log.push(TalkEvent::In(*byte))?;
    }
    Ok(taken)
}

// Does what is wanted, over a desk that hears nothing, where the other end says this in pieces of a
// size.
fn act(
    machine: &mut SketchAsking,
    desk: &mut MemoryDesk,
    log: &mut Vec<TalkEvent>,
    said: &[u8],
    heard: &mut usize,
    size: usize,
) -> Result<(), Fail>
    requires { HasBegun machine.old }
    ensures { HasBegun machine.new }
{
    match machine.wants() {
        Wants::Due => {
            machine.due(desk)?;
            Ok(())
        }
        Wants::Waits => {
            let taken = hand(machine, log, piece_of(said, *heard, size))?;
            *heard = heard.saturating_add(taken);
            Ok(())
        }
        Wants::Stores => {
            if desk.replace(machine.to_store()).is_err() {
                return Ok(());
            }
            machine.stored();
            Ok(())
        }
        Wants::Answers => {
            machine.next();
            Ok(())
        }
        Wants::Ended(_) => Ok(()),
    }
}

// All that it does, and how it ended.
fn drive(
    alloc: Global,
    machine: &mut SketchAsking,
    desk: &mut MemoryDesk,
    said: &[u8],
    size: usize,
) -> Result<(Vec<TalkEvent>, Wants), Fail>
    requires { HasBegun machine.old }
{
    let mut log = Vec::new(alloc);
    let mut heard = 0usize;
    for _step in 0..200 {
        let seen = desk.talk().len();
        act(machine, desk, &mut log, said, &mut heard, size)?;
        note(&mut log, desk.talk(), seen)?;
    }
    Ok((log, machine.wants()))
}

// What a row comes to without a link: whether it ends with its status, has the file and the talk of
// an ask, in its order.
fn is_as_asked(alloc: Global, files: Files, row: &Row, size: usize) -> Result<[bool; 3], Fail> {
    let mut own = desk(alloc, files.0, &[], &[], 0)?;
    let mut other = desk(alloc, files.0, row.1, row.2, 0)?;
    let mut report = MemorySink::new(alloc, 10_000, Vec::new(alloc));
    let said = row.1.concat(alloc)?;
    let Ok(sketch) = Sketch::read(alloc, files.0) else {
        return Ok([false; 3]);
    };
    if row.0.is_empty() || row.0.len() > 16 {
        return Ok([false; 3]);
    }
    ask(alloc, row.0, &mut other, &mut report);
    let (log, wants) = match SketchAsking::begin(alloc, sketch, row.0) {
        Ok(mut machine) => drive(alloc, &mut machine, &mut own, &said, size)?,
        Err(status) => (Vec::new(alloc), Wants::Ended(status)),
    };
    Ok([
        wants == Wants::Ended(row.3),
        is_stored(files, own.file(), row.5),
        log.as_slice() == other.talk(),
    ])
}

// Each row whose desk does not fail, in pieces of each size.
fn check_rows(rt: &impl Abort, alloc: Global, files: Files, rows: &[Row]) -> Result<(), Fail> {
    for (number, row) in rows.iter().enumerate() {
        for size in [1, 2, 7, 1000] {
            if row.2.is_empty() {
                let [ends, stores, talks] = is_as_asked(alloc, files, row, size)?;
                assert!(rt; ends, "status of row {number} in pieces of {size}");
                assert!(rt; stores, "file of row {number} in pieces of {size}");
                assert!(rt; talks, "talk of row {number} in pieces of {size}");
            }
        }
    }
    Ok(())
}

#[test]
fn a_sketch_is_asked_without_a_link_as_with_one(rt: HostRuntime) -> Result<(), Fail> {
    check_rows(&rt, rt.alloc(), (&WATCHED, &used()), &ROWS)
}

#[test]
fn large_entries_are_asked_without_a_link_as_with_one(rt: HostRuntime) -> Result<(), Fail> {
    check_rows(&rt, rt.alloc(), (&LARGE, &LARGE_USED), &LARGE_ROWS)
}
