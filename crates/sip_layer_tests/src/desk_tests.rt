// Desks over memory, of which each call fails in turn, and one over a file of the machine.
use crate::facts::expect;
use sip_ports::{
    Desk, DeskStop, FileDesk, LONGEST_LOAD, Link, MemoryDesk, MemoryLink, MemorySource, PortStop,
    Sink, TalkEvent, load_file, load_front, replacing_events,
};
use std::alloc::Global;
use std::fs;
use std::process::Abort;
use std::test::Fail;

// A desk whose file has the bytes `ab`, and whose other end says `x`.
fn desk(alloc: Global, fails: &[u64], stops: usize) -> Result<MemoryDesk, Fail> {
    let link = MemoryLink::new(alloc, b"x".to_vec(alloc)?, 1, fails.to_vec(alloc)?);
    Ok(MemoryDesk::new(link, Some(b"ab".to_vec(alloc)?), stops))
}

fn has(file: &Result<Option<Vec<u8>>, DeskStop>, bytes: &[u8]) -> bool {
    match file {
        Ok(Some(found)) => found.as_slice() == bytes,
        _ => false,
    }
}

fn stopped<T>(answer: &Result<T, DeskStop>, stop: DeskStop) -> bool {
    match answer {
        Ok(_) => false,
        Err(found) => *found == stop,
    }
}

// What one run over a desk answered: whether each of its five calls was Ok.
fn run_over(alloc: Global, desk: &mut MemoryDesk) -> [bool; 5] {
    [
        has(&desk.load(alloc), b"ab"),
        desk.write(b"q") == Ok(1),
        desk.replace(b"xyz") == Ok(()),
        desk.recv(&mut [0; 1]) == Ok(1),
        desk.load(alloc).is_ok(),
    ]
}

// With nothing to fail, the talk has the replacement between the bytes of the link.
#[test]
fn a_desk_tells_the_order_of_link_and_file(rt: HostRuntime) -> Result<(), Fail> {
    let alloc = rt.alloc();
    let mut desk = desk(alloc, &[], 0)?;
    let all = run_over(alloc, &mut desk);
    let want = [
        TalkEvent::Out(b'q'),
        TalkEvent::Fresh,
        TalkEvent::Stored(b'x'),
        TalkEvent::Stored(b'y'),
        TalkEvent::Stored(b'z'),
        TalkEvent::Renames,
        TalkEvent::Kept,
        TalkEvent::In(b'x'),
    ];
    let steps = replacing_events(alloc, b"xyz", 9)?;
    let facts = [
        all == [true; 5],
        desk.talk() == want.as_slice(),
        desk.talk().get(1..7) == Some(steps.as_slice()),
        desk.file() == Some(b"xyz".as_slice()),
        has(&desk.load(alloc), b"xyz"),
    ];
    expect(&rt, 0, &facts);
    Ok(())
}

// Call `number` of the five fails, and no other. A replacement that fails takes the first `stops`
// of its six steps, but not the last; from the rename on the file is the new one.
fn fails_alone(rt: &impl Abort, alloc: Global, number: u64, stops: usize) -> Result<(), Fail> {
    let mut desk = desk(alloc, &[number], stops)?;
    let all = run_over(alloc, &mut desk);
    let replaced = number != 3 || stops >= 5;
    let steps = if number == 3 { stops.min(5) } else { 6 };
    let link = if number == 2 || number == 4 { 1 } else { 2 };
    let facts = [
        all == [
            number != 1,
            number != 2,
            number != 3,
            number != 4,
            number != 5,
        ],
        desk.talk().len() == link + steps,
        desk.file()
            == Some(if replaced {
                b"xyz".as_slice()
            } else {
                b"ab".as_slice()
            }),
    ];
    expect(rt, stops, &facts);
    Ok(())
}

#[test]
fn each_call_of_a_desk_fails_alone(rt: HostRuntime) -> Result<(), Fail> {
    let alloc = rt.alloc();
    for number in 1..6 {
        fails_alone(&rt, alloc, number, 0)?;
    }
    for stops in 1..8 {
        fails_alone(&rt, alloc, 3, stops)?;
    }
    Ok(())
}

// A file that is missing, one that another has, and one that is longer than what is loaded.
#[test]
fn what_a_desk_loads(rt: HostRuntime) -> Result<(), Fail> {
    let alloc = rt.alloc();
    let link = MemoryLink::new(alloc, Vec::new(alloc), 1, Vec::new(alloc));
    let mut missing = MemoryDesk::new(link, None, 0);
    let none = missing.load(alloc);
    let begun = missing.replace(&[]);
    let empty = missing.load(alloc);
    let mut taken = desk(alloc, &[], 0)?;
    taken.take_away();
    let long = vec![in alloc; 7; LONGEST_LOAD + 1]?;
    let mut source = MemorySource::new(long, 1000, Vec::new(alloc));
    let front = load_front(alloc, &mut source)?;
    let facts = [
        matches!(none, Ok(None)),
        begun == Ok(()),
        has(&empty, b""),
        stopped(&taken.load(alloc), DeskStop::Busy),
        taken.replace(b"c") == Ok(()),
        front.len() == LONGEST_LOAD,
    ];
    expect(&rt, 0, &facts);
    Ok(())
}

// Over a file of the machine: nothing is replaced that was not loaded, and a second desk of the
// file is busy until the first is dropped.
#[test]
fn a_desk_over_a_file(rt: HostRuntime) -> Result<(), Fail> {
    let alloc = rt.alloc();
    let _ = fs::remove_file(&rt, "desk");
    let link = MemoryLink::new(alloc, Vec::new(alloc), 1, Vec::new(alloc));
    let mut desk = FileDesk::new(rt, link, "desk".to_string(alloc)?);
    let other = MemoryLink::new(alloc, Vec::new(alloc), 1, Vec::new(alloc));
    let mut other = FileDesk::new(rt, other, "desk".to_string(alloc)?);
    let facts = [
        stopped(&desk.replace(b"early"), DeskStop::Failed),
        matches!(desk.load(alloc), Ok(None)),
        stopped(&other.load(alloc), DeskStop::Busy),
        desk.replace(b"ab") == Ok(()),
        has(&desk.load(alloc), b"ab"),
        has(&load_file(&rt, alloc, "desk"), b"ab"),
        matches!(load_file(&rt, alloc, "no/such/file"), Ok(None)),
        desk.write(b"q") == Ok(1),
        desk.recv(&mut [0; 1]) == Ok(0),
        desk.write(&[]) != Err(PortStop::Failed),
    ];
    expect(&rt, 0, &facts);
    Ok(())
}
