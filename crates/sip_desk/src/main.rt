//! `sip_desk`: a program to try the durable file with. `sip_desk load FILE` loads the file, and
//! `sip_desk replace FILE` loads it, reads standard input to its end and replaces the file by that.
//! Each says what came. It ends with code 3 where another has the file, with 4 at a fault, with 5
//! where memory is refused, and with 2 at other words.
#![tactic(auto)]

use sip_ports::{Desk, DeskStop, FileDesk, FileLink};
use std::io::Read;
use std::process::ExitCode;
use std::{env, io};

/// Why nothing was done, or not all of it.
#[derive(Drop)]
enum Stop {
    Words,
    Desk(DeskStop),
    Stream,
}

impl From<DeskStop> for Stop {
    fn from(stop: DeskStop) -> Stop {
        Stop::Desk(stop)
    }
}

impl From<io::Error> for Stop {
    fn from(_: io::Error) -> Stop {
        Stop::Stream
    }
}

/// The two words behind the program's name.
fn words(rt: &HostRuntime) -> Result<(String, String), Stop> {
    let mut words = env::args(rt)?.skip(1);
    match (words.next(), words.next(), words.next()) {
        (Some(verb), Some(path), None) => Ok((verb, path)),
        _ => Err(Stop::Words),
    }
}

fn done(rt: &HostRuntime) -> Result<(), Stop> {
    let alloc = rt.alloc();
    let (verb, path) = words(rt)?;
    if verb.as_str() != "load" && verb.as_str() != "replace" {
        return Err(Stop::Words);
    }
    let mut desk = FileDesk::new(*rt, FileLink::new(None, None), path);
    match desk.load(alloc)? {
        Some(bytes) => println!(rt; "had {} bytes", bytes.len())?,
        None => println!(rt; "was missing")?,
    }
    if verb.as_str() == "replace" {
        let mut bytes = Vec::new(alloc);
        rt.stdin().read_to_end(&mut bytes)?;
        desk.replace(&bytes)?;
        println!(rt; "has {} bytes", bytes.len())?;
    }
    Ok(())
}

fn main(rt: HostRuntime) -> ExitCode {
    let code = match done(&rt) {
        Ok(()) => 0,
        Err(Stop::Words) => 2,
        Err(Stop::Desk(DeskStop::Busy)) => 3,
        Err(Stop::Desk(DeskStop::Failed) | Stop::Stream) => 4,
        Err(Stop::Desk(DeskStop::OutOfMemory)) => 5,
    };
    ExitCode::from(code)
}
