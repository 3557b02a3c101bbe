//! Times the verifier's reader, its running numbers, a question whose reply comes in pieces, and
//! the helper's vector, siblings and moments.
//!
//! Each word names a part and a depth, as `root-20`: a root over 2^20 items, fed by blocks of 512
//! updates. Without words it does nothing. A part prints a line `NAME DEPTH COUNT NANOSECONDS
//! CHECKSUM`, which `bench/yardstick.rs`, the same in plain Rust, prints too. `docs/BENCH.md` tells
//! how the two are compared.
#![tactic(auto)]

mod blocks;
mod held;
mod line;
mod many;
mod moments;
mod pieces;
mod stream;
mod streams;
mod vectors;

use line::{Line, Part};
use many::fed;
use sip_field::M61;
use sip_mle::Point;
use sip_stream::Form;
use sip_tree::{AugRoot, Root};
use sip_vector::CAP;
use std::alloc::Global;
use std::time::Clock;
use std::{env, io};

/// What the part of a word reports. Its name and its depth stand on the two sides of a hyphen.
fn line_of(clock: &impl Clock, alloc: Global, word: &str) -> io::Result<Line> {
    let Some((name, depth)) = word.split_once('-') else {
        return Err(io::ErrorKind::InvalidInput.into());
    };
    let Some(depth) = stream::depth_of(depth) else {
        return Err(io::ErrorKind::InvalidInput.into());
    };
    match name {
        "recordbytes" => streams::bytes(alloc, Part::RecordBytes, depth, Form::made(depth)),
        "records" => streams::read(clock, alloc, Part::Records, depth, Form::made(depth)),
        "textbytes" => streams::bytes(alloc, Part::TextBytes, depth, Form::Text),
        "text" => streams::read(clock, alloc, Part::Text, depth, Form::Text),
        "updates" => Ok(blocks::updates(depth)),
        "root" => fed::<Root<M61, CAP>>(clock, alloc, Part::Root, depth, 1),
        "root16" => fed::<Root<M61, CAP>>(clock, alloc, Part::Roots16, depth, 16),
        "root64" => fed::<Root<M61, CAP>>(clock, alloc, Part::Roots64, depth, 64),
        "point" => fed::<Point<M61, CAP>>(clock, alloc, Part::Point, depth, 1),
        "point16" => fed::<Point<M61, CAP>>(clock, alloc, Part::Points16, depth, 16),
        "point64" => fed::<Point<M61, CAP>>(clock, alloc, Part::Points64, depth, 64),
        "augroot" => fed::<AugRoot<M61, CAP>>(clock, alloc, Part::AugRoot, depth, 1),
        "augroot16" => fed::<AugRoot<M61, CAP>>(clock, alloc, Part::AugRoots16, depth, 16),
        "augroot64" => fed::<AugRoot<M61, CAP>>(clock, alloc, Part::AugRoots64, depth, 64),
        "vector" => Ok(vectors::vector(clock, alloc, depth)?.1),
        "siblings" => vectors::siblings(clock, alloc, depth),
        "moment3" => moments::prover(clock, alloc, Part::Moment3, depth, 3),
        "moment8" => moments::prover(clock, alloc, Part::Moment8, depth, 8),
        "pieces1" => pieces::fed_in(clock, alloc, Part::Pieces1, depth, 1),
        "pieces7" => pieces::fed_in(clock, alloc, Part::Pieces7, depth, 7),
        "whole" => pieces::fed_in(clock, alloc, Part::Whole, depth, 1 << 20),
        _ => Err(io::ErrorKind::InvalidInput.into()),
    }
}

fn main(rt: HostRuntime) -> io::Result<()> {
    for word in env::args(&rt)?.skip(1) {
        println!(rt; "{}", line_of(&rt, rt.alloc(), word.as_str())?)?;
    }
    Ok(())
}
