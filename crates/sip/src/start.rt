//! What a run has at its start: standard streams, and the words.

use sip_words::Words;
use std::fs::File;
use std::{env, io};

/// Files that stand at the lowest descriptors that were closed at the start, if any of 0 to 2 was.
/// The system gives the lowest free descriptor, so that no file of the run can become standard
/// output or standard error; and since these are a folder that is opened to be read, reads and
/// writes of such a stream fail. Where all three were open they take three others, and change
/// nothing.
pub(crate) fn stand_ins(rt: &HostRuntime) -> [Option<File>; 3] {
    [
        File::open(rt, "/").ok(),
        File::open(rt, "/").ok(),
        File::open(rt, "/").ok(),
    ]
}

/// The words after the program's name; an error where one is not UTF-8, or where memory ran out.
pub(crate) fn words(rt: &HostRuntime) -> io::Result<Words> {
    let mut list = Vec::new(rt.alloc());
    for word in env::args(rt)?.skip(1) {
        list.push(word)?;
    }
    Ok(Words::of(list))
}
