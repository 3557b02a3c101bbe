// Ports at files of the machine and at the writers of the runtime.

use crate::facts::expect;
use sip_ports::{
    FileLink, FileSink, FileSource, Link, PortStop, Sink, Source, StderrSink, StdoutSink,
    read_exact_into, recv_whole, write_whole,
};
use std::fs::File;
use std::io;

fn no_read(file: Option<File>) -> bool {
    let mut source = FileSource::new(file);
    source.read(&mut [0; 4]) == Err(PortStop::Failed)
}

fn no_write(file: Option<File>) -> bool {
    FileSink::new(file).write(b"a") == Err(PortStop::Failed)
}

// Whether a link of these files gives nothing, not even nothing where nothing is asked for if
// there is no file.
fn no_receipt(incoming: Option<File>, asked: usize) -> bool {
    let mut buf = [0; 4];
    let mut link = FileLink::new(incoming, None);
    link.recv(&mut buf[..asked.min(4)]) == Err(PortStop::Failed)
}

fn no_sending(outgoing: Option<File>) -> bool {
    FileLink::new(None, outgoing).write(b"a") == Err(PortStop::Failed)
}

// A file that is none, or could not be opened; and files of the machine that open and then refuse:
// one opened to read is written, a full device, and a folder.
#[test]
fn files_that_refuse(rt: HostRuntime) {
    let mut target = FileSink::new(std::fs::create(&rt, "target").ok());
    let facts = [
        write_whole(&mut target, b"a") == Ok(()),
        no_read(std::fs::open(&rt, "no/such/file").ok()),
        no_write(None),
        no_receipt(None, 4),
        no_receipt(None, 0),
        no_sending(None),
        no_write(std::fs::open(&rt, "target").ok()),
        no_write(std::fs::create(&rt, "/dev/full").ok()),
        no_receipt(std::fs::open(&rt, "/").ok(), 4),
        no_sending(std::fs::create(&rt, "/dev/full").ok()),
    ];
    expect(&rt, 0, &facts);
}

// A file of 12 bytes ends in the middle of a record of 13.
#[test]
fn a_file_ends_in_mid_record(rt: HostRuntime) {
    let mut sink = FileSink::new(std::fs::create(&rt, "short").ok());
    let written = write_whole(&mut sink, b"twelve bytes");
    let mut buf = [0; 13];
    let mut source = FileSource::new(std::fs::open(&rt, "short").ok());
    let facts = [
        written == Ok(()),
        read_exact_into(&mut source, &mut buf) == Ok(12),
        buf == *b"twelve bytes\0",
        read_exact_into(&mut source, &mut buf) == Ok(0),
    ];
    expect(&rt, 0, &facts);
}

// Both ways of a link.
#[test]
fn a_link_of_two_files(rt: HostRuntime) {
    let mut sink = FileSink::new(std::fs::create(&rt, "question").ok());
    let asked = write_whole(&mut sink, b"twelve bytes");
    let mut buf = [0; 13];
    let mut link = FileLink::new(
        std::fs::open(&rt, "question").ok(),
        std::fs::create(&rt, "answer").ok(),
    );
    let heard = recv_whole(&mut link, &mut buf);
    let answered = write_whole(&mut link, b"ok");
    let mut answer = FileSource::new(std::fs::open(&rt, "answer").ok());
    let facts = [
        asked == Ok(()),
        heard == Ok(12),
        buf == *b"twelve bytes\0",
        answered == Ok(()),
        read_exact_into(&mut answer, &mut buf) == Ok(2),
        buf[..2] == [b'o', b'k'],
    ];
    expect(&rt, 0, &facts);
}

// 3,000 records of 13 bytes, each full of its number modulo 251, fill the read-ahead more than
// once.
#[test]
fn a_long_file_is_read_in_records(rt: HostRuntime) {
    let mut sink = FileSink::new(std::fs::create(&rt, "long").ok());
    for number in 0..3000u32 {
        let written = write_whole(&mut sink, &[(number % 251) as u8; 13]);
        expect(&rt, number as usize, &[written == Ok(())]);
    }
    let mut source = FileSource::new(std::fs::open(&rt, "long").ok());
    let mut record = [0; 13];
    for number in 0..3000u32 {
        let facts = [
            read_exact_into(&mut source, &mut record) == Ok(13),
            record == [(number % 251) as u8; 13],
        ];
        expect(&rt, number as usize, &facts);
    }
    expect(
        &rt,
        3000,
        &[read_exact_into(&mut source, &mut record) == Ok(0)],
    );
}

#[test]
fn the_writers_of_the_runtime_take_bytes(rt: HostRuntime) {
    let facts = [
        write_whole(&mut StdoutSink::new(io::writer(&rt)), b"out\n") == Ok(()),
        write_whole(&mut StderrSink::new(rt.stderr()), b"err\n") == Ok(()),
    ];
    expect(&rt, 0, &facts);
}
