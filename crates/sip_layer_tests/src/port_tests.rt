// Ports over memory in any pieces, devices that fail, and bytes that are read where they lie.
ghost use Rattle.std.specs.Prelude.{◌≡◌, ◌≤◌, ◌++◌, min, length, take, drop};
ghost use Rattle.std.specs.Prelude.{IfOk, OnOk, IsErrOf, Some};
ghost use Rattle.std.specs.Io.KnownBytes.{Appends};
ghost use Rattle.sip_ports.specs.Edge.{source_left, sink_contents};
ghost use Rattle.sip_ports.specs.Memory.{source_left as memory_left, source_is_sure};
ghost use Rattle.sip_ports.specs.Memory.{sink_bytes, sink_is_sure, link_talk, link_is_sure};
ghost use Rattle.sip_ports.specs.Ports.{ReadsWhole, ins, ended_if};

use crate::facts::expect;
use sip_ports::{
    Link, MemoryLink, MemorySink, MemorySource, NullSink, PortStop, ReaderSource, Sink, Source,
    StderrSink, StdoutSink, TalkEvent, TwoWayLink, WriterSink, read_exact_into, recv_whole,
    write_whole,
};
use std::alloc::Global;
use std::io;
use std::io::{ErrorKind, Read, Write};
use std::process::Abort;
use std::test::Fail;

fn source(alloc: Global, bytes: &[u8], chunk: usize, fails: &[u64]) -> Result<MemorySource, Fail>
    requires { 1 ≤ chunk }
{
    let (bytes, fails) = (bytes.to_vec(alloc)?, fails.to_vec(alloc)?);
    Ok(MemorySource::new(bytes, chunk, fails))
}

fn link(alloc: Global, incoming: &[u8], chunk: usize, fails: &[u64]) -> Result<MemoryLink, Fail>
    requires { 1 ≤ chunk }
{
    let (incoming, fails) = (incoming.to_vec(alloc)?, fails.to_vec(alloc)?);
    Ok(MemoryLink::new(alloc, incoming, chunk, fails))
}

// Three callers of the loops, which see that over memory each promise has its full content: what is
// moved is exactly the front, a port of which no call is to fail doesn't fail, and one that takes
// no memory has no want of it.
fn read_front(source: &mut MemorySource, buf: &mut [u8]) -> Result<usize, PortStop>
    ensures count { IfOk result (λ n. n ≡ min (length buf.new) (length (memory_left source.old))) }
    ensures front { IfOk result (λ n. take n buf.new ≡ take n (memory_left source.old)) }
    ensures rest { IfOk result (λ n. memory_left source.new ≡ drop n (memory_left source.old)) }
    ensures sure { source_is_sure source.old → ¬ IsErrOf result PortStop.Failed }
    ensures memory { ¬ IsErrOf result PortStop.OutOfMemory }
{
    read_exact_into(source, buf)
}

fn send_all(sink: &mut MemorySink, bytes: &[u8]) -> Result<(), PortStop>
    ensures sent { OnOk result (sink_bytes sink.new ≡ sink_bytes sink.old ++ bytes.now) }
    ensures sure { sink_is_sure sink.old → ¬ IsErrOf result PortStop.Failed }
{
    write_whole(sink, bytes)
}

fn hear_front(link: &mut MemoryLink, buf: &mut [u8]) -> Result<usize, PortStop>
    ensures heard { IfOk result (λ n. link_talk link.new
        ≡ link_talk link.old ++ (ins (take n buf.new) ++ ended_if n (length buf.new))) }
    ensures sure { link_is_sure link.old → ¬ IsErrOf result PortStop.Failed }
{
    recv_whole(link, buf)
}

// Two callers at a reader and a writer in memory, which see that there the promises have their full
// content.
fn read_slice(source: &mut ReaderSource<&[u8]>, buf: &mut [u8]) -> Result<usize, PortStop>
    ensures came { ReadsWhole (source_left (λ slice. Some slice.now) source.old)
        (source_left (λ slice. Some slice.now) source.new) result buf.new }
{
    read_exact_into(source, buf)
}

fn send_to_vec(sink: &mut WriterSink<&mut Vec<u8>>, bytes: &[u8]) -> Result<(), PortStop>
    ensures sent { OnOk result (Appends (sink_contents (λ vec. Some vec.now.items) sink.old)
        (sink_contents (λ vec. Some vec.now.items) sink.new) bytes.now) }
{
    write_whole(sink, bytes)
}

fn reads_whole(rt: &impl Abort, alloc: Global, chunk: usize) -> Result<(), Fail>
    requires { 1 ≤ chunk }
{
    let mut source = source(alloc, b"abcd", chunk, &[])?;
    let (mut first, mut second) = ([0; 3], [0; 3]);
    let facts = [
        read_front(&mut source, &mut first) == Ok(3),
        first == *b"abc",
        read_front(&mut source, &mut second) == Ok(1),
        second[0] == b'd',
        read_front(&mut source, &mut second) == Ok(0),
    ];
    expect(rt, chunk, &facts);
    Ok(())
}

fn writes_whole(rt: &impl Abort, alloc: Global, chunk: usize)
    requires { 1 ≤ chunk }
{
    let mut sink = MemorySink::new(alloc, chunk, Vec::new(alloc));
    let sent = send_all(&mut sink, b"abcd");
    expect(
        rt,
        chunk,
        &[sent == Ok(()), sink.bytes() == b"abcd".as_slice()],
    );
}

fn hears_whole(rt: &impl Abort, alloc: Global, chunk: usize) -> Result<(), Fail>
    requires { 1 ≤ chunk }
{
    let mut link = link(alloc, b"xyz", chunk, &[])?;
    let mut pair = [0; 2];
    let want = [
        TalkEvent::Out(b'q'),
        TalkEvent::In(b'x'),
        TalkEvent::In(b'y'),
        TalkEvent::In(b'z'),
        TalkEvent::Ended,
    ];
    let facts = [
        write_whole(&mut link, b"q") == Ok(()),
        hear_front(&mut link, &mut pair) == Ok(2),
        hear_front(&mut link, &mut pair) == Ok(1),
        link.talk() == want.as_slice(),
    ];
    expect(rt, chunk, &facts);
    Ok(())
}

#[test]
fn whole_calls_are_the_same_in_any_chunks(rt: HostRuntime) -> Result<(), Fail> {
    let alloc = rt.alloc();
    for chunk in [1, 2, 10_000] {
        reads_whole(&rt, alloc, chunk)?;
        writes_whole(&rt, alloc, chunk);
        hears_whole(&rt, alloc, chunk)?;
    }
    Ok(())
}

// The third call fails. What came before it stands, and the next calls go on from there.
fn source_goes_on(rt: &impl Abort, alloc: Global) -> Result<(), Fail> {
    let mut source = source(alloc, b"abcd", 1, &[3])?;
    let (mut first, mut second) = ([0; 3], [0; 3]);
    let facts = [
        read_exact_into(&mut source, &mut first) == Err(PortStop::Failed),
        first == [b'a', b'b', 0],
        read_exact_into(&mut source, &mut second) == Ok(2),
        second == [b'c', b'd', 0],
    ];
    expect(rt, 0, &facts);
    Ok(())
}

fn sink_goes_on(rt: &impl Abort, alloc: Global) -> Result<(), Fail> {
    let mut sink = MemorySink::new(alloc, 1, vec![in alloc; 3]?);
    let facts = [
        write_whole(&mut sink, b"abcd") == Err(PortStop::Failed),
        sink.bytes() == b"ab".as_slice(),
        write_whole(&mut sink, b"cd") == Ok(()),
        sink.bytes() == b"abcd".as_slice(),
    ];
    expect(rt, 1, &facts);
    Ok(())
}

// Writes and receives are numbered together: the write is call 1, and the third receive is call 4.
fn link_goes_on(rt: &impl Abort, alloc: Global) -> Result<(), Fail> {
    let mut link = link(alloc, b"xyz", 1, &[4])?;
    let (mut first, mut second) = ([0; 3], [0; 3]);
    let came = [
        TalkEvent::Out(b'q'),
        TalkEvent::In(b'x'),
        TalkEvent::In(b'y'),
    ];
    let facts = [
        write_whole(&mut link, b"q") == Ok(()),
        recv_whole(&mut link, &mut first) == Err(PortStop::Failed),
        first == [b'x', b'y', 0],
        link.talk() == came.as_slice(),
        recv_whole(&mut link, &mut second) == Ok(1),
        link.talk().last() == Some(&TalkEvent::Ended),
    ];
    expect(rt, 2, &facts);
    Ok(())
}

// Calls with empty buffers are numbered too.
fn link_counts_all(rt: &impl Abort, alloc: Global) -> Result<(), Fail> {
    let mut link = link(alloc, b"x", 10, &[2, 4])?;
    let facts = [
        link.write(&[]) == Ok(0),
        link.recv(&mut []) == Err(PortStop::Failed),
        link.recv(&mut []) == Ok(0),
        link.write(b"a") == Err(PortStop::Failed),
        link.recv(&mut [0; 1]) == Ok(1),
        link.talk() == [TalkEvent::In(b'x')].as_slice(),
    ];
    expect(rt, 3, &facts);
    Ok(())
}

#[test]
fn ports_fail_in_mid_stream_and_go_on(rt: HostRuntime) -> Result<(), Fail> {
    let alloc = rt.alloc();
    source_goes_on(&rt, alloc)?;
    sink_goes_on(&rt, alloc)?;
    link_goes_on(&rt, alloc)?;
    link_counts_all(&rt, alloc)
}

// The ports over a reader and a writer in memory: the bodies that run over files, with their bytes
// seen.
fn reader_gives_all(rt: &impl Abort) {
    let mut source = ReaderSource::new(Some(b"abcd".as_slice()));
    let (mut first, mut second) = ([0; 3], [0; 3]);
    let facts = [
        read_slice(&mut source, &mut first) == Ok(3),
        first == *b"abc",
        read_slice(&mut source, &mut second) == Ok(1),
        second[0] == b'd',
        read_slice(&mut source, &mut second) == Ok(0),
    ];
    expect(rt, 0, &facts);
}

fn writers_pass_all(rt: &impl Abort, alloc: Global) {
    let mut bytes: Vec<u8> = Vec::new(alloc);
    let mut sink = WriterSink::new(Some(&mut bytes));
    let sent = send_to_vec(&mut sink, b"ab");
    let mut out = StdoutSink::new(&mut bytes);
    let written = write_whole(&mut out, b"c");
    let mut link = TwoWayLink::new(Some(b"xyz".as_slice()), Some(&mut bytes));
    let mut buf = [0; 3];
    let facts = [
        sent == Ok(()),
        written == Ok(()),
        write_whole(&mut link, b"de") == Ok(()),
        recv_whole(&mut link, &mut buf) == Ok(3),
        buf == *b"xyz",
        recv_whole(&mut link, &mut buf) == Ok(0),
        write_whole(&mut link, b"f") == Ok(()),
    ];
    expect(rt, 1, &facts);
    expect(rt, 2, &[bytes.as_slice() == b"abcdef".as_slice()]);
}

// A null sink takes every byte.
#[test]
fn readers_and_writers_pass_all_bytes(rt: HostRuntime) {
    reader_gives_all(&rt);
    writers_pass_all(&rt, rt.alloc());
    let facts = [
        NullSink::new().write(b"abc") == Ok(3),
        write_whole(&mut NullSink::new(), b"abc") == Ok(()),
    ];
    expect(&rt, 3, &facts);
}

// A device that is interrupted at every other call, and else moves two bytes at most, each of them
// the number of the call.
#[derive(Drop)]
struct Device {
    calls: u8,
}

impl Device {
    fn new() -> Self {
        Device { calls: 0 }
    }

    fn call(&mut self, asked: usize) -> io::Result<usize>
        ensures { IfOk result (λ n. n ≤ asked) }
    {
        self.calls = self.calls.wrapping_add(1);
        if self.calls % 2 == 1 {
            return Err(io::Error::from(ErrorKind::Interrupted));
        }
        Ok(asked.min(2))
    }
}

impl Read for Device {
    fn read(&mut self, buf: &mut [u8]) -> io::Result<usize> {
        let count = self.call(buf.len())?;
        buf[..count].fill(self.calls);
        Ok(count)
    }
}

impl Write for Device {
    fn write(&mut self, buf: &[u8]) -> io::Result<usize> {
        self.call(buf.len())
    }

    fn flush(&mut self) -> io::Result<()> {
        Ok(())
    }
}

// An interrupted call is made again. One call of the device serves several reads, and a read takes
// no more than is there.
#[test]
fn an_interrupted_call_is_made_again(rt: HostRuntime) {
    let mut source = ReaderSource::new(Some(Device::new()));
    let (mut one, mut rest, mut next) = ([0; 1], [0; 9], [0; 9]);
    let facts = [
        source.read(&mut one) == Ok(1),
        one == [2],
        source.read(&mut []) == Ok(0),
        source.read(&mut rest) == Ok(1),
        rest[0] == 2,
        source.read(&mut next) == Ok(2),
        next[..3] == [4, 4, 0],
        StdoutSink::new(Device::new()).write(b"abc") == Ok(2),
        write_whole(&mut StdoutSink::new(Device::new()), b"abc") == Ok(()),
    ];
    expect(&rt, 0, &facts);
}

// A writer that takes nothing of something has failed.
#[derive(Drop)]
struct TakesNothing;

impl Write for TakesNothing {
    fn write(&mut self, _buf: &[u8]) -> io::Result<usize> {
        Ok(0)
    }

    fn flush(&mut self) -> io::Result<()> {
        Ok(())
    }
}

#[test]
fn a_write_that_takes_nothing_is_a_fault(rt: HostRuntime) {
    let mut sink = StderrSink::new(TakesNothing);
    let facts = [
        sink.write(b"a") == Err(PortStop::Failed),
        sink.write(&[]) == Ok(0),
    ];
    expect(&rt, 0, &facts);
}
