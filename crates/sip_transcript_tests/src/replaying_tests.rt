//! A link whose replies come out of a source that is lent.

ghost use Rattle.std.specs.Prelude.{◌≡◌, ◌≤◌, ℕ, List, Some};
ghost use Rattle.sip_ports.specs.Ports.{ReadsWhole};

use crate::facts::expect;
use sip_ports::{Link, MemorySource, PortStop, Sink, Source, recv_whole};
use sip_transcript::laws::a_whole_receive_is_a_whole_read;
use sip_transcript::{Loan, Origin, TranscriptLink};
use std::alloc::Global;
use std::marker::Brand;
use std::process::Abort;
use std::test::Fail;

const REPLIES: [u8; 5] = [0x14, 0, 2, 0, 9];

// These replies, of which the second read fails.
fn replies(alloc: Global, chunk: usize) -> Result<MemorySource, Fail>
    requires { 1 ≤ chunk }
{
    let mut bytes = Vec::new(alloc);
    bytes.extend_from_slice(&REPLIES)?;
    let mut fails = Vec::new(alloc);
    fails.push(2)?;
    Ok(MemorySource::new(bytes, chunk, fails))
}

// A call that knows nothing of the link receives what the source gives, and the source comes back.
fn receive_over<T: Loan, O: Origin>(source: T, buf: &mut [u8]) -> (Result<usize, PortStop>, T)
    requires first { T.left source ≡ O.first }
    requires lent { T.loan source ≡ O.lent }
    ensures same { T.loan result.1 ≡ T.loan source }
    ensures bytes { (bytes : List ℕ) → T.left source ≡ Some bytes
        → ReadsWhole (Some bytes) (T.left result.1) result.0 buf.new }
{
    a_whole_receive_is_a_whole_read();
    let mut link: TranscriptLink<T, O> = TranscriptLink::new(source);
    let came = recv_whole(&mut link, buf);
    (came, link.into_source())
}

// The same of a source, which is lent for the call.
fn receive<S: Source>(source: &mut S, buf: &mut [u8]) -> Result<usize, PortStop>
    ensures { (bytes : List ℕ) → S.left source.old ≡ Some bytes
        → ReadsWhole (Some bytes) (S.left source.new) result buf.new }
{
    let (came, _lent) = receive_over::<&mut S, Brand>(source, buf);
    came
}

// Three whole receives, of which one fails, and what is left in the source then.
fn is_replayed(alloc: Global, chunk: usize) -> Result<[bool; 6], Fail>
    requires { 1 ≤ chunk }
{
    let mut source = replies(alloc, chunk)?;
    let mut buf = [0; 4];
    let first = receive(&mut source, &mut buf[..1]);
    let fails = receive(&mut source, &mut buf);
    let second = receive(&mut source, &mut buf[1..]);
    let heard = buf;
    let rest = source.read(&mut buf);
    Ok([
        first == Ok(1),
        fails == Err(PortStop::Failed),
        second == Ok(3),
        heard == [0x14, 0, 2, 0],
        rest == Ok(1),
        buf[0] == 9,
    ])
}

#[test]
fn a_lent_source_keeps_what_was_not_received(rt: HostRuntime) -> Result<(), Fail> {
    expect(&rt, 0, &is_replayed(rt.alloc(), 1)?);
    expect(&rt, 1, &is_replayed(rt.alloc(), 10_000)?);
    Ok(())
}

// Two bytes are sent, and then four times at most four are received: whether the answers are these,
// and how many bytes the link says were heard.
fn answers_over<T: Loan + Drop, O: Origin>(
    source: T,
    answers: &[Result<usize, PortStop>; 4],
) -> Result<(bool, u64), Fail>
    requires first { T.left source ≡ O.first }
    requires lent { T.loan source ≡ O.lent }
{
    let mut link: TranscriptLink<T, O> = TranscriptLink::new(source);
    let mut buf = [0; 4];
    let mut same = link.write(&[3, 0])? == 2 && link.recv(&mut [])? == 0;
    for answer in answers {
        same = same && link.recv(&mut buf) == *answer;
    }
    Ok((same, link.taken()))
}

fn answers<S: Source>(
    source: &mut S,
    answers: &[Result<usize, PortStop>; 4],
) -> Result<(bool, u64), Fail> {
    answers_over::<&mut S, Brand>(source, answers)
}

// What is sent goes nowhere, and is not counted. A call that fails is answered, and so is the end
// where nothing is left: neither counts.
#[test]
fn a_link_answers_and_counts_as_its_source_reads(rt: HostRuntime) -> Result<(), Fail> {
    let alloc = rt.alloc();
    let failed = Err(PortStop::Failed);
    let few = answers(&mut replies(alloc, 1)?, &[Ok(1), failed, Ok(1), Ok(1)])?;
    let all = answers(&mut replies(alloc, 10_000)?, &[Ok(4), failed, Ok(1), Ok(0)])?;
    expect(&rt, 0, &[few == (true, 3), all == (true, 5)]);
    Ok(())
}
