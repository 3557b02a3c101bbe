// A stream on its way to a helper.
ghost use Rattle.std.specs.Prelude.{◌≡◌, ◌<◌, false, length, IfOk, OnOk};
ghost use Rattle.sip_wire.specs.Table.{most_rows};

use crate::session_facts::{expect, was_sent};
use sip_ports::{MemoryLink, PortStop, TalkEvent};
use sip_vector::{Depth, Side, Update};
use sip_verifier::Feed;
use sip_wire::Version;
use std::alloc::Global;
use std::process::Abort;
use std::test::Fail;

fn depth(levels: u8) -> Result<Depth, Fail>
    ensures { IfOk result (λ d. d ≡ levels) }
{
    Ok(Depth::new(levels).ok_or("a depth")?)
}

// A link that takes whole frames, whose calls of these numbers fail.
fn link(alloc: Global, fails: Vec<u64>) -> MemoryLink {
    MemoryLink::new(alloc, Vec::new(alloc), 10_000, fails)
}

fn update(side: Side, item: u64, delta: i64) -> Update
    ensures item { result.item ≡ item }
    ensures delta { result.delta ≡ delta }
{
    Update { side, item, delta }
}

// Feeds so many times 1 at item 3 of the first side.
fn push_many(feed: &mut Feed, link: &mut MemoryLink, count: usize) -> Result<(), Fail>
    requires unspent { feed.old.is_spent ≡ false }
    requires narrow { feed.old.version ≡ Version.One }
    requires few { length feed.old.waiting < most_rows }
    ensures unspent { OnOk result (feed.new.is_spent ≡ false) }
    ensures narrow { OnOk result (feed.new.version ≡ Version.One) }
    ensures few { OnOk result (length feed.new.waiting < most_rows) }
{
    for _ in 0..count {
        feed.update(link, &update(Side::First, 3, 1))?;
    }
    Ok(())
}

fn sends_nothing(rt: &impl Abort, alloc: Global) -> Result<(), Fail> {
    let mut link = link(alloc, Vec::new(alloc));
    let mut feed = Feed::new(Version::One);
    feed.begin(&mut link, depth(1)?)?;
    let opened = was_sent(&link, &[1, 0, 2, 1, 1]);
    feed.finish(&mut link)?;
    let facts = [opened, was_sent(&link, &[1, 0, 2, 1, 1, 3, 0, 0])];
    expect(rt, "an empty stream is its end alone", &facts);
    Ok(())
}

const THREE: [u8; 47] = [
    2, 0, 41, 0, 3, // three updates
    0, 0, 0, 0, 0, 0, 0, 0, 0, 0, 0, 0, 3, //
    1, 255, 255, 255, 255, 255, 255, 255, 255, 255, 255, 255, 254, //
    0, 0, 0, 0, 3, 128, 0, 0, 0, 0, 0, 0, 0, //
    3, 0, 0,
];

fn sends_three(rt: &impl Abort, alloc: Global) -> Result<(), Fail> {
    let mut link = link(alloc, Vec::new(alloc));
    let mut feed = Feed::new(Version::One);
    feed.push(&update(Side::First, 0, 3));
    feed.push(&update(Side::Second, 4_294_967_295, -2));
    feed.push(&update(Side::First, 3, i64::MIN));
    let (waiting, is_full) = (feed.waiting().len(), feed.is_full());
    let silent = link.talk().is_empty();
    feed.finish(&mut link)?;
    let facts = [waiting == 3, !is_full, silent, was_sent(&link, &THREE)];
    expect(rt, "three updates of both sides are one frame", &facts);
    Ok(())
}

const WIDE: [u8; 30] = [
    1, 0, 2, 2, 33, // the opening
    2, 0, 19, 0, 1, // one update
    1, 0, 0, 0, 1, 0, 0, 0, 2, 255, 255, 255, 255, 255, 255, 255, 255, //
    3, 0, 0,
];

fn sends_wide(rt: &impl Abort, alloc: Global) -> Result<(), Fail> {
    let mut link = link(alloc, Vec::new(alloc));
    let mut feed = Feed::new(Version::Two);
    feed.begin(&mut link, depth(33)?)?;
    feed.push(&update(Side::Second, 4_294_967_298, -1));
    feed.finish(&mut link)?;
    let row = "items of version 2 have eight bytes";
    expect(rt, row, &[was_sent(&link, &WIDE)]);
    Ok(())
}

#[test]
fn a_feed_sends_what_waits(rt: HostRuntime) -> Result<(), Fail> {
    sends_nothing(&rt, rt.alloc())?;
    sends_three(&rt, rt.alloc())?;
    sends_wide(&rt, rt.alloc())
}

// Whether the talk has these bytes sent from there on.
fn is_there(link: &MemoryLink, from: usize, bytes: &[u8; 5]) -> bool {
    link.talk()
        .iter()
        .skip(from)
        .zip(bytes)
        .all(|(event, byte)| *event == TalkEvent::Out(*byte))
}

// The second call fails: were the frame two writes, it would fail. The update behind it waits, and
// goes out at the end, where the call fails.
#[test]
fn a_frame_goes_out_with_its_512th_update_in_one_write(rt: HostRuntime) -> Result<(), Fail> {
    let alloc = rt.alloc();
    let mut link = link(alloc, vec![in alloc; 2]?);
    let mut feed = Feed::new(Version::One);
    push_many(&mut feed, &mut link, 511)?;
    let before = link.talk().len();
    push_many(&mut feed, &mut link, 1)?;
    let (whole, head) = (link.talk().len(), is_there(&link, 0, &[2, 26, 2, 2, 0]));
    push_many(&mut feed, &mut link, 1)?;
    let waits = link.talk().len();
    let stopped = feed.finish(&mut link);
    let facts = [
        before == 0,
        whole == 3 + 2 + 512 * 13,
        head,
        waits == 6661,
        stopped == Err(PortStop::Failed),
        link.talk().len() == 6661,
    ];
    expect(&rt, "a link whose second call fails", &facts);
    Ok(())
}

#[test]
fn the_rest_is_a_frame_of_its_own(rt: HostRuntime) -> Result<(), Fail> {
    let alloc = rt.alloc();
    let mut link = link(alloc, Vec::new(alloc));
    let mut feed = Feed::new(Version::One);
    push_many(&mut feed, &mut link, 513)?;
    feed.finish(&mut link)?;
    let facts = [
        link.talk().len() == 6661 + 18 + 3,
        is_there(&link, 6661, &[2, 0, 15, 0, 1]),
    ];
    expect(&rt, "513 updates", &facts);
    Ok(())
}
