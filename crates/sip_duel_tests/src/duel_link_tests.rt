// A link and its helper, call by call.

use crate::duel_counting::{Counting, Watched};
use crate::facts::expect;
use sip_duel::{Helper, HelperLink};
use sip_ports::{Link, PortStop, Sink, TalkEvent};
use std::alloc::Global;
use std::process::Abort;
use std::test::Fail;

fn boxed(alloc: Global, helper: Counting) -> Result<Box<dyn Helper>, Fail> {
    let boxed: Box<dyn Helper> = Box::new(alloc, helper)?;
    Ok(boxed)
}

// The opening of version 1 at depth 2, in two pieces: it is heard once it is whole.
fn is_opened(link: &mut HelperLink, watched: &Watched) -> [bool; 5] {
    [
        link.write(&[1, 0]) == Ok(2),
        watched.heard() == 0,
        link.write(&[2, 1, 2]) == Ok(1),
        link.write(&[1, 2]) == Ok(2),
        watched.heard() == 1,
    ]
}

// An empty buffer asks for nothing. The first answer is a refusal.
fn is_asked(link: &mut HelperLink, watched: &Watched) -> [bool; 4] {
    let mut buf = [0; 4];
    [
        link.recv(&mut buf[..0]) == Ok(0),
        watched.asked() == 0,
        link.recv(&mut buf) == Ok(4),
        buf == [0x18, 0, 1, 4],
    ]
}

// The second answer is the end, or want of memory, and it stays. Nothing is heard then.
fn has_ended(
    link: &mut HelperLink,
    watched: &Watched,
    end: Result<usize, PortStop>,
    events: usize,
) -> [bool; 7] {
    let mut buf = [0; 4];
    let stays = [link.recv(&mut buf) == end, link.recv(&mut buf) == end];
    let sent = link.write(&[3, 0, 0]) == Ok(3);
    link.close_and_drop();
    let gone = watched.is_gone(1, 2);
    link.close_and_drop();
    [
        stays[0],
        stays[1],
        sent,
        gone,
        watched.is_gone(1, 2),
        link.recv(&mut buf) == end,
        link.talk().len() == events,
    ]
}

// Each step of a link: what is sent or asked for, and what it answers.
fn takes_steps(
    rt: &impl Abort,
    alloc: Global,
    fails: bool,
    end: Result<usize, PortStop>,
    events: usize,
) -> Result<(), Fail> {
    let watched = Watched::new(alloc)?;
    let helper = boxed(alloc, watched.helper(alloc, true, fails)?)?;
    let mut link = HelperLink::new(alloc, helper).ok().ok_or("a link")?;
    expect(
        rt,
        "an opening in two pieces",
        &is_opened(&mut link, &watched),
    );
    expect(rt, "the first answer", &is_asked(&mut link, &watched));
    expect(rt, "the end", &has_ended(&mut link, &watched, end, events));
    Ok(())
}

#[test]
fn a_link_asks_when_all_is_given(rt: HostRuntime) -> Result<(), Fail> {
    takes_steps(&rt, rt.alloc(), false, Ok(0), 15)?;
    takes_steps(&rt, rt.alloc(), true, Err(PortStop::OutOfMemory), 12)
}

// A reply is no message to a helper.
#[test]
fn bytes_that_are_no_frame_end_a_link(rt: HostRuntime) -> Result<(), Fail> {
    let alloc = rt.alloc();
    let watched = Watched::new(alloc)?;
    let helper = boxed(alloc, watched.helper(alloc, false, false)?)?;
    let mut link = HelperLink::new(alloc, helper).ok().ok_or("a link")?;
    let sent = link.write(&[0x18, 0, 1]) == Ok(3);
    let ended = link.recv(&mut [0; 4]) == Ok(0);
    let told = link.talk().last() == Some(&TalkEvent::Ended);
    link.close_and_drop();
    expect(&rt, "a reply", &[sent, ended, told, watched.is_gone(0, 0)]);
    Ok(())
}

// Where memory is refused to a new link its helper is let go; `rt try --test --fail-alloc` refuses
// it.
#[test]
fn a_link_that_is_refused_lets_its_helper_go(rt: HostRuntime) -> Result<(), Fail> {
    let alloc = rt.alloc();
    let watched = Watched::new(alloc)?;
    let helper = boxed(alloc, watched.helper(alloc, false, false)?)?;
    if let Ok(mut link) = HelperLink::new(alloc, helper) {
        link.close_and_drop();
    }
    expect(&rt, "a new link", &[watched.is_gone(0, 0)]);
    Ok(())
}
