//! A stream, sent to each helper of a panel.

ghost use Rattle.std.specs.Prelude.{◌≡◌, ◌≢◌, ◌<◌, ◌≤◌, ◌^◌, ◌++◌, ◌∷◌, ℕ, List, [], All, length};
ghost use Rattle.std.specs.Prelude.{pos, IfOk, OnOk, IsSome, IsTrue, Err, Some};
ghost use Rattle.sip_ports.specs.Ports.{Lasts};
ghost use Rattle.sip_vector.specs.declared.query.Query.{Query as AnyQuery};
ghost use Rattle.sip_vector.specs.declared.update.Side.{Side as AnySide};
ghost use Rattle.sip_vector.specs.declared.update.Update.{Update as AnyUpdate};
ghost use Rattle.sip_wire.specs.declared.message.Message.TheVariants as messages;
ghost use Rattle.sip_wire.specs.Spelling.{fits, spelling};
ghost use Rattle.sip_wire.specs.Table.{most_rows};
ghost use Rattle.sip_wire.specs.Versions.{index_width, number_of};
ghost use Rattle.sip_verifier.specs.Feeding.{due_at_end, due_with, waiting_with};
ghost use Rattle.sip_verifier.specs.Gathering.{AreOf, legal};
ghost use Rattle.sip_verifier.specs.inside.Passing.{taken_with};
ghost use Rattle.sip_verifier.specs.Snapshots.{counts};
ghost use Rattle.sip_verifier.specs.QuerySeats.{HaveRoom};
ghost use Rattle.sip_verifier.specs.Seats.{AreSeats};
ghost use Rattle.sip_verifier.specs.Statuses.{Stops, stops_following};
ghost use Rattle.sip_verifier.specs.Weights.{AreWeights};
ghost use Rattle.sip_session.specs.inside.Hearing.{Each, HearsStream, Says, SaysAll, SaysBehind};
ghost use Rattle.sip_session.specs.Links.{EachLink, talks_of};

use sip_duel::HelperLink;
use sip_ports::{PortStop, Sink, Source};
use sip_stream::Reader;
use sip_vector::{Depth, Side, Update};
use sip_verifier::{Feed, Seats, Status, Task, Weights, on_link, on_stream};
use sip_wire::{Message, Version, encode};

/// Sends a message to a helper.
fn say(link: &mut HelperLink, message: &Message, version: Version) -> Result<(), PortStop>
    requires { IsTrue (fits version message.now) }
    ensures talk { Says link.old.kept.talk.items link.new.kept.talk.items
        (spelling version message.now) result }
    ensures sure { ⟦<HelperLink as Sink>⟧.is_sure link.old
        → ⟦<HelperLink as Sink>⟧.is_sure link.new }
    ensures cause { result ≢ Err PortStop.Failed }
{
    encode(message, version, link)
}

/// Sends the updates that wait to a helper.
fn copy(link: &mut HelperLink, feed: &Feed) -> Result<(), PortStop>
    requires { 0 < length feed.now.waiting }
    ensures talk { Says link.old.kept.talk.items link.new.kept.talk.items
        (spelling feed.now.version (messages.Updates (record { items = feed.now.waiting })))
        result }
    ensures sure { ⟦<HelperLink as Sink>⟧.is_sure link.old
        → ⟦<HelperLink as Sink>⟧.is_sure link.new }
    ensures cause { result ≢ Err PortStop.Failed }
{
    feed.copy_to(link)
}

/// Sends a message to the helpers that are left: so many were dropped.
fn say_behind(
    links: &mut [HelperLink],
    gone: usize,
    message: &Message,
    version: Version,
) -> Result<(), PortStop>
    requires gone { gone ≤ length links.old }
    requires fits { IsTrue (fits version message.now) }
    ensures talks { SaysBehind gone (talks_of links.old) (talks_of links.new)
        (spelling version message.now) result }
    ensures count { length links.new ≡ length links.old }
    ensures sure { EachLink (λ _ l m. ⟦<HelperLink as Sink>⟧.is_sure l
        → ⟦<HelperLink as Sink>⟧.is_sure m) links.old links.new }
    ensures cause { result ≢ Err PortStop.Failed }
{
    for place in gone..links.len() {
        say(&mut links[place], message, version)?;
    }
    Ok(())
}

/// Sends a message to each of these helpers.
fn say_all(links: &mut [HelperLink], message: &Message, version: Version) -> Result<(), PortStop>
    requires { IsTrue (fits version message.now) }
    ensures talks { SaysAll (talks_of links.old)
        (talks_of links.new) (spelling version message.now) result }
    ensures count { length links.new ≡ length links.old }
    ensures sure { EachLink (λ _ l m. ⟦<HelperLink as Sink>⟧.is_sure l
        → ⟦<HelperLink as Sink>⟧.is_sure m) links.old links.new }
    ensures cause { result ≢ Err PortStop.Failed }
{
    say_behind(links, 0, message, version)
}

/// Opens the talk with each helper. The opening is made in a call of its own, since a message is as
/// large as the longest frame's rows: the stack has it no longer than that.
#[inline(never)]
fn open_all(links: &mut [HelperLink], depth: u8, version: Version) -> Result<(), PortStop>
    requires { IsTrue (fits version (messages.Open (number_of version) depth)) }
    ensures talks { SaysAll (talks_of links.old) (talks_of links.new)
        (spelling version (messages.Open (number_of version) depth)) result }
    ensures count { length links.new ≡ length links.old }
    ensures sure { EachLink (λ _ l m. ⟦<HelperLink as Sink>⟧.is_sure l
        → ⟦<HelperLink as Sink>⟧.is_sure m) links.old links.new }
    ensures cause { result ≢ Err PortStop.Failed }
{
    let opening = Message::Open {
        version: version.number(),
        depth,
    };
    say_all(links, &opening, version)
}

/// Sends the end of the stream to each helper, which is made in a call of its own too.
#[inline(never)]
fn end_all(links: &mut [HelperLink], version: Version) -> Result<(), PortStop>
    ensures talks { SaysAll (talks_of links.old) (talks_of links.new)
        (spelling version messages.EndStream) result }
    ensures count { length links.new ≡ length links.old }
    ensures sure { EachLink (λ _ l m. ⟦<HelperLink as Sink>⟧.is_sure l
        → ⟦<HelperLink as Sink>⟧.is_sure m) links.old links.new }
    ensures cause { result ≢ Err PortStop.Failed }
{
    say_all(links, &Message::EndStream, version)
}

/// Sends the updates that wait as a frame to each helper.
#[inline(never)]
fn copy_all(links: &mut [HelperLink], feed: &Feed) -> Result<(), PortStop>
    requires { 0 < length feed.now.waiting }
    ensures talks { SaysAll (talks_of links.old)
        (talks_of links.new)
        (spelling feed.now.version (messages.Updates (record { items = feed.now.waiting })))
        result }
    ensures count { length links.new ≡ length links.old }
    ensures sure { EachLink (λ _ l m. ⟦<HelperLink as Sink>⟧.is_sure l
        → ⟦<HelperLink as Sink>⟧.is_sure m) links.old links.new }
    ensures cause { result ≢ Err PortStop.Failed }
{
    for place in 0..links.len() {
        copy(&mut links[place], feed)?;
    }
    Ok(())
}

/// Takes one more record of the stream, which waits for its frame. With the last one of a frame the
/// seats take the frame's updates as a block, and it is sent to each helper.
fn pass_on_all(
    update: &Update,
    feed: &mut Feed,
    seats: &mut Seats,
    links: &mut [HelperLink],
) -> Result<(), PortStop>
    requires few { length feed.old.waiting < most_rows }
    requires fits { update.now.item < 256 ^ index_width feed.old.version }
    requires delta { update.now.delta ≢ pos 0 }
    requires item { update.now.item < 2 ^ seats.old.depth }
    requires items { All (λ u. u.item < 2 ^ seats.old.depth) feed.old.waiting }
    requires room { (side : AnySide)
        → HaveRoom seats.old.seats (feed.old.waiting ++ update.now ∷ []) side }
    ensures talks { SaysAll (talks_of links.old)
        (talks_of links.new)
        (due_with feed.old.version feed.old.waiting update.now) result }
    ensures count { length links.new ≡ length links.old }
    ensures sure { EachLink (λ _ l m. ⟦<HelperLink as Sink>⟧.is_sure l
        → ⟦<HelperLink as Sink>⟧.is_sure m) links.old links.new }
    ensures version { feed.new.version ≡ feed.old.version }
    ensures waiting { OnOk result (feed.new.waiting
        ≡ waiting_with feed.old.waiting update.now) }
    ensures few { OnOk result (length feed.new.waiting < most_rows) }
    ensures items { OnOk result (All (λ u. u.item < 2 ^ seats.old.depth) feed.new.waiting) }
    ensures depth { seats.new.depth ≡ seats.old.depth }
    ensures stands { (depth : ℕ) (queries : List AnyQuery) (blocks : List (List ℕ))
        (stream : List AnyUpdate)
        → AreSeats depth queries blocks stream seats.old
        → AreSeats depth queries blocks
        (stream ++ taken_with feed.old.waiting update.now) seats.new }
    ensures cause { result ≢ Err PortStop.Failed }
{
    feed.push(update);
    if !feed.is_full() {
        return Ok(());
    }
    seats.update_all(feed.waiting());
    copy_all(links, feed)?;
    feed.clear();
    Ok(())
}

/// Sends each helper the updates that wait, where there are any, and the end of the stream.
fn finish_all(links: &mut [HelperLink], feed: &Feed, version: Version) -> Result<(), PortStop>
    requires version { version ≡ feed.now.version }
    requires few { length feed.now.waiting < most_rows }
    ensures talks { SaysAll (talks_of links.old)
        (talks_of links.new) (due_at_end version feed.now.waiting) result }
    ensures count { length links.new ≡ length links.old }
    ensures sure { EachLink (λ _ l m. ⟦<HelperLink as Sink>⟧.is_sure l
        → ⟦<HelperLink as Sink>⟧.is_sure m) links.old links.new }
    ensures cause { result ≢ Err PortStop.Failed }
{
    if feed.waiting().is_empty() {
        return end_all(links, version);
    }
    copy_all(links, feed)?;
    end_all(links, version)
}

/// Says farewell to the helpers that are left: so many were dropped.
#[inline(never)]
pub(crate) fn say_bye(
    links: &mut [HelperLink],
    gone: usize,
    version: Version,
) -> Result<(), PortStop>
    requires { gone ≤ length links.old }
    ensures talks { SaysBehind gone (talks_of links.old) (talks_of links.new)
        (spelling version messages.Bye) result }
    ensures count { length links.new ≡ length links.old }
    ensures sure { EachLink (λ _ l m. ⟦<HelperLink as Sink>⟧.is_sure l
        → ⟦<HelperLink as Sink>⟧.is_sure m) links.old links.new }
    ensures cause { result ≢ Err PortStop.Failed }
{
    say_behind(links, gone, &Message::Bye, version)
}

/// Opens the talk with each helper, reads the stream of `first` to its end, sends it to each and
/// adds it to the seats. Answers the weights of the stream's sides.
///
/// # Errors
///
/// What comes first: `OutOfMemory` of a link; `BadStream`, `ReadFault`, `OutOfMemory` of `first`.
/// The end of the stream was then not sent whole to each, and what the seats stand for is not said.
#[inline(never)]
pub(crate) fn follow_all<A: Source>(
    task: &Task,
    seats: &mut Seats,
    first: &mut A,
    links: &mut [HelperLink],
) -> Result<Weights, Status>
    requires { AreOf task.now [] seats.old }
    ensures hears { (bytes : List ℕ) (at_blocks : List (List ℕ)) → A.left first.old ≡ Some bytes
        → AreSeats task.now.depth task.now.queries.items at_blocks [] seats.old
        → Each (λ _ o n. HearsStream task.now bytes at_blocks (A.left first.new) seats.new result o
        n) (talks_of links.old) (talks_of links.new) }
    ensures count { length links.new ≡ length links.old }
    ensures sure { EachLink (λ _ l m. ⟦<HelperLink as Sink>⟧.is_sure l
        → ⟦<HelperLink as Sink>⟧.is_sure m) links.old links.new }
    ensures seats { IfOk result (λ _. (stream : List AnyUpdate) × AreOf task.now stream seats.new) }
    // A helper heard the stream, so that it is known which it was.
    ensures weights { 0 < length links.old → (bytes : List ℕ) → A.left first.old ≡ Some bytes
        → IfOk result (AreWeights (legal task.now bytes)) }
    ensures fault { Stops stops_following (counts (A.faults first.old) 0 0 0 0)
        (counts (A.faults first.new) 0 0 0 0) result }
    ensures told { IsSome (A.left first.old) → IsSome (A.left first.new) }
    ensures first { Lasts A.faults A.wants A.is_sure first.old first.new }
{
    let levels = task.depth.get();
    prove!(levels <= Depth::MOST);
    let version = task.version();
    let mut place = None;
    let feed = Feed::new_in(&mut place, version);
    on_link(open_all(links, levels, version))?;
    let mut reader = Reader::new(task.depth, task.form);
    while let Some(update) = on_stream(reader.next(first))? {
        on_link(pass_on_all(&update, feed, seats, links))?;
        feed.take_held(&mut reader, first);
    }
    seats.update_all(feed.waiting());
    on_link(finish_all(links, feed, version))?;
    Ok(Weights {
        first: reader.weight(Side::First),
        second: reader.weight(Side::Second),
    })
}
