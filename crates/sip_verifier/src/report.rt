//! The lines of a report.

ghost use Rattle.std.specs.Prelude.{◌≡◌, ℕ, ◌+◌, ◌<◌, ◌≤◌, List, ◌++◌, ◌∷◌, [], length, take};
ghost use Rattle.std.specs.Prelude.{codes, decimal, if◌then◌else◌, MatchResult, OnOk};
ghost use Rattle.arrayvec.specs.ArrayVec.{array_vec_len};
ghost use Rattle.sip_ports.specs.Ports.{GoesOn, HasCause, SendsWhole, outs};
ghost use Rattle.sip_vector.specs.Answers.{pairs, number};
ghost use Rattle.sip_verifier.specs.Reports.{dropped, line, pair_text, parameter, query_word};
ghost use Rattle.sip_verifier.specs.Reports.{reason_name, rejection, side_parameter};

use arrayvec::ArrayVec;
use itoa::Buffer;
use sip_ports::{PortStop, Sink, write_whole};
use sip_stream::text::{put, put_number};
use sip_vector::{Entry, Query, Side};
use sip_wire::Reason;

/// How many bytes of a line are gathered before they are written. Only a line of pairs may be
/// longer, and is written in parts.
const ROOM: usize = 1024;

/// The most bytes of a pair and the space before it: two numbers of at most 20 bytes, a colon, a
/// space.
const MOST_PAIR: usize = 42;

// Adds a space and a pair.
fn put_pair(gathered: &mut ArrayVec<u8, ROOM>, entry: &Entry)
    requires { array_vec_len gathered.old + MOST_PAIR ≤ ROOM }
    ensures items { gathered.new.items ≡ gathered.old.items ++ 32 ∷ pair_text entry.now }
    ensures len { array_vec_len gathered.new ≤ array_vec_len gathered.old + MOST_PAIR }
{
    let mut digits = Buffer::new();
    put(gathered, b" ");
    put_number(gathered, entry.index);
    put(gathered, b":");
    put(gathered, digits.format(entry.value).as_bytes());
}

// Adds a number behind a colon.
fn put_parameter(gathered: &mut ArrayVec<u8, ROOM>, number: u64)
    requires { array_vec_len gathered.old + 21 ≤ ROOM }
    ensures items { gathered.new.items ≡ gathered.old.items ++ parameter number }
    ensures len { array_vec_len gathered.new ≤ array_vec_len gathered.old + 21 }
{
    put(gathered, b":");
    put_number(gathered, number);
}

// Adds a side's number behind a colon.
fn put_side(gathered: &mut ArrayVec<u8, ROOM>, side: Side)
    requires { array_vec_len gathered.old + 2 ≤ ROOM }
    ensures items { gathered.new.items ≡ gathered.old.items ++ side_parameter side }
    ensures len { array_vec_len gathered.new ≡ array_vec_len gathered.old + 2 }
{
    match side {
        Side::First => put(gathered, b":0"),
        Side::Second => put(gathered, b":1"),
    }
}

/// The word that asks a query, as the line of its answer begins with it.
pub fn query_word(query: &Query) -> ArrayVec<u8, ROOM>
    ensures items { result.items ≡ query_word query.now }
    ensures len { array_vec_len result ≤ 60 }
{
    let mut gathered = ArrayVec::new();
    match query {
        Query::Sub { lo, hi } => {
            put(&mut gathered, b"sub");
            put_parameter(&mut gathered, *lo);
            put_parameter(&mut gathered, *hi);
        }
        Query::Range { side, lo, hi } => {
            put(&mut gathered, b"range");
            put_side(&mut gathered, *side);
            put_parameter(&mut gathered, *lo);
            put_parameter(&mut gathered, *hi);
        }
        Query::F2 { side } => {
            put(&mut gathered, b"f2");
            put_side(&mut gathered, *side);
        }
        Query::Inner => put(&mut gathered, b"inner"),
        Query::Heavy { side, at_least } => {
            put(&mut gathered, b"heavy");
            put_side(&mut gathered, *side);
            put_parameter(&mut gathered, *at_least);
        }
        Query::Share { side, num, den } => {
            put(&mut gathered, b"share");
            put_side(&mut gathered, *side);
            put_parameter(&mut gathered, *num as u64);
            put_parameter(&mut gathered, *den as u64);
        }
        Query::Above { side, at_least } => {
            put(&mut gathered, b"above");
            put_side(&mut gathered, *side);
            put_parameter(&mut gathered, *at_least);
        }
    }
    gathered
}

// Writes what is gathered where it leaves no room for a pair and a byte more.
fn make_room<K: Sink>(sink: &mut K, gathered: &mut ArrayVec<u8, ROOM>) -> Result<(), PortStop>
    ensures talk { MatchResult result
        (λ _. (sent : List ℕ) × (gathered.old.items ≡ sent ++ gathered.new.items)
        × GoesOn (K.talk sink.old) (K.talk sink.new) (outs sent))
        (λ _. (n : ℕ) × (n < array_vec_len gathered.old)
        × GoesOn (K.talk sink.old) (K.talk sink.new) (outs (take n gathered.old.items))) }
    ensures room { OnOk result (array_vec_len gathered.new + MOST_PAIR < ROOM) }
    ensures cause { HasCause K.faults K.wants K.is_sure sink.old sink.new result }
{
    if gathered.remaining_capacity() > MOST_PAIR {
        return Ok(());
    }
    write_whole(sink, gathered.as_slice())?;
    gathered.clear();
    Ok(())
}

/// Writes the line of an accepted query that asks for a number: its word, and the number.
///
/// # Errors
///
/// Those of the sink, which a front of the line has then reached that is shorter than it.
pub fn write_number<K: Sink>(sink: &mut K, query: &Query, value: i64) -> Result<(), PortStop>
    ensures talk { SendsWhole (K.talk sink.old)
        (K.talk sink.new) result (line query.now (number value)) }
    ensures cause { HasCause K.faults K.wants K.is_sure sink.old sink.new result }
{
    let mut digits = Buffer::new();
    let mut gathered = query_word(query);
    put(&mut gathered, b" ");
    put(&mut gathered, digits.format(value).as_bytes());
    put(&mut gathered, b"\n");
    write_whole(sink, gathered.as_slice())
}

/// Writes the line of an accepted query that asks for entries: its word, and the entries as pairs
/// `INDEX:VALUE`, or `none`. A long line is written in parts, without memory beyond a fixed buffer.
///
/// # Errors
///
/// Those of the sink, which a front of the line has then reached that is shorter than it.
pub fn write_pairs<K: Sink>(sink: &mut K, query: &Query, entries: &[Entry]) -> Result<(), PortStop>
    ensures talk { SendsWhole (K.talk sink.old)
        (K.talk sink.new) result (line query.now (pairs entries.now)) }
    ensures cause { HasCause K.faults K.wants K.is_sure sink.old sink.new result }
{
    let mut gathered = query_word(query);
    if entries.is_empty() {
        put(&mut gathered, b" none");
    }
    for entry in entries {
        make_room(sink, &mut gathered)?;
        put_pair(&mut gathered, entry);
    }
    put(&mut gathered, b"\n");
    write_whole(sink, gathered.as_slice())
}

// Adds a reason's name, which a refusal has with its code.
fn put_reason(gathered: &mut ArrayVec<u8, ROOM>, reason: Reason)
    requires { array_vec_len gathered.old + 32 ≤ ROOM }
    ensures items { gathered.new.items ≡ gathered.old.items ++ reason_name reason }
    ensures len { array_vec_len gathered.new ≤ array_vec_len gathered.old + 32 }
{
    match reason {
        Reason::Closed => put(gathered, b"Closed"),
        Reason::BadKind => put(gathered, b"BadKind"),
        Reason::BadLength => put(gathered, b"BadLength"),
        Reason::BadCount => put(gathered, b"BadCount"),
        Reason::BadNumber => put(gathered, b"BadNumber"),
        Reason::Refused(code) => {
            put(gathered, b"Refused(");
            put_number(gathered, code as u64);
            put(gathered, b")");
        }
        Reason::BadOrder => put(gathered, b"BadOrder"),
        Reason::TooMany => put(gathered, b"TooMany"),
        Reason::BadFlags => put(gathered, b"BadFlags"),
        Reason::HeavySibling => put(gathered, b"HeavySibling"),
        Reason::Pairs => put(gathered, b"Pairs"),
        Reason::LightParent => put(gathered, b"LightParent"),
        Reason::Sum => put(gathered, b"Sum"),
        Reason::Total => put(gathered, b"Total"),
        Reason::Root => put(gathered, b"Root"),
        Reason::BadFound => put(gathered, b"BadFound"),
        Reason::NotAlone => put(gathered, b"NotAlone"),
    }
}

// Adds in which round replies have which fault, and a line feed.
fn put_fault(gathered: &mut ArrayVec<u8, ROOM>, round: u8, reason: Reason)
    requires { array_vec_len gathered.old + 61 ≤ ROOM }
    ensures { gathered.new.items ≡ gathered.old.items ++ codes " round " ++ decimal round
        ++ codes " " ++ reason_name reason ++ 10 ∷ [] }
{
    put(gathered, b" round ");
    put_number(gathered, round as u64);
    put(gathered, b" ");
    put_reason(gathered, reason);
    put(gathered, b"\n");
}

// The line of a rejection.
fn rejection_line(query: u8, round: u8, reason: Reason) -> ArrayVec<u8, ROOM>
    ensures { result.items ≡ rejection query round reason }
{
    let mut gathered = ArrayVec::new();
    put(&mut gathered, b"rejected query ");
    put_number(&mut gathered, query as u64);
    put_fault(&mut gathered, round, reason);
    gathered
}

/// Writes the line of a rejection, `rejected query K round J REASON`, in one piece and without
/// memory beyond a fixed buffer. Queries are numbered from 1.
///
/// # Errors
///
/// Those of the sink, which a front of the line has then reached that is shorter than it.
pub(crate) fn write_rejection<K: Sink>(
    sink: &mut K,
    query: u8,
    round: u8,
    reason: Reason,
) -> Result<(), PortStop>
    ensures talk { SendsWhole (K.talk sink.old)
        (K.talk sink.new) result (rejection query round reason) }
    ensures cause { HasCause K.faults K.wants K.is_sure sink.old sink.new result }
{
    write_whole(sink, rejection_line(query, round, reason).as_slice())
}

// The line of a helper that is dropped.
fn dropped_line(helper: u8, query: u8, round: u8, reason: Reason) -> ArrayVec<u8, ROOM>
    ensures { result.items ≡ dropped helper query round reason }
{
    let mut gathered = ArrayVec::new();
    put(&mut gathered, b"dropped helper ");
    put_number(&mut gathered, helper as u64);
    put(&mut gathered, b" query ");
    put_number(&mut gathered, query as u64);
    put_fault(&mut gathered, round, reason);
    gathered
}

/// Writes the line of a helper that is dropped, `dropped helper I query K round J REASON`, in one
/// piece and without memory beyond a fixed buffer. Helpers and queries are numbered from 1.
///
/// # Errors
///
/// Those of the sink, which a front of the line has then reached that is shorter than it.
pub fn write_dropped<K: Sink>(
    sink: &mut K,
    helper: u8,
    query: u8,
    round: u8,
    reason: Reason,
) -> Result<(), PortStop>
    ensures talk { SendsWhole (K.talk sink.old)
        (K.talk sink.new) result (dropped helper query round reason) }
    ensures cause { HasCause K.faults K.wants K.is_sure sink.old sink.new result }
{
    write_whole(sink, dropped_line(helper, query, round, reason).as_slice())
}
