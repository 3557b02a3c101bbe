//! From the body of a frame to its message, which is written where a message of the caller's lies.
#![tactic(auto, unfolding(crate::specs::Spelling::body_fault, crate::specs::Spelling::numbers_in, crate::specs::Spelling::all_hold))]

ghost use Rattle.std.specs.Prelude.{◌≡◌, ◌≤◌, ◌+◌, ◌*◌, [], IsTrue, length};
ghost use Rattle.sip_wire.specs.declared.kind.Kind.TheVariants as kinds;
ghost use Rattle.sip_wire.specs.declared.message.Message.TheVariants as messages;
ghost use Rattle.sip_wire.specs.Table.{query_shape, shape};
ghost use Rattle.sip_wire.specs.Versions.{index_width};
ghost use Rattle.sip_wire.specs.Filling.{filled};
ghost use Rattle.sip_wire.specs.Spelling.{ReadsBody, ReadsQuery, mark_fits};

use crate::Version;
use crate::fitting::{is_found, is_opening, within_weights};
use crate::kind::Kind;
use crate::message::{Held, MOST_COEFFICIENTS, MOST_NODES, MOST_REFUSAL, Mark, Message, WireFault};
use crate::numbers::{is_element, is_small, take_index, take_u8, take_u32, take_u64};
use crate::row::side_of;
use crate::rows::{fill_counted, fill_rows};
use arrayvec::ArrayVec;
use sip_vector::Query;

// A message is as large as the longest frame's rows, and making one zeroes all of it. What comes
// once a round is written in place where the message is of its kind.

#[inline(never)]
fn set_reveal(message: &mut Message, number: u64)
    ensures { message.new ≡ messages.Reveal number }
{
    if let Message::Reveal { challenge } = message {
        *challenge = number;
        return;
    }
    *message = Message::Reveal { challenge: number };
}

#[inline(never)]
fn set_poly(message: &mut Message, a: u64, b: u64, c: u64)
    ensures { message.new ≡ messages.Poly a b c }
{
    if let Message::Poly { c0, c1, c2 } = message {
        *c0 = a;
        *c1 = b;
        *c2 = c;
        return;
    }
    *message = Message::Poly {
        c0: a,
        c1: b,
        c2: c,
    };
}

#[inline(never)]
fn set_siblings(message: &mut Message, below: Option<u64>, above: Option<u64>)
    ensures { message.new ≡ messages.Siblings below above }
{
    if let Message::Siblings { left, right } = message {
        *left = below;
        *right = above;
        return;
    }
    *message = Message::Siblings {
        left: below,
        right: above,
    };
}

#[inline(never)]
fn set_level_end(message: &mut Message)
    ensures { message.new ≡ messages.LevelEnd }
{
    if let Message::LevelEnd = message {
        return;
    }
    *message = Message::LevelEnd;
}

fn read_open(version: Version, body: &[u8], message: &mut Message) -> Result<(), WireFault>
    requires { length body.now ≡ 2 }
    ensures { ReadsBody version kinds.Open body.now (filled message.new result) }
{
    let (number, rest) = take_u8(body);
    let (depth, _) = take_u8(rest);
    if !is_opening(number, depth) {
        return Err(WireFault::BadNumber);
    }
    *message = Message::Open {
        version: number,
        depth,
    };
    Ok(())
}

fn read_reveal(version: Version, body: &[u8], message: &mut Message) -> Result<(), WireFault>
    requires { length body.now ≡ 8 }
    ensures { ReadsBody version kinds.Reveal body.now (filled message.new result) }
{
    let (challenge, _) = take_u64(body);
    if !is_element(challenge) {
        return Err(WireFault::BadNumber);
    }
    set_reveal(message, challenge);
    Ok(())
}

fn read_claim(version: Version, body: &[u8], message: &mut Message) -> Result<(), WireFault>
    requires { length body.now ≡ 8 }
    ensures { ReadsBody version kinds.Claim body.now (filled message.new result) }
{
    let (value, _) = take_u64(body);
    if !is_small(value) {
        return Err(WireFault::BadNumber);
    }
    *message = Message::Claim {
        value: value.cast_signed(),
    };
    Ok(())
}

fn read_poly(version: Version, body: &[u8], message: &mut Message) -> Result<(), WireFault>
    requires { length body.now ≡ 24 }
    ensures { ReadsBody version kinds.Poly body.now (filled message.new result) }
{
    let (c0, rest) = take_u64(body);
    let (c1, rest) = take_u64(rest);
    let (c2, _) = take_u64(rest);
    if !is_element(c0) || !is_element(c1) || !is_element(c2) {
        return Err(WireFault::BadNumber);
    }
    set_poly(message, c0, c1, c2);
    Ok(())
}

fn read_refuse(version: Version, body: &[u8], message: &mut Message) -> Result<(), WireFault>
    requires { length body.now ≡ 1 }
    ensures { ReadsBody version kinds.Refuse body.now (filled message.new result) }
{
    let (code, _) = take_u8(body);
    if code < 1 || code > MOST_REFUSAL {
        return Err(WireFault::BadNumber);
    }
    *message = Message::Refuse { code };
    Ok(())
}

fn read_siblings(version: Version, body: &[u8], message: &mut Message) -> Result<(), WireFault>
    requires { IsTrue ((shape version kinds.Siblings).has_length (length body.now)) }
    ensures { ReadsBody version kinds.Siblings body.now (filled message.new result) }
{
    let (flags, rest) = take_u8(body);
    match (flags, body.len()) {
        (0, 1) => {
            set_siblings(message, None, None);
            Ok(())
        }
        (1, 9) => {
            let (left, _) = take_u64(rest);
            if !is_element(left) {
                return Err(WireFault::BadNumber);
            }
            set_siblings(message, Some(left), None);
            Ok(())
        }
        (2, 9) => {
            let (right, _) = take_u64(rest);
            if !is_element(right) {
                return Err(WireFault::BadNumber);
            }
            set_siblings(message, None, Some(right));
            Ok(())
        }
        (3, 17) => {
            let (left, rest) = take_u64(rest);
            let (right, _) = take_u64(rest);
            if !is_element(left) || !is_element(right) {
                return Err(WireFault::BadNumber);
            }
            set_siblings(message, Some(left), Some(right));
            Ok(())
        }
        _ => Err(WireFault::BadCount),
    }
}

/// Whether the body of a query of this code is so long; no body is where the code is none.
fn is_query_of(version: Version, code: u8, length: usize) -> bool
    ensures { result ≡ mark_fits (query_shape version) code length }
{
    match (version, code) {
        (Version::One, 1) => length == 9,
        (Version::One, 2) => length == 10,
        (Version::Two, 1) => length == 17,
        (Version::Two, 2) => length == 18,
        (_, 3) => length == 2,
        (_, 4) => length == 1,
        (_, 5) | (Version::Two, 6 | 7) => length == 10,
        _ => false,
    }
}

fn sub_of(version: Version, rest: &[u8]) -> Option<Query>
    requires { 2 * index_width version ≤ length rest.now }
    ensures { ReadsQuery version 1 rest.now result }
{
    let (lo, rest) = take_index(version, rest);
    let (hi, _) = take_index(version, rest);
    if lo > hi {
        return None;
    }
    Some(Query::Sub { lo, hi })
}

fn range_of(version: Version, rest: &[u8]) -> Option<Query>
    requires { 1 + 2 * index_width version ≤ length rest.now }
    ensures { ReadsQuery version 2 rest.now result }
{
    let (side, rest) = take_u8(rest);
    let (lo, rest) = take_index(version, rest);
    let (hi, _) = take_index(version, rest);
    if side > 1 || lo > hi {
        return None;
    }
    Some(Query::Range {
        side: side_of(side),
        lo,
        hi,
    })
}

fn moment_of(version: Version, rest: &[u8]) -> Option<Query>
    requires { 1 ≤ length rest.now }
    ensures { ReadsQuery version 3 rest.now result }
{
    let (side, _) = take_u8(rest);
    if side > 1 {
        return None;
    }
    Some(Query::F2 {
        side: side_of(side),
    })
}

fn heavy_of(version: Version, rest: &[u8]) -> Option<Query>
    requires { 9 ≤ length rest.now }
    ensures { ReadsQuery version 5 rest.now result }
{
    let (side, rest) = take_u8(rest);
    let (at_least, _) = take_u64(rest);
    if side > 1 || at_least < 1 || at_least > i64::MAX as u64 {
        return None;
    }
    Some(Query::Heavy {
        side: side_of(side),
        at_least,
    })
}

fn share_of(version: Version, rest: &[u8]) -> Option<Query>
    requires { 9 ≤ length rest.now }
    ensures { ReadsQuery version 6 rest.now result }
{
    let (side, rest) = take_u8(rest);
    let (num, rest) = take_u32(rest);
    let (den, _) = take_u32(rest);
    if side > 1 || num < 1 || num > den || den > Query::MOST_SHARE {
        return None;
    }
    Some(Query::Share {
        side: side_of(side),
        num,
        den,
    })
}

fn above_of(version: Version, rest: &[u8]) -> Option<Query>
    requires { 9 ≤ length rest.now }
    ensures { ReadsQuery version 7 rest.now result }
{
    let (side, rest) = take_u8(rest);
    let (at_least, _) = take_u64(rest);
    if side > 1 || at_least < 1 || at_least > i64::MAX as u64 {
        return None;
    }
    Some(Query::Above {
        side: side_of(side),
        at_least,
    })
}

/// The query of a code, behind which these bytes stand, if each number is one that its field may
/// hold.
fn query_behind(version: Version, code: u8, rest: &[u8]) -> Option<Query>
    requires { IsTrue (mark_fits (query_shape version) code (1 + length rest.now)) }
    ensures { ReadsQuery version code rest.now result }
{
    match code {
        1 => sub_of(version, rest),
        2 => range_of(version, rest),
        3 => moment_of(version, rest),
        4 => Some(Query::Inner),
        5 => heavy_of(version, rest),
        6 => share_of(version, rest),
        _ => above_of(version, rest),
    }
}

fn read_query(version: Version, body: &[u8], message: &mut Message) -> Result<(), WireFault>
    requires { IsTrue ((shape version kinds.Query).has_length (length body.now)) }
    ensures { ReadsBody version kinds.Query body.now (filled message.new result) }
{
    let (code, rest) = take_u8(body);
    if !is_query_of(version, code, body.len()) {
        return Err(WireFault::BadCount);
    }
    match query_behind(version, code, rest) {
        Some(query) => {
            *message = Message::Query(query);
            Ok(())
        }
        None => Err(WireFault::BadNumber),
    }
}

// Rows are read into those of the message where it is of their kind, so that a frame like the last
// one moves nothing. Where it is of another kind it is made anew, in a call of its own.

#[inline(never)]
fn begin_updates(message: &mut Message)
    ensures { message.new ≡ messages.Updates (record { items = [] }) }
{
    *message = Message::Updates(ArrayVec::new());
}

fn read_updates(version: Version, body: &[u8], message: &mut Message) -> Result<(), WireFault>
    requires { 2 ≤ length body.now }
    ensures { ReadsBody version kinds.Updates body.now (filled message.new result) }
{
    if let Message::Updates(rows) = message {
        return fill_counted(version, body, rows);
    }
    begin_updates(message);
    match message {
        Message::Updates(rows) => fill_counted(version, body, rows),
        _ => unreachable!(),
    }
}

#[inline(never)]
fn begin_entries(message: &mut Message)
    ensures { message.new ≡ messages.Entries (record { items = [] }) }
{
    *message = Message::Entries(ArrayVec::new());
}

fn read_entries(version: Version, body: &[u8], message: &mut Message) -> Result<(), WireFault>
    requires { 2 ≤ length body.now }
    ensures { ReadsBody version kinds.Entries body.now (filled message.new result) }
{
    if let Message::Entries(rows) = message {
        return fill_counted(version, body, rows);
    }
    begin_entries(message);
    match message {
        Message::Entries(rows) => fill_counted(version, body, rows),
        _ => unreachable!(),
    }
}

#[inline(never)]
fn begin_leaves(message: &mut Message)
    ensures { message.new ≡ messages.Leaves (record { items = [] }) }
{
    *message = Message::Leaves(ArrayVec::new());
}

fn read_leaves(version: Version, body: &[u8], message: &mut Message) -> Result<(), WireFault>
    requires { 2 ≤ length body.now }
    ensures { ReadsBody version kinds.Leaves body.now (filled message.new result) }
{
    if let Message::Leaves(rows) = message {
        return fill_counted(version, body, rows);
    }
    begin_leaves(message);
    match message {
        Message::Leaves(rows) => fill_counted(version, body, rows),
        _ => unreachable!(),
    }
}

#[inline(never)]
fn begin_nodes(message: &mut Message)
    ensures { message.new ≡ messages.Nodes (record { items = [] }) }
{
    *message = Message::Nodes(ArrayVec::new());
}

fn read_nodes(version: Version, body: &[u8], message: &mut Message) -> Result<(), WireFault>
    requires { 2 ≤ length body.now }
    ensures { ReadsBody version kinds.Nodes body.now (filled message.new result) }
{
    if let Message::Nodes(rows) = message {
        return fill_counted(version, body, rows);
    }
    begin_nodes(message);
    match message {
        Message::Nodes(rows) => fill_counted(version, body, rows),
        _ => unreachable!(),
    }
}

fn read_ask_look(version: Version, body: &[u8], message: &mut Message) -> Result<(), WireFault>
    requires { length body.now ≡ 9 }
    ensures { ReadsBody version kinds.AskLook body.now (filled message.new result) }
{
    let (code, rest) = take_u8(body);
    let (item, _) = take_u64(rest);
    *message = Message::AskLook { code, item };
    Ok(())
}

fn read_found(version: Version, body: &[u8], message: &mut Message) -> Result<(), WireFault>
    requires { length body.now ≡ 9 }
    ensures { ReadsBody version kinds.Found body.now (filled message.new result) }
{
    let (flag, rest) = take_u8(body);
    let (index, _) = take_u64(rest);
    if !is_found(flag, index) {
        return Err(WireFault::BadNumber);
    }
    *message = Message::Found { flag, index };
    Ok(())
}

fn read_ask_moment(version: Version, body: &[u8], message: &mut Message) -> Result<(), WireFault>
    requires { length body.now ≡ 2 }
    ensures { ReadsBody version kinds.AskMoment body.now (filled message.new result) }
{
    let (side, rest) = take_u8(body);
    let (degree, _) = take_u8(rest);
    *message = Message::AskMoment { side, degree };
    Ok(())
}

#[inline(never)]
fn begin_power(message: &mut Message)
    ensures { message.new ≡ messages.Power (record { items = [] }) }
{
    *message = Message::Power(ArrayVec::new());
}

/// Reads the coefficients of a power of this degree, in place of those before.
fn fill_coefficients(
    version: Version,
    degree: u8,
    body: &[u8],
    coefficients: &mut ArrayVec<u64, MOST_COEFFICIENTS>,
) -> Result<(), WireFault>
    requires { IsTrue ((shape version (kinds.Power degree)).has_length (length body.now)) }
    ensures { ReadsBody version (kinds.Power degree) body.now
        (filled (messages.Power coefficients.new) result) }
{
    match fill_rows(version, degree as usize + 1, body, coefficients) {
        Some(()) => Ok(()),
        None => Err(WireFault::BadNumber),
    }
}

fn read_power(
    version: Version,
    degree: u8,
    body: &[u8],
    message: &mut Message,
) -> Result<(), WireFault>
    requires { IsTrue ((shape version (kinds.Power degree)).has_length (length body.now)) }
    ensures { ReadsBody version (kinds.Power degree) body.now (filled message.new result) }
{
    if let Message::Power(coefficients) = message {
        return fill_coefficients(version, degree, body, coefficients);
    }
    begin_power(message);
    match message {
        Message::Power(coefficients) => fill_coefficients(version, degree, body, coefficients),
        _ => unreachable!(),
    }
}

fn read_held(version: Version, body: &[u8], message: &mut Message) -> Result<(), WireFault>
    requires { length body.now ≡ 32 }
    ensures { ReadsBody version kinds.Held body.now (filled message.new result) }
{
    let (records, rest) = take_u64(body);
    let (first, rest) = take_u64(rest);
    let (second, rest) = take_u64(rest);
    let (fingerprint, _) = take_u64(rest);
    *message = Message::Held(Held {
        records,
        first,
        second,
        fingerprint,
    });
    Ok(())
}

fn read_recall(version: Version, body: &[u8], message: &mut Message) -> Result<(), WireFault>
    requires { length body.now ≡ 8 }
    ensures { ReadsBody version kinds.Recall body.now (filled message.new result) }
{
    let (count, _) = take_u64(body);
    *message = Message::Recall { count };
    Ok(())
}

#[inline(never)]
fn begin_marks(message: &mut Message)
    ensures { message.new ≡ messages.Marks (record { items = [] }) }
{
    *message = Message::Marks(ArrayVec::new());
}

/// Reads marks in place of those before.
fn fill_marks(
    version: Version,
    body: &[u8],
    marks: &mut ArrayVec<Mark, MOST_NODES>,
) -> Result<(), WireFault>
    requires { IsTrue ((shape version kinds.Marks).has_length (length body.now)) }
    ensures { ReadsBody version kinds.Marks body.now (filled (messages.Marks marks.new) result) }
{
    match fill_counted(version, body, marks) {
        Ok(()) if within_weights(marks) => Ok(()),
        Ok(()) => Err(WireFault::BadNumber),
        Err(fault) => Err(fault),
    }
}

fn read_marks(version: Version, body: &[u8], message: &mut Message) -> Result<(), WireFault>
    requires { IsTrue ((shape version kinds.Marks).has_length (length body.now)) }
    ensures { ReadsBody version kinds.Marks body.now (filled message.new result) }
{
    if let Message::Marks(marks) = message {
        return fill_marks(version, body, marks);
    }
    begin_marks(message);
    match message {
        Message::Marks(marks) => fill_marks(version, body, marks),
        _ => unreachable!(),
    }
}

/// Reads the message of a body that is as long as its kind has it. After a fault `message` is any.
pub fn read_body(
    version: Version,
    kind: Kind,
    body: &[u8],
    message: &mut Message,
) -> Result<(), WireFault>
    requires { IsTrue ((shape version kind).has_length (length body.now)) }
    ensures { ReadsBody version kind body.now (filled message.new result) }
{
    match kind {
        Kind::Open => read_open(version, body, message),
        Kind::Updates => read_updates(version, body, message),
        Kind::EndStream => {
            *message = Message::EndStream;
            Ok(())
        }
        Kind::Query => read_query(version, body, message),
        Kind::Reveal => read_reveal(version, body, message),
        Kind::Bye => {
            *message = Message::Bye;
            Ok(())
        }
        Kind::Claim => read_claim(version, body, message),
        Kind::Poly => read_poly(version, body, message),
        Kind::Entries => read_entries(version, body, message),
        Kind::Siblings => read_siblings(version, body, message),
        Kind::Leaves => read_leaves(version, body, message),
        Kind::Nodes => read_nodes(version, body, message),
        Kind::LevelEnd => {
            set_level_end(message);
            Ok(())
        }
        Kind::Refuse => read_refuse(version, body, message),
        Kind::AskLook => read_ask_look(version, body, message),
        Kind::Found => read_found(version, body, message),
        Kind::End => {
            *message = Message::End;
            Ok(())
        }
        Kind::AskMoment => read_ask_moment(version, body, message),
        Kind::Power { degree } => read_power(version, degree, body, message),
        Kind::Held => read_held(version, body, message),
        Kind::Recall => read_recall(version, body, message),
        Kind::Marks => read_marks(version, body, message),
    }
}
