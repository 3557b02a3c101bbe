//! From a message to the body of its frame.
#![tactic(auto, using(crate::proofs::Counting::size_repeat, crate::proofs::Counting::no_bytes, std::proofs::lemmas::Grind::common_steps), unfolding(crate::specs::Spelling::fits, crate::specs::Spelling::has_room, crate::specs::Spelling::spelled))]

ghost use Rattle.std.specs.Prelude.{◌≡◌, ◌≤◌, ◌+◌, ◌++◌, IsTrue, length};
ghost use Rattle.arrayvec.specs.ArrayVec.{array_vec_len};
ghost use Rattle.sip_wire.specs.declared.kind.Kind.TheVariants as kinds;
ghost use Rattle.sip_wire.specs.declared.message.Message.TheVariants as messages;
ghost use Rattle.sip_wire.specs.Table.{size, most_rows, shape, query_shape, siblings_shape};
ghost use Rattle.sip_wire.specs.Table.{query_fields, longest_body, longest_frame};
ghost use Rattle.sip_wire.specs.Spelling.{flag, present, body_in, body_of, fits, fits_shape};
ghost use Rattle.sip_wire.specs.Spelling.{kind_of, mark_of, query_code, query_numbers};

use crate::Version;
use crate::fitting::degree_of;
use crate::message::{Leaf, Mark, Message, Node};
use crate::numbers::{Bytes, put_index, put_u8, put_u32, put_u64};
use crate::row::{Row, number_of};
use crate::rows::{put_counted, put_rows};
use arrayvec::ArrayVec;
use sip_vector::{Entry, Query, Update};

/// How many bytes the body of a query has.
pub fn query_len(version: Version, query: Query) -> usize
    ensures { result ≡ 1 + size (query_fields version (query_code query)) }
{
    match query {
        Query::Sub { .. } => 1 + 2 * version.index_width(),
        Query::Range { .. } => 2 + 2 * version.index_width(),
        Query::Heavy { .. } | Query::Share { .. } | Query::Above { .. } => 10,
        Query::F2 { .. } => 2,
        Query::Inner => 1,
    }
}

/// How many bytes the body of so many updates has.
pub fn updates_len(version: Version, updates: &[Update]) -> usize
    requires { length updates.now ≤ most_rows }
    ensures exact { result ≡ (shape version kinds.Updates).mark_width + size
        ((shape version kinds.Updates).fields (length updates.now)) }
    ensures room { result ≤ longest_body }
{
    2 + Update::size(version) * updates.len()
}

/// How many bytes the body of a message has.
pub fn body_len(version: Version, message: &Message) -> usize
    ensures exact { result ≡ (shape version (kind_of message.now)).mark_width + size
        ((shape version (kind_of message.now)).fields (mark_of message.now)) }
    ensures room { result ≤ longest_body }
{
    match message {
        Message::Open { .. } => 2,
        Message::Updates(rows) => 2 + Update::size(version) * rows.len(),
        Message::EndStream | Message::Bye | Message::LevelEnd | Message::End => 0,
        Message::Query(query) => query_len(version, *query),
        Message::Reveal { .. } | Message::Claim { .. } | Message::Recall { .. } => 8,
        Message::Poly { .. } => 24,
        Message::Entries(rows) => 2 + Entry::size(version) * rows.len(),
        Message::Siblings { left, right } => match (left, right) {
            (None, None) => 1,
            (Some(_), Some(_)) => 17,
            _ => 9,
        },
        Message::Leaves(rows) => 2 + Leaf::size(version) * rows.len(),
        Message::Nodes(rows) => 2 + Node::size(version) * rows.len(),
        Message::Refuse { .. } => 1,
        Message::AskLook { .. } | Message::Found { .. } => 9,
        Message::AskMoment { .. } => 2,
        Message::Power(coefficients) => 8 * (degree_of(coefficients) as usize + 1),
        Message::Held(_) => 32,
        Message::Marks(rows) => 2 + Mark::size(version) * rows.len(),
    }
}

/// Appends the body of a query.
pub fn put_query<const ROOM: usize>(version: Version, query: Query, out: &mut ArrayVec<u8, ROOM>)
    requires fits { IsTrue (fits_shape (query_shape version) (query_code query)
        (query_numbers query)) }
    requires room { array_vec_len out.old + 18 ≤ ROOM }
    ensures { out.new.items ≡ out.old.items ++ body_in (query_shape version) (query_code query)
        (query_numbers query) }
{
    match query {
        Query::Sub { lo, hi } => {
            put_u8(out, 1);
            put_index(version, out, lo);
            put_index(version, out, hi);
        }
        Query::Range { side, lo, hi } => {
            put_u8(out, 2);
            put_u8(out, number_of(side));
            put_index(version, out, lo);
            put_index(version, out, hi);
        }
        Query::F2 { side } => {
            put_u8(out, 3);
            put_u8(out, number_of(side));
        }
        Query::Inner => put_u8(out, 4),
        Query::Heavy { side, at_least } => {
            put_u8(out, 5);
            put_u8(out, number_of(side));
            put_u64(out, at_least);
        }
        Query::Share { side, num, den } => {
            put_u8(out, 6);
            put_u8(out, number_of(side));
            put_u32(out, num);
            put_u32(out, den);
        }
        Query::Above { side, at_least } => {
            put_u8(out, 7);
            put_u8(out, number_of(side));
            put_u64(out, at_least);
        }
    }
}

/// Appends flags and the siblings that are present.
fn put_siblings(left: Option<u64>, right: Option<u64>, out: &mut Bytes)
    requires room { array_vec_len out.old + 17 ≤ longest_frame }
    ensures { out.new.items ≡ out.old.items ++ body_in siblings_shape (flag left 1 + flag right 2)
        (present left ++ present right) }
{
    match (left, right) {
        (None, None) => put_u8(out, 0),
        (Some(left), None) => {
            put_u8(out, 1);
            put_u64(out, left);
        }
        (None, Some(right)) => {
            put_u8(out, 2);
            put_u64(out, right);
        }
        (Some(left), Some(right)) => {
            put_u8(out, 3);
            put_u64(out, left);
            put_u64(out, right);
        }
    }
}

/// Appends the body of a message of updates.
pub fn put_updates_body(version: Version, updates: &[Update], out: &mut Bytes)
    requires fits { IsTrue (fits version (messages.Updates (record { items = updates.now }))) }
    requires few { length updates.now ≤ most_rows }
    requires room { array_vec_len out.old ≡ 3 }
    ensures { out.new.items ≡ out.old.items
        ++ body_of version (messages.Updates (record { items = updates.now })) }
{
    put_counted(version, updates, out);
}

/// Appends the body of a message.
pub fn put_body(version: Version, message: &Message, out: &mut Bytes)
    requires fits { IsTrue (fits version message.now) }
    requires room { array_vec_len out.old ≡ 3 }
    ensures { out.new.items ≡ out.old.items ++ body_of version message.now }
{
    match message {
        Message::Open {
            version: number,
            depth,
        } => {
            put_u8(out, *number);
            put_u8(out, *depth);
        }
        Message::Updates(rows) => put_counted(version, rows, out),
        Message::EndStream | Message::Bye | Message::LevelEnd | Message::End => {}
        Message::Query(query) => put_query(version, *query, out),
        Message::Reveal { challenge } => put_u64(out, *challenge),
        Message::Claim { value } => put_u64(out, value.cast_unsigned()),
        Message::Poly { c0, c1, c2 } => {
            put_u64(out, *c0);
            put_u64(out, *c1);
            put_u64(out, *c2);
        }
        Message::Entries(rows) => put_counted(version, rows, out),
        Message::Siblings { left, right } => put_siblings(*left, *right, out),
        Message::Leaves(rows) => put_counted(version, rows, out),
        Message::Nodes(rows) => put_counted(version, rows, out),
        Message::Refuse { code } => put_u8(out, *code),
        Message::AskLook { code, item } => {
            put_u8(out, *code);
            put_u64(out, *item);
        }
        Message::Found { flag, index } => {
            put_u8(out, *flag);
            put_u64(out, *index);
        }
        Message::AskMoment { side, degree } => {
            put_u8(out, *side);
            put_u8(out, *degree);
        }
        Message::Power(coefficients) => put_rows(version, coefficients, out),
        Message::Held(held) => {
            put_u64(out, held.records);
            put_u64(out, held.first);
            put_u64(out, held.second);
            put_u64(out, held.fingerprint);
        }
        Message::Recall { count } => put_u64(out, *count),
        Message::Marks(rows) => put_counted(version, rows, out),
    }
}
