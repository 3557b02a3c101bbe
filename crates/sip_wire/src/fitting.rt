//! Whether a message has a spelling.
#![tactic(auto, unfolding(crate::specs::Spelling::fits, crate::specs::Spelling::has_room, crate::specs::Spelling::all_hold))]

ghost use Rattle.std.specs.Prelude.{◌≡◌, ◌-◌, ◌&&◌, [], ◌∷◌, length};
ghost use Rattle.std.specs.List.{flat_map};
ghost use Rattle.sip_wire.specs.declared.message.Message.TheVariants as messages;
ghost use Rattle.sip_wire.specs.Table.{query_shape, opening_fields, opens, found_fields};
ghost use Rattle.sip_wire.specs.Table.{found_in_order, within_weights};
ghost use Rattle.sip_wire.specs.Spelling.{all_hold, fits, fits_shape, kind_of, mark_numbers};
ghost use Rattle.sip_wire.specs.Spelling.{query_code, query_numbers};

use crate::Version;
use crate::kind::Kind;
use crate::message::{Held, MOST_COEFFICIENTS, MOST_NODES, MOST_REFUSAL, Mark, Message};
use crate::numbers::{is_element, is_small};
use crate::rows::rows_fit;
use arrayvec::ArrayVec;
use sip_vector::Query;

/// Whether there is a version of this number, and it goes to this depth.
pub fn is_opening(version: u8, depth: u8) -> bool
    ensures { result ≡ (opens (version ∷ depth ∷ []) && all_hold opening_fields
        (version ∷ depth ∷ [])) }
{
    match Version::of(version) {
        Some(version) => 1 <= depth && depth <= version.deepest(),
        None => false,
    }
}

/// Whether the flag of a place and its index are those of one that was found, or of none.
pub fn is_found(flag: u8, index: u64) -> bool
    ensures { result ≡ (found_in_order (flag ∷ index ∷ []) && all_hold found_fields
        (flag ∷ index ∷ [])) }
{
    flag == 1 || (flag == 0 && index == 0)
}

/// The degree of a power of these coefficients.
pub fn degree_of(coefficients: &ArrayVec<u64, MOST_COEFFICIENTS>) -> u8
    ensures { result ≡ length coefficients.now.items - 1 }
{
    coefficients.len().saturating_sub(1) as u8
}

fn power_fits(version: Version, coefficients: &ArrayVec<u64, MOST_COEFFICIENTS>) -> bool
    ensures { result ≡ fits version (messages.Power coefficients.now) }
{
    !coefficients.is_empty() && rows_fit(version, coefficients)
}

/// Whether the value of each mark is at most its weight.
pub fn within_weights(marks: &[Mark]) -> bool
    ensures { result ≡ within_weights (flat_map mark_numbers marks.now) }
{
    for mark in marks {
        if mark.value.unsigned_abs() > mark.weight {
            return false;
        }
    }
    true
}

fn marks_fit(version: Version, marks: &ArrayVec<Mark, MOST_NODES>) -> bool
    ensures { result ≡ fits version (messages.Marks marks.now) }
{
    if !Kind::Marks.stands_in(version) || marks.is_empty() {
        return false;
    }
    rows_fit(version, marks) && within_weights(marks)
}

/// Each number that a helper can state has room in its field.
fn held_fits(version: Version, held: Held) -> bool
    ensures { result ≡ fits version (messages.Held held) }
{
    let (_version, _held) = (version, held);
    true
}

fn query_fits(version: Version, query: Query) -> bool
    ensures { result ≡ fits_shape (query_shape version) (query_code query) (query_numbers query) }
{
    match query {
        Query::Sub { lo, hi } => lo <= hi && version.has_room(hi),
        Query::Range { side: _, lo, hi } => lo <= hi && version.has_room(hi),
        Query::F2 { side: _ } | Query::Inner => true,
        Query::Heavy { side: _, at_least } => 1 <= at_least && at_least <= i64::MAX as u64,
        Query::Above { side: _, at_least } => {
            version.speaks(&query) && 1 <= at_least && at_least <= i64::MAX as u64
        }
        Query::Share { side: _, num, den } => {
            version.speaks(&query) && 1 <= num && num <= den && den <= Query::MOST_SHARE
        }
    }
}

impl Message {
    /// What its frame begins with.
    pub(crate) fn kind(&self) -> Kind
        ensures { result ≡ kind_of self.now }
    {
        match self {
            Message::Open { .. } => Kind::Open,
            Message::Updates(_) => Kind::Updates,
            Message::EndStream => Kind::EndStream,
            Message::Query(_) => Kind::Query,
            Message::Reveal { .. } => Kind::Reveal,
            Message::Bye => Kind::Bye,
            Message::Claim { .. } => Kind::Claim,
            Message::Poly { .. } => Kind::Poly,
            Message::Entries(_) => Kind::Entries,
            Message::Siblings { .. } => Kind::Siblings,
            Message::Leaves(_) => Kind::Leaves,
            Message::Nodes(_) => Kind::Nodes,
            Message::LevelEnd => Kind::LevelEnd,
            Message::Refuse { .. } => Kind::Refuse,
            Message::AskLook { .. } => Kind::AskLook,
            Message::Found { .. } => Kind::Found,
            Message::End => Kind::End,
            Message::AskMoment { .. } => Kind::AskMoment,
            Message::Power(coefficients) => Kind::Power {
                degree: degree_of(coefficients),
            },
            Message::Held(_) => Kind::Held,
            Message::Recall { .. } => Kind::Recall,
            Message::Marks(_) => Kind::Marks,
        }
    }

    /// Whether the message has a spelling in a version: each number is one that its field may hold,
    /// rows are there, and a query has a code.
    pub fn fits(&self, version: Version) -> bool
        ensures { result ≡ fits version self.now }
    {
        match self {
            Message::Open { version, depth } => is_opening(*version, *depth),
            Message::Updates(rows) => !rows.is_empty() && rows_fit(version, rows),
            Message::EndStream | Message::Bye | Message::LevelEnd | Message::End => true,
            Message::Query(query) => query_fits(version, *query),
            Message::Reveal { challenge } => is_element(*challenge),
            Message::Claim { value } => is_small(value.cast_unsigned()),
            Message::Poly { c0, c1, c2 } => is_element(*c0) && is_element(*c1) && is_element(*c2),
            Message::Entries(rows) => !rows.is_empty() && rows_fit(version, rows),
            Message::Siblings { left, right } => {
                left.is_none_or(|x| is_element(x)) && right.is_none_or(|x| is_element(x))
            }
            Message::Leaves(rows) => !rows.is_empty() && rows_fit(version, rows),
            Message::Nodes(rows) => !rows.is_empty() && rows_fit(version, rows),
            Message::Refuse { code } => 1 <= *code && *code <= MOST_REFUSAL,
            // Each number that a message can have has room in its field.
            Message::AskLook { code, item } => {
                let (_code, _item) = (*code, *item);
                true
            }
            Message::AskMoment { side, degree } => {
                let (_side, _degree) = (*side, *degree);
                true
            }
            Message::Found { flag, index } => is_found(*flag, *index),
            Message::Power(coefficients) => power_fits(version, coefficients),
            Message::Held(held) => held_fits(version, *held),
            Message::Recall { count } => {
                let _count = *count;
                true
            }
            Message::Marks(marks) => marks_fit(version, marks),
        }
    }
}
