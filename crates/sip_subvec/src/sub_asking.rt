//! The check of a sub-vector's replies as the general talk asks it.
ghost use Rattle.std.specs.Prelude.{◌≡◌, ◌+◌, ◌-◌, ◌/◌, ◌<◌, ◌≤◌, ◌^◌, ◌∷◌, ◌++◌, [], ℕ, List};
ghost use Rattle.std.specs.Prelude.{false, length, take, All, IfOk, IfSome};
ghost use Rattle.std.specs.Option.{option_map};
ghost use Rattle.sip_field.specs.Elements.{m61_number};
ghost use Rattle.sip_field.specs.Moduli.{m61_modulus};
ghost use Rattle.sip_vector.specs.declared.update.Entry.{Entry as AnyEntry};
ghost use Rattle.sip_wire.specs.declared.version.Version.{Version};
ghost use Rattle.sip_replies.specs.Protocols.{Begins};
ghost use Rattle.sip_subvec.specs.AcceptsSub.{Stated};
ghost use Rattle.sip_subvec.specs.Asking.{Gives, HasEntries, IsTakenValue, SubStands, most_answer};
ghost use Rattle.sip_subvec.specs.Asking.{phase_of};
ghost use Rattle.sip_subvec.specs.Checking.{Advances, AnswersAs, HasTaken, nothing};
ghost use Rattle.sip_subvec.specs.Protocol.{sub_asked};
ghost use Rattle.sip_subvec.specs.Replies.{asked_siblings};

use crate::check::SubCheck;
use sip_field::{Field, M61};
use sip_replies::{Check, More, Said};
use sip_tree::Root;
use sip_vector::{CAP, Entry};
use sip_wire::{Message, Place, Reason};
use std::marker::Model;

/// The check of the replies to one query for a sub-vector, in the form that the general talk asks.
///
/// It gives the numbers of each frame to a [`SubCheck`], and writes the entries to the places of
/// the answer, in the order in which they come. The places need room for the longest answer of the
/// interval: one for each of its items, or 65,536 if those are more.
#[derive(Drop)]
pub struct SubAsking {
    check: SubCheck<M61, CAP>,
    // Whether reply 0 is due, or has come in part.
    is_first: bool,
    // The number of entries that were written.
    found: usize,
}

impl Model for SubAsking {
    ghost use Rattle.sip_subvec.specs.Asking.{Asking};

    ghost Value = { Asking };

    ghost view = { λ a. record { check = a.check; is_first = a.is_first; found = a.found } };
}

impl SubAsking {
    /// The check of the entries from `lo` to `hi`, both included, of the vector that has this root,
    /// whatever the version of the replies.
    ///
    /// No `times`: one copy of the challenges.
    pub fn start(root: &Root<M61, CAP>, lo: u64, hi: u64) -> SubAsking
        requires order { lo ≤ hi }
        requires item { hi < 2 ^ length root.now.seat }
        ensures stands { (version : Version) (places : List AnyEntry)
            → most_answer lo hi ≤ length places
            → SubStands (sub_asked version m61_modulus root.now.value lo hi root.now.seat) nothing
            result places }
        ensures begins { Begins (phase_of result) }
        ensures block { (phase_of result).block ≡ root.now.seat }
    {
        let _depth = root.seat.depth();
        SubAsking {
            check: SubCheck::start(root, lo, hi),
            is_first: true,
            found: 0,
        }
    }
}

impl Check for SubAsking {
    ghost use Rattle.std.specs.Prelude.{◌+◌, ◌-◌};
    ghost use Rattle.sip_subvec.specs.Replies.{most_entries};
    ghost use Rattle.sip_subvec.specs.AcceptsSub.{Stated};
    ghost use Rattle.sip_subvec.specs.Asking.{SubStands, phase_of};
    ghost use Rattle.sip_subvec.specs.Protocol.{SubAsked, sub_protocol};
    ghost use Rattle.sip_subvec.specs.LawProofs.ReplyTests.{sub_ends, sub_tests};

    ghost Asked = { SubAsked };

    ghost State = { Stated };

    ghost protocol = { sub_protocol };

    ghost phase = { phase_of };

    ghost room = { λ a. most_entries + 1 - a.found };

    ghost lent = { λ a. 0 };

    ghost stands = { SubStands };

    fn depth(&self) -> usize {
        self.check.depth()
    }

    fn unasked(&self) -> Option<Said> {
        None
    }

    fn place(&self) -> Place {
        if self.is_first {
            Place::Entries
        } else {
            Place::Siblings
        }
    }

    fn take(&mut self, message: &Message, places: &mut [Entry]) -> Result<More, Reason> {
        match message {
            Message::Entries(rows) => {
                if !self.is_first {
                    return Err(Reason::BadKind);
                }
                self.found = give_entries(&mut self.check, rows, places, self.found)?;
                Ok(More::Due)
            }
            Message::Siblings { left, right } => {
                give_siblings(&mut self.check, *left, *right)?;
                self.is_first = false;
                Ok(More::Complete)
            }
            Message::Refuse { code } => Err(Reason::Refused(*code)),
            _ => Err(Reason::BadKind),
        }
    }

    fn reveal(&mut self) -> u64 {
        self.check.reveal().number()
    }

    fn finish(&mut self, _places: &[Entry]) -> Result<Said, Reason> {
        match self.check.finish() {
            Ok(()) => Ok(Said::Pairs(self.found)),
            Err(reason) => Err(reason),
        }
    }

    ghost ends = { sub_ends };

    ghost tests = { sub_tests };
}

// Gives the entries of one frame to a check, and writes them to `entries`, behind the first
// `found`. Their number with those is answered.
fn give_entries(
    check: &mut SubCheck<M61, CAP>,
    rows: &[Entry],
    entries: &mut [Entry],
    found: usize,
) -> Result<usize, Reason>
    requires given { HasEntries check.old (take found entries.old) check.old }
    requires found { found ≤ length entries.old }
    requires room { most_answer check.old.lo check.old.hi ≤ length entries.old }
    requires values { All IsTakenValue rows.now }
    ensures gives { Gives check.old (take found entries.old) rows.now check.new entries.new result }
    ensures places { length entries.new ≡ length entries.old }
    ensures revealed { check.new.revealed ≡ check.old.revealed }
{
    for (index, row) in rows.iter().enumerate() {
        check.entry(row.index, row.value)?;
        entries[found + index] = *row;
    }
    Ok(found + rows.len())
}

// Gives the siblings of a frame to a check.
fn give_siblings(
    check: &mut SubCheck<M61, CAP>,
    left: Option<u64>,
    right: Option<u64>,
) -> Result<(), Reason>
    requires unspent { check.old.spent ≡ false }
    requires more { check.old.level < length check.old.challenges }
    requires learnt { check.old.revealed ≡ check.old.level }
    requires left { IfSome left (λ x. x < m61_modulus) }
    requires right { IfSome right (λ x. x < m61_modulus) }
    ensures answers { (root lo hi : ℕ) (challenges : List ℕ) (s : Stated)
        → HasTaken m61_modulus root lo hi challenges s check.old
        → AnswersAs (asked_siblings (lo / 2 ^ check.old.level) (hi / 2 ^ check.old.level)
        (record { left = left; right = right }))
        (λ x. HasTaken m61_modulus root lo hi challenges
        (record s { siblings = s.siblings ++ x ∷ [] }) check.new)
        check.new result }
    ensures advances { IfOk result (λ _. Advances check.old check.new 1 0) }
{
    check.siblings(element(left), element(right))
}

// The element that a number of a frame is.
fn element(number: Option<u64>) -> Option<M61>
    requires { IfSome number (λ x. x < m61_modulus) }
    ensures { option_map m61_number result ≡ number }
{
    match number {
        Some(number) => Some(M61::of(number)),
        None => None,
    }
}
