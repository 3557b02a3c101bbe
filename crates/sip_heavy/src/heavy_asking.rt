//! The check of heavy hitters as the general talk asks it.
ghost use Rattle.std.specs.Prelude.{◌≡◌, ◌*◌, ◌/◌, ◌<◌, ◌≤◌, List, All, false, length, take};
ghost use Rattle.std.specs.Prelude.{is_err};
ghost use Rattle.sip_field.specs.Moduli.{m61_modulus};
ghost use Rattle.sip_vector.specs.declared.update.Entry.{Entry as AnyEntry};
ghost use Rattle.sip_wire.specs.declared.version.Version.{Version};
ghost use Rattle.sip_replies.specs.Protocols.{Begins};
ghost use Rattle.sip_heavy.specs.Asking.{HeavyStands, phase_of};
ghost use Rattle.sip_heavy.specs.Checking.{Advances, Takes};
ghost use Rattle.sip_heavy.specs.Protocol.{above_asked, count_of, heavy_asked, leaf_nodes};
ghost use Rattle.sip_heavy.specs.Protocol.{mark_nodes, nothing_came};

use crate::check::HeavyCheck;
use crate::form::LeafForm;
use crate::space::HeavySpace;
use sip_field::{Field, M61};
use sip_replies::{Check, More, Said};
use sip_tree::{AugRoot, SplitRoot};
use sip_vector::{CAP, Entry};
use sip_wire::{Leaf, Mark, Message, Node, Place, Reason};
use std::marker::Model;

/// The check of the replies to one query for heavy hitters, in the form that the general talk asks.
///
/// It gives the numbers of each frame to a [`HeavyCheck`], and writes what was found to the places
/// of the answer at the end of reply 0. The places need room for as many entries as a level may
/// have nodes: 2·floor(n / T) of a total n and a threshold T.
///
/// The threshold may be above the total. Then nothing is asked, and the answer is empty.
#[derive(Drop)]
pub struct HeavyAsking {
    check: HeavyCheck<M61, CAP>,
}

impl Model for HeavyAsking {
    ghost use Rattle.sip_heavy.specs.Checking.{Kept};

    ghost Value = { Kept };

    ghost view = { λ a. a.check };
}

impl HeavyAsking {
    /// The check of the entries of at least `at_least` in the vector that has this root, whatever
    /// the version of the replies, in space that is lent for it.
    ///
    /// No `times`: one copy of the challenges.
    pub fn start(root: &AugRoot<M61, CAP>, at_least: u64, space: HeavySpace) -> HeavyAsking
        requires least { 1 ≤ at_least }
        requires room { 2 * (count_of root.now.total / at_least) ≤ space.nodes }
        ensures stands { (version : Version) (places : List AnyEntry)
            → 2 * (count_of root.now.total / at_least) ≤ length places
            → HeavyStands (heavy_asked version m61_modulus root.now.hash root.now.total
            (length root.now.seat) at_least) nothing_came result places }
        ensures begins { Begins (phase_of result) }
        ensures block { (phase_of result).block ≡ root.now.seat }
        ensures room { result.room ≡ space.nodes }
    {
        let _depth = root.seat.depth();
        HeavyAsking {
            check: HeavyCheck::begin(
                LeafForm::Count,
                &root.seat,
                root.hash,
                at_least,
                count_of(root.total),
                space,
            ),
        }
    }

    /// The check of the entries of at least `at_least` in the vector whose split tree has this
    /// root, whatever the version of the replies, in space that is lent for it. Its leaves are
    /// marks, and entries may be below 0.
    ///
    /// No `times`: one copy of the challenges.
    pub fn start_above(root: &SplitRoot<M61, CAP>, at_least: u64, space: HeavySpace) -> HeavyAsking
        requires least { 1 ≤ at_least }
        requires room { 2 * (root.now.weight / at_least) ≤ space.nodes }
        ensures stands { (version : Version) (places : List AnyEntry)
            → 2 * (root.now.weight / at_least) ≤ length places
            → HeavyStands (above_asked version m61_modulus root.now.hash root.now.weight
            (length root.now.seat) at_least) nothing_came result places }
        ensures begins { Begins (phase_of result) }
        ensures block { (phase_of result).block ≡ root.now.seat }
        ensures room { result.room ≡ space.nodes }
    {
        let _depth = root.seat.depth();
        HeavyAsking {
            check: HeavyCheck::begin(
                LeafForm::Mark,
                &root.seat,
                root.hash,
                at_least,
                root.weight,
                space,
            ),
        }
    }

    /// Gives the space back, with as much room as it was lent with, and with what was found.
    pub fn into_space(self) -> HeavySpace
        ensures nodes { result.nodes ≡ self.room }
        ensures found { result.found ≡ self.found }
    {
        self.check.into_space()
    }
}

impl Check for HeavyAsking {
    ghost use Rattle.std.specs.Prelude.{◌+◌, ◌-◌, length};
    ghost use Rattle.sip_heavy.specs.Asking.{HeavyStands, phase_of};
    ghost use Rattle.sip_heavy.specs.Protocol.{HeavyAsked, HeavyState, heavy_protocol};
    ghost use Rattle.sip_heavy.specs.LawProofs.ReplyTests.{heavy_ends, heavy_tests};

    ghost Asked = { HeavyAsked };

    ghost State = { HeavyState };

    ghost protocol = { heavy_protocol };

    ghost phase = { phase_of };

    ghost room = { λ c. c.most - (length c.nodes + (length c.known - c.passed)) };

    ghost lent = { λ c. c.room };

    ghost stands = { HeavyStands };

    fn depth(&self) -> usize {
        self.check.depth()
    }

    fn unasked(&self) -> Option<Said> {
        if self.check.reaches() {
            return None;
        }
        Some(Said::Pairs(0))
    }

    fn place(&self) -> Place {
        if self.check.is_lowest() {
            self.check.leaf_place()
        } else {
            Place::Nodes
        }
    }

    fn take(&mut self, message: &Message, places: &mut [Entry]) -> Result<More, Reason> {
        match message {
            Message::Leaves(rows) => {
                if !self.check.awaits_counts() {
                    return Err(Reason::BadKind);
                }
                give_leaves(&mut self.check, rows)?;
                Ok(More::Due)
            }
            Message::Marks(rows) => {
                if !self.check.awaits_marks() {
                    return Err(Reason::BadKind);
                }
                give_marks(&mut self.check, rows)?;
                Ok(More::Due)
            }
            Message::Nodes(rows) => {
                if self.check.is_lowest() {
                    return Err(Reason::BadKind);
                }
                give_nodes(&mut self.check, rows)?;
                Ok(More::Due)
            }
            Message::LevelEnd => {
                let is_lowest = self.check.is_lowest();
                self.check.level_end()?;
                if !is_lowest {
                    return Ok(More::Complete);
                }
                write_found(self.check.found(), places);
                Ok(More::Complete)
            }
            Message::Refuse { code } => Err(Reason::Refused(*code)),
            _ => Err(Reason::BadKind),
        }
    }

    fn reveal(&mut self) -> u64 {
        self.check.reveal().number()
    }

    fn finish(&mut self, _places: &[Entry]) -> Result<Said, Reason> {
        self.check.finish()?;
        Ok(Said::Pairs(self.check.found().len()))
    }

    ghost ends = { heavy_ends };

    ghost tests = { heavy_tests };
}

// A total as a count: a negative one is none.
fn count_of(total: i64) -> u64
    ensures { result ≡ count_of total }
{
    if total < 0 {
        return 0;
    }
    total as u64
}

// Gives the leaves of one frame to a check.
fn give_leaves(check: &mut HeavyCheck<M61, CAP>, rows: &[Leaf]) -> Result<(), Reason>
    requires unspent { check.old.spent ≡ false }
    requires lowest { check.old.level ≡ 0 }
    requires small { All (λ l. l.count < m61_modulus) rows.now }
    ensures answers { Takes m61_modulus check.old (leaf_nodes rows.now) check.new result }
    ensures advances { Advances check.old check.new 0 0 }
    ensures spent { check.new.spent ≡ is_err result }
{
    for row in rows {
        check.leaf(row.item, row.count)?;
    }
    Ok(())
}

// Gives the marks of one frame to a check.
fn give_marks(check: &mut HeavyCheck<M61, CAP>, rows: &[Mark]) -> Result<(), Reason>
    requires unspent { check.old.spent ≡ false }
    requires lowest { check.old.level ≡ 0 }
    requires small { All (λ m. m.weight < m61_modulus) rows.now }
    ensures answers { Takes m61_modulus check.old (mark_nodes m61_modulus rows.now)
        check.new result }
    ensures advances { Advances check.old check.new 0 0 }
    ensures spent { check.new.spent ≡ is_err result }
{
    for row in rows {
        check.mark(row.item, row.value, row.weight)?;
    }
    Ok(())
}

// Gives the nodes of one frame to a check.
fn give_nodes(check: &mut HeavyCheck<M61, CAP>, rows: &[Node]) -> Result<(), Reason>
    requires unspent { check.old.spent ≡ false }
    requires above { 0 < check.old.level }
    requires small { All (λ x. x.count < m61_modulus) rows.now }
    requires hashes { All (λ x. x.hash < m61_modulus) rows.now }
    ensures answers { Takes m61_modulus check.old rows.now check.new result }
    ensures advances { Advances check.old check.new 0 0 }
    ensures spent { check.new.spent ≡ is_err result }
{
    for row in rows {
        check.node(row.index, M61::of_number(row.hash), row.count)?;
    }
    Ok(())
}

// Writes what was found to the front of the places.
fn write_found(found: &[Entry], places: &mut [Entry])
    requires room { length found.now ≤ length places.old }
    ensures found { take (length found.now) places.new ≡ found.now }
    ensures places { length places.new ≡ length places.old }
{
    places[..found.len()].copy_from_slice(found);
}
