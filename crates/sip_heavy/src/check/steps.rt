//! The steps of a check: a node, and the end of a level.

ghost use Rattle.std.specs.Prelude.{◌≡◌, ◌+◌, ◌-◌, ◌^◌, ◌<◌, ◌==◌, ◌&&◌, ◌||◌, not, true, nat_lt};
ghost use Rattle.std.specs.Prelude.{nat_le, length, drop, IfOk};
ghost use Rattle.std.specs.List.{list_all};
ghost use Rattle.sip_replies.specs.Rising.{is_above};
ghost use Rattle.sip_heavy.specs.AcceptsHeavy.{are_pairs, end_test, is_empty, pair_counts};
ghost use Rattle.sip_heavy.specs.Checking.{Advances, asked_of, begins_with, folded, keeping};
ghost use Rattle.sip_heavy.specs.Checking.{node_test, passing, passing_all, with_node};

use super::HeavyCheck;
use crate::level::{are_heavy, are_pairs, are_within, fold_pairs, move_below, put_heavy};
use sip_field::Field;
use sip_replies::is_above;
use sip_wire::{Node, Reason};

impl<F: Field, const CAP: usize> HeavyCheck<F, CAP> {
    // Takes a node behind those received before it.
    pub(super) fn take(&mut self, node: Node) -> Result<(), Reason>
        requires { node.count < 2 ^ 61 }
        ensures tested { result ≡ node_test (passing self.old node.index) node }
        ensures taken { IfOk result (λ _. self.new
            ≡ with_node (passing self.old node.index) node) }
        ensures advances { Advances self.old self.new 0 0 }
    {
        self.pass_below(node.index);
        self.test_node(node)?;
        self.push(node);
        Ok(())
    }

    // Whether a node may come, the known nodes below its index being passed.
    fn test_node(&self, node: Node) -> Result<(), Reason>
        ensures { result ≡ node_test self.now node }
    {
        if !self.is_in_order(node.index) || self.is_known(node.index) {
            return Err(Reason::BadOrder);
        }
        if self.count() >= self.most {
            return Err(Reason::TooMany);
        }
        if self.level > 0 && node.count >= self.at_least {
            return Err(Reason::HeavySibling);
        }
        Ok(())
    }

    // Adds a node, for which there is room.
    fn push(&mut self, node: Node)
        requires small { node.count < 2 ^ 61 }
        requires room { length self.old.nodes + (length self.old.known - self.old.passed)
            < self.old.most }
        ensures { self.new ≡ with_node self.old node }
    {
        self.nodes.push(node).unwrap();
        self.last = Some(node.index);
    }

    // Whether an index is in the level and above the last one.
    fn is_in_order(&self, index: u64) -> bool
        ensures { result ≡ (is_above self.now.last index
            && nat_lt index (2 ^ (length self.now.challenges - self.now.level))) }
    {
        let depth = self.seat.depth();
        is_above(self.last, index) && is_within(index, depth - self.level)
    }

    // Passes the known nodes below an index.
    fn pass_below(&mut self, index: u64)
        ensures { self.new ≡ passing self.old index }
    {
        let count = move_below(&self.known[self.passed..], &mut self.nodes, index);
        self.passed += count;
    }

    // Passes the known nodes that are left.
    pub(super) fn pass_all(&mut self)
        ensures { self.new ≡ passing_all self.old }
    {
        self.nodes
            .extend_from_slice(&self.known[self.passed..])
            .unwrap();
        self.passed = self.known.len();
    }

    // The tests of the level's nodes, all known nodes being among them.
    pub(super) fn test_level(&self) -> Result<(), Reason>
        requires { self.now.level < length self.now.challenges }
        ensures { result ≡ end_test (asked_of self.now) self.now.level self.now.nodes }
    {
        if !self.is_whole() {
            return Err(Reason::Pairs);
        }
        if !are_heavy(&self.nodes, self.at_least) {
            return Err(Reason::LightParent);
        }
        if !are_within(&self.nodes, self.total) {
            return Err(Reason::Total);
        }
        Ok(())
    }

    // Whether the level is made of pairs, and has one if it is the last.
    fn is_whole(&self) -> bool
        requires { self.now.level < length self.now.challenges }
        ensures { result ≡ (are_pairs self.now.nodes
            && (nat_lt (self.now.level + 1) (length self.now.challenges)
            || not (is_empty self.now.nodes))) }
    {
        let left = self.seat.depth() - self.level;
        are_pairs(&self.nodes) && (left > 1 || !self.nodes.is_empty())
    }

    // Keeps the heavy leaves, at the end of the lowest level.
    pub(super) fn keep_heavy(&mut self)
        ensures { self.new ≡ keeping F.MODULUS self.old }
    {
        if self.level == 0 {
            self.found.clear();
            put_heavy::<F>(&self.nodes, self.form, self.at_least, &mut self.found);
        }
    }

    // Goes to the known nodes of the level above.
    pub(super) fn fold_level(&mut self)
        requires left { self.old.level < length self.old.challenges }
        requires within { list_all (λ c. nat_le c self.old.total) (pair_counts self.old.nodes)
            ≡ true }
        ensures { self.new ≡ folded F.MODULUS self.old }
    {
        let depth = self.seat.depth();
        prove!(self.level < depth);
        self.level += 1;
        let r = self.seat.at(self.level);
        self.known.clear();
        fold_pairs(&self.nodes, r, &mut self.known);
        self.nodes.clear();
        self.passed = 0;
        self.last = None;
    }

    // Whether the next known node has this index.
    fn is_known(&self, index: u64) -> bool
        ensures { result ≡ begins_with index (drop self.now.passed self.now.known) }
    {
        match self.known.get(self.passed) {
            Some(node) => node.index == index,
            None => false,
        }
    }

    // The number of known and received nodes.
    fn count(&self) -> usize
        ensures { result ≡ length self.now.nodes + (length self.now.known - self.now.passed) }
    {
        self.nodes.len() + (self.known.len() - self.passed)
    }
}

// Whether an index is in a level of 2^levels nodes.
fn is_within(index: u64, levels: usize) -> bool
    ensures { result ≡ nat_lt index (2 ^ levels) }
{
    levels >= 64 || index >> levels == 0
}
