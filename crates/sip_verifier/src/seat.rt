//! The seat of one query.

ghost use Rattle.std.specs.Prelude.{◌≡◌, ◌*◌, ◌/◌, ◌<◌, ◌≤◌, ◌^◌, ℕ, List, [], ◌++◌, length, All};
ghost use Rattle.std.specs.Prelude.{IsTrue, false, nat_abs};
ghost use Rattle.sip_vector.specs.declared.update.Update.{Update as AnyUpdate};
ghost use Rattle.sip_vector.specs.Answers.{Fits};
ghost use Rattle.sip_vector.specs.Limits.{most_depth};
ghost use Rattle.sip_vector.specs.Streams.{most_weight};
ghost use Rattle.sip_heavy.specs.Protocol.{count_of};
ghost use Rattle.sip_subvec.specs.Asking.{most_answer};
ghost use Rattle.sip_verifier.specs.Negatives.{has_light};
ghost use Rattle.sip_verifier.specs.QuerySeats.{HasRoom, StandsFor, concerns, is_seat, keeps};
ghost use Rattle.sip_verifier.specs.Rooms.{most_nodes, most_places};
ghost use Rattle.sip_verifier.specs.Tasks.{CanBeAsked};
ghost use Rattle.sip_verifier.specs.Widths.{is_wide_seat};

use crate::running::Running;
use sip_field::{M61, OutOfMemory, Seat};
use sip_subvec::MOST_ENTRIES;
use sip_vector::{CAP, Query, Side, Update, is_wide, share_of};
use std::alloc::Global;
use std::marker::Model;

// Whether updates of this side change the running numbers of a query.
fn concerns(query: &Query, side: Side) -> bool
    ensures { result ≡ concerns query.now side }
{
    match query {
        Query::Sub { .. } => side == Side::First,
        Query::Range { side: own, .. } | Query::F2 { side: own } => side == *own,
        Query::Heavy { side: own, .. }
        | Query::Share { side: own, .. }
        | Query::Above { side: own, .. } => side == *own,
        Query::Inner => true,
    }
}

/// How many entries the answer for an interval may have: one for each item, or 65,536 if those are
/// more.
pub(crate) fn most_pairs(lo: u64, hi: u64) -> usize
    requires { lo ≤ hi }
    ensures { result ≡ most_answer lo hi }
{
    ((hi - lo).min(MOST_ENTRIES - 1) + 1) as usize
}

// How many nodes a level of the replies may have, of a total with this threshold.
fn nodes_of(total: i64, at_least: u64) -> usize
    requires total { nat_abs total ≤ most_weight }
    requires some { 1 ≤ at_least }
    ensures { result ≡ 2 * (count_of total / at_least) }
{
    if total < 1 {
        return 0;
    }
    2 * (total as u64 / at_least) as usize
}

/// A query with its running numbers.
#[derive(Drop)]
pub struct QuerySeat {
    /// What is asked.
    pub(crate) query: Query,
    /// The numbers that the replies are judged by, with their challenges.
    pub(crate) running: Running,
}

impl Model for QuerySeat {
    ghost use Rattle.sip_verifier.specs.QuerySeats.{Seated};

    ghost Value = { Seated };

    ghost use Rattle.sip_verifier.specs.Running.{block_of, numbers_of};

    ghost view = { λ s. record {
      query = s.query;
      block = block_of s.running;
      running = numbers_of s.running;
    } };
}

impl Default for QuerySeat {
    fn default() -> QuerySeat {
        QuerySeat {
            query: Query::default(),
            running: Running::default(),
        }
    }
}

impl QuerySeat {
    ghost use Rattle.sip_verifier.specs.Running.{block_of, numbers_of};

    /// The seat of a query by the running numbers of a stream, which are of the kind that the query
    /// needs.
    pub fn of(query: Query, running: Running) -> QuerySeat
        requires { IsTrue (keeps query (numbers_of running)) }
        ensures query { result.query ≡ query }
        ensures block { result.block ≡ block_of running }
        ensures running { result.running ≡ numbers_of running }
    {
        QuerySeat { query, running }
    }

    /// The seat of a query with these challenges, before any update.
    pub(crate) fn begin(query: Query, block: Seat<M61, CAP>) -> QuerySeat
        ensures query { result.query ≡ query }
        ensures block { result.block ≡ block }
        ensures stands { (depth : ℕ) → CanBeAsked depth query → length block ≡ depth
            → IsTrue (is_seat depth result) × StandsFor depth [] result }
    {
        let running = Running::begin(&query, block);
        QuerySeat { query, running }
    }

    /// What is asked.
    pub fn query(&self) -> Query
        ensures { result ≡ self.now.query }
    {
        self.query
    }

    /// The challenges.
    pub fn block(&self) -> &Seat<M61, CAP>
        ensures { result.now ≡ self.now.block }
    {
        self.running.block()
    }

    /// How many nodes a level of the replies may have, where the query is for heavy hitters.
    pub fn most_nodes(&self) -> usize
        requires fits { (depth : ℕ) × Fits depth self.now.query }
        ensures { result ≡ most_nodes self.now.query self.now.running }
    {
        match (&self.query, &self.running) {
            (Query::Heavy { at_least, .. }, Running::AugRoot(root)) => {
                nodes_of(root.total(), *at_least)
            }
            (Query::Share { num, den, .. }, Running::AugRoot(root)) => {
                let total = root.total();
                nodes_of(total, share_of(total, *num, *den))
            }
            _ => 0,
        }
    }

    /// How many places the pairs of an answer need.
    pub fn most_places(&self) -> usize
        requires fits { (depth : ℕ) × Fits depth self.now.query }
        ensures { result ≡ most_places self.now.query self.now.running }
    {
        match &self.query {
            Query::Sub { lo, hi } => most_pairs(*lo, *hi),
            _ => self.most_nodes(),
        }
    }

    /// Whether the answer may be too wide.
    pub fn is_wide(&self) -> bool
        requires fits { (depth : ℕ) × Fits depth self.now.query }
        ensures { result ≡ is_wide_seat self.now.query self.now.running }
    {
        match (&self.query, &self.running) {
            (Query::Heavy { at_least, .. }, Running::AugRoot(root)) => {
                is_wide(root.total(), *at_least)
            }
            (Query::Share { num, den, .. }, Running::AugRoot(root)) => {
                let total = root.total();
                is_wide(total, share_of(total, *num, *den))
            }
            _ => false,
        }
    }

    /// Whether the query is for large entries of this side, and the total that is kept is below
    /// this weight. It is that of a stream exactly where a delta of the side was below 0.
    pub(crate) fn has_light(&self, side: Side, weight: u64) -> bool
        ensures { result ≡ has_light self.now side weight }
    {
        match (&self.query, &self.running) {
            (
                Query::Heavy { side: own, .. } | Query::Share { side: own, .. },
                Running::AugRoot(root),
            ) => {
                let total = root.total();
                side == *own && (total < 0 || (total as u64) < weight)
            }
            _ => false,
        }
    }

    /// Whether updates of a side change the running numbers.
    pub(crate) fn takes(&self, side: Side) -> bool
        ensures { result ≡ concerns self.now.query side }
    {
        concerns(&self.query, side)
    }

    /// Keeps tables of the challenges, by which updates are added from now on.
    pub(crate) fn keep_tables(&mut self, alloc: Global) -> Result<(), OutOfMemory>
        ensures { self.new ≡ self.old }
    {
        self.running.keep_tables(alloc)
    }

    /// Adds updates of one side to the running numbers, in order.
    pub(crate) fn update_all(&mut self, side: Side, updates: &[Update])
        requires shallow { length self.old.block ≤ most_depth }
        requires items { All (λ u. u.item < 2 ^ length self.old.block) updates.now }
        requires sides { All (λ u. u.side ≡ side) updates.now }
        requires room { IsTrue (concerns self.old.query side)
            → HasRoom self.old.running updates.now }
        ensures query { self.new.query ≡ self.old.query }
        ensures block { self.new.block ≡ self.old.block }
        ensures keeps { keeps self.old.query self.new.running
            ≡ keeps self.old.query self.old.running }
        ensures stands { (depth : ℕ) (stream : List AnyUpdate)
            → StandsFor depth stream self.old
            → StandsFor depth (stream ++ updates.now) self.new }
        ensures others { concerns self.old.query side ≡ false → self.new ≡ self.old }
    {
        if concerns(&self.query, side) {
            self.running.update_all(side, updates);
        }
    }
}
