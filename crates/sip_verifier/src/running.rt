//! The running numbers of one query.

ghost use Rattle.std.specs.Prelude.{◌≡◌, ◌<◌, ◌≤◌, ◌^◌, ℕ, List, [], ◌++◌, length, All, IsTrue};
ghost use Rattle.sip_vector.specs.declared.query.Query.{Query as AnyQuery};
ghost use Rattle.sip_vector.specs.declared.update.Update.{Update as AnyUpdate};
ghost use Rattle.sip_vector.specs.Limits.{most_depth};
ghost use Rattle.sip_verifier.specs.QuerySeats.{HasRoom, concerns, keeps};
ghost use Rattle.sip_verifier.specs.Running.{FitTogether, RunsFor, added_up, block_of, numbers_of};
ghost use Rattle.sip_verifier.specs.Running.{same_kind};

use crate::points::Points;
use sip_field::{M61, OutOfMemory, Seat};
use sip_mle::Point;
use sip_tree::{AugRoot, Root, SplitRoot};
use sip_vector::{CAP, Query, Side, Update};
use std::alloc::Global;

/// The running numbers of one query, with its challenges: all that is kept of a stream for it.
#[derive(Drop)]
pub enum Running {
    /// Of a sub-vector: the root of the tree over side 0.
    Root(Root<M61, CAP>),
    /// Of a range sum or a second moment: the extension of the side's vector.
    Point(Point<M61, CAP>),
    /// Of an inner product: the extensions of both sides' vectors.
    Points(Points),
    /// Of heavy hitters: the root of the augmented tree over the side's vector.
    AugRoot(AugRoot<M61, CAP>),
    /// Of large entries of any stream: the root of the split tree over the side's values and
    /// weights.
    SplitRoot(SplitRoot<M61, CAP>),
}

impl Running {
    /// Those of a query before any update, at these challenges.
    pub fn begin(query: &Query, block: Seat<M61, CAP>) -> Running
        ensures block { block_of result ≡ block }
        ensures keeps { IsTrue (keeps query.now (numbers_of result)) }
        ensures runs { (depth : ℕ) → length block ≡ depth → RunsFor depth [] query.now result }
    {
        match query {
            Query::Sub { .. } => Running::Root(Root::new(block)),
            Query::Range { .. } | Query::F2 { .. } => Running::Point(Point::new(block)),
            Query::Inner => Running::Points(Points::new(block)),
            Query::Heavy { .. } | Query::Share { .. } => Running::AugRoot(AugRoot::new(block)),
            Query::Above { .. } => Running::SplitRoot(SplitRoot::new(block)),
        }
    }

    /// The challenges.
    pub fn block(&self) -> &Seat<M61, CAP>
        ensures { result.now ≡ block_of self.now }
    {
        match self {
            Running::Root(root) => &root.seat,
            Running::Point(point) => &point.seat,
            Running::Points(points) => &points.first.seat,
            Running::AugRoot(root) => &root.seat,
            Running::SplitRoot(root) => &root.seat,
        }
    }

    /// Keeps tables of the challenges from now on, by which updates are added: 2 KiB for eight
    /// levels, 4 for heavy hitters, and none for large entries of any stream. The numbers stay as
    /// they are, also where there is no memory.
    pub fn keep_tables(&mut self, alloc: Global) -> Result<(), OutOfMemory>
        ensures block { block_of self.new ≡ block_of self.old }
        ensures numbers { numbers_of self.new ≡ numbers_of self.old }
    {
        match self {
            Running::Root(root) => root.keep_tables(alloc),
            Running::Point(point) => point.keep_tables(alloc),
            Running::Points(points) => points.keep_tables(alloc),
            Running::AugRoot(root) => root.keep_tables(alloc),
            Running::SplitRoot(_) => Ok(()),
        }
    }

    /// Adds updates of one side, in order, which concern the query.
    ///
    /// An update takes one look-up and one multiplication for each eight levels, by the tables that
    /// are kept. Where none are, they are made once for the call, on the stack. No memory.
    pub fn update_all(&mut self, side: Side, updates: &[Update])
        requires shallow { length (block_of self.old) ≤ most_depth }
        requires items { All (λ u. u.item < 2 ^ length (block_of self.old)) updates.now }
        requires sides { All (λ u. u.side ≡ side) updates.now }
        requires room { HasRoom (numbers_of self.old) updates.now }
        ensures block { block_of self.new ≡ block_of self.old }
        ensures keeps { (query : AnyQuery) → keeps query (numbers_of self.new)
            ≡ keeps query (numbers_of self.old) }
        ensures runs { (depth : ℕ) (stream : List AnyUpdate) (query : AnyQuery)
            → IsTrue (concerns query side)
            → RunsFor depth stream query self.old
            → RunsFor depth (stream ++ updates.now) query self.new }
    {
        match self {
            Running::Root(root) => root.update_all(updates),
            Running::Point(point) => point.update_all(updates),
            Running::Points(points) => points.update_all(side, updates),
            Running::AugRoot(root) => root.update_all(updates),
            Running::SplitRoot(root) => root.update_all(updates),
        }
    }

    /// Adds up what two streams left at the same challenges: `other` is behind then, and both have
    /// numbers of one kind. So a stream may be kept in parts, in any order.
    ///
    /// One addition for each number, and no memory.
    pub fn absorb(&mut self, other: &Running)
        requires block { block_of other.now ≡ block_of self.old }
        requires kind { IsTrue (same_kind (numbers_of self.old) (numbers_of other.now)) }
        requires weight { FitTogether (numbers_of self.old) (numbers_of other.now) }
        ensures block { block_of self.new ≡ block_of self.old }
        ensures numbers { numbers_of self.new
            ≡ added_up (numbers_of self.old) (numbers_of other.now) }
        ensures joins { (depth : ℕ) (stream more : List AnyUpdate) (query : AnyQuery)
            → RunsFor depth stream query self.old
            → RunsFor depth more query other.now
            → RunsFor depth (stream ++ more) query self.new }
    {
        match (self, other) {
            (Running::Root(root), Running::Root(more)) => root.absorb(more),
            (Running::Point(point), Running::Point(more)) => point.absorb(more),
            (Running::Points(points), Running::Points(more)) => points.absorb(more),
            (Running::AugRoot(root), Running::AugRoot(more)) => root.absorb(more),
            (Running::SplitRoot(root), Running::SplitRoot(more)) => root.absorb(more),
            _ => unreachable!(),
        }
    }
}

impl Default for Running {
    fn default() -> Running {
        Running::Root(Root::default())
    }
}
