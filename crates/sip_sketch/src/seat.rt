//! A seat of a sketch: what one question is asked by.

ghost use Rattle.std.specs.Prelude.{◌≡◌, ◌<◌, ◌≤◌, ◌^◌, ◌++◌, ℕ, pos, ◌+ℤ◌, nat_abs, List, []};
ghost use Rattle.std.specs.Prelude.{length, All, IsTrue, false, true};
ghost use Rattle.sip_field.specs.Moduli.{m61_modulus};
ghost use Rattle.sip_vector.specs.Limits.{most_depth};
ghost use Rattle.sip_vector.specs.Streams.{most_weight, of_side, weight};
ghost use Rattle.sip_vector.specs.Tallies.{tally};
ghost use Rattle.sip_vector.specs.declared.query.Query.{Query as AnyQuery};
ghost use Rattle.sip_vector.specs.declared.update.Side.TheVariants as sides;
ghost use Rattle.sip_vector.specs.declared.update.Update.{Update as AnyUpdate};
ghost use Rattle.sip_verifier.specs.QuerySeats.{HasRoom, RunsOn, keeps};
ghost use Rattle.sip_verifier.specs.Running.{block_of, numbers_of};
ghost use Rattle.sip_sketch.specs.Joining.{added_seat};
ghost use Rattle.sip_sketch.specs.Seats.{IsSecond, IsUnweighed, beside, first_number};
ghost use Rattle.sip_sketch.specs.Seats.{numbers_kept, query_of, second_number, side_of};
ghost use Rattle.sip_sketch.specs.Standing.{SeatStands};
ghost use Rattle.sip_sketch.specs.declared.kind.SeatKind.{SeatKind as AnyKind};
ghost use Rattle.sip_sketch.specs.inside.Adding.{AddUp};
ghost use Rattle.sip_sketch.specs.inside.Raising.{HasSecond, IsRaised, IsTotalAfter, own_of};
ghost use Rattle.sip_sketch.specs.inside.Raising.{StartsAt};

use crate::SeatKind;
use sip_field::{Field, M61, OutOfMemory, Seat};
use sip_mle::Point;
use sip_tree::{AugRoot, Root, SplitRoot};
use sip_vector::{CAP, Side, Update};
use sip_verifier::{Points, Running};
use std::alloc::Global;
use std::marker::Model;

/// The greatest total of a side.
const MOST_TOTAL: i64 = (1 << 30) - 1;

// A total and the greatest one, which is not below 0.
fn raised(total: i64) -> u64
    requires { nat_abs total ≤ most_weight }
    ensures { result ≡ nat_abs (total +ℤ pos most_weight) }
{
    (total + MOST_TOTAL) as u64
}

/// The running numbers of a kind, with their challenges, where a file has these two numbers.
pub(crate) fn running_of(kind: SeatKind, block: Seat<M61, CAP>, first: u64, second: u64) -> Running
    requires first { first < m61_modulus }
    requires second { IsSecond kind second }
    ensures keeps { IsTrue (keeps (query_of kind) (numbers_of result)) }
    ensures block { block_of result ≡ block }
    ensures first { first_number (numbers_of result) ≡ first }
    ensures second { second_number (numbers_of result) ≡ second }
    ensures unweighed { IsUnweighed (numbers_of result) }
{
    match kind {
        SeatKind::Entries => Running::Root(Root::of(block, first)),
        SeatKind::Sums(_) => Running::Point(Point::of(block, first)),
        SeatKind::Products => Running::Points(Points {
            first: Point::of(block, first),
            second: M61::of_number(second),
        }),
        SeatKind::Heavy(_) => {
            Running::AugRoot(AugRoot::of(block, first, second as i64 - MOST_TOTAL))
        }
        SeatKind::Above(_) => Running::SplitRoot(SplitRoot {
            seat: block,
            hash: first,
            weight: 0,
        }),
    }
}

// Puts the weight of a side beside a hash.
pub(crate) fn weigh(running: &mut Running, weight: u64)
    requires { weight ≤ most_weight }
    ensures block { block_of running.new ≡ block_of running.old }
    ensures keeps { (query : AnyQuery) → keeps query (numbers_of running.new)
        ≡ keeps query (numbers_of running.old) }
    ensures numbers { numbers_of running.new ≡ beside weight (numbers_of running.old) }
{
    if let Running::SplitRoot(root) = running {
        root.weight = weight;
    }
}

// The first number of a file's seat.
fn first_of(running: &Running) -> u64
    ensures { result ≡ first_number (numbers_of running.now) }
{
    match running {
        Running::Root(root) => root.value,
        Running::Point(point) => point.value,
        Running::Points(points) => points.first.value,
        Running::AugRoot(root) => root.hash,
        Running::SplitRoot(root) => root.hash,
    }
}

// The second one.
fn second_of(running: &Running) -> u64
    ensures { result ≡ second_number (numbers_of running.now) }
{
    match running {
        Running::Root(_) | Running::Point(_) => 0,
        Running::Points(points) => points.second.number(),
        Running::AugRoot(root) => raised(root.total()),
        Running::SplitRoot(root) => root.weight(),
    }
}

// The running numbers of a kind before any update, at these challenges.
fn begun(kind: SeatKind, block: Seat<M61, CAP>) -> Running
    ensures keeps { IsTrue (keeps (query_of kind) (numbers_of result)) }
    ensures block { block_of result ≡ block }
    ensures starts { StartsAt (numbers_of result) }
    ensures unweighed { IsUnweighed (numbers_of result) }
    ensures runs { (depth : ℕ) → length block ≡ depth → RunsOn depth [] (query_of kind)
        (block_of result) (beside (weight [] (side_of kind)) (numbers_of result)) }
{
    match kind {
        SeatKind::Entries => Running::Root(Root::new(block)),
        SeatKind::Sums(_) => Running::Point(Point::new(block)),
        SeatKind::Products => Running::Points(Points::new(block)),
        SeatKind::Heavy(_) => Running::AugRoot(AugRoot::new(block)),
        SeatKind::Above(_) => Running::SplitRoot(SplitRoot::new(block)),
    }
}

// The updates of a side.
fn own_of<'a>(side: Side, firsts: &'a [Update], seconds: &'a [Update]) -> &'a [Update]
    ensures { result.now ≡ own_of side firsts.now seconds.now }
{
    match side {
        Side::First => firsts,
        Side::Second => seconds,
    }
}

// Adds updates to running numbers: those of the side, or of both sides where they are of both. What
// a total comes to is to be told too, so it is not left to the numbers of a query. No weight is kept
// beside a hash, since what is told of the stream has the side's.
fn raise(running: &mut Running, side: Side, firsts: &[Update], seconds: &[Update])
    requires shallow { length (block_of running.old) ≤ most_depth }
    requires firsts { All (λ u. u.item < 2 ^ length (block_of running.old)) firsts.now }
    requires seconds { All (λ u. u.item < 2 ^ length (block_of running.old)) seconds.now }
    requires first_side { All (λ u. u.side ≡ sides.First) firsts.now }
    requires second_side { All (λ u. u.side ≡ sides.Second) seconds.now }
    requires room { HasRoom (numbers_of running.old) (own_of side firsts.now seconds.now) }
    ensures block { block_of running.new ≡ block_of running.old }
    ensures keeps { (query : AnyQuery) → keeps query (numbers_of running.new)
        ≡ keeps query (numbers_of running.old) }
    ensures total { IsTotalAfter (numbers_of running.old) (own_of side firsts.now seconds.now)
        (numbers_of running.new) }
    ensures unweighed { IsUnweighed (numbers_of running.new) }
    ensures runs { (depth : ℕ) (stream updates : List AnyUpdate) (kind : AnyKind)
        → side_of kind ≡ side → firsts.now ≡ of_side updates sides.First
        → seconds.now ≡ of_side updates sides.Second
        → RunsOn depth stream (query_of kind) (block_of running.old)
        (beside (weight stream (side_of kind)) (numbers_of running.old))
        → RunsOn depth (stream ++ updates) (query_of kind) (block_of running.new)
        (beside (weight (stream ++ updates) (side_of kind)) (numbers_of running.new)) }
{
    let own = own_of(side, firsts, seconds);
    match running {
        Running::Root(root) => root.update_all(own),
        Running::Point(point) => point.update_all(own),
        Running::Points(points) => {
            points.update_all(Side::First, firsts);
            points.update_all(Side::Second, seconds);
        }
        Running::AugRoot(root) => root.update_all(own),
        Running::SplitRoot(root) => {
            root.update_all(own);
            root.weight = 0;
        }
    }
}

/// A seat: what it serves, whether a question has used it, and what it keeps of the stream, with
/// its challenges. Whoever knows the challenges can make any answer accepted, so none is shown.
#[derive(Drop)]
pub struct SketchSeat {
    pub(crate) kind: SeatKind,
    pub(crate) is_used: bool,
    pub(crate) running: Running,
}

impl Model for SketchSeat {
    ghost use Rattle.std.specs.Prelude.{IsTrue};
    ghost use Rattle.sip_verifier.specs.QuerySeats.{keeps};
    ghost use Rattle.sip_verifier.specs.Running.{block_of, numbers_of};
    ghost use Rattle.sip_sketch.specs.Seats.{IsUnweighed, first_number, query_of, second_number};
    ghost use Rattle.sip_sketch.specs.Sketches.{SeatValues};

    ghost Value = { SeatValues };

    ghost view = { λ s. record {
      kind = s.kind;
      is_used = s.is_used;
      block = block_of s.running;
      first = first_number (numbers_of s.running);
      second = second_number (numbers_of s.running);
    } };

    ghost invariant = { λ s. IsTrue (keeps (query_of s.kind) (numbers_of s.running))
        × IsUnweighed (numbers_of s.running) };
}

impl SketchSeat {
    /// The seat of a file.
    pub(crate) fn of(
        kind: SeatKind,
        is_used: bool,
        block: Seat<M61, CAP>,
        first: u64,
        second: u64,
    ) -> SketchSeat
        requires first { first < m61_modulus }
        requires second { IsSecond kind second }
        ensures kind { result.kind ≡ kind }
        ensures used { result.is_used ≡ is_used }
        ensures block { result.block ≡ block }
        ensures first { result.first ≡ first }
        ensures second { result.second ≡ second }
    {
        let running = running_of(kind, block, first, second);
        SketchSeat {
            kind,
            is_used,
            running,
        }
    }

    /// An unused seat at these challenges, before any update.
    pub(crate) fn begin(kind: SeatKind, block: Seat<M61, CAP>) -> SketchSeat
        ensures kind { result.kind ≡ kind }
        ensures unused { result.is_used ≡ false }
        ensures block { result.block ≡ block }
        ensures first { result.first < m61_modulus }
        ensures second { HasSecond (tally []) result }
        ensures stands { (depth : ℕ) → length block ≡ depth → SeatStands depth [] result }
    {
        let running = begun(kind, block);
        SketchSeat {
            kind,
            is_used: false,
            running,
        }
    }

    /// Keeps tables of the challenges, by which updates are added, where no question has used the
    /// seat.
    pub(crate) fn keep_tables(&mut self, alloc: Global) -> Result<(), OutOfMemory>
        ensures { self.new ≡ self.old }
    {
        if self.is_used {
            return Ok(());
        }
        self.running.keep_tables(alloc)
    }

    /// Adds updates, which are split by side, where no question has used the seat.
    pub(crate) fn update_all(&mut self, firsts: &[Update], seconds: &[Update])
        requires shallow { length self.old.block ≤ most_depth }
        requires firsts { All (λ u. u.item < 2 ^ length self.old.block) firsts.now }
        requires seconds { All (λ u. u.item < 2 ^ length self.old.block) seconds.now }
        requires first_side { All (λ u. u.side ≡ sides.First) firsts.now }
        requires second_side { All (λ u. u.side ≡ sides.Second) seconds.now }
        requires room { self.old.is_used ≡ false
            → HasRoom (numbers_kept self.old.kind self.old.first self.old.second)
            (own_of (side_of self.old.kind) firsts.now seconds.now) }
        ensures raised { (updates : List AnyUpdate) → firsts.now ≡ of_side updates sides.First
            → seconds.now ≡ of_side updates sides.Second → IsRaised updates self.old self.new }
    {
        if !self.is_used {
            let side = self.kind.side();
            raise(&mut self.running, side, firsts, seconds);
        }
    }

    /// Adds the numbers of another seat, where no question has used this one.
    pub(crate) fn absorb(&mut self, other: &SketchSeat)
        requires { AddUp self.old other.now }
        ensures { self.new ≡ added_seat self.old other.now }
    {
        if self.is_used {
            return;
        }
        self.running.absorb(&other.running);
    }

    /// What it serves.
    pub fn kind(&self) -> SeatKind
        ensures { result ≡ self.now.kind }
    {
        self.kind
    }

    /// Whether a question has used it.
    pub fn is_used(&self) -> bool
        ensures { result ≡ self.now.is_used }
    {
        self.is_used
    }

    /// The challenges.
    pub(crate) fn block(&self) -> &Seat<M61, CAP>
        ensures { result.now ≡ self.now.block }
    {
        self.running.block()
    }

    /// The first number that a file has of it.
    pub(crate) fn first(&self) -> u64
        ensures { result ≡ self.now.first }
    {
        first_of(&self.running)
    }

    /// The second one.
    pub(crate) fn second(&self) -> u64
        ensures { result ≡ self.now.second }
    {
        second_of(&self.running)
    }
}
