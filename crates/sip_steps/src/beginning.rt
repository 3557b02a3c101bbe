//! How a question of each kind begins.

ghost use Rattle.std.specs.Prelude.{◌≡◌, ◌≤◌, ◌<◌, ◌*◌, ◌/◌, ◌^◌, ◌%◌, [], ℕ, length};
ghost use Rattle.std.specs.Prelude.{IfOk, IsTrue};
ghost use Rattle.sip_field.specs.Elements.{m61_number};
ghost use Rattle.sip_field.specs.Moduli.{m61_modulus};
ghost use Rattle.sip_wire.specs.Spelling.{fits};
ghost use Rattle.sip_subvec.specs.Asking.{most_answer};
ghost use Rattle.sip_subvec.specs.Protocol.{sub_asked, sub_protocol};
ghost use Rattle.sip_sums.specs.Protocol.{sum_asked, sum_protocol};
ghost use Rattle.sip_heavy.specs.Protocol.{above_asked, count_of, heavy_asked, heavy_protocol};
ghost use Rattle.sip_verifier.specs.QuerySeats.{RunningNumbers, keeps};
ghost use Rattle.sip_verifier.specs.Running.{block_of, numbers_of};
ghost use Rattle.sip_moments.specs.Moments.{IsDegree};
ghost use Rattle.sip_steps.specs.Openings.{CanOpen, message_of, query_like, subject_at};
ghost use Rattle.sip_steps.specs.Openings.{subject_of};
ghost use Rattle.sip_steps.specs.Posed.{HasBegun, IsOfLarge, IsOfMoment, IsOfQuery, IsPosed};

use crate::asking::Asking;
use crate::opening::Opening;
use crate::posing::Posing;
use sip_above::Large;
use sip_field::{Field, M61, OutOfMemory, Seat};
use sip_heavy::{HeavyAsking, HeavySpace};
use sip_mle::{Point, interval_at};
use sip_moments::{Moment, MomentAsking};
use sip_subvec::{MOST_ENTRIES, SubAsking};
use sip_sums::SumAsking;
use sip_tree::{AugRoot, Root, SplitRoot};
use sip_vector::{CAP, Depth, Entry, Query, share_of};
use sip_verifier::Running;
use sip_wire::Version;
use std::alloc::Global;

// So many places to which no pair was written.
pub(crate) fn places_for(alloc: Global, count: usize) -> Result<Vec<Entry>, OutOfMemory>
    ensures { IfOk result (λ places. length places.items ≡ count) }
{
    let Ok(places) = vec![in alloc; Entry { index: 0, value: 0 }; count] else {
        return Err(OutOfMemory);
    };
    Ok(places)
}

// How many pairs the answer for an interval may have.
pub(crate) fn most_pairs(lo: u64, hi: u64) -> usize
    requires { lo ≤ hi }
    ensures { result ≡ most_answer lo hi }
{
    ((hi - lo).min(MOST_ENTRIES - 1) + 1) as usize
}

// How many nodes a level of the replies may have, of a total with this threshold.
fn most_nodes(total: i64, at_least: u64) -> usize
    requires some { 1 ≤ at_least }
    ensures { result ≡ 2 * (count_of total / at_least) }
{
    if total < 1 {
        return 0;
    }
    2 * (total as u64 / at_least) as usize
}

// For the entries of an interval, by the root of the vector.
fn begin_entries(
    alloc: Global,
    version: Version,
    opening: Opening,
    root: &Root<M61, CAP>,
    lo: u64,
    hi: u64,
) -> Result<Posing, OutOfMemory>
    requires order { lo ≤ hi }
    requires item { hi < 2 ^ length root.now.seat }
    requires fits { IsTrue (fits version (message_of opening)) }
    ensures posed { (depth : ℕ) (running : RunningNumbers)
        → IsOfQuery (subject_at version depth opening root.now.seat running)
        (sub_protocol (sub_asked version m61_modulus root.now.value lo hi root.now.seat))
        → IfOk result (IsPosed (subject_at version depth opening root.now.seat running) []) }
{
    let places = places_for(alloc, most_pairs(lo, hi))?;
    let check = SubAsking::start(root, lo, hi);
    let asking = Asking::begin(alloc, check, version, opening, places)?;
    Ok(Posing::Entries(asking))
}

// For a sum, where the extensions of the lists that it is over have this product.
fn begin_sum(
    alloc: Global,
    version: Version,
    opening: Opening,
    seat: &Seat<M61, CAP>,
    product: M61,
) -> Result<Posing, OutOfMemory>
    requires fits { IsTrue (fits version (message_of opening)) }
    ensures posed { (depth : ℕ) (running : RunningNumbers)
        → IsOfQuery (subject_at version depth opening seat.now running)
        (sum_protocol (sum_asked version m61_modulus (m61_number product)))
        → IfOk result (IsPosed (subject_at version depth opening seat.now running) []) }
{
    let check = SumAsking::start(seat, product);
    let asking = Asking::begin(alloc, check, version, opening, Vec::new(alloc))?;
    Ok(Posing::Sum(asking))
}

// For the entries of at least `at_least`, by the augmented root of the vector.
fn begin_heavy(
    alloc: Global,
    version: Version,
    opening: Opening,
    root: &AugRoot<M61, CAP>,
    at_least: u64,
) -> Result<Posing, OutOfMemory>
    requires least { 1 ≤ at_least }
    requires fits { IsTrue (fits version (message_of opening)) }
    ensures posed { (depth : ℕ) (running : RunningNumbers)
        → IsOfQuery (subject_at version depth opening root.now.seat running)
        (heavy_protocol (heavy_asked version m61_modulus root.now.hash root.now.total
        (length root.now.seat) at_least))
        → IfOk result (IsPosed (subject_at version depth opening root.now.seat running) []) }
{
    let nodes = most_nodes(root.total(), at_least);
    let places = places_for(alloc, nodes)?;
    let space = HeavySpace::reserve(alloc, nodes)?;
    let check = HeavyAsking::start(root, at_least, space);
    let asking = Asking::begin(alloc, check, version, opening, places)?;
    Ok(Posing::Heavy(asking))
}

// For large entries, by the root of the split tree.
fn begin_large(
    alloc: Global,
    version: Version,
    large: Large,
    root: &SplitRoot<M61, CAP>,
) -> Result<Posing, OutOfMemory>
    requires least { 1 ≤ large.at_least }
    requires fits { IsTrue (fits version (message_of (Opening.Large large))) }
    ensures posed { (depth : ℕ) (running : RunningNumbers)
        → IsOfLarge (subject_at version depth (Opening.Large large) root.now.seat running)
        (heavy_protocol (above_asked version m61_modulus root.now.hash root.now.weight
        (length root.now.seat) large.at_least))
        → IfOk result
        (IsPosed (subject_at version depth (Opening.Large large) root.now.seat running) []) }
{
    let nodes = large.most_nodes(root.weight());
    let places = places_for(alloc, nodes)?;
    let space = HeavySpace::reserve(alloc, nodes)?;
    let check = HeavyAsking::start_above(root, large.at_least, space);
    let opening = Opening::Large(large);
    let asking = Asking::begin(alloc, check, version, opening, places)?;
    Ok(Posing::Heavy(asking))
}

// For a moment, by the extension of the vector.
fn begin_moment(
    alloc: Global,
    version: Version,
    moment: Moment,
    seat: &Seat<M61, CAP>,
    extension: M61,
) -> Result<Posing, OutOfMemory>
    requires degree { IsDegree moment.degree }
    ensures posed { (depth : ℕ) (running : RunningNumbers)
        → IsOfMoment (subject_at version depth (Opening.Moment moment) seat.now running) moment
        ((m61_number extension ^ moment.degree) % m61_modulus)
        → IfOk result
        (IsPosed (subject_at version depth (Opening.Moment moment) seat.now running) []) }
{
    let check = MomentAsking::start(moment.degree, seat, extension);
    let opening = Opening::Moment(moment);
    let asking = Asking::begin(alloc, check, version, opening, Vec::new(alloc))?;
    Ok(Posing::Moment(asking))
}

// A query, before anything was said.
fn begin_query(
    alloc: Global,
    version: Version,
    depth: Depth,
    query: Query,
    running: &Running,
) -> Result<Posing, OutOfMemory>
    requires can { CanOpen version depth (Opening.Query query) }
    requires levels { length (block_of running.now) ≡ depth }
    requires keeps { IsTrue (keeps query (numbers_of running.now)) }
    ensures { IfOk result
        (IsPosed (subject_of version depth (Opening.Query query) running.now) []) }
{
    let opening = Opening::Query(query);
    match (&query, running) {
        (Query::Sub { lo, hi }, Running::Root(root)) => {
            let levels = root.seat.depth();
            prove!(levels <= CAP);
            begin_entries(alloc, version, opening, root, *lo, *hi)
        }
        (Query::Range { lo, hi, .. }, Running::Point(point)) => {
            let interval = interval_at(&point.seat, *lo, *hi);
            let product = point.value().times(interval);
            begin_sum(alloc, version, opening, &point.seat, product)
        }
        (Query::F2 { .. }, Running::Point(point)) => {
            let product = point.value().times(point.value());
            begin_sum(alloc, version, opening, &point.seat, product)
        }
        (Query::Inner, Running::Points(points)) => {
            let product = points.first.value().times(points.second);
            begin_sum(alloc, version, opening, &points.first.seat, product)
        }
        (Query::Heavy { at_least, .. }, Running::AugRoot(root)) => {
            begin_heavy(alloc, version, opening, root, *at_least)
        }
        (Query::Share { num, den, .. }, Running::AugRoot(root)) => {
            let at_least = share_of(root.total(), *num, *den);
            begin_heavy(alloc, version, opening, root, at_least)
        }
        _ => unreachable!(),
    }
}

// The question, before anything was said.
fn begun(
    alloc: Global,
    version: Version,
    depth: Depth,
    opening: Opening,
    running: &Running,
) -> Result<Posing, OutOfMemory>
    requires can { CanOpen version depth opening }
    requires levels { length (block_of running.now) ≡ depth }
    requires keeps { IsTrue (keeps (query_like opening) (numbers_of running.now)) }
    ensures { IfOk result (IsPosed (subject_of version depth opening running.now) []) }
{
    match (opening, running) {
        (Opening::Query(query), running) => begin_query(alloc, version, depth, query, running),
        (Opening::Moment(moment), Running::Point(point)) => {
            begin_moment(alloc, version, moment, &point.seat, point.value())
        }
        (Opening::Large(large), Running::SplitRoot(root)) => begin_large(
            alloc, version, large, root,
        ),
        _ => unreachable!(),
    }
}

impl Posing {
    /// Before anything was said. The running numbers are those of the query that is like the
    /// question: of a moment, those of the second moment of its side. They serve this question
    /// alone: the other end knows all but one of their challenges from then on.
    ///
    /// Takes a frame of 8,709 bytes, and 16 bytes for each entry that the answer may have: one for
    /// each item of an interval, up to 65,536, and 2 * floor(n / T) where heavy hitters or large
    /// entries are asked for, which takes 64 bytes more for each. Where these are asked for and
    /// nothing can be as large, the empty answer is the verdict at once.
    ///
    /// No question is refused here for what a helper may have no room to answer. Before that is
    /// asked it is the caller's to test: [`is_wide`](sip_vector::is_wide) of the total where heavy
    /// hitters are asked for, and of the side's weight where large entries are, and
    /// [`is_too_high`](sip_moments::is_too_high) of that weight where a moment is. An honest helper
    /// may refuse one that was not tested.
    ///
    /// # Errors
    ///
    /// `OutOfMemory` where there is none for these.
    pub fn begin(
        alloc: Global,
        version: Version,
        depth: Depth,
        opening: Opening,
        running: &Running,
    ) -> Result<Posing, OutOfMemory>
        requires can { CanOpen version depth opening }
        requires levels { length (block_of running.now) ≡ depth }
        requires keeps { IsTrue (keeps (query_like opening) (numbers_of running.now)) }
        ensures begun { IfOk result HasBegun }
        ensures posed { IfOk result
            (IsPosed (subject_of version depth opening running.now) []) }
    {
        begun(alloc, version, depth, opening, running)
    }
}
