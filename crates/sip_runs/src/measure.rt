//! What a stream came to so far, by which its next update is legal or not.

ghost use Rattle.std.specs.Prelude.{◌≡◌, ◌++◌, ◌∷◌, [], List, IfNone};
ghost use Rattle.sip_vector.specs.declared.update.Update.{Update as AnyUpdate};
ghost use Rattle.sip_stream.specs.Records.{update_fault};
ghost use Rattle.sip_runs.specs.Measures.{HasRoom, IsMeasured, nothing, weight_of};

use sip_stream::Why;
use sip_vector::{Depth, Side, Update};
use std::marker::Model;

/// The greatest weight of a side.
const MOST_WEIGHT: u64 = (1 << 30) - 1;

/// An update that is not legal behind those before it.
#[derive(Clone, Copy, Debug, PartialEq, Eq)]
pub struct BadUpdate {
    /// Its number in the stream, from 0.
    pub at: u64,
    /// Why it is not legal.
    pub why: Why,
}

/// How many updates of a stream came, and the weight of each side.
#[derive(Clone, Copy, Debug, PartialEq, Eq)]
pub(crate) struct Measure {
    depth: Depth,
    count: u64,
    first: u64,
    second: u64,
}

impl Model for Measure {
    ghost use Rattle.std.specs.Prelude.{◌+◌, ◌≤◌};
    ghost use Rattle.sip_vector.specs.Streams.{most_weight};
    ghost use Rattle.sip_runs.specs.Measures.{Measuring};

    ghost Value = { Measuring };

    ghost view = { λ m. record {
      depth = m.depth;
      count = m.count;
      first = m.first;
      second = m.second;
    } };

    ghost invariant = { λ m. (m.first ≤ most_weight) × (m.second ≤ most_weight)
        × (m.count ≤ m.first + m.second) };

    ghost inverse = { λ m. record {
      depth = m.depth;
      count = m.count;
      first = m.first;
      second = m.second;
    } };
}

impl Measure {
    /// Of no update.
    pub(crate) fn new(depth: Depth) -> Measure
        ensures nothing { result ≡ nothing depth }
        ensures measured { IsMeasured [] result }
    {
        Measure {
            depth,
            count: 0,
            first: 0,
            second: 0,
        }
    }

    /// The updates are about 2^depth items.
    pub(crate) fn depth(&self) -> Depth
        ensures { result ≡ self.now.depth }
    {
        self.depth
    }

    /// How many updates came, and so the number of the next one.
    pub(crate) fn count(&self) -> u64
        ensures { result ≡ self.now.count }
    {
        self.count
    }

    /// The weight of a side: the sum of the sizes of its deltas.
    pub(crate) fn weight(&self, side: Side) -> u64
        ensures { result ≡ weight_of self.now side }
    {
        match side {
            Side::First => self.first,
            Side::Second => self.second,
        }
    }

    /// Why the update is not legal behind those so far, tested in this order.
    pub(crate) fn fault(&self, update: &Update) -> Option<Why>
        ensures first { (before : List AnyUpdate) → IsMeasured before self.now
            → result ≡ update_fault self.now.depth before update.now }
        ensures room { IfNone result (HasRoom self.now update.now) }
    {
        if update.item >= 1 << self.depth.get() {
            return Some(Why::BadItem);
        }
        if update.delta == 0 {
            return Some(Why::ZeroDelta);
        }
        if self.weight(update.side) + update.delta.unsigned_abs() > MOST_WEIGHT {
            return Some(Why::TooHeavy(update.side));
        }
        None
    }

    /// Counts an update that may come next.
    pub(crate) fn add(&mut self, update: &Update)
        requires { HasRoom self.old update.now }
        ensures measured { (before : List AnyUpdate) → IsMeasured before self.old
            → IsMeasured (before ++ update.now ∷ []) self.new }
        ensures depth { self.new.depth ≡ self.old.depth }
    {
        let size = update.delta.unsigned_abs();
        match update.side {
            Side::First => self.first += size,
            Side::Second => self.second += size,
        }
        self.count += 1;
    }
}
