//! What the updates of a stream add up to.

ghost use Rattle.std.specs.Prelude.{◌≡◌, ◌<◌, ◌≤◌, ◌+◌, ◌^◌, ◌∷◌, [], All, Bool, IfOk, IfSome};
ghost use Rattle.std.specs.Prelude.{IsTrue, OnOk, fold, length, nat_abs, sum_by, if◌then◌else◌};
ghost use Rattle.std.specs.Option.{option_map};
ghost use Rattle.sip_vector.specs.Streams.{most_weight, weight};
ghost use Rattle.sip_vector.specs.Vectors.{contents, with_update};
ghost use Rattle.sip_helper.specs.Turns.{is_light, stays_legal, zero_vectors, with_updates};
ghost use Rattle.sip_helper.specs.Vectors.{vector_of};
ghost use Rattle.sip_helper.specs.inside.Adding.{most_in_piece, with_own};
ghost use Rattle.sip_helper.specs.inside.Legal.{weights_of, legal_weights};

use sip_field::OutOfMemory;
use sip_vector::{Depth, Side, Update, Vector, take_side};
use std::alloc::Global;
use std::marker::Model;

/// The greatest weight of a side.
const MOST_WEIGHT: u64 = (1 << 30) - 1;

/// How many updates are split by side at once: few, so that their buffer is short on the stack and
/// soon filled with zeros.
const PIECE: usize = 128;

/// The weights of the two sides: the sums of the absolute deltas.
#[derive(Clone, Copy, Debug, PartialEq, Eq)]
pub(crate) struct Weights {
    pub(crate) first: u64,
    pub(crate) second: u64,
}

impl Weights {
    /// The weights once an update is added; `None` where its item is not below `2^depth` or its
    /// side becomes too heavy.
    fn with_one(self, depth: Depth, update: Update) -> Option<Weights>
        requires { IsTrue (is_light self) }
        ensures { result ≡ legal_weights depth self (update ∷ []) }
    {
        let mut weights = self;
        let delta = update.delta.unsigned_abs();
        match update.side {
            Side::First => weights.first += delta,
            Side::Second => weights.second += delta,
        }
        if update.item >= 1 << depth.get()
            || weights.first > MOST_WEIGHT
            || weights.second > MOST_WEIGHT
        {
            return None;
        }
        Some(weights)
    }

    /// The weights once these updates are added; `None` where an item is not below `2^depth` or a
    /// side becomes too heavy.
    pub(crate) fn with(self, depth: Depth, updates: &[Update]) -> Option<Weights>
        requires { IsTrue (is_light self) }
        ensures { result ≡ legal_weights depth self updates.now }
    {
        let mut weights = self;
        for update in updates {
            weights = weights.with_one(depth, *update)?;
        }
        Some(weights)
    }
}

// Adds the updates of one side to its vector. They are gathered in `taken` first: a branch on the
// side would be guessed wrongly for every other update.
fn add_side(
    vector: &mut Vector,
    side: Side,
    updates: &[Update],
    taken: &mut [Update; PIECE],
) -> Result<(), OutOfMemory>
    requires most { length updates.now ≤ most_in_piece }
    requires items { All (λ u. u.item < 2 ^ vector.old.depth) updates.now }
    requires light { vector.old.weight + weight updates.now side ≤ most_weight }
    ensures { OnOk result (contents vector.new ≡ fold (with_update side) (contents vector.old)
        updates.now) }
{
    let count = take_side(updates, side, taken);
    add_all(vector, &taken[..count])
}

// Adds updates to the vector of their side.
fn add_all(vector: &mut Vector, updates: &[Update]) -> Result<(), OutOfMemory>
    requires items { All (λ u. u.item < 2 ^ vector.old.depth) updates.now }
    requires light { vector.old.weight + sum_by (λ u. nat_abs u.delta) updates.now ≤ most_weight }
    ensures { OnOk result (contents vector.new ≡ fold with_own (contents vector.old) updates.now) }
{
    for update in updates {
        vector.add(update.item, update.delta)?;
    }
    Ok(())
}

/// The vectors of the two sides.
#[derive(Drop)]
pub(crate) struct Vectors {
    pub(crate) first: Vector,
    pub(crate) second: Vector,
}

impl Model for Vectors {
    ghost use Rattle.sip_vector.specs.Vectors.{contents};
    ghost use Rattle.sip_helper.specs.Vectors.{Vectors as SeenVectors};

    ghost Value = { SeenVectors };

    ghost view = { λ v. record { first = contents v.first; second = contents v.second } };
}

impl Vectors {
    /// Nothing but zeros.
    pub(crate) fn new(alloc: Global, depth: Depth) -> Result<Vectors, OutOfMemory>
        ensures { IfOk result (λ vectors. vectors ≡ zero_vectors depth) }
    {
        Ok(Vectors {
            first: Vector::new(alloc, depth)?,
            second: Vector::new(alloc, depth)?,
        })
    }

    /// The vectors once these updates are added. Where memory is refused, they are gone.
    ///
    /// It is a call of its own, so that the stack has its buffer only while updates are added.
    #[inline(never)]
    pub(crate) fn with(self, updates: &[Update]) -> Result<Vectors, OutOfMemory>
        requires legal { IsTrue (stays_legal self.first.depth (weights_of self) updates.now) }
        requires depths { self.second.depth ≡ self.first.depth }
        ensures { IfOk result (λ vectors. vectors ≡ with_updates self updates.now) }
    {
        let mut vectors = self;
        // One buffer for all pieces and both sides.
        let mut taken = [Update::default(); PIECE];
        for piece in updates.chunks(PIECE) {
            vectors.add_piece(piece, &mut taken)?;
        }
        Ok(vectors)
    }

    // Adds a few updates, those of one side after those of the other. They are gathered in `taken`.
    // Where memory is refused, some of them are added.
    fn add_piece(
        &mut self,
        piece: &[Update],
        taken: &mut [Update; PIECE],
    ) -> Result<(), OutOfMemory>
        requires legal { IsTrue (stays_legal self.old.first.depth (weights_of self.old) piece.now) }
        requires depths { self.old.second.depth ≡ self.old.first.depth }
        requires most { length piece.now ≤ most_in_piece }
        ensures { OnOk result (self.new ≡ with_updates self.old piece.now) }
    {
        add_side(&mut self.first, Side::First, piece, taken)?;
        add_side(&mut self.second, Side::Second, piece, taken)
    }

    /// The vector of a side.
    pub(crate) fn of_side(&self, side: Side) -> &Vector
        ensures { contents result.now ≡ vector_of self.now side }
    {
        match side {
            Side::First => &self.first,
            Side::Second => &self.second,
        }
    }
}

/// The vectors with nothing pending, so that they are read quickly. They are the same vectors, also
/// where memory is refused: reads are right then, and slow.
pub(crate) fn settled(vectors: Option<Vectors>) -> Option<Vectors>
    ensures { result ≡ vectors }
{
    let mut vectors = vectors?;
    let _ = vectors.first.settle();
    let _ = vectors.second.settle();
    Some(vectors)
}

/// The vectors once these updates are added, where they are still kept; none where memory is
/// refused.
pub(crate) fn grown(vectors: Option<Vectors>, updates: &[Update]) -> Option<Vectors>
    requires legal { IfSome vectors (λ v. IsTrue (stays_legal v.first.depth
        (weights_of v) updates.now)) }
    requires depths { IfSome vectors (λ v. v.second.depth ≡ v.first.depth) }
    ensures { (refused : Bool) × (result ≡ (if refused then None else option_map
        (λ v. with_updates v updates.now) vectors)) }
{
    vectors?.with(updates).ok()
}
