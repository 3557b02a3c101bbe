//! Lists that are 1 from one index to another and 0 elsewhere: their folds, and their extension.
ghost use Rattle.std.specs.Prelude.{◌≡◌, ◌+◌, ◌*◌, ◌/◌, ◌^◌, ◌<◌, ◌≤◌, length, map, slice_index};
ghost use Rattle.sip_field.specs.Residue.{residue};
ghost use Rattle.sip_vector.specs.Extensions.{ext, line, ones};

use sip_field::{Field, Seat};
use sip_vector::Depth;
use std::marker::Model;

/// The extension, at a seat, of the list that is 1 from `lo` to `hi`, both included, and 0
/// elsewhere: the sum of the factors of these entries.
///
/// 2d `times`, however many entries there are.
pub fn interval_at<F: Field, const CAP: usize>(seat: &Seat<F, CAP>, lo: u64, hi: u64) -> F
    requires order { lo ≤ hi }
    requires item { hi < 2 ^ length seat.now }
    ensures { F.number result ≡ ext F.MODULUS (ones (length seat.now) lo hi) seat.now }
{
    let mut interval = IntervalFold::of_levels(seat.depth(), lo, hi);
    for below in 0..seat.depth() {
        interval.fold(seat.at(below + 1));
    }
    interval.at(0)
}

/// The list that is 1 from `lo` to `hi` and 0 elsewhere, folded by none, one or several challenges.
///
/// A contract sees the list of residues. Folds leave 1 inside the interval and 0 outside it, so
/// that two indexes and the values there are all that is kept.
#[derive(Drop)]
pub struct IntervalFold<F: Field> {
    levels: usize,
    lo: u64,
    hi: u64,
    left: F,
    right: F,
}

impl<F: Field> Model for IntervalFold<F> {
    ghost use Rattle.std.specs.Prelude.{ℕ, ◌^◌, ◌<◌, ◌≤◌, List};
    ghost use Rattle.sip_mle.specs.Intervals.{interval};

    ghost Value = { List ℕ };

    ghost view = { λ s. interval s.levels s.lo s.hi (F.number s.left) (F.number s.right) };

    ghost invariant = { λ s. (s.lo ≤ s.hi) × (s.hi < 2 ^ s.levels) };
}

impl<F: Field> IntervalFold<F> {
    /// The list of 2^depth entries before any fold.
    pub fn new(depth: Depth, lo: u64, hi: u64) -> IntervalFold<F>
        requires order { lo ≤ hi }
        requires item { hi < 2 ^ depth }
        ensures list { result ≡ map (residue F.MODULUS) (ones depth lo hi) }
        ensures length { length result ≡ 2 ^ depth }
    {
        IntervalFold::of_levels(usize::from(depth.get()), lo, hi)
    }

    // The list of 2^levels entries: a seat may have more levels than a vector.
    fn of_levels(levels: usize, lo: u64, hi: u64) -> IntervalFold<F>
        requires order { lo ≤ hi }
        requires item { hi < 2 ^ levels }
        ensures list { result ≡ map (residue F.MODULUS) (ones levels lo hi) }
        ensures length { length result ≡ 2 ^ levels }
    {
        IntervalFold {
            levels,
            lo,
            hi,
            left: F::of(1),
            right: F::of(1),
        }
    }

    /// Folds the list: each pair `u`, `w` of neighbours becomes `u + r * (w - u)`.
    ///
    /// 2 `times`, one for the pair of each end.
    pub fn fold(&mut self, r: F)
        requires { 2 ≤ length self.old }
        ensures list { self.new ≡ line F.MODULUS self.old (F.number r) }
        ensures length { 2 * length self.new ≡ length self.old }
    {
        let left = self.folded_pair(self.lo, r);
        let right = self.folded_pair(self.hi, r);
        self.levels -= 1;
        self.lo /= 2;
        self.hi /= 2;
        self.left = left;
        self.right = right;
    }

    // What the pair of neighbours that has this entry becomes in a fold.
    fn folded_pair(&self, index: u64, r: F) -> F
        requires { index / 2 * 2 + 1 < length self.now }
        ensures { F.number result ≡ slice_index (line F.MODULUS self.now (F.number r)) (index / 2) }
    {
        let u = self.at(index / 2 * 2);
        let w = self.at(index / 2 * 2 + 1);
        u.plus(r.times(w.minus(u)))
    }

    /// The entry at `index`.
    pub fn at(&self, index: u64) -> F
        requires { index < length self.now }
        ensures { F.number result ≡ slice_index self.now index }
    {
        if index == self.lo {
            self.left
        } else if index == self.hi {
            self.right
        } else {
            F::of(u64::from((self.lo..=self.hi).contains(&index)))
        }
    }
}
