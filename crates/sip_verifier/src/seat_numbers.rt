//! The running numbers of a run's seats, one by one: what a caller needs that asks by itself.

ghost use Rattle.std.specs.Prelude.{◌≡◌, is_some, length, IfSome, IsTrue, ℕ};
ghost use Rattle.sip_verifier.specs.QuerySeats.{is_seat, point_is, root_is};
ghost use Rattle.sip_verifier.specs.SeatNumbers.{IsPointAt, IsRootAt, KeepsOne, has_root};
ghost use Rattle.sip_verifier.specs.SeatNumbers.{has_root_at, point_side, point_side_at};
ghost use Rattle.sip_verifier.specs.SeatNumbers.{queries_of};

use crate::Seats;
use crate::running::Running;
use crate::seat::QuerySeat;
use sip_field::M61;
use sip_mle::Point;
use sip_tree::Root;
use sip_vector::CAP;

impl QuerySeat {
    /// The root, where it keeps one.
    pub(crate) fn root(&self) -> Option<&Root<M61, CAP>>
        requires seat { (depth : ℕ) × IsTrue (is_seat depth self.now) }
        ensures asked { is_some result ≡ has_root self.now.query }
        ensures block { IfSome result (λ root. self.now.block ≡ root.now.seat) }
        ensures value { IfSome result (λ root. self.now.running ≡ root_is root.now.value) }
    {
        match &self.running {
            Running::Root(root) => Some(root),
            _ => None,
        }
    }

    /// The extension, where it keeps one and no other.
    pub(crate) fn point(&self) -> Option<&Point<M61, CAP>>
        requires seat { (depth : ℕ) × IsTrue (is_seat depth self.now) }
        ensures asked { is_some result ≡ is_some (point_side self.now.query) }
        ensures block { IfSome result (λ point. self.now.block ≡ point.now.seat) }
        ensures value { IfSome result (λ point. self.now.running ≡ point_is point.now.value) }
    {
        match &self.running {
            Running::Point(point) => Some(point),
            _ => None,
        }
    }
}

impl Seats {
    /// The root that the seat `k`, counted from 0, keeps of side 0's vector, with its challenges.
    ///
    /// `None` exactly where there is no such seat, or its query is not for a sub-vector. It is the
    /// root of the stream so far, whichever interval the query has: so [`ask_sub`](crate::ask_sub)
    /// can ask for another one.
    pub fn root(&self, k: usize) -> Option<&Root<M61, CAP>>
        ensures asked { is_some result ≡ has_root_at (queries_of self.now) k }
        ensures kept { IfSome result
            (λ root. KeepsOne self.now k root.now.seat (root_is root.now.value)) }
        ensures levels { IfSome result (λ root. length root.now.seat ≡ self.now.depth) }
        ensures stands { IfSome result (λ root. IsRootAt self.now k root.now.seat root.now.value) }
    {
        self.all().get(k)?.root()
    }

    /// The extension that the seat `k`, counted from 0, keeps of a side's vector, with its
    /// challenges.
    ///
    /// `None` exactly where there is no such seat, or its query is for neither a range sum nor a
    /// second moment. The side is that of the query; the extension is that of the stream so far,
    /// whichever interval the query has.
    pub fn point(&self, k: usize) -> Option<&Point<M61, CAP>>
        ensures asked { is_some result ≡ is_some (point_side_at (queries_of self.now) k) }
        ensures kept { IfSome result
            (λ point. KeepsOne self.now k point.now.seat (point_is point.now.value)) }
        ensures levels { IfSome result (λ point. length point.now.seat ≡ self.now.depth) }
        ensures stands { IfSome result
            (λ point. IsPointAt self.now k point.now.seat point.now.value) }
    {
        self.all().get(k)?.point()
    }
}
