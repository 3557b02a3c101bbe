//! A sub-vector that is asked for by itself, and not as a query of a session.

ghost use Rattle.std.specs.Prelude.{◌≡◌, ◌≢◌, ◌⊎◌, ◌^◌, ◌<◌, ◌≤◌, ℕ, Ok, Err, List, [], length};
ghost use Rattle.std.specs.Prelude.{vec_capacity};
ghost use Rattle.sip_field.specs.Moduli.{m61_modulus};
ghost use Rattle.sip_ports.specs.Ports.{Lasts};
ghost use Rattle.sip_subvec.specs.Asking.{most_answer};
ghost use Rattle.sip_tree.specs.StandsFor.{RootStandsFor};
ghost use Rattle.sip_vector.specs.declared.query.Query.TheVariants as queries;
ghost use Rattle.sip_vector.specs.declared.update.Side.TheVariants.{First};
ghost use Rattle.sip_vector.specs.declared.update.Update.{Update as AnyUpdate};
ghost use Rattle.sip_vector.specs.Streams.{IsLegal, vector};
ghost use Rattle.sip_wire.specs.Versions.{deepest};
ghost use Rattle.sip_verifier.specs.AskClause.{AskClause, came_of};
ghost use Rattle.sip_verifier.specs.Asking.{AnswersCount, Asks};
ghost use Rattle.sip_verifier.specs.ReplyBound.{ReplyBound};
ghost use Rattle.sip_verifier.specs.Snapshots.{span};

use crate::seat::most_pairs;
use crate::seat_asking::{found_in, verdict_of};
use crate::session::{SessionFault, Verdict};
use sip_field::M61;
use sip_ports::{Link, Sink};
use sip_replies::ask;
use sip_subvec::SubAsking;
use sip_tree::Root;
use sip_vector::{CAP, Entry, Query};
use sip_wire::{Frame, Version};

/// Asks for the entries from `lo` to `hi`, both included, of the vector that has this root, takes
/// the replies and judges them, as [`Session::ask`](crate::Session::ask) does for a query of a
/// session. After [`Verdict::Pairs`] the pairs of the answer are in `entries`, rising, and after
/// any other answer none are.
///
/// The depth is the number of the root's challenges: at most 32 in version 1, and 48 in version 2.
/// No memory is taken: `entries` has room for the longest answer, one for each item of the
/// interval, or 65,536 if those are more, and keeps it. The time is linear in the replies and in
/// that room. A root is asked once: the other end knows all but one of its challenges from then on.
///
/// # Errors
///
/// As of [`Session::ask`](crate::Session::ask). `PeerFault`: a reply is then missing or not whole,
/// and those before it have no fault. `KeepFault`: what came of the last reply was not judged.
/// `OutOfMemory` is the one or the other. Each comes only where that port's own count of them rose.
pub fn ask_sub<L: Link, C: Sink>(
    version: Version,
    root: &Root<M61, CAP>,
    lo: u64,
    hi: u64,
    link: &mut L,
    keep: &mut C,
    frame: &mut Frame,
    entries: &mut Vec<Entry>,
) -> Result<Verdict, SessionFault>
    requires order { lo ≤ hi }
    requires within { hi < 2 ^ length root.now.seat }
    requires shallow { length root.now.seat ≤ deepest version }
    requires room { most_answer lo hi ≤ vec_capacity entries.old }
    ensures asks { (depth : ℕ) (stream : List AnyUpdate)
        → RootStandsFor m61_modulus root.now.seat root.now.value (vector depth stream First)
        → Asks version depth stream (queries.Sub lo hi) root.now.seat (L.talk link.old)
        (L.talk link.new) entries.new.items result }
    ensures count { (depth : ℕ) (stream : List AnyUpdate)
        → RootStandsFor m61_modulus root.now.seat root.now.value (vector depth stream First)
        → IsLegal depth stream
        → AnswersCount version depth stream (queries.Sub lo hi) root.now.seat (L.talk link.old)
        (L.talk link.new) entries.new.items result }
    ensures bound { (depth : ℕ) (stream : List AnyUpdate)
        → RootStandsFor m61_modulus root.now.seat root.now.value (vector depth stream First)
        → ReplyBound version depth stream (queries.Sub lo hi) (L.talk link.old)
        (L.talk link.new) }
    ensures cleared { result ≢ Ok Verdict.Pairs → entries.new.items ≡ [] }
    ensures room { vec_capacity entries.old ≤ vec_capacity entries.new }
    ensures keeps { AskClause version
        (span L.talk L.faults L.wants link.old link.new)
        (span C.talk C.faults C.wants keep.old keep.new) (came_of result) }
    ensures link { Lasts L.faults L.wants L.is_sure link.old link.new }
    ensures keep { Lasts C.faults C.wants C.is_sure keep.old keep.new }
{
    let Ok(()) = entries.resize(most_pairs(lo, hi), Entry { index: 0, value: 0 }) else {
        unreachable!()
    };
    let mut check = SubAsking::start(root, lo, hi);
    let query = Query::Sub { lo, hi };
    let asked = ask(&mut check, version, &query, entries, frame, link, keep);
    entries.truncate(found_in(entries.len(), &asked));
    verdict_of(asked)
}
