//! One moment, asked of the helper and judged.

ghost use Rattle.std.specs.Prelude.{◌≡◌, ◌≢◌, ◌%◌, ◌^◌, ℕ, List, Ok};
ghost use Rattle.sip_field.specs.Elements.{m61_number};
ghost use Rattle.sip_field.specs.Moduli.{m61_modulus};
ghost use Rattle.sip_ports.specs.Ports.{Lasts};
ghost use Rattle.sip_vector.specs.declared.update.Update.{Update as AnyUpdate};
ghost use Rattle.sip_verifier.specs.AskClause.{AskClause};
ghost use Rattle.sip_verifier.specs.Snapshots.{span};
ghost use Rattle.sip_verifier.specs.runs.Askers.{Asks};
ghost use Rattle.sip_moments.specs.AcceptsMoment.{power_at};
ghost use Rattle.sip_moments.specs.Manner.{asking, numbers_of};
ghost use Rattle.sip_moments.specs.Moments.{IsDegree};
ghost use Rattle.sip_moments.specs.Sittings.{verdict_of};

use crate::moment::Moment;
use crate::moment_asking::MomentAsking;
use sip_field::{M61, Seat};
use sip_ports::{Link, Sink};
use sip_replies::{AskStop, Said, ask};
use sip_vector::CAP;
use sip_verifier::Unanswered;
use sip_wire::{Frame, Version};

// What came of a question for a moment: it is answered by a number.
fn verdict_of(asked: Result<Said, AskStop>) -> Result<i64, Unanswered>
    requires { (found : ℕ) → asked ≢ Ok (Said.Pairs found) }
    ensures { result ≡ verdict_of asked }
{
    match asked {
        Ok(Said::Number(value)) => Ok(value),
        Ok(Said::Pairs(_)) => unreachable!(),
        Err(stop) => Err(Unanswered::from(stop)),
    }
}

/// Asks a moment, takes the replies and judges them by the extension of the moment's side at these
/// challenges.
///
/// A challenge leaves only after the reply before it was taken and passed its tests, and the last
/// challenge never leaves. `keep` gets each frame's bytes before they are judged. No memory is
/// taken, and the time is linear in the replies. A block serves one question: the other end knows
/// all but one of its challenges from then on.
///
/// # Errors
///
/// `Rejected` with the first fault of the replies. The others are those of the ports, each only
/// where that port's own count of them rose: `PeerFault`, where a reply is missing or not whole;
/// `KeepFault`, where what came of the last one was not judged; `OutOfMemory` is the one or the
/// other.
#[inline(never)]
pub fn ask_moment<L: Link, C: Sink>(
    version: Version,
    moment: Moment,
    seat: &Seat<M61, CAP>,
    extension: M61,
    frame: &mut Frame,
    link: &mut L,
    keep: &mut C,
) -> Result<i64, Unanswered>
    requires { IsDegree moment.degree }
    ensures asks { (depth : ℕ) (stream : List AnyUpdate)
        → (m61_number extension ^ moment.degree) % m61_modulus
        ≡ power_at m61_modulus moment.degree (numbers_of depth stream moment) seat.now
        → Asks (asking version depth stream) (moment, seat.now) (L.talk link.old) (L.talk link.new)
        (λ value stated. value ≡ stated) result }
    ensures keeps { AskClause version
        (span L.talk L.faults L.wants link.old link.new)
        (span C.talk C.faults C.wants keep.old keep.new) result }
    ensures link { Lasts L.faults L.wants L.is_sure link.old link.new }
    ensures keep { Lasts C.faults C.wants C.is_sure keep.old keep.new }
{
    let mut check = MomentAsking::start(moment.degree, seat, extension);
    let asked = ask(&mut check, version, &moment, &mut [], frame, link, keep);
    verdict_of(asked)
}
