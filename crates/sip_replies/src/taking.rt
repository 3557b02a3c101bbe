// One frame of a reply, taken off a link, with all that comes kept.
ghost use Rattle.std.specs.Prelude.{◌≡◌, Err};
ghost use Rattle.sip_ports.specs.Ports.{Lasts, Rose};
ghost use Rattle.sip_wire.specs.Frames.{frame_message};
ghost use Rattle.sip_replies.specs.Replies.{read_one};
ghost use Rattle.sip_replies.specs.Asking.{Shows, Takes, filled};

use sip_ports::{Link, PortStop, Sink, write_whole};
use sip_wire::{Frame, Place, Reason, Version, WireFault, decode_within};

/// Why a reply was not taken.
#[derive(Clone, Copy, Debug, PartialEq, Eq)]
pub(crate) enum ReplyStop {
    /// The reply has a fault.
    Faulty(Reason),
    /// A call of the link failed.
    PeerFault,
    /// What was received could not be kept: a call of the keeper failed.
    KeepFault,
    /// The link ran out of memory.
    OutOfMemory,
    /// The keeper ran out of memory.
    KeepOutOfMemory,
}

impl From<WireFault> for ReplyStop {
    ghost use Rattle.std.specs.Prelude.{◌≡◌};
    ghost use Rattle.sip_replies.specs.Asking.{stop_of_fault};

    ghost from_gives = { λ fault stop. stop ≡ stop_of_fault fault };

    fn from(fault: WireFault) -> Self {
        match fault {
            WireFault::Closed => ReplyStop::Faulty(Reason::Closed),
            WireFault::BadKind => ReplyStop::Faulty(Reason::BadKind),
            WireFault::BadLength => ReplyStop::Faulty(Reason::BadLength),
            WireFault::BadCount => ReplyStop::Faulty(Reason::BadCount),
            WireFault::BadNumber => ReplyStop::Faulty(Reason::BadNumber),
            WireFault::PeerFault => ReplyStop::PeerFault,
            WireFault::OutOfMemory => ReplyStop::OutOfMemory,
        }
    }
}

// the stop of a keeper
impl From<PortStop> for ReplyStop {
    ghost use Rattle.std.specs.Prelude.{◌≡◌};
    ghost use Rattle.sip_replies.specs.Asking.{stop_of_keeper};

    ghost from_gives = { λ port stop. stop ≡ stop_of_keeper port };

    fn from(port: PortStop) -> Self {
        match port {
            PortStop::Failed => ReplyStop::KeepFault,
            PortStop::OutOfMemory => ReplyStop::KeepOutOfMemory,
        }
    }
}

impl From<Reason> for ReplyStop {
    ghost use Rattle.std.specs.Prelude.{◌≡◌};
    ghost use Rattle.sip_replies.specs.declared.taking.ReplyStop.TheVariants as stops;

    ghost from_gives = { λ reason stop. stop ≡ stops.Faulty reason };

    fn from(reason: Reason) -> Self {
        ReplyStop::Faulty(reason)
    }
}

/// Receives one frame, writes its bytes to `keep`, and then judges it. Where the link stopped
/// inside the frame nothing is kept. What the frame says is then its message.
pub(crate) fn receive<L: Link, K: Sink>(
    version: Version,
    place: Place,
    frame: &mut Frame,
    link: &mut L,
    keep: &mut K,
) -> Result<(), ReplyStop>
    ensures took { Takes version (read_one version place) (L.talk link.old) (L.talk link.new)
        (K.talk keep.old) (K.talk keep.new) (Shows version)
        (filled (frame_message frame.new) result) }
    ensures link { Lasts L.faults L.wants L.is_sure link.old link.new }
    ensures keep { Lasts K.faults K.wants K.is_sure keep.old keep.new }
    ensures peer { result ≡ Err ReplyStop.PeerFault → Rose (L.faults link.old) (L.faults link.new) }
    ensures keeper { result ≡ Err ReplyStop.KeepFault
        → Rose (K.faults keep.old) (K.faults keep.new) }
    ensures memory { result ≡ Err ReplyStop.OutOfMemory
        → Rose (L.wants link.old) (L.wants link.new) }
    ensures keeper_memory { result ≡ Err ReplyStop.KeepOutOfMemory
        → Rose (K.wants keep.old) (K.wants keep.new) }
{
    match decode_within(link, place, version, frame) {
        Err(WireFault::PeerFault) => Err(ReplyStop::PeerFault),
        Err(WireFault::OutOfMemory) => Err(ReplyStop::OutOfMemory),
        judged => {
            write_whole(keep, frame.bytes())?;
            Ok(judged?)
        }
    }
}
