// A link beside a file that is replaced whole or not at all.
ghost use Rattle.std.specs.Prelude.{◌≡◌, ℕ, ◌≤◌, List, [], length, option_map, IfOk, IfSome};
ghost use Rattle.std.specs.Prelude.{IsErrOf};
ghost use Rattle.std.specs.declared.option.Option.{Option};
ghost use Rattle.sip_ports.specs.declared.desk.DeskStop.TheVariants.{OutOfMemory};
ghost use Rattle.sip_ports.specs.Ports.{GoesOn};
ghost use Rattle.sip_ports.specs.Desk.{HasDeskCause, Loads, Replaces};

use crate::{Link, PortStop};
use std::alloc::{AllocError, AllocFailed, Global};

/// The most bytes that a [`Desk`] loads: one more than the longest sketch has, the longest file
/// that is ever stored by one, so that a file that is too long is seen to be. One that never ends,
/// as a device, is not read on.
pub const LONGEST_LOAD: usize = 25_813;

/// Why a call of a desk's file stopped.
#[derive(Clone, Copy, Debug, PartialEq, Eq)]
pub enum DeskStop {
    /// The desk failed. It is answered only where its count of faults rose in this call.
    Failed,
    /// Memory was refused. It is answered only where the desk's count of such refusals rose in this
    /// call.
    OutOfMemory,
    /// Another has the file. Only a load answers this.
    Busy,
}

impl From<PortStop> for DeskStop {
    ghost use Rattle.std.specs.Prelude.{◌≡◌};
    ghost use Rattle.sip_ports.specs.Desk.{stop_of_port};

    ghost from_gives = { λ port stop. stop ≡ stop_of_port port };

    fn from(port: PortStop) -> DeskStop {
        match port {
            PortStop::Failed => DeskStop::Failed,
            PortStop::OutOfMemory => DeskStop::OutOfMemory,
        }
    }
}

impl From<AllocError> for DeskStop {
    ghost from_gives = { λ _ stop. stop ≡ OutOfMemory };

    fn from(_: AllocError) -> DeskStop {
        DeskStop::OutOfMemory
    }
}

impl<T: Drop> From<AllocFailed<T>> for DeskStop {
    ghost from_gives = { λ _ stop. stop ≡ OutOfMemory };

    fn from(_: AllocFailed<T>) -> DeskStop {
        DeskStop::OutOfMemory
    }
}

/// A link, and one file that is replaced whole or not at all. Where the desk tells its talk, this
/// has the steps of each replacement among the bytes of the link, so that it says which came first.
/// Faults and wants of memory of the file join the link's counts.
pub trait Desk: Link {
    /// What the file had where the talk began, where the talk is told. `None` is a missing file.
    ghost start: { Self → Option (List ℕ) };

    /// The file's bytes, at most the first [`LONGEST_LOAD`] of them; `None` exactly where the file
    /// is missing. From the first load that answers so, no other process loads from a desk of this
    /// file until this desk is dropped. Nothing changes. It takes memory for what it answers.
    fn load(&mut self, alloc: Global) -> Result<Option<Vec<u8>>, DeskStop>
        ensures found { IfOk result (λ file. Loads (start self.old) (Self.talk self.old)
            (option_map (λ bytes. bytes.items) file)) }
        ensures bound { IfOk result (λ file. IfSome file
            (λ bytes. length bytes.items ≤ LONGEST_LOAD)) }
        ensures talk { GoesOn (Self.talk self.old) (Self.talk self.new) [] }
        ensures start { start self.new ≡ start self.old }
        ensures free { Self.is_sure self.old → ¬ IsErrOf result DeskStop.Busy }
        ensures cause { HasDeskCause Self.faults Self.wants Self.is_sure self.old self.new result };

    /// Puts these bytes in the place of the file. Behind `Ok` no crash leaves anything else. A call
    /// that stops took a front of the steps, and the file is the old one or the new one, whole.
    fn replace(&mut self, bytes: &[u8]) -> Result<(), DeskStop>
        ensures talk { Replaces (Self.talk self.old) (Self.talk self.new) result bytes.now }
        ensures start { start self.new ≡ start self.old }
        ensures free { ¬ IsErrOf result DeskStop.Busy }
        ensures cause { HasDeskCause Self.faults Self.wants Self.is_sure self.old self.new result };
}
