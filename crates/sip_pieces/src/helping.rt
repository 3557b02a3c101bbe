//! A helper's end of a talk, in pieces.
ghost use Rattle.std.specs.Prelude.{◌≡◌, ◌≤◌, IsTrue, false};
ghost use Rattle.sip_helper.specs.inside.Measures.{most_turns};

use crate::held::Held;
use crate::sizes::Sizes;
use sip_helper::{HelpStatus, Helps};
use sip_ports::{Link, PortStop};
use sip_steps::Serving;
use sip_verifier::Status;
use std::alloc::Global;

fn status_of(how: HelpStatus) -> Status {
    match how {
        HelpStatus::Served => Status::Served,
        HelpStatus::PeerClosed => Status::PeerClosed,
        HelpStatus::BadFrame { offset } => Status::BadFrame { offset },
        HelpStatus::OutOfMemory => Status::OutOfMemory,
        HelpStatus::PeerFault => Status::PeerFault,
    }
}

/// Serves one talk of a helper that has heard nothing.
pub(crate) fn help<H: Helps + Drop, L: Link>(
    alloc: Global,
    helper: H,
    link: &mut L,
    sizes: &mut Sizes,
) -> Status
    requires live { IsTrue (H.is_live helper) }
    requires going { H.rules.is_done helper ≡ false }
    requires few { H.turns_left helper ≤ most_turns }
{
    let Ok(mut serving) = Serving::begin(alloc, helper) else {
        return Status::OutOfMemory;
    };
    let mut held = Held::new();
    for _piece in 0..u64::MAX {
        if let Some(how) = serving.status() {
            return status_of(how);
        }
        match held.fill(link, sizes.next()) {
            Ok(true) => serving.close(),
            Ok(false) => {
                let count = serving.feed(held.bytes(), link);
                held.taken(count);
            }
            Err(PortStop::Failed) => return Status::PeerFault,
            Err(PortStop::OutOfMemory) => return Status::OutOfMemory,
        }
    }
    Status::PeerFault
}
