//! Does the command that asks a sketch.

ghost use Rattle.std.specs.Prelude.{◌≢◌, List};
ghost use Rattle.sip_ports.specs.Ports.{Lasts};
ghost use Rattle.sip_ask.specs.Asking.{Asks};
ghost use Rattle.sip_ask.specs.Causes.{HasRisen};
ghost use Rattle.sip_keeping.specs.AskWords.{IsAsked};

use crate::Questions;
use sip_ask::{AskStatus, ask};
use sip_ports::{Desk, Sink};
use std::alloc::Global;

/// Does `ask SKETCH FROM TO QUESTION..`: asks the questions of the desk's sketch over the desk's
/// link, and writes the line of each verdict to `report` ([`ask`]).
pub fn obey_ask<D: Desk, K: Sink>(
    alloc: Global,
    asked: &Questions,
    desk: &mut D,
    report: &mut K,
) -> AskStatus
    requires { IsAsked asked.now.items }
    ensures asks { Asks asked.now.items (D.start desk.old) (D.talk desk.old) (D.talk desk.new)
        (K.talk report.old) (K.talk report.new) result }
    ensures cause { HasRisen (D.faults desk.old) (D.faults desk.new)
        (K.faults report.old) (K.faults report.new) result }
    ensures free { D.is_sure desk.old → result ≢ AskStatus.Busy }
    ensures desk { Lasts D.faults D.wants D.is_sure desk.old desk.new }
    ensures report { Lasts K.faults K.wants K.is_sure report.old report.new }
{
    ask(alloc, asked.as_slice(), desk, report)
}
