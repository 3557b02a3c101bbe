//! Does the commands that keep a sketch.

ghost use Rattle.std.specs.Prelude.{◌≡◌, ◌≢◌};
ghost use Rattle.sip_ports.specs.Ports.{Lasts};
ghost use Rattle.sip_verifier.specs.Exchanges.{TakesAtMost};
ghost use Rattle.sip_sketch.specs.Risen.{HasRisen};
ghost use Rattle.sip_keeping.specs.SketchClause.{Does, Rests, counts_of, told};
ghost use Rattle.sip_keeping.specs.Words.{IsSpelled};

use crate::SketchCommand;
use sip_ports::{Desk, Sink, Source};
use sip_sketch::{SketchFiles, SketchStatus, begin, merge, seats, watch};
use std::alloc::Global;

/// Does a command that keeps a sketch.
///
/// `begin SKETCH SEED DEPTH PART/PARTS SEATS..`: draws the seats from the seed `second`, and stores
/// the sketch of the empty stream where the desk has no file ([`begin`]).
///
/// `watch SKETCH STREAM AT EVERY`: adds the records of the stream `first` to the desk's sketch, and
/// stores it ([`watch`]).
///
/// `merge SKETCH PART..`: stores the sum of the files behind number 0 at the desk ([`merge`]).
///
/// `seats SKETCH`: lists the seats of file 0 in `report` ([`seats`]), without the desk's lock.
pub fn obey_sketch<A: Source, B: Source, D: Desk, F: SketchFiles, K: Sink>(
    alloc: Global,
    command: &SketchCommand,
    first: &mut A,
    second: &mut B,
    desk: &mut D,
    files: &mut F,
    report: &mut K,
) -> SketchStatus
    requires { IsSpelled command.now }
    // What each command promises of what its ports tell.
    ensures does { Does command.now
        (told (A.left first.old) (B.left second.old) (D.start desk.old) (D.talk desk.old)
        (F.content files.old) (K.talk report.old))
        (told (A.left first.new) (B.left second.new) (D.start desk.new) (D.talk desk.new)
        (F.content files.new) (K.talk report.new)) result }
    // The ports that it has no use for are as they were.
    ensures rests { Rests command.now (first.new ≡ first.old) (second.new ≡ second.old)
        (desk.new ≡ desk.old) (files.new ≡ files.old) (report.new ≡ report.old) }
    // Whatever the ports tell, a fault of one comes only where its own count rose, and `Busy` only
    // of a desk that may fail.
    ensures cause { HasRisen
        (counts_of command.now (A.faults first.old) (B.faults second.old) (D.faults desk.old)
        (F.faults files.old) (K.faults report.old))
        (counts_of command.now (A.faults first.new) (B.faults second.new) (D.faults desk.new)
        (F.faults files.new) (K.faults report.new)) result }
    ensures free { D.is_sure desk.old → result ≢ SketchStatus.Busy }
    ensures seed { TakesAtMost 32 (B.left second.old) (B.left second.new) }
    ensures start { D.start desk.new ≡ D.start desk.old }
    ensures content { F.content files.new ≡ F.content files.old }

    // Counts of faults and of wants of memory never fall.
    ensures first { Lasts A.faults A.wants A.is_sure first.old first.new }
    ensures second { Lasts B.faults B.wants B.is_sure second.old second.new }
    ensures desk { Lasts D.faults D.wants D.is_sure desk.old desk.new }
    ensures files { Lasts F.faults F.wants F.is_sure files.old files.new }
    ensures report { Lasts K.faults K.wants K.is_sure report.old report.new }
{
    match command {
        SketchCommand::Begin {
            depth,
            part,
            parts,
            kinds,
        } => begin(alloc, *depth, *part, *parts, kinds.as_slice(), second, desk),
        SketchCommand::Watch { form, at, every } => watch(alloc, *form, *at, *every, first, desk),
        SketchCommand::Merge { parts } => merge(alloc, files, *parts, desk),
        SketchCommand::Seats => seats(alloc, files, report),
    }
}
