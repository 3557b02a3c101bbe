//! A run over ports in memory.

ghost use Rattle.std.specs.Prelude.{◌≡◌, ◌≢◌, ◌↔◌, ◌++◌, ℕ, List, Some};
ghost use Rattle.arrayvec.specs.ArrayVec.{ArrayVec};
ghost use Rattle.sip_ports.specs.Memory.{source_is_sure, sink_is_sure, link_is_sure, source_left};
ghost use Rattle.sip_ports.specs.Memory.{sink_bytes, link_talk};
ghost use Rattle.sip_ports.specs.Ports.{outs};
ghost use Rattle.sip_stream.specs.declared.form.Form.{Form};
ghost use Rattle.sip_stream.specs.declared.form.Form.TheVariants.{Text, Wide};
ghost use Rattle.sip_stream.specs.Layouts.{made_form};
ghost use Rattle.sip_verifier.specs.declared.task.Task.{Task};
ghost use Rattle.sip_verifier.specs.declared.status.Port.TheVariants as ports;
ghost use Rattle.sip_verifier.specs.Exchanges.{Exchange};
ghost use Rattle.sip_verifier.specs.Promises.{Promises};
ghost use Rattle.sip_words.specs.declared.command.Command.{Command};
ghost use Rattle.sip_words.specs.declared.command.Command.TheVariants.{Verify, Gen, Lines, Widen};
ghost use Rattle.sip_words.specs.declared.command.Command.TheVariants.{Help, Audit, Play, Show};
ghost use Rattle.sip_words.specs.declared.command.Command.TheVariants.{Convert, Lookup, HelpLook};
ghost use Rattle.sip_words.specs.declared.command.Command.TheVariants.{Moments, HelpMoments, Panel};
ghost use Rattle.sip_words.specs.declared.command.Command.TheVariants.{Serve};
ghost use Rattle.sip_words.specs.declared.helper_name.HelperName.{HelperName};
ghost use Rattle.sip_cli.specs.CommandClause.{MomentPromises, unkept};
ghost use Rattle.sip_cli.specs.CopyClause.{CopyClause};
ghost use Rattle.sip_cli.specs.HelpClause.{HelpClause};
ghost use Rattle.sip_cli.specs.ServeClause.{ServeClause};
ghost use Rattle.sip_cli.specs.Statuses.{Ends};
ghost use Rattle.sip_words.specs.Words.{Spells, IsRefusedAt};
ghost use Rattle.sip_helper.specs.Serving.{Serves};
ghost use Rattle.sip_lookup.specs.declared.task.LookTask.{LookTask};
ghost use Rattle.sip_lookup.specs.Promises.{LookPromises};
ghost use Rattle.sip_lookup.specs.Serving.{ServesLooks};
ghost use Rattle.sip_moments.specs.declared.task.MomentTask.{MomentTask};
ghost use Rattle.sip_moments.specs.Serving.{ServesMoments};
ghost use Rattle.sip_transcript.specs.Auditing.{Audits};
ghost use Rattle.sip_transcript.specs.Conversions.{in_version_2};
ghost use Rattle.sip_transcript.specs.Listings.{listing};
ghost use Rattle.sip_transcript.specs.Writing.{Writes};
ghost use Rattle.sip_command_tests.specs.Moves.{Moves, audit_of, held_by, faults_of};

use sip_cli::run;
use sip_ports::{MemoryLink, MemorySink, MemorySource};
use sip_verifier::Status;
use sip_words::Words;
use std::alloc::Global;

/// Does what the words say over ports in memory.
///
/// Every port tells its bytes, so what is promised of a run is promised here with no premise but
/// the words. Time and memory are those of [`run`].
pub fn run_in_memory(
    alloc: Global,
    words: &Words,
    first: &mut MemorySource,
    second: &mut MemorySource,
    peer: &mut MemoryLink,
    report: &mut MemorySink,
    keep: &mut MemorySink,
) -> Status
    // What moved between the ports before and the ports after keeps the seven promises of `verify`.
    ensures promises { (task : Task) → Spells words.now (Verify task) → (x : Exchange)
        × Moves (held_by first.old second.old peer.old report.old keep.old)
        (held_by first.new second.new peer.new report.new keep.new) x
        × Promises task x (faults_of first.old second.old peer.old report.old keep.old)
        (faults_of first.new second.new peer.new report.new keep.new) result }

    // It keeps those of `play` too.
    ensures played { (task : Task) (name : HelperName) → Spells words.now (Play task name)
        → (x : Exchange)
        × Moves (held_by first.old second.old peer.old report.old keep.old)
        (held_by first.new second.new peer.new report.new keep.new) x
        × Promises task x (faults_of first.old second.old peer.old report.old keep.old)
        (faults_of first.new second.new peer.new report.new keep.new) result }

    // And those of `panel`, over the one link.
    ensures seated { (task : Task) (names : ArrayVec HelperName)
        → Spells words.now (Panel task names) → (x : Exchange)
        × Moves (held_by first.old second.old peer.old report.old keep.old)
        (held_by first.new second.new peer.new report.new keep.new) x
        × Promises task x (faults_of first.old second.old peer.old report.old keep.old)
        (faults_of first.new second.new peer.new report.new keep.new) result }

    // Of `lookup` and of `moments` it keeps the five promises.
    ensures looked { (task : LookTask) → Spells words.now (Lookup task) → (x : Exchange)
        × Moves (held_by first.old second.old peer.old report.old keep.old)
        (held_by first.new second.new peer.new report.new keep.new) x
        × LookPromises task (unkept x)
        (faults_of first.old second.old peer.old report.old keep.old)
        (faults_of first.new second.new peer.new report.new keep.new) result }
    ensures summed { (task : MomentTask) → Spells words.now (Moments task) → (x : Exchange)
        × Moves (held_by first.old second.old peer.old report.old keep.old)
        (held_by first.new second.new peer.new report.new keep.new) x
        × MomentPromises task (unkept x)
        (faults_of first.old second.old peer.old report.old keep.old)
        (faults_of first.new second.new peer.new report.new keep.new) result }

    // A copy is written to the report, and so is what there is of a transcript; a talk is served on
    // the link.
    ensures made { (depth : ℕ) → Spells words.now (Gen depth)
        → CopyClause depth (made_form depth) (made_form depth) (source_left first.old)
        (Some (source_left first.new)) (Some (outs (sink_bytes report.old)))
        (Some (outs (sink_bytes report.new))) result }
    ensures lines { (form : Form) (depth : ℕ) → Spells words.now (Lines form depth)
        → CopyClause depth form Text (source_left first.old)
        (Some (source_left first.new)) (Some (outs (sink_bytes report.old)))
        (Some (outs (sink_bytes report.new))) result }
    ensures wide { (form : Form) (depth : ℕ) → Spells words.now (Widen form depth)
        → CopyClause depth form Wide (source_left first.old)
        (Some (source_left first.new)) (Some (outs (sink_bytes report.old)))
        (Some (outs (sink_bytes report.new))) result }
    ensures shown { Spells words.now Show → Writes listing (source_left second.old)
        (Some (source_left second.new)) (Some (outs (sink_bytes report.old)))
        (Some (outs (sink_bytes report.new))) result }
    ensures converted { Spells words.now Convert → Writes in_version_2 (source_left second.old)
        (Some (source_left second.new)) (Some (outs (sink_bytes report.old)))
        (Some (outs (sink_bytes report.new))) result }
    ensures help { Spells words.now Help → HelpClause Serves (Some (link_talk peer.old))
        (Some (link_talk peer.new)) result }
    ensures help_look { Spells words.now HelpLook → HelpClause ServesLooks
        (Some (link_talk peer.old)) (Some (link_talk peer.new)) result }
    ensures help_moments { Spells words.now HelpMoments → HelpClause ServesMoments
        (Some (link_talk peer.old)) (Some (link_talk peer.new)) result }
    ensures served { (form : Form) → Spells words.now (Serve form)
        → ServeClause form (Some (source_left first.old)) (Some (source_left first.new))
        (Some (source_left second.old)) (Some (source_left second.new))
        (Some (link_talk peer.old)) (Some (link_talk peer.new)) result }

    // A stored run is judged again by what moved, and its lines are new on the report.
    ensures audited { (form : Form) → Spells words.now (Audit form) → (lines : List ℕ)
        × (sink_bytes report.new ≡ sink_bytes report.old ++ lines)
        × Audits form
        (audit_of (held_by first.old second.old peer.old report.old keep.old)
        (held_by first.new second.new peer.new report.new keep.new) lines)
        (faults_of first.old second.old peer.old report.old keep.old)
        (faults_of first.new second.new peer.new report.new keep.new) result }

    // Words that are no command are refused, and move nothing.
    ensures usage { (word : ℕ) → (result ≡ Status.Usage word) ↔ IsRefusedAt words.now word }
    ensures untouched { (word : ℕ) → result ≡ Status.Usage word
        → (first.new ≡ first.old) × (second.new ≡ second.old) × (peer.new ≡ peer.old)
        × (report.new ≡ report.old) × (keep.new ≡ keep.old) }

    // Where no call of a port is to fail there is no fault of that port.
    ensures sure_first { source_is_sure first.old → result ≢ Status.ReadFault ports.First }
    ensures sure_second { source_is_sure second.old → result ≢ Status.ReadFault ports.Second }
    ensures sure_peer { link_is_sure peer.old → result ≢ Status.PeerFault }
    ensures sure_report { sink_is_sure report.old → result ≢ Status.WriteFault ports.Report }
    ensures sure_keep { sink_is_sure keep.old → result ≢ Status.WriteFault ports.Keep }

    // No status comes but those of the command.
    ensures listed { (command : Command) → Spells words.now command → Ends command result }
{
    run(alloc, words, first, second, peer, report, keep)
}
