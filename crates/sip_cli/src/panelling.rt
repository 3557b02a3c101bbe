//! The command whose helpers are several, all in the program.

ghost use Rattle.std.specs.Prelude.{◌≡◌, ◌≢◌, ◌*◌, ◌<◌, ◌≤◌, None, IfOk, OnErr, MatchOption};
ghost use Rattle.std.specs.Prelude.{ℕ, List, Some, length};
ghost use Rattle.arrayvec.specs.ArrayVec.{ArrayVec as AnyNames};
ghost use Rattle.sip_ports.specs.Ports.{Lasts};
ghost use Rattle.sip_session.specs.PanelExchanges.{panel_snapshot};
ghost use Rattle.sip_verifier.specs.declared.task.Task.{Task as AnyTask};
ghost use Rattle.sip_verifier.specs.Exchanges.{TakesAtMost};
ghost use Rattle.sip_verifier.specs.Negatives.{NegativesClause};
ghost use Rattle.sip_verifier.specs.Tasks.{CanBeDone};
ghost use Rattle.sip_wire.specs.Table.{most_queries};
ghost use Rattle.sip_words.specs.declared.helper_name.HelperName.{HelperName as AnyName};
ghost use Rattle.sip_cli.specs.PanelWordsClause.{PanelWordsClause};
ghost use Rattle.sip_words.specs.Words.{IsSpelled};

use crate::playing::{honest, skewed};
use sip_duel::{Helper, HelperLink, Mute};
use sip_field::OutOfMemory;
use sip_ports::{Sink, Source};
use sip_vector::Negatives;
use sip_verifier::{Status, Task};
use sip_words::{Command, HelperName};
use std::alloc::Global;

// Does a task over links to the helpers of these names. Where memory is refused to one nothing is
// done.
fn panel_named<A: Source, B: Source, K: Sink>(
    alloc: Global,
    task: &Task,
    names: &[HelperName],
    first: &mut A,
    second: &mut B,
    report: &mut K,
    negatives: &mut Negatives,
) -> Result<Status, OutOfMemory>
    requires done { CanBeDone task.now }
    requires some { 0 < length names.now }
    requires few { length names.now * length task.now.queries.items ≤ most_queries }
    ensures seated { IfOk result (PanelWordsClause task.now (length names.now)
        (λ talks. panel_snapshot (A.left first.old) (A.faults first.old) (B.left second.old)
        (B.faults second.old) talks (K.talk report.old) (K.faults report.old))
        (λ talks. panel_snapshot (A.left first.new) (A.faults first.new) (B.left second.new)
        (B.faults second.new) talks (K.talk report.new) (K.faults report.new))) }
    ensures negatives { (bytes seed : List ℕ)
        → A.left first.old ≡ Some bytes → B.left second.old ≡ Some seed
        → IfOk result (λ status. NegativesClause task.now bytes status negatives.new) }
    ensures unbegun { OnErr result ((first.new ≡ first.old) × (second.new ≡ second.old)
        × (report.new ≡ report.old)) }
    ensures first { Lasts A.faults A.wants A.is_sure first.old first.new }
    ensures seed { TakesAtMost 32 (B.left second.old) (B.left second.new) }
    ensures second { Lasts B.faults B.wants B.is_sure second.old second.new }
    ensures report { Lasts K.faults K.wants K.is_sure report.old report.new }
{
    let mut links = Vec::new(alloc);
    for name in names {
        let helper: Box<dyn Helper> = match name {
            HelperName::Honest => honest(alloc)?,
            HelperName::Skewed => skewed(alloc)?,
            HelperName::Mute => Box::new(alloc, Mute::new())?,
        };
        links.push(HelperLink::new(alloc, helper)?)?;
    }
    let links = &mut links;
    Ok(sip_session::panel(alloc, task, first, second, links, report, negatives))
}

/// Does a command `panel`; another one gives `None`, and then no port is called.
///
/// `panel STREAM SEED HELPERS DEPTH QUERY..` sends the stream to the helpers of these names, which
/// are made here. Each query is asked of one after another, until the replies of one are accepted,
/// whose line is written. A helper whose replies are rejected is asked no more, and a line says so.
/// At the end each is closed and dropped. Memory grows with the entries that are not 0, which each
/// helper keeps, and with the talks, which the links keep. Where memory is refused to a helper or a
/// link, the run ends at once for want of it. `negatives` gets what [`obey`](crate::obey) tells.
#[inline(never)]
pub fn panel<A: Source, B: Source, K: Sink>(
    alloc: Global,
    command: &Command,
    first: &mut A,
    second: &mut B,
    report: &mut K,
    negatives: &mut Negatives,
) -> Option<Status>
    requires { IsSpelled command.now }
    // All that a panel keeps, over as many links as there are names.
    ensures seated { MatchOption result
        ((task : AnyTask) (names : AnyNames AnyName) → command.now ≢ Command.Panel task names)
        (λ status. (task : AnyTask) × (names : AnyNames AnyName)
        × (command.now ≡ Command.Panel task names)
        × PanelWordsClause task (length names.items)
        (λ talks. panel_snapshot (A.left first.old) (A.faults first.old) (B.left second.old)
        (B.faults second.old) talks (K.talk report.old) (K.faults report.old))
        (λ talks. panel_snapshot (A.left first.new) (A.faults first.new) (B.left second.new)
        (B.faults second.new) talks (K.talk report.new) (K.faults report.new)) status
        × ((bytes seed : List ℕ) → A.left first.old ≡ Some bytes → B.left second.old ≡ Some seed
        → NegativesClause task bytes status negatives.new)) }
    ensures untouched { result ≡ None → (first.new ≡ first.old) × (second.new ≡ second.old)
        × (report.new ≡ report.old) × (negatives.new ≡ negatives.old) }

    // Counts of faults and of wants of memory never fall, and no more than 32 bytes of the seed are
    // taken.
    ensures first { Lasts A.faults A.wants A.is_sure first.old first.new }
    ensures seed { TakesAtMost 32 (B.left second.old) (B.left second.new) }
    ensures second { Lasts B.faults B.wants B.is_sure second.old second.new }
    ensures report { Lasts K.faults K.wants K.is_sure report.old report.new }
{
    let Command::Panel(task, names) = command else {
        return None;
    };
    match panel_named(alloc, task, names, first, second, report, negatives) {
        Ok(status) => Some(status),
        Err(_) => {
            *negatives = Negatives::default();
            Some(Status::OutOfMemory)
        }
    }
}
