//! Large entries, asked of the helper and judged.

ghost use Rattle.std.specs.Prelude.{◌≡◌, ◌<◌, ◌≤◌, ◌^◌, IsSomeAnd, ℕ, List, length};
ghost use Rattle.std.specs.Prelude.{vec_capacity};
ghost use Rattle.std.specs.Option.{option_map};
ghost use Rattle.sip_field.specs.Moduli.{m61_modulus};
ghost use Rattle.sip_ports.specs.Ports.{Lasts};
ghost use Rattle.sip_tree.specs.StandsFor.{SplitRootStandsFor};
ghost use Rattle.sip_vector.specs.declared.update.Update.{Update as AnyUpdate};
ghost use Rattle.sip_wire.specs.Versions.{Speaks};
ghost use Rattle.sip_verifier.specs.AskClause.{AskClause};
ghost use Rattle.sip_verifier.specs.inside.Judging.{found_in};
ghost use Rattle.sip_verifier.specs.Snapshots.{span};
ghost use Rattle.sip_verifier.specs.runs.Askers.{Asks};
ghost use Rattle.sip_above.specs.Manner.{asking, values_of, weights_of};
ghost use Rattle.sip_above.specs.Questions.{most_nodes_of, query_of};
ghost use Rattle.sip_above.specs.inside.Judging.{AsksOver, verdict_of};

use crate::large::Large;
use sip_field::M61;
use sip_heavy::{HeavyAsking, HeavySpace};
use sip_ports::{Link, Sink};
use sip_replies::{AskStop, Said, ask};
use sip_tree::SplitRoot;
use sip_vector::{CAP, Entry};
use sip_verifier::Unanswered;
use sip_wire::{Frame, Version};

/// Asks for large entries, takes the replies and judges them by the root of the side's split tree.
/// After an answer its entries are in `entries`, rising, and else none are.
///
/// A challenge leaves only after the reply before it was taken and passed its tests, and the last
/// challenge never leaves. `keep` gets each frame's bytes before they are judged. No memory is
/// taken: `entries` and `space` have room for as many entries and nodes as a level may have,
/// 2·floor(n / T) of a weight n and a threshold T, and keep it. The time is linear in the replies
/// and in that room. A block serves one question: the other end knows all but one of its challenges
/// from then on.
///
/// # Errors
///
/// `Rejected` with the first fault of the replies. The others are those of the ports, each only
/// where that port's own count of them rose: `PeerFault`, where a reply is missing or not whole;
/// `KeepFault`, where what came of the last one was not judged; `OutOfMemory` is the one or the
/// other.
pub fn ask_large<L: Link, C: Sink>(
    version: Version,
    large: Large,
    root: &SplitRoot<M61, CAP>,
    link: &mut L,
    keep: &mut C,
    frame: &mut Frame,
    entries: &mut Vec<Entry>,
    space: &mut Option<HeavySpace>,
) -> Result<(), Unanswered>
    requires some { 1 ≤ large.at_least }
    requires most { large.at_least < 2 ^ 63 }
    requires speaks { Speaks version (length root.now.seat) (query_of large) }
    requires room { most_nodes_of large root.now.weight ≤ vec_capacity entries.old }
    requires space { IsSomeAnd space.old (λ s. most_nodes_of large root.now.weight ≤ s.nodes) }
    ensures asks { (depth : ℕ) (stream : List AnyUpdate)
        → SplitRootStandsFor m61_modulus root.now.seat root.now.hash root.now.weight
        (values_of depth stream large) (weights_of depth stream large)
        → Asks (asking version depth stream) (large, root.now.seat) (L.talk link.old)
        (L.talk link.new) (λ _ answer. entries.new.items ≡ answer) result }
    ensures room { vec_capacity entries.old ≤ vec_capacity entries.new }
    ensures space { option_map (λ s. s.nodes) space.new ≡ option_map (λ s. s.nodes) space.old }
    ensures keeps { AskClause version
        (span L.talk L.faults L.wants link.old link.new)
        (span C.talk C.faults C.wants keep.old keep.new) result }
    ensures link { Lasts L.faults L.wants L.is_sure link.old link.new }
    ensures keep { Lasts C.faults C.wants C.is_sure keep.old keep.new }
{
    let nodes = large.most_nodes(root.weight());
    let Ok(()) = entries.resize(nodes, Entry { index: 0, value: 0 }) else {
        unreachable!()
    };
    let asked = ask_over(version, large, root, entries, frame, space, link, keep);
    entries.truncate(found_in(entries.len(), &asked));
    verdict_of(asked)
}

// Asks for large entries. They are written to the front of the places, and what comes of the
// replies to `keep`.
#[inline(never)]
fn ask_over<L: Link, C: Sink>(
    version: Version,
    large: Large,
    root: &SplitRoot<M61, CAP>,
    places: &mut [Entry],
    frame: &mut Frame,
    space: &mut Option<HeavySpace>,
    link: &mut L,
    keep: &mut C,
) -> Result<Said, AskStop>
    requires some { 1 ≤ large.at_least }
    requires most { large.at_least < 2 ^ 63 }
    requires speaks { Speaks version (length root.now.seat) (query_of large) }
    requires room { most_nodes_of large root.now.weight ≤ length places.old }
    requires space { IsSomeAnd space.old (λ s. most_nodes_of large root.now.weight ≤ s.nodes) }
    ensures over { AsksOver version large root.now.seat root.now.hash root.now.weight
        places.old places.new result
        (span L.talk L.faults L.wants link.old link.new)
        (span C.talk C.faults C.wants keep.old keep.new) }
    ensures space { option_map (λ s. s.nodes) space.new ≡ option_map (λ s. s.nodes) space.old }
    ensures link { Lasts L.faults L.wants L.is_sure link.old link.new }
    ensures keep { Lasts C.faults C.wants C.is_sure keep.old keep.new }
{
    let Some(lent) = space.take() else {
        unreachable!()
    };
    let query = large.query();
    let mut check = HeavyAsking::start_above(root, large.at_least, lent);
    let asked = ask(&mut check, version, &query, places, frame, link, keep);
    *space = Some(check.into_space());
    asked
}

// How many of so many places have entries of the answer.
fn found_in(places: usize, asked: &Result<Said, AskStop>) -> usize
    ensures { result ≡ found_in places asked.now }
{
    match asked {
        Ok(Said::Pairs(found)) => (*found).min(places),
        _ => 0,
    }
}

// What came of a question for large entries: it is never answered by a number.
fn verdict_of(asked: Result<Said, AskStop>) -> Result<(), Unanswered>
    ensures { result ≡ verdict_of asked }
{
    match asked {
        Ok(_) => Ok(()),
        Err(stop) => Err(Unanswered::from(stop)),
    }
}
