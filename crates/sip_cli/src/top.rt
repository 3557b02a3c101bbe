//! The top calls.

ghost use Rattle.std.specs.Prelude.{◌≡◌, ◌↔◌, ℕ};
ghost use Rattle.sip_ports.specs.Ports.{Lasts};
ghost use Rattle.sip_cli.specs.Checking.{TellsNegatives};
ghost use Rattle.sip_cli.specs.DoneClause.{DoneClause, used};
ghost use Rattle.sip_words.specs.Words.{IsSpelled, Spells, IsRefusedAt};

use crate::copying::copy_stream;
use crate::helping::{help, help_look, help_moments};
use crate::serving::serve;
use sip_lookup::look_stream;
use sip_moments::moment_stream;
use sip_ports::{Link, Sink, Source};
use sip_stream::Form;
use sip_transcript::{audit, convert, show};
use sip_vector::Negatives;
use sip_verifier::{Status, check_stream};
use sip_words::{Command, Usage, Words, read_words};
use std::alloc::Global;

/// Does a command.
///
/// `verify STREAM SEED FROM TO RECORD DEPTH QUERY..`: reads a seed from `second` and a stream from
/// `first`, talks to the helper over `peer`, and writes the line of each query to `report` once its
/// replies were accepted, or the line of the rejection once they show a fault. `keep` gets the
/// transcript of the run. Neither the stream nor a vector is kept: memory grows with the entries of
/// one answer alone, and each record costs at most DEPTH multiplications for each query.
///
/// `help FROM TO`: serves one talk over `peer`. Memory grows with the entries that are not 0.
///
/// `audit STORED TRANSCRIPT`: reads the head of the transcript of `second`, and then the stream of
/// `first`, and judges the replies behind the head at its challenges. It writes the lines that the
/// run wrote, a byte behind the replies that were judged is refused, and memory and cost are those
/// of `verify`.
///
/// `show TRANSCRIPT`: lists the transcript of `second`. `convert TRANSCRIPT`: writes it in
/// version 2. Nothing is written before the whole head was read, and then all up to the first frame
/// that has no spelling. The memory is that of a frame.
///
/// `gen NUMBER COUNT DEPTH`, `lines STREAM DEPTH` and `widen STREAM DEPTH`: write the legal records
/// of `first` to `report`, as they were made, as lines of text or as wide records, up to the first
/// record that is not legal. They take no memory.
///
/// `play STREAM SEED HELPER RECORD DEPTH QUERY..`: as `verify`, over the link that it is given,
/// whatever helper is named. [`play`](crate::play) does such a command over a link to that helper.
///
/// `panel STREAM SEED HELPERS DEPTH QUERY..`: as `verify`, over the one link that it is given,
/// whatever helpers are named. [`panel`](crate::panel) does such a command over links to those
/// helpers.
///
/// `lookup STREAM SEED FROM TO DEPTH LOOKUP..`: as `verify`, for the number at an item or the entry
/// nearest to it that is not 0. The helper names the place of each answer, and its replies about
/// the interval up to there prove it. `keep` gets nothing. The memory is that of a frame and of
/// 65,536 entries, and each record costs at most DEPTH multiplications for each lookup.
///
/// `moments STREAM SEED FROM TO DEPTH MOMENT..`: as `verify`, for the sum of a power, 3 to 8, of
/// the numbers of a side. Nothing is asked where the side's weight to that power is above 2^60 - 1.
/// `keep` gets nothing. The memory is that of a frame, and each record costs at most DEPTH
/// multiplications for each moment.
///
/// `helplook FROM TO` and `helpmom FROM TO`: serve one talk of lookups, or of moments, over `peer`.
/// Memory grows with the entries that are not 0.
///
/// `serve STORED FROM TO`: serves one talk of questions of every kind over `peer`. It is told how
/// many records of `first` to hear, and hears the first so many, or all where there are fewer; it
/// says what they come to, and answers by these. Where large entries are asked for, it reads them
/// again from `second`. Memory grows with the entries that are not 0.
///
/// `negatives` gets of `verify`, `play`, `panel` and `audit` which sides of the stream had a delta
/// below 0, of those whose large entries are asked for.
pub fn obey<A: Source, B: Source, L: Link, K: Sink, C: Sink>(
    alloc: Global,
    command: &Command,
    first: &mut A,
    second: &mut B,
    peer: &mut L,
    report: &mut K,
    keep: &mut C,
    negatives: &mut Negatives,
) -> Status
    requires { IsSpelled command.now }
    // Of `verify`, `play` and `panel` the seven promises, of `lookup` and `moments` their five, of
    // `gen`, `lines` and `widen` the copy that the report gets, of `help`, `helplook` and `helpmom`
    // the talk that it serves, of `serve` the same and how the stream is heard, of `audit` what a
    // stored run is judged to be, and of `show` and `convert` what the report gets of the
    // transcript; and whatever the command, its faults have their cause, its status is one of its
    // own, and the ports that it has no use for are as they were.
    ensures done { DoneClause (λ is. command.now ≡ is)
        (used A.left A.faults A.wants first.old first.new)
        (used B.left B.faults B.wants second.old second.new)
        (used L.talk L.faults L.wants peer.old peer.new)
        (used K.talk K.faults K.wants report.old report.new)
        (used C.talk C.faults C.wants keep.old keep.new) result }

    // Of a command that checks queries, which sides had a delta below 0; others leave it alone.
    ensures negatives { TellsNegatives command.now (A.left first.old) (B.left second.old) result
        negatives.old negatives.new }

    // Counts of faults and of wants of memory never fall.
    ensures first { Lasts A.faults A.wants A.is_sure first.old first.new }
    ensures second { Lasts B.faults B.wants B.is_sure second.old second.new }
    ensures peer { Lasts L.faults L.wants L.is_sure peer.old peer.new }
    ensures report { Lasts K.faults K.wants K.is_sure report.old report.new }
    ensures keep { Lasts C.faults C.wants C.is_sure keep.old keep.new }
{
    match command {
        Command::Verify(task) => {
            check_stream(alloc, task, first, second, peer, report, keep, negatives)
        }
        Command::Play(task, _) => {
            check_stream(alloc, task, first, second, peer, report, keep, negatives)
        }
        Command::Help => help(alloc, peer),
        Command::Audit { form } => audit(alloc, *form, first, second, report, negatives),
        Command::Show => show(alloc, second, report),
        Command::Convert => convert(alloc, second, report),
        Command::Gen { depth } => {
            let form = Form::made(*depth);
            copy_stream(*depth, form, form, first, report)
        }
        Command::Lines { form, depth } => copy_stream(*depth, *form, Form::Text, first, report),
        Command::Widen { form, depth } => copy_stream(*depth, *form, Form::Wide, first, report),
        Command::Lookup(task) => look_stream(alloc, task, first, second, peer, report),
        Command::HelpLook => help_look(alloc, peer),
        Command::Moments(task) => moment_stream(alloc, task, first, second, peer, report),
        Command::HelpMoments => help_moments(alloc, peer),
        Command::Serve { form } => serve(alloc, *form, first, second, peer),
        Command::Panel(task, _) => {
            check_stream(alloc, task, first, second, peer, report, keep, negatives)
        }
    }
}

/// Does what the words say: [`read_words`], and then [`obey`].
pub fn run<A: Source, B: Source, L: Link, K: Sink, C: Sink>(
    alloc: Global,
    words: &Words,
    first: &mut A,
    second: &mut B,
    peer: &mut L,
    report: &mut K,
    keep: &mut C,
) -> Status
    // All that is done of the command that the words spell.
    ensures done { DoneClause (Spells words.now)
        (used A.left A.faults A.wants first.old first.new)
        (used B.left B.faults B.wants second.old second.new)
        (used L.talk L.faults L.wants peer.old peer.new)
        (used K.talk K.faults K.wants report.old report.new)
        (used C.talk C.faults C.wants keep.old keep.new) result }

    // Words are refused exactly where they are no command, and then no port is called.
    ensures usage { (word : ℕ) → (result ≡ Status.Usage word) ↔ IsRefusedAt words.now word }
    ensures untouched { (word : ℕ) → result ≡ Status.Usage word
        → (first.new ≡ first.old) × (second.new ≡ second.old) × (peer.new ≡ peer.old)
        × (report.new ≡ report.old) × (keep.new ≡ keep.old) }

    // Counts of faults and of wants of memory never fall.
    ensures first { Lasts A.faults A.wants A.is_sure first.old first.new }
    ensures second { Lasts B.faults B.wants B.is_sure second.old second.new }
    ensures peer { Lasts L.faults L.wants L.is_sure peer.old peer.new }
    ensures report { Lasts K.faults K.wants K.is_sure report.old report.new }
    ensures keep { Lasts C.faults C.wants C.is_sure keep.old keep.new }
{
    match read_words(words) {
        Ok(command) => {
            let told = &mut Negatives::default();
            obey(alloc, &command, first, second, peer, report, keep, told)
        }
        Err(Usage { word }) => Status::Usage { word },
    }
}
