//! The lines of advice about sketches.

ghost use Rattle.std.specs.Prelude.{◌≡◌, OnErr, OnOk, IfSome, MatchOption, None, Some, Result};
ghost use Rattle.std.specs.Option.{option_copied};
ghost use Rattle.sip_advice.specs.Hints.{IsAdvised};
ghost use Rattle.sip_ports.specs.declared.port.PortStop.{PortStop as AnyStop};
ghost use Rattle.sip_ports.specs.Ports.{HasCause, SendsWhole};
ghost use Rattle.sip_verifier.specs.declared.status.Status.{Status as AnyStatus};
ghost use Rattle.sip_keeping.specs.Endings.{shared};
ghost use Rattle.sip_keeping.specs.SketchHints.{bad_hint, look_hint, record_hint, sketch_hint};
ghost use Rattle.sip_keeping.specs.SketchHints.{start_hint, unlike_hint, word_hint};

use crate::ending::shared_status;
use crate::{SketchVerb, hint_text as text};
use sip_advice::{Ending, Noted};
use sip_ports::{Sink, write_whole};
use sip_sketch::{SketchPort, SketchStatus, Unlike};
use sip_stream::Why;
use sip_words::{Usage, Words};

/// What was seen of the files of sketches that a run has.
#[derive(Clone, Copy, Debug, PartialEq, Eq, Default)]
pub struct SketchLook {
    /// Others than its owner can read one of them.
    pub is_shared: bool,
    /// Beside the sketch stands one that a run left which was killed.
    pub is_left: bool,
}

// What may stand at this word of `begin`.
fn begin_said(word: u32) -> &'static str
    ensures { result.now ≡ word_hint SketchVerb.Begin word }
{
    match word {
        1 => text::SKETCH,
        2 => text::SEED,
        3 => text::DEPTH,
        4 => text::SHARE,
        _ => text::SEATS,
    }
}

// What may stand at this word of `watch`.
fn watch_said(word: u32) -> &'static str
    ensures { result.now ≡ word_hint SketchVerb.Watch word }
{
    match word {
        1 => text::SKETCH,
        2 => text::STORED,
        3 => text::AT,
        4 => text::EVERY,
        _ => text::END,
    }
}

// What may stand at this word of a command.
fn word_said(verb: SketchVerb, word: u32) -> &'static str
    ensures { result.now ≡ word_hint verb word }
{
    match verb {
        SketchVerb::Begin => begin_said(word),
        SketchVerb::Watch => watch_said(word),
        SketchVerb::Merge | SketchVerb::Seats if word == 1 => text::SKETCH,
        SketchVerb::Merge => text::PART,
        SketchVerb::Seats => text::END,
    }
}

/// What is said of a file that is no sketch.
pub(crate) fn bad_said(part: u32, offset: u64) -> &'static str
    ensures { result.now ≡ bad_hint part offset }
{
    if part != 0 {
        text::BAD_PART
    } else if offset == 0 {
        text::NONE
    } else {
        text::BAD
    }
}

// What is said of a stream that cannot begin there.
fn start_said(is_sum: bool) -> &'static str
    ensures { result.now ≡ start_hint is_sum }
{
    if is_sum { text::SUM } else { text::START }
}

// What is said of a record that is not legal.
fn record_said(why: Why) -> &'static str
    ensures { result.now ≡ record_hint why }
{
    match why {
        Why::Truncated => text::CUT,
        Why::BadLine => text::LINE,
        Why::BadSide => text::SIDE,
        Why::BadItem => text::ITEM,
        Why::ZeroDelta => text::DELTA,
        Why::TooHeavy(_) => text::WEIGHT,
    }
}

// What is said of a part that is not added, or of a sum that is not stored.
fn unlike_said(why: Unlike) -> &'static str
    ensures { result.now ≡ unlike_hint why }
{
    match why {
        Unlike::Shape => text::SHAPE,
        Unlike::Whole => text::WHOLE,
        Unlike::UsedSeat => text::USED,
        Unlike::NotNext => text::NOT_NEXT,
        Unlike::Heavy(_) => text::HEAVY,
        Unlike::Missing => text::MISSING,
        Unlike::Fewer => text::FEWER,
    }
}

// The line of a status that has one here.
fn status_said(status: &SketchStatus) -> Option<&'static str>
    ensures { option_copied result ≡ sketch_hint status.now }
{
    match *status {
        SketchStatus::Exists => Some(text::EXISTS),
        SketchStatus::BadSketch { part, offset } => Some(bad_said(part, offset)),
        SketchStatus::Busy => Some(text::BUSY),
        SketchStatus::BadStream { why, .. } => Some(record_said(why)),
        SketchStatus::BadStart { is_sum, .. } => Some(start_said(is_sum)),
        SketchStatus::Behind { .. } => Some(text::BEHIND),
        SketchStatus::Unlike { why, .. } => Some(unlike_said(why)),
        SketchStatus::ReadFault {
            port: SketchPort::Sketch,
        }
        | SketchStatus::WriteFault {
            port: SketchPort::Sketch,
        } => Some(text::FILE),
        SketchStatus::ReadFault {
            port: SketchPort::Part(_),
        } => Some(text::UNREAD),
        _ => None,
    }
}

// The line about the files, if there is anything to say.
fn look_said(look: SketchLook) -> Option<&'static str>
    ensures { option_copied result ≡ look_hint look }
{
    if look.is_shared {
        Some(text::SHARED)
    } else if look.is_left {
        Some(text::LEFT)
    } else {
        None
    }
}

/// Writes a line behind that of the status, where that was written.
pub(crate) fn say<K: Sink>(ending: Ending, line: &str, errors: &mut K) -> Ending
    ensures same { result ≡ ending }
    ensures silent { OnErr ending.line (errors.new ≡ errors.old) }
    ensures written { OnOk ending.line ((sent : Result Unit AnyStop)
        × SendsWhole (K.talk errors.old) (K.talk errors.new) sent line.now
        × HasCause K.faults K.wants K.is_sure errors.old errors.new sent) }
{
    if ending.line.is_ok() {
        let _ = write_whole(errors, line.as_bytes());
    }
    ending
}

/// Writes what may stand at the word that was refused, where the line of that was written. Whatever
/// becomes of it, the program ends as it did before.
pub fn advise_words<K: Sink>(
    ending: Ending,
    verb: SketchVerb,
    usage: Usage,
    errors: &mut K,
) -> Ending
    ensures same { result ≡ ending }
    ensures silent { OnErr ending.line (errors.new ≡ errors.old) }
    ensures written { OnOk ending.line ((sent : Result Unit AnyStop)
        × SendsWhole (K.talk errors.old) (K.talk errors.new) sent (word_hint verb usage.word)
        × HasCause K.faults K.wants K.is_sure errors.old errors.new sent) }
{
    say(ending, word_said(verb, usage.word), errors)
}

/// Writes the line of advice behind that of the status, where that was written and there is one to
/// give: one about sketches, or for a status that other commands have too the one that they give.
/// Whatever becomes of it, the program ends as it did before.
pub fn advise_sketch<K: Sink>(
    ending: Ending,
    words: &Words,
    noted: &Noted,
    status: &SketchStatus,
    errors: &mut K,
) -> Ending
    ensures same { result ≡ ending }
    ensures silent { OnErr ending.line (errors.new ≡ errors.old) }
    ensures own { OnOk ending.line (IfSome (sketch_hint status.now) (λ line.
        (sent : Result Unit AnyStop)
        × SendsWhole (K.talk errors.old) (K.talk errors.new) sent line
        × HasCause K.faults K.wants K.is_sure errors.old errors.new sent)) }
    ensures other { sketch_hint status.now ≡ None → OnOk ending.line
        (IfSome (shared status.now) (λ same. (sent : Result Unit AnyStop)
        × IsAdvised words.now noted.now same (K.talk errors.old) (K.talk errors.new) sent
        × HasCause K.faults K.wants K.is_sure errors.old errors.new sent)) }
    ensures nothing { sketch_hint status.now ≡ None → shared status.now ≡ None
        → errors.new ≡ errors.old }
{
    if let Some(line) = status_said(status) {
        return say(ending, line, errors);
    }
    match shared_status(status) {
        Some(same) => ending.advise(words, noted, &same, errors),
        None => ending,
    }
}

/// Writes a line behind these where others can read a sketch, or else where a run left one beside
/// it that was killed.
pub fn caution_sketch<K: Sink>(ending: Ending, look: SketchLook, errors: &mut K) -> Ending
    ensures same { result ≡ ending }
    ensures silent { OnErr ending.line (errors.new ≡ errors.old) }
    ensures nothing { look_hint look ≡ None → errors.new ≡ errors.old }
    ensures written { OnOk ending.line (IfSome (look_hint look) (λ line.
        (sent : Result Unit AnyStop)
        × SendsWhole (K.talk errors.old) (K.talk errors.new) sent line
        × HasCause K.faults K.wants K.is_sure errors.old errors.new sent)) }
{
    match look_said(look) {
        Some(line) => say(ending, line, errors),
        None => ending,
    }
}
