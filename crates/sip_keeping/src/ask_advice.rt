//! The lines of advice where a sketch is asked.

ghost use Rattle.std.specs.Prelude.{◌≡◌, OnErr, OnOk, IfSome, None, Result};
ghost use Rattle.std.specs.Option.{option_copied};
ghost use Rattle.sip_advice.specs.Hints.{IsAdvised};
ghost use Rattle.sip_ports.specs.declared.port.PortStop.{PortStop as AnyStop};
ghost use Rattle.sip_ports.specs.Ports.{HasCause, SendsWhole};
ghost use Rattle.sip_keeping.specs.AskEndings.{as_run};
ghost use Rattle.sip_keeping.specs.AskHints.{ask_hint, ask_word_hint, left_line, seats_hint};
ghost use Rattle.sip_keeping.specs.AskHints.{step_hint};

use crate::advising::{bad_said, say};
use crate::ask_ending::run_status;
use crate::{SeatsLeft, hint_text as text};
use sip_advice::{Ending, Noted};
use sip_ask::{AskPort, AskStatus};
use sip_ports::{Sink, write_whole};
use sip_wire::Held;
use sip_words::{Usage, Words};

// What may stand at this word.
fn word_said(word: u32) -> &'static str
    ensures { result.now ≡ ask_word_hint word }
{
    match word {
        1 => text::SKETCH,
        2 => text::FROM,
        3 => text::TO,
        _ => text::QUESTION,
    }
}

/// Writes what may stand at the word that was refused, where the line of that was written. Whatever
/// becomes of it, the program ends as it did before.
pub fn advise_ask_words<K: Sink>(ending: Ending, usage: Usage, errors: &mut K) -> Ending
    ensures same { result ≡ ending }
    ensures silent { OnErr ending.line (errors.new ≡ errors.old) }
    ensures written { OnOk ending.line ((sent : Result Unit AnyStop)
        × SendsWhole (K.talk errors.old) (K.talk errors.new) sent (ask_word_hint usage.word)
        × HasCause K.faults K.wants K.is_sure errors.old errors.new sent) }
{
    say(ending, word_said(usage.word), errors)
}

// What is said of a helper that holds another stream.
fn step_said(held: Held, kept: Held) -> &'static str
    ensures { result.now ≡ step_hint held kept }
{
    if held.records < kept.records {
        text::TOO_FEW
    } else {
        text::OTHERS
    }
}

// The line of a status that has one here.
fn status_said(status: &AskStatus) -> Option<&'static str>
    ensures { option_copied result ≡ ask_hint status.now }
{
    match *status {
        AskStatus::BadSketch { offset } => Some(bad_said(0, offset)),
        AskStatus::Busy => Some(text::BUSY),
        AskStatus::NotWhole => Some(text::NOT_WHOLE),
        AskStatus::Unfit { .. } => Some(text::UNFIT),
        AskStatus::Signed { .. } => Some(text::SIGNED),
        AskStatus::OutOfStep { held, kept } => Some(step_said(held, kept)),
        AskStatus::PeerClosed => Some(text::SILENT),
        AskStatus::ReadFault => Some(text::FILE),
        AskStatus::WriteFault {
            port: AskPort::Sketch,
        } => Some(text::FILE),
        _ => None,
    }
}

/// Writes the line of advice behind that of the status, where that was written and there is one to
/// give: one about asking a sketch, or for a status that other commands have too the one that they
/// give. Whatever becomes of it, the program ends as it did before.
pub fn advise_ask<K: Sink>(
    ending: Ending,
    words: &Words,
    noted: &Noted,
    status: &AskStatus,
    errors: &mut K,
) -> Ending
    ensures same { result ≡ ending }
    ensures silent { OnErr ending.line (errors.new ≡ errors.old) }
    ensures own { OnOk ending.line (IfSome (ask_hint status.now) (λ line.
        (sent : Result Unit AnyStop)
        × SendsWhole (K.talk errors.old) (K.talk errors.new) sent line
        × HasCause K.faults K.wants K.is_sure errors.old errors.new sent)) }
    ensures other { ask_hint status.now ≡ None → OnOk ending.line
        (IfSome (as_run status.now) (λ same. (sent : Result Unit AnyStop)
        × IsAdvised words.now noted.now same (K.talk errors.old) (K.talk errors.new) sent
        × HasCause K.faults K.wants K.is_sure errors.old errors.new sent)) }
    ensures nothing { ask_hint status.now ≡ None → as_run status.now ≡ None
        → errors.new ≡ errors.old }
{
    if let Some(line) = status_said(status) {
        return say(ending, line, errors);
    }
    match run_status(status) {
        Some(same) => ending.advise(words, noted, &same, errors),
        None => ending,
    }
}

// Writes the words of the seats that are left, where the line of the status was written.
fn say_words<K: Sink>(ending: Ending, left: &SeatsLeft, errors: &mut K) -> Ending
    ensures same { result ≡ ending }
    ensures silent { OnErr ending.line (errors.new ≡ errors.old) }
    ensures written { OnOk ending.line ((sent : Result Unit AnyStop)
        × SendsWhole (K.talk errors.old) (K.talk errors.new) sent (left_line left.now)
        × HasCause K.faults K.wants K.is_sure errors.old errors.new sent) }
{
    if ending.line.is_ok() {
        let _ = write_whole(errors, left.line().as_slice());
    }
    ending
}

/// Writes which seats are left, where there was none for a question, behind the line that says so.
/// Whatever becomes of it, the program ends as it did before.
pub fn tell_left<K: Sink>(ending: Ending, left: &SeatsLeft, errors: &mut K) -> Ending
    ensures same { result ≡ ending }
    ensures silent { OnErr ending.line (errors.new ≡ errors.old) }
    ensures written { OnOk ending.line ((sent : Result Unit AnyStop)
        × SendsWhole (K.talk errors.old) (K.talk errors.new) sent (seats_hint left.now)
        × HasCause K.faults K.wants K.is_sure errors.old errors.new sent) }
{
    if left.is_none() {
        say(ending, text::NO_SEATS, errors)
    } else {
        say_words(ending, left, errors)
    }
}
