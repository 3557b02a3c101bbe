//! What the program says about itself.

ghost use Rattle.std.specs.Prelude.{◌≡◌, ◌⊎◌, ◌↔◌, ℕ, IsTrue, List, [], ◌∷◌, Some, IsSome, IfSome};
ghost use Rattle.std.specs.Option.{option_copied};
ghost use Rattle.sip_ports.specs.Ports.{Lasts, Rose};
ghost use Rattle.sip_advice.specs.Pages.{AsksHelp, AsksPart, AsksText, AsksVersion, PageClause};
ghost use Rattle.sip_advice.specs.Pages.{IsPart, IsSketchPart, part_of};
ghost use Rattle.sip_words.specs.declared.command.Command.{Command as AnyCommand};
ghost use Rattle.sip_words.specs.Words.{IsRefusedAt, Spells};

use crate::page_text::{
    ASK_PART, AUDIT_PART, BEGIN_PART, CONVERT_PART, GEN_PART, HELP, HELP_PART, HELPLOOK_PART,
    HELPMOM_PART, LINES_PART, LOOKUP_PART, MERGE_PART, MOMENTS_PART, PANEL_PART, PLAY_PART,
    SEATS_PART, SERVE_PART, SHOW_PART, VERIFY_PART, VERSION, WATCH_PART, WIDEN_PART,
};
use sip_ports::{PortStop, Sink, write_whole};
use sip_verifier::{Port, Status};
use sip_words::{Verb, Words, read_words};

// Whether a word asks for help.
fn asks_help(word: &str) -> bool
    ensures { IsTrue result ↔ AsksHelp word.now }
{
    matches!(word, "--help" | "-h")
}

// The text that a word alone asks for.
fn text_alone(word: &str) -> Option<&'static str>
    ensures help { AsksHelp word.now → option_copied result ≡ Some HELP.now }
    ensures version { AsksVersion word.now → option_copied result ≡ Some VERSION.now }
    ensures only { IsSome result → AsksHelp word.now ⊎ AsksVersion word.now }
{
    match word {
        "--help" | "-h" => Some(HELP),
        "--version" | "-V" => Some(VERSION),
        _ => None,
    }
}

// The part of the page that is about a verb.
fn part(verb: Verb) -> &'static str
    ensures { result.now ≡ part_of verb }
{
    match verb {
        Verb::Verify => VERIFY_PART,
        Verb::Help => HELP_PART,
        Verb::Audit => AUDIT_PART,
        Verb::Show => SHOW_PART,
        Verb::Convert => CONVERT_PART,
        Verb::Gen => GEN_PART,
        Verb::Lines => LINES_PART,
        Verb::Widen => WIDEN_PART,
        Verb::Play => PLAY_PART,
        Verb::Lookup => LOOKUP_PART,
        Verb::HelpLook => HELPLOOK_PART,
        Verb::Moments => MOMENTS_PART,
        Verb::HelpMoments => HELPMOM_PART,
        Verb::Panel => PANEL_PART,
        Verb::Serve => SERVE_PART,
    }
}

// The part that is about a command which keeps or asks a sketch, if this word is the first of one.
fn sketch_part(word: &str) -> Option<&'static str>
    ensures part { (text : List ℕ) → IsSketchPart word.now text → option_copied result ≡ Some text }
    ensures only { IfSome result (λ text. IsSketchPart word.now text.now) }
{
    match word {
        "begin" => Some(BEGIN_PART),
        "watch" => Some(WATCH_PART),
        "merge" => Some(MERGE_PART),
        "seats" => Some(SEATS_PART),
        "ask" => Some(ASK_PART),
        _ => None,
    }
}

// The part that is about the command of which this word is the first.
fn part_about(word: &str) -> Option<&'static str>
    ensures part { (text : List ℕ) → IsPart word.now text → option_copied result ≡ Some text }
    ensures only { IfSome result (λ text. IsPart word.now text.now) }
{
    match Verb::of(word) {
        Some(verb) => Some(part(verb)),
        None => sketch_part(word),
    }
}

// The part that two words ask for, be they a command or not.
fn part_asked(words: &Words) -> Option<&'static str>
    ensures part { (text : List ℕ) → AsksPart words.now text
        → option_copied result ≡ Some text }
    ensures only { IfSome result (λ text. AsksPart words.now text.now) }
{
    let (first, second) = words.pair()?;
    if asks_help(second) {
        part_about(first)
    } else {
        None
    }
}

// The part that two words ask for, where they are no command.
fn part_alone(words: &Words) -> Option<&'static str>
    ensures part { (text : List ℕ) (n : ℕ) → AsksPart words.now text → IsRefusedAt words.now n
        → option_copied result ≡ Some text }
    ensures only { IfSome result (λ text. AsksPart words.now text.now) }
    ensures refused { IsSome result → (n : ℕ) × IsRefusedAt words.now n }
{
    let text = part_asked(words)?;
    match read_words(words) {
        Ok(_) => None,
        Err(_) => Some(text),
    }
}

/// The part of the page that words ask for which are a command of [`read_words`] too: `show --help`
/// and `convert --help`, or the same with `-h`, whose second word may be the name of a file. It is
/// for where there is no such file, and the command could do nothing.
pub fn page_without_file(words: &Words) -> Option<&'static str>
    ensures part { (text : List ℕ) (command : AnyCommand) → AsksPart words.now text
        → Spells words.now command → option_copied result ≡ Some text }
    ensures only { IfSome result (λ text. AsksPart words.now text.now) }
    ensures spelled { IsSome result → (command : AnyCommand) × Spells words.now command }
{
    let text = part_asked(words)?;
    match read_words(words) {
        Ok(_) => Some(text),
        Err(_) => None,
    }
}

/// The text that the words ask for in place of a command: the page for `--help` or `-h` alone, the
/// version for `--version` or `-V` alone, and for the first word of a command with `--help` or `-h`
/// behind it its part of the page. These words are no command of [`read_words`], so that a text
/// hides none; but `seats --help` is one that keeps a sketch, if there is a file of that name.
pub fn page_of(words: &Words) -> Option<&'static str>
    ensures help { (w : List ℕ) → AsksHelp w → words.now ≡ w ∷ []
        → option_copied result ≡ Some HELP.now }
    ensures version { (w : List ℕ) → AsksVersion w → words.now ≡ w ∷ []
        → option_copied result ≡ Some VERSION.now }
    ensures part { (text : List ℕ) (n : ℕ) → AsksPart words.now text → IsRefusedAt words.now n
        → option_copied result ≡ Some text }
    ensures only { IsSome result → AsksText words.now }
    ensures alone { (w : List ℕ) → IsSome result → words.now ≡ w ∷ [] → IsRefusedAt words.now 0 }
    ensures refused { IsSome result → (n : ℕ) × IsRefusedAt words.now n }
{
    match words.only() {
        Some(word) => text_alone(word),
        None => part_alone(words),
    }
}

/// Writes a page to the report. It is accepted exactly where all of it was written.
pub fn write_page<K: Sink>(text: &str, report: &mut K) -> Status
    ensures page { PageClause (K.talk report.old) (K.talk report.new) text.now result }
    ensures fault { result ≡ Status.WriteFault Port.Report
        → Rose (K.faults report.old) (K.faults report.new) }
    ensures memory { result ≡ Status.OutOfMemory
        → Rose (K.wants report.old) (K.wants report.new) }
    ensures report { Lasts K.faults K.wants K.is_sure report.old report.new }
{
    match write_whole(report, text.as_bytes()) {
        Ok(()) => Status::Accepted,
        Err(PortStop::Failed) => Status::WriteFault { port: Port::Report },
        Err(PortStop::OutOfMemory) => Status::OutOfMemory,
    }
}
