//! The line of advice behind the line of a status.

ghost use Rattle.std.specs.Prelude.{◌≡◌, ◌↔◌, ◌≤◌, ℕ, List, length, IsTrue, MatchOption, IfSome};
ghost use Rattle.std.specs.Prelude.{OnOk, OnErr, Result};
ghost use Rattle.std.specs.Option.{option_copied};
ghost use Rattle.sip_ports.specs.declared.port.PortStop.{PortStop as AnyStop};
ghost use Rattle.sip_ports.specs.Ports.{HasCause, SendsWhole};
ghost use Rattle.sip_advice.specs.declared.noted.Noted.{Noted as AnyNoted};
ghost use Rattle.sip_advice.specs.Noting.{cause_of};
ghost use Rattle.sip_advice.specs.Hints.{IsFileHint, IsWarned, credits_hint, file_line, seed_hint};
ghost use Rattle.sip_advice.specs.Hints.{IsAdvised, IsAdvisedUnread, IsAsText, IsHint, IsPlain};
ghost use Rattle.sip_advice.specs.Hints.{IsRecordHint, StandsAt, hint_line, most_said, reason_hint};
ghost use Rattle.sip_advice.specs.Hints.{refusal_hint, refused_line, status_hint, trouble_hint};
ghost use Rattle.sip_advice.specs.Hints.{why_hint};

use crate::noted::{Noted, SeedLook, Trouble, Unopened};
use crate::place::Role;
use crate::quoting::put_quoted;
use crate::{Ending, hint_text as text, reason_text as reasons};
use arrayvec::ArrayVec;
use sip_ports::{PortStop, Sink, write_whole};
use sip_stream::Why;
use sip_stream::text::put;
use sip_vector::Negatives;
use sip_verifier::{Port, Status};
use sip_wire::Reason;
use sip_words::{Words, stream_of, verb_of};

/// No line is longer: a sentence of 300 bytes at most, a quoted word, and what stands around them.
pub const HINT_ROOM: usize = 640;

/// A line of advice.
pub type HintLine = ArrayVec<u8, HINT_ROOM>;

// The place of the word of this number, by the verb that word 0 is.
fn place_of(words: &Words, word: usize) -> Role
    ensures { StandsAt words.now word result }
{
    match verb_of(words) {
        Some(verb) => Role::at(verb, word),
        None => Role::Verb,
    }
}

// Whether the stream that word 1 names is a file of records of 13 bytes.
fn is_plain(words: &Words) -> bool
    ensures { IsTrue result ↔ IsPlain words.now }
{
    match stream_of(words) {
        Some(stream) => stream.is_file(),
        None => false,
    }
}

// Whether a record fails that way which begins as a line does.
fn is_as_text(why: Why) -> bool
    ensures { IsTrue result ↔ IsAsText why }
{
    match why {
        Why::Truncated | Why::BadSide => true,
        Why::BadLine | Why::BadItem | Why::ZeroDelta | Why::TooHeavy(_) => false,
    }
}

// What is to be said of a record that is not legal.
fn why_said(why: Why) -> &'static str
    ensures said { result.now ≡ why_hint why }
    ensures short { length result.now ≤ most_said }
{
    match why {
        Why::Truncated => text::TRUNCATED,
        Why::BadLine => text::LINE,
        Why::BadSide => text::SIDE,
        Why::BadItem => text::ITEM,
        Why::ZeroDelta => text::DELTA,
        Why::TooHeavy(_) => text::WEIGHT,
    }
}

// What a refusal with this code means.
fn refusal_said(code: u8) -> &'static str
    ensures said { result.now ≡ refusal_hint code }
    ensures short { length result.now ≤ most_said }
{
    match code {
        1 => reasons::NO_MEMORY,
        2 => reasons::TOO_LARGE,
        3 => reasons::NEGATIVE,
        _ => reasons::OUT_OF_TURN,
    }
}

// What a reason of a rejection means.
fn reason_said(reason: Reason) -> &'static str
    ensures said { result.now ≡ reason_hint reason }
    ensures short { length result.now ≤ most_said }
{
    match reason {
        Reason::Closed => reasons::CLOSED,
        Reason::BadKind => reasons::BAD_KIND,
        Reason::BadLength => reasons::BAD_LENGTH,
        Reason::BadCount => reasons::BAD_COUNT,
        Reason::BadNumber => reasons::BAD_NUMBER,
        Reason::Refused(code) => refusal_said(code),
        Reason::BadOrder => reasons::BAD_ORDER,
        Reason::TooMany => reasons::TOO_MANY,
        Reason::BadFlags => reasons::BAD_FLAGS,
        Reason::HeavySibling => reasons::HEAVY_SIBLING,
        Reason::Pairs => reasons::PAIRS,
        Reason::LightParent => reasons::LIGHT_PARENT,
        Reason::Sum => reasons::SUM,
        Reason::Total => reasons::TOTAL,
        Reason::Root => reasons::ROOT,
        Reason::BadFound => reasons::BAD_FOUND,
        Reason::NotAlone => reasons::NOT_ALONE,
    }
}

// What is said of a status, whatever the words were.
fn status_said(status: &Status) -> Option<&'static str>
    ensures said { option_copied result ≡ status_hint status.now }
    ensures short { IfSome result (λ text. length text.now ≤ most_said) }
{
    match status {
        Status::Rejected { reason, .. } => Some(reason_said(*reason)),
        Status::BadSeed => Some(text::SHORT),
        Status::SeedSpent => Some(text::SPENT),
        Status::TooWide { .. } => Some(text::WIDE),
        Status::TooHigh { .. } => Some(text::HIGH),
        Status::BadTranscript { .. } => Some(text::BROKEN),
        Status::BadFrame { .. } => Some(text::FRAME),
        Status::ReadFault { port: Port::First } => Some(text::FIRST),
        Status::ReadFault { port: Port::Second } => Some(text::SECOND),
        Status::WriteFault { port: Port::Report } => Some(text::REPORT),
        Status::WriteFault { port: Port::Keep } => Some(text::KEEP),
        Status::PeerFault => Some(text::LINK),
        Status::PeerClosed => Some(text::LEFT),
        Status::Accepted
        | Status::Served
        | Status::Wrote
        | Status::Usage { .. }
        | Status::BadStream { .. }
        | Status::ReadFault { .. }
        | Status::WriteFault { .. }
        | Status::OutOfMemory => None,
    }
}

// The line that says this.
fn hint_line(said: &str) -> HintLine
    requires { length said.now ≤ most_said }
    ensures { result.items ≡ hint_line said.now }
{
    let mut line = ArrayVec::new();
    put(&mut line, b"sip: hint: ");
    put(&mut line, said.as_bytes());
    put(&mut line, b"\n");
    line
}

// The line where a word is refused or missing, and this is said of its place.
fn refused_line(word: Option<&str>, said: &str) -> HintLine
    requires { length said.now ≤ most_said }
    ensures { result.items ≡ refused_line (option_copied word.entry) said.now }
{
    let mut line = ArrayVec::new();
    match word {
        Some(word) => {
            put(&mut line, b"sip: hint: ");
            put_quoted(&mut line, word);
            put(&mut line, b" cannot stand here: ");
        }
        None => put(&mut line, b"sip: hint: a word is missing: "),
    }
    put(&mut line, said.as_bytes());
    put(&mut line, b"\n");
    line
}

// The line where a word of this number is refused or missing.
fn usage_line(words: &Words, number: u32) -> HintLine
    ensures { (noted : AnyNoted) → IsHint words.now noted (Status.Usage number) result.items }
{
    let word = words.get(number as usize);
    refused_line(word, place_of(words, number as usize).hint(word))
}

// The line where a record is not legal.
fn record_line(words: &Words, why: Why) -> HintLine
    ensures { IsRecordHint words.now why result.items }
{
    if !is_plain(words) {
        return hint_line(why_said(why));
    }
    let mut line = ArrayVec::new();
    put(&mut line, b"sip: hint: ");
    put(&mut line, why_said(why).as_bytes());
    put(&mut line, text::NARROW.as_bytes());
    put(&mut line, b"\n");
    line
}

// The line of a stream whose record of this number is not legal.
fn stream_line(words: &Words, at: u64, why: Why) -> HintLine
    ensures { (noted : AnyNoted) → IsHint words.now noted (Status.BadStream at why) result.items }
{
    if at == 0 && is_as_text(why) && is_plain(words) {
        hint_line(text::NAMED)
    } else {
        record_line(words, why)
    }
}

// The file that explains a status, since it is not to be had.
fn cause_of(noted: &Noted, status: &Status) -> Option<Unopened>
    ensures { result ≡ cause_of noted.now status.now }
{
    match status {
        Status::ReadFault { port: Port::First } => noted.first,
        Status::ReadFault { port: Port::Second } => noted.second,
        Status::WriteFault { port: Port::Keep } => noted.keep,
        Status::PeerFault => match noted.from {
            Some(file) => Some(file),
            None => noted.to,
        },
        _ => None,
    }
}

// What is said of why a file is not to be had.
fn trouble_said(why: Trouble) -> &'static str
    ensures said { result.now ≡ trouble_hint why }
    ensures short { length result.now ≤ most_said }
{
    match why {
        Trouble::Missing => text::MISSING,
        Trouble::Directory => text::DIRECTORY,
        Trouble::Denied => text::DENIED,
        Trouble::Taken => text::TAKEN,
        Trouble::Other => text::OTHER,
    }
}

// The line of a file that is not to be had, of this place and name.
fn file_line(role: Role, name: Option<&str>, why: Trouble) -> HintLine
    ensures { result.items ≡ file_line role (option_copied name.entry) why }
{
    let mut line = ArrayVec::new();
    put(&mut line, b"sip: hint: ");
    put(&mut line, role.name().as_bytes());
    if let Some(name) = name {
        put(&mut line, b" ");
        put_quoted(&mut line, name);
    }
    put(&mut line, b" cannot be used: ");
    put(&mut line, trouble_said(why).as_bytes());
    put(&mut line, b"\n");
    line
}

// The line where such a file explains a status, or else of what is said of it, if anything is.
fn other_line(words: &Words, cause: Option<Unopened>, status: &Status) -> Option<HintLine>
    ensures { MatchOption result
        ((text : List ℕ) → IsFileHint words.now cause (status_hint status.now) text → ⊥)
        (λ line. IsFileHint words.now cause (status_hint status.now) line.items) }
{
    match cause {
        Some(file) => Some(file_line(place_of(words, file.word), words.get(file.word), file.why)),
        None => Some(hint_line(status_said(status)?)),
    }
}

/// The line of advice for a status that these words came to, if there is one to give: the word that
/// was refused and what may stand there, how a stream is named or a record is written, what the
/// reason of a rejection means, which file is not to be had and why, or what else can be done. It
/// follows from the words, the status and what was noted of the files alone, and takes no memory
/// beyond a fixed buffer.
pub fn hint(words: &Words, noted: &Noted, status: &Status) -> Option<HintLine>
    ensures { MatchOption result
        ((text : List ℕ) → IsHint words.now noted.now status.now text → ⊥)
        (λ line. IsHint words.now noted.now status.now line.items) }
{
    match status {
        Status::Usage { word } => Some(usage_line(words, *word)),
        Status::BadStream { at, why } => Some(stream_line(words, *at, *why)),
        _ => other_line(words, cause_of(noted, status), status),
    }
}

// Writes a line in one piece. Its errors are those of the sink, which a front of the line has then
// reached that is shorter than it.
fn send<K: Sink>(line: &HintLine, errors: &mut K) -> Result<(), PortStop>
    ensures talk { SendsWhole (K.talk errors.old) (K.talk errors.new) result line.now.items }
    ensures cause { HasCause K.faults K.wants K.is_sure errors.old errors.new result }
{
    write_whole(errors, line.as_slice())
}

// Writes the line that says this. Its errors are the same.
fn say<K: Sink>(said: &str, errors: &mut K) -> Result<(), PortStop>
    requires { length said.now ≤ most_said }
    ensures talk { SendsWhole (K.talk errors.old) (K.talk errors.new) result (hint_line said.now) }
    ensures cause { HasCause K.faults K.wants K.is_sure errors.old errors.new result }
{
    write_whole(errors, hint_line(said).as_slice())
}

/// Writes the line of advice, if there is one to give.
///
/// # Errors
///
/// Those of the sink, which a front of the line has then reached that is shorter than it.
fn write_hint<K: Sink>(
    words: &Words,
    noted: &Noted,
    status: &Status,
    errors: &mut K,
) -> Result<(), PortStop>
    ensures written { IsAdvised words.now noted.now status.now
        (K.talk errors.old) (K.talk errors.new) result }
    ensures nothing { ((text : List ℕ) → IsHint words.now noted.now status.now text → ⊥)
        → errors.new ≡ errors.old }
    ensures cause { HasCause K.faults K.wants K.is_sure errors.old errors.new result }
{
    match hint(words, noted, status) {
        Some(line) => send(&line, errors),
        None => Ok(()),
    }
}

/// Writes the line where a word is not UTF-8.
///
/// # Errors
///
/// Those of the sink, which a front of the line has then reached that is shorter than it.
fn write_unread<K: Sink>(status: &Status, errors: &mut K) -> Result<(), PortStop>
    ensures written { IsAdvisedUnread status.now (K.talk errors.old) (K.talk errors.new) result }
    ensures cause { HasCause K.faults K.wants K.is_sure errors.old errors.new result }
{
    match status {
        Status::Usage { .. } => say(text::NO_TEXT, errors),
        _ => Ok(()),
    }
}

/// Whether word 2 is a seed, as it is of all commands that have one.
pub fn has_seed(words: &Words) -> bool
    ensures { IsTrue result ↔ StandsAt words.now 2 Role.Seed }
{
    matches!(place_of(words, 2), Role::Seed)
}

// What is said of a seed that is used, if it may be no secret.
fn seed_said(look: SeedLook) -> Option<&'static str>
    ensures said { option_copied result ≡ seed_hint look }
    ensures short { IfSome result (λ text. length text.now ≤ most_said) }
{
    if look.is_even {
        Some(text::EVEN)
    } else if look.is_shared {
        Some(text::SHARED_SEED)
    } else {
        None
    }
}

/// Writes the line that says this, if there is anything to say.
///
/// # Errors
///
/// Those of the sink, which a front of the line has then reached that is shorter than it.
fn say_if<K: Sink>(said: Option<&str>, errors: &mut K) -> Result<(), PortStop>
    requires { IfSome said (λ text. length text.now ≤ most_said) }
    ensures written { IsWarned (option_copied said.entry)
        (K.talk errors.old) (K.talk errors.new) result }
    ensures cause { HasCause K.faults K.wants K.is_sure errors.old errors.new result }
{
    match said {
        Some(said) => say(said, errors),
        None => Ok(()),
    }
}

// What is said of a run whose replies were judged, where large entries were asked for
// of a side that had a delta below 0.
fn credits_said(negatives: Negatives, status: &Status) -> Option<&'static str>
    ensures said { option_copied result ≡ credits_hint negatives status.now }
    ensures short { IfSome result (λ text. length text.now ≤ most_said) }
{
    if !matches!(status, Status::Accepted | Status::Rejected { .. }) {
        return None;
    }
    match (negatives.first, negatives.second) {
        (true, true) => Some(text::CREDITS_OF_BOTH),
        (true, false) => Some(text::CREDITS_OF_0),
        (false, true) => Some(text::CREDITS_OF_1),
        (false, false) => None,
    }
}

impl Ending {
    /// Writes the line of advice behind that of the status, where that was written and there is one
    /// to give. Whatever becomes of it, the program ends as it did before.
    pub fn advise<K: Sink>(
        self,
        words: &Words,
        noted: &Noted,
        status: &Status,
        errors: &mut K,
    ) -> Ending
        ensures same { result ≡ self }
        ensures silent { OnErr self.line (errors.new ≡ errors.old) }
        ensures nothing { ((text : List ℕ) → IsHint words.now noted.now status.now text → ⊥)
            → errors.new ≡ errors.old }
        ensures written { OnOk self.line ((sent : Result Unit AnyStop)
            × IsAdvised words.now noted.now status.now
            (K.talk errors.old) (K.talk errors.new) sent
            × HasCause K.faults K.wants K.is_sure errors.old errors.new sent) }
    {
        if self.line.is_ok() {
            let _ = write_hint(words, noted, status, errors);
        }
        self
    }

    /// Writes a line behind these where the seed may be no secret: its run stands, and is worth
    /// what the secret is.
    pub fn warn<K: Sink>(self, noted: &Noted, errors: &mut K) -> Ending
        ensures same { result ≡ self }
        ensures silent { OnErr self.line (errors.new ≡ errors.old) }
        ensures written { OnOk self.line ((sent : Result Unit AnyStop)
            × IsWarned (seed_hint noted.now.seed) (K.talk errors.old) (K.talk errors.new) sent
            × HasCause K.faults K.wants K.is_sure errors.old errors.new sent) }
    {
        if self.line.is_ok() {
            let _ = say_if(seed_said(noted.seed), errors);
        }
        self
    }

    /// Writes a line behind these where large entries were asked for of a side that had a delta
    /// below 0, whether their answer was accepted or not: no verifier sees whether an entry is
    /// below 0, and where one is the answer may be wrong.
    pub fn caution<K: Sink>(self, noted: &Noted, status: &Status, errors: &mut K) -> Ending
        ensures same { result ≡ self }
        ensures silent { OnErr self.line (errors.new ≡ errors.old) }
        ensures written { OnOk self.line ((sent : Result Unit AnyStop)
            × IsWarned (credits_hint noted.now.negatives status.now)
            (K.talk errors.old) (K.talk errors.new) sent
            × HasCause K.faults K.wants K.is_sure errors.old errors.new sent) }
    {
        if self.line.is_ok() {
            let _ = say_if(credits_said(noted.negatives, status), errors);
        }
        self
    }

    /// The same where the words could not be had: where that is since one of them is not UTF-8, the
    /// line says so.
    pub fn advise_unread<K: Sink>(self, status: &Status, errors: &mut K) -> Ending
        ensures same { result ≡ self }
        ensures silent { OnErr self.line (errors.new ≡ errors.old) }
        ensures written { OnOk self.line ((sent : Result Unit AnyStop)
            × IsAdvisedUnread status.now (K.talk errors.old) (K.talk errors.new) sent
            × HasCause K.faults K.wants K.is_sure errors.old errors.new sent) }
    {
        if self.line.is_ok() {
            let _ = write_unread(status, errors);
        }
        self
    }
}
