//! What stands at each word of a command.

ghost use Rattle.std.specs.Prelude.{◌≡◌, ◌≤◌, length, IfSome};
ghost use Rattle.std.specs.Option.{option_copied};
ghost use Rattle.sip_advice.specs.Hints.{asked_by, behind_asked, is_lookup, most_said, other_hint};
ghost use Rattle.sip_advice.specs.Hints.{place_at, place_hint, places, query_hint, role_name};

use crate::hint_text as text;
use sip_wire::MOST_QUERIES;
use sip_words::Verb;

/// What stands at a word of a command.
#[derive(Clone, Copy, Debug, PartialEq, Eq, Default)]
pub(crate) enum Role {
    /// The verb.
    #[default]
    Verb,
    Stream,
    Stored,
    Seed,
    From,
    To,
    /// FROM where it may be standard input.
    Input,
    /// TO where it may be standard output.
    Output,
    Record,
    Helper,
    Transcript,
    Number,
    Count,
    Depth,
    Query,
    Lookup,
    Moment,
    /// The names of several helpers.
    Helpers,
    /// A query that is asked of several helpers.
    Shared,
    /// No word, since the command is whole before it.
    End,
}

const VERIFY_ROLES: [Role; 7] = [
    Role::Verb,
    Role::Stream,
    Role::Seed,
    Role::From,
    Role::To,
    Role::Record,
    Role::Depth,
];

const HELP_ROLES: [Role; 3] = [Role::Verb, Role::From, Role::To];

const AUDIT_ROLES: [Role; 3] = [Role::Verb, Role::Stored, Role::Transcript];

const SHOW_ROLES: [Role; 2] = [Role::Verb, Role::Transcript];

const CONVERT_ROLES: [Role; 2] = [Role::Verb, Role::Transcript];

const GEN_ROLES: [Role; 4] = [Role::Verb, Role::Number, Role::Count, Role::Depth];

const LINES_ROLES: [Role; 3] = [Role::Verb, Role::Stream, Role::Depth];

const WIDEN_ROLES: [Role; 3] = [Role::Verb, Role::Stream, Role::Depth];

const PLAY_ROLES: [Role; 6] = [
    Role::Verb,
    Role::Stream,
    Role::Seed,
    Role::Helper,
    Role::Record,
    Role::Depth,
];

const PANEL_ROLES: [Role; 5] = [
    Role::Verb,
    Role::Stream,
    Role::Seed,
    Role::Helpers,
    Role::Depth,
];

// Of `moments` too.
const LOOKUP_ROLES: [Role; 6] = [
    Role::Verb,
    Role::Stream,
    Role::Seed,
    Role::From,
    Role::To,
    Role::Depth,
];

const SERVE_ROLES: [Role; 4] = [Role::Verb, Role::Stored, Role::Input, Role::Output];

// The places of a verb's words, the verb among them, and before what it asks.
fn places_of(verb: Verb) -> &'static [Role]
    ensures { result.now ≡ places verb }
{
    match verb {
        Verb::Verify => &VERIFY_ROLES,
        Verb::Help => &HELP_ROLES,
        Verb::Audit => &AUDIT_ROLES,
        Verb::Show => &SHOW_ROLES,
        Verb::Convert => &CONVERT_ROLES,
        Verb::Gen => &GEN_ROLES,
        Verb::Lines => &LINES_ROLES,
        Verb::Widen => &WIDEN_ROLES,
        Verb::Play => &PLAY_ROLES,
        Verb::Lookup | Verb::Moments => &LOOKUP_ROLES,
        Verb::HelpLook | Verb::HelpMoments => &HELP_ROLES,
        Verb::Panel => &PANEL_ROLES,
        Verb::Serve => &SERVE_ROLES,
    }
}

// What stands behind these words, where the verb asks something.
fn asked_by(verb: Verb) -> Role
    ensures { result ≡ asked_by verb }
{
    match verb {
        Verb::Lookup => Role::Lookup,
        Verb::Moments => Role::Moment,
        Verb::Panel => Role::Shared,
        _ => Role::Query,
    }
}

// The number of the word behind the last query that a verb may have, or lookup, or moment.
fn behind_asked(verb: Verb) -> usize
    ensures { result ≡ behind_asked verb }
{
    let asked = match verb {
        Verb::Verify | Verb::Play | Verb::Lookup | Verb::Moments | Verb::Panel => MOST_QUERIES,
        Verb::Help
        | Verb::Audit
        | Verb::Show
        | Verb::Convert
        | Verb::Gen
        | Verb::Lines
        | Verb::Widen
        | Verb::HelpLook
        | Verb::HelpMoments
        | Verb::Serve => 0,
    };
    places_of(verb).len() + asked
}

impl Role {
    /// The place of a verb's word of this number.
    pub(crate) fn at(verb: Verb, word: usize) -> Role
        ensures { result ≡ place_at verb word }
    {
        match places_of(verb).get(word) {
            Some(place) => *place,
            None if word < behind_asked(verb) => asked_by(verb),
            None => Role::End,
        }
    }

    /// What it is called among the words.
    pub(crate) fn name(self) -> &'static str
        ensures name { result.now ≡ role_name self }
        ensures short { length result.now ≤ 10 }
    {
        match self {
            Role::Stream => "STREAM",
            Role::Stored => "STORED",
            Role::Seed => "SEED",
            Role::From | Role::Input => "FROM",
            Role::To | Role::Output => "TO",
            Role::Record => "RECORD",
            Role::Transcript => "TRANSCRIPT",
            _ => "FILE",
        }
    }

    /// What may stand there, where this word was refused, or one is missing.
    pub(crate) fn hint(self, word: Option<&str>) -> &'static str
        ensures hint { result.now ≡ place_hint self (option_copied word.entry) }
        ensures short { length result.now ≤ most_said }
    {
        match self {
            Role::Verb => text::VERB,
            Role::Stream => text::STREAM,
            Role::Stored => text::STORED,
            Role::Seed => text::SEED,
            Role::From => text::FROM,
            Role::To => text::TO,
            Role::Input => text::INPUT,
            Role::Output => text::OUTPUT,
            Role::Record => text::RECORD,
            Role::Helper => text::HELPER,
            Role::Transcript => text::TRANSCRIPT,
            Role::Number => text::NUMBER,
            Role::Count => text::COUNT,
            Role::Depth => text::DEPTH,
            Role::Query => query_hint(word, text::QUERY),
            Role::Lookup => text::LOOKUP,
            Role::Moment => text::MOMENT,
            Role::Helpers => text::HELPERS,
            Role::Shared => query_hint(word, text::SHARED),
            Role::End => text::END,
        }
    }
}

// What is said where a query may stand: which command asks such a word, or else the usual.
fn query_hint(word: Option<&str>, usual: &'static str) -> &'static str
    requires { length usual.now ≤ most_said }
    ensures hint { result.now ≡ query_hint (option_copied word.entry) usual.now }
    ensures short { length result.now ≤ most_said }
{
    match other_command(word) {
        Some(other) => other,
        None => usual,
    }
}

// What asks such a word, where it begins as a lookup or a moment does.
fn other_command(word: Option<&str>) -> Option<&'static str>
    ensures hint { option_copied result ≡ other_hint (option_copied word.entry) }
    ensures short { IfSome result (λ text. length text.now ≤ most_said) }
{
    let bytes = word?.as_bytes();
    if is_lookup(bytes) {
        Some(text::LOOKS)
    } else if bytes.starts_with(b"moment:") {
        Some(text::POWERS)
    } else {
        None
    }
}

// Whether a word begins as one that asks a lookup does.
fn is_lookup(bytes: &[u8]) -> bool
    ensures { result ≡ is_lookup bytes.now }
{
    bytes.starts_with(b"index:") || bytes.starts_with(b"pred:") || bytes.starts_with(b"succ:")
}
