//! What the ports of a command are opened on.

ghost use Rattle.std.specs.Prelude.{◌≡◌, ℕ, ◌≤◌, ◌<◌, ◌^◌, Some, IsSome, IfSome, List, decimal};
ghost use Rattle.std.specs.Prelude.{drop, length};
ghost use Rattle.sip_stream.specs.declared.form.Form.{Form as AnyForm};
ghost use Rattle.std.specs.Option.{option_copied};
ghost use Rattle.sip_verifier.specs.declared.task.Task.{Task as AnyTask};
ghost use Rattle.sip_lookup.specs.declared.task.LookTask.{LookTask as AnyLookTask};
ghost use Rattle.sip_moments.specs.declared.task.MomentTask.{MomentTask as AnyMomentTask};
ghost use Rattle.sip_words.specs.declared.stream.Stream.{Stream as AnyStream};
ghost use Rattle.sip_stream.specs.Made.{most_made};
ghost use Rattle.sip_words.specs.Plan.{HasName, HaveNames, IsMarked, IsUnlessDash, Opens};
ghost use Rattle.sip_words.specs.Plan.{audit_ports, file_name, help_ports, opening_of, play_ports};
ghost use Rattle.sip_words.specs.Plan.{serve_ports, source_ports, stored_opening};
ghost use Rattle.sip_words.specs.Plan.{transcript_ports, verify_ports};
ghost use Rattle.sip_words.specs.Shapes.{IsStreamWord};
ghost use Rattle.sip_words.specs.Words.{Spells, word, word as word_at};

use crate::decimal::read_decimal;
use crate::stream::{Stream, stream_of};
use crate::{Command, Words};
use sip_lookup::LookTask;
use sip_moments::MomentTask;
use sip_stream::Form;
use sip_vector::Depth;

/// What a port is opened on.
#[derive(Clone, Copy, Debug, PartialEq, Eq)]
pub enum Opening {
    /// On nothing.
    Nothing,
    /// On standard input, of what brings bytes, or on standard output, of what takes them.
    Standard,
    /// On a file that must not be emptied, since the command reads it or writes it at another port.
    /// So nothing is opened, and the port's calls fail.
    Spared,
    /// On the file whose name is a word of the command without its first `skip` bytes. Words are
    /// numbered from 0.
    Path {
        word: usize,
        skip: usize,
    },
    /// On the records that a generator makes from a number, for a depth; `count` of them, which is
    /// at most `MadeSource::MOST`.
    Made {
        number: u64,
        count: u64,
        depth: Depth,
    },
}

// The text without its first bytes, where they are whole characters.
fn without(text: &str, skip: usize) -> Option<&str>
    ensures rest { IfSome result (λ rest. rest.now ≡ drop skip text.now) }
    ensures whole { skip ≡ 0 → IsSome result }
    ensures marked { skip ≡ 5 → IsMarked text.now → IsSome result }
{
    Some(text.split_at_checked(skip)?.1)
}

impl Opening {
    /// The name of the file; `None` where the port is opened on none. All openings that [`ports`]
    /// gives for the words have their name there.
    pub fn name(self, words: &Words) -> Option<&str>
        ensures name { HasName words.now self → option_copied result ≡ file_name self words.now }
        ensures only { IfSome result (λ name. file_name self words.now ≡ Some name.now) }
    {
        match self {
            Opening::Nothing | Opening::Standard | Opening::Spared | Opening::Made { .. } => None,
            Opening::Path { word, skip } => without(words.get(word)?, skip),
        }
    }

    // On the file that a whole word names.
    fn file(word: usize) -> Opening
        ensures { result ≡ Opening.Path word 0 }
    {
        Opening::Path { word, skip: 0 }
    }

    // On the file of this name; or so, where the name is `-`.
    fn unless_dash(dash: Opening, name: &str, word: usize) -> Opening
        ensures { IsUnlessDash dash name.now word result }
    {
        if name == "-" {
            dash
        } else {
            Opening::file(word)
        }
    }

    /// On the file that a word names; or so, where it is `-`.
    pub fn named(dash: Opening, words: &Words, word: usize) -> Opening
        ensures { word < length words.now
            → IsUnlessDash dash (word_at words.now word) word result }
    {
        match words.get(word) {
            Some(name) => Opening::unless_dash(dash, name, word),
            None => dash,
        }
    }

    // On the stream that word 1 names, at a depth.
    fn stream(words: &Words, depth: Depth) -> Opening
        ensures { (stream : AnyStream) → 1 < length words.now
            → IsStreamWord stream (word words.now 1)
            → result ≡ opening_of stream depth }
    {
        match stream_of(words) {
            Some(stream) => Opening::of(stream, depth),
            None => Opening::Nothing,
        }
    }

    // On a stream that word 1 names, at a depth.
    fn of(stream: Stream, depth: Depth) -> Opening
        ensures { result ≡ opening_of stream depth }
    {
        match stream {
            Stream::Made { number, count } => Opening::Made {
                number,
                count,
                depth,
            },
            Stream::Text | Stream::Wide => Opening::Path { word: 1, skip: 5 },
            Stream::File => Opening::file(1),
        }
    }

    // On the file of word 1 that holds a stream in this form.
    fn stored(form: Form) -> Opening
        ensures { result ≡ stored_opening form }
    {
        match form {
            Form::Text | Form::Wide => Opening::Path { word: 1, skip: 5 },
            Form::Binary => Opening::file(1),
        }
    }

    // On the stream of the numbers of words 1 and 2, at a depth.
    fn numbers(words: &Words, depth: Depth) -> Option<Opening>
        ensures { (number count : ℕ) → number < 2 ^ 64 → count < 2 ^ 64 → 2 < length words.now
            → word words.now 1 ≡ decimal number
            → word words.now 2 ≡ decimal count → result ≡ Some (Opening.Made number count depth) }
    {
        let number = read_decimal(words.get(1)?)?;
        let count = read_decimal(words.get(2)?)?;
        Some(Opening::Made {
            number,
            count,
            depth,
        })
    }
}

/// What the ports of a run are opened on: two sources, the two ends of a link, and what keeps the
/// transcript.
#[derive(Clone, Copy, Debug, PartialEq, Eq)]
pub struct PortPlan {
    /// The stream.
    pub first: Opening,
    /// The seed, or the transcript that is shown or converted.
    pub second: Opening,
    /// What the other side of the talk sends.
    pub from: Opening,
    /// What is sent to the other side.
    pub to: Opening,
    /// What gets the transcript of the run.
    pub keep: Opening,
}

/// Which end of a link is opened first. To open a FIFO waits for its other end, so that the two
/// sides of a talk open theirs in turned orders.
#[derive(Clone, Copy, Debug, PartialEq, Eq)]
pub enum LinkOrder {
    /// The end that takes our bytes: a verifier's.
    ToFirst,
    /// The end that brings the other side's: a helper's.
    FromFirst,
}

impl PortPlan {
    /// Which end of the link is opened first.
    pub fn link_order(&self) -> LinkOrder
        ensures verify { (words : List (List ℕ)) (task : AnyTask)
            → Opens words (Command.Verify task) self.now
            → result ≡ LinkOrder.ToFirst }
        ensures lookup { (words : List (List ℕ)) (task : AnyLookTask)
            → Opens words (Command.Lookup task) self.now → result ≡ LinkOrder.ToFirst }
        ensures moments { (words : List (List ℕ)) (task : AnyMomentTask)
            → Opens words (Command.Moments task) self.now → result ≡ LinkOrder.ToFirst }
        ensures help { (words : List (List ℕ)) → Opens words Command.Help self.now
            → result ≡ LinkOrder.FromFirst }
        ensures help_look { (words : List (List ℕ)) → Opens words Command.HelpLook self.now
            → result ≡ LinkOrder.FromFirst }
        ensures help_moments { (words : List (List ℕ)) → Opens words Command.HelpMoments self.now
            → result ≡ LinkOrder.FromFirst }
        ensures serve { (words : List (List ℕ)) (form : AnyForm)
            → Opens words (Command.Serve form) self.now → result ≡ LinkOrder.FromFirst }
    {
        // A helper has no seed.
        match self.second {
            Opening::Nothing => LinkOrder::FromFirst,
            Opening::Standard | Opening::Spared | Opening::Path { .. } | Opening::Made { .. } =>
                LinkOrder::ToFirst,
        }
    }

    // No port, but for the first source.
    fn source(first: Opening) -> PortPlan
        ensures { result ≡ source_ports first }
    {
        PortPlan {
            first,
            second: Opening::Nothing,
            from: Opening::Nothing,
            to: Opening::Nothing,
            keep: Opening::Nothing,
        }
    }

    // The ports of `verify`, and of `lookup` and `moments`, whose stream and whose transcript are
    // opened like this.
    fn verify(first: Opening, keep: Opening) -> PortPlan
        ensures { result ≡ verify_ports first keep }
    {
        PortPlan {
            first,
            second: Opening::file(2),
            from: Opening::file(3),
            to: Opening::file(4),
            keep,
        }
    }

    // The ports of `play`, and of `panel`, whose stream and whose transcript are opened like this.
    fn play(first: Opening, keep: Opening) -> PortPlan
        ensures { result ≡ play_ports first keep }
    {
        PortPlan {
            first,
            second: Opening::file(2),
            from: Opening::Nothing,
            to: Opening::Nothing,
            keep,
        }
    }

    // The ports of `help`, of `helplook` and of `helpmom`.
    fn help() -> PortPlan
        ensures { result ≡ help_ports }
    {
        PortPlan {
            first: Opening::Nothing,
            second: Opening::Nothing,
            from: Opening::file(1),
            to: Opening::file(2),
            keep: Opening::Nothing,
        }
    }

    // The ports of `serve`, whose stream and whose link are opened like this.
    fn serve(first: Opening, from: Opening, to: Opening) -> PortPlan
        ensures { result ≡ serve_ports first from to }
    {
        PortPlan {
            first,
            second: Opening::Nothing,
            from,
            to,
            keep: Opening::Nothing,
        }
    }

    // The ports of `audit`, whose stream is opened like this.
    fn audit(first: Opening) -> PortPlan
        ensures { result ≡ audit_ports first }
    {
        PortPlan {
            first,
            second: Opening::file(2),
            from: Opening::Nothing,
            to: Opening::Nothing,
            keep: Opening::Nothing,
        }
    }

    // The ports of `show` and of `convert`.
    fn transcript() -> PortPlan
        ensures { result ≡ transcript_ports }
    {
        PortPlan {
            first: Opening::Nothing,
            second: Opening::file(1),
            from: Opening::Nothing,
            to: Opening::Nothing,
            keep: Opening::Nothing,
        }
    }

    // The ports of a command that the words are.
    fn of(words: &Words, command: &Command) -> PortPlan
        ensures { Spells words.now command.now → Opens words.now command.now result }
    {
        match command {
            Command::Verify(task) => {
                let stream = Opening::stream(words, task.depth);
                PortPlan::verify(stream, Opening::named(Opening::Nothing, words, 5))
            }
            Command::Help => PortPlan::help(),
            Command::Audit { form } => PortPlan::audit(Opening::stored(*form)),
            Command::Show | Command::Convert => PortPlan::transcript(),
            Command::Gen { depth } => {
                PortPlan::source(Opening::numbers(words, *depth).unwrap_or(Opening::Nothing))
            }
            Command::Lines { depth, .. } | Command::Widen { depth, .. } => {
                let stream = Opening::stream(words, *depth);
                PortPlan::source(stream)
            }
            Command::Play(task, _) => {
                let stream = Opening::stream(words, task.depth);
                PortPlan::play(stream, Opening::named(Opening::Nothing, words, 4))
            }
            Command::Lookup(LookTask { depth, .. }) | Command::Moments(MomentTask { depth, .. }) =>
                {
                    let stream = Opening::stream(words, *depth);
                    PortPlan::verify(stream, Opening::Nothing)
                }
            Command::HelpLook | Command::HelpMoments => PortPlan::help(),
            Command::Panel(task, _) => {
                let stream = Opening::stream(words, task.depth);
                PortPlan::play(stream, Opening::Nothing)
            }
            Command::Serve { form } => {
                let from = Opening::named(Opening::Standard, words, 2);
                let to = Opening::named(Opening::Standard, words, 3);
                PortPlan::serve(Opening::stored(*form), from, to)
            }
        }
    }
}

/// The files and made streams that a command opens, whose words these are: for `verify` its stream,
/// its seed, the two ends of its link and the file of its transcript, if it is to keep one, for
/// `lookup` and `moments` the same without a transcript, for `play` without a link, for `panel`
/// without either, for `help`, `helplook` and `helpmom` the two ends of their link, for `audit` its
/// stream and the transcript, for `show` and `convert` the transcript, for `gen`, `lines` and
/// `widen` their stream, for `serve` its stream and the two ends of its link, which may be standard
/// input and standard output.
pub fn ports(words: &Words, command: &Command) -> PortPlan
    requires { Spells words.now command.now }
    ensures opens { Opens words.now command.now result }
    ensures counted { (number count depth : ℕ) → result.first ≡ Opening.Made number count depth
        → count ≤ most_made }
    ensures named { HaveNames words.now result }
{
    PortPlan::of(words, command)
}
