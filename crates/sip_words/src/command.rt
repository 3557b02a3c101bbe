//! What a command asks for.

ghost use Rattle.std.specs.Prelude.{◌≡◌, ◌≢◌, ℕ, ◌+◌, ◌<◌, ◌≤◌, IsTrue, ◌↔◌, List, MatchOption};
ghost use Rattle.std.specs.Prelude.{OnOk, IfOk, IfErr, length};
ghost use Rattle.arrayvec.specs.ArrayVec.{ArrayVec as AnyNames};
ghost use Rattle.sip_verifier.specs.declared.task.Task.{Task as AnyTask};
ghost use Rattle.sip_words.specs.declared.stream.Stream.{Stream as AnyStream};
ghost use Rattle.sip_words.specs.declared.helper_name.HelperName.{HelperName as AnyName};
ghost use Rattle.sip_words.specs.Shapes.{AreHelpers, Asks, IsDepth, HasForm, IsStoredWord};
ghost use Rattle.sip_words.specs.Shapes.{IsStreamWord};
ghost use Rattle.sip_words.specs.Shapes.{helper_word};
ghost use Rattle.sip_words.specs.Words.{IsCommandOf, SaysAll, SaysTask, Spells, IsRefusedAt, word};
ghost use Rattle.sip_words.specs.Verbs.{verb_word};
ghost use Rattle.sip_wire.specs.Table.{most_queries};
ghost use Rattle.sip_words.specs.inside.Progress.{Fitted, HaveShapes, SeatsUpTo, TakesAll};
ghost use Rattle.sip_words.specs.inside.Progress.{StopsInShapes, TakesLink, TakesName, TakesStored};
ghost use Rattle.sip_words.specs.inside.Progress.{TakesStream};
ghost use Rattle.sip_words.specs.declared.verb.Verb.{Verb as AnyVerb};

use crate::asked::{AskedWord, read_asked};
use crate::decimal::read_decimal;
use crate::helper_name::read_helpers;
use crate::shape::Shape;
use crate::stream::{stored_of, stream_of};
use crate::verb::Verb;
use crate::{HelperName, Usage, Words};
use arrayvec::ArrayVec;
use sip_lookup::{LookTask, Lookup};
use sip_moments::{Moment, MomentTask};
use sip_stream::Form;
use sip_vector::{Depth, Query};
use sip_verifier::Task;
use sip_wire::MOST_QUERIES;

/// What the program is to do.
#[derive(Drop)]
pub enum Command {
    /// To verify answers about a stream: `verify STREAM SEED FROM TO RECORD DEPTH QUERY..`.
    Verify(Task),
    /// To help another side to verify: `help FROM TO`.
    Help,
    /// To check a stored run again: `audit STORED TRANSCRIPT`.
    Audit { form: Form },
    /// To list a transcript: `show TRANSCRIPT`.
    Show,
    /// To write a transcript in version 2: `convert TRANSCRIPT`.
    Convert,
    /// To write a made stream: `gen NUMBER COUNT DEPTH`.
    Gen { depth: Depth },
    /// To write a stream as lines of text: `lines STREAM DEPTH`.
    Lines { form: Form, depth: Depth },
    /// To write a stream as wide records: `widen STREAM DEPTH`.
    Widen { form: Form, depth: Depth },
    /// To verify answers of a helper in the program: `play STREAM SEED HELPER RECORD DEPTH
    /// QUERY..`.
    Play(Task, HelperName),
    /// To look up entries of a stream: `lookup STREAM SEED FROM TO DEPTH LOOKUP..`.
    Lookup(LookTask),
    /// To help another side to look up: `helplook FROM TO`.
    HelpLook,
    /// To verify moments of a stream: `moments STREAM SEED FROM TO DEPTH MOMENT..`.
    Moments(MomentTask),
    /// To help another side to verify moments: `helpmom FROM TO`.
    HelpMoments,
    /// To verify answers of several helpers in the program: `panel STREAM SEED HELPERS DEPTH
    /// QUERY..`.
    Panel(Task, ArrayVec<HelperName, MOST_QUERIES>),
    /// To answer questions about a stream that a file holds: `serve STORED FROM TO`.
    Serve { form: Form },
}

/// The number of the depth of `verify`.
const VERIFY_DEPTH: usize = 6;

/// The number of the depth of `play`.
const PLAY_DEPTH: usize = 5;

/// The number of the depth of `lookup` and of `moments`, whose talk is not kept.
const UNKEPT_DEPTH: usize = 5;

/// The number of the depth of `panel`.
const PANEL_DEPTH: usize = 4;

/// The number of the helper of `play`, and of the helpers of `panel`.
const HELPERS: usize = 3;

/// The verb that word 0 is; `None` where it is none, or there is no word. The words behind it may
/// be no command.
pub fn verb_of(words: &Words) -> Option<Verb>
    ensures { MatchOption result
        ((verb : AnyVerb) → 0 < length words.now → word words.now 0 ≢ verb_word verb)
        (λ verb. (0 < length words.now) × (word words.now 0 ≡ verb_word verb)) }
{
    Verb::of(words.get(0)?)
}

// The words behind the verb have these shapes.
fn check_shapes(words: &Words, shapes: &[Shape]) -> Result<(), Usage>
    requires some { 0 < length words.now }
    requires few { length shapes.now ≤ 6 }
    ensures fitting { OnOk result (HaveShapes shapes.now words.now (length shapes.now)) }
    ensures refused { IfErr result (λ usage. StopsInShapes shapes.now words.now usage.word) }
{
    for (index, shape) in shapes.iter().enumerate() {
        let number = index + 1;
        if !words.get(number).is_some_and(|word| shape.is_of(word)) {
            return Err(Usage {
                word: number as u32,
            });
        }
    }
    Ok(())
}

// Whether there is a word of this number.
fn has_word(words: &Words, number: usize) -> bool
    ensures { IsTrue result ↔ (number < length words.now) }
{
    words.get(number).is_some()
}

// The form that the stream of word 1 has at a depth.
fn form_of(words: &Words, depth: Depth) -> Option<Form>
    ensures { MatchOption result
        (1 < length words.now → (s : AnyStream) → IsStreamWord s (word words.now 1) → ⊥)
        (λ form. HasForm depth form (word words.now 1)) }
{
    Some(stream_of(words)?.form(depth))
}

/// The depth that the word of this number is: its one spelling, from 1 to 48.
pub fn read_depth(words: &Words, number: usize) -> Option<Depth>
    ensures { MatchOption result
        (number < length words.now → (d : ℕ) → IsDepth d (word words.now number) → ⊥)
        (λ depth. (number < length words.now) × IsDepth depth (word words.now number)) }
{
    let levels = read_decimal(words.get(number)?)?;
    if levels > Depth::MOST as u64 {
        return None;
    }
    Depth::new(levels as u8)
}

// What the words say behind a verb whose stream is word 1 and whose depth is the word of this
// number: the depth, the form of the stream, and what is asked, of which there is so much at most.
fn read_all<Q: AskedWord>(
    words: &Words,
    last: usize,
    most: usize,
) -> Result<(Depth, Form, ArrayVec<Q, MOST_QUERIES>), Usage>
    requires few { last ≤ 6 }
    requires some { 0 < most }
    requires room { most ≤ most_queries }
    ensures said { IfOk result (λ said. (verb : AnyVerb) → TakesAll Q.is_word verb last
        → SeatsUpTo verb words.now most
        → Fitted verb words.now → IsCommandOf verb words.now
        × SaysAll Q.is_word verb words.now said.0 said.1 said.2.items) }
    ensures refused { IfErr result (λ usage. (verb : AnyVerb) → TakesAll Q.is_word verb last
        → SeatsUpTo verb words.now most
        → Fitted verb words.now → IsRefusedAt words.now usage.word) }
{
    let Some(depth) = read_depth(words, last) else {
        return Err(Usage { word: last as u32 });
    };
    let Some(form) = form_of(words, depth) else {
        return Err(Usage { word: 1 });
    };
    let asked = read_asked::<Q>(words, depth, last + 1, most)?;
    Ok((depth, form, asked))
}

// The task of `verify`, of `play` or of `panel`, whose depth is the word of this number and whose
// queries are so many at most.
fn read_task(words: &Words, last: usize, most: usize) -> Result<Task, Usage>
    requires few { last ≤ 6 }
    requires some { 0 < most }
    requires room { most ≤ most_queries }
    ensures task { IfOk result (λ task. (verb : AnyVerb) → TakesAll Asks verb last
        → SeatsUpTo verb words.now most
        → Fitted verb words.now → IsCommandOf verb words.now × SaysTask verb words.now task) }
    ensures refused { IfErr result (λ usage. (verb : AnyVerb) → TakesAll Asks verb last
        → SeatsUpTo verb words.now most
        → Fitted verb words.now → IsRefusedAt words.now usage.word) }
{
    let (depth, form, queries) = read_all::<Query>(words, last, most)?;
    Ok(Task {
        depth,
        form,
        queries,
    })
}

// The rest of `verify`.
fn read_verify(words: &Words) -> Result<Command, Usage>
    ensures command { IfOk result (λ command. Fitted Verb.Verify words.now
        → Spells words.now command) }
    ensures refused { IfErr result (λ usage. Fitted Verb.Verify words.now
        → IsRefusedAt words.now usage.word) }
{
    let task = read_task(words, VERIFY_DEPTH, MOST_QUERIES)?;
    Ok(Command::Verify(task))
}

// The helper that the word of this number names.
fn helper_at(words: &Words, number: usize) -> Option<HelperName>
    ensures { MatchOption result
        (number < length words.now → (name : AnyName) → word words.now number ≢ helper_word name)
        (λ name. word words.now number ≡ helper_word name) }
{
    HelperName::of(words.get(number)?)
}

// The rest of `play`.
fn read_play(words: &Words) -> Result<Command, Usage>
    ensures command { IfOk result (λ command. Fitted Verb.Play words.now
        → Spells words.now command) }
    ensures refused { IfErr result (λ usage. Fitted Verb.Play words.now
        → IsRefusedAt words.now usage.word) }
{
    let Some(helper) = helper_at(words, HELPERS) else {
        return Err(Usage {
            word: HELPERS as u32,
        });
    };
    let task = read_task(words, PLAY_DEPTH, MOST_QUERIES)?;
    Ok(Command::Play(task, helper))
}

// The helpers that the word of this number names.
fn helpers_at(words: &Words, number: usize) -> Option<ArrayVec<HelperName, MOST_QUERIES>>
    ensures { MatchOption result
        (number < length words.now → (names : List AnyName)
        → AreHelpers names (word words.now number) → ⊥)
        (λ names. AreHelpers names.items (word words.now number)) }
{
    read_helpers(words.get(number)?)
}

// The rest of `panel`, where each query has a seat for each helper.
fn read_panel(words: &Words) -> Result<Command, Usage>
    ensures command { IfOk result (λ command. Fitted Verb.Panel words.now
        → Spells words.now command) }
    ensures refused { IfErr result (λ usage. Fitted Verb.Panel words.now
        → IsRefusedAt words.now usage.word) }
{
    let Some(helpers) = helpers_at(words, HELPERS) else {
        return Err(Usage {
            word: HELPERS as u32,
        });
    };
    let task = read_task(words, PANEL_DEPTH, MOST_QUERIES / helpers.len())?;
    Ok(Command::Panel(task, helpers))
}

// The rest of `lookup`.
fn read_looks(words: &Words) -> Result<Command, Usage>
    ensures command { IfOk result (λ command. Fitted Verb.Lookup words.now
        → Spells words.now command) }
    ensures refused { IfErr result (λ usage. Fitted Verb.Lookup words.now
        → IsRefusedAt words.now usage.word) }
{
    let (depth, form, lookups) = read_all::<Lookup>(words, UNKEPT_DEPTH, MOST_QUERIES)?;
    Ok(Command::Lookup(LookTask {
        depth,
        form,
        lookups,
    }))
}

// The rest of `moments`.
fn read_moments(words: &Words) -> Result<Command, Usage>
    ensures command { IfOk result (λ command. Fitted Verb.Moments words.now
        → Spells words.now command) }
    ensures refused { IfErr result (λ usage. Fitted Verb.Moments words.now
        → IsRefusedAt words.now usage.word) }
{
    let (depth, form, moments) = read_all::<Moment>(words, UNKEPT_DEPTH, MOST_QUERIES)?;
    Ok(Command::Moments(MomentTask {
        depth,
        form,
        moments,
    }))
}

// The rest of `help`, of `helplook` and of `helpmom`, which have no more words.
fn read_link(words: &Words) -> Result<(), Usage>
    ensures read { OnOk result ((verb : AnyVerb) → TakesLink verb
        → Fitted verb words.now → IsCommandOf verb words.now) }
    ensures refused { IfErr result (λ usage. (verb : AnyVerb) → TakesLink verb
        → Fitted verb words.now → IsRefusedAt words.now usage.word) }
{
    if has_word(words, 3) {
        return Err(Usage { word: 3 });
    }
    Ok(())
}

// The form of the stream that a file holds, which is the rest of `audit` and of `serve`: their
// words end before this number.
fn read_stored_form(words: &Words, ends: usize) -> Result<Form, Usage>
    requires few { ends ≤ 4 }
    ensures read { IfOk result (λ form. (verb : AnyVerb) → TakesStored verb ends
        → Fitted verb words.now → IsCommandOf verb words.now
        × IsStoredWord form (word words.now 1)) }
    ensures refused { IfErr result (λ usage. (verb : AnyVerb) → TakesStored verb ends
        → Fitted verb words.now → IsRefusedAt words.now usage.word) }
{
    let Some(form) = stored_of(words) else {
        return Err(Usage { word: 1 });
    };
    if has_word(words, ends) {
        return Err(Usage { word: ends as u32 });
    }
    Ok(form)
}

// The rest of `show` and of `convert`, which have no more words.
fn read_transcript(words: &Words) -> Result<(), Usage>
    ensures read { OnOk result ((verb : AnyVerb) → TakesName verb
        → Fitted verb words.now → IsCommandOf verb words.now) }
    ensures refused { IfErr result (λ usage. (verb : AnyVerb) → TakesName verb
        → Fitted verb words.now → IsRefusedAt words.now usage.word) }
{
    if has_word(words, 2) {
        return Err(Usage { word: 2 });
    }
    Ok(())
}

// The rest of `gen`.
fn read_gen(words: &Words) -> Result<Command, Usage>
    ensures command { IfOk result (λ command. Fitted Verb.Gen words.now
        → Spells words.now command) }
    ensures refused { IfErr result (λ usage. Fitted Verb.Gen words.now
        → IsRefusedAt words.now usage.word) }
{
    let Some(depth) = read_depth(words, 3) else {
        return Err(Usage { word: 3 });
    };
    if has_word(words, 4) {
        return Err(Usage { word: 4 });
    }
    Ok(Command::Gen { depth })
}

// The depth and the form of the stream, which are the rest of `lines` and of `widen`.
fn read_copy(words: &Words) -> Result<(Form, Depth), Usage>
    ensures read { IfOk result (λ copy. (verb : AnyVerb) → TakesStream verb
        → Fitted verb words.now → IsCommandOf verb words.now
        × HasForm copy.1 copy.0 (word words.now 1) × IsDepth copy.1 (word words.now 2)) }
    ensures refused { IfErr result (λ usage. (verb : AnyVerb) → TakesStream verb
        → Fitted verb words.now → IsRefusedAt words.now usage.word) }
{
    let Some(depth) = read_depth(words, 2) else {
        return Err(Usage { word: 2 });
    };
    let Some(form) = form_of(words, depth) else {
        return Err(Usage { word: 1 });
    };
    if has_word(words, 3) {
        return Err(Usage { word: 3 });
    }
    Ok((form, depth))
}

/// The command that words are.
///
/// # Errors
///
/// The number, from 0, of the first word such that the words up to it begin no command; where all
/// words begin one that is not whole, the number of words.
pub fn read_words(words: &Words) -> Result<Command, Usage>
    ensures command { IfOk result (Spells words.now) }
    ensures refused { IfErr result (λ usage. IsRefusedAt words.now usage.word) }
{
    let Some(verb) = verb_of(words) else {
        return Err(Usage { word: 0 });
    };
    check_shapes(words, verb.shapes())?;
    match verb {
        Verb::Verify => read_verify(words),
        Verb::Help => {
            read_link(words)?;
            Ok(Command::Help)
        }
        Verb::Audit => {
            let form = read_stored_form(words, 3)?;
            Ok(Command::Audit { form })
        }
        Verb::Show => {
            read_transcript(words)?;
            Ok(Command::Show)
        }
        Verb::Convert => {
            read_transcript(words)?;
            Ok(Command::Convert)
        }
        Verb::Gen => read_gen(words),
        Verb::Lines => {
            let (form, depth) = read_copy(words)?;
            Ok(Command::Lines { form, depth })
        }
        Verb::Widen => {
            let (form, depth) = read_copy(words)?;
            Ok(Command::Widen { form, depth })
        }
        Verb::Play => read_play(words),
        Verb::Lookup => read_looks(words),
        Verb::HelpLook => {
            read_link(words)?;
            Ok(Command::HelpLook)
        }
        Verb::Moments => read_moments(words),
        Verb::HelpMoments => {
            read_link(words)?;
            Ok(Command::HelpMoments)
        }
        Verb::Panel => read_panel(words),
        Verb::Serve => {
            let form = read_stored_form(words, 4)?;
            Ok(Command::Serve { form })
        }
    }
}
