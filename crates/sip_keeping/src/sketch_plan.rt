//! What the ports of a command that keeps a sketch are opened on.

ghost use Rattle.std.specs.Prelude.{◌≡◌, ℕ, List};
ghost use Rattle.sip_keeping.specs.SketchPlan.{AreNamed, file_opening, plan_of, stream_opening};
ghost use Rattle.sip_keeping.specs.Words.{Spells};

use crate::SketchCommand;
use sip_stream::Form;
use sip_words::Opening;

/// What the two sources of a run are opened on.
#[derive(Clone, Copy, Debug, PartialEq, Eq)]
pub struct SketchPlan {
    /// The stream.
    pub first: Opening,
    /// The seed.
    pub second: Opening,
}

// What the stream is opened on that word 2 names in this form.
fn stream(form: Form) -> Opening
    ensures { result ≡ stream_opening form }
{
    match form {
        Form::Binary => Opening::Path { word: 2, skip: 0 },
        Form::Text | Form::Wide => Opening::Path { word: 2, skip: 5 },
    }
}

/// What the sources are opened on of a command: for `begin` its seed and for
/// `watch` its stream, each of which its words name ([`Opening::name`]). Its desk is over the file
/// of number 0 ([`file_opening`]), and the parts of `merge` are the files behind it.
pub fn sketch_ports(command: &SketchCommand) -> SketchPlan
    ensures plan { result ≡ plan_of command.now }
    ensures named { (words : List (List ℕ)) → Spells command.now words
        → AreNamed command.now words }
{
    match command {
        SketchCommand::Begin { .. } => SketchPlan {
            first: Opening::Nothing,
            second: Opening::Path { word: 2, skip: 0 },
        },
        SketchCommand::Watch { form, .. } => SketchPlan {
            first: stream(*form),
            second: Opening::Nothing,
        },
        SketchCommand::Merge { .. } | SketchCommand::Seats => SketchPlan {
            first: Opening::Nothing,
            second: Opening::Nothing,
        },
    }
}

/// What the file of this number is opened on: 0 is the sketch, and k the k-th part.
pub fn file_opening(number: u32) -> Opening
    ensures { result ≡ file_opening number }
{
    Opening::Path {
        word: number as usize + 1,
        skip: 0,
    }
}
