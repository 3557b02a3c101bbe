//! What holds of both ends. These functions do nothing: each contract is a fact that holds.

ghost use Rattle.std.specs.Prelude.{◌≡◌, ℕ, List, Some, [], false, true};
ghost use Rattle.std.specs.declared.result.Result.{Result as AnyResult};
ghost use Rattle.sip_ports.specs.declared.port.TalkEvent.{TalkEvent as AnyEvent};
ghost use Rattle.sip_wire.specs.declared.message.Message.{Message as AnyMessage};
ghost use Rattle.sip_replies.specs.Feeding.{Means};
ghost use Rattle.sip_replies.specs.Following.{is_hearing};
ghost use Rattle.sip_vector.specs.declared.update.Update.{Update as AnyUpdate};
ghost use Rattle.sip_verifier.specs.declared.asker.Unanswered.{Unanswered as AnyUnanswered};
ghost use Rattle.sip_verifier.specs.runs.Askers.{Asks};
ghost use Rattle.sip_lookup.specs.declared.answer.LookAnswer.{LookAnswer as AnyAnswer};
ghost use Rattle.sip_lookup.specs.Questions.{looking};
ghost use Rattle.sip_lookup.specs.Sittings.{looked_of};
ghost use Rattle.sip_steps.specs.declared.asking.Asking.{Asking as AnyAsking};
ghost use Rattle.sip_steps.specs.declared.looking.Looking.{Looking as AnyLooking};
ghost use Rattle.sip_steps.specs.Looked as looked;
ghost use Rattle.sip_steps.specs.Looked.{IsLooked, IsRootOf, SaysLooked};
ghost use Rattle.sip_steps.specs.Asked.{IsAsked};
ghost use Rattle.sip_steps.specs.declared.posing.Posing.{Posing as AnyPosing};
ghost use Rattle.sip_steps.specs.Openings.{IsOf, Subject};
ghost use Rattle.sip_steps.specs.Posed.{ComesOf, IsPosed, Waits, WaitsFor, asked_at, pairs_at};
ghost use Rattle.sip_steps.specs.Posed.{stage_at};
ghost use Rattle.sip_questions.specs.Questions.{asking};
ghost use Rattle.sip_steps.specs.declared.question.QuestionAsking.{QuestionAsking as AnyQuestion};
ghost use Rattle.sip_steps.specs.Questioned as questioned;
ghost use Rattle.sip_steps.specs.Questioned.{About, IsAskedOf, is_due_at, is_hearing_at};
ghost use Rattle.sip_steps.specs.Questioned.{is_open_at};

use sip_replies::{Check, Request};

/// Whatever the pieces, the bytes that were given out and taken, in their order, are a talk as
/// whoever asks over a link has it. A verdict is the answer of that talk. While bytes are to come
/// all that was due was sent, and no answer is possible by the bytes so far.
pub fn steps_are_ask<C: Check + Drop, Q: Request + Drop>()
    ensures { (asked : C.Asked) (request : AnyMessage) (block : List ℕ) (events : List AnyEvent)
        (a : AnyAsking C Q) → IsAsked (C.protocol asked) (C.stands asked) C.phase Q.message request
        block events a → Means (C.protocol asked) request block events a.places.items a.turn.stage }
{}

/// The same of a question of any kind that is asked by one message, about each stream whose numbers
/// it is judged by: the talk is one as whoever asks over a link has it, with the answer of that
/// talk. While bytes are to come all that was due was said, and no answer is possible by it.
pub fn posings_are_asked()
    ensures comes { (s : Subject) (stream : List AnyUpdate) (events : List AnyEvent)
        (p : AnyPosing) → IsOf s stream → IsPosed s events p
        → ComesOf s stream events (pairs_at p) (asked_at (stage_at p)) s.opening }
    ensures waits { (s : Subject) (stream : List AnyUpdate) (events : List AnyEvent)
        (p : AnyPosing) → IsOf s stream → IsPosed s events p → is_hearing (stage_at p) ≡ true
        → WaitsFor s stream events s.opening }
{}

/// The same of a lookup, about each stream of whose side 0 it has the root, at one challenge at
/// least.
pub fn lookups_are_asked()
    ensures comes { (stream : List AnyUpdate) (events : List AnyEvent) (l : AnyLooking)
        (said : AnyResult AnyAnswer AnyUnanswered) → IsRootOf l stream
        → IsLooked l.root.seat l.root.value events l
        → SaysLooked l.depth l.lookup l.step (Some said)
        → Asks (looking l.version l.depth stream) (l.lookup, l.root.seat) (Some []) (Some events)
        (λ given answer. looked_of given ≡ answer) said }
    ensures waits { (stream : List AnyUpdate) (events : List AnyEvent) (l : AnyLooking)
        → IsRootOf l stream → IsLooked l.root.seat l.root.value events l
        → looked.is_hearing_at l.step ≡ true
        → Waits (looking l.version l.depth stream) l.lookup l.root.seat events }
{}

/// While bytes of a question of any kind are to come, all that was due was said, and no answer is
/// possible by it, about each stream whose numbers it is judged by. What is said of it once there
/// is a verdict is a clause of [`verdict`](crate::QuestionAsking::verdict).
pub fn questions_wait()
    ensures { (q : About) (stream : List AnyUpdate) (events : List AnyEvent) (a : AnyQuestion)
        → questioned.IsOf q stream → IsAskedOf q events a → is_hearing_at a ≡ true
        → Waits (asking q.version q.depth stream) q.question q.block events }
{}

/// While there is no verdict on a question of any kind, bytes are due or are to come, and never
/// both.
pub fn questions_go_on()
    ensures goes_on { (a : AnyQuestion) → is_open_at a ≡ true → is_due_at a ≡ false
        → is_hearing_at a ≡ true }
    ensures one { (a : AnyQuestion) → is_hearing_at a ≡ true → is_due_at a ≡ false }
{}
