//! Laws of what an ask does to the file of its sketch, and of how many challenges a helper can win
//! by. These functions do nothing: each contract is a fact that holds.

ghost use Rattle.std.specs.Prelude.{◌≡◌, ◌≢◌, ℕ, ◌*◌, ◌-◌, ◌^◌, ◌<◌, ◌≤◌, true, List, [], ◌++◌};
ghost use Rattle.std.specs.Prelude.{length, map, take, flat_map, slice_index_or, All, Contains, Ok};
ghost use Rattle.std.specs.Prelude.{None, Some};
ghost use Rattle.std.specs.declared.option.Option.{Option};
ghost use Rattle.sip_field.specs.Moduli.{m61_modulus};
ghost use Rattle.sip_counts.specs.Late.{fooled_late, plan_bounds, some_fooled};
ghost use Rattle.sip_ports.specs.Desk.{IsOfLink, may_hold};
ghost use Rattle.sip_ports.specs.Ports.{GoesOn};
ghost use Rattle.sip_ports.specs.declared.port.TalkEvent.{TalkEvent};
ghost use Rattle.sip_vector.specs.Limits.{most_depth};
ghost use Rattle.sip_vector.specs.Streams.{IsLegal};
ghost use Rattle.sip_vector.specs.declared.update.Update.{Update};
ghost use Rattle.sip_stream.specs.Records.{records};
ghost use Rattle.sip_stream.specs.Spellings.{all_spelled};
ghost use Rattle.sip_stream.specs.declared.form.Form.{Form};
ghost use Rattle.sip_stream.specs.declared.form.Form.TheVariants.{Wide};
ghost use Rattle.sip_wire.specs.declared.version.Version.{Version};
ghost use Rattle.sip_verifier.specs.Snapshots.{Counts};
ghost use Rattle.sip_questions.specs.Honest.{answer};
ghost use Rattle.sip_questions.specs.Questions.{AcceptsOf, Answered, Posed};
ghost use Rattle.sip_questions.specs.declared.question.Question.{Question};
ghost use Rattle.sip_sketch.specs.Beginnings.{Begins};
ghost use Rattle.sip_sketch.specs.Merging.{Merges};
ghost use Rattle.sip_sketch.specs.Sketches.{IsSketch, SeatValues, SketchValues};
ghost use Rattle.sip_sketch.specs.Standing.{Stands};
ghost use Rattle.sip_sketch.specs.Watching.{Watches};
ghost use Rattle.sip_sketch.specs.declared.kind.SeatKind.{SeatKind};
ghost use Rattle.sip_sketch.specs.declared.parts.Parts.{Parts};
ghost use Rattle.sip_sketch.specs.declared.status.SketchStatus.{SketchStatus};
ghost use Rattle.sip_ask.specs.Asking.{Asks, IsInTalk};
ghost use Rattle.sip_ask.specs.Causes.{HasRisen};
ghost use Rattle.sip_ask.specs.Choosing.{choice};
ghost use Rattle.sip_ask.specs.Counting.{IsCounted, IsSound, LedTo, SeatPlan, challenges_in};
ghost use Rattle.sip_ask.specs.Counting.{plan_of};
ghost use Rattle.sip_ask.specs.Marking.{HasUsed, KeepsUsed, is_used_at, mark};
ghost use Rattle.sip_ask.specs.Promises.{AskClauses};
ghost use Rattle.sip_ask.specs.Runs.{AreRuns, IsRun, NoSeatTwice, Run, events_came};
ghost use Rattle.sip_ask.specs.Turns.{AreTurns, Turn, places_said, turn_events};
ghost use Rattle.sip_ask.specs.declared.status.AskStatus.{AskStatus};

use sip_questions::laws::runs_keep_their_promises;

/// A sketch with one more used seat is one that a file can have. Its seats are the same, with their
/// kinds and their challenges: that one is used, each other one is as it was.
pub fn a_marked_sketch_is_the_same()
    ensures is { (s : SketchValues) (place : ℕ) → IsSketch s → IsSketch (mark place s) }
    ensures keeps { (s : SketchValues) (place : ℕ) → KeepsUsed s (mark place s) }
    ensures used { (s : SketchValues) (place : ℕ) → place < length s.seats
        → is_used_at place (mark place s).seats ≡ true }
    ensures other { (s : SketchValues) (place k : ℕ) (seat : SeatValues) → k ≢ place
        → slice_index_or (mark place s).seats k seat ≡ slice_index_or s.seats k seat }
{}

/// A question is said only where no crash can leave its seat unused: wherever a talk is cut off,
/// each content that the file may have then has used the seats of all turns in which something was
/// said.
pub fn said_only_where_used()
    ensures { (start : Option (List ℕ)) (talk opened behind : List TalkEvent)
        (s : SketchValues) (turns : List Turn) (count place : ℕ)
        (content : Option (List ℕ)) → IsSketch s
        → IsOfLink opened → AreTurns s turns → IsOfLink behind
        → Contains (places_said (count - length opened) turns) place
        → Contains (may_hold start
        (talk ++ take count (opened ++ (flat_map turn_events turns ++ behind)))) content
        → HasUsed place content }
{}

/// Over whatever runs that begin a sketch, watch a stream for it, merge its parts and ask it, each
/// of which may be cut off at any event, no seat serves two questions.
pub fn no_seat_serves_two_questions()
    ensures { (start : Option (List ℕ)) (talk : List TalkEvent) (runs : List Run)
        → AreRuns start talk runs → NoSeatTwice runs }
{}

/// What a call did that asks questions ([`ask`](crate::ask)) is a run over the file of its sketch,
/// behind any talk that is told: where it sent anything, it had loaded a sketch, and all that it
/// did to the file and said of questions are its turns. So the laws of runs are of asks.
pub fn an_ask_is_a_run()
    ensures { (asked : List Question) (start : Option (List ℕ)) (talk : List TalkEvent)
        (new blank full : Option (List TalkEvent)) (status : AskStatus)
        → Asks asked start (Some talk) new blank full status
        → (r : Run) × IsRun start talk r × GoesOn (Some talk) new (events_came r) }
{}

/// So is what a call did that begins a sketch, watches a stream for it or adds up its parts: each
/// file that it stored is that of a sketch in which no seat is unused that was used in the one that
/// it loaded.
pub fn what_keeps_a_sketch_is_a_run()
    ensures begin { (depth : ℕ) (part : Parts) (kinds : List SeatKind)
        (left start : Option (List ℕ)) (talk : List TalkEvent)
        (new : Option (List TalkEvent)) (status : SketchStatus)
        → Begins depth part kinds left start (Some talk) new status
        → (r : Run) × IsRun start talk r × GoesOn (Some talk) new (events_came r) }
    ensures watch { (form : Form) (at every : Option ℕ) (start left rest : Option (List ℕ))
        (talk : List TalkEvent) (new : Option (List TalkEvent)) (status : SketchStatus)
        → Watches form at every start left (Some talk) rest new status
        → (r : Run) × IsRun start talk r × GoesOn (Some talk) new (events_came r) }
    ensures merge { (files : Option (ℕ → Option (List ℕ))) (count : ℕ) (start : Option (List ℕ))
        (talk : List TalkEvent) (new : Option (List TalkEvent)) (status : SketchStatus)
        → Merges files count start (Some talk) new status
        → (r : Run) × IsRun start talk r × GoesOn (Some talk) new (events_came r) }
{}

/// An ask keeps the five promises of a run of questions, over each stream that the loaded sketch
/// stands for, as if that had passed through the talk.
pub fn asks_keep_their_promises()
    ensures { (asked : List Question) (start : Option (List ℕ))
        (old new blank full : Option (List TalkEvent)) (status : AskStatus)
        (t : IsInTalk asked start old new blank full status) (before now : Counts)
        → HasRisen before.peer now.peer before.report now.report status
        → AskClauses asked t.s t.places old new blank full before now status }
{
    runs_keep_their_promises();
}

/// Each legal stream has bytes that are read back as it, to their end: so there is an exchange of
/// which an ask keeps these promises.
pub fn each_legal_stream_has_bytes()
    ensures { (depth : ℕ) (stream : List Update) → depth ≤ most_depth → IsLegal depth stream
        → records depth Wide (all_spelled Wide stream)
        ≡ record { legal = stream; fault = None } }
{}

/// However helpers reply to the questions of all seats of a sketch, in whatever order these are
/// asked, some seat has a wrong answer accepted at no more of the vectors of all challenges than
/// the sum of the seats' bounds, times p^(N - 1), p being 2^61 - 1 and N the number of challenges.
pub fn few_vectors_mislead_a_sketch()
    ensures { (depth : ℕ) (plans : List SeatPlan) → 0 < depth → All (IsSound depth) plans
        → fooled_late m61_modulus depth (map (plan_of depth) plans)
        ≤ plan_bounds (map (plan_of depth) plans)
        * m61_modulus ^ (length (map (plan_of depth) plans) * depth - 1) }
{}

/// Where replies are accepted that state a wrong answer, the challenges of the sketch are such a
/// vector, whatever the plans of the other seats are.
pub fn a_wrong_answer_is_counted()
    ensures { (s : SketchValues) (plans : List SeatPlan) (place : ℕ) (plan : SeatPlan)
        (seat : SeatValues) (version : Version) (stream : List Update) (q : Posed)
        (written : Answered)
        → IsSketch s → place < length s.seats → place < length plans
        → slice_index_or plans place plan ≡ plan → slice_index_or s.seats place seat ≡ seat
        → q.block ≡ seat.block → LedTo s.seats place plan version stream q
        → IsCounted s.depth (record { version = version; stream = stream; question = q.query })
        → AcceptsOf version s.depth stream q q.query written
        → written ≢ answer s.depth stream q.query
        → some_fooled s.depth (map (plan_of s.depth) plans) [] (challenges_in s.seats) ≡ true }
{}

/// The questions for which a sketch has seats can be counted, whatever the stream is that it stands
/// for: all that this asks is tested before anything is said.
pub fn what_is_asked_can_be_counted()
    ensures { (s : SketchValues) (stream : List Update) (version : Version)
        (asked : List Question) (places : List (Option ℕ)) → Stands stream s
        → choice s asked ≡ Ok places → All (λ question. IsCounted s.depth
        (record { version = version; stream = stream; question = question })) asked }
{}
