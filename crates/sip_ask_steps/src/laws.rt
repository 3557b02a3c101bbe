//! What holds of a sketch that is asked without a link. These functions do nothing: each contract
//! is a fact that holds.

ghost use Rattle.std.specs.Prelude.{ℕ, List, ◌++◌, Some};
ghost use Rattle.std.specs.declared.option.Option.{Option};
ghost use Rattle.sip_ports.specs.Desk.{Loads};
ghost use Rattle.sip_ports.specs.Ports.{GoesOn};
ghost use Rattle.sip_ports.specs.declared.port.TalkEvent.{TalkEvent};
ghost use Rattle.sip_sketch.specs.Sketches.{spelled_file};
ghost use Rattle.sip_ask.specs.Runs.{IsRun, Run, events_came};
ghost use Rattle.sip_ask_steps.specs.Plans.{Ends, Plan};
ghost use Rattle.sip_ask_steps.specs.Steps.{IsDone, status_at};
ghost use Rattle.sip_ask_steps.specs.declared.machine.SketchAsking.{SketchAsking as AnyMachine};

use sip_ask::laws::an_ask_is_a_run;

/// Whatever the pieces, what was given out, taken and stored so far, in its order, is what an ask
/// did that ended so ([`ask`](sip_ask::ask)): by its status where it has ended, and by a fault of
/// the port that is next where it has not.
pub fn machines_are_asks()
    ensures { (p : Plan) (events : List TalkEvent) (m : AnyMachine) → IsDone p events m
        → Ends p events (status_at m.left.items m.step) }
{}

/// So it is a run over the file of its sketch, behind any talk: what is proved of runs is of it.
/// Wherever it is cut off, each content that the file may have has used the seats of all questions
/// of which something was said, and over any runs no seat serves two questions.
pub fn machines_are_runs()
    ensures { (p : Plan) (events : List TalkEvent) (m : AnyMachine) → IsDone p events m
        → (start : Option (List ℕ)) (talk : List TalkEvent)
        → Loads start (Some talk) (Some (spelled_file p.sketch))
        → (r : Run) × IsRun start talk r
        × GoesOn (Some talk) (Some (talk ++ events)) (events_came r) }
{
    an_ask_is_a_run();
}
