//! Laws of replies, whatever their protocol. These functions do nothing.

ghost use Rattle.std.specs.Prelude.{◌≡◌, ℕ, List, ◌∷◌, ◌++◌, length, Ok, Err};
ghost use Rattle.sip_wire.specs.declared.message.Reason.TheVariants.{Closed, BadLength};
ghost use Rattle.sip_ports.specs.declared.port.TalkEvent.{TalkEvent as AnyEvent};
ghost use Rattle.sip_vector.specs.declared.update.Entry.{Entry as AnyEntry};
ghost use Rattle.sip_wire.specs.declared.message.Message.{Message as AnyMessage};
ghost use Rattle.sip_replies.specs.declared.turn.Turn.{Turn as AnyTurn};
ghost use Rattle.sip_replies.specs.Feeding.{IsFed, Means};
ghost use Rattle.sip_replies.specs.Protocols.{Rules};
ghost use Rattle.sip_replies.specs.Replies.{joined, read_reply, run};

use crate::check::Check;

/// A whole reply is no front of another: a front of it is not whole, and one byte more is too many.
pub fn whole_replies_end<C: Check>()
    ensures front { (rules : Rules C.State) (s : C.State) (front : List ℕ) (byte : ℕ)
        (more : List ℕ)
        (t : C.State) → read_reply rules s (front ++ byte ∷ more) ≡ Ok t
        → read_reply rules s front ≡ Err Closed }
    ensures full { (rules : Rules C.State) (s : C.State) (bytes : List ℕ) (byte : ℕ) (more : List ℕ)
        (t : C.State) → read_reply rules s bytes ≡ Ok t
        → read_reply rules s (bytes ++ byte ∷ more) ≡ Err BadLength }
{}

/// Whole replies are determined by their bytes, one after another: and so is what follows them.
pub fn bytes_tell_whole_replies<C: Check>()
    ensures { (rules : Rules C.State) (block : List ℕ) (some others : List (List ℕ))
        (rest last : List ℕ) (t u : C.State) → run rules block some ≡ Ok t
        → run rules block others ≡ Ok u → length others ≡ length some
        → joined some ++ rest ≡ joined others ++ last → (some ≡ others) × (rest ≡ last) }
{}

/// What a turn is fed, in any pieces, is a talk as whoever asks over a link has it: a verdict is
/// the answer of that talk, and while the turn hears no answer is possible by the bytes so far.
pub fn feeding_is_asking<C: Check>()
    ensures { (asked : C.Asked) (request : AnyMessage) (block : List ℕ) (events : List AnyEvent)
        (check : C) (places : List AnyEntry) (turn : AnyTurn) (part : List ℕ)
        → IsFed (C.protocol asked) request block events (λ s. C.stands asked s check places) places
        turn part → Means (C.protocol asked) request block events places turn.stage }
{}
