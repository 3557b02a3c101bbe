//! Laws of the words that the contracts of the ports are written in.

ghost use Rattle.std.specs.Prelude.{◌≡◌, ◌↔◌, ℕ, [], ◌∷◌, ◌++◌, List, true, false};
ghost use Rattle.std.specs.Prelude.{Some, option_map};
ghost use Rattle.std.specs.Io.KnownBytes.{Appends};
ghost use Rattle.std.specs.declared.option.Option.{Option};
ghost use Rattle.std.specs.Prelude.{None, ◌+◌, ◌<◌, ◌≤◌, length, take, Contains};
ghost use Rattle.sip_ports.specs.Calls.{failed_of, next_fails};
ghost use Rattle.sip_ports.specs.Desk.{IsOfLink, beside_after, held_after, holds_now, loaded};
ghost use Rattle.sip_ports.specs.Desk.{may_hold, steps};
ghost use Rattle.sip_ports.specs.Memory.{source_faults, source_is_sure, sink_faults, sink_is_sure};
ghost use Rattle.sip_ports.specs.Memory.{link_faults, link_is_sure};
ghost use Rattle.sip_ports.specs.Ports.{Rose, GoesOn, outs, ins, written, heard};
ghost use Rattle.sip_ports.specs.Ports.{received, ended_if};
ghost use Rattle.sip_ports.specs.declared.memory.MemorySource.{MemorySource as Source};
ghost use Rattle.sip_ports.specs.declared.memory.MemorySink.{MemorySink as Sink};
ghost use Rattle.sip_ports.specs.declared.memory.MemoryLink.{MemoryLink as Link};
ghost use Rattle.sip_ports.specs.Memory.{desk_file, desk_start, desk_talk};
ghost use Rattle.sip_ports.specs.declared.memory_desk.MemoryDesk.{MemoryDesk as Desk};
ghost use Rattle.sip_ports.specs.declared.port.TalkEvent.{TalkEvent};
ghost use Rattle.sip_ports.specs.declared.port.TalkEvent.TheVariants.{Out, In, Ended, Fresh};
ghost use Rattle.sip_ports.specs.declared.port.TalkEvent.TheVariants.{Stored, Renames, Kept};

/// A port over memory of which no call is to fail has 0 faults, for good.
#[tactic(auto, using(crate::specs::Calls::sure_ports))]
pub fn sure_ports_have_no_fault()
    ensures source { (port : Source) → source_is_sure port → source_faults port ≡ 0 }
    ensures sink { (port : Sink) → sink_is_sure port → sink_faults port ≡ 0 }
    ensures link { (port : Link) → link_is_sure port → link_faults port ≡ 0 }
{}

/// Where calls 2 and 4 are to fail, 2 of the first 5 calls failed, and the call after the first
/// fails.
pub fn failing_calls_are_counted()
    ensures none { failed_of (2 ∷ 4 ∷ []) 1 ≡ 0 }
    ensures both { failed_of (2 ∷ 4 ∷ []) 5 ≡ 2 }
    ensures second { next_fails (2 ∷ 4 ∷ []) 1 ≡ true }
    ensures third { next_fails (2 ∷ 4 ∷ []) 2 ≡ false }
{}

/// A talk tells what was sent and what was received apart.
#[tactic(auto, using(crate::proofs::TalkLemmas::two_sides))]
pub fn a_talk_has_two_sides()
    ensures sent { written (Out 1 ∷ In 2 ∷ Out 3 ∷ Ended ∷ []) ≡ 1 ∷ 3 ∷ [] }
    ensures came { heard (Out 1 ∷ In 2 ∷ Out 3 ∷ Ended ∷ []) ≡ 2 ∷ [] }
    ensures outs { (bytes : List ℕ) → written (outs bytes) ≡ bytes }
    ensures ins { (bytes : List ℕ) → heard (ins bytes) ≡ bytes }
{}

/// What is sent is not heard, and what is received is not written.
#[tactic(auto, using(crate::proofs::TalkLemmas::other_sides))]
pub fn sides_stay_apart()
    ensures sent { (bytes : List ℕ) → heard (outs bytes) ≡ [] }
    ensures came { (bytes : List ℕ) → written (ins bytes) ≡ [] }
{}

/// A talk in two parts has on each side what the first part has there, and then what the second
/// has.
#[tactic(auto, using(crate::proofs::TalkLemmas::parts))]
pub fn a_talk_comes_in_parts()
    ensures written { (talk more : List TalkEvent)
        → written (talk ++ more) ≡ written talk ++ written more }
    ensures heard { (talk more : List TalkEvent)
        → heard (talk ++ more) ≡ heard talk ++ heard more }
    ensures outs { (bytes more : List ℕ) → outs (bytes ++ more) ≡ outs bytes ++ outs more }
    ensures ins { (bytes more : List ℕ) → ins (bytes ++ more) ≡ ins bytes ++ ins more }
{}

/// Events that send bytes, or that receive bytes, tell which.
#[tactic(auto, using(crate::proofs::TalkLemmas::told_bytes))]
pub fn events_tell_their_bytes()
    ensures outs { (bytes other : List ℕ) → outs bytes ≡ outs other → bytes ≡ other }
    ensures ins { (bytes other : List ℕ) → ins bytes ≡ ins other → bytes ≡ other }
{}

/// A talk goes on by nothing, and by some events and then by others. One that is told stays told.
pub fn a_talk_goes_on()
    ensures nothing { (talk : Option (List TalkEvent)) → GoesOn talk talk [] }
    ensures steps { (a b c : Option (List TalkEvent)) (es fs : List TalkEvent)
        → GoesOn a b es → GoesOn b c fs → GoesOn a c (es ++ fs) }
    ensures told { (talk : List TalkEvent) (now : Option (List TalkEvent)) (es : List TalkEvent)
        → GoesOn (Some talk) now es → now ≡ Some (talk ++ es) }
{}

/// Where a talk is the bytes that a writer holds, sent, it goes on by sent bytes where those are
/// appended, and nowhere else.
#[tactic(auto, using(crate::proofs::TalkLemmas::told_as_sent))]
pub fn contents_are_a_talk()
    ensures { (old new : Option (List ℕ)) (bytes : List ℕ)
        → GoesOn (option_map outs old) (option_map outs new) (outs bytes) ↔ Appends old new bytes }
{}

/// A receive of nothing into a buffer that isn't empty is the end, and one into an empty buffer is
/// nothing.
pub fn receives_of_nothing()
    ensures end { received 0 (7 ∷ []) ≡ Ended ∷ [] }
    ensures nothing { received 0 [] ≡ [] }
    ensures short { ended_if 1 2 ≡ Ended ∷ [] }
    ensures full { ended_if 2 2 ≡ [] }
{}

/// A count at its type's end rises no more, and counts as risen.
pub fn a_full_count_has_risen()
    ensures rises { Rose 3 4 }
    ensures stays { ¬ Rose 3 3 }
    ensures full { Rose 18446744073709551615 18446744073709551615 }
{}

/// Over a file with byte 7 and a replacement by bytes 8 and 9: whenever a crash comes, the file is
/// the old one or the new one, whole. A file that is missing stays so until it is first renamed.
pub fn crashes_leave_whole_files()
    ensures steps { steps (8 ∷ 9 ∷ [])
        ≡ Fresh ∷ Stored 8 ∷ Stored 9 ∷ Renames ∷ Kept ∷ [] }
    ensures first { may_hold (Some (7 ∷ [])) [] ≡ Some (7 ∷ []) ∷ [] }
    ensures stored { may_hold (Some (7 ∷ [])) (Fresh ∷ Stored 8 ∷ Stored 9 ∷ [])
        ≡ Some (7 ∷ []) ∷ [] }
    ensures renames { may_hold (Some (7 ∷ [])) (Fresh ∷ Stored 8 ∷ Stored 9 ∷ Renames ∷ [])
        ≡ Some (7 ∷ []) ∷ Some (8 ∷ 9 ∷ []) ∷ [] }
    ensures kept { may_hold (Some (7 ∷ [])) (steps (8 ∷ 9 ∷ [])) ≡ Some (8 ∷ 9 ∷ []) ∷ [] }
    ensures again { may_hold (Some (7 ∷ [])) (Fresh ∷ Stored 8 ∷ Renames ∷ Fresh ∷ Renames ∷ [])
        ≡ Some (7 ∷ []) ∷ Some (8 ∷ []) ∷ Some [] ∷ [] }
    ensures missing { may_hold None (Out 1 ∷ Fresh ∷ In 2 ∷ Renames ∷ Ended ∷ [])
        ≡ None ∷ Some [] ∷ [] }
    ensures now { holds_now (Some (7 ∷ [])) (Fresh ∷ Stored 8 ∷ Renames ∷ Fresh ∷ Stored 9 ∷ [])
        ≡ Some (8 ∷ []) }
    ensures other { may_hold None (Out 1 ∷ In 2 ∷ Ended ∷ []) ≡ None ∷ [] }
{}

/// A missing file is loaded as none, and not as an empty one.
pub fn a_missing_file_is_no_empty_one()
    ensures missing { loaded None ≡ None }
    ensures empty { loaded (Some []) ≡ Some [] }
    ensures bytes { loaded (Some (7 ∷ [])) ≡ Some (7 ∷ []) }
{}

/// Behind each front of a replacement's steps the file may have what it might have before, and
/// behind the rename these bytes too; behind all of them it has these bytes alone.
#[tactic(auto, using(crate::proofs::DeskLemmas::crashes))]
pub fn a_replacement_keeps_the_old_or_the_new()
    ensures before { (start : Option (List ℕ)) (talk : List TalkEvent) (bytes : List ℕ) (n : ℕ)
        → n < length bytes + 2
        → may_hold start (talk ++ take n (steps bytes)) ≡ may_hold start talk }
    ensures renames { (start : Option (List ℕ)) (talk : List TalkEvent) (bytes : List ℕ) (n : ℕ)
        → n ≡ length bytes + 2
        → may_hold start (talk ++ take n (steps bytes)) ≡ may_hold start talk ++ Some bytes ∷ [] }
    ensures kept { (start : Option (List ℕ)) (talk : List TalkEvent) (bytes : List ℕ)
        → may_hold start (talk ++ steps bytes) ≡ Some bytes ∷ [] }
{}

/// What the link does changes nothing of the file.
#[tactic(auto, using(crate::proofs::DeskLemmas::of_link))]
pub fn the_link_leaves_the_file()
    ensures same { (start : Option (List ℕ)) (talk more : List TalkEvent)
        → IsOfLink more → may_hold start (talk ++ more) ≡ may_hold start talk }
    ensures parts { (talk more : List TalkEvent)
        → IsOfLink talk → IsOfLink more → IsOfLink (talk ++ more) }
    ensures outs { (bytes : List ℕ) → IsOfLink (outs bytes) }
    ensures ins { (bytes : List ℕ) → IsOfLink (ins bytes) }
    ensures ended { IsOfLink (Ended ∷ []) }
{}

/// What the file has where there was no crash is one of the contents that a crash may leave. It is
/// as it was until the rename of a replacement, and has the new bytes from there on.
#[tactic(auto, using(crate::proofs::DeskLemmas::without_crash))]
pub fn the_file_without_a_crash()
    ensures among { (start : Option (List ℕ)) (talk : List TalkEvent)
        → Contains (may_hold start talk) (holds_now start talk) }
    ensures link { (start : Option (List ℕ)) (talk more : List TalkEvent)
        → IsOfLink more → holds_now start (talk ++ more) ≡ holds_now start talk }
    ensures before { (start : Option (List ℕ)) (talk : List TalkEvent) (bytes : List ℕ) (n : ℕ)
        → n < length bytes + 2
        → holds_now start (talk ++ take n (steps bytes)) ≡ holds_now start talk }
    ensures renamed { (start : Option (List ℕ)) (talk : List TalkEvent) (bytes : List ℕ) (n : ℕ)
        → length bytes + 2 ≤ n
        → holds_now start (talk ++ take n (steps bytes)) ≡ Some bytes }
{}

/// A desk over memory has, and loads, what its talk tells of its file.
#[tactic(auto, using(crate::proofs::DeskLemmas::memory_desks))]
pub fn a_desk_in_memory_tells_its_file()
    ensures { (desk : Desk) → desk_file desk ≡ holds_now (desk_start desk) (desk_talk desk) }
{}

/// What a crash may leave behind a talk in two parts follows from what it may leave behind the
/// first, and from what stands beside the file there.
#[tactic(auto, using(crate::proofs::DeskLemmas::parts_of_desks))]
pub fn what_is_held_comes_in_parts()
    ensures talk { (start : Option (List ℕ)) (talk more : List TalkEvent)
        → may_hold start (talk ++ more)
        ≡ held_after (may_hold start talk) (beside_after [] talk) more }
    ensures held { (held : List (Option (List ℕ))) (beside : List ℕ) (talk more : List TalkEvent)
        → held_after held beside (talk ++ more)
        ≡ held_after (held_after held beside talk) (beside_after beside talk) more }
    ensures beside { (beside : List ℕ) (talk more : List TalkEvent)
        → beside_after beside (talk ++ more) ≡ beside_after (beside_after beside talk) more }
{}

/// A replacement sends nothing and receives nothing, however far it came. It has three steps more
/// than bytes.
#[tactic(auto, using(crate::proofs::DeskLemmas::unseen_steps))]
pub fn the_file_is_no_side()
    ensures written { (bytes : List ℕ) → written (steps bytes) ≡ [] }
    ensures heard { (bytes : List ℕ) → heard (steps bytes) ≡ [] }
    ensures written_front { (bytes : List ℕ) (n : ℕ) → written (take n (steps bytes)) ≡ [] }
    ensures heard_front { (bytes : List ℕ) (n : ℕ) → heard (take n (steps bytes)) ≡ [] }
    ensures count { (bytes : List ℕ) → length (steps bytes) ≡ length bytes + 3 }
{}
