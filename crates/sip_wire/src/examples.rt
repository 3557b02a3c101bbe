//! Worked examples of the definitions: each holds by computation.
#![tactic(auto, unfolding(crate::specs::Spelling::in_bytes, crate::specs::Spelling::spelled, crate::specs::Spelling::numbers_in, crate::specs::Spelling::has_room, crate::specs::Spelling::all_hold, crate::specs::Spelling::body_fault, crate::specs::Spelling::fits, crate::specs::Spelling::spelling, crate::specs::Spelling::kind_fault, crate::specs::Spelling::frame_fault, crate::specs::Spelling::asked, crate::specs::Reading::read_frame, crate::specs::Transcript::ask_bytes))]

ghost use Rattle.std.specs.Prelude.{◌≡◌, ℕ, List, [], ◌∷◌, ◌++◌};
ghost use Rattle.sip_vector.specs.declared.query.Query.TheVariants as queries;
ghost use Rattle.sip_wire.specs.declared.version.Version.TheVariants.{One, Two};
ghost use Rattle.sip_wire.specs.Examples.{AreSpelled, HaveFaults, above_frames, any_asks};
ghost use Rattle.sip_wire.specs.Examples.{found_faults, heavy_replies, held_faults, items_replies};
ghost use Rattle.sip_wire.specs.Examples.{look_frames, mark_faults, moment_replies, no_above};
ghost use Rattle.sip_wire.specs.Examples.{power_faults, power_frames, recall_frames, sent};
ghost use Rattle.sip_wire.specs.Examples.{stray_frames};
ghost use Rattle.sip_wire.specs.Transcript.{transcript};

/// What the verifier sends in the worked talk is spelled by its bytes, and read back off them.
pub fn sent_are_spelled()
    ensures { (rest : List ℕ) → AreSpelled One sent rest }
{}

/// So are the replies to its query for items.
pub fn items_replies_are_spelled()
    ensures { (rest : List ℕ) → AreSpelled One items_replies rest }
{}

/// So are the replies to a query for the second moment.
pub fn moment_replies_are_spelled()
    ensures { (rest : List ℕ) → AreSpelled One moment_replies rest }
{}

/// So are the replies to a query for heavy items.
pub fn heavy_replies_are_spelled()
    ensures { (rest : List ℕ) → AreSpelled One heavy_replies rest }
{}

/// What is asked of a lookup and what is found is spelled by its bytes, and read back off them, in
/// both versions.
pub fn look_frames_are_spelled()
    ensures one { (rest : List ℕ) → AreSpelled One look_frames rest }
    ensures two { (rest : List ℕ) → AreSpelled Two look_frames rest }
{}

/// So is what is asked of a moment, and each polynomial.
pub fn power_frames_are_spelled()
    ensures one { (rest : List ℕ) → AreSpelled One power_frames rest }
    ensures two { (rest : List ℕ) → AreSpelled Two power_frames rest }
{}

/// So is whatever is asked, also what no helper answers.
pub fn any_asks_are_spelled()
    ensures { (rest : List ℕ) → AreSpelled One any_asks rest }
{}

/// So is what a helper is to recall and what it holds, in both versions.
pub fn recall_frames_are_spelled()
    ensures one { (rest : List ℕ) → AreSpelled One recall_frames rest }
    ensures two { (rest : List ℕ) → AreSpelled Two recall_frames rest }
{}

/// So is a query for large entries of any stream, and a mark, in version 2.
pub fn above_frames_are_spelled()
    ensures { (rest : List ℕ) → AreSpelled Two above_frames rest }
{}

/// The faults where what a helper holds is awaited, where marks are, and those of marks in version
/// 1.
pub fn faults_of_held_and_marks()
    ensures held_one { HaveFaults One held_faults }
    ensures held_two { HaveFaults Two held_faults }
    ensures mark { HaveFaults Two mark_faults }
    ensures no_above { HaveFaults One no_above }
{}

/// The faults where a Found is awaited, where a power is, and where frames may not stand.
pub fn faults_of_looks_and_powers()
    ensures found { HaveFaults One found_faults }
    ensures power { HaveFaults Two power_faults }
    ensures stray { HaveFaults One stray_frames }
{}

/// The transcript of the worked talk: its head, the query and both challenges, and then the
/// replies.
pub fn transcript_of_the_talk()
    ensures { (replies : List ℕ) → transcript One 2 ((queries.Sub 1 2, 2 ∷ 10 ∷ []) ∷ []) replies
        ≡ 0x53 ∷ 0x49 ∷ 0x50 ∷ 0x54 ∷ 1 ∷ 2 ∷ 1
        ∷ 0x04 ∷ 0 ∷ 9 ∷ 1 ∷ 0 ∷ 0 ∷ 0 ∷ 1 ∷ 0 ∷ 0 ∷ 0 ∷ 2
        ∷ 0 ∷ 0 ∷ 0 ∷ 0 ∷ 0 ∷ 0 ∷ 0 ∷ 2
        ∷ 0 ∷ 0 ∷ 0 ∷ 0 ∷ 0 ∷ 0 ∷ 0 ∷ 10 ∷ replies }
{}
