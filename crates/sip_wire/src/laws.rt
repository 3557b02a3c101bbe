//! What the spellings are like, and how the definitions are tied to each other.

ghost use Rattle.std.specs.Prelude.{◌≡◌, ◌≢◌, ◌≤◌, ◌+◌, ◌*◌, ◌++◌, ◌↔◌, ℕ, ℤ, List, [], Ok, Err};
ghost use Rattle.std.specs.Prelude.{length, nat_abs, IsTrue, All, FitsSigned};
ghost use Rattle.std.specs.Int.{w64};
ghost use Rattle.sip_vector.specs.declared.query.Query.{Query as AnyQuery};
ghost use Rattle.sip_vector.specs.Answers.{Fits};
ghost use Rattle.sip_vector.specs.Limits.{most_depth};
ghost use Rattle.sip_wire.specs.declared.kind.Kind.{Kind as AnyKind};
ghost use Rattle.sip_wire.specs.declared.kind.Place.{Place as AnyPlace};
ghost use Rattle.sip_wire.specs.declared.message.Message.{Message as AnyMessage};
ghost use Rattle.sip_wire.specs.declared.message.Message.TheVariants as messages;
ghost use Rattle.sip_wire.specs.declared.message.WireFault.{WireFault as AnyFault};
ghost use Rattle.sip_wire.specs.declared.message.WireFault.TheVariants as faults;
ghost use Rattle.sip_wire.specs.declared.version.Version.{Version as AnyVersion};
ghost use Rattle.sip_wire.specs.declared.version.Version.TheVariants.{Two};
ghost use Rattle.sip_wire.specs.Table.{shape, size, update_fields, most_rows, most_claim};
ghost use Rattle.sip_wire.specs.Table.{longest_frame, allows, IsLengthOfMark};
ghost use Rattle.sip_wire.specs.Spelling.{fits, kind_of, spelling, asked};
ghost use Rattle.sip_wire.specs.Values.{InRange};
ghost use Rattle.sip_wire.specs.Versions.{Speaks, needed};
ghost use Rattle.sip_wire.specs.Reading.{read_frame};
ghost use Rattle.sip_wire.specs.Decoding.{IsBytes, Spelled};

/// A body may be as long as some mark makes it, and no other length.
pub fn lengths_are_those_of_marks()
    ensures { (version : AnyVersion) (kind : AnyKind) (n : ℕ)
        → IsTrue ((shape version kind).has_length n) ↔ IsLengthOfMark version kind n }
{}

/// No frame is longer than that of updates in full.
pub fn longest_frame_has_most_rows()
    ensures exact { longest_frame ≡ 3 + (2 + most_rows * size (update_fields Two)) }
    ensures most { (version : AnyVersion) (m : AnyMessage) → IsTrue (fits version m)
        → length (spelling version m) ≤ longest_frame }
{}

/// A claim has a spelling where its absolute value is at most 2^60 - 1.
pub fn claims_that_fit()
    ensures { (version : AnyVersion) (value : ℤ) → FitsSigned w64 value
        → IsTrue (fits version (messages.Claim value)) ↔ (nat_abs value ≤ most_claim) }
{}

/// No spelling begins another: where two with whatever follows are the same bytes, the messages are
/// the same, and the same follows.
pub fn one_spelling()
    ensures { (version : AnyVersion) (m n : AnyMessage) (x y : List ℕ) → IsTrue (fits version m)
        → IsTrue (fits version n)
        → spelling version m ++ x ≡ spelling version n ++ y
        → InRange m → InRange n → (m ≡ n) × (x ≡ y) }
{}

/// A spelling is read as its message, at every place that allows it, whatever follows.
pub fn spellings_are_read()
    ensures { (version : AnyVersion) (place : AnyPlace) (m : AnyMessage) (rest : List ℕ)
        → IsTrue (fits version m)
        → IsTrue (allows place (kind_of m)) → InRange m
        → read_frame version place (spelling version m ++ rest) ≡ Ok (m, rest) }
{}

/// What is read is spelled in front of the bytes.
pub fn messages_are_spelled()
    ensures { (version : AnyVersion) (place : AnyPlace) (bytes : List ℕ) (m : AnyMessage)
        (rest : List ℕ) → IsBytes bytes
        → read_frame version place bytes ≡ Ok (m, rest)
        → Spelled version place bytes m rest }
{}

/// What follows a frame changes nothing: its message stays, and so does a fault, unless more bytes
/// can mend it.
pub fn frames_stay()
    ensures message { (version : AnyVersion) (place : AnyPlace) (bytes more : List ℕ)
        (m : AnyMessage) (rest : List ℕ)
        → read_frame version place bytes ≡ Ok (m, rest)
        → read_frame version place (bytes ++ more) ≡ Ok (m, rest ++ more) }
    ensures fault { (version : AnyVersion) (place : AnyPlace) (bytes more : List ℕ) (f : AnyFault)
        → read_frame version place bytes ≡ Err f → f ≢ faults.Closed
        → read_frame version place (bytes ++ more) ≡ Err f }
{}

/// Where bytes are no more than a frame takes, no shorter front of them is a whole frame.
pub fn fronts_are_not_whole()
    ensures { (version : AnyVersion) (place : AnyPlace) (front more : List ℕ) → more ≢ []
        → length (front ++ more) ≤ asked version place (front ++ more)
        → read_frame version place front ≡ Err faults.Closed }
{}

/// A query that fits a depth has a spelling in each version in which it can be asked there, and
/// each query can be asked in the least version that the queries need.
pub fn queries_have_spellings()
    ensures fits { (version : AnyVersion) (depth : ℕ) (query : AnyQuery)
        → Speaks version depth query → Fits depth query
        → IsTrue (fits version (messages.Query query)) }
    ensures least { (depth : ℕ) (queries : List AnyQuery) → depth ≤ most_depth
        → All (Speaks (needed depth queries) depth) queries }
{}

/// What has a spelling in a version has one in version 2: no field is narrower there, and no mark
/// is missing.
pub fn version_2_has_room_for_each()
    ensures { (version : AnyVersion) (m : AnyMessage) → IsTrue (fits version m)
        → IsTrue (fits Two m) }
{}
