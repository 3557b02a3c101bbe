//! Laws of the file, and of crashes while it is stored. These functions do nothing: each contract
//! is a fact that holds.

ghost use Rattle.std.specs.Prelude.{◌≡◌, ◌⊎◌, ◌<◌, ◌++◌, ℕ, List, [], ◌∷◌, Ok, All, None, Some};
ghost use Rattle.std.specs.Prelude.{Contains, take};
ghost use Rattle.std.specs.declared.option.Option.{Option};
ghost use Rattle.sip_ports.specs.Desk.{may_hold};
ghost use Rattle.sip_ports.specs.declared.port.TalkEvent.{TalkEvent};
ghost use Rattle.sip_sketch.specs.Beginnings.{Begins, IsFirstFile, IsNew};
ghost use Rattle.sip_sketch.specs.Joining.{same_shape};
ghost use Rattle.sip_sketch.specs.Merging.{IsNewFile, Merges, Sums};
ghost use Rattle.sip_sketch.specs.Watching.{IsOwnFile, Watches};
ghost use Rattle.sip_stream.specs.declared.form.Form.{Form};
ghost use Rattle.sip_sketch.specs.Fields.{AreValues, Fields, read, spelling};
ghost use Rattle.sip_sketch.specs.Sketches.{IsSketch, SketchValues, numbers};
ghost use Rattle.sip_sketch.specs.declared.kind.SeatKind.{SeatKind};
ghost use Rattle.sip_sketch.specs.declared.parts.Parts.{Parts};
ghost use Rattle.sip_sketch.specs.declared.status.SketchStatus.{SketchStatus};
ghost use Rattle.sip_sketch.specs.declared.status.SketchStatus.TheVariants as statuses;

/// Whatever the fields: what is read are values of the fields that spell the file, and the file
/// that values of the fields spell is read as these.
pub fn reading_is_exact()
    ensures found { (fields : Fields) (bytes values : List ℕ) → All (λ b. b < 256) bytes
        → read fields bytes ≡ Ok values
        → AreValues fields values × (bytes ≡ spelling fields values) }
    ensures only { (fields : Fields) (values : List ℕ) → AreValues fields values
        → read fields (spelling fields values) ≡ Ok values }
{}

/// Two sketches that a file can have, and that have the same numbers, are the same.
pub fn numbers_tell_sketches_apart()
    ensures { (one other : SketchValues) → IsSketch one → IsSketch other
        → numbers one ≡ numbers other → one ≡ other }
{}

/// Whenever a crash comes while a sketch is begun, the file has what it might have before, or it is
/// the whole file of the call, which the sketch of the empty stream has. Behind `Wrote` it is that.
pub fn a_begin_leaves_whole_files()
    ensures crash { (depth : ℕ) (part : Parts) (kinds : List SeatKind)
        (left start : Option (List ℕ)) (talk events : List TalkEvent) (status : SketchStatus)
        (n : ℕ) (content : Option (List ℕ))
        → Begins depth part kinds left start (Some talk) (Some (talk ++ events)) status
        → Contains (may_hold start (talk ++ take n events)) content
        → Contains (may_hold start talk) content ⊎ IsNew depth part kinds left content }
    ensures kept { (depth : ℕ) (part : Parts) (kinds : List SeatKind)
        (left start : Option (List ℕ)) (talk now : List TalkEvent)
        → Begins depth part kinds left start (Some talk) (Some now) statuses.Wrote
        → (file : List ℕ) × IsFirstFile depth part kinds left file
        × (may_hold start now ≡ Some file ∷ []) }
{}

/// Whenever a crash comes while a stream is watched, the file has what it might have before, or is
/// one that the call stored, whole: that of the sketch to which a front of the added records came,
/// as many as a multiple of `every`, or all.
pub fn a_watch_leaves_whole_files()
    ensures { (form : Form) (at every : Option ℕ) (start left more : Option (List ℕ))
        (talk events : List TalkEvent) (n : ℕ) (content : Option (List ℕ))
        → Contains (may_hold start (talk ++ take n events)) content → (status : SketchStatus)
        → Watches form at every start left (Some talk) more (Some (talk ++ events)) status
        → Contains (may_hold start talk) content ⊎ IsOwnFile every start (Some talk) content }
{}

/// Whenever a crash comes while parts are added up, the file has what it might have before, or it
/// is the file of the sum of all parts, whole, of which no used seat is unused.
pub fn a_merge_leaves_whole_files()
    ensures { (files : Option (ℕ → Option (List ℕ))) (count : ℕ) (start : Option (List ℕ))
        (talk events : List TalkEvent) (status : SketchStatus) (n : ℕ)
        (content : Option (List ℕ))
        → Merges files count start (Some talk) (Some (talk ++ events)) status
        → Contains (may_hold start (talk ++ take n events)) content
        → Contains (may_hold start talk) content
        ⊎ IsNewFile files count start (Some talk) content }
{}

/// That a part has the shape of the parts before it says that it has the shape of the sketch in
/// whose place they are added up, where there is one, and else of the first part.
pub fn a_sum_has_one_shape()
    ensures sketch { (sketch : SketchValues) (parts : List SketchValues) (sum part : SketchValues)
        → Sums (Some sketch) parts sum → same_shape sum part ≡ same_shape sketch part }
    ensures first { (first : SketchValues) (parts : List SketchValues) (sum part : SketchValues)
        → Sums None (first ∷ parts) sum → same_shape sum part ≡ same_shape first part }
{}
