//! Laws of the definitions. These functions do nothing: each contract is a fact that holds.

ghost use Rattle.std.specs.Prelude.{◌≡◌, ◌<◌, Bool, IfSome, IsTrue, Some, false};
ghost use Rattle.sip_vector.specs.Built.{is_built};
ghost use Rattle.sip_vector.specs.declared.query.Query.{Query as AnyQuery};
ghost use Rattle.sip_helper.specs.Kinds.{help_row};
ghost use Rattle.sip_helper.specs.KindRows.{out_of_turn, want_of_memory};
ghost use Rattle.sip_helper.specs.Vectors.{Vectors as AnyVectors};

/// The row of a kind that is built refuses neither as out of turn nor for want of memory. The row
/// of another kind always refuses as out of turn.
pub fn rows_go_by_what_is_built()
    ensures built { (query : AnyQuery) (vectors : AnyVectors) → IsTrue (is_built query)
        → IfSome ((help_row query).refused_by vectors)
        (λ code. (want_of_memory < code) × (code < out_of_turn)) }
    ensures others { (query : AnyQuery) (vectors : AnyVectors) → is_built query ≡ false
        → (help_row query).refused_by vectors ≡ Some out_of_turn }
{}
