//! Turns of a panel worked out one by one. These functions do nothing: each contract holds by
//! computation.

ghost use Rattle.std.specs.Prelude.{◌≡◌, ◌++◌, [], ◌∷◌, codes};
ghost use Rattle.sip_vector.specs.declared.query.Query.TheVariants.{Inner, Sub};
ghost use Rattle.sip_session.specs.PanelEnds.{lines};
ghost use Rattle.sip_session.specs.PanelExamples.{three_helpers};
ghost use Rattle.sip_session.specs.Panels.{AreInTurn, first_turn, seat_at, seat_queries};
ghost use Rattle.sip_session.specs.Panels.{turn_behind};

/// Of three helpers the second one has the fifth seat at the second query, which is number 4 from 0
/// on. Two queries of two helpers have four seats.
pub fn seats_by_hand()
    ensures number { seat_at 3 (record { helper = 2; number = 2 }) ≡ 4 }
    ensures queries { seat_queries 2 (Sub 0 0 ∷ Inner ∷ [])
        ≡ Sub 0 0 ∷ Sub 0 0 ∷ Inner ∷ Inner ∷ [] }
{}

/// Three helpers and two queries: two helpers are dropped, and then the third one would be asked
/// the third query. Each attempt has its line.
pub fn turns_by_hand()
    ensures turns { AreInTurn first_turn three_helpers }
    ensures behind { turn_behind first_turn three_helpers ≡ record { helper = 3; number = 3 } }
    ensures lines { lines three_helpers
        ≡ codes "dropped helper 1 query 1 round 2 Root" ++ 10 ∷ codes "sub:0:0 none" ++ 10
        ∷ codes "dropped helper 2 query 2 round 0 Closed" ++ 10 ∷ codes "sub:0:0 none" ++ 10 ∷ [] }
{}
