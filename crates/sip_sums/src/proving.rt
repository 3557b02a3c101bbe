//! Laws of the prover's side. These functions do nothing: each contract is a fact that holds.

ghost use Rattle.std.specs.Prelude.{◌≡◌, ℕ, ◌+◌, ◌^◌, ◌<◌, ◌≤◌, ℤ, List, [], ◌∷◌, ◌++◌, length};
ghost use Rattle.std.specs.Prelude.{nat_abs, All, Some};
ghost use Rattle.sip_vector.specs.Answers.{answer, number};
ghost use Rattle.sip_vector.specs.Streams.{IsLegal};
ghost use Rattle.sip_vector.specs.declared.query.Query.{Query};
ghost use Rattle.sip_vector.specs.declared.update.Update.{Update};
ghost use Rattle.sip_wire.specs.Table.{most_claim};
ghost use Rattle.sip_sums.specs.AcceptsSum.{total};
ghost use Rattle.sip_sums.specs.Honest.{begun, its_polynomial, learnt, proving, round_polynomial};
ghost use Rattle.sip_sums.specs.Questions.{Lists, lists_of};

/// The sum over the pairs of two lists that were folded by the challenges so far is the sum over
/// the cube: so a prover that folds its lists gives the true polynomial of each round.
pub fn polynomials_over_the_cube()
    ensures { (p : ℕ) (first second : List ℤ) (revealed : List ℕ) (n : ℕ)
        → 1 < p → All (λ r. r < p) revealed
        → length first ≡ 2 ^ (length revealed + n + 1) → length second ≡ length first
        → its_polynomial p (proving p first second revealed)
        ≡ round_polynomial p first second revealed n }
{}

/// A prover begins at the residues of both lists, and one more challenge folds them once more.
pub fn provers_go_on()
    ensures begun { (p : ℕ) (first second : List ℤ)
        → proving p first second [] ≡ begun p first second }
    ensures learnt { (p : ℕ) (first second : List ℤ) (revealed : List ℕ) (r : ℕ)
        → proving p first second (revealed ++ r ∷ [])
        ≡ learnt p (proving p first second revealed) r }
{}

/// The answer to a query for a sum is the sum of the products of its two lists.
pub fn answers_are_sums_of_products()
    ensures { (depth : ℕ) (stream : List Update) (query : Query) (l : Lists)
        → lists_of depth stream query ≡ Some l
        → answer depth stream query ≡ number (total l.first l.second) }
{}

/// Each sum over the vectors of a legal stream fits a frame.
pub fn claims_fit()
    ensures { (depth : ℕ) (stream : List Update) (query : Query) (l : Lists)
        → IsLegal depth stream → lists_of depth stream query ≡ Some l
        → nat_abs (total l.first l.second) ≤ most_claim }
{}
