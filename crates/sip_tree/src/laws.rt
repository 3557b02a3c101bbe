//! Laws of both trees. These functions do nothing: each contract is a fact that holds.
ghost use Rattle.std.specs.Prelude.{◌≡◌, ℕ, ◌+◌, ◌-◌, ◌*◌, ◌%◌, ◌^◌, ◌<◌, ◌≤◌, ℤ, pos, ◌+ℤ◌, List};
ghost use Rattle.std.specs.Prelude.{[], ◌∷◌, ◌++◌, true, false, length, map, take, replicate};
ghost use Rattle.std.specs.Prelude.{slice_index};
ghost use Rattle.sip_field.specs.Moduli.{m61_modulus};
ghost use Rattle.sip_field.specs.Residue.{residue};
ghost use Rattle.sip_vector.specs.Lines.{added_numbers, IsLinear, AddsUp};
ghost use Rattle.sip_vector.specs.Streams.{same_side, vector};
ghost use Rattle.sip_vector.specs.Trees.{up, tree, root, augroot};
ghost use Rattle.sip_vector.specs.Weights.{raised_numbers, node_weight, weight_above, weighted_sum};
ghost use Rattle.sip_vector.specs.Weights.{hash_weight};
ghost use Rattle.sip_vector.specs.declared.update.Side.{Side as AnySide};
ghost use Rattle.sip_vector.specs.declared.update.Update.{Update as AnyUpdate};

/// An entry that is raised raises the root by what was added times the entry's weight, and the
/// count by what was added.
pub fn roots_of_a_raised_entry()
    ensures root { (p : ℕ) (numbers : List ℤ) (challenges : List ℕ) (i : ℕ) (delta : ℤ)
        → 0 < p → length numbers ≡ 2 ^ length challenges → i < length numbers
        → root p (raised_numbers numbers i delta) challenges
        ≡ (root p numbers challenges + residue p delta * node_weight p i challenges) % p }
    ensures hash { (p : ℕ) (numbers : List ℤ) (challenges : List ℕ) (i : ℕ) (delta : ℤ)
        → 0 < p → length numbers ≡ 2 ^ length challenges → i < length numbers
        → (augroot p (raised_numbers numbers i delta) challenges).hash
        ≡ ((augroot p numbers challenges).hash + residue p delta * hash_weight p i challenges) % p }
    ensures count { (p : ℕ) (numbers : List ℤ) (challenges : List ℕ) (i : ℕ) (delta : ℤ)
        → 0 < p → length numbers ≡ 2 ^ length challenges → i < length numbers
        → (augroot p (raised_numbers numbers i delta) challenges).count
        ≡ (augroot p numbers challenges).count +ℤ delta }
{}

/// Of an entrywise sum of numbers, and so of two streams, one behind the other, the root and the
/// hash are the sums modulo p, and the count is the sum.
pub fn roots_add_up()
    ensures root { IsLinear root }
    ensures hash { IsLinear (λ p numbers challenges. (augroot p numbers challenges).hash) }
    ensures count { (p : ℕ) (numbers others : List ℤ) (challenges : List ℕ)
        → 0 < p → length numbers ≡ length others
        → (augroot p (added_numbers numbers others) challenges).count
        ≡ (augroot p numbers challenges).count +ℤ (augroot p others challenges).count }
    ensures root_of_streams { AddsUp root }
    ensures hash_of_streams { AddsUp
        (λ p numbers challenges. (augroot p numbers challenges).hash) }
    ensures count_of_streams { (p depth : ℕ) (stream more : List AnyUpdate) (side : AnySide)
        (challenges : List ℕ) → 0 < p
        → (augroot p (vector depth (stream ++ more) side) challenges).count
        ≡ (augroot p (vector depth stream side) challenges).count
        +ℤ (augroot p (vector depth more side) challenges).count }
{}

/// The roots of zeros, however many, are 0.
pub fn roots_of_zeros()
    ensures root { (p n : ℕ) (challenges : List ℕ) → root p (replicate n (pos 0)) challenges ≡ 0 }
    ensures augmented { (p n : ℕ) (challenges : List ℕ)
        → augroot p (replicate n (pos 0)) challenges ≡ record { hash = 0; count = pos 0 } }
{}

/// The root is the sum of a level's nodes, each times its weight. Level 0 has the residues of the
/// numbers themselves.
pub fn root_is_a_sum_of_nodes()
    ensures length { (p : ℕ) (numbers : List ℤ) (challenges : List ℕ) (level : ℕ)
        → length numbers ≡ 2 ^ length challenges → level ≤ length challenges
        → length (tree p numbers (take level challenges)) ≡ 2 ^ (length challenges - level) }
    ensures sum { (p : ℕ) (numbers : List ℤ) (challenges : List ℕ) (level : ℕ)
        → 0 < p → length numbers ≡ 2 ^ length challenges → level ≤ length challenges
        → root p numbers challenges
        ≡ weighted_sum p challenges level 0 (tree p numbers (take level challenges)) % p }
{}

/// A stretch of a level that begins at an even index keeps its weighted sum where it is folded to
/// the level above, and a node at either end adds itself times its weight.
pub fn folds_keep_weighted_sums()
    ensures folded { (p : ℕ) (challenges : List ℕ) (level first n : ℕ) (nodes : List ℕ)
        → level < length challenges → length nodes ≡ 2 * n
        → weighted_sum p challenges level (2 * first) nodes % p
        ≡ weighted_sum p challenges (level + 1) first
        (up p nodes (slice_index challenges level)) % p }
    ensures front { (p : ℕ) (challenges : List ℕ) (level first x : ℕ) (nodes : List ℕ)
        → weighted_sum p challenges level first (x ∷ nodes)
        ≡ x * weight_above p challenges level first
        + weighted_sum p challenges level (first + 1) nodes }
    ensures back { (p : ℕ) (challenges : List ℕ) (level first : ℕ) (nodes : List ℕ) (x : ℕ)
        → weighted_sum p challenges level first (nodes ++ x ∷ [])
        ≡ weighted_sum p challenges level first nodes
        + x * weight_above p challenges level (first + length nodes) }
{}

/// A side's vector is zeros before the stream. An update raises one entry of it, or none where it
/// is of the other side. So a root that is fed with a side's updates stands for that side's vector.
pub fn vectors_of_streams()
    ensures empty { (depth : ℕ) (side : AnySide)
        → vector depth [] side ≡ replicate (2 ^ depth) (pos 0) }
    ensures raised { (depth : ℕ) (stream : List AnyUpdate) (u : AnyUpdate) (side : AnySide)
        → u.item < 2 ^ depth → same_side u.side side ≡ true
        → vector depth (stream ++ u ∷ []) side
        ≡ raised_numbers (vector depth stream side) u.item u.delta }
    ensures kept { (depth : ℕ) (stream : List AnyUpdate) (u : AnyUpdate) (side : AnySide)
        → same_side u.side side ≡ false → vector depth (stream ++ u ∷ []) side
        ≡ vector depth stream side }
{}

/// The weights in the tree of (3, 0, 5, 1) at the challenges (2, 10), worked out by hand: 3·1 +
/// 5·10 + 1·20 is the root, 73, and 3·13 + 5·1300 + 1·2200 the hash, 8739.
pub fn weights_by_hand()
    ensures entries { map (weight_above m61_modulus (2 ∷ 10 ∷ []) 0) (0 ∷ 1 ∷ 2 ∷ 3 ∷ [])
        ≡ 1 ∷ 2 ∷ 10 ∷ 20 ∷ [] }
    ensures nodes { map (weight_above m61_modulus (2 ∷ 10 ∷ []) 1) (0 ∷ 1 ∷ []) ≡ 1 ∷ 10 ∷ [] }
    ensures top { weight_above m61_modulus (2 ∷ 10 ∷ []) 2 0 ≡ 1 }
    ensures hash { map (λ i. hash_weight m61_modulus i (2 ∷ 10 ∷ [])) (0 ∷ 1 ∷ 2 ∷ 3 ∷ [])
        ≡ 13 ∷ 22 ∷ 1300 ∷ 2200 ∷ [] }
{}
