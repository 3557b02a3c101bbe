//! Laws of the definitions, and worked examples that hold by computation. These functions do
//! nothing: each contract is a fact that holds.
//!
//! In the examples the vector is (3, 0, 5, 1) over four items, and the challenges are (2, 10)
//! modulo 2^61 - 1.

ghost use Rattle.std.specs.Prelude.{◌≡◌, ℕ, ◌+◌, ◌-◌, ◌*◌, ◌%◌, ◌^◌, ◌<◌, List, [], ◌∷◌, ◌++◌, pos};
ghost use Rattle.std.specs.Prelude.{negsuc, ℤ, ◌≤ℤ◌, ◌+ℤ◌, nat_abs, Some, None, slice_get, map};
ghost use Rattle.std.specs.Prelude.{fold, length, replicate, true, false, All};
ghost use Rattle.sip_field.specs.Moduli.{m61_modulus as p};
ghost use Rattle.sip_field.specs.Residue.{residue};
ghost use Rattle.sip_vector.specs.Streams.{same_side, vector, total, weight, int_sum, of_side};
ghost use Rattle.sip_vector.specs.Streams.{IsLegal};
ghost use Rattle.sip_vector.specs.Lines.{added_numbers};
ghost use Rattle.sip_vector.specs.Splits.{weights, splittree, splittop, splitroot, value_factor};
ghost use Rattle.sip_vector.specs.Splits.{weight_factor};
ghost use Rattle.sip_vector.specs.Fingerprints.{fingerprint, mix};
ghost use Rattle.sip_vector.specs.Tallies.{IsSound, joined, tally};
ghost use Rattle.sip_vector.specs.Vectors.{side_vector, zero_vector, with_update, nonzero_within};
ghost use Rattle.sip_vector.specs.Weights.{raised_numbers, numbers_after, hash_weight_from};
ghost use Rattle.sip_vector.specs.declared.update.Entry.{Entry};
ghost use Rattle.sip_vector.specs.declared.update.Side.{Side};
ghost use Rattle.sip_vector.specs.declared.update.Update.{Update};
ghost use Rattle.sip_vector.specs.Answers.{answer, pairs, number};
ghost use Rattle.sip_vector.specs.Trees.{tree, root, augtree, augroot};
ghost use Rattle.sip_vector.specs.Extensions.{ext, line, ones};
ghost use Rattle.sip_vector.specs.Examples.{stream, both_sides, four, front, rest, credits};
ghost use Rattle.sip_vector.specs.declared.update.Side.TheVariants as sides;
ghost use Rattle.sip_vector.specs.declared.query.Query.TheVariants as queries;

/// The vector of a side of a stream is what its updates add up to, one after another, and the sum
/// of its numbers is the total of the side.
pub fn vectors_add_up()
    ensures nothing { (depth : ℕ) (side : Side) → side_vector depth [] side ≡ zero_vector depth }
    ensures update { (depth : ℕ) (stream : List Update) (u : Update) (side : Side)
        → side_vector depth (stream ++ u ∷ []) side
        ≡ with_update side (side_vector depth stream side) u }
    ensures whole { (depth : ℕ) (stream : List Update) (side : Side)
        → fold (with_update side) (zero_vector depth) stream ≡ side_vector depth stream side }
    ensures total { (depth : ℕ) (stream : List Update) (side : Side)
        → All (λ u. u.item < 2 ^ depth) stream
        → total stream side ≡ int_sum (vector depth stream side) }
{}

/// More of a stream raises the entries of a side's vector by the updates of that side, one after
/// another.
pub fn vectors_go_on()
    ensures { (depth : ℕ) (stream updates : List Update) (side : Side)
        → vector depth (stream ++ updates) side
        ≡ numbers_after (vector depth stream side) (of_side updates side) }
{}

/// Of two streams, one behind the other, the number of records, the weights and the totals are the
/// sums, and the vectors and the weights of the items are the entrywise sums.
pub fn streams_add_up()
    ensures records { (stream more : List Update)
        → length (stream ++ more) ≡ length stream + length more }
    ensures weight { (stream more : List Update) (side : Side)
        → weight (stream ++ more) side ≡ weight stream side + weight more side }
    ensures total { (stream more : List Update) (side : Side)
        → total (stream ++ more) side ≡ total stream side +ℤ total more side }
    ensures vector { (depth : ℕ) (stream more : List Update) (side : Side)
        → vector depth (stream ++ more) side
        ≡ added_numbers (vector depth stream side) (vector depth more side) }
    ensures weights { (depth : ℕ) (stream more : List Update) (side : Side)
        → weights depth (stream ++ more) side
        ≡ added_numbers (weights depth stream side) (weights depth more side) }
{}

/// The weights of a side's items are zeros before the stream, an update of the side raises one of
/// them by the absolute value of its delta, and their sum is the weight of the side.
pub fn weights_add_up()
    ensures empty { (depth : ℕ) (side : Side)
        → weights depth [] side ≡ replicate (2 ^ depth) (pos 0) }
    ensures raised { (depth : ℕ) (stream : List Update) (u : Update) (side : Side)
        → same_side u.side side ≡ true
        → weights depth (stream ++ u ∷ []) side
        ≡ raised_numbers (weights depth stream side) u.item (pos (nat_abs u.delta)) }
    ensures kept { (depth : ℕ) (stream : List Update) (u : Update) (side : Side)
        → same_side u.side side ≡ false
        → weights depth (stream ++ u ∷ []) side ≡ weights depth stream side }
    ensures sum { (depth : ℕ) (stream : List Update) (side : Side)
        → All (λ u. u.item < 2 ^ depth) stream
        → pos (weight stream side) ≡ int_sum (weights depth stream side) }
    ensures positive { (depth : ℕ) (stream : List Update) (side : Side)
        → All (λ w. pos 0 ≤ℤ w) (weights depth stream side) }
{}

/// The top of the split tree over entrywise sums has the sum of both hashes modulo p and the sum of
/// both counts. Over zeros it is 0 and 0. A value and a weight that are raised raise the hash by
/// what was added times their factors, which add up to the weight that a number has in the
/// augmented tree, and the count by what was added to the weight.
pub fn split_tops_add_up()
    ensures sum { (p : ℕ) (values others weights more : List ℤ) (challenges : List ℕ)
        → 0 < p → length values ≡ length weights → length others ≡ length more
        → length values ≡ length others
        → splittop p (added_numbers values others) (added_numbers weights more) challenges
        ≡ record {
          hash = (splitroot p values weights challenges + splitroot p others more challenges) % p;
          count = (splittop p values weights challenges).count
              +ℤ (splittop p others more challenges).count;
        } }
    ensures streams { (p depth : ℕ) (stream more : List Update) (side : Side) (challenges : List ℕ)
        → 0 < p
        → splitroot p (vector depth (stream ++ more) side) (weights depth (stream ++ more) side)
        challenges
        ≡ (splitroot p (vector depth stream side) (weights depth stream side) challenges
        + splitroot p (vector depth more side) (weights depth more side) challenges)
        % p }
    ensures zeros { (p n : ℕ) (challenges : List ℕ)
        → splittop p (replicate n (pos 0)) (replicate n (pos 0)) challenges
        ≡ record { hash = 0; count = pos 0 } }
    ensures raised { (p : ℕ) (values weights : List ℤ) (challenges : List ℕ) (i : ℕ) (a w : ℤ)
        → 0 < p → length values ≡ 2 ^ length challenges → length weights ≡ 2 ^ length challenges
        → i < length values
        → splittop p (raised_numbers values i a) (raised_numbers weights i w) challenges
        ≡ record {
          hash = (splitroot p values weights challenges
              + residue p a * value_factor p i challenges
              + residue p w * weight_factor p i challenges) % p;
          count = (splittop p values weights challenges).count +ℤ w;
        } }
    ensures factors { (p h i : ℕ) (challenges : List ℕ)
        → hash_weight_from p h i challenges % p
        ≡ (h * value_factor p i challenges + weight_factor p i challenges) % p }
{}

/// What is told of a stream by a few numbers adds up, and is sound where the stream is legal.
pub fn tallies_add_up()
    ensures both { (s t : List Update) → tally (s ++ t) ≡ joined (tally s) (tally t) }
    ensures sound { (depth : ℕ) (s : List Update) → IsLegal depth s → IsSound (tally s) }
{}

/// The number that 0 gives, as published with the generator, and fingerprints of three updates, of
/// the first two and of the third; of one of the other side, and of the greatest item and a delta
/// below 0.
#[tactic(auto, unfolding(crate::specs::Fingerprints::mix))]
pub fn fingerprints_of_three()
    ensures zero { mix 0 ≡ 0xe220a8397b1dcdaf }
    ensures nothing { fingerprint [] ≡ 0 }
    ensures three { fingerprint stream ≡ 0xb8261ae7db4fab00 }
    ensures two { fingerprint front ≡ 0x9b1b0603004e1b13 }
    ensures third { fingerprint rest ≡ 0x1d0b14e4db018fed }
    ensures other { fingerprint (record { side = sides.Second; item = 0; delta = pos 3 } ∷ [])
        ≡ 0xe791b7129c22a5f0 }
    ensures negative { fingerprint
        (record { side = sides.Second; item = 2 ^ 48 - 1; delta = negsuc 6 } ∷ [])
        ≡ 0x46d9c09babfa6760 }
{}

/// The first entry that is not 0, and then those after it, are all of them: so a walk finds each.
pub fn walks_find_each_entry()
    ensures next { (lo hi : ℕ) (numbers : List ℤ) (e : Entry)
        → slice_get (nonzero_within lo hi numbers) 0 ≡ Some e
        → nonzero_within lo hi numbers ≡ e ∷ nonzero_within (e.index + 1) hi numbers }
    ensures last { (lo hi : ℕ) (numbers : List ℤ)
        → slice_get (nonzero_within lo hi numbers) 0 ≡ None
        → nonzero_within lo hi numbers ≡ [] }
{}

/// Three updates add up to (3, 0, 5, 1).
pub fn vector_of_three_updates()
    ensures { vector 2 stream sides.First ≡ four }
{}

/// The levels of the tree are (3, 7) and 73.
pub fn tree_of_four()
    ensures first { tree p four (2 ∷ []) ≡ 3 ∷ 7 ∷ [] }
    ensures top { root p four (2 ∷ 10 ∷ []) ≡ 73 }
{}

/// The augmented tree has the nodes (9, 3) and (27, 6), and the root (8739, 9).
pub fn augmented_tree_of_four()
    ensures first { augtree p four (2 ∷ [])
        ≡ record { hash = 9; count = pos 3 } ∷ record { hash = 27; count = pos 6 } ∷ [] }
    ensures top { augtree p four (2 ∷ 10 ∷ []) ≡ record { hash = 8739; count = pos 9 } ∷ [] }
{}

/// The extension is p - 3, and that of the interval from 1 to 3 is p - 8.
pub fn extensions_of_four()
    ensures vector { ext p four (2 ∷ 10 ∷ []) ≡ p - 3 }
    ensures interval { ext p (ones 2 1 3) (2 ∷ 10 ∷ []) ≡ p - 8 }
    ensures folded { line p (line p (0 ∷ 1 ∷ 1 ∷ 1 ∷ []) 2) 10 ≡ (p - 8) ∷ [] }
{}

/// The first two of the three updates, and the third: the roots, the extensions and the augmented
/// roots add up to those of all three.
pub fn pieces_of_four()
    ensures front { root p (vector 2 front sides.First) (2 ∷ 10 ∷ []) ≡ 53 }
    ensures rest { root p (vector 2 rest sides.First) (2 ∷ 10 ∷ []) ≡ 20 }
    ensures whole { root p (vector 2 (front ++ rest) sides.First) (2 ∷ 10 ∷ []) ≡ 73 }
    ensures front_extension { ext p (vector 2 front sides.First) (2 ∷ 10 ∷ []) ≡ p - 23 }
    ensures rest_extension { ext p (vector 2 rest sides.First) (2 ∷ 10 ∷ []) ≡ 20 }
    ensures extension { ext p (vector 2 (front ++ rest) sides.First) (2 ∷ 10 ∷ []) ≡ p - 3 }
    ensures front_augmented { augroot p (vector 2 front sides.First) (2 ∷ 10 ∷ [])
        ≡ record { hash = 6539; count = pos 8 } }
    ensures rest_augmented { augroot p (vector 2 rest sides.First) (2 ∷ 10 ∷ [])
        ≡ record { hash = 2200; count = pos 1 } }
    ensures augmented { augroot p (vector 2 (front ++ rest) sides.First) (2 ∷ 10 ∷ [])
        ≡ record { hash = 8739; count = pos 9 } }
{}

/// The split tree over the values (0, 5, -9, 3) with the weights (0, 5, 9, 5) has the nodes (60, 5)
/// and (61, 14), and the top (20210, 19). Over (3, 0, 5, 1), where nothing is taken away, its top
/// is that of the augmented tree.
pub fn split_tree_of_four()
    ensures values { vector 2 credits sides.First
        ≡ pos 0 ∷ pos 5 ∷ negsuc 8 ∷ pos 3 ∷ [] }
    ensures weights { weights 2 credits sides.First ≡ pos 0 ∷ pos 5 ∷ pos 9 ∷ pos 5 ∷ [] }
    ensures weight { weight credits sides.First ≡ 19 }
    ensures first { let values = vector 2 credits sides.First in
        splittree p values (weights 2 credits sides.First) (2 ∷ [])
        ≡ record { hash = 60; count = pos 5 } ∷ record { hash = 61; count = pos 14 } ∷ [] }
    ensures top { let values = vector 2 credits sides.First in
        splittop p values (weights 2 credits sides.First) (2 ∷ 10 ∷ [])
        ≡ record { hash = 20210; count = pos 19 } }
    ensures of_four { let values = vector 2 stream sides.First in
        splittop p values (weights 2 stream sides.First) (2 ∷ 10 ∷ [])
        ≡ record { hash = 8739; count = pos 9 } }
    ensures value_factors { map (λ i. value_factor p i (2 ∷ 10 ∷ [])) (0 ∷ 1 ∷ 2 ∷ 3 ∷ [])
        ≡ 1 ∷ 4 ∷ 100 ∷ 400 ∷ [] }
    ensures weight_factors { map (λ i. weight_factor p i (2 ∷ 10 ∷ [])) (0 ∷ 1 ∷ 2 ∷ 3 ∷ [])
        ≡ 12 ∷ 18 ∷ 1200 ∷ 1800 ∷ [] }
{}

/// What each query asks for.
pub fn answers_of_four()
    ensures sub { answer 2 stream (queries.Sub 1 2)
        ≡ pairs (record { index = 2; value = pos 5 } ∷ []) }
    ensures range { answer 2 stream (queries.Range sides.First 1 3) ≡ number (pos 6) }
    ensures f2 { answer 2 stream (queries.F2 sides.First) ≡ number (pos 35) }
    ensures inner { answer 2 both_sides queries.Inner ≡ number (pos 11) }
    ensures heavy { answer 2 stream (queries.Heavy sides.First 4)
        ≡ pairs (record { index = 2; value = pos 5 } ∷ []) }
    ensures half { answer 2 stream (queries.Share sides.First 1 2)
        ≡ pairs (record { index = 2; value = pos 5 } ∷ []) }
    ensures five_ninths { answer 2 stream (queries.Share sides.First 5 9)
        ≡ pairs (record { index = 2; value = pos 5 } ∷ []) }
    ensures third { answer 2 stream (queries.Share sides.First 1 3)
        ≡ pairs (record { index = 0; value = pos 3 } ∷ record { index = 2; value = pos 5 } ∷ []) }
    ensures all { answer 2 stream (queries.Share sides.First 1 1) ≡ pairs [] }
    ensures nothing { answer 2 [] (queries.Share sides.First 1 2) ≡ pairs [] }
    ensures above { answer 2 credits (queries.Above sides.First 3)
        ≡ pairs (record { index = 1; value = pos 5 } ∷ record { index = 3; value = pos 3 } ∷ []) }
    ensures none_above { answer 2 credits (queries.Above sides.First 6) ≡ pairs [] }
{}
