//! Worked examples of the file, which hold by computation. These functions do nothing: each
//! contract is a fact that holds.

ghost use Rattle.std.specs.Prelude.{◌≡◌, ℕ, ◌-◌, ◌^◌, List, [], ◌∷◌, ◌++◌, take, Ok, Err};
ghost use Rattle.std.specs.Prelude.{Some, None};
ghost use Rattle.sha2.specs.Sha256.{sha256};
ghost use Rattle.sip_sketch.specs.Fields.{read};
ghost use Rattle.sip_sketch.specs.Joining.{added, unlike};
ghost use Rattle.sip_sketch.specs.Sketches.{numbers, sketch_file, spelled_file};
ghost use Rattle.sip_sketch.specs.declared.unlike.Unlike.TheVariants as reasons;
ghost use Rattle.sip_vector.specs.declared.update.Side.TheVariants as sides;
ghost use Rattle.sip_sketch.specs.Examples.{above_bytes, begun, begun_bytes, begun_digest, changed};
ghost use Rattle.sip_sketch.specs.Examples.{credits, heavy_bytes, modulus_bytes, of_credits};
ghost use Rattle.sip_sketch.specs.Examples.{watched, watched_bytes, watched_digest, with_parts};
ghost use Rattle.sip_sketch.specs.Examples.{with_weight};
ghost use Rattle.sip_sketch.specs.Standing.{SeatStands};

/// The sketches of the empty stream and of three records are spelled by their bytes, with the
/// digests of these behind them.
pub fn sketches_by_hand()
    ensures begun { spelled_file begun ≡ begun_bytes ++ sha256 begun_bytes }
    ensures watched { spelled_file watched ≡ watched_bytes ++ sha256 watched_bytes }
{}

/// The digests.
#[tactic(auto, unfolding(sha2::specs::Sha256::first_words, sha2::specs::Sha256::schedule, sha2::specs::Sha256::rounds, sha2::specs::Sha256::compress, sha2::specs::Sha256::hash_after, sha2::specs::Sha256::digest_bytes, sha2::specs::Sha256::sha256))]
pub fn digests_by_hand()
    ensures begun { sha256 begun_bytes ≡ begun_digest }
    ensures watched { sha256 watched_bytes ≡ watched_digest }
{}

/// The files are read, but not with a byte less or more, nor with another used byte.
#[tactic(auto, unfolding(sha2::specs::Sha256::first_words, sha2::specs::Sha256::schedule, sha2::specs::Sha256::rounds, sha2::specs::Sha256::compress, sha2::specs::Sha256::hash_after, sha2::specs::Sha256::digest_bytes, sha2::specs::Sha256::sha256))]
pub fn faults_of_the_digest()
    ensures whole { read sketch_file (watched_bytes ++ watched_digest) ≡ Ok (numbers watched) }
    ensures short { read sketch_file (take 151 (watched_bytes ++ watched_digest)) ≡ Err 120 }
    ensures long { read sketch_file (watched_bytes ++ (watched_digest ++ 0 ∷ [])) ≡ Err 152 }
    ensures used { read sketch_file (changed (watched_bytes ++ watched_digest) 53 (1 ∷ []))
        ≡ Err 120 }
{}

/// Where each field has none of its values, the place is that of the field.
pub fn faults_of_the_head()
    ensures short { read sketch_file (take 3 watched_bytes) ≡ Err 3 }
    ensures version { read sketch_file (changed watched_bytes 4 (2 ∷ [])) ≡ Err 4 }
    ensures depth { read sketch_file (changed watched_bytes 5 (49 ∷ [])) ≡ Err 5 }
    ensures first { read sketch_file (changed watched_bytes 10 (0 ∷ 0 ∷ 0 ∷ 2 ∷ [])) ≡ Err 10 }
    ensures last { read sketch_file (changed watched_bytes 14 (0 ∷ 0 ∷ 0 ∷ 0 ∷ [])) ≡ Err 14 }
    ensures weight { read sketch_file (changed watched_bytes 22 (0x40 ∷ [])) ≡ Err 18 }
    ensures records { read sketch_file (changed watched_bytes 41 (10 ∷ [])) ≡ Err 34 }
    ensures negatives { read sketch_file (changed watched_bytes 42 (2 ∷ [])) ≡ Err 42 }
    ensures seats { read sketch_file (changed watched_bytes 51 (0 ∷ [])) ≡ Err 51 }
{}

/// So it is in a seat.
pub fn faults_of_a_seat()
    ensures kind { read sketch_file (changed watched_bytes 52 (9 ∷ [])) ≡ Err 52 }
    ensures used { read sketch_file (changed watched_bytes 53 (2 ∷ [])) ≡ Err 53 }
    ensures challenge { read sketch_file (changed watched_bytes 54 modulus_bytes) ≡ Err 54 }
    ensures second { read sketch_file (changed watched_bytes 85 (1 ∷ [])) ≡ Err 78 }
    ensures short { read sketch_file (take 78 watched_bytes) ≡ Err 78 }
{}

/// The total of a side of which no delta was below 0 is its weight.
pub fn faults_of_a_total()
    ensures other { read sketch_file (heavy_bytes 8) ≡ Err 78 }
{}

/// Where it is, the digest stands behind it.
#[tactic(auto, unfolding(sha2::specs::Sha256::first_words, sha2::specs::Sha256::schedule, sha2::specs::Sha256::rounds, sha2::specs::Sha256::compress, sha2::specs::Sha256::hash_after, sha2::specs::Sha256::digest_bytes, sha2::specs::Sha256::sha256))]
pub fn the_total_is_the_weight()
    ensures { read sketch_file (heavy_bytes 9) ≡ Err 86 }
{}

/// A seat for large entries has the code 7 or 8, by its side, and its second number is 0: the weight
/// of the side is told in the head.
pub fn faults_of_large_entries()
    ensures first { read sketch_file (changed (above_bytes 7) 85 (1 ∷ [])) ≡ Err 78 }
    ensures second { read sketch_file (changed (above_bytes 8) 85 (1 ∷ [])) ≡ Err 78 }
    ensures code { read sketch_file (above_bytes 9) ≡ Err 52 }
{}

/// Where it is, the digest stands behind it.
#[tactic(auto, unfolding(sha2::specs::Sha256::first_words, sha2::specs::Sha256::schedule, sha2::specs::Sha256::rounds, sha2::specs::Sha256::compress, sha2::specs::Sha256::hash_after, sha2::specs::Sha256::digest_bytes, sha2::specs::Sha256::sha256))]
pub fn large_entries_have_no_second_number()
    ensures first { read sketch_file (above_bytes 7) ≡ Err 86 }
    ensures second { read sketch_file (above_bytes 8) ≡ Err 86 }
{}

/// The seat of values (0, 5, -9, 3) with the weights (0, 5, 9, 5), at 2 and 10, has the hash 20210.
pub fn a_large_seat_by_hand()
    ensures { SeatStands 2 credits of_credits }
{}

/// A part is added behind the one before it and nowhere else, and a whole sketch is none. Two sides
/// of 2^29 are too heavy, and what was kept of three records and of none adds up.
pub fn parts_by_hand()
    ensures next { unlike (with_parts 1 1 2 begun) (with_parts 2 2 2 watched) ≡ None }
    ensures again { unlike (with_parts 1 1 2 begun) (with_parts 1 1 2 watched)
        ≡ Some reasons.NotNext }
    ensures before { unlike (with_parts 2 2 2 begun) (with_parts 1 1 2 watched)
        ≡ Some reasons.NotNext }
    ensures apart { unlike (with_parts 1 1 3 begun) (with_parts 3 3 3 watched)
        ≡ Some reasons.NotNext }
    ensures whole { unlike (with_parts 1 2 2 begun) (with_parts 1 2 2 watched)
        ≡ Some reasons.Whole }
    ensures count { unlike (with_parts 1 1 2 begun) (with_parts 2 2 3 watched)
        ≡ Some reasons.Shape }
    ensures heavy { unlike (with_weight (2 ^ 29) (with_parts 1 1 2 begun))
        (with_weight (2 ^ 29) (with_parts 2 2 2 begun)) ≡ Some (reasons.Heavy sides.First) }
    ensures light { unlike (with_weight (2 ^ 29) (with_parts 1 1 2 begun))
        (with_weight (2 ^ 29 - 1) (with_parts 2 2 2 begun)) ≡ None }
    ensures sum { added (with_parts 1 1 2 begun) (with_parts 2 2 2 watched)
        ≡ with_parts 1 2 2 watched }
{}
