//! Laws of extensions. These functions do nothing: each contract is a fact that holds.
ghost use Rattle.std.specs.Prelude.{◌≡◌, ℕ, ◌+◌, ◌-◌, ◌*◌, ◌%◌, ◌^◌, ◌<◌, ◌≤◌, ℤ, pos, List, []};
ghost use Rattle.std.specs.Prelude.{◌∷◌, All, length, map, fold, replicate, sum_by};
ghost use Rattle.std.specs.List.{range_with_len};
ghost use Rattle.sip_field.specs.Moduli.{m61_modulus};
ghost use Rattle.sip_field.specs.Residue.{residue};
ghost use Rattle.sip_vector.specs.Lines.{IsLinear, AddsUp};
ghost use Rattle.sip_vector.specs.Weights.{raised_numbers};
ghost use Rattle.sip_vector.specs.Examples.{four};
ghost use Rattle.sip_vector.specs.Extensions.{chi, ext, line, ones};

/// An entry that is raised raises the extension by what was added times the entry's factor.
pub fn extension_of_a_raised_entry()
    ensures { (p : ℕ) (numbers : List ℤ) (challenges : List ℕ) (i : ℕ) (delta : ℤ)
        → 0 < p → i < length numbers
        → ext p (raised_numbers numbers i delta) challenges
        ≡ (ext p numbers challenges + residue p delta * chi p i challenges) % p }
{}

/// Of an entrywise sum of numbers, and so of two streams, one behind the other, the extension is
/// the sum modulo p.
pub fn extensions_add_up()
    ensures numbers { IsLinear ext }
    ensures streams { AddsUp ext }
{}

/// The extension of zeros, however many, is 0.
pub fn extension_of_zeros()
    ensures { (p n : ℕ) (challenges : List ℕ) → ext p (replicate n (pos 0)) challenges ≡ 0 }
{}

/// A list that is folded by one challenge after another becomes its extension.
pub fn extension_is_a_fold()
    ensures { (p : ℕ) (numbers : List ℤ) (challenges : List ℕ)
        → 0 < p → All (λ r. r < p) challenges → length numbers ≡ 2 ^ length challenges
        → fold (line p) (map (residue p) numbers) challenges ≡ ext p numbers challenges ∷ [] }
{}

/// The extension of an interval is the sum of the factors of its entries, both ends included.
pub fn extension_of_an_interval()
    ensures { (p depth lo hi : ℕ) (challenges : List ℕ)
        → lo ≤ hi → hi < 2 ^ depth
        → ext p (ones depth lo hi) challenges
        ≡ sum_by (λ i. chi p i challenges) (range_with_len lo (hi + 1 - lo)) % p }
{}

/// Values at the challenges (2, 10), worked out by hand.
pub fn values_by_hand()
    ensures factors { map (λ i. chi m61_modulus i (2 ∷ 10 ∷ [])) (0 ∷ 1 ∷ 2 ∷ 3 ∷ [])
        ≡ 9 ∷ (m61_modulus - 18) ∷ (m61_modulus - 10) ∷ 20 ∷ [] }
    ensures all { ext m61_modulus (ones 2 0 3) (2 ∷ 10 ∷ []) ≡ 1 }
    ensures last { ext m61_modulus (ones 2 3 3) (2 ∷ 10 ∷ []) ≡ 20 }
    ensures first { ext m61_modulus (ones 2 0 0) (2 ∷ 10 ∷ []) ≡ 9 }
    ensures but_first { ext m61_modulus (ones 2 1 3) (2 ∷ 10 ∷ []) ≡ m61_modulus - 8 }
    ensures folded { line m61_modulus (map (residue m61_modulus) (ones 2 1 3)) 2 ≡ 2 ∷ 1 ∷ [] }
    ensures vector { ext m61_modulus four (2 ∷ 10 ∷ []) ≡ m61_modulus - 3 }
{}
