//! Many updates of a running number, by tables of products.
ghost use Rattle.std.specs.Prelude.{◌≡◌, ℕ, List, ◌*◌, ◌^◌, ◌<◌, ◌≤◌, All, length};
ghost use Rattle.sip_field.specs.Products.{AreTables};
ghost use Rattle.sip_vector.specs.Running.{number_after};

use crate::update::Update;
use sip_field::{Field, loosely_by_tables, of_wide};

/// The number after these updates, by the tables of all challenges, of which there are N.
///
/// One `loose_times` for an update and a table.
fn added<F: Field, const N: usize>(value: F, tables: &[[u64; 256]], updates: &[Update]) -> F
    requires exact { length tables.now ≡ N }
    requires few { N ≤ 6 }
    ensures { (zero : ℕ → ℕ) (challenges : List ℕ) → AreTables F.MODULUS zero challenges tables.now
        → length challenges ≤ 8 * length tables.now
        → All (λ u. u.item < 2 ^ length challenges) updates.now
        → F.number result ≡ number_after F.MODULUS zero challenges (F.number value) updates.now }
{
    // No sum of as many numbers of 64 bits as memory holds leaves 128 bits.
    let mut sum = u128::from(value.number());
    for update in updates {
        let delta = F::loose_signed(update.delta);
        sum += u128::from(loosely_by_tables::<F, N>(delta, tables, update.item));
    }
    of_wide(sum)
}

/// A number after these updates, whatever their sides, where an entry counts in it by the product
/// of its index, by the tables of all challenges: the root of the tree, or the multilinear
/// extension. Table g is that of the eight challenges above level 8·g.
///
/// One `loose_times` for an update and a table, and the sum of them is reduced once. For each
/// number of tables there is a loop of its own, since one that the compiler knows the length of
/// takes two thirds of the time.
pub fn added_by_tables<F: Field>(value: F, tables: &[[u64; 256]], updates: &[Update]) -> F
    requires few { length tables.now ≤ 6 }
    ensures { (zero : ℕ → ℕ) (challenges : List ℕ) → AreTables F.MODULUS zero challenges tables.now
        → length challenges ≤ 8 * length tables.now
        → All (λ u. u.item < 2 ^ length challenges) updates.now
        → F.number result ≡ number_after F.MODULUS zero challenges (F.number value) updates.now }
{
    match tables.len() {
        0 => added::<F, 0>(value, tables, updates),
        1 => added::<F, 1>(value, tables, updates),
        2 => added::<F, 2>(value, tables, updates),
        3 => added::<F, 3>(value, tables, updates),
        4 => added::<F, 4>(value, tables, updates),
        5 => added::<F, 5>(value, tables, updates),
        _ => added::<F, 6>(value, tables, updates),
    }
}
