//! Many updates of the hash of an augmented root or of a split root, by tables of steps.
ghost use Rattle.std.specs.Prelude.{◌≡◌, ℕ, List, ◌+◌, ◌*◌, ◌%◌, ◌^◌, ◌<◌, ◌≤◌, All, length};
ghost use Rattle.sip_tree.specs.Blocks.{hash_after, split_after};
ghost use Rattle.sip_tree.specs.Steps.{AreStepTables, IsBelow};

use crate::steps::{Step, loosely_by_signed_steps, loosely_by_steps};
use sip_field::{Field, of_wide};
use sip_vector::Update;

/// The residue of a sum of products whose lower and upper halves were added apart. So no product is
/// reduced, and no sum of as many numbers of 64 bits as memory holds leaves 128 bits.
///
/// Five `times`.
fn of_halves<F: Field>(low: u128, high: u128) -> F
    ensures { F.number result ≡ (low + high * 2 ^ 64) % F.MODULUS }
{
    let shift = of_wide::<F>(1 << 64);
    of_wide::<F>(high).times(shift).plus(of_wide(low))
}

/// The hash after these updates, by the tables of all levels.
///
/// One product for an update and a table.
pub(crate) fn hashed<F: Field>(hash: F, tables: &[[Step; 256]], updates: &[Update]) -> F
    requires some { 1 ≤ length tables.now }
    requires few { length tables.now ≤ 6 }
    requires below { All (All (IsBelow F.MODULUS)) tables.now }
    ensures { (challenges : List ℕ) → AreStepTables F.MODULUS challenges tables.now
        → length challenges ≤ 8 * length tables.now
        → All (λ u. u.item < 2 ^ length challenges) updates.now
        → F.number result ≡ hash_after F.MODULUS challenges (F.number hash) updates.now }
{
    let mut low = u128::from(hash.number());
    let mut high = 0;
    for update in updates {
        let weight = loosely_by_steps::<F>(tables, update.item);
        let product = u128::from(weight) * u128::from(F::loose_signed(update.delta));
        low += product % (1 << 64);
        high += product >> 64;
    }
    of_halves(low, high)
}

/// The hash of a split root after these updates, by the tables of all levels: an update adds its
/// size times what the levels make of its sign.
///
/// One product for an update and a table.
pub(crate) fn split_hashed<F: Field>(hash: F, tables: &[[Step; 256]], updates: &[Update]) -> F
    requires some { 1 ≤ length tables.now }
    requires few { length tables.now ≤ 6 }
    requires below { All (All (IsBelow F.MODULUS)) tables.now }
    ensures { (challenges : List ℕ) → AreStepTables F.MODULUS challenges tables.now
        → length challenges ≤ 8 * length tables.now
        → All (λ u. u.item < 2 ^ length challenges) updates.now
        → F.number result ≡ split_after F.MODULUS challenges (F.number hash) updates.now }
{
    let mut low = u128::from(hash.number());
    let mut high = 0;
    for update in updates {
        let weight = loosely_by_signed_steps::<F>(tables, update.item, update.delta);
        let product = u128::from(weight) * u128::from(update.delta.unsigned_abs());
        low += product % (1 << 64);
        high += product >> 64;
    }
    of_halves(low, high)
}
