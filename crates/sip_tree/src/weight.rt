//! The factor that a node has in the root, and in the hash of an augmented root.
ghost use Rattle.std.specs.Prelude.{◌≡◌, ◌*◌, ◌%◌, ◌≤◌, length};
ghost use Rattle.sip_field.specs.Residue.{residue};
ghost use Rattle.sip_tree.specs.Steps.{sign};
ghost use Rattle.sip_vector.specs.Weights.{weight_above, hash_weight_from};

use sip_field::{Field, Seat};

/// `start` times the weight of a node. Bits of the index above the top of the tree count nothing.
///
/// One `times` for each bit of the index that is 1: the product begins with `start`, so no other is
/// needed.
pub(crate) fn weighted<F: Field, const CAP: usize>(
    start: F,
    seat: &Seat<F, CAP>,
    level: usize,
    index: u64,
) -> F
    requires { level ≤ length seat.now }
    ensures { F.number result
        ≡ (F.number start * weight_above F.MODULUS seat.now level index) % F.MODULUS }
{
    let mut product = start;
    let mut path = index;
    for below in level..seat.depth() {
        if path % 2 == 1 {
            product = product.times(seat.at(below + 1));
        }
        path /= 2;
    }
    product
}

/// What the levels of a seat make of the hash of a leaf: 1 becomes the factor of an entry in the
/// hash. A level makes h + r of h where the node stands left, and h * r^2 + r^3, which is (h + r) *
/// r^2, where it stands right: the second form has two products and not three.
pub(crate) fn hash_weighted<F: Field, const CAP: usize>(
    leaf: F,
    seat: &Seat<F, CAP>,
    index: u64,
) -> F
    ensures { F.number result ≡ hash_weight_from F.MODULUS (F.number leaf) index seat.now }
{
    let mut weight = leaf;
    let mut path = index;
    for below in 0..seat.depth() {
        let r = seat.at(below + 1);
        let sum = weight.plus(r);
        weight = if path % 2 == 1 {
            sum.times(r.times(r))
        } else {
            sum
        };
        path /= 2;
    }
    weight
}

/// The hash of a leaf in the split tree whose value has this sign and whose weight is 1: 1, or -1
/// below 0.
pub(crate) fn sign_of<F: Field>(delta: i64) -> F
    ensures { F.number result ≡ residue F.MODULUS (sign delta) }
{
    let sign = if delta < 0 { -1 } else { 1 };
    F::of_signed(sign)
}
