//! The fold of a level of nodes.
ghost use Rattle.std.specs.Prelude.{◌≡◌, ◌%◌, map, vec_len};
ghost use Rattle.sip_vector.specs.Trees as trees;

use sip_field::Field;

/// Folds a level to the one above, in place: each pair `left`, `right` of neighbours becomes `left
/// + r * right`. The empty list stays empty.
///
/// One `times` for each pair. The list keeps its memory and takes none.
pub fn up<F: Field>(list: &mut Vec<F>, r: F)
    requires { vec_len list.old % 2 ≡ 0 }
    ensures { map F.number list.new.items
        ≡ trees.up F.MODULUS (map F.number list.old.items) (F.number r) }
{
    let pairs = list.len() / 2;
    for at in 0..pairs {
        list[at] = list[2 * at].plus(r.times(list[2 * at + 1]));
    }
    list.truncate(pairs);
}
