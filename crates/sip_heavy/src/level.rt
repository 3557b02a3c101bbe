//! The nodes of a level: what the check does with lists of them.
ghost use Rattle.std.specs.Prelude.{◌≡◌, ℕ, ◌+◌, ◌*◌, ◌/◌, ◌%◌, ◌^◌, ◌<◌, ◌≤◌, ◌++◌, All, length};
ghost use Rattle.std.specs.Prelude.{nat_le, pos, int_le, vec_len, vec_capacity};
ghost use Rattle.std.specs.List.{list_all};
ghost use Rattle.sip_field.specs.Residue.{product_mod};
ghost use Rattle.sip_heavy.specs.AcceptsHeavy as heavy;

use crate::form::LeafForm;
use sip_field::Field;
use sip_vector::Entry;
use sip_wire::Node;

// Moves the nodes before the first one that is not below an index to the end of a list, which has
// room for all of them. How many these are.
pub(crate) fn move_below(known: &[Node], level: &mut Vec<Node>, index: u64) -> usize
    requires room { vec_len level.old + length known.now ≤ vec_capacity level.old }
    ensures moved { level.new.items ≡ level.old.items ++ heavy.nodes_below index known.now }
    ensures count { result ≡ length (heavy.nodes_below index known.now) }
    ensures capacity { vec_capacity level.old ≤ vec_capacity level.new }
{
    let mut count = 0;
    for node in known {
        if node.index >= index {
            break;
        }
        level.push(*node).unwrap();
        count += 1;
    }
    count
}

// Whether a level is made of pairs of siblings.
pub(crate) fn are_pairs(nodes: &[Node]) -> bool
    ensures { result ≡ heavy.are_pairs nodes.now }
{
    let mut rest = nodes;
    while let [left, right, more @ ..] = rest {
        if left.index % 2 != 0 || right.index != left.index + 1 {
            return false;
        }
        rest = more;
    }
    rest.is_empty()
}

// Whether each pair's count is at least this.
pub(crate) fn are_heavy(nodes: &[Node], at_least: u64) -> bool
    requires { All (λ x. x.count < 2 ^ 61) nodes.now }
    ensures { result ≡ list_all (nat_le at_least) (heavy.pair_counts nodes.now) }
{
    let mut rest = nodes;
    while let [left, right, more @ ..] = rest {
        if left.count + right.count < at_least {
            return false;
        }
        rest = more;
    }
    true
}

// Whether each pair's count is at most this.
pub(crate) fn are_within(nodes: &[Node], total: u64) -> bool
    requires { All (λ x. x.count < 2 ^ 61) nodes.now }
    ensures { result ≡ list_all (λ c. nat_le c total) (heavy.pair_counts nodes.now) }
{
    let mut rest = nodes;
    while let [left, right, more @ ..] = rest {
        if left.count + right.count > total {
            return false;
        }
        rest = more;
    }
    true
}

// A number with the residue of a hash and of a count times a challenge, reduced only as far as a
// product is by `loose_times`.
pub(crate) fn half<F: Field>(r: F, hash: u64, count: u64) -> u64
    requires hash { hash < 2 ^ 61 }
    requires count { count < 2 ^ 61 }
    ensures residue { result % F.MODULUS ≡ (hash + count % F.MODULUS * F.number r) % F.MODULUS }
    ensures most { result < 3 * 2 ^ 61 }
{
    hash + F::loose_times(count, r.number())
}

// The node above a pair, by the challenge and its square. Three products.
pub(crate) fn joined<F: Field>(r: F, square: F, left: Node, right: Node) -> Node
    requires square { F.number square ≡ product_mod F.MODULUS (F.number r) (F.number r) }
    requires left { left.count < 2 ^ 61 }
    requires right { right.count < 2 ^ 61 }
    ensures { result ≡ heavy.joined F.MODULUS (F.number r) left right }
{
    let of_left = half(r, F::of(left.hash).number(), left.count);
    let of_right = half(r, F::of(right.hash).number(), right.count);
    let hash = F::of(of_left + F::loose_times(of_right, square.number()));
    Node {
        index: left.index / 2,
        hash: hash.number(),
        count: left.count + right.count,
    }
}

// Writes the nodes above all pairs to the end of a list, which has room for them.
pub(crate) fn fold_pairs<F: Field>(nodes: &[Node], r: F, above: &mut Vec<Node>)
    requires room { vec_len above.old + length nodes.now ≤ vec_capacity above.old }
    requires counts { All (λ x. x.count < 2 ^ 61) nodes.now }
    ensures above { above.new.items
        ≡ above.old.items ++ heavy.nodes_above F.MODULUS (F.number r) nodes.now }
    ensures capacity { vec_capacity above.old ≤ vec_capacity above.new }
{
    let square = r.times(r);
    let mut rest = nodes;
    while let [left, right, more @ ..] = rest {
        above.push(joined(r, square, *left, *right)).unwrap();
        rest = more;
    }
}

// Puts the leaves whose entry is at least this behind others, in a list that has room for them.
pub(crate) fn put_heavy<F: Field>(
    nodes: &[Node],
    form: LeafForm,
    at_least: u64,
    found: &mut Vec<Entry>,
)
    requires room { vec_len found.old + length nodes.now ≤ vec_capacity found.old }
    requires small { All (λ x. x.count < 2 ^ 61) nodes.now }
    ensures found { found.new.items
        ≡ found.old.items ++ heavy.heavy_entries F.MODULUS form at_least nodes.now }
    ensures capacity { vec_capacity found.old ≤ vec_capacity found.new }
{
    for node in nodes {
        let value = value_of::<F>(form, node);
        if is_at_least(value, at_least) {
            found
                .push(Entry {
                    index: node.index,
                    value,
                })
                .unwrap();
        }
    }
}

// Whether an entry is at least this.
pub(crate) fn is_at_least(value: i64, at_least: u64) -> bool
    ensures { result ≡ int_le (pos at_least) value }
{
    value >= 0 && value as u64 >= at_least
}

// The entry that a leaf stands for.
fn value_of<F: Field>(form: LeafForm, leaf: &Node) -> i64
    requires { leaf.now.count < 2 ^ 61 }
    ensures { result ≡ heavy.value_of F.MODULUS form leaf.now }
{
    match form {
        LeafForm::Count => leaf.count as i64,
        LeafForm::Mark => signed_of(F::of(leaf.hash)),
    }
}

// The number of least size that has this residue.
pub(crate) fn signed_of<F: Field>(residue: F) -> i64
    ensures { (h : ℕ) → F.number residue ≡ h % F.MODULUS → result ≡ heavy.signed F.MODULUS h }
{
    let number = residue.number();
    if number <= F::HALF {
        number as i64
    } else {
        number as i64 - F::MODULUS as i64
    }
}
