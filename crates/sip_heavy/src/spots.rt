//! A level kept by its nodes that are not zero.

ghost use Rattle.std.specs.Prelude.{◌≡◌, ℕ, ◌/◌, ◌^◌, ◌<◌, ◌≤◌, ◌↔◌, pos, ◌≤ℤ◌, All, length, map, drop};
ghost use Rattle.std.specs.Prelude.{◌∷◌, ◌++◌, slice_get, nat_lt, true, false, IfOk, IfSome, IsSome};
ghost use Rattle.std.specs.Prelude.{IsTrue};
ghost use Rattle.std.specs.Prelude.{Bool as AnyBool};
ghost use Rattle.std.specs.List.Sorted.{IsPartitionPoint};
ghost use Rattle.sip_field.specs.Residue.{product_mod};
ghost use Rattle.sip_vector.specs.Vectors.{nonzero};
ghost use Rattle.sip_heavy.specs.AcceptsHeavy as heavy;
ghost use Rattle.sip_heavy.specs.Honest as honest;
ghost use Rattle.sip_heavy.specs.Rising.{Rises};
ghost use Rattle.sip_heavy.specs.Spots as spots_of;

use crate::level::{half, is_at_least, joined};
use sip_field::{Field, OutOfMemory};
use sip_vector::{Entry, Vector};
use sip_wire::Node;
use std::alloc::Global;

// The leaves over a vector's numbers that are not 0. O(m), and slower where additions are pending
// in the vector.
pub(crate) fn leaves_of<F: Field>(alloc: Global, vector: &Vector) -> Result<Vec<Node>, OutOfMemory>
    requires strict { All (λ a. pos 0 ≤ℤ a) vector.now.numbers }
    ensures { IfOk result (λ spots. spots.items
        ≡ map (spots_of.leaf_of_entry F.MODULUS) (nonzero vector.now.numbers)) }
{
    if let Some(entries) = vector.entries() {
        return listed::<F>(alloc, entries);
    }
    let entries = vector.entries_with_pending(alloc)?;
    listed::<F>(alloc, &entries)
}

// The leaves of entries none of which is negative.
fn listed<F: Field>(alloc: Global, entries: &[Entry]) -> Result<Vec<Node>, OutOfMemory>
    requires { All (λ e. pos 0 ≤ℤ e.value) entries.now }
    ensures { IfOk result (λ spots. spots.items
        ≡ map (spots_of.leaf_of_entry F.MODULUS) entries.now) }
{
    let mut spots = Vec::with_capacity(alloc, entries.len())?;
    for entry in entries {
        spots.push(Node {
            index: entry.index,
            hash: F::of_signed(entry.value).number(),
            count: entry.value.unsigned_abs(),
        })?;
    }
    Ok(spots)
}

// The marks over the weights that are not 0, each with its value; `None` where a weight is below the
// size of its value. O(m), and slower where additions are pending in a vector.
pub(crate) fn marks_of<F: Field>(
    alloc: Global,
    values: &Vector,
    weights: &Vector,
) -> Result<Option<Vec<Node>>, OutOfMemory>
    ensures covered { IfOk result (λ made. IsSome made ↔ IsTrue (spots_of.are_covered
        (nonzero values.now.numbers) (nonzero weights.now.numbers))) }
    ensures marks { IfOk result (λ made. IfSome made (λ spots. spots.items
        ≡ spots_of.marked_entries F.MODULUS (nonzero values.now.numbers)
        (nonzero weights.now.numbers))) }
{
    if let Some(entries) = values.entries() {
        return marks_with::<F>(alloc, entries, weights);
    }
    let entries = values.entries_with_pending(alloc)?;
    marks_with::<F>(alloc, &entries, weights)
}

// The same, where the values that are not 0 are these.
fn marks_with<F: Field>(
    alloc: Global,
    values: &[Entry],
    weights: &Vector,
) -> Result<Option<Vec<Node>>, OutOfMemory>
    ensures covered { IfOk result (λ made. IsSome made ↔ IsTrue (spots_of.are_covered values.now
        (nonzero weights.now.numbers))) }
    ensures marks { IfOk result (λ made. IfSome made (λ spots. spots.items
        ≡ spots_of.marked_entries F.MODULUS values.now (nonzero weights.now.numbers))) }
{
    if let Some(entries) = weights.entries() {
        return marked::<F>(alloc, values, entries);
    }
    let entries = weights.entries_with_pending(alloc)?;
    marked::<F>(alloc, values, &entries)
}

// The marks of these weights, by one walk over both lists.
fn marked<F: Field>(
    alloc: Global,
    values: &[Entry],
    weights: &[Entry],
) -> Result<Option<Vec<Node>>, OutOfMemory>
    ensures covered { IfOk result (λ made. IsSome made
        ↔ IsTrue (spots_of.are_covered values.now weights.now)) }
    ensures marks { IfOk result (λ made. IfSome made (λ spots. spots.items
        ≡ spots_of.marked_entries F.MODULUS values.now weights.now)) }
{
    let mut spots = Vec::with_capacity(alloc, weights.len())?;
    let mut rest = values;
    for weight in weights {
        let found = value_at(rest, weight.index);
        if !is_at_least(weight.value, found.value.unsigned_abs()) {
            return Ok(None);
        }
        rest = found.behind;
        spots.push(Node {
            index: weight.index,
            hash: F::of_signed(found.value).number(),
            count: weight.value.unsigned_abs(),
        })?;
    }
    if !rest.is_empty() {
        return Ok(None);
    }
    Ok(Some(spots))
}

// The value at an index, and the entries behind it.
#[derive(Clone, Copy)]
struct Found<'a> {
    value: i64,
    behind: &'a [Entry],
}

// The value at an index where the first of these entries stands there, and else 0.
fn value_at(values: &[Entry], index: u64) -> Found<'_>
    ensures value { result.value ≡ spots_of.value_at index values.now }
    ensures behind { result.behind.now ≡ spots_of.behind_value index values.now }
{
    match values {
        [first, behind @ ..] if first.index == index => Found {
            value: first.value,
            behind,
        },
        _ => Found {
            value: 0,
            behind: values,
        },
    }
}

// Two siblings of which one at least is not zero, and how many nodes of a list they are.
#[derive(Clone, Copy)]
struct Pair {
    left: Node,
    right: Node,
    spots: usize,
}

// The node that is zero at an index.
fn zero_at(index: u64) -> Node
    ensures { result ≡ spots_of.zero_at index }
{
    Node {
        index,
        hash: 0,
        count: 0,
    }
}

// The pair of the first of these nodes: with the second one where that is its sibling, and else
// with a zero.
fn first_pair(spots: &[Node]) -> Pair
    requires some { 0 < length spots.now }
    requires small { All (λ x. x.index < 2 ^ 48) spots.now }
    requires light { All (λ x. x.count < 2 ^ 61) spots.now }
    ensures light_left { result.left.count < 2 ^ 61 }
    ensures light_right { result.right.count < 2 ^ 61 }
    ensures some { 1 ≤ result.spots }
    ensures within { result.spots ≤ length spots.now }
    ensures above { (p r : ℕ) → spots_of.spots_above p r spots.now
        ≡ heavy.joined p r result.left result.right
        ∷ spots_of.spots_above p r (drop result.spots spots.now) }
    ensures shown { (t : ℕ) (is_leaf : AnyBool) → spots_of.shown_spots t is_leaf spots.now
        ≡ honest.shown_pair t is_leaf result.left result.right
        ++ spots_of.shown_spots t is_leaf (drop result.spots spots.now) }
{
    let first = spots[0];
    if let [_, second, ..] = spots {
        if first.index / 2 == second.index / 2 {
            return Pair {
                left: first,
                right: *second,
                spots: 2,
            };
        }
    }
    if first.index % 2 == 0 {
        return Pair {
            left: first,
            right: zero_at(first.index + 1),
            spots: 1,
        };
    }
    Pair {
        left: zero_at(first.index - 1),
        right: first,
        spots: 1,
    }
}

// The node above the first of these nodes, and how many of them lie below it.
#[derive(Clone, Copy)]
struct Above {
    node: Node,
    spots: usize,
}

// The node above one that has a zero beside it, by its hash.
fn above_one<F: Field>(node: Node, hash: F) -> Node
    ensures { result ≡ record {
      index = node.index / 2;
      hash = F.number hash;
      count = node.count;
    } }
{
    Node {
        index: node.index / 2,
        hash: hash.number(),
        count: node.count,
    }
}

// The same by the challenge and its square. One product for a left child, and two for a right one.
fn raised<F: Field>(r: F, square: F, node: Node) -> Node
    requires square { F.number square ≡ product_mod F.MODULUS (F.number r) (F.number r) }
    requires hash { node.hash < 2 ^ 61 }
    requires count { node.count < 2 ^ 61 }
    ensures { result ≡ heavy.joined F.MODULUS (F.number r)
        (spots_of.left_of node) (spots_of.right_of node) }
{
    let half = half(r, node.hash, node.count);
    if node.index % 2 == 0 {
        return above_one(node, F::of(half));
    }
    above_one(node, F::of(F::loose_times(half, square.number())))
}

// The node above the first of these nodes.
fn first_above<F: Field>(spots: &[Node], r: F, square: F) -> Above
    requires square { F.number square ≡ product_mod F.MODULUS (F.number r) (F.number r) }
    requires some { 0 < length spots.now }
    requires light { All (λ x. x.count < 2 ^ 61) spots.now }
    requires hashes { All (λ x. x.hash < F.MODULUS) spots.now }
    ensures some { 1 ≤ result.spots }
    ensures within { result.spots ≤ length spots.now }
    ensures above { spots_of.spots_above F.MODULUS (F.number r) spots.now ≡ result.node
        ∷ spots_of.spots_above F.MODULUS (F.number r) (drop result.spots spots.now) }
{
    let first = spots[0];
    if let [_, second, ..] = spots {
        if first.index / 2 == second.index / 2 {
            return Above {
                node: joined(r, square, first, *second),
                spots: 2,
            };
        }
    }
    Above {
        node: raised(r, square, first),
        spots: 1,
    }
}

// Writes the nodes above over these. A node above comes after one node or two, so it never takes
// the place of one that is still to be read. At most three products for each node above.
pub(crate) fn fold_spots<F: Field>(spots: &mut Vec<Node>, r: F)
    requires light { All (λ x. x.count < 2 ^ 61) spots.old.items }
    requires hashes { All (λ x. x.hash < F.MODULUS) spots.old.items }
    ensures { spots.new.items
        ≡ spots_of.spots_above F.MODULUS (F.number r) spots.old.items }
{
    let square = r.times(r);
    let mut written = 0;
    let mut read = 0;
    while read < spots.len() {
        let above = first_above(&spots[read..], r, square);
        spots[written] = above.node;
        read += above.spots;
        written += 1;
    }
    spots.truncate(written);
}

// The first child of a pair that is shown, at an index or after it.
fn shown_of(pair: Pair, at_least: u64, is_leaf: bool, from: u64) -> Option<Node>
    requires left { pair.left.count < 2 ^ 61 }
    requires right { pair.right.count < 2 ^ 61 }
    ensures { result ≡ slice_get
        (spots_of.from_on from (honest.shown_pair at_least is_leaf pair.left pair.right)) 0 }
{
    if pair.left.count + pair.right.count < at_least {
        return None;
    }
    if pair.left.index >= from && (is_leaf || pair.left.count < at_least) {
        return Some(pair.left);
    }
    if pair.right.index >= from && (is_leaf || pair.right.count < at_least) {
        return Some(pair.right);
    }
    None
}

// The count of the node at a place; 0 behind the end.
fn count_at(spots: &[Node], place: usize) -> u64
    requires { All (λ x. x.count < 2 ^ 61) spots.now }
    ensures exact { result ≡ spots_of.count_at place spots.now }
    ensures light { result < 2 ^ 61 }
{
    match spots.get(place) {
        Some(node) => node.count,
        None => 0,
    }
}

// The first place at `from` or after it whose node is not light together with the one behind it:
// those before it show nothing, whoever their siblings are.
fn pass_light(spots: &[Node], from: usize, at_least: u64) -> usize
    requires light { All (λ x. x.count < 2 ^ 61) spots.now }
    requires rises { (least n : ℕ) × Rises least n spots.now }
    requires from { from ≤ length spots.now }
    ensures order { from ≤ result }
    ensures within { result ≤ length spots.now }
    ensures shown { (is_leaf : AnyBool)
        → spots_of.shown_spots at_least is_leaf (drop from spots.now)
        ≡ spots_of.shown_spots at_least is_leaf (drop result spots.now) }
{
    let mut place = from;
    while place < spots.len() && count_at(spots, place) + count_at(spots, place + 1) < at_least {
        place += 1;
    }
    place
}

// Whether this place parts the pairs before that of an index from the others.
fn parts_pairs(spots: &[Node], place: usize, from: u64) -> bool
    requires rises { (least n : ℕ) × Rises least n spots.now }
    ensures within { IsTrue result → place ≤ length spots.now }
    ensures parts { IsTrue result
        → IsPartitionPoint (λ x. nat_lt (x.index / 2) (from / 2) ≡ true)
        (λ x. nat_lt (x.index / 2) (from / 2) ≡ false) spots.now place }
{
    if place > spots.len() {
        return false;
    }
    if place > 0 && spots[place - 1].index / 2 >= from / 2 {
        return false;
    }
    place == spots.len() || spots[place].index / 2 >= from / 2
}

// The place that parts the pairs before that of an index from the others: `near` where it does, and
// else by a search of O(log m).
pub(crate) fn place_of(spots: &[Node], near: usize, from: u64) -> usize
    requires rises { (least n : ℕ) × Rises least n spots.now }
    ensures within { result ≤ length spots.now }
    ensures parts { IsPartitionPoint (λ x. nat_lt (x.index / 2) (from / 2) ≡ true)
        (λ x. nat_lt (x.index / 2) (from / 2) ≡ false) spots.now result }
{
    if parts_pairs(spots, near, from) {
        return near;
    }
    spots.partition_point(|spot| spot.index / 2 < from / 2)
}

// The first node that is shown of those at `start` and behind it, at an index or after it. `near`
// then tells the place that parts the pairs before that of the index behind the node.
pub(crate) fn first_shown(
    spots: &[Node],
    start: usize,
    at_least: u64,
    is_leaf: bool,
    from: u64,
    near: &mut usize,
) -> Option<Node>
    requires small { All (λ x. x.index < 2 ^ 48) spots.now }
    requires light { All (λ x. x.count < 2 ^ 61) spots.now }
    requires rises { (least n : ℕ) × Rises least n spots.now }
    requires start { start ≤ length spots.now }
    ensures { result ≡ slice_get (spots_of.from_on from
        (spots_of.shown_spots at_least is_leaf (drop start spots.now))) 0 }
{
    let mut read = pass_light(spots, start, at_least);
    while read < spots.len() {
        let pair = first_pair(&spots[read..]);
        if let Some(node) = shown_of(pair, at_least, is_leaf, from) {
            *near = if node.index % 2 == 0 {
                read
            } else {
                read + pair.spots
            };
            return Some(node);
        }
        read = pass_light(spots, read + pair.spots, at_least);
    }
    None
}
