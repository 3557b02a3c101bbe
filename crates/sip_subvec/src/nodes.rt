//! Nodes of a level as weighted sums over the entries below them.

ghost use Rattle.std.specs.Prelude.{◌≡◌, ℕ, List, [], ◌+◌, ◌-◌, ◌*◌, ◌%◌, ◌^◌, ◌<◌, ◌≤◌};
ghost use Rattle.std.specs.Prelude.{length, map, take, drop, filter, IfOk};
ghost use Rattle.sip_field.specs.Products.{zero_factor, bits_product, AreTables};
ghost use Rattle.sip_field.specs.declared.factors.Factors.TheVariants.{Tree};
ghost use Rattle.sip_subvec.specs.Checking.{entries_sum};
ghost use Rattle.sip_subvec.specs.Summing.{Rises, entries_below};
ghost use Rattle.sip_vector.specs.Answers.{is_within};
ghost use Rattle.sip_vector.specs.Limits.{most_depth};
ghost use Rattle.sip_vector.specs.Vectors.{nonzero};

use sip_field::{
    Factors, Field, OutOfMemory, Seat, by_tables, fill_tables, loosely_by_tables, of_wide,
};
use sip_vector::{CAP, Entry, Vector};
use std::alloc::Global;
use std::rc::Rc;

// A vector's entries that are not 0, as a list that the vector has no way to change: its own list,
// which is shared and not copied, in O(1); where additions are pending a new one, by a walk.
pub(crate) fn entries_of(alloc: Global, vector: &Vector) -> Result<Rc<Vec<Entry>>, OutOfMemory>
    ensures { IfOk result (λ list. list.value.items ≡ nonzero vector.now.numbers) }
{
    if let Some(list) = vector.shared_entries()? {
        return Ok(list);
    }
    let list = walked(alloc, vector)?;
    Ok(Rc::new(alloc, list)?)
}

// A new list of them, which is right for every vector.
fn walked(alloc: Global, vector: &Vector) -> Result<Vec<Entry>, OutOfMemory>
    ensures { IfOk result (λ list. list.items ≡ nonzero vector.now.numbers) }
{
    let hi = (1u64 << vector.depth().get()) - 1;
    let mut list = Vec::new(alloc);
    let mut at = 0;
    while let Some(entry) = vector.next_entry(at, hi) {
        list.push(entry)?;
        at = entry.index + 1;
    }
    Ok(list)
}

// Makes the tables of all these challenges, and says how many they are. 255 `times` for eight
// challenges.
pub(crate) fn tables_of<F: Field>(tables: &mut [[u64; 256]; 6], challenges: &[F]) -> usize
    requires { length challenges.now ≤ most_depth }
    ensures count { result ≤ 6 }
    ensures all { length challenges.now ≤ 8 * result }
    ensures tables { AreTables F.MODULUS (zero_factor F.MODULUS Tree)
        (map F.number challenges.now) (take result tables.new) }
{
    match Seat::<F, CAP>::of(challenges) {
        Some(seat) => fill_tables(tables, &seat, Factors::Tree),
        None => 0,
    }
}

// The node at `index` of the level that is `height` challenges above these entries, by the tables
// of these challenges. One `times` for each table and entry below the node.
pub(crate) fn node<F: Field>(
    entries: &[Entry],
    tables: &[[u64; 256]],
    height: usize,
    index: u64,
) -> F
    requires deep { height ≤ most_depth }
    requires within { index < 2 ^ (most_depth - height) }
    ensures { (challenges : List ℕ) → length challenges ≡ height
        → AreTables F.MODULUS (zero_factor F.MODULUS Tree) challenges tables.now
        → length challenges ≤ 8 * length tables.now → Rises 0 entries.now
        → F.number result
        ≡ entries_sum F.MODULUS challenges (entries_below height index entries.now)
        % F.MODULUS }
{
    let size = 1u64 << height;
    let first = index << height;
    weighed(stretch(entries, first, first + (size - 1)), tables, size)
}

// The entries of a rising list from `first` to `last`. O(log m).
fn stretch(entries: &[Entry], first: u64, last: u64) -> &[Entry]
    ensures { Rises 0 entries.now
        → result.now ≡ filter (λ e. is_within first last e.index) entries.now }
{
    let to = entries.partition_point(|entry| entry.index <= last);
    let front = &entries[..to];
    let from = front.partition_point(|entry| entry.index < first);
    &front[from..]
}

// How many of the lowest tables are looked up in for each of these entries, of so many: some 32 of
// them have in common what the tables above say, where they lie evenly below `size` indices.
fn own_tables(entries: &[Entry], size: u64, count: usize) -> usize
    ensures most { result ≤ count }
    ensures few { result ≤ 6 }
{
    let most = count.min(6);
    let mut reach = size / (entries.len() as u64 + 1) / 4;
    for own in 1..most {
        if reach == 0 {
            return own;
        }
        reach /= 256;
    }
    most
}

// The sum of these entries, each times the product of the challenges at the bits of its index that
// are 1. There are as many challenges as `size` has bits 0, and the higher bits of an index count
// nothing.
fn weighed<F: Field>(entries: &[Entry], tables: &[[u64; 256]], size: u64) -> F
    requires some { 0 < size }
    ensures { (challenges : List ℕ) → size ≡ 2 ^ length challenges
        → AreTables F.MODULUS (zero_factor F.MODULUS Tree) challenges tables.now
        → length challenges ≤ 8 * length tables.now
        → F.number result ≡ entries_sum F.MODULUS challenges entries.now % F.MODULUS }
{
    let own = own_tables(entries, size, tables.len());
    let (low, high) = tables.split_at(own);
    weighed_by(entries, low, high, size)
}

// The same by the tables of the lowest bits, which are looked up in for each entry, and by those of
// the others. For each number of the former there is a loop of its own, since one that the compiler
// knows the length of takes two thirds of the time.
fn weighed_by<F: Field>(entries: &[Entry], low: &[[u64; 256]], high: &[[u64; 256]], size: u64) -> F
    requires some { 0 < size }
    requires few { length low.now ≤ 6 }
    ensures { (challenges : List ℕ) → size ≡ 2 ^ length challenges
        → AreTables F.MODULUS (zero_factor F.MODULUS Tree)
        (take (8 * length low.now) challenges) low.now
        → AreTables F.MODULUS (zero_factor F.MODULUS Tree)
        (drop (8 * length low.now) challenges) high.now
        → length (drop (8 * length low.now) challenges) ≤ 8 * length high.now
        → F.number result ≡ entries_sum F.MODULUS challenges entries.now % F.MODULUS }
{
    match low.len() {
        0 => summed::<F, 0>(entries, low, high, size),
        1 => summed::<F, 1>(entries, low, high, size),
        2 => summed::<F, 2>(entries, low, high, size),
        3 => summed::<F, 3>(entries, low, high, size),
        4 => summed::<F, 4>(entries, low, high, size),
        5 => summed::<F, 5>(entries, low, high, size),
        _ => summed::<F, 6>(entries, low, high, size),
    }
}

// The same where N tables are looked up in for each entry. Entries near each other have their
// higher bits in common, and these bits' product is looked up once for them.
fn summed<F: Field, const N: usize>(
    entries: &[Entry],
    low: &[[u64; 256]],
    high: &[[u64; 256]],
    size: u64,
) -> F
    requires exact { length low.now ≡ N }
    requires few { N ≤ 6 }
    requires some { 0 < size }
    ensures { (challenges : List ℕ) → size ≡ 2 ^ length challenges
        → AreTables F.MODULUS (zero_factor F.MODULUS Tree)
        (take (8 * length low.now) challenges) low.now
        → AreTables F.MODULUS (zero_factor F.MODULUS Tree)
        (drop (8 * length low.now) challenges) high.now
        → length (drop (8 * length low.now) challenges) ≤ 8 * length high.now
        → F.number result ≡ entries_sum F.MODULUS challenges entries.now % F.MODULUS }
{
    let reach = 1u64 << (8 * N);
    let mut sums = Near {
        sum: F::of(0),
        near: 0,
        path: 0,
    };
    for entry in entries {
        let place = entry.index % size;
        sums = moved_to(sums, high, place / reach);
        let value = F::loose_signed(entry.value);
        // No sum of as many numbers of 64 bits as memory holds leaves 128 bits.
        sums.near += u128::from(loosely_by_tables::<F, N>(value, low, place % reach));
    }
    sums.sum
        .plus(by_tables(of_wide(sums.near), high, sums.path))
}

// A sum, and beside it a number with the residue of the sum of the entries that have a path in
// common, the higher bits of their indices: that one counts as often as the product of the path.
#[derive(Clone, Copy)]
struct Near<F: Field> {
    sum: F,
    near: u128,
    path: u64,
}

// The same sum, with another path.
fn moved_to<F: Field>(sums: Near<F>, high: &[[u64; 256]], path: u64) -> Near<F>
    ensures path { result.path ≡ path }
    ensures near { result.near ≤ sums.near }
    ensures sum { (challenges : List ℕ)
        → AreTables F.MODULUS (zero_factor F.MODULUS Tree) challenges high.now
        → length challenges ≤ 8 * length high.now → sums.path < 2 ^ length challenges
        → (F.number result.sum + result.near
        * bits_product F.MODULUS (zero_factor F.MODULUS Tree) path challenges) % F.MODULUS
        ≡ (F.number sums.sum + sums.near
        * bits_product F.MODULUS (zero_factor F.MODULUS Tree) sums.path challenges) % F.MODULUS }
{
    if sums.path == path {
        return sums;
    }
    Near {
        sum: sums
            .sum
            .plus(by_tables(of_wide(sums.near), high, sums.path)),
        near: 0,
        path,
    }
}
