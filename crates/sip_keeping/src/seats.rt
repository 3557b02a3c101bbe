//! The words that ask for the seats of a sketch.

ghost use Rattle.std.specs.Prelude.{◌≡◌, ◌≢◌, ℕ, ◌+◌, ◌<◌, ◌≤◌, ◌^◌, ◌++◌, IsTrue, MatchOption};
ghost use Rattle.std.specs.Prelude.{IfErr, IfOk, decimal, drop, length, replicate, false};
ghost use Rattle.sip_sketch.specs.Sketches.{most_seats};
ghost use Rattle.sip_keeping.specs.Words.{AreSeats, seats_word};
ghost use Rattle.sip_sketch.specs.declared.kind.SeatKind.{SeatKind as AnyKind};
ghost use Rattle.sip_keeping.specs.inside.SoFar.{StopsInSeats};

use arrayvec::ArrayVec;
use sip_sketch::SeatKind;
use sip_vector::Side;
use sip_words::{Usage, Words, read_decimal};

/// A sketch has at most so many seats.
pub const MOST_SEATS: usize = 64;

// The number behind this front of a word.
fn number_behind(front: &str, word: &str) -> Option<u64>
    ensures { MatchOption result
        ((n : ℕ) → n < 2 ^ 64 → word.now ≢ front.now ++ decimal n)
        (λ n. word.now ≡ front.now ++ decimal n) }
{
    read_decimal(word.strip_prefix(front)?)
}

// The kind and the number of seats that a word asks for, be it 0.
fn spelled(word: &str) -> Option<(SeatKind, u64)>
    ensures { MatchOption result
        ((kind : AnyKind) (count : ℕ) → count < 2 ^ 64 → word.now ≢ seats_word kind count)
        (λ group. (group.1 < 2 ^ 64) × (word.now ≡ seats_word group.0 group.1)) }
{
    if let Some(count) = number_behind("entries:", word) {
        return Some((SeatKind::Entries, count));
    }
    if let Some(count) = number_behind("sums:0:", word) {
        return Some((SeatKind::Sums(Side::First), count));
    }
    if let Some(count) = number_behind("sums:1:", word) {
        return Some((SeatKind::Sums(Side::Second), count));
    }
    if let Some(count) = number_behind("products:", word) {
        return Some((SeatKind::Products, count));
    }
    if let Some(count) = number_behind("heavy:0:", word) {
        return Some((SeatKind::Heavy(Side::First), count));
    }
    if let Some(count) = number_behind("heavy:1:", word) {
        return Some((SeatKind::Heavy(Side::Second), count));
    }
    if let Some(count) = number_behind("above:0:", word) {
        return Some((SeatKind::Above(Side::First), count));
    }
    let count = number_behind("above:1:", word)?;
    Some((SeatKind::Above(Side::Second), count))
}

// Adds so many seats of a kind.
fn add_all(kinds: &mut ArrayVec<SeatKind, MOST_SEATS>, kind: SeatKind, count: usize)
    requires { length kinds.old.items + count ≤ most_seats }
    ensures { kinds.new.items ≡ kinds.old.items ++ replicate count kind }
{
    for _ in 0..count {
        kinds.push(kind);
    }
}

// Adds the seats that a word asks for, and answers whether it asks for one at least and there is
// room for them.
fn add_asked(kinds: &mut ArrayVec<SeatKind, MOST_SEATS>, word: &str) -> bool
    ensures added { IsTrue result → (kind : AnyKind) × (count : ℕ) × (1 ≤ count)
        × (word.now ≡ seats_word kind count) × (length kinds.old.items + count ≤ most_seats)
        × (kinds.new.items ≡ kinds.old.items ++ replicate count kind) }
    ensures none { result ≡ false → (kind : AnyKind) (count : ℕ) → 1 ≤ count
        → length kinds.old.items + count ≤ most_seats → word.now ≢ seats_word kind count }
{
    let Some((kind, count)) = spelled(word) else {
        return false;
    };
    let room = MOST_SEATS - kinds.len();
    if count == 0 || count > room as u64 {
        return false;
    }
    add_all(kinds, kind, count as usize);
    true
}

/// The kinds of the seats that the words from this number on ask for.
///
/// # Errors
///
/// The number of the first that asks for none, or for more than there is room for.
pub(crate) fn read_seats(
    words: &Words,
    first: usize,
) -> Result<ArrayVec<SeatKind, MOST_SEATS>, Usage>
    requires some { first ≤ length words.now }
    requires few { first ≤ 5 }
    ensures seats { IfOk result (λ kinds. AreSeats (drop first words.now) kinds.items
        × (1 ≤ length kinds.items) × (length kinds.items ≤ most_seats)) }
    ensures refused { IfErr result (λ usage. StopsInSeats words.now first usage.word) }
{
    let mut kinds = ArrayVec::new();
    for number in first..first + MOST_SEATS {
        let Some(word) = words.get(number) else {
            return if number == first {
                Err(Usage {
                    word: number as u32,
                })
            } else {
                Ok(kinds)
            };
        };
        if !add_asked(&mut kinds, word) {
            return Err(Usage {
                word: number as u32,
            });
        }
    }
    if words.get(first + MOST_SEATS).is_some() {
        return Err(Usage {
            word: (first + MOST_SEATS) as u32,
        });
    }
    Ok(kinds)
}
