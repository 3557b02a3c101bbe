//! Which seats of a sketch are left for questions.

ghost use Rattle.std.specs.Prelude.{◌≡◌, ◌+◌, ◌≤◌, ◌++◌, length};
ghost use Rattle.arrayvec.specs.ArrayVec.{array_vec_len};
ghost use Rattle.sip_sketch.specs.Sketches.{most_seats};
ghost use Rattle.sip_keeping.specs.AskHints.{count_left, is_left, left_line, left_of, left_word};
ghost use Rattle.sip_keeping.specs.AskHints.{none_left};

use arrayvec::ArrayVec;
use sip_sketch::{SeatKind, Sketch, SketchSeat};
use sip_stream::text::{put, put_number};
use sip_vector::Side;

/// Room for the line that tells of them.
const ROOM: usize = 320;

/// How many seats of each kind a sketch has that no question used.
#[derive(Clone, Copy, Debug, PartialEq, Eq, Default)]
pub struct SeatsLeft {
    /// For entries, and the next one above or below an item.
    pub entries: u64,
    /// For sums of side 0.
    pub first_sums: u64,
    /// For sums of side 1.
    pub second_sums: u64,
    /// For inner products.
    pub products: u64,
    /// For heavy hitters of side 0.
    pub first_heavy: u64,
    /// For heavy hitters of side 1.
    pub second_heavy: u64,
    /// For large entries of side 0, also where others are below 0.
    pub first_large: u64,
    /// For those of side 1.
    pub second_large: u64,
}

// Whether a seat is of this kind, and no question has used it.
fn is_left(kind: SeatKind, seat: &SketchSeat) -> bool
    ensures { result ≡ is_left kind seat.now }
{
    seat.kind().code() == kind.code() && !seat.is_used()
}

// How many of them are.
fn count_left(kind: SeatKind, seats: &[SketchSeat]) -> u64
    requires { length seats.now ≤ most_seats }
    ensures { result ≡ count_left kind seats.now }
{
    let mut count = 0;
    for seat in seats {
        if is_left(kind, seat) {
            count += 1;
        }
    }
    count
}

// Adds the word that asks for so many seats of a kind, if there are some.
fn put_left(gathered: &mut ArrayVec<u8, ROOM>, kind: SeatKind, count: u64)
    requires { array_vec_len gathered.old + 30 ≤ ROOM }
    ensures items { gathered.new.items ≡ gathered.old.items ++ left_word kind count }
    ensures len { array_vec_len gathered.new ≤ array_vec_len gathered.old + 30 }
{
    if count == 0 {
        return;
    }
    put(gathered, b" ");
    put(gathered, kind.word().as_bytes());
    put(gathered, b":");
    put_number(gathered, count);
}

impl SeatsLeft {
    /// Those of a sketch.
    pub fn of(sketch: &Sketch) -> SeatsLeft
        ensures { result ≡ left_of sketch.now.seats }
    {
        let seats = sketch.seats();
        SeatsLeft {
            entries: count_left(SeatKind::Entries, seats),
            first_sums: count_left(SeatKind::Sums(Side::First), seats),
            second_sums: count_left(SeatKind::Sums(Side::Second), seats),
            products: count_left(SeatKind::Products, seats),
            first_heavy: count_left(SeatKind::Heavy(Side::First), seats),
            second_heavy: count_left(SeatKind::Heavy(Side::Second), seats),
            first_large: count_left(SeatKind::Above(Side::First), seats),
            second_large: count_left(SeatKind::Above(Side::Second), seats),
        }
    }

    /// Whether there is none.
    pub(crate) fn is_none(&self) -> bool
        ensures { result ≡ none_left self.now }
    {
        self.entries == 0
            && self.first_sums == 0
            && self.second_sums == 0
            && self.products == 0
            && self.first_heavy == 0
            && self.second_heavy == 0
            && self.first_large == 0
            && self.second_large == 0
    }

    /// The line of advice that tells of them, in the words that ask for seats.
    pub(crate) fn line(&self) -> ArrayVec<u8, ROOM>
        ensures { result.items ≡ left_line self.now }
    {
        let mut gathered = ArrayVec::new();
        put(&mut gathered, b"sip: hint: seats that are left:");
        put_left(&mut gathered, SeatKind::Entries, self.entries);
        put_left(&mut gathered, SeatKind::Sums(Side::First), self.first_sums);
        put_left(
            &mut gathered,
            SeatKind::Sums(Side::Second),
            self.second_sums,
        );
        put_left(&mut gathered, SeatKind::Products, self.products);
        put_left(
            &mut gathered,
            SeatKind::Heavy(Side::First),
            self.first_heavy,
        );
        put_left(
            &mut gathered,
            SeatKind::Heavy(Side::Second),
            self.second_heavy,
        );
        put_left(
            &mut gathered,
            SeatKind::Above(Side::First),
            self.first_large,
        );
        put_left(
            &mut gathered,
            SeatKind::Above(Side::Second),
            self.second_large,
        );
        put(&mut gathered, b"\n");
        gathered
    }
}
