//! What a seat of a sketch serves.

ghost use Rattle.std.specs.Prelude.{◌≡◌, ◌≤◌, length};
ghost use Rattle.sip_sketch.specs.SeatLines.{kind_word};
ghost use Rattle.sip_sketch.specs.Seats.{side_of};
ghost use Rattle.sip_sketch.specs.Sketches.{code_of};

use sip_vector::Side;

/// What a seat serves, and so what is kept for it.
#[derive(Clone, Copy, Debug, PartialEq, Eq, Default)]
pub enum SeatKind {
    /// Entries of side 0, and the next one above or below an item: the root of side 0.
    #[default]
    Entries,
    /// Range sums, second moments and higher ones of a side: the extension of the side.
    Sums(Side),
    /// The inner product: the extensions of both sides.
    Products,
    /// Heavy hitters of a side: the root of its augmented tree.
    Heavy(Side),
    /// Large entries of a side, also where others are below 0: the root of its split tree.
    Above(Side),
}

impl SeatKind {
    /// Its code in a file, from 1 to 8.
    pub fn code(self) -> u8
        ensures { result ≡ code_of self }
    {
        match self {
            SeatKind::Entries => 1,
            SeatKind::Sums(Side::First) => 2,
            SeatKind::Sums(Side::Second) => 3,
            SeatKind::Products => 4,
            SeatKind::Heavy(Side::First) => 5,
            SeatKind::Heavy(Side::Second) => 6,
            SeatKind::Above(Side::First) => 7,
            SeatKind::Above(Side::Second) => 8,
        }
    }

    /// The word by which a seat of the kind is asked for, without a number.
    pub fn word(self) -> &'static str
        ensures word { result.now ≡ kind_word self }
        ensures len { length result.now ≤ 8 }
    {
        match self {
            SeatKind::Entries => "entries",
            SeatKind::Sums(Side::First) => "sums:0",
            SeatKind::Sums(Side::Second) => "sums:1",
            SeatKind::Products => "products",
            SeatKind::Heavy(Side::First) => "heavy:0",
            SeatKind::Heavy(Side::Second) => "heavy:1",
            SeatKind::Above(Side::First) => "above:0",
            SeatKind::Above(Side::Second) => "above:1",
        }
    }

    /// The side whose vector it is about; the first, where it is about both.
    pub fn side(self) -> Side
        ensures { result ≡ side_of self }
    {
        match self {
            SeatKind::Entries | SeatKind::Products => Side::First,
            SeatKind::Sums(side) | SeatKind::Heavy(side) | SeatKind::Above(side) => side,
        }
    }

    /// The kind that has this code.
    pub(crate) fn of_code(code: u64) -> SeatKind
        requires least { 1 ≤ code }
        requires most { code ≤ 8 }
        ensures { code_of result ≡ code }
    {
        match code {
            1 => SeatKind::Entries,
            2 => SeatKind::Sums(Side::First),
            3 => SeatKind::Sums(Side::Second),
            4 => SeatKind::Products,
            5 => SeatKind::Heavy(Side::First),
            6 => SeatKind::Heavy(Side::Second),
            7 => SeatKind::Above(Side::First),
            _ => SeatKind::Above(Side::Second),
        }
    }
}
