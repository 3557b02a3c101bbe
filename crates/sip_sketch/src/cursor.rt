//! Reads a file, number by number.

ghost use Rattle.std.specs.Prelude.{◌≡◌, ◌≤◌, ℕ, [], ◌∷◌, length, take, drop, nat_lt, Some, None};
ghost use Rattle.std.specs.Prelude.{IfOk, if◌then◌else◌};
ghost use Rattle.std.specs.Int.{byte_len, from_be_bytes};
ghost use Rattle.sip_sketch.specs.Fields.{Fields, one, width_of};
ghost use Rattle.sip_sketch.specs.Sketches.{negatives_field, ranged};

use crate::SketchFault;

/// How many bytes a number takes.
#[derive(Clone, Copy, Debug, PartialEq, Eq)]
pub(crate) enum Size {
    /// 1.
    Byte,
    /// 4.
    Word,
    /// 8.
    Long,
}

impl Size {
    /// How many.
    pub(crate) fn bytes(self) -> usize
        ensures { result ≡ byte_len (width_of self) }
    {
        match self {
            Size::Byte => 1,
            Size::Word => 4,
            Size::Long => 8,
        }
    }

    // The number in front of these bytes, big endian; `None` where they end in it.
    fn number_of(self, bytes: &[u8]) -> Option<u64>
        ensures { result ≡ (if nat_lt (length bytes.now) (byte_len (width_of self)) then None
            else Some (from_be_bytes (width_of self) (take (byte_len (width_of self)) bytes.now))) }
    {
        if bytes.len() < self.bytes() {
            return None;
        }
        Some(match self {
            Size::Byte => u64::from(bytes[0]),
            Size::Word => u64::from(u32::from_be_bytes([bytes[0], bytes[1], bytes[2], bytes[3]])),
            Size::Long => u64::from_be_bytes([
                bytes[0], bytes[1], bytes[2], bytes[3], bytes[4], bytes[5], bytes[6], bytes[7],
            ]),
        })
    }
}

/// Bytes, and how many of them were read.
#[derive(Drop)]
pub(crate) struct Cursor<'a> {
    pub(crate) bytes: &'a [u8],
    pub(crate) at: usize,
    ghost within: { at ≤ length bytes.now },
}

impl<'a> Cursor<'a> {
    ghost use Rattle.sip_sketch.specs.Reading.{Takes};

    /// In front of these bytes.
    pub(crate) fn new(bytes: &'a [u8]) -> Cursor<'a>
        ensures bytes { result.bytes.now ≡ bytes.now }
        ensures at { result.at ≡ 0 }
    {
        Cursor { bytes, at: 0 }
    }

    /// The next number, from `least` to `most`.
    pub(crate) fn number(&mut self, size: Size, least: u64, most: u64) -> Result<u64, SketchFault>
        ensures takes { (behind : ℕ → Fields) → Takes self.old self.new
            (one (ranged size least most) behind) (λ x. x ∷ []) behind result }
        ensures least { IfOk result (λ x. least ≤ x) }
        ensures most { IfOk result (λ x. x ≤ most) }
    {
        match size.number_of(&self.bytes[self.at..]) {
            Some(value) if least <= value && value <= most => {
                self.at += size.bytes();
                Ok(value)
            }
            _ => Err(SketchFault::Bad { offset: self.at }),
        }
    }

    /// Which sides of these weights had a delta below 0: 1 for side 0, and 2 for side 1.
    pub(crate) fn negatives(&mut self, first: u64, second: u64) -> Result<u64, SketchFault>
        ensures takes { (behind : ℕ → Fields) → Takes self.old self.new
            (one (negatives_field first second) behind) (λ x. x ∷ []) behind result }
        ensures most { IfOk result (λ x. x ≤ 3) }
    {
        match Size::Byte.number_of(&self.bytes[self.at..]) {
            Some(bits)
                if bits < 4 && (bits % 2 == 0 || first > 0) && (bits / 2 == 0 || second > 0) => {
                self.at += 1;
                Ok(bits)
            }
            _ => Err(SketchFault::Bad { offset: self.at }),
        }
    }
}
