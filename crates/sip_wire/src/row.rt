//! A row of numbers: an update, an entry, a leaf, a node, a mark or a coefficient.
#![tactic(auto, using(std::proofs::lemmas::Grind::common_steps), unfolding(crate::specs::Spelling::numbers_in, crate::specs::Spelling::all_hold, crate::specs::Spelling::has_room, crate::specs::Spelling::spelled))]

ghost use Rattle.std.specs.Prelude.{◌≡◌, ◌≤◌, refl, ◌^◌, ◌<◌, ◌+◌, ◌++◌, ◌&&◌, ℕ, List, [], ◌∷◌};
ghost use Rattle.std.specs.Prelude.{true, false, length, drop, IfSome, IfNone, FitsSigned, ⊤};
ghost use Rattle.std.specs.Int.{w64};
ghost use Rattle.arrayvec.specs.ArrayVec.{array_vec_len};
ghost use Rattle.sip_wire.specs.declared.version.Version.{Version as AnyVersion};
ghost use Rattle.sip_wire.specs.Table.{Field, size, longest_frame, update_fields, entry_fields};
ghost use Rattle.sip_wire.specs.Table.{leaf_fields, node_fields, mark_fields, element};
ghost use Rattle.sip_wire.specs.Spelling.{numbers_in, all_hold, has_room, spelled, side_number};
ghost use Rattle.sip_wire.specs.Spelling.{update_numbers, entry_numbers, leaf_numbers};
ghost use Rattle.sip_wire.specs.Spelling.{node_numbers, mark_numbers, coefficient_numbers};

use crate::Version;
use crate::message::{Leaf, Mark, Node};
use crate::numbers::{
    Bytes, is_element, is_small, put_index, put_u8, put_u64, take_index, take_u8, take_u64,
};
use sip_vector::{Entry, Side, Update};

/// What stands in a frame as a row of numbers.
pub trait Row: Copy + Default {
    ghost layout: { AnyVersion → List Field };

    ghost said: { Self → List ℕ };

    /// Its signed numbers are values of their type.
    ghost in_range: { Self → Type 0 };

    /// How many bytes a row has.
    fn size(version: Version) -> usize
        ensures exact { result ≡ size (layout version) }
        ensures some { 0 < result }
        ensures narrow { result < 2 ^ 16 };

    /// The row at the front of these bytes and what follows, if each number is one that its field
    /// may hold.
    fn take(version: Version, bytes: &[u8]) -> Option<(Self, &[u8])>
        requires { size (layout version) ≤ length bytes.now }
        ensures said { IfSome result (λ x. said x.0 ≡ numbers_in (layout version) bytes.now) }
        ensures rest { IfSome result (λ x. x.1.now ≡ drop (size (layout version)) bytes.now) }
        ensures some { IfSome result (λ x. all_hold (layout version)
            (numbers_in (layout version) bytes.now) ≡ true) }
        ensures in_range { IfSome result (λ x. in_range x.0) }
        ensures none { IfNone result (all_hold (layout version)
            (numbers_in (layout version) bytes.now) ≡ false) };

    /// Whether each number has room in its field, and is one that it may hold.
    fn fits(&self, version: Version) -> bool
        ensures { result ≡ (has_room (layout version) (said self.now)
            && all_hold (layout version) (said self.now)) };

    /// Appends the row's bytes.
    fn put(&self, version: Version, out: &mut Bytes)
        requires fits { has_room (layout version) (said self.now) ≡ true }
        requires room { array_vec_len out.old + size (layout version) ≤ longest_frame }
        ensures bytes { out.new.items ≡ out.old.items
            ++ spelled (layout version) (said self.now) }
        ensures len { array_vec_len out.new ≡ array_vec_len out.old + size (layout version) };

    ghost one_each: { (v : AnyVersion) (x : Self) → length (said x) ≡ length (layout v) };
}

/// The side that a number stands for.
pub fn side_of(number: u8) -> Side
    requires { number < 2 }
    ensures { side_number result ≡ number }
{
    if number == 0 {
        Side::First
    } else {
        Side::Second
    }
}

/// The number that stands for a side.
pub fn number_of(side: Side) -> u8
    ensures { result ≡ side_number side }
{
    match side {
        Side::First => 0,
        Side::Second => 1,
    }
}

impl Row for Update {
    ghost layout = { update_fields };

    ghost said = { update_numbers };

    ghost in_range = { λ x. FitsSigned w64 x.delta };

    ghost one_each = { λ v x. refl };

    fn size(version: Version) -> usize {
        9 + version.index_width()
    }

    fn take(version: Version, bytes: &[u8]) -> Option<(Self, &[u8])> {
        let (side, rest) = take_u8(bytes);
        let (item, rest) = take_index(version, rest);
        let (delta, rest) = take_u64(rest);
        if side > 1 || delta == 0 {
            return None;
        }
        Some((
            Update {
                side: side_of(side),
                item,
                delta: delta.cast_signed(),
            },
            rest,
        ))
    }

    fn fits(&self, version: Version) -> bool {
        let delta = self.delta.cast_unsigned();
        version.has_room(self.item) && delta != 0
    }

    fn put(&self, version: Version, out: &mut Bytes) {
        put_u8(out, number_of(self.side));
        put_index(version, out, self.item);
        put_u64(out, self.delta.cast_unsigned());
    }
}

impl Row for Entry {
    ghost layout = { entry_fields };

    ghost said = { entry_numbers };

    ghost in_range = { λ x. FitsSigned w64 x.value };

    ghost one_each = { λ v x. refl };

    fn size(version: Version) -> usize {
        8 + version.index_width()
    }

    fn take(version: Version, bytes: &[u8]) -> Option<(Self, &[u8])> {
        let (index, rest) = take_index(version, bytes);
        let (value, rest) = take_u64(rest);
        if value == 0 || !is_small(value) {
            return None;
        }
        Some((
            Entry {
                index,
                value: value.cast_signed(),
            },
            rest,
        ))
    }

    fn fits(&self, version: Version) -> bool {
        let value = self.value.cast_unsigned();
        version.has_room(self.index) && value != 0 && is_small(value)
    }

    fn put(&self, version: Version, out: &mut Bytes) {
        put_index(version, out, self.index);
        put_u64(out, self.value.cast_unsigned());
    }
}

impl Row for Leaf {
    ghost layout = { leaf_fields };

    ghost said = { leaf_numbers };

    ghost in_range = { λ _. ⊤ };

    ghost one_each = { λ v x. refl };

    fn size(version: Version) -> usize {
        8 + version.index_width()
    }

    fn take(version: Version, bytes: &[u8]) -> Option<(Self, &[u8])> {
        let (item, rest) = take_index(version, bytes);
        let (count, rest) = take_u64(rest);
        if !is_element(count) {
            return None;
        }
        Some((Leaf { item, count }, rest))
    }

    fn fits(&self, version: Version) -> bool {
        version.has_room(self.item) && is_element(self.count)
    }

    fn put(&self, version: Version, out: &mut Bytes) {
        put_index(version, out, self.item);
        put_u64(out, self.count);
    }
}

impl Row for Node {
    ghost layout = { node_fields };

    ghost said = { node_numbers };

    ghost in_range = { λ _. ⊤ };

    ghost one_each = { λ v x. refl };

    fn size(version: Version) -> usize {
        16 + version.index_width()
    }

    fn take(version: Version, bytes: &[u8]) -> Option<(Self, &[u8])> {
        let (index, rest) = take_index(version, bytes);
        let (hash, rest) = take_u64(rest);
        let (count, rest) = take_u64(rest);
        if !is_element(hash) || !is_element(count) {
            return None;
        }
        Some((Node { index, hash, count }, rest))
    }

    fn fits(&self, version: Version) -> bool {
        version.has_room(self.index) && is_element(self.hash) && is_element(self.count)
    }

    fn put(&self, version: Version, out: &mut Bytes) {
        put_index(version, out, self.index);
        put_u64(out, self.hash);
        put_u64(out, self.count);
    }
}

/// A mark, whose item has eight bytes in each version that it stands in. That its value is at most
/// its weight is asked of all rows together.
impl Row for Mark {
    ghost layout = { λ _. mark_fields };

    ghost said = { mark_numbers };

    ghost in_range = { λ x. FitsSigned w64 x.value };

    ghost one_each = { λ v x. refl };

    fn size(_version: Version) -> usize {
        24
    }

    fn take(_version: Version, bytes: &[u8]) -> Option<(Self, &[u8])> {
        let (item, rest) = take_u64(bytes);
        let (value, rest) = take_u64(rest);
        let (weight, rest) = take_u64(rest);
        if !is_small(value) || !is_element(weight) {
            return None;
        }
        Some((
            Mark {
                item,
                value: value.cast_signed(),
                weight,
            },
            rest,
        ))
    }

    fn fits(&self, _version: Version) -> bool {
        let _item = self.item;
        is_small(self.value.cast_unsigned()) && is_element(self.weight)
    }

    fn put(&self, _version: Version, out: &mut Bytes) {
        put_u64(out, self.item);
        put_u64(out, self.value.cast_unsigned());
        put_u64(out, self.weight);
    }
}

/// A coefficient, which is an element of the field.
impl Row for u64 {
    ghost layout = { λ _. element ∷ [] };

    ghost said = { coefficient_numbers };

    ghost in_range = { λ _. ⊤ };

    ghost one_each = { λ v x. refl };

    fn size(_version: Version) -> usize {
        8
    }

    fn take(_version: Version, bytes: &[u8]) -> Option<(Self, &[u8])> {
        let (coefficient, rest) = take_u64(bytes);
        if !is_element(coefficient) {
            return None;
        }
        Some((coefficient, rest))
    }

    fn fits(&self, _version: Version) -> bool {
        is_element(*self)
    }

    fn put(&self, _version: Version, out: &mut Bytes) {
        put_u64(out, *self);
    }
}
