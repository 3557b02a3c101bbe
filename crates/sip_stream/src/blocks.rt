//! Records of a stream by the block: those that lie whole at the front of what a source holds.

ghost use Rattle.std.specs.Prelude.{◌≡◌, ◌<◌, ◌≤◌, ◌+◌, ◌*◌, ◌++◌, ℕ, List, None, IsSome, IfSome};
ghost use Rattle.std.specs.Prelude.{IfNone, length, take};
ghost use Rattle.std.specs.Io.KnownBytes.{Consumes};
ghost use Rattle.sip_ports.specs.Ports.{Lasts};
ghost use Rattle.sip_stream.specs.Layouts.{layout_of, of_bytes, of_line, record_size};
ghost use Rattle.sip_vector.specs.declared.update.Update.{Update};
ghost use Rattle.sip_stream.specs.Reading.{HasRead, IsAfter, Tells, so_far};
ghost use Rattle.sip_stream.specs.Batches.{HaveCome, most_counted};

use crate::batch::{Batch, MOST_COUNTED};
use crate::line_reader::line_in_front;
use crate::marks::marked;
use crate::reader::MOST_WEIGHT;
use crate::record_bytes::{NARROW, WIDE, size_of};
use crate::record_reader::said_by;
use crate::{Form, Reader};
use sip_ports::Source;
use sip_vector::Update;

/// How many records were taken of some bytes, and how many bytes they have.
#[derive(Clone, Copy)]
struct Taken {
    records: usize,
    bytes: usize,
}

// Writes an update where another one lies. Its parts are written one by one: where it is written
// whole, what lies between them in memory is written too, by two instructions more.
fn write_over(place: &mut Update, update: &Update)
    ensures { place.new ≡ update.now }
{
    place.side = update.side;
    place.item = update.item;
    place.delta = update.delta;
}

impl Reader {
    // Takes the legal records of an item of so many bytes that lie whole at the front of the bytes,
    // as far as there is room for them.
    fn take_records<const WIDTH: usize>(&mut self, bytes: &[u8], block: &mut [Update]) -> Taken
        requires some { 1 ≤ WIDTH }
        requires most { WIDTH ≤ 8 }
        requires layout { layout_of self.old.form ≡ of_bytes WIDTH }
        ensures within { result.bytes ≤ length bytes.now }
        ensures took { HasRead self.old self.new (take result.bytes bytes.now)
            (take result.records block.new) }
        ensures few { result.records ≤ length block.new }
        ensures len { length block.new ≡ length block.old }
    {
        let size = size_of(WIDTH);
        let most = block.len().min(bytes.len() / size);
        let mut reader = *self;
        let mut count = 0;
        while count < most {
            let at = count * size;
            let Ok(update) = said_by::<WIDTH>(&bytes[at..at + size]) else {
                break;
            };
            if !reader.has_room(&update) {
                break;
            }
            reader.add(&update);
            write_over(&mut block[count], &update);
            count += 1;
        }
        *self = reader;
        Taken {
            records: count,
            bytes: count * size,
        }
    }

    // Takes the record behind so many that were taken, which is tested together with them later.
    // Only its side is tested here, so that it is written as it was read.
    #[inline(always)]
    fn take_next<const WIDTH: usize>(
        &self,
        batch: &mut Batch,
        bytes: &[u8],
        block: &mut [Update],
        count: usize,
    ) -> Option<()>
        requires some { 1 ≤ WIDTH }
        requires most { WIDTH ≤ 8 }
        requires layout { layout_of self.now.form ≡ of_bytes WIDTH }
        requires few { count < most_counted }
        requires held { count * record_size WIDTH + record_size WIDTH ≤ length bytes.now }
        requires room { count < length block.old }
        requires came { HaveCome self.now WIDTH bytes.now batch.old count block.old }
        ensures came { IfSome result
            (λ _. HaveCome self.now WIDTH bytes.now batch.new (count + 1) block.new) }
        ensures len { length block.new ≡ length block.old }
    {
        let size = size_of(WIDTH);
        let at = count * size;
        let Ok(update) = said_by::<WIDTH>(&bytes[at..at + size]) else {
            return None;
        };
        batch.note(&update);
        write_over(&mut block[count], &update);
        Some(())
    }

    // Takes all records of an item of so many bytes that lie whole at the front of the bytes, as
    // far as there is room for them; `None` where one of them is not legal. They are tested at
    // once: a test of each costs more than the rest. Where both sides together are heavier than one
    // may be, the test would fail and is not tried. The loop stands in a function that is not
    // inlined: it wants so many registers that it would share them with what its caller keeps.
    #[inline(never)]
    fn take_all<const WIDTH: usize>(&mut self, bytes: &[u8], block: &mut [Update]) -> Option<Taken>
        requires some { 1 ≤ WIDTH }
        requires most { WIDTH ≤ 8 }
        requires layout { layout_of self.old.form ≡ of_bytes WIDTH }
        ensures within { IfSome result (λ taken. taken.bytes ≤ length bytes.now) }
        ensures took { IfSome result (λ taken. HasRead self.old self.new
            (take taken.bytes bytes.now) (take taken.records block.new)) }
        ensures few { IfSome result (λ taken. taken.records ≤ length block.new) }
        ensures same { IfNone result (self.new ≡ self.old) }
        ensures len { length block.new ≡ length block.old }
    {
        let size = size_of(WIDTH);
        let most = block.len().min(bytes.len() / size);
        let mut batch = self.batch();
        if most > MOST_COUNTED || batch.total > MOST_WEIGHT {
            return None;
        }
        let mut count = 0;
        while count < most {
            self.take_next::<WIDTH>(&mut batch, bytes, block, count)?;
            count += 1;
        }
        if !batch.is_clean(self.depth()) {
            return None;
        }
        self.go_on_after(&batch);
        Some(Taken {
            records: count,
            bytes: count * size,
        })
    }

    // Takes the legal records of an item of so many bytes that lie whole at the front of the bytes,
    // as far as there is room for them: all at once, or one by one where one of them is not legal.
    fn take_front<const WIDTH: usize>(&mut self, bytes: &[u8], block: &mut [Update]) -> Taken
        requires some { 1 ≤ WIDTH }
        requires most { WIDTH ≤ 8 }
        requires layout { layout_of self.old.form ≡ of_bytes WIDTH }
        ensures within { result.bytes ≤ length bytes.now }
        ensures took { HasRead self.old self.new (take result.bytes bytes.now)
            (take result.records block.new) }
        ensures few { result.records ≤ length block.new }
        ensures len { length block.new ≡ length block.old }
    {
        match self.take_all::<WIDTH>(bytes, block) {
            Some(taken) => taken,
            None => self.take_records::<WIDTH>(bytes, block),
        }
    }

    // Takes the legal lines that lie whole at the front of the bytes, as far as there is room for
    // them.
    fn take_lines(&mut self, bytes: &[u8], block: &mut [Update]) -> Taken
        requires layout { layout_of self.old.form ≡ of_line }
        ensures within { result.bytes ≤ length bytes.now }
        ensures took { HasRead self.old self.new (take result.bytes bytes.now)
            (take result.records block.new) }
        ensures few { result.records ≤ length block.new }
        ensures len { length block.new ≡ length block.old }
    {
        let mut reader = *self;
        let mut count = 0;
        let mut used = 0;
        while count < block.len() {
            let Some((said, size)) = line_in_front(&bytes[used..]) else {
                break;
            };
            let Ok(update) = said else {
                break;
            };
            if !reader.has_room(&update) {
                break;
            }
            reader.add(&update);
            write_over(&mut block[count], &update);
            count += 1;
            used += size;
        }
        *self = reader;
        Taken {
            records: count,
            bytes: used,
        }
    }

    // Takes the legal records that lie whole at the front of the bytes, as far as there is room for
    // them.
    fn take_whole(&mut self, bytes: &[u8], block: &mut [Update]) -> Taken
        ensures within { result.bytes ≤ length bytes.now }
        ensures took { HasRead self.old self.new (take result.bytes bytes.now)
            (take result.records block.new) }
        ensures few { result.records ≤ length block.new }
        ensures len { length block.new ≡ length block.old }
    {
        match self.form() {
            Form::Binary => self.take_front::<NARROW>(bytes, block),
            Form::Wide => self.take_front::<WIDE>(bytes, block),
            Form::Text => self.take_lines(bytes, block),
        }
    }

    /// Writes the legal records that the source holds whole to the front of a block, in order,
    /// until the block is full or the next one is not legal or not held whole, and says how many
    /// they are.
    ///
    /// It calls for no byte, so that it never stops. What it leaves is for [`next`](Reader::next).
    pub fn read_held<S: Source>(&mut self, source: &mut S, block: &mut [Update]) -> usize
        ensures took { (taken : List ℕ) × HasRead self.old self.new taken (take result block.new)
            × Consumes (S.left source.old) (S.left source.new) taken }
        ensures tells { (before : List Update) → IsAfter self.old before → Tells self.old before
            → Tells self.new (before ++ take result block.new) }
        ensures silent { so_far self.old ≡ None → so_far self.new ≡ None }
        ensures few { result ≤ length block.new }
        ensures len { length block.new ≡ length block.old }
        ensures told { IsSome (S.left source.old) → IsSome (S.left source.new) }
        ensures source { Lasts S.faults S.wants S.is_sure source.old source.new }
    {
        let marks = self.marks();
        let taken = self.take_whole(source.held(), block);
        source.skip(taken.bytes);
        self.set_marks(marked(marks, &block[..taken.records]));
        taken.records
    }
}
