//! A stream, read one record at a time.

ghost use Rattle.std.specs.Prelude.{◌≡◌, ◌≤◌, ◌<◌, ◌+◌, ◌++◌, ◌∷◌, ◌↔◌, [], ℕ, List, None, Some};
ghost use Rattle.std.specs.Prelude.{IsNone, IsSome, IsTrue, IfOk, IfSome, IfNone, OnOk, Result};
ghost use Rattle.std.specs.Prelude.{Err, Ok, false, true, nat_abs, length, take};
ghost use Rattle.std.specs.Result.{is_err};
ghost use Rattle.sip_ports.specs.Ports.{HasCause, Lasts, Rose};
ghost use Rattle.sip_vector.specs.declared.update.Update.{Update};
ghost use Rattle.sip_vector.specs.Streams.{IsLegal};
ghost use Rattle.sip_vector.specs.Tallies.{IsSound, tally};
ghost use Rattle.sip_stream.specs.declared.why.Why.{Why};
ghost use Rattle.sip_stream.specs.Layouts.{deepest_in, layout_of, of_bytes, of_line};
ghost use Rattle.sip_stream.specs.Pieces.{ReadsPiece};
ghost use Rattle.sip_stream.specs.Reading.{IsAfter, HasRead, HasRoom, GoesOnAfter, Reads, Tells};
ghost use Rattle.sip_stream.specs.Reading.{behind, came, room, so_far, unread, weight_of};
ghost use Rattle.sip_stream.specs.Records.{update_fault};
ghost use Rattle.sip_stream.specs.Spellings.{all_spelled};
ghost use Rattle.sip_stream.specs.Batches.{IsLight, reader_of};

use crate::batch::{Batch, MOST_COUNTED};
use crate::line_reader::{line_in_front, next_line};
use crate::marks::{Marks, marked};
use crate::record_bytes::{NARROW, WIDE, size_of};
use crate::record_reader::{next_record, said_by};
use crate::spelling::{SPELLING_ROOM, put_update};
use crate::{Form, StreamFault, Why};
use arrayvec::ArrayVec;
use sip_ports::{PortStop, Source};
use sip_vector::{Depth, Side, Tally, Update};
use std::marker::Model;

/// The greatest weight of a side has so many bits, and all of them are 1.
const WEIGHT_BITS: u32 = 30;

/// The greatest weight of a side.
pub(crate) const MOST_WEIGHT: u64 = (1 << WEIGHT_BITS) - 1;

/// A reader of a stream: how many legal records came, and the weight of each side.
///
/// It takes no memory, and reads no byte ahead. What the source holds is read where it lies.
#[derive(Clone, Copy, Debug, PartialEq, Eq)]
pub struct Reader {
    depth: Depth,
    form: Form,
    count: u64,
    first: u64,
    second: u64,
    is_spent: bool,
    // What only a reader that was resumed counts.
    marks: Option<Marks>,
}

impl Model for Reader {
    ghost use Rattle.std.specs.Prelude.{◌+◌, ◌≤◌};
    ghost use Rattle.sip_vector.specs.Streams.{most_weight};
    ghost use Rattle.sip_stream.specs.Reading.{Reading};

    ghost Value = { Reading };

    ghost view = { λ r. record {
      depth = r.depth;
      form = r.form;
      count = r.count;
      first = r.first;
      second = r.second;
      is_spent = r.is_spent;
      marks = r.marks;
    } };

    ghost invariant = { λ r. (r.first ≤ most_weight) × (r.second ≤ most_weight)
        × (r.count ≤ r.first + r.second) };

    ghost inverse = { λ r. record {
      depth = r.depth;
      form = r.form;
      count = r.count;
      first = r.first;
      second = r.second;
      is_spent = r.is_spent;
      marks = r.marks;
    } };
}

impl Reader {
    /// A reader that has read nothing.
    pub fn new(depth: Depth, form: Form) -> Reader
        ensures unread { result ≡ unread depth form }
        ensures after { IsAfter result [] }
    {
        Reader {
            depth,
            form,
            count: 0,
            first: 0,
            second: 0,
            is_spent: false,
            marks: None,
        }
    }

    /// A reader behind a stream that came to this: it answers as one that has read such a stream,
    /// numbers the records from its count on, and tells what the whole stream comes to. `before` is
    /// to be sound ([`Tally::is_sound`]). That of no stream is the default: a reader that has read
    /// nothing, and tells what it reads.
    ///
    /// What it counts beside costs an update about two nanoseconds, in a loop of its own.
    pub fn resumed(depth: Depth, form: Form, before: &Tally) -> Reader
        requires { IsSound before.now }
        ensures behind { result ≡ behind depth form before.now }
        ensures told { so_far result ≡ Some before.now }
        ensures after { (stream : List Update) → IsLegal depth stream → tally stream ≡ before.now
            → IsAfter result stream }
    {
        Reader {
            depth,
            form,
            count: before.count,
            first: before.first,
            second: before.second,
            is_spent: false,
            marks: Some(Marks {
                negatives: before.negatives,
                fingerprint: before.fingerprint,
            }),
        }
    }

    /// What the stream so far comes to, that before the reader was resumed included; `None` exactly
    /// where it was made by `new`.
    pub fn tally(&self) -> Option<Tally>
        ensures { result ≡ so_far self.now }
    {
        let marks = self.marks?;
        Some(Tally {
            count: self.count,
            first: self.first,
            second: self.second,
            negatives: marks.negatives,
            fingerprint: marks.fingerprint,
        })
    }

    /// How many records came so far, and so the number of the next one.
    pub fn count(&self) -> u64
        ensures { result ≡ self.now.count }
    {
        self.count
    }

    /// How many items the updates are about, as a power of 2.
    pub(crate) fn depth(&self) -> Depth
        ensures { result ≡ self.now.depth }
    {
        self.depth
    }

    /// The form of what is read.
    pub(crate) fn form(&self) -> Form
        ensures { result ≡ self.now.form }
    {
        self.form
    }

    /// A call of `next` answered an error, so none may follow.
    pub fn spent(&self) -> bool
        ensures { result ≡ self.now.is_spent }
    {
        self.is_spent
    }

    /// The weight of a side so far: the sum of the sizes of its deltas.
    pub fn weight(&self, side: Side) -> u64
        ensures same { result ≡ weight_of self.now side }
        ensures small { result < 1073741824 }
    {
        match side {
            Side::First => self.first,
            Side::Second => self.second,
        }
    }

    // Why the update is not legal after those so far, tested in this order.
    fn fault(&self, update: &Update) -> Option<Why>
        ensures first { (before : List Update) → IsAfter self.now before
            → result ≡ update_fault self.now.depth before update.now }
        ensures room { IfNone result (HasRoom self.now update.now) }
    {
        if update.item >= 1 << self.depth.get() {
            return Some(Why::BadItem);
        }
        if update.delta == 0 {
            return Some(Why::ZeroDelta);
        }
        if self.weight(update.side) + update.delta.unsigned_abs() > MOST_WEIGHT {
            return Some(Why::TooHeavy(update.side));
        }
        None
    }

    /// Whether the update is legal after those so far. It asks at once what `fault` asks in turn: a
    /// branch costs more than the tests, and where the branches of a loop fall in memory decides by
    /// how much.
    pub(crate) fn has_room(&self, update: &Update) -> bool
        ensures { IsTrue result ↔ HasRoom self.now update.now }
    {
        let size = update.delta.unsigned_abs();
        let (first, second) = match update.side {
            Side::First => (self.first + size, self.second),
            Side::Second => (self.first, self.second + size),
        };
        let excess = (update.item >> self.depth.get())
            | (size.wrapping_sub(1) >> WEIGHT_BITS)
            | (first >> WEIGHT_BITS)
            | (second >> WEIGHT_BITS);
        excess == 0
    }

    /// What is counted beside.
    pub(crate) fn marks(&self) -> Option<Marks>
        ensures { result ≡ self.now.marks }
    {
        self.marks
    }

    /// Lets this be what is counted beside.
    pub(crate) fn set_marks(&mut self, marks: Option<Marks>)
        ensures { self.new ≡ record self.old { marks = marks } }
    {
        self.marks = marks;
    }

    /// Counts a legal update.
    pub(crate) fn add(&mut self, update: &Update)
        requires { HasRoom self.old update.now }
        ensures after { (before : List Update) → IsAfter self.old before
            → IsAfter self.new (before ++ update.now ∷ []) }
        ensures heavier { self.old.first + self.old.second < self.new.first + self.new.second }
        ensures bounded { self.new.first + self.new.second ≤ 2147483646 }
        ensures depth { self.new.depth ≡ self.old.depth }
        ensures form { self.new.form ≡ self.old.form }
        ensures spent { self.new.is_spent ≡ self.old.is_spent }
        ensures marks { self.new.marks ≡ self.old.marks }
    {
        let size = update.delta.unsigned_abs();
        match update.side {
            Side::First => self.first += size,
            Side::Second => self.second += size,
        }
        self.count += 1;
    }

    /// A batch that goes on from what was read so far.
    pub(crate) fn batch(&self) -> Batch
        ensures light { IsLight result }
        ensures same { reader_of self.now result ≡ self.now }
    {
        Batch {
            count: self.count,
            total: self.first + self.second,
            second: self.second,
            items: 0,
            sizes: 0,
        }
    }

    /// Takes the place behind the records of a batch, all of which are legal.
    pub(crate) fn go_on_after(&mut self, batch: &Batch)
        requires { IsLight batch.now }
        ensures { self.new ≡ reader_of self.old batch.now }
    {
        self.count = batch.count;
        self.first = batch.total - batch.second;
        self.second = batch.second;
    }

    /// The next record, or `None` where the input ends at a record's end.
    ///
    /// # Errors
    ///
    /// `Bad` exactly where the next record is not legal after those before, with its number and the
    /// first test that it fails; `ReadFault` only where the source's count of faults rose;
    /// `OutOfMemory` only where its count of wants did. After an error the reader is spent.
    pub fn next<S: Source>(&mut self, source: &mut S) -> Result<Option<Update>, StreamFault>
        requires { self.old.is_spent ≡ false }
        ensures reads { (before : List Update) (bytes : List ℕ) → IsAfter self.old before
            → S.left source.old ≡ Some bytes → Reads self.old.depth self.old.form before bytes
            (S.left source.new) result }
        ensures after { (before : List Update) → IsAfter self.old before
            → GoesOnAfter self.new before result }
        ensures tells { (before : List Update) → IsAfter self.old before → Tells self.old before
            → Tells self.new (before ++ came result) }
        ensures silent { so_far self.old ≡ None → so_far self.new ≡ None }
        ensures legal { IfOk result (λ next. IfSome next (HasRoom self.old)) }
        ensures nearer { IfOk result (λ next. IfSome next (λ _. room self.new < room self.old)) }
        ensures at { (at : ℕ) (why : Why) → result ≡ Err (StreamFault.Bad at why)
            → at ≡ self.old.count }
        ensures spent { self.new.is_spent ≡ is_err result }
        ensures depth { self.new.depth ≡ self.old.depth }
        ensures form { self.new.form ≡ self.old.form }
        ensures told { IsSome (S.left source.old) → IsSome (S.left source.new) }
        ensures cause { result ≡ Err StreamFault.ReadFault
            → Rose (S.faults source.old) (S.faults source.new) }
        ensures memory { result ≡ Err StreamFault.OutOfMemory
            → Rose (S.wants source.old) (S.wants source.new) }
        ensures source { Lasts S.faults S.wants S.is_sure source.old source.new }
    {
        let said = match next_piece(self.form, source) {
            Ok(Some(said)) => said,
            Ok(None) => return Ok(None),
            Err(stop) => {
                self.is_spent = true;
                return Err(StreamFault::from(stop));
            }
        };
        let why = match said {
            Err(why) => why,
            Ok(update) => match self.fault(&update) {
                Some(why) => why,
                None => {
                    self.add(&update);
                    self.marks = marked(self.marks, &[update]);
                    return Ok(Some(update));
                }
            },
        };
        self.is_spent = true;
        Err(StreamFault::Bad {
            at: self.count,
            why,
        })
    }

    // Gathers the legal records of an item of so many bytes that lie whole at the front of the
    // bytes, in the spelling of another form, as far as there is room for them, and answers how
    // many bytes they had.
    fn spell_records<const WIDTH: usize, const ROOM: usize>(
        &mut self,
        to: Form,
        bytes: &[u8],
        gathered: &mut ArrayVec<u8, ROOM>,
    ) -> usize
        requires some { 1 ≤ WIDTH }
        requires widest { WIDTH ≤ 8 }
        requires layout { layout_of self.old.form ≡ of_bytes WIDTH }
        requires depth { self.old.depth ≤ deepest_in to }
        ensures within { result ≤ length bytes.now }
        ensures grown { (us : List Update)
            × (gathered.new.items ≡ gathered.old.items ++ all_spelled to us)
            × HasRead self.old self.new (take result bytes.now) us }
    {
        let size = size_of(WIDTH);
        let mut reader = *self;
        let mut used = 0;
        while gathered.remaining_capacity() >= SPELLING_ROOM && bytes.len() - used >= size {
            let Ok(update) = said_by::<WIDTH>(&bytes[used..used + size]) else {
                break;
            };
            if !reader.has_room(&update) {
                break;
            }
            reader.add(&update);
            put_update(to, &update, gathered);
            used += size;
        }
        *self = reader;
        used
    }

    /// Gathers legal records that lie whole at the front of the bytes, in the spelling of the form
    /// `to`, as far as there is room for them, and answers how many bytes they had. It may leave
    /// any of them to [`next`](Reader::next).
    pub(crate) fn spell<const ROOM: usize>(
        &mut self,
        to: Form,
        bytes: &[u8],
        gathered: &mut ArrayVec<u8, ROOM>,
    ) -> usize
        requires depth { self.old.depth ≤ deepest_in to }
        ensures within { result ≤ length bytes.now }
        ensures grown { (us : List Update)
            × (gathered.new.items ≡ gathered.old.items ++ all_spelled to us)
            × HasRead self.old self.new (take result bytes.now) us }
    {
        match self.form {
            Form::Binary => self.spell_records::<NARROW, ROOM>(to, bytes, gathered),
            Form::Wide => self.spell_records::<WIDE, ROOM>(to, bytes, gathered),
            Form::Text => 0,
        }
    }

    // Passes over the legal records of an item of so many bytes that lie whole at the front of the
    // bytes, and answers how many bytes they have.
    fn pass_records<const WIDTH: usize>(&mut self, bytes: &[u8]) -> usize
        requires some { 1 ≤ WIDTH }
        requires widest { WIDTH ≤ 8 }
        requires layout { layout_of self.old.form ≡ of_bytes WIDTH }
        ensures within { result ≤ length bytes.now }
        ensures passed { (us : List Update) × (all_spelled self.old.form us ≡ take result bytes.now)
            × HasRead self.old self.new (take result bytes.now) us }
    {
        let size = size_of(WIDTH);
        let mut reader = *self;
        let mut used = 0;
        while bytes.len() - used >= size {
            let Ok(update) = said_by::<WIDTH>(&bytes[used..used + size]) else {
                break;
            };
            if !reader.has_room(&update) {
                break;
            }
            reader.add(&update);
            used += size;
        }
        *self = reader;
        used
    }

    // Passes over all records of an item of so many bytes that lie whole at the front of the bytes,
    // and answers how many bytes they have; `None` where one of them is not legal. They are tested
    // at once: a test of each costs more than the rest.
    fn pass_all<const WIDTH: usize>(&mut self, bytes: &[u8]) -> Option<usize>
        requires some { 1 ≤ WIDTH }
        requires widest { WIDTH ≤ 8 }
        requires layout { layout_of self.old.form ≡ of_bytes WIDTH }
        ensures within { IfSome result (λ used. used ≤ length bytes.now) }
        ensures passed { IfSome result (λ used. (us : List Update)
            × (all_spelled self.old.form us ≡ take used bytes.now)
            × HasRead self.old self.new (take used bytes.now) us) }
        ensures same { IfNone result (self.new ≡ self.old) }
    {
        let size = size_of(WIDTH);
        let mut batch = self.batch();
        if bytes.len() > MOST_COUNTED || batch.total > MOST_WEIGHT {
            return None;
        }
        let mut used = 0;
        while bytes.len() - used >= size {
            let Ok(update) = said_by::<WIDTH>(&bytes[used..used + size]) else {
                return None;
            };
            batch.note(&update);
            used += size;
        }
        if !batch.is_clean(self.depth) {
            return None;
        }
        self.go_on_after(&batch);
        Some(used)
    }

    // Passes over the legal records that lie whole at the front of the bytes: over all at once, or
    // one by one where one of them is not legal.
    fn pass_whole<const WIDTH: usize>(&mut self, bytes: &[u8]) -> usize
        requires some { 1 ≤ WIDTH }
        requires widest { WIDTH ≤ 8 }
        requires layout { layout_of self.old.form ≡ of_bytes WIDTH }
        ensures within { result ≤ length bytes.now }
        ensures passed { (us : List Update) × (all_spelled self.old.form us ≡ take result bytes.now)
            × HasRead self.old self.new (take result bytes.now) us }
    {
        match self.pass_all::<WIDTH>(bytes) {
            Some(used) => used,
            None => self.pass_records::<WIDTH>(bytes),
        }
    }

    // Passes over the legal lines that lie whole at the front of the bytes, and answers how many
    // bytes they have.
    fn pass_lines(&mut self, bytes: &[u8]) -> usize
        requires { layout_of self.old.form ≡ of_line }
        ensures within { result ≤ length bytes.now }
        ensures passed { (us : List Update) × (all_spelled self.old.form us ≡ take result bytes.now)
            × HasRead self.old self.new (take result bytes.now) us }
    {
        let mut reader = *self;
        let mut used = 0;
        while let Some((said, size)) = line_in_front(&bytes[used..]) {
            let Ok(update) = said else {
                break;
            };
            if !reader.has_room(&update) {
                break;
            }
            reader.add(&update);
            used += size;
        }
        *self = reader;
        used
    }

    /// Passes over legal records that lie whole at the front of the bytes, and answers how many
    /// bytes they have: where what lies there is how they are spelled in the form `to`. It may
    /// leave any of them to [`next`](Reader::next).
    pub(crate) fn pass(&mut self, to: Form, bytes: &[u8]) -> usize
        ensures within { result ≤ length bytes.now }
        ensures passed { (us : List Update) × (all_spelled to us ≡ take result bytes.now)
            × HasRead self.old self.new (take result bytes.now) us }
    {
        match (self.form, to) {
            (Form::Binary, Form::Binary) => self.pass_whole::<NARROW>(bytes),
            (Form::Wide, Form::Wide) => self.pass_whole::<WIDE>(bytes),
            (Form::Text, Form::Text) => self.pass_lines(bytes),
            _ => 0,
        }
    }
}

// What the next record says, or why it says no update; `None` at the end.
fn next_piece<S: Source>(
    form: Form,
    source: &mut S,
) -> Result<Option<Result<Update, Why>>, PortStop>
    ensures reads { (bytes : List ℕ) → S.left source.old ≡ Some bytes
        → ReadsPiece (layout_of form) bytes (S.left source.new) result }
    ensures told { IsSome (S.left source.old) → IsSome (S.left source.new) }
    ensures cause { HasCause S.faults S.wants S.is_sure source.old source.new result }
{
    match form {
        Form::Binary => next_record::<NARROW, S>(source),
        Form::Text => next_line(source),
        Form::Wide => next_record::<WIDE, S>(source),
    }
}
