//! A stream on its way to the helper.

ghost use Rattle.std.specs.Prelude.{◌≡◌, ◌≢◌, ◌<◌, ◌≤◌, ◌^◌, ◌==◌, ◌++◌, ◌∷◌, [], ℕ, List, length};
ghost use Rattle.std.specs.Prelude.{pos, false, IsSome};
ghost use Rattle.std.specs.Io.KnownBytes.{Consumes};
ghost use Rattle.std.specs.Result.{is_err};
ghost use Rattle.sip_ports.specs.Ports.{HasCause, Lasts, SendsWhole};
ghost use Rattle.sip_stream.specs.Reading.{HasRead};
ghost use Rattle.sip_vector.specs.declared.update.Update.{Update as AnyUpdate};
ghost use Rattle.sip_wire.specs.Spelling.{spelling};
ghost use Rattle.sip_wire.specs.Table.{most_rows};
ghost use Rattle.sip_wire.specs.Versions.{deepest, index_width, number_of};
ghost use Rattle.sip_wire.specs.declared.message.Message.TheVariants as messages;
ghost use Rattle.sip_verifier.specs.Feeding.{due_at_end, due_with, waiting_with};

use sip_ports::{PortStop, Sink, Source};
use sip_stream::Reader;
use sip_vector::{Depth, Update};
use sip_wire::{MOST_ROWS, Message, Version, encode, encode_updates};
use std::marker::Model;

/// Sends a stream in frames of at most 512 updates, in a version. What waits for a frame is kept in
/// a buffer of a fixed size, where the caller may read it before it goes out. Nothing of it is
/// cleared for the next frame.
#[derive(Drop)]
pub struct Feed {
    version: Version,
    rows: [Update; MOST_ROWS],
    count: usize,
    is_spent: bool,
}

impl Model for Feed {
    ghost use Rattle.std.specs.Prelude.{IsTrue, ◌≤◌, take};
    ghost use Rattle.std.specs.List.{list_all};
    ghost use Rattle.sip_wire.specs.Table.{most_rows};
    ghost use Rattle.sip_verifier.specs.Feeding.{Waiting, has_spelling};

    ghost Value = { Waiting };

    ghost view = { λ f. record {
      version = f.version;
      waiting = take f.count f.rows;
      is_spent = f.is_spent;
    } };

    ghost invariant = { λ f. (f.count ≤ most_rows)
        × IsTrue (list_all (has_spelling f.version) (take f.count f.rows)) };
}

impl Feed {
    /// Nothing waits.
    ///
    /// It is a call of its own: what its rows are made in is then on the stack no longer than that.
    #[inline(never)]
    pub fn new(version: Version) -> Feed
        ensures { result ≡ record { version = version; waiting = []; is_spent = false } }
    {
        Feed::empty(version)
    }

    // The same within its caller.
    #[inline(always)]
    fn empty(version: Version) -> Feed
        ensures { result ≡ record { version = version; waiting = []; is_spent = false } }
    {
        Feed {
            version,
            rows: [Update::default(); MOST_ROWS],
            count: 0,
            is_spent: false,
        }
    }

    /// The same in a place that is lent for it. The rows are copied within this call: where a feed
    /// is answered by value, they are twice on the stack of the caller for as long as that runs.
    #[inline(never)]
    pub fn new_in(place: &mut Option<Feed>, version: Version) -> &mut Feed
        ensures { result.now ≡ record { version = version; waiting = []; is_spent = false } }
    {
        place.insert(Feed::empty(version))
    }

    /// Sends the opening.
    ///
    /// # Errors
    ///
    /// Those of the sink, which a front of the opening has then reached that is shorter than it.
    /// The feed is then spent.
    #[inline(never)]
    pub fn begin<K: Sink>(&mut self, sink: &mut K, depth: Depth) -> Result<(), PortStop>
        requires unspent { self.old.is_spent ≡ false }
        requires shallow { depth ≤ deepest self.old.version }
        ensures talk { SendsWhole (K.talk sink.old) (K.talk sink.new) result
            (spelling self.old.version (messages.Open (number_of self.old.version) depth)) }
        ensures version { self.new.version ≡ self.old.version }
        ensures waiting { self.new.waiting ≡ self.old.waiting }
        ensures spent { self.new.is_spent ≡ is_err result }
        ensures cause { HasCause K.faults K.wants K.is_sure sink.old sink.new result }
    {
        let opening = Message::Open {
            version: self.version.number(),
            depth: depth.get(),
        };
        let sent = encode(&opening, self.version, sink);
        self.is_spent = sent.is_err();
        sent
    }

    /// The updates that wait for their frame, in order.
    pub fn waiting(&self) -> &[Update]
        ensures { result.now ≡ self.now.waiting }
    {
        &self.rows[..self.count]
    }

    /// Whether those that wait fill a frame.
    pub fn is_full(&self) -> bool
        ensures { result ≡ (length self.now.waiting == most_rows) }
    {
        self.waiting().len() == MOST_ROWS
    }

    /// Takes one more update of the stream, which waits for its frame.
    pub fn push(&mut self, update: &Update)
        requires room { length self.old.waiting < most_rows }
        requires item { update.now.item < 256 ^ index_width self.old.version }
        requires delta { update.now.delta ≢ pos 0 }
        ensures version { self.new.version ≡ self.old.version }
        ensures waiting { self.new.waiting ≡ self.old.waiting ++ update.now ∷ [] }
        ensures spent { self.new.is_spent ≡ self.old.is_spent }
    {
        // The type of a delta bounds it.
        let _delta = update.delta;
        self.rows[self.count] = *update;
        self.count += 1;
    }

    /// Takes legal records that a source holds whole, which wait for their frame, until one is
    /// missing to fill it, or the next is not legal or not held whole.
    pub fn take_held<S: Source>(&mut self, reader: &mut Reader, source: &mut S)
        requires few { length self.old.waiting < most_rows }
        requires shallow { reader.old.depth ≤ deepest self.old.version }
        ensures took { (us : List AnyUpdate) × (taken : List ℕ)
            × (self.new.waiting ≡ self.old.waiting ++ us) × HasRead reader.old reader.new taken us
            × Consumes (S.left source.old) (S.left source.new) taken }
        ensures few { length self.new.waiting < most_rows }
        ensures version { self.new.version ≡ self.old.version }
        ensures spent { self.new.is_spent ≡ self.old.is_spent }
        ensures told { IsSome (S.left source.old) → IsSome (S.left source.new) }
        ensures source { Lasts S.faults S.wants S.is_sure source.old source.new }
    {
        self.count += reader.read_held(source, &mut self.rows[self.count..MOST_ROWS - 1]);
    }

    /// Sends the updates that wait as a frame, in one write.
    ///
    /// # Errors
    ///
    /// Those of the sink, which a front of the frame has then reached that is shorter than it. The
    /// feed is then spent, and nothing waits.
    #[inline(never)]
    pub fn send<K: Sink>(&mut self, sink: &mut K) -> Result<(), PortStop>
        requires unspent { self.old.is_spent ≡ false }
        requires some { 0 < length self.old.waiting }
        ensures talk { SendsWhole (K.talk sink.old) (K.talk sink.new) result
            (spelling self.old.version (messages.Updates (record { items = self.old.waiting }))) }
        ensures version { self.new.version ≡ self.old.version }
        ensures waiting { self.new.waiting ≡ [] }
        ensures spent { self.new.is_spent ≡ is_err result }
        ensures cause { HasCause K.faults K.wants K.is_sure sink.old sink.new result }
    {
        let sent = encode_updates(&self.rows[..self.count], self.version, sink);
        self.count = 0;
        self.is_spent = sent.is_err();
        sent
    }

    /// Sends the updates that wait as a frame, in one write. They go on waiting, so that another
    /// sink can have them too.
    ///
    /// # Errors
    ///
    /// Those of the sink, which a front of the frame has then reached that is shorter than it.
    pub fn copy_to<K: Sink>(&self, sink: &mut K) -> Result<(), PortStop>
        requires some { 0 < length self.now.waiting }
        ensures talk { SendsWhole (K.talk sink.old) (K.talk sink.new) result
            (spelling self.now.version (messages.Updates (record { items = self.now.waiting }))) }
        ensures cause { HasCause K.faults K.wants K.is_sure sink.old sink.new result }
    {
        encode_updates(&self.rows[..self.count], self.version, sink)
    }

    /// Nothing waits any more.
    pub fn clear(&mut self)
        ensures waiting { self.new.waiting ≡ [] }
        ensures version { self.new.version ≡ self.old.version }
        ensures spent { self.new.is_spent ≡ self.old.is_spent }
    {
        self.count = 0;
    }

    /// Takes one more update of the stream, and sends a frame as soon as it is full, in one write:
    /// [`push`](Feed::push), and then [`send`](Feed::send) where those that wait fill a frame.
    ///
    /// # Errors
    ///
    /// Those of the sink, which a front of the frame has then reached that is shorter than it. The
    /// feed is then spent, and nothing waits.
    pub fn update<K: Sink>(&mut self, sink: &mut K, update: &Update) -> Result<(), PortStop>
        requires unspent { self.old.is_spent ≡ false }
        requires room { length self.old.waiting < most_rows }
        requires item { update.now.item < 256 ^ index_width self.old.version }
        requires delta { update.now.delta ≢ pos 0 }
        ensures talk { SendsWhole (K.talk sink.old)
            (K.talk sink.new) result (due_with self.old.version self.old.waiting update.now) }
        ensures version { self.new.version ≡ self.old.version }
        ensures waiting { self.new.waiting ≡ waiting_with self.old.waiting update.now }
        ensures room { length self.new.waiting < most_rows }
        ensures spent { self.new.is_spent ≡ is_err result }
        ensures cause { HasCause K.faults K.wants K.is_sure sink.old sink.new result }
    {
        self.push(update);
        if !self.is_full() {
            return Ok(());
        }
        self.send(sink)
    }

    /// Sends the updates that wait, where there are any, and the end of the stream.
    ///
    /// # Errors
    ///
    /// Those of the sink, which a front of these bytes has then reached that is shorter than they
    /// are. The feed is then spent, and nothing waits.
    #[inline(never)]
    pub fn finish<K: Sink>(&mut self, sink: &mut K) -> Result<(), PortStop>
        requires { self.old.is_spent ≡ false }
        ensures talk { SendsWhole (K.talk sink.old)
            (K.talk sink.new) result (due_at_end self.old.version self.old.waiting) }
        ensures version { self.new.version ≡ self.old.version }
        ensures waiting { self.new.waiting ≡ [] }
        ensures spent { self.new.is_spent ≡ is_err result }
        ensures cause { HasCause K.faults K.wants K.is_sure sink.old sink.new result }
    {
        let sent = self.send_rest(sink);
        self.is_spent = sent.is_err();
        sent
    }
}

impl Feed {
    // Sends the updates that wait, where there are any, and the end of the stream.
    fn send_rest<K: Sink>(&mut self, sink: &mut K) -> Result<(), PortStop>
        requires { self.old.is_spent ≡ false }
        ensures talk { SendsWhole (K.talk sink.old)
            (K.talk sink.new) result (due_at_end self.old.version self.old.waiting) }
        ensures version { self.new.version ≡ self.old.version }
        ensures waiting { self.new.waiting ≡ [] }
        ensures cause { HasCause K.faults K.wants K.is_sure sink.old sink.new result }
    {
        if self.count > 0 {
            self.send(sink)?;
        }
        encode(&Message::EndStream, self.version, sink)
    }
}
