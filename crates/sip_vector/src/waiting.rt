//! An addition to a vector as it waits: an entry in one word.

ghost use Rattle.std.specs.Prelude.{◌≡◌, ◌≢◌, ℕ, ◌+◌, ◌^◌, ◌<◌, ◌≤◌, ◌-ℤ◌, pos, nat_abs, OnOk};
ghost use Rattle.std.specs.Prelude.{OnErr};
ghost use Rattle.sip_vector.specs.Limits.{most_depth};
ghost use Rattle.sip_vector.specs.Streams.{most_weight};
ghost use Rattle.sip_vector.specs.inside.Gathered.{IsAdded};
ghost use Rattle.sip_vector.specs.inside.Words.{most_part};

use crate::Entry;
use sip_field::OutOfMemory;
use std::marker::Model;

// An index has 48 bits, so 16 are left for a value, which is kept above the least of them.
const VALUES: u64 = 1 << 16;

const OFFSET: i64 = 1 << 15;

// The greatest value of a word. A greater one waits in several words.
const MOST_PART: i64 = OFFSET - 1;

/// An entry with an index below 2^48 and a value from -2^15 to 2^15 - 1, in one word: half of what
/// an entry takes, and a sort of so little is quicker.
#[derive(Clone, Copy)]
pub(crate) struct Waiting {
    word: u64,
}

impl Model for Waiting {
    ghost use Rattle.sip_vector.specs.declared.update.Entry.{Entry as KeptEntry};
    ghost use Rattle.std.specs.Prelude.{◌≡◌};
    ghost use Rattle.std.proofs.Common.{arith};
    ghost use Rattle.std.proofs.lemmas.Int.{ints};
    ghost use Rattle.sip_vector.specs.inside.Words.{entry_of, word_of};

    ghost Value = { KeptEntry };

    ghost view = { λ w. entry_of w.word };

    ghost inverse = { λ e. record { word = word_of e } };

    ghost inverse_ok = { λ w h i.
        let same : word_of (entry_of w.word) ≡ w.word = Prim.omega (arith, ints) in
        record { word = same i } };
}

impl Waiting {
    fn of(index: u64, value: i64) -> Waiting
        requires index { index < 2 ^ most_depth }
        requires value { nat_abs value ≤ most_part }
        ensures { result ≡ record { index = index; value = value } }
    {
        Waiting {
            word: index * VALUES + (value + OFFSET).unsigned_abs(),
        }
    }

    pub(crate) fn index(&self) -> u64
        ensures { result ≡ self.now.index }
    {
        self.word / VALUES
    }

    pub(crate) fn entry(&self) -> Entry
        ensures { result ≡ self.now }
    {
        Entry {
            index: self.word / VALUES,
            value: (self.word % VALUES).cast_signed() - OFFSET,
        }
    }
}

// As much of a delta as has room in a word.
fn part_of(delta: i64) -> i64
    ensures room { nat_abs result ≤ most_part }
    ensures part { nat_abs delta ≡ nat_abs result + nat_abs (delta -ℤ result) }
    ensures some { delta ≢ pos 0 → nat_abs (delta -ℤ result) < nat_abs delta }
{
    if delta > MOST_PART {
        MOST_PART
    } else if delta < -MOST_PART {
        -MOST_PART
    } else {
        delta
    }
}

// Lets an addition wait, a large one as several. Want of memory leaves those before as they were.
pub(crate) fn wait(pending: &mut Vec<Waiting>, index: u64, delta: i64) -> Result<(), OutOfMemory>
    requires within { index < 2 ^ most_depth }
    requires light { nat_abs delta ≤ most_weight }
    ensures ok { OnOk result (IsAdded index delta pending.old.items pending.new.items) }
    ensures err { OnErr result (pending.new.items ≡ pending.old.items) }
{
    let before = pending.len();
    let mut left = delta;
    'parts: loop {
        let part = part_of(left);
        let Ok(()) = pending.push(Waiting::of(index, part)) else {
            pending.truncate(before);
            return Err(OutOfMemory);
        };
        left -= part;
        if left == 0 {
            return Ok(());
        }
    }
}
