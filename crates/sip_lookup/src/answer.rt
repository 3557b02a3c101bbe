//! The answer to a lookup, and its line.

ghost use Rattle.std.specs.Prelude.{◌≡◌, ◌+◌, ◌≤◌, ◌++◌};
ghost use Rattle.std.specs.Fmt.{signed_decimal};
ghost use Rattle.arrayvec.specs.ArrayVec.{array_vec_len};
ghost use Rattle.sip_ports.specs.Ports.{HasCause, SendsWhole};
ghost use Rattle.sip_lookup.specs.Reports.{look_line, look_word, looked_text};
ghost use Rattle.sip_lookup.specs.Sittings.{looked_of};

use crate::lookup::Lookup;
use arrayvec::ArrayVec;
use itoa::Buffer;
use sip_ports::{PortStop, Sink, write_whole};
use sip_stream::text::{put, put_number};
use sip_vector::Entry;

/// What was found at an item, or nearest to it.
#[derive(Clone, Copy, Debug, PartialEq, Eq)]
pub enum LookAnswer {
    /// The value at the item.
    Value(i64),
    /// The nearest entry that is not 0, where there is one.
    Nearest(Option<Entry>),
}

/// How many bytes a line has at most: a word, two numbers of 20 bytes, and four marks.
const ROOM: usize = 80;

// Gathers the word of a lookup: a name, a colon and its item.
fn word_of(lookup: Lookup) -> ArrayVec<u8, ROOM>
    ensures items { result.items ≡ look_word lookup }
    ensures len { array_vec_len result ≤ 26 }
{
    let mut gathered = ArrayVec::new();
    match lookup {
        Lookup::Index(_) => put(&mut gathered, b"index:"),
        Lookup::Pred(_) => put(&mut gathered, b"pred:"),
        Lookup::Succ(_) => put(&mut gathered, b"succ:"),
    }
    put_number(&mut gathered, lookup.item());
    gathered
}

// Adds a number with its sign.
fn put_signed(gathered: &mut ArrayVec<u8, ROOM>, number: i64)
    requires { array_vec_len gathered.old + 20 ≤ ROOM }
    ensures items { gathered.new.items ≡ gathered.old.items ++ signed_decimal number }
    ensures len { array_vec_len gathered.new ≤ array_vec_len gathered.old + 20 }
{
    let mut digits = Buffer::new();
    put(gathered, digits.format(number).as_bytes());
}

// Adds the text of an answer.
fn put_answer(gathered: &mut ArrayVec<u8, ROOM>, answer: LookAnswer)
    requires { array_vec_len gathered.old + 41 ≤ ROOM }
    ensures items { gathered.new.items ≡ gathered.old.items ++ looked_text (looked_of answer) }
    ensures len { array_vec_len gathered.new ≤ array_vec_len gathered.old + 41 }
{
    match answer {
        LookAnswer::Value(value) => put_signed(gathered, value),
        LookAnswer::Nearest(None) => put(gathered, b"none"),
        LookAnswer::Nearest(Some(entry)) => {
            put_number(gathered, entry.index);
            put(gathered, b":");
            put_signed(gathered, entry.value);
        }
    }
}

/// Writes the line of an accepted lookup, in one piece and without memory: its word, a space, and
/// the value, the nearest entry as a pair `INDEX:VALUE`, or `none`.
///
/// # Errors
///
/// Those of the sink, which a front of the line has then reached that is shorter than it.
pub fn write_look<K: Sink>(sink: &mut K, lookup: Lookup, answer: LookAnswer) -> Result<(), PortStop>
    ensures talk { SendsWhole (K.talk sink.old) (K.talk sink.new) result
        (look_line lookup (looked_of answer)) }
    ensures cause { HasCause K.faults K.wants K.is_sure sink.old sink.new result }
{
    let mut gathered = word_of(lookup);
    put(&mut gathered, b" ");
    put_answer(&mut gathered, answer);
    put(&mut gathered, b"\n");
    write_whole(sink, gathered.as_slice())
}
