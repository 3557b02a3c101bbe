//! How a word of a command stands in a line.

ghost use Rattle.std.specs.Prelude.{◌≡◌, ◌+◌, ◌*◌, ◌≤◌, ◌<◌, ◌++◌, length, take};
ghost use Rattle.std.specs.List.{flat_map};
ghost use Rattle.arrayvec.specs.ArrayVec.{array_vec_len};
ghost use Rattle.sip_advice.specs.Quoting.{hex_digit, most_quoted, quote_end, quoted, shown};

use arrayvec::ArrayVec;
use sip_stream::text::put;

/// No more bytes of a word are shown.
const MOST_QUOTED: usize = 64;

/// A quoted word takes no more bytes: four for each that is shown, two quotes and three dots.
const QUOTED_ROOM: usize = 4 * MOST_QUOTED + 5;

// A digit in base 16.
fn hex_digit(digit: u8) -> u8
    requires { digit < 16 }
    ensures { result ≡ hex_digit digit }
{
    if digit < 10 {
        b'0' + digit
    } else {
        b'a' - 10 + digit
    }
}

// Adds a byte as it is shown.
fn put_byte<const ROOM: usize>(gathered: &mut ArrayVec<u8, ROOM>, byte: u8)
    requires { array_vec_len gathered.old + 4 ≤ ROOM }
    ensures items { gathered.new.items ≡ gathered.old.items ++ shown byte }
    ensures len { array_vec_len gathered.new ≤ array_vec_len gathered.old + 4 }
{
    if byte == b'"' || byte == b'\\' {
        put(gathered, &[b'\\', byte]);
    } else if byte < b' ' || byte > b'~' {
        let (high, low) = (hex_digit(byte / 16), hex_digit(byte % 16));
        put(gathered, &[b'\\', b'x', high, low]);
    } else {
        put(gathered, &[byte]);
    }
}

// Adds bytes as they are shown.
fn put_bytes<const ROOM: usize>(gathered: &mut ArrayVec<u8, ROOM>, bytes: &[u8])
    requires { array_vec_len gathered.old + 4 * length bytes.now ≤ ROOM }
    ensures items { gathered.new.items ≡ gathered.old.items ++ flat_map shown bytes.now }
    ensures len { array_vec_len gathered.new
        ≤ array_vec_len gathered.old + 4 * length bytes.now }
{
    for byte in bytes {
        put_byte(gathered, *byte);
    }
}

// The bytes that are shown.
fn front(bytes: &[u8]) -> &[u8]
    ensures front { result.now ≡ take most_quoted bytes.now }
    ensures short { length result.now ≤ MOST_QUOTED }
{
    &bytes[..bytes.len().min(MOST_QUOTED)]
}

// What ends a quoted word.
fn quote_end(is_longer: bool) -> &'static str
    ensures end { result.now ≡ quote_end is_longer }
    ensures short { length result.now ≤ 4 }
{
    if is_longer { "\"..." } else { "\"" }
}

/// Adds a word in quotes: its first 64 bytes, each as it can be seen whatever it is, and dots where
/// it is longer. There is room for it.
pub(crate) fn put_quoted<const ROOM: usize>(gathered: &mut ArrayVec<u8, ROOM>, word: &str)
    requires { array_vec_len gathered.old + QUOTED_ROOM ≤ ROOM }
    ensures items { gathered.new.items ≡ gathered.old.items ++ quoted word.now }
    ensures len { array_vec_len gathered.new ≤ array_vec_len gathered.old + QUOTED_ROOM }
{
    let bytes = word.as_bytes();
    put(gathered, b"\"");
    put_bytes(gathered, front(bytes));
    put(gathered, quote_end(MOST_QUOTED < bytes.len()).as_bytes());
}
