//! A line that lies in front of bytes, read in one pass: one that is how an update is spelled, with
//! few digits.

ghost use Rattle.std.specs.Prelude.{◌≡◌, ◌<◌, ◌≤◌, ◌^◌, Ok, IfSome, length, take, nat_abs, decimal};
ghost use Rattle.std.specs.Fmt.{signed_decimal};
ghost use Rattle.sip_stream.specs.Pieces.{HoldsLine};

use crate::record_reader::side_of;
use sip_vector::Update;

/// The most digits of a number that is read here.
const MOST_DIGITS: usize = 16;

/// The number whose digits stand in front of a text, and how many they are: at most 16, and another
/// byte follows them.
fn number_in_front(text: &[u8]) -> Option<(u64, usize)>
    ensures spelled { IfSome result (λ n. take n.1 text.now ≡ decimal n.0) }
    ensures small { IfSome result (λ n. n.0 < 10 ^ 16) }
    ensures some { IfSome result (λ n. 0 < n.1) }
    ensures few { IfSome result (λ n. n.1 ≤ 16) }
    ensures within { IfSome result (λ n. n.1 < length text.now) }
{
    let mut number: u64 = 0;
    for index in 0..text.len().min(MOST_DIGITS + 1) {
        let byte = text[index];
        if byte < b'0' || byte > b'9' {
            if index == 0 || (text[0] == b'0' && index > 1) {
                return None;
            }
            return Some((number, index));
        }
        number = number * 10 + (byte - b'0') as u64;
    }
    None
}

/// The same for a number that may have a minus sign in front.
fn signed_in_front(text: &[u8]) -> Option<(i64, usize)>
    ensures spelled { IfSome result (λ n. take n.1 text.now ≡ signed_decimal n.0) }
    ensures small { IfSome result (λ n. nat_abs n.0 < 10 ^ 16) }
    ensures few { IfSome result (λ n. n.1 ≤ 17) }
    ensures within { IfSome result (λ n. n.1 < length text.now) }
{
    if text.is_empty() || text[0] != b'-' {
        let (size, count) = number_in_front(text)?;
        return Some((size as i64, count));
    }
    let (size, count) = number_in_front(&text[1..])?;
    if size == 0 {
        return None;
    }
    Some((-1 - (size - 1) as i64, count + 1))
}

/// The update whose line lies in front of the bytes, and how many bytes the line has with its line
/// feed. It may leave any line alone: one whose numbers have more than 16 digits it does leave.
///
/// Each byte is looked at once, and each number ends by one branch.
pub(crate) fn spelled_in_front(bytes: &[u8]) -> Option<(Update, usize)>
    ensures line { IfSome result (λ line. HoldsLine bytes.now (Ok line.0) line.1) }
    ensures some { IfSome result (λ line. 0 < line.1) }
    ensures within { IfSome result (λ line. line.1 ≤ length bytes.now) }
{
    if bytes.len() < 2 || bytes[0] < b'0' || bytes[0] > b'1' || bytes[1] != b' ' {
        return None;
    }
    let (item, items) = number_in_front(&bytes[2..])?;
    let at = 2 + items;
    if bytes[at] != b' ' {
        return None;
    }
    let (delta, sizes) = signed_in_front(&bytes[at + 1..])?;
    let end = at + 1 + sizes;
    if bytes[end] != b'\n' {
        return None;
    }
    let update = Update {
        side: side_of(bytes[0] - b'0'),
        item,
        delta,
    };
    Some((update, end + 1))
}
