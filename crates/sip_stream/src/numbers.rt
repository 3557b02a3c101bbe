//! The numbers of a line of text.

ghost use Rattle.std.specs.Prelude.{◌≡◌, ◌≢◌, ◌≤◌, ◌<◌, ◌+◌, ◌^◌, ◌++◌, ◌∷◌, ℕ, None, length};
ghost use Rattle.std.specs.Prelude.{option_map, IfSome, MatchOption, decimal};
ghost use Rattle.sip_stream.specs.Lines.{decimal_at, delta_at, item_at, numbers_at, parts_at};
ghost use Rattle.sip_stream.specs.Lines.{above_zero, below_zero};

/// The most digits of a number below 2^64.
const LONGEST: usize = 20;

/// The most digits of a number that fits a word for sure.
const FEW: usize = 19;

/// The three numbers that a line says.
#[derive(Clone, Copy, Debug, PartialEq, Eq)]
pub(crate) struct Numbers {
    pub(crate) side: u128,
    pub(crate) item: u64,
    pub(crate) delta: i64,
}

/// The text in front of its first such byte, and the text behind that.
pub(crate) fn split_at(text: &[u8], mark: u8) -> Option<(&[u8], &[u8])>
    ensures parts { option_map (λ parts. (parts.0.now, parts.1.now)) result
        ≡ parts_at mark text.now }
    ensures clean { IfSome result (λ parts. parts_at mark parts.0.now ≡ None) }
    ensures whole { IfSome result (λ parts. text.now ≡ parts.0.now ++ mark ∷ parts.1.now) }
    ensures lens { IfSome result (λ parts. length parts.0.now + length parts.1.now + 1
        ≡ length text.now) }
{
    for index in 0..text.len() {
        if text[index] == mark {
            return Some((&text[..index], &text[index + 1..]));
        }
    }
    None
}

/// The number that at most 19 decimal digits write, without a leading zero but for 0 itself: it
/// fits a word.
fn few_digits(text: &[u8]) -> Option<u64>
    requires { length text.now ≤ 19 }
    ensures { result ≡ decimal_at text.now }
{
    if text.is_empty() || (text[0] == b'0' && text.len() > 1) {
        return None;
    }
    let mut number: u64 = 0;
    for index in 0..text.len() {
        if !text[index].is_ascii_digit() {
            return None;
        }
        number = number * 10 + (text[index] - b'0') as u64;
    }
    Some(number)
}

/// The number that decimal digits write, without a leading zero but for 0 itself. It has at most 38
/// digits, so it fits.
fn digits(text: &[u8]) -> Option<u128>
    requires { length text.now ≤ 38 }
    ensures { result ≡ decimal_at text.now }
{
    // Two words are multiplied more slowly than one.
    if text.len() <= FEW {
        return Some(few_digits(text)? as u128);
    }
    if text[0] == b'0' {
        return None;
    }
    let mut number: u128 = 0;
    for index in 0..text.len() {
        if !text[index].is_ascii_digit() {
            return None;
        }
        number = number * 10 + (text[index] - b'0') as u128;
    }
    Some(number)
}

/// The number below 2^64 that a text writes in decimal digits, without a sign and without a leading
/// zero.
pub fn read_decimal(text: &[u8]) -> Option<u64>
    ensures { MatchOption result
        ((n : ℕ) → n < 2 ^ 64 → text.now ≢ decimal n)
        (λ n. text.now ≡ decimal n) }
{
    if text.len() > LONGEST {
        return None;
    }
    item(text)
}

fn item(text: &[u8]) -> Option<u64>
    requires { length text.now ≤ 38 }
    ensures { result ≡ item_at text.now }
{
    let number = digits(text)?;
    if number >= 1 << 64 {
        return None;
    }
    Some(number as u64)
}

fn positive(number: u128) -> Option<i64>
    ensures { result ≡ above_zero number }
{
    if number >= 1 << 63 {
        return None;
    }
    Some(number as i64)
}

fn negative(number: u128) -> Option<i64>
    ensures { result ≡ below_zero number }
{
    if number == 0 || number > 1 << 63 {
        return None;
    }
    Some(-1 - (number - 1) as i64)
}

fn delta(text: &[u8]) -> Option<i64>
    requires { length text.now ≤ 38 }
    ensures { result ≡ delta_at text.now }
{
    if text.is_empty() {
        return None;
    }
    if text[0] == b'-' {
        negative(digits(&text[1..])?)
    } else {
        positive(digits(text)?)
    }
}

/// The numbers of a line, without its line feed, where it has the shape of a record's line.
pub(crate) fn read_numbers(line: &[u8]) -> Option<Numbers>
    requires { length line.now ≤ 39 }
    ensures { result ≡ numbers_at line.now }
{
    let (first, rest) = split_at(line, b' ')?;
    let (second, third) = split_at(rest, b' ')?;
    Some(Numbers {
        side: digits(first)?,
        item: item(second)?,
        delta: delta(third)?,
    })
}
