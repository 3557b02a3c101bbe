//! What the library tells of itself.

ghost use Rattle.std.specs.Prelude.{◌≡◌};
ghost use Rattle.sip_c.specs.Statuses.{IsNumberOf};
ghost use Rattle.sip_c.specs.Texts.{IsTold, text_of};

use crate::refusal::{Refusal, status_of};

/// The version: the first number times 2^16, the second times 2^8, and the third.
const VERSION: u32 = 0x00_01_00;

/// The version of the library, to compare with that of a header: the first number times 2^16, the
/// second times 2^8, and the third.
#[unsafe(no_mangle)]
pub extern "C" fn sip_version() -> u32
    ensures { result ≡ VERSION }
{
    VERSION
}

// What a status says.
fn text_of(status: u32) -> &'static str
    ensures { result.now ≡ text_of status }
{
    match status {
        0 => "all went well",
        1 => "memory was refused",
        2 => "the handle is empty",
        3 => "the handle is not empty",
        5 => "the buffer is too short",
        7 => "a count or a length is out of its range",
        8 => "a number stands for no kind, side or form",
        16 => "the depth is not 1 to 48",
        17 => "the part is not 1 to the number of parts",
        18 => "the seed gives no challenge",
        19 => "the bytes are no sketch",
        24 => "the side of an update is not 0 or 1",
        25 => "the item of an update is not below 2^depth",
        26 => "the delta of an update is 0",
        27 => "the weight of a side would be above 2^30 - 1",
        32 => "the part has other seats",
        33 => "all parts are in the part",
        34 => "a seat of the part is used",
        35 => "the part is not the next one",
        4 => "the handle has something of another type",
        6 => "the call is not for this step",
        40 => "not all parts of the stream are in",
        41 => "a question does not fit the depth",
        42 => "a question is for heavy hitters of a side with negatives",
        43 => "no unused seat serves a question",
        44 => "an answer may have too many entries",
        45 => "a moment may be too high",
        48 => "the replies to a question were rejected",
        49 => "the other end holds another stream",
        50 => "a frame came that may not come",
        51 => "the other end closed before the end",
        _ => "no status",
    }
}

// Writes a text to the front of a buffer, and how many bytes it has; their number alone where there
// is less room.
fn tell(text: &str, to: &mut [u8], size: &mut usize) -> Result<(), Refusal>
    ensures { IsTold text.now to.old to.new size.new result }
{
    let bytes = text.as_bytes();
    *size = bytes.len();
    if to.len() < bytes.len() {
        return Err(Refusal::NoRoom);
    }
    to[..bytes.len()].copy_from_slice(bytes);
    Ok(())
}

/// Writes what a status says to the front of a buffer, in ASCII without an end, and how many bytes
/// it has; their number alone where there is less room.
#[unsafe(no_mangle)]
pub extern "C" fn sip_status_text(status: u32, to: &mut [u8], size: &mut usize) -> u32
    ensures { IsNumberOf result (IsTold (text_of status) to.old to.new size.new) }
{
    status_of(tell(text_of(status), to, size))
}
