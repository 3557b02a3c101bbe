// Bytes that are handed to a caller.
ghost use Rattle.std.specs.Prelude.{◌≡◌, ◌≤◌, ◌+◌, ◌++◌, length, take, drop};

/// Copies a part of the bytes to the front of the buffer.
pub fn give(bytes: &[u8], at: usize, count: usize, buf: &mut [u8])
    requires within { at + count ≤ length bytes.now }
    requires room { count ≤ length buf.old }
    ensures front { take count buf.new ≡ take count (drop at bytes.now) }
    ensures parts { drop at bytes.now ≡ take count buf.new ++ drop (at + count) bytes.now }
{
    buf[..count].copy_from_slice(&bytes[at..at + count]);
}
