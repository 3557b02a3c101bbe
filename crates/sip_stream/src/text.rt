//! Text that is gathered in a buffer of a fixed size before it is written.

ghost use Rattle.std.specs.Prelude.{◌≡◌, ◌+◌, ◌≤◌, ◌++◌, length, decimal};
ghost use Rattle.arrayvec.specs.ArrayVec.{array_vec_len};

use arrayvec::ArrayVec;
use itoa::Buffer;

/// Adds bytes at the end. There is room for them.
pub fn put<const ROOM: usize>(gathered: &mut ArrayVec<u8, ROOM>, bytes: &[u8])
    requires { array_vec_len gathered.old + length bytes.now ≤ ROOM }
    ensures items { gathered.new.items ≡ gathered.old.items ++ bytes.now }
    ensures len { array_vec_len gathered.new ≡ array_vec_len gathered.old + length bytes.now }
{
    let added = gathered.try_extend_from_slice(bytes).is_ok();
    prove!(added);
}

/// Adds a number at the end, in decimal: at most 20 bytes. There is room for as many.
pub fn put_number<const ROOM: usize>(gathered: &mut ArrayVec<u8, ROOM>, number: u64)
    requires { array_vec_len gathered.old + 20 ≤ ROOM }
    ensures items { gathered.new.items ≡ gathered.old.items ++ decimal number }
    ensures len { array_vec_len gathered.new ≤ array_vec_len gathered.old + 20 }
{
    let mut digits = Buffer::new();
    put(gathered, digits.format(number).as_bytes());
}
