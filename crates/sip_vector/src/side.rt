//! The updates of one side.

ghost use Rattle.std.specs.Prelude.{◌≡◌, ◌≤◌, length, take};
ghost use Rattle.sip_vector.specs.Streams.{of_side};

use crate::{Side, Update};

/// Writes the updates of one side to the front of `taken`, in order, and says how many they are.
/// O(n) for n updates.
pub fn take_side(updates: &[Update], side: Side, taken: &mut [Update]) -> usize
    requires { length updates.now ≤ length taken.old }
    ensures most { result ≤ length updates.now }
    ensures length { length taken.new ≡ length taken.old }
    ensures taken { take result taken.new ≡ of_side updates.now side }
{
    // Each is written, and one of the other side is written over: a branch would be guessed wrongly
    // for every other update.
    let mut count = 0;
    for update in updates {
        taken[count] = *update;
        count += usize::from(update.side == side);
    }
    count
}
