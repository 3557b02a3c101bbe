//! An update in the spelling of any form.

ghost use Rattle.std.specs.Prelude.{◌≡◌, ◌≤◌, ◌<◌, ◌+◌, ◌^◌, ◌++◌};
ghost use Rattle.arrayvec.specs.ArrayVec.{array_vec_len};
ghost use Rattle.sip_stream.specs.Layouts.{deepest_in, layout_of};
ghost use Rattle.sip_stream.specs.Spellings.{spelled};

use crate::Form;
use crate::line::{LINE_ROOM, put_line_bytes};
use crate::record_bytes::{NARROW, WIDE, put_bytes};
use arrayvec::ArrayVec;
use sip_vector::Update;

/// Room for any update in any form, of which a line may be the longest.
pub(crate) const SPELLING_ROOM: usize = LINE_ROOM;

/// Adds an update in the spelling of a form. There is room for it.
pub(crate) fn put_update<const ROOM: usize>(
    form: Form,
    update: &Update,
    gathered: &mut ArrayVec<u8, ROOM>,
)
    requires item { update.now.item < 2 ^ deepest_in form }
    requires room { array_vec_len gathered.old + SPELLING_ROOM ≤ ROOM }
    ensures items { gathered.new.items ≡ gathered.old.items ++ spelled (layout_of form) update.now }
{
    match form {
        Form::Binary => put_bytes::<NARROW, ROOM>(update, gathered),
        Form::Text => put_line_bytes(update, gathered),
        Form::Wide => put_bytes::<WIDE, ROOM>(update, gathered),
    }
}
