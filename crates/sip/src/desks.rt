//! The desk of the sketch that words name.

ghost use Rattle.std.specs.Prelude.{◌≡◌, Some};
ghost use Rattle.sip_keeping.specs.SketchPlan.{file_opening};
ghost use Rattle.sip_words.specs.Plan.{file_name};

use sip_keeping::file_opening;
use sip_ports::{FileDesk, Link};
use sip_words::Words;

/// A desk over a link and the file of this name, which is that of the sketch; `None` where memory
/// is refused.
fn desk_of<L: Link + Drop>(
    rt: &HostRuntime,
    words: &Words,
    link: L,
    name: &str,
) -> Option<Box<FileDesk<L>>>
    requires { file_name (file_opening 0) words.now ≡ Some name.now }
{
    let path = name.to_string(rt.alloc()).ok()?;
    Box::new(rt.alloc(), FileDesk::new(*rt, link, path)).ok()
}

/// The desk of the sketch that the words name, over this link; `None` where memory is refused.
#[inline(never)]
pub(crate) fn desk<L: Link + Drop>(
    rt: &HostRuntime,
    words: &Words,
    link: L,
) -> Option<Box<FileDesk<L>>> {
    desk_of(rt, words, link, file_opening(0).name(words)?)
}

/// Drops a desk. What a box has is moved to the stack before it is dropped, so this is a call of
/// its own too.
#[inline(never)]
pub(crate) fn put_away<D: Drop>(desk: Box<D>) {
    drop(desk);
}
