//! Indices that rise from frame to frame of a reply.

ghost use Rattle.std.specs.Prelude.{◌≡◌};
ghost use Rattle.sip_replies.specs.Rising.{is_above};

/// Whether an index is above the last one, where there is one.
pub fn is_above(last: Option<u64>, index: u64) -> bool
    ensures { result ≡ is_above last index }
{
    match last {
        Some(last) => last < index,
        None => true,
    }
}
