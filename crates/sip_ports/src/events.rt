//! Bytes as the events of a talk.

ghost use Rattle.std.specs.Prelude.{◌≡◌, take, IfOk};
ghost use Rattle.sip_ports.specs.Desk.{steps};
ghost use Rattle.sip_ports.specs.Ports.{outs, ins};

use crate::TalkEvent;
use std::alloc::{AllocError, Global};

/// The events of sending these bytes. O(n), with one allocation, which is not tried again where it
/// is refused.
pub fn sent_events(alloc: Global, bytes: &[u8]) -> Result<Vec<TalkEvent>, AllocError>
    ensures { IfOk result (λ events. events.items ≡ outs bytes.now) }
{
    let mut events = Vec::with_capacity(alloc, bytes.len())?;
    for byte in bytes {
        events.push(TalkEvent::Out(*byte))?;
    }
    Ok(events)
}

/// The events of receiving these bytes. O(n), with one allocation, which is not tried again where
/// it is refused.
pub fn received_events(alloc: Global, bytes: &[u8]) -> Result<Vec<TalkEvent>, AllocError>
    ensures { IfOk result (λ events. events.items ≡ ins bytes.now) }
{
    let mut events = Vec::with_capacity(alloc, bytes.len())?;
    for byte in bytes {
        events.push(TalkEvent::In(*byte))?;
    }
    Ok(events)
}

/// The first events of a replacement by these bytes, so many; it has three more than bytes. O(n),
/// with one allocation, which is not tried again where it is refused.
pub fn replacing_events(
    alloc: Global,
    bytes: &[u8],
    count: usize,
) -> Result<Vec<TalkEvent>, AllocError>
    ensures { IfOk result (λ events. events.items ≡ take count (steps bytes.now)) }
{
    let mut events = Vec::with_capacity(alloc, bytes.len() + 3)?;
    events.push(TalkEvent::Fresh)?;
    for byte in bytes {
        events.push(TalkEvent::Stored(*byte))?;
    }
    events.push(TalkEvent::Renames)?;
    events.push(TalkEvent::Kept)?;
    events.truncate(count);
    Ok(events)
}
