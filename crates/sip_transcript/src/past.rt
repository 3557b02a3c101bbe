//! What has happened on a link, for proofs alone.

ghost use Rattle.std.specs.Prelude.{◌≡◌, ◌<◌, ◌≤◌, ◌++◌, ◌∷◌, [], length};
ghost use Rattle.sip_ports.specs.Ports.{outs, received};
ghost use Rattle.sip_transcript.specs.Pasts.{events};

use sip_ports::TalkEvent;
use std::mem;
use std::snapshot::Snapshot;

/// An event, and all that happened before it.
#[cycle(past)]
#[derive(Drop)]
pub(crate) struct Happening {
    event: TalkEvent,
    before: Past,
}

/// All that has happened so far. Only proofs read it: what it holds is a snapshot, which has no
/// bytes, so it takes no memory, however long it is.
#[cycle(past)]
#[derive(Drop)]
pub(crate) enum Past {
    /// Nothing has happened.
    Nothing,
    /// This was the last.
    More(Snapshot<Happening>),
}

impl Past {
    fn add(&mut self, event: TalkEvent)
        ensures { events self.new ≡ events self.old ++ event ∷ [] }
    {
        let before = mem::replace(self, Past::Nothing);
        let happening = Happening { event, before };
        *self = Past::More(Snapshot::of(&happening));
    }

    /// These bytes were sent.
    pub(crate) fn sent(&mut self, bytes: &[u8])
        ensures { events self.new ≡ events self.old ++ outs bytes.now }
    {
        for byte in bytes {
            self.add(TalkEvent::Out(*byte));
        }
    }

    /// So many bytes were received into a buffer with room, or the other end had closed where none
    /// came.
    pub(crate) fn received(&mut self, came: usize, buf: &[u8])
        requires room { 0 < length buf.now }
        requires bound { came ≤ length buf.now }
        ensures { events self.new ≡ events self.old ++ received came buf.now }
    {
        if came == 0 {
            self.add(TalkEvent::Ended);
            return;
        }
        for byte in &buf[..came] {
            self.add(TalkEvent::In(*byte));
        }
    }
}
