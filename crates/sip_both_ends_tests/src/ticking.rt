// What takes the lines of a run, and its clock.
use sip_cli::Lines;
use sip_ports::MemorySink;
use std::alloc::Global;
use std::cell::Cell;
use std::io;
use std::time::{Clock, Duration};

// A clock that is so many seconds further at each look, from 0 on; with none it cannot be read.
#[derive(Drop)]
pub(crate) struct Ticking {
    second: Cell<u64>,
    step: Option<u64>,
}

impl Ticking {
    pub(crate) fn by(step: Option<u64>) -> Ticking {
        Ticking {
            second: Cell::new(0),
            step,
        }
    }
}

impl Clock for Ticking {
    fn monotonic(&self) -> io::Result<Duration> {
        let Some(step) = self.step else {
            return Err(io::ErrorKind::Unsupported.into());
        };
        let now = self.second.get();
        self.second.set(now.saturating_add(step));
        Ok(Duration::from_secs(now))
    }

    fn since_1970(&self) -> io::Result<Duration> {
        self.monotonic()
    }
}

// The bytes of the lines that were said.
pub(crate) fn said(lines: Option<&MemorySink>) -> &[u8] {
    match lines {
        Some(sink) => sink.bytes(),
        None => b"",
    }
}

// What takes lines, of which the calls of these numbers fail, and a clock.
pub(crate) fn taker(
    alloc: Global,
    fails: Vec<u64>,
    step: Option<u64>,
) -> Option<Lines<MemorySink, Ticking>> {
    Some(Lines {
        sink: MemorySink::new(alloc, 10_000, fails),
        clock: Ticking::by(step),
    })
}
