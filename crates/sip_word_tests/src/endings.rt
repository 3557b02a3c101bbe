//! How a status ends the program: its code, its line, and what is noted for the advice behind it.

use sip_advice::{Ending, Noted, SeedLook};
use sip_command_tests::case::{Case, Miss};
use sip_ports::{MemorySink, PortStop};
use sip_vector::Negatives;
use std::alloc::Global;
use std::test::Fail;

/// A seed of which there is nothing to say.
pub const SECRET: SeedLook = SeedLook {
    is_even: false,
    is_shared: false,
};

// No number of the stream was below 0.
const NONE: Negatives = Negatives {
    first: false,
    second: false,
};

/// All files opened.
pub const NOTHING: Noted = Noted {
    first: None,
    second: None,
    from: None,
    to: None,
    keep: None,
    seed: SECRET,
    negatives: NONE,
};

/// A sink that takes lines whole.
pub fn wide_sink(alloc: Global) -> MemorySink {
    MemorySink::new(alloc, 4096, Vec::new(alloc))
}

/// A sink that takes one byte a call, and of which the sixth call fails.
pub fn failing_sink(alloc: Global) -> Result<MemorySink, Fail> {
    Ok(MemorySink::new(alloc, 1, vec![in alloc; 6]?))
}

/// A status ended with this code, and the line that the case is named by was written whole.
pub fn ended_whole<'a>(
    case: Case<'a>,
    code: u8,
    ending: Ending,
    sink: &MemorySink,
) -> Result<(), Miss<'a>> {
    case.holds(ending.code == code && ending.line == Ok(()))?;
    case.writes(sink.bytes(), case.name.as_bytes())
}

/// A refusal whose line could not be written behind its fifth byte: a front of it stands there, and
/// the code is its own.
pub fn ended_in_front(ending: Ending, sink: &MemorySink) -> Result<(), Miss<'static>> {
    let case = Case {
        name: "the sixth write fails",
        number: 6,
    };
    case.holds(ending.code == 3 && ending.line == Err(PortStop::Failed))?;
    case.writes(sink.bytes(), b"sip: ")
}
