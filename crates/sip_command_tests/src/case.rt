//! The case of a table at which a test fails.

use sip_ports::TalkEvent;
use sip_verifier::Status;

/// A case, by its name and the chunk of its ports, or the call of a port that is to fail.
#[derive(Clone, Copy, Debug)]
pub struct Case<'a> {
    pub name: &'a str,
    pub number: u64,
}

/// What a case came to in place of what it is to come to.
#[derive(Clone, Copy, Debug)]
pub enum Miss<'a> {
    /// A fact does not hold.
    Fact(Case<'a>),
    /// The run ended so, and was to end otherwise.
    End {
        case: Case<'a>,
        status: Status,
        want: Status,
    },
    /// Other bytes were written.
    Bytes(Case<'a>),
    /// Something else was said.
    Talk(Case<'a>),
}

impl<'a> Case<'a> {
    /// A fact holds.
    pub fn holds(self, holds: bool) -> Result<(), Miss<'a>> {
        if holds { Ok(()) } else { Err(Miss::Fact(self)) }
    }

    /// A run ended so.
    pub fn ends(self, status: Status, want: Status) -> Result<(), Miss<'a>> {
        if status == want {
            Ok(())
        } else {
            Err(Miss::End {
                case: self,
                status,
                want,
            })
        }
    }

    /// These bytes were written.
    pub fn writes(self, bytes: &[u8], want: &[u8]) -> Result<(), Miss<'a>> {
        if bytes == want {
            Ok(())
        } else {
            Err(Miss::Bytes(self))
        }
    }

    /// This was said.
    pub fn says(self, talk: &[TalkEvent], want: &[TalkEvent]) -> Result<(), Miss<'a>> {
        if talk == want {
            Ok(())
        } else {
            Err(Miss::Talk(self))
        }
    }
}
