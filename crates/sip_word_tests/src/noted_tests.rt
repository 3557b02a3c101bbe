// What advice says of the files of a command.

use crate::endings::{NOTHING, SECRET};
use crate::words::words_between;
use sip_advice::{Noted, SeedLook, Trouble, Unopened, finish, hint};
use sip_command_tests::case::Case;
use sip_ports::MemorySink;
use sip_verifier::{Port, Status};
use std::alloc::Global;
use std::process::Abort;
use std::str::from_utf8;
use std::test::Fail;

// Words, what was noted of their files, a status, and what the advice names.
type Lost<'a> = (&'a str, Noted, Status, &'a str);

const STREAM: Status = Status::ReadFault { port: Port::First };

const SECOND: Status = Status::ReadFault { port: Port::Second };

const KEEP: Status = Status::WriteFault { port: Port::Keep };

const LOST: &[Lost<'static>] = &[
    (
        "verify|log|seed|from|to|rec|20|inner",
        Noted {
            first: Some(Unopened {
                word: 1,
                why: Trouble::Missing,
            }),
            ..NOTHING
        },
        STREAM,
        "hint: STREAM \"log\" cannot be used: no such file or directory\n",
    ),
    (
        "lines|text:log\n|20",
        Noted {
            first: Some(Unopened {
                word: 1,
                why: Trouble::Directory,
            }),
            ..NOTHING
        },
        STREAM,
        "hint: STREAM \"text:log\\x0a\" cannot be used: it is a directory\n",
    ),
    (
        "audit|log|t",
        Noted {
            first: Some(Unopened {
                word: 1,
                why: Trouble::Denied,
            }),
            ..NOTHING
        },
        STREAM,
        "hint: STORED \"log\" cannot be used: permission denied\n",
    ),
    (
        "audit|log|t",
        Noted {
            second: Some(Unopened {
                word: 2,
                why: Trouble::Missing,
            }),
            ..NOTHING
        },
        SECOND,
        "hint: TRANSCRIPT \"t\" cannot be used: no such file",
    ),
    (
        "show|t",
        Noted {
            second: Some(Unopened {
                word: 1,
                why: Trouble::Other,
            }),
            ..NOTHING
        },
        SECOND,
        "hint: TRANSCRIPT \"t\" cannot be used: the system does not open it\n",
    ),
    (
        "moments|log|seed|from|to|20|moment:0:3",
        Noted {
            second: Some(Unopened {
                word: 2,
                why: Trouble::Denied,
            }),
            ..NOTHING
        },
        SECOND,
        "hint: SEED \"seed\" cannot be used: permission denied\n",
    ),
    (
        "play|log|seed|mute|rec|20|inner",
        Noted {
            keep: Some(Unopened {
                word: 4,
                why: Trouble::Taken,
            }),
            ..NOTHING
        },
        KEEP,
        "hint: RECORD \"rec\" cannot be used: it is another file of this command",
    ),
    (
        "help|from|to",
        Noted {
            to: Some(Unopened {
                word: 2,
                why: Trouble::Denied,
            }),
            ..NOTHING
        },
        Status::PeerFault,
        "hint: TO \"to\" cannot be used: permission denied\n",
    ),
    (
        "lookup|log|seed|from|to|20|index:1",
        Noted {
            from: Some(Unopened {
                word: 3,
                why: Trouble::Missing,
            }),
            to: Some(Unopened {
                word: 4,
                why: Trouble::Denied,
            }),
            ..NOTHING
        },
        Status::PeerFault,
        "hint: FROM \"from\" cannot be used: no such file",
    ),
    // Another file than the one that is not to be had failed, or something else went wrong.
    (
        "verify|log|seed|from|to|rec|20|inner",
        Noted {
            second: Some(Unopened {
                word: 2,
                why: Trouble::Missing,
            }),
            ..NOTHING
        },
        STREAM,
        "first is STREAM",
    ),
    (
        "help|from|to",
        NOTHING,
        Status::PeerFault,
        "FROM or TO could not be opened",
    ),
    (
        "help|from|to",
        Noted {
            from: Some(Unopened {
                word: 1,
                why: Trouble::Missing,
            }),
            ..NOTHING
        },
        Status::PeerClosed,
        "left before its end",
    ),
    (
        "verify|log|seed|from|to|rec|20|inner",
        Noted {
            second: Some(Unopened {
                word: 2,
                why: Trouble::Directory,
            }),
            ..NOTHING
        },
        Status::BadSeed,
        "SEED has 32 random bytes",
    ),
];

// What the file of a seed is like, and what is said of it.
type Looked<'a> = (SeedLook, &'a str);

const LOOKED: &[Looked<'static>] = &[
    (SECRET, ""),
    (
        SeedLook {
            is_even: true,
            ..SECRET
        },
        "sip: hint: SEED is one byte, 32 times: ",
    ),
    (
        SeedLook {
            is_shared: true,
            ..SECRET
        },
        "sip: hint: others can read the file of SEED: ",
    ),
    (
        SeedLook {
            is_even: true,
            is_shared: true,
        },
        "sip: hint: SEED is one byte, 32 times: ",
    ),
];

// The first bytes of a file, its mode, and what it is like.
type Seeded<'a> = (&'a [u8], u32, SeedLook);

const SEEDED: &[Seeded<'static>] = &[
    (
        &[7; 32],
        0o100600,
        SeedLook {
            is_even: true,
            ..SECRET
        },
    ),
    (
        &[0; 32],
        0o100400,
        SeedLook {
            is_even: true,
            ..SECRET
        },
    ),
    (&[7; 31], 0o100600, SECRET),
    (&[], 0o100600, SECRET),
    (b"0123456789abcdef0123456789abcdef", 0o100711, SECRET),
    (b"77777777777777777777777777777778", 0o100600, SECRET),
    (b"87777777777777777777777777777777", 0o100622, SECRET),
    (
        b"0123456789abcdef",
        0o100640,
        SeedLook {
            is_shared: true,
            ..SECRET
        },
    ),
    (
        b"0123456789abcdef",
        0o100604,
        SeedLook {
            is_shared: true,
            ..SECRET
        },
    ),
    (
        b"0123456789abcdef",
        0o100644,
        SeedLook {
            is_shared: true,
            ..SECRET
        },
    ),
];

fn check_lost(rt: &impl Abort, alloc: Global, rows: &[Lost]) -> Result<(), Fail> {
    for &(name, noted, status, want) in rows {
        let words = words_between(alloc, name, '|')?;
        let holds = match hint(&words, &noted, &status) {
            Some(line) => from_utf8(line.as_slice()).is_ok_and(|text| text.contains(want)),
            None => false,
        };
        Case {
            name: want,
            number: 0,
        }
        .holds(holds)
        .expect(rt, "a case");
    }
    Ok(())
}

// What is said of a seed stands alone where all went well, and so does silence.
fn check_looked(rt: &impl Abort, alloc: Global, rows: &[Looked]) -> Result<(), Fail> {
    for &(seed, want) in rows {
        let mut sink = MemorySink::new(alloc, 1000, vec![in alloc]?);
        let noted = Noted { seed, ..NOTHING };
        let ending = finish(&Status::Accepted, &mut sink);
        let warned = ending.warn(&noted, &mut sink);
        let case = Case {
            name: want,
            number: 0,
        };
        let said = from_utf8(sink.bytes());
        let holds = said.is_ok_and(|text| text.starts_with(want)
            && text.is_empty() == want.is_empty());
        case.holds(warned == ending && holds).expect(rt, "a case");
    }
    Ok(())
}

fn check_seeded(rt: &impl Abort, rows: &[Seeded]) {
    for &(front, mode, want) in rows {
        let case = Case {
            name: "a seed",
            number: mode as u64,
        };
        case.holds(SeedLook::of(front, mode) == want)
            .expect(rt, "a case");
    }
}

#[test]
fn advice_names_the_file_that_is_not_to_be_had(rt: HostRuntime) -> Result<(), Fail> {
    check_lost(&rt, rt.alloc(), LOST)
}

#[test]
fn a_seed_that_may_be_no_secret_is_told_of(rt: HostRuntime) -> Result<(), Fail> {
    check_seeded(&rt, SEEDED);
    check_looked(&rt, rt.alloc(), LOOKED)
}
