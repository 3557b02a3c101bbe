// The commands that read a transcript.

use crate::audit::{FIVE_KINDS, FIVE_WIDE_KINDS, SHARE, Stored, check_each};
use crate::audit_frames::{TALK, WIDE};
use sip_command_tests::row::bytes_of;
use sip_verifier::Status;
use std::test::Fail;

// The first 75 bytes of `TALK`.
const CUT_IN_A_FRAME: [u8; 75] = [
    b'S', b'I', b'P', b'T', 1, 2, 1, //
    4, 0, 9, 1, 0, 0, 0, 1, 0, 0, 0, 2, //
    0, 0, 0, 0, 0, 0, 0, 2, 0, 0, 0, 0, 0, 0, 0, 10, //
    0x13, 0, 0x0e, 0, 1, 0, 0, 0, 2, 0, 0, 0, 0, 0, 0, 0, 5, //
    0x14, 0, 0x11, 3, 0, 0, 0, 0, 0, 0, 0, 3, 0, 0, 0, 0, 0, 0, 0, 1, //
    0x14, 0, 1,
];

// Its first 34 bytes.
const CUT_IN_A_CHALLENGE: [u8; 34] = [
    b'S', b'I', b'P', b'T', 1, 2, 1, //
    4, 0, 9, 1, 0, 0, 0, 1, 0, 0, 0, 2, //
    0, 0, 0, 0, 0, 0, 0, 2, 0, 0, 0, 0, 0, 0, 0,
];

// With a byte behind it.
const LONGER: [u8; 77] = [
    b'S', b'I', b'P', b'T', 1, 2, 1, //
    4, 0, 9, 1, 0, 0, 0, 1, 0, 0, 0, 2, //
    0, 0, 0, 0, 0, 0, 0, 2, 0, 0, 0, 0, 0, 0, 0, 10, //
    0x13, 0, 0x0e, 0, 1, 0, 0, 0, 2, 0, 0, 0, 0, 0, 0, 0, 5, //
    0x14, 0, 0x11, 3, 0, 0, 0, 0, 0, 0, 0, 3, 0, 0, 0, 0, 0, 0, 0, 1, //
    0x14, 0, 1, 0, 0,
];

// The first 84 bytes of `WIDE`.
const WIDE_CUT: [u8; 84] = [
    b'S', b'I', b'P', b'T', 2, 2, 1, //
    4, 0, 17, 1, 0, 0, 0, 0, 0, 0, 0, 1, 0, 0, 0, 0, 0, 0, 0, 2, //
    0, 0, 0, 0, 0, 0, 0, 2, 0, 0, 0, 0, 0, 0, 0, 10, //
    0x13, 0, 0x12, 0, 1, 0, 0, 0, 0, 0, 0, 0, 2, 0, 0, 0, 0, 0, 0, 0, 5, //
    0x14, 0, 0x11, 3, 0, 0, 0, 0, 0, 0, 0, 3, 0, 0, 0, 0, 0, 0, 0, 1,
];

const FOUR_LINES: &[u8] = b"\
depth 2
query 1 sub:1:2 challenges 0000000000000002 000000000000000a
frame Entries 0001000000020000000000000005
frame Siblings 0300000000000000030000000000000001
";

const FIVE_LINES: &[u8] = b"\
depth 2
query 1 sub:1:2 challenges 0000000000000002 000000000000000a
frame Entries 0001000000020000000000000005
frame Siblings 0300000000000000030000000000000001
frame Siblings 00
";

const READINGS: &[Stored<'static>] = &[
    ("show t", &[], &[&TALK], Status::Wrote, FIVE_LINES),
    (
        "show t",
        &[],
        &[&CUT_IN_A_CHALLENGE],
        Status::BadTranscript { offset: 27 },
        &[],
    ),
    (
        "show t",
        &[],
        &[&CUT_IN_A_FRAME],
        Status::BadTranscript { offset: 72 },
        FOUR_LINES,
    ),
    (
        "show t",
        &[],
        &[&LONGER],
        Status::BadTranscript { offset: 76 },
        FIVE_LINES,
    ),
    (
        "show t",
        &[],
        &[b"SIP"],
        Status::BadTranscript { offset: 0 },
        &[],
    ),
    ("convert t", &[], &[&TALK], Status::Wrote, &WIDE),
    ("convert t", &[], &[&WIDE], Status::Wrote, &WIDE),
    (
        "convert t",
        &[],
        &[&CUT_IN_A_CHALLENGE],
        Status::BadTranscript { offset: 27 },
        &[],
    ),
    (
        "convert t",
        &[],
        &[&CUT_IN_A_FRAME],
        Status::BadTranscript { offset: 72 },
        &WIDE_CUT,
    ),
    (
        "convert t",
        &[],
        &[&LONGER],
        Status::BadTranscript { offset: 76 },
        &WIDE,
    ),
];

// What is listed of a query of each kind of version 1, and of what an honest helper replied: the
// frames in which items have four bytes in version 1, and eight in version 2.
macro_rules! five_listed {
    ($entries:literal, $leaves:literal, $nodes:literal) => {
        concat!(
            "depth 2\n",
            "query 1 sub:1:2 challenges 0000000000000002 000000000000000a\n",
            "query 2 range:0:1:3 challenges 0000000000000002 000000000000000a\n",
            "query 3 f2:0 challenges 0000000000000002 000000000000000a\n",
            "query 4 inner challenges 0000000000000002 000000000000000a\n",
            "query 5 heavy:0:4 challenges 0000000000000002 000000000000000a\n",
            $entries,
            "frame Siblings 0300000000000000030000000000000001\n",
            "frame Siblings 00\n",
            "frame Claim 0000000000000006\n",
            "frame Poly 00000000000000051ffffffffffffffe1ffffffffffffffc\n",
            "frame Poly 1ffffffffffffff900000000000000030000000000000000\n",
            "frame Claim 0000000000000023\n",
            "frame Poly 00000000000000221fffffffffffffc50000000000000019\n",
            "frame Poly 000000000000000900000000000000000000000000000000\n",
            "frame Claim 000000000000000b\n",
            "frame Poly 000000000000000b00000000000000001ffffffffffffff4\n",
            "frame Poly 1fffffffffffffdb00000000000000270000000000000000\n",
            $leaves,
            "frame LevelEnd -\n",
            $nodes,
            "frame LevelEnd -\n",
        )
    };
}

const FIVE_LISTED: &str = five_listed!(
    "frame Entries 0001000000020000000000000005\n",
    "frame Leaves 0002000000020000000000000005000000030000000000000001\n",
    "frame Nodes 00010000000000000000000000090000000000000003\n"
);

const FIVE_WIDE_LISTED: &str = five_listed!(
    "frame Entries 000100000000000000020000000000000005\n",
    "frame Leaves 00020000000000000002000000000000000500000000000000030000000000000001\n",
    "frame Nodes 0001000000000000000000000000000000090000000000000003\n"
);

// The query that version 2 has alone.
const SHARE_LISTED: &[u8] = b"\
depth 2
query 1 share:0:1:2 challenges 0000000000000002 000000000000000a
frame Leaves 00020000000000000002000000000000000500000000000000030000000000000001
frame LevelEnd -
frame Nodes 0001000000000000000000000000000000090000000000000003
frame LevelEnd -
";

#[test]
fn transcripts(rt: HostRuntime) -> Result<(), Fail> {
    let alloc = rt.alloc();
    check_each(&rt, alloc, READINGS)?;
    let wide = bytes_of(alloc, FIVE_WIDE_KINDS)?;
    let share = bytes_of(alloc, SHARE)?;
    check_each(
        &rt,
        alloc,
        &[
            (
                "show t",
                &[],
                FIVE_KINDS,
                Status::Wrote,
                FIVE_LISTED.as_bytes(),
            ),
            ("convert t", &[], FIVE_KINDS, Status::Wrote, &wide),
            (
                "show t",
                &[],
                FIVE_WIDE_KINDS,
                Status::Wrote,
                FIVE_WIDE_LISTED.as_bytes(),
            ),
            ("convert t", &[], FIVE_WIDE_KINDS, Status::Wrote, &wide),
            ("show t", &[], SHARE, Status::Wrote, SHARE_LISTED),
            ("convert t", &[], SHARE, Status::Wrote, &share),
        ],
    )
}
