// Stored runs that were rejected, judged again and listed, and judged in version 2.

use crate::audit::{check_stored, given};
use crate::audit_frames::*;
use sip_command_tests::case::Case;
use sip_command_tests::frames::*;
use sip_command_tests::heavy_frames::*;
use sip_command_tests::play::BOTH_SIDES;
use sip_command_tests::row::bytes_of;
use sip_command_tests::sum_frames::*;
use sip_verifier::Status;
use sip_wire::Reason;
use std::alloc::Global;
use std::process::Abort;
use std::test::Fail;

// A stored run over both sides that was rejected: what follows the challenges, the round, the
// reason, the line, and what is listed of what follows.
type Rejection<'a> = (&'a [&'a [u8]], u8, Reason, &'a str, &'a str);

// The one query of stored runs: what its head has, and what is listed of that.
#[derive(Clone, Copy)]
struct Asked<'a> {
    head: &'a [&'a [u8]],
    listed: &'a str,
    rejections: &'a [Rejection<'a>],
}

const AUDIT: &str = "audit text:s t";

// Each kind in each round.
const ASKED: &[Asked<'static>] = &[
    Asked {
        head: &[&ONE_ASK, &SUB_1_2, &BLOCK],
        listed: "depth 2\n\
            query 1 sub:1:2 challenges 0000000000000002 000000000000000a\n",
        rejections: &[
            (
                &[&ENTRY_2, &LEFT_SIBLING_3],
                0,
                Reason::BadFlags,
                "rejected query 1 round 0 BadFlags\n",
                "frame Entries 0001000000020000000000000005\n\
                frame Siblings 010000000000000003\n",
            ),
            (
                &[&ENTRY_2, &SIBLINGS_3_1, &LEFT_SIBLING_3],
                1,
                Reason::BadFlags,
                "rejected query 1 round 1 BadFlags\n",
                "frame Entries 0001000000020000000000000005\n\
                frame Siblings 0300000000000000030000000000000001\n\
                frame Siblings 010000000000000003\n",
            ),
            (
                &[&ENTRY_2, &SIBLINGS_4_1, &NO_SIBLINGS],
                2,
                Reason::Root,
                "rejected query 1 round 2 Root\n",
                "frame Entries 0001000000020000000000000005\n\
                frame Siblings 0300000000000000040000000000000001\n\
                frame Siblings 00\n",
            ),
        ],
    },
    Asked {
        head: &[&ONE_ASK, &RANGE_1_3, &BLOCK],
        listed: "depth 2\n\
            query 1 range:0:1:3 challenges 0000000000000002 000000000000000a\n",
        rejections: &[
            (
                &[&CLAIM_11, &ENTRIES_1],
                0,
                Reason::Sum,
                "rejected query 1 round 0 Sum\n",
                "frame Claim 000000000000000b\n\
                frame Poly 00000000000000051ffffffffffffffe1ffffffffffffffc\n",
            ),
            (
                &[&CLAIM_6, &ENTRIES_1, &ENTRIES_1],
                1,
                Reason::Sum,
                "rejected query 1 round 1 Sum\n",
                "frame Claim 0000000000000006\n\
                frame Poly 00000000000000051ffffffffffffffe1ffffffffffffffc\n\
                frame Poly 00000000000000051ffffffffffffffe1ffffffffffffffc\n",
            ),
            (
                &[&CLAIM_6, &ENTRIES_1, &OTHER_ENTRIES_2],
                2,
                Reason::Root,
                "rejected query 1 round 2 Root\n",
                "frame Claim 0000000000000006\n\
                frame Poly 00000000000000051ffffffffffffffe1ffffffffffffffc\n\
                frame Poly 1ffffffffffffff900000000000000020000000000000001\n",
            ),
        ],
    },
    Asked {
        head: &[&ONE_ASK, &F2, &BLOCK],
        listed: "depth 2\n\
            query 1 f2:0 challenges 0000000000000002 000000000000000a\n",
        rejections: &[
            (
                &[&CLAIM_36, &SQUARES_1],
                0,
                Reason::Sum,
                "rejected query 1 round 0 Sum\n",
                "frame Claim 0000000000000024\n\
                frame Poly 00000000000000221fffffffffffffc50000000000000019\n",
            ),
            (
                &[&CLAIM_35, &SQUARES_1, &SQUARES_1],
                1,
                Reason::Sum,
                "rejected query 1 round 1 Sum\n",
                "frame Claim 0000000000000023\n\
                frame Poly 00000000000000221fffffffffffffc50000000000000019\n\
                frame Poly 00000000000000221fffffffffffffc50000000000000019\n",
            ),
            (
                &[&CLAIM_35, &SQUARES_1, &OTHER_SQUARES_2],
                2,
                Reason::Root,
                "rejected query 1 round 2 Root\n",
                "frame Claim 0000000000000023\n\
                frame Poly 00000000000000221fffffffffffffc50000000000000019\n\
                frame Poly 00000000000000091ffffffffffffffe0000000000000001\n",
            ),
        ],
    },
    Asked {
        head: &[&ONE_ASK, &INNER, &BLOCK],
        listed: "depth 2\n\
            query 1 inner challenges 0000000000000002 000000000000000a\n",
        rejections: &[
            (
                &[&CLAIM_6, &PRODUCTS_1],
                0,
                Reason::Sum,
                "rejected query 1 round 0 Sum\n",
                "frame Claim 0000000000000006\n\
                frame Poly 000000000000000b00000000000000001ffffffffffffff4\n",
            ),
            (
                &[&CLAIM_11, &PRODUCTS_1, &PRODUCTS_1],
                1,
                Reason::Sum,
                "rejected query 1 round 1 Sum\n",
                "frame Claim 000000000000000b\n\
                frame Poly 000000000000000b00000000000000001ffffffffffffff4\n\
                frame Poly 000000000000000b00000000000000001ffffffffffffff4\n",
            ),
            (
                &[&CLAIM_11, &PRODUCTS_1, &OTHER_PRODUCTS_2],
                2,
                Reason::Root,
                "rejected query 1 round 2 Root\n",
                "frame Claim 000000000000000b\n\
                frame Poly 000000000000000b00000000000000001ffffffffffffff4\n\
                frame Poly 1fffffffffffffdb00000000000000260000000000000001\n",
            ),
        ],
    },
    Asked {
        head: &[&ONE_ASK, &HEAVY_4, &BLOCK],
        listed: "depth 2\n\
            query 1 heavy:0:4 challenges 0000000000000002 000000000000000a\n",
        rejections: &[
            (
                &[&LEAF_2, &LEVEL_END],
                0,
                Reason::Pairs,
                "rejected query 1 round 0 Pairs\n",
                "frame Leaves 0001000000020000000000000005\n\
                frame LevelEnd -\n",
            ),
            (
                &[&LEAVES_5_1, &LEVEL_END, &NODE_0_OF_4],
                1,
                Reason::HeavySibling,
                "rejected query 1 round 1 HeavySibling\n",
                "frame Leaves 0002000000020000000000000005000000030000000000000001\n\
                frame LevelEnd -\n\
                frame Nodes 00010000000000000000000000090000000000000004\n",
            ),
            (
                &[&LEAVES_5_1, &LEVEL_END, &NODE_0_OF_2, &LEVEL_END],
                2,
                Reason::Total,
                "rejected query 1 round 2 Total\n",
                "frame Leaves 0002000000020000000000000005000000030000000000000001\n\
                frame LevelEnd -\n\
                frame Nodes 00010000000000000000000000090000000000000002\n\
                frame LevelEnd -\n",
            ),
        ],
    },
    Asked {
        head: &[&ONE_WIDE_ASK, &HALF, &BLOCK],
        listed: "depth 2\n\
            query 1 share:0:1:2 challenges 0000000000000002 000000000000000a\n",
        rejections: &[
            (
                &[&REFUSE_3],
                0,
                Reason::Refused(3),
                "rejected query 1 round 0 Refused(3)\n",
                "frame Refuse 03\n",
            ),
            (
                &[&LEAVES_5_1_WIDE, &LEVEL_END, &LEVEL_END],
                1,
                Reason::Pairs,
                "rejected query 1 round 1 Pairs\n",
                "frame Leaves \
                00020000000000000002000000000000000500000000000000030000000000000001\n\
                frame LevelEnd -\n\
                frame LevelEnd -\n",
            ),
            (
                &[
                    &LEAVES_5_1_WIDE,
                    &LEVEL_END,
                    &NODE_OF_HASH_8_WIDE,
                    &LEVEL_END,
                ],
                2,
                Reason::Root,
                "rejected query 1 round 2 Root\n",
                "frame Leaves \
                00020000000000000002000000000000000500000000000000030000000000000001\n\
                frame LevelEnd -\n\
                frame Nodes 0001000000000000000000000000000000080000000000000003\n\
                frame LevelEnd -\n",
            ),
        ],
    },
];

// What `convert` makes of a transcript is judged as the transcript is.
fn check_converted(
    rt: &impl Abort,
    alloc: Global,
    parts: &[&[u8]],
    line: &str,
    status: Status,
) -> Result<(), Fail> {
    let transcript = bytes_of(alloc, parts)?;
    let shown = given("convert t", &[], &transcript).run(alloc, 10_000, None)?;
    let case = Case {
        name: line,
        number: 2,
    };
    case.ends(shown.status, Status::Wrote).expect(rt, "a case");
    let converted: &[&[u8]] = &[shown.report.bytes()];
    let stored = (AUDIT, BOTH_SIDES, converted, status, line.as_bytes());
    check_stored(rt, alloc, &stored)
}

fn check_rejection(
    rt: &impl Abort,
    alloc: Global,
    asked: &Asked,
    &(replies, round, reason, line, frames): &Rejection,
) -> Result<(), Fail> {
    let query = 1;
    let status = Status::Rejected {
        query,
        round,
        reason,
    };
    let (head, replies) = (bytes_of(alloc, asked.head)?, bytes_of(alloc, replies)?);
    let parts: &[&[u8]] = &[&head, &replies];
    let listing = bytes_of(alloc, &[asked.listed.as_bytes(), frames.as_bytes()])?;
    let stored = (AUDIT, BOTH_SIDES, parts, status, line.as_bytes());
    check_stored(rt, alloc, &stored)?;
    let listed = (
        "show t",
        BOTH_SIDES,
        parts,
        Status::Wrote,
        listing.as_slice(),
    );
    check_stored(rt, alloc, &listed)?;
    check_converted(rt, alloc, parts, line, status)
}

fn check_rejections(rt: &impl Abort, alloc: Global, each: &[Asked]) -> Result<(), Fail> {
    for asked in each {
        for rejection in asked.rejections {
            check_rejection(rt, alloc, asked, rejection)?;
        }
    }
    Ok(())
}

#[test]
fn stored_rejections_are_shown_and_judged_again_in_both_versions(
    rt: HostRuntime,
) -> Result<(), Fail> {
    check_rejections(&rt, rt.alloc(), ASKED)
}
