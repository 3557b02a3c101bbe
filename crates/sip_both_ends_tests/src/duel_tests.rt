// Sub-vectors asked by `verify` of our own helper.

use crate::duel::{Talk, check_duel, check_duels, heard, sent};
use sip_command_tests::case::Case;
use sip_command_tests::ones::rows_of_ones;
use std::alloc::Global;
use std::process::Abort;
use std::test::Fail;

// The number of bytes, and the sum of each of them times its place, from 1 on.
fn weight(bytes: &[u8]) -> (u64, u64) {
    let (mut count, mut sum) = (0u64, 0u64);
    for byte in bytes {
        count = count.wrapping_add(1);
        sum = sum.wrapping_add(count.wrapping_mul(u64::from(*byte)));
    }
    (count, sum)
}

// A whole talk, and the bytes that were sent and heard, by their number and their sum, which were
// computed apart.
#[derive(Clone, Copy)]
struct Weighed<'a> {
    talk: Talk<'a>,
    sent: (u64, u64),
    heard: (u64, u64),
}

// Packets by their source address: 192.168.0.1 sent 1500 bytes of which 200 were taken back,
// 192.168.0.7 sent 40, and 10.0.0.5 sent 2000.
const PACKETS: &[u8] = b"0 3232235521 1500\n0 3232235527 40\n0 167772165 2000\n0 3232235521 -200\n";

const PACKET_LINES: &str = "sub:3232235520:3232235775 3232235521:1300 3232235527:40\n\
     sub:0:4294967295 167772165:2000 3232235521:1300 3232235527:40\n\
     sub:0:167772164 none\n";

// Item 2^47, to which 7 is added.
const ITEM_2_TO_47: [u8; 17] = [0, 0, 0, 0x80, 0, 0, 0, 0, 0, 0, 0, 0, 0, 0, 0, 0, 7];

// Items on both sides of 2^32 and of 2^47, the first two and the last of 2^48. What is added to
// side 1, and what is taken back again, shows in no entry.
const SPREAD: &[u8] = b"0 0 9\n0 1 -4\n0 4294967295 3\n0 4294967296 6\n1 281474976710655 5\n\
     0 1099511627776 5\n0 140737488355327 1000000\n0 140737488355328 -7\n\
     0 1099511627776 -5\n0 281474976710655 12\n";

// Up to depth 32 talks are in version 1, and above it in version 2.
const TALKS: &[Weighed<'static>] = &[
    Weighed {
        talk: (
            "verify text:s seed a b - 32 sub:3232235520:3232235775 sub:0:4294967295 \
                sub:0:167772164",
            PACKETS,
            PACKET_LINES,
        ),
        sent: (1_127, 51_654_069),
        heard: (878, 2_782_231),
    },
    Weighed {
        talk: (
            "verify text:s seed a b - 33 sub:3232235520:3232235775 sub:0:4294967295 \
                sub:0:167772164",
            PACKETS,
            PACKET_LINES,
        ),
        sent: (1_200, 57_861_318),
        heard: (934, 2_979_446),
    },
    Weighed {
        talk: (
            "verify wide:s seed a b - 48 sub:140737488355328:140737488355328",
            &ITEM_2_TO_47,
            "sub:140737488355328:140737488355328 140737488355328:7\n",
        ),
        sent: (570, 13_090_055),
        heard: (597, 454_164),
    },
    Weighed {
        talk: (
            "verify text:s seed a b - 48 sub:0:281474976710655 sub:4294967295:4294967296 \
                sub:140737488355327:140737488355328",
            SPREAD,
            "sub:0:281474976710655 0:9 1:-4 4294967295:3 4294967296:6 \
                140737488355327:1000000 140737488355328:-7 281474976710655:12\n\
                sub:4294967295:4294967296 4294967295:3 4294967296:6\n\
                sub:140737488355327:140737488355328 140737488355327:1000000 \
                140737488355328:-7\n",
        ),
        sent: (1_797, 130_488_478),
        heard: (2_151, 15_964_289),
    },
];

fn check_weighed(rt: &impl Abort, alloc: Global, rows: &[Weighed]) -> Result<(), Fail> {
    for row in rows {
        let shown = check_duel(rt, alloc, row.talk)?;
        let events = shown.peer.talk();
        let case = Case {
            name: row.talk.0,
            number: 10_000,
        };
        case.holds(weight(&sent(alloc, events)?) == row.sent)
            .expect(rt, "a case");
        case.holds(weight(&heard(alloc, events)?) == row.heard)
            .expect(rt, "a case");
    }
    Ok(())
}

// The vector 3, 0, 5, 1, 0, 0, -2, 0. What is added to side 1, and what is taken back again, shows
// in no entry.
const EIGHT: &[u8] = b"0 0 3\n0 2 5\n1 1 9\n0 3 1\n0 5 4\n0 6 -2\n0 5 -4\n";

const SIXTEEN_QUERIES: &[Talk<'static>] = &[(
    "verify text:s seed a b - 3 sub:0:0 sub:1:1 sub:1:2 sub:2:3 sub:0:3 sub:0:7 sub:4:7 \
         sub:6:6 sub:7:7 sub:4:5 sub:3:6 sub:1:6 sub:2:7 sub:0:6 sub:5:5 sub:2:2",
    EIGHT,
    "sub:0:0 0:3\nsub:1:1 none\nsub:1:2 2:5\nsub:2:3 2:5 3:1\nsub:0:3 0:3 2:5 3:1\n\
         sub:0:7 0:3 2:5 3:1 6:-2\nsub:4:7 6:-2\nsub:6:6 6:-2\nsub:7:7 none\nsub:4:5 none\n\
         sub:3:6 3:1 6:-2\nsub:1:6 2:5 3:1 6:-2\nsub:2:7 2:5 3:1 6:-2\n\
         sub:0:6 0:3 2:5 3:1 6:-2\nsub:5:5 none\nsub:2:2 2:5\n",
)];

#[test]
fn whole_talks(rt: HostRuntime) -> Result<(), Fail> {
    check_weighed(&rt, rt.alloc(), TALKS)?;
    check_duels(&rt, rt.alloc(), SIXTEEN_QUERIES)
}

// 1100 records of delta 1, on the items from 0: two whole frames and a part of one.
#[test]
fn a_stream_of_three_frames(rt: HostRuntime) -> Result<(), Fail> {
    let alloc = rt.alloc();
    let stream = rows_of_ones(alloc, 1100, &[], &[0])?;
    let words = "verify s seed a b - 11 sub:510:513 sub:1022:1025 sub:1099:2047";
    let lines = "sub:510:513 510:1 511:1 512:1 513:1\nsub:1022:1025 1022:1 1023:1 1024:1 1025:1\n\
         sub:1099:2047 1099:1\n";
    check_duel(&rt, alloc, (words, &stream, lines))?;
    Ok(())
}
