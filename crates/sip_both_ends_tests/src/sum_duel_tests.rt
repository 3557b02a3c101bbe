// Sums asked by `verify` of our own helper.

use crate::duel::{Talk, check_duels};
use std::test::Fail;

// One wide record: item 2^47, to which 7 is added.
const ITEM_2_TO_47: [u8; 17] = [0, 0, 0, 0x80, 0, 0, 0, 0, 0, 0, 0, 0, 0, 0, 0, 0, 7];

// Side 0 is 3, 0, 5, 1, and side 1 is 2, 7, 1, 0.
const BOTH_SIDES: &[u8] = b"0 0 3\n1 0 2\n0 2 5\n1 1 7\n0 3 1\n1 2 1\n";

// Side 0 is 3, 0, 5, 1, 0, 0, -2, 0, and side 1 is 0, 9, -4, 0, 0, 0, 7, 0, of which some is taken
// back.
const EIGHT: &[u8] =
    b"0 0 3\n0 2 5\n1 1 9\n0 3 1\n0 5 4\n1 2 -4\n0 6 -2\n1 6 9\n1 5 1\n0 5 -4\n1 6 -2\n1 5 -1\n";

// Packets by their source address: 192.168.0.1 sent 1500 bytes of which 200 were taken back,
// 192.168.0.7 sent 40, and 10.0.0.5 sent 2000.
const PACKETS: &[u8] = b"0 3232235521 1500\n0 3232235527 40\n0 167772165 2000\n0 3232235521 -200\n";

// Each sum was found by hand. The four kinds come in one run, up to 16 queries of them, in both
// versions of the frames.
const TALKS: &[Talk<'static>] = &[
    (
        "verify text:s seed a b - 2 sub:1:2 f2:0 range:0:1:3 inner f2:1",
        BOTH_SIDES,
        "sub:1:2 2:5\nf2:0 35\nrange:0:1:3 6\ninner 11\nf2:1 54\n",
    ),
    (
        "verify text:s seed a b - 33 sub:1:2 f2:0 range:0:1:3 inner f2:1",
        BOTH_SIDES,
        "sub:1:2 2:5\nf2:0 35\nrange:0:1:3 6\ninner 11\nf2:1 54\n",
    ),
    (
        "verify text:s seed a b - 3 sub:0:7 range:0:0:7 f2:0 inner f2:1 range:1:0:7 sub:4:7 \
         range:0:2:3 range:0:6:6 inner range:1:1:2 f2:0 sub:1:1 range:1:7:7 range:0:4:5 f2:1",
        EIGHT,
        "sub:0:7 0:3 2:5 3:1 6:-2\nrange:0:0:7 7\nf2:0 39\ninner -34\nf2:1 146\n\
         range:1:0:7 12\nsub:4:7 6:-2\nrange:0:2:3 6\nrange:0:6:6 -2\ninner -34\n\
         range:1:1:2 5\nf2:0 39\nsub:1:1 none\nrange:1:7:7 0\nrange:0:4:5 0\nf2:1 146\n",
    ),
    (
        "verify text:s seed a b - 1 f2:0 f2:1 inner range:0:0:0 range:1:0:1",
        b"",
        "f2:0 0\nf2:1 0\ninner 0\nrange:0:0:0 0\nrange:1:0:1 0\n",
    ),
    (
        "verify text:s seed a b - 1 sub:0:1 f2:0 range:0:0:1",
        b"0 0 -2\n0 1 5\n",
        "sub:0:1 0:-2 1:5\nf2:0 29\nrange:0:0:1 3\n",
    ),
    // The greatest weight of a side, and the ends of what a claim can be.
    (
        "verify text:s seed a b - 2 f2:0 range:0:0:0",
        b"0 0 1073741823\n",
        "f2:0 1152921502459363329\nrange:0:0:0 1073741823\n",
    ),
    (
        "verify text:s seed a b - 20 inner range:1:5:1048575",
        b"0 5 1073741823\n1 5 -1073741823\n",
        "inner -1152921502459363329\nrange:1:5:1048575 -1073741823\n",
    ),
    (
        "verify text:s seed a b - 32 f2:0 range:0:0:4294967295",
        PACKETS,
        "f2:0 5691600\nrange:0:0:4294967295 3340\n",
    ),
    (
        "verify text:s seed a b - 32 range:0:3232235520:3232235775 f2:1",
        PACKETS,
        "range:0:3232235520:3232235775 1340\nf2:1 0\n",
    ),
    (
        "verify text:s seed a b - 32 sub:4294967295:4294967295 range:0:0:4294967294",
        b"0 4294967295 7\n",
        "sub:4294967295:4294967295 4294967295:7\nrange:0:0:4294967294 0\n",
    ),
    (
        "verify wide:s seed a b - 48 sub:140737488355328:140737488355328 f2:0",
        &ITEM_2_TO_47,
        "sub:140737488355328:140737488355328 140737488355328:7\nf2:0 49\n",
    ),
    (
        "verify wide:s seed a b - 48 range:0:140737488355328:281474976710655 inner",
        &ITEM_2_TO_47,
        "range:0:140737488355328:281474976710655 7\ninner 0\n",
    ),
    (
        "verify wide:s seed a b - 48 range:0:0:140737488355327 range:1:0:281474976710655",
        &ITEM_2_TO_47,
        "range:0:0:140737488355327 0\nrange:1:0:281474976710655 0\n",
    ),
];

#[test]
fn sums_by_both_ends(rt: HostRuntime) -> Result<(), Fail> {
    check_duels(&rt, rt.alloc(), TALKS)
}
