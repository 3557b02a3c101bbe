// Heavy hitters and shares asked by `verify` of our own helper.

use crate::duel::{Talk, check_duels, duel};
use sip_command_tests::case::Case;
use sip_verifier::Status;
use sip_wire::Reason;
use std::test::Fail;

// The numbers 3, 0, 5 and 1, of which the total is 9.
const FOUR: &[u8] = b"0 0 3\n0 2 5\n0 3 1\n";

// Packets by their source address: 192.168.0.1 sent 1500 bytes of which 200 were taken back,
// 192.168.0.7 sent 40, and 10.0.0.5 sent 2000.
const PACKETS: &[u8] = b"0 3232235521 1500\n0 3232235527 40\n0 167772165 2000\n0 3232235521 -200\n";

// Each answer was found by hand.
const HITTERS: &[Talk<'static>] = &[
    (
        "verify text:s seed a b - 2 sub:1:2 f2:0 heavy:0:4 range:0:1:3",
        FOUR,
        "sub:1:2 2:5\nf2:0 35\nheavy:0:4 2:5\nrange:0:1:3 6\n",
    ),
    (
        "verify text:s seed a b - 2 heavy:0:4 heavy:0:3 heavy:0:1 heavy:0:9 heavy:1:1",
        FOUR,
        "heavy:0:4 2:5\nheavy:0:3 0:3 2:5\nheavy:0:1 0:3 2:5 3:1\nheavy:0:9 none\nheavy:1:1 none\n",
    ),
    (
        "verify text:s seed a b - 33 heavy:1:4 inner",
        b"1 0 3\n1 2 5\n1 3 1\n0 2 2\n",
        "heavy:1:4 2:5\ninner 10\n",
    ),
    (
        "verify text:s seed a b - 1 heavy:0:1",
        b"0 0 65536\n",
        "heavy:0:1 0:65536\n",
    ),
    (
        "verify text:s seed a b - 32 heavy:0:1000 sub:3232235520:3232235775 f2:0 \
         range:0:0:4294967295",
        PACKETS,
        "heavy:0:1000 167772165:2000 3232235521:1300\n\
         sub:3232235520:3232235775 3232235521:1300 3232235527:40\n\
         f2:0 5691600\nrange:0:0:4294967295 3340\n",
    ),
    (
        "verify text:s seed a b - 32 sub:4294967295:4294967295 heavy:0:7 range:0:0:4294967294",
        b"0 4294967295 7\n",
        "sub:4294967295:4294967295 4294967295:7\nheavy:0:7 4294967295:7\n\
         range:0:0:4294967294 0\n",
    ),
    (
        "verify text:s seed a b - 2 heavy:0:10 heavy:0:9223372036854775807",
        FOUR,
        "heavy:0:10 none\nheavy:0:9223372036854775807 none\n",
    ),
];

// The same of shares. The last one of the first run is asked for with the threshold 9. Of 3340
// bytes a half is 1670, and 38 of a hundred are 1269.2.
const SHARES: &[Talk<'static>] = &[
    (
        "verify text:s seed a b - 2 share:0:1:2 share:0:5:9 share:0:1:3 share:0:1:1",
        FOUR,
        "share:0:1:2 2:5\nshare:0:5:9 2:5\nshare:0:1:3 0:3 2:5\nshare:0:1:1 none\n",
    ),
    (
        "verify text:s seed a b - 2 share:0:1:2",
        b"",
        "share:0:1:2 none\n",
    ),
    (
        "verify text:s seed a b - 1 share:0:1:65537",
        b"0 0 65536\n",
        "share:0:1:65537 0:65536\n",
    ),
    (
        "verify text:s seed a b - 32 sub:167772165:167772165 share:0:1:2 f2:0 share:0:38:100",
        PACKETS,
        "sub:167772165:167772165 167772165:2000\nshare:0:1:2 167772165:2000\nf2:0 5691600\n\
         share:0:38:100 167772165:2000 3232235521:1300\n",
    ),
];

#[test]
fn hitters_and_shares_by_both_ends(rt: HostRuntime) -> Result<(), Fail> {
    check_duels(&rt, rt.alloc(), HITTERS)?;
    check_duels(&rt, rt.alloc(), SHARES)
}

// No count is below 0, so heavy hitters of -2 and 5 are refused. The lines of the queries before
// stand.
#[test]
fn a_negative_entry_is_refused(rt: HostRuntime) -> Result<(), Fail> {
    let words = "verify text:s seed a b - 1 sub:0:1 f2:0 range:0:0:1 heavy:0:3";
    let shown = duel(rt.alloc(), words, b"0 0 -2\n0 1 5\n")?;
    let case = Case {
        name: words,
        number: 10_000,
    };
    let rejected = Status::Rejected {
        query: 4,
        round: 0,
        reason: Reason::Refused(3),
    };
    let lines = "sub:0:1 0:-2 1:5\nf2:0 29\nrange:0:0:1 3\nrejected query 4 round 0 Refused(3)\n";
    case.ends(shown.status, rejected).expect(&rt, "a case");
    case.writes(shown.report.bytes(), lines.as_bytes())
        .expect(&rt, "a case");
    Ok(())
}
