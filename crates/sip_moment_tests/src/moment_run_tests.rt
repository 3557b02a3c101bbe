//! Moments that are accepted, and one that is not asked. The replies were worked out apart from the
//! program.
use crate::moment_runs::{END, MomentRounds, Talk, check, one, task};
use sip_moments::Moment;
use sip_vector::Side;
use sip_verifier::Status;
use std::alloc::Global;
use std::process::Abort;
use std::test::Fail;

// The vectors (3, 0, -5, -2, 0, 0, 0, 1) and (0, 2, 0, 0, 0, 0, -4, 0), and what is sent of them.
const EIGHT: &[u8] = b"0 0 3\n0 2 -5\n1 1 2\n0 7 1\n1 6 -4\n0 3 -2\n";

const EIGHT_SENT: [u8; 91] = [
    1, 0, 2, 1, 3, 2, 0, 80, 0, 6, 0, 0, 0, 0, 0, 0, 0, 0, 0, 0, 0, 0, 3, 0, 0, 0, 0, 2, 0xff,
    0xff, 0xff, 0xff, 0xff, 0xff, 0xff, 0xfb, 1, 0, 0, 0, 1, 0, 0, 0, 0, 0, 0, 0, 2, 0, 0, 0, 0, 7,
    0, 0, 0, 0, 0, 0, 0, 1, 1, 0, 0, 0, 6, 0xff, 0xff, 0xff, 0xff, 0xff, 0xff, 0xff, 0xfc, 0, 0, 0,
    0, 3, 0xff, 0xff, 0xff, 0xff, 0xff, 0xff, 0xff, 0xfe, 3, 0, 0,
];

// The moments of degree 3 to 8 of both sides, in turn.
const SIX: [MomentRounds; 6] = [
    MomentRounds {
        side: Side::First,
        degree: 3,
        claim: -105,
        rounds: &[
            (0, &[0x1fffffffffffff9d, 144, 0x1fffffffffffffc9, 1]),
            (
                0x1207be3415bc170e,
                &[
                    0x1c3c381181c88e50,
                    0x1e12afa2f1fb1b1e,
                    0xbcbe14f1439a9d1,
                    0x15d355a29346106a,
                ],
            ),
            (
                0x517b0ca7cad4ba8,
                &[
                    0x7d6b816deff72ee,
                    0x1ce7a8c5f7d21d8,
                    0x180af12203057124,
                    0x5fc323e3eb1b714,
                ],
            ),
        ],
    },
    MomentRounds {
        side: Side::Second,
        degree: 4,
        claim: 272,
        rounds: &[
            (0, &[256, 0x1ffffffffffffbff, 1536, 0x1ffffffffffffbff, 272]),
            (
                0x18e1aef1799de6d5,
                &[
                    0x177b212395966ece,
                    0x2137b71a9a644c5,
                    0xce2c6d5818698d8,
                    0x2137b71a9a644c5,
                    0x1654f7bca3db23b3,
                ],
            ),
            (
                0x11a90aea2f8b283b,
                &[
                    0x16d4a2d930fef7da,
                    0xa6334307b74e7a0,
                    0x10ce6912380401a1,
                    0x3ea81d02f665fe2,
                    0x1d08ba5410c4b71e,
                ],
            ),
        ],
    },
    MomentRounds {
        side: Side::First,
        degree: 5,
        claim: -2913,
        rounds: &[
            (
                0,
                &[
                    0x1ffffffffffff4bd,
                    8160,
                    0x1fffffffffffdd8b,
                    4320,
                    0x1ffffffffffffcd5,
                    1,
                ],
            ),
            (
                0x3942302be97086d,
                &[
                    0xcf5e669ea7935a5,
                    0x250bd30a959a1e0,
                    0x10bb6749a2992ae,
                    0xf388a467d689574,
                    0x4c0cfadb1bde4f8,
                    0x169c23ffd7cc3ede,
                ],
            ),
            (
                0x10ccbdd64d36d0f8,
                &[
                    0x12329658828a1664,
                    0x3b56d40bb994e23,
                    0xdf65eb7dcbd8dc3,
                    0x1c6bc358951e315f,
                    0x1fc05a4e1437f2db,
                    0x1bae23ad6708cc6b,
                ],
            ),
        ],
    },
    MomentRounds {
        side: Side::Second,
        degree: 6,
        claim: 4160,
        rounds: &[
            (
                0,
                &[
                    4096,
                    0x1fffffffffff9fff,
                    61440,
                    0x1ffffffffffebfff,
                    61440,
                    0x1fffffffffff9fff,
                    4160,
                ],
            ),
            (
                0x1a105ae6f92f753,
                &[
                    0x15326dd87c1b0c42,
                    0xd16ced175db670,
                    0x1df46faf4595b7e7,
                    0x180f6b164de30aca,
                    0x1df46faf4595b7e7,
                    0xd16ced175db670,
                    0x8a80e874f94b6c7,
                ],
            ),
            (
                0xd2cbc69140521f9,
                &[
                    0x1db2fa80bd8d54a7,
                    0x17193e2f3692c541,
                    0x1032eb5059e78901,
                    0x184af983d027f65d,
                    0x1b49388832c91746,
                    0x84391e1706dbfcf,
                    0xd497fc87750e30f,
                ],
            ),
        ],
    },
    MomentRounds {
        side: Side::First,
        degree: 7,
        claim: -76065,
        rounds: &[
            (
                0,
                &[
                    0x1ffffffffffed75d,
                    312816,
                    0x1ffffffffff7b045,
                    514080,
                    0x1ffffffffffbc2b9,
                    81648,
                    0x1fffffffffffd821,
                    1,
                ],
            ),
            (
                0x869dcd38ec436e5,
                &[
                    0x19cedb029614987c,
                    0x1f7847de495e38b4,
                    0x175c19d638309b35,
                    0x1b76f44aedb9e9e0,
                    0x15527f8dd426f725,
                    0x18ddfbb467f9e483,
                    0x1106f84df7018abf,
                    0x13090076333fade2,
                ],
            ),
            (
                0x1aa73b0e96066e3a,
                &[
                    0x5e77215a6fcd0ad,
                    0x1c3beb0547e01ffc,
                    0xbebe204af607586,
                    0x19da6217741d465,
                    0x1a98268f28066062,
                    0xbd205f7d4575590,
                    0xee30227bc4ad4c5,
                    0x84a89332e490e86,
                ],
            ),
        ],
    },
    MomentRounds {
        side: Side::Second,
        degree: 8,
        claim: 65792,
        rounds: &[
            (
                0,
                &[
                    65536,
                    0x1ffffffffff7ffff,
                    0x1c0000,
                    0x1fffffffffc7ffff,
                    0x460000,
                    0x1fffffffffc7ffff,
                    0x1c0000,
                    0x1ffffffffff7ffff,
                    65792,
                ],
            ),
            (
                0xde9af2963e15c35,
                &[
                    0x1a9f1f31cef637b9,
                    0xb070671884e4231,
                    0x9676972a2ee1853,
                    0xd312d1aba23cf59,
                    0x782879e97533cd0,
                    0xd312d1aba23cf59,
                    0x9676972a2ee1853,
                    0xb070671884e4231,
                    0x9b4d35a6541b4a5,
                ],
            ),
            (
                0x1c2d84cc7cd40125,
                &[
                    0x71591b9ad03488f,
                    0xa3ef8f8ee61d7c8,
                    0x123d6d227368dd90,
                    0xe1fc79db7e3af17,
                    0x107e273ac2fa8a24,
                    0x38f5c5b796fca54,
                    0x1d438c3d9e65eac4,
                    0x115be83a54556e30,
                    0xe7f9fd29461dc1e,
                ],
            ),
        ],
    },
];

// Over 2^48 items, of which the last one is -2: each polynomial is a multiple of the cube, by this.
const DEEP: [(u64, u64); 48] = [
    (0, 0x1ffffffffffffff7),
    (0x1207be3415bc170e, 0x343453b70ade73e),
    (0x517b0ca7cad4ba8, 0x29d4fe3fe621806),
    (0x35db1b417033a57, 0x1e4791d663769c5f),
    (0x18e1aef1799de6d5, 0x1b3b81468105954),
    (0x11a90aea2f8b283b, 0x1e48728a652b23ad),
    (0x6e95b1707fc048e, 0x1b80d72e5816ec83),
    (0x3942302be97086d, 0x1df1adaaf65cf3ee),
    (0x10ccbdd64d36d0f8, 0x1e7a7b9480089459),
    (0xf470a2ab7dce0f3, 0x10de62a3635cc735),
    (0x1a105ae6f92f753, 0x6297958eda578fa),
    (0xd2cbc69140521f9, 0x12d06db979780b42),
    (0x1daf5dc647ca78c2, 0x1cd187c82f387791),
    (0x869dcd38ec436e5, 0x1efdc1c27cfc66ca),
    (0x1aa73b0e96066e3a, 0x1ff0b65000cd2fab),
    (0x8bf614a2503fda6, 0x14a705c8bb4368c),
    (0xde9af2963e15c35, 0x1886b79a1c056e26),
    (0x1c2d84cc7cd40125, 0xdc83bdf3b5d0c8d),
    (0xeb40d03211a2fd5, 0xed7690fb78c7ea8),
    (0x18cc5a6f7331ce31, 0x19faa2ea7fde2e25),
    (0xbb674152688d876, 0x70753cbfcac1787),
    (0x1ebaf63ed06e4e0, 0x7048946fb9df569),
    (0x3d78b1c9fa743c5, 0xbe1aa483070a75e),
    (0x181299f9227a7a4e, 0x99d91663c47eeb7),
    (0x1e4914480c4e3e6b, 0x17407f1b0a098f2f),
    (0xd6ad67aeb140402, 0x166c458881db6fce),
    (0x157fa47d55b441a, 0x11f232d245a3b3d1),
    (0xe64f0bf64163718, 0x18d69ce79e158367),
    (0x14922b968692ec78, 0x195a6a8971639b96),
    (0x5c1b09f10797a85, 0x19e8e7c825a2c739),
    (0x7f58c42026b163d, 0x177f2c68c7d5489d),
    (0xac319adbfff0583, 0xfb14a1d6fd850d4),
    (0xfc2cce62d83cd5d, 0x159f8ff9433b3c99),
    (0x15b8a8e56e9114dc, 0x1e5f3e348713062c),
    (0x1623bfaedbfa8b3f, 0x12f77f778ac46d57),
    (0x55f1523877c03dc, 0x1909cfcf6192e8e4),
    (0x8f26e517b67c2f9, 0x1d23043e81557b8),
    (0x192209b201f317c9, 0x990e23edc5515b3),
    (0x109d341068e56882, 0x1fa14a3846f7050d),
    (0x713966af936c190, 0x10d81c2eeee717bf),
    (0x9b154df59ea31fd, 0x195de1a2a4b10286),
    (0x8c8aa139464a21c, 0xcd7b5bb147f027c),
    (0x2a51d74e0c29b97, 0x17c4c32c13f4315),
    (0x14f740965aea0a23, 0xa8b7d6063172d8f),
    (0x1b62e240523e1a83, 0x96863ef7ad39b38),
    (0x354e9e99916be2b, 0x76dfff6236b7387),
    (0xa5592b4d42212d0, 0x95e63bc1ae653d1),
    (0x4314d694eeacb6f, 0x109309794e95e0af),
];

// That last item, and what is sent of it.
const LAST: &[u8] = b"0 281474976710655 -2\n";

const DEEP_SENT: [u8; 30] = [
    1, 0, 2, 2, 48, 2, 0, 19, 0, 1, 0, 0, 0, 0xff, 0xff, 0xff, 0xff, 0xff, 0xff, 0xff, 0xff, 0xff,
    0xff, 0xff, 0xff, 0xff, 0xfe, 3, 0, 0,
];

// One record of 181, for whose eighth moment a claim has room, and one of 182, for whose it has
// not.
const LIGHT: &[u8] = b"0 0 181\n";

const LIGHT_SENT: [u8; 26] = [
    1, 0, 2, 1, 1, 2, 0, 15, 0, 1, 0, 0, 0, 0, 0, 0, 0, 0, 0, 0, 0, 0, 0xb5, 3, 0, 0,
];

const HEAVY: &[u8] = b"0 0 182\n";

const HEAVY_SENT: [u8; 26] = [
    1, 0, 2, 1, 1, 2, 0, 15, 0, 1, 0, 0, 0, 0, 0, 0, 0, 0, 0, 0, 0, 0, 0xb6, 3, 0, 0,
];

const LIMIT: MomentRounds = MomentRounds {
    side: Side::First,
    degree: 8,
    claim: 1151936657823500641,
    rounds: &[(
        0,
        &[
            0xffc80497d520961,
            0x1bfdb4156fb4f4,
            0x1f9e0809b4f906a9,
            0xc3efec960df2ac,
            0x1f0b1418446e90a8,
            0xc3efec960df2ac,
            0x1f9e0809b4f906a9,
            0x1bfdb4156fb4f4,
            0xffc80497d520961,
        ],
    )],
};

// The six questions, and what is said of them.
fn six(rt: &impl Abort, alloc: Global) -> (Vec<Moment>, Talk) {
    let mut talk = Talk::new(alloc);
    let mut moments = Vec::new(alloc);
    talk.say(rt, &EIGHT_SENT);
    for asked in &SIX {
        let (side, degree) = (asked.side, asked.degree);
        moments.push(Moment { side, degree }).expect(rt, "memory");
        talk.ask(rt, asked);
    }
    talk.say(rt, &END);
    (moments, talk)
}

const SIX_LINES: &[u8] = b"moment:0:3 -105\nmoment:1:4 272\nmoment:0:5 -2913\n\
    moment:1:6 4160\nmoment:0:7 -76065\nmoment:1:8 65792\n";

#[test]
fn moments_of_each_degree_are_accepted(rt: HostRuntime) -> Result<(), Fail> {
    let alloc = rt.alloc();
    let (moments, talk) = six(&rt, alloc);
    let task = task(3, &moments)?;
    let want = Status::Accepted;
    check(&rt, alloc, "six", &task, EIGHT, 1, &talk, want, SIX_LINES);
    check(
        &rt, alloc, "six", &task, EIGHT, 10_000, &talk, want, SIX_LINES,
    );
    Ok(())
}

// What is said where the last of 2^48 items is asked for.
fn deep(rt: &impl Abort, alloc: Global) -> Talk {
    let mut talk = Talk::new(alloc);
    talk.say(rt, &DEEP_SENT);
    talk.say(rt, &[0x24, 0, 2, 0, 3]);
    for (round, (revealed, cube)) in DEEP.iter().enumerate() {
        if round == 0 {
            talk.hear(
                rt,
                &[0x11, 0, 8, 0xff, 0xff, 0xff, 0xff, 0xff, 0xff, 0xff, 0xf8],
            );
        } else {
            talk.say(rt, &[5, 0, 8]);
            talk.say(rt, &revealed.to_be_bytes());
        }
        talk.hear(rt, &[0x25, 0, 32]);
        talk.hear(rt, &[0; 24]);
        talk.hear(rt, &cube.to_be_bytes());
    }
    talk.say(rt, &END);
    talk
}

#[test]
fn moments_are_asked_of_deep_streams(rt: HostRuntime) -> Result<(), Fail> {
    let alloc = rt.alloc();
    let task = one(48, Side::First, 3)?;
    let talk = deep(&rt, alloc);
    let report = b"moment:0:3 -8\n";
    let want = Status::Accepted;
    check(&rt, alloc, "deep", &task, LAST, 1, &talk, want, report);
    check(&rt, alloc, "deep", &task, LAST, 10_000, &talk, want, report);
    Ok(())
}

#[test]
fn the_greatest_moment_is_asked(rt: HostRuntime) -> Result<(), Fail> {
    let alloc = rt.alloc();
    let task = one(1, Side::First, 8)?;
    let mut talk = Talk::new(alloc);
    talk.say(&rt, &LIGHT_SENT);
    talk.ask(&rt, &LIMIT);
    talk.say(&rt, &END);
    let report = b"moment:0:8 1151936657823500641\n";
    let want = Status::Accepted;
    check(&rt, alloc, "181", &task, LIGHT, 7, &talk, want, report);
    Ok(())
}

#[test]
fn a_moment_without_room_in_a_claim_is_not_asked(rt: HostRuntime) -> Result<(), Fail> {
    let alloc = rt.alloc();
    let task = one(1, Side::First, 8)?;
    let mut talk = Talk::new(alloc);
    talk.say(&rt, &HEAVY_SENT);
    let want = Status::TooHigh { query: 1 };
    check(&rt, alloc, "182", &task, HEAVY, 7, &talk, want, b"");
    Ok(())
}
