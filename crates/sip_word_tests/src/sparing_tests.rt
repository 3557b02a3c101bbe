// What is not opened, by the files that the openings are on.

use crate::words::words_between;
use sip_command_tests::case::Case;
use sip_words::{FileId, Opening, PlanFiles, PortPlan, ports, read_words};
use std::process::Abort;
use std::test::Fail;

// The inodes of STREAM, SEED, FROM, TO and RECORD, and the devices of all but RECORD and of RECORD.
// No file has inode 0. Then whether TO and RECORD are left out.
type Spared = ([u64; 5], [u64; 2], bool, bool);

const SPARED: &[Spared] = &[
    ([1, 2, 3, 4, 5], [9, 9], false, false),
    ([0, 0, 0, 0, 0], [9, 9], false, false),
    ([1, 2, 0, 0, 0], [9, 9], false, false),
    ([4, 2, 3, 4, 5], [9, 9], true, false),
    ([1, 4, 3, 4, 5], [9, 9], true, false),
    ([1, 2, 4, 4, 5], [9, 9], true, false),
    ([5, 2, 3, 4, 5], [9, 9], false, true),
    ([1, 5, 3, 4, 5], [9, 9], false, true),
    ([1, 2, 5, 4, 5], [9, 9], false, true),
    ([1, 2, 3, 4, 4], [9, 9], true, true),
    ([1, 1, 1, 4, 5], [9, 9], false, false),
    ([1, 5, 3, 4, 5], [9, 8], false, false),
    ([1, 2, 3, 4, 4], [9, 8], false, false),
];

fn file(device: u64, inode: u64) -> Option<FileId> {
    (inode > 0).then_some(FileId { device, inode })
}

fn check_spared(rt: &impl Abort, plan: &PortPlan, rows: &[Spared]) {
    for (index, &([first, second, from, to, keep], devices, no_to, no_keep)) in rows
        .iter()
        .enumerate()
    {
        let [device, other] = devices;
        let spared = plan.sparing(&PlanFiles {
            first: file(device, first),
            second: file(device, second),
            from: file(device, from),
            to: file(device, to),
            keep: file(other, keep),
        });
        let want = PortPlan {
            to: if no_to { Opening::Spared } else { plan.to },
            keep: if no_keep { Opening::Spared } else { plan.keep },
            ..*plan
        };
        let case = Case {
            name: "outputs left out",
            number: index as u64,
        };
        case.holds(spared == want).expect(rt, "a case");
    }
}

#[test]
fn an_output_that_is_another_file_is_left_out(rt: HostRuntime) -> Result<(), Fail> {
    let words = words_between(rt.alloc(), "verify|s|k|f|t|r|20|inner", '|')?;
    let command = read_words(&words)?;
    check_spared(&rt, &ports(&words, &command), SPARED);
    Ok(())
}

// The inodes of STORED, FROM and TO, and whether STORED and TO are left out.
type Heard = ([u64; 3], bool, bool);

const HEARD: &[Heard] = &[
    ([1, 2, 3], false, false),
    ([0, 0, 0], false, false),
    ([2, 2, 3], true, false),
    ([2, 2, 2], true, true),
    ([3, 2, 3], false, true),
    ([1, 3, 3], false, true),
];

fn check_heard(rt: &impl Abort, plan: &PortPlan, rows: &[Heard]) {
    for (index, &([first, from, to], no_first, no_to)) in rows.iter().enumerate() {
        let spared = plan.sparing(&PlanFiles {
            first: file(9, first),
            second: None,
            from: file(9, from),
            to: file(9, to),
            keep: None,
        });
        let want = PortPlan {
            first: if no_first {
                Opening::Spared
            } else {
                plan.first
            },
            to: if no_to { Opening::Spared } else { plan.to },
            ..*plan
        };
        let case = Case {
            name: "what is left out of a helper",
            number: index as u64,
        };
        case.holds(spared == want).expect(rt, "a case");
    }
}

#[test]
fn a_stream_that_brings_the_talk_is_left_out(rt: HostRuntime) -> Result<(), Fail> {
    let words = words_between(rt.alloc(), "serve|s|f|t", '|')?;
    let command = read_words(&words)?;
    check_heard(&rt, &ports(&words, &command), HEARD);
    Ok(())
}
