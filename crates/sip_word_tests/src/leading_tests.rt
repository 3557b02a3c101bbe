// The word in front of a command that asks for its progress.

use crate::words::words_between;
use sip_command_tests::case::Case;
use std::test::Fail;

// Words with a bar between them, those behind `--progress`, and whether it is there.
type Led<'a> = (&'a str, &'a str, bool);

const LED: &[Led<'static>] = &[
    ("--progress|help|a|b", "help|a|b", true),
    ("--progress|--progress|x", "--progress|x", true),
    ("help|--progress", "help|--progress", false),
    ("--Progress|help", "--Progress|help", false),
    ("--progress", "", true),
    ("", "", false),
];

#[test]
fn progress_stands_before_the_words(rt: HostRuntime) -> Result<(), Fail> {
    let alloc = rt.alloc();
    for &(name, want, leads) in LED {
        let (words, told) = words_between(alloc, name, '|')?.behind_progress();
        let mut same = told == leads;
        for (index, word) in want.split('|').enumerate() {
            same = same && words.get(index).unwrap_or("") == word;
        }
        Case { name, number: 0 }.holds(same).expect(&rt, "a case");
    }
    Ok(())
}
