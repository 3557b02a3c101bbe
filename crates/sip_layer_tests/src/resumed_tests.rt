// A reader that is resumed goes on as the one that read what came before, and what streams come to
// adds up. The fingerprints are calculated by Python from the definition.

use crate::facts::expect;
use sip_ports::{MemorySource, ReaderSource, Source};
use sip_stream::{Form, Reader, StreamFault, Why};
use sip_vector::{Depth, Fingerprint, Negatives, Side, Tally, Update};
use std::alloc::Global;
use std::test::Fail;

fn update(side: Side, item: u64, delta: i64) -> Update {
    Update { side, item, delta }
}

// Four records, behind which side 0 has no room for one more.
const LINES: &[u8] = b"0 0 3\n1 2 -5\n0 3 1\n0 2 1073741819\n0 1 1\n";

const RECORDS: [(u8, u8, i64); 5] = [
    (0, 0, 3),
    (1, 2, -5),
    (0, 3, 1),
    (0, 2, 1_073_741_819),
    (0, 1, 1),
];

// The same as records of bytes.
fn records(alloc: Global, form: Form) -> Result<Vec<u8>, Fail> {
    let mut out = Vec::new(alloc);
    let upper: &[u8] = if form == Form::Wide { &[0; 7] } else { &[0; 3] };
    for (side, item, delta) in RECORDS {
        out.push(side)?;
        out.extend_from_slice(upper)?;
        out.push(item)?;
        out.extend_from_slice(&delta.to_be_bytes())?;
    }
    Ok(out)
}

// What a reader answered: updates, and the fault at last.
#[derive(Drop)]
struct Answers {
    updates: Vec<Update>,
    fault: Option<StreamFault>,
}

// The next answers of a reader, as many as that.
fn read_on<S: Source>(
    reader: &mut Reader,
    source: &mut S,
    most: usize,
    answers: &mut Answers,
) -> Result<(), Fail> {
    for _ in 0..most {
        if reader.spent() {
            return Ok(());
        }
        match reader.next(source) {
            Ok(Some(update)) => answers.updates.push(update)?,
            Ok(None) => return Ok(()),
            Err(fault) => answers.fault = Some(fault),
        }
    }
    Ok(())
}

// What the four records come to.
fn told() -> Tally {
    Tally {
        count: 4,
        first: (1 << 30) - 1,
        second: 5,
        negatives: Negatives {
            first: false,
            second: true,
        },
        fingerprint: Fingerprint::of(FOUR),
    }
}

const FOUR: u64 = 0x16f2_8005_92f2_5b86;

// A reader reads so many records, and another one that knows what they came to reads the others.
fn is_resumed(alloc: Global, form: Form, bytes: &[u8], cut: usize) -> Result<bool, Fail> {
    let depth = Depth::new(2).ok_or("a depth")?;
    let mut source = MemorySource::new(bytes.to_vec(alloc)?, 5, Vec::new(alloc));
    let mut answers = Answers {
        updates: Vec::new(alloc),
        fault: None,
    };
    let mut first = Reader::resumed(depth, form, &Tally::default());
    read_on(&mut first, &mut source, cut, &mut answers)?;
    let before = first.tally().ok_or("a tally")?;
    if !before.is_sound() {
        return Err("what a reader tells is sound")?;
    }
    let mut second = Reader::resumed(depth, form, &before);
    read_on(&mut second, &mut source, 10, &mut answers)?;
    let four = [
        update(Side::First, 0, 3),
        update(Side::Second, 2, -5),
        update(Side::First, 3, 1),
        update(Side::First, 2, 1_073_741_819),
    ];
    let bad = StreamFault::Bad {
        at: 4,
        why: Why::TooHeavy(Side::First),
    };
    let counts = before.count == cut as u64 && second.count() == 4;
    let reads = answers.updates.as_slice() == four.as_slice() && answers.fault == Some(bad);
    Ok(counts && reads && second.spent() && second.tally() == Some(told()))
}

#[test]
fn a_reader_goes_on_behind_any_record(rt: HostRuntime) -> Result<(), Fail> {
    let alloc = rt.alloc();
    let narrow = records(alloc, Form::Binary)?;
    let wide = records(alloc, Form::Wide)?;
    for cut in 0..5usize {
        let facts = [
            is_resumed(alloc, Form::Binary, &narrow, cut)?,
            is_resumed(alloc, Form::Wide, &wide, cut)?,
            is_resumed(alloc, Form::Text, LINES, cut)?,
        ];
        expect(&rt, cut, &facts);
    }
    Ok(())
}

// The same where the source holds all that is to come: a block is read at once. A reader that was
// not resumed tells nothing.
fn tells_of_a_block(alloc: Global, form: Form, bytes: &[u8]) -> Result<bool, Fail> {
    let depth = Depth::new(2).ok_or("a depth")?;
    let mut more = b"x".to_vec(alloc)?;
    more.extend_from_slice(bytes)?;
    let mut source = ReaderSource::new(Some(more.as_slice()));
    let began = source.read(&mut [0; 1]) == Ok(1);
    let mut reader = Reader::resumed(depth, form, &Tally::default());
    let mut block = [Update::default(); 8];
    let one = reader.read_held(&mut source, &mut block[..1]);
    let before = reader.tally().ok_or("a tally")?;
    if !before.is_sound() {
        return Err("what a reader tells is sound")?;
    }
    let mut resumed = Reader::resumed(depth, form, &before);
    let three = resumed.read_held(&mut source, &mut block);
    let counts = began && one == 1 && three == 3;
    let silent = Reader::new(depth, form).tally().is_none();
    Ok(counts && silent && resumed.tally() == Some(told()))
}

#[test]
fn a_block_is_told_of_whole(rt: HostRuntime) -> Result<(), Fail> {
    let alloc = rt.alloc();
    let narrow = records(alloc, Form::Binary)?;
    let wide = records(alloc, Form::Wide)?;
    let facts = [
        tells_of_a_block(alloc, Form::Binary, &narrow)?,
        tells_of_a_block(alloc, Form::Wide, &wide)?,
        tells_of_a_block(alloc, Form::Text, LINES)?,
    ];
    expect(&rt, 0, &facts);
    Ok(())
}

fn fingerprint(updates: &[Update]) -> Fingerprint {
    let mut fingerprint = Fingerprint::default();
    fingerprint.update_all(updates);
    fingerprint
}

#[test]
fn fingerprints_add_up(rt: HostRuntime) -> Result<(), Fail> {
    let three = [
        update(Side::First, 0, 3),
        update(Side::First, 2, 5),
        update(Side::First, 3, 1),
    ];
    let mut parts = fingerprint(&three[..2]);
    parts.absorb(fingerprint(&three[2..]));
    let mut more = fingerprint(&three);
    more.update(&update(Side::First, 1, 2));
    let facts = [
        fingerprint(&three).get() == 0xb826_1ae7_db4f_ab00,
        fingerprint(&three[..2]).get() == 0x9b1b_0603_004e_1b13,
        fingerprint(&three[2..]).get() == 0x1d0b_14e4_db01_8fed,
        parts == fingerprint(&three),
        more.get() == 0xda3a_76c0_ed54_6482,
    ];
    expect(&rt, 0, &facts);
    Ok(())
}
