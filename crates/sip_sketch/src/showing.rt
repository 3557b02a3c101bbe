//! Shows a sketch, but for what has to stay secret.

ghost use Rattle.std.specs.Prelude.{◌≡◌, ◌+◌, ◌≤◌, ◌++◌, [], ℕ, length, IfErr, IfOk};
ghost use Rattle.arrayvec.specs.ArrayVec.{array_vec_len};
ghost use Rattle.sip_ports.specs.Ports.{Lasts};
ghost use Rattle.sip_sketch.specs.Risen.{Counts as AnyCounts, HasRisen, counts};
ghost use Rattle.sip_sketch.specs.SeatLines.{head_lines, lines_of, parts_line, records_line};
ghost use Rattle.sip_sketch.specs.SeatLines.{seat_line, sides_text};
ghost use Rattle.sip_sketch.specs.Showing.{IsLoaded, Shows};
ghost use Rattle.sip_sketch.specs.inside.Causes.{with_sketch};
ghost use Rattle.sip_sketch.specs.inside.Loading.{IsUnshown};

use crate::loading::read_loaded;
use crate::{Parts, Sketch, SketchFiles, SketchPort, SketchSeat, SketchStatus};
use arrayvec::ArrayVec;
use sip_ports::{PortStop, Sink, write_whole};
use sip_stream::text::{put, put_number};
use sip_vector::{Negatives, Tally};
use std::alloc::Global;

/// Room for all lines of a sketch: its head and 64 seats.
const ROOM: usize = 2_916;

/// The most bytes of the head, with 20 digits for each number.
const HEAD: usize = 228;

/// The most bytes of the line of a seat.
const SEAT: usize = 42;

// Adds which parts are in.
fn put_parts(out: &mut ArrayVec<u8, ROOM>, parts: &Parts)
    requires { array_vec_len out.old + 75 ≤ ROOM }
    ensures items { out.new.items ≡ out.old.items ++ parts_line parts.now }
    ensures len { array_vec_len out.new ≤ array_vec_len out.old + 75 }
{
    put(out, b"parts ");
    put_number(out, u64::from(parts.first));
    put(out, b" to ");
    put_number(out, u64::from(parts.last));
    put(out, b" of ");
    put_number(out, u64::from(parts.count));
    put(out, b"\n");
}

// Adds what is told of the stream by numbers.
fn put_records(out: &mut ArrayVec<u8, ROOM>, tally: &Tally)
    requires { array_vec_len out.old + 111 ≤ ROOM }
    ensures items { out.new.items ≡ out.old.items ++ records_line tally.now }
    ensures len { array_vec_len out.new ≤ array_vec_len out.old + 111 }
{
    let mut digits = [0; 16];
    let written = hex::encode_to_slice(tally.fingerprint.get().to_be_bytes(), &mut digits).is_ok();
    prove!(written);
    put(out, b"records ");
    put_number(out, tally.count);
    put(out, b" weights ");
    put_number(out, tally.first);
    put(out, b" ");
    put_number(out, tally.second);
    put(out, b" fingerprint ");
    put(out, &digits);
    put(out, b"\n");
}

// The sides of which a record had a delta below 0.
fn sides(negatives: Negatives) -> &'static [u8]
    ensures text { result.now ≡ sides_text negatives }
    ensures len { length result.now ≤ 5 }
{
    match (negatives.first, negatives.second) {
        (true, true) => b" 0 1",
        (true, false) => b" 0",
        (false, true) => b" 1",
        (false, false) => b" none",
    }
}

// Adds the line of the seat with this number.
fn put_seat(out: &mut ArrayVec<u8, ROOM>, number: u64, seat: &SketchSeat)
    requires { array_vec_len out.old + SEAT ≤ ROOM }
    ensures items { out.new.items ≡ out.old.items ++ seat_line number seat.now }
    ensures len { array_vec_len out.new ≤ array_vec_len out.old + SEAT }
{
    put(out, b"seat ");
    put_number(out, number);
    put(out, b" ");
    put(out, seat.kind().word().as_bytes());
    if seat.is_used() {
        put(out, b" used\n");
    } else {
        put(out, b" unused\n");
    }
}

// Adds the lines of the head, which are the first.
fn put_head(out: &mut ArrayVec<u8, ROOM>, sketch: &Sketch)
    requires { out.old.items ≡ [] }
    ensures items { out.new.items ≡ head_lines sketch.now }
    ensures len { array_vec_len out.new ≤ HEAD }
{
    let tally = sketch.tally();
    put(out, b"depth ");
    put_number(out, u64::from(sketch.depth().get()));
    put(out, b"\n");
    put_parts(out, &sketch.parts());
    put_records(out, &tally);
    put(out, b"negatives");
    put(out, sides(tally.negatives));
    put(out, b"\n");
}

// Adds all lines.
fn put_lines(out: &mut ArrayVec<u8, ROOM>, sketch: &Sketch)
    requires { out.old.items ≡ [] }
    ensures { out.new.items ≡ lines_of sketch.now }
{
    put_head(out, sketch);
    for (index, seat) in sketch.seats().iter().enumerate() {
        put_seat(out, index as u64 + 1, seat);
    }
}

// Loads the sketch.
fn load<F: SketchFiles>(alloc: Global, files: &mut F) -> Result<Sketch, SketchStatus>
    ensures found { IfOk result (IsLoaded (F.content files.old)) }
    ensures why { IfErr result (IsUnshown (F.content files.old)) }
    ensures cause { (before now : AnyCounts) → IfErr result
        (HasRisen (with_sketch before (F.faults files.old))
        (with_sketch now (F.faults files.new))) }
    ensures content { F.content files.new ≡ F.content files.old }
    ensures files { Lasts F.faults F.wants F.is_sure files.old files.new }
{
    match files.load(alloc, 0) {
        Ok(file) => read_loaded(alloc, 0, file),
        Err(PortStop::Failed) => Err(SketchStatus::ReadFault {
            port: SketchPort::Sketch,
        }),
        Err(PortStop::OutOfMemory) => Err(SketchStatus::OutOfMemory),
    }
}

/// Writes to `report` what the sketch of `files` is, in lines: its depth, the parts that are in,
/// what is told of its stream, and of each seat its kind and whether a question has used it. No
/// line has a challenge or a number of a seat. Nothing is stored, and no lock is taken.
///
/// It takes memory for the file and the seats. The lines are written at once.
///
/// The first of these endings: `ReadFault` of the sketch; `BadSketch` of part 0, at 0 where there
/// is no file; `WriteFault` of the report; `Wrote`. `OutOfMemory` may come at each step.
#[inline(never)]
pub fn seats<F: SketchFiles, K: Sink>(alloc: Global, files: &mut F, report: &mut K) -> SketchStatus
    ensures shows { Shows (F.content files.old) (K.talk report.old) (K.talk report.new) result }
    ensures cause { HasRisen (counts 0 0 (F.faults files.old) 0 (K.faults report.old))
        (counts 0 0 (F.faults files.new) 0 (K.faults report.new)) result }
    ensures content { F.content files.new ≡ F.content files.old }
    ensures files { Lasts F.faults F.wants F.is_sure files.old files.new }
    ensures report { Lasts K.faults K.wants K.is_sure report.old report.new }
{
    let sketch = match load(alloc, files) {
        Ok(sketch) => sketch,
        Err(status) => return status,
    };
    let mut lines = ArrayVec::new();
    put_lines(&mut lines, &sketch);
    match write_whole(report, lines.as_slice()) {
        Ok(()) => SketchStatus::Wrote,
        Err(PortStop::Failed) => SketchStatus::WriteFault {
            port: SketchPort::Report,
        },
        Err(PortStop::OutOfMemory) => SketchStatus::OutOfMemory,
    }
}
