//! The lines of advice about sketches.

// Where words are no command: what may stand at the word that was refused.

/// The file of a sketch.
pub(crate) const SKETCH: &str = "\
sip: hint: SKETCH is the file of a sketch\n";

/// A seed.
pub(crate) const SEED: &str = "\
sip: hint: SEED is a file of 32 random bytes, for this sketch and its other parts alone\n";

/// A depth.
pub(crate) const DEPTH: &str = "\
sip: hint: DEPTH is from 1 to 48, in digits without a leading zero\n";

/// Which part of how many.
pub(crate) const SHARE: &str = "\
sip: hint: PART/PARTS is 1/1, or the number of this collector and how many there are, as 2/3\n";

/// Seats.
pub(crate) const SEATS: &str = "\
sip: hint: SEATS are entries:N, sums:SIDE:N, products:N, heavy:SIDE:N or above:SIDE:N, with SIDE 0 \
or 1 and N from 1, and 64 seats in all\n";

/// A stream that a file holds.
pub(crate) const STORED: &str = "\
sip: hint: STORED is PATH, text:PATH or wide:PATH, a file of records\n";

/// The number of a record.
pub(crate) const AT: &str = "\
sip: hint: AT is the number of STORED's first record among all of the sketch, from 0 to \
2147483648, or + for the next one\n";

/// How often a sketch is stored.
pub(crate) const EVERY: &str = "\
sip: hint: EVERY is after how many records the sketch is stored, from 1 to 2147483648, or - for \
the end alone\n";

/// The sketch of a part.
pub(crate) const PART: &str = "\
sip: hint: PART is the file of a collector's sketch: there are 1 to 1024, in the order of their \
parts\n";

/// The end of a link that brings bytes, or standard input.
pub(crate) const FROM: &str = "\
sip: hint: FROM is the file or FIFO that brings the helper's bytes, or - for standard input\n";

/// The end of a link that takes bytes.
pub(crate) const TO: &str = "\
sip: hint: TO is the file or FIFO that takes the bytes for the helper\n";

/// A question.
pub(crate) const QUESTION: &str = "\
sip: hint: QUESTION is sub:LO:HI, range:SIDE:LO:HI, f2:SIDE, inner, heavy:SIDE:T, \
share:SIDE:NUM:DEN, above:SIDE:T, index:I, pred:I, succ:I or moment:SIDE:K, with K from 3 to 8, \
and there are 1 to 16\n";

/// No word.
pub(crate) const END: &str = "\
sip: hint: the command ends before it\n";

// Where a sketch is not what it has to be.

/// A file that is missing or empty, or none of a sketch from its first byte on.
pub(crate) const NONE: &str = "\
sip: hint: no sketch is there: sip begin makes one, and sip merge that of a sum\n";

/// A file that is none of a sketch.
pub(crate) const BAD: &str = "\
sip: hint: the file is no sketch, or was changed or cut; put no older one in its place, since \
seats that were used are unused in it\n";

/// A part that is none of a sketch.
pub(crate) const BAD_PART: &str = "\
sip: hint: each PART is the file that sip begin made for a collector, and sip watch made grow\n";

/// A sketch that is there.
pub(crate) const EXISTS: &str = "\
sip: hint: a sketch is never begun anew: name another file, or remove this one if nothing was \
asked of it\n";

/// A sketch that another process has.
pub(crate) const BUSY: &str = "\
sip: hint: another run has the sketch: this one can be made again when that has ended\n";

// Where a stream is not added.

/// A sum that is watched.
pub(crate) const SUM: &str = "\
sip: hint: a sum grows by its parts: watch the sketch of a part, and make the sum again by sip \
merge\n";

/// A first record behind those that the sketch has.
pub(crate) const START: &str = "\
sip: hint: records would be missing before STORED's first one: AT is at most the number of \
records in the sketch, or +\n";

/// A stream with fewer records than the sketch has.
pub(crate) const BEHIND: &str = "\
sip: hint: the sketch has more records than STORED: if the log was rotated, AT is the number of \
the new one's first record\n";

/// A record that is cut.
pub(crate) const CUT: &str = "\
sip: hint: STORED ends inside a record, as a log may that is being written: all before it are in \
the sketch, and it can be watched again\n";

/// A line of another shape.
pub(crate) const LINE: &str = "\
sip: hint: a line is a side, an item and a number with one space between them; those before it \
are in the sketch\n";

/// A side above 1.
pub(crate) const SIDE: &str = "\
sip: hint: a side is 0 or 1; a stream of lines is named text:PATH, and one of wide records \
wide:PATH\n";

/// An item outside the vector.
pub(crate) const ITEM: &str = "\
sip: hint: items are below 2^DEPTH of the sketch; a stream of wide records is named wide:PATH\n";

/// A record that adds nothing.
pub(crate) const DELTA: &str = "\
sip: hint: a record that adds 0 is left out of a stream\n";

/// A weight above the greatest.
pub(crate) const WEIGHT: &str = "\
sip: hint: what is added to a side comes to 1073741823 at most over the sketch's whole life, \
signs left out: begin a new sketch, or count in greater units\n";

// Why a part is not added, or a sum not stored.

pub(crate) const SHAPE: &str = "\
sip: hint: all parts of a sketch are begun with one SEED, DEPTH, number of PARTS and list of \
SEATS\n";

pub(crate) const WHOLE: &str = "\
sip: hint: all parts are in that one: name the sketches of the collectors, and no sum of them\n";

pub(crate) const USED: &str = "\
sip: hint: something was asked of that part, so it is no part: take the collector's own file\n";

pub(crate) const NOT_NEXT: &str = "\
sip: hint: the parts are named in their order, each once and from one on without a gap\n";

pub(crate) const HEAVY: &str = "\
sip: hint: with that part a side comes to more than 1073741823, signs left out: count in greater \
units, or begin new sketches more often\n";

pub(crate) const MISSING: &str = "\
sip: hint: SKETCH has a part in that is not named: name all parts again\n";

pub(crate) const FEWER: &str = "\
sip: hint: SKETCH has more records than the parts that are named: one of them is an older file, \
or was begun anew\n";

// Why nothing is asked.

/// Parts are missing.
pub(crate) const NOT_WHOLE: &str = "\
sip: hint: only a sketch is asked that all parts are in: sip merge makes the sum of them\n";

/// An item outside the vector.
pub(crate) const UNFIT: &str = "\
sip: hint: items are below 2^DEPTH of the sketch, which sip seats shows\n";

/// Large entries of a side with negatives.
pub(crate) const SIGNED: &str = "\
sip: hint: a record of that side added a number below 0, and heavy and share are right only if no \
entry is below 0; above is right whatever was added; nothing was asked, and no seat is used\n";

/// No seat at all.
pub(crate) const NO_SEATS: &str = "\
sip: hint: all seats are used: begin a new sketch, with seats for what is to be asked\n";

/// The helper has fewer records.
pub(crate) const TOO_FEW: &str = "\
sip: hint: the helper has fewer records than the sketch: its file has to have all of them first; \
no seat is used\n";

/// The helper has other records.
pub(crate) const OTHERS: &str = "\
sip: hint: the helper's first records are not those of the sketch, in whatever order: its file is \
another one, or was changed; no seat is used\n";

/// The helper said nothing.
pub(crate) const SILENT: &str = "\
sip: hint: the helper ended before it said what it holds, and says why itself; sip serve is the \
one for sip ask; no seat is used\n";

// Where a file failed.

/// The sketch was not loaded, or not replaced.
pub(crate) const FILE: &str = "\
sip: hint: SKETCH and the files SKETCH.lock and SKETCH.new beside it have to be readable, and \
their folder writable with room left; the sketch is whole\n";

/// A part was not loaded.
pub(crate) const UNREAD: &str = "\
sip: hint: the file of that PART could not be opened or read\n";

// What was seen of the files, whatever the run came to.

/// Others can read a sketch.
pub(crate) const SHARED: &str = "\
sip: hint: others can read the file of a sketch, or of a part: if the helper could, it can make a \
wrong answer pass; begin anew with another SEED, and keep it with mode 600\n";

/// A file is left behind.
pub(crate) const LEFT: &str = "\
sip: hint: SKETCH.new is what a run left that was killed, unless one stores the sketch right now; \
the next one that stores it removes it, and it is as secret as the sketch\n";
