//! What lines of advice say. None is longer than 300 bytes.

// Where words are no command: what may stand at the word that was refused.

/// A verb, the first word.
pub(crate) const VERB: &str = "\
the first word is verify, play, panel, help, lookup, helplook, moments, helpmom, audit, \
show, convert, gen, lines, widen, begin, watch, merge, seats, ask or serve; sip --help tells of \
each";

/// A stream.
pub(crate) const STREAM: &str = "\
STREAM is PATH, text:PATH, wide:PATH or made:NUMBER:COUNT with COUNT up to \
10000000";

/// A stream that a file holds.
pub(crate) const STORED: &str = "\
STORED is PATH, text:PATH or wide:PATH: a stream in a file, for audit that of the run";

/// A seed.
pub(crate) const SEED: &str = "\
SEED is a file of 32 random bytes, new ones for each run";

/// The end of a link that brings bytes.
pub(crate) const FROM: &str = "\
FROM is the file or FIFO that brings the other side's bytes";

/// The end of a link that takes bytes.
pub(crate) const TO: &str = "\
TO is the file or FIFO that takes the bytes for the other side";

/// The end of a link that brings bytes, or standard input.
pub(crate) const INPUT: &str = "\
FROM is the file or FIFO that brings the other side's bytes, or - for standard input";

/// The end of a link that takes bytes, or standard output.
pub(crate) const OUTPUT: &str = "\
TO is the file or FIFO that takes the bytes for the other side, or - for standard output";

/// The file of the transcript.
pub(crate) const RECORD: &str = "\
RECORD is the file that gets the transcript, or - for none";

/// A helper in the program.
pub(crate) const HELPER: &str = "HELPER is honest, skewed or mute";

/// A transcript.
pub(crate) const TRANSCRIPT: &str = "\
TRANSCRIPT is the file that verify or play kept as its RECORD";

/// The number that a stream is made from.
pub(crate) const NUMBER: &str = "\
NUMBER is below 2^64, in digits without a leading zero";

/// How many records a made stream has.
pub(crate) const COUNT: &str = "\
COUNT is up to 10000000, in digits without a leading zero";

/// A depth.
pub(crate) const DEPTH: &str = "\
DEPTH is from 1 to 48, in digits without a leading zero";

/// A query.
pub(crate) const QUERY: &str = "\
QUERY is sub:LO:HI, range:SIDE:LO:HI, f2:SIDE, inner, heavy:SIDE:T or share:SIDE:NUM:DEN, with LO \
up to HI, HI below 2^DEPTH, T from 1, and NUM from 1 to DEN, which is up to 1000000";

/// A lookup where a query may stand.
pub(crate) const LOOKS: &str = "sip lookup asks index, pred and succ, of sip helplook";

/// A moment where a query may stand.
pub(crate) const POWERS: &str = "sip moments asks moment, of sip helpmom";

/// A lookup.
pub(crate) const LOOKUP: &str = "\
LOOKUP is index:I, pred:I or succ:I, with I below 2^DEPTH";

/// A moment.
pub(crate) const MOMENT: &str = "\
MOMENT is moment:SIDE:K, with SIDE 0 or 1 and K from 3 to 8";

/// The names of several helpers in the program.
pub(crate) const HELPERS: &str = "\
HELPERS is 1 to 16 of honest, skewed and mute, with a comma between two of them";

/// A query that is asked of several helpers.
pub(crate) const SHARED: &str = "\
QUERY is sub:LO:HI, range:SIDE:LO:HI, f2:SIDE, inner, heavy:SIDE:T or share:SIDE:NUM:DEN, with LO \
up to HI, HI below 2^DEPTH, T from 1, and NUM from 1 to DEN, which is up to 1000000; and helpers \
times queries come to 16 at most";

/// No word.
pub(crate) const END: &str = "\
the command ends before it, and a run has 16 queries, lookups or \
moments at most";

// Where a record is not legal.

/// The first record is none, of a file that is read as one of records of 13 bytes.
pub(crate) const NAMED: &str = "\
a stream of lines is named text:PATH, and one of wide records wide:PATH";

/// The stream ends inside a record.
pub(crate) const TRUNCATED: &str = "\
STREAM ends inside a record, or in a line that has no line feed";

/// A line of another shape.
pub(crate) const LINE: &str = "\
a line is a side, an item and a number with one space between them, and ends in a line \
feed without a carriage return";

/// A side above 1.
pub(crate) const SIDE: &str = "a side is 0 or 1";

/// An item outside the vector.
pub(crate) const ITEM: &str = "\
items are below 2^DEPTH: a greater DEPTH, up to 48, has room for more";

/// What is said behind that of a stream which is read as records of 13 bytes.
pub(crate) const NARROW: &str = "; a stream of wide records is named wide:PATH";

/// A record that adds nothing.
pub(crate) const DELTA: &str = "a record that adds 0 is left out of a stream";

/// A weight above the greatest.
pub(crate) const WEIGHT: &str = "\
what is added to a side comes to 1073741823 at most, signs left out: count in greater \
units, as KiB, or begin a new stream";

// Why a file is not to be had.

/// Nothing is there.
pub(crate) const MISSING: &str = "no such file or directory";

/// A directory.
pub(crate) const DIRECTORY: &str = "it is a directory";

/// Not permitted.
pub(crate) const DENIED: &str = "permission denied";

/// Another file of the command.
pub(crate) const TAKEN: &str = "\
it is another file of this command too, and would be spoiled";

/// Another reason.
pub(crate) const OTHER: &str = "the system does not open it";

// Where something else went wrong.

/// A seed of fewer than 32 bytes.
pub(crate) const SHORT: &str = "\
SEED has 32 random bytes: head -c 32 /dev/urandom > SEED makes them";

/// A seed of one byte, 32 times.
pub(crate) const EVEN: &str = "\
SEED is one byte, 32 times: whoever guesses it can make a wrong answer pass; make another one for \
each run with head -c 32 /dev/urandom > SEED";

/// A seed that others can read.
pub(crate) const SHARED_SEED: &str = "\
others can read the file of SEED: if the helper can, it can make a wrong answer pass; make it with \
umask 077";

/// Large entries of side 0 were asked for.
pub(crate) const CREDITS_OF_0: &str = "\
side 0 had numbers below 0: heavy and share of it are right only if no entry of it is below 0";

/// Those of side 1 were.
pub(crate) const CREDITS_OF_1: &str = "\
side 1 had numbers below 0: heavy and share of it are right only if no entry of it is below 0";

/// Those of both sides were.
pub(crate) const CREDITS_OF_BOTH: &str = "\
both sides had numbers below 0: heavy and share are right only if no entry is below 0";

/// A seed that gives no challenges.
pub(crate) const SPENT: &str = "\
another seed is wanted: head -c 32 /dev/urandom > SEED makes one";

/// A word that is no text.
pub(crate) const NO_TEXT: &str = "\
a word is not UTF-8, as words have to be: give the file another name, or link it to one";

/// An answer that may be too wide.
pub(crate) const WIDE: &str = "\
more than 65536 entries could be in that answer: ask for a greater T or share";

/// A moment that may be too high.
pub(crate) const HIGH: &str = "\
the weight of that side, to the power of the degree, is 2^60 or more: ask for a lower \
degree, or count in greater units";

/// Bytes that are no transcript.
pub(crate) const BROKEN: &str = "\
TRANSCRIPT is a file that verify or play kept; that of a rejected run may end inside \
a frame";

/// Bytes that no verifier sends there.
pub(crate) const FRAME: &str = "\
FROM is TO of the other side, and TO its FROM: sip help is for sip verify, sip helplook \
for sip lookup, sip helpmom for sip moments, and sip serve for sip ask";

/// The stream failed.
pub(crate) const FIRST: &str = "\
first is STREAM or STORED, which could not be opened or read";

/// The seed or the transcript failed.
pub(crate) const SECOND: &str = "\
second is SEED, or TRANSCRIPT of audit, show and convert, which could not be opened or \
read";

/// Standard output failed.
pub(crate) const REPORT: &str = "report is standard output";

/// The record of the talk failed.
pub(crate) const KEEP: &str = "\
record is RECORD, which could not be opened or written, or is another file of the \
command";

/// The link failed.
pub(crate) const LINK: &str = "\
FROM or TO could not be opened, read or written, TO is another file of the command, or \
the other side has left";

/// The verifier left.
pub(crate) const LEFT: &str = "\
the other side, as sip verify, sip lookup, sip moments or sip ask, left before its end and says \
why";
