//! The text of the page, of which some parts are printed alone too. Each is written once.

use crate::page_parts::text_of;
use crate::sketch_parts::with_sketches;

// The part of a name among all of them, in their order: each name but the first leaves one part out
// and takes the name before it. `page` has all of them.
macro_rules! chosen {
    (verify $part:literal $($rest:literal)*) => {
        $part
    };
    (play $part:literal $($rest:literal)*) => {
        chosen!(verify $($rest)*)
    };
    (panel $part:literal $($rest:literal)*) => {
        chosen!(play $($rest)*)
    };
    (help $part:literal $($rest:literal)*) => {
        chosen!(panel $($rest)*)
    };
    (lookup $part:literal $($rest:literal)*) => {
        chosen!(help $($rest)*)
    };
    (helplook $part:literal $($rest:literal)*) => {
        chosen!(lookup $($rest)*)
    };
    (moments $part:literal $($rest:literal)*) => {
        chosen!(helplook $($rest)*)
    };
    (helpmom $part:literal $($rest:literal)*) => {
        chosen!(moments $($rest)*)
    };
    (audit $part:literal $($rest:literal)*) => {
        chosen!(helpmom $($rest)*)
    };
    (show $part:literal $($rest:literal)*) => {
        chosen!(audit $($rest)*)
    };
    (convert $part:literal $($rest:literal)*) => {
        chosen!(show $($rest)*)
    };
    (gen $part:literal $($rest:literal)*) => {
        chosen!(convert $($rest)*)
    };
    (lines $part:literal $($rest:literal)*) => {
        chosen!(gen $($rest)*)
    };
    (widen $part:literal $($rest:literal)*) => {
        chosen!(lines $($rest)*)
    };
    (begin $part:literal $($rest:literal)*) => {
        chosen!(widen $($rest)*)
    };
    (watch $part:literal $($rest:literal)*) => {
        chosen!(begin $($rest)*)
    };
    (merge $part:literal $($rest:literal)*) => {
        chosen!(watch $($rest)*)
    };
    (seats $part:literal $($rest:literal)*) => {
        chosen!(merge $($rest)*)
    };
    (ask $part:literal $($rest:literal)*) => {
        chosen!(seats $($rest)*)
    };
    (serve $part:literal $($rest:literal)*) => {
        chosen!(ask $($rest)*)
    };
    (page $($part:literal)*) => {
        concat!(
            "\
sip checks answers about a stream that someone else keeps for you. You keep a
seed and read the stream once, a helper keeps all of it, and sip accepts a
helper's answer only where a check with challenges from the seed holds.

USAGE

",
            $($part, "\n",)*
            "  sip --help                 prints this page, and so does sip -h
  sip --version              prints the version, and so does sip -V
  sip --progress COMMAND ..  does the command, and says on standard error how
                             far it is: how much of STREAM was read, before it
                             is read and after each 64 MiB of it or three
                             seconds, and before each wait for the other side

Behind the name of a command --help and -h print its part of this page, as sip
verify --help does; behind show, convert and seats they name a file, if there is
one.

A record has 13 bytes: a side (one byte, 0 or 1), an item (four bytes) and what
is added to its entry (eight bytes, signed), the first byte of a number being
the greatest. A wide record has 17, eight of them for the item. Numbers among
the words have no sign and no leading zero. A file named - is called ./-, and
one whose name begins with made:, text: or wide: is called ./made:.. and so on.

FILES

TO and RECORD are made where there is nothing of that name, and emptied where
there is a file. No other file is changed. Where TO or RECORD is the same file
as STREAM, SEED, FROM or the other of the two, under whatever name, it is not
opened: it keeps what it has, and the command fails there. So does sip serve
where STORED is FROM, and sip ask where TO is SKETCH or one of the two files
that stand beside it. A FIFO, or a device as /dev/null, may stand at several
words.

SKETCH is replaced whole: a run that is killed leaves it as it was, or as it was
stored. Beside it stand SKETCH.lock, which one run has at a time, and for a
moment SKETCH.new. A copy of it brings used seats back: keep none, not as a
backup either.

KEEPING THE SEED

Keep it where the helper cannot read it (umask 077), make a new one for each run
(head -c 32 /dev/urandom > today.seed), and throw it away after the run: a
helper that knows the challenges can make a wrong answer pass. A run tells its
helper nearly all of them, reply by reply, so that a seed is good for one run
alone. RECORD has them too, from the run's beginning on: keep it like the seed
until the run has ended.

LIMITS

  weight   What is added to a side, each number without its sign, comes to
           2^30 - 1 = 1073741823 at most. A sum of bytes is soon above it: count
           KiB or packets, or begin a new stream, as for each hour or each day.
  items    An item is below 2^DEPTH, and DEPTH is 48 at most. A record of 13
           bytes has items below 2^32: for greater ones write wide records or
           lines.
  queries  A run has 1 to 16 queries, lookups or moments, which stand among its
           words: they are known before the stream is read, but for sip ask,
           whose seats are.
  answers  The entries from LO to HI that are not 0 are 65536 at most, and so is
           the side's total divided by T, which for a share is that part of the
           total.
  moments  The weight of the side, to the power K, is below 2^60. So for K from
           3 to 8 it is up to 1048575, 32767, 4095, 1023, 380 and 181.

MESSAGES

A run that does not end well says so in one line on standard error. A line that
begins with sip: hint: may follow, and says what can be done. Words and records
are counted from 0: word 0 is the command, and record N of a text is line N + 1.
A reply that is rejected has its line among the answers: rejected query K round
J REASON, with K counted from 1. REASONS say what a reason means, as does a line
that begins with sip: hint: and stands alone.

  sip: usage at word N
      Word N cannot stand there or is missing. The words before it are the
      beginning of a command. A --progress before them is not counted.

  sip: bad stream at record N: WHY
      Record N of STREAM is not as it has to be.

      Truncated    the stream ends inside it
      BadLine      it is not a side, an item and a number with one space between
                   them, and a line feed alone at the end
      BadSide      its side is above 1
      BadItem      its item is not below 2^DEPTH: take a greater DEPTH
      ZeroDelta    it adds 0: leave it out
      TooHeavy(S)  with it side S comes to more than LIMITS say

  sip: seed too short
      SEED has fewer than 32 bytes.

  sip: seed spent
      No challenges can be made from SEED: take a new one.

  sip: bad transcript at offset N
      From byte N on TRANSCRIPT is none: the field of its head or the frame that
      begins there is not as it has to be, or the file ends in it. All that
      stands before that was written, if the head is whole. The RECORD of a run
      that was rejected may end so. Such a frame sip audit rejects: behind the
      head its N is the first byte that its verdicts did not take, and their
      lines were printed.

  sip: query K too wide
      The answer to query K, counted from 1, may be wider than LIMITS say: ask
      for a greater T or share.

  sip: query K too high
      The side of moment K, counted from 1, has a greater weight than LIMITS say
      for its degree: ask for a lower degree, or count in greater units.

  sip: bad frame at offset N
      What FROM brings to a helper is from byte N on nothing that its other side
      sends there. FROM and TO are those of the other side, the other way round:
      of sip verify for sip help, of sip lookup for sip helplook, of sip moments
      for sip helpmom, and of sip ask for sip serve. Or it brings to sip ask
      something else than a sip serve says first.

  sip: read fault on FILE, sip: write fault on FILE
      The file could not be opened, read or written: first is STREAM or STORED,
      second is SEED or TRANSCRIPT, record is RECORD, report is standard output,
      sketch is SKETCH, and part K is the K-th PART.

  sip: peer fault
      FROM or TO could not be opened, read or written, or the other side had
      left.

  sip: peer closed
      The other side left the helper before its farewell, or sip ask before it
      had said what it holds, and says why itself.

  sip: progress: N MiB of STREAM read, M records
  sip: progress: waiting for the other side at FILE
  sip: progress: waiting for the reply of query K round J
  sip: progress: waiting for the other side, N MiB of FROM read
      With --progress alone, and in front of all other lines. FILE is FROM or
      TO. K and J are those of a rejected reply. The last line is that of a
      helper, before it hears anything and after each 64 MiB or three seconds.

  sip: bad sketch at offset N, sip: bad part K at offset N
      From byte N on SKETCH, or the K-th PART, is no sketch, or it is missing.
      Put no earlier copy in its place: seats that were used would be unused.

  sip: sketch exists
      A sketch is never begun anew: take another name, or remove the file if it
      was never asked.

  sip: bad start, sketch has N records, sip: bad start, sketch is a sum
      AT is above the number of records that the sketch has; or it has several
      parts, and these are watched and merged again.

  sip: stream ends at record N
      The sketch has that record, and STORED ends before it, as a log does that
      was rotated: watch the log of before to its end, and then this one from
      the number of its first record.

  sip: part K: WHY
      The K-th PART does not go into the sum.

      Shape     its depth, parts, seats or challenges are not those of the
                others: begin all parts with the same words and the same SEED
      Whole     all parts are in it, as in a sum
      UsedSeat  a seat of it was used
      NotNext   it is not the part behind the one before
      Heavy(S)  with it side S comes to more than LIMITS say
      Missing   behind it a part is missing that SKETCH has
      Fewer     up to it the sum has fewer records than SKETCH, or less weight

  sip: sketch is busy
      Another run has SKETCH: do it again later.

  sip: sketch is not whole
      Not all parts are in: only the sum of all is asked, which sip merge makes.

  sip: query K does not fit
      An item of question K, counted from 1, is not below 2^DEPTH of the sketch.

  sip: query K on a side with negatives
      heavy and share are not asked of a side that had a number below 0: they
      are right only where no entry is below 0.

  sip: no seat for query K
      All seats that serve question K, counted from 1, are used, or taken by the
      questions before it. Nothing was asked.

  sip: helper holds N A B F, sketch N A B F
      The helper has another stream than the sketch: N records, weights A and B
      of the sides, and fingerprint F. No seat was used. Where its N is less it
      has not all records yet.

  sip: out of memory
      Memory ran out. A helper keeps each item that is not 0, and sip verify an
      answer while it is told.

REASONS

A rejection names the first fault of the helper's replies. An honest helper that
heard all of STREAM, and whose talk was not cut off, is rejected as Refused(1),
Refused(2) or Refused(3) alone. A helper that lies may refuse too: a refusal
says nothing about the answer.

  Refused(1)    The helper says that its memory ran out, as it may where it is
                honest: it keeps the stream.
  Refused(2)    It says that the answer may have more entries than LIMITS say.
                It does where it is honest: ask for less at once.
  Refused(3)    It says that an entry of the side is below 0. It does where it
                is honest: heavy and share have no answer there.
  Refused(4)    It says that a message is out of turn. An honest helper that is
                meant for these questions never does.
  Closed        The link ended inside the reply: the helper ended or was cut
                off, or it is meant for other questions.
  BadKind       A message came that may not stand there.
  BadLength     The length of a message is none that may stand there.
  BadCount      The count, the code or the flags of a message do not fit its
                length.
  BadNumber     A number is outside the range of its field.
  BadOrder      Entries or nodes do not rise, are outside of what was asked for,
                or were known before.
  TooMany       There are more entries or nodes than an answer may have.
  BadFlags      Other siblings came than those that LO and HI ask for.
  HeavySibling  A node that was told above the entries counts T or more.
  Pairs         A node has no sibling, or there is no node at all.
  LightParent   Two siblings together count less than T.
  Total         Two siblings together count more than the total of the side, or
                the last node counts something else.
  Sum           The values of a polynomial at 0 and 1 do not add up to what is
                due.
  BadFound      The place that the helper names cannot answer the lookup.
  NotAlone      From I to that place there are other entries than the one there,
                or there are some where it named none.
  Root          At the end the replies do not come to the number that sip kept
                of the stream: the helper heard another one, or it lies.

STATUS

  0  every answer was accepted and printed, a talk was served to its end, or a
     stream, a transcript or a sketch was written to its end
  1  a reply of the helper was rejected, or in a panel one of each helper
  2  the words are no command
  3  the stream, the seed, the transcript, a sketch or a frame of the other side
     is not as it has to be, or more than 65536 entries could be T or more, or a
     moment could be above what a claim has room for; or a question of a sketch
     has no seat or may not be asked, or its helper has another stream
  4  a file, the link or the output failed, or the other side left before its
     farewell
  5  memory ran out
"
        )
    };
}

/// The page that `sip --help` prints.
pub const HELP: &str = text_of!(page);

/// What `sip verify --help` prints: the part of the page that is about `verify`.
pub const VERIFY_PART: &str = text_of!(verify);

/// What `sip play --help` prints: the part of the page that is about `play`.
pub const PLAY_PART: &str = text_of!(play);

/// What `sip panel --help` prints: the part of the page that is about `panel`.
pub const PANEL_PART: &str = text_of!(panel);

/// What `sip help --help` prints: the part of the page that is about `help`.
pub const HELP_PART: &str = text_of!(help);

/// What `sip lookup --help` prints: the part of the page that is about `lookup`.
pub const LOOKUP_PART: &str = text_of!(lookup);

/// What `sip helplook --help` prints: the part of the page that is about `helplook`.
pub const HELPLOOK_PART: &str = text_of!(helplook);

/// What `sip moments --help` prints: the part of the page that is about `moments`.
pub const MOMENTS_PART: &str = text_of!(moments);

/// What `sip helpmom --help` prints: the part of the page that is about `helpmom`.
pub const HELPMOM_PART: &str = text_of!(helpmom);

/// What `sip audit --help` prints: the part of the page that is about `audit`.
pub const AUDIT_PART: &str = text_of!(audit);

/// What `sip show --help` prints where no file has that name: the part of the page that is about
/// `show`.
pub const SHOW_PART: &str = text_of!(show);

/// What `sip convert --help` prints where no file has that name: the part of the page that is about
/// `convert`.
pub const CONVERT_PART: &str = text_of!(convert);

/// What `sip gen --help` prints: the part of the page that is about `gen`.
pub const GEN_PART: &str = text_of!(gen);

/// What `sip lines --help` prints: the part of the page that is about `lines`.
pub const LINES_PART: &str = text_of!(lines);

/// What `sip widen --help` prints: the part of the page that is about `widen`.
pub const WIDEN_PART: &str = text_of!(widen);

/// What `sip begin --help` prints: the part of the page that is about `begin`.
pub const BEGIN_PART: &str = text_of!(begin);

/// What `sip watch --help` prints: the part of the page that is about `watch`.
pub const WATCH_PART: &str = text_of!(watch);

/// What `sip merge --help` prints: the part of the page that is about `merge`.
pub const MERGE_PART: &str = text_of!(merge);

/// What `sip seats --help` prints where no file has that name: the part of the page that is about
/// `seats`.
pub const SEATS_PART: &str = text_of!(seats);

/// What `sip ask --help` prints: the part of the page that is about `ask`.
pub const ASK_PART: &str = text_of!(ask);

/// What `sip serve --help` prints: the part of the page that is about `serve`.
pub const SERVE_PART: &str = text_of!(serve);

/// The line that `sip --version` prints.
pub const VERSION: &str = "sip 0.1.0\n";
