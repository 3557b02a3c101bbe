//! What lines of advice say of a rejection. None is longer than 300 bytes.

/// The helper has no memory.
pub(crate) const NO_MEMORY: &str = "\
Refused(1) says that the helper's memory ran out, as an honest helper's may, and nothing of the \
answer: give it more memory, or ask another one";

/// The answer is too large.
pub(crate) const TOO_LARGE: &str = "\
Refused(2) says that the answer may have more than 65536 entries, as an honest helper does, and \
nothing of the answer: ask for less at once";

/// An entry is negative.
pub(crate) const NEGATIVE: &str = "\
Refused(3) says that an entry of the side is below 0, as an honest helper does, since heavy and \
share have no answer there";

/// A message is out of turn.
pub(crate) const OUT_OF_TURN: &str = "\
Refused(4) says that a message was out of turn, as no honest helper does that is meant for these \
questions";

/// The link ended.
pub(crate) const CLOSED: &str = "\
Closed: the link ended inside the reply; the helper ended or was cut off, or is meant for other \
questions: see what it said on its standard error";

/// A message of another kind.
pub(crate) const BAD_KIND: &str = "\
BadKind: a message came that may not stand there, from another program or from one that lies";

/// A message of another length.
pub(crate) const BAD_LENGTH: &str = "\
BadLength: the length of a message is none that may stand there, from another program or from one \
that lies";

/// A count that does not fit.
pub(crate) const BAD_COUNT: &str = "\
BadCount: the count, the code or the flags of a message do not fit its length, from another \
program or from one that lies";

/// A number outside its range.
pub(crate) const BAD_NUMBER: &str = "\
BadNumber: a number is outside the range of its field, from another program or from one that lies";

/// An index out of order.
pub(crate) const BAD_ORDER: &str = "\
BadOrder: entries or nodes do not rise, are outside of what was asked for, or were known before; \
no honest helper says so";

/// Too many entries.
pub(crate) const TOO_MANY: &str = "\
TooMany: there are more entries or nodes than an answer may have; no honest helper that heard \
this stream says so";

/// Other siblings.
pub(crate) const BAD_FLAGS: &str = "\
BadFlags: other siblings came than those that LO and HI ask for; no honest helper says so";

/// A heavy node.
pub(crate) const HEAVY_SIBLING: &str = "\
HeavySibling: a node that was told above the entries counts T or more; no honest helper that heard \
this stream says so";

/// A node alone.
pub(crate) const PAIRS: &str = "\
Pairs: a node has no sibling, or there is no node at all; no honest helper that heard this stream \
says so";

/// A light pair.
pub(crate) const LIGHT_PARENT: &str = "\
LightParent: two siblings together count less than T; no honest helper that heard this stream says \
so";

/// Another total.
pub(crate) const TOTAL: &str = "\
Total: the counts do not come to the total of the side; the helper heard another stream, or it \
lies";

/// Another sum.
pub(crate) const SUM: &str = "\
Sum: the values of a polynomial at 0 and 1 do not add up to what is due; no honest helper says so";

/// Another root.
pub(crate) const ROOT: &str = "\
Root: the replies do not come to the number that sip kept of the stream; the helper heard another \
one, or it lies";

/// No place for an answer.
pub(crate) const BAD_FOUND: &str = "\
BadFound: the place that the helper names cannot answer the lookup; no honest helper says so";

/// Entries between.
pub(crate) const NOT_ALONE: &str = "\
NotAlone: from I to the place that the helper names there are other entries than the one there; no \
honest helper that heard this stream says so";
