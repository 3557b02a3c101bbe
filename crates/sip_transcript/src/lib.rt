//! Transcripts of runs, read back.
//!
//! A transcript is its head, and the bytes that a run's helper sent (`transcript` of `sip_wire`).
//! The head is a list of fields: the text SIPT, the version of the frames, the depth, the number of
//! queries, and each query with a challenge for each level. [`TranscriptReader::head`] reads it off
//! any source, field by field, and takes no byte that is not of the head. [`show`] lists a whole
//! transcript, and [`convert`] writes it in version 2: both read the head first, and then a frame
//! at a time, so that the memory is that of one frame with its messages. [`show_line`] writes the
//! line of one frame.
//! [`TranscriptLink`] is a link whose replies come out of a source, so that a stored run can be
//! judged again; it takes no memory, and counts the bytes that were heard. [`audit`] judges one: it
//! asks the head's queries, at the head's challenges, over such a link.
//!
//! # What is proved
//!
//! - A head is read exactly where the source begins with one: it is that of a run, each of its
//!   queries fits the depth and has a code in the version, and exactly its bytes were taken. `Bad`
//!   has the place where the first field begins that has none of its values, or in which the source
//!   ends; of that field no more was taken than a field has.
//! - `show` and `convert` answer `Wrote` exactly where the bytes are a transcript to their end,
//!   which is then that of a run whose replies are messages, and `BadTranscript` exactly where they
//!   stop being one, with the place where the field of the head or the frame begins. What is
//!   written is the listing, or the transcript in version 2, of all that stands before that place,
//!   and nothing where it is in the head; where a port stopped, or memory ran out, a front of this.
//!   No other status comes but a fault of the transcript's source or of the report, where its count
//!   rose, and `OutOfMemory`.
//! - At each time what was heard on a `TranscriptLink`, and then what is left in its source, are
//!   what the source had when the link was made; the end is told only where all of this was heard.
//!   `taken` is how many bytes were heard, below the end of its type. This holds also behind a call
//!   that is generic over links: the link's type carries it, over an [`Origin`] that the caller
//!   picks, and the source that is given back is the same [`Loan`].
//! - `audit` keeps the clauses of verdicts, talk and causes that a run keeps, by the same
//!   definitions: over the stored stream, the head's queries and challenges, and the bytes behind
//!   the head, whose end is that of the link. With a verdict both files were read to their ends;
//!   `BadTranscript` comes where a field of the head is not there, or where bytes follow those that
//!   a verdict took, with that place. Which sides had a delta below 0, of those whose large entries
//!   the head asks for, it tells as a run does, by the same clause.
//! - The transcript of each run has no fault in its head, whatever the replies are, and it tells
//!   that run ([`laws`]), and no other. Two accepted runs of one inquiry over one stream that heard
//!   the same wrote the same lines. A transcript by hand has the listing that is expected.
//! - What `audit` answers over the transcript and the stream of a run that ended with a verdict is
//!   that verdict, and it writes the run's lines, unless a port failed or memory ran out: so it is
//!   never `BadTranscript`, `BadStream`, `TooWide` or another verdict ([`laws::audits_agree`]).
//! - What `convert` writes where it writes all is the transcript of the same run in version 2, and
//!   one of version 2 is copied ([`laws::one_run_is_converted`]). `audit` over it and over what it
//!   was made of gives the same status, but for the place of `BadTranscript`, and writes the same
//!   lines, unless a port failed or memory ran out ([`laws::converted_audits_agree`]).
//!
//! # The definitions to read
//!
//! `specs/Fields.antt` has the fields of a head and `head_fault`, the place of the first that is
//! not there; `specs/Heads.antt` the runs that a transcript can tell of, and what reading a head
//! answers. `specs/Tales.antt` has what bytes tell, `tale_of`, and `transcript_fault`, the place
//! where they stop being a transcript; `specs/Listings.antt` the lines, `specs/Conversions.antt`
//! the form in version 2, and `specs/Writing.antt` what `show` and `convert` promise.
//! `specs/Replaying.antt` has what is heard on a link over a source, `specs/Auditing.antt` what
//! `audit` promises, `specs/Credits.antt` what it tells of deltas below 0, `specs/Agreements.antt`
//! what it comes to over what a run left, and `specs/AlikeAudits.antt` over that in version 2.
#![tactic(auto)]

mod auditing;
mod fault;
mod fields;
mod frames;
mod head;
pub mod laws;
mod link;
mod listing;
mod loan;
mod past;
mod rendering;
mod showing;
mod stopping;

pub use auditing::audit;
pub use fault::HeadFault;
pub use head::{Head, MOST_CHALLENGES, TranscriptReader};
pub use link::TranscriptLink;
pub use listing::show_line;
pub use loan::{Loan, Origin};
pub use showing::{convert, show};
