//! Why a call does nothing, and the numbers of statuses.

ghost use Rattle.std.specs.Prelude.{◌≡◌};
ghost use Rattle.sip_c.specs.Statuses.{number_of, refusal_number};

/// Why a call does nothing.
#[derive(Clone, Copy, Debug, PartialEq, Eq)]
pub enum Refusal {
    /// Memory was refused.
    NoMemory,
    /// The handle is empty.
    Empty,
    /// The handle in which something was to begin is not empty.
    Full,
    /// The buffer is too short.
    NoRoom,
    /// A count or a length is out of its range.
    BadLength,
    /// A number that stands for a kind, a side or a form is none of them.
    BadCode,
    /// The depth is not 1 to 48.
    BadDepth,
    /// The part is not 1 to the number of parts.
    BadPart,
    /// Eight words of the seed's generator in turn give no challenge.
    SeedSpent,
    /// The bytes are no sketch.
    BadSketch,
    /// The side of an update is not 0 or 1.
    BadSide,
    /// The item of an update is not below 2^depth.
    BadItem,
    /// The delta of an update is 0.
    ZeroDelta,
    /// The weight of a side would be above 2^30 - 1.
    TooHeavy,
    /// A part has another depth or number of parts, or seats of other kinds or challenges.
    OtherShape,
    /// All parts are in a part.
    Whole,
    /// A question has used a seat of a part.
    UsedSeat,
    /// The first part in a part is not the one behind the last one in.
    NotNext,
    /// The handle has something of another type.
    OtherHandle,
    /// The call is not for this step.
    NotNow,
    /// Not all parts of the stream are in the sketch.
    NotWhole,
    /// A question does not fit the depth.
    Unfit,
    /// A question is for heavy hitters of a side that had a delta below 0.
    Signed,
    /// No unused seat serves a question.
    NoSeat,
    /// An answer may have more entries than a reply has room for.
    TooWide,
    /// A moment may be greater than a claim.
    TooHigh,
    /// The replies to a question have a fault.
    Rejected,
    /// The other end holds another stream.
    OutOfStep,
    /// What came is no frame that may come.
    BadFrame,
    /// The other end closed before the end of the talk.
    PeerClosed,
}

impl Refusal {
    // The number of its status.
    fn number(self) -> u32
        ensures { result ≡ refusal_number self }
    {
        match self {
            Refusal::NoMemory => 1,
            Refusal::Empty => 2,
            Refusal::Full => 3,
            Refusal::NoRoom => 5,
            Refusal::BadLength => 7,
            Refusal::BadCode => 8,
            Refusal::BadDepth => 16,
            Refusal::BadPart => 17,
            Refusal::SeedSpent => 18,
            Refusal::BadSketch => 19,
            Refusal::BadSide => 24,
            Refusal::BadItem => 25,
            Refusal::ZeroDelta => 26,
            Refusal::TooHeavy => 27,
            Refusal::OtherShape => 32,
            Refusal::Whole => 33,
            Refusal::UsedSeat => 34,
            Refusal::NotNext => 35,
            Refusal::OtherHandle => 4,
            Refusal::NotNow => 6,
            Refusal::NotWhole => 40,
            Refusal::Unfit => 41,
            Refusal::Signed => 42,
            Refusal::NoSeat => 43,
            Refusal::TooWide => 44,
            Refusal::TooHigh => 45,
            Refusal::Rejected => 48,
            Refusal::OutOfStep => 49,
            Refusal::BadFrame => 50,
            Refusal::PeerClosed => 51,
        }
    }
}

/// The number of the status of an answer: 0 where nothing was refused.
pub(crate) fn status_of(answer: Result<(), Refusal>) -> u32
    ensures { result ≡ number_of answer }
{
    match answer {
        Ok(()) => 0,
        Err(why) => why.number(),
    }
}
