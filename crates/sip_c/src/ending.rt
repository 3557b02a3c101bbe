//! How asking ended, or why it does not begin.

ghost use Rattle.std.specs.Prelude.{◌≡◌};
ghost use Rattle.sip_c.specs.Endings.{about, answer_at, ending_at, holding, plain};
ghost use Rattle.sip_c.specs.Endings.{refusal_at, rejected};
ghost use Rattle.sip_c.specs.Reasons.{reason_number, refusal_code};

use crate::refusal::Refusal;
use sip_ask::AskStatus;
use sip_wire::{Held, Reason};

/// How asking ended, beside its status. What the status says nothing of is 0.
#[repr(C)]
#[derive(Clone, Copy, Debug, PartialEq, Eq)]
pub struct Ending {
    /// What the other end holds, where that is another stream: how many records.
    pub records: u64,
    /// The weight of side 0.
    pub weight_0: u64,
    /// The weight of side 1.
    pub weight_1: u64,
    /// The fingerprint.
    pub fingerprint: u64,
    /// The number of the question that is meant, from 1.
    pub question: u8,
    /// The number of the reply that was rejected, or the depth behind the last one.
    pub round: u8,
    /// The number of the reason.
    pub reason: u8,
    /// The code of a refusal.
    pub refusal: u8,
}

// The number of a reason.
fn number_of(reason: Reason) -> u8
    ensures { result ≡ reason_number reason }
{
    match reason {
        Reason::Closed => 1,
        Reason::BadKind => 2,
        Reason::BadLength => 3,
        Reason::BadCount => 4,
        Reason::BadNumber => 5,
        Reason::Refused(_) => 6,
        Reason::BadOrder => 7,
        Reason::TooMany => 8,
        Reason::BadFlags => 9,
        Reason::HeavySibling => 10,
        Reason::Pairs => 11,
        Reason::LightParent => 12,
        Reason::Sum => 13,
        Reason::Total => 14,
        Reason::Root => 15,
        Reason::BadFound => 16,
        Reason::NotAlone => 17,
    }
}

// The code of a refusal; 0 where there is none.
fn refusal_code(reason: Reason) -> u8
    ensures { result ≡ refusal_code reason }
{
    match reason {
        Reason::Refused(code) => code,
        _ => 0,
    }
}

/// An ending of which the status says all.
pub(crate) fn plain() -> Ending
    ensures { result ≡ plain }
{
    Ending {
        records: 0,
        weight_0: 0,
        weight_1: 0,
        fingerprint: 0,
        question: 0,
        round: 0,
        reason: 0,
        refusal: 0,
    }
}

/// An ending for a question.
pub(crate) fn about(question: u8) -> Ending
    ensures { result ≡ about question }
{
    let mut ending = plain();
    ending.question = question;
    ending
}

/// An ending for replies to a question.
pub(crate) fn rejected(question: u8, round: u8, reason: Reason) -> Ending
    ensures { result ≡ rejected question round reason }
{
    let mut ending = about(question);
    ending.round = round;
    ending.reason = number_of(reason);
    ending.refusal = refusal_code(reason);
    ending
}

// An ending for what the other end holds.
fn holding(held: Held) -> Ending
    ensures { result ≡ holding held }
{
    let mut ending = plain();
    ending.records = held.records;
    ending.weight_0 = held.first;
    ending.weight_1 = held.second;
    ending.fingerprint = held.fingerprint;
    ending
}

/// How asking ended with a status.
pub(crate) fn ending_of(status: AskStatus) -> Ending
    ensures { result ≡ ending_at status }
{
    match status {
        AskStatus::Rejected {
            query,
            round,
            reason,
        } => rejected(query, round, reason),
        AskStatus::Unfit { query }
        | AskStatus::Signed { query }
        | AskStatus::NoSeat { query }
        | AskStatus::TooWide { query }
        | AskStatus::TooHigh { query } => about(query),
        AskStatus::OutOfStep { held, .. } => holding(held),
        _ => plain(),
    }
}

/// The refusal of a status. Those of files and links come from no call of this library.
pub(crate) fn refusal_of(status: AskStatus) -> Refusal
    ensures { result ≡ refusal_at status }
{
    match status {
        AskStatus::Rejected { .. } => Refusal::Rejected,
        AskStatus::NotWhole => Refusal::NotWhole,
        AskStatus::Unfit { .. } => Refusal::Unfit,
        AskStatus::Signed { .. } => Refusal::Signed,
        AskStatus::NoSeat { .. } => Refusal::NoSeat,
        AskStatus::TooWide { .. } => Refusal::TooWide,
        AskStatus::TooHigh { .. } => Refusal::TooHigh,
        AskStatus::OutOfStep { .. } => Refusal::OutOfStep,
        AskStatus::BadFrame => Refusal::BadFrame,
        AskStatus::OutOfMemory => Refusal::NoMemory,
        _ => Refusal::PeerClosed,
    }
}

/// The answer where asking ended with a status.
pub(crate) fn answer_of(status: AskStatus) -> Result<(), Refusal>
    ensures { result ≡ answer_at status }
{
    match status {
        AskStatus::Accepted => Ok(()),
        status => Err(refusal_of(status)),
    }
}
