//! The lines of a report.

use sip_lookup::write_look;
use sip_moments::write_moment;
use sip_ports::{PortStop, Sink, write_whole};
use sip_questions::QuestionGiven;
use sip_vector::Entry;
use sip_verifier::{write_number, write_pairs};
use sip_wire::Reason;
use std::alloc::Global;

/// Writes the line of an answer, of which these pairs are shown.
pub(crate) fn write_answer<K: Sink>(
    report: &mut K,
    given: &QuestionGiven,
    pairs: &[Entry],
) -> Result<(), PortStop> {
    match given {
        QuestionGiven::Number { query, value } => write_number(report, query, *value),
        QuestionGiven::Pairs { query } => write_pairs(report, query, pairs),
        QuestionGiven::Large { large } => write_pairs(report, &large.query(), pairs),
        QuestionGiven::Lookup { lookup, answer } => write_look(report, *lookup, *answer),
        QuestionGiven::Moment { moment, value } => write_moment(report, *moment, *value),
    }
}

/// Writes the line of a rejection.
pub(crate) fn write_rejection<K: Sink>(
    alloc: Global,
    report: &mut K,
    query: u8,
    round: u8,
    reason: Reason,
) -> Result<(), PortStop> {
    match format!(in alloc; "rejected query {query} round {round} {reason:?}\n") {
        Ok(line) => write_whole(report, line.as_bytes()),
        Err(_) => Err(PortStop::OutOfMemory),
    }
}
