//! What a test expects of a row of its table.

use std::process::Abort;

// Ends the test where a fact does not hold, with its number and the row's name. A list of facts
// costs the prover less than as many assertions.
pub(crate) fn expect(rt: &impl Abort, row: &str, facts: &[bool]) {
    for (number, holds) in facts.iter().enumerate() {
        assert!(rt; *holds, "{row}: fact {number}");
    }
}
