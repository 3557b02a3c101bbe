//! What a reader counts beside, where it is to tell what its stream comes to.

ghost use Rattle.std.specs.Prelude.{◌≡◌};
ghost use Rattle.sip_stream.specs.Reading.{marked};

use sip_vector::{Fingerprint, Negatives, Update};

/// What is told of a stream beside the number of its records and the weights of its sides.
#[derive(Clone, Copy, Debug, PartialEq, Eq)]
pub(crate) struct Marks {
    /// Which sides had a delta below 0.
    pub(crate) negatives: Negatives,
    /// The fingerprint.
    pub(crate) fingerprint: Fingerprint,
}

/// They once these updates came too, where there are any. It is called once for many updates: what
/// only some readers count costs the others nothing for each.
pub(crate) fn marked(marks: Option<Marks>, updates: &[Update]) -> Option<Marks>
    ensures { result ≡ marked marks updates.now }
{
    let mut marks = marks?;
    marks.negatives.update_all(updates);
    marks.fingerprint.update_all(updates);
    Some(marks)
}
