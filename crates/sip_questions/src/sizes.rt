//! The sizes of the deltas of a stream, by which large entries are weighed.

use sip_helper::HelperCore;

/// What is known of the sizes of the deltas.
#[derive(Drop)]
pub(crate) enum Sizes {
    /// Nothing: the store was not read again, or that failed.
    Unheard,
    /// The store was read again, and no delta was below 0: the sizes are what was heard first.
    Deltas,
    /// They were heard as the store was read again.
    Heard(Box<HelperCore>),
}
