//! What is asked of a stream.

use crate::moment::Moment;
use arrayvec::ArrayVec;
use sip_stream::Form;
use sip_vector::Depth;
use sip_wire::MOST_QUERIES;

/// A stream over 2^depth items in a form, and the moments that are asked of it, in their order: 1
/// to 16, each of a degree from 3 to 8.
#[derive(Drop)]
pub struct MomentTask {
    /// The stream has 2^depth items; 1 to 48.
    pub depth: Depth,
    /// How the stream's records are written.
    pub form: Form,
    /// The moments, in the order in which they are asked.
    pub moments: ArrayVec<Moment, MOST_QUERIES>,
}
