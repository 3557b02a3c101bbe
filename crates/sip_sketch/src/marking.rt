//! What a question takes of a sketch: a seat, which is used from then on.

ghost use Rattle.std.specs.Prelude.{◌≡◌, ◌<◌, ◌≤◌, IsTrue, length};
ghost use Rattle.sip_vector.specs.Streams.{most_weight};
ghost use Rattle.sip_verifier.specs.QuerySeats.{keeps};
ghost use Rattle.sip_verifier.specs.Running.{block_of, numbers_of};
ghost use Rattle.sip_sketch.specs.Marking.{mark, used, used_at};
ghost use Rattle.sip_sketch.specs.Seats.{beside, numbers_kept, query_of};

use crate::seat::{running_of, weigh};
use crate::{Sketch, SketchSeat};
use sip_verifier::Running;

impl SketchSeat {
    /// A copy of what it keeps, with its challenges: what the replies to a question are judged by.
    /// `weight` is that of its side, which is told of the stream: it stands beside a hash.
    pub fn running(&self, weight: u64) -> Running
        requires { weight ≤ most_weight }
        ensures keeps { IsTrue (keeps (query_of self.now.kind) (numbers_of result)) }
        ensures block { block_of result ≡ self.now.block }
        ensures numbers { numbers_of result
            ≡ beside weight (numbers_kept self.now.kind self.now.first self.now.second) }
    {
        let mut running = running_of(
            self.kind,
            self.block().clone().unwrap(),
            self.first(),
            self.second(),
        );
        weigh(&mut running, weight);
        running
    }

    // A question has it from now on.
    fn take(&mut self)
        ensures { self.new ≡ used self.old }
    {
        self.is_used = true;
    }
}

// Marks the seat at this place used.
fn take_at(seats: &mut [SketchSeat], place: usize)
    requires { place < length seats.old }
    ensures { seats.new ≡ used_at place seats.old }
{
    seats[place].take();
}

impl Sketch {
    /// Marks the seat at this place used, and changes nothing else.
    pub fn mark(&mut self, place: usize)
        requires { place < length self.old.seats }
        ensures { self.new ≡ mark place self.old }
    {
        take_at(&mut self.seats, place);
    }
}
