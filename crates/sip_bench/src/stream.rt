//! A stream of updates and a seat that look random, and are the same in every run.
ghost use Rattle.std.specs.Prelude.{◌≡◌, ◌^◌, ◌<◌, ◌≤◌, nat_abs, length};

use sip_field::{Field, M61, Seat};
use sip_vector::{CAP, Depth, Side, Update};

/// The linear congruential generator modulo 2^64 of Knuth's MMIX: Knuth, The Art of Computer
/// Programming, volume 2, section 3.3.4.
#[derive(Drop)]
pub(crate) struct Generator {
    state: u64,
}

impl Generator {
    /// The generator at the beginning of the stream.
    pub(crate) fn of_stream() -> Generator {
        Generator { state: 1 }
    }

    fn next(&mut self) -> u64 {
        self.state = self
            .state
            .wrapping_mul(6_364_136_223_846_793_005)
            .wrapping_add(1_442_695_040_888_963_407);
        self.state
    }

    /// The next update: an item below 2^depth, and a delta from 1 to 8. They are made of different
    /// bits of one word.
    pub(crate) fn next_update(&mut self, depth: Depth) -> Update
        ensures item { result.item < 2 ^ depth }
        ensures delta { nat_abs result.delta ≤ 8 }
    {
        let word = self.next();
        Update {
            side: Side::First,
            item: (word >> 15) % (1 << depth.get()),
            delta: (1 + (word >> 12) % 8) as i64,
        }
    }
}

/// A seat of as many challenges as the depth says.
pub(crate) fn seat(depth: Depth) -> Seat<M61, CAP>
    ensures { length result ≡ depth }
{
    seat_of(0, depth)
}

/// The seat of one of several numbers, each of which has challenges of its own: number 0 has those
/// of [`seat`].
pub(crate) fn seat_of(number: u64, depth: Depth) -> Seat<M61, CAP>
    ensures { length result ≡ depth }
{
    let mut generator = Generator {
        state: number.wrapping_add(2),
    };
    let mut challenges = [M61::of(0); CAP];
    for challenge in &mut challenges {
        *challenge = M61::of(generator.next());
    }
    Seat::of(&challenges[..usize::from(depth.get())]).unwrap()
}

/// The depths at which parts are timed.
pub(crate) fn depth_of(word: &str) -> Option<Depth> {
    match word {
        "20" => Depth::new(20),
        "32" => Depth::new(32),
        "48" => Depth::new(48),
        _ => None,
    }
}
