//! The generator of a made stream, and the updates that its states say.

ghost use Rattle.std.specs.Prelude.{◌≡◌, ◌<◌, ◌^◌};
ghost use Rattle.sip_stream.specs.Made.{made_delta, made_item, made_side, made_update, next_state};

use sip_vector::{Depth, Side, Update};

/// The factor and the addend of the generator, which is that of Knuth's MMIX.
const FACTOR: u64 = 6_364_136_223_846_793_005;

const ADDEND: u64 = 1_442_695_040_888_963_407;

/// The state after this one.
pub(crate) fn next_state(state: u64) -> u64
    ensures { result ≡ next_state state }
{
    state.wrapping_mul(FACTOR).wrapping_add(ADDEND)
}

#[tactic(auto, unfolding(crate::specs::Made::made_side))]
fn side_at(state: u64) -> Side
    ensures { result ≡ made_side state }
{
    if state >> 63 == 0 {
        Side::First
    } else {
        Side::Second
    }
}

#[tactic(auto, unfolding(crate::specs::Made::made_item))]
fn item_at(depth: Depth, state: u64) -> u64
    ensures item { result ≡ made_item depth state }
    ensures fits { result < 2 ^ depth }
{
    let items = 1 << depth.get();
    if (state >> 8) % 4 == 0 {
        (state >> 15) % 2
    } else {
        (state >> 15) % items
    }
}

#[tactic(auto, using(std::proofs::lemmas::Int::ints), unfolding(crate::specs::Made::made_delta))]
fn delta_at(state: u64) -> i64
    ensures { result ≡ made_delta state }
{
    1 + ((state >> 12) % 8) as i64
}

/// The update that a state says.
pub(crate) fn update_at(depth: Depth, state: u64) -> Update
    ensures update { result ≡ made_update depth state }
    ensures fits { result.item < 2 ^ depth }
{
    Update {
        side: side_at(state),
        item: item_at(depth, state),
        delta: delta_at(state),
    }
}
