//! How many bytes are passed on at a time.

/// The sizes of pieces: one size, or small ones in no order, by a linear congruence.
#[derive(Drop)]
pub enum Sizes {
    Same(usize),
    Any(u64),
}

impl Sizes {
    /// The size of the next piece; where they are in no order a number from 0 to 8.
    pub fn next(&mut self) -> usize {
        match self {
            Sizes::Same(size) => *size,
            Sizes::Any(state) => {
                *state = state
                    .wrapping_mul(6_364_136_223_846_793_005)
                    .wrapping_add(1_442_695_040_888_963_407);
                (*state >> 33) as usize % 9
            }
        }
    }
}

/// So many bytes behind the first few, or all that there are.
pub fn piece_of(bytes: &[u8], from: usize, size: usize) -> &[u8] {
    let rest = if from < bytes.len() {
        &bytes[from..]
    } else {
        &[]
    };
    if size < rest.len() {
        &rest[..size]
    } else {
        rest
    }
}
