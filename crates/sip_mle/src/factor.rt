//! The factor that an entry has in the extension.
ghost use Rattle.std.specs.Prelude.{◌≡◌, ◌*◌, ◌%◌, ◌^◌, ◌<◌, length};
ghost use Rattle.sip_vector.specs.Extensions.{chi};

use sip_field::{Field, Seat};

/// The factor of the entry `index` in the extension: the product of the challenges for which the
/// index has the bit 1, the lowest bit first, and of one less the challenge for which it has 0.
///
/// d `times`.
pub fn chi<F: Field, const CAP: usize>(seat: &Seat<F, CAP>, index: u64) -> F
    requires { index < 2 ^ length seat.now }
    ensures { F.number result ≡ chi F.MODULUS index seat.now }
{
    times_chi(F::of(1), seat, index)
}

/// `start` times the factor of an entry. d `times`, so that a factor that is wanted in a product
/// costs no more.
pub(crate) fn times_chi<F: Field, const CAP: usize>(start: F, seat: &Seat<F, CAP>, index: u64) -> F
    ensures { F.number result ≡ (F.number start * chi F.MODULUS index seat.now) % F.MODULUS }
{
    let mut product = start;
    let mut path = index;
    for below in 0..seat.depth() {
        let r = seat.at(below + 1);
        let factor = if path % 2 == 1 { r } else { F::of(1).minus(r) };
        product = product.times(factor);
        path /= 2;
    }
    product
}
