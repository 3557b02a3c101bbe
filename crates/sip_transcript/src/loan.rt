//! Sources that are lent, and where they stood then.

ghost use Rattle.std.specs.Prelude.{◌≡◌, ◌<◌, ◌^◌, List, ℕ, None};
ghost use Rattle.std.specs.declared.option.Option.{Option};
ghost use Rattle.std.specs.Io.{ReadsAtMost};
ghost use Rattle.std.specs.Io.KnownBytes.{ReadConsumes};
ghost use Rattle.sip_ports.specs.Ports.{HasCause};

use sip_ports::{PortStop, Source};
use std::marker::Brand;

/// A source that is lent, and stays the same loan while it is read. So whoever lent it knows
/// afterwards what is left in it, also where a generic call read it.
pub trait Loan {
    /// Which loan it is.
    ghost loan: { Self → ℕ };

    /// What the source tells: its bytes to come, how often it has failed, how often memory was
    /// refused to it, and that it never fails.
    ghost left: { Self → Option (List ℕ) };

    ghost faults: { Self → ℕ };

    ghost wants: { Self → ℕ };

    ghost is_sure: { Self → Type 0 };

    /// A read of the source.
    fn read(&mut self, buf: &mut [u8]) -> Result<usize, PortStop>
        ensures bound { ReadsAtMost result buf.new }
        ensures bytes { ReadConsumes (left self.old) (left self.new) result buf.new }
        ensures cause { HasCause faults wants is_sure self.old self.new result }
        ensures same { loan self.new ≡ loan self.old };

    ghost faults_fit: { (source : Self) → faults source < 2 ^ 64 };

    ghost wants_fit: { (source : Self) → wants source < 2 ^ 64 };

    ghost sure_counts: { (source : Self) → is_sure source → faults source ≡ 0 };
}

impl<S: Source> Loan for &mut S {
    ghost loan = { λ source. source.ghost_name };

    ghost left = { λ source. S.left source.now };

    ghost faults = { λ source. S.faults source.now };

    ghost wants = { λ source. S.wants source.now };

    ghost is_sure = { λ source. S.is_sure source.now };

    ghost faults_fit = { λ source. S.faults_fit source.now };

    ghost wants_fit = { λ source. S.wants_fit source.now };

    ghost sure_counts = { λ source sure. S.sure_counts source.now sure };

    fn read(&mut self, buf: &mut [u8]) -> Result<usize, PortStop> {
        (**self).read(buf)
    }
}

/// What a source had when a link was made over it, and which loan it was. A caller of a function
/// over any origin passes [`Brand`], and picks both in its proof.
pub trait Origin {
    /// The bytes that it had, where they are told.
    ghost first: { Option (List ℕ) };

    /// Which loan it was.
    ghost lent: { ℕ };
}

impl Origin for Brand {
    ghost first = { None };

    ghost lent = { 0 };
}
