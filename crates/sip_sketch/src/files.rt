//! Files of sketches that are read whole, and not locked.

ghost use Rattle.std.specs.Prelude.{◌≡◌, ◌≤◌, ◌<◌, ◌^◌, ℕ, List, length, option_map, IfOk, IfSome};
ghost use Rattle.std.specs.declared.option.Option.{Option};
ghost use Rattle.sip_ports.specs.Ports.{HasCause};
ghost use Rattle.sip_sketch.specs.Files.{Finds};

use sip_ports::{LONGEST_LOAD, PortStop};
use std::alloc::Global;

/// Files that are read whole, each by its number: 0 is that of a sketch, and k that of the k-th
/// part of a sum. None is locked, so another process may replace one between two loads, where the
/// files are not told.
pub trait SketchFiles {
    /// What each file has, by its number, where that is told. `None` is a missing file.
    ghost content: { Self → Option (ℕ → Option (List ℕ)) };

    /// How often a load has failed. The count never falls, and stands still at 2^64 - 1.
    ghost faults: { Self → ℕ };

    /// How often memory was refused to a load. The count never falls, and stands still at 2^64 - 1.
    ghost wants: { Self → ℕ };

    /// No load ever fails.
    ghost is_sure: { Self → Type 0 };

    /// The bytes of a file, at most the first [`LONGEST_LOAD`] of them; `None` exactly where the
    /// file is missing. No file changes. It takes memory for what it answers.
    fn load(&mut self, alloc: Global, part: u32) -> Result<Option<Vec<u8>>, PortStop>
        ensures found { IfOk result (λ file. Finds (content self.old) part
            (option_map (λ bytes. bytes.items) file)) }
        ensures bound { IfOk result (λ file. IfSome file
            (λ bytes. length bytes.items ≤ LONGEST_LOAD)) }
        ensures content { content self.new ≡ content self.old }
        ensures cause { HasCause faults wants is_sure self.old self.new result };

    ghost faults_fit: { (files : Self) → faults files < 2 ^ 64 };

    ghost wants_fit: { (files : Self) → wants files < 2 ^ 64 };

    ghost sure_counts: { (files : Self) → is_sure files → faults files ≡ 0 };
}
