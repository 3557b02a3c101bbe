//! The files of sketches that words name, which are only read.

ghost use Rattle.std.specs.Prelude.{◌≡◌, ◌<◌, ◌≤◌, ◌^◌, ◌+◌, ◌-◌, min, length, None, Some, IfOk};
ghost use Rattle.std.specs.Prelude.{IfSome, IsErrOf};
ghost use Rattle.sip_keeping.specs.SketchPlan.{file_opening};
ghost use Rattle.sip_ports.specs.Ports.{HasCause};
ghost use Rattle.sip_words.specs.Plan.{file_name};

use sip_keeping::file_opening;
use sip_ports::{DeskStop, LONGEST_LOAD, PortStop, load_file};
use sip_sketch::SketchFiles;
use sip_words::Words;
use std::alloc::Global;

/// What the file has that the words name by this number; see [`load_file`].
pub(crate) fn load_named(
    rt: &HostRuntime,
    alloc: Global,
    words: &Words,
    number: u32,
    name: &str,
) -> Result<Option<Vec<u8>>, DeskStop>
    requires { file_name (file_opening number) words.now ≡ Some name.now }
    ensures bound { IfOk result (λ file. IfSome file
        (λ bytes. length bytes.items ≤ LONGEST_LOAD)) }
    ensures free { ¬ IsErrOf result DeskStop.Busy }
{
    load_file(rt, alloc, name)
}

/// The files that the words name of a command that keeps a sketch: 0 is the sketch itself, and k
/// the k-th part. A load takes no lock. No contract can say what is in a file.
#[derive(Drop)]
pub(crate) struct NamedFiles<'a> {
    rt: HostRuntime,
    words: &'a Words,
    faults: u64,
    wants: u64,
    ghost faults_fit: { faults < 2 ^ 64 },
    ghost wants_fit: { wants < 2 ^ 64 },
}

impl<'a> NamedFiles<'a> {
    /// The files that these words name, of which none was loaded.
    pub(crate) fn new(rt: HostRuntime, words: &'a Words) -> Self {
        NamedFiles {
            rt,
            words,
            faults: 0,
            wants: 0,
        }
    }

    // Counts why a load stopped.
    fn stopped(&mut self, stop: DeskStop) -> PortStop
        ensures cause { (result ≡ PortStop.Failed
            → self.new.faults ≡ min (self.old.faults + 1) (2 ^ 64 - 1))
            × (result ≡ PortStop.OutOfMemory
            → self.new.wants ≡ min (self.old.wants + 1) (2 ^ 64 - 1)) }
        ensures faults { self.old.faults ≤ self.new.faults }
        ensures wants { self.old.wants ≤ self.new.wants }
    {
        match stop {
            DeskStop::OutOfMemory => {
                self.wants = self.wants.saturating_add(1);
                PortStop::OutOfMemory
            }
            // What takes no lock is never busy.
            DeskStop::Failed | DeskStop::Busy => {
                self.faults = self.faults.saturating_add(1);
                PortStop::Failed
            }
        }
    }
}

impl<'a> SketchFiles for NamedFiles<'a> {
    ghost content = { λ _. None };

    ghost faults = { λ files. files.faults };

    ghost wants = { λ files. files.wants };

    ghost is_sure = { λ _. ⊥ };

    ghost faults_fit = { λ files. files.faults_fit };

    ghost wants_fit = { λ files. files.wants_fit };

    ghost sure_counts = { λ _ sure. absurd sure };

    fn load(&mut self, alloc: Global, part: u32) -> Result<Option<Vec<u8>>, PortStop> {
        let answer = match file_opening(part).name(self.words) {
            Some(name) => load_named(&self.rt, alloc, self.words, part, name),
            None => Err(DeskStop::Failed),
        };
        match answer {
            Ok(file) => Ok(file),
            Err(stop) => Err(self.stopped(stop)),
        }
    }
}
