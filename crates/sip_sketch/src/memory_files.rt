//! Files in memory, of which loads of chosen numbers fail.

ghost use Rattle.std.specs.Prelude.{◌≡◌, ◌≢◌, ◌↔◌, ◌≤◌, ◌<◌, ◌^◌, ◌+◌, ◌-◌, min, length, take};
ghost use Rattle.std.specs.Prelude.{true, None, Some, option_map, IfOk, IfSome, IsErrOf};
ghost use Rattle.sip_ports.specs.Calls.{MakesCall, failed_of, failed_of-fits, failed_of-sure};
ghost use Rattle.sip_ports.specs.Calls.{next_fails, one_if};
ghost use Rattle.sip_ports.specs.Ports.{CountsWants};
ghost use Rattle.sip_sketch.specs.Files.{Finds};

use crate::SketchFiles;
use sip_ports::{LONGEST_LOAD, PortStop};
use std::alloc::Global;

/// Files in memory, for tests. Loads are numbered from 1, and those whose numbers are in a list
/// fail.
#[derive(Drop)]
pub struct MemoryFiles {
    files: Vec<Option<Vec<u8>>>,
    fails: Vec<u64>,
    made: u64,
    wants: u64,
    ghost counted: { made < 2 ^ 64 },
    ghost fits: { wants < 2 ^ 64 },
}

// What is loaded of a file with these bytes.
fn front_of(bytes: &[u8]) -> &[u8]
    ensures bytes { result.now ≡ take LONGEST_LOAD bytes.now }
    ensures bound { length result.now ≤ LONGEST_LOAD }
{
    &bytes[..bytes.len().min(LONGEST_LOAD)]
}

impl MemoryFiles {
    ghost use Rattle.sip_sketch.specs.MemoryFiles.{files_calls, files_fails, files_wants};

    /// These files, numbered from 0, of which none was loaded. `None` is a missing file, as is each
    /// one behind them.
    pub fn new(files: Vec<Option<Vec<u8>>>, fails: Vec<u64>) -> Self
        ensures files { result.files ≡ files }
        ensures fails { files_fails result ≡ fails.items }
        ensures calls { files_calls result ≡ 0 }
        ensures wants { files_wants result ≡ 0 }
    {
        MemoryFiles {
            files,
            fails,
            made: 0,
            wants: 0,
        }
    }

    // Counts one more load, and answers whether it fails.
    fn next_fails(&mut self) -> bool
        ensures answer { result ≡ next_fails (files_fails self.old) (files_calls self.old) }
        ensures call { MakesCall files_fails files_calls (λ _. 0) self.old self.new }
        ensures files { self.new.files ≡ self.old.files }
        ensures wants { files_wants self.new ≡ files_wants self.old }
    {
        if self.made == u64::MAX {
            return false;
        }
        self.made += 1;
        self.fails.contains(&self.made)
    }
}

impl SketchFiles for MemoryFiles {
    ghost use Rattle.sip_sketch.specs.MemoryFiles.{file_of, files_calls, files_fails, files_faults};
    ghost use Rattle.sip_sketch.specs.MemoryFiles.{files_is_sure, files_next_fails, files_wants};

    ghost content = { λ files. Some (file_of files) };

    ghost faults = { files_faults };

    ghost wants = { files_wants };

    ghost is_sure = { files_is_sure };

    ghost faults_fit = { λ files. failed_of-fits (files_fails files) (files_calls files)
        files.counted };

    ghost wants_fit = { λ files. files.fits };

    ghost sure_counts = { λ files sure. failed_of-sure (files_fails files) (files_calls files)
        sure };

    fn load(&mut self, alloc: Global, part: u32) -> Result<Option<Vec<u8>>, PortStop>
        ensures found { IfOk result (λ file. Finds (Some (file_of self.old)) part
            (option_map (λ bytes. bytes.items) file)) }
        ensures bound { IfOk result (λ file. IfSome file
            (λ bytes. length bytes.items ≤ LONGEST_LOAD)) }
        ensures content { file_of self.new ≡ file_of self.old }
        ensures failed { IsErrOf result PortStop.Failed ↔ (files_next_fails self.old ≡ true) }
        ensures missing { IsErrOf result PortStop.OutOfMemory → file_of self.old part ≢ None }
        ensures call { MakesCall files_fails files_calls (λ _. 0) self.old self.new }
        ensures wants { CountsWants (files_wants self.old) (files_wants self.new) result }
    {
        if self.next_fails() {
            return Err(PortStop::Failed);
        }
        let copy = match self.files.get(part as usize) {
            Some(Some(bytes)) => front_of(bytes).to_vec(alloc),
            Some(None) | None => return Ok(None),
        };
        match copy {
            Ok(bytes) => Ok(Some(bytes)),
            Err(_) => {
                self.wants = self.wants.saturating_add(1);
                Err(PortStop::OutOfMemory)
            }
        }
    }
}
