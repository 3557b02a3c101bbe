// A desk over a file of the machine. What it does there can be named by no contract.
ghost use Rattle.std.specs.Prelude.{◌≡◌, ◌≢◌, ◌<◌, ◌≤◌, length, IfOk, IfSome, IsErrOf, None, OnOk};
ghost use Rattle.std.specs.Io.{ReadsAtMost, WritesAtMost};
ghost use Rattle.sip_ports.specs.Ports.{HasCause, Hears, Sends, StandsStill};
ghost use Rattle.sip_ports.specs.Desk.{CountsDeskFaults, CountsDeskWants};

use crate::count::Count;
use crate::file::FileSource;
use crate::load::load_front;
use crate::{Desk, DeskStop, LONGEST_LOAD, Link, PortStop, Sink};
use std::alloc::Global;
use std::fs::{self, File, Files, OpenOptions, Permissions, TryLockError};
use std::io;
use std::io::{ErrorKind, Write};
use std::os::unix::fs::{OpenOptionsExt, PermissionsExt};
use std::path::Path;

/// What the file and those beside it are made with: they are read by their owner alone.
const OWNER_ALONE: u32 = 0o600;

/// A file that was loaded by this process, and by no other until this is dropped.
#[derive(Drop)]
struct HeldFile {
    name: String,
    beside: String,
    folder: String,
    _lock: File,
}

fn stop_of(error: &io::Error) -> DeskStop
    ensures { result ≢ DeskStop.Busy }
{
    if error.kind() == ErrorKind::OutOfMemory {
        DeskStop::OutOfMemory
    } else {
        DeskStop::Failed
    }
}

/// The name of the file that a path leads to: the path itself where nothing is there. A link that
/// leads nowhere is an error.
fn led_to(rt: &HostRuntime, alloc: Global, path: &str) -> io::Result<String> {
    match rt.canonicalize(alloc, path) {
        Ok(name) => Ok(name.into_string()),
        Err(error)
            if error.kind() == ErrorKind::NotFound
                && !path.is_empty()
                && fs::symlink_metadata(rt, path).is_err() => { Ok(path.to_string(alloc)?) }
        Err(error) => Err(error),
    }
}

/// The folder that a file stands in.
fn folder_of(name: &str) -> &str {
    match Path::new(name).parent() {
        Some(folder) if !folder.as_str().is_empty() => folder.as_str(),
        _ => ".",
    }
}

/// A new file of this name, which was not there, not even as a link. Its mode does not depend on
/// the mask of the process.
fn made(rt: &HostRuntime, name: &str) -> io::Result<File> {
    let file = OpenOptions::new()
        .write(true)
        .create_new(true)
        .mode(OWNER_ALONE)
        .open(rt, name)?;
    file.set_permissions(Permissions::from_mode(OWNER_ALONE))?;
    Ok(file)
}

/// The lock of this name, without waiting for it; `None` where another has it. The system frees it
/// with the file that is answered, or when the process ends.
fn locked(rt: &HostRuntime, name: &str) -> io::Result<Option<File>> {
    let lock = match made(rt, name) {
        Err(error) if error.kind() == ErrorKind::AlreadyExists => {
            OpenOptions::new().write(true).open(rt, name)?
        }
        answer => answer?,
    };
    match lock.try_lock() {
        Ok(()) => Ok(Some(lock)),
        Err(TryLockError::WouldBlock) => Ok(None),
        Err(TryLockError::Error(error)) => Err(error),
    }
}

impl HeldFile {
    /// Takes the file that a path leads to; `None` where another has it.
    fn take(rt: &HostRuntime, alloc: Global, path: &str) -> io::Result<Option<HeldFile>> {
        let name = led_to(rt, alloc, path)?;
        let lock = format!(in alloc; "{name}.lock")?;
        let Some(lock) = locked(rt, lock.as_str())? else {
            return Ok(None);
        };
        Ok(Some(HeldFile {
            beside: format!(in alloc; "{name}.new")?,
            folder: folder_of(name.as_str()).to_string(alloc)?,
            name,
            _lock: lock,
        }))
    }

    /// Puts these bytes in the file's place. What stands beside it is on the disk before it takes
    /// the name, and then the name is too.
    fn replace(&self, rt: &HostRuntime, bytes: &[u8]) -> io::Result<()> {
        match fs::remove_file(rt, self.beside.as_str()) {
            Err(error) if error.kind() != ErrorKind::NotFound => return Err(error),
            _ => {}
        }
        let mut file = made(rt, self.beside.as_str())?;
        file.write_all(bytes)?;
        file.sync_all()?;
        fs::rename(rt, self.beside.as_str(), self.name.as_str())?;
        File::open(rt, self.folder.as_str())?.sync_all()
    }
}

// A source has a buffer, and stands on the heap.
#[inline(never)]
fn load_opened(alloc: Global, file: File) -> Result<Vec<u8>, DeskStop>
    ensures bound { IfOk result (λ bytes. length bytes.items ≤ LONGEST_LOAD) }
    ensures free { ¬ IsErrOf result DeskStop.Busy }
{
    let mut source = Box::new(alloc, FileSource::new(Some(file)))?;
    load_front(alloc, &mut *source)
}

/// The bytes of the file of this name, at most the first [`LONGEST_LOAD`] of them, without a lock;
/// `None` where it is missing. It is never busy. It takes memory for so many bytes, and for a
/// buffer of 16,384 on the way.
pub fn load_file(rt: &HostRuntime, alloc: Global, path: &str) -> Result<Option<Vec<u8>>, DeskStop>
    ensures bound { IfOk result (λ file. IfSome file
        (λ bytes. length bytes.items ≤ LONGEST_LOAD)) }
    ensures free { ¬ IsErrOf result DeskStop.Busy }
{
    match File::open(rt, path) {
        Ok(file) => match load_opened(alloc, file) {
            Ok(bytes) => Ok(Some(bytes)),
            Err(stop) => Err(stop),
        },
        Err(error) if error.kind() == ErrorKind::NotFound => Ok(None),
        Err(error) => Err(stop_of(&error)),
    }
}

/// A link, and the file that a path leads to, NAME. The first load takes the lock of NAME.lock, and
/// answers [`DeskStop::Busy`] where another process has it; the desk keeps it until it is dropped,
/// and the system frees it when the process ends. A replacement makes NAME.new anew, writes it,
/// syncs it, renames it to NAME and syncs the folder; it fails where nothing was loaded. What it
/// makes can be read by its owner alone. The desk tells no talk.
///
/// A load takes memory for what it answers, for three names and for a buffer of 16,384 bytes on the
/// way. A replacement takes none.
#[derive(Drop)]
pub struct FileDesk<L: Link + Drop> {
    link: L,
    rt: HostRuntime,
    path: String,
    held: Option<HeldFile>,
    faults: Count,
    wants: Count,
}

impl<L: Link + Drop> FileDesk<L> {
    ghost use Rattle.sip_ports.specs.Edge.{file_desk_link, own_faults, own_wants};

    /// A desk over this link and this file, of which nothing was opened.
    pub fn new(rt: HostRuntime, link: L, path: String) -> Self
        ensures link { file_desk_link result ≡ link }
        ensures faults { own_faults result ≡ 0 }
        ensures wants { own_wants result ≡ 0 }
    {
        FileDesk {
            link,
            rt,
            path,
            held: None,
            faults: Count::none(),
            wants: Count::none(),
        }
    }

    // Counts why a call of the file stopped.
    fn counted<T: Drop>(&mut self, answer: Result<T, DeskStop>) -> Result<T, DeskStop>
        ensures same { result ≡ answer }
        ensures faults { CountsDeskFaults (own_faults self.old) (own_faults self.new) result }
        ensures wants { CountsDeskWants (own_wants self.old) (own_wants self.new) result }
        ensures link { file_desk_link self.new ≡ file_desk_link self.old }
    {
        match &answer {
            Err(DeskStop::Failed) => {
                self.faults.failed();
            }
            Err(DeskStop::OutOfMemory) => {
                self.wants.refused();
            }
            Err(DeskStop::Busy) | Ok(_) => {}
        }
        answer
    }

    // Takes the lock, where it does not have it.
    fn hold(&mut self, alloc: Global) -> Result<(), DeskStop>
        ensures link { file_desk_link self.new ≡ file_desk_link self.old }
        ensures faults { own_faults self.new ≡ own_faults self.old }
        ensures wants { own_wants self.new ≡ own_wants self.old }
    {
        if self.held.is_some() {
            return Ok(());
        }
        match HeldFile::take(&self.rt, alloc, self.path.as_str()) {
            Ok(Some(held)) => {
                self.held = Some(held);
                Ok(())
            }
            Ok(None) => Err(DeskStop::Busy),
            Err(error) => Err(stop_of(&error)),
        }
    }

    fn load_held(&mut self, alloc: Global) -> Result<Option<Vec<u8>>, DeskStop>
        ensures bound { IfOk result (λ file. IfSome file
            (λ bytes. length bytes.items ≤ LONGEST_LOAD)) }
        ensures link { file_desk_link self.new ≡ file_desk_link self.old }
        ensures faults { own_faults self.new ≡ own_faults self.old }
        ensures wants { own_wants self.new ≡ own_wants self.old }
    {
        self.hold(alloc)?;
        match &self.held {
            Some(held) => load_file(&self.rt, alloc, held.name.as_str()),
            None => Err(DeskStop::Failed),
        }
    }

    fn replace_held(&self, bytes: &[u8]) -> Result<(), DeskStop>
        ensures { ¬ IsErrOf result DeskStop.Busy }
    {
        let Some(held) = &self.held else {
            return Err(DeskStop::Failed);
        };
        match held.replace(&self.rt, bytes) {
            Ok(()) => Ok(()),
            Err(error) => Err(stop_of(&error)),
        }
    }
}

impl<L: Link + Drop> Sink for FileDesk<L> {
    ghost use Rattle.sip_ports.specs.Edge.{file_desk_link, file_desk_faults, file_desk_wants};
    ghost use Rattle.sip_ports.specs.Edge.{file_desk_faults-fit, file_desk_wants-fit, own_faults};
    ghost use Rattle.sip_ports.specs.Edge.{own_wants};

    ghost talk = { λ _. None };

    ghost faults = { file_desk_faults L.faults };

    ghost wants = { file_desk_wants L.wants };

    ghost is_sure = { λ _. ⊥ };

    ghost faults_fit = { λ desk. file_desk_faults-fit L.faults desk };

    ghost wants_fit = { λ desk. file_desk_wants-fit L.wants desk };

    ghost sure_counts = { λ _ sure. absurd sure };

    fn write(&mut self, buf: &[u8]) -> Result<usize, PortStop>
        ensures bound { WritesAtMost result buf.now }
        ensures takes { 0 < length buf.now → IfOk result (λ n. 0 < n) }
        ensures talk { Sends (L.talk (file_desk_link self.old)) (L.talk (file_desk_link self.new))
            result buf.now }
        ensures empty { length buf.now ≡ 0 → OnOk result (StandsStill L.faults L.wants
            (file_desk_link self.old) (file_desk_link self.new)) }
        ensures cause { HasCause L.faults L.wants L.is_sure (file_desk_link self.old)
            (file_desk_link self.new) result }
        ensures faults { own_faults self.new ≡ own_faults self.old }
        ensures wants { own_wants self.new ≡ own_wants self.old }
    {
        self.link.write(buf)
    }
}

impl<L: Link + Drop> Link for FileDesk<L> {
    ghost use Rattle.sip_ports.specs.Edge.{file_desk_link, own_faults, own_wants};

    fn recv(&mut self, buf: &mut [u8]) -> Result<usize, PortStop>
        ensures bound { ReadsAtMost result buf.new }
        ensures talk { Hears (L.talk (file_desk_link self.old)) (L.talk (file_desk_link self.new))
            result buf.new }
        ensures empty { length buf.old ≡ 0 → OnOk result (StandsStill L.faults L.wants
            (file_desk_link self.old) (file_desk_link self.new)) }
        ensures cause { HasCause L.faults L.wants L.is_sure (file_desk_link self.old)
            (file_desk_link self.new) result }
        ensures faults { own_faults self.new ≡ own_faults self.old }
        ensures wants { own_wants self.new ≡ own_wants self.old }
    {
        self.link.recv(buf)
    }
}

impl<L: Link + Drop> Desk for FileDesk<L> {
    ghost use Rattle.sip_ports.specs.Edge.{file_desk_link, own_faults, own_wants};

    ghost start = { λ _. None };

    fn load(&mut self, alloc: Global) -> Result<Option<Vec<u8>>, DeskStop>
        ensures bound { IfOk result (λ file. IfSome file
            (λ bytes. length bytes.items ≤ LONGEST_LOAD)) }
        ensures faults { CountsDeskFaults (own_faults self.old) (own_faults self.new) result }
        ensures wants { CountsDeskWants (own_wants self.old) (own_wants self.new) result }
        ensures link { file_desk_link self.new ≡ file_desk_link self.old }
    {
        let answer = self.load_held(alloc);
        self.counted(answer)
    }

    fn replace(&mut self, bytes: &[u8]) -> Result<(), DeskStop>
        ensures free { ¬ IsErrOf result DeskStop.Busy }
        ensures faults { CountsDeskFaults (own_faults self.old) (own_faults self.new) result }
        ensures wants { CountsDeskWants (own_wants self.old) (own_wants self.new) result }
        ensures link { file_desk_link self.new ≡ file_desk_link self.old }
    {
        let answer = self.replace_held(bytes);
        self.counted(answer)
    }
}
