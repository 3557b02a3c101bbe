//! Files that are opened when they are first used.

ghost use Rattle.std.specs.Prelude.{◌≡◌, IfSome, None, Some};
ghost use Rattle.sip_words.specs.Plan.{file_name};

use crate::{emptied, opened};
use sip_advice::{Trouble, Unopened};
use sip_ports::{StderrSink, write_whole};
use sip_words::{Opening, Words};
use std::fs::{self, File, OpenOptions};
use std::io::{self, ErrorKind, Read, Write};
use std::os::unix::fs::FileTypeExt;

/// A file of a name, and the line on standard error that says that it is opened, if it is to be
/// said. That this could not be written changes nothing.
#[derive(Drop)]
struct LateFile<'a> {
    rt: HostRuntime,
    name: &'a str,
    line: Option<&'static str>,
    file: Option<File>,
}

impl<'a> LateFile<'a> {
    /// The file that an opening is on, which is not opened; `None` where it is on none.
    fn of(
        rt: &HostRuntime,
        words: &'a Words,
        opening: Opening,
        line: Option<&'static str>,
    ) -> Option<LateFile<'a>>
        ensures none { file_name opening words.now ≡ None → result ≡ None }
        ensures name { IfSome result (λ late. file_name opening words.now ≡ Some late.name.now) }
    {
        let name = opening.name(words)?;
        Some(LateFile {
            rt: *rt,
            name,
            line,
            file: None,
        })
    }

    /// Says that the file is opened.
    fn say(&self) {
        if let Some(line) = self.line {
            let _ = write_whole(&mut StderrSink::new(self.rt.stderr()), line.as_bytes());
        }
    }

    /// Opens the file to be read, where that was not done.
    #[inline(never)]
    fn open(&mut self) -> io::Result<()> {
        if self.file.is_none() {
            self.say();
            self.file = Some(File::open(&self.rt, self.name)?);
        }
        Ok(())
    }

    /// Makes or empties the file, where that was not done.
    #[inline(never)]
    fn make(&mut self) -> io::Result<()> {
        if self.file.is_none() {
            self.say();
            self.file = Some(File::create(&self.rt, self.name)?);
        }
        Ok(())
    }
}

/// A file that is opened when it is first read: until then it may be made and may grow.
#[derive(Drop)]
pub(crate) struct LateReader<'a> {
    late: LateFile<'a>,
}

impl<'a> LateReader<'a> {
    /// The file that an opening is on; `None` where it is on none.
    pub(crate) fn of(
        rt: &HostRuntime,
        words: &'a Words,
        opening: Opening,
        line: Option<&'static str>,
    ) -> Option<LateReader<'a>>
        ensures { file_name opening words.now ≡ None → result ≡ None }
    {
        let late = LateFile::of(rt, words, opening, line)?;
        Some(LateReader { late })
    }
}

impl<'a> Read for LateReader<'a> {
    fn read(&mut self, buf: &mut [u8]) -> io::Result<usize> {
        self.late.open()?;
        match &mut self.late.file {
            Some(file) => file.read(buf),
            None => Err(io::Error::from(ErrorKind::NotFound)),
        }
    }
}

/// A file that is read a second time: it has to be a regular one, since another has no bytes any
/// more.
#[derive(Drop)]
pub(crate) struct AgainReader<'a> {
    reader: LateReader<'a>,
}

impl<'a> AgainReader<'a> {
    /// Reads a file from its begin, whatever was read of it before.
    pub(crate) fn new(reader: LateReader<'a>) -> AgainReader<'a> {
        AgainReader { reader }
    }
}

impl<'a> Read for AgainReader<'a> {
    fn read(&mut self, buf: &mut [u8]) -> io::Result<usize> {
        let late = &self.reader.late;
        if late.file.is_none() && !fs::metadata(&late.rt, late.name)?.is_file() {
            return Err(io::Error::from(ErrorKind::NotFound));
        }
        self.reader.read(buf)
    }
}

/// A file that is made or emptied when it is first written: until then it is as it was.
#[derive(Drop)]
pub(crate) struct LateWriter<'a> {
    late: LateFile<'a>,
}

impl<'a> LateWriter<'a> {
    /// The file that an opening is on; `None` where it is on none.
    pub(crate) fn of(
        rt: &HostRuntime,
        words: &'a Words,
        opening: Opening,
        line: Option<&'static str>,
    ) -> Option<LateWriter<'a>>
        ensures { file_name opening words.now ≡ None → result ≡ None }
    {
        let late = LateFile::of(rt, words, opening, line)?;
        Some(LateWriter { late })
    }
}

impl<'a> Write for LateWriter<'a> {
    fn write(&mut self, buf: &[u8]) -> io::Result<usize> {
        self.late.make()?;
        match &mut self.late.file {
            Some(file) => file.write(buf),
            None => Err(io::Error::from(ErrorKind::NotFound)),
        }
    }

    fn flush(&mut self) -> io::Result<()> {
        Ok(())
    }
}

/// Whether an opening is on a FIFO, which is not looked at again: to open it waits for its other
/// end.
fn is_fifo(rt: &HostRuntime, words: &Words, opening: &Opening) -> bool {
    let Some(name) = opening.name(words) else {
        return false;
    };
    match fs::metadata(rt, name) {
        Ok(told) => told.file_type().is_fifo(),
        Err(_) => false,
    }
}

/// Notes why a file could not be read, as far as a second look tells.
#[inline(never)]
pub(crate) fn look_again(
    rt: &HostRuntime,
    words: &Words,
    opening: Opening,
    note: &mut Option<Unopened>,
) {
    if note.is_none() && !is_fifo(rt, words, &opening) {
        let _ = opened(rt, words, opening, note);
    }
}

/// Notes why a file could not be written, as far as a second look tells. What is there is not
/// emptied by that.
#[inline(never)]
pub(crate) fn look_again_to(
    rt: &HostRuntime,
    words: &Words,
    opening: Opening,
    note: &mut Option<Unopened>,
) {
    let Some(name) = opening.name(words) else {
        return;
    };
    if note.is_some() || is_fifo(rt, words, &opening) {
        return;
    }
    match OpenOptions::new().write(true).open(rt, name) {
        Ok(_) => {}
        Err(error) if error.kind() == ErrorKind::NotFound => {
            let _ = emptied(rt, words, opening, note);
        }
        Err(error) => *note = Unopened::of(opening, Trouble::of(&error)),
    }
}
