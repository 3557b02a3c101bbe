// Ports over files: the ports over readers and writers, at a file.
use crate::reader_source::ReaderSource;
use crate::two_way::TwoWayLink;
use crate::writer_sink::WriterSink;
use std::fs::File;

/// The bytes of a file, read through a buffer of its own. Where the file could not be opened, every
/// call fails.
pub type FileSource = ReaderSource<File>;

/// A file to write. Where it could not be opened, every call fails.
pub type FileSink = WriterSink<File>;

/// A file to hear, read through a buffer of its own, and a file to write. Where one could not be
/// opened, its calls fail.
pub type FileLink = TwoWayLink<File, File>;
