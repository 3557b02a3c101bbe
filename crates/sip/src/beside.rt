//! Whether a file is the one of a sketch, or one that a run has beside it.

use crate::ends::named_file;
use sip_words::FileId;
use std::fs::Files;
use std::path::Path;

/// How many links a path may lead through: as many as the system follows.
const MOST_LINKS: u32 = 40;

/// The folder that a path is in.
fn folder_of(path: &str) -> &str {
    match Path::new(path).parent() {
        Some(folder) if !folder.as_str().is_empty() => folder.as_str(),
        _ => ".",
    }
}

/// The path that a link has, where it leads nowhere; `None` where there is no link.
fn led_on(rt: &HostRuntime, path: &str) -> Option<String> {
    let link = rt.read_link(rt.alloc(), path).ok()?;
    let path = Path::new(folder_of(path))
        .join(rt.alloc(), link.as_str())
        .ok()?;
    Some(path.into_string())
}

/// The name of the file that would be made by this path, which is no link.
fn made_by(rt: &HostRuntime, path: &str) -> Option<String> {
    let name = Path::new(path).file_name()?;
    let folder = rt.canonicalize(rt.alloc(), folder_of(path)).ok()?;
    format!(in rt.alloc(); "{}/{name}", folder.as_str()).ok()
}

/// The name of the file that a path leads to, or would make; `None` where there is no such folder,
/// or where memory is refused.
#[inline(never)]
fn landing(rt: &HostRuntime, path: &str) -> Option<String> {
    let mut path = path.to_string(rt.alloc()).ok()?;
    for _ in 0..MOST_LINKS {
        if let Ok(name) = rt.canonicalize(rt.alloc(), path.as_str()) {
            return Some(name.into_string());
        }
        match led_on(rt, path.as_str()) {
            Some(next) => path = next,
            None => return made_by(rt, path.as_str()),
        }
    }
    None
}

/// Whether TO would be made where the sketch is, or a file that a run has beside it.
#[inline(never)]
pub(crate) fn is_beside(rt: &HostRuntime, sketch: &str, to: &str) -> bool {
    match (landing(rt, sketch), landing(rt, to)) {
        (Some(sketch), Some(to)) => match to.as_str().strip_prefix(sketch.as_str()) {
            Some(rest) => matches!(rest, "" | ".lock" | ".new"),
            None => false,
        },
        _ => false,
    }
}

/// The regular file that stands beside the sketch, whose name ends so.
pub(crate) fn stands_beside(rt: &HostRuntime, sketch: &str, end: &str) -> Option<FileId> {
    let name = landing(rt, sketch)?;
    let name = format!(in rt.alloc(); "{}{end}", name.as_str()).ok()?;
    named_file(rt, name.as_str())
}
