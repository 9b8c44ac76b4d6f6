// What a log is known to have had, by the copy of its manifest.
use crate::ending::{fail, tell};
use crate::log_files::manifest_copy_in;
use crate::log_refusing::Why;
use crate::request::Request;
use crate::status::Status;
use segments::{Error, Known};
use std::fs;

/// What is missing of a log, by the copy of its manifest: `Outdated` where that knows a later
/// segment than the last one, and `Short` where this one had more bytes of frames.
pub fn missing_of(
    rt: &HostRuntime,
    folder: &str,
    last: u64,
    size: u64,
) -> Result<Option<Error>, Status> {
    let path = manifest_copy_in(rt.alloc(), folder)?;
    let Ok(bytes) = fs::read(rt, path.as_str()) else {
        return Ok(None);
    };
    Ok(match Known::of(bytes.as_slice()) {
        Some(known) if last < known.segment => Some(Error::Outdated(known.segment)),
        Some(known) if last == known.segment && size < known.len => Some(Error::Short(last)),
        _ => None,
    })
}

/// Says on standard error what is missing of a log, and answers whether nothing is.
pub fn tell_missing(
    rt: &HostRuntime,
    request: &Request,
    last: u64,
    size: u64,
) -> Result<bool, Status> {
    match missing_of(rt, request.file, last, size)? {
        Some(error) => {
            tell(rt, format_args!("{}: {}", request.file, Why(&error)));
            Ok(false)
        }
        None => Ok(true),
    }
}

/// Takes the copy of the manifest away, so that what it knows doesn't keep the log from being opened.
pub fn forget_copy(rt: &HostRuntime, folder: &str) -> Result<(), Status> {
    let path = manifest_copy_in(rt.alloc(), folder)?;
    match fs::remove_file(rt, path.as_str()) {
        Ok(()) => Ok(()),
        Err(error) => Err(fail(rt, path.as_str(), error)),
    }
}
