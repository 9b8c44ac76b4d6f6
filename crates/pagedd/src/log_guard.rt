// A look at a log before it is opened. Before the opening cuts any of it, a line on standard error
// says what goes, and a copy of what may have been synced is set aside.
use crate::log_durable::{forget_copy, missing_of, tell_missing};
use crate::log_files::{copy_of, manifest_in, open_log, segment_in};
use crate::log_refusing::refuse_log;
use crate::look::{Look, looked, read};
use crate::opening::{Allowed, allow_looked, open};
use crate::request::Request;
use crate::status::Status;
use digest::Digest;
use disk::VecBlob;
use file::FileBlob;
use page::Sum;
use segments::{Error, FolderCopy};
use std::io::ErrorKind;

/// What an opening gives up of the manifest and of the open segment.
#[derive(Drop)]
pub struct GivenUp {
    /// How many bytes it cuts.
    pub cut: u64,
    /// How many bytes go: those that it cuts, and those of a torn last page.
    pub bytes: u64,
    /// The name of the copy that was made of these bytes, if one was. Where the manifest and the
    /// open segment each have a copy, that of the segment.
    pub copy: Option<String>,
}

impl GivenUp {
    /// What an opening gives up of a log whose files are whole.
    pub fn nothing() -> Self {
        GivenUp {
            cut: 0,
            bytes: 0,
            copy: None,
        }
    }
}

/// What an opening of a log gives up, unless the log is refused. A copy of that is set aside, and a
/// line on standard error says what goes. For reading alone the line says what isn't served.
pub fn guard_log<H: Sum, D: Digest>(
    rt: &HostRuntime,
    request: &Request,
) -> Result<GivenUp, Status> {
    let mut given_up = GivenUp::nothing();
    if let Some(kept) = kept_of::<H, D>(rt, request)? {
        let manifest = manifest_in(rt.alloc(), request.file)?;
        let segment = segment_in(rt.alloc(), request.file, kept.number)?;
        guard_file::<H>(rt, request, manifest.as_str(), kept.manifest, &mut given_up)?;
        guard_file::<H>(rt, request, segment.as_str(), kept.segment, &mut given_up)?;
    }
    Ok(given_up)
}

// What an opening keeps of a log.
#[derive(Clone, Copy)]
struct Kept {
    // The number of the open segment.
    number: u64,
    // How many bytes of content the whole frames of the manifest have, and those of that segment.
    manifest: u64,
    segment: u64,
}

// What an opening keeps, by a copy of the log. None where a file isn't there yet, and may be made.
fn kept_of<H: Sum, D: Digest>(rt: &HostRuntime, request: &Request) -> Result<Option<Kept>, Status> {
    let folder = copy_of(rt, request.file)?;
    match open_log::<FolderCopy, VecBlob, H, D>(rt.alloc(), request, folder) {
        Ok(log) => {
            let kept = Kept {
                number: log.last_segment(),
                manifest: log.manifest_size(),
                segment: log.size(),
            };
            refuse_missing(rt, request, kept)?;
            Ok(Some(kept))
        }
        Err(error) if !request.read_only && is_not_found(&error) => Ok(None),
        Err(error) => Err(refuse_log(rt, request, &error)),
    }
}

// Refuses a log of which something is missing, by the copy of its manifest. For reading alone a
// line says so. If the open segment is short, and a cut was asked for, a line says so, and the copy
// goes: the opening keeps another one.
fn refuse_missing(rt: &HostRuntime, request: &Request, kept: Kept) -> Result<(), Status> {
    if request.read_only {
        tell_missing(rt, request, kept.number, kept.segment)?;
        return Ok(());
    }
    match missing_of(rt, request.file, kept.number, kept.segment)? {
        Some(Error::Short(_)) if request.cut => {
            tell_missing(rt, request, kept.number, kept.segment)?;
            forget_copy(rt, request.file)
        }
        Some(error) => Err(refuse_log(rt, request, &error)),
        None => Ok(()),
    }
}

fn is_not_found(error: &Error) -> bool {
    match error {
        Error::System(why) => why.kind() == ErrorKind::NotFound,
        _ => false,
    }
}

// Whether a crash may have left a file so. It may have left one of which nothing is committed yet,
// as the segment that follows one that was closed: so a file of which nothing would be kept isn't
// refused. The page size is right, since the manifest was read with it.
fn may_be_torn(request: &Request, look: &Look) -> bool {
    let survey = look.survey;
    look.cut_len() <= request.cut_limit || survey.beyond == 0 && !look.ends_in_a_frame()
}

// What an opening may give up of a file, which is held meanwhile.
fn allow_file<H: Sum>(rt: &HostRuntime, part: &Request, frames: u64) -> Result<Allowed, Status> {
    let mut blob = open(rt, part.file)?;
    let look = looked::<FileBlob, H>(rt, part, &mut blob)?.with_frames(frames);
    allow_looked(rt, part, blob.bytes(), &look)
}

// Adds to `given_up` what an opening gives up of this file, of whose text `frames` bytes are whole
// frames.
fn guard_file<H: Sum>(
    rt: &HostRuntime,
    request: &Request,
    path: &str,
    frames: u64,
    given_up: &mut GivenUp,
) -> Result<(), Status> {
    let mut part = request.about(path);
    let mut copy = read(rt, path)?;
    let look = looked::<VecBlob, H>(rt, &part, &mut copy)?.with_frames(frames);
    if look.at_stake() == 0 {
        return Ok(());
    }
    part.cut = request.cut || may_be_torn(request, &look);
    let allowed = if request.read_only {
        allow_looked(rt, &part, copy.bytes(), &look)?
    } else {
        allow_file::<H>(rt, &part, frames)?
    };
    given_up.cut = given_up.cut.saturating_add(look.cut_len());
    given_up.bytes = given_up.bytes.saturating_add(allowed.bytes);
    if allowed.copy.is_some() {
        given_up.copy = allowed.copy;
    }
    Ok(())
}
