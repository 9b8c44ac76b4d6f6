// Putting a copy of a file in its place, after a sync of it failed. A later sync of the same file may
// succeed without what was written before; one of a new file with the same bytes doesn't.
use crate::ending::{fail, or_end};
use crate::log_files::{is_folder, is_list, is_segment, manifest_copy_in, manifest_in};
use crate::request::Request;
use crate::status::Status;
use file::FileBlob;
use std::alloc::Global;
use std::fs::DirEntry;
use std::io::ErrorKind;
use std::{fmt, fs, io};

/// What is said of a file, or of a log, of which a sync failed: how to go on.
#[derive(Clone, Copy)]
pub struct Unsynced<'a>(pub &'a str);

impl fmt::Display for Unsynced<'_> {
    fn fmt<W: fmt::Write>(&self, f: &mut fmt::Formatter<W>) -> fmt::Result {
        write!(
            f,
            "a sync failed, and a later one may succeed without what was written: before it is \
             opened again, 'pagedd rewrite {}' puts a copy in its place",
            self.0
        )
    }
}

/// Puts a copy of a file, or of each file of a log in a folder, in its place. Each copy is synced,
/// and a line says so. A file that another process has open is refused.
pub fn rewrite(rt: &HostRuntime, request: &Request) -> Result<Status, Status> {
    if is_folder(rt, request.file) {
        rewrite_log(rt, request.file)?;
    } else {
        rewrite_file(rt, request.file)?;
    }
    Ok(Status::Done)
}

// Puts a copy of a file in its place, and answers the copy, which is locked as long as it lives.
fn rewrite_file(rt: &HostRuntime, path: &str) -> Result<FileBlob, Status> {
    match file::rewrite(rt, path) {
        Ok(blob) => {
            let len = blob.bytes().len();
            or_end(
                rt,
                println!(rt; "{path}: a copy of its {len} bytes is in its place"),
            )?;
            Ok(blob)
        }
        Err(error) => Err(fail(rt, path, error)),
    }
}

// Rewrites the files of a log. The manifest comes first, and stays locked until the last file is
// done: whoever serves the log has it open.
fn rewrite_log(rt: &HostRuntime, folder: &str) -> Result<(), Status> {
    let manifest = manifest_in(rt.alloc(), folder)?;
    if !fs::exists(rt, manifest.as_str()).unwrap_or(true) {
        return Err(fail(
            rt,
            folder,
            "there is no log in it, since it has no manifest",
        ));
    }
    let _held = rewrite_file(rt, manifest.as_str())?;
    let copy = manifest_copy_in(rt.alloc(), folder)?;
    if fs::exists(rt, copy.as_str()).unwrap_or(true) {
        rewrite_file(rt, copy.as_str())?;
    }
    for name in names_in(rt, folder)? {
        let path = format!(in rt.alloc(); "{folder}/{name}")?;
        rewrite_file(rt, path.as_str())?;
    }
    Ok(())
}

// The names of the files of segments and of their lists in a folder, the oldest first.
fn names_in(rt: &HostRuntime, folder: &str) -> Result<Vec<String>, Status> {
    match read_names(rt, folder) {
        Ok(mut names) => {
            names.sort()?;
            Ok(names)
        }
        Err(error) => Err(fail(rt, folder, error)),
    }
}

fn read_names(rt: &HostRuntime, folder: &str) -> io::Result<Vec<String>> {
    let mut names = Vec::new(rt.alloc());
    for entry in fs::read_dir(rt, folder)? {
        if let Some(name) = name_of(rt.alloc(), entry)? {
            names.push(name)?;
        }
    }
    Ok(names)
}

// The name of the file that an entry of a folder is, if that is one of a segment or of a list.
fn name_of(alloc: Global, entry: io::Result<DirEntry>) -> io::Result<Option<String>> {
    let entry = match entry {
        Ok(entry) => entry,
        Err(error) if error.kind() == ErrorKind::InvalidFilename => return Ok(None),
        Err(error) => return Err(error),
    };
    if is_segment(entry.file_name()) || is_list(entry.file_name()) {
        return Ok(Some(String::from_str(alloc, entry.file_name())?));
    }
    Ok(None)
}
