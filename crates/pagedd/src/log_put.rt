// Files of a log that are written whole, before they have their names.
use crate::ending::fail;
use crate::status::Status;
use std::fs::{self, File, OpenOptions};
use std::io::{self, Write};
use std::path::PathBuf;

/// Writes a file with these bytes, durably. A file that is there gets them instead.
pub fn write_file(rt: &HostRuntime, path: &str, bytes: &[u8]) -> Result<(), Status> {
    match write_synced(rt, path, bytes) {
        Ok(()) => Ok(()),
        Err(error) => {
            let _ = fs::remove_file(rt, path);
            Err(fail(rt, path, error))
        }
    }
}

fn write_synced(rt: &HostRuntime, path: &str, bytes: &[u8]) -> io::Result<()> {
    let mut options = OpenOptions::new();
    options.write(true).create(true).truncate(true);
    let mut file = options.open(rt, path)?;
    file.write_all(bytes)?;
    file.sync_all()
}

/// Gives a file that was written its name.
pub fn name_file(rt: &HostRuntime, from: &str, to: &str) -> Result<(), Status> {
    match fs::rename(rt, from, to) {
        Ok(()) => Ok(()),
        Err(error) => Err(fail(rt, to, error)),
    }
}

/// Makes the names in a folder durable.
pub fn sync_names(rt: &HostRuntime, folder: &str) -> Result<(), Status> {
    match sync(rt, folder) {
        Ok(()) => Ok(()),
        Err(error) => Err(fail(rt, folder, error)),
    }
}

fn sync(rt: &HostRuntime, folder: &str) -> io::Result<()> {
    File::open(rt, folder)?.sync_all()
}

/// Makes the names durable in the folder above a path.
pub fn sync_above(rt: &HostRuntime, path: &str) -> io::Result<()> {
    let mut above: PathBuf = fs::canonicalize(rt, path)?;
    above.pop();
    sync(rt, above.as_str())
}
