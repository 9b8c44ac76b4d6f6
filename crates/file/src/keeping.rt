// A file that is to hold just some bytes.
use crate::opening::{Lock, open_locked, read_all, room_for, sync_folder};
use std::fs::OpenOptions;
use std::os::unix::fs::FileExt;
use std::{fs, io};

/// Makes the file at a path hold just these bytes, and makes that durable. The file is made where it
/// is missing, and isn't written where it holds these bytes already. It is written in place, so that
/// the call needs no room on the disk unless the bytes are more than the file holds.
///
/// The errors are those of [`open`](crate::open). After an error the file may hold anything, also
/// where a crash ends the call.
pub fn keep(rt: &HostRuntime, path: &str, bytes: &[u8]) -> io::Result<()> {
    let is_new = !fs::exists(rt, path)?;
    let mut options = OpenOptions::new();
    options.read(true).write(true).create(true);
    let file = open_locked(rt, path, &options, Lock::Exclusive)?;
    let mut held = room_for(rt.alloc(), &file)?;
    read_all(&file, &mut held)?;
    if held.as_slice() != bytes {
        file.write_all_at(bytes, 0)?;
        file.set_len(bytes.len() as u64)?;
    }
    file.sync_all()?;
    if is_new {
        sync_folder(rt, path)?;
    }
    Ok(())
}
