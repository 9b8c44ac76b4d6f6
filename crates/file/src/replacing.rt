// New files beside a blob's file: one that takes its place, and one for bytes that are to be cut.
ghost use Rattle.std.specs.Prelude.{◌≡◌, [], pos, ◌<ℤ◌, IfOk, false, codes, string_bytes};
ghost use Rattle.std.specs.Fd.{file_raw_fd};
ghost use Rattle.disk.specs.History.{life_of, begun};
ghost use Rattle.file.specs.Names.{IsNumbered};

use crate::opening::{
    Lock, beyond_streams, open_locked, read_all, room_for, sync_folder, take_lock,
};
use crate::runs::RUN_SIZE;
use crate::{FileBlob, FileHost, Mirror};
use std::fs::{File, OpenOptions, Permissions};
use std::io::ErrorKind;
use std::os::unix::fs::{FileExt, OpenOptionsExt};
use std::path::PathBuf;
use std::{fs, io};

/// Puts a new file with these bytes in the place of an old one, and answers the new one, opened as
/// a blob. It serves after a failed sync, and for a compaction.
///
/// The new file stands beside the old one, as `PATH.new-N` with the first N from 1 that is free. It
/// gets the old one's permissions, is locked, written and synced, and is then renamed over the old
/// one. Last the folder is synced. Where the path is a link, the file that the link leads to is
/// replaced.
///
/// Drop a blob over the old file first: it holds the lock, which this call takes too. What another
/// process wrote to the old file after these bytes were read from it is gone.
///
/// After an error the path names the old file, untouched. Only where the folder's sync failed it
/// names the new one, whole. What is left of `PATH.new-N` is removed, if the system allows it. The
/// errors are those of [`open`](crate::open), and `NotFound` where there is no old file.
pub fn replace(rt: &HostRuntime, path: &str, bytes: &[u8]) -> io::Result<FileBlob>
    ensures life { IfOk result (λ blob. life_of blob.kept.history ≡ begun bytes.now []) }
    ensures asked { IfOk result (λ blob. blob.asked ≡ []) }
    ensures well { IfOk result (λ blob. blob.kept.stopped ≡ false) }
{
    let kept = Vec::from_slice(rt.alloc(), bytes)?;
    let room = Vec::with_capacity(rt.alloc(), RUN_SIZE)?;
    let place: PathBuf = fs::canonicalize(rt, path)?;
    let old = open_old(rt, place.as_str())?;
    put_in_place(rt, place.as_str(), old, kept, room)
}

/// Puts a copy of a file in its place, and answers the copy, opened as a blob: [`replace`] with the
/// file's own bytes. The file stays locked from the read on, so no other process writes to it
/// meanwhile. It serves after a failed sync.
///
/// After an error the path names the old file, untouched, or the copy, whole, as after that of
/// [`replace`]. The errors are the same.
pub fn rewrite(rt: &HostRuntime, path: &str) -> io::Result<FileBlob>
    ensures rests { IfOk result (λ blob. let life = life_of blob.kept.history in
        life ≡ begun life.present.readable []) }
    ensures asked { IfOk result (λ blob. blob.asked ≡ []) }
    ensures well { IfOk result (λ blob. blob.kept.stopped ≡ false) }
{
    let room = Vec::with_capacity(rt.alloc(), RUN_SIZE)?;
    let place: PathBuf = fs::canonicalize(rt, path)?;
    let old = open_old(rt, place.as_str())?;
    let mut bytes = room_for(rt.alloc(), &old)?;
    read_all(&old, &mut bytes)?;
    put_in_place(rt, place.as_str(), old, bytes, room)
}

// Opens the file that is to be replaced, and locks it.
fn open_old(rt: &HostRuntime, path: &str) -> io::Result<File> {
    let mut options = OpenOptions::new();
    options.read(true);
    open_locked(rt, path, &options, Lock::Exclusive)
}

// Puts a new file with these bytes in the place of the old one at a path, which is locked.
fn put_in_place(
    rt: &HostRuntime,
    path: &str,
    old: File,
    kept: Vec<u8>,
    room: Vec<u8>,
) -> io::Result<FileBlob>
    ensures life { IfOk result (λ blob. life_of blob.kept.history ≡ begun kept.items []) }
    ensures asked { IfOk result (λ blob. blob.asked ≡ []) }
    ensures well { IfOk result (λ blob. blob.kept.stopped ≡ false) }
{
    let Beside { file, name } = write_beside(rt, path, "new", &kept)?;
    if let Err(error) = fs::rename(rt, &name, path) {
        let _ = fs::remove_file(rt, &name);
        return Err(error);
    }
    sync_folder(rt, path)?;
    drop(old);
    let host = FileHost::new(file, &kept, room);
    Ok(Mirror::new(host, kept))
}

/// Writes these bytes to a new file `PATH.cut-N`, with the first N from 1 that is free, and answers
/// the new file's name. So what a recovery is about to cut from the file at the path isn't lost.
/// The new file gets the permissions of the file at the path. The new file and the folder are
/// synced.
///
/// After an error no file of the new name is left, if the system allows its removal. Only where the
/// folder's sync failed the new file stands, and is whole. The file at the path is never changed.
pub fn set_aside(rt: &HostRuntime, path: &str, bytes: &[u8]) -> io::Result<String>
    ensures name { IfOk result (λ name.
        IsNumbered path.now (codes "cut") (string_bytes name)) }
{
    let beside = write_beside(rt, path, "cut", bytes)?;
    sync_folder(rt, &beside.name)?;
    Ok(beside.name)
}

// A file that was made beside another.
#[derive(Drop)]
struct Beside {
    file: File,
    name: String,
}

// Makes a file beside the one at the path, with that one's permissions and these bytes. The new
// file is locked and synced.
fn write_beside(rt: &HostRuntime, path: &str, word: &str, bytes: &[u8]) -> io::Result<Beside>
    ensures beyond { IfOk result (λ new. pos 2 <ℤ file_raw_fd new.file) }
    ensures name { IfOk result (λ new. IsNumbered path.now word.now (string_bytes new.name)) }
{
    let permissions = fs::metadata(rt, path)?.permissions();
    let Beside { file, name } = make_beside(rt, path, word)?;
    match filled(file, permissions, bytes) {
        Ok(file) => Ok(Beside { file, name }),
        Err(error) => {
            let _ = fs::remove_file(rt, &name);
            Err(error)
        }
    }
}

// Makes an empty file beside the one at the path, which nobody but its owner may read.
fn make_beside(rt: &HostRuntime, path: &str, word: &str) -> io::Result<Beside>
    ensures name { IfOk result (λ new. IsNumbered path.now word.now (string_bytes new.name)) }
{
    let mut options = OpenOptions::new();
    options.read(true).write(true).create_new(true).mode(0o600);
    for number in 1..u64::MAX {
        let name = format!(in rt.alloc(); "{path}.{word}-{number}")?;
        match options.open(rt, &name) {
            Ok(file) => return Ok(Beside { file, name }),
            Err(error) if error.kind() == ErrorKind::AlreadyExists => {}
            Err(error) => return Err(error),
        }
    }
    Err(ErrorKind::AlreadyExists.into())
}

fn filled(file: File, permissions: Permissions, bytes: &[u8]) -> io::Result<File>
    ensures beyond { IfOk result (λ file. pos 2 <ℤ file_raw_fd file) }
{
    let file = beyond_streams(file)?;
    take_lock(&file, Lock::Exclusive)?;
    file.set_permissions(permissions)?;
    file.write_all_at(bytes, 0)?;
    file.sync_all()?;
    Ok(file)
}
