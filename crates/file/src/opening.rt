// Opening a file, and reading one.
ghost use Rattle.std.specs.Prelude.{◌≡◌, [], pos, ◌<ℤ◌, IfOk, false};
ghost use Rattle.std.specs.Fd.{file_raw_fd};
ghost use Rattle.disk.specs.History.{life_of, begun};
ghost use Rattle.file.specs.declared.opening.OpenError.TheVariants.{System};

use crate::runs::RUN_SIZE;
use crate::{FileBlob, FileHost, Mirror};
use disk::VecBlob;
use std::alloc::Global;
use std::fs::{File, Metadata, OpenOptions, TryLockError};
use std::io::{ErrorKind, Read};
use std::os::fd::AsRawFd;
use std::os::unix::fs::{FileTypeExt, MetadataExt};
use std::path::PathBuf;
use std::{fs, io};

/// Why a file isn't opened.
#[derive(Clone, Copy, Debug, Drop, thiserror::Error)]
pub enum OpenError {
    /// The system, or this library, refused a call that isn't a sync. The file is as it was, or was
    /// made and is empty. It may be opened another time.
    #[error("{0}")]
    System(io::Error),
    /// A sync of the file, or of the folder that has its name, failed. Nobody knows what of the
    /// file is durable, and a later sync may succeed without it. So don't open it again as it is:
    /// put a copy in its place first, by [`rewrite`](crate::rewrite).
    #[error("a sync failed: {0}")]
    Unsynced(io::Error),
}

impl From<io::Error> for OpenError {
    ghost from_gives = { λ x e. e ≡ System x };

    fn from(error: io::Error) -> Self {
        OpenError::System(error)
    }
}

// The system's own error, for callers that hand on no other.
impl From<OpenError> for io::Error {
    fn from(error: OpenError) -> Self {
        match error {
            OpenError::System(error) | OpenError::Unsynced(error) => error,
        }
    }
}

/// Opens a file as a blob, and makes the file where it is missing. The call syncs the file and the
/// folder that has its name, and then reads the file whole. So all of its bytes are durable, and a
/// recovery may follow.
///
/// The file is locked as long as the blob lives. Its descriptor is none of the standard streams',
/// so what the program prints never gets into the file.
///
/// [`OpenError::Unsynced`] where a sync failed, which may have been asked for by an earlier
/// process' writes. [`OpenError::System`] where any other call failed, with an error that says what
/// to do where the system's own words don't:
/// - `IsADirectory`: the path names a folder. `InvalidInput`: it names a fifo, a socket or a
///   device. None of these is opened.
/// - `WouldBlock`: another process has the file open, or has just replaced it.
/// - `OutOfMemory`: memory was refused for the file's bytes, or for the runs that the blob will
///   write. No byte was read.
/// - `UnexpectedEof`: a read ended before the file's end. Nothing was cut.
/// - `Other`, with words about a standard stream: the program began without a standard stream, and
///   the file got that stream's number.
/// - Any other is the system's.
///
/// After an error the file is as it was, or was made and is empty.
pub fn open(rt: &HostRuntime, path: &str) -> Result<FileBlob, OpenError>
    ensures rests { IfOk result (λ blob. let life = life_of blob.kept.history in
        life ≡ begun life.present.readable []) }
    ensures asked { IfOk result (λ blob. blob.asked ≡ []) }
    ensures well { IfOk result (λ blob. blob.kept.stopped ≡ false) }
{
    keep_memory(rt.alloc());
    let mut options = OpenOptions::new();
    options.read(true).write(true).create(true);
    let file = open_locked(rt, path, &options, Lock::Exclusive)?;
    let mut bytes = room_for(rt.alloc(), &file)?;
    let room = room_for_runs(rt.alloc())?;
    let folder = folder_of(rt, path)?;
    sync(&file)?;
    sync(&folder)?;
    read_all(&file, &mut bytes)?;
    let host = FileHost::new(file, &bytes, room);
    Ok(Mirror::new(host, bytes))
}

// Makes what was written to a file, or the names in a folder, durable.
fn sync(file: &File) -> Result<(), OpenError> {
    match file.sync_all() {
        Ok(()) => Ok(()),
        Err(error) => Err(OpenError::Unsynced(error)),
    }
}

// Memory for the runs that a blob will write.
fn room_for_runs(alloc: Global) -> io::Result<Vec<u8>> {
    Ok(Vec::with_capacity(alloc, RUN_SIZE)?)
}

// A block of so many bytes is taken and let go. Each flush takes and lets go less.
const KEPT_SIZE: usize = 1 << 20;

// Has the C library keep memory that is let go: it never gives back less than twice the largest
// block that it got from the system for one request and gave back. The block isn't written, so it
// costs two calls of the system. Without it the memory of each flush may go back to the system.
fn keep_memory(alloc: Global) {
    let _ = Vec::<u8>::with_capacity(alloc, KEPT_SIZE);
}

/// Reads a file into a blob in memory, and changes nothing: the call makes no file and syncs none,
/// and what is done to the blob doesn't reach the file. While the call reads the file it holds a
/// lock on it, which it shares with others who read.
///
/// The errors are those of [`open`], and `NotFound` where there is no file.
pub fn read(rt: &HostRuntime, path: &str) -> io::Result<VecBlob>
    ensures rests { IfOk result (λ blob. let life = life_of blob.history in
        life ≡ begun life.present.readable []) }
    ensures well { IfOk result (λ blob. blob.stopped ≡ false) }
{
    let mut options = OpenOptions::new();
    options.read(true);
    let file = open_locked(rt, path, &options, Lock::Shared)?;
    let mut bytes = room_for(rt.alloc(), &file)?;
    read_all(&file, &mut bytes)?;
    Ok(VecBlob::from_vec(bytes))
}

/// Whether a lock is shared.
#[derive(Clone, Copy)]
pub enum Lock {
    /// The lock is shared with nobody.
    Exclusive,
    /// The lock is shared with others who ask for this one.
    Shared,
}

// Opens a regular file, and locks it. The path is looked at first, since opening a fifo may wait.
pub fn open_locked(
    rt: &HostRuntime,
    path: &str,
    options: &OpenOptions,
    lock: Lock,
) -> io::Result<File>
    ensures beyond { IfOk result (λ file. pos 2 <ℤ file_raw_fd file) }
{
    match fs::metadata(rt, path) {
        Ok(found) => check_regular(&found)?,
        Err(error) if error.kind() == ErrorKind::NotFound => {}
        Err(error) => return Err(error),
    }
    let file = beyond_streams(options.open(rt, path)?)?;
    check_regular(&file.metadata()?)?;
    take_lock(&file, lock)?;
    check_named(rt, path, &file)?;
    Ok(file)
}

// A file with a descriptor past the standard streams'. A program that began without its standard
// output gives that number to the next file that it opens, and then prints into that file.
pub fn beyond_streams(file: File) -> io::Result<File>
    ensures beyond { IfOk result (λ file. pos 2 <ℤ file_raw_fd file) }
{
    if file.as_raw_fd() > 2 {
        return Ok(file);
    }
    let beyond = file.try_clone()?;
    if beyond.as_raw_fd() > 2 {
        return Ok(beyond);
    }
    let words = "its descriptor is a standard stream's: begin the program with them open";
    Err(io::Error::other(words))
}

fn check_regular(found: &Metadata) -> io::Result<()> {
    let kind = found.file_type();
    if kind.is_file() {
        return Ok(());
    }
    if kind.is_dir() {
        let words = "it is a folder: name a file in it";
        return Err(io::Error::new(ErrorKind::IsADirectory, words));
    }
    let words = if kind.is_fifo() {
        "it is a fifo: name a regular file, or a new one"
    } else if kind.is_socket() {
        "it is a socket: name a regular file, or a new one"
    } else {
        "it is a device: name a regular file, or a new one"
    };
    Err(io::Error::new(ErrorKind::InvalidInput, words))
}

pub fn take_lock(file: &File, lock: Lock) -> io::Result<()> {
    let locked = match lock {
        Lock::Exclusive => file.try_lock(),
        Lock::Shared => file.try_lock_shared(),
    };
    match locked {
        Ok(()) => Ok(()),
        Err(TryLockError::WouldBlock) => {
            let words = "another process has it open: end that one first";
            Err(io::Error::new(ErrorKind::WouldBlock, words))
        }
        Err(TryLockError::Error(error)) => Err(error),
    }
}

// Fails where the path no longer names this file. Whoever replaces a file renames another over it,
// so this one was locked too late then.
fn check_named(rt: &HostRuntime, path: &str, file: &File) -> io::Result<()> {
    let named = fs::metadata(rt, path)?;
    let opened = file.metadata()?;
    if named.dev() == opened.dev() && named.ino() == opened.ino() {
        return Ok(());
    }
    let words = "another process has just replaced it: open it again";
    Err(io::Error::new(ErrorKind::WouldBlock, words))
}

// Memory for all bytes of a file, and for one byte more, so that a read at their end needs none.
pub fn room_for(alloc: Global, file: &File) -> io::Result<Vec<u8>> {
    let len = file.metadata()?.len();
    match Vec::with_capacity(alloc, (len as usize).saturating_add(1)) {
        Ok(room) => Ok(room),
        Err(_) => {
            let words = "there is no memory for all of its bytes";
            Err(io::Error::new(ErrorKind::OutOfMemory, words))
        }
    }
}

// Reads all bytes of a file, or fails: after a read that ends early a recovery would cut bytes that
// are there.
pub fn read_all(mut file: &File, bytes: &mut Vec<u8>) -> io::Result<()> {
    file.read_to_end(bytes)?;
    if file.metadata()?.len() == bytes.len() as u64 {
        return Ok(());
    }
    let words = "not all of its bytes were read: open it again";
    Err(io::Error::new(ErrorKind::UnexpectedEof, words))
}

// Makes the name of a file durable: syncs the folder that has it.
pub fn sync_folder(rt: &HostRuntime, path: &str) -> io::Result<()> {
    folder_of(rt, path)?.sync_all()
}

// The folder that has the name of a file.
fn folder_of(rt: &HostRuntime, path: &str) -> io::Result<File> {
    let mut folder: PathBuf = fs::canonicalize(rt, path)?;
    folder.pop();
    File::open(rt, folder.as_str())
}
