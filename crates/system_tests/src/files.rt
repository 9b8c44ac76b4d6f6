// A blob over a file of the system: what the file holds, its lock, its second opening, what no blob
// is opened over, and the files that are put beside it or in its place.
ghost use Rattle.std.specs.Prelude.{◌≡◌, []};

use disk::{Blob, Error, IoBuf, IoBufs, WriteOptions};
use file::open;
use std::alloc::Global;
use std::test::Fail;
use std::{fs, io};

fn bufs_of(alloc: Global, pieces: &[&[u8]]) -> Result<IoBufs, Error> {
    let mut bufs = IoBufs::new(alloc);
    for piece in pieces {
        bufs.append(IoBuf::copy_from_slice(alloc, piece)?)?;
    }
    Ok(bufs)
}

// A durable write of two buffers, a write that leaves a gap, a cut and a sync, and a write of no
// byte after the end, which fills the gap.
fn change<B: Blob>(alloc: Global, blob: &mut B) -> Result<(), Error>
    requires { (B.life blob.old).present.since ≡ [] }
{
    let durable = WriteOptions {
        sync: true,
        dont_cache: false,
    };
    let plain = WriteOptions::default();
    blob.write_at(0, &bufs_of(alloc, &[b"abc", b"def"])?, durable)?;
    blob.write_at(8, &bufs_of(alloc, &[b"some"])?, plain)?;
    blob.resize(10)?;
    blob.sync()?;
    blob.write_at(12, &bufs_of(alloc, &[])?, plain)
}

// What `change` leaves in the file.
const LEFT: &[u8] = b"abcdef\0\0so\0\0";

// Whether an opening fails, in these words.
fn is_refused(rt: &HostRuntime, path: &str, words: &str) -> io::Result<bool> {
    match open(rt, path) {
        Ok(_) => Ok(false),
        Err(error) => Ok(error.to_string(rt.alloc())?.as_str() == words),
    }
}

// Whether the file is locked against another opening, and against a read.
fn is_locked(rt: &HostRuntime, path: &str) -> io::Result<bool> {
    let is_read = file::read(rt, path).is_ok();
    Ok(!is_read && is_refused(rt, path, "another process has it open: end that one first")?)
}

fn holds(rt: &HostRuntime, path: &str, bytes: &[u8]) -> io::Result<bool> {
    Ok(fs::read(rt, path)?.as_slice() == bytes)
}

// Whether a new file is empty, and after `change` the blob in memory and the file have what it
// leaves, and the file is locked.
fn is_changed(rt: &HostRuntime, path: &str) -> Result<bool, Fail> {
    let mut blob = open(rt, path)?;
    let was_empty = blob.len() == 0;
    change(rt.alloc(), &mut blob)?;
    Ok(was_empty && blob.bytes() == LEFT && holds(rt, path, LEFT)? && is_locked(rt, path)?)
}

fn is_read(rt: &HostRuntime, path: &str, bytes: &[u8]) -> io::Result<bool> {
    Ok(file::read(rt, path)?.bytes() == bytes && open(rt, path)?.bytes() == bytes)
}

// Whether these bytes are put in a file of this name.
fn is_set_aside(rt: &HostRuntime, path: &str, bytes: &[u8], name: &str) -> io::Result<bool> {
    let given = file::set_aside(rt, path, bytes)?;
    Ok(given.as_str() == name && holds(rt, name, bytes)?)
}

// Whether the file is another one with these bytes, which the blob has locked.
fn is_replaced(rt: &HostRuntime, path: &str, bytes: &[u8]) -> io::Result<bool> {
    let blob = file::replace(rt, path, bytes)?;
    Ok(blob.bytes() == bytes && holds(rt, path, bytes)? && is_locked(rt, path)?)
}

#[test]
fn a_file_holds_what_was_written(rt: HostRuntime) -> Result<(), Fail> {
    let path = "file-written.blob";
    let _ = fs::remove_file(&rt, path);
    assert!(rt; is_changed(&rt, path)?);
    assert!(rt; is_read(&rt, path, LEFT)?);
    fs::remove_file(&rt, path)?;
    Ok(())
}

#[test]
fn what_no_blob_is_opened_over(rt: HostRuntime) -> Result<(), Fail> {
    let missing = "No such file or directory (os error 2)";
    assert!(rt; is_refused(&rt, "no-such-folder/a.blob", missing)?);
    assert!(rt; is_refused(&rt, ".", "it is a folder: name a file in it")?);
    let device = "it is a device: name a regular file, or a new one";
    assert!(rt; is_refused(&rt, "/dev/null", device)?);
    // A read makes no file.
    let path = "file-missing.blob";
    assert!(rt; file::read(&rt, path).is_err());
    assert!(rt; !fs::exists(&rt, path)?);
    Ok(())
}

#[test]
fn bytes_are_set_aside_and_replaced(rt: HostRuntime) -> Result<(), Fail> {
    let path = "file-replaced.blob";
    fs::write(&rt, path, b"old".as_slice())?;
    assert!(rt; is_set_aside(&rt, path, b"cut", "file-replaced.blob.cut-1")?);
    assert!(rt; is_set_aside(&rt, path, b"cut again", "file-replaced.blob.cut-2")?);
    assert!(rt; is_replaced(&rt, path, b"new")?);
    assert!(rt; is_read(&rt, path, b"new")?);
    for made in [
        "file-replaced.blob",
        "file-replaced.blob.cut-1",
        "file-replaced.blob.cut-2",
    ] {
        fs::remove_file(&rt, made)?;
    }
    Ok(())
}
