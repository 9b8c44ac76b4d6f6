// The hosts that a mirror passes its calls on to.
ghost use Rattle.std.specs.Prelude.{◌≡◌, ◌∷◌, [], ◌++◌, List, false, pos, ◌<ℤ◌};
ghost use Rattle.std.specs.Fd.{file_raw_fd};
ghost use Rattle.std.specs.List.{concat};
ghost use Rattle.disk.specs.declared.action.Action.TheVariants as actions;
ghost use Rattle.disk.specs.declared.action.Event.{Event};
ghost use Rattle.file.specs.Asked.{outcome};

use crate::runs::put_runs;
use disk::{IoBufs, Past};
use std::fs::File;
use std::io;
use std::marker::Model;
use std::snapshot::Snapshot;

/// What holds a blob's bytes for good. No clause says what a host does with them: each says only
/// that the call, done or failed, is the last thing that the host was asked for.
pub trait Host {
    /// What the host was asked for so far, and which calls failed.
    ghost asked: { Self → List Event };

    /// Writes the bytes of the buffers, one after the other, from byte `offset` on. A gap after the
    /// end is filled with zeros, also where the buffers have no byte. After an error any part of
    /// this may be done.
    fn put(&mut self, offset: u64, bufs: &IoBufs) -> io::Result<()>
        ensures asked { let action = actions.Write offset (concat bufs.now) false in
            asked self.new ≡ asked self.old ++ outcome action result ∷ [] };

    /// Cuts what the host holds to `len` bytes, or fills it with zeros up to `len`.
    fn set_len(&mut self, len: u64) -> io::Result<()>
        ensures asked { asked self.new
            ≡ asked self.old ++ outcome (actions.Resize len) result ∷ [] };

    /// Makes all that the host holds durable.
    fn sync(&mut self) -> io::Result<()>
        ensures asked { asked self.new ≡ asked self.old ++ outcome actions.Sync result ∷ [] };
}

/// A file of the system as a host.
///
/// No proof shows that the file does what it is asked for: read the three calls below for that. The
/// ghost record in each of them says only that the file was asked. It is proved that the bytes of a
/// write go out in runs, each at its place.
#[derive(Drop)]
pub struct FileHost {
    file: File,
    gathered: Vec<u8>,
    past: Snapshot<Past>,
}

impl Model for FileHost {
    ghost use Rattle.std.specs.Prelude.{List};
    ghost use Rattle.disk.specs.declared.action.Event.{Event};

    ghost Value = { List Event };

    ghost view = { λ h. h.past.value.events };
}

impl FileHost {
    /// A host over a file that holds these bytes, and was asked for nothing yet. The file's
    /// descriptor must be none of the standard streams', since what is printed there would get into
    /// the file. Buffers are gathered in `room` into runs of at most its capacity, and each run is
    /// written by one call. A buffer at least as long as that capacity is written alone.
    /// [`crate::RUN_SIZE`] is a capacity that serves.
    pub fn new(file: File, bytes: &Vec<u8>, room: Vec<u8>) -> Self
        requires beyond { pos 2 <ℤ file_raw_fd file }
        ensures { result ≡ [] }
    {
        FileHost {
            file,
            gathered: room,
            past: Past::begun(bytes),
        }
    }
}

impl Host for FileHost {
    ghost asked = { λ h. h };

    fn put(&mut self, offset: u64, bufs: &IoBufs) -> io::Result<()> {
        let result = if bufs.is_empty() {
            fill(&self.file, offset)
        } else {
            put_runs(&mut self.file, &mut self.gathered, offset, bufs.as_slice())
        };
        self.past = Past::write(&self.past, offset, bufs, false, result.is_err());
        result
    }

    fn set_len(&mut self, len: u64) -> io::Result<()> {
        let result = self.file.set_len(len);
        self.past = Past::resize(&self.past, len, result.is_err());
        result
    }

    fn sync(&mut self) -> io::Result<()> {
        let result = self.file.sync_all();
        self.past = Past::sync(&self.past, result.is_err());
        result
    }
}

// A write of no byte leaves a file's end where it is, so a gap before `len` is filled here.
fn fill(file: &File, len: u64) -> io::Result<()> {
    if file.metadata()?.len() < len {
        file.set_len(len)?;
    }
    Ok(())
}
