// A folder in memory, and a file in it as a host.
ghost use Rattle.std.specs.Prelude.{◌≡◌, [], ◌∷◌, ◌++◌, IfOk, length};
ghost use Rattle.disk.specs.History.{life_of};
ghost use Rattle.paged.specs.Recovery.{IsDurable};
ghost use Rattle.segments.specs.FolderEvents.{plain_event, opening_outcome};
ghost use Rattle.segments.specs.Folders.{call_for};

use crate::files::{Files, Name};
use disk::{IoBufs, Past, VecBlob};
use file::{Host, Mirror, OpenError};
use page_digests::{Source, SourcePast};
use segments::{Asked, Folder, FolderCall, FolderPast, Known, SegmentLevels};
use std::cell::{RefCell, RefMut};
use std::io;
use std::io::ErrorKind;
use std::marker::Model;
use std::rc::Rc;
use std::snapshot::Snapshot;

/// Files that a folder and the blobs over its files have in common.
pub type Shared = Rc<RefCell<Files>>;

/// The files, for one call.
pub fn lent(files: &Shared) -> io::Result<RefMut<'_, Files>> {
    match files.try_borrow_mut() {
        Ok(files) => Ok(files),
        Err(_) => Err(ErrorKind::ResourceBusy.into()),
    }
}

/// A file in memory as a host.
#[derive(Drop)]
pub struct MemoryHost {
    files: Shared,
    name: Name,
    past: Snapshot<Past>,
}

impl Model for MemoryHost {
    ghost use Rattle.std.specs.Prelude.{List};
    ghost use Rattle.disk.specs.declared.action.Event.{Event};

    ghost Value = { List Event };

    ghost view = { λ h. h.past.value.events };
}

impl MemoryHost {
    // A host over a file that holds these bytes.
    fn new(files: Shared, name: Name, bytes: &Vec<u8>) -> Self
        ensures { result ≡ [] }
    {
        MemoryHost {
            files,
            name,
            past: Past::begun(bytes),
        }
    }
}

impl Host for MemoryHost {
    ghost asked = { λ h. h };

    fn put(&mut self, offset: u64, bufs: &IoBufs) -> io::Result<()> {
        let result = match lent(&self.files) {
            Ok(mut files) => files.put(self.name, offset, bufs),
            Err(error) => Err(error),
        };
        self.past = Past::write(&self.past, offset, bufs, false, result.is_err());
        result
    }

    fn set_len(&mut self, len: u64) -> io::Result<()> {
        let result = match lent(&self.files) {
            Ok(mut files) => files.set_len(self.name, len),
            Err(error) => Err(error),
        };
        self.past = Past::resize(&self.past, len, result.is_err());
        result
    }

    fn sync(&mut self) -> io::Result<()> {
        let result = match lent(&self.files) {
            Ok(mut files) => files.sync(self.name),
            Err(error) => Err(error),
        };
        self.past = Past::sync(&self.past, result.is_err());
        result
    }
}

/// A blob over a file in memory.
pub type MemoryFile = Mirror<MemoryHost>;

/// A file in memory of which ranges are read, each as the file is then.
#[derive(Drop)]
pub struct MemorySource {
    files: Shared,
    name: Name,
    past: Snapshot<SourcePast>,
}

impl Model for MemorySource {
    ghost use Rattle.std.specs.Prelude.{List};
    ghost use Rattle.page_digests.specs.Sources.{SourceRead};

    ghost Value = { List SourceRead };

    ghost view = { λ s. s.past.value };
}

impl MemorySource {
    // A file of which nothing was read yet. `NotFound` where it is missing.
    fn new(files: &Shared, name: Name) -> io::Result<Self> {
        if !lent(files)?.has(name) {
            return Err(ErrorKind::NotFound.into());
        }
        Ok(MemorySource {
            files: files.clone()?,
            name,
            past: SourcePast::begun(),
        })
    }

    fn copy(&self, bytes: &mut [u8], offset: u64) -> io::Result<()>
        ensures { length bytes.new ≡ length bytes.old }
    {
        let held = lent(&self.files)?.bytes(self.name)?;
        let rest = held.get(offset as usize..).unwrap_or_default();
        match rest.get(..bytes.len()) {
            Some(range) => {
                bytes.copy_from_slice(range);
                Ok(())
            }
            None => Err(ErrorKind::UnexpectedEof.into()),
        }
    }
}

impl Source for MemorySource {
    ghost reads = { λ s. s };

    fn read_at(&mut self, bytes: &mut [u8], offset: u64) -> io::Result<()> {
        let result = self.copy(bytes, offset);
        self.past = SourcePast::after(&self.past, offset, bytes, result.is_err());
        result
    }
}

/// A folder in memory, whose files outlive it.
#[derive(Drop)]
pub struct MemoryFolder {
    files: Shared,
    past: Snapshot<FolderPast<MemoryFile>>,
}

impl Model for MemoryFolder {
    ghost use Rattle.std.specs.Prelude.{List};
    ghost use Rattle.segments.specs.FolderEvents.{FolderEvent};

    ghost Value = { List FolderEvent };

    ghost view = { λ f. f.past.value };
}

impl MemoryFolder {
    /// The folder of these files, of which nothing was asked yet.
    pub fn new(files: Shared) -> Self
        ensures { result ≡ [] }
    {
        MemoryFolder {
            files,
            past: FolderPast::begun(),
        }
    }

    #[tactic(auto, using(crate::proofs::Durable::begun_durable))]
    fn open_file(&self, file: Asked) -> io::Result<MemoryFile>
        ensures { IfOk result (λ blob. IsDurable (life_of blob.kept.history).present) }
    {
        let name = Name::of(file);
        let bytes = lent(&self.files)?.open(name)?;
        let host = MemoryHost::new(self.files.clone()?, name, &bytes);
        Ok(Mirror::new(host, bytes))
    }

    // Notes one call more.
    fn note(&mut self, call: FolderCall, failed: bool)
        ensures { self.new ≡ self.old ++ plain_event call failed ∷ [] }
    {
        self.past = FolderPast::after(&self.past, call, failed);
    }

    // Notes one opening more, which gave a file or failed.
    fn note_opening(&mut self, call: FolderCall, opened: &Result<MemoryFile, OpenError>)
        ensures { let event = opening_outcome (λ b. life_of b.kept.history) call opened.now in
            self.new ≡ self.old ++ event ∷ [] }
    {
        match opened {
            Ok(blob) => self.past = FolderPast::opened(&self.past, call, blob),
            Err(_) => self.note(call, true),
        }
    }
}

// The call that opens a file.
fn call_of(file: Asked) -> FolderCall
    ensures { result ≡ call_for file }
{
    match file {
        Asked::Manifest => FolderCall::OpensManifest,
        Asked::Segment(number) => FolderCall::Opens(number),
    }
}

impl Folder<MemoryFile> for MemoryFolder {
    type Source = MemorySource;

    ghost asked = { λ f. f };

    fn open(&mut self, file: Asked) -> Result<MemoryFile, OpenError> {
        let opened = match self.open_file(file) {
            Ok(blob) => Ok(blob),
            Err(error) => Err(OpenError::System(error)),
        };
        self.note_opening(call_of(file), &opened);
        opened
    }

    fn close(&mut self, segment: u64, blob: MemoryFile, manifest: &MemoryFile) {
        if let Ok(mut files) = lent(&self.files) {
            let _ = files.take_back(segment);
        }
        self.past = FolderPast::closed(&self.past, segment, &blob, manifest);
    }

    fn bytes(blob: &MemoryFile) -> &[u8] {
        blob.bytes()
    }

    fn failed_sync(blob: &MemoryFile) -> bool {
        blob.failed_sync()
    }

    fn read(&mut self, file: Asked) -> io::Result<VecBlob> {
        Ok(VecBlob::from_vec(lent(&self.files)?.bytes(Name::of(file))?))
    }

    fn source(&mut self, segment: u64) -> io::Result<MemorySource> {
        MemorySource::new(&self.files, Name::Segment(segment))
    }

    fn list_source(&mut self, segment: u64) -> io::Result<MemorySource> {
        MemorySource::new(&self.files, Name::List(segment))
    }

    fn write_list(&mut self, segment: u64, levels: &SegmentLevels) -> io::Result<()> {
        let written = match lent(&self.files) {
            Ok(mut files) => files.write_list(segment, levels),
            Err(error) => Err(error),
        };
        self.past = FolderPast::wrote(&self.past, segment, levels, written.is_err());
        written
    }

    fn has(&mut self, file: Asked) -> io::Result<bool> {
        Ok(lent(&self.files)?.has(Name::of(file)))
    }

    fn first(&mut self) -> io::Result<Option<u64>> {
        let segments = lent(&self.files)?.segments()?;
        Ok(segments.iter().map(|segment| segment.0).min())
    }

    fn last_with_bytes(&mut self) -> io::Result<Option<u64>> {
        let mut last = None;
        for (number, len) in lent(&self.files)?.segments()? {
            if len > 0 && last < Some(number) {
                last = Some(number);
            }
        }
        Ok(last)
    }

    fn remove(&mut self, segment: u64) -> io::Result<()> {
        let removed = match lent(&self.files) {
            Ok(mut files) => files.remove(segment),
            Err(error) => Err(error),
        };
        self.note(FolderCall::Removes(segment), removed.is_err());
        removed
    }

    fn sync(&mut self) -> io::Result<()> {
        let synced = match lent(&self.files) {
            Ok(mut files) => files.sync_names(),
            Err(error) => Err(error),
        };
        self.note(FolderCall::Syncs, synced.is_err());
        synced
    }

    fn keep(&mut self, manifest: &MemoryFile, known: Known) -> io::Result<()> {
        let kept = match lent(&self.files) {
            Ok(mut files) => files.keep(manifest.bytes(), known),
            Err(error) => Err(error),
        };
        self.past = FolderPast::kept(&self.past, manifest, known, kept.is_err());
        kept
    }

    fn kept(&mut self) -> io::Result<Option<Known>> {
        match lent(&self.files)?.bytes(Name::Copy) {
            Ok(bytes) => Ok(Known::of(&bytes)),
            Err(error) if error.kind() == ErrorKind::NotFound => Ok(None),
            Err(error) => Err(error),
        }
    }
}
