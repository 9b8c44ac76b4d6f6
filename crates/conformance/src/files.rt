// Files in memory, whose names and bytes can be lost in a crash.
use crate::words::out_of_memory;
use disk::{Blob, Error, IoBufs, MemBlob, WriteOptions};
use segments::{Asked, Known, SegmentLevels, copy_of};
use std::alloc::Global;
use std::io;
use std::io::{ErrorKind, Write};

/// A file of the folder.
#[derive(Clone, Copy, PartialEq, Eq)]
pub enum Name {
    /// The manifest.
    Manifest,
    /// The copy of it.
    Copy,
    /// The segment of this number.
    Segment(u64),
    /// The list of the segment of this number.
    List(u64),
}

impl Name {
    /// The name of a file of a log.
    pub fn of(file: Asked) -> Self {
        match file {
            Asked::Manifest => Name::Manifest,
            Asked::Segment(number) => Name::Segment(number),
        }
    }
}

/// A call of the folder, or of a file in it.
#[derive(Clone, Copy)]
pub enum FileCall {
    /// To open a file, and to make it where it is missing.
    Open(Name),
    /// To put so many bytes at an offset of a file.
    Put(Name, u64, usize),
    /// To set the length of a file in bytes.
    SetLen(Name, u64),
    /// To make the bytes of a file durable.
    Sync(Name),
    /// To remove a file.
    Remove(Name),
    /// To make the names of the files durable.
    SyncNames,
    /// To take back the blob of a segment. It doesn't fail.
    Close(u64),
    /// To write so many bytes as the list of a segment.
    WriteList(u64, usize),
    /// To keep a copy of so many bytes of the manifest, with what is known of the open segment.
    Keep(Known, usize),
}

// Whether a crash may lose a file, or bring it back.
#[derive(Clone, Copy, PartialEq, Eq)]
enum Standing {
    // The file stands there, and its name is durable.
    Named,
    // It was made, and the names weren't made durable since.
    Made,
    // It was removed, and the names weren't made durable since.
    Removed,
}

#[derive(Drop)]
struct Stored {
    name: Name,
    blob: MemBlob,
    standing: Standing,
}

/// The files of a folder, and the calls that were made of them. The call of one number fails,
/// counted from 1, or that one and each later one.
#[derive(Drop)]
pub struct Files {
    alloc: Global,
    files: Vec<Stored>,
    calls: Vec<FileCall>,
    failing: usize,
    // Whether each call from the one that must fail on fails.
    is_for_good: bool,
    // Whether there is no room: no file can be made, and none gets longer.
    is_full: bool,
}

// A blob in memory that wasn't made to fail fails only if there is no memory.
fn done(answer: Result<(), Error>) -> io::Result<()> {
    match answer {
        Ok(()) => Ok(()),
        Err(_) => Err(out_of_memory()),
    }
}

impl Files {
    /// No files.
    pub fn new(alloc: Global) -> Self {
        Files {
            alloc,
            files: Vec::new(alloc),
            calls: Vec::new(alloc),
            failing: 0,
            is_for_good: false,
            is_full: false,
        }
    }

    /// The calls so far.
    pub fn calls(&self) -> &[FileCall] {
        &self.calls
    }

    /// Makes the nth call from now on fail, counted from 1; if it is for good, also each later one.
    pub fn fail_at(&mut self, n: usize, is_for_good: bool) {
        self.failing = self.calls.len().saturating_add(n);
        self.is_for_good = is_for_good;
    }

    /// Fills the disk, until a file is removed or there is a crash.
    pub fn fill(&mut self) {
        self.is_full = true;
    }

    // Refuses what needs room where there is none.
    fn need_room(&self, needs_room: bool) -> io::Result<()> {
        if self.is_full && needs_room {
            return Err(ErrorKind::StorageFull.into());
        }
        Ok(())
    }

    /// Whether the call that was to fail was made.
    pub fn has_failed(&self) -> bool {
        self.failing > 0 && self.failing <= self.calls.len()
    }

    // Notes a call, and fails if it is the one that must fail.
    fn note(&mut self, call: FileCall) -> io::Result<()> {
        self.calls.push(call)?;
        let is_later = self.is_for_good && self.has_failed();
        if self.calls.len() == self.failing || is_later {
            return Err(ErrorKind::StorageFull.into());
        }
        Ok(())
    }

    fn place_of(&self, name: Name) -> Option<usize> {
        for (index, stored) in self.files.iter().enumerate() {
            if stored.standing != Standing::Removed && stored.name == name {
                return Some(index);
            }
        }
        None
    }

    fn blob(&self, name: Name) -> io::Result<&MemBlob> {
        let index = self.place_of(name).unwrap_or(usize::MAX);
        match self.files.get(index) {
            Some(stored) => Ok(&stored.blob),
            None => Err(ErrorKind::NotFound.into()),
        }
    }

    fn blob_mut(&mut self, name: Name) -> io::Result<&mut MemBlob> {
        let index = self.place_of(name).unwrap_or(usize::MAX);
        match self.files.get_mut(index) {
            Some(stored) => Ok(&mut stored.blob),
            None => Err(ErrorKind::NotFound.into()),
        }
    }

    /// Whether a file is there.
    pub fn has(&self, name: Name) -> bool {
        self.place_of(name).is_some()
    }

    /// The bytes of a file. `NotFound` where it is missing.
    pub fn bytes(&self, name: Name) -> io::Result<Vec<u8>> {
        let blob = self.blob(name)?;
        Ok(Vec::from_slice(self.alloc, blob.bytes())?)
    }

    /// The numbers of the segments whose files are there, and how many bytes each has.
    pub fn segments(&self) -> io::Result<Vec<(u64, usize)>> {
        let mut numbers = Vec::new(self.alloc);
        for stored in &self.files {
            match stored.name {
                Name::Segment(number) if stored.standing != Standing::Removed => {
                    numbers.push((number, stored.blob.bytes().len()))?;
                }
                _ => {}
            }
        }
        Ok(numbers)
    }

    /// The same of the lists.
    pub fn lists(&self) -> io::Result<Vec<(u64, usize)>> {
        let mut numbers = Vec::new(self.alloc);
        for stored in &self.files {
            match stored.name {
                Name::List(number) if stored.standing != Standing::Removed => {
                    numbers.push((number, stored.blob.bytes().len()))?;
                }
                _ => {}
            }
        }
        Ok(numbers)
    }

    /// Opens a file, and makes it where it is missing. Its bytes are durable then.
    pub fn open(&mut self, name: Name) -> io::Result<Vec<u8>> {
        self.note(FileCall::Open(name))?;
        self.need_room(!self.has(name))?;
        if !self.has(name) {
            self.files.push(Stored {
                name,
                blob: MemBlob::new(self.alloc),
                standing: Standing::Made,
            })?;
        }
        done(self.blob_mut(name)?.sync())?;
        self.bytes(name)
    }

    /// Puts bytes at an offset of a file.
    pub fn put(&mut self, name: Name, offset: u64, bufs: &IoBufs) -> io::Result<()> {
        self.note(FileCall::Put(name, offset, bufs.len()))?;
        let end = offset.saturating_add(bufs.len() as u64);
        self.need_room(end > self.blob(name)?.bytes().len() as u64)?;
        let blob = self.blob_mut(name)?;
        done(blob.write_at(offset, bufs, WriteOptions::default()))
    }

    /// Sets the length of a file in bytes.
    pub fn set_len(&mut self, name: Name, len: u64) -> io::Result<()> {
        self.note(FileCall::SetLen(name, len))?;
        self.need_room(len > self.blob(name)?.bytes().len() as u64)?;
        done(self.blob_mut(name)?.resize(len))
    }

    /// Makes the bytes of a file durable.
    pub fn sync(&mut self, name: Name) -> io::Result<()> {
        self.note(FileCall::Sync(name))?;
        done(self.blob_mut(name)?.sync())
    }

    /// Removes the file of a segment's list, if it is there, and that of the segment.
    pub fn remove(&mut self, segment: u64) -> io::Result<()> {
        self.note(FileCall::Remove(Name::Segment(segment)))?;
        let _ = self.take_away(Name::List(segment));
        self.take_away(Name::Segment(segment))
    }

    fn take_away(&mut self, name: Name) -> io::Result<()> {
        let index = self.place_of(name).unwrap_or(usize::MAX);
        match self.files.get_mut(index) {
            Some(stored) => {
                stored.standing = Standing::Removed;
                self.is_full = false;
                Ok(())
            }
            None => Err(ErrorKind::NotFound.into()),
        }
    }

    /// Takes back the blob of a segment.
    pub fn take_back(&mut self, segment: u64) -> io::Result<()> {
        Ok(self.calls.push(FileCall::Close(segment))?)
    }

    /// Makes the names of the files durable.
    pub fn sync_names(&mut self) -> io::Result<()> {
        self.note(FileCall::SyncNames)?;
        self.settle_names();
        Ok(())
    }

    /// Keeps a copy of these bytes of the manifest, which is durable then. Half of the copy is there
    /// after a call that failed.
    pub fn keep(&mut self, manifest: &[u8], known: Known) -> io::Result<()> {
        let Ok(copy) = copy_of(self.alloc, known, manifest) else {
            return Err(out_of_memory());
        };
        let noted = self.note(FileCall::Keep(known, manifest.len()));
        self.write_whole(Name::Copy, copy, noted)
    }

    /// Writes the file of a segment's list, which is durable then. Half of that is there after a call
    /// that failed.
    pub fn write_list(&mut self, segment: u64, levels: &SegmentLevels) -> io::Result<()> {
        let bytes = levels.bytes(self.alloc)?;
        let noted = self.note(FileCall::WriteList(segment, bytes.len()));
        self.write_whole(Name::List(segment), bytes, noted)
    }

    // Makes a file hold these bytes, durably, and with its name: half of them if that is to fail.
    fn write_whole(
        &mut self,
        name: Name,
        mut bytes: Vec<u8>,
        noted: io::Result<()>,
    ) -> io::Result<()> {
        let room = match self.blob(name) {
            Ok(blob) => blob.bytes().len(),
            Err(_) => 0,
        };
        self.need_room(bytes.len() > room)?;
        if noted.is_err() {
            bytes.truncate(bytes.len() / 2);
        }
        self.give(name, &bytes)?;
        noted
    }

    // The files that stand there are named, and the others are gone.
    fn settle_names(&mut self) {
        self.files
            .retain(|stored| stored.standing != Standing::Removed);
        for stored in &mut self.files {
            stored.standing = Standing::Named;
        }
    }

    /// Crashes. `names` has a flag for each file that was made or removed since the names were made
    /// durable, in the order in which the files were made: whether that is kept. Of the bytes of
    /// each file that aren't durable, `bytes` says which are kept (`MemBlob::crash`).
    pub fn crash(&mut self, names: &[bool], bytes: &[bool]) -> io::Result<()> {
        let mut flags = names.iter();
        for stored in &mut self.files {
            let stays = match stored.standing {
                Standing::Named => true,
                Standing::Made => flags.next() == Some(&true),
                Standing::Removed => flags.next() != Some(&true),
            };
            stored.standing = if stays {
                Standing::Named
            } else {
                Standing::Removed
            };
            done(stored.blob.crash(bytes))?;
        }
        self.settle_names();
        self.failing = 0;
        self.is_full = false;
        Ok(())
    }

    /// Gives a file these bytes, all of them durable, as somebody else may do.
    pub fn replace(&mut self, name: Name, bytes: &[u8]) -> io::Result<()> {
        let Ok(blob) = MemBlob::from_bytes(self.alloc, bytes) else {
            return Err(out_of_memory());
        };
        *self.blob_mut(name)? = blob;
        Ok(())
    }

    /// The same, also of a file that is missing.
    pub fn give(&mut self, name: Name, bytes: &[u8]) -> io::Result<()> {
        if !self.has(name) {
            self.files.push(Stored {
                name,
                blob: MemBlob::new(self.alloc),
                standing: Standing::Named,
            })?;
        }
        self.replace(name, bytes)
    }

    /// Takes a file away, as somebody else may do.
    pub fn lose(&mut self, name: Name) {
        self.files.retain(|stored| stored.name != name);
    }

    /// The same files, with all that can be read durable, of which no call was made yet.
    pub fn copy(&self) -> io::Result<Files> {
        let mut files = Files::new(self.alloc);
        for stored in &self.files {
            if stored.standing == Standing::Removed {
                continue;
            }
            let Ok(blob) = MemBlob::from_bytes(self.alloc, stored.blob.bytes()) else {
                return Err(out_of_memory());
            };
            files.files.push(Stored {
                name: stored.name,
                blob,
                standing: Standing::Named,
            })?;
        }
        Ok(files)
    }
}

/// Writes the name of a file: `manifest`, `copy`, the number of a segment, or that with `.digests`.
pub fn say_name(name: Name, said: &mut Vec<u8>) -> io::Result<()> {
    match name {
        Name::Manifest => write!(said, "manifest"),
        Name::Copy => write!(said, "copy"),
        Name::Segment(number) => write!(said, "{number}"),
        Name::List(number) => write!(said, "{number}.digests"),
    }
}

fn say_call(word: &str, name: Name, said: &mut Vec<u8>) -> io::Result<()> {
    write!(said, "{word} ")?;
    say_name(name, said)
}

fn say_one(call: FileCall, said: &mut Vec<u8>) -> io::Result<()> {
    match call {
        FileCall::Open(name) => say_call("open", name, said),
        FileCall::Put(name, offset, len) => {
            say_call("put", name, said)?;
            write!(said, " {offset} {len}")
        }
        FileCall::SetLen(name, len) => {
            say_call("set-len", name, said)?;
            write!(said, " {len}")
        }
        FileCall::Sync(name) => say_call("sync", name, said),
        FileCall::Remove(name) => say_call("remove", name, said),
        FileCall::SyncNames => write!(said, "sync names"),
        FileCall::Close(number) => write!(said, "close {number}"),
        FileCall::WriteList(number, len) => write!(said, "list {number} {len}"),
        FileCall::Keep(known, len) => { write!(said, "keep {} {} {len}", known.segment, known.len) }
    }
}

/// Writes what was asked, from one call on.
pub fn say_file_calls(calls: &[FileCall], first: usize, said: &mut Vec<u8>) -> io::Result<()> {
    if calls.len() <= first {
        return write!(said, "none");
    }
    for (index, one) in calls.iter().skip(first).enumerate() {
        if index > 0 {
            write!(said, ", ")?;
        }
        say_one(*one, said)?;
    }
    Ok(())
}
