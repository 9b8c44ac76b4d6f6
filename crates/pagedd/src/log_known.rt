// What the manifest of a log lists, or the copy of it, as far as it can be read.
use crate::log_files::{manifest_copy_in, manifest_in};
use crate::log_refusing::refuse_log;
use crate::log_text::{Frames, Text};
use crate::request::{Request, Shape};
use crate::status::Status;
use crc32c::Crc32c;
use digest::Digest;
use page::Sum;
use segments::{Entry, Error, Listing, entry_of};
use std::alloc::Global;
use std::io::ErrorKind;
use std::{fs, io};

/// How many bytes stand in front of the manifest's in its copy.
const IN_FRONT: usize = 20;

/// What a manifest lists, as far as it can be read.
pub struct Known {
    pub listing: Listing,
    /// How many entries it has.
    pub entries: u64,
    /// The frames of these entries.
    pub frames: Vec<u8>,
    /// Whether the file holds nothing else, and each page of it is whole.
    pub is_whole: bool,
    /// Whether a frame that fits comes after these entries, so that others are missing.
    pub goes_on: bool,
}

// By hand, so that an owner lets one go by one call: of a derived drop, a proof follows each field
// at each exit.
impl Drop for Known {
    fn drop(self) {
        let Known {
            listing: _,
            entries: _,
            frames: _,
            is_whole: _,
            goes_on: _,
        } = self;
    }
}

impl Known {
    /// Nothing.
    pub fn new(alloc: Global) -> Self {
        Known {
            listing: Listing::new(alloc),
            entries: 0,
            frames: Vec::new(alloc),
            is_whole: true,
            goes_on: false,
        }
    }

    /// What a manifest of these bytes lists.
    pub fn of<H: Sum>(alloc: Global, shape: Shape, bytes: &[u8]) -> Result<Self, Status> {
        let text = Text::of::<H>(alloc, shape, bytes)?;
        let mut known = Known::new(alloc);
        known.is_whole = text.is_whole;
        let len = known.take::<H>(shape, text.bytes.as_slice())?;
        let frames = text.bytes.get(..len).unwrap_or_default();
        known.frames.extend_from_slice(frames)?;
        Ok(known)
    }

    // Takes in the entries of a text, up to the first place where none fits, and answers how many
    // bytes they have.
    fn take<H: Sum>(&mut self, shape: Shape, text: &[u8]) -> Result<usize, Status> {
        let mut frames = Frames::of(text);
        let mut len = 0;
        for _ in 0..u64::MAX {
            let Some(piece) = frames.next::<H>() else {
                break;
            };
            let record = piece.record.unwrap_or_default();
            if piece.gap > 0 || !self.take_in(shape, record)? {
                self.goes_on = piece.record.is_some();
                self.is_whole = false;
                break;
            }
            len = frames.offset();
        }
        Ok(len)
    }

    // Takes in an entry, and answers whether it is one, and could follow those before it.
    fn take_in(&mut self, shape: Shape, record: &[u8]) -> Result<bool, Status> {
        match entry_of(record) {
            Some(entry) => self.enter(shape, &entry),
            None => Ok(false),
        }
    }

    /// Takes in an entry, and answers whether it could follow those before it.
    pub fn enter(&mut self, shape: Shape, entry: &Entry) -> Result<bool, Status> {
        match self.listing.take_in(shape.page_size.get(), entry) {
            Ok(follows) => {
                self.entries = self.entries.saturating_add(u64::from(follows));
                Ok(follows)
            }
            Err(_) => Err(Status::OutOfMemory),
        }
    }

    /// Refuses it if a closed segment is known by another digest than this one.
    pub fn refuse_other_digest<D: Digest>(
        &self,
        rt: &HostRuntime,
        request: &Request,
    ) -> Result<(), Status> {
        match self.listing.other_digest(D::NUMBER) {
            Some(number) => Err(refuse_log(rt, request, &Error::AnotherDigest(number))),
            None => Ok(()),
        }
    }

    /// Whether it has no entry.
    pub fn is_empty(&self) -> bool {
        self.entries == 0
    }
}

/// The copy of a manifest.
#[derive(Drop)]
pub struct ManifestCopy {
    pub known: Known,
    /// The number of the segment that was open when the copy was made.
    pub open: u64,
    /// How many bytes of that one's text were durable then.
    pub durable: u64,
}

/// The state of the copy of a manifest.
#[derive(Drop)]
pub enum CopyState {
    /// Its checksum fits, and its manifest is whole.
    Whole(ManifestCopy),
    /// There is none.
    Missing,
    /// It can't be read, or isn't whole.
    Bad,
}

impl CopyState {
    /// One word for the state.
    pub fn name(&self) -> &'static str {
        match self {
            CopyState::Whole(_) => "whole",
            CopyState::Missing => "missing",
            CopyState::Bad => "damaged",
        }
    }

    /// The copy, if it is whole.
    pub fn whole(&self) -> Option<&ManifestCopy> {
        match self {
            CopyState::Whole(copy) => Some(copy),
            _ => None,
        }
    }
}

/// The copy of the manifest in the folder of a log.
pub fn copy_state_of<H: Sum>(rt: &HostRuntime, request: &Request) -> Result<CopyState, Status> {
    let path = manifest_copy_in(rt.alloc(), request.file)?;
    match fs::read(rt, path.as_str()) {
        Ok(bytes) => copy_in::<H>(rt.alloc(), request.shape, bytes.as_slice()),
        Err(error) if error.kind() == ErrorKind::NotFound => Ok(CopyState::Missing),
        Err(_) => Ok(CopyState::Bad),
    }
}

// The copy of a manifest in these bytes.
fn copy_in<H: Sum>(alloc: Global, shape: Shape, bytes: &[u8]) -> Result<CopyState, Status> {
    let Some((sum, rest)) = bytes.split_first_chunk::<4>() else {
        return Ok(CopyState::Bad);
    };
    if u32::from_be_bytes(*sum) != Crc32c::sum(rest) {
        return Ok(CopyState::Bad);
    }
    let Some((open, rest)) = rest.split_first_chunk::<8>() else {
        return Ok(CopyState::Bad);
    };
    let Some((durable, manifest)) = rest.split_first_chunk::<8>() else {
        return Ok(CopyState::Bad);
    };
    let known = Known::of::<H>(alloc, shape, manifest)?;
    Ok(if known.is_whole {
        CopyState::Whole(ManifestCopy {
            known,
            open: u64::from_be_bytes(*open),
            durable: u64::from_be_bytes(*durable),
        })
    } else {
        CopyState::Bad
    })
}

/// The bytes of a copy of a manifest of these bytes.
pub fn copy_bytes(
    alloc: Global,
    open: u64,
    durable: u64,
    manifest: &[u8],
) -> Result<Vec<u8>, Status> {
    let mut rest = Vec::with_capacity(alloc, manifest.len().saturating_add(IN_FRONT))?;
    rest.extend_from_slice(&open.to_be_bytes())?;
    rest.extend_from_slice(&durable.to_be_bytes())?;
    rest.extend_from_slice(manifest)?;
    let sum = Crc32c::sum(rest.as_slice());
    let mut bytes = Vec::with_capacity(alloc, rest.len().saturating_add(4))?;
    bytes.extend_from_slice(&sum.to_be_bytes())?;
    bytes.extend_from_slice(rest.as_slice())?;
    Ok(bytes)
}

/// The bytes of the manifest in a folder; `None` if there is no such file.
pub fn manifest_bytes(rt: &HostRuntime, folder: &str) -> io::Result<Option<Vec<u8>>> {
    let path = manifest_in(rt.alloc(), folder)?;
    match fs::read(rt, path.as_str()) {
        Ok(bytes) => Ok(Some(bytes)),
        Err(error) if error.kind() == ErrorKind::NotFound => Ok(None),
        Err(error) => Err(error),
    }
}

/// What is known of a log, by its manifest and by the copy of that.
#[derive(Drop)]
pub struct Sources {
    /// What the manifest lists; `None` if it is missing, or can't be read.
    pub manifest: Option<Known>,
    pub copy: CopyState,
}

impl Sources {
    /// What is known of the log in a folder.
    pub fn of<H: Sum>(rt: &HostRuntime, request: &Request) -> Result<Self, Status> {
        let manifest = match manifest_bytes(rt, request.file) {
            Ok(Some(bytes)) => Some(Known::of::<H>(rt.alloc(), request.shape, bytes.as_slice())?),
            _ => None,
        };
        Ok(Sources {
            manifest,
            copy: copy_state_of::<H>(rt, request)?,
        })
    }

    /// Whether the copy has more entries than the manifest.
    pub fn takes_copy(&self) -> bool {
        let entries = self
            .manifest
            .as_ref()
            .map_or(0, |known: &Known| known.entries);
        self.copy
            .whole()
            .is_some_and(|copy| copy.known.entries > entries)
    }

    /// What lists more of the log.
    pub fn best(&self) -> Option<&Known> {
        match self.copy.whole() {
            Some(copy) if self.takes_copy() => Some(&copy.known),
            _ => self.manifest.as_ref(),
        }
    }

    /// The same as [`best`](Sources::best), or nothing known.
    pub fn into_best(self, alloc: Global) -> Known {
        let takes_copy = self.takes_copy();
        let Sources { manifest, copy } = self;
        match (manifest, copy) {
            (_, CopyState::Whole(copy)) if takes_copy => copy.known,
            (Some(known), _) => known,
            _ => Known::new(alloc),
        }
    }

    /// Refuses what lists more of the log if a closed segment is known by another digest.
    pub fn refuse_other_digest<D: Digest>(
        &self,
        rt: &HostRuntime,
        request: &Request,
    ) -> Result<(), Status> {
        match self.best() {
            Some(known) => known.refuse_other_digest::<D>(rt, request),
            None => Ok(()),
        }
    }

    /// How many bytes of the text of this segment were durable at least, if it is the open one.
    pub fn durable(&self, segment: u64) -> u64 {
        match self.copy.whole() {
            Some(copy) if copy.open == segment => copy.durable,
            _ => 0,
        }
    }
}
