// Opening files.
ghost use Rattle.std.specs.Prelude.{◌≡◌, List, IfOk};
ghost use Rattle.std.specs.Int.NonZero.{non_zero_u16_get};
ghost use Rattle.paged.specs.Recovery.{IsDurable};
ghost use Rattle.segments.specs.FolderEvents.{FolderEvent};
ghost use Rattle.segments.specs.Log.{AreParts, AsksForSegment, HasOpened, HasCurrent, HasManifest};
ghost use Rattle.segments.specs.Log.{IsLog, LeavesOpened, most_for};
ghost use Rattle.segments.specs.Crash.{HasOpenedFiles, IsOpenedLog};
ghost use Rattle.segments.specs.Kept.{AreOfDigest};

use crate::entry::{Entry, bytes_of};
use crate::error::Error;
use crate::folder::{Asked, Folder};
use crate::folder_copy::FolderCopy;
use crate::listing::{Listing, listing_of};
use crate::log::{Options, SegmentedLog};
use crate::owned::OwnedJournal;
use crate::recent::Recent;
use digest::Digest;
use disk::{Blob, IoBuf, VecBlob};
use file::OpenError;
use page::Sum;
use std::alloc::Global;
use std::io::ErrorKind;

impl<F: Folder<B> + Drop, B: Blob + Drop, H: Sum, R: Sum, D: Digest> SegmentedLog<F, B, H, R, D> {
    /// Opens the log of a folder, and begins one where the folder has none.
    ///
    /// Before anything is changed, a copy of the manifest is read and compared with the files that
    /// are there. `Manifest` where the manifest can't be read, as with another page size.
    /// `Unlisted` where a segment after the open one has bytes, or where a segment has bytes and
    /// there is no manifest: the manifest may be an old one, or be lost. `Outdated` where a copy of
    /// the manifest knows a later segment. `Missing` where the open segment isn't there, and
    /// `Short` where it has fewer bytes than it had as it was opened last. `AnotherDigest` where a
    /// segment was closed with another digest than `D`. `System` where the system refuses a file,
    /// `Unsynced` where it can't sync a file or the folder, and `Layer` where the device or memory
    /// failed. After an error the blobs are gone, so no clause says what their files hold: each
    /// recovery of a journal on the way keeps what was committed (`leaves` of
    /// [`journal::Journal::recover`]).
    #[tactic(auto, using(crate::proofs::Beginning::parts_open))]
    pub fn open(alloc: Global, folder: F, options: Options) -> Result<Self, Error>
        ensures log { IfOk result (λ log. IsLog H.sum_of R.sum_of log) }
        ensures opens { let before = F.asked folder in
            IfOk result (λ log. IsOpenedLog H.sum_of R.sum_of before log) }
        ensures page_size { IfOk result (λ log.
            log.page_size ≡ non_zero_u16_get options.page_size) }
        ensures most { IfOk result (λ log. log.most ≡ most_for options.segment_size) }
        ensures digest { IfOk result (λ log. AreOfDigest D.NUMBER log.listing.closed) }
    {
        let options = Options {
            segment_size: options.segment_size.max(1),
            ..options
        };
        let mut folder = folder;
        let recent = Recent::new(alloc)?;
        match open_parts::<F, B, H, R, D>(alloc, &mut folder, options) {
            Ok(parts) => {
                let Parts {
                    manifest,
                    current,
                    listing,
                    is_new,
                } = parts;
                let known = current.size();
                let mut log = SegmentedLog {
                    alloc,
                    options,
                    folder,
                    manifest,
                    current,
                    listing,
                    loaded: None,
                    recent,
                    known,
                    unkept: None,
                };
                match log.begin(is_new) {
                    Ok(()) => Ok(log),
                    Err(error) => Err(error_of::<F, B>(error, log.manifest.blob())),
                }
            }
            Err(error) => Err(error),
        }
    }

    // Gives a new manifest its first entry, and has a copy of it kept.
    fn begin(&mut self, is_new: bool) -> Result<(), Error>
        requires log { IsLog H.sum_of R.sum_of self.old }
        ensures log { IfOk result (λ u. IsLog H.sum_of R.sum_of self.new) }
        ensures opens { (before : List FolderEvent)
            → HasOpenedFiles H.sum_of R.sum_of before self.old.asked self.old
            → IfOk result (λ u. IsOpenedLog H.sum_of R.sum_of before self.new) }
        ensures page_size { self.new.page_size ≡ self.old.page_size }
        ensures most { self.new.most ≡ self.old.most }
        ensures digest { let n = D.NUMBER in AreOfDigest n self.old.listing.closed
            → IfOk result (λ u. AreOfDigest n self.new.listing.closed) }
    {
        if !is_new {
            self.keep();
            return Ok(());
        }
        let first = self.listing.first();
        self.start_from(first)
    }
}

// What a log is opened with.
#[derive(Drop)]
struct Parts<B: Blob, H: Sum, R: Sum, D: Digest> {
    manifest: OwnedJournal<B, H, R, D>,
    current: OwnedJournal<B, H, R, D>,
    listing: Listing,
    // Whether the manifest has no entry yet.
    is_new: bool,
}

// The manifest and the open segment of a folder.
fn open_parts<F: Folder<B>, B: Blob + Drop, H: Sum, R: Sum, D: Digest>(
    alloc: Global,
    folder: &mut F,
    options: Options,
) -> Result<Parts<B, H, R, D>, Error>
    ensures are { let P = non_zero_u16_get options.page_size in
        IfOk result (λ p. AreParts H.sum_of R.sum_of P p.manifest p.current p.listing
        (F.asked folder.old) (F.asked folder.new)) }
    ensures digest { IfOk result (λ p. AreOfDigest D.NUMBER p.listing.closed) }
{
    let number = open_number::<F, B, H, R, D>(alloc, folder, options)?;
    let (manifest, listing, is_new) = open_manifest::<F, B, H, R, D>(alloc, folder, options)?;
    if listing.open() != number {
        return Err(Error::Manifest);
    }
    match open_current::<F, B, H, R, D>(alloc, folder, options, number) {
        Ok(current) => Ok(Parts {
            manifest,
            current,
            listing,
            is_new,
        }),
        Err(error) => Err(error),
    }
}

// The manifest of a folder, what it lists, and whether it has no entry yet.
fn open_manifest<F: Folder<B>, B: Blob + Drop, H: Sum, R: Sum, D: Digest>(
    alloc: Global,
    folder: &mut F,
    options: Options,
) -> Result<(OwnedJournal<B, H, R, D>, Listing, bool), Error>
    ensures has { let P = non_zero_u16_get options.page_size in
        let old = F.asked folder.old in let new = F.asked folder.new in
        IfOk result (λ r. HasManifest H.sum_of R.sum_of P r.0 r.1 old new) }
    ensures digest { IfOk result (λ r. AreOfDigest D.NUMBER r.1.closed) }
{
    let blob = folder.open(Asked::Manifest)?;
    let (mut manifest, entries) = recover::<F, B, H, R, D>(alloc, options, blob)?;
    match listing_of::<D>(alloc, &entries, options.page_size.get()) {
        Ok(listing) => match manifest.commit() {
            Ok(()) => Ok((manifest, listing, entries.is_empty())),
            Err(error) => Err(error_of::<F, B>(error, manifest.blob())),
        },
        Err(error) => Err(error),
    }
}

// The open segment of a folder.
fn open_current<F: Folder<B>, B: Blob + Drop, H: Sum, R: Sum, D: Digest>(
    alloc: Global,
    folder: &mut F,
    options: Options,
    number: u64,
) -> Result<OwnedJournal<B, H, R, D>, Error>
    ensures has { let P = non_zero_u16_get options.page_size in
        let old = F.asked folder.old in let new = F.asked folder.new in
        IfOk result (λ o. HasCurrent H.sum_of R.sum_of P o number old new) }
{
    let blob = open_segment::<F, B>(folder, number)?;
    match recover::<F, B, H, R, D>(alloc, options, blob) {
        Ok((current, _)) => Ok(current),
        Err(error) => Err(Error::Layer(error)),
    }
}

// The number of the open segment, by a copy of the manifest. It changes nothing.
fn open_number<F: Folder<B>, B: Blob + Drop, H: Sum, R: Sum, D: Digest>(
    alloc: Global,
    folder: &mut F,
    options: Options,
) -> Result<u64, Error>
    ensures { F.asked folder.new ≡ F.asked folder.old }
{
    let last = folder.last_with_bytes()?;
    let is_used = last.is_some();
    let Some(number) = listed_open::<F, B, H, R, D>(alloc, folder, options, is_used)? else {
        return match last {
            Some(number) => Err(Error::Unlisted(number)),
            None => is_known::<F, B, H, R, D>(alloc, folder, options, 0),
        };
    };
    if let Some(last) = last {
        if number < last {
            return Err(Error::Unlisted(last));
        }
    }
    if !folder.has(Asked::Segment(number))? {
        return Err(Error::Missing(number));
    }
    is_known::<F, B, H, R, D>(alloc, folder, options, number)
}

// Answers the number of the open segment again, unless what was known as a copy of the manifest was
// kept last is against it: `Outdated` where a later one was open, and `Short` where this one had
// more bytes, by a copy of its file. It changes nothing.
fn is_known<F: Folder<B>, B: Blob + Drop, H: Sum, R: Sum, D: Digest>(
    alloc: Global,
    folder: &mut F,
    options: Options,
    number: u64,
) -> Result<u64, Error>
    ensures { F.asked folder.new ≡ F.asked folder.old }
{
    let Some(known) = folder.kept()? else {
        return Ok(number);
    };
    if number < known.segment {
        return Err(Error::Outdated(known.segment));
    }
    if known.segment < number || known.len == 0 {
        return Ok(number);
    }
    let copy = folder.read(Asked::Segment(number))?;
    let (current, _) = recover::<FolderCopy, VecBlob, H, R, D>(alloc, options, copy)?;
    if current.size() < known.len {
        return Err(Error::Short(number));
    }
    Ok(number)
}

// The number of the open segment, by a copy of the manifest; `None` where that is missing, or has
// no entry yet. `Manifest` where it has bytes that are none of a manifest that was begun, or where
// it has no entry and segments have bytes.
fn listed_open<F: Folder<B>, B: Blob + Drop, H: Sum, R: Sum, D: Digest>(
    alloc: Global,
    folder: &mut F,
    options: Options,
    is_used: bool,
) -> Result<Option<u64>, Error>
    ensures { F.asked folder.new ≡ F.asked folder.old }
{
    let copy = match folder.read(Asked::Manifest) {
        Ok(copy) => copy,
        Err(error) if error.kind() == ErrorKind::NotFound => return Ok(None),
        Err(error) => return Err(Error::System(error)),
    };
    let bytes = Vec::from_slice(alloc, copy.bytes())?;
    let (_, entries) = recover::<FolderCopy, VecBlob, H, R, D>(alloc, options, copy)?;
    if entries.is_empty() {
        // With another page size the manifest's pages have no text, and so no entry.
        return if bytes.is_empty() || !is_used && is_begun::<H, R, D>(alloc, options, &bytes)? {
            Ok(None)
        } else {
            Err(Error::Manifest)
        };
    }
    let listing = listing_of::<D>(alloc, &entries, options.page_size.get())?;
    Ok(Some(listing.open()))
}

// Whether a crash may have left these bytes of a manifest's first write: each is zero, or the byte
// that was to stand there. So they are no other file's, and no other page size's.
fn is_begun<H: Sum, R: Sum, D: Digest>(
    alloc: Global,
    options: Options,
    bytes: &[u8],
) -> Result<bool, Error> {
    let (mut manifest, _) = recover::<FolderCopy, VecBlob, H, R, D>(
        alloc,
        options,
        VecBlob::new(alloc),
    )?;
    let first = Entry::Starts(0, options.page_size.get());
    manifest.add(&bytes_of(alloc, options.page_size, 0, &first)?)?;
    let whole = manifest.blob().bytes();
    let is_left = |(left, written): (&u8, &u8)| *left == 0 || left == written;
    Ok(bytes.len() <= whole.len() && bytes.iter().zip(whole).all(is_left))
}

// Opens a segment, and makes its name durable.
pub fn open_segment<F: Folder<B>, B: Blob + Drop>(folder: &mut F, number: u64) -> Result<B, Error>
    ensures asks_for { let old = F.asked folder.old in let new = F.asked folder.new in
        AsksForSegment B.life number old new result }
    ensures rests { IfOk result (λ blob. IsDurable (B.life blob).present) }
{
    match folder.open(Asked::Segment(number)) {
        Ok(blob) => match folder.sync() {
            Ok(()) => Ok(blob),
            Err(error) => Err(Error::Unsynced(error)),
        },
        Err(OpenError::System(error)) => Err(Error::System(error)),
        Err(OpenError::Unsynced(error)) => Err(Error::Unsynced(error)),
    }
}

// A file, or a copy of one in memory, with the journal that was recovered on it, and the journal's
// records. After a failed sync the error is `SyncFailed`.
pub fn recover<F: Folder<B>, B: Blob + Drop, H: Sum, R: Sum, D: Digest>(
    alloc: Global,
    options: Options,
    blob: B,
) -> Result<(OwnedJournal<B, H, R, D>, Vec<IoBuf>), disk::Error>
    ensures has { let P = non_zero_u16_get options.page_size in
        IfOk result (λ r. HasOpened H.sum_of R.sum_of P (B.life blob) r.0 r.1.items) }
    ensures leaves { let P = non_zero_u16_get options.page_size in
        IfOk result (λ r. LeavesOpened H.sum_of R.sum_of P (B.life blob) r.0) }
{
    let mut owned = OwnedJournal::new(alloc, blob, options.page_size, options.pages)?;
    match owned.recover(alloc, options.capacity, options.buffer_size) {
        Ok(records) => Ok((owned, records)),
        Err(error) => Err(cause_of::<F, B>(error, owned.blob())),
    }
}

// The error of a file, `SyncFailed` where a sync of it failed, whatever the layer calls that.
fn cause_of<F: Folder<B>, B: Blob>(error: disk::Error, blob: &B) -> disk::Error {
    match error {
        disk::Error::WriteFailed | disk::Error::ResizeFailed if F::failed_sync(blob) => {
            disk::Error::SyncFailed
        }
        error => error,
    }
}

// The same for an error of the log.
fn error_of<F: Folder<B>, B: Blob>(error: Error, blob: &B) -> Error {
    match error {
        Error::Layer(error) => Error::Layer(cause_of::<F, B>(error, blob)),
        error => error,
    }
}
