// A log in segments over a folder of the system: what comes back once it was closed, what is
// refused, and which files stand there.
ghost use Rattle.std.specs.Prelude.{IfOk};
ghost use Rattle.crc32c.specs.Crc.{crc32c};
ghost use Rattle.segments.specs.Log.{IsLog};

use cache::CacheRef;
use crc32c::Crc32c;
use digest::{PolyDigest, ShaDigest};
use disk::{Blob, IoBuf, VecBlob};
use file::FileBlob;
use journal::Journal;
use segments::{
    Closed, Entry, Error, FileDigest, FileFolder, Fingerprint, Folder, FolderCopy, Options, Place,
    SegmentedLog, bytes_of,
};
use std::fs::OpenOptions;
use std::num::{NonZeroU16, NonZeroUsize};
use std::os::unix::fs::FileExt;
use std::test::Fail;
use std::{fs, io};

type Log = SegmentedLog<FileFolder, FileBlob, Crc32c, Crc32c, ShaDigest>;

// The same log, opened with another digest.
type OtherLog = SegmentedLog<FileFolder, FileBlob, Crc32c, Crc32c, PolyDigest>;

// Segments that are closed from 50 bytes on.
fn options(page_size: u16) -> Options {
    Options {
        page_size: NonZeroU16::new(page_size).unwrap_or(NonZeroU16::MIN),
        capacity: 168,
        pages: NonZeroUsize::MIN,
        buffer_size: NonZeroUsize::MIN,
        segment_size: 50,
    }
}

fn open(rt: &HostRuntime, path: &str) -> Result<Log, Error>
    ensures { IfOk result (λ log. IsLog crc32c crc32c log) }
{
    Log::open(rt.alloc(), FileFolder::new(rt, path)?, options(84))
}

// Whether three records stand where they should: two in the first segment, whose frames have 27 and
// 28 bytes, and one in the next.
fn are_placed(log: &mut Log) -> Result<bool, Error>
    requires { IsLog crc32c crc32c log.old }
    ensures { IsLog crc32c crc32c log.new }
{
    let first = log.append(b"the first of records")?;
    log.start_commit()?;
    let second = log.append(b"the second of records")?;
    log.wait_for_commit()?;
    let third = log.append(b"the third of records")?;
    log.commit()?;
    Ok([first, second, third] == PLACES)
}

const PLACES: [Place; 3] = [
    Place {
        segment: 0,
        offset: 0,
    },
    Place {
        segment: 0,
        offset: 27,
    },
    Place {
        segment: 1,
        offset: 0,
    },
];

// The record at a place, or none.
fn record_at(log: &mut Log, place: Place) -> Result<Option<IoBuf>, Error>
    requires { IsLog crc32c crc32c log.old }
    ensures { IsLog crc32c crc32c log.new }
{
    match log.read(place) {
        Ok(Some(found)) => Ok(found.bytes),
        Ok(None) => Ok(None),
        Err(error) => Err(error),
    }
}

// Whether these bytes are the record at a place.
fn holds(log: &mut Log, place: Place, bytes: &[u8]) -> Result<bool, Error>
    requires { IsLog crc32c crc32c log.old }
    ensures { IsLog crc32c crc32c log.new }
{
    match record_at(log, place) {
        Ok(Some(record)) => Ok(record.as_ref() == bytes),
        Ok(None) => Ok(false),
        Err(error) => Err(error),
    }
}

// Whether a read at a place is refused in these words.
fn is_refused(rt: &HostRuntime, log: &mut Log, place: Place, words: &str) -> io::Result<bool>
    requires { IsLog crc32c crc32c log.old }
    ensures { IsLog crc32c crc32c log.new }
{
    match record_at(log, place) {
        Ok(_) => Ok(false),
        Err(error) => Ok(error.to_string(rt.alloc())?.as_str() == words),
    }
}

fn come_back(log: &mut Log) -> Result<bool, Error>
    requires { IsLog crc32c crc32c log.old }
{
    let [first, second, third] = PLACES;
    Ok(
        holds(log, third, b"the third of records")?
            && holds(log, first, b"the first of records")?
            && holds(log, second, b"the second of records")?,
    )
}

// Whether the next record stands at a place, and has these bytes.
fn comes_next<F: Folder<B> + Drop, B: Blob + Drop>(
    log: &mut SegmentedLog<F, B, Crc32c, Crc32c, ShaDigest>,
    place: &mut Place,
    at: Place,
    bytes: &[u8],
) -> Result<bool, Error>
    requires { IsLog crc32c crc32c log.old }
    ensures { IsLog crc32c crc32c log.new }
{
    match log.next(place) {
        Ok(Some((stands, record))) => Ok(stands == at && record.as_ref() == bytes),
        Ok(None) => Ok(false),
        Err(error) => Err(error),
    }
}

// Whether no record comes next.
fn ends<F: Folder<B> + Drop, B: Blob + Drop>(
    log: &mut SegmentedLog<F, B, Crc32c, Crc32c, ShaDigest>,
    place: &mut Place,
) -> Result<bool, Error>
    requires { IsLog crc32c crc32c log.old }
    ensures { IsLog crc32c crc32c log.new }
{
    match log.next(place) {
        Ok(found) => Ok(found.is_none()),
        Err(error) => Err(error),
    }
}

// Whether the three records come one after the other, and no other does.
fn goes_over<F: Folder<B> + Drop, B: Blob + Drop>(
    log: &mut SegmentedLog<F, B, Crc32c, Crc32c, ShaDigest>,
) -> Result<bool, Error>
    requires { IsLog crc32c crc32c log.old }
{
    let [first, second, third] = PLACES;
    let mut place = log.start();
    let is_all = log.len() == Some(3);
    Ok(
        is_all
            && comes_next(log, &mut place, first, b"the first of records")?
            && comes_next(log, &mut place, second, b"the second of records")?
            && comes_next(log, &mut place, third, b"the third of records")?
            && ends(log, &mut place)?,
    )
}

// Whether a copy of the folder has the three records.
fn is_copied(rt: &HostRuntime, path: &str) -> io::Result<bool> {
    let folder = FolderCopy::new(rt, path)?;
    match SegmentedLog::<FolderCopy, VecBlob, Crc32c, Crc32c, ShaDigest>::open(
        rt.alloc(),
        folder,
        options(84),
    ) {
        Ok(mut log) => Ok(goes_over(&mut log).unwrap_or(false)),
        Err(_) => Ok(false),
    }
}

// Changes a bit of a file.
fn change(rt: &HostRuntime, path: &str) -> io::Result<()> {
    let file = OpenOptions::new().read(true).write(true).open(rt, path)?;
    let mut byte = [0u8; 1];
    file.read_exact_at(&mut byte, 30)?;
    file.write_all_at(&[byte[0] ^ 1], 30)
}

const DAMAGED: &str =
    "segment 0 doesn't hold what it held when it was closed: bring it back from a copy";

const GONE: &str = "No such file or directory (os error 2)";

// Whether the first segment is refused in these words, and the next one is read.
fn is_one_refused(rt: &HostRuntime, log: &mut Log, words: &str) -> Result<bool, Error>
    requires { IsLog crc32c crc32c log.old }
{
    let [first, _, third] = PLACES;
    Ok(is_refused(rt, log, first, words)? && holds(log, third, b"the third of records")?)
}

// What is done to the file of a closed segment, or to that of its list.
#[derive(Clone, Copy)]
enum Harm {
    Changed,
    Cut,
    Grown,
    Exchanged,
    Removed,
}

const HARMS: [Harm; 5] = [
    Harm::Changed,
    Harm::Cut,
    Harm::Grown,
    Harm::Exchanged,
    Harm::Removed,
];

fn do_harm(rt: &HostRuntime, path: &str, harm: Harm) -> io::Result<()> {
    let [_, last] = SEGMENTS;
    let kept = fs::read(rt, path)?;
    match harm {
        Harm::Changed => change(rt, path),
        Harm::Cut => {
            let cut = kept.get(1..).unwrap_or_default();
            fs::write(rt, path, cut)
        }
        Harm::Grown => OpenOptions::new()
            .write(true)
            .open(rt, path)?
            .write_all_at(b"x".as_slice(), kept.len() as u64),
        Harm::Exchanged => {
            fs::copy(rt, last, path)?;
            Ok(())
        }
        Harm::Removed => fs::remove_file(rt, path),
    }
}

// Whether the first segment is refused after this harm was done to its file, unless that is harmless,
// and all records come back once the file is restored.
fn is_harm_told(rt: &HostRuntime, path: &str, how: Harm) -> io::Result<bool> {
    let [old, _] = SEGMENTS;
    let kept = fs::read(rt, old)?;
    do_harm(rt, old, how)?;
    let what = match how {
        Harm::Removed => What::IsOneRefused(GONE),
        Harm::Grown => What::ComesBack,
        _ => What::IsOneRefused(DAMAGED),
    };
    let is_told = is_so(rt, path, what);
    fs::write(rt, old, kept.as_slice())?;
    Ok(is_told && is_so(rt, path, What::ComesBack))
}

// Whether all records come back after this harm was done to the list of the first segment.
fn is_list_spared(rt: &HostRuntime, path: &str, how: Harm) -> io::Result<bool> {
    let kept = fs::read(rt, LIST)?;
    do_harm(rt, LIST, how)?;
    let comes_back = is_so(rt, path, What::ComesBack);
    fs::write(rt, LIST, kept.as_slice())?;
    Ok(comes_back)
}

fn is_each_harm_told(rt: &HostRuntime, path: &str) -> io::Result<bool> {
    for how in HARMS {
        if !is_harm_told(rt, path, how)? || !is_list_spared(rt, path, how)? {
            return Ok(false);
        }
    }
    Ok(true)
}

// Whether the first segment is gone once it was dropped.
fn is_one_dropped(rt: &HostRuntime, log: &mut Log) -> Result<bool, Error>
    requires { IsLog crc32c crc32c log.old }
{
    log.drop_before(1)?;
    let [first, _, third] = PLACES;
    Ok(
        is_refused(rt, log, first, "there is no segment 0")?
            && holds(log, third, b"the third of records")?,
    )
}

// What is asked of a log that is opened, and dropped after it.
#[derive(Clone, Copy)]
enum What {
    IsWritten,
    ComesBack,
    IsGoneOver,
    IsOneRefused(&'static str),
    IsOneDropped,
}

fn ask(rt: &HostRuntime, log: &mut Log, what: What) -> Result<bool, Error>
    requires { IsLog crc32c crc32c log.old }
{
    match what {
        What::IsWritten => are_placed(log),
        What::ComesBack => come_back(log),
        What::IsGoneOver => goes_over(log),
        What::IsOneRefused(words) => is_one_refused(rt, log, words),
        What::IsOneDropped => is_one_dropped(rt, log),
    }
}

// Whether the log opens, and the answer to `what` is yes.
fn is_so(rt: &HostRuntime, path: &str, what: What) -> bool {
    match open(rt, path) {
        Ok(mut log) => ask(rt, &mut log, what).unwrap_or(false),
        Err(_) => false,
    }
}

// Whether the log can't be opened with pages of this size, in these words.
fn is_shut(rt: &HostRuntime, path: &str, page_size: u16, words: &str) -> io::Result<bool> {
    match Log::open(rt.alloc(), FileFolder::new(rt, path)?, options(page_size)) {
        Ok(_) => Ok(false),
        Err(error) => Ok(error.to_string(rt.alloc())?.as_str() == words),
    }
}

const SEGMENTS: [&str; 2] = [
    "log-kept/00000000000000000000.segment",
    "log-kept/00000000000000000001.segment",
];

// The file of its list: one digest and the digest of that, and one mark and the digest of that.
const LIST: &str = "log-kept/00000000000000000000.digests";

const MISSING: &str = "segment 1 is missing, though the manifest says that it is the open one";

const MANIFEST: &str = "the manifest can't be read: is the page size right?";

const UNLISTED: &str =
    "the manifest doesn't know segment 1, which has bytes: bring the manifest back";

const OTHER: &str = "a segment was closed with digest 1: open the log with that digest";

// Whether the log can't be opened with another digest, in these words.
fn is_shut_to_other(rt: &HostRuntime, path: &str, words: &str) -> io::Result<bool> {
    match OtherLog::open(rt.alloc(), FileFolder::new(rt, path)?, options(84)) {
        Ok(_) => Ok(false),
        Err(error) => Ok(error.to_string(rt.alloc())?.as_str() == words),
    }
}

// Gives the log a manifest of versions before 0.11, by which its first segment is known by its whole
// file.
fn make_older(rt: &HostRuntime) -> Result<(), Error> {
    let [old, _] = SEGMENTS;
    let closed = Closed {
        records: 2,
        fingerprint: Fingerprint::Whole(FileDigest::of(&fs::read(rt, old)?)),
    };
    let (alloc, page_size) = (rt.alloc(), options(84).page_size);
    fs::remove_file(rt, "log-kept/manifest")?;
    let mut blob = file::open(rt, "log-kept/manifest")?;
    let mut cache = CacheRef::new(alloc, page_size, NonZeroUsize::MIN)?;
    let size = blob.len();
    let (journal, _) = Journal::<FileBlob, Crc32c, Crc32c>::recover(
        alloc,
        &mut blob,
        size,
        168,
        &mut cache,
        NonZeroUsize::MIN,
    )?;
    let starts = bytes_of(alloc, page_size, 0, &Entry::Starts(0, page_size.get()))?;
    let (journal, _) = journal.append_record(&mut blob, &mut cache, &starts)?;
    let closes = bytes_of(alloc, page_size, journal.size(), &Entry::Closes(closed))?;
    let (journal, _) = journal.append_record(&mut blob, &mut cache, &closes)?;
    let _journal = journal.commit(&mut blob, &mut cache)?;
    Ok(())
}

// Whether all records come back by such a manifest, and the first segment is refused once its file
// has one byte more.
fn is_older_read(rt: &HostRuntime, path: &str) -> Result<bool, Error> {
    let [old, _] = SEGMENTS;
    let kept = fs::read(rt, old)?;
    make_older(rt)?;
    let comes_back = is_so(rt, path, What::ComesBack) && is_so(rt, path, What::IsGoneOver);
    do_harm(rt, old, Harm::Grown)?;
    let is_told = is_so(rt, path, What::IsOneRefused(DAMAGED));
    fs::write(rt, old, kept.as_slice())?;
    Ok(comes_back && is_told && is_so(rt, path, What::ComesBack))
}

// Whether a log comes back, a changed segment is refused, and a dropped one is gone, and its list.
fn goes_through(rt: &HostRuntime, path: &str) -> io::Result<bool> {
    let [old, _] = SEGMENTS;
    let is_kept = is_so(rt, path, What::IsWritten)
        && is_so(rt, path, What::ComesBack)
        && is_so(rt, path, What::IsGoneOver)
        && is_copied(rt, path)?
        && is_shut_to_other(rt, path, OTHER)?
        && fs::read(rt, LIST)?.len() == 104;
    let is_told = is_each_harm_told(rt, path)?
        && is_older_read(rt, path).unwrap_or(false)
        && is_so(rt, path, What::IsOneDropped);
    Ok(is_kept && is_told && !fs::exists(rt, old)? && !fs::exists(rt, LIST)?)
}

// Whether the log isn't opened with no manifest, with another page size, and with no open segment.
fn is_guarded(rt: &HostRuntime, path: &str) -> io::Result<bool> {
    let [_, last] = SEGMENTS;
    fs::rename(rt, "log-kept/manifest", "log-kept/aside")?;
    let is_unlisted = is_shut(rt, path, 84, UNLISTED)?;
    fs::rename(rt, "log-kept/aside", "log-kept/manifest")?;
    let is_other = is_shut(rt, path, 85, MANIFEST)?;
    fs::remove_file(rt, last)?;
    Ok(is_unlisted && is_other && is_shut(rt, path, 84, MISSING)?)
}

#[test]
fn a_log_in_segments_comes_back(rt: HostRuntime) -> Result<(), Fail> {
    let path = "log-kept";
    let _ = fs::remove_dir_all(&rt, path);
    fs::create_dir(&rt, path)?;
    assert!(rt; goes_through(&rt, path)? && is_guarded(&rt, path)?);
    fs::remove_dir_all(&rt, path)?;
    Ok(())
}
