// A journal over a blob in memory.
ghost use Rattle.std.specs.Prelude.{IfOk};
ghost use Rattle.cache.specs.Pages.{IsFresh};

use crate::calls::say_calls;
use crate::forms::Argument::{Bytes, Flags, Number};
use crate::forms::{Arguments, Form, read_step};
use crate::line::Row;
use crate::subject::Subject;
use crate::words::{
    buffer_size, is_refusal, out_of_memory, page_size, say_bytes, say_done, say_error, unreadable,
};
use cache::CacheRef;
use disk::{Blob, Error, IoBuf, MemBlob};
use journal::{Found, Journal, Reader, crash_and_recover, frame_of};
use page::Sum;
use paged::Writer;
use scripts::Hex;
use std::alloc::Global;
use std::io;
use std::io::Write;
use std::marker::Model;
use std::num::{NonZeroU16, NonZeroUsize};

/// What a journal's blob and its cache are made with.
#[derive(Clone, Copy)]
pub struct Sizes {
    /// The logical bytes of a page.
    page_size: NonZeroU16,
    /// The bytes that the writer may hold back.
    capacity: usize,
    /// The pages that the cache may hold.
    pages: NonZeroUsize,
}

impl Sizes {
    /// Reads the sizes from the words of a `start` line. Without three numbers there are pages of
    /// 16 bytes, a buffer of two pages, and a cache of one.
    pub fn read(words: &Arguments) -> io::Result<Sizes> {
        let [page, capacity, pages] = match words.numbers.as_slice() {
            [page, capacity, pages] => [*page, *capacity, *pages],
            _ => [16, 32, 1],
        };
        Ok(Sizes {
            page_size: page_size(page)?,
            capacity: capacity as usize,
            pages: buffer_size(pages),
        })
    }
}

// What a step asks of a journal.
#[derive(Clone, Copy)]
enum Verb {
    Content,
    Recover,
    Crash,
    Record,
    Commit,
    Read,
    Reader,
    Next,
    Fail,
    Size,
    Len,
    RecoverFailing,
    Frame,
}

const STEPS: [Form<Verb>; 13] = [
    (b"content", &[Bytes], Verb::Content),
    (b"recover", &[Number], Verb::Recover),
    (b"crash", &[Flags], Verb::Crash),
    (b"record", &[Bytes], Verb::Record),
    (b"commit", &[], Verb::Commit),
    (b"read", &[Number], Verb::Read),
    (b"reader", &[], Verb::Reader),
    (b"next", &[], Verb::Next),
    (b"fail", &[Number], Verb::Fail),
    (b"size", &[], Verb::Size),
    (b"len", &[], Verb::Len),
    (b"recover-failing", &[], Verb::RecoverFailing),
    (b"frame", &[Bytes], Verb::Frame),
];

/// A blob with its cache, and the journal on it and a reader of the journal, if there are such.
pub struct Journals<H: Sum, R: Sum> {
    sizes: Sizes,
    blob: MemBlob,
    cache: CacheRef,
    journal: Option<Journal<MemBlob, H, R>>,
    reader: Option<Reader<MemBlob, H, R>>,
}

// By hand, so that an owner lets one go by one call: of a derived drop, a proof follows each field
// at each exit.
impl<H: Sum, R: Sum> Drop for Journals<H, R> {
    fn drop(self) {
        let Journals {
            sizes: _,
            blob: _,
            cache: _,
            journal: _,
            reader: _,
        } = self;
    }
}

impl<H: Sum, R: Sum> Model for Journals<H, R> {
    ghost use Rattle.std.specs.Prelude.{◌≤◌, IfSome};
    ghost use Rattle.disk.specs.History.{life_of};
    ghost use Rattle.cache.specs.Pages.{IsFresh};
    ghost use Rattle.journal.specs.Journal.{IsJournal};
    ghost use Rattle.journal.specs.Reader.{IsReader};

    ghost Value = { Unit {0} };

    ghost view = { λ j. tt };

    ghost invariant = { λ j. IsFresh j.cache
        × IfSome j.journal (λ journal. IsJournal H.sum_of journal j.cache (life_of j.blob))
        × IfSome j.reader (λ reader. IsReader H.sum_of reader j.cache (life_of j.blob))
        × IfSome j.journal (λ journal. IfSome j.reader (λ reader.
        reader.tail.full_pages ≤ journal.full_pages)) };
}

fn new_cache(alloc: Global, sizes: Sizes) -> Result<CacheRef, Error>
    ensures { IfOk result (λ cache. IsFresh cache) }
{
    CacheRef::new(alloc, sizes.page_size, sizes.pages)
}

fn say_records(records: &[IoBuf], size: u64, said: &mut Vec<u8>) -> io::Result<()> {
    write!(said, "records")?;
    for record in records {
        write!(said, " {}", Hex(record.as_ref()))?;
    }
    write!(said, " size {size}")
}

fn say_found(found: Result<Option<Found>, Error>, said: &mut Vec<u8>) -> io::Result<()> {
    match found {
        Ok(Some(found)) => {
            match &found.bytes {
                Some(bytes) => write!(said, "record {}", Hex(bytes.as_ref()))?,
                None => write!(said, "frame")?,
            }
            write!(said, " end {}", found.end)
        }
        Ok(None) => write!(said, "none"),
        Err(error) => say_error(error, said),
    }
}

fn say_next(next: Result<Option<IoBuf>, Error>, said: &mut Vec<u8>) -> io::Result<()> {
    match next {
        Ok(Some(record)) => say_bytes("record", record.as_ref(), said),
        Ok(None) => write!(said, "none"),
        Err(error) => say_error(error, said),
    }
}

fn say_appended(answer: Result<Option<u64>, Error>, said: &mut Vec<u8>) -> io::Result<()> {
    match answer {
        Ok(Some(offset)) => write!(said, "at {offset}"),
        Ok(None) => write!(said, "closed"),
        Err(error) => say_error(error, said),
    }
}

// A blob with these logical bytes, all of them durable.
fn blob_of<H: Sum>(alloc: Global, sizes: Sizes, bytes: &[u8]) -> Result<MemBlob, Error> {
    let mut cache = new_cache(alloc, sizes)?;
    let mut blob = MemBlob::new(alloc);
    let recovery = paged::recover::<MemBlob, H>(
        alloc,
        &mut blob,
        0,
        sizes.capacity,
        &mut cache,
        NonZeroUsize::MIN,
    )?;
    let writer: Writer<MemBlob, H> = Writer::from(recovery);
    let (writer, _) = writer.append(&mut blob, &mut cache, bytes)?;
    drop(writer.sync(&mut blob, &mut cache)?);
    Ok(blob)
}

impl<H: Sum, R: Sum> Journals<H, R> {
    /// An empty blob, and no journal.
    pub fn new(alloc: Global, sizes: Sizes) -> io::Result<Box<Self>> {
        let Ok(cache) = new_cache(alloc, sizes) else {
            return Err(out_of_memory());
        };
        Ok(Box::new(
            alloc,
            Journals {
                sizes,
                blob: MemBlob::new(alloc),
                cache,
                journal: None,
                reader: None,
            },
        )?)
    }

    // Begins again, with a blob of these logical bytes.
    fn begin(&mut self, alloc: Global, bytes: &[u8], said: &mut Vec<u8>) -> io::Result<()> {
        self.journal = None;
        self.reader = None;
        match blob_of::<H>(alloc, self.sizes, bytes) {
            Ok(blob) => {
                self.blob = blob;
                say_done(Ok(()), said)
            }
            Err(error) => say_error(error, said),
        }
    }

    fn recover(&mut self, alloc: Global, by: NonZeroUsize) -> Result<Vec<IoBuf>, Error> {
        self.journal = None;
        self.reader = None;
        let size = self.blob.len();
        let (journal, records) = Journal::<MemBlob, H, R>::recover(
            alloc,
            &mut self.blob,
            size,
            self.sizes.capacity,
            &mut self.cache,
            by,
        )?;
        self.journal = Some(journal);
        Ok(records)
    }

    fn crash(&mut self, alloc: Global, keep: &[bool]) -> Result<Vec<IoBuf>, Error> {
        self.journal = None;
        self.reader = None;
        let (journal, records) = crash_and_recover::<H, R>(
            alloc,
            &mut self.blob,
            keep,
            self.sizes.capacity,
            &mut self.cache,
            NonZeroUsize::MIN,
        )?;
        self.journal = Some(journal);
        Ok(records)
    }

    fn size(&self) -> u64 {
        match &self.journal {
            Some(journal) => journal.size(),
            None => 0,
        }
    }

    fn say_answer(&self, answer: Result<Vec<IoBuf>, Error>, said: &mut Vec<u8>) -> io::Result<()> {
        match answer {
            Ok(records) => say_records(&records, self.size(), said),
            Err(error) => say_error(error, said),
        }
    }

    // Appends a record, and answers the offset of its frame, or `None` if there is no journal or
    // the record is too long. After an error or a record that is too long the journal is gone.
    #[tactic(auto, using(crate::proofs::ReaderLaws::reader_stays))]
    fn append(&mut self, bytes: &[u8]) -> Result<Option<u64>, Error> {
        let Some(journal) = self.journal.take() else {
            return Ok(None);
        };
        if bytes.len() > 65535 {
            return Ok(None);
        }
        let (journal, offset) = journal.append_record(&mut self.blob, &mut self.cache, bytes)?;
        self.journal = Some(journal);
        Ok(Some(offset))
    }

    #[tactic(auto, using(crate::proofs::ReaderLaws::reader_stays))]
    fn commit(&mut self) -> Result<(), Error> {
        let Some(journal) = self.journal.take() else {
            return Ok(());
        };
        let journal = journal.commit(&mut self.blob, &mut self.cache)?;
        self.journal = Some(journal);
        Ok(())
    }

    fn read(&mut self, offset: u64) -> Result<Option<Found>, Error> {
        match &self.journal {
            Some(journal) => journal.read_record(&mut self.blob, &mut self.cache, offset),
            None => Ok(None),
        }
    }

    // Begins a reader of the records that there are. After an error the journal is gone.
    fn begin_reader(&mut self) -> Result<(), Error> {
        let Some(journal) = self.journal.take() else {
            return Ok(());
        };
        let (journal, reader) = journal.reader(&mut self.blob, &mut self.cache)?;
        self.journal = Some(journal);
        self.reader = Some(reader);
        Ok(())
    }

    fn next(&mut self) -> Result<Option<IoBuf>, Error> {
        match &mut self.reader {
            Some(reader) => reader.next(&mut self.blob, &mut self.cache),
            None => Ok(None),
        }
    }

    // Recovers once for each device call of a recovery, with that call failing. Answers how many of
    // these recoveries succeed with the wanted records, since they read again what wasn't read.
    fn recover_failing(&mut self, alloc: Global, calls: usize, wanted: &[u8]) -> io::Result<usize> {
        let mut again: usize = 0;
        for index in 0..calls as u64 {
            self.blob.fail_at(index.saturating_add(1));
            let answer = self.recover(alloc, NonZeroUsize::MIN);
            let mut got = Vec::new(alloc);
            self.say_answer(answer, &mut got)?;
            if got.as_slice() == wanted {
                again = again.saturating_add(1);
            } else if is_refusal(&got) {
                return Err(out_of_memory());
            } else if !is_of_the_device(&got) {
                return Err(unreadable());
            }
        }
        Ok(again)
    }

    fn try_recoveries(&mut self, alloc: Global, said: &mut Vec<u8>) -> io::Result<()> {
        let before = self.blob.calls().len();
        let answer = self.recover(alloc, NonZeroUsize::MIN);
        let mut wanted = Vec::new(alloc);
        self.say_answer(answer, &mut wanted)?;
        if is_refusal(&wanted) {
            return Err(out_of_memory());
        }
        let calls = self.blob.calls().len().saturating_sub(before);
        let again = self.recover_failing(alloc, calls, &wanted)?;
        write!(said, "read again {again}")
    }
}

fn is_of_the_device(said: &[u8]) -> bool {
    said == b"fault E1 ReadFailed".as_slice() || said == b"fault E4 SyncFailed".as_slice()
}

// The frame of a record.
fn say_frame<R: Sum>(alloc: Global, record: &[u8], said: &mut Vec<u8>) -> io::Result<()> {
    if record.len() > 65535 {
        return Err(unreadable());
    }
    match frame_of::<R>(alloc, record) {
        Ok(frame) => write!(said, "frame {}", Hex(&frame)),
        Err(error) => say_error(error, said),
    }
}

impl<H: Sum, R: Sum> Subject for Journals<H, R> {
    fn play(&mut self, alloc: Global, row: &Row, said: &mut Vec<u8>) -> io::Result<()> {
        let Some((verb, words)) = read_step(alloc, &STEPS, &row.step)? else {
            return Err(unreadable());
        };
        let (number, bytes) = (words.number(0), words.bytes());
        match verb {
            Verb::Content => self.begin(alloc, bytes, said),
            Verb::Recover => {
                let answer = self.recover(alloc, buffer_size(number));
                self.say_answer(answer, said)
            }
            Verb::Crash => {
                let answer = self.crash(alloc, &words.flags);
                self.say_answer(answer, said)
            }
            Verb::Record => say_appended(self.append(bytes), said),
            Verb::Commit => say_done(self.commit(), said),
            Verb::Read => say_found(self.read(number), said),
            Verb::Reader => say_done(self.begin_reader(), said),
            Verb::Next => say_next(self.next(), said),
            Verb::Fail => {
                self.blob.fail_at(number.max(1));
                say_done(Ok(()), said)
            }
            Verb::Size => write!(said, "size {}", self.size()),
            Verb::Len => write!(said, "len {}", self.blob.len()),
            Verb::RecoverFailing => self.try_recoveries(alloc, said),
            Verb::Frame => say_frame::<R>(alloc, bytes, said),
        }
    }

    fn calls(&self) -> usize {
        self.blob.calls().len()
    }

    fn say_calls(&self, first: usize, said: &mut Vec<u8>) -> io::Result<()> {
        say_calls(self.blob.calls(), first, said)
    }
}
