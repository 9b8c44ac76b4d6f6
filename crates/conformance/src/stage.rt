// What a case runs over.
use crate::setting::Setting;
use crate::subject::Tearable;
use cache::CacheRef;
use disk::{Blob, Call, Error, MemBlob};
use page::Sum;
use paged::{Outlook, Recovery, Survey, look, survey};
use session::{Reply, Session, Step, run};
use std::alloc::Global;
use std::marker::Model;
use std::mem;
use std::num::{NonZeroU16, NonZeroUsize};

/// A blob in memory with its cache, and the session on it. It is handed out in a box.
pub struct Stage<H: Sum> {
    alloc: Global,
    setting: Setting,
    blob: MemBlob,
    cache: CacheRef,
    session: Session<MemBlob, H>,
    // How many device calls there were at the last `mark`.
    mark: usize,
}

// By hand, so that an owner lets one go by one call: of a derived drop, a proof follows each field
// at each exit.
impl<H: Sum> Drop for Stage<H> {
    fn drop(self) {
        let Stage {
            alloc: _,
            setting: _,
            blob: _,
            cache: _,
            session: _,
            mark: _,
        } = self;
    }
}

impl<H: Sum> Model for Stage<H> {
    ghost use Rattle.disk.specs.History.{life_of};
    ghost use Rattle.session.specs.Run.{IsSessionReady};

    ghost Value = { Unit {0} };

    ghost view = { λ s. tt };

    ghost invariant = { λ s. IsSessionReady H.sum_of s.session s.cache (life_of s.blob).present };
}

impl<H: Sum> Stage<H> {
    /// A blob of these bytes, all durable, and no writer.
    pub fn new(alloc: Global, setting: Setting, bytes: &[u8]) -> Result<Box<Self>, Error> {
        let stage = Stage {
            alloc,
            setting,
            blob: MemBlob::from_bytes(alloc, bytes)?,
            cache: CacheRef::new(alloc, setting.page_size, setting.pages)?,
            session: Session::closed(alloc),
            mark: 0,
        };
        let mut stage = Box::new(alloc, stage)?;
        stage.blob.deliver_backwards(setting.backwards);
        Ok(stage)
    }

    /// A stage with the settings of this one, over other bytes.
    pub fn another(&self, alloc: Global, bytes: &[u8]) -> Result<Box<Self>, Error> {
        Stage::new(alloc, self.setting, bytes)
    }

    /// The logical bytes of a page.
    pub fn page_size(&self) -> NonZeroU16 {
        self.setting.page_size
    }

    /// Recovers the blob as it is, by reads of so many bytes, and answers how many logical bytes
    /// are left.
    pub fn recover(&mut self, buffer_size: NonZeroUsize) -> Result<u64, Error> {
        self.session = Session::closed(self.alloc);
        let size = self.blob.len();
        self.session = Session::recover(
            self.alloc,
            &mut self.blob,
            size,
            self.setting.capacity,
            &mut self.cache,
            buffer_size,
        )?;
        Ok(self.session.size().unwrap_or(0))
    }

    /// Opens the blob as it is, without going over it, and answers how many logical bytes the
    /// content has.
    pub fn open(&mut self) -> Result<u64, Error> {
        self.session = Session::closed(self.alloc);
        let size = self.blob.len();
        let recovery = Recovery::<MemBlob, H>::open(
            self.alloc,
            &mut self.blob,
            size,
            self.setting.capacity,
            &mut self.cache,
        )?;
        Ok(recovery.size())
    }

    /// Opens the blob as it is, without going over it, and cuts it to so many logical bytes.
    pub fn cut(&mut self, size: u64) -> Result<u64, Error> {
        self.session = Session::closed(self.alloc);
        let len = self.blob.len();
        let recovery = Recovery::<MemBlob, H>::open(
            self.alloc,
            &mut self.blob,
            len,
            self.setting.capacity,
            &mut self.cache,
        )?;
        Ok(
            recovery
                .truncate(&mut self.blob, &mut self.cache, size)?
                .size(),
        )
    }

    /// What a recovery would make of the blob.
    pub fn look(&mut self, buffer_size: NonZeroUsize) -> Result<Outlook, Error> {
        let size = self.blob.len();
        self.session = Session::closed(self.alloc);
        let page_size = self.setting.page_size;
        look::<MemBlob, H>(self.alloc, &mut self.blob, size, page_size, buffer_size)
    }

    /// What a recovery would make of the blob, and what the recovery would give up.
    pub fn survey(&mut self, buffer_size: NonZeroUsize) -> Result<Survey, Error> {
        let size = self.blob.len();
        self.session = Session::closed(self.alloc);
        let page_size = self.setting.page_size;
        survey::<MemBlob, H>(self.alloc, &mut self.blob, size, page_size, buffer_size)
    }

    /// Takes a step.
    pub fn step(&mut self, step: Step) -> Reply {
        let mut replies = Vec::new(self.alloc);
        match run(
            &mut self.session,
            &mut self.blob,
            &mut self.cache,
            &[step],
            &mut replies,
        ) {
            Ok(()) => replies.pop().unwrap_or(Reply::Closed),
            Err(error) => Reply::Fault(error),
        }
    }

    /// Crashes, with these flags for what isn't durable, and answers how many physical bytes are
    /// left.
    pub fn crash(&mut self, keep: &[bool]) -> Result<u64, Error> {
        self.session.crash(&mut self.blob, keep)?;
        Ok(self.blob.len())
    }

    /// Crashes, with these flags for what isn't durable, recovers, and answers how many logical bytes
    /// are left.
    pub fn crash_and_recover(&mut self, keep: &[bool]) -> Result<u64, Error> {
        let mut session = mem::replace(&mut self.session, Session::closed(self.alloc));
        session.crash_and_recover(
            &mut self.blob,
            keep,
            self.setting.capacity,
            &mut self.cache,
            NonZeroUsize::MIN,
        )?;
        self.session = session;
        Ok(self.session.size().unwrap_or(0))
    }

    /// The logical bytes of the content; 0 if there is no writer.
    pub fn size(&self) -> u64 {
        self.session.size().unwrap_or(0)
    }

    /// The physical bytes of the blob.
    pub fn bytes(&self) -> &[u8] {
        self.blob.bytes()
    }

    /// The device calls, across crashes.
    pub fn device_calls(&self) -> &[Call] {
        self.blob.calls()
    }

    /// Marks the device calls so far: `calls` writes those after the last mark.
    pub fn mark(&mut self) {
        self.mark = self.blob.calls().len();
    }

    /// How many device calls there were at the last mark.
    pub fn marked(&self) -> usize {
        self.mark
    }

    /// Whether the cache holds a page of the blob under this id.
    pub fn holds(&self, id: u64, page: u64) -> bool {
        self.cache.holds(id, page)
    }
}

impl<H: Sum> Tearable for Stage<H> {
    fn call_at(&self, index: usize) -> Option<&Call> {
        self.blob.calls().get(index)
    }

    fn fail_at(&mut self, n: u64) {
        self.blob.fail_at(n.max(1));
    }

    fn tear(&mut self, keep: &[bool]) -> Result<(), Error> {
        self.session.crash(&mut self.blob, keep)
    }
}
