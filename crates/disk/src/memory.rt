// A blob in memory, whose calls can be made to fail, and which can crash.
ghost use Rattle.std.specs.Prelude.{◌≡◌, ◌≤◌, ◌<◌, ◌+◌, ◌-◌, ◌==◌, ◌++◌, [], ◌∷◌};
ghost use Rattle.std.specs.Prelude.{length, map, replicate, true, false};
ghost use Rattle.std.specs.Prelude.{vec_len, vec_capacity, if◌then◌else◌, IfOk, OnOk, OnErr};
ghost use Rattle.std.specs.Prelude.{IsOkUnless};
ghost use Rattle.std.specs.List.{concat};
ghost use Rattle.disk.specs.Disk.{IsImage, LeavesNoMore, Life, Write, Resize, failures, had_failed};
ghost use Rattle.disk.specs.Disk.{DeviceReadGoes, DeviceReadManyGoes, WriteGoes, ResizeGoes};
ghost use Rattle.disk.specs.Disk.{SyncGoes, StartReadGoes, StartGoes, WaitStartedGoes};
ghost use Rattle.disk.specs.History.{life_of, asked, begun, with_action, request_of};
ghost use Rattle.disk.specs.declared.action.Action.TheVariants as actions;
ghost use Rattle.disk.specs.Memory.{Asks, AsksStart, AsksWait, waits_in_vain, IsRange};
ghost use Rattle.disk.specs.Memory.{AreRanges, KeepsSettings, delivery};
ghost use Rattle.disk.specs.StartedRead.{answer_of};
ghost use Rattle.disk.specs.Torn.{torn};

use crate::action::{Action, Call, Event, Start, replay, tear};
use crate::ranges::{Ranges, copy_in_order, copy_ranges};
use crate::{Blob, Error, IoBuf, IoBufs, ReadOptions, StartedRead, StartedSync, WriteOptions};
use std::alloc::{AllocError, Global};
use std::marker::Model;

/// A blob in memory. It keeps what a crash needs to know: the bytes that its life began with, and
/// each device call since. A caller can choose a device call that is to fail, and can make the blob
/// crash, which begins a new life.
///
/// A call that answers `BlobInsufficientLength`, `OffsetOverflow` or `OutOfMemory` asks no device:
/// it changes nothing, stands in no log, and isn't counted by [`MemBlob::fail_at`].
pub struct MemBlob {
    alloc: Global,
    // The bytes that this life began with.
    first: Vec<u8>,
    // The device calls of all lives, and how many of them were made in earlier ones.
    calls: Vec<Call>,
    earlier: usize,
    // Whether each of the calls failed, and how many did.
    failed: Vec<bool>,
    failures: usize,
    // The device calls of this life, and how many of them are durable.
    events: Vec<Event>,
    settled: usize,
    // The syncs that were started in all lives; those of earlier ones have failed.
    starts: Vec<Start>,
    readable: Vec<u8>,
    // Which device call from now on is to fail; 0 for none.
    failing: u64,
    // Whether a read of several ranges delivers the last one first.
    backwards: bool,
}

// By hand, so that an owner lets one go by one call: of a derived drop, a proof follows each field
// at each exit.
impl Drop for MemBlob {
    fn drop(self) {
        let MemBlob {
            alloc: _,
            first: _,
            calls: _,
            earlier: _,
            failed: _,
            failures: _,
            events: _,
            settled: _,
            starts: _,
            readable: _,
            failing: _,
            backwards: _,
        } = self;
    }
}

impl Model for MemBlob {
    ghost use Rattle.disk.specs.History.{History};
    ghost use Rattle.disk.specs.Memory.{history_of, TellsHistory};

    ghost Value = { History };

    ghost view = { λ m. history_of m.first.items m.earlier m.calls.items m.failed.items
        m.events.items m.failing m.backwards };

    ghost invariant = { λ m. TellsHistory
        (history_of m.first.items m.earlier m.calls.items m.failed.items m.events.items m.failing
        m.backwards)
        m.readable.items m.calls.items m.failed.items m.failures m.earlier m.settled
        m.starts.items };
}

impl MemBlob {
    /// An empty blob.
    pub fn new(alloc: Global) -> Self
        ensures life { life_of result ≡ begun [] [] }
        ensures failing { result.failing ≡ 0 }
        ensures backwards { result.backwards ≡ false }
    {
        MemBlob::with_bytes(alloc, Vec::new(alloc), Vec::new(alloc))
    }

    /// A blob with a copy of these bytes, all durable. The only error is `OutOfMemory`.
    pub fn from_bytes(alloc: Global, bytes: &[u8]) -> Result<Self, Error>
        ensures life { IfOk result (λ blob. life_of blob ≡ begun bytes.now []) }
        ensures failing { IfOk result (λ blob. blob.failing ≡ 0) }
        ensures backwards { IfOk result (λ blob. blob.backwards ≡ false) }
        ensures err { IsOkUnless result Error.OutOfMemory }
    {
        let first = Vec::from_slice(alloc, bytes)?;
        let readable = Vec::from_slice(alloc, bytes)?;
        Ok(MemBlob::with_bytes(alloc, first, readable))
    }

    // A blob whose life begins with these bytes, which are passed twice.
    fn with_bytes(alloc: Global, first: Vec<u8>, readable: Vec<u8>) -> Self
        requires { readable.items ≡ first.items }
        ensures life { life_of result ≡ begun first.items [] }
        ensures failing { result.failing ≡ 0 }
        ensures backwards { result.backwards ≡ false }
    {
        MemBlob {
            alloc,
            first,
            calls: Vec::new(alloc),
            earlier: 0,
            failed: Vec::new(alloc),
            failures: 0,
            events: Vec::new(alloc),
            settled: 0,
            starts: Vec::new(alloc),
            readable,
            failing: 0,
            backwards: false,
        }
    }

    /// The readable bytes.
    pub fn bytes(&self) -> &[u8]
        ensures { result.now ≡ (life_of self.now).present.readable }
    {
        &self.readable
    }

    /// Each device call in order, across crashes.
    pub fn calls(&self) -> &[Call]
        ensures { map request_of result.now ≡ map (λ e. e.request) (life_of self.now).present.log }
    {
        &self.calls
    }

    /// How many device calls failed, across crashes.
    pub fn failures(&self) -> usize
        ensures { result ≡ failures (life_of self.now).present.log }
    {
        self.failures
    }

    /// The nth device call from now on is to fail, and no other one. A start of a sync answers `Ok`
    /// even if it fails, and each wait for that sync then fails. A start of reads that fails
    /// reports it at the wait for the reads.
    pub fn fail_at(&mut self, n: u64)
        requires { 1 ≤ n }
        ensures life { life_of self.new ≡ life_of self.old }
        ensures failing { self.new.failing ≡ n }
        ensures backwards { self.new.backwards ≡ self.old.backwards }
    {
        self.failing = n;
    }

    /// Whether each later [`Blob::read_many`] delivers the last range first. Before the first call
    /// of this, ranges come in rising order.
    pub fn deliver_backwards(&mut self, backwards: bool)
        ensures life { life_of self.new ≡ life_of self.old }
        ensures set { self.new ≡ record self.old { backwards = backwards } }
    {
        self.backwards = backwards;
    }

    /// Crashes, and begins a new life with what is left. That is the durable bytes, once a part of
    /// each operation that isn't durable is done to them, in order: of a write each byte whose flag
    /// is true, and a resize if its flag is true. `keep` holds one flag for each byte of a write
    /// and one for each resize. A missing flag is false. Until something is written, a later crash
    /// leaves nothing that this one might not have left.
    ///
    /// The only error is `OutOfMemory`, and then nothing changed.
    pub fn crash(&mut self, keep: &[bool]) -> Result<(), Error>
        ensures life { let old = (life_of self.old).present in
            OnOk result (life_of self.new ≡ begun (torn keep.now old.since old.base) old.log) }
        ensures image { let old = (life_of self.old).present in
            IsImage old (torn keep.now old.since old.base) }
        ensures leaves { LeavesNoMore (life_of self.old).present (life_of self.new).present }
        ensures settings { KeepsSettings self.old self.new }
        ensures same { OnErr result (self.new ≡ self.old) }
        ensures err { IsOkUnless result Error.OutOfMemory }
    {
        let image = self.left(keep)?;
        let readable = Vec::from_slice(self.alloc, &image)?;
        let starts = spent(self.alloc, self.starts.len())?;
        self.starts = starts;
        self.first = image;
        self.readable = readable;
        self.earlier = self.calls.len();
        self.events.clear();
        self.settled = 0;
        Ok(())
    }

    // What a crash leaves.
    fn left(&self, keep: &[bool]) -> Result<Vec<u8>, AllocError>
        ensures { let now = (life_of self.now).present in
            IfOk result (λ image. image.items ≡ torn keep.now now.since now.base) }
    {
        let (settled, since) = self.events.split_at(self.settled);
        let mut image = replay(self.alloc, &self.first, settled)?;
        tear(&mut image, since, keep)?;
        Ok(image)
    }

    // The bytes of a range, copied.
    fn range(&self, alloc: Global, offset: u64, len: usize) -> Result<IoBuf, Error>
        ensures { IsRange offset len (life_of self.now).present.readable result }
    {
        IoBuf::copy_range(alloc, self.bytes(), offset, len)
    }

    // The bytes of several ranges, copied, in the order in which they are to be delivered.
    fn ranges(
        &self,
        alloc: Global,
        ranges: &[(u64, usize)],
        out: &mut Vec<(usize, IoBuf)>,
    ) -> Result<(), Error>
        ensures ranges { let readable = (life_of self.now).present.readable in
            AreRanges ranges.now readable out.new.items result }
        ensures order { let readable = (life_of self.now).present.readable in
            OnOk result (out.new.items ≡ delivery self.now.backwards ranges.now readable) }
    {
        copy_ranges(alloc, self.bytes(), ranges, out)?;
        if self.backwards {
            out.reverse();
        }
        Ok(())
    }

    // Starts a read of several ranges, and answers what the started read is to keep.
    fn start_ranges(&mut self, alloc: Global, ranges: &[(u64, usize)]) -> Result<Vec<IoBuf>, Error>
        ensures goes { let old = life_of self.old in let new = life_of self.new in
            StartReadGoes ranges.now old new (answer_of result) }
        ensures asks { Asks (actions.StartReadMany ranges.now) self.old self.new (answer_of result) }
    {
        let bufs = copy_in_order(alloc, self.bytes(), ranges)?;
        let asked = Ranges::from_slice(alloc, ranges)?;
        if self.ask(Action::StartReadMany(asked))? {
            return Err(Error::ReadFailed);
        }
        Ok(bufs)
    }

    // Whether a wait for this sync can only fail.
    fn has_failed(&self, name: u64) -> bool
        ensures { result ≡ had_failed (life_of self.now).present.started name }
    {
        match self.starts.get(name as usize) {
            None => true,
            Some(start) => start.failed,
        }
    }

    // Asks the device, and answers whether the device failed. An `Err` leaves all as it was.
    fn ask(&mut self, action: Action) -> Result<bool, AllocError>
        ensures failed { IfOk result (λ failed. failed ≡ (self.old.failing == 1)) }
        ensures told { OnOk result (self.new ≡ with_action action self.old) }
        ensures same { OnErr result (self.new ≡ self.old) }
    {
        let event = Event {
            action,
            failed: self.failing == 1,
        };
        // What may fail comes before the first change, also where the device is to fail.
        let call = prepare(
            self.alloc,
            &event.action,
            &mut self.calls,
            &mut self.failed,
            &mut self.events,
            &mut self.starts,
            &mut self.readable,
        )?;
        event.redo(&mut self.readable)?;
        self.settled = event.settled_after(&self.starts, self.settled, self.events.len());
        event.record_start(&mut self.starts, self.events.len());
        self.calls.push_reserved(call);
        self.failed.push_reserved(event.failed);
        self.failures += event.faults();
        self.failing = self.failing.saturating_sub(1);
        let failed = event.failed;
        self.events.push_reserved(event);
        Ok(failed)
    }
}

impl Blob for MemBlob {
    ghost use Rattle.disk.specs.Lives.{life_reads, life_covers};

    ghost life = { life_of };

    fn len(&self) -> u64 {
        self.readable.len() as u64
    }

    fn read_at(
        &mut self,
        alloc: Global,
        offset: u64,
        len: usize,
        _options: ReadOptions,
    ) -> Result<IoBuf, Error>
        ensures goes { DeviceReadGoes offset len (life_of self.old) (life_of self.new) result }
        ensures asks { Asks (actions.Read offset len) self.old self.new result }
    {
        let bytes = self.range(alloc, offset, len)?;
        if self.ask(Action::Read(offset, len))? {
            return Err(Error::ReadFailed);
        }
        Ok(bytes)
    }

    fn read_many(
        &mut self,
        alloc: Global,
        ranges: &[(u64, usize)],
        _options: ReadOptions,
        out: &mut Vec<(usize, IoBuf)>,
    ) -> Result<(), Error>
        ensures goes { let old = life_of self.old in let new = life_of self.new in
            DeviceReadManyGoes ranges.now old new out.new.items result }
        ensures asks { Asks (actions.ReadMany ranges.now) self.old self.new result }
        ensures order { let readable = (life_of self.old).present.readable in
            OnOk result (out.new.items ≡ delivery self.old.backwards ranges.now readable) }
    {
        self.ranges(alloc, ranges, out)?;
        let asked = Ranges::from_slice(alloc, ranges)?;
        if self.ask(Action::ReadMany(asked))? {
            return Err(Error::ReadFailed);
        }
        Ok(())
    }

    fn start_read_many(
        &mut self,
        alloc: Global,
        ranges: &[(u64, usize)],
        _options: ReadOptions,
    ) -> StartedRead
        ensures goes { StartReadGoes ranges.now (life_of self.old) (life_of self.new) result }
        ensures asks { Asks (actions.StartReadMany ranges.now) self.old self.new result }
    {
        StartedRead::kept(self.start_ranges(alloc, ranges))
    }

    // What is unsynced before a durable write is made durable with it.
    fn write_at(&mut self, offset: u64, bufs: &IoBufs, options: WriteOptions) -> Result<(), Error>
        ensures goes { WriteGoes offset (concat bufs.now) options.sync (life_of self.old)
            (life_of self.new) result }
        ensures asks { let bytes = concat bufs.now in
            Asks (actions.Write offset bytes options.sync) self.old self.new result }
    {
        if offset.checked_add(bufs.len() as u64).is_none() {
            return Err(Error::OffsetOverflow);
        }
        let bytes = bufs.coalesce()?;
        if self.ask(Action::Write(offset, bytes, options.sync))? {
            return Err(Error::WriteFailed);
        }
        Ok(())
    }

    fn resize(&mut self, len: u64) -> Result<(), Error>
        ensures goes { ResizeGoes len (life_of self.old) (life_of self.new) result }
        ensures asks { Asks (actions.Resize len) self.old self.new result }
    {
        if self.ask(Action::Resize(len))? {
            return Err(Error::ResizeFailed);
        }
        Ok(())
    }

    fn sync(&mut self) -> Result<(), Error>
        ensures goes { SyncGoes (life_of self.old) (life_of self.new) result }
        ensures asks { Asks actions.Sync self.old self.new result }
    {
        if self.ask(Action::Sync)? {
            return Err(Error::SyncFailed);
        }
        Ok(())
    }

    fn start_sync(&mut self) -> Result<StartedSync, Error>
        ensures goes { StartGoes (life_of self.old) (life_of self.new) result }
        ensures asks { AsksStart self.old self.new result }
    {
        let name = self.starts.len() as u64;
        self.ask(Action::StartSync)?;
        Ok(StartedSync::Named(name))
    }

    fn wait_sync(&mut self, started: StartedSync) -> Result<(), Error>
        ensures goes { WaitStartedGoes started (life_of self.old) (life_of self.new) result }
        ensures asks { let named = (life_of self.old).present.started in
            AsksWait started (waits_in_vain started named) self.old self.new result }
    {
        let StartedSync::Named(name) = started else {
            return Ok(());
        };
        let has_failed = self.has_failed(name);
        if self.ask(Action::WaitSync(name))? || has_failed {
            return Err(Error::SyncFailed);
        }
        Ok(())
    }

    ghost readable_is_image = { life_reads };

    ghost starts_are_covered = { life_covers };
}

// So many started syncs of earlier lives, of which each has failed.
fn spent(alloc: Global, count: usize) -> Result<Vec<Start>, AllocError>
    ensures { IfOk result (λ starts.
        starts.items ≡ replicate count (record { events = 0; failed = true })) }
{
    let mut starts = Vec::new(alloc);
    starts.resize(
        count,
        Start {
            events: 0,
            failed: true,
        },
    )?;
    Ok(starts)
}

// The call that an action makes, and room for all that it leaves. Nothing changes except the room.
fn prepare(
    alloc: Global,
    action: &Action,
    calls: &mut Vec<Call>,
    failed: &mut Vec<bool>,
    events: &mut Vec<Event>,
    starts: &mut Vec<Start>,
    readable: &mut Vec<u8>,
) -> Result<Call, AllocError>
    ensures call { IfOk result (λ call. request_of call ≡ asked action.now) }
    ensures calls { calls.new.items ≡ calls.old.items }
    ensures failed { failed.new.items ≡ failed.old.items }
    ensures events { events.new.items ≡ events.old.items }
    ensures starts { starts.new.items ≡ starts.old.items }
    ensures readable { readable.new.items ≡ readable.old.items }
    ensures room { IfOk result (λ call. (vec_len calls.new < vec_capacity calls.new)
        × (vec_len failed.new < vec_capacity failed.new)
        × (vec_len events.new < vec_capacity events.new)
        × (vec_len starts.new < vec_capacity starts.new)) }
{
    make_room(calls, failed, events)?;
    starts.try_reserve(1)?;
    action.reserve(readable)?;
    action.call(alloc)
}

// Room for one device call more.
fn make_room(
    calls: &mut Vec<Call>,
    failed: &mut Vec<bool>,
    events: &mut Vec<Event>,
) -> Result<(), AllocError>
    ensures calls { calls.new.items ≡ calls.old.items }
    ensures failed { failed.new.items ≡ failed.old.items }
    ensures events { events.new.items ≡ events.old.items }
    ensures room { OnOk result ((vec_len calls.new < vec_capacity calls.new)
        × (vec_len failed.new < vec_capacity failed.new)
        × (vec_len events.new < vec_capacity events.new)) }
{
    calls.try_reserve(1)?;
    failed.try_reserve(1)?;
    events.try_reserve(1)?;
    Ok(())
}
