// What a device is asked for.
ghost use Rattle.std.specs.Prelude.{[], ◌∷◌, if◌then◌else◌, ◌≡◌, ◌≤◌, ◌+◌, ◌-◌, ◌<◌, ◌^◌, ◌++◌};
ghost use Rattle.std.specs.Prelude.{length, take, drop, replicate, vec_len, vec_capacity};
ghost use Rattle.std.specs.Prelude.{OnOk, OnErr, IfOk, IsOk};
ghost use Rattle.disk.specs.Disk.{applied, Write};
ghost use Rattle.disk.specs.History.{request_of, asked, done, redone, replayed};
ghost use Rattle.disk.specs.History.{operations_of, TornBy};
ghost use Rattle.disk.specs.Memory.{settled_after, starts_after, failing_at};
ghost use Rattle.disk.specs.Torn.{torn, torn_write};

use crate::IoBuf;
use crate::ranges::Ranges;
use std::alloc::{AllocError, Global};

/// A device call, as it stands in the log. Offsets and numbers are in bytes.
#[derive(Drop)]
pub enum Call {
    /// A read: the offset and the number of bytes.
    ReadAt(u64, usize),
    /// A read of several ranges: for each the offset and the number of bytes.
    ReadMany(Vec<(u64, usize)>),
    /// The start of a read of several ranges: for each the offset and the number of bytes.
    StartReadMany(Vec<(u64, usize)>),
    /// A write: the offset, the number of bytes, and whether it was to be durable.
    WriteAt(u64, usize, bool),
    /// A resize: the new length in bytes.
    Resize(u64),
    /// A sync.
    Sync,
    /// The start of a sync.
    StartSync,
    /// A wait for a started sync, by its name.
    WaitSync(u64),
}

/// What a device is asked for, with all that is needed to do it again.
#[derive(Drop)]
pub enum Action {
    Read(u64, usize),
    ReadMany(Ranges),
    StartReadMany(Ranges),
    Write(u64, IoBuf, bool),
    Resize(u64),
    Sync,
    StartSync,
    WaitSync(u64),
}

/// What a device was asked for, and whether it failed.
#[derive(Drop)]
pub struct Event {
    pub action: Action,
    pub failed: bool,
}

/// A sync that was started: how many of the life's events it covers, and whether the start or a
/// wait for it failed.
#[derive(Clone, Copy)]
pub struct Start {
    pub events: usize,
    pub failed: bool,
}

impl Action {
    /// The call as it stands in the log, with a copy of its ranges.
    pub fn call(&self, alloc: Global) -> Result<Call, AllocError>
        ensures { IfOk result (λ call. request_of call ≡ asked self.now) }
    {
        Ok(match self {
            Action::Read(offset, len) => Call::ReadAt(*offset, *len),
            Action::ReadMany(ranges) => Call::ReadMany(ranges.to_vec(alloc)?),
            Action::StartReadMany(ranges) => Call::StartReadMany(ranges.to_vec(alloc)?),
            Action::Write(offset, bytes, sync) => Call::WriteAt(*offset, bytes.len(), *sync),
            Action::Resize(len) => Call::Resize(*len),
            Action::Sync => Call::Sync,
            Action::StartSync => Call::StartSync,
            Action::WaitSync(name) => Call::WaitSync(*name),
        })
    }

    /// Does to `image` what a crash leaves of this action: the bytes of a write whose flags are
    /// true, or a resize whose flag is true. It answers the flags that are left over.
    pub fn tear<'a>(&self, image: &mut Vec<u8>, keep: &'a [bool]) -> Result<&'a [bool], AllocError>
        ensures { IfOk result (λ rest.
            TornBy self.now keep.now rest.now image.old.items image.new.items) }
    {
        match self {
            Action::Write(offset, bytes, _) => {
                let (flags, rest) = keep.split_at(bytes.len().min(keep.len()));
                tear_write(image, *offset as usize, bytes.as_ref(), flags)?;
                Ok(rest)
            }
            Action::Resize(len) => match keep.split_first() {
                Some((flag, rest)) => {
                    if *flag {
                        image.resize(*len as usize, 0)?;
                    }
                    Ok(rest)
                }
                None => Ok(keep),
            },
            _ => Ok(keep),
        }
    }

    /// Makes room in `bytes` for what they are once the action is done.
    pub fn reserve(&self, bytes: &mut Vec<u8>) -> Result<(), AllocError>
        ensures same { bytes.new.items ≡ bytes.old.items }
        ensures room { OnOk result
            (length (done self.now bytes.old.items) ≤ vec_capacity bytes.new) }
    {
        let len = match self {
            Action::Write(offset, new, _) => (*offset as usize).checked_add(new.len()),
            Action::Resize(len) => Some(*len as usize),
            _ => Some(0),
        };
        match len {
            Some(len) => bytes.try_reserve(len.saturating_sub(bytes.len())),
            None => Err(AllocError),
        }
    }

    /// Does the action to these bytes. An `Err` leaves them as they were.
    pub fn perform(&self, bytes: &mut Vec<u8>) -> Result<(), AllocError>
        ensures ok { OnOk result (bytes.new.items ≡ done self.now bytes.old.items) }
        ensures err { OnErr result (bytes.new.items ≡ bytes.old.items) }
    {
        match self {
            Action::Write(offset, new, _) => write_over(bytes, *offset as usize, new.as_ref()),
            Action::Resize(len) => bytes.resize(*len as usize, 0),
            _ => Ok(()),
        }
    }
}

impl Event {
    /// How many events are durable after this one, where `settled` of the `events` before it were,
    /// and these syncs were started.
    pub fn settled_after(&self, starts: &[Start], settled: usize, events: usize) -> usize
        requires { events + 1 < 2 ^ 64 }
        ensures { result
            ≡ settled_after self.now.action self.now.failed starts.now settled events }
    {
        if self.failed {
            return settled;
        }
        match &self.action {
            Action::Sync | Action::Write(_, _, true) => events + 1,
            Action::WaitSync(name) => match starts.get(*name as usize) {
                Some(start) if !start.failed => settled.max(start.events),
                _ => settled,
            },
            _ => settled,
        }
    }

    /// Adds the sync that this event starts, after so many events, or marks as failed the sync that
    /// it waited for in vain.
    pub fn record_start(&self, starts: &mut Vec<Start>, events: usize)
        requires { vec_len starts.old < vec_capacity starts.old }
        ensures { starts.new.items
            ≡ starts_after self.now.action self.now.failed starts.old.items events }
    {
        match &self.action {
            Action::StartSync => starts.push_reserved(Start {
                events,
                failed: self.failed,
            }),
            Action::WaitSync(name) if self.failed => fail(starts, *name as usize),
            _ => {}
        }
    }

    /// How many failures this event is: 1 where it failed, else 0.
    pub fn faults(&self) -> usize
        ensures { result ≡ (if self.now.failed then 1 else 0) }
    {
        if self.failed { 1 } else { 0 }
    }

    /// Does the action again, unless it failed. An `Err` leaves the bytes as they were.
    pub fn redo(&self, bytes: &mut Vec<u8>) -> Result<(), AllocError>
        ensures ok { OnOk result (bytes.new.items ≡ redone self.now bytes.old.items) }
        ensures err { OnErr result (bytes.new.items ≡ bytes.old.items) }
    {
        if !self.failed {
            self.action.perform(bytes)?;
        }
        Ok(())
    }
}

// Marks a started sync as failed, if there is one of this name.
fn fail(starts: &mut Vec<Start>, name: usize)
    ensures { starts.new.items ≡ failing_at name starts.old.items }
{
    if let Some(start) = starts.get_mut(name) {
        start.failed = true;
    }
}

/// The bytes after these events.
pub fn replay(alloc: Global, first: &[u8], events: &[Event]) -> Result<Vec<u8>, AllocError>
    ensures { IfOk result (λ bytes. bytes.items ≡ replayed events.now first.now) }
{
    let mut bytes = Vec::from_slice(alloc, first)?;
    for event in events {
        event.redo(&mut bytes)?;
    }
    Ok(bytes)
}

/// Does to `image` what a crash leaves of events that aren't durable, where these flags say what
/// was done: one for each byte of a write, and one for a resize.
pub fn tear(image: &mut Vec<u8>, events: &[Event], keep: &[bool]) -> Result<(), AllocError>
    ensures { OnOk result
        (image.new.items ≡ torn keep.now (operations_of events.now) image.old.items) }
{
    let mut rest = keep;
    for event in events {
        rest = event.action.tear(image, rest)?;
    }
    Ok(())
}

/// Puts bytes at an offset, after zeros where the offset lies past the end. An `Err` leaves all as
/// it was.
#[tactic(auto, using(crate::proofs::Writes::written_over))]
pub fn write_over(bytes: &mut Vec<u8>, offset: usize, new: &[u8]) -> Result<(), AllocError>
    ensures ok { OnOk result (bytes.new.items ≡ applied (Write offset new.now) bytes.old.items) }
    ensures err { OnErr result (bytes.new.items ≡ bytes.old.items) }
{
    let Some(end) = offset.checked_add(new.len()) else {
        return Err(AllocError);
    };
    grow(bytes, end)?;
    put(bytes, offset, new);
    Ok(())
}

/// Fills up with zeros to a length. An `Err` leaves all as it was.
pub fn grow(bytes: &mut Vec<u8>, len: usize) -> Result<(), AllocError>
    ensures ok { OnOk result
        (bytes.new.items ≡ bytes.old.items ++ replicate (len - length bytes.old.items) 0) }
    ensures err { OnErr result (bytes.new.items ≡ bytes.old.items) }
    ensures room { len ≤ vec_capacity bytes.old → IsOk result }
    ensures capacity { vec_capacity bytes.old ≤ vec_capacity bytes.new }
{
    if len <= bytes.len() {
        return Ok(());
    }
    bytes.resize(len, 0)
}

/// Copies bytes to an offset among others.
pub fn put(bytes: &mut Vec<u8>, offset: usize, new: &[u8])
    requires { offset + length new.now ≤ length bytes.old.items }
    ensures items { bytes.new.items
        ≡ take offset bytes.old.items ++ new.now ++ drop (offset + length new.now) bytes.old.items }
    ensures capacity { vec_capacity bytes.new ≡ vec_capacity bytes.old }
{
    bytes[offset..offset + new.len()].copy_from_slice(new);
}

// Puts each byte for which there is a true flag.
#[tactic(auto, using(crate::proofs::Torn::torn_write_more))]
fn tear_write(
    image: &mut Vec<u8>,
    offset: usize,
    bytes: &[u8],
    keep: &[bool],
) -> Result<(), AllocError>
    requires { length keep.now ≤ length bytes.now }
    ensures { OnOk result (image.new.items ≡ torn_write keep.now offset bytes.now image.old.items) }
{
    if offset.checked_add(bytes.len()).is_none() {
        return Err(AllocError);
    }
    for (index, flag) in keep.iter().enumerate() {
        put_flagged(image, offset + index, bytes[index], *flag)?;
    }
    Ok(())
}

// Puts a byte where its flag is true.
fn put_flagged(image: &mut Vec<u8>, offset: usize, byte: u8, flag: bool) -> Result<(), AllocError>
    ensures { let old = image.old.items in
        let written = applied (Write offset (byte ∷ [])) old in
        OnOk result (image.new.items ≡ (if flag then written else old)) }
{
    if flag {
        write_over(image, offset, &[byte])
    } else {
        Ok(())
    }
}
