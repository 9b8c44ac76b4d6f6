// What a case of items runs over.
ghost use Rattle.std.specs.Prelude.{◌≡◌, ◌*◌, true, length, IfOk};
ghost use Rattle.items.specs.Calls.{AreRisingFrom};

use crate::fixed::Fixed;
use crate::setting::Setting;
use crate::subject::Tearable;
use cache::CacheRef;
use disk::{Blob, Call, Error, IoBuf, MemBlob, ReadOptions, StartedSync};
use items::{Items, ItemsReplay, ItemsSnapshot, crash_and_recover};
use page::Sum;
use std::alloc::Global;
use std::marker::Model;
use std::num::NonZeroUsize;

/// What a call of items answers.
#[derive(Drop)]
pub enum Told {
    /// The number of the item that was pushed.
    Item(u64),
    /// The buffer has no room for the item, a snapshot needs a write, or the replay is at its end.
    Nothing,
    /// The bytes to push don't have the items' size.
    BadItem,
    /// The numbers don't rise.
    BadNumbers,
    /// The items ended, or there never were any.
    Closed,
    /// There is no such snapshot or replay.
    NoSuch,
    /// How many items were recovered.
    Recovered(u64),
    /// How many items there are.
    Length(u64),
    /// How many bytes an item has.
    Size(usize),
    /// An item.
    Bytes(Vec<u8>),
    /// An item whose bytes are shared with what was read.
    Shared(IoBuf),
    /// How many items needed no device, and the bytes of all items, joined.
    Served(usize, Vec<u8>),
    /// A sync was started.
    Started(StartedSync),
    /// The step is done.
    Done,
}

/// A blob in memory with its cache, and the items on it, with a snapshot and a replay of them, if
/// there are such. It is handed out in a box.
pub struct ItemStage<H: Sum> {
    alloc: Global,
    setting: Setting,
    size: NonZeroUsize,
    blob: MemBlob,
    cache: CacheRef,
    items: Option<Items<MemBlob, H>>,
    snapshot: Option<ItemsSnapshot<MemBlob, H>>,
    replay: Option<ItemsReplay<MemBlob, H>>,
}

// By hand, so that an owner lets one go by one call: of a derived drop, a proof follows each field
// at each exit.
impl<H: Sum> Drop for ItemStage<H> {
    fn drop(self) {
        let ItemStage {
            alloc: _,
            setting: _,
            size: _,
            blob: _,
            cache: _,
            items: _,
            snapshot: _,
            replay: _,
        } = self;
    }
}

impl<H: Sum> Model for ItemStage<H> {
    ghost use Rattle.disk.specs.History.{life_of};
    ghost use Rattle.conformance.specs.ItemStage.{AreSet};

    ghost Value = { Unit {0} };

    ghost view = { λ s. tt };

    ghost invariant = { λ s.
        AreSet H.sum_of s.items s.snapshot s.replay s.cache (life_of s.blob) };
}

// Room for so many items of a size, with bytes that no case has.
fn room(alloc: Global, count: usize, size: usize) -> Result<Vec<u8>, Error>
    ensures { IfOk result (λ buf. length buf.items ≡ count * size) }
{
    let Some(len) = count.checked_mul(size) else {
        return Err(Error::OutOfMemory);
    };
    let mut buf = Vec::new(alloc);
    buf.resize(len, 0xee)?;
    Ok(buf)
}

// Whether each number is greater than the one before, and the first is at least `from`.
fn are_rising(from: u64, numbers: &[u64]) -> bool
    ensures { result ≡ true → AreRisingFrom from numbers.now }
{
    match numbers {
        [] => true,
        [first, rest @ ..] => {
            from <= *first
                && match first.checked_add(1) {
                    Some(next) => are_rising(next, rest),
                    None => rest.is_empty(),
                }
        }
    }
}

impl<H: Sum> ItemStage<H> {
    /// A blob of these bytes, all durable, and no items.
    pub fn new(
        alloc: Global,
        setting: Setting,
        size: NonZeroUsize,
        bytes: &[u8],
    ) -> Result<Box<Self>, Error> {
        let mut blob = MemBlob::from_bytes(alloc, bytes)?;
        blob.deliver_backwards(setting.backwards);
        let stage = ItemStage {
            alloc,
            setting,
            size,
            blob,
            cache: CacheRef::new(alloc, setting.page_size, setting.pages)?,
            items: None,
            snapshot: None,
            replay: None,
        };
        Ok(Box::new(alloc, stage)?)
    }

    /// Recovers the blob as it is, by reads of so many bytes.
    pub fn recover(&mut self, by: NonZeroUsize) -> Result<Told, Error> {
        self.items = None;
        self.snapshot = None;
        self.replay = None;
        let blob_size = self.blob.len();
        let items = Items::<MemBlob, H>::recover(
            self.alloc,
            &mut self.blob,
            blob_size,
            self.setting.capacity,
            &mut self.cache,
            by,
            self.size,
        )?;
        let count = items.len();
        self.items = Some(items);
        Ok(Told::Recovered(count))
    }

    /// Crashes, with these flags for what isn't durable, and recovers.
    pub fn crash(&mut self, keep: &[bool]) -> Result<Told, Error> {
        self.items = None;
        self.snapshot = None;
        self.replay = None;
        let items = crash_and_recover::<H>(
            self.alloc,
            &mut self.blob,
            keep,
            self.setting.capacity,
            &mut self.cache,
            NonZeroUsize::MIN,
            self.size,
        )?;
        let count = items.len();
        self.items = Some(items);
        Ok(Told::Recovered(count))
    }

    /// Pushes an item. After an error the items are gone.
    #[tactic(auto, using(crate::proofs::ItemLaws::goes_on))]
    pub fn push(&mut self, item: &[u8]) -> Result<Told, Error> {
        let Some(items) = self.items.take() else {
            return Ok(Told::Closed);
        };
        if item.len() != items.item_size() {
            self.items = Some(items);
            return Ok(Told::BadItem);
        }
        let (items, number) = items.push(&mut self.blob, &mut self.cache, item)?;
        self.items = Some(items);
        Ok(Told::Item(number))
    }

    // Pushes a value of N bytes, if the buffer has room for it.
    fn try_value<const N: usize>(&mut self, bytes: &[u8]) -> Result<Told, Error> {
        let Some(items) = &mut self.items else {
            return Ok(Told::Closed);
        };
        if items.item_size() != N {
            return Ok(Told::BadItem);
        }
        let Some(value) = Fixed::<N>::new(Vec::from_slice(self.alloc, bytes)?) else {
            return Ok(Told::BadItem);
        };
        match items.try_push_value(&value)? {
            Some(number) => Ok(Told::Item(number)),
            None => Ok(Told::Nothing),
        }
    }

    /// Pushes a value if the buffer has room for it, of one of the sizes that have types here.
    pub fn try_push(&mut self, bytes: &[u8]) -> Result<Told, Error> {
        match bytes.len() {
            3 => self.try_value::<3>(bytes),
            4 => self.try_value::<4>(bytes),
            10 => self.try_value::<10>(bytes),
            100 => self.try_value::<100>(bytes),
            10_000 => self.try_value::<10_000>(bytes),
            _ => Ok(Told::BadItem),
        }
    }

    /// How many items there are.
    pub fn len(&self) -> Told {
        match &self.items {
            Some(items) => Told::Length(items.len()),
            None => Told::Closed,
        }
    }

    /// The item of a number.
    pub fn get(&mut self, number: u64) -> Result<Told, Error> {
        let Some(items) = &self.items else {
            return Ok(Told::Closed);
        };
        let mut item = room(self.alloc, 1, items.item_size())?;
        items.get(&mut self.blob, &mut self.cache, number, &mut item)?;
        Ok(Told::Bytes(item))
    }

    /// The items of these numbers, joined.
    pub fn get_many(&mut self, numbers: &[u64]) -> Result<Told, Error> {
        let Some(items) = &self.items else {
            return Ok(Told::Closed);
        };
        if !are_rising(0, numbers) {
            return Ok(Told::BadNumbers);
        }
        let mut all = room(self.alloc, numbers.len(), items.item_size())?;
        let served = items.get_many(&mut self.blob, &mut self.cache, &mut all, numbers)?;
        Ok(Told::Served(served, all))
    }

    /// Makes all items durable. After an error the items are gone.
    pub fn sync(&mut self) -> Result<Told, Error> {
        let Some(items) = self.items.take() else {
            return Ok(Told::Closed);
        };
        let items = items.sync(&mut self.blob, &mut self.cache)?;
        self.items = Some(items);
        Ok(Told::Done)
    }

    /// Starts to make all items durable. After an error the items are gone.
    pub fn start_sync(&mut self) -> Result<Told, Error> {
        let Some(items) = self.items.take() else {
            return Ok(Told::Closed);
        };
        let (items, started) = items.start_sync(&mut self.blob, &mut self.cache)?;
        self.items = Some(items);
        Ok(Told::Started(started))
    }

    /// Waits for the sync that was started last. After an error the items are gone.
    #[tactic(auto, using(crate::proofs::ItemLaws::goes_on))]
    pub fn wait(&mut self) -> Result<Told, Error> {
        let Some(items) = self.items.take() else {
            return Ok(Told::Closed);
        };
        let items = items.wait_for_sync(&mut self.blob)?;
        self.items = Some(items);
        Ok(Told::Done)
    }

    /// Makes a snapshot of the items, in place of an earlier one. After an error the items are
    /// gone.
    #[tactic(auto, using(crate::proofs::ItemLaws::seals))]
    pub fn snapshot(&mut self) -> Result<Told, Error> {
        let Some(items) = self.items.take() else {
            return Ok(Told::Closed);
        };
        let (items, snapshot) = items.snapshot(&mut self.blob, &mut self.cache)?;
        self.items = Some(items);
        self.snapshot = Some(snapshot);
        Ok(Told::Done)
    }

    /// Makes a snapshot of the items, if nothing has to be written for it.
    pub fn try_snapshot(&mut self) -> Result<Told, Error> {
        let Some(items) = &self.items else {
            return Ok(Told::Closed);
        };
        match items.try_snapshot()? {
            Some(snapshot) => {
                self.snapshot = Some(snapshot);
                Ok(Told::Done)
            }
            None => Ok(Told::Nothing),
        }
    }

    /// The item of a number in the snapshot.
    pub fn snapshot_get(&mut self, number: u64) -> Result<Told, Error> {
        let Some(snapshot) = &self.snapshot else {
            return Ok(Told::NoSuch);
        };
        let mut item = room(self.alloc, 1, snapshot.item_size())?;
        snapshot.get(&mut self.blob, &mut self.cache, number, &mut item)?;
        Ok(Told::Bytes(item))
    }

    /// The items of these numbers in the snapshot, joined.
    pub fn snapshot_get_many(&mut self, numbers: &[u64]) -> Result<Told, Error> {
        let Some(snapshot) = &self.snapshot else {
            return Ok(Told::NoSuch);
        };
        if !are_rising(0, numbers) {
            return Ok(Told::BadNumbers);
        }
        let mut all = room(self.alloc, numbers.len(), snapshot.item_size())?;
        let served = snapshot.get_many(&mut self.blob, &mut self.cache, &mut all, numbers)?;
        Ok(Told::Served(served, all))
    }

    /// How many items the snapshot has.
    pub fn snapshot_len(&self) -> Told {
        match &self.snapshot {
            Some(snapshot) => Told::Length(snapshot.len()),
            None => Told::NoSuch,
        }
    }

    /// Begins a replay of the items, in place of an earlier one. After an error the items are gone.
    #[tactic(auto, using(crate::proofs::ItemLaws::begins))]
    pub fn replay(&mut self, by: NonZeroUsize) -> Result<Told, Error> {
        let Some(items) = self.items.take() else {
            return Ok(Told::Closed);
        };
        let options = ReadOptions::default();
        let (items, replay) = items.replay(&mut self.blob, &mut self.cache, by, options)?;
        self.items = Some(items);
        self.replay = Some(replay);
        Ok(Told::Done)
    }

    /// The next item of the replay.
    pub fn next(&mut self) -> Result<Told, Error> {
        let Some(replay) = &mut self.replay else {
            return Ok(Told::NoSuch);
        };
        match replay.next(&mut self.blob)? {
            Some(item) => Ok(Told::Shared(item)),
            None => Ok(Told::Nothing),
        }
    }

    /// Moves the replay to the item of a number.
    pub fn seek(&mut self, number: u64) -> Result<Told, Error> {
        let Some(replay) = &mut self.replay else {
            return Ok(Told::NoSuch);
        };
        replay.seek_to(number)?;
        Ok(Told::Done)
    }

    /// How many items the replay goes over.
    pub fn replay_len(&self) -> Told {
        match &self.replay {
            Some(replay) => Told::Length(replay.len()),
            None => Told::NoSuch,
        }
    }

    /// How many bytes an item of the replay has.
    pub fn replay_item_size(&self) -> Told {
        match &self.replay {
            Some(replay) => Told::Size(replay.item_size()),
            None => Told::NoSuch,
        }
    }

    /// The physical bytes of the blob.
    pub fn bytes(&self) -> &[u8] {
        self.blob.bytes()
    }

    /// The device calls, across crashes.
    pub fn device_calls(&self) -> &[Call] {
        self.blob.calls()
    }
}

impl<H: Sum> Tearable for ItemStage<H> {
    fn call_at(&self, index: usize) -> Option<&Call> {
        self.blob.calls().get(index)
    }

    fn fail_at(&mut self, n: u64) {
        self.blob.fail_at(n.max(1));
    }

    fn tear(&mut self, keep: &[bool]) -> Result<(), Error> {
        self.items = None;
        self.snapshot = None;
        self.replay = None;
        self.blob.crash(keep)
    }
}
