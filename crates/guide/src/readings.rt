// A table of readings: items of one size, each with a number.
ghost use Rattle.std.specs.Prelude.{◌≡◌, ◌++◌, ◌∷◌, [], IfOk, Some, slice_get, take};
ghost use Rattle.std.specs.Int.{to_be_bytes, w32, w64};
ghost use Rattle.std.specs.Int.NonZero.{non_zero_usize_get};
ghost use Rattle.cache.specs.Pages.{IsFresh};
ghost use Rattle.disk.specs.History.{life_of};
ghost use Rattle.items.specs.Calls.{AllDurable, DurabilityLasts};
ghost use Rattle.items.specs.Standing.{AreItems, AreReady, count, items_of};
ghost use Rattle.items.specs.State.{ItemsState};

use crate::calls::{CAPACITY, new_cache};
use bytes::BufMut;
use cache::CacheRef;
use crc32c::Crc32c;
use disk::{Blob, Error, MemBlob, ReadOptions};
use items::{Items, ItemsReplay, crash_and_recover};
use page::{EncodeSize, FixedSize, Sum, Write};
use std::alloc::{AllocError, Global};
use std::marker::Model;
use std::num::NonZeroUsize;

/// A barometer's reading: when it was made, in seconds, and the pressure, in pascals.
#[derive(Clone, Copy)]
pub struct Reading {
    pub time: u64,
    pub pressure: u32,
}

impl EncodeSize for Reading {
    ghost encoded = { λ r. to_be_bytes w64 r.time ++ to_be_bytes w32 r.pressure };

    fn encode_size(&self) -> usize {
        12
    }
}

impl FixedSize for Reading {
    ghost use Rattle.std.specs.Prelude.{refl};

    ghost SIZE = { 12 };

    const SIZE: usize = 12;

    ghost sized = { λ r. refl };
}

impl Write for Reading {
    fn write<O: BufMut>(&self, out: &mut O) -> Result<(), AllocError> {
        out.put_slice(&self.to_bytes())
    }
}

impl Reading {
    /// The bytes that it is encoded as.
    fn to_bytes(self) -> [u8; 12]
        ensures { result ≡ to_be_bytes w64 self.time ++ to_be_bytes w32 self.pressure }
    {
        let [a, b, c, d, e, f, g, h] = self.time.to_be_bytes();
        let [i, j, k, l] = self.pressure.to_be_bytes();
        [a, b, c, d, e, f, g, h, i, j, k, l]
    }

    /// The reading that these bytes encode; `None` unless there are twelve.
    fn from_bytes(bytes: &[u8]) -> Option<Self> {
        let [a, b, c, d, e, f, g, h, i, j, k, l] = bytes else {
            return None;
        };
        Some(Reading {
            time: u64::from_be_bytes([*a, *b, *c, *d, *e, *f, *g, *h]),
            pressure: u32::from_be_bytes([*i, *j, *k, *l]),
        })
    }
}

// How many bytes a reading has.
fn reading_size() -> NonZeroUsize
    ensures { non_zero_usize_get result ≡ 12 }
{
    NonZeroUsize::new(12).unwrap_or(NonZeroUsize::MIN)
}

/// The readings of a blob in memory, recovered.
fn opened<H: Sum>(
    alloc: Global,
    blob: &mut MemBlob,
    cache: &mut CacheRef,
) -> Result<Items<MemBlob, H>, Error>
    requires fresh { IsFresh cache.old }
    ensures ready { IfOk result (λ r.
        AreItems H.sum_of r cache.new (life_of blob.new) × (r.size ≡ 12)) }
    ensures fresh { IsFresh cache.new }
{
    let blob_size = blob.len();
    let size = reading_size();
    Items::recover(
        alloc,
        blob,
        blob_size,
        CAPACITY,
        cache,
        NonZeroUsize::MIN,
        size,
    )
}

/// Pushes a reading, into the buffer if it fits there, and answers its number.
fn note<B: Blob, H: Sum>(
    mut readings: Items<B, H>,
    blob: &mut B,
    cache: &mut CacheRef,
    reading: &Reading,
) -> Result<(Items<B, H>, u64), Error>
    requires ready { AreItems H.sum_of readings cache.old (B.life blob.old) }
    requires size { readings.size ≡ 12 }
    ensures ready { IfOk result (λ r.
        AreReady H.sum_of r.0 cache.new (B.life blob.new) × (r.0.size ≡ 12)) }
    ensures at { IfOk result (λ r. r.1 ≡ count readings) }
    ensures there { let noted = reading.now in
        let item = to_be_bytes w64 noted.time ++ to_be_bytes w32 noted.pressure in
        IfOk result (λ r. slice_get (items_of r.0 (B.life blob.new)) r.1 ≡ Some item) }
    ensures lasts { let old = B.life blob.old in let new = B.life blob.new in
        IfOk result (λ r. DurabilityLasts H.sum_of readings r.0 old new) }
{
    if let Some(i) = readings.try_push_value(reading)? {
        return Ok((readings, i));
    }
    readings.push(blob, cache, &reading.to_bytes())
}

/// The reading of this number.
fn reading_at<B: Blob, H: Sum>(
    readings: &Items<B, H>,
    blob: &mut B,
    cache: &mut CacheRef,
    i: u64,
) -> Result<Option<Reading>, Error>
    requires ready { AreItems H.sum_of readings.now cache.old (B.life blob.old) }
    requires size { readings.now.size ≡ 12 }
    ensures ready { AreItems H.sum_of readings.now cache.new (B.life blob.new) }
{
    let mut bytes = [0; 12];
    readings.get(blob, cache, i, &mut bytes)?;
    Ok(Reading::from_bytes(&bytes))
}

/// Pushes a reading, and reads it by its number. The same bytes come back.
fn note_and_get<B: Blob, H: Sum>(
    readings: Items<B, H>,
    blob: &mut B,
    cache: &mut CacheRef,
    reading: &Reading,
) -> Result<(Items<B, H>, [u8; 12]), Error>
    requires ready { AreItems H.sum_of readings cache.old (B.life blob.old) }
    requires size { readings.size ≡ 12 }
    ensures ready { IfOk result (λ r.
        AreReady H.sum_of r.0 cache.new (B.life blob.new) × (r.0.size ≡ 12)) }
    ensures got { let noted = reading.now in
        let item = to_be_bytes w64 noted.time ++ to_be_bytes w32 noted.pressure in
        IfOk result (λ r. r.1 ≡ item) }
{
    let (readings, i) = note(readings, blob, cache, reading)?;
    let mut bytes = [0; 12];
    readings.get(blob, cache, i, &mut bytes)?;
    Ok((readings, bytes))
}

/// Makes a snapshot, pushes, and reads the snapshot.
fn look_back<B: Blob, H: Sum>(
    readings: Items<B, H>,
    blob: &mut B,
    cache: &mut CacheRef,
    reading: &Reading,
    i: u64,
) -> Result<[u8; 12], Error>
    requires ready { AreItems H.sum_of readings cache.old (B.life blob.old) }
    requires size { readings.size ≡ 12 }
    ensures was { let held = items_of readings (B.life blob.old) in
        IfOk result (λ bytes. slice_get held i ≡ Some bytes) }
{
    let (readings, snapshot) = readings.snapshot(blob, cache)?;
    let _more = readings.push(blob, cache, &reading.to_bytes())?;
    let mut bytes = [0; 12];
    snapshot.get(blob, cache, i, &mut bytes)?;
    Ok(bytes)
}

/// Starts a sync, pushes meanwhile, and waits.
fn overlap<B: Blob, H: Sum>(
    readings: Items<B, H>,
    blob: &mut B,
    cache: &mut CacheRef,
    reading: &Reading,
) -> Result<Items<B, H>, Error>
    requires ready { AreItems H.sum_of readings cache.old (B.life blob.old) }
    requires size { readings.size ≡ 12 }
    ensures ready { IfOk result (λ r.
        AreItems H.sum_of r cache.new (B.life blob.new) × (r.size ≡ 12)) }
{
    let (readings, _started) = readings.start_sync(blob, cache)?;
    let (readings, _) = note(readings, blob, cache, reading)?;
    readings.wait_for_sync(blob)
}

/// A blob, and a replay of its readings.
#[derive(Drop)]
struct Pass<'a, B: Blob, H: Sum> {
    blob: &'a mut B,
    replay: ItemsReplay<B, H>,
}

impl<'a, B: Blob, H: Sum> Model for Pass<'a, B, H> {
    ghost use Rattle.items.specs.Standing.{IsItemsReplay};

    ghost Value = { Unit {0} };

    ghost view = { λ pass. tt };

    ghost invariant = { λ pass. IsItemsReplay H.sum_of pass.replay (B.life pass.blob.now) };
}

impl<'a, B: Blob, H: Sum> Pass<'a, B, H> {
    /// The next reading, or none after the last.
    fn next(&mut self) -> Result<Option<Reading>, Error> {
        let item = self.replay.next(self.blob)?;
        Ok(item.and_then(|bytes| Reading::from_bytes(bytes.as_ref())))
    }

    /// The reading of the highest pressure.
    fn highest(mut self) -> Result<Option<Reading>, Error> {
        let mut highest: Option<Reading> = None;
        for _ in 0..self.replay.len() {
            let Some(reading) = self.next()? else {
                break;
            };
            if highest.is_none_or(|known| known.pressure < reading.pressure) {
                highest = Some(reading);
            }
        }
        Ok(highest)
    }
}

/// Goes over all readings.
fn highest_of<B: Blob, H: Sum>(
    readings: Items<B, H>,
    blob: &mut B,
    cache: &mut CacheRef,
) -> Result<Option<Reading>, Error>
    requires ready { AreItems H.sum_of readings cache.old (B.life blob.old) }
    ensures fresh { IsFresh cache.new }
{
    let options = ReadOptions::default();
    let (_, replay) = readings.replay(blob, cache, NonZeroUsize::MIN, options)?;
    Pass { blob, replay }.highest()
}

/// Crashes and recovers: what comes back begins with all readings that were durable.
fn crashed<H: Sum>(
    alloc: Global,
    blob: &mut MemBlob,
    cache: &mut CacheRef,
    keep: &[bool],
) -> Result<Items<MemBlob, H>, Error>
    requires fresh { IsFresh cache.old }
    ensures ready { IfOk result (λ r.
        AreItems H.sum_of r cache.new (life_of blob.new) × (r.size ≡ 12)) }
    ensures back { let old = life_of blob.old in let new = life_of blob.new in
        (s : ItemsState) → s.size ≡ 12 → s.writer.page_size ≡ cache.old.page_size
        → AllDurable H.sum_of s old
        → IfOk result (λ r. take (count s) (items_of r new) ≡ take (count s) (items_of s old)) }
{
    let size = reading_size();
    let left = crash_and_recover(alloc, blob, keep, CAPACITY, cache, NonZeroUsize::MIN, size)?;
    Ok(left)
}

fn made_at(time: u64, pressure: u32) -> Reading {
    Reading { time, pressure }
}

/// Pushes three readings.
fn note_three<B: Blob, H: Sum>(
    readings: Items<B, H>,
    blob: &mut B,
    cache: &mut CacheRef,
) -> Result<Items<B, H>, Error>
    requires ready { AreItems H.sum_of readings cache.old (B.life blob.old) }
    requires size { readings.size ≡ 12 }
    ensures ready { IfOk result (λ r.
        AreItems H.sum_of r cache.new (B.life blob.new) × (r.size ≡ 12)) }
{
    let (readings, _) = note(readings, blob, cache, &made_at(0, 101_300))?;
    let (readings, _) = note(readings, blob, cache, &made_at(60, 101_325))?;
    let (readings, _) = note(readings, blob, cache, &made_at(120, 101_310))?;
    Ok(readings)
}

/// What was read of a table of readings: `left` is how many the crash left.
#[derive(Drop)]
pub struct Table {
    pub third: Option<Reading>,
    pub sixth: Option<Reading>,
    pub highest: Option<Reading>,
    pub left: u64,
    pub last: Option<Reading>,
}

/// Opens a new table, syncs three readings, pushes three more, goes over all, and crashes.
pub fn keep_readings(alloc: Global) -> Result<Table, Error> {
    let mut blob = MemBlob::new(alloc);
    let mut cache = new_cache(alloc)?;
    let readings = opened::<Crc32c>(alloc, &mut blob, &mut cache)?;
    let readings = note_three(readings, &mut blob, &mut cache)?;
    let readings = readings.sync(&mut blob, &mut cache)?;
    let third = reading_at(&readings, &mut blob, &mut cache, 2)?;
    let (readings, _) = note(readings, &mut blob, &mut cache, &made_at(180, 101_350))?;
    let (readings, _) = note(readings, &mut blob, &mut cache, &made_at(240, 101_290))?;
    let sixth = made_at(300, 101_300);
    let (readings, bytes) = note_and_get(readings, &mut blob, &mut cache, &sixth)?;
    let highest = highest_of(readings, &mut blob, &mut cache)?;
    let readings = crashed::<Crc32c>(alloc, &mut blob, &mut cache, &[true; 56])?;
    let left = readings.len();
    let last = reading_at(&readings, &mut blob, &mut cache, left.saturating_sub(1))?;
    Ok(Table {
        third,
        sixth: Reading::from_bytes(&bytes),
        highest,
        left,
        last,
    })
}

/// Opens a new table, pushes while a sync is under way, and reads what a snapshot has.
pub fn keep_and_look_at_readings(alloc: Global) -> Result<Option<Reading>, Error> {
    let mut blob = MemBlob::new(alloc);
    let mut cache = new_cache(alloc)?;
    let readings = opened::<Crc32c>(alloc, &mut blob, &mut cache)?;
    let readings = note_three(readings, &mut blob, &mut cache)?;
    let readings = overlap(readings, &mut blob, &mut cache, &made_at(180, 101_350))?;
    let fifth = made_at(240, 101_290);
    let bytes = look_back(readings, &mut blob, &mut cache, &fifth, 3)?;
    Ok(Reading::from_bytes(&bytes))
}
