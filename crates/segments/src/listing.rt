// What a manifest lists.
ghost use Rattle.std.specs.Prelude.{◌≡◌, ◌<◌, ◌+◌, ◌^◌, length, IfOk, Some, None};
ghost use Rattle.segments.specs.Kept.{AreOfDigest};
ghost use Rattle.segments.specs.Manifest.{closed_at, closed_count, fitting, listed_in, listed_with};
ghost use Rattle.segments.specs.Manifest.{none_closed, open_in, TakesIn};

use crate::closed::{Closed, Fingerprint};
use crate::entry::{Entry, entry_of};
use crate::error::Error;
use digest::Digest;
use disk::IoBuf;
use std::alloc::Global;
use std::marker::Model;

/// What a manifest lists: the closed segments that weren't dropped, one after the other.
#[derive(Drop)]
pub struct Listing {
    first: u64,
    closed: Vec<Closed>,
}

impl Model for Listing {
    ghost use Rattle.std.specs.Prelude.{◌<◌, ◌+◌, ◌^◌, length};
    ghost use Rattle.segments.specs.Manifest.{ListingState};

    ghost Value = { ListingState };

    ghost view = { λ l. record { first = l.first; closed = l.closed.items } };

    ghost invariant = { λ l. l.first + length l.closed.items < 2 ^ 64 };
}

impl Listing {
    /// A listing of no closed segment: the first one, number 0, is open.
    pub fn new(alloc: Global) -> Self
        ensures { result ≡ none_closed }
    {
        Listing {
            first: 0,
            closed: Vec::new(alloc),
        }
    }

    /// The number of the first segment that wasn't dropped.
    pub fn first(&self) -> u64
        ensures { result ≡ self.now.first }
    {
        self.first
    }

    /// The number of the open segment.
    pub fn open(&self) -> u64
        ensures { result ≡ open_in self.now }
    {
        self.first + self.closed.len() as u64
    }

    /// What was kept of a closed segment. `None` where it was dropped, or isn't closed.
    pub fn closed(&self, number: u64) -> Option<Closed>
        ensures { result ≡ closed_at self.now number }
    {
        if number < self.first {
            return None;
        }
        self.closed.get((number - self.first) as usize).copied()
    }

    /// How many records the closed segments have. `None` where that passes the greatest `u64`.
    pub fn records(&self) -> Option<u64>
        ensures { result ≡ fitting (closed_count self.now.closed) }
    {
        let mut count = 0u64;
        for closed in &self.closed {
            count = count.checked_add(closed.records)?;
        }
        Some(count)
    }

    /// The number of a digest, other than this one, by which a closed segment is known.
    pub fn other_digest(&self, number: u8) -> Option<u8>
        ensures none { result ≡ None → AreOfDigest number self.now.closed }
    {
        for closed in &self.closed {
            if let Fingerprint::Paged(kept) = closed.fingerprint {
                if kept.number != number {
                    return Some(kept.number);
                }
            }
        }
        None
    }

    /// Makes room for one closed segment more.
    pub fn reserve(&mut self) -> Result<(), disk::Error>
        ensures { self.new ≡ self.old }
    {
        self.closed.reserve(1)?;
        Ok(())
    }

    /// Takes in an entry of a log with pages of so many logical bytes, and answers whether it could
    /// follow those before it. If it couldn't, or memory was refused, the listing is as it was.
    pub fn take_in(&mut self, page_size: u16, entry: &Entry) -> Result<bool, disk::Error>
        ensures { TakesIn page_size entry.now self.old self.new result }
    {
        match entry {
            Entry::Starts(first, size) => {
                let is_within = self.first <= *first && *first <= self.open();
                if !is_within || *size != page_size {
                    return Ok(false);
                }
                let gone = (*first - self.first) as usize;
                self.closed.drain(..gone);
                self.first = *first;
                Ok(true)
            }
            Entry::Closes(closed) => {
                if self.open() == u64::MAX {
                    return Ok(false);
                }
                self.closed.push(*closed)?;
                Ok(true)
            }
        }
    }

    /// The listing with an entry more, of a log with pages of so many logical bytes. `None` where
    /// the entry can't follow those before it.
    pub fn with(&self, page_size: u16, entry: &Entry) -> Result<Option<Listing>, disk::Error>
        ensures { IfOk result (λ listing. listing ≡ listed_with page_size entry.now self.now) }
    {
        let mut listing = Listing {
            first: self.first,
            closed: self.closed.clone()?,
        };
        let follows = listing.take_in(page_size, entry)?;
        Ok(follows.then_some(listing))
    }
}

/// What the records of a manifest list, of a log with pages of so many logical bytes that is opened
/// with this digest. `Manifest` where a record is no entry, or can't follow those before it.
/// `AnotherDigest` where a segment was closed with another digest.
pub fn listing_of<D: Digest>(
    alloc: Global,
    records: &[IoBuf],
    page_size: u16,
) -> Result<Listing, Error>
    ensures lists { IfOk result (λ l. listed_in page_size records.now ≡ Some l) }
    ensures digest { IfOk result (λ l. AreOfDigest D.NUMBER l.closed) }
{
    let listing = listed(alloc, records, page_size)?;
    match listing.other_digest(D::NUMBER) {
        Some(number) => Err(Error::AnotherDigest(number)),
        None => Ok(listing),
    }
}

// What the records of a manifest list.
fn listed(alloc: Global, records: &[IoBuf], page_size: u16) -> Result<Listing, Error>
    ensures { IfOk result (λ l. listed_in page_size records.now ≡ Some l) }
{
    let mut listing = Listing::new(alloc);
    for record in records {
        let Some(entry) = entry_of(record.as_ref()) else {
            return Err(Error::Manifest);
        };
        if !listing.take_in(page_size, &entry)? {
            return Err(Error::Manifest);
        }
    }
    Ok(listing)
}
