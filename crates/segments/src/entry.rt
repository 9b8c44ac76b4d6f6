// The records of a manifest.
ghost use Rattle.std.specs.Prelude.{◌≡◌, ◌≤◌, ◌<◌, ◌+◌, ◌++◌, length, take, drop, IfOk};
ghost use Rattle.std.specs.Prelude.{IsOkUnless};
ghost use Rattle.std.specs.Prelude.{IfSome, Some, replicate};
ghost use Rattle.std.specs.List.{list_all};
ghost use Rattle.std.specs.Prelude.{◌==◌};
ghost use Rattle.std.specs.Int.{w64, from_be_bytes};
ghost use Rattle.std.specs.Int.NonZero.{non_zero_u16_get};
ghost use Rattle.segments.specs.Manifest.{closed_by, closing_len, entry_bytes, entry_in, padded};
ghost use Rattle.segments.specs.Manifest.{marked_in, paged_front, paged_in, paged_with};
ghost use Rattle.segments.specs.Manifest.{padding, whole_in};
ghost use Rattle.segments.specs.Log.{known_with};
ghost use Rattle.segments.specs.declared.closed.Fingerprint.TheVariants.{Whole, Paged};
ghost use Rattle.segments.specs.declared.entry.Entry.TheVariants.{Starts, Closes};

use crate::closed::{Closed, FileDigest, Fingerprint, PagedSeal};
use disk::Error;
use page_digests::Seal;
use std::alloc::Global;
use std::num::NonZeroU16;

/// A record of the manifest.
#[derive(Clone, Copy)]
pub enum Entry {
    /// The segments before this one were dropped; a page of each segment has so many logical bytes.
    Starts(u64, u16),
    /// The open segment was closed, and the next one is open.
    Closes(Closed),
}

impl Entry {
    /// What is known of the open segment's logical bytes after this entry, if so many were before:
    /// a segment that follows has none yet.
    pub fn known_with(&self, known: u64) -> u64
        ensures { result ≡ known_with self.now known }
    {
        match self {
            Entry::Starts(_, _) => known,
            Entry::Closes(_) => 0,
        }
    }
}

/// A number of eight bytes, the highest first, that stands at an offset.
pub fn number_at(bytes: &[u8], at: usize) -> u64
    requires { at + 8 ≤ length bytes.now }
    ensures { result ≡ from_be_bytes w64 (drop at bytes.now) }
{
    let mut number = [0; 8];
    number.copy_from_slice(&bytes[at..at + 8]);
    u64::from_be_bytes(number)
}

// How many logical bytes the frame of an entry has that says which segment is the first one.
const STARTING: u64 = 18;

/// The bytes of an entry, for a manifest that has so many logical bytes and pages of that size. An
/// entry that closes a segment has zeros behind it if the entry of a drop would else not fit into
/// the manifest's last page; so a drop that follows makes no file longer. The only error is
/// `OutOfMemory`.
pub fn bytes_of(
    alloc: Global,
    page_size: NonZeroU16,
    size: u64,
    entry: &Entry,
) -> Result<Vec<u8>, Error>
    ensures bytes { let P = non_zero_u16_get page_size in
        IfOk result (λ bytes. bytes.items ≡ padded P size entry.now) }
    ensures told { IfOk result (λ bytes. entry_in bytes.items ≡ Some entry.now) }
    ensures short { IfOk result (λ bytes. length bytes.items ≤ 65535) }
    ensures err { IsOkUnless result Error.OutOfMemory }
{
    match *entry {
        Entry::Starts(first, pages) => starts(alloc, first, pages),
        Entry::Closes(closed) => {
            let zeros = padding(page_size, size, closing_len(&closed.fingerprint));
            match closed.fingerprint {
                Fingerprint::Whole(kept) => {
                    closes_whole(alloc, closed.records, kept, zeros as usize)
                }
                Fingerprint::Paged(kept) => {
                    closes_paged(alloc, closed.records, kept, zeros as usize)
                }
            }
        }
    }
}

// How many logical bytes the frame of an entry has that closes a segment, without zeros behind it.
fn closing_len(fingerprint: &Fingerprint) -> u64
    ensures is { result ≡ closing_len fingerprint.now }
    ensures short { result ≤ 89 }
{
    match fingerprint {
        Fingerprint::Whole(_) => 56,
        Fingerprint::Paged(kept) => match kept.marks {
            None => 57,
            Some(_) => 89,
        },
    }
}

// How many zeros stand behind an entry that closes a segment, whose frame has so many bytes.
fn padding(page_size: NonZeroU16, size: u64, closing: u64) -> u64
    requires { closing ≤ 89 }
    ensures is { result ≡ padding (non_zero_u16_get page_size) size closing }
    ensures short { result ≤ 18 }
{
    let page_size = page_size.get() as u64;
    let used = (size % page_size + closing) % page_size;
    let free = (page_size - used) % page_size;
    if free < STARTING && STARTING < page_size {
        free + 1
    } else {
        0
    }
}

#[tactic(auto, using(crate::proofs::Entries::starts_told))]
fn starts(alloc: Global, first: u64, page_size: u16) -> Result<Vec<u8>, Error>
    ensures bytes { IfOk result (λ bytes. bytes.items ≡ entry_bytes (Starts first page_size)) }
    ensures told { IfOk result (λ bytes. entry_in bytes.items ≡ Some (Starts first page_size)) }
    ensures short { IfOk result (λ bytes. length bytes.items ≤ 65535) }
    ensures err { IsOkUnless result Error.OutOfMemory }
{
    let mut bytes = Vec::new(alloc);
    bytes.push(0)?;
    bytes.extend_from_slice(&first.to_be_bytes())?;
    bytes.extend_from_slice(&page_size.to_be_bytes())?;
    Ok(bytes)
}

// The entry of a segment that is known by its whole file.
fn closes_whole(
    alloc: Global,
    records: u64,
    kept: FileDigest,
    zeros: usize,
) -> Result<Vec<u8>, Error>
    requires few { zeros ≤ 18 }
    ensures bytes { let closed = closed_by records (Whole kept) in
        IfOk result (λ bytes. bytes.items ≡ entry_bytes (Closes closed) ++ replicate zeros 0) }
    ensures told { let closed = closed_by records (Whole kept) in
        IfOk result (λ bytes. entry_in bytes.items ≡ Some (Closes closed)) }
    ensures short { IfOk result (λ bytes. length bytes.items ≤ 65535) }
    ensures err { IsOkUnless result Error.OutOfMemory }
{
    match whole_bytes(alloc, records, kept, zeros) {
        Ok(bytes) => Ok(bytes),
        Err(error) => Err(error),
    }
}

// Its bytes.
fn whole_bytes(
    alloc: Global,
    records: u64,
    kept: FileDigest,
    zeros: usize,
) -> Result<Vec<u8>, Error>
    requires few { zeros ≤ 18 }
    ensures bytes { let closed = closed_by records (Whole kept) in
        IfOk result (λ bytes. bytes.items ≡ entry_bytes (Closes closed) ++ replicate zeros 0) }
    ensures sized { length kept.digest ≡ 32 }
    ensures short { IfOk result (λ bytes. length bytes.items ≤ 65535) }
    ensures err { IsOkUnless result Error.OutOfMemory }
{
    let digest = kept.digest;
    let mut bytes = Vec::new(alloc);
    bytes.push(1)?;
    bytes.extend_from_slice(&records.to_be_bytes())?;
    bytes.extend_from_slice(&kept.len.to_be_bytes())?;
    bytes.extend_from_slice(&digest)?;
    bytes.resize(bytes.len() + zeros, 0)?;
    Ok(bytes)
}

// The entry of a segment that is known by its pages.
fn closes_paged(
    alloc: Global,
    records: u64,
    kept: PagedSeal,
    zeros: usize,
) -> Result<Vec<u8>, Error>
    requires few { zeros ≤ 18 }
    ensures bytes { let closed = closed_by records (Paged kept) in
        IfOk result (λ bytes. bytes.items ≡ entry_bytes (Closes closed) ++ replicate zeros 0) }
    ensures told { let closed = closed_by records (Paged kept) in
        IfOk result (λ bytes. entry_in bytes.items ≡ Some (Closes closed)) }
    ensures short { IfOk result (λ bytes. length bytes.items ≤ 65535) }
    ensures err { IsOkUnless result Error.OutOfMemory }
{
    match paged_bytes(alloc, records, kept, zeros) {
        Ok(bytes) => Ok(bytes),
        Err(error) => Err(error),
    }
}

// Its bytes.
fn paged_bytes(alloc: Global, records: u64, kept: PagedSeal, zeros: usize) -> Result<Vec<u8>, Error>
    requires few { zeros ≤ 18 }
    ensures bytes { let closed = closed_by records (Paged kept) in
        IfOk result (λ bytes. bytes.items ≡ entry_bytes (Closes closed) ++ replicate zeros 0) }
    ensures sized { length kept.seal.root ≡ 32 }
    ensures marked { IfSome kept.marks (λ marks. length marks ≡ 32) }
    ensures short { IfOk result (λ bytes. length bytes.items ≤ 65535) }
    ensures err { IsOkUnless result Error.OutOfMemory }
{
    let mut bytes = match kept.marks {
        None => front_bytes(alloc, 2, records, kept)?,
        Some(marks) => {
            let mut bytes = front_bytes(alloc, 3, records, kept)?;
            bytes.extend_from_slice(&marks)?;
            bytes
        }
    };
    bytes.resize(bytes.len() + zeros, 0)?;
    Ok(bytes)
}

// The bytes of such an entry before the root of its marks, with this first byte.
fn front_bytes(alloc: Global, kind: u8, records: u64, kept: PagedSeal) -> Result<Vec<u8>, Error>
    ensures bytes { IfOk result (λ bytes. bytes.items ≡ paged_front kind records kept) }
    ensures len { IfOk result (λ bytes. length bytes.items ≡ 50) }
    ensures sized { length kept.seal.root ≡ 32 }
    ensures err { IsOkUnless result Error.OutOfMemory }
{
    let root = kept.seal.root;
    let mut bytes = Vec::new(alloc);
    bytes.push(kind)?;
    bytes.extend_from_slice(&records.to_be_bytes())?;
    bytes.extend_from_slice(&kept.seal.len.to_be_bytes())?;
    bytes.push(kept.number)?;
    bytes.extend_from_slice(&root)?;
    Ok(bytes)
}

// Whether each of these bytes is zero.
fn are_zeros(bytes: &[u8]) -> bool
    ensures { result ≡ list_all (λ byte. byte == 0) bytes.now }
{
    bytes.iter().all(|byte| *byte == 0)
}

// The 32 bytes that stand at an offset.
fn digest_at(bytes: &[u8], at: usize) -> [u8; 32]
    requires { at + 32 ≤ length bytes.now }
    ensures { result ≡ take 32 (drop at bytes.now) }
{
    let mut digest = [0; 32];
    digest.copy_from_slice(&bytes[at..at + 32]);
    digest
}

// The entry that closes a segment in these bytes, which is known by its whole file. Whatever stands
// behind it must be zeros.
fn whole_in(bytes: &[u8]) -> Option<Entry>
    requires { 48 < length bytes.now }
    ensures { result ≡ whole_in bytes.now }
{
    if !are_zeros(&bytes[49..]) {
        return None;
    }
    let digest = digest_at(bytes, 17);
    Some(Entry::Closes(Closed {
        records: number_at(bytes, 1),
        fingerprint: Fingerprint::Whole(FileDigest {
            len: number_at(bytes, 9),
            digest,
        }),
    }))
}

// The same of a segment that is known by its pages, and has no marks.
fn paged_in(bytes: &[u8]) -> Option<Entry>
    requires { 49 < length bytes.now }
    ensures { result ≡ paged_in bytes.now }
{
    if !are_zeros(&bytes[50..]) {
        return None;
    }
    Some(paged_with(bytes, None))
}

// The same of a segment that has marks too.
fn marked_in(bytes: &[u8]) -> Option<Entry>
    requires { 81 < length bytes.now }
    ensures { result ≡ marked_in bytes.now }
{
    if !are_zeros(&bytes[82..]) {
        return None;
    }
    let marks = digest_at(bytes, 50);
    Some(paged_with(bytes, Some(marks)))
}

// The entry that closes a segment whose marks have this root, by the bytes before that.
fn paged_with(bytes: &[u8], marks: Option<[u8; 32]>) -> Entry
    requires { 49 < length bytes.now }
    ensures { result ≡ paged_with bytes.now marks }
{
    let root = digest_at(bytes, 18);
    let seal = Seal {
        len: number_at(bytes, 9),
        root,
    };
    Entry::Closes(Closed {
        records: number_at(bytes, 1),
        fingerprint: Fingerprint::Paged(PagedSeal {
            number: bytes[17],
            seal,
            marks,
        }),
    })
}

/// The entry that these bytes are, if they are one.
#[tactic(auto, unfolding(crate::specs::Manifest::entry_in))]
pub fn entry_of(bytes: &[u8]) -> Option<Entry>
    ensures { result ≡ entry_in bytes.now }
{
    if bytes.len() == 11 && bytes[0] == 0 {
        let page_size = u16::from_be_bytes([bytes[9], bytes[10]]);
        return Some(Entry::Starts(number_at(bytes, 1), page_size));
    }
    if bytes.len() > 48 && bytes[0] == 1 {
        return whole_in(bytes);
    }
    if bytes.len() > 49 && bytes[0] == 2 {
        return paged_in(bytes);
    }
    if bytes.len() > 81 && bytes[0] == 3 {
        return marked_in(bytes);
    }
    None
}
