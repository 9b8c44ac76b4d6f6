// Frames: records as bytes, and back.
ghost use Rattle.std.specs.Prelude.{◌≡◌, slice_index, ◌+◌, ◌++◌, ◌<◌, ◌≤◌, ◌^◌, ℕ, List, length};
ghost use Rattle.std.specs.Prelude.{drop, IfOk, IsOkUnless};
ghost use Rattle.journal.specs.Frame.{frame, record_len, is_record, record_of};

use bytes::BufMut;
use disk::{Error, IoBuf};
use page::{EncodeSize, Sum, Write};
use std::alloc::{AllocError, Global};
use std::marker::PhantomData;

/// The most bytes that a record may have.
pub const MOST_BYTES: usize = 65_535;

/// How many bytes of a frame stand in front of its record: the length.
pub const IN_FRONT: usize = 2;

/// How many bytes of a frame stand after its record: the checksum and the mark.
pub const AFTER: usize = 5;

/// A frame that was found in a journal.
#[derive(Drop)]
pub struct Found {
    /// The record; `None` where the frame is no record, and so is passed over.
    pub bytes: Option<IoBuf>,
    /// The offset after the frame, in logical bytes.
    pub end: u64,
}

/// The frame of a record, whose bytes are borrowed, as a value that is encoded into a buffer.
#[derive(Drop)]
pub struct Framed<'a, R> {
    bytes: &'a [u8],
    of: PhantomData<R>,
    ghost short: { length bytes.now ≤ 65535 },
}

impl<'a, R> Framed<'a, R> {
    /// The frame of a record of these bytes.
    pub fn new(bytes: &'a [u8]) -> Self
        requires { length bytes.now ≤ 65535 }
        ensures { result.bytes.now ≡ bytes.now }
    {
        Framed {
            bytes,
            of: PhantomData,
        }
    }
}

impl<R: Sum> EncodeSize for Framed<'_, R> {
    ghost encoded = { λ framed. frame R.sum_of framed.bytes.now };

    fn encode_size(&self) -> usize {
        IN_FRONT + self.bytes.len() + AFTER
    }
}

impl<R: Sum> Write for Framed<'_, R> {
    #[tactic(auto, unfolding(crate::specs::Frame::frame))]
    fn write<O: BufMut>(&self, out: &mut O) -> Result<(), AllocError> {
        out.put_slice(&(self.bytes.len() as u16).to_be_bytes())?;
        out.put_slice(self.bytes)?;
        out.put_slice(&R::sum(self.bytes).to_be_bytes())?;
        out.put_u8(1)
    }
}

/// The frame of a record of these bytes, at most 65,535. The only error is `OutOfMemory`.
pub fn frame_of<R: Sum>(alloc: Global, bytes: &[u8]) -> Result<Vec<u8>, Error>
    requires { length bytes.now ≤ 65535 }
    ensures framed { IfOk result (λ framed. framed.items ≡ frame R.sum_of bytes.now) }
    ensures err { IsOkUnless result Error.OutOfMemory }
{
    let mut framed = Vec::with_capacity(alloc, IN_FRONT + bytes.len() + AFTER)?;
    Framed::<R>::new(bytes).write(&mut framed)?;
    Ok(framed)
}

// The byte at an offset of some bytes, 0 after their end.
fn byte_at(bytes: &[u8], offset: usize) -> u8
    ensures byte { result ≡ slice_index bytes.now offset }
    ensures within { 0 < result → offset < length bytes.now }
{
    if offset < bytes.len() {
        bytes[offset]
    } else {
        0
    }
}

/// How many bytes a record has, by the length in its frame, which is at the front of these bytes. A
/// byte that they lack counts as 0. The frame has [`IN_FRONT`] and [`AFTER`] bytes more.
#[tactic(auto, unfolding(crate::specs::Frame::record_len))]
pub fn record_len_of(bytes: &[u8]) -> usize
    ensures len { result ≡ record_len bytes.now }
    ensures small { result < 2 ^ 16 }
{
    usize::from(u16::from_be_bytes([byte_at(bytes, 0), byte_at(bytes, 1)]))
}

// Whether a frame is a record, by the bytes that are to be its record's, and by the five that stand
// after them.
fn is_record_of<R: Sum>(bytes: &[u8], after: &[u8]) -> bool
    requires { length after.now ≡ 5 }
    ensures { (frame : List ℕ) → record_len frame ≡ length bytes.now
        → drop 2 frame ≡ bytes.now ++ after.now → result ≡ is_record R.sum_of frame }
{
    if after[4] != 1 {
        return false;
    }
    let sum = u32::from_be_bytes([after[0], after[1], after[2], after[3]]);
    sum == R::sum(bytes)
}

/// The record with these bytes, if the five bytes after them in their frame, the checksum and the
/// mark, are those of a record.
pub fn record_before<R: Sum>(bytes: IoBuf, after: &[u8]) -> Option<IoBuf>
    requires { length after.now ≡ 5 }
    ensures { (frame : List ℕ) → record_len frame ≡ length bytes
        → drop 2 frame ≡ bytes ++ after.now → result ≡ record_of R.sum_of frame }
{
    if is_record_of::<R>(bytes.as_ref(), after) {
        Some(bytes)
    } else {
        None
    }
}

/// The bytes of the record whose frame is at the front of some bytes; `None` if that frame is no
/// record, or is cut short. They share what was given. The only error is `OutOfMemory`.
pub fn record_at<R: Sum>(framed: &IoBuf) -> Result<Option<IoBuf>, Error>
    ensures found { IfOk result (λ found. found ≡ record_of R.sum_of framed.now) }
    ensures err { IsOkUnless result Error.OutOfMemory }
{
    let bytes = framed.as_ref();
    let end = IN_FRONT + record_len_of(bytes);
    if bytes.len() < end + AFTER {
        return Ok(None);
    }
    if !is_record_of::<R>(&bytes[IN_FRONT..end], &bytes[end..end + AFTER]) {
        return Ok(None);
    }
    Ok(Some(framed.slice(IN_FRONT, end)?))
}
