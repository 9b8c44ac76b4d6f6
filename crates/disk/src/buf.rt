// Byte buffers that are shared and cut with no copy.
ghost use Rattle.std.specs.Prelude.{◌≡◌, ◌==◌, ◌≤◌, ◌++◌, [], length, slice_range, take, IfOk};
ghost use Rattle.std.specs.Prelude.{IfErr, IsOkUnless, OnOk, OnErr};
ghost use Rattle.std.specs.List.{concat};
ghost use Rattle.std.specs.Slice.Iter.{iter_rest};
ghost use Rattle.disk.specs.Bufs.{with_buf};
ghost use Rattle.disk.specs.Memory.{IsRange};

use crate::Error;
use bytes::Bytes;
use std::alloc::{AllocFailed, Global};
use std::marker::Model;
use std::slice::Iter;

/// Some bytes that are shared and cut with no copy.
#[derive(Drop)]
pub struct IoBuf {
    bytes: Bytes,
}

impl Model for IoBuf {
    ghost use Rattle.std.specs.Prelude.{List, ℕ};

    ghost Value = { List ℕ };

    ghost view = { λ b. b.bytes };
}

impl From<Bytes> for IoBuf {
    ghost from_gives = { λ bytes b. b ≡ bytes };

    fn from(bytes: Bytes) -> Self {
        IoBuf { bytes }
    }
}

impl IoBuf {
    /// A buffer with a copy of these bytes. Its only error is `OutOfMemory`.
    pub fn copy_from_slice(alloc: Global, bytes: &[u8]) -> Result<Self, Error>
        ensures ok { IfOk result (λ b. b ≡ bytes.now) }
        ensures err { IsOkUnless result Error.OutOfMemory }
    {
        let bytes = Bytes::copy_from_slice(alloc, bytes)?;
        Ok(IoBuf { bytes })
    }

    /// A buffer with a copy of the `len` bytes that stand at `offset` in `bytes`.
    /// `BlobInsufficientLength` where the range passes their end, and else no error except
    /// `OutOfMemory`.
    pub(crate) fn copy_range(
        alloc: Global,
        bytes: &[u8],
        offset: u64,
        len: usize,
    ) -> Result<Self, Error>
        ensures { IsRange offset len bytes.now result }
    {
        if bytes.len() < len || ((bytes.len() - len) as u64) < offset {
            return Err(Error::BlobInsufficientLength);
        }
        let start = offset as usize;
        Self::copy_from_slice(alloc, &bytes[start..start + len])
    }

    /// The bytes from `start` to before `end`, shared with this buffer. The only error is
    /// `OutOfMemory`.
    pub fn slice(&self, start: usize, end: usize) -> Result<Self, Error>
        requires order { start ≤ end }
        requires bound { end ≤ length self.now }
        ensures ok { IfOk result (λ b. b ≡ slice_range self.now start end) }
        ensures err { IsOkUnless result Error.OutOfMemory }
    {
        let bytes = self.bytes.slice(start..end)?;
        Ok(IoBuf { bytes })
    }

    /// The number of bytes.
    pub fn len(&self) -> usize
        ensures { result ≡ length self.now }
    {
        self.bytes.len()
    }

    /// Whether there is no byte.
    pub fn is_empty(&self) -> bool
        ensures { result ≡ (length self.now == 0) }
    {
        self.bytes.is_empty()
    }

    /// The bytes themselves.
    pub fn as_ref(&self) -> &[u8]
        ensures { result.now ≡ self.now }
    {
        &self.bytes
    }
}

/// A list of buffers, none of them empty, that is read or written as one run of bytes.
#[derive(Drop)]
pub struct IoBufs {
    alloc: Global,
    bufs: Vec<IoBuf>,
    len: usize,
}

impl Model for IoBufs {
    ghost use Rattle.std.specs.Prelude.{◌≡◌, List, ℕ, length};
    ghost use Rattle.std.specs.List.{concat};

    ghost Value = { List (List ℕ) };

    ghost view = { λ b. b.bufs.items };

    ghost invariant = { λ b. b.len ≡ length (concat b.bufs.items) };
}

impl IoBufs {
    /// A list with no buffer.
    pub fn new(alloc: Global) -> Self
        ensures { result ≡ [] }
    {
        IoBufs {
            alloc,
            bufs: Vec::new(alloc),
            len: 0,
        }
    }

    /// A list with no buffer, and with memory for so many. Its only error is `OutOfMemory`.
    pub fn with_capacity(alloc: Global, buffers: usize) -> Result<Self, Error>
        ensures made { IfOk result (λ b. b ≡ []) }
        ensures err { IsOkUnless result Error.OutOfMemory }
    {
        Ok(IoBufs {
            alloc,
            bufs: Vec::with_capacity(alloc, buffers)?,
            len: 0,
        })
    }

    /// The number of bytes in all the buffers.
    pub fn len(&self) -> usize
        ensures { result ≡ length (concat self.now) }
    {
        self.len
    }

    /// Whether there is no byte.
    pub fn is_empty(&self) -> bool
        ensures { result ≡ (length (concat self.now) == 0) }
    {
        self.len == 0
    }

    /// Adds a buffer at the end; an empty one is dropped. The only error is `OutOfMemory`, also
    /// where the number of all bytes would pass `usize`; then the list is as it was.
    pub fn append(&mut self, buf: IoBuf) -> Result<(), Error>
        ensures bufs { OnOk result (self.new ≡ with_buf self.old buf) }
        ensures bytes { OnOk result (concat self.new ≡ concat self.old ++ buf) }
        ensures same { OnErr result (self.new ≡ self.old) }
        ensures err { IsOkUnless result Error.OutOfMemory }
    {
        if buf.is_empty() {
            return Ok(());
        }
        let Some(len) = self.len.checked_add(buf.len()) else {
            return Err(Error::OutOfMemory);
        };
        self.bufs.push(buf)?;
        self.len = len;
        Ok(())
    }

    /// Adds the first `len` bytes of a vector at the end, without a copy; nothing where `len` is 0.
    /// The error means that memory was refused, or that the number of all bytes would pass
    /// `usize`. It gives the vector's bytes back, and the list is as it was.
    pub fn append_front(&mut self, bytes: Vec<u8>, len: usize) -> Result<(), AllocFailed<Vec<u8>>>
        requires { len ≤ length bytes.items }
        ensures bufs { OnOk result (self.new ≡ with_buf self.old (take len bytes.items)) }
        ensures bytes { OnOk result (concat self.new ≡ concat self.old ++ take len bytes.items) }
        ensures same { OnErr result (self.new ≡ self.old) }
        ensures back { IfErr result (λ e. e.value.items ≡ bytes.items) }
    {
        if len == 0 {
            return Ok(());
        }
        let Some(end) = self.len.checked_add(len) else {
            return Err(AllocFailed { value: bytes });
        };
        if self.bufs.try_reserve(1).is_err() {
            return Err(AllocFailed { value: bytes });
        }
        let mut bytes = Bytes::from_vec(bytes)?;
        bytes.truncate(len);
        self.bufs.push_reserved(IoBuf { bytes });
        self.len = end;
        Ok(())
    }

    /// The buffers in order.
    pub fn as_slice(&self) -> &[IoBuf]
        ensures { result.now ≡ self.now }
    {
        &self.bufs
    }

    /// The buffers in order.
    pub fn iter(&self) -> Iter<'_, IoBuf>
        ensures { iter_rest result ≡ self.now }
    {
        self.bufs.iter()
    }

    #[tactic(auto, using(crate::proofs::Bufs::concat_more))]
    /// All bytes in one buffer, copied. The only error is `OutOfMemory`.
    pub fn coalesce(&self) -> Result<IoBuf, Error>
        ensures ok { IfOk result (λ b. b ≡ concat self.now) }
        ensures err { IsOkUnless result Error.OutOfMemory }
    {
        let mut all = Vec::with_capacity(self.alloc, self.len)?;
        for buf in &self.bufs {
            all.extend_from_slice(buf.as_ref())?;
        }
        Ok(IoBuf {
            bytes: Bytes::from_vec(all)?,
        })
    }
}
