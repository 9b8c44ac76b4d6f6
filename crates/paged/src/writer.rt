// The writer.
ghost use Rattle.std.specs.Prelude.{◌≡◌, ◌+◌, ◌*◌, length};
ghost use Rattle.paged.specs.Writer.{FitsBlob};

use page::{ActiveChecksum, Buffer};
use std::alloc::Global;
use std::marker::{Model, PhantomData};
use std::num::NonZeroU16;
use writer_state::SyncState;

/// The phase in which a blob is appended to.
pub struct Append;

/// The phase in which what a blob keeps is still being chosen.
pub struct Recovering;

/// The one writer of a blob of the type `B`, with pages under the checksum function `H`.
///
/// Appended bytes are buffered after the full pages that the blob has. The caller lends the blob
/// and the cache to each call, always the ones with which the writer was opened, and nobody else
/// may write that blob meanwhile. A call that takes the writer gives it back only on success. After
/// an error the writer is gone, and the blob must be recovered.
// The small fields stand together, at the end, so that a writer has 144 bytes. A value of more than
// 128 bytes is moved by a call of `memmove`, so within the crate a writer goes by reference.
#[derive(Drop)]
pub struct Writer<B, H, Phase = Append> {
    pub(crate) alloc: Global,
    pub(crate) id: u64,
    /// The bytes after the full pages.
    pub(crate) tip: Buffer,
    /// The slot that was written last in the page in which the tip begins.
    pub(crate) flushed: Option<ActiveChecksum>,
    /// The slot of the tip's page that was durable when that page was last written. A rewrite of
    /// the page repeats it.
    pub(crate) durable: Option<ActiveChecksum>,
    pub(crate) page_size: NonZeroU16,
    pub(crate) sync_state: SyncState,
    pub(crate) of: PhantomData<(B, H, Phase)>,
}

impl<B, H, Phase> Model for Writer<B, H, Phase> {
    ghost use Rattle.std.specs.Prelude.{◌/◌};
    ghost use Rattle.std.specs.Int.NonZero.{non_zero_u16_get};
    ghost use Rattle.writer_state.specs.WriterState.{WriterState};
    ghost use Rattle.paged.specs.Writer.{IsWriter};

    ghost Value = { WriterState };

    ghost view = { λ w. record {
      page_size = non_zero_u16_get w.page_size;
      id = w.id;
      capacity = w.tip.capacity;
      full_pages = w.tip.offset / non_zero_u16_get w.page_size;
      tip = w.tip.bytes;
      flushed = w.flushed;
      durable = w.durable;
      sync = w.sync_state;
    } };

    ghost invariant = { λ w. IsWriter (non_zero_u16_get w.page_size) w.tip };
}

/// A writer whose blob is still being recovered.
pub type Recovery<B, H> = Writer<B, H, Recovering>;

impl<B, H> From<Recovery<B, H>> for Writer<B, H> {
    ghost from_gives = { λ recovery writer. writer ≡ recovery };

    /// Ends the recovery. It makes no device call.
    fn from(recovery: Recovery<B, H>) -> Self {
        recovery.in_phase()
    }
}

impl<B, H, Phase> Writer<B, H, Phase> {
    fn in_phase<Q>(self) -> Writer<B, H, Q>
        ensures { result ≡ self }
    {
        let Writer {
            alloc,
            id,
            page_size,
            tip,
            flushed,
            durable,
            sync_state,
            of: _,
        } = self;
        Writer {
            alloc,
            id,
            page_size,
            tip,
            flushed,
            durable,
            sync_state,
            of: PhantomData,
        }
    }

    /// The size in logical bytes, with what is buffered.
    pub fn size(&self) -> u64
        ensures { result ≡ self.now.full_pages * self.now.page_size + length self.now.tip }
    {
        self.tip.size()
    }

    /// How many full pages the blob has.
    pub(crate) fn full_pages(&self) -> u64
        ensures value { result ≡ self.now.full_pages }
        ensures fits { FitsBlob self.now.page_size self.now.full_pages (length self.now.tip) }
    {
        self.tip.offset() / u64::from(self.page_size.get())
    }
}
