// A closed segment that is read without its log.
ghost use Rattle.std.specs.Prelude.{◌≡◌};
ghost use Rattle.std.specs.Int.NonZero.{non_zero_u16_get};
ghost use Rattle.segments.specs.ClosedSegments.{ClosedReadGoes, FromMemory, FromPages};
ghost use Rattle.segments.specs.ClosedSegments.{IsSegmentReader, ReaderNthGoes, ReaderPageGoes};
ghost use Rattle.segments.specs.ClosedSegments.{ReaderPassGoes};

use crate::closed::Closed;
use crate::error::Error;
use crate::loaded::Loaded;
use crate::paged_segment::PagedSegment;
use crate::passing::PassedPage;
use crate::passing_damage::{Passed, passed_from};
use digest::Digest;
use journal::Found;
use page::Sum;
use page_digests::Source;
use std::marker::Model;
use std::num::NonZeroU16;

/// A closed segment that is read without its log, by
/// [`closed_reader`](crate::SegmentedLog::closed_reader). It has files of its own open, so it reads
/// on while the log appends, rotates and drops. A segment that was dropped is still read: on Unix
/// the bytes of a removed file stay until whoever has it open closes it, and so take room until
/// this is let go. For a segment of 64 MiB in pages of 4,096 bytes it holds 0.8 MiB at most; a
/// segment that a version before 0.11 closed is held whole in memory.
#[derive(Drop)]
pub struct ClosedSegment<S: Source + Drop, H: Sum, R: Sum, D: Digest> {
    number: u64,
    closed: Closed,
    page_size: NonZeroU16,
    bytes: SegmentBytes<S, H, R, D>,
}

// What a closed segment is read from.
#[derive(Drop)]
enum SegmentBytes<S: Source + Drop, H: Sum, R: Sum, D: Digest> {
    // A segment that is known by its whole file, in memory.
    InMemory(Loaded<H, R, D>),
    // A segment that is known by its pages.
    ByPages(PagedSegment<S, D>),
}

impl<S: Source + Drop, H: Sum, R: Sum, D: Digest> Model for ClosedSegment<S, H, R, D> {
    ghost use Rattle.std.specs.Int.NonZero.{non_zero_u16_get};
    ghost use Rattle.segments.specs.ClosedSegments.{ClosedSegmentState, IsReaderOf};
    ghost use Rattle.segments.specs.Readers.{from_fields};

    ghost Value = { ClosedSegmentState };

    ghost view = { λ r. record {
      number = r.number;
      kept = r.closed;
      page_size = non_zero_u16_get r.page_size;
      from = from_fields r.bytes;
    } };

    ghost invariant = { λ r. IsReaderOf H.sum_of R.sum_of (non_zero_u16_get r.page_size) r.number
        r.closed.fingerprint (from_fields r.bytes) };
}

impl<S: Source + Drop, H: Sum, R: Sum, D: Digest> ClosedSegment<S, H, R, D> {
    // A segment in memory.
    pub(crate) fn in_memory(
        number: u64,
        closed: Closed,
        page_size: NonZeroU16,
        loaded: Loaded<H, R, D>,
    ) -> Self
        requires { let P = non_zero_u16_get page_size in IsSegmentReader H.sum_of R.sum_of (record {
          number = number;
          kept = closed;
          page_size = P;
          from = FromMemory loaded;
        }) }
        ensures { let P = non_zero_u16_get page_size in result ≡ record {
          number = number;
          kept = closed;
          page_size = P;
          from = FromMemory loaded;
        } }
    {
        ClosedSegment {
            number,
            closed,
            page_size,
            bytes: SegmentBytes::InMemory(loaded),
        }
    }

    // A segment by its pages.
    pub(crate) fn by_pages(
        number: u64,
        closed: Closed,
        page_size: NonZeroU16,
        segment: PagedSegment<S, D>,
    ) -> Self
        requires { let P = non_zero_u16_get page_size in IsSegmentReader H.sum_of R.sum_of (record {
          number = number;
          kept = closed;
          page_size = P;
          from = FromPages segment;
        }) }
        ensures { let P = non_zero_u16_get page_size in result ≡ record {
          number = number;
          kept = closed;
          page_size = P;
          from = FromPages segment;
        } }
    {
        ClosedSegment {
            number,
            closed,
            page_size,
            bytes: SegmentBytes::ByPages(segment),
        }
    }

    /// The frame at an offset of the segment, in logical bytes: the offset of a record's place, or
    /// the end of another frame. `None` at the segment's end and after it.
    ///
    /// The pages are read that the frame touches, and the pages of the list with their digests;
    /// each is compared with its digest. If one isn't as it was, the list is built again from the
    /// segment's file, once, in memory. `Damaged` if that doesn't help: the other pages can still
    /// be read. `System` if the system refuses a read, `Layer` if memory is refused. An error
    /// leaves the reader as it was.
    ///
    /// `NoFrame` if the segment has marks, and no frame begins at the offset. They aren't asked for
    /// where the frame ended that was read last. If they can't be used the frame is read without
    /// them.
    #[tactic(auto, using(crate::proofs::SegmentReaders::still_by_pages))]
    pub fn read(&mut self, offset: u64) -> Result<Option<Found>, Error>
        ensures { ClosedReadGoes H.sum_of R.sum_of D.digest_of offset self.old self.new result }
    {
        match &mut self.bytes {
            SegmentBytes::InMemory(loaded) => loaded.read(offset),
            SegmentBytes::ByPages(segment) => segment.read::<R>(offset),
        }
    }

    /// The offset at which frame `n` of the segment begins, the first being frame 0; `None` if the
    /// segment has no such frame. The frame's page is searched by the segment's marks, and the
    /// lengths of the frames before it in that page are read. If the marks can't be used the length
    /// of each frame before it is read.
    ///
    /// `Unmarked` if no marks were kept of the segment, since a version before 0.13 closed it.
    /// `Damaged` if a page with the length of a frame isn't as it was; `System` if the system
    /// refuses a read, `Layer` if memory is refused. An error leaves the reader as it was.
    #[tactic(auto, using(crate::proofs::SegmentReaders::still_by_nth))]
    pub fn nth(&mut self, n: u64) -> Result<Option<u64>, Error>
        ensures { ReaderNthGoes D.digest_of n self.old self.new result }
    {
        match &mut self.bytes {
            SegmentBytes::InMemory(_) => Err(Error::Unmarked(self.number)),
            SegmentBytes::ByPages(segment) => segment.nth(n),
        }
    }

    /// Goes on behind a damaged page, as
    /// [`pass_damage`](crate::SegmentedLog::pass_damage) of the log does: the offset moves to the
    /// first frame that begins behind the page in which it stands; if none does, to the segment's
    /// end. The answer says what was passed. At the segment's end and after it nothing is.
    ///
    /// After an error the offset is where it was. `Unmarked` if no marks were kept of the segment,
    /// since a version before 0.13 closed it. `Damaged` if the marks can't be used; `System` if the
    /// system refuses a read, `Layer` if memory is refused.
    pub fn pass_damage(&mut self, offset: &mut u64) -> Result<Passed, Error>
        ensures { ReaderPassGoes D.digest_of offset.old offset.new self.old self.new result }
    {
        let at = *offset;
        match self.pass(at) {
            Ok(page) => {
                *offset = page.to;
                Ok(passed_from(at, &page))
            }
            Err(error) => Err(error),
        }
    }

    // Passes the page of an offset.
    #[tactic(auto, using(crate::proofs::SegmentReaders::still_by_pass))]
    fn pass(&mut self, offset: u64) -> Result<PassedPage, Error>
        ensures { ReaderPageGoes D.digest_of offset self.old self.new result }
    {
        match &mut self.bytes {
            SegmentBytes::InMemory(_) => Err(Error::Unmarked(self.number)),
            SegmentBytes::ByPages(segment) => segment.pass(offset),
        }
    }
}
