// The closed segments that a log keeps open.
ghost use Rattle.std.specs.Prelude.{◌≡◌, ◌<◌, [], ℕ, IfOk, IfSome, length, slice_index_or};
ghost use Rattle.segments.specs.PagedReads.{PagedSegmentState};
ghost use Rattle.segments.specs.Recent.{TakesRecent, kept_from, kept_after};

use crate::paged_segment::PagedSegment;
use digest::Digest;
use page_digests::{Seal, Source};
use std::alloc::{AllocError, Global};
use std::marker::Model;

/// How many closed segments a log keeps open that are read by their pages. So reads to and fro
/// between so many open no file. Each has two files open, or three if it has marks, and holds a page
/// of its content, at most 129 pages of its list and of its marks, their tops, and what is read
/// ahead of each file: 0.8 MiB at most for 64 MiB in pages of 4,096 bytes.
pub const OPENED: usize = 8;

/// The closed segments that were read by their pages last, the latest one at the end: there the
/// next read most often finds it, and it is taken without moving the others.
#[derive(Drop)]
pub struct Recent<S: Source + Drop, D: Digest> {
    segments: Vec<PagedSegment<S, D>>,
}

impl<S: Source + Drop, D: Digest> Model for Recent<S, D> {
    ghost use Rattle.std.specs.Prelude.{List, ◌≤◌, vec_len, vec_capacity};
    ghost use Rattle.segments.specs.PagedReads.{PagedSegmentState};

    ghost Value = { List PagedSegmentState };

    ghost view = { λ r. r.segments.items };

    ghost invariant = { λ r. (vec_len r.segments ≤ 8) × (8 ≤ vec_capacity r.segments) };
}

impl<S: Source + Drop, D: Digest> Recent<S, D> {
    /// None yet. The only error is that memory was refused.
    pub fn new(alloc: Global) -> Result<Self, AllocError>
        ensures { IfOk result (λ r. r ≡ []) }
    {
        let segments = Vec::with_capacity(alloc, OPENED)?;
        Ok(Recent { segments })
    }

    /// Takes the segment of this number out, which has this seal and marks of this root, if it is
    /// kept.
    #[tactic(auto, using(crate::proofs::Recents::taken_at))]
    pub fn take(
        &mut self,
        number: u64,
        seal: &Seal,
        marks_root: Option<[u8; 32]>,
    ) -> Option<PagedSegment<S, D>>
        ensures { TakesRecent number seal.now marks_root self.old self.new result }
    {
        match self.place_of(number, seal, marks_root) {
            Some(place) => Some(self.segments.remove(place)),
            None => None,
        }
    }

    // Where the segment of this number is kept, which has this seal and marks of this root.
    fn place_of(&self, number: u64, seal: &Seal, marks_root: Option<[u8; 32]>) -> Option<usize>
        ensures within { IfSome result (λ k. k < length self.now) }
        ensures number { IfSome result (λ k. (p : PagedSegmentState)
            → (slice_index_or self.now k p).number ≡ number) }
        ensures of { IfSome result (λ k. (p : PagedSegmentState)
            → (slice_index_or self.now k p).content.seal ≡ seal.now) }
        ensures marks { IfSome result (λ k. (p : PagedSegmentState)
            → (slice_index_or self.now k p).marks_root ≡ marks_root) }
    {
        for (place, segment) in self.segments.iter().enumerate() {
            if segment.is_of(number, seal, marks_root) {
                return Some(place);
            }
        }
        None
    }

    /// Keeps a segment as the one that was read last. If there are too many then, the one goes that
    /// wasn't read for the longest time, and its files are closed.
    pub fn keep(&mut self, segment: PagedSegment<S, D>)
        ensures { self.new ≡ kept_after OPENED segment self.old }
    {
        if self.segments.len() < OPENED {
            self.segments.push_reserved(segment);
            return;
        }
        let _ = self.segments.remove(0);
        self.segments.push_reserved(segment);
    }

    /// Lets the segments before this one go, and closes their files.
    pub fn let_go_before(&mut self, first: u64)
        ensures { self.new ≡ kept_from first self.old }
    {
        // Each goes from the front to the end, unless it is let go, so that their order stays.
        for _turn in 0..self.segments.len() {
            let segment = self.segments.remove(0);
            if first <= segment.number() {
                self.segments.push_reserved(segment);
            } else {
                drop(segment);
            }
        }
    }
}
