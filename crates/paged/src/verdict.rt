// What to do with a blob before it is recovered.
ghost use Rattle.std.specs.Prelude.{◌≡◌, ◌⊎◌, ◌↔◌, ◌<◌, ◌≤◌, ◌+◌, ◌*◌, ◌^◌, ℕ, List, [], length, drop};
ghost use Rattle.std.specs.Prelude.{true, false};
ghost use Rattle.std.specs.Int.NonZero.{non_zero_u16_get};
ghost use Rattle.page.specs.Page.{text};
ghost use Rattle.paged.specs.Outlook.{IsSurvey, are_zeros, set_aside_of, verdict_of};
ghost use Rattle.paged.specs.Within.{at_stake};

use crate::Outlook;
use paged_read::physical_page_size;
use std::num::NonZeroU16;

/// What a recovery would make of a blob, and what the blob would lose by it. The blob's text is
/// what the recovery would keep (see [`Outlook`]).
#[derive(Clone, Copy, Debug, PartialEq, Eq)]
pub struct Survey {
    /// What a recovery would make of the blob.
    pub outlook: Outlook,
    /// How many of the whole physical pages that the recovery would cut have a value.
    pub beyond: u64,
    /// Whether all bytes of these pages are zero, as in pages that nobody has written.
    pub blank: bool,
    /// Whether the last page of the text is partial, and its other slot isn't all zero and doesn't
    /// verify. A crash in a write of that page leaves it so. But the slot may also have been synced
    /// and damaged since: then the page may have had more bytes than its value has now.
    pub torn: bool,
}

/// What to do with a blob before it is recovered.
#[derive(Clone, Copy, Debug, PartialEq, Eq)]
pub enum Verdict {
    /// Recover it: nothing is cut, and no page is torn.
    Whole,
    /// Recover it: only whole pages of zeros are cut.
    Cut,
    /// Set aside, durably, what a recovery gives up and may have been synced, and then recover it.
    Keep,
    /// Leave it as it is, and ask: this may be rot, another page size, or no blob at all.
    Refuse,
}

impl Survey {
    /// How many physical bytes at the end go in a recovery: all that it cuts, and, if the last page
    /// of the text is torn, those of that page, whose other slot it empties. This is the least
    /// `allowed` with which [`crate::recover_within`] recovers the blob.
    pub fn at_stake(&self, page_size: NonZeroU16) -> u64
        ensures stake { (sum : List ℕ → ℕ) (bytes : List ℕ) →
            let P = non_zero_u16_get page_size in
            IsSurvey sum P bytes self.now → length bytes < 2 ^ 64
            → result ≡ at_stake sum P bytes self.now.outlook }
    {
        if self.torn {
            self.outlook
                .cut
                .saturating_add(physical_page_size(page_size))
        } else {
            self.outlook.cut
        }
    }

    /// How many physical bytes at the end of the blob may hold synced bytes that a recovery gives
    /// up: those that are to be set aside before it.
    ///
    /// A page that a crash tore looks like one that was synced and damaged since. So these are all
    /// bytes that would be cut, and, if the last page of the text is torn, those of that page too,
    /// whose other slot a recovery empties. If only whole pages of zeros would be cut, and no page
    /// is torn, the answer is 0: zeros aren't worth keeping.
    pub fn set_aside_len(&self, page_size: NonZeroU16) -> u64
        ensures cases { result ≡ set_aside_of (non_zero_u16_get page_size) self.now }

        // For the survey of a blob: the blob has as many bytes. If the answer is 0, each byte that
        // would be cut is zero.
        ensures there { (sum : List ℕ → ℕ) (bytes : List ℕ) →
            IsSurvey sum (non_zero_u16_get page_size) bytes self.now → result ≤ length bytes }
        ensures zeros { (sum : List ℕ → ℕ) (bytes : List ℕ) →
            let P = non_zero_u16_get page_size in
            IsSurvey sum P bytes self.now → result ≡ 0
            → are_zeros (drop (self.now.outlook.pages * (P + 12)) bytes) ≡ true }
    {
        let size = physical_page_size(page_size);
        let cut = self.outlook.cut;
        if self.torn {
            cut.saturating_add(size)
        } else if self.blank && cut % size == 0 {
            0
        } else {
            cut
        }
    }

    /// What to do with the surveyed blob, with pages of `page_size` logical bytes. A crash leaves
    /// few pages after the text; rot, another page size and a file that is no blob may leave many.
    /// So the verdict is `Refuse` where bytes would be cut and nothing kept, and where a page after
    /// the text has a value and more than `limit` physical bytes would be cut. A torn last page
    /// doesn't count towards `limit`.
    pub fn verdict(&self, page_size: NonZeroU16, limit: u64) -> Verdict
        ensures cases { result ≡ verdict_of (non_zero_u16_get page_size) limit self.now }
        ensures whole { (result ≡ Verdict.Whole)
            ↔ ((self.now.outlook.cut ≡ 0) × (self.now.torn ≡ false)) }
        ensures refuse { let cut = self.now.outlook.cut in
            (result ≡ Verdict.Refuse)
            ↔ (((0 < cut) × (self.now.outlook.pages ≡ 0))
            ⊎ ((0 < self.now.beyond) × (limit < cut))) }

        // For the survey of a blob: the verdict is `Refuse` if the blob has a byte and nothing of
        // it would be kept.
        ensures nothing { (sum : List ℕ → ℕ) (bytes : List ℕ) →
            let P = non_zero_u16_get page_size in
            IsSurvey sum P bytes self.now → text sum P bytes ≡ [] → 0 < length bytes
            → result ≡ Verdict.Refuse }

        // The verdict is `Cut`, with nothing set aside, only if each byte that would be cut is
        // zero.
        ensures zeros { (sum : List ℕ → ℕ) (bytes : List ℕ) →
            let P = non_zero_u16_get page_size in
            IsSurvey sum P bytes self.now → result ≡ Verdict.Cut
            → are_zeros (drop (self.now.outlook.pages * (P + 12)) bytes) ≡ true }
    {
        let Outlook { pages, cut, .. } = self.outlook;
        if cut == 0 && !self.torn {
            Verdict::Whole
        } else if cut > 0 && pages == 0 || self.beyond > 0 && cut > limit {
            Verdict::Refuse
        } else if self.set_aside_len(page_size) > 0 {
            Verdict::Keep
        } else {
            Verdict::Cut
        }
    }
}
