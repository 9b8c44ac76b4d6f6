// A closed segment that was read into memory.
ghost use Rattle.std.specs.Prelude.{◌≡◌, ◌↔◌, ℕ, List, true, IfOk, IfSome};
ghost use Rattle.std.specs.Int.NonZero.{non_zero_u16_get};
ghost use Rattle.segments.specs.Log.{IsLoaded, HeldReadGoes};

use crate::closed::FileDigest;
use crate::error::Error;
use crate::folder_copy::FolderCopy;
use crate::log::Options;
use crate::opening::recover;
use crate::owned::OwnedJournal;
use digest::Digest;
use disk::VecBlob;
use journal::Found;
use page::Sum;
use std::alloc::Global;
use std::marker::Model;

/// A closed segment that was read into memory: its file has the digest that was kept.
#[derive(Drop)]
pub struct Loaded<H: Sum, R: Sum, D: Digest> {
    kept: FileDigest,
    owned: OwnedJournal<VecBlob, H, R, D>,
}

impl<H: Sum, R: Sum, D: Digest> Model for Loaded<H, R, D> {
    ghost use Rattle.segments.specs.Log.{LoadedState};

    ghost Value = { LoadedState };

    ghost view = { λ l. record { kept = l.kept; owned = l.owned } };
}

impl<H: Sum, R: Sum, D: Digest> Loaded<H, R, D> {
    /// A segment that was read, whose file had this digest. `None` where its bytes have another
    /// length or another digest.
    #[tactic(auto, using(crate::proofs::Loading::loaded_of))]
    pub fn new(
        alloc: Global,
        options: Options,
        kept: FileDigest,
        blob: VecBlob,
    ) -> Result<Option<Self>, disk::Error>
        ensures loaded { let P = non_zero_u16_get options.page_size in
            IfOk result (λ l. IfSome l (λ l. IsLoaded H.sum_of R.sum_of P l)) }
        ensures kept { IfOk result (λ l. IfSome l (λ l. l.kept ≡ kept)) }
    {
        if !kept.is_of(blob.bytes()) {
            return Ok(None);
        }
        match recover::<FolderCopy, VecBlob, H, R, D>(alloc, options, blob) {
            Ok((owned, _)) => Ok(Some(Loaded { kept, owned })),
            Err(error) => Err(error),
        }
    }

    /// Whether the file of the segment in memory had this length and this digest.
    pub fn is_of(&self, kept: &FileDigest) -> bool
        ensures { (result ≡ true) ↔ (self.now.kept ≡ kept.now) }
    {
        self.kept.len == kept.len && self.kept.digest == kept.digest
    }

    /// The frame at a logical offset of the segment; `None` at its end and after it.
    #[tactic(auto, using(crate::proofs::Loading::held_read, crate::proofs::Loading::loaded_still))]
    pub fn read(&mut self, offset: u64) -> Result<Option<Found>, Error>
        requires loaded { let P = self.old.owned.page_size in
            IsLoaded H.sum_of R.sum_of P self.old }
        ensures goes { (d : List ℕ → List ℕ) → let P = self.old.owned.page_size in
            HeldReadGoes H.sum_of R.sum_of d P self.old.kept offset result }
        ensures loaded { let P = self.old.owned.page_size in
            IsLoaded H.sum_of R.sum_of P self.new }
        ensures kept { self.new.kept ≡ self.old.kept }
    {
        self.owned.read(offset)
    }
}
