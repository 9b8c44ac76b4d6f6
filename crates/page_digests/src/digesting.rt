// The list of a content that comes page by page.
ghost use Rattle.std.specs.Prelude.{◌≡◌, ◌<◌, ◌+◌, ◌^◌, ℕ, List, IfOk, OnOk};
ghost use Rattle.page_digests.specs.Growing.{FinishesList, IsDigested, TakesPage, with_rest};

use digest::Digest;
use std::alloc::{AllocError, Global};
use std::marker::{Model, PhantomData};

/// The list so far of a content that comes page by page, as while the content is written.
#[derive(Drop)]
pub struct Digesting<D: Digest> {
    pages: usize,
    list: Vec<u8>,
    of: PhantomData<D>,
}

impl<D: Digest> Model for Digesting<D> {
    ghost use Rattle.page_digests.specs.Growing.{DigestingState};

    ghost Value = { DigestingState };

    ghost view = { λ d. record { pages = d.pages; list = d.list.items } };
}

impl<D: Digest> Digesting<D> {
    /// No page is digested yet.
    pub fn new(alloc: Global) -> Self
        ensures { (P : ℕ) (content : List ℕ) → IsDigested D.digest_of P content result }
    {
        Digesting {
            pages: 0,
            list: Vec::new(alloc),
            of: PhantomData,
        }
    }

    /// How many pages are digested.
    pub fn pages(&self) -> usize
        ensures { result ≡ self.now.pages }
    {
        self.pages
    }

    /// Takes the content's next page, a whole one. The only error is that memory was refused; then
    /// nothing was taken.
    #[tactic(auto, using(crate::proofs::Growth::page_taken))]
    pub fn take_page(&mut self, page: &[u8]) -> Result<(), AllocError>
        requires { self.old.pages + 1 < 2 ^ 64 }
        ensures { TakesPage D.digest_of page.now self.old self.new result }
    {
        self.list.extend_from_slice(&D::digest(page))?;
        self.pages += 1;
        Ok(())
    }

    /// The content's list. `rest` is what the content has behind the pages that were taken: less
    /// than a page, perhaps nothing. The only error is that memory was refused.
    pub fn finish(self, rest: &[u8]) -> Result<Vec<u8>, AllocError>
        ensures { IfOk result (λ list. FinishesList D.digest_of rest.now self list.items) }
    {
        let mut list = self.list;
        put_rest::<D>(&mut list, rest)?;
        Ok(list)
    }
}

// Puts the digest of a content's last bytes behind a list, if there are any.
#[tactic(auto, using(crate::proofs::Growth::rest_put, crate::proofs::Growth::rest_none))]
fn put_rest<D: Digest>(list: &mut Vec<u8>, rest: &[u8]) -> Result<(), AllocError>
    ensures { OnOk result (list.new.items ≡ with_rest D.digest_of list.old.items rest.now) }
{
    if rest.is_empty() {
        return Ok(());
    }
    list.extend_from_slice(&D::digest(rest))
}
