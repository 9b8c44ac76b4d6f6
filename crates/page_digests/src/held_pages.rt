// Pages that were read and compared, and are held, so that none is read and compared again.
ghost use Rattle.std.specs.Prelude.{◌≡◌, ◌↔◌, [], IfErr, IfOk, true};
ghost use Rattle.page_digests.specs.HeldPages.{FindsPage, IsHeldPage, IsPageWith, TakesHeldPage};
ghost use Rattle.page_digests.specs.HeldPages.{kept_page, staying};

use digest::Digest;
use std::alloc::{AllocError, Global};
use std::marker::{Model, PhantomData};

/// How many pages are held beside the one that was read last: with that one, as many as the list of
/// a content of 64 MiB has, by pages of 4,084 bytes.
pub const HELD: usize = 128;

/// A page, and its digest.
#[derive(Drop)]
pub struct HeldPage<D: Digest> {
    digest: [u8; 32],
    bytes: Vec<u8>,
    of: PhantomData<D>,
}

impl<D: Digest> Model for HeldPage<D> {
    ghost use Rattle.page_digests.specs.HeldPages.{IsHeldPage, PageState};

    ghost Value = { PageState };

    ghost view = { λ p. record { digest = p.digest; bytes = p.bytes.items } };

    ghost invariant = { λ p. IsHeldPage D.digest_of (record {
      digest = p.digest;
      bytes = p.bytes.items;
    }) };
}

impl<D: Digest> HeldPage<D> {
    /// A page that has this digest.
    pub fn new(digest: [u8; 32], bytes: Vec<u8>) -> Self
        requires { IsHeldPage D.digest_of (record { digest = digest; bytes = bytes.items }) }
        ensures { result ≡ record { digest = digest; bytes = bytes.items } }
    {
        HeldPage {
            digest,
            bytes,
            of: PhantomData,
        }
    }

    /// Whether the page has this digest, and so many bytes.
    pub fn has(&self, digest: &[u8; 32], len: usize) -> bool
        ensures { (result ≡ true) ↔ IsPageWith digest.now len self.now }
    {
        self.digest == *digest && self.bytes.len() == len
    }

    /// The page's bytes.
    pub fn into_bytes(self) -> Vec<u8>
        ensures bytes { result.items ≡ self.bytes }
        ensures of { IsHeldPage D.digest_of self }
    {
        let HeldPage {
            digest: _,
            bytes,
            of: _,
        } = self;
        bytes
    }
}

/// Pages that are held, the one that was used last at the end.
#[derive(Drop)]
pub struct HeldPages<D: Digest> {
    pages: Vec<HeldPage<D>>,
}

impl<D: Digest> Model for HeldPages<D> {
    ghost use Rattle.std.specs.Prelude.{List, ◌≤◌, vec_len};
    ghost use Rattle.page_digests.specs.HeldPages.{PageState};

    ghost Value = { List PageState };

    ghost view = { λ h. h.pages.items };

    ghost invariant = { λ h. vec_len h.pages ≤ 128 };
}

impl<D: Digest> HeldPages<D> {
    /// None yet.
    pub fn new(alloc: Global) -> Self
        ensures { result ≡ [] }
    {
        HeldPages {
            pages: Vec::new(alloc),
        }
    }

    /// Takes the page out that has this digest and so many bytes, if it is held.
    #[tactic(auto, using(crate::proofs::Holding::taken_at))]
    pub fn take(&mut self, digest: &[u8; 32], len: usize) -> Option<HeldPage<D>>
        ensures { TakesHeldPage digest.now len self.old self.new result }
    {
        match self.place_of(digest, len) {
            Some(place) => Some(self.pages.remove(place)),
            None => None,
        }
    }

    // Where the page is held that has this digest and so many bytes.
    fn place_of(&self, digest: &[u8; 32], len: usize) -> Option<usize>
        ensures { FindsPage digest.now len self.now result }
    {
        for place in 0..self.pages.len() {
            if self.pages[place].has(digest, len) {
                return Some(place);
            }
        }
        None
    }

    /// Holds a page as the one that was used last. If there are too many then, the one goes that
    /// wasn't used for the longest time. The only error is that memory was refused: then it isn't
    /// held, and those are that stay.
    pub fn keep(&mut self, page: HeldPage<D>) -> Result<(), AllocError>
        ensures kept { IfOk result (λ u. self.new ≡ kept_page HELD page self.old) }
        ensures rest { IfErr result (λ e. self.new ≡ staying HELD self.old) }
    {
        if self.pages.len() >= HELD {
            let _ = self.pages.remove(0);
        }
        self.pages.push(page)?;
        Ok(())
    }
}
