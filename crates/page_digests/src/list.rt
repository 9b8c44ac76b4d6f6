// The list of a content in its file, of which the top is known.
ghost use Rattle.std.specs.Prelude.{◌≡◌, ◌<◌, ◌*◌, ◌^◌, []};
ghost use Rattle.page_digests.specs.Lists.{DigestGoes, IsList};

use crate::error::Error;
use crate::paged_bytes::PagedBytes;
use crate::pages::list_len;
use crate::seal::Seal;
use crate::source::Source;
use digest::Digest;
use std::alloc::Global;
use std::marker::Model;

/// The list of a content in its file: the content's seal, and the list's bytes, of which the top is
/// known.
#[derive(Drop)]
pub struct PagedList<F: Source, D: Digest> {
    seal: Seal,
    list: PagedBytes<F, D>,
}

impl<F: Source, D: Digest> Model for PagedList<F, D> {
    ghost use Rattle.page_digests.specs.Lists.{IsListOf, ListState, list_over};

    ghost Value = { ListState };

    ghost view = { λ l. list_over l.seal l.list };

    ghost invariant = { λ l. IsListOf D.digest_of l.seal l.list };
}

impl<F: Source + Drop, D: Digest> PagedList<F, D> {
    /// A list whose top has the root of the seal. This reads nothing.
    pub fn new(alloc: Global, file: F, seal: Seal, page_size: usize, top: Vec<u8>) -> Self
        requires { IsList D.digest_of (record {
          seal = seal;
          page_size = page_size;
          top = top.items;
          cached = None;
          page = [];
          reads = F.reads file;
        }) }
        ensures { result ≡ record {
          seal = seal;
          page_size = page_size;
          top = top.items;
          cached = None;
          page = [];
          reads = F.reads file;
        } }
    {
        let len = list_len(seal.len as usize, page_size);
        PagedList {
            seal,
            list: PagedBytes::new(alloc, file, 0, len, page_size, top),
        }
    }

    /// The digest of page `i` of the content.
    pub fn digest(&mut self, i: usize) -> Result<[u8; 32], Error>
        requires positive { 0 < self.old.page_size }
        requires fits { self.old.seal.len < 2 ^ 50 }
        requires within { i * self.old.page_size < self.old.seal.len }
        ensures { DigestGoes D.digest_of i self.old self.new result }
    {
        let mut digest = [0; 32];
        self.list.read(i * 32, &mut digest)?;
        Ok(digest)
    }
}
