// Chunks of whole pages, page by page.
ghost use Rattle.std.specs.Prelude.{◌≡◌, ◌<◌, ◌%◌, ◌++◌, length, IfOk, OnOk, IsOkUnless};
ghost use Rattle.std.specs.List.{concat};
ghost use Rattle.page.specs.Tip.{AreWholePages, ArePages};

use disk::{Error, IoBuf, IoBufs};
use std::alloc::Global;

/// Adds the pages of one chunk. The only error is `OutOfMemory`.
fn push_pages(pages: &mut Vec<IoBuf>, chunk: &IoBuf, page_size: usize) -> Result<(), Error>
    requires some { 0 < page_size }
    requires whole { length chunk.now % page_size ≡ 0 }
    requires pages { ArePages page_size pages.old.items }
    ensures bytes { OnOk result (concat pages.new.items ≡ concat pages.old.items ++ chunk.now) }
    ensures pages { ArePages page_size pages.new.items }
    ensures err { IsOkUnless result Error.OutOfMemory }
{
    for page in 0..chunk.len() / page_size {
        let start = page * page_size;
        pages.push(chunk.slice(start, start + page_size)?)?;
    }
    Ok(())
}

#[tactic(auto, using(crate::proofs::Chunks::concat_more))]
/// The pages of these chunks in order, each `page_size` bytes that are shared with its chunk. The
/// only error is `OutOfMemory`.
pub fn split_pages(alloc: Global, chunks: &IoBufs, page_size: usize) -> Result<Vec<IoBuf>, Error>
    requires some { 0 < page_size }
    requires whole { AreWholePages page_size chunks.now }
    ensures bytes { IfOk result (λ pages. concat pages.items ≡ concat chunks.now) }
    ensures pages { IfOk result (λ pages. ArePages page_size pages.items) }
    ensures err { IsOkUnless result Error.OutOfMemory }
{
    let mut pages = Vec::with_capacity(alloc, chunks.len() / page_size)?;
    for chunk in chunks.as_slice() {
        push_pages(&mut pages, chunk, page_size)?;
    }
    Ok(pages)
}
