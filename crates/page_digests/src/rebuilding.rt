// The levels of a content, built again from its file.
ghost use Rattle.std.specs.Prelude.{◌≡◌, ◌<◌, ◌^◌, length, IfOk};
ghost use Rattle.std.specs.Int.NonZero.{non_zero_u16_get};
ghost use Rattle.page_digests.specs.Pages.{list_of, top_len};
ghost use Rattle.page_digests.specs.Rebuilds.{ListReadGoes, RebuildGoes};
ghost use Rattle.page_digests.specs.Seals.{IsVerified};

use crate::error::Error;
use crate::levels::{Levels, levels_of_list};
use crate::pages::{BETWEEN, LEN_LIMIT, page_len};
use crate::reading::read_bytes;
use crate::seal::Seal;
use crate::source::Source;
use digest::Digest;
use std::alloc::Global;
use std::num::NonZeroU16;

/// Builds the levels of the content that has this seal, from the pages in its file. Each page is
/// read once, in order. `Damaged` if the file holds another content: nobody knows then which page
/// isn't as it was.
pub fn rebuild_levels<F: Source, D: Digest>(
    alloc: Global,
    file: &mut F,
    seal: &Seal,
    page_size: NonZeroU16,
) -> Result<Levels, Error>
    requires { seal.now.len < LEN_LIMIT }
    ensures goes { let P = non_zero_u16_get page_size in
        RebuildGoes D.digest_of P seal.now (F.reads file.old) (F.reads file.new) result }
    ensures verified { let P = non_zero_u16_get page_size in let d = D.digest_of in
        IfOk result (λ l. IsVerified d P seal.now (list_of d P) l.list.items) }
    ensures root { IfOk result (λ l. D.digest_of l.top.items ≡ seal.now.root) }
    ensures top { let P = non_zero_u16_get page_size in
        IfOk result (λ l. length l.top.items ≡ top_len P seal.now.len) }
{
    let len = seal.len as usize;
    let list = read_list::<F, D>(alloc, file, len, usize::from(page_size.get()))?;
    let levels = levels_of_list::<D>(alloc, list, page_size)?;
    if levels.root == seal.root {
        Ok(levels)
    } else {
        Err(Error::Damaged)
    }
}

// The same, where the page size is a number that fits 16 bits.
pub(crate) fn rebuild_by<F: Source, D: Digest>(
    alloc: Global,
    file: &mut F,
    seal: &Seal,
    page_size: usize,
) -> Result<Levels, Error>
    requires limit { seal.now.len < LEN_LIMIT }
    requires positive { 0 < page_size }
    requires small { page_size < 2 ^ 16 }
    ensures goes { RebuildGoes D.digest_of page_size seal.now (F.reads file.old) (F.reads file.new)
        result }
    ensures root { IfOk result (λ l. D.digest_of l.top.items ≡ seal.now.root) }
    ensures top { IfOk result (λ l. length l.top.items ≡ top_len page_size seal.now.len) }
{
    let Some(page_size) = NonZeroU16::new(page_size as u16) else {
        unreachable!();
    };
    rebuild_levels::<F, D>(alloc, file, seal, page_size)
}

// The list of a content of `len` bytes, each page of which is read.
fn read_list<F: Source, D: Digest>(
    alloc: Global,
    file: &mut F,
    len: usize,
    page_size: usize,
) -> Result<Vec<u8>, Error>
    requires positive { 0 < page_size }
    requires small { page_size < 2 ^ 16 }
    requires fits { len < 2 ^ 50 }
    ensures { ListReadGoes D.digest_of page_size len (F.reads file.old) (F.reads file.new) result }
{
    let mut list = Vec::new(alloc);
    let mut page = Vec::new(alloc);
    for i in 0..len.div_ceil(page_size) {
        let offset = (i * (page_size + BETWEEN)) as u64;
        read_bytes(file, offset, page_len(len, page_size, i), &mut page)?;
        list.extend_from_slice(&D::digest(&page))?;
    }
    Ok(list)
}
