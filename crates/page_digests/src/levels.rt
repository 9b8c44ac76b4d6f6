// The levels of a content: its list, the top and the root.
ghost use Rattle.std.specs.Prelude.{◌≡◌, ℕ, List, IfOk};
ghost use Rattle.std.specs.Int.NonZero.{non_zero_u16_get};
ghost use Rattle.page_digests.specs.Pages.{list_of};
ghost use Rattle.page_digests.specs.Seals.{AreLevelsOf, AreLevelsOver, EachIsByte, TellsApart};

use crate::pages::list_of;
use digest::Digest;
use std::alloc::{AllocError, Global};
use std::num::NonZeroU16;

/// The levels of a content. The list's file holds the list and then the top. The root is kept with
/// the content's length, as its [`Seal`](crate::Seal).
#[derive(Drop)]
pub struct Levels {
    /// The digests of the content's pages, joined.
    pub list: Vec<u8>,
    /// The digests of the list's pages, joined.
    pub top: Vec<u8>,
    /// The digest of the top.
    pub root: [u8; 32],
}

/// The levels of a content, by pages of `page_size` bytes. The only error is that memory was
/// refused.
pub fn levels_of<D: Digest>(
    alloc: Global,
    content: &[u8],
    page_size: NonZeroU16,
) -> Result<Levels, AllocError>
    ensures levels { let P = non_zero_u16_get page_size in
        IfOk result (λ l. AreLevelsOf D.digest_of P content.now l) }
    ensures apart { let P = non_zero_u16_get page_size in
        IfOk result (λ l. TellsApart D.digest_of P content.now l.root) }
{
    let list = list_of::<D>(alloc, content, usize::from(page_size.get()))?;
    levels_of_list::<D>(alloc, list, page_size)
}

/// The levels of a content by its list, as [`Digesting::finish`](crate::Digesting::finish) gives
/// it. The only error is that memory was refused.
pub fn levels_of_list<D: Digest>(
    alloc: Global,
    list: Vec<u8>,
    page_size: NonZeroU16,
) -> Result<Levels, AllocError>
    ensures over { let P = non_zero_u16_get page_size in
        IfOk result (λ l. AreLevelsOver D.digest_of P list.items l) }
    ensures each { let P = non_zero_u16_get page_size in
        IfOk result (λ l. (content : List ℕ) → EachIsByte content
        → list.items ≡ list_of D.digest_of P content → TellsApart D.digest_of P content l.root) }
{
    let top = list_of::<D>(alloc, &list, usize::from(page_size.get()))?;
    let root = D::digest(&top);
    are_bytes(&list);
    are_bytes(&top);
    Ok(Levels { list, top, root })
}

// Does nothing: its clause says what a proof takes from the type.
fn are_bytes(bytes: &[u8])
    ensures { EachIsByte bytes.now }
{
    let _ = bytes;
}
