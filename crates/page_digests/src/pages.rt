// The pages of some bytes, and their digests.
ghost use Rattle.std.specs.Prelude.{◌≡◌, ◌≤◌, ◌+◌, ◌*◌, ◌^◌, ◌<◌, length, IfOk};
ghost use Rattle.page_digests.specs.Pages.{digest_at, list_len, list_of, content_page, page_len};

use digest::Digest;
use std::alloc::{AllocError, Global};

/// A content has less than so many bytes: 1 PiB.
pub const LEN_LIMIT: u64 = 1 << 50;

/// How many bytes of other things stand behind each page in a content's file.
pub const BETWEEN: usize = 12;

/// The list of some bytes: the digests of their pages of `page_size` bytes, joined.
pub fn list_of<D: Digest>(
    alloc: Global,
    bytes: &[u8],
    page_size: usize,
) -> Result<Vec<u8>, AllocError>
    requires { 0 < page_size }
    ensures { IfOk result (λ list. list.items ≡ list_of D.digest_of page_size bytes.now) }
{
    let count = bytes.len().div_ceil(page_size);
    let mut list = Vec::new(alloc);
    for i in 0..count {
        list.extend_from_slice(&D::digest(page_of(bytes, page_size, i)))?;
    }
    Ok(list)
}

// Page `i` of some bytes.
fn page_of(bytes: &[u8], page_size: usize, i: usize) -> &[u8]
    requires { i * page_size ≤ length bytes.now }
    ensures { result.now ≡ content_page page_size i bytes.now }
{
    let rest = &bytes[i * page_size..];
    let len = page_size.min(rest.len());
    &rest[..len]
}

/// How many bytes the list of so many bytes has.
#[tactic(auto, using(crate::proofs::Paging::list_len_most))]
pub fn list_len(len: usize, page_size: usize) -> usize
    requires positive { 0 < page_size }
    requires fits { len < 2 ^ 57 }
    ensures len { result ≡ list_len page_size len }
    ensures most { result ≤ len * 32 }
{
    len.div_ceil(page_size) * 32
}

/// How many bytes page `i` of so many bytes has.
pub fn page_len(len: usize, page_size: usize, i: usize) -> usize
    requires { i * page_size ≤ len }
    ensures { result ≡ page_len page_size len i }
{
    page_size.min(len - i * page_size)
}

/// Digest `i` of a list.
pub fn digest_at(list: &[u8], i: usize) -> [u8; 32]
    requires { i * 32 + 32 ≤ length list.now }
    ensures { result ≡ digest_at i list.now }
{
    let mut digest = [0; 32];
    digest.copy_from_slice(&list[i * 32..i * 32 + 32]);
    digest
}
