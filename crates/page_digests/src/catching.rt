// Digests of a blob's pages while it is written.
ghost use Rattle.std.specs.Prelude.{◌≡◌, ◌≤◌, ◌<◌, ◌+◌, ◌*◌, ◌^◌, length};
ghost use Rattle.std.specs.Int.NonZero.{non_zero_u16_get};
ghost use Rattle.page_digests.specs.Growing.{CatchesUp, payload_at};

use crate::digesting::Digesting;
use crate::pages::BETWEEN;
use digest::Digest;
use std::alloc::AllocError;
use std::num::NonZeroU16;

/// Digests the payloads of the first `full` pages of a blob, as far as they aren't digested yet, by
/// its physical bytes: the payload of page n begins at byte n * (P + 12). The only error is that
/// memory was refused; then some of the pages may be digested.
pub fn catch_up<D: Digest>(
    digesting: &mut Digesting<D>,
    physical: &[u8],
    page_size: NonZeroU16,
    full: usize,
) -> Result<(), AllocError>
    requires { full * (non_zero_u16_get page_size + 12) ≤ length physical.now }
    ensures { let P = non_zero_u16_get page_size in
        CatchesUp D.digest_of P full physical.now digesting.old digesting.new result }
{
    let page_size = usize::from(page_size.get());
    for n in digesting.pages()..full {
        digesting.take_page(payload(physical, page_size, full, n))?;
    }
    Ok(())
}

// The payload of page `n`, one of the first `full`.
#[tactic(auto, using(crate::proofs::Payloads::payload_there))]
fn payload(physical: &[u8], page_size: usize, full: usize, n: usize) -> &[u8]
    requires there { full * (page_size + 12) ≤ length physical.now }
    requires below { n < full }
    ensures payload { result.now ≡ payload_at page_size n physical.now }
    ensures few { n < 2 ^ 63 }
{
    let begin = n * (page_size + BETWEEN);
    &physical[begin..begin + page_size]
}
