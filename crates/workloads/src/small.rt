// The other jobs on small pages, where what is done for each page outweighs its bytes.
use crate::commit::play_commits;
use crate::digest::Digest;
use crate::load::play_loads;
use crate::lookup::play_lookups;
use crate::open::play_opens;
use crate::stage::Plan;
use anyhow::Result;
use page::Sum;
use std::alloc::Global;
use std::num::NonZeroU16;

/// The logical bytes of a page.
const PAGE_SIZES: [u16; 4] = [16, 64, 256, 512];

/// Plays the workload, and answers what the jobs came to together.
pub fn play_small<H: Sum>(alloc: Global, plan: &Plan, digest: &mut Digest) -> Result<u64> {
    let mut done = 0u64;
    for page_size in PAGE_SIZES {
        let page_size = NonZeroU16::new(page_size).unwrap_or(NonZeroU16::MIN);
        let plan = Plan { page_size, ..*plan };
        done = done.saturating_add(play_commits::<H>(alloc, &plan, digest)?);
        done = done.saturating_add(play_opens::<H>(alloc, &plan, digest)?);
        done = done.saturating_add(play_loads::<H>(alloc, &plan, digest)?);
        done = done.saturating_add(play_lookups::<H>(alloc, &plan, digest)?);
    }
    Ok(done)
}
