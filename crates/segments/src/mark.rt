// The mark of a page.
ghost use Rattle.std.specs.Prelude.{◌≡◌, ◌<◌, ◌^◌};
ghost use Rattle.segments.specs.Marks.{mark_bytes};

/// The mark of a page of a content: where frames begin, by which one is found without a walk
/// through the pages before.
#[derive(Clone, Copy)]
pub struct Mark {
    /// How many frames begin before the page.
    pub before: u64,
    /// How many bytes of the page stand before the begin of the next frame; a page's length if
    /// that begins behind the page.
    pub skip: u16,
}

// What the bytes before a mark's last two are multiples of.
const SKIPS: u64 = 1 << 48;

/// A mark's bytes, the least first: six have the count. A count that needs more, as in a content of
/// more than a pebibyte, can't be told by them.
pub fn bytes_of_mark(mark: Mark) -> [u8; 8]
    ensures { result ≡ mark_bytes mark }
{
    let skips = u64::from(mark.skip) * SKIPS;
    mark.before.wrapping_add(skips).to_le_bytes()
}

/// The mark that has these bytes.
pub fn mark_of(bytes: [u8; 8]) -> Mark
    ensures bytes { mark_bytes result ≡ bytes }
    ensures few { result.before < 2 ^ 48 }
    ensures near { result.skip < 2 ^ 16 }
{
    let sum = u64::from_le_bytes(bytes);
    Mark {
        before: sum % SKIPS,
        skip: (sum / SKIPS) as u16,
    }
}
