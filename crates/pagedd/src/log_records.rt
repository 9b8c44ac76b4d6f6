// The records that the bytes of a request hold.
ghost use Rattle.std.specs.Prelude.{◌≤◌, length};

use crate::log_answer::MOST_PAYLOAD;
use journal::MOST_BYTES;

/// How many bytes an answer has for each record.
const ANSWERED: u64 = 16;

/// The most records of a request, since an answer holds a place for each.
pub const MOST_RECORDS: u64 = MOST_PAYLOAD / ANSWERED;

/// The records that the bytes of a request hold.
#[derive(Clone, Copy)]
pub struct Records<'a> {
    /// The length of each record in four bytes, the lowest first.
    pub lengths: &'a [u8],
    /// The bytes of the records, with nothing between them.
    pub bytes: &'a [u8],
}

impl<'a> Records<'a> {
    /// The records that these bytes hold. `None` where the bytes are no records, or where a record
    /// is too long.
    pub fn of(fields: &'a [u8]) -> Option<Self> {
        let (head, rest) = fields.split_first_chunk::<4>()?;
        let count = u32::from_le_bytes(*head);
        if u64::from(count) > MOST_RECORDS {
            return None;
        }
        let (lengths, bytes) = rest.split_at_checked((count as usize).checked_mul(4)?)?;
        add_up(lengths, bytes.len()).then_some(Records { lengths, bytes })
    }

    /// How many records there are.
    pub fn count(&self) -> usize {
        self.lengths.len() / 4
    }
}

// Whether these lengths add up to `total`, and none is longer than a record may be.
fn add_up(lengths: &[u8], total: usize) -> bool {
    let mut left = total;
    for length in lengths.chunks_exact(4) {
        let length = length_of(length);
        match left.checked_sub(length) {
            Some(rest) if length <= MOST_BYTES => left = rest,
            _ => return false,
        }
    }
    left == 0
}

/// The length that stands in the first four of these bytes. 0 where there are fewer.
pub fn length_of(bytes: &[u8]) -> usize {
    match bytes.first_chunk::<4>() {
        Some(four) => u32::from_le_bytes(*four) as usize,
        None => 0,
    }
}

/// The first record of these bytes, which has this length, and what follows it. A length greater
/// than a record or these bytes may have is cut to that.
pub fn split_record(bytes: &[u8], len: usize) -> (&[u8], &[u8])
    ensures short { length result.0.now ≤ 65535 }
{
    let len = len.min(bytes.len()).min(MOST_BYTES);
    (&bytes[..len], &bytes[len..])
}
