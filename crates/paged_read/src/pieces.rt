// The pages of a range.
ghost use Rattle.std.specs.Prelude.{◌≡◌, ◌+◌, ◌*◌, ◌/◌, ◌<◌, ◌≤◌, ◌^◌, ◌++◌, ◌∷◌, []};
ghost use Rattle.std.specs.Prelude.{IfSome, OnOk, IsOkUnless};
ghost use Rattle.std.specs.Int.NonZero.{non_zero_u16_get};
ghost use Rattle.paged_read.specs.Pieces.{piece_of, pieces_of};

use cache::Piece;
use disk::Error;
use std::num::NonZeroU16;

/// The piece of a range that lies in the page `page`, for a buffer in which the range begins at
/// `buf_offset`.
fn piece_at(page_size: NonZeroU16, offset: u64, len: usize, buf_offset: usize, page: u64) -> Piece
    requires addressable { offset + len < 2 ^ 64 }
    requires room { buf_offset + len < 2 ^ 64 }
    requires begins { page * non_zero_u16_get page_size ≤ offset + len }
    requires ends { offset ≤ (page + 1) * non_zero_u16_get page_size }
    ensures { result ≡ piece_of (non_zero_u16_get page_size) (offset, len) buf_offset page }
{
    let size = u64::from(page_size.get());
    let start = page * size;
    let from = offset.max(start);
    let end = (offset + len as u64).min(start.saturating_add(size));
    Piece {
        page,
        skip: (from - start) as usize,
        place: buf_offset + (from - offset) as usize,
        len: (end - from) as usize,
    }
}

/// The piece of a range that lies in one page, for a buffer in which the range begins at 0. `None`
/// where the range goes on after the page in which it begins.
pub(crate) fn only_piece(page_size: NonZeroU16, offset: u64, len: usize) -> Option<Piece>
    requires addressable { offset + len < 2 ^ 64 }
    requires some { 0 < len }
    ensures { let P = non_zero_u16_get page_size in
        IfSome result (λ piece. (piece.page ≡ offset / P)
        × (pieces_of P (offset, len) 0 ≡ piece ∷ [])) }
{
    let size = u64::from(page_size.get());
    if offset % size + len as u64 > size {
        return None;
    }
    Some(piece_at(page_size, offset, len, 0, offset / size))
}

/// Adds the pieces of a range, page by page, for a buffer in which the range begins at
/// `buf_offset`. `OutOfMemory` alone.
pub(crate) fn push_pieces(
    pieces: &mut Vec<Piece>,
    page_size: NonZeroU16,
    offset: u64,
    len: usize,
    buf_offset: usize,
) -> Result<(), Error>
    requires addressable { offset + len < 2 ^ 64 }
    requires room { buf_offset + len < 2 ^ 64 }
    ensures ok { let more = pieces_of (non_zero_u16_get page_size) (offset, len) buf_offset in
        OnOk result (pieces.new.items ≡ pieces.old.items ++ more) }
    ensures err { IsOkUnless result Error.OutOfMemory }
{
    if len == 0 {
        return Ok(());
    }
    let size = u64::from(page_size.get());
    let first = offset / size;
    let count = (offset % size + len as u64).div_ceil(size);
    for page in first..first + count {
        pieces.push(piece_at(page_size, offset, len, buf_offset, page))?;
    }
    Ok(())
}
