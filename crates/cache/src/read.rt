// Looking pages up.
ghost use Rattle.std.specs.Prelude.{◌≡◌, length, All, IfSome, option_copied};
ghost use Rattle.cache.specs.CacheState.{ReadsCached, IsPiece, ReadsPieces, cached_page};

use crate::cache::CacheRef;
use crate::fill::copy_at;
use crate::piece::Piece;
use disk::Error;

impl CacheRef {
    /// The page of a blob, if it is held.
    fn page(&self, id: u64, page: u64) -> Option<&[u8]>
        ensures page { option_copied result ≡ cached_page self.now (id, page) }
        ensures size { IfSome result (λ bytes. length bytes.now ≡ self.now.page_size) }
    {
        self.slots.get((id, page))
    }

    /// Copies the bytes of a blob from the logical `offset` on into `buf`, and answers how many. It
    /// stops at the first byte whose page isn't held, or after the greatest offset. The rest of
    /// `buf` stays as it was. It takes no memory.
    pub fn read_cached(&self, id: u64, buf: &mut [u8], offset: u64) -> usize
        ensures { ReadsCached self.now id offset buf.old buf.new result }
    {
        let offsets = (u64::MAX - offset).saturating_add(1);
        let most = (buf.len() as u64).min(offsets) as usize;
        let mut done = 0;
        while done < most {
            let (page, skip) = self.offset_to_page(offset + done as u64);
            let Some(bytes) = self.page(id, page) else {
                break;
            };
            let bytes = &bytes[skip as usize..];
            let len = bytes.len().min(most - done);
            copy_at(buf, done, &bytes[..len]);
            done += len;
        }
        done
    }

    /// Copies each piece whose page is held into its place of `buf`, and answers the other pieces
    /// in their order. The only error is `OutOfMemory`; after it `buf` may hold anything.
    pub fn read_cached_many(
        &self,
        id: u64,
        buf: &mut [u8],
        pieces: &[Piece],
    ) -> Result<Vec<Piece>, Error>
        requires { All (λ piece. IsPiece self.now.page_size (length buf.old) piece) pieces.now }
        ensures copies { ReadsPieces self.now id pieces.now buf.old buf.new result }
        ensures size { length buf.new ≡ length buf.old }
    {
        let mut left = Vec::new(self.alloc);
        for piece in pieces {
            match self.page(id, piece.page) {
                Some(page) => copy_at(buf, piece.place, &page[piece.skip..][..piece.len]),
                None => left.push(*piece)?,
            }
        }
        Ok(left)
    }
}
