// Putting pages.
ghost use Rattle.std.specs.Prelude.{◌≡◌, ◌*◌, ◌-◌, ◌/◌, ◌%◌, length};
ghost use Rattle.cache.specs.CacheState.{Puts, PutsAll, put_count};

use crate::cache::CacheRef;

impl CacheRef {
    /// Puts a page of a blob, of exactly the cache's page size, and takes no memory. A page that is
    /// held is written over in its place. A new page gets a free place. Where there is none, it
    /// gets the place of another page, which goes.
    pub fn keep(&mut self, id: u64, page: u64, bytes: &[u8])
        requires { length bytes.now ≡ self.old.page_size }
        ensures puts { Puts (id, page) bytes.now self.old self.new }
    {
        self.slots.put((id, page), bytes);
    }

    /// Puts the whole pages that `buf` begins with, in rising order, and answers how many bytes of
    /// `buf` stand after them. The first is the blob's page that begins at the logical `offset`. A
    /// page whose number would pass the greatest `u64` isn't put. It takes no memory.
    pub fn cache(&mut self, id: u64, buf: &[u8], offset: u64) -> usize
        requires { offset % self.old.page_size ≡ 0 }
        ensures puts_all { let page = offset / self.old.page_size in
            let count = put_count self.old.page_size page (length buf.now) in
            PutsAll id page count buf.now self.old self.new }
        ensures left { let page = offset / self.old.page_size in
            let count = put_count self.old.page_size page (length buf.now) in
            result ≡ length buf.now - count * self.old.page_size }
    {
        let size = usize::from(self.slots.page_size.get());
        let first = offset / size as u64;
        // Where this count saturates, no buffer has so many pages.
        let numbers = (u64::MAX - first).saturating_add(1);
        let count = ((buf.len() / size) as u64).min(numbers) as usize;
        for index in 0..count {
            let start = index * size;
            self.keep(id, first + index as u64, &buf[start..start + size]);
        }
        buf.len() - count * size
    }
}
