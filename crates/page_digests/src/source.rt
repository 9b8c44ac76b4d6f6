// Files of which ranges are read.
ghost use Rattle.std.specs.Prelude.{◌≡◌, [], ◌∷◌, ◌++◌, List};
ghost use Rattle.page_digests.specs.Sources.{SourceRead, read_outcome};

use std::io;

/// A file of which ranges are read. No clause says what it gives: each says just what was read.
pub trait Source {
    /// The reads so far, the oldest first, and what each gave.
    ghost reads: { Self → List SourceRead };

    /// Fills `bytes` with the file's bytes from byte `offset` on. An error where the file ends
    /// before they do, or where the system refuses the read.
    fn read_at(&mut self, bytes: &mut [u8], offset: u64) -> io::Result<()>
        ensures { reads self.new ≡ reads self.old ++ read_outcome offset bytes.new result ∷ [] };
}
