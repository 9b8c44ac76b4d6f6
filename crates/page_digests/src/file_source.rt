// A file of the system as a source.
ghost use Rattle.std.specs.Prelude.{◌≡◌, []};

use crate::ahead::Ahead;
use crate::past::SourcePast;
use crate::source::Source;
use std::alloc::Global;
use std::fs::File;
use std::io;
use std::marker::Model;
use std::snapshot::Snapshot;

/// A file of the system of which ranges are read. It is only read. Once a few reads of pages
/// followed one another, 64 KiB are read at once, and held.
#[derive(Drop)]
pub struct FileSource {
    file: File,
    ahead: Ahead,
    past: Snapshot<SourcePast>,
}

impl Model for FileSource {
    ghost use Rattle.std.specs.Prelude.{List};
    ghost use Rattle.page_digests.specs.Sources.{SourceRead};

    ghost Value = { List SourceRead };

    ghost view = { λ s. s.past.value };
}

impl FileSource {
    /// A file of which nothing was read yet.
    pub fn new(alloc: Global, file: File) -> Self
        ensures { result ≡ [] }
    {
        FileSource {
            file,
            ahead: Ahead::new(alloc),
            past: SourcePast::begun(),
        }
    }
}

impl Source for FileSource {
    ghost reads = { λ s. s };

    fn read_at(&mut self, bytes: &mut [u8], offset: u64) -> io::Result<()> {
        let result = self.ahead.fill(&self.file, bytes, offset);
        self.past = SourcePast::after(&self.past, offset, bytes, result.is_err());
        result
    }
}
