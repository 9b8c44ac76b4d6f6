// A file of a closed segment that is read by its pages.
ghost use Rattle.std.specs.Prelude.{◌≡◌, []};

use page_digests::{Source, VecSource};
use std::io;
use std::marker::Model;

/// What a closed segment or its list is read from.
#[derive(Drop)]
pub struct SegmentFile<S: Source> {
    kind: Kind<S>,
}

#[derive(Drop)]
enum Kind<S: Source> {
    // A file of the folder.
    Folder(S),
    // A list that was built again, in memory.
    Memory(VecSource),
}

impl<S: Source> Model for SegmentFile<S> {
    ghost use Rattle.std.specs.Prelude.{List};
    ghost use Rattle.page_digests.specs.Sources.{SourceRead};
    ghost use Rattle.segments.specs.SegmentFiles.{reads_from};

    ghost Value = { List SourceRead };

    ghost view = { λ f. reads_from S.reads f.kind };
}

impl<S: Source + Drop> SegmentFile<S> {
    /// A file of the folder.
    pub fn of(source: S) -> Self
        ensures { result ≡ S.reads source }
    {
        SegmentFile {
            kind: Kind::Folder(source),
        }
    }

    /// Bytes in memory, of which nothing was read yet.
    pub fn in_memory(bytes: Vec<u8>) -> Self
        ensures { result ≡ [] }
    {
        SegmentFile {
            kind: Kind::Memory(VecSource::new(bytes)),
        }
    }
}

impl<S: Source + Drop> Source for SegmentFile<S> {
    ghost reads = { λ f. f };

    fn read_at(&mut self, bytes: &mut [u8], offset: u64) -> io::Result<()> {
        match &mut self.kind {
            Kind::Folder(source) => source.read_at(bytes, offset),
            Kind::Memory(source) => source.read_at(bytes, offset),
        }
    }
}
