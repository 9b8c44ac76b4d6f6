// The files of a log in a folder of the system, by their names.
use crate::folder::Asked;
use page_digests::FileSource;
use std::fs::{DirEntry, File};
use std::io::ErrorKind;
use std::{fs, io};

// What stands after the number in the name of a segment's file.
const ENDING: &str = ".segment";

// The same of the file of its list.
const LIST_ENDING: &str = ".digests";

/// The files of a log in a folder of the system: `manifest`, for each segment its number with
/// twenty digits and `.segment`, and for each closed one the same with `.digests`: its list.
#[derive(Drop)]
pub struct Names {
    rt: HostRuntime,
    path: String,
}

impl Names {
    /// The files of a log in the folder at a path.
    pub fn new(rt: &HostRuntime, path: &str) -> io::Result<Self> {
        Ok(Names {
            rt: rt.clone()?,
            path: String::from_str(rt.alloc(), path)?,
        })
    }

    /// The system.
    pub fn rt(&self) -> &HostRuntime {
        &self.rt
    }

    /// The path of the folder.
    pub fn folder(&self) -> &str {
        self.path.as_str()
    }

    /// The path of a file.
    pub fn path_of(&self, file: Asked) -> io::Result<String> {
        let path = self.path.as_str();
        let name = match file {
            Asked::Manifest => format!(in self.rt.alloc(); "{path}/manifest")?,
            Asked::Segment(number) => {
                format!(in self.rt.alloc(); "{path}/{number:020}{ENDING}")?
            }
        };
        Ok(name)
    }

    /// The path of the file of a segment's list.
    pub fn list_path(&self, segment: u64) -> io::Result<String> {
        let path = self.path.as_str();
        let name = format!(in self.rt.alloc(); "{path}/{segment:020}{LIST_ENDING}")?;
        Ok(name)
    }

    /// A file of which ranges are read.
    pub fn source(&self, path: &str) -> io::Result<FileSource> {
        let file = File::open(&self.rt, path)?;
        Ok(FileSource::new(self.rt.alloc(), file))
    }

    /// The path of the manifest's copy.
    pub fn copy_path(&self) -> io::Result<String> {
        let path = self.path.as_str();
        let name = format!(in self.rt.alloc(); "{path}/manifest.copy")?;
        Ok(name)
    }

    /// Whether a file is there.
    pub fn has(&self, file: Asked) -> io::Result<bool> {
        fs::exists(&self.rt, self.path_of(file)?.as_str())
    }

    /// The least number of a segment whose file is there.
    pub fn first(&self) -> io::Result<Option<u64>> {
        let mut first = None;
        for entry in fs::read_dir(&self.rt, self.path.as_str())? {
            let Some((number, _)) = segment_of(entry)? else {
                continue;
            };
            first = match first {
                Some(least) if least < number => Some(least),
                _ => Some(number),
            };
        }
        Ok(first)
    }

    /// The greatest number of a segment whose file has bytes.
    pub fn last_with_bytes(&self) -> io::Result<Option<u64>> {
        let mut last = None;
        for entry in fs::read_dir(&self.rt, self.path.as_str())? {
            let Some((number, entry)) = segment_of(entry)? else {
                continue;
            };
            if entry.metadata()?.len() > 0 && last < Some(number) {
                last = Some(number);
            }
        }
        Ok(last)
    }
}

// The number of the segment whose file an entry of the folder is, with the entry. `None` for
// another file, also for one whose name isn't UTF-8.
fn segment_of(entry: io::Result<DirEntry>) -> io::Result<Option<(u64, DirEntry)>> {
    let entry = match entry {
        Ok(entry) => entry,
        Err(error) if error.kind() == ErrorKind::InvalidFilename => return Ok(None),
        Err(error) => return Err(error),
    };
    match number_of(entry.file_name()) {
        Some(number) => Ok(Some((number, entry))),
        None => Ok(None),
    }
}

// The number of a segment, by the name of its file: twenty digits, and no sign in front of fewer.
fn number_of(name: &str) -> Option<u64> {
    let digits = name.strip_suffix(ENDING)?;
    if digits.len() != 20 || !digits.bytes().all(|byte| byte.is_ascii_digit()) {
        return None;
    }
    digits.parse().ok()
}
