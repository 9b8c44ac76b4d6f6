// The names in the folder of a log.
use crate::ending::fail;
use crate::log_files::{is_list, number_of, segment_in};
use crate::status::Status;
use std::alloc::{AllocError, Global};
use std::io::ErrorKind;
use std::{fmt, fs, io};

/// At most so many names are told.
const MOST: usize = 20;

/// The names in a folder of a log.
pub struct FolderNames {
    /// The numbers of the segments whose files are there, the least first.
    pub numbers: Vec<u64>,
    /// The names that aren't the log's, at most twenty of them.
    pub others: Vec<String>,
    /// How many names aren't the log's.
    pub other_count: u64,
    /// How many of these are files that a copy of a log writes before it gives them their names.
    pub new_count: u64,
    /// How many copies of what was cut are there.
    pub cut_count: u64,
    /// Whether `manifest` is among them.
    pub has_manifest: bool,
}

// By hand, so that an owner lets one go by one call: of a derived drop, a proof follows each field
// at each exit.
impl Drop for FolderNames {
    fn drop(self) {
        let FolderNames {
            numbers: _,
            others: _,
            other_count: _,
            new_count: _,
            cut_count: _,
            has_manifest: _,
        } = self;
    }
}

impl FolderNames {
    /// The names in a folder. If it can't be read, a line says why.
    pub fn of(rt: &HostRuntime, folder: &str) -> Result<Self, Status> {
        match read_names(rt, folder) {
            Ok(mut names) => {
                names.numbers.sort_unstable();
                Ok(names)
            }
            Err(error) => Err(fail(rt, folder, error)),
        }
    }

    /// Whether the file of this segment is there.
    pub fn has(&self, number: u64) -> bool {
        self.numbers.binary_search(&number).is_ok()
    }

    /// Whether the file of a segment with a greater number has bytes, or can't be looked at.
    pub fn has_bytes_after(&self, rt: &HostRuntime, folder: &str, number: u64) -> bool {
        let mut later = self.numbers.iter().filter(|other| **other > number);
        later.any(|other| has_bytes(rt, folder, *other))
    }

    fn add(&mut self, alloc: Global, name: &str) -> Result<(), AllocError> {
        if let Some(number) = number_of(name) {
            return Ok(self.numbers.push(number)?);
        }
        match name {
            "manifest" => self.has_manifest = true,
            "manifest.copy" => {}
            _ if is_list(name) => {}
            _ if is_cut(name) => self.cut_count = self.cut_count.saturating_add(1),
            _ => {
                if self.others.len() < MOST {
                    self.others.push(String::from_str(alloc, name)?)?;
                }
                self.other_count = self.other_count.saturating_add(1);
                self.new_count = self.new_count.saturating_add(u64::from(is_new(name)));
            }
        }
        Ok(())
    }
}

fn read_names(rt: &HostRuntime, folder: &str) -> io::Result<FolderNames> {
    let mut names = FolderNames {
        numbers: Vec::new(rt.alloc()),
        others: Vec::new(rt.alloc()),
        other_count: 0,
        new_count: 0,
        cut_count: 0,
        has_manifest: false,
    };
    for entry in fs::read_dir(rt, folder)? {
        match entry {
            Ok(entry) => names.add(rt.alloc(), entry.file_name())?,
            Err(error) if error.kind() == ErrorKind::InvalidFilename => {
                names.other_count = names.other_count.saturating_add(1);
            }
            Err(error) => return Err(error),
        }
    }
    Ok(names)
}

// Whether the file of a segment has bytes, or can't be looked at.
fn has_bytes(rt: &HostRuntime, folder: &str, number: u64) -> bool {
    let Ok(path) = segment_in(rt.alloc(), folder, number) else {
        return true;
    };
    match fs::metadata(rt, path.as_str()) {
        Ok(told) => told.len() > 0,
        Err(_) => true,
    }
}

// Whether a name is that of a copy of what was cut from a file of the log.
fn is_cut(name: &str) -> bool {
    match name.split_once(".cut-") {
        Some((file, number)) => {
            (file == "manifest" || number_of(file).is_some())
                && number.bytes().all(|byte| byte.is_ascii_digit())
        }
        None => false,
    }
}

// Whether a name is that of a file of the log before it has its name.
fn is_new(name: &str) -> bool {
    match name.strip_suffix(".new") {
        Some("manifest" | "manifest.copy") => true,
        Some(file) => number_of(file).is_some(),
        None => false,
    }
}

/// The names that aren't the log's, in words.
impl fmt::Display for FolderNames {
    fn fmt<W: fmt::Write>(&self, f: &mut fmt::Formatter<W>) -> fmt::Result {
        let mut mark = "";
        for name in &self.others {
            write!(f, "{mark}{name}")?;
            mark = ", ";
        }
        let more = self.other_count.saturating_sub(self.others.len() as u64);
        if more > 0 {
            write!(f, "{mark}and {more} more")?;
        }
        Ok(())
    }
}
