// What was salvaged of a log, and what of it is missing.
use crate::ending::{or_end, tell};
use crate::log_marks::Stretch;
use crate::log_text::Piece;
use crate::report::quoted;
use crate::request::Request;
use crate::status::Status;
use segments::Closed;
use std::alloc::{AllocError, Global};
use std::{fmt, io};

/// What became of a segment.
#[derive(Clone, Copy, PartialEq, Eq)]
pub enum Fate {
    /// It was closed, and its file is what it was then.
    Whole,
    /// It was closed, and its file isn't what it was then.
    Damaged,
    /// It is the open one.
    Open,
    /// No manifest that can be read lists it.
    Unlisted,
    /// It was dropped, and its file was left.
    Dropped,
    /// Its file isn't there.
    Missing,
    /// The system refuses to read its file.
    Unread,
}

impl Fate {
    /// One word for it.
    fn name(self) -> &'static str {
        match self {
            Fate::Whole => "whole",
            Fate::Damaged => "damaged",
            Fate::Open => "open",
            Fate::Unlisted => "unlisted",
            Fate::Dropped => "dropped",
            Fate::Missing => "missing",
            Fate::Unread => "unread",
        }
    }
}

/// A segment, what became of it, and how many of its records were salvaged.
#[derive(Clone, Copy)]
pub struct Part {
    pub segment: u64,
    pub fate: Fate,
    pub records: u64,
}

/// Bytes of a segment's text that are in no frame that fits.
#[derive(Clone, Copy)]
pub struct Gap {
    pub segment: u64,
    pub offset: u64,
    pub bytes: u64,
}

impl fmt::Display for Gap {
    fn fmt<W: fmt::Write>(&self, f: &mut fmt::Formatter<W>) -> fmt::Result {
        let Gap {
            segment,
            offset,
            bytes,
        } = self;
        write!(
            f,
            "segment {segment}: {bytes} bytes at offset {offset} are in no record that fits"
        )
    }
}

/// A stretch of a segment's text of which records are lost. By the segment's marks it had
/// `records`.
#[derive(Clone, Copy)]
pub struct Loss {
    pub segment: u64,
    pub offset: u64,
    pub bytes: u64,
    pub records: u64,
    pub lost: u64,
}

impl fmt::Display for Loss {
    fn fmt<W: fmt::Write>(&self, f: &mut fmt::Formatter<W>) -> fmt::Result {
        let Loss {
            segment,
            offset,
            bytes,
            records,
            lost,
        } = self;
        write!(
            f,
            "segment {segment}: of {records} records in {bytes} bytes from offset {offset} on {lost} \
             are lost"
        )
    }
}

/// What lists the segments of a log.
#[derive(Clone, Copy)]
pub struct Listed {
    /// The name of the file that does; empty if there is none that can be read.
    pub by: &'static str,
    /// The first segment that wasn't dropped.
    pub first: u64,
    /// The open one.
    pub open: u64,
}

impl fmt::Display for Listed {
    fn fmt<W: fmt::Write>(&self, f: &mut fmt::Formatter<W>) -> fmt::Result {
        let Listed { by, first, open } = self;
        write!(
            f,
            "{by} lists segments {first} to {open}, and {open} is the open one"
        )
    }
}

/// What was salvaged of a log.
pub struct Salvaged {
    parts: Vec<Part>,
    gaps: Vec<Gap>,
    losses: Vec<Loss>,
    /// How many records.
    pub records: u64,
    /// Whether records that were listed are missing.
    lacks: bool,
}

// By hand, so that an owner lets one go by one call: of a derived drop, a proof follows each field
// at each exit.
impl Drop for Salvaged {
    fn drop(self) {
        let Salvaged {
            parts: _,
            gaps: _,
            losses: _,
            records: _,
            lacks: _,
        } = self;
    }
}

impl Salvaged {
    /// Nothing yet.
    pub fn new(alloc: Global) -> Self {
        Salvaged {
            parts: Vec::new(alloc),
            gaps: Vec::new(alloc),
            losses: Vec::new(alloc),
            records: 0,
            lacks: false,
        }
    }

    /// Counts a piece of a segment's text, and says what stands in front of its record, if
    /// something does.
    pub fn add(
        &mut self,
        rt: &HostRuntime,
        folder: &str,
        segment: u64,
        piece: &Piece<'_>,
    ) -> Result<(), AllocError> {
        if piece.record.is_some() {
            self.records = self.records.saturating_add(1);
        }
        if piece.gap > 0 {
            let gap = Gap {
                segment,
                offset: piece.offset as u64,
                bytes: piece.gap as u64,
            };
            self.lack(rt, folder, gap)?;
        }
        Ok(())
    }

    /// Counts bytes that are missing, and says so.
    pub fn lack(&mut self, rt: &HostRuntime, folder: &str, gap: Gap) -> Result<(), AllocError> {
        tell(rt, format_args!("{folder}: {gap}"));
        self.gaps.push(gap)?;
        Ok(())
    }

    /// Says how many records of a stretch of a segment's text are lost, if that is known, and some
    /// are. Before it so many records had been salvaged.
    pub fn count(
        &mut self,
        rt: &HostRuntime,
        folder: &str,
        segment: u64,
        stretch: Stretch,
        before: u64,
    ) -> Result<(), AllocError> {
        let found = self.records.saturating_sub(before);
        let records = stretch.frames.unwrap_or(0);
        if found < records {
            let loss = Loss {
                segment,
                offset: stretch.offset as u64,
                bytes: stretch.end.saturating_sub(stretch.offset) as u64,
                records,
                lost: records.saturating_sub(found),
            };
            tell(rt, format_args!("{folder}: {loss}"));
            self.losses.push(loss)?;
        }
        Ok(())
    }

    /// Says that the file of a segment has no byte, though others come after it.
    pub fn lack_all(&mut self, rt: &HostRuntime, folder: &str, segment: u64) {
        tell(
            rt,
            format_args!("{folder}: segment {segment}: its file is empty"),
        );
        self.lacks = true;
    }

    /// Counts a segment of which so many records were salvaged, and says what is missing of it by
    /// what was kept when it was closed.
    pub fn end(
        &mut self,
        rt: &HostRuntime,
        folder: &str,
        part: Part,
        closed: Option<Closed>,
    ) -> Result<(), AllocError> {
        let segment = part.segment;
        let listed = closed.map_or(part.records, |closed: Closed| closed.records);
        match part.fate {
            Fate::Missing | Fate::Unread => self.lacks = true,
            Fate::Damaged => {
                self.lacks = true;
                let found = part.records;
                let words = "it isn't what it was when it was closed";
                tell(
                    rt,
                    format_args!(
                        "{folder}: segment {segment}: {words}: it had {listed} records, and {found} were \
                         found"
                    ),
                );
            }
            _ => {}
        }
        self.parts.push(part)?;
        Ok(())
    }

    /// The number after that of the last segment that was counted, if one was.
    pub fn next(&self) -> Option<u64> {
        self.parts.last().map(|part| part.segment.saturating_add(1))
    }

    /// Whether nothing is missing.
    pub fn is_whole(&self) -> bool {
        !self.lacks && self.gaps.is_empty() && self.losses.is_empty()
    }

    // How many bytes are in no record.
    fn missing(&self) -> u64 {
        let mut missing = 0u64;
        for gap in &self.gaps {
            missing = missing.saturating_add(gap.bytes);
        }
        missing
    }

    // From how many segments the records are.
    fn segments(&self) -> usize {
        self.parts.iter().filter(|part| part.records > 0).count()
    }

    /// Prints in lines, or as a JSON object, what is in the new log.
    pub fn print(
        &self,
        rt: &HostRuntime,
        request: &Request,
        out: &str,
        listed: Listed,
    ) -> Result<(), Status> {
        if request.json {
            return self.print_object(rt, request, out, listed);
        }
        if !listed.by.is_empty() {
            or_end(rt, println!(rt; "{}: {listed}", request.file))?;
        }
        let (records, segments) = (self.records, self.segments());
        let told = match self.missing() {
            0 => println!(rt; "{out} has {records} records, of {segments} segments"),
            missing => println!(rt;
                "{out} has {records} records, of {segments} segments; {missing} bytes in {} places are \
                 in no record",
                self.gaps.len()
            ),
        };
        or_end(rt, told)
    }

    fn print_object(
        &self,
        rt: &HostRuntime,
        request: &Request,
        out: &str,
        listed: Listed,
    ) -> Result<(), Status> {
        let file = quoted(rt, request.file)?;
        let out = quoted(rt, out)?;
        let page_size = request.shape.page_size;
        let checksum = request.shape.checksum.name();
        let Listed { by, first, open } = listed;
        let printed = print!(rt;
            "{{\"file\":{file},\"out\":{out},\"page_size\":{page_size},\"checksum\":\"{checksum}\",\
             \"listed_by\":\"{by}\",\"first\":{first},\"open\":{open},\"segments\":["
        );
        or_end(rt, printed)?;
        or_end(rt, self.print_parts(rt))?;
        or_end(rt, print!(rt; "],\"gaps\":["))?;
        or_end(rt, self.print_gaps(rt))?;
        or_end(rt, print!(rt; "],\"losses\":["))?;
        or_end(rt, self.print_losses(rt))?;
        let printed = println!(rt;
            "],\"records\":{},\"missing_bytes\":{},\"whole\":{}}}",
            self.records,
            self.missing(),
            self.is_whole()
        );
        or_end(rt, printed)
    }

    fn print_parts(&self, rt: &HostRuntime) -> io::Result<()> {
        let mut mark = "";
        for part in &self.parts {
            print!(rt;
                "{mark}{{\"segment\":{},\"state\":\"{}\",\"records\":{}}}",
                part.segment,
                part.fate.name(),
                part.records
            )?;
            mark = ",";
        }
        Ok(())
    }

    fn print_gaps(&self, rt: &HostRuntime) -> io::Result<()> {
        let mut mark = "";
        for gap in &self.gaps {
            print!(rt;
                "{mark}{{\"segment\":{},\"offset\":{},\"bytes\":{}}}",
                gap.segment, gap.offset, gap.bytes
            )?;
            mark = ",";
        }
        Ok(())
    }

    fn print_losses(&self, rt: &HostRuntime) -> io::Result<()> {
        let mut mark = "";
        for loss in &self.losses {
            print!(rt;
                "{mark}{{\"segment\":{},\"offset\":{},\"bytes\":{},\"records\":{},\"lost\":{}}}",
                loss.segment, loss.offset, loss.bytes, loss.records, loss.lost
            )?;
            mark = ",";
        }
        Ok(())
    }
}
