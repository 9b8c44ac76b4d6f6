// What check and map answer of a log in JSON: one line, whose members stand in a fixed order.
use crate::ending::or_end;
use crate::log_names::FolderNames;
use crate::log_parts::{Checked, Part};
use crate::log_refusing::Why;
use crate::report::quoted;
use crate::request::Request;
use crate::status::Status;
use segments::{Closed, Fingerprint};
use std::{fmt, io};

/// What is known of a file that an opening recovers, as members of an object.
#[derive(Clone, Copy)]
struct PartMembers<'a>(&'a Part);

impl fmt::Display for PartMembers<'_> {
    fn fmt<W: fmt::Write>(&self, f: &mut fmt::Formatter<W>) -> fmt::Result {
        let Part {
            bytes,
            kept,
            cut,
            torn,
            is_whole,
        } = self.0;
        write!(
            f,
            "\"bytes\":{bytes},\"kept_bytes\":{kept},\"cut_bytes\":{cut},"
        )?;
        write!(f, "\"torn\":{torn},\"whole\":{is_whole}")
    }
}

/// Prints what stands in front of the closed segments.
pub fn print_heading(
    rt: &HostRuntime,
    request: &Request,
    first: u64,
    last: u64,
    manifest: &Part,
) -> Result<(), Status> {
    let file = quoted(rt, request.file)?;
    let page_size = request.shape.page_size;
    let checksum = request.shape.checksum.name();
    let manifest = PartMembers(manifest);
    let printed = print!(rt;
        "{{\"file\":{file},\"page_size\":{page_size},\"checksum\":\"{checksum}\",\
         \"first\":{first},\"last\":{last},\"manifest\":{{{manifest}}},\"closed\":["
    );
    or_end(rt, printed)
}

/// Prints what is known of a closed segment.
pub fn print_closed(
    rt: &HostRuntime,
    number: u64,
    closed: &Closed,
    checked: &Checked,
    is_first: bool,
) -> Result<(), Status> {
    let mark = if is_first { "" } else { "," };
    let (what, len) = match &closed.fingerprint {
        Fingerprint::Whole(kept) => ("bytes", kept.len),
        Fingerprint::Paged(kept) => ("content_bytes", kept.seal.len),
    };
    let printed = print!(rt;
        "{mark}{{\"segment\":{number},\"records\":{},\"{what}\":{len},\"state\":\"{}\"",
        closed.records,
        checked.kept.name()
    );
    or_end(rt, printed)?;
    or_end(rt, print_pages(rt, checked))
}

// Prints the state of a segment's list, and which pages are wrong, and ends the object.
fn print_pages(rt: &HostRuntime, checked: &Checked) -> io::Result<()> {
    if let Some(list) = checked.list {
        print!(rt; ",\"list\":\"{}\",\"wrong_pages\":[", list.name())?;
        let mut mark = "";
        for (first, last) in &checked.wrong {
            print!(rt; "{mark}[{first},{last}]")?;
            mark = ",";
        }
        print!(rt; "],\"unknown_pages\":{}", checked.unknown)?;
    }
    print!(rt; "}}")
}

/// Prints what stands behind the closed segments.
pub fn print_ending(
    rt: &HostRuntime,
    last: u64,
    records: u64,
    open: &Part,
    count: u64,
) -> Result<(), Status> {
    let open = PartMembers(open);
    let printed = print!(rt;
        "],\"open\":{{\"segment\":{last},\"records\":{records},{open}}},\"records\":{count},"
    );
    or_end(rt, printed)
}

/// Prints what else the folder has, and ends the object.
pub fn print_names(rt: &HostRuntime, names: &FolderNames, copy: &str) -> Result<(), Status> {
    or_end(rt, print!(rt; "\"manifest_copy\":\"{copy}\",\"others\":["))?;
    let mut mark = "";
    for name in &names.others {
        let name = quoted(rt, name.as_str())?;
        or_end(rt, print!(rt; "{mark}{name}"))?;
        mark = ",";
    }
    let printed = println!(rt;
        "],\"other_count\":{},\"cut_count\":{}}}",
        names.other_count, names.cut_count
    );
    or_end(rt, printed)
}

/// Prints why a log can't be opened.
pub fn print_unopened(rt: &HostRuntime, request: &Request, why: Why<'_>) -> Result<(), Status> {
    let file = quoted(rt, request.file)?;
    let page_size = request.shape.page_size;
    let checksum = request.shape.checksum.name();
    let words = why.to_string(rt.alloc())?;
    let words = quoted(rt, words.as_str())?;
    let printed = println!(rt;
        "{{\"file\":{file},\"page_size\":{page_size},\"checksum\":\"{checksum}\",\
         \"error\":{words}}}"
    );
    or_end(rt, printed)
}

/// Prints what map says of a log, with the marks of its segments from one to before another.
pub fn print_log_map(
    rt: &HostRuntime,
    request: &Request,
    from: u64,
    to: u64,
    marks: &str,
) -> Result<(), Status> {
    let file = quoted(rt, request.file)?;
    let page_size = request.shape.page_size;
    let checksum = request.shape.checksum.name();
    let printed = println!(rt;
        "{{\"file\":{file},\"page_size\":{page_size},\"checksum\":\"{checksum}\",\
         \"segments\":{{\"from\":{from},\"to\":{to}}},\"marks\":\"{marks}\"}}"
    );
    or_end(rt, printed)
}
