// A picture of a log's segments.
use crate::ending::{fail, or_end};
use crate::log_closed::Size;
use crate::log_files::copy_of;
use crate::log_parts::Checked;
use crate::log_report::print_log_map;
use crate::log_told::LogCopy;
use crate::map::draw;
use crate::request::Request;
use crate::status::Status;
use digest::Digest;
use page::Sum;

/// What the marks mean.
const LEGEND: &str = "# whole, ~ whole without its list, ! damaged, ? missing, - not read, + open";

/// Which segments are drawn, and how.
#[derive(Clone, Copy)]
pub struct Drawn {
    /// The number of the first segment.
    pub from: u64,
    /// The number of the segment before which the drawing ends.
    pub to: u64,
    /// Whether each segment has a line, with what the manifest keeps of it, in place of a mark.
    pub long: bool,
}

/// Draws the segments of a log: a mark for each, or a line. Each closed one is read whole.
pub fn map_log<H: Sum, D: Digest>(
    rt: &HostRuntime,
    request: &Request,
    log: &LogCopy<H, D>,
    drawn: Drawn,
) -> Result<Status, Status> {
    let last = log.last_segment();
    let first = drawn.from.max(log.first_segment());
    let end = drawn.to.min(last.saturating_add(1));
    if first >= end {
        let words = "--from and --to leave none of its segments";
        let known = log.first_segment();
        return Err(fail(
            rt,
            request.file,
            format_args!("{words}: it has {known} to {last}"),
        ));
    }
    if drawn.long && !request.json {
        draw_long::<H, D>(rt, request, log, first, end)?;
        return Ok(Status::Done);
    }
    let marks = marks_of::<H, D>(rt, request, log, first, end)?;
    if request.json {
        print_log_map(rt, request, first, end, marks.as_str())?;
    } else {
        or_end(rt, draw(rt, LEGEND, first, marks.as_str()))?;
    }
    Ok(Status::Done)
}

fn marks_of<H: Sum, D: Digest>(
    rt: &HostRuntime,
    request: &Request,
    log: &LogCopy<H, D>,
    first: u64,
    end: u64,
) -> Result<String, Status> {
    let mut folder = copy_of(rt, request.file)?;
    let mut marks = String::new(rt.alloc());
    for number in first..end {
        let mark = match log.closed(number) {
            Some(closed) => { Checked::of::<D>(rt, request, &mut folder, number, &closed)?.mark() }
            None => '+',
        };
        marks.push(mark)?;
    }
    Ok(marks)
}

// Draws a line for each segment.
fn draw_long<H: Sum, D: Digest>(
    rt: &HostRuntime,
    request: &Request,
    log: &LogCopy<H, D>,
    first: u64,
    end: u64,
) -> Result<(), Status> {
    let mut folder = copy_of(rt, request.file)?;
    or_end(rt, println!(rt; "{LEGEND}"))?;
    for number in first..end {
        let told = match log.closed(number) {
            Some(closed) => {
                let mark = Checked::of::<D>(rt, request, &mut folder, number, &closed)?.mark();
                println!(rt;
                    "{number:>10} {mark} {} records, {}",
                    closed.records,
                    Size(&closed)
                )
            }
            None => println!(rt; "{number:>10} + {} records", log.records()),
        };
        or_end(rt, told)?;
    }
    Ok(())
}
