// Where a record of a log's segment stands.
ghost use Rattle.segments.specs.Log.{IsLog};

use crate::ending::{fail, or_end, tell};
use crate::log_told::LogCopy;
use crate::request::Request;
use crate::status::Status;
use digest::Digest;
use page::Sum;
use segments::Error;

/// Prints where record `n` of a segment stands, the first being record 0.
pub fn nth_log<H: Sum, D: Digest>(
    rt: &HostRuntime,
    request: &Request,
    log: &mut LogCopy<H, D>,
    segment: u64,
    n: u64,
) -> Result<Status, Status>
    requires log { IsLog H.sum_of H.sum_of log.old }
{
    let file = request.file;
    match log.nth(segment, n) {
        Ok(Some(place)) => {
            let offset = place.offset;
            or_end(
                rt,
                println!(rt; "segment {segment}: record {n} stands at offset {offset}"),
            )?;
            Ok(Status::Done)
        }
        Ok(None) => Err(fail(
            rt,
            file,
            format_args!("segment {segment} has no record {n}"),
        )),
        Err(error) => Err(refuse(rt, file, &error)),
    }
}

// Says why a record isn't found, and answers the status.
fn refuse(rt: &HostRuntime, file: &str, error: &Error) -> Status {
    if let Error::Damaged(_) = error {
        tell(rt, format_args!("{file}: {error}"));
        return Status::NotWhole;
    }
    fail(rt, file, error)
}
