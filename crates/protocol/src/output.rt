// Bytes of the output, written so that a failure leaves a prefix of them.
ghost use Rattle.protocol.specs.Output.{PutsBytes};

use crate::stop::Stop;
use std::io::{Error, ErrorKind, Write};

/// Writes these bytes. If the output fails, a prefix of them was written. (`write_all` writes the
/// same bytes, but its contract doesn't say what was written if it fails.)
#[inline(always)]
pub fn put<W: Write>(out: &mut W, bytes: &[u8]) -> Result<(), Stop>
    ensures { PutsBytes bytes.now (W.contents out.old) (W.contents out.new) result }
{
    if bytes.is_empty() {
        return Ok(());
    }
    put_some(out, bytes)
}

// Writes bytes, nearly always by one call: a buffer takes them all. So only this case is inlined.
#[inline(always)]
fn put_some<W: Write>(out: &mut W, bytes: &[u8]) -> Result<(), Stop>
    ensures { PutsBytes bytes.now (W.contents out.old) (W.contents out.new) result }
{
    match out.write(bytes) {
        Ok(count) if count == bytes.len() => Ok(()),
        Ok(0) => Err(Stop::Failed),
        Ok(count) => put_all(out, &bytes[count..]),
        Err(error) => put_again(out, bytes, &error),
    }
}

// Writes these bytes after a write that failed with this error, if that was only interrupted.
#[cold]
#[inline(never)]
fn put_again<W: Write>(out: &mut W, bytes: &[u8], error: &Error) -> Result<(), Stop>
    ensures { PutsBytes bytes.now (W.contents out.old) (W.contents out.new) result }
{
    if error.kind() == ErrorKind::Interrupted {
        put_all(out, bytes)
    } else {
        Err(Stop::Failed)
    }
}

// Writes these bytes in as many calls as the output needs.
#[cold]
#[inline(never)]
fn put_all<W: Write>(out: &mut W, bytes: &[u8]) -> Result<(), Stop>
    ensures { PutsBytes bytes.now (W.contents out.old) (W.contents out.new) result }
{
    let mut count = 0;
    for _ in 0..u64::MAX {
        if count >= bytes.len() {
            return Ok(());
        }
        match out.write(&bytes[count..]) {
            Ok(0) => return Err(Stop::Failed),
            Ok(more) => count += more,
            Err(error) if error.kind() == ErrorKind::Interrupted => {}
            Err(_) => return Err(Stop::Failed),
        }
    }
    Err(Stop::Failed)
}
