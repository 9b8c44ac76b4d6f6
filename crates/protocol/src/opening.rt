// How a session begins: what a client begins with, and what it is answered.
ghost use Rattle.std.specs.Prelude.{◌≡◌};
ghost use Rattle.std.specs.List.{flat_map};
ghost use Rattle.protocol.specs.Answer.{PutsAnswer};
ghost use Rattle.protocol.specs.Opening.{highest_known, hello_bytes, ReadsOpening, ReadsVersions};
ghost use Rattle.protocol.specs.Opening.{TellsOpening, text_bytes};
ghost use Rattle.protocol.specs.Output.{PutsBytes};
ghost use Rattle.protocol.specs.Request.{number_bytes};

use crate::answer::{write_frame, write_head};
use crate::input::read_front;
use crate::output::put;
use crate::request::MOST_BYTES;
use crate::server::VERSION;
use crate::setting::Setting;
use crate::stop::{Flaw, ReadError, Stop};
use crate::version::Version;
use std::io::{Read, Write};

/// What an offer of versions begins with.
const OFFER: u8 = 2;

/// The status of an offer of which no version is known.
const NO_VERSION: u8 = 24;

// The most ranges of a request.
const MOST_RANGES: u64 = MOST_BYTES / 16;

// The most records of a request: an answer holds an offset of eight bytes for each, and at most
// nine bytes of what starting a sync answers.
const MOST_RECORDS: u64 = (MOST_BYTES - 9) / 8;

// How many bytes the hello has after its status, apart from those of its two texts.
const FIXED: usize = 82;

/// What a client begins with.
#[derive(Clone, Copy, Debug, PartialEq, Eq)]
pub enum Opening {
    /// The input has no byte.
    End,
    /// Version 1, without an offer.
    Single,
    /// An offer of versions. This is the highest of them that is known, if there is one.
    Offer(Option<Version>),
    /// The input begins with this byte, which is neither version 1 nor an offer.
    Other(u8),
}

/// Reads what a client begins with.
pub fn read_opening<R: Read>(input: &mut R) -> Result<Opening, ReadError>
    ensures { ReadsOpening (R.remaining input.old) (R.remaining input.new) result }
{
    let mut first = [0; 1];
    let count = read_front(input, &mut first)?;
    match &first[..count] {
        [] => Ok(Opening::End),
        [VERSION] => Ok(Opening::Single),
        [OFFER] => Ok(Opening::Offer(read_versions(input)?)),
        [other, ..] => Ok(Opening::Other(*other)),
    }
}

// Reads the versions of an offer, and answers the highest that is known.
fn read_versions<R: Read>(input: &mut R) -> Result<Option<Version>, ReadError>
    ensures { ReadsVersions (R.remaining input.old) (R.remaining input.new) result }
{
    let mut count = [0; 1];
    if read_front(input, &mut count)? == 0 {
        return Err(ReadError::Malformed(Flaw::Cut));
    }
    let len = usize::from(count[0]);
    let mut room = [0; 255];
    let versions = &mut room[..len];
    if read_front(input, versions)? < len {
        return Err(ReadError::Malformed(Flaw::Cut));
    }
    Ok(highest_known(versions))
}

// The highest of these versions that is known, if there is one.
fn highest_known(versions: &[u8]) -> Option<Version>
    ensures { result ≡ highest_known versions.now }
{
    if versions.contains(&2) {
        Some(Version::Two)
    } else if versions.contains(&1) {
        Some(Version::One)
    } else {
        None
    }
}

/// Answers what a client begins with, if that is an offer: with the hello of version 2, with
/// version 1, or with the known versions if the offer has none of them. Returns the version to go
/// on with, or `None` if the input has no byte.
pub fn tell_opening<W: Write>(
    opening: Opening,
    setting: &Setting,
    checksum: &str,
    set_aside: &str,
    size: u64,
    cut: u64,
    out: &mut W,
) -> Result<Option<Version>, Stop>
    ensures { let hello = hello_bytes setting.now checksum.now set_aside.now size cut in
        TellsOpening opening hello (W.contents out.old) (W.contents out.new) result }
{
    match opening {
        Opening::End => Ok(None),
        Opening::Single => Ok(Some(Version::One)),
        Opening::Other(byte) => Err(Stop::Version(byte)),
        Opening::Offer(None) => {
            write_frame(out, NO_VERSION, &[1, 2], &[])?;
            Err(Stop::NoVersion)
        }
        Opening::Offer(Some(Version::One)) => {
            write_frame(out, 0, &[1], &[])?;
            Ok(Some(Version::One))
        }
        Opening::Offer(Some(Version::Two)) => {
            write_hello(out, setting, checksum, set_aside, size, cut)?;
            Ok(Some(Version::Two))
        }
    }
}

// Writes the hello of version 2.
fn write_hello<W: Write>(
    out: &mut W,
    setting: &Setting,
    checksum: &str,
    set_aside: &str,
    size: u64,
    cut: u64,
) -> Result<(), Stop>
    ensures { let hello = hello_bytes setting.now checksum.now set_aside.now size cut in
        PutsAnswer hello (W.contents out.old) (W.contents out.new) result }
{
    let page = u64::from(setting.page_size.get());
    let numbers = [
        size,
        page,
        MOST_BYTES,
        MOST_BYTES,
        MOST_RANGES,
        MOST_RECORDS,
        cut,
        setting.allowed,
    ];
    let texts = checksum
        .len()
        .checked_add(set_aside.len())
        .ok_or(Stop::LongAnswer)?;
    let len = texts.checked_add(FIXED).ok_or(Stop::LongAnswer)?;
    write_head(out, 0, len)?;
    put(out, &[2, u8::from(setting.read_only)])?;
    write_all_numbers(out, &numbers)?;
    write_text(out, checksum)?;
    write_text(out, set_aside)
}

// Writes these numbers.
fn write_all_numbers<W: Write>(out: &mut W, numbers: &[u64]) -> Result<(), Stop>
    ensures { let bytes = flat_map number_bytes numbers.now in
        PutsBytes bytes (W.contents out.old) (W.contents out.new) result }
{
    for number in numbers {
        put(out, &number.to_le_bytes())?;
    }
    Ok(())
}

// Writes a text: its length in bytes, and then its bytes.
#[tactic(auto, unfolding(crate::specs::Request::number_bytes))]
fn write_text<W: Write>(out: &mut W, text: &str) -> Result<(), Stop>
    ensures { PutsBytes (text_bytes text.now) (W.contents out.old) (W.contents out.new) result }
{
    put(out, &(text.len() as u64).to_le_bytes())?;
    put(out, text.as_bytes())
}
