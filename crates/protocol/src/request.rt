// Requests: what a client asks for, and how it is read.
ghost use Rattle.std.specs.Prelude.{◌≡◌, ◌+◌, ◌*◌, ◌≤◌, ◌^◌, ◌<◌, length, take, drop, OkIff, IfOk};
ghost use Rattle.std.specs.Prelude.{◌++◌, ◌∷◌, [], Some, Ok, IfErr};
ghost use Rattle.protocol.specs.Input.{AreBytes};
ghost use Rattle.protocol.specs.Request.{Builds, HasFields, field_count, length_bytes};
ghost use Rattle.protocol.specs.Request.{FitsAnswer, number_bytes, ReadsAfter, ReadsFields};
ghost use Rattle.protocol.specs.Request.{ReadsRequest};
ghost use Rattle.protocol.specs.Request.{takes_bytes};
ghost use Rattle.std.specs.Prelude.{true};

use crate::input::{read_front, read_some};
use crate::stop::{Flaw, ReadError};
use crate::version::Version;
use session::Step;
use std::alloc::Global;
use std::io::BufRead;
use std::num::NonZeroUsize;

/// The most bytes that one answer may hold after its status.
pub const MOST_BYTES: u64 = 0xFFFF_FFFE;

/// The most bytes that stand after the kind of a request with numbers: those of three numbers.
const MOST_FIELDS: usize = 24;

/// What follows an append of records.
#[derive(Clone, Copy, Debug, PartialEq, Eq)]
pub enum Then {
    /// Nothing.
    Nothing,
    /// A sync.
    Sync,
    /// The start of a sync.
    Start,
}

/// What a client asks for.
#[derive(Drop)]
pub enum Request {
    /// A step of the session.
    Step(Step),
    /// To append, together, the records that these bytes encode.
    Records(Vec<u8>, Then),
    /// To read the ranges that these bytes encode.
    Ranges(Vec<u8>),
    /// A sync, and then the size.
    SyncSize,
    /// How many logical bytes a recovery would keep now.
    Look,
    /// To flush all answers.
    Flush,
    /// How many snapshots and replays are open.
    CountOpen,
    /// To end the session.
    Close,
}

/// Reads a request; none at the end of the input.
pub fn read_request<R: BufRead>(
    alloc: Global,
    version: Version,
    input: &mut R,
) -> Result<Option<Request>, ReadError>
    ensures request { ReadsRequest version (R.remaining input.old) (R.remaining input.new) result }
{
    let mut head = [0; 4];
    let count = read_front(input, &mut head)?;
    if count == 0 {
        return Ok(None);
    }
    if count < 4 {
        return Err(ReadError::Malformed(Flaw::Cut));
    }
    let length = length_of(&head);
    let request = read_frame(alloc, version, input, length)?;
    Ok(Some(request))
}

/// The length that four bytes encode.
pub fn length_of(bytes: &[u8; 4]) -> u32
    ensures small { result < 2 ^ 32 }
    ensures told { length_bytes result ≡ bytes.now }
{
    u32::from_le_bytes(*bytes)
}

// Reads the rest of a request whose frame has so many bytes after their number.
fn read_frame<R: BufRead>(
    alloc: Global,
    version: Version,
    input: &mut R,
    length: u32,
) -> Result<Request, ReadError>
    requires { length < 2 ^ 32 }
    ensures reads { let old = R.remaining input.old in let new = R.remaining input.new in
        ReadsAfter version (length_bytes length) old new result }
{
    if length == 0 {
        return Err(ReadError::Malformed(Flaw::Empty));
    }
    let mut kind = [0; 1];
    if read_front(input, &mut kind)? == 0 {
        return Err(ReadError::Malformed(Flaw::Cut));
    }
    read_body(alloc, version, input, kind[0], length as usize - 1)
}

// Reads the `len` bytes after the kind of a request. A length that is wrong for the kind is
// reported before these bytes are read.
fn read_body<R: BufRead>(
    alloc: Global,
    version: Version,
    input: &mut R,
    kind: u8,
    len: usize,
) -> Result<Request, ReadError>
    requires { len + 1 < 2 ^ 32 }
    ensures reads { let old = R.remaining input.old in let new = R.remaining input.new in
        ReadsAfter version (length_bytes (len + 1) ++ kind ∷ []) old new result }
{
    if kind > version.last_kind() {
        return Err(ReadError::Malformed(Flaw::Kind(kind)));
    }
    if has_bytes(kind) {
        let bytes = read_bytes(alloc, input, len)?;
        return Ok(build_of_bytes(kind, bytes));
    }
    let Some(count) = fields_of_kind(kind) else {
        return Err(ReadError::Malformed(Flaw::Kind(kind)));
    };
    if len != 8 * count {
        return Err(ReadError::Malformed(Flaw::Length));
    }
    let mut room = [0; MOST_FIELDS];
    let fields = &mut room[..len];
    if read_front(input, fields)? < len {
        return Err(ReadError::Malformed(Flaw::Cut));
    }
    match build(kind, fields) {
        Ok(request) => Ok(request),
        Err(flaw) => Err(ReadError::Malformed(flaw)),
    }
}

// Reads the bytes of a request that has bytes: exactly `len`.
fn read_bytes<R: BufRead>(alloc: Global, input: &mut R, len: usize) -> Result<Vec<u8>, ReadError>
    ensures reads { ReadsFields len (R.remaining input.old) (R.remaining input.new) result }
    ensures bytes { IfOk result (λ bytes. AreBytes bytes.items) }
{
    let bytes = read_some(alloc, input, len)?;
    if bytes.len() < len {
        return Err(ReadError::Malformed(Flaw::Cut));
    }
    Ok(bytes)
}

// Whether a request of this kind has bytes, as many as its frame holds.
fn has_bytes(kind: u8) -> bool
    ensures { result ≡ takes_bytes kind }
{
    matches!(kind, 1 | 17 | 18 | 19 | 20)
}

// The request of a kind with these bytes.
fn build_of_bytes(kind: u8, bytes: Vec<u8>) -> Request
    requires kind { takes_bytes kind ≡ true }
    requires bytes { AreBytes bytes.items × FitsAnswer (length bytes.items) }
    ensures { Builds kind bytes.items (Ok result) }
{
    match kind {
        1 => Request::Step(Step::Append(bytes)),
        17 => Request::Records(bytes, Then::Nothing),
        18 => Request::Records(bytes, Then::Sync),
        19 => Request::Records(bytes, Then::Start),
        _ => Request::Ranges(bytes),
    }
}

// How many numbers a request of this kind has: `None` for a kind with bytes, and if there is no
// such kind.
fn fields_of_kind(kind: u8) -> Option<usize>
    ensures { result ≡ field_count kind }
{
    match kind {
        2 | 3 | 5 | 8 | 10 | 16 | 21 | 22 | 25 | 26 => Some(0),
        4 | 9 | 12 | 23 | 24 => Some(1),
        6 | 7 | 13 | 14 | 15 => Some(2),
        11 => Some(3),
        _ => None,
    }
}

// The request of this kind with these fields.
fn build(kind: u8, fields: &[u8]) -> Result<Request, Flaw>
    requires { HasFields kind fields.now }
    ensures { Builds kind fields.now result }
{
    if fields.is_empty() {
        return Ok(build_bare(kind));
    }
    let first = number_at(fields, 0);
    if fields.len() == 8 {
        return build_one(kind, first);
    }
    let second = number_at(fields, 1);
    if fields.len() == 16 {
        return build_two(kind, first, second);
    }
    build_snap(first, second, number_at(fields, 2))
}

// The number at this index among numbers.
fn number_at(fields: &[u8], index: usize) -> u64
    requires { 8 * index + 8 ≤ length fields.now }
    ensures small { result < 2 ^ 64 }
    ensures number { number_bytes result ≡ take 8 (drop (8 * index) fields.now) }
{
    match fields[8 * index..].first_chunk::<8>() {
        Some(bytes) => u64::from_le_bytes(*bytes),
        None => unreachable!(),
    }
}

// The request of a kind without numbers.
fn build_bare(kind: u8) -> Request
    requires { field_count kind ≡ Some 0 }
    ensures { Builds kind [] (Ok result) }
{
    match kind {
        2 => Request::Step(Step::Sync),
        3 => Request::Step(Step::StartSync),
        5 => Request::Step(Step::Size),
        8 => Request::Step(Step::Begin),
        10 => Request::Step(Step::Snapshot),
        16 => Request::Close,
        21 => Request::SyncSize,
        22 => Request::Look,
        25 => Request::Flush,
        _ => Request::CountOpen,
    }
}

// The request of a kind with one number.
fn build_one(kind: u8, number: u64) -> Result<Request, Flaw>
    requires { field_count kind ≡ Some 1 }
    ensures { Builds kind (number_bytes number) result }
{
    let step = match kind {
        4 => Step::WaitSync(number),
        9 => Step::Truncate(number),
        23 => Step::DropSnapshot(number as usize),
        24 => Step::DropReplay(number as usize),
        _ => Step::Replay(NonZeroUsize::new(number as usize).ok_or(Flaw::NoBuffer)?),
    };
    Ok(Request::Step(step))
}

// The request of a kind with two numbers.
fn build_two(kind: u8, first: u64, second: u64) -> Result<Request, Flaw>
    requires { field_count kind ≡ Some 2 }
    ensures { Builds kind (number_bytes first ++ number_bytes second) result }
{
    let step = match kind {
        6 => Step::Read(first, len_of(second)?),
        7 => Step::ReadUpTo(first, len_of(second)?),
        13 => Step::Ensure(first as usize, second as usize),
        14 => Step::Take(first as usize, len_of(second)?),
        _ => Step::Seek(first as usize, second),
    };
    Ok(Request::Step(step))
}

// The request with three numbers: only one kind has three, a read of a snapshot.
fn build_snap(index: u64, offset: u64, len: u64) -> Result<Request, Flaw>
    ensures { Builds 11 (number_bytes index ++ number_bytes offset ++ number_bytes len) result }
{
    let len = len_of(len)?;
    Ok(Request::Step(Step::Snap(index as usize, offset, len)))
}

// The number of bytes asked for, if an answer can hold so many.
fn len_of(number: u64) -> Result<usize, Flaw>
    ensures fits { OkIff result (FitsAnswer number) number }
    ensures flaw { IfErr result (λ flaw. flaw ≡ Flaw.LongRead) }
{
    if number > MOST_BYTES {
        return Err(Flaw::LongRead);
    }
    Ok(number as usize)
}
