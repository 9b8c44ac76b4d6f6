// Bytes of the input, read as they come.
ghost use Rattle.std.specs.Prelude.{◌≡◌, ◌<◌, ◌≤◌, ◌+◌, ◌*◌, max, IfOk, IfErr, OnOk, length, take};
ghost use Rattle.std.specs.Prelude.{vec_capacity};
ghost use Rattle.protocol.specs.Input.{AreBytes, Came, Gains, IsBroken};

use crate::stop::ReadError;
use std::alloc::{AllocError, Global};
use std::io::{BufRead, ErrorKind, Read};

/// Reads bytes to the front of the room until the room is full or the input ends, and answers how
/// many. It allocates nothing.
pub fn read_front<R: Read>(input: &mut R, room: &mut [u8]) -> Result<usize, ReadError>
    ensures came { let old = R.remaining input.old in let new = R.remaining input.new in
        IfOk result (λ count. Came (length room.old) old new (take count room.new)) }
    ensures count { IfOk result (λ count. count ≤ length room.new) }
    ensures size { length room.new ≡ length room.old }
    ensures broken { IfErr result IsBroken }
{
    let mut count = 0;
    for _ in 0..u64::MAX {
        if count >= room.len() {
            return Ok(count);
        }
        match input.read(&mut room[count..]) {
            Ok(0) => return Ok(count),
            Ok(more) => count += more,
            Err(error) if error.kind() == ErrorKind::Interrupted => {}
            Err(_) => return Err(ReadError::Failed),
        }
    }
    Err(ReadError::Failed)
}

/// Reads `count` bytes, or all that are left if there are fewer. It allocates room for at most
/// twice the bytes that came: the client chose `count`, and may send far fewer bytes.
pub fn read_some<R: BufRead>(
    alloc: Global,
    input: &mut R,
    count: usize,
) -> Result<Vec<u8>, ReadError>
    ensures came { let old = R.remaining input.old in let new = R.remaining input.new in
        IfOk result (λ bytes. Came count old new bytes.items) }
    ensures are_bytes { IfOk result (λ bytes. AreBytes bytes.items) }
    ensures broken { IfErr result IsBroken }
{
    let mut bytes = Vec::new(alloc);
    for _ in 0..u64::MAX {
        if bytes.len() >= count {
            return Ok(bytes);
        }
        let most = count - bytes.len();
        if !read_more(input, most, &mut bytes)? {
            return Ok(bytes);
        }
    }
    Err(ReadError::Failed)
}

// Appends to `bytes` what has come, at most `most` bytes, and waits only if nothing has come.
// Answers false at the end of the input.
fn read_more<R: BufRead>(input: &mut R, most: usize, bytes: &mut Vec<u8>) -> Result<bool, ReadError>
    requires some { 0 < most }
    ensures gains { let old = R.remaining input.old in let new = R.remaining input.new in
        IfOk result (Gains most old new bytes.old.items bytes.new.items) }
    ensures bytes { OnOk result (AreBytes bytes.new.items) }
    ensures broken { IfErr result IsBroken }
{
    let come = match input.fill_buf() {
        Ok(come) => come,
        Err(error) if error.kind() == ErrorKind::Interrupted => return Ok(true),
        Err(_) => return Err(ReadError::Failed),
    };
    if come.is_empty() {
        return read_byte(input, bytes);
    }
    let count = most.min(come.len());
    make_room(bytes, count, most)?;
    bytes.extend_from_slice(&come[..count])?;
    input.consume(count);
    Ok(true)
}

// Reads one byte more. An empty buffer shows the end of the input only where the input's bytes are
// known, and so a read has to find it. Answers false at the end.
fn read_byte<R: Read>(input: &mut R, bytes: &mut Vec<u8>) -> Result<bool, ReadError>
    ensures gains { let old = R.remaining input.old in let new = R.remaining input.new in
        IfOk result (Gains 1 old new bytes.old.items bytes.new.items) }
    ensures bytes { OnOk result (AreBytes bytes.new.items) }
    ensures broken { IfErr result IsBroken }
{
    let mut byte = [0; 1];
    match input.read(&mut byte) {
        Ok(0) => Ok(false),
        Ok(count) => {
            bytes.extend_from_slice(&byte[..count])?;
            Ok(true)
        }
        Err(error) if error.kind() == ErrorKind::Interrupted => Ok(true),
        Err(_) => Err(ReadError::Failed),
    }
}

// Makes room for the next `count` bytes, of at most `most` that are still to come. If there is too
// little, it makes room for twice all that came, so that the bytes are seldom moved.
fn make_room(bytes: &mut Vec<u8>, count: usize, most: usize) -> Result<(), AllocError>
    requires within { count ≤ most }
    ensures items { bytes.new.items ≡ bytes.old.items }
    ensures fits { OnOk result (length bytes.old.items + count ≤ vec_capacity bytes.new) }
    ensures twice { vec_capacity bytes.new
        ≤ max (vec_capacity bytes.old) (2 * (length bytes.old.items + count)) }
{
    if bytes.capacity() - bytes.len() >= count {
        return Ok(());
    }
    let twice = count.saturating_mul(2).saturating_add(bytes.len());
    bytes.reserve_exact(twice.min(most))
}
