// Buffers gathered into runs, each of which goes out by one call.
ghost use Rattle.std.specs.Prelude.{◌≡◌, ◌++◌, ◌∷◌, [], List, false, if◌then◌else◌, OnOk};
ghost use Rattle.std.specs.List.{concat};
ghost use Rattle.disk.specs.declared.action.Action.TheVariants as actions;
ghost use Rattle.disk.specs.declared.action.Event.{Event};
ghost use Rattle.file.specs.Asked.{outcome};
ghost use Rattle.file.specs.Runs.{WritesAll, WritesUpTo};

use disk::IoBuf;
use std::fs::File;
use std::io;
use std::os::unix::fs::FileExt;

/// How many bytes a run has at most, unless one buffer alone has more. A writer's buffer of 64 KiB
/// is 17 physical pages of 4,096 bytes, which fit into one run.
pub const RUN_SIZE: usize = 131_072;

/// What runs of bytes are put into.
pub trait Sink {
    /// A call, done or failed, may take the sink from one state to another.
    ghost goes: { Self → Event → Self → Type 0 };

    /// Writes these bytes from byte `offset` on. After an error any part of the write may be done.
    fn put(&mut self, offset: u64, bytes: &[u8]) -> io::Result<()>
        ensures { let action = actions.Write offset bytes.now false in
            goes self.old (outcome action result) self.new };
}

impl Sink for File {
    // What the file then holds no clause can say.
    ghost goes = { λ _ _ _. Unit {0} };

    fn put(&mut self, offset: u64, bytes: &[u8]) -> io::Result<()> {
        self.write_all_at(bytes, offset)
    }
}

/// Puts the bytes of these buffers, one after the other, into a sink from byte `offset` on. Buffers
/// that fit into the capacity of `gathered` together are copied there, and go out by one call. A
/// buffer at least as long as that capacity goes out as it is. It takes no memory. The first call
/// that fails is the last one.
pub fn put_runs<S: Sink>(
    sink: &mut S,
    gathered: &mut Vec<u8>,
    offset: u64,
    bufs: &[IoBuf],
) -> io::Result<()>
    ensures { WritesAll S.goes offset (concat bufs.now) sink.old sink.new result }
{
    gathered.clear();
    let mut next = offset;
    for buf in bufs {
        next = add(sink, gathered, next, buf.as_ref())?;
    }
    put_gathered(sink, gathered, next)?;
    Ok(())
}

// Gathers more bytes, and answers where the gathered bytes are to go. Where there is no room for
// the new bytes, what was gathered before goes out first. New bytes that fill a run alone go out
// too.
fn add<S: Sink>(sink: &mut S, gathered: &mut Vec<u8>, offset: u64, bytes: &[u8]) -> io::Result<u64>
    ensures { let all = gathered.old.items ++ bytes.now in
        WritesUpTo S.goes offset all gathered.new.items sink.old sink.new result }
{
    if gather(gathered, bytes) {
        return Ok(offset);
    }
    let next = put_gathered(sink, gathered, offset)?;
    if gather(gathered, bytes) {
        return Ok(next);
    }
    put_run(sink, next, bytes)
}

// Copies these bytes after the gathered ones if there is room for them, and answers whether it did.
// A buffer at least as long as the whole room is never copied.
fn gather(gathered: &mut Vec<u8>, bytes: &[u8]) -> bool
    ensures { let old = gathered.old.items in
        gathered.new.items ≡ (if result then old ++ bytes.now else old) }
{
    let room = gathered.capacity();
    if bytes.len() >= room || gathered.len() > room - bytes.len() {
        return false;
    }
    gathered.extend_from_slice(bytes).is_ok()
}

// Puts what was gathered, if anything was, and answers where that ends.
fn put_gathered<S: Sink>(sink: &mut S, gathered: &mut Vec<u8>, offset: u64) -> io::Result<u64>
    ensures puts { WritesUpTo S.goes offset gathered.old.items [] sink.old sink.new result }
    ensures none { OnOk result (gathered.new.items ≡ []) }
{
    if gathered.is_empty() {
        return Ok(offset);
    }
    let next = put_run(sink, offset, gathered)?;
    gathered.clear();
    Ok(next)
}

// Puts a run, and answers where it ends. After the greatest offset comes 0, but no system gets
// there.
fn put_run<S: Sink>(sink: &mut S, offset: u64, run: &[u8]) -> io::Result<u64>
    ensures { WritesUpTo S.goes offset run.now [] sink.old sink.new result }
{
    sink.put(offset, run)?;
    Ok(offset.wrapping_add(run.len() as u64))
}
