// The steps of items, and what they answer.
use crate::calls::say_calls;
use crate::forms::Argument::{Bytes, Flags, Number, Numbers};
use crate::forms::{Arguments, Form, read_step};
use crate::item_stage::{ItemStage, Told};
use crate::line::Row;
use crate::step::is_between;
use crate::subject::{Subject, Tearable};
use crate::words::{buffer_size, say_bytes, say_error, say_started, unreadable};
use disk::Error;
use page::Sum;
use scripts::Hex;
use std::alloc::Global;
use std::io;
use std::io::Write;
use std::num::NonZeroUsize;

// What a step asks of items.
#[derive(Clone, Copy)]
enum Verb {
    Recover,
    Crash,
    Push,
    TryPush,
    Len,
    Get,
    GetMany,
    Sync,
    StartSync,
    Wait,
    Snapshot,
    TrySnapshot,
    SnapLen,
    SnapGet,
    SnapGetMany,
    Replay,
    ReplayLen,
    ReplaySize,
    Next,
    Seek,
    Fail,
    Dump,
    HoldsItems,
}

const STEPS: [Form<Verb>; 25] = [
    (b"recover", &[], Verb::Recover),
    (b"recover", &[Number], Verb::Recover),
    (b"crash", &[Flags], Verb::Crash),
    (b"push", &[Bytes], Verb::Push),
    (b"try-push", &[Bytes], Verb::TryPush),
    (b"len", &[], Verb::Len),
    (b"get", &[Number], Verb::Get),
    (b"get-many", &[Numbers], Verb::GetMany),
    (b"sync", &[], Verb::Sync),
    (b"start-sync", &[], Verb::StartSync),
    (b"wait", &[], Verb::Wait),
    (b"snapshot", &[], Verb::Snapshot),
    (b"try-snapshot", &[], Verb::TrySnapshot),
    (b"snap-len", &[], Verb::SnapLen),
    (b"snap-get", &[Number], Verb::SnapGet),
    (b"snap-get-many", &[Numbers], Verb::SnapGetMany),
    (b"replay", &[Number], Verb::Replay),
    (b"replay-len", &[], Verb::ReplayLen),
    (b"replay-size", &[], Verb::ReplaySize),
    (b"next", &[], Verb::Next),
    (b"seek", &[Number], Verb::Seek),
    (b"fail", &[Number], Verb::Fail),
    (b"dump", &[], Verb::Dump),
    (b"holds-items", &[Bytes], Verb::HoldsItems),
    (b"holds-items", &[Bytes, Bytes], Verb::HoldsItems),
];

fn say_told(answer: Result<Told, Error>, said: &mut Vec<u8>) -> io::Result<()> {
    match answer {
        Ok(Told::Item(number)) => write!(said, "item {number}"),
        Ok(Told::Nothing) => write!(said, "none"),
        Ok(Told::BadItem) => write!(said, "bad-item"),
        Ok(Told::BadNumbers) => write!(said, "bad-numbers"),
        Ok(Told::Closed) => write!(said, "closed"),
        Ok(Told::NoSuch) => write!(said, "no-such"),
        Ok(Told::Recovered(count)) => write!(said, "recovered {count}"),
        Ok(Told::Length(count)) => write!(said, "len {count}"),
        Ok(Told::Size(size)) => write!(said, "size {size}"),
        Ok(Told::Bytes(item)) => say_bytes("bytes", &item, said),
        Ok(Told::Shared(item)) => say_bytes("bytes", item.as_ref(), said),
        Ok(Told::Served(served, items)) => write!(said, "served {served} {}", Hex(&items)),
        Ok(Told::Started(started)) => say_started(Ok(started), said),
        Ok(Told::Done) => write!(said, "ok"),
        Err(error) => say_error(error, said),
    }
}

// All items of the blob as it is, joined, each read by its number.
fn recovered<H: Sum>(alloc: Global, stage: &mut ItemStage<H>) -> Result<Vec<u8>, Error> {
    let mut all = Vec::new(alloc);
    let Told::Recovered(count) = stage.recover(NonZeroUsize::MIN)? else {
        return Err(Error::BlobInsufficientLength);
    };
    for number in 0..count {
        match stage.get(number)? {
            Told::Bytes(item) => all.extend_from_slice(&item)?,
            _ => return Err(Error::BlobInsufficientLength),
        }
    }
    Ok(all)
}

// Recovers the blob as it is. Its items, joined, must begin with the floor (the durable prefix),
// and be a beginning of the whole, if that is given.
fn holds<H: Sum>(
    alloc: Global,
    stage: &mut ItemStage<H>,
    floor: &[u8],
    whole: Option<&[u8]>,
    said: &mut Vec<u8>,
) -> io::Result<()> {
    match recovered(alloc, stage) {
        Ok(all) if is_between(&all, floor, whole) => write!(said, "holds"),
        Ok(all) => write!(said, "fault has {}", Hex(&all)),
        Err(error) => say_error(error, said),
    }
}

// Plays a step that reads.
fn ask<H: Sum>(
    stage: &mut ItemStage<H>,
    verb: Verb,
    words: &Arguments,
    said: &mut Vec<u8>,
) -> io::Result<()> {
    let number = words.number(0);
    let answer = match verb {
        Verb::Get => stage.get(number),
        Verb::GetMany => stage.get_many(&words.numbers),
        Verb::SnapLen => Ok(stage.snapshot_len()),
        Verb::SnapGet => stage.snapshot_get(number),
        Verb::SnapGetMany => stage.snapshot_get_many(&words.numbers),
        Verb::ReplayLen => Ok(stage.replay_len()),
        Verb::ReplaySize => Ok(stage.replay_item_size()),
        Verb::Next => stage.next(),
        Verb::Seek => stage.seek(number),
        _ => Ok(stage.len()),
    };
    say_told(answer, said)
}

fn go<H: Sum>(
    alloc: Global,
    stage: &mut ItemStage<H>,
    verb: Verb,
    words: &Arguments,
    said: &mut Vec<u8>,
) -> io::Result<()> {
    let (number, bytes) = (words.number(0), words.bytes());
    let answer = match verb {
        Verb::Recover => stage.recover(buffer_size(number)),
        Verb::Crash => stage.crash(&words.flags),
        Verb::Push => stage.push(bytes),
        Verb::TryPush => stage.try_push(bytes),
        Verb::Sync => stage.sync(),
        Verb::StartSync => stage.start_sync(),
        Verb::Wait => stage.wait(),
        Verb::Snapshot => stage.snapshot(),
        Verb::TrySnapshot => stage.try_snapshot(),
        Verb::Replay => stage.replay(buffer_size(number)),
        Verb::Fail => {
            stage.fail_at(number);
            Ok(Told::Done)
        }
        Verb::Dump => return say_bytes("blob", stage.bytes(), said),
        Verb::HoldsItems => return holds(alloc, stage, bytes, words.piece(1), said),
        _ => return ask(stage, verb, words, said),
    };
    say_told(answer, said)
}

impl<H: Sum> Subject for ItemStage<H> {
    fn play(&mut self, alloc: Global, row: &Row, said: &mut Vec<u8>) -> io::Result<()> {
        match read_step(alloc, &STEPS, &row.step)? {
            Some((verb, words)) => go(alloc, self, verb, &words, said),
            None => Err(unreadable()),
        }
    }

    fn calls(&self) -> usize {
        self.device_calls().len()
    }

    fn say_calls(&self, first: usize, said: &mut Vec<u8>) -> io::Result<()> {
        say_calls(self.device_calls(), first, said)
    }
}
