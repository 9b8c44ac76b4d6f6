// The steps of a writer, a snapshot and a replay, and what they answer.
ghost use Rattle.std.specs.Prelude.{◌≡◌, ◌*◌, length, IfOk};
ghost use Rattle.std.specs.Int.NonZero.{non_zero_usize_get};
ghost use Rattle.page.specs.Geometry.{AreInOrder};
ghost use Rattle.paged_read.specs.Batch.{ranges_of};

use crate::calls::say_calls;
use crate::forms::Argument::{Bytes, Number, Numbers, Ranges, Word};
use crate::forms::{Arguments, Form, named, read_step};
use crate::in_order::len_together;
use crate::line::Row;
use crate::subject::Subject;
use crate::words::{buffer_size, say, say_done, say_error, unreadable};
use crate::writing::{By, Writing};
use disk::{Error, ReadOptions};
use page::Sum;
use session::Reply;
use std::alloc::{AllocError, Global};
use std::io;
use std::num::NonZeroUsize;

// What a step asks for.
#[derive(Clone, Copy)]
enum Verb {
    Append,
    Owned,
    TryValue,
    Sync,
    Snapshot,
    TrySnapshot,
    CopySnapshot,
    By,
    With,
    ReadInto,
    ReadAt,
    UpTo,
    Cached,
    Ranges,
    Many,
    CachedRanges,
    CachedMany,
    Scan,
    Replay,
    Ensure,
    Take,
    Exhausted,
    Seek,
    Range,
    Tail,
    Recover,
    Cut,
    Fail,
    Options,
}

const STEPS: [Form<Verb>; 29] = [
    (b"append", &[Bytes], Verb::Append),
    (b"owned", &[Bytes], Verb::Owned),
    (b"try-value", &[Bytes], Verb::TryValue),
    (b"sync", &[], Verb::Sync),
    (b"snapshot", &[], Verb::Snapshot),
    (b"try-snapshot", &[], Verb::TrySnapshot),
    (b"copy-snapshot", &[], Verb::CopySnapshot),
    (b"by", &[Word], Verb::By),
    (b"with", &[Word], Verb::With),
    (b"read-into", &[Number, Number], Verb::ReadInto),
    (b"read-at", &[Number, Number], Verb::ReadAt),
    (b"up-to", &[Number, Number], Verb::UpTo),
    (b"cached", &[Number, Number], Verb::Cached),
    (b"ranges", &[Ranges], Verb::Ranges),
    (b"many", &[Number, Numbers], Verb::Many),
    (b"cached-ranges", &[Ranges], Verb::CachedRanges),
    (b"cached-many", &[Number, Numbers], Verb::CachedMany),
    (b"scan", &[Number, Number], Verb::Scan),
    (b"replay", &[Number], Verb::Replay),
    (b"ensure", &[Number], Verb::Ensure),
    (b"take", &[Number], Verb::Take),
    (b"exhausted", &[], Verb::Exhausted),
    (b"seek", &[Number], Verb::Seek),
    (b"range", &[Number, Number], Verb::Range),
    (b"tail", &[Number], Verb::Tail),
    (b"recover", &[Number], Verb::Recover),
    (b"cut", &[Number], Verb::Cut),
    (b"fail", &[Number], Verb::Fail),
    (b"options", &[], Verb::Options),
];

const READERS: [(&[u8], By); 2] = [(b"writer", By::Writer), (b"snapshot", By::Snapshot)];

// Whether the device need not keep what is read.
const OPTIONS: [(&[u8], bool); 2] = [(b"default", false), (b"dont-cache", true)];

fn say_reply(answer: Result<Reply, Error>, said: &mut Vec<u8>) -> io::Result<()> {
    match answer {
        Ok(reply) => say(&reply, said),
        Err(error) => say_error(error, said),
    }
}

// The ranges of one length at these offsets.
fn ranges_at(
    alloc: Global,
    offsets: &[u64],
    each: NonZeroUsize,
) -> Result<Vec<(u64, usize)>, AllocError>
    ensures { IfOk result (λ ranges.
        ranges.items ≡ ranges_of (non_zero_usize_get each) offsets.now) }
{
    let len = each.get();
    offsets.iter().map(|offset| (*offset, len)).collect(alloc)
}

// How many bytes ranges of one length have together, if one call can take them.
fn len_of_many(alloc: Global, offsets: &[u64], each: NonZeroUsize) -> io::Result<usize>
    ensures in_order { IfOk result (λ len.
        AreInOrder (ranges_of (non_zero_usize_get each) offsets.now)) }
    ensures len { IfOk result (λ len. len ≡ length offsets.now * non_zero_usize_get each) }
{
    let ranges = ranges_at(alloc, offsets, each)?;
    match (len_together(&ranges), offsets.len().checked_mul(each.get())) {
        (Some(_), Some(len)) => Ok(len),
        _ => Err(unreadable()),
    }
}

fn read_many<H: Sum>(
    alloc: Global,
    writing: &mut Writing<H>,
    numbers: &[u64],
    said: &mut Vec<u8>,
) -> io::Result<()> {
    let [each, offsets @ ..] = numbers else {
        return Err(unreadable());
    };
    let each = buffer_size(*each);
    let len = len_of_many(alloc, offsets, each)?;
    say_reply(writing.read_many(offsets, each, len), said)
}

fn try_many<H: Sum>(
    alloc: Global,
    writing: &Writing<H>,
    numbers: &[u64],
    said: &mut Vec<u8>,
) -> io::Result<()> {
    let [each, offsets @ ..] = numbers else {
        return Err(unreadable());
    };
    let each = buffer_size(*each);
    let len = len_of_many(alloc, offsets, each)?;
    say_reply(writing.try_many(offsets, each, len), said)
}

fn read_ranges<H: Sum>(
    writing: &mut Writing<H>,
    ranges: &[(u64, usize)],
    said: &mut Vec<u8>,
) -> io::Result<()> {
    match len_together(ranges) {
        Some(len) => say_reply(writing.read_ranges(ranges, len), said),
        None => Err(unreadable()),
    }
}

fn try_ranges<H: Sum>(
    writing: &Writing<H>,
    ranges: &[(u64, usize)],
    said: &mut Vec<u8>,
) -> io::Result<()> {
    match len_together(ranges) {
        Some(len) => say_reply(writing.try_ranges(ranges, len), said),
        None => Err(unreadable()),
    }
}

// Sets what later steps go by: whose calls read, or the options that are given.
fn set<H: Sum>(
    writing: &mut Writing<H>,
    verb: Verb,
    word: &[u8],
    said: &mut Vec<u8>,
) -> io::Result<()> {
    match verb {
        Verb::By => writing.read_by(named(&READERS, word).ok_or(unreadable())?),
        _ => {
            let dont_cache = named(&OPTIONS, word).ok_or(unreadable())?;
            writing.set_options(ReadOptions { dont_cache });
        }
    }
    say_done(Ok(()), said)
}

// Plays a step of the writer that appends, or that leaves none.
fn write<H: Sum>(
    writing: &mut Writing<H>,
    verb: Verb,
    words: &Arguments,
    said: &mut Vec<u8>,
) -> io::Result<()> {
    let answer = match verb {
        Verb::Append => writing.append(words.bytes()),
        Verb::Owned => writing.append_owned(words.bytes()),
        Verb::TryValue => writing.try_append_value(words.bytes()),
        Verb::Sync => writing.sync(),
        Verb::Recover => writing.recover(buffer_size(words.number(0))),
        _ => writing.cut(words.number(0)),
    };
    say_reply(answer, said)
}

// Plays a step of a snapshot or a replay.
fn keep<H: Sum>(
    writing: &mut Writing<H>,
    verb: Verb,
    words: &Arguments,
    said: &mut Vec<u8>,
) -> io::Result<()> {
    let answer = match verb {
        Verb::Snapshot => writing.snapshot(),
        Verb::TrySnapshot => writing.try_snapshot(),
        Verb::CopySnapshot => writing.copy_snapshot(),
        Verb::Replay => writing.replay(buffer_size(words.number(0))),
        Verb::Ensure => writing.ensure(words.length(0)),
        Verb::Take => writing.take(words.length(0)),
        Verb::Seek => writing.seek(words.number(0)),
        _ => Ok(writing.is_exhausted()),
    };
    say_reply(answer, said)
}

// Plays a step that reads.
fn read<H: Sum>(
    writing: &mut Writing<H>,
    verb: Verb,
    words: &Arguments,
    said: &mut Vec<u8>,
) -> io::Result<()> {
    let (offset, len) = (words.number(0), words.length(1));
    let answer = match verb {
        Verb::ReadInto => writing.read_into(offset, len),
        Verb::ReadAt => writing.read_at(offset, len),
        Verb::UpTo => writing.read_up_to(offset, len),
        Verb::Cached => writing.try_read(offset, len),
        Verb::Scan => writing.scan(offset, buffer_size(words.number(1))),
        Verb::Range => writing.read_range(offset, len),
        _ => writing.read_tail(words.length(0)),
    };
    say_reply(answer, said)
}

fn go<H: Sum>(
    alloc: Global,
    writing: &mut Writing<H>,
    verb: Verb,
    words: &Arguments,
    said: &mut Vec<u8>,
) -> io::Result<()> {
    match verb {
        Verb::Append | Verb::Owned | Verb::TryValue | Verb::Sync | Verb::Recover | Verb::Cut => {
            write(writing, verb, words, said)
        }
        Verb::ReadInto | Verb::ReadAt | Verb::UpTo | Verb::Cached => {
            read(writing, verb, words, said)
        }
        Verb::Scan | Verb::Range | Verb::Tail => read(writing, verb, words, said),
        Verb::Ranges => read_ranges(writing, &words.ranges, said),
        Verb::Many => read_many(alloc, writing, &words.numbers, said),
        Verb::CachedRanges => try_ranges(writing, &words.ranges, said),
        Verb::CachedMany => try_many(alloc, writing, &words.numbers, said),
        Verb::By | Verb::With => set(writing, verb, words.bytes(), said),
        Verb::Fail => {
            writing.fail_at(words.number(0));
            say_done(Ok(()), said)
        }
        Verb::Options => writing.say_options(said),
        _ => keep(writing, verb, words, said),
    }
}

impl<H: Sum> Subject for Writing<H> {
    fn play(&mut self, alloc: Global, row: &Row, said: &mut Vec<u8>) -> io::Result<()> {
        match read_step(alloc, &STEPS, &row.step)? {
            Some((verb, words)) => go(alloc, self, verb, &words, said),
            None => Err(unreadable()),
        }
    }

    fn calls(&self) -> usize {
        self.device_calls().len()
    }

    fn say_calls(&self, first: usize, said: &mut Vec<u8>) -> io::Result<()> {
        say_calls(self.device_calls(), first, said)
    }
}
