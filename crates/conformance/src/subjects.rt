// Cases, by what they are about.
use crate::buffered::Buffered;
use crate::cached::Cached;
use crate::case::Case;
use crate::forms::Argument::{Number, Word};
use crate::forms::{Arguments, Form, read_step};
use crate::journals::{Journals, Sizes};
use crate::logs::{Logs, read_options};
use crate::memory::Memory;
use crate::mirrored::Mirrored;
use crate::nested::Nested;
use crate::pages::Pages;
use crate::pair::Pair;
use crate::plain::Plain;
use crate::played::Scripts;
use crate::runs::{MOST, play_session};
use crate::served::Server;
use crate::setting::{SumName, sum_of};
use crate::subject::{Subject, play_all, play_refusing};
use crate::views::Viewed;
use crate::words::{buffer_size, bytes_of, page_size, unreadable, words};
use crate::writing::Writing;
use page::{AddSum, ConstSum};
use std::alloc::Global;
use std::io;

// What a case is about, where it isn't a session.
#[derive(Clone, Copy)]
enum Kind {
    Cases,
    Scripts,
    Requests,
    Memory,
    Plain,
    Mirror,
    Journal,
    Log,
    Pair,
    Writer,
    Page,
    Buffer,
    Cache,
    View,
}

const KINDS: [Form<Kind>; 17] = [
    (b"cases", &[], Kind::Cases),
    (b"scripts", &[], Kind::Scripts),
    (b"requests", &[], Kind::Requests),
    (b"memory", &[], Kind::Memory),
    (b"plain", &[], Kind::Plain),
    (b"mirror", &[Number], Kind::Mirror),
    (b"mirror", &[Number, Number], Kind::Mirror),
    (b"journal", &[Word], Kind::Journal),
    (b"journal", &[Word, Number, Number, Number], Kind::Journal),
    (b"log", &[Number, Number, Number], Kind::Log),
    (b"pair", &[Number, Number, Number], Kind::Pair),
    (b"writer", &[Number, Number, Number], Kind::Writer),
    (b"page", &[], Kind::Page),
    (b"buffer", &[Number, Number, Number], Kind::Buffer),
    (b"cache", &[Number, Number], Kind::Cache),
    (b"view", &[Number], Kind::View),
    (b"view", &[Number, Number], Kind::View),
];

// Plays all lines of a case while the request for memory of this number is refused, or none with 0.
// Answers whether a request was refused.
fn play_once<S: Subject>(
    alloc: Global,
    subject: &mut S,
    case: &Case,
    refuses: u32,
    told: &mut Vec<u8>,
) -> io::Result<bool> {
    if refuses > 0 {
        return play_refusing(alloc, subject, &case.before, refuses, false, told);
    }
    play_all(alloc, subject, &case.before, told)?;
    Ok(false)
}

// Plays a case once with a subject that was made for it.
fn play_made<S: Subject + Drop>(
    alloc: Global,
    made: io::Result<Box<S>>,
    case: &Case,
    refuses: u32,
    told: &mut Vec<u8>,
) -> io::Result<bool> {
    let mut subject = made?;
    play_once(alloc, &mut *subject, case, refuses, told)
}

// Plays a case of a journal, whose pages and records have the same checksum function.
fn over_journal(
    alloc: Global,
    case: &Case,
    words: &Arguments,
    refuses: u32,
    told: &mut Vec<u8>,
) -> io::Result<bool> {
    let sizes = Sizes::read(words)?;
    match sum_of(words.bytes()) {
        Some(SumName::Add) => {
            let made = Journals::<AddSum, AddSum>::new(alloc, sizes);
            play_made(alloc, made, case, refuses, told)
        }
        Some(SumName::Const) => {
            let made = Journals::<ConstSum, ConstSum>::new(alloc, sizes);
            play_made(alloc, made, case, refuses, told)
        }
        _ => Err(unreadable()),
    }
}

// Plays a case that begins with the bytes of a device: of the device, or of a server or a writer
// over it.
fn over_device(
    alloc: Global,
    case: &Case,
    kind: Kind,
    words: &Arguments,
    refuses: u32,
    told: &mut Vec<u8>,
) -> io::Result<bool> {
    let bytes = bytes_of(alloc, &case.blob)?;
    match kind {
        Kind::Memory => play_made(alloc, Memory::new(alloc, &bytes), case, refuses, told),
        Kind::Plain => play_made(alloc, Plain::new(alloc, bytes), case, refuses, told),
        Kind::Requests => play_made(alloc, Server::new(alloc, bytes), case, refuses, told),
        Kind::Writer => {
            let (size, pages) = (page_size(words.number(0))?, buffer_size(words.number(2)));
            let made = Writing::<AddSum>::new(alloc, size, words.length(1), pages, &bytes);
            play_made(alloc, made, case, refuses, told)
        }
        // (the host's call of the first number fails; its runs have at most as many bytes as the
        // second number, or 16)
        _ => {
            let room = words.numbers.get(1).copied().unwrap_or(16);
            let made = Mirrored::new(alloc, words.number(0), room as usize);
            play_made(alloc, made, case, refuses, told)
        }
    }
}

fn play_kind(
    alloc: Global,
    case: &Case,
    kind: Kind,
    words: &Arguments,
    refuses: u32,
    told: &mut Vec<u8>,
) -> io::Result<bool> {
    let (first, len) = (words.number(0), words.length(1));
    match kind {
        Kind::Cases => play_once(alloc, &mut Nested, case, refuses, told),
        Kind::Scripts => play_once(alloc, &mut Scripts, case, refuses, told),
        Kind::Page => play_once(alloc, &mut Pages, case, refuses, told),
        Kind::Journal => over_journal(alloc, case, words, refuses, told),
        Kind::Log => {
            let made = Logs::<AddSum>::new(alloc, read_options(words));
            play_made(alloc, made, case, refuses, told)
        }
        Kind::Pair => {
            let pages = buffer_size(words.number(2));
            let made = Pair::<AddSum>::new(alloc, page_size(first)?, len, pages);
            play_made(alloc, made, case, refuses, told)
        }
        Kind::Buffer => {
            let made = Buffered::new(alloc, first, len, words.length(2));
            play_made(alloc, made, case, refuses, told)
        }
        Kind::Cache => {
            let made = Cached::new(alloc, page_size(first)?, len);
            play_made(alloc, made, case, refuses, told)
        }
        // (the second number, if there is one, is the offset of a byte that is changed)
        Kind::View => {
            let changed = words.numbers.get(1).copied().unwrap_or(u64::MAX);
            let made = Viewed::new(alloc, words.length(0), changed as usize);
            play_made(alloc, made, case, refuses, told)
        }
        _ => over_device(alloc, case, kind, words, refuses, told),
    }
}

// Whether a refused request doesn't show in a reply as itself: a host in memory fails then, and
// requests are answered in bytes.
fn hides_refusals(kind: Kind) -> bool {
    match kind {
        Kind::Cases | Kind::Requests | Kind::Mirror | Kind::Log => true,
        _ => false,
    }
}

// Plays a case that isn't a session's, and then again with each request for memory refused in turn.
fn play_other(
    alloc: Global,
    case: &Case,
    kind: Kind,
    words: &Arguments,
    told: &mut Vec<u8>,
) -> io::Result<u64> {
    play_kind(alloc, case, kind, words, 0, told)?;
    if hides_refusals(kind) {
        return Ok(1);
    }
    for number in 1..=MOST {
        if !play_kind(alloc, case, kind, words, number, told)? {
            return Ok(u64::from(number));
        }
    }
    Ok(u64::from(MOST))
}

/// Plays a case in each of its ways, writes each difference, and answers how many runs that were.
pub fn play_case(alloc: Global, case: &Case, told: &mut Vec<u8>) -> io::Result<u64> {
    match read_step(alloc, &KINDS, &case.start)? {
        Some((kind, words)) => play_other(alloc, case, kind, &words, told),
        None => play_session(alloc, case, &words(alloc, &case.start)?, told),
    }
}
