// What is wrong with a line that can't be read.
use crate::script::without_last_feed;
use crate::start::{parse_item_size, parse_page_size, parse_pages, parse_sum};
use crate::word::{ReadError, parse_flags, parse_hex, parse_number, parse_range, parts};
use std::alloc::Global;
use std::io::Write;
use std::{fmt, io};

/// The names of the lines after the first in a script of a session.
const NAMES: [&str; 29] = [
    "append",
    "owned",
    "try",
    "sync",
    "start-sync",
    "wait",
    "wait-sync",
    "needs",
    "size",
    "read",
    "upto",
    "cached",
    "ranges",
    "cached-ranges",
    "scan",
    "begin",
    "truncate",
    "snapshot",
    "try-snapshot",
    "snap",
    "replay",
    "ensure",
    "take",
    "seek",
    "seal",
    "fail",
    "crash",
    "recover",
    "dump",
];

/// The names of the lines after the first in a script of items.
const ITEM_NAMES: [&str; 8] = [
    "push", "get", "len", "sync", "fail", "crash", "recover", "dump",
];

/// How many bytes of a text are shown at most.
const MOST_SHOWN: usize = 60;

/// Where a line stands in a script: first, or after the first in one of the two forms.
#[derive(Clone, Copy)]
enum Place {
    First,
    OfSession,
    OfItems,
}

impl Place {
    /// The place of the line of this number, in a script whose first line has these words.
    fn of(number: u64, first: &[&[u8]]) -> Self {
        match first {
            _ if number == 1 => Place::First,
            [b"start-items", ..] => Place::OfItems,
            _ => Place::OfSession,
        }
    }
}

/// What a word must be.
#[derive(Clone, Copy)]
enum Form {
    Start,
    Name,
    ItemName,
    Hex,
    Number,
    Count,
    PageSize,
    Pages,
    Sum,
    ItemSize,
    Flags,
    Range,
    RangeOrEnd,
    End,
}

impl Form {
    /// What the word at this index must be in a first line that begins with `name`.
    fn at_start(name: &[u8], index: usize) -> Self {
        match index {
            0 => Form::Start,
            1 => Form::PageSize,
            2 => Form::Number,
            3 => Form::Pages,
            4 => Form::Sum,
            5 if name == b"start-items".as_slice() => Form::ItemSize,
            _ => Form::End,
        }
    }

    /// What the word at this index must be in a later line that begins with `name`, which has
    /// index 0.
    fn after(name: &[u8], index: usize) -> Self {
        match name {
            b"append" | b"owned" | b"try" | b"push" if index == 1 => Form::Hex,
            b"wait-sync" | b"truncate" | b"get" if index == 1 => Form::Number,
            b"replay" | b"fail" if index == 1 => Form::Count,
            b"crash" if index == 1 => Form::Flags,
            b"read" | b"upto" | b"cached" | b"ensure" | b"take" | b"seek" if index < 3 => {
                Form::Number
            }
            b"snap" if index < 4 => Form::Number,
            b"scan" if index < 3 => Form::Number,
            b"scan" if index == 3 => Form::Count,
            b"ranges" | b"cached-ranges" if index == 1 => Form::Range,
            b"ranges" | b"cached-ranges" => Form::RangeOrEnd,
            _ => Form::End,
        }
    }

    /// Whether a word has this form. A word that there is no memory to read counts as having it.
    fn fits(self, alloc: Global, word: &[u8]) -> bool {
        match self {
            Form::Start => matches!(word, b"start" | b"start-items"),
            Form::Name => is_one_of(&NAMES, word),
            Form::ItemName => is_one_of(&ITEM_NAMES, word),
            Form::Hex => is_read(parse_hex(alloc, word)),
            Form::Number => is_read(parse_number(word)),
            Form::Count => word != b"0".as_slice() && is_read(parse_number(word)),
            Form::PageSize => is_read(parse_page_size(word)),
            Form::Pages => is_read(parse_pages(word)),
            Form::Sum => is_read(parse_sum(word)),
            Form::ItemSize => is_read(parse_item_size(word)),
            Form::Flags => is_read(parse_flags(alloc, word)),
            Form::Range | Form::RangeOrEnd => is_read(parse_range(word)),
            Form::End => false,
        }
    }
}

impl fmt::Display for Form {
    fn fmt<W: fmt::Write>(&self, f: &mut fmt::Formatter<W>) -> fmt::Result {
        match self {
            Form::Start => write!(f, "start or start-items"),
            Form::Name => write_names(f, &NAMES),
            Form::ItemName => write_names(f, &ITEM_NAMES),
            Form::Hex => write!(f, "pairs of the digits 0-9 and a-f, or -"),
            Form::Number => write!(f, "a number below 2^64, with no 0 in front"),
            Form::Count => write!(f, "a number from 1 to 2^64 - 1, with no 0 in front"),
            Form::PageSize => write!(f, "a page size, 1 to 65535"),
            Form::Pages => write!(f, "a number of pages, 1 to 4096"),
            Form::Sum => write!(f, "add, const or crc32c"),
            Form::ItemSize => write!(f, "an item size, 1 to 65535"),
            Form::Flags => write!(f, "the digits 0 and 1, or -"),
            Form::Range => write!(f, "a range, as 0:4"),
            Form::RangeOrEnd => write!(f, "a range, as 0:4, or the end of the line"),
            Form::End => write!(f, "the end of the line"),
        }
    }
}

fn is_one_of(names: &[&str], word: &[u8]) -> bool {
    names.iter().any(|name| name.as_bytes() == word)
}

fn write_names<W: fmt::Write>(f: &mut fmt::Formatter<W>, names: &[&str]) -> fmt::Result {
    write!(f, "one of")?;
    for name in names {
        write!(f, " {name}")?;
    }
    Ok(())
}

// Whether a text was read, or there was no memory to find out.
fn is_read<T: Drop>(read: Result<T, ReadError>) -> bool {
    !matches!(read, Err(ReadError::Unreadable))
}

/// What the word at this index of a line must be.
fn form_at(place: Place, words: &[&[u8]], index: usize) -> Form {
    match (place, words) {
        (Place::First, [name, ..]) => Form::at_start(name, index),
        (_, [name, ..]) if index > 0 => Form::after(name, index),
        (Place::First, []) => Form::Start,
        (Place::OfSession, _) => Form::Name,
        (Place::OfItems, _) => Form::ItemName,
    }
}

/// The index of the first wrong word of a line, and what that word must be. If a word is missing,
/// the index is the one after the last word.
fn first_fault(alloc: Global, place: Place, words: &[&[u8]]) -> Option<(usize, Form)> {
    for (index, word) in words.iter().enumerate() {
        let form = form_at(place, words, index);
        if !form.fits(alloc, word) {
            return Some((index, form));
        }
    }
    match form_at(place, words, words.len()) {
        Form::End | Form::RangeOrEnd => None,
        form => Some((words.len(), form)),
    }
}

/// Bytes between backquotes. Printable characters are shown as they are, other bytes as `\x` and
/// two digits. Of many bytes only the first [`MOST_SHOWN`] are shown.
#[derive(Clone, Copy)]
struct Shown<'a>(&'a [u8]);

impl fmt::Display for Shown<'_> {
    fn fmt<W: fmt::Write>(&self, f: &mut fmt::Formatter<W>) -> fmt::Result {
        write!(f, "`")?;
        for &byte in self.0.iter().take(MOST_SHOWN) {
            match byte {
                b' '..=b'~' => write!(f, "{}", char::from(byte))?,
                _ => write!(f, "\\x{byte:02x}")?,
            }
        }
        let rest = if self.0.len() > MOST_SHOWN { ".." } else { "" };
        write!(f, "`{rest}")
    }
}

/// Writes which word of the line of this number is wrong, and what that word must be.
pub fn explain<E: Write>(alloc: Global, text: &[u8], number: u64, err: &mut E) -> io::Result<()> {
    let lines = parts(alloc, without_last_feed(text), b'\n')?;
    let at = number.saturating_sub(1) as usize;
    match (lines.first(), lines.get(at)) {
        (Some(first), Some(line)) => {
            let place = Place::of(number, &parts(alloc, first, b' ')?);
            explain_line(alloc, place, line, err)
        }
        _ => Ok(()),
    }
}

// The same for a line at this place in a script.
fn explain_line<E: Write>(alloc: Global, place: Place, line: &[u8], err: &mut E) -> io::Result<()> {
    let words = parts(alloc, line, b' ')?;
    match first_fault(alloc, place, &words) {
        Some((index, form)) => write_fault(line, index, words.get(index).copied(), form, err),
        None => Ok(()),
    }
}

// Writes that the word at this index of a line, or its end if it has no such word, isn't of a form.
fn write_fault<E: Write>(
    line: &[u8],
    index: usize,
    word: Option<&[u8]>,
    form: Form,
    err: &mut E,
) -> io::Result<()> {
    let line = Shown(line);
    let count = index.saturating_add(1);
    match word {
        Some([]) => writeln!(err, "word {count} of {line} is empty: expected {form}"),
        Some(word) => {
            let word = Shown(word);
            writeln!(err, "word {count} of {line} is {word}: expected {form}")
        }
        None => writeln!(err, "{line} ends before word {count}: expected {form}"),
    }
}
