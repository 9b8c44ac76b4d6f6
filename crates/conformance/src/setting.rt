// What a case is run with, and in how many ways.
use crate::forms::named;
use scripts::parse_number;
use std::io;
use std::io::Write;
use std::num::{NonZeroU16, NonZeroUsize};

/// A checksum function.
#[derive(Clone, Copy)]
pub enum SumName {
    /// `AddSum`.
    Add,
    /// `ConstSum`.
    Const,
    /// `Crc32c`.
    Crc,
}

const SUMS: [(&[u8], SumName); 3] = [
    (b"add", SumName::Add),
    (b"const", SumName::Const),
    (b"crc", SumName::Crc),
];

/// The checksum function of a word.
pub fn sum_of(word: &[u8]) -> Option<SumName> {
    named(&SUMS, word)
}

fn name_of(sum: SumName) -> &'static str {
    match sum {
        SumName::Add => "add",
        SumName::Const => "const",
        SumName::Crc => "crc",
    }
}

/// What a case is run with.
#[derive(Clone, Copy)]
pub struct Setting {
    /// The logical bytes of a page.
    pub page_size: NonZeroU16,
    /// The bytes that the writer may hold back.
    pub capacity: usize,
    /// The pages that the cache may hold.
    pub pages: NonZeroUsize,
    /// The checksum function of the pages.
    pub sum: SumName,
    /// Whether a read of several ranges delivers the last one first.
    pub backwards: bool,
    /// The bytes of an item, if the case is run over items.
    pub item_size: Option<NonZeroUsize>,
}

fn number(word: &[u8]) -> Option<u64> {
    parse_number(word).ok()
}

// How many words there are between commas.
fn count_of(words: &[u8]) -> usize {
    words.split(|byte| *byte == b',').count()
}

// The word at an index, of those between commas.
fn choice(words: &[u8], index: usize) -> Option<&[u8]> {
    words.split(|byte| *byte == b',').nth(index)
}

/// How many settings the words of a `start` line stand for: each word may be several, with commas
/// between.
pub fn count_settings(words: &[&[u8]]) -> usize {
    let mut count: usize = 1;
    for word in words {
        count = count.saturating_mul(count_of(word));
    }
    count
}

// The choice of each word that a number stands for, and what is left of the number.
fn pick<'a>(words: &'a [u8], index: &mut usize) -> Option<&'a [u8]> {
    let count = count_of(words).max(1);
    let picked = choice(words, *index % count);
    *index /= count;
    picked
}

/// The setting of this number.
pub fn setting_of(words: &[&[u8]], number_of_it: usize) -> Option<Setting> {
    let mut index = number_of_it;
    match words {
        [kind, page_size, capacity, pages, sum, size, order @ ..] if *kind == b"items".as_slice() =>
            {
                let order = order.first().copied().unwrap_or(b"forward");
                let setting = read_setting(page_size, capacity, pages, sum, order, &mut index)?;
                let size = NonZeroUsize::new(number(pick(size, &mut index)?)? as usize)?;
                Some(Setting {
                    item_size: Some(size),
                    ..setting
                })
            }
        [page_size, capacity, pages, sum] => {
            read_setting(page_size, capacity, pages, sum, b"forward", &mut index)
        }
        [page_size, capacity, pages, sum, order] => {
            read_setting(page_size, capacity, pages, sum, order, &mut index)
        }
        _ => None,
    }
}

fn read_setting(
    page_size: &[u8],
    capacity: &[u8],
    pages: &[u8],
    sum: &[u8],
    order: &[u8],
    index: &mut usize,
) -> Option<Setting> {
    let page_size = u16::try_from(number(pick(page_size, index)?)?).ok()?;
    let page_size = NonZeroU16::new(page_size)?;
    let capacity = number(pick(capacity, index)?)? as usize;
    let pages = NonZeroUsize::new(number(pick(pages, index)?)? as usize)?;
    let sum = sum_of(pick(sum, index)?)?;
    let backwards = pick(order, index)? == b"backward".as_slice();
    Some(Setting {
        page_size,
        capacity,
        pages,
        sum,
        backwards,
        item_size: None,
    })
}

fn say_sizes(setting: Setting, told: &mut Vec<u8>) -> io::Result<()> {
    write!(
        told,
        "  with pages of {}, a buffer of {}, a cache of {}",
        setting.page_size, setting.capacity, setting.pages
    )
}

/// Writes a setting.
pub fn say_setting(setting: Setting, told: &mut Vec<u8>) -> io::Result<()> {
    say_sizes(setting, told)?;
    let order = if setting.backwards {
        "backward"
    } else {
        "forward"
    };
    write!(told, ", sum {}, {order}", name_of(setting.sum))?;
    match setting.item_size {
        Some(size) => write!(told, ", items of {size}"),
        None => Ok(()),
    }
}
