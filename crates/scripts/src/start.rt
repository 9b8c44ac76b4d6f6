// The first line of a script: what the script runs over, and the form of the lines after it.
ghost use Rattle.std.specs.Prelude.{◌≡◌, ◌<◌, ◌≤◌, [], ◌∷◌, codes, map, max, ⊤, IfOk};
ghost use Rattle.std.specs.Fmt.{decimal};
ghost use Rattle.std.specs.Option.{ForSome};
ghost use Rattle.std.specs.Int.NonZero.{non_zero_u16_get, non_zero_usize_get};
ghost use Rattle.cache.specs.Pages.{IsFresh};
ghost use Rattle.scripts.specs.Script.{IsFirst, IsItemSize, IsItemStart, IsPageSize, IsCacheSize};
ghost use Rattle.scripts.specs.Script.{IsReadAs, IsStart, first_words, item_start_words};
ghost use Rattle.scripts.specs.Script.{settings_words, start_words, sum_word, words_of};

use crate::word::{ReadError, parse_number, parts};
use cache::CacheRef;
use disk::Error;
use std::alloc::Global;
use std::num::{NonZeroU16, NonZeroUsize};

/// The most pages that the cache of a script may hold.
const MOST_PAGES: u64 = 4096;

/// The most bytes that an item of a script may have.
const MOST_ITEM_SIZE: u64 = 65535;

/// A script's first line.
#[derive(Clone, Copy)]
pub enum First {
    /// The lines after it are steps of a session.
    Session(Start),
    /// The lines after it are steps of items.
    Items(ItemStart),
}

/// What a script runs over.
#[derive(Clone, Copy)]
pub struct Start {
    /// The logical bytes of a page.
    pub page_size: NonZeroU16,
    /// The bytes that the writer may hold back.
    pub capacity: usize,
    /// The pages that the cache may hold.
    pub pages: NonZeroUsize,
    /// The checksum function of the pages.
    pub sum: SumName,
}

/// What a script of items runs over.
#[derive(Clone, Copy)]
pub struct ItemStart {
    /// The blob's pages, the writer and the cache.
    pub settings: Start,
    /// The bytes of an item.
    pub size: NonZeroUsize,
}

/// A checksum function.
#[derive(Clone, Copy)]
pub enum SumName {
    /// `AddSum`.
    Add,
    /// `ConstSum`.
    Const,
    /// `Crc32c`.
    Crc32c,
}

impl Start {
    /// Answers the cache that a script holds, or a new one if it holds none.
    pub fn cache(&self, alloc: Global, held: Option<CacheRef>) -> Result<CacheRef, Error>
        requires fresh { ForSome held IsFresh }
        ensures fresh { IfOk result IsFresh }
    {
        match held {
            Some(cache) => Ok(cache),
            None => CacheRef::new(alloc, self.page_size, self.pages),
        }
    }

    /// How many bytes a recovery reads at a time: the capacity, or one byte if that is zero.
    pub fn buffer_size(&self) -> NonZeroUsize
        ensures { non_zero_usize_get result ≡ max self.now.capacity 1 }
    {
        NonZeroUsize::new(self.capacity).unwrap_or(NonZeroUsize::MIN)
    }
}

pub fn parse_first(alloc: Global, line: &[u8]) -> Result<First, ReadError>
    ensures reads { IsReadAs first_words IsFirst (words_of line.now) result }
{
    let words = parts(alloc, line, b' ')?;
    match words.as_slice() {
        [name, others @ ..] => parse_named_first(name, others),
        [] => Err(ReadError::Unreadable),
    }
}

// Reads a first line from its first word, which names the form, and the words after it.
fn parse_named_first(name: &[u8], others: &[&[u8]]) -> Result<First, ReadError>
    ensures reads { IsReadAs first_words IsFirst
        (name.now ∷ map (λ word. word.now) others.now) result }
{
    if name == b"start".as_slice() {
        parse_start(others)
    } else if name == b"start-items".as_slice() {
        parse_item_start(others)
    } else {
        Err(ReadError::Unreadable)
    }
}

fn parse_start(words: &[&[u8]]) -> Result<First, ReadError>
    ensures reads { IsReadAs first_words IsFirst
        (codes "start" ∷ map (λ word. word.now) words.now) result }
{
    match words {
        [page_size, capacity, pages, sum] => {
            let start = parse_settings(page_size, capacity, pages, sum)?;
            Ok(First::Session(start))
        }
        _ => Err(ReadError::Unreadable),
    }
}

fn parse_item_start(words: &[&[u8]]) -> Result<First, ReadError>
    ensures reads { IsReadAs first_words IsFirst
        (codes "start-items" ∷ map (λ word. word.now) words.now) result }
{
    match words {
        [page_size, capacity, pages, sum, size] => {
            let settings = parse_settings(page_size, capacity, pages, sum)?;
            let size = parse_item_size(size)?;
            Ok(First::Items(ItemStart { settings, size }))
        }
        _ => Err(ReadError::Unreadable),
    }
}

// Reads the words that both forms of a first line have.
fn parse_settings(
    page_size: &[u8],
    capacity: &[u8],
    pages: &[u8],
    sum: &[u8],
) -> Result<Start, ReadError>
    ensures reads { IsReadAs settings_words IsStart
        (page_size.now ∷ capacity.now ∷ pages.now ∷ sum.now ∷ []) result }
{
    let page_size = parse_page_size(page_size)?;
    let capacity = parse_number(capacity)? as usize;
    let pages = parse_pages(pages)?;
    let sum = parse_sum(sum)?;
    Ok(Start {
        page_size,
        capacity,
        pages,
        sum,
    })
}

pub fn parse_page_size(word: &[u8]) -> Result<NonZeroU16, ReadError>
    ensures reads { IsReadAs (λ size. decimal (non_zero_u16_get size))
        (λ size. IsPageSize (non_zero_u16_get size)) word.now result }
{
    let Ok(size) = u16::try_from(parse_number(word)?) else {
        return Err(ReadError::Unreadable);
    };
    match NonZeroU16::new(size) {
        Some(size) => Ok(size),
        None => Err(ReadError::Unreadable),
    }
}

pub fn parse_pages(word: &[u8]) -> Result<NonZeroUsize, ReadError>
    ensures reads { IsReadAs (λ pages. decimal (non_zero_usize_get pages))
        (λ pages. IsCacheSize (non_zero_usize_get pages)) word.now result }
{
    parse_up_to(word, MOST_PAGES)
}

pub fn parse_item_size(word: &[u8]) -> Result<NonZeroUsize, ReadError>
    ensures reads { IsReadAs (λ size. decimal (non_zero_usize_get size))
        (λ size. IsItemSize (non_zero_usize_get size)) word.now result }
{
    parse_up_to(word, MOST_ITEM_SIZE)
}

// Reads a number from 1 to `most`.
fn parse_up_to(word: &[u8], most: u64) -> Result<NonZeroUsize, ReadError>
    ensures reads { IsReadAs (λ n. decimal (non_zero_usize_get n))
        (λ n. (0 < non_zero_usize_get n) × (non_zero_usize_get n ≤ most)) word.now result }
{
    let number = parse_number(word)?;
    if most < number {
        return Err(ReadError::Unreadable);
    }
    match NonZeroUsize::new(number as usize) {
        Some(number) => Ok(number),
        None => Err(ReadError::Unreadable),
    }
}

pub fn parse_sum(word: &[u8]) -> Result<SumName, ReadError>
    ensures reads { IsReadAs sum_word (λ _. ⊤) word.now result }
{
    match word {
        b"add" => Ok(SumName::Add),
        b"const" => Ok(SumName::Const),
        b"crc32c" => Ok(SumName::Crc32c),
        _ => Err(ReadError::Unreadable),
    }
}
