// The forms of steps: what a step is called, and what its other words are.
use crate::words::{bytes_of, flags, number, range, unreadable, words};
use std::alloc::Global;
use std::io;

/// What a word of a step is.
#[derive(Clone, Copy)]
pub enum Argument {
    /// A number.
    Number,
    /// Bytes in hexadecimal digits.
    Bytes,
    /// Digits 0 and 1.
    Flags,
    /// A word as it stands.
    Word,
    /// This one and all after it, if there are any, are numbers.
    Numbers,
    /// This one and all after it, if there are any, are bytes.
    Pieces,
    /// This one and all after it, if there are any, are ranges.
    Ranges,
}

/// A step: its name, what its other words are, and what it asks for.
pub type Form<V> = (&'static [u8], &'static [Argument], V);

/// The words of a step after its name, each kind in its order.
pub struct Arguments {
    /// The numbers.
    pub numbers: Vec<u64>,
    /// The pieces of bytes, and the words that stand as they are.
    pub pieces: Vec<Vec<u8>>,
    /// The ranges.
    pub ranges: Vec<(u64, usize)>,
    /// The flags.
    pub flags: Vec<bool>,
}

// By hand, so that an owner lets one go by one call: of a derived drop, a proof follows each field
// at each exit.
impl Drop for Arguments {
    fn drop(self) {
        let Arguments {
            numbers: _,
            pieces: _,
            ranges: _,
            flags: _,
        } = self;
    }
}

impl Arguments {
    fn new(alloc: Global) -> Self {
        Arguments {
            numbers: Vec::new(alloc),
            pieces: Vec::new(alloc),
            ranges: Vec::new(alloc),
            flags: Vec::new(alloc),
        }
    }

    fn add(&mut self, alloc: Global, argument: Argument, word: &[u8]) -> io::Result<()> {
        match argument {
            Argument::Number | Argument::Numbers => self.numbers.push(number(word)?)?,
            Argument::Bytes | Argument::Pieces => self.pieces.push(bytes_of(alloc, word)?)?,
            Argument::Word => self.pieces.push(Vec::from_slice(alloc, word)?)?,
            Argument::Ranges => self.ranges.push(range(word)?)?,
            Argument::Flags => self.flags = flags(alloc, word)?,
        }
        Ok(())
    }

    /// The number at an index; 0 where there is none.
    pub fn number(&self, index: usize) -> u64 {
        self.numbers.get(index).copied().unwrap_or(0)
    }

    /// The number at an index as a length; 0 where there is none.
    pub fn length(&self, index: usize) -> usize {
        self.number(index) as usize
    }

    /// The piece at an index, if there is one.
    pub fn piece(&self, index: usize) -> Option<&[u8]> {
        match self.pieces.get(index) {
            Some(piece) => Some(piece.as_slice()),
            None => None,
        }
    }

    /// The first piece; no bytes where there is none.
    pub fn bytes(&self) -> &[u8] {
        self.piece(0).unwrap_or(&[])
    }
}

// Whether a step of so many words can have this form.
fn has_room(takes: &[Argument], count: usize) -> bool {
    match takes.last() {
        Some(Argument::Numbers | Argument::Pieces | Argument::Ranges) => {
            takes.len() <= count.saturating_add(1)
        }
        _ => takes.len() == count,
    }
}

fn read_words(alloc: Global, takes: &[Argument], words: &[&[u8]]) -> io::Result<Arguments> {
    let mut arguments = Arguments::new(alloc);
    for (index, word) in words.iter().enumerate() {
        match takes.get(index).or(takes.last()) {
            Some(argument) => arguments.add(alloc, *argument, word)?,
            None => return Err(unreadable()),
        }
    }
    Ok(arguments)
}

fn find<V: Copy>(forms: &[Form<V>], name: &[u8], count: usize) -> Option<(&'static [Argument], V)> {
    for &(called, takes, verb) in forms {
        if called == name && has_room(takes, count) {
            return Some((takes, verb));
        }
    }
    None
}

/// Which of these steps a line is, and its words. None where it is another.
pub fn read_step<V: Copy>(
    alloc: Global,
    forms: &[Form<V>],
    line: &[u8],
) -> io::Result<Option<(V, Arguments)>> {
    let words = words(alloc, line)?;
    let [name, words @ ..] = words.as_slice() else {
        return Ok(None);
    };
    match find(forms, name, words.len()) {
        Some((takes, verb)) => Ok(Some((verb, read_words(alloc, takes, words)?))),
        None => Ok(None),
    }
}

/// What a word is the name of, if it is one of these.
pub fn named<V: Copy>(names: &[(&[u8], V)], word: &[u8]) -> Option<V> {
    for (name, it) in names {
        if *name == word {
            return Some(*it);
        }
    }
    None
}
