// The printed text of replies.
ghost use Rattle.std.specs.Prelude.{Some};
ghost use Rattle.scripts.specs.Text.{hex_of, item_reply_text, numbers_text, reply_text};

use disk::StartedSync;
use items::ItemReply;
use session::Reply;
use std::fmt;

/// Bytes as lower-case hexadecimal digits, two a byte, or `-` where there is none.
#[derive(Clone, Copy)]
pub struct Hex<'a>(pub &'a [u8]);

impl fmt::Display for Hex<'_> {
    ghost output = { λ hex. Some (hex_of hex.0.now) };

    fn fmt<W: fmt::Write>(&self, f: &mut fmt::Formatter<W>) -> fmt::Result {
        if self.0.is_empty() {
            return write!(f, "-");
        }
        for &byte in self.0 {
            write!(f, "{byte:02x}")?;
        }
        Ok(())
    }
}

/// Numbers with a space before each, or ` -` where there is none.
#[derive(Clone, Copy)]
pub struct Numbers<'a>(pub &'a [usize]);

impl fmt::Display for Numbers<'_> {
    ghost output = { λ numbers. Some (numbers_text numbers.0.now) };

    fn fmt<W: fmt::Write>(&self, f: &mut fmt::Formatter<W>) -> fmt::Result {
        if self.0.is_empty() {
            return write!(f, " -");
        }
        for &number in self.0 {
            write!(f, " {number}")?;
        }
        Ok(())
    }
}

/// A reply of a session, printed as its line of the output.
#[derive(Clone, Copy)]
pub struct Said<'a>(pub &'a Reply);

impl fmt::Display for Said<'_> {
    ghost output = { λ said. Some (reply_text said.0.now) };

    fn fmt<W: fmt::Write>(&self, f: &mut fmt::Formatter<W>) -> fmt::Result {
        match self.0 {
            Reply::At(offset) => write!(f, "at {offset}"),
            Reply::Nothing => write!(f, "none"),
            Reply::Done => write!(f, "ok"),
            Reply::Started(StartedSync::Done) => write!(f, "done"),
            Reply::Started(StartedSync::Named(name)) => write!(f, "named {name}"),
            Reply::Answer(true) => write!(f, "yes"),
            Reply::Answer(false) => write!(f, "no"),
            Reply::Length(size) => write!(f, "size {size}"),
            Reply::Bytes(bytes) => write!(f, "bytes {}", Hex(bytes)),
            Reply::Served(count, bytes) => write!(f, "served {count} {}", Hex(bytes)),
            Reply::Missed(numbers) => write!(f, "missed{}", Numbers(numbers)),
            Reply::Fault(error) => write!(f, "fault E{} {}", error.number(), error.name()),
            Reply::Closed => write!(f, "closed"),
            Reply::NotRecovering => write!(f, "not-recovering"),
            Reply::NoSuch => write!(f, "no-such"),
            Reply::BadRanges => write!(f, "bad-ranges"),
            Reply::Taken(index) => write!(f, "snapshot {index}"),
            Reply::Replaying(index) => write!(f, "replay {index}"),
            Reply::Sealed(index, StartedSync::Done) => write!(f, "sealed {index} done"),
            Reply::Sealed(index, StartedSync::Named(name)) => {
                write!(f, "sealed {index} named {name}")
            }
            Reply::NotAppending => write!(f, "not-appending"),
        }
    }
}

/// A reply of items, printed as its line of the output.
#[derive(Clone, Copy)]
pub struct SaidItem<'a>(pub &'a ItemReply);

impl fmt::Display for SaidItem<'_> {
    ghost output = { λ said. Some (item_reply_text said.0.now) };

    fn fmt<W: fmt::Write>(&self, f: &mut fmt::Formatter<W>) -> fmt::Result {
        match self.0 {
            ItemReply::Item(i) => write!(f, "item {i}"),
            ItemReply::BadItem => write!(f, "bad-item"),
            ItemReply::Bytes(bytes) => write!(f, "bytes {}", Hex(bytes)),
            ItemReply::Length(count) => write!(f, "len {count}"),
            ItemReply::Done => write!(f, "ok"),
            ItemReply::Fault(error) => write!(f, "fault E{} {}", error.number(), error.name()),
            ItemReply::Closed => write!(f, "closed"),
        }
    }
}
