// Requests in bytes, and the answers to them.
use crate::forms::Argument::Number;
use crate::forms::{Arguments, Form, read_step};
use crate::line::Row;
use crate::pieces::{Pieces, Way};
use crate::recorder::Recorder;
use crate::refuse::asked_for_more;
use crate::subject::Subject;
use crate::words::{out_of_memory, say_bytes, say_done, unreadable};
use crc32c::Crc32c;
use disk::{Blob, MemBlob, VecBlob};
use file::{Mirror, RUN_SIZE};
use protocol::{Cause, Setting, Stop, serve_file};
use scripts::Hex;
use std::alloc::Global;
use std::io;
use std::io::{BufReader, BufWriter, Write};
use std::num::NonZeroU16;

// The most bytes of memory that a server may ask for at once, with the settings and the bytes of
// these cases: its cache has room for 1,024 pages.
const MOST_AT_ONCE: u32 = 1 << 23;

// What a step asks of a server.
#[derive(Clone, Copy)]
enum Verb {
    Serve,
    ServeReading,
    ServeAllowing,
    ServePieces,
    ServeFailing,
    ServeMirror,
    ServeSmall,
    ServeEnding,
    ServeBroken,
    ServeInterrupted,
    Resize,
    Stop,
    Dump,
    Len,
}

const STEPS: [Form<Verb>; 14] = [
    (b"serve", &[], Verb::Serve),
    (b"serve-reading", &[], Verb::ServeReading),
    (b"serve-allowing", &[Number], Verb::ServeAllowing),
    (b"serve-pieces", &[], Verb::ServePieces),
    (b"serve-failing", &[Number], Verb::ServeFailing),
    (b"serve-mirror", &[Number], Verb::ServeMirror),
    (b"serve-small", &[Number], Verb::ServeSmall),
    (b"serve-ending", &[Number, Number], Verb::ServeEnding),
    (b"serve-broken", &[Number, Number], Verb::ServeBroken),
    (b"serve-interrupted", &[], Verb::ServeInterrupted),
    (b"resize", &[Number], Verb::Resize),
    (b"stop", &[], Verb::Stop),
    (b"dump", &[], Verb::Dump),
    (b"len", &[], Verb::Len),
];

/// What serves requests over one blob, one session after another.
#[derive(Drop)]
pub struct Server {
    blob: VecBlob,
}

// An output that keeps after how many bytes it was flushed.
#[derive(Drop)]
struct Flushed {
    bytes: Vec<u8>,
    ends: Vec<usize>,
}

impl Write for Flushed {
    fn write(&mut self, buf: &[u8]) -> io::Result<usize> {
        self.bytes.extend_from_slice(buf)?;
        Ok(buf.len())
    }

    fn flush(&mut self) -> io::Result<()> {
        if self.ends.last() != Some(&self.bytes.len()) {
            self.ends.push(self.bytes.len())?;
        }
        Ok(())
    }
}

fn say_end(ended: Result<(), Stop>, said: &mut Vec<u8>) -> io::Result<()> {
    match ended {
        Ok(()) => say_done(Ok(()), said),
        Err(stop) => write!(said, "{stop}"),
    }
}

// Serves the requests of an input. Writes how that ends, the answers if they aren't those that the
// row wants, and what no server may do. Answers after how many bytes of answers the output was
// flushed each time.
fn serve<B: Blob + Cause>(
    alloc: Global,
    blob: &mut B,
    setting: &Setting,
    input: Pieces,
    row: &Row,
    said: &mut Vec<u8>,
) -> io::Result<Vec<usize>> {
    let wanted = Pieces::read(alloc, &row.wanted, Way::Ends)?;
    let mut input = BufReader::new(alloc, input)?;
    let flushed = Flushed {
        bytes: Vec::new(alloc),
        ends: Vec::new(alloc),
    };
    let mut out = BufWriter::new(alloc, flushed)?;
    asked_for_more(alloc, MOST_AT_ONCE);
    let ended = serve_file::<B, Crc32c, _, _>(
        alloc, blob, setting, "crc32c", "", &mut input, &mut out,
    );
    let greedy = asked_for_more(alloc, MOST_AT_ONCE);
    say_end(ended, said)?;
    out.flush()?;
    let (flushed, _) = out.into_parts();
    if flushed.bytes != wanted.bytes {
        write!(said, ", but wrote {}", Hex(&flushed.bytes))?;
    }
    input.get_ref().say_misuse(said)?;
    if greedy {
        write!(
            said,
            ", with more than {MOST_AT_ONCE} bytes of memory asked for at once"
        )?;
    }
    Ok(flushed.ends)
}

// Serves requests over an empty blob whose device call of this number fails.
fn serve_failing(
    alloc: Global,
    setting: &Setting,
    number: u64,
    row: &Row,
    said: &mut Vec<u8>,
) -> io::Result<()> {
    let mut blob = MemBlob::new(alloc);
    blob.fail_at(number.max(1));
    let input = Pieces::read(alloc, &row.given, Way::Ends)?;
    serve(alloc, &mut blob, setting, input, row, said)?;
    Ok(())
}

// Serves requests over an empty blob over a host, whose call of this number fails.
fn serve_mirror(
    alloc: Global,
    setting: &Setting,
    number: u64,
    row: &Row,
    said: &mut Vec<u8>,
) -> io::Result<()> {
    let host = Recorder::new(alloc, number as usize, RUN_SIZE)?;
    let mut blob = Mirror::new(host, Vec::new(alloc));
    let input = Pieces::read(alloc, &row.given, Way::Ends)?;
    serve(alloc, &mut blob, setting, input, row, said)?;
    Ok(())
}

impl Server {
    /// A server over a blob of these bytes.
    pub fn new(alloc: Global, bytes: Vec<u8>) -> io::Result<Box<Server>> {
        let blob = VecBlob::from_vec(bytes);
        match Box::new(alloc, Server { blob }) {
            Ok(server) => Ok(server),
            Err(_) => Err(out_of_memory()),
        }
    }

    fn serve(
        &mut self,
        alloc: Global,
        setting: Setting,
        way: Way,
        row: &Row,
        said: &mut Vec<u8>,
    ) -> io::Result<()> {
        let input = Pieces::read(alloc, &row.given, way)?;
        serve(alloc, &mut self.blob, &setting, input, row, said)?;
        Ok(())
    }

    fn serve_pieces(&mut self, alloc: Global, row: &Row, said: &mut Vec<u8>) -> io::Result<()> {
        let input = Pieces::read(alloc, &row.given, Way::Ends)?;
        let ends = serve(alloc, &mut self.blob, &Setting::default(), input, row, said)?;
        write!(said, ", out after")?;
        for end in &ends {
            write!(said, " {end}")?;
        }
        Ok(())
    }

    // Serves the first so many bytes of a row, over a copy of the blob.
    fn serve_first(
        &self,
        alloc: Global,
        way: Way,
        count: usize,
        row: &Row,
        said: &mut Vec<u8>,
    ) -> io::Result<()> {
        let mut blob = VecBlob::from_vec(Vec::from_slice(alloc, self.blob.bytes())?);
        let mut input = Pieces::read(alloc, &row.given, way)?;
        input.cut(count)?;
        serve(alloc, &mut blob, &Setting::default(), input, row, said)?;
        Ok(())
    }

    // Serves the first so many bytes of a row, for each count from the first to the last. Writes
    // the answer if it is the same for all counts, or else the first that differs.
    fn serve_each(
        &self,
        alloc: Global,
        way: Way,
        words: &Arguments,
        row: &Row,
        said: &mut Vec<u8>,
    ) -> io::Result<()> {
        let (first, last) = (words.length(0), words.length(1));
        self.serve_first(alloc, way, first, row, said)?;
        for count in first.saturating_add(1)..=last {
            let mut got = Vec::new(alloc);
            self.serve_first(alloc, way, count, row, &mut got)?;
            if got.as_slice() != said.as_slice() {
                said.clear();
                write!(said, "fault at {count}: ")?;
                said.extend_from_slice(&got)?;
                return Ok(());
            }
        }
        Ok(())
    }

    fn stop(&mut self, said: &mut Vec<u8>) -> io::Result<()> {
        self.blob.stop();
        say_done(Ok(()), said)
    }

    fn go(
        &mut self,
        alloc: Global,
        verb: Verb,
        words: &Arguments,
        row: &Row,
        said: &mut Vec<u8>,
    ) -> io::Result<()> {
        let mut setting = Setting::default();
        let number = words.number(0);
        match verb {
            Verb::Serve => self.serve(alloc, setting, Way::Ends, row, said),
            Verb::ServeReading => {
                setting.read_only = true;
                self.serve(alloc, setting, Way::Ends, row, said)
            }
            Verb::ServeAllowing => {
                setting.allowed = number;
                self.serve(alloc, setting, Way::Ends, row, said)
            }
            Verb::ServePieces => self.serve_pieces(alloc, row, said),
            Verb::ServeFailing => serve_failing(alloc, &setting, number, row, said),
            Verb::ServeMirror => serve_mirror(alloc, &setting, number, row, said),
            Verb::ServeSmall => {
                setting.page_size = NonZeroU16::new(4).unwrap();
                setting.capacity = 8;
                serve_failing(alloc, &setting, number, row, said)
            }
            Verb::ServeEnding => self.serve_each(alloc, Way::Ends, words, row, said),
            Verb::ServeBroken => self.serve_each(alloc, Way::Fails, words, row, said),
            Verb::ServeInterrupted => self.serve(alloc, setting, Way::Interrupted, row, said),
            Verb::Resize => say_done(self.blob.resize(number), said),
            Verb::Stop => self.stop(said),
            Verb::Dump => say_bytes("blob", self.blob.bytes(), said),
            Verb::Len => write!(said, "len {}", self.blob.len()),
        }
    }
}

impl Subject for Server {
    fn play(&mut self, alloc: Global, row: &Row, said: &mut Vec<u8>) -> io::Result<()> {
        match read_step(alloc, &STEPS, &row.step)? {
            Some((verb, words)) => self.go(alloc, verb, &words, row, said),
            None => Err(unreadable()),
        }
    }
}
