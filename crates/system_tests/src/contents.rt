// Contents in files that are whole, damaged, cut, of another content, or refused.
use digest::PolyDigest;
use page_digests::{
    Digesting, Error, Levels, PagedContent, Seal, Source, SourcePast, catch_up, levels_of,
    levels_of_list, rebuild_levels,
};
use std::io;
use std::io::ErrorKind;
use std::num::NonZeroU16;
use std::snapshot::Snapshot;
use std::test::Fail;

// A file in memory: of its reads those from number `refuse` on are refused, up to number `until`.
#[derive(Drop)]
struct Memory {
    bytes: Vec<u8>,
    reads: u64,
    refuse: u64,
    until: u64,
    past: Snapshot<SourcePast>,
}

impl Memory {
    fn new(bytes: Vec<u8>) -> Self {
        Memory {
            bytes,
            reads: 0,
            refuse: 0,
            until: 0,
            past: SourcePast::begun(),
        }
    }

    fn copy(&self, number: u64, bytes: &mut [u8], offset: u64) -> io::Result<()> {
        if self.refuse <= number && number < self.until {
            return Err(io::Error::from(ErrorKind::Other));
        }
        let len = bytes.len();
        match self.bytes.get(offset as usize..) {
            Some(rest) if len <= rest.len() => {
                bytes.copy_from_slice(&rest[..len]);
                Ok(())
            }
            _ => Err(io::Error::from(ErrorKind::UnexpectedEof)),
        }
    }
}

impl Source for Memory {
    ghost reads = { λ m. m.past.value };

    fn read_at(&mut self, bytes: &mut [u8], offset: u64) -> io::Result<()> {
        let number = self.reads;
        self.reads = number.wrapping_add(1);
        let result = self.copy(number, bytes, offset);
        self.past = SourcePast::after(&self.past, offset, bytes, result.is_err());
        result
    }
}

// Some bytes, others for another key.
fn bytes_of(rt: &HostRuntime, len: usize, key: u64) -> Result<Vec<u8>, Fail> {
    let mut bytes = Vec::new(rt.alloc());
    let mut state = key;
    for _ in 0..len {
        state = state
            .wrapping_mul(6364136223846793005)
            .wrapping_add(1442695040888963407);
        bytes.push((state >> 56) as u8)?;
    }
    Ok(bytes)
}

// A content's file: its pages, the last one filled up, each with 12 bytes behind it.
fn file_of(rt: &HostRuntime, content: &[u8], page_size: NonZeroU16) -> Result<Vec<u8>, Fail> {
    let size = usize::from(page_size.get());
    let mut file = Vec::new(rt.alloc());
    for page in content.chunks(size) {
        file.extend_from_slice(page)?;
        for _ in page.len()..size {
            file.push(0)?;
        }
        file.extend_from_slice(&[0xEE; 12])?;
    }
    Ok(file)
}

// The file of a list: it, and the top.
fn list_file_of(rt: &HostRuntime, levels: &Levels) -> Result<Vec<u8>, Fail> {
    let mut file = Vec::new(rt.alloc());
    file.extend_from_slice(&levels.list)?;
    file.extend_from_slice(&levels.top)?;
    Ok(file)
}

// A content, and what its files hold.
#[derive(Drop)]
struct Written {
    content: Vec<u8>,
    page_size: NonZeroU16,
    seal: Seal,
    file: Vec<u8>,
    list_file: Vec<u8>,
}

fn write_content(rt: &HostRuntime, page_size: u16, len: usize, key: u64) -> Result<Written, Fail> {
    let page_size = NonZeroU16::new(page_size).ok_or("no page size")?;
    let content = bytes_of(rt, len, key)?;
    let levels = levels_of::<PolyDigest>(rt.alloc(), &content, page_size)?;
    Ok(Written {
        page_size,
        seal: Seal {
            len: content.len() as u64,
            root: levels.root,
        },
        file: file_of(rt, &content, page_size)?,
        list_file: list_file_of(rt, &levels)?,
        content,
    })
}

fn kind(error: Error) -> &'static str {
    match error {
        Error::Damaged => "damaged",
        Error::System(_) => "system",
        Error::OutOfMemory => "memory",
    }
}

type Content = PagedContent<Memory, PolyDigest>;

// Opens what was written; `Err` has the kind of the error.
fn open(
    rt: &HostRuntime,
    seal: Seal,
    page_size: NonZeroU16,
    file: Vec<u8>,
    list_file: Vec<u8>,
) -> Result<Content, &'static str> {
    if seal.len >= page_digests::LEN_LIMIT {
        return Err("too long");
    }
    let (file, list_file) = (Memory::new(file), Memory::new(list_file));
    match Content::open(rt.alloc(), file, list_file, seal, page_size) {
        Ok(content) => Ok(content),
        Err(unopened) => Err(kind(unopened.error)),
    }
}

// How a read of a range ends: it is the content's, or it isn't, or its error.
fn read_of(
    rt: &HostRuntime,
    paged: &mut Content,
    content: &[u8],
    offset: usize,
    len: usize,
) -> &'static str {
    let Some(rest) = paged.len().checked_sub(offset as u64) else {
        return "outside";
    };
    if rest < len as u64 {
        return "outside";
    }
    match paged.read(rt.alloc(), offset as u64, len) {
        Ok(bytes) => match content.get(offset..offset.saturating_add(len)) {
            Some(range) if range == bytes.as_slice() => "read",
            _ => "other",
        },
        Err(error) => kind(error),
    }
}

// Reads ranges of a content that is whole, whose bounds lie before, at and behind those of pages.
fn ranges_read(rt: &HostRuntime, page_size: u16, len: usize) -> Result<bool, Fail> {
    let written = write_content(rt, page_size, len, 7)?;
    let size = usize::from(page_size);
    let mut paged = open(
        rt,
        written.seal,
        written.page_size,
        written.file,
        written.list_file,
    )?;
    if read_of(rt, &mut paged, &written.content, 0, len) != "read" {
        return Ok(false);
    }
    for offset in [
        0,
        1,
        size.saturating_sub(1),
        size,
        size.saturating_add(1),
        len / 2,
        len,
    ] {
        for count in [
            0,
            1,
            2,
            size,
            size.saturating_add(2),
            size.saturating_mul(2),
        ] {
            let offset = offset.min(len);
            let count = count.min(len.saturating_sub(offset));
            if read_of(rt, &mut paged, &written.content, offset, count) != "read" {
                return Ok(false);
            }
        }
    }
    Ok(true)
}

// Contents of no page, one page, and as many pages that the list has a page, or two, or more.
#[test]
fn what_is_whole_is_read(rt: HostRuntime) -> Result<(), Fail> {
    for (page_size, len) in [
        (40, 0),
        (40, 1),
        (40, 39),
        (40, 40),
        (40, 41),
        (40, 1250),
        (40, 4000),
        (5, 123),
        (1, 9),
        (4084, 0),
        (4084, 1),
        (4084, 4083),
        (4084, 4084),
        (4084, 4085),
        (4084, 127 * 4084),
        (4084, 128 * 4084),
        (4084, 129 * 4084 - 1),
        (4084, 260 * 4084 + 17),
    ] {
        assert!(rt;
            ranges_read(&rt, page_size, len)?,
            "{len} bytes by {page_size}"
        );
    }
    Ok(())
}

// What a read of 30 bytes from byte 50 on appends to some bytes.
fn appended(
    rt: &HostRuntime,
    paged: &mut PagedContent<Memory, PolyDigest>,
    front: &[u8],
) -> Result<Vec<u8>, Fail> {
    let mut bytes = Vec::from_slice(rt.alloc(), front)?;
    if paged.len() < 80 {
        return Err("short".into());
    }
    match paged.read_into(&mut bytes, 50, 30) {
        Ok(()) => Ok(bytes),
        Err(error) => Err(kind(error).into()),
    }
}

#[test]
fn a_range_is_appended(rt: HostRuntime) -> Result<(), Fail> {
    let written = write_content(&rt, 40, 123, 7)?;
    let mut paged = open(
        &rt,
        written.seal,
        written.page_size,
        written.file,
        written.list_file,
    )?;
    let bytes = appended(&rt, &mut paged, b"front")?;
    assert_eq!(rt; bytes.get(..5), Some(b"front".as_slice()));
    assert_eq!(rt; bytes.get(5..), written.content.get(50..80));
    Ok(())
}

// What is done to a content's files.
#[derive(Clone, Copy)]
enum Damage {
    None,
    InFile(usize),
    InList(usize),
    CutFile(usize),
    CutList(usize),
    OtherFile,
    OtherList,
}

fn flip(bytes: &mut Vec<u8>, at: usize) {
    if let Some(byte) = bytes.get_mut(at) {
        *byte ^= 0x10;
    }
}

fn apply(rt: &HostRuntime, written: &mut Written, done: Damage) -> Result<(), Fail> {
    match done {
        Damage::None => {}
        Damage::InFile(at) => flip(&mut written.file, at),
        Damage::InList(at) => flip(&mut written.list_file, at),
        Damage::CutFile(len) => written.file.truncate(len),
        Damage::CutList(len) => written.list_file.truncate(len),
        Damage::OtherFile => written.file = other(rt, written)?.file,
        Damage::OtherList => written.list_file = other(rt, written)?.list_file,
    }
    Ok(())
}

// Another content of the same length.
fn other(rt: &HostRuntime, to: &Written) -> Result<Written, Fail> {
    write_content(rt, to.page_size.get(), to.content.len(), 8)
}

// How a read of a range of a damaged content ends: 100 pages of 40 bytes, the last one of 13. The
// list has 3,200 bytes, in 80 pages, and the top 2,560.
fn read_damaged(
    rt: &HostRuntime,
    done: Damage,
    offset: usize,
    len: usize,
) -> Result<&'static str, Fail> {
    let mut written = write_content(rt, 40, 3973, 7)?;
    apply(rt, &mut written, done)?;
    match open(
        rt,
        written.seal,
        written.page_size,
        written.file,
        written.list_file,
    ) {
        Ok(mut paged) => Ok(read_of(rt, &mut paged, &written.content, offset, len)),
        Err(error) => Ok(error),
    }
}

#[test]
fn what_is_not_as_it_was_is_found(rt: HostRuntime) -> Result<(), Fail> {
    for (done, offset, len, want) in [
        (Damage::None, 0, 3973, "read"),
        // A byte of page 0, of those behind it, and behind the last page's 13.
        (Damage::InFile(39), 0, 1, "damaged"),
        (Damage::InFile(39), 40, 3933, "read"),
        (Damage::InFile(40), 0, 3973, "read"),
        (Damage::InFile(99 * 52 + 12), 3960, 13, "damaged"),
        (Damage::InFile(99 * 52 + 13), 3960, 13, "read"),
        // The digest of page 1 lies over the list's pages 0 and 1, that of page 2 behind page 0.
        (Damage::InList(0), 0, 40, "damaged"),
        (Damage::InList(0), 40, 40, "damaged"),
        (Damage::InList(0), 80, 3893, "read"),
        (Damage::InList(40), 40, 40, "damaged"),
        (Damage::InList(40), 0, 40, "read"),
        (Damage::InList(3199), 3960, 13, "damaged"),
        (Damage::InList(3199), 0, 3900, "read"),
        // The top.
        (Damage::InList(3200), 0, 1, "damaged"),
        (Damage::InList(5759), 0, 1, "damaged"),
        (Damage::InList(5760), 0, 1, "read"),
        // What is missing at the end.
        (Damage::CutFile(99 * 52 + 13), 0, 3973, "read"),
        (Damage::CutFile(99 * 52 + 12), 3960, 1, "system"),
        (Damage::CutFile(99 * 52 + 12), 0, 3960, "read"),
        (Damage::CutFile(0), 0, 1, "system"),
        (Damage::CutFile(0), 7, 0, "read"),
        (Damage::CutList(5760), 0, 3973, "read"),
        (Damage::CutList(5759), 0, 1, "system"),
        (Damage::CutList(0), 0, 1, "system"),
        // The files of another content.
        (Damage::OtherFile, 0, 1, "damaged"),
        (Damage::OtherList, 0, 1, "damaged"),
    ] {
        assert_eq!(rt; read_damaged(&rt, done, offset, len)?, want);
    }
    Ok(())
}

// Which pages of a damaged content are found sound: a letter for each.
fn pages_found(rt: &HostRuntime, done: Damage) -> Result<String, Fail> {
    let mut written = write_content(rt, 40, 239, 7)?;
    apply(rt, &mut written, done)?;
    let mut paged = open(
        rt,
        written.seal,
        written.page_size,
        written.file,
        written.list_file,
    )?;
    let mut found = String::new(rt.alloc());
    for page in 0..6 {
        let letter = if page < paged.page_count() {
            letter_of(paged.page_is_sound(page))
        } else {
            '?'
        };
        found.push(letter)?;
    }
    Ok(found)
}

fn letter_of(answer: Result<bool, Error>) -> char {
    match answer {
        Ok(true) => 's',
        Ok(false) => 'w',
        Err(Error::Damaged) => 'd',
        Err(_) => 'r',
    }
}

#[test]
fn each_wrong_page_is_named(rt: HostRuntime) -> Result<(), Fail> {
    for (done, want) in [
        (Damage::None, "ssssss"),
        (Damage::InFile(52), "swssss"),
        (Damage::InFile(5 * 52), "sssssw"),
        (Damage::OtherFile, "wwwwww"),
        (Damage::CutFile(4 * 52 + 39), "ssssrr"),
        // The list's page 1 has bytes of the digests 1 and 2.
        (Damage::InList(40), "sddsss"),
    ] {
        let found = pages_found(&rt, done)?;
        assert_eq!(rt; found.as_str(), want);
    }
    Ok(())
}

// How an opening, a read of three pages and a second one end, as reads of the content's file or of
// the list's are refused from number `from` on, up to number `until`.
fn read_refused(
    rt: &HostRuntime,
    in_list: bool,
    from: u64,
    until: u64,
) -> Result<(&'static str, &'static str), Fail> {
    let written = write_content(rt, 40, 3973, 7)?;
    let mut file = Memory::new(written.file);
    let mut list_file = Memory::new(written.list_file);
    let refusing = if in_list { &mut list_file } else { &mut file };
    refusing.refuse = from;
    refusing.until = until;
    if written.seal.len >= page_digests::LEN_LIMIT {
        return Ok(("long", "long"));
    }
    match Content::open(rt.alloc(), file, list_file, written.seal, written.page_size) {
        Ok(mut paged) => Ok((
            read_of(rt, &mut paged, &written.content, 50, 80),
            read_of(rt, &mut paged, &written.content, 50, 80),
        )),
        Err(unopened) => Ok(("unopened", kind(unopened.error))),
    }
}

#[test]
fn a_refusal_passes_by(rt: HostRuntime) -> Result<(), Fail> {
    let last = u64::MAX;
    for (in_list, from, until, want) in [
        (false, 0, 0, ("read", "read")),
        (false, 0, 1, ("system", "read")),
        (false, 2, 3, ("system", "read")),
        // The second read has page 3 still, and reads pages 1 and 2 again.
        (false, 3, 4, ("read", "system")),
        (false, 6, 7, ("read", "read")),
        (false, 0, last, ("system", "system")),
        (true, 0, 1, ("unopened", "system")),
        (true, 1, 2, ("system", "read")),
        (true, 1, last, ("system", "system")),
    ] {
        assert_eq!(rt;
            read_refused(&rt, in_list, from, until)?,
            want,
            "{in_list} {from}"
        );
    }
    Ok(())
}

// The levels of a content that is digested while it is written: `early` pages from its blob, the
// others from its file again, and the rest. Whether they are the same as those of all of it, and as
// those that are built again.
fn levels_agree(rt: &HostRuntime, len: usize, early: usize) -> Result<bool, Fail> {
    let mut written = write_content(rt, 40, len, 7)?;
    let alloc = rt.alloc();
    let mut digesting = Digesting::<PolyDigest>::new(alloc);
    let physical = usize::from(written.page_size.get()) + 12;
    for full in [early, len / 40] {
        if full < 1 << 32 && full * physical <= written.file.len() {
            catch_up(&mut digesting, &written.file, written.page_size, full)?;
        }
    }
    let rest = written.content.get(len / 40 * 40..).unwrap_or_default();
    let list = digesting.finish(rest)?;
    let levels = levels_of_list::<PolyDigest>(alloc, list, written.page_size)?;
    let mut file = Memory::new(written.file);
    written.file = Vec::new(alloc);
    if written.seal.len >= page_digests::LEN_LIMIT {
        return Ok(false);
    }
    let built = rebuild_levels::<Memory, PolyDigest>(
        alloc,
        &mut file,
        &written.seal,
        written.page_size,
    );
    let Ok(built) = built else {
        return Ok(false);
    };
    let parts = [
        levels.list.as_slice(),
        levels.top.as_slice(),
        built.list.as_slice(),
        built.top.as_slice(),
    ];
    let list_file = written.list_file.as_slice();
    Ok(
        levels.root == written.seal.root
            && built.root == written.seal.root
            && parts[0] == parts[2]
            && parts[1] == parts[3]
            && list_file.get(..parts[0].len()) == Some(parts[0])
            && list_file.get(parts[0].len()..) == Some(parts[1]),
    )
}

#[test]
fn levels_are_the_same_however_they_are_made(rt: HostRuntime) -> Result<(), Fail> {
    for (len, early) in [
        (0, 0),
        (1, 0),
        (39, 0),
        (40, 0),
        (41, 1),
        (4000, 0),
        (4000, 60),
        (4013, 100),
    ] {
        assert!(rt; levels_agree(&rt, len, early)?, "{len} {early}");
    }
    Ok(())
}

// How a rebuilding of the levels of a damaged content ends.
fn rebuilt(rt: &HostRuntime, done: Damage) -> Result<&'static str, Fail> {
    let mut written = write_content(rt, 40, 239, 7)?;
    apply(rt, &mut written, done)?;
    let mut file = Memory::new(written.file);
    if written.seal.len >= page_digests::LEN_LIMIT {
        return Ok("long");
    }
    match rebuild_levels::<Memory, PolyDigest>(
        rt.alloc(),
        &mut file,
        &written.seal,
        written.page_size,
    ) {
        Ok(_) => Ok("built"),
        Err(error) => Ok(kind(error)),
    }
}

#[test]
fn levels_are_not_built_of_another_content(rt: HostRuntime) -> Result<(), Fail> {
    for (done, want) in [
        (Damage::None, "built"),
        (Damage::CutList(0), "built"),
        (Damage::InFile(41), "built"),
        (Damage::InFile(39), "damaged"),
        (Damage::InFile(5 * 52 + 38), "damaged"),
        (Damage::OtherFile, "damaged"),
        (Damage::CutFile(5 * 52 + 38), "system"),
    ] {
        assert_eq!(rt; rebuilt(&rt, done)?, want);
    }
    Ok(())
}

// A buffer that a read adds to.
#[test]
fn a_buffer_stays_at_an_error(rt: HostRuntime) -> Result<(), Fail> {
    let mut written = write_content(&rt, 40, 239, 7)?;
    flip(&mut written.file, 52);
    let mut paged = open(
        &rt,
        written.seal,
        written.page_size,
        written.file,
        written.list_file,
    )?;
    let mut bytes = bytes_of(&rt, 3, 9)?;
    assert!(rt; paged.len() == 239);
    assert!(rt; paged.read_into(&mut bytes, 30, 30).is_err());
    assert_eq!(rt; bytes.len(), 3);
    assert!(rt; paged.read_into(&mut bytes, 30, 10).is_ok());
    assert_eq!(rt; bytes.get(3..), written.content.get(30..40));
    Ok(())
}
