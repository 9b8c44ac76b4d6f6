// Serving another program: requests as bytes, and their answers.
use crate::digest::Digest;
use crate::open::survey_once;
use crate::random::{Random, Records};
use crate::stage::Plan;
use anyhow::{Result, bail};
use disk::VecBlob;
use page::Sum;
use protocol::{Setting, Stop, serve_file};
use std::alloc::{AllocError, Global};
use std::io::{BufReader, BufWriter, Read, Write};

/// The requests of a client that goes on over what it has appended.
#[derive(Drop)]
pub struct Client {
    pub bytes: Vec<u8>,
    /// How many logical bytes the client can read, as far as it knows, and how many syncs,
    /// snapshots and replays it has begun.
    size: u64,
    starts: u64,
    snapshots: u64,
    replays: u64,
}

/// The version, and the kinds of requests.
const VERSION: u8 = 1;

const APPEND: u8 = 1;

const SYNC: u8 = 2;

const START_SYNC: u8 = 3;

const WAIT_SYNC: u8 = 4;

const SIZE: u8 = 5;

const READ: u8 = 6;

const READ_UP_TO: u8 = 7;

const BEGIN: u8 = 8;

const SNAPSHOT: u8 = 10;

const SNAP: u8 = 11;

const REPLAY: u8 = 12;

const ENSURE: u8 = 13;

const TAKE: u8 = 14;

impl Client {
    /// A client of a content of `size` logical bytes, which has sent its version and ended the
    /// recovery.
    pub fn new(alloc: Global, size: u64) -> Result<Self, AllocError> {
        let mut bytes = Vec::new(alloc);
        bytes.push(VERSION)?;
        let mut client = Client {
            bytes,
            size,
            starts: 0,
            snapshots: 0,
            replays: 0,
        };
        client.ask(BEGIN, &[])?;
        Ok(client)
    }

    // Sends a request with these fields.
    fn ask(&mut self, kind: u8, fields: &[u64]) -> Result<(), AllocError> {
        let len = fields.len().saturating_mul(8).min(64) as u32 + 1;
        self.bytes.extend_from_slice(&len.to_le_bytes())?;
        self.bytes.push(kind)?;
        for field in fields {
            self.bytes.extend_from_slice(&field.to_le_bytes())?;
        }
        Ok(())
    }

    // Appends a record.
    fn append(&mut self, record: &[u8]) -> Result<(), AllocError> {
        let len = record.len().min(65_535) as u32 + 1;
        self.bytes.extend_from_slice(&len.to_le_bytes())?;
        self.bytes.push(APPEND)?;
        self.bytes.extend_from_slice(record)?;
        self.size = self.size.saturating_add(record.len() as u64);
        Ok(())
    }

    // Reads at random: 100 bytes mostly, and at most 64 KiB.
    fn read(&mut self, kind: u8, random: &mut Random) -> Result<(), AllocError> {
        let len = 100u64.wrapping_shl(random.below(10).min(9) as u32 / 3 * 3);
        let offset = random.hot(self.size.saturating_sub(len));
        let len = len.min(self.size.saturating_sub(offset));
        self.ask(kind, &[offset, len])
    }

    // Appends a record, starts a sync, appends the record again, and waits for the sync.
    fn start(&mut self, record: &[u8]) -> Result<(), AllocError> {
        self.append(record)?;
        self.ask(START_SYNC, &[])?;
        self.append(record)?;
        self.ask(WAIT_SYNC, &[self.starts])?;
        self.starts = self.starts.saturating_add(1);
        Ok(())
    }

    // Keeps a snapshot, and reads of it.
    fn snapshot(&mut self, random: &mut Random) -> Result<(), AllocError> {
        self.ask(SNAPSHOT, &[])?;
        let len = 1000.min(self.size);
        for _ in 0..16 {
            let offset = random.hot(self.size.saturating_sub(len));
            self.ask(SNAP, &[self.snapshots, offset, len])?;
        }
        self.snapshots = self.snapshots.saturating_add(1);
        Ok(())
    }

    // Goes over the content from its first byte on, up to a megabyte.
    fn replay(&mut self) -> Result<(), AllocError> {
        self.ask(REPLAY, &[65_536])?;
        for _ in 0..256 {
            self.ask(ENSURE, &[self.replays, 4096])?;
            self.ask(TAKE, &[self.replays, 4096])?;
        }
        self.replays = self.replays.saturating_add(1);
        Ok(())
    }

    /// Asks for a sync.
    pub fn sync(&mut self) -> Result<(), AllocError> {
        self.ask(SYNC, &[])
    }

    /// Sends the next few requests.
    pub fn go_on(&mut self, number: u64, records: &mut Records) -> Result<(), AllocError> {
        if number % 1024 == 1023 {
            self.snapshot(&mut records.random)?;
        }
        if number % 4096 == 4095 {
            self.replay()?;
        }
        match records.random.below(16) {
            0..=6 => self.append(records.next()),
            7 => self.sync(),
            8 => self.start(records.next()),
            9..=13 => self.read(READ, &mut records.random),
            14 => self.read(READ_UP_TO, &mut records.random),
            _ => self.ask(SIZE, &[]),
        }
    }
}

/// Plays the workload, and answers how often a client went on.
pub fn play_serve<H: Sum>(alloc: Global, plan: &Plan, digest: &mut Digest) -> Result<u64> {
    let mut records = Records::new(alloc, plan.seed, 5)?;
    let count = plan.bytes / 250;
    let setting = setting_of(plan, 0);
    let mut answers = Vec::new(alloc);
    for _ in 0..plan.rounds {
        let mut client = Client::new(alloc, 0)?;
        for number in 0..count {
            client.go_on(number, &mut records)?;
        }
        let mut blob = VecBlob::new(alloc);
        answers = serve_once::<H>(alloc, &mut blob, &setting, &client.bytes, answers, digest)?;
        digest.bytes(blob.bytes());
    }
    Ok(plan.rounds.saturating_mul(count))
}

/// How a blob is served of which a recovery may give up `allowed` physical bytes.
pub fn setting_of(plan: &Plan, allowed: u64) -> Setting {
    Setting {
        page_size: plan.page_size,
        allowed,
        ..Setting::default()
    }
}

/// Serves a blob, and returns the memory that the answers took, for those of the next blob. A
/// session that ends before its last request is an error.
pub fn serve_once<H: Sum>(
    alloc: Global,
    blob: &mut VecBlob,
    setting: &Setting,
    requests: &[u8],
    mut answers: Vec<u8>,
    digest: &mut Digest,
) -> Result<Vec<u8>> {
    answers.clear();
    let mut input = BufReader::new(alloc, requests)?;
    let mut out = BufWriter::new(alloc, answers)?;
    match serve_asked::<H, _, _>(alloc, blob, setting, &mut input, &mut out, digest)? {
        Ok(()) => digest.number(0),
        Err(stop) => bail!("the session ended early: {stop}"),
    }
    if input.read(&mut [0; 1])? != 0 {
        bail!("the session ended before its last request");
    }
    out.flush()?;
    let (answers, _) = out.into_parts();
    digest.bytes(&answers);
    Ok(answers)
}

// Serves a blob. If a recovery would give up more than the setting allows, the blob is surveyed,
// and then served with a setting that allows so much.
fn serve_asked<H: Sum, R: Read, W: Write + Drop>(
    alloc: Global,
    blob: &mut VecBlob,
    setting: &Setting,
    input: &mut BufReader<R>,
    out: &mut BufWriter<W>,
    digest: &mut Digest,
) -> Result<Result<(), Stop>> {
    let served = serve_file::<VecBlob, H, R, W>(alloc, blob, setting, "add", "", input, out);
    let Err(Stop::WouldCut(allowed)) = served else {
        return Ok(served);
    };
    digest.number(allowed);
    survey_once::<H>(alloc, blob, setting.page_size, setting.buffer_size, digest)?;
    let setting = Setting {
        allowed,
        ..*setting
    };
    Ok(serve_file::<VecBlob, H, R, W>(alloc, blob, &setting, "add", "", input, out))
}
