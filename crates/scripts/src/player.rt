// Playing a script, from its bytes to its replies.
ghost use Rattle.std.specs.Prelude.{◌≡◌, ◌<◌, [], ℕ, IfSome};
ghost use Rattle.std.specs.Io.KnownBytes.{Keeps};
ghost use Rattle.scripts.specs.Play.{Plays, IsScript, IsNoScript};

use crate::explain::explain;
use crate::item_line::ItemLine;
use crate::items_stage::ItemStage;
use crate::script::{Line, Script, parse};
use crate::stage::Stage;
use crate::start::{ItemStart, Start, SumName};
use crate::stop::Stop;
use crc32c::Crc32c;
use page::{AddSum, ConstSum, Sum};
use std::alloc::Global;
use std::io;
use std::io::{BufWriter, Read, Write};

/// Plays the script that `input` holds, writes its replies to `out`, and answers the exit status: 0
/// at the end of the script, 2 if a line can't be read, and 1 if the input, the output or memory
/// failed. With 2 nothing is played.
///
/// With 1 or 2 it writes to `err` why, and with 2 also what was expected of the line.
pub fn play_on<R: Read, W: Write, E: Write>(
    alloc: Global,
    input: &mut R,
    out: &mut W,
    err: &mut E,
) -> u8
    ensures status { result < 3 }
    ensures played { result ≡ 0 → IfSome (R.remaining input.old) IsScript }
    ensures unreadable { result ≡ 2
        → IfSome (R.remaining input.old) (λ bytes. (number : ℕ) × IsNoScript number bytes) }
    ensures nothing { result ≡ 2 → Keeps (W.contents out.old) (W.contents out.new) }
{
    let mut text = Vec::new(alloc);
    match play_input(alloc, input, &mut text, out) {
        Ok(()) => 0,
        Err(stop) => {
            let _ = say(alloc, stop, &text, err);
            stop.status()
        }
    }
}

/// [`play_on`] with a reader and writers that the call takes and drops.
pub fn play<R: Read + Drop, W: Write + Drop, E: Write + Drop>(
    alloc: Global,
    mut input: R,
    mut out: W,
    mut err: E,
) -> u8
    ensures status { result < 3 }
    ensures played { result ≡ 0 → IfSome (R.remaining input) IsScript }
    ensures unreadable { result ≡ 2
        → IfSome (R.remaining input) (λ bytes. (number : ℕ) × IsNoScript number bytes) }
{
    play_on(alloc, &mut input, &mut out, &mut err)
}

// Writes why the script with this text stops. If a line of the script can't be read, a second line
// says what is wrong with that one.
fn say<E: Write>(alloc: Global, stop: Stop, text: &[u8], err: &mut E) -> io::Result<()> {
    writeln!(err, "{stop}")?;
    match stop {
        Stop::Unreadable(number) => explain(alloc, text, number, err),
        Stop::Failed => Ok(()),
    }
}

// Reads the input into `text`, and plays it as a script.
fn play_input<R: Read, W: Write>(
    alloc: Global,
    input: &mut R,
    text: &mut Vec<u8>,
    out: &mut W,
) -> Result<(), Stop>
    requires { text.old.items ≡ [] }
    ensures { Plays (R.remaining input.old) (W.contents out.old) (W.contents out.new) result }
{
    input.read_to_end(text)?;
    let script = parse(alloc, text)?;
    play_script(alloc, script, out)?;
    Ok(())
}

fn play_script<W: Write>(alloc: Global, script: Script, out: &mut W) -> io::Result<()> {
    let mut out = BufWriter::new(alloc, out)?;
    match script.sum() {
        SumName::Add => play_over::<AddSum, _>(alloc, script, &mut out),
        SumName::Const => play_over::<ConstSum, _>(alloc, script, &mut out),
        SumName::Crc32c => play_over::<Crc32c, _>(alloc, script, &mut out),
    }
}

fn play_over<H: Sum, W: Write>(alloc: Global, script: Script, out: &mut W) -> io::Result<()> {
    match script {
        Script::Session(start, lines) => play_session::<H, W>(alloc, start, lines, out),
        Script::Items(start, lines) => play_items::<H, W>(alloc, start, lines, out),
    }
}

// Plays the lines of a script of a session. Each line's reply is out before the next line is
// played.
fn play_session<H: Sum, W: Write>(
    alloc: Global,
    start: Start,
    lines: Vec<Line>,
    out: &mut W,
) -> io::Result<()> {
    let mut stage = Stage::<H>::new(alloc, start);
    stage.open(out)?;
    out.flush()?;
    for line in lines {
        stage.play(line, out)?;
        out.flush()?;
    }
    Ok(())
}

// Plays the lines of a script of items. Each line's reply is out before the next line is played.
fn play_items<H: Sum, W: Write>(
    alloc: Global,
    start: ItemStart,
    lines: Vec<ItemLine>,
    out: &mut W,
) -> io::Result<()> {
    let mut stage = ItemStage::<H>::new(alloc, start);
    stage.open(out)?;
    out.flush()?;
    for line in lines {
        stage.play(line, out)?;
        out.flush()?;
    }
    Ok(())
}
