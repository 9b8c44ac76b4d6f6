// The commands and their options.
use clap::builder::ValueParser;
use clap::{Arg, ArgAction, Command, value_parser};
use std::alloc::{AllocError, Global};

/// The version of the program.
pub const VERSION: &str = "0.13.0";

/// The greatest buffer, and the most pages of a cache.
const MOST: i64 = 0xFFFF_FFFF;

/// The exit statuses, as `status.rt` has them.
const STATUSES: &str = "\
Exit status:
  0    done; all that the file holds is whole, and in what was answered
  1    it couldn't be done: the file, the input, the output, memory or the command line
  2    the input of serve or serve-log isn't requests
  3    the file or the log isn't whole, or is refused; nothing was cut
  141  the output was closed by its reader";

/// The commands, and what each does.
const COMMANDS: [(&str, &str); 13] = [
    ("serve", "serves FILE, and makes it where it is missing"),
    (
        "serve-log",
        "serves the log in FOLDER, and makes FOLDER where it is missing",
    ),
    (
        "append",
        "appends standard input to FILE, durably, and makes FILE where it is missing",
    ),
    (
        "check",
        "tells what a recovery would keep and cut, and which pages or segments don't verify",
    ),
    (
        "map",
        "draws the pages of FILE, or the segments of a log's folder, one mark each",
    ),
    (
        "where",
        "tells where the log in FOLDER begins and ends, and what its segments have",
    ),
    (
        "nth",
        "tells where record N of segment SEGMENT of the log in FOLDER stands",
    ),
    (
        "cat",
        "writes the content of FILE, or the records of a log's folder, a line each",
    ),
    (
        "salvage",
        "puts all that verifies, also after a bad page, into a new blob OUT, or all records of a \
         log's folder that fit into a new log OUT",
    ),
    (
        "rebuild",
        "makes the manifest of the log in FOLDER anew, if its segments are whole",
    ),
    (
        "copy",
        "copies the log in FOLDER, also one that is served, to OUT, or brings a copy up to date",
    ),
    (
        "rewrite",
        "puts a synced copy of FILE, or of each file of a log's folder, in its place",
    ),
    ("version", "prints the version"),
];

/// What follows an option's name. A word without a name stands on the command line by itself.
#[derive(Clone, Copy)]
enum Takes {
    /// The option has no name, and is one word.
    Word,
    /// The option has no name, and is any number of words.
    Words,
    /// Nothing.
    Nothing,
    /// A number.
    Number,
    /// The option has no name, and is a number.
    NumberAlone,
    /// A number of bytes or pages, at least one.
    Size,
    /// A number of bytes, at least one, and as great as a number may be.
    Length,
    /// The content bytes of a page.
    PageSize,
    /// The name of a checksum function.
    Checksum,
    /// The name of a digest.
    Digest,
}

/// An option, and the commands that have it. `pagedd` stands for a command line without a command.
#[derive(Clone, Copy)]
struct Row {
    name: &'static str,
    takes: Takes,
    default: Option<&'static str>,
    help: &'static str,
    commands: &'static [&'static str],
}

/// The options, in the order in which help has them.
const ROWS: [Row; 26] = [
    Row {
        name: "FILE",
        takes: Takes::Word,
        default: None,
        help: "the file of the blob",
        commands: &["pagedd", "serve", "append"],
    },
    Row {
        name: "FILE",
        takes: Takes::Word,
        default: None,
        help: "the file of the blob, or the folder of a log",
        commands: &["check", "map", "cat", "salvage", "rewrite"],
    },
    Row {
        name: "FOLDER",
        takes: Takes::Word,
        default: None,
        help: "the folder of the log",
        commands: &["serve-log", "where", "nth", "rebuild", "copy"],
    },
    Row {
        name: "SEGMENT",
        takes: Takes::NumberAlone,
        default: None,
        help: "the number of the segment",
        commands: &["nth"],
    },
    Row {
        name: "N",
        takes: Takes::NumberAlone,
        default: None,
        help: "the number of the record in its segment, from 0 on",
        commands: &["nth"],
    },
    Row {
        name: "page-size",
        takes: Takes::PageSize,
        default: Some("4084"),
        help: "the content bytes of a page",
        commands: &WITH_PAGES,
    },
    Row {
        name: "checksum",
        takes: Takes::Checksum,
        default: Some("crc32c"),
        help: "the checksum of a page, and of a record of a log",
        commands: &WITH_PAGES,
    },
    Row {
        name: "buffer",
        takes: Takes::Size,
        default: Some("65536"),
        help: "the bytes that are held back, and those of a read",
        commands: &WITH_PAGES,
    },
    Row {
        name: "digest",
        takes: Takes::Digest,
        default: Some("sha512-256"),
        help: "the digest of the pages of a log's closed segments",
        commands: &[
            "serve-log",
            "check",
            "map",
            "where",
            "nth",
            "cat",
            "salvage",
            "rebuild",
            "copy",
        ],
    },
    Row {
        name: "segment-size",
        takes: Takes::Length,
        default: Some("67108864"),
        help: "from how many content bytes on a segment of a log is closed",
        commands: &["serve-log", "salvage"],
    },
    Row {
        name: "OUT",
        takes: Takes::Word,
        default: None,
        help: "a file that isn't there yet; of a log, a folder that isn't there yet, or is empty",
        commands: &["salvage"],
    },
    Row {
        name: "OUT",
        takes: Takes::Word,
        default: None,
        help: "the folder of the copy",
        commands: &["copy"],
    },
    Row {
        name: "CUT",
        takes: Takes::Words,
        default: None,
        help: "files with what was cut from FILE, whose pages follow those of FILE",
        commands: &["salvage"],
    },
    Row {
        name: "cache",
        takes: Takes::Size,
        default: Some("1024"),
        help: "the pages that may be held in memory",
        commands: &WITH_WRITER,
    },
    Row {
        name: "cut",
        takes: Takes::Nothing,
        default: None,
        help: "recovers a file that would be refused; what is cut is kept beside it",
        commands: &WITH_WRITER,
    },
    Row {
        name: "cut-limit",
        takes: Takes::Number,
        default: Some("1048576"),
        help: "how many bytes may go although a page among them has a value",
        commands: &["pagedd", "serve", "serve-log", "append", "check"],
    },
    Row {
        name: "read-only",
        takes: Takes::Nothing,
        default: None,
        help: "serves a copy in memory as it would be recovered, and changes no file",
        commands: &["pagedd", "serve", "serve-log"],
    },
    Row {
        name: "create",
        takes: Takes::Nothing,
        default: None,
        help: "makes FILE where it is missing, as pagedd serve does",
        commands: &["pagedd"],
    },
    Row {
        name: "each-line",
        takes: Takes::Nothing,
        default: None,
        help: "makes each line durable before it waits for the next",
        commands: &["append"],
    },
    Row {
        name: "from",
        takes: Takes::Number,
        default: None,
        help: "the first page, or segment",
        commands: &["map", "where"],
    },
    Row {
        name: "to",
        takes: Takes::Number,
        default: None,
        help: "the page or segment before which it ends",
        commands: &["map", "where"],
    },
    Row {
        name: "from",
        takes: Takes::Number,
        default: None,
        help: "the offset of the first byte of a file's content",
        commands: &["cat"],
    },
    Row {
        name: "len",
        takes: Takes::Number,
        default: None,
        help: "how many bytes at most of a file's content",
        commands: &["cat"],
    },
    Row {
        name: "long",
        takes: Takes::Nothing,
        default: None,
        help: "a line for each page or segment, with what is known of it",
        commands: &["map"],
    },
    Row {
        name: "dropped",
        takes: Takes::Nothing,
        default: None,
        help: "takes the records of segments that were dropped, and whose files were left, too",
        commands: &["salvage"],
    },
    Row {
        name: "json",
        takes: Takes::Nothing,
        default: None,
        help: "prints one JSON object; of salvage, for a log alone",
        commands: &["check", "map", "where", "salvage"],
    },
];

/// The commands that are about a file or a folder.
const WITH_PAGES: [&str; 12] = [
    "pagedd",
    "serve",
    "serve-log",
    "append",
    "check",
    "map",
    "where",
    "nth",
    "cat",
    "salvage",
    "rebuild",
    "copy",
];

/// The commands that may write to a file or a folder.
const WITH_WRITER: [&str; 4] = ["pagedd", "serve", "serve-log", "append"];

/// The command line.
pub fn command<'a>(alloc: Global) -> Result<Command<'a>, AllocError> {
    let options = options_of(alloc, &ROWS, "pagedd")?;
    let commands = all_commands(alloc)?;
    Command::new(alloc, "pagedd")
        .about(
            "serves a paged blob over a file, or a log in a folder, to one client, and looks at them",
        )
        .version(VERSION)
        .after_help(STATUSES)
        .args_conflicts_with_subcommands(true)
        .args(options)?
        .subcommands(commands)
}

// All commands, each with its options.
fn all_commands<'a>(alloc: Global) -> Result<Vec<Command<'a>>, AllocError> {
    let mut commands = Vec::new(alloc);
    for (name, about) in COMMANDS {
        commands.push(with_options(alloc, name, about)?)?;
    }
    Ok(commands)
}

fn with_options<'a>(
    alloc: Global,
    name: &'a str,
    about: &'a str,
) -> Result<Command<'a>, AllocError> {
    let options = options_of(alloc, &ROWS, name)?;
    Command::new(alloc, name).about(about).args(options)
}

// The options of the command with this name, which are those of the rows that name it.
fn options_of<'a>(alloc: Global, rows: &[Row], name: &str) -> Result<Vec<Arg<'a>>, AllocError> {
    let mut options = Vec::new(alloc);
    for row in rows {
        if row.commands.iter().any(|other| *other == name) {
            options.push(option_of(alloc, *row))?;
        }
    }
    Ok(options)
}

// The option of a row.
fn option_of<'a>(alloc: Global, row: Row) -> Arg<'a> {
    let option = Arg::new(alloc, row.name).help(row.help);
    let option = match row.default {
        Some(default) => option.default_value(default),
        None => option,
    };
    match row.takes {
        Takes::Word => option.required(true),
        Takes::Words => option.num_args(0..).action(ArgAction::Append),
        Takes::Nothing => option.long(row.name).action(ArgAction::SetTrue),
        Takes::NumberAlone => option.required(true).value_parser(value_parser!(u64)),
        Takes::Number => with_number(option, row.name, value_parser!(u64)),
        Takes::Size => with_number(option, row.name, value_parser!(usize).range(1..=MOST)),
        Takes::Length => with_number(option, row.name, value_parser!(u64).range(1..)),
        Takes::PageSize => with_number(option, row.name, value_parser!(u16).range(1..)),
        Takes::Checksum => option
            .long(row.name)
            .value_parser(["add", "crc32c"].as_slice()),
        Takes::Digest => option
            .long(row.name)
            .value_parser(["sha512-256", "poly61"].as_slice()),
    }
}

// The option with this name, which a number follows.
fn with_number<'a>(option: Arg<'a>, name: &'a str, number: ValueParser<'a>) -> Arg<'a> {
    option.long(name).value_name("N").value_parser(number)
}
