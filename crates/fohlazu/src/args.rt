//! The arguments of the program.

ghost use Rattle.std.specs.Prelude.{IfOk, ◌≡◌, ◌≤◌};
ghost use Rattle.fohlazu.specs.declared.args.Request.TheVariants.{Run};
ghost use Rattle.fohlazu_commands.specs.Commands.{IsWellFormed};

use crate::input::{Input, RunState};
use crate::many::{MANY, Many, Range, count_of, numbers_in};
use crate::output::is_same_file;
use clap::{Arg, ArgMatches, Command as Syntax, arg, value_parser};
use fohlazu_commands::command::MAX_BLOCK_BYTES;
use fohlazu_commands::prove::MAX_ENTRIES_PER_PROOF;
use fohlazu_commands::{
    Command, Framing, PART_ORIGIN, PartialLine, Print, Requested, SIZE_LIMIT, Source,
};
use std::alloc::{AllocError, Global};
use std::fmt;
use std::fmt::{Display, Formatter, Write};
use std::path::Path;
use thiserror::Error;

/// The version of the programs and of the libraries. The Makefile reads it here.
const VERSION: &str = "0.1.0";

/// The commands, each with what it does, an example and the words of its arguments. See [`argument`].
const COMMANDS: [(&str, &str, &str, &str); 6] = [
    (
        "seal",
        "Prints the checkpoint of a file: origin, count and root",
        "Example: fohlazu seal --origin journal.example log -o checkpoint",
        "origin part blocks whole-lines partial output quiet FILE",
    ),
    (
        "prove",
        "Prints a proof of entries of a file",
        "Example: fohlazu prove checkpoint log 3 -o proof",
        "blocks whole-lines partial output quiet CHECKPOINT FILE NUMBER!",
    ),
    (
        "verify",
        "Verifies a proof of entries, and prints them",
        "No signature is checked. Example: fohlazu verify checkpoint proof 3",
        "blocks raw output CHECKPOINT PROOF NUMBER",
    ),
    (
        "prove-consistency",
        "Prints a proof that a log begins with its old entries",
        "Example: fohlazu prove-consistency old new log -o proof",
        "blocks whole-lines partial output quiet OLD NEW FILE",
    ),
    (
        "verify-consistency",
        "Verifies a consistency proof, and prints the new checkpoint",
        "No signature is checked. Example: fohlazu verify-consistency old proof -o new",
        "output OLD PROOF",
    ),
    (
        "join",
        "Prints the checkpoint of a file from its sealed parts",
        "Example: fohlazu join --origin journal.example part1 part2 -o checkpoint",
        "origin! output PART",
    ),
];

/// Why no command is run.
#[derive(Debug, Drop, Error)]
pub(crate) enum ArgsError<'a> {
    /// The arguments are not as the help says, or they ask for it.
    #[error("{0}")]
    Clap(#[from] clap::Error),
    #[error("{0}")]
    Refused(&'static str),
    #[error("{0}: {1}")]
    Word(Escaped<'a>, &'static str),
    #[error("out of memory")]
    OutOfMemory(#[from(alloc)] AllocError),
}

/// An argument that prints without what a terminal acts on: those characters are escaped.
#[derive(Clone, Copy, Debug)]
pub(crate) struct Escaped<'a>(pub(crate) &'a str);

impl Display for Escaped<'_> {
    fn fmt<W: Write>(&self, f: &mut Formatter<W>) -> fmt::Result {
        for c in self.0.chars() {
            if is_escaped(c) {
                write!(f, "{}", c.escape_default())?;
            } else {
                f.write_char(c)?;
            }
        }
        Ok(())
    }
}

/// Whether a character is escaped where it is printed: a control character, up to U+001F or from U+007F to U+009F, or
/// one that sets the direction of text (Unicode's Bidi_Control).
fn is_escaped(c: char) -> bool {
    let sets_direction = matches!(
        c,
        '\u{61c}' | '\u{200e}' | '\u{200f}' | '\u{202a}'..='\u{202e}' | '\u{2066}'..='\u{2069}'
    );
    c.is_control() || sets_direction
}

/// What the arguments ask for.
#[derive(Drop)]
pub(crate) enum Request<'a> {
    /// To run this command.
    Run(Command<Input<'a>>),
    /// To prove entries that may be many: their numbers are made once the file is known to have them.
    ProveMany(Many),
}

/// The arguments of a command, as far as they are not in it: what its inputs are called, and where its output goes.
#[derive(Drop)]
pub(crate) struct Args<'a> {
    pub(crate) rt: &'a HostRuntime,
    found: ArgMatches<'a>,
    pub(crate) state: &'a RunState,
}

/// Reads the arguments: what they ask for, and what the inputs are called. `state` takes what happens while they are
/// read.
///
/// # Errors
///
/// The first of these that applies, where `OutOfMemory` may come at any time:
///
/// - `Word` for the first argument that begins with `-` and is no option of the command;
/// - `Clap` if the arguments are not as the help says, or ask for it;
/// - `Refused` if no command is given, or `-` is more than one input;
/// - `Word` for the first input that is the output too;
/// - `Word` for the first number or range that is none, or that makes the numbers more than `MAX_ENTRIES_PER_PROOF`;
/// - `Refused` if the command cannot be run: see [`Command::is_well_formed`].
pub(crate) fn parse_args<'a>(
    rt: &'a HostRuntime,
    state: &'a RunState,
    words: &'a [String],
) -> Result<(Request<'a>, Args<'a>), ArgsError<'a>>
    ensures { IfOk result (λ (request, args). (command : _) → request ≡ Run command → IsWellFormed command) }
{
    let alloc = rt.alloc();
    check_options(words)?;
    let mut matches = program(alloc)
        .map_err(clap::Error::from)?
        .try_get_matches_from(words)?;
    let Some((name, found)) = matches.remove_subcommand() else {
        return Err(ArgsError::Refused("a command is wanted"));
    };
    let args = Args { rt, found, state };
    args.check_inputs(alloc)?;
    let request = args.request(alloc, name)?;
    Ok((request, args))
}

/// Checks that a command is well formed, else `Refused` says what is wrong about it.
fn check_command<'a>(command: &Command<Input<'_>>) -> Result<(), ArgsError<'a>>
    ensures { IfOk result (λ ok. IsWellFormed command.now) }
{
    if !command.is_well_formed() {
        let why = if matches!(command, Command::Verify { .. }) {
            "--raw takes the number of one entry, and --blocks takes numbers or all"
        } else {
            "an origin has 1 to 999934 bytes, no byte order mark, no character below U+0020, \
             no space first or last: --origin sets it"
        };
        return Err(ArgsError::Refused(why));
    }
    Ok(())
}

/// Checks that each of `words` that begins with `-` is an option of the command, else `Word` for the first that is
/// none. What clap says of others misleads.
fn check_options(words: &[String]) -> Result<(), ArgsError<'_>> {
    let command = words.get(1).map_or("", |word| word.as_str());
    let row = COMMANDS.into_iter().find(|row| row.0 == command);
    // Where there is no such command, `--version` is an option.
    let ids = row.map_or("version", |row| row.3);
    let words = words.iter().skip(1).map(|word| word.as_str());
    for word in words.take_while(|word| *word != "--") {
        if word.len() > 1 && word.starts_with('-') && !is_option(word, ids) {
            let why =
                "no such option here, and no number: a file of this name is `./` and the name";
            return Err(ArgsError::Word(Escaped(word), why));
        }
    }
    Ok(())
}

/// Whether `word` is one of the options `ids`, names with spaces between, or asks for help.
fn is_option(word: &str, ids: &str) -> bool {
    let name = match word.split('=').next() {
        Some("-h") => "--help",
        Some("-o") => "--output",
        Some("-V") => "--version",
        name => name.unwrap_or(""),
    };
    name == "--help"
        || ids.split(' ').any(|id| name.strip_prefix("--") == Some(id.trim_end_matches('!')))
}

impl<'a> Args<'a> {
    /// The name that the user gave to an input; none if the command has no such input.
    pub(crate) fn name_of(&self, source: Source) -> &'a str {
        let (id, k) = match source {
            Source::Checkpoint => ("CHECKPOINT", 0),
            Source::Old => ("OLD", 0),
            Source::New => ("NEW", 0),
            Source::Part(k) => ("PART", k),
            Source::File => ("FILE", 0),
            Source::Proof => ("PROOF", 0),
        };
        let names = self.found.get_strs(id);
        names.and_then(|names| names.get(k).copied()).unwrap_or("")
    }

    /// What the command `name`, which must be one of `COMMANDS`, asks for by the arguments that were found. The errors
    /// are the last two of [`parse_args`]; `OutOfMemory` if memory runs out.
    fn request(&self, alloc: Global, name: &str) -> Result<Request<'a>, ArgsError<'a>>
        ensures { IfOk result (λ request. (command : _) → request ≡ Run command → IsWellFormed command) }
    {
        if name == "prove" {
            if let Some(many) = self.many(alloc)? {
                return Ok(Request::ProveMany(many));
            }
        }
        let command = self.command(alloc, name)?;
        check_command(&command)?;
        Ok(Request::Run(command))
    }

    /// The command `name`, which must be one of `COMMANDS`, by the arguments that were found. It may be one that is not
    /// well formed. The errors are those of [`request`](Self::request) without `Refused`.
    fn command(&self, alloc: Global, name: &str) -> Result<Command<Input<'a>>, ArgsError<'a>> {
        Ok(match name {
            "seal" => Command::Seal {
                origin: self.origin(alloc)?,
                framing: self.framing(),
                file: self.input("FILE"),
            },
            "prove" => Command::Prove {
                framing: self.framing(),
                checkpoint: self.checkpoint("CHECKPOINT"),
                file: self.input("FILE"),
                numbers: self.numbers(alloc)?,
            },
            "verify" => Command::Verify {
                print: self.print(),
                checkpoint: self.checkpoint("CHECKPOINT"),
                proof: self.input("PROOF"),
                entries: self.requested(alloc)?,
            },
            "prove-consistency" => Command::ProveConsistency {
                framing: self.framing(),
                old: self.checkpoint("OLD"),
                new: self.checkpoint("NEW"),
                file: self.input("FILE"),
            },
            "verify-consistency" => Command::VerifyConsistency {
                old: self.checkpoint("OLD"),
                proof: self.input("PROOF"),
            },
            // The table of commands has no other name than `join`.
            _ => Command::Join {
                origin: self.origin(alloc)?,
                parts: self.parts(alloc)?,
            },
        })
    }

    /// The file that is written, if it is not standard output.
    pub(crate) fn output(&self) -> Option<&'a str> {
        self.found.get_str("output").filter(|name| *name != "-")
    }

    /// Checks that at most one input is standard input, else `Refused`; and that no input is the output, else `Word`
    /// for the first that is; `OutOfMemory` if memory runs out.
    fn check_inputs(&self, alloc: Global) -> Result<(), ArgsError<'a>> {
        let mut names = Vec::new(alloc);
        for id in ["CHECKPOINT", "OLD", "NEW", "FILE", "PROOF", "PART"] {
            names.extend_from_slice(self.found.get_strs(id).unwrap_or(&[]))?;
        }
        if names.iter().filter(|name| **name == "-").count() > 1 {
            return Err(ArgsError::Refused("`-` is standard input, once at most"));
        }
        let (output, why) = match self.output() {
            Some(name) => (name, "it is the output too: choose another output"),
            None => {
                (
                    "/dev/stdout",
                    "it is the output too, which `>` empties: choose another output",
                )
            }
        };
        for name in names {
            let input = if name == "-" { "/dev/stdin" } else { name };
            if is_same_file(self.rt, output, input) {
                return Err(ArgsError::Word(Escaped(name), why));
            }
        }
        Ok(())
    }

    /// The input of the argument `id`. That of `FILE` shows its progress, unless `--quiet` is given.
    pub(crate) fn input(&self, id: &str) -> Input<'a> {
        let shows_progress = id == "FILE" && !self.found.get_flag("quiet");
        let name = self.found.get_str(id).unwrap_or("");
        Input::new(self.rt, name, shows_progress, self.state)
    }

    /// The input of the argument `id`, which is a checkpoint.
    pub(crate) fn checkpoint(&self, id: &str) -> Input<'a> {
        let name = self.found.get_str(id).unwrap_or("");
        Input::checkpoint(self.rt, name, self.state)
    }

    /// The inputs of `join`. `AllocError` if memory runs out.
    fn parts(&self, alloc: Global) -> Result<Vec<Input<'a>>, AllocError> {
        let names = self.found.get_strs("PART").unwrap_or(&[]).iter();
        names
            .map(|name| Input::checkpoint(self.rt, name, self.state))
            .collect(alloc)
    }

    /// The ranges of numbers of entries, counted from 1, or `None` for `all`. The errors are those of [`add_ranges`].
    fn ranges(&self, alloc: Global) -> Result<Option<Vec<Range>>, ArgsError<'a>> {
        let words = self.found.get_strs("NUMBER").unwrap_or(&[]);
        if words == ["all"].as_slice() {
            return Ok(None);
        }
        let mut ranges = Vec::with_capacity(alloc, words.len())?;
        let mut count = 0;
        for word in words {
            count = add_ranges(&mut ranges, count, word)?;
        }
        Ok(Some(ranges))
    }

    /// The numbers of entries, counted from 1, or `None` for `all`. The errors are those of [`add_ranges`].
    fn numbers(&self, alloc: Global) -> Result<Option<Vec<usize>>, ArgsError<'a>> {
        match self.ranges(alloc)? {
            Some(ranges) => Ok(Some(numbers_in(alloc, &ranges)?)),
            None => Ok(None),
        }
    }

    /// The numbers of the entries to prove, if they may be many: all of a checkpoint, or ranges of more than `MANY`;
    /// else `None`. The errors are those of [`add_ranges`].
    fn many(&self, alloc: Global) -> Result<Option<Many>, ArgsError<'a>> {
        let Some(ranges) = self.ranges(alloc)? else {
            return Ok(Some(Many::All));
        };
        if count_of(&ranges) > MANY {
            Ok(Some(Many::Ranges(ranges)))
        } else {
            Ok(None)
        }
    }

    /// The entries that are requested of a proof. The errors are those of [`add_ranges`].
    fn requested(&self, alloc: Global) -> Result<Requested, ArgsError<'a>> {
        if self.found.get_strs("NUMBER").is_none() {
            self.state.lacks_numbers.set(true);
            return Ok(Requested::Any);
        }
        let numbers = self.numbers(alloc)?;
        Ok(numbers.map_or(Requested::All, Requested::Numbers))
    }

    /// The origin: that of a part, the one that is given, or `localhost/` and the file's name. `AllocError` if memory
    /// runs out.
    fn origin(&self, alloc: Global) -> Result<String, AllocError> {
        if self.found.get_flag("part") {
            return String::from_str(alloc, PART_ORIGIN);
        }
        if let Some(origin) = self.found.get_str("origin") {
            return String::from_str(alloc, origin);
        }
        let name = match self.found.get_str("FILE") {
            Some("-") => "stdin",
            file => Path::new(file.unwrap_or("")).file_name().unwrap_or(""),
        };
        format!(in alloc; "localhost/{name}")
    }

    /// How the file is cut into entries.
    pub(crate) fn framing(&self) -> Framing {
        match self.found.get_one("blocks") {
            Some(bytes) => Framing::Blocks(bytes),
            None if self.found.get_flag("whole-lines") => Framing::Lines(PartialLine::LeaveOut),
            None if self.found.get_flag("partial") => Framing::Lines(PartialLine::Include),
            None => Framing::Lines(PartialLine::Refuse),
        }
    }

    /// How the entries of a proof are printed.
    fn print(&self) -> Print {
        match self.found.get_one("blocks") {
            Some(bytes) => Print::Blocks(bytes),
            None if self.found.get_flag("raw") => Print::Raw,
            None => Print::Lines,
        }
    }
}

/// Appends to `ranges`, which have `count` numbers, those that `word` names: numbers and ranges with commas between.
/// Returns how many numbers there are then. `Word` if it names none, or there are more than `MAX_ENTRIES_PER_PROOF`;
/// `OutOfMemory` if memory runs out.
fn add_ranges<'a>(
    ranges: &mut Vec<Range>,
    count: usize,
    word: &'a str,
) -> Result<usize, ArgsError<'a>> {
    let mut count = count;
    for range in word.split(',') {
        let range = range_of(range).map_err(|why| ArgsError::Word(Escaped(word), why))?;
        count = count.saturating_add(count_of(&[range]));
        if count > MAX_ENTRIES_PER_PROOF {
            let why = "more than 100000000 entries at once";
            return Err(ArgsError::Word(Escaped(word), why));
        }
        ranges.push(range)?;
    }
    Ok(count)
}

/// The first and the last number of `range`, as `3-7`, or twice that of one number; or why it is none.
fn range_of(range: &str) -> Result<(usize, usize), &'static str>
    ensures { IfOk result (λ (first, last). first ≤ last) }
{
    let (first, last) = range.split_once('-').unwrap_or((range, range));
    let (first, last) = (number_of(first)?, number_of(last)?);
    if last < first {
        return Err("a range goes upwards");
    }
    Ok((first, last))
}

/// The number of an entry, from 1 to 2^62; or why `word` is none.
fn number_of(word: &str) -> Result<usize, &'static str> {
    if word.is_empty() || !word.bytes().all(|byte| byte.is_ascii_digit()) {
        return Err("no number of an entry, as 3, 3-7, 3,7 or all");
    }
    match word.parse() {
        Ok(0) => Err("entries are numbered from 1"),
        Ok(number) if number <= SIZE_LIMIT => Ok(number),
        _ => Err("a log has at most 4611686018427387904 entries"),
    }
}

/// The syntax of the arguments, by the table `COMMANDS`. `AllocError` if memory runs out.
fn program<'a>(alloc: Global) -> Result<Syntax<'a>, AllocError> {
    let mut program = Syntax::new(alloc, "fohlazu")
        .bin_name("fohlazu")?
        .version(VERSION)
        .about("Seals logs in files by RFC 9162, proves entries and growth, and verifies proofs")
        .after_help(
            "The name - is standard input or output. Example: fohlazu seal log -o checkpoint",
        )
        .subcommand_required(true)
        .arg_required_else_help(true);
    for (name, about, example, ids) in COMMANDS {
        let mut command = Syntax::new(alloc, name).about(about).after_help(example);
        for id in ids.split(' ') {
            command = command.arg(argument(alloc, id)?)?;
        }
        program = program.subcommand(command)?;
    }
    Ok(program)
}

/// The argument of the word `id` of `COMMANDS`: an option in small letters, an operand in capitals. `!` marks one that
/// a command requires, though another does not. `AllocError` if memory runs out.
fn argument<'a>(alloc: Global, id: &str) -> Result<Arg<'a>, AllocError> {
    Ok(match id {
        "origin" => arg!(in alloc; --origin <ORIGIN> "The log's name, if not `localhost/FILE`"),
        "origin!" => arg!(in alloc; --origin <ORIGIN> "The log's name").required(true),
        "part" => arg!(in alloc; --part "Print a part, for `join`").conflicts_with("origin")?,
        "blocks" =>
            arg!(in alloc; --blocks <BYTES> "Take blocks of 1 to 1073741824 bytes as entries")
                .value_parser(value_parser!(usize).range(1..=MAX_BLOCK_BYTES as i64))
                .group("cut")?,
        "whole-lines" => arg!(in alloc; --"whole-lines" "Leave out a partial line").group("cut")?,
        "partial" => arg!(in alloc; --partial "Take a partial line as an entry").group("cut")?,
        "raw" => arg!(in alloc; --raw "Print one entry byte for byte").group("cut")?,
        "output" => arg!(in alloc; -o --output <OUTPUT> "Write to this file, once all went well"),
        "quiet" => arg!(in alloc; --quiet "Do not show how far the file is read"),
        _ => operand(alloc, id)?,
    })
}

/// The operand of the word `id` of `COMMANDS`. `AllocError` if memory runs out.
fn operand<'a>(alloc: Global, id: &str) -> Result<Arg<'a>, AllocError> {
    Ok(match id {
        "CHECKPOINT" => arg!(in alloc; <CHECKPOINT> "The checkpoint"),
        "OLD" => arg!(in alloc; <OLD> "The old checkpoint"),
        "NEW" => arg!(in alloc; <NEW> "The new checkpoint"),
        "FILE" => arg!(in alloc; <FILE> "The file, which may have grown since it was sealed"),
        "PROOF" => arg!(in alloc; <PROOF> "The proof"),
        "PART" =>
            arg!(in alloc; <PART> ... "The parts, in order; all but the last have 2^k entries, with one k"),
        "NUMBER" =>
            arg!(in alloc; [NUMBER] ... "The entries, as 3, 3-7, 3,7 or all; else any, each after its number"),
        // The table of commands has no other operand than `NUMBER!`.
        _ => arg!(in alloc; <NUMBER> ... "The entries, as 3, 3-7, 3,7 or all, counted from 1"),
    })
}
