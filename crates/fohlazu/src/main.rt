//! Seals logs in files, proves their entries and their growth, and verifies the proofs: `fohlazu --help` says how.
#![tactic(auto)]

mod args;
mod input;
mod many;
mod output;
mod progress;
mod watch;

ghost use Rattle.fohlazu_commands.specs.Commands.{IsWellFormed};

use args::{Args, ArgsError, Escaped, Request, parse_args};
use fohlazu_commands::{Command, Error, run};
use input::{Input, RunState};
use many::Many;
use output::{Replacement, StandardOutput};
use std::fmt::Display;
use std::process::ExitCode;
use std::{env, io};

fn main(rt: HostRuntime) -> ExitCode {
    let words = match read_words(&rt) {
        Ok(words) => words,
        Err(error) if error.kind() == io::ErrorKind::OutOfMemory => return refuse_memory(&rt),
        Err(_) => return refuse(&rt, "an argument is no text in UTF-8"),
    };
    let state = RunState::default();
    match parse_args(&rt, &state, &words) {
        Ok((request, args)) => match request {
            Request::Run(command) => run_command(&args, command),
            Request::ProveMany(many) => prove_many(&args, &many),
        },
        Err(ArgsError::Clap(error)) => report_clap_error(&rt, &error),
        Err(error) => refuse(&rt, error),
    }
}

/// The arguments of the program, its name first.
fn read_words(rt: &HostRuntime) -> io::Result<Vec<String>> {
    let mut words = Vec::new(rt.alloc());
    // The words of `args` have spare room, and their copies have none.
    for word in env::args(rt)? {
        words.push(word.clone()?)?;
    }
    Ok(words)
}

/// Runs a command, which must be well formed. Returns the exit code.
fn run_command(args: &Args<'_>, command: Command<Input<'_>>) -> ExitCode
    requires { IsWellFormed command }
{
    match args.output() {
        Some(name) => run_to_file(args, command, name),
        None => {
            let mut output = StandardOutput(args.rt, args.state);
            finish(args, run(args.rt.alloc(), command, &mut output))
        }
    }
}

/// Proves the entries of `many`. Returns the exit code.
fn prove_many(args: &Args<'_>, many: &Many) -> ExitCode {
    let (rt, alloc, framing) = (args.rt, args.rt.alloc(), args.framing());
    // An output that cannot be written is refused ahead of the inputs, as it is where entries are few.
    if let Some(name) = args.output() {
        if let Err(error) = Replacement::new(rt, name) {
            return refuse_output(rt, name, error);
        }
    }
    let mut checkpoint = args.checkpoint("CHECKPOINT").rereadable();
    let mut file = args.input("FILE").rereadable();
    match many.numbers(alloc, framing, &mut checkpoint, &mut file) {
        Ok(numbers) => {
            let command = Command::Prove {
                framing,
                checkpoint,
                file,
                numbers,
            };
            // It is well formed, since `parse_args` has read the numbers. No contract says so.
            if command.is_well_formed() {
                run_command(args, command)
            } else {
                refuse(rt, "no number of an entry")
            }
        }
        Err(error) => finish(args, Err(error)),
    }
}

/// Runs a command, which must be well formed, and puts its output in the place of the file `name`. Returns the exit
/// code.
fn run_to_file(args: &Args<'_>, command: Command<Input<'_>>, name: &str) -> ExitCode
    requires { IsWellFormed command }
{
    let rt = args.rt;
    let mut output = match Replacement::new(rt, name) {
        Ok(output) => output,
        Err(error) => return refuse_output(rt, name, error),
    };
    let done = run(rt.alloc(), command, &mut output);
    let replaced = if done.is_ok() {
        output.finish()
    } else {
        output.give_up()
    };
    match replaced {
        Ok(()) => finish(args, done),
        Err(error) => {
            args.state.clear_progress(rt);
            refuse_output(rt, name, error)
        }
    }
}

/// Ends a run that answered `done`: prints why it failed and what the input is called, or that the caller has to
/// compare numbers. Returns the exit code.
fn finish(args: &Args<'_>, done: Result<(), Error>) -> ExitCode {
    let rt = args.rt;
    let state = args.state;
    state.clear_progress(rt);
    let Err(error) = done else {
        if state.lacks_numbers.get() {
            let why = "entry numbers were not compared: check that they are those you requested";
            let _ = eprintln!(rt; "fohlazu: {why}");
        }
        return ExitCode::SUCCESS;
    };
    let name = error.source().map(|source| Escaped(args.name_of(source)));
    let _ = match (name, error, state.failure.get()) {
        (Some(name), Error::Read(_), Some(failure)) => eprintln!(rt; "fohlazu: {name}: {failure}"),
        (Some(name), _, _) => eprintln!(rt; "fohlazu: {name}: {error}"),
        (None, Error::Write, Some(failure)) => eprintln!(rt; "fohlazu: standard output: {failure}"),
        (None, _, _) => eprintln!(rt; "fohlazu: {error}"),
    };
    ExitCode::from(error.exit_code())
}

/// Prints the help that is asked for, or what is wrong about the arguments. Returns exit code 0 if help was asked for
/// and printed, else 2.
fn report_clap_error(rt: &HostRuntime, error: &clap::Error) -> ExitCode {
    if error.kind() == clap::error::ErrorKind::OutOfMemory {
        return refuse_memory(rt);
    }
    if error.exit_code() == 0 {
        return ExitCode::from(error.print(rt).map_or(2, |()| 0));
    }
    let Ok(text) = format!(in rt.alloc(); "{error}") else {
        return refuse_memory(rt);
    };
    // The error quotes arguments: each line is escaped, and clap's line feeds are kept.
    for line in text.lines() {
        let _ = eprintln!(rt; "{}", Escaped(line));
    }
    ExitCode::from(2)
}

/// Prints why the output `name` cannot be written, without the name if memory ran out. Returns exit code 2.
fn refuse_output(rt: &HostRuntime, name: &str, error: io::Error) -> ExitCode {
    if error.kind() == io::ErrorKind::OutOfMemory {
        return refuse_memory(rt);
    }
    let _ = eprintln!(rt; "fohlazu: {}: {error}", Escaped(name));
    ExitCode::from(2)
}

/// Prints that memory ran out. Returns exit code 2.
fn refuse_memory(rt: &HostRuntime) -> ExitCode {
    refuse(rt, "out of memory")
}

/// Prints why the program stops. Returns exit code 2.
fn refuse(rt: &HostRuntime, why: impl Display + Drop) -> ExitCode {
    let _ = eprintln!(rt; "fohlazu: {why}");
    ExitCode::from(2)
}
