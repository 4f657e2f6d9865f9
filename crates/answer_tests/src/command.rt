//! Tests of the words of a program that reads any name, and of the status of words that name no command.
ghost use Rattle.std.specs.Prelude.{◌≡◌, [], ◌∷◌, Ok, codes, length};
ghost use Rattle.crib_command.specs.Command.{commands_of};

use crate::same;
use clap::Error;
use clap::error::ErrorKind;
use crib_command::{Program, command_of, command_without_words, status_of_words};
use crib_run::Status;
use std::io;
use std::process::Abort;
use std::str::FromStr;

// A command by the length of its name, so that every name is read.
#[derive(Clone, Copy, Drop)]
struct Letters {
    count: usize,
}

impl FromStr for Letters {
    type Err = ErrorKind;

    ghost from_str_gives = { λ text r. r ≡ Ok (record { count = length text }) };

    fn from_str(text: &str) -> Result<Letters, ErrorKind> {
        Ok(Letters { count: text.len() })
    }
}

static NAMES: [&str; 2] = ["deal", "peg"];

fn program() -> Program
    ensures { commands_of result ≡ codes "deal" ∷ codes "peg" ∷ [] }
{
    Program {
        name: "cards",
        usage: "cards <command> < INPUT",
        commands: NAMES.as_slice(),
        after_help: "Two commands.",
        hint: "The command is the only word.",
    }
}

// The command that the words name.
fn command_in(rt: &(impl Abort + AllocGlobal), words: &[&str]) -> Result<Letters, Error> {
    command_of(rt.alloc(), &program(), words)
}

// The letters of a command, or the kind of the refusal.
fn letters_of(command: Result<Letters, Error>) -> Result<usize, ErrorKind> {
    match command {
        Ok(letters) => Ok(letters.count),
        Err(error) => Err(error.kind()),
    }
}

// Asserts that the words of a line are a command with so many letters, or are refused for this kind.
fn reads(rt: &(impl Abort + AllocGlobal), line: &str, wanted: Result<usize, ErrorKind>) {
    let words: Vec<&str> = line.split(' ').collect(rt.alloc()).expect(rt, "memory");
    same(rt, letters_of(command_in(rt, words.as_slice())), wanted);
}

#[test]
fn reads_the_words(rt: HostRuntime) {
    reads(&rt, "cards deal", Ok(4));
    reads(&rt, "cards peg", Ok(3));
    reads(&rt, "cards pe", Err(ErrorKind::InvalidValue));
    reads(&rt, "cards --help", Err(ErrorKind::DisplayHelp));
    reads(&rt, "cards -x", Err(ErrorKind::UnknownArgument));
    reads(&rt, "cards --help=peg", Err(ErrorKind::TooManyValues));
    reads(&rt, "peg peg --", Ok(3));
    reads(&rt, "cards -- peg", Ok(3));
    reads(&rt, "cards deal peg", Err(ErrorKind::UnknownArgument));
    reads(&rt, "cards", Err(ErrorKind::MissingRequiredArgument));
}

#[test]
fn has_a_status_for_each_refusal(rt: HostRuntime) {
    same(
        &rt,
        status_of_words(ErrorKind::DisplayHelp, true),
        Status::Yes,
    );
    same(
        &rt,
        status_of_words(ErrorKind::DisplayHelp, false),
        Status::Fault,
    );
    same(
        &rt,
        status_of_words(ErrorKind::InvalidValue, true),
        Status::Refused,
    );
    same(
        &rt,
        status_of_words(ErrorKind::UnknownArgument, false),
        Status::Refused,
    );
}

// Asserts that the command line is refused for this kind if the system fails to pass its words.
fn refuses(rt: &(impl Abort + AllocGlobal), cause: io::ErrorKind, wanted: ErrorKind) {
    let error = io::Error::from(cause);
    let command = command_without_words(rt.alloc(), &program(), &error);
    same(rt, letters_of(command), Err(wanted));
}

// If the system passes no words because one is not text, the name of the command is missing. If an allocation failed,
// the error says so.
#[test]
fn reads_no_words_that_are_no_text(rt: HostRuntime) {
    refuses(
        &rt,
        io::ErrorKind::InvalidData,
        ErrorKind::MissingRequiredArgument,
    );
    refuses(&rt, io::ErrorKind::OutOfMemory, ErrorKind::OutOfMemory);
}
