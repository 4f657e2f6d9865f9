//! Reads the command from the words of the command line.
ghost use Rattle.std.specs.Prelude.{◌≡◌, ◌⊎◌, false, true, Ok, Option, Some, IfErr, IfOk};
ghost use Rattle.std.specs.Prelude.{IfSome, IsErrAnd, IsTrue, List, ℕ, map};
ghost use Rattle.std.specs.IoError.{error_kind};
ghost use Rattle.clap.specs.Values.{kind_of};
ghost use Rattle.clap.specs.Words.{Text, found_of};
ghost use Rattle.clap.specs.declared.error.kind.ErrorKind.TheVariants.{UnknownArgument};
ghost use Rattle.crib_command.specs.Command.{AreReadable, IsCommandWords, commands_of, refusal_from, words_refusal};
ghost use Rattle.crib_command.specs.Private.Command.{AreValuesOf, HasCommand, IsRefusedFor, is_unknown_option};

use crate::program::Program;
use clap::builder::PossibleValue;
use clap::error::ErrorKind;
use clap::{Arg, ArgAction, ArgMatches, Command, Error};
use std::alloc::{AllocError, Global};
use std::convert::AsStr;
use std::io::{Error as IoError, ErrorKind as IoErrorKind};
use std::str::FromStr;

// The help text of the word `command`. The list of the commands is below the options.
const COMMAND: &str = "What to do with standard input";

// Returns the names of the commands as values that no text of clap lists. clap compares a wrong word with each value
// that it lists; an allocation that fails there is asked for again, for less, and the failure would not be reported.
fn hidden_values<'a>(alloc: Global, program: &Program) -> Result<Vec<PossibleValue<'a>>, AllocError>
    ensures { IfOk result (λ values. AreValuesOf (commands_of program.now) values.items) }
{
    let mut values = Vec::new(alloc);
    for name in program.commands {
        values.push(PossibleValue::new(name).hide(true))?;
    }
    Ok(values)
}

// Whether a word is an option with two hyphens and with another name than `help`.
fn is_unknown_option(word: &str) -> bool
    ensures { IsTrue result → is_unknown_option word.now ≡ true }
{
    let bytes = word.as_bytes();
    match word {
        "--" | "--help" => false,
        _ if bytes.starts_with(b"--help=") => false,
        _ => bytes.starts_with(b"--"),
    }
}

// Returns the first word that is an unknown option with two hyphens, unless clap would stop at an option before it.
// clap compares such a word with `--help`; an allocation that fails there is asked for again, for less, and the failure
// would not be reported.
fn unknown_option<'a, S: AsStr>(words: &'a [S]) -> Option<&'a str>
    ensures { IfSome result (λ _. (names : List Text)
        → words_refusal names (map S.text words.entry.now) ≡ Some UnknownArgument) }
{
    match words {
        [_, typed @ ..] => first_unknown(typed),
        [] => None,
    }
}

// Returns the first unknown option with two hyphens of the words after the name of the program.
fn first_unknown<'a, S: AsStr>(typed: &'a [S]) -> Option<&'a str>
    ensures { IfSome result (λ _. (names : List Text) (name : Option Text)
        → refusal_from names (map S.text typed.entry.now) false name ≡ Some UnknownArgument) }
{
    let [first, others @ ..] = typed else {
        return None;
    };
    let word = first.as_str();
    match word {
        "-" => first_unknown(others),
        _ if is_unknown_option(word) => Some(word),
        _ if word.as_bytes().starts_with(b"-") => None,
        _ => first_unknown(others),
    }
}

// Returns the refusal of an unknown option, in the form of clap's.
fn refused_option(alloc: Global, program: &Program, word: &str) -> Result<Error, AllocError>
    ensures { IfOk result (λ error. kind_of error ≡ ErrorKind.UnknownArgument) }
{
    let message = format!(in alloc; "unexpected argument '{word}' found")?;
    let mut command = Command::new(alloc, program.name).override_usage(program.usage);
    command.error(ErrorKind::UnknownArgument, message.as_str())
}

// Parses the words with clap. Returns matches with the name of a command as the value of `command`, or clap's refusal.
fn matches_of_words<'a, S: AsStr>(
    alloc: Global,
    program: &Program,
    values: &'a [PossibleValue<'a>],
    words: &'a [S],
) -> Result<ArgMatches<'a>, Error>
    requires { AreValuesOf (commands_of program.now) values.now }
    ensures found { IfOk result (λ m. HasCommand (commands_of program.now) (map S.text words.entry.now) (found_of m)) }
    ensures refused { IsRefusedFor (commands_of program.now) (map S.text words.entry.now) result }
{
    let name = Arg::new(alloc, "command")
        .help(COMMAND)
        .required(true)
        .action(ArgAction::Set)
        .value_parser(values)
        .hide_possible_values(true);
    let command = Command::new(alloc, program.name)
        .override_usage(program.usage)
        .after_help(program.after_help)
        .arg(name)?;
    command.try_get_matches_from(words)
}

/// Returns the command that the words name, as its name is read. The first word is the name of the program. After it
/// is the name of a command and no other word, except that one `--` may come before or after the name.
///
/// Other words are refused. They are read from left to right, and the kind of the error is that of the first refusal:
///
/// - `DisplayHelp`: the word is `--help`, or an option with one hyphen whose first letter is `h`. If a word before it
///   was read as the name of a command but is not one, the kind is `InvalidValue`.
/// - `TooManyValues`: the word is `--help=` with a value.
/// - `UnknownArgument`: the word is another option, or a second name.
/// - `MissingRequiredArgument`: the words end without a name.
/// - `InvalidValue`: the words end, and the word that was read as the name of a command is not one.
///
/// The kind is `OutOfMemory` if an allocation failed.
pub fn command_of<C: FromStr, S: AsStr>(
    alloc: Global,
    program: &Program,
    words: &[S],
) -> Result<C, Error>
where
    C::Err: Drop,
    requires { AreReadable C.from_str_gives (commands_of program.now) }
    ensures named { IfOk result (λ command. (name : List ℕ)
        × IsCommandWords (commands_of program.now) (map S.text words.now) name × C.from_str_gives name (Ok command)) }
    ensures taken { IfErr result (λ error. (name : List ℕ)
        → IsCommandWords (commands_of program.now) (map S.text words.now) name
        → kind_of error ≡ ErrorKind.OutOfMemory) }
    ensures refused { IfErr result (λ error. (kind_of error ≡ ErrorKind.OutOfMemory)
        ⊎ (words_refusal (commands_of program.now) (map S.text words.now) ≡ Some (kind_of error))) }
{
    if let Some(word) = unknown_option(words) {
        return Err(refused_option(alloc, program, word)?);
    }
    let values = hidden_values(alloc, program)?;
    let matches = matches_of_words(alloc, program, values.as_slice(), words)?;
    Ok(matches.get_one::<C>("command").unwrap())
}

/// Returns an error for words that the system could not pass on. Its kind is `OutOfMemory` if `error` has that kind.
/// Otherwise a word is not text, and the error is that of a command line without words: `MissingRequiredArgument`, or
/// `OutOfMemory` if an allocation fails.
pub fn command_without_words<C: FromStr>(
    alloc: Global,
    program: &Program,
    error: &IoError,
) -> Result<C, Error>
where
    C::Err: Drop,
    requires { AreReadable C.from_str_gives (commands_of program.now) }
    ensures memory { error_kind error.now ≡ IoErrorKind.OutOfMemory
        → IsErrAnd result (λ refusal. kind_of refusal ≡ ErrorKind.OutOfMemory) }
    ensures missing { IsErrAnd result (λ refusal. (kind_of refusal ≡ ErrorKind.OutOfMemory)
        ⊎ (kind_of refusal ≡ ErrorKind.MissingRequiredArgument)) }
{
    if error.kind() == IoErrorKind::OutOfMemory {
        return Err(Error::from(AllocError));
    }
    let none: [&str; 0] = [];
    command_of(alloc, program, &none)
}
