//! The words that the system passes on, and the printing of their refusal.
ghost use Rattle.std.specs.Prelude.{◌≡◌, Bool};
ghost use Rattle.clap.specs.Values.{kind_of};
ghost use Rattle.crib_command.specs.Status.{words_status};

use crate::program::Program;
use crate::status::status_of_words;
use clap::Error;
use clap::error::ErrorKind;
use crib_run::Status;
use std::rt::Env;
use std::{env, io};

/// Returns the words of the command line. Fails if one is not text, or if an allocation fails. The function has no
/// contract, because the library states nothing about the words that the system passes on. That they are the typed
/// words is trusted. That they are passed on is tested.
pub fn words_of_args(rt: &(impl Env + AllocGlobal)) -> io::Result<Vec<String>> {
    // Words are pushed one at a time. `collect` would ignore a failed allocation and ask for less.
    let mut texts = Vec::new(rt.alloc());
    for word in env::args(rt)? {
        texts.push(word)?;
    }
    Ok(texts)
}

/// Prints clap's text: help on standard output, any other refusal on standard error, with the program's hint after a
/// word that the program does not know. Returns the status of the run. The contract does not say what is printed.
pub fn show(rt: &(impl Print + Eprint), program: &Program, error: &Error) -> Status
    ensures { (printed : Bool) × (result ≡ words_status (kind_of error.now) printed) }
{
    let printed = error.print(rt).is_ok();
    if matches!(
        error.kind(),
        ErrorKind::InvalidValue | ErrorKind::UnknownArgument
    ) {
        let _hinted = rt.eprint(program.hint);
    }
    status_of_words(error.kind(), printed)
}
