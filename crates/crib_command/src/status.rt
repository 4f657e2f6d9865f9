//! The status of words that name no command.
ghost use Rattle.std.specs.Prelude.{◌≡◌};
ghost use Rattle.crib_command.specs.Status.{words_status};

use clap::error::ErrorKind;
use crib_run::Status;

/// Returns the status of words that name no command, by the kind of clap's refusal and whether its text was printed. It
/// is `Yes` for help that was printed, and `Fault` for help that was not. It is `Refused` for every other refusal,
/// whether it was printed or not.
pub fn status_of_words(kind: ErrorKind, printed: bool) -> Status
    ensures { result ≡ words_status kind printed }
{
    match kind {
        ErrorKind::DisplayHelp if printed => Status::Yes,
        ErrorKind::DisplayHelp => Status::Fault,
        _ => Status::Refused,
    }
}
