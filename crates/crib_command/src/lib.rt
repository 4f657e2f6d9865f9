//! The words of a program's command line, the command that they name, or why they name none.
#![tactic(auto)]

mod args;
mod command;
mod program;
mod status;

pub use args::{show, words_of_args};
pub use command::{command_of, command_without_words};
pub use program::Program;
pub use status::status_of_words;
