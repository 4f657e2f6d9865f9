//! A program, as its command line describes it.

/// A program with several commands, one of which is the only word of its command line.
#[derive(Clone, Copy)]
pub struct Program {
    /// The name of the program.
    pub name: &'static str,
    /// The usage line of the help text. It shows where the input comes from.
    pub usage: &'static str,
    /// The names of the commands, in the order in which the help text lists them.
    pub commands: &'static [&'static str],
    /// The end of the help text, below the options.
    pub after_help: &'static str,
    /// What is printed below the refusal of a word that is not the name of a command, of a second word, or of an
    /// unknown option. It names the commands.
    pub hint: &'static str,
}
