//! The words of the command line.
use crate::command::program;
use crate::tests::runs::has_parts;
use crate::tests::same;
use clap::Error;
use clap::error::ErrorKind;
use crib_command::command_of;
use crib_sheet::SheetJob;
use std::alloc::Global;
use std::process::Abort;

// The job that the words name.
fn job_of(alloc: Global, words: &[&str]) -> Result<SheetJob, Error> {
    command_of(alloc, &program(), words)
}

// Asserts that the words of a line name this job, or are refused for this kind.
fn reads(rt: &(impl Abort + AllocGlobal), line: &str, wanted: Result<SheetJob, ErrorKind>) {
    let words: Vec<&str> = line.split(' ').collect(rt.alloc()).expect(rt, "memory");
    let found = match job_of(rt.alloc(), words.as_slice()) {
        Ok(job) => Ok(job),
        Err(error) => Err(error.kind()),
    };
    same(rt, found, wanted);
}

#[test]
fn reads_the_words(rt: HostRuntime) {
    reads(&rt, "cribsheet plan", Ok(SheetJob::Plan));
    reads(&rt, "cribsheet game", Ok(SheetJob::Game));
    reads(&rt, "cribsheet beaten", Ok(SheetJob::Beaten));
    reads(&rt, "cribsheet try", Ok(SheetJob::Try));
    reads(&rt, "cribsheet refute", Ok(SheetJob::Refute));
    reads(&rt, "cribsheet why", Ok(SheetJob::Why));
    reads(&rt, "cribsheet leads", Ok(SheetJob::Leads));
    reads(&rt, "cribsheet next", Ok(SheetJob::Next));
    reads(&rt, "cribsheet scores", Ok(SheetJob::Scores));
    reads(&rt, "cribsheet holes", Ok(SheetJob::Holes));
    reads(&rt, "cribsheet check", Err(ErrorKind::InvalidValue));
    reads(&rt, "cribsheet --help", Err(ErrorKind::DisplayHelp));
    reads(&rt, "cribsheet --version", Err(ErrorKind::UnknownArgument));
    reads(&rt, "cribsheet", Err(ErrorKind::MissingRequiredArgument));
    reads(
        &rt,
        "cribsheet plan file.txt",
        Err(ErrorKind::UnknownArgument),
    );
}

// The help text shows where the input comes from, and has a line for each command.
#[test]
fn tells_what_each_command_does(rt: HostRuntime) {
    let refusal = job_of(rt.alloc(), &["cribsheet", "--help"]).expect_err(&rt, "the help text");
    let help = format!(in rt.alloc(); "{refusal}").expect(&rt, "memory");
    let parts = [
        "Usage: cribsheet <command> < INPUT\n",
        "  <command>  What to do with standard input\n",
        "\n  plan    reads a problem and a plan, ",
        "\n  game    reads a problem and a game, ",
        "\n  beaten  reads a problem and a plan, ",
        "\n  try     reads a problem, ",
        "\n  refute  reads a problem, ",
        "\n  why     reads a problem, ",
        "\n  leads   reads a problem, ",
        "\n  next    reads a problem, a plan and ",
        "\n  scores  reads a problem, ",
        "\n  holes   reads a problem, ",
        "\nManual: man cribsheet. ",
    ];
    has_parts(&rt, help.as_str(), &parts);
}
