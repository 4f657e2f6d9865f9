//! Reads the job from the words of the command line.
ghost use Rattle.std.specs.Prelude.{◌≡◌, ◌⊎◌, Some, IfErr, IfOk, map};
ghost use Rattle.clap.specs.Values.{kind_of};
ghost use Rattle.crib_command.specs.Command.{commands_of};
ghost use Rattle.crib_answer.specs.Job.{job_names};
ghost use Rattle.cribplan.specs.Command.{IsJobWords, words_refusal};

use clap::Error;
use clap::error::ErrorKind;
use crib_answer::{Job, NAMES};
use crib_command::{Program, command_of};
use std::alloc::Global;
use std::convert::AsStr;

/// Returns the program. The end of its help text has a line for each command, the exit statuses, an example, and where
/// to read more. The hint is printed after a word that is not a command, and after a second word, which is often the
/// name of a file.
pub fn program() -> Program
    ensures { commands_of result ≡ job_names }
{
    Program {
        name: "cribplan",
        usage: "cribplan <command> < INPUT",
        commands: NAMES.as_slice(),
        after_help: "\
Commands:
  check   reads a problem and a plan: is it sure? If not, the first game in which it fails; cribsheet plan says why
  solve   reads a problem: a plan that is sure, or none
  replay  reads a problem and a game: the scores, the counted hands, and how the deal ended
  board   reads a problem and a game: every act with its points, and where the pegs are
  follow  reads a problem, a plan and a game: the state of the game under the plan

Exit status:
  0  the answer is printed, or is yes
  1  the answer is no
  2  the command line or the input is refused
  3  reading or writing failed, memory ran out, or the plan that was found is too large

An example:
  cribplan check < examples/sure-plan.txt

Manual: man cribplan. Guide, formats and examples: share/doc/cribplan, beside the bin that has the program",
        hint: "
The command is check, solve, replay, board or follow. It is the only word, and --help the only option; for the version
type cribplan-tidy --version. The input is read from standard input, as in
  cribplan solve < FILE
",
    }
}

/// Returns the job that the words name. The first word is the name of the program. After it is the name of a job and
/// no other word, except that one `--` may come before or after the name.
///
/// Other words are refused, as [`command_of`] says. The kind of the error is `OutOfMemory` if an allocation failed.
pub fn job_of<S: AsStr>(alloc: Global, words: &[S]) -> Result<Job, Error>
    ensures named { IfOk result (λ job. IsJobWords (map S.text words.now) job) }
    ensures taken { IfErr result (λ error. (job : Job) → IsJobWords (map S.text words.now) job
        → kind_of error ≡ ErrorKind.OutOfMemory) }
    ensures refused { IfErr result (λ error. (kind_of error ≡ ErrorKind.OutOfMemory)
        ⊎ (words_refusal (map S.text words.now) ≡ Some (kind_of error))) }
{
    command_of(alloc, &program(), words)
}
