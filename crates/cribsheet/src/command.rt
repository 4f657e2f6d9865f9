//! The program, as its command line describes it.
ghost use Rattle.std.specs.Prelude.{◌≡◌};
ghost use Rattle.crib_command.specs.Command.{commands_of};
ghost use Rattle.crib_sheet.specs.Job.{job_names};

use crib_command::Program;
use crib_sheet::NAMES;

/// Returns the program. The end of its help text has a line for each command, the exit statuses, an example,
/// and where to read more.
pub fn program() -> Program
    ensures { commands_of result ≡ job_names }
{
    Program {
        name: "cribsheet",
        usage: "cribsheet <command> < INPUT",
        commands: NAMES.as_slice(),
        after_help: "\
Commands:
  plan    reads a problem and a plan, as cribplan check does, or a problem alone, for which it finds a plan, as try
          does: the plan in words, and whether it is sure
  game    reads a problem and a game, as cribplan replay does: the game with a reason for each point
  beaten  reads a problem and a plan, as cribplan check does: how many deals beat the plan
  try     reads a problem, as cribplan solve does: a sure plan, or one that few deals should beat
  refute  reads a problem, as cribplan solve does: if no plan is sure, games that show that nobody is, or suits
  why     reads a problem, as cribplan solve does: the same in words, what beats each card
  leads   reads a problem, as cribplan solve does: which cards are sure to play now, and how near the others are
  next    reads a problem, a plan and the turns since: what comes next
  scores  reads a problem, as cribplan solve does: at which scores turns are sure, or a plan is
  holes   reads a problem, as cribplan solve does: how many holes are sure, at all and with each card

Exit status:
  0  the sheet is printed, and a plan is sure; for leads on the opponent's turn, one is after each card; for next, it
     says what to do
  1  the sheet is printed, and the plan is not sure; for try, or if the input has no plan, no plan is
  2  the command line or the input is refused
  3  reading or writing failed, or memory ran out

An example:
  cribsheet plan < examples/twelve-holes-to-find.txt

Manual: man cribsheet. Guide, formats and examples: share/doc/cribplan, beside the bin that has the program",
        hint: "
The command is plan, game, beaten, try, refute, why, leads, next, scores or holes. It is the only word, and --help the
only option; for the version type cribplan-tidy --version. The input is read from standard input, as in
  cribsheet plan < FILE
",
    }
}
